//! What a recorder sees: threads that acquire and release locks, and fork and join each other.
//!
//! An [`Event`] is one such step of one thread, with the place in the source where it stands. The
//! crate defines, for whole lists of a thread's events, which locks the thread holds and in which
//! mode, where each of them was opened, in which segment an event lies, and which event may come
//! next. [`Held`] keeps
//! the held locks of one thread while its events come one by one, and [`ThreadState`] all that is
//! known of the thread after them.
//!
//! docs/GLOSSARY.md has its words beside those of the field.
#![tactic(auto)]

mod events;
mod held;
mod ids;
mod limits;
mod lists;
mod notes;
mod thread_state;

pub use events::{Effect, Event, LockMode, Refusal, Segment, Wanted};
pub use held::{Held, HeldEntry, HeldFault, MAX_DEPTH, MAX_HELD, NotHeld};
pub use ids::{LocId, LockId, ThreadId};
pub use limits::{
    BadLimits, Limits, MAX_EVENTS, MAX_NAMES, MAX_RING, MAX_THREADS, limits_in_numbers,
};
pub use lists::{append, append_both, keep_both, make_room};
pub use notes::{Body, Note};
pub use thread_state::ThreadState;

/// Want of memory: a growth was refused. Calls that may take memory answer it, and only then.
pub type Memory = std::alloc::AllocError;
