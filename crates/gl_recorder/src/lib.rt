//! Recorders of one thread's events.
//!
//! A [`Taker`] is given the events of its thread one by one, as they happen. It answers the note of
//! each event that may come next, and refuses the others, with the reason.
//!
//! ```text
//! let mut taker = Taker::new(ThreadId::new(0), &limits);
//! let note = taker.take(Event::Acquire { lock, mode, loc })?;
//! ..
//! let last = taker.end();
//! ```
//!
//! A taker stores no list of events: it knows how many it took, how many of them were forks and
//! joins, and which locks its thread holds. So its contracts hold for every lawful list of events
//! that these could stand for.
//!
//! docs/GLOSSARY.md has its words beside those of the field.
#![tactic(auto)]

mod lawful;
mod taker;

pub use gl_event::Refusal;
pub use lawful::{are_lawful, is_lawful};
pub use taker::Taker;
