//! The intake of a collector: one stream of all threads' notes.
//!
//! Recorders run side by side, and their notes come in any order. An [`Intake`] accepts a note
//! exactly where it is its thread's next one, so that each thread's notes stand in the stream in
//! the thread's own order, each once, and none after its end mark.
//!
//! ```text
//! let mut intake = Intake::new(alloc, &limits)?;
//! intake.offer(note)?;
//! let events = intake.log(thread);
//! ```
//!
//! A collector that must not lose a note asks [`Intake::ready`] first: it makes room for the note and
//! accepts nothing, and the offer after it takes no memory.
//!
//! docs/GLOSSARY.md has its words beside those of the field.
#![tactic(auto)]

mod intake;
mod laws;
mod notes;

pub use intake::Intake;
pub use laws::{notes_are_refused_unless_next, refusals_are_never_for_memory};
pub use notes::{Accepted, Refused};
