//! Writes traces in the STD text form, thread by thread, as gl_std reads them.
//!
//! ```text
//! let trace = read_trace(alloc, text, &limits)?;
//! let written = write_trace(alloc, &trace)?;
//! ```
//!
//! [`write_trace`] gives the lines of the first thread's events, in order, then those of the second's,
//! and so on. `specs/Written` says which bytes these are. What is written of a trace that was read is read
//! again under the same limits, and tells the same ([`written_texts_are_read_again`]): only numbers
//! may differ, since they go by first mention.
//!
//! docs/GLOSSARY.md has its words beside those of the field.
#![tactic(auto)]

mod laws;
mod writing;

pub use laws::{written_lines_say_events, written_texts_are_read_again, written_texts_say_traces};
pub use writing::write_trace;
