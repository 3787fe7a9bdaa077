//! Readers and writers whose bytes a contract can speak of.
//!
//! A [`Source`] gives bytes and a [`Sink`] takes them, each call some; both tell contracts which
//! bytes are meant and whether they have failed. [`FromStd`] makes either from a reader or writer
//! of std, [`read_whole`] reads a source to its end, and [`write_out`] writes a whole text.
//!
//! ```text
//! let mut input = FromStd::new(rt.stdin());
//! let mut buffer = [0u8; 100];
//! let count = input.read(&mut buffer)?;
//! let mut output = FromStd::new(rt.stdout());
//! write_out(&mut output, &buffer[..count])
//! ```
//!
//! A source or sink that has failed is not to be used again: each call on it has that as a
//! condition.
//!
//! docs/GLOSSARY.md has its words beside those of the field.
#![tactic(auto)]

mod from_std;
mod sink;
mod source;
mod whole;

pub use from_std::FromStd;
pub use sink::{Sink, WriteFault, write_out};
pub use source::{CHUNK, Failed, Source};
pub use whole::{SourceText, read_whole};
