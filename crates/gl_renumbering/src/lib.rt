//! Numbers locks and locations by first mention, so that what threads did decides the numbers.
//!
//! ```text
//! let told = by_mention(alloc, &names, lists)?;
//! let report = report_of_lists(alloc, &told.lists, &query)?;
//! ```
//!
//! A program that records itself numbers its locks and locations in the order in which it comes to them, which may
//! be another one in the next run. Numbers order the edges of a report, and so its cycles.
//! [`by_mention`] gives the same lists with numbers in the order in which the lists mention the names: thread 0's
//! list first, event by event, then thread 1's, and so on. `specs/Tales` says what lists tell, whatever their
//! numbers are: lists that tell the same are the same by mention ([`same_tales_same_lists`]).
//!
//! docs/GLOSSARY.md has its words beside those of the field.
#![tactic(auto)]

mod laws;
mod numbers;
mod renumbering;
mod threads;
mod unnamed;

pub use laws::{lists_by_mention_tell_the_same, same_tales_same_lists};
pub use renumbering::{ByMention, RenumberingFault, by_mention};
