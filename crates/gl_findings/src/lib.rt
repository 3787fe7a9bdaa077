//! Findings: what of all cycles a reader has to look at.
//!
//! A server runs the same code in many threads, on many locks. Where two pieces of its code acquire locks in
//! opposite order, there are as many cycles as there are pairs of threads, and all of them are one fault.
//! A finding is such a fault: all cycles of one signature, which is the pairs of places in the source where
//! their edges were made. [`findings`] lists them, each once and shown by one of its cycles, and
//! [`class_counts`] tells how many threads made the edges of the same places, and on how many locks.
//!
//! docs/GLOSSARY.md has its words beside those of the field.
#![tactic(auto)]

mod counts;
mod finder;
mod grouped;
mod laws;
mod lengths;
mod listing;
mod outlook;
mod parallel;
mod reaching;
mod reports;
mod roots;
mod search;
mod shown;
mod turns;

pub use counts::{ClassCounts, class_counts};
pub use laws::{findings_are_cycles, findings_differ, listings_are_unique, no_finding_is_missed};
pub use listing::{Contents, Listing};
pub use reports::{report_of_lists, report_with, report_with_parallel};
pub use search::{findings, findings_parallel};
