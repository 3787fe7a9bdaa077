//! A checker of reports: whoever made a report, it can be believed.
//!
//! A report is a line of JSON. [`check`] reads it, with the trace that it was made of. Where two
//! threads acquire two locks in opposite order, a report that lists the cycle of both edges is accepted,
//! with `cycles: 1`. Where an edge of it has another place than in the trace, it is refused: in formats 2
//! and 3, which have a table of the trace's edges, with [`CheckFault::Table`], and in format 1, which prints
//! the edges of each cycle, with [`CheckFault::Edge`].
//!
//! Format 3 lists findings, each shown by a cycle: what is told of many cycles once, since their edges were
//! made at the same pairs of places.
//!
//! The checker shares definitions with the maker of reports, and not its search: it looks at the keys of
//! the JSON, holds the table or each listed edge against the trace's own edges, judges each listed cycle,
//! and compares it with the one before: by its positions, and where it shows a finding by the signature of
//! that. Where the report gives an order in which all edges go, it looks whether each one may go next; then
//! the trace has no cycle, of whatever length.
//!
//! `specs/Checked.antt` says what an accepted report is: what is printed of a report over the trace's own
//! edges, whose cycles are cycles and ascend, and whose trim order, if it has one, takes away each edge.
//! Of findings the signatures ascend, so that no finding is told twice. That no cycle and no finding is
//! missing in a list is not checked, nor that a finding is shown by the first of its cycles.
//!
//! docs/GLOSSARY.md has its words beside those of the field.
#![tactic(auto)]

mod claims;
mod cycles;
mod edges;
mod faults;
mod fields;
mod input;
mod laws;
mod reports;
mod sayings;
mod signatures;

pub use faults::CheckFault;
pub use input::split_input;
pub use laws::listed_findings_differ;
pub use reports::{Checked, check};
