//! Trimming of edges: a certificate that there is no cycle.
//!
//! [`trim`] takes away edges that nothing may follow in a cycle, or that may follow nothing, one by one:
//! always the first one that is stuck so. No edge of a cycle is among them, since each has the next one
//! of its cycle as its follower and the one before as its leader. So where all go there is no cycle of
//! the mode, of whatever length, and the order in which they go shows it.
//!
//! They may go in another order too: [`removal_fault`] checks one that was given.
//!
//! docs/GLOSSARY.md has its words beside those of the field.
#![tactic(auto)]

mod removals;
mod trims;
mod waiting;
mod watchers;

pub use removals::removal_fault;
pub use trims::{Trimmed, trim};
