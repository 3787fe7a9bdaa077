//! Edges that exclude each other: no two of them stand in a cycle together.
//!
//! So few exclusions that have all edges between them say [how long a cycle can be](shortened). And an edge is in no cycle where
//! none of those that are kept may follow it, or none may lead it, since each of them is excluded: it is
//! [stuck](leave_out_stuck). Which threads take turns, and which exclusions have all edges, is not proved; it is checked.
#![tactic(auto)]

mod exclusions;
mod gates;
mod partners;
mod turns;

pub use exclusions::{Exclusion, is_one_of, shortened, widest_of, without};
pub use partners::leave_out_stuck;
pub use turns::{Turn, take_turns, turns_of};
