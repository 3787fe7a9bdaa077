//! Which lists of edges are cycles: the modes of the analysis, what is asked of it, and the tests.
//!
//! docs/GLOSSARY.md has its words beside those of the field.
#![tactic(auto)]

mod gate_locks;
mod laws;
mod lengths;
mod pairs;
mod query;
mod steps;
mod verdict;

pub use laws::{
    cycles_are_as_tested, cycles_go_round, valid_lists_are_cycles, verdicts_are_unique,
};
pub use lengths::{LONGEST, longer_path};
pub use pairs::{compatible, compatible_at, goes_with, kinds_go_together, leads_on, waits_for};
pub use query::{BadQuery, MAX_CYCLES, MAX_LEN, Mode, Query, limits_in_numbers};
pub use steps::{Stop, spend_step};
pub use verdict::{Verdict, judge};
