//! Cycles of edges: the potential deadlocks that Goodlock predicts.
//!
//! Where one thread acquires lock 0 and then lock 1, and another one acquires 1 and then 0, the
//! first edge leads on to the second one and back: a cycle, with the positions 0 and 1. [`search`]
//! lists the first cycles of a [`Query`](gl_filters::Query) and says whether there are more.
//!
//! The list of all cycles is a definition: the lists of positions that pass the test of a cycle.
//! That it has exactly the cycles, and in which order, is what [`cycles_are_all`],
//! [`cycles_ascend`] and [`cycles_ascend_by_edges`] say.
//!
//! The search leaves out edges that are in no cycle, as gl_pruning tells: [`edges_sought`] gives those
//! that stay where all is left out that can be. One of its reasons are ranks of locks that fall along no
//! edge: round a cycle they stay the same, as [`cycles_are_level`] says.
//!
//! [`trim`], of gl_trims, takes away edges that nothing may follow in a cycle, or that may follow
//! nothing. No edge of a cycle is among them, as [`cycles_survive_trims`] says. So where all go there is
//! no cycle, in whichever order they go: [`removal_fault`] checks an order that was given.
//!
//! How a search that begins at one root after the other goes on on several threads ([`found_by_roots`]), how many
//! steps it has at first ([`first_steps`]), and how what it found is listed ([`Found::listed`]), is the same for
//! findings (gl_findings).
//!
//! docs/GLOSSARY.md has its words beside those of the field.
#![tactic(auto)]

mod found;
mod laws;
mod parallel;
mod paths;
mod pieces;
mod reports;
mod roots;
mod runs;
mod searches;
mod stages;

pub use found::{Cycles, Found, Report, ReportFault, TrimOrder};
pub use gl_pruning::{edges_on_loops, edges_sought, edges_sought_parallel};
pub use gl_trims::{Trimmed, removal_fault, trim};
pub use laws::{
    cycles_are_all, cycles_are_level, cycles_ascend, cycles_ascend_by_edges, cycles_survive_trims,
    no_cycle_if_all_go, reports_are_unique, trims_are_unique,
};
pub use reports::{
    no_report, report_by, report_by_parallel, report_of_lists, report_over, report_over_parallel,
};
pub use roots::{RootedSearch, found_by_roots};
pub use searches::{search, search_parallel};
pub use stages::first_steps;
