//! What a report is asked with, and what is wanted of it.
use gl_cycles::{Report, TrimOrder};
use gl_filters::{Mode, Query};
use gl_worked::cycles::are_cycles;

// The query for so many cycles or findings at most, of at most 16 edges each.
pub(super) fn query_for(max: u32) -> Option<Query> {
    match Query::new(Mode::Full, 16, max) {
        Ok(query) => Some(query),
        Err(_) => None,
    }
}

// Cycles, or how many they are.
#[derive(Clone, Copy)]
pub(super) enum Listed {
    These(&'static [&'static [usize]]),
    Count(usize),
}

// How many edges a report is over, which cycles it lists, whether there are more, and whether it has a trim order,
// where that is looked at.
#[derive(Clone, Copy)]
pub(super) struct Wanted {
    pub(super) edges: usize,
    pub(super) cycles: Listed,
    pub(super) more: bool,
    pub(super) trim: Option<bool>,
}

// Two threads take two locks in opposite orders.
pub(super) const TWO_EDGES: Wanted = Wanted {
    edges: 2,
    cycles: Listed::Count(1),
    more: false,
    trim: None,
};

fn are_listed(cycles: &[Vec<usize>], wanted: Listed) -> bool {
    match wanted {
        Listed::These(these) => are_cycles(cycles, these),
        Listed::Count(count) => cycles.len() == count,
    }
}

fn is_trimmed(trim: &Option<TrimOrder>, wanted: Option<bool>) -> bool {
    match wanted {
        Some(is_some) => trim.is_some() == is_some,
        None => true,
    }
}

// Whether the report is as it is wanted.
pub(super) fn is_wanted(report: &Report, wanted: &Wanted) -> bool {
    report.edges.entries().len() == wanted.edges
        && are_listed(report.found.cycles.as_slice(), wanted.cycles)
        && report.found.more == wanted.more
        && is_trimmed(&report.trim, wanted.trim)
}
