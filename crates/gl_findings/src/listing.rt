//! What a report lists, and what else it has.

/// What a report lists: each cycle, or each finding once.
#[derive(Clone, Copy, Debug, PartialEq, Eq)]
pub enum Listing {
    /// Cycles.
    Cycles,
    /// Findings, each shown by a cycle.
    Findings,
}

/// What a report has beside the edges. Trimming takes as long as a search where there is no cycle, so a report
/// has its order only where that is asked for.
#[derive(Clone, Copy, Debug, PartialEq, Eq)]
pub enum Contents {
    /// Cycles, and no trim order: all that a text prints.
    Cycles,
    /// Cycles, and the order in which trimming takes away all edges, where it does.
    CyclesAndTrim,
    /// Findings, each shown by a cycle, and no trim order.
    Findings,
}
