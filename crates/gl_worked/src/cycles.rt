//! Cycles, as constants tell them.

/// Whether these are the cycles, each with the positions of its edges.
pub fn are_cycles(cycles: &[Vec<usize>], wanted: &[&[usize]]) -> bool {
    if cycles.len() != wanted.len() {
        return false;
    }
    for (cycle, want) in cycles.iter().zip(wanted) {
        if cycle.as_slice() != *want {
            return false;
        }
    }
    true
}
