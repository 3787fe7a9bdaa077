//! Which edges and reports format 1 stands for: those of exclusive locks.
ghost use Rattle.std.specs.Prelude.{◌≡◌, true, slice_get, Decides};
ghost use Rattle.std.specs.List.{list_all};
ghost use Rattle.std.specs.Option.{option_map_or};
ghost use Rattle.gl_filters.specs.Picked.{edges_of_table};
ghost use Rattle.gl_report.specs.Exclusive.{is_exclusive, is_exclusive_mode, ListsExclusive};

use gl_cycles::Report;
use gl_edges::{Edge, Guard, Sample};
use gl_event::LockMode;

// Whether the mode is exclusive.
fn is_exclusive_mode(mode: LockMode) -> bool
    ensures { result ≡ is_exclusive_mode mode }
{
    match mode {
        LockMode::Exclusive => true,
        LockMode::Shared => false,
    }
}

// Whether all of these guards are held exclusively.
fn are_exclusive(guards: &[Guard]) -> bool
    ensures { result ≡ list_all (λ guard. is_exclusive_mode guard.mode) guards.now }
{
    for guard in guards {
        if !is_exclusive_mode(guard.mode) {
            return false;
        }
    }
    true
}

/// Whether the edge is of exclusive locks alone: format 1 shows no modes, and stands for these.
pub fn is_exclusive(edge: &Edge) -> bool
    ensures { result ≡ is_exclusive edge.now }
{
    is_exclusive_mode(edge.held_mode)
        && is_exclusive_mode(edge.wanted_mode)
        && are_exclusive(edge.guards.as_slice())
}

// Whether the edge at this position is of exclusive locks alone; true where there is none.
fn is_exclusive_at(table: &[(Edge, Sample)], position: usize) -> bool
    ensures { result ≡ option_map_or is_exclusive
        (slice_get (edges_of_table table.now) position) true }
{
    if position >= table.len() {
        return true;
    }
    is_exclusive(&table[position].0)
}

// Whether the edges at these positions are of exclusive locks alone.
fn are_exclusive_at(table: &[(Edge, Sample)], positions: &[usize]) -> bool
    ensures { result ≡ list_all
        (λ position. option_map_or is_exclusive
        (slice_get (edges_of_table table.now) position) true) positions.now }
{
    for &position in positions {
        if !is_exclusive_at(table, position) {
            return false;
        }
    }
    true
}

// Whether each edge of each of these cycles is of exclusive locks alone.
fn are_cycles_exclusive(table: &[(Edge, Sample)], cycles: &[Vec<usize>]) -> bool
    ensures { result ≡ list_all
        (λ cycle. list_all
        (λ position. option_map_or is_exclusive
        (slice_get (edges_of_table table.now) position) true) cycle.items) cycles.now }
{
    for cycle in cycles {
        if !are_exclusive_at(table, cycle.as_slice()) {
            return false;
        }
    }
    true
}

/// Whether each edge of each listed cycle is of exclusive locks alone, so that format 1 stands for the
/// report. A look at each of them.
pub fn lists_exclusive(report: &Report) -> bool
    ensures { Decides result (ListsExclusive report.now) }
{
    are_cycles_exclusive(report.edges.entries(), report.found.cycles.as_slice())
}
