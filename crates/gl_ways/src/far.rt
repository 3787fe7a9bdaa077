//! Edges that are too far from the lock that they want to the one that they hold.
//!
//! It may take more edges back than a cycle has, whichever edges go with which. This is seen at once for all edges
//! that want one lock: locks are labelled by how many edges it takes to get there from that one, and along no edge
//! that is kept the label grows by more than one.
ghost use Rattle.std.specs.Prelude.{◌≡◌, ◌+◌, ◌<◌, ◌≤◌, Some, length, slice_get, IsTrue, OnOk};
ghost use Rattle.gl_filters.specs.Picked.{edges_of_table};
ghost use Rattle.gl_sought.specs.Sought.{KeepsSought, GoesOnSeeking};
ghost use Rattle.gl_sought.specs.Walks.{IsNumbered, label_at, GrowByOne};
ghost use Rattle.gl_sought.specs.declared.numbers.Ends.{Ends};

use crate::no_way::is_leap;
use crate::ways::Ways;
use gl_event::Memory;
use gl_sought::{Ends, Part, Sought, label};

/// Whether the label grows by as much as this or more, from the lock that an edge wants to the one that it holds.
pub(crate) fn is_far(ends: &[Ends], labels: &[usize], x: usize, len: usize) -> bool
    requires { x < length ends.now }
    ensures { IsTrue result → (d : Ends) → slice_get ends.now x ≡ Some d
        → label_at labels.now d.wanted + len ≤ label_at labels.now d.held }
{
    let from = label(labels, ends[x].wanted);
    let to = label(labels, ends[x].held);
    to >= from && to - from >= len
}

// Whether the label of a lock grows by one at the most along each edge that is kept.
fn grow_by_one(ends: &[Ends], kept: &[bool], labels: &[usize]) -> bool
    requires { length kept.now ≡ length ends.now }
    ensures { IsTrue result → GrowByOne kept.now ends.now labels.now }
{
    for i in 0..ends.len() {
        if kept[i] && is_leap(labels, ends[i]) {
            return false;
        }
    }
    true
}

// Leaves out the edge at a position, if the labels show that it is too far.
fn leave_out_if_far(
    sought: &Sought<'_>,
    ends: &[Ends],
    labels: &[usize],
    kept: &mut Vec<bool>,
    x: usize,
)
    requires there { x < length sought.now.table.now }
    requires kept { KeepsSought sought.now kept.old.items }
    requires ended { length ends.now ≡ length sought.now.table.now }
    requires numbered { IsNumbered (edges_of_table sought.now.table.now) ends.now }
    requires grow { GrowByOne kept.old.items ends.now labels.now }
    ensures goes_on { GoesOnSeeking sought.now kept.old.items kept.new.items }
    ensures grow { GrowByOne kept.new.items ends.now labels.now }
{
    if is_far(ends, labels, x, sought.len) {
        kept[x] = false;
    }
}

// Leaves out each edge of which the labels show that it is too far. They show it of none where the label of a lock grows by
// more than one along an edge that is kept.
fn leave_out_by_labels(sought: &Sought<'_>, ends: &[Ends], labels: &[usize], kept: &mut Vec<bool>)
    requires kept { KeepsSought sought.now kept.old.items }
    requires ended { length ends.now ≡ length sought.now.table.now }
    requires numbered { IsNumbered (edges_of_table sought.now.table.now) ends.now }
    ensures { GoesOnSeeking sought.now kept.old.items kept.new.items }
{
    if !grow_by_one(ends, kept, labels) {
        return;
    }
    for x in 0..sought.table.len() {
        leave_out_if_far(sought, ends, labels, kept, x);
    }
}

/// Leaves out edges that are too far, for the locks of a part, within so much effort.
pub(crate) fn leave_out_far(
    sought: &Sought<'_>,
    part: Part,
    ways: &mut Ways,
    budget: usize,
    ends: &[Ends],
    kept: &mut Vec<bool>,
) -> Result<(), Memory>
    requires kept { KeepsSought sought.now kept.old.items }
    requires ended { length ends.now ≡ length sought.now.table.now }
    requires numbered { IsNumbered (edges_of_table sought.now.table.now) ends.now }
    ensures { OnOk result (GoesOnSeeking sought.now kept.old.items kept.new.items) }
{
    let mut budget = budget;
    for lock in 0..ways.labels.len() {
        if part.has(lock) && ways.label_from(sought.len, lock, &mut budget)? {
            leave_out_by_labels(sought, ends, &ways.labels, kept);
        }
    }
    Ok(())
}
