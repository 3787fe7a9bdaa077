//! Edges without a way back.
//!
//! Where an edge is in a cycle, the other edges of the cycle are a walk from the lock that it wants
//! back to the one that it holds, and each of them goes with it. So an edge that has no such walk is
//! in no cycle, and is left out; and then others may have none.
//!
//! That there is no walk is seen by labels of locks, which grow by one at the most along each edge
//! that may be on it. How labels are found is not proved; they are checked.
ghost use Rattle.std.specs.Prelude.{◌≡◌, ◌+◌, ◌<◌, ◌≤◌, Some, true, false, length, slice_get, IsTrue, IfOk, OnOk};
ghost use Rattle.gl_segments.specs.Clocks.{is_before};
ghost use Rattle.gl_filters.specs.Test.{goes_with};
ghost use Rattle.gl_filters.specs.Picked.{edges_of_table};
ghost use Rattle.gl_sought.specs.Sought.{KeepsSought, GoesOnSeeking};
ghost use Rattle.gl_sought.specs.Flags.{TellsIfAny};
ghost use Rattle.gl_sought.specs.Walks.{IsNumbered, label_at, ShowsNoWay};

use crate::far::leave_out_far;
use crate::ways::Ways;
use gl_edges::Edge;
use gl_event::Memory;
use gl_filters::goes_with;
use gl_sought::{Ends, Numbers, Part, Sought, label};
use std::alloc::Global;

// How many times all edges are looked at in a pass.
const ROUNDS: usize = 1_000;

// How many links of ways and edges beside them are looked at in a pass, by all parts together.
const BUDGET: usize = 100_000_000;

/// Whether the label grows by more than one from the one lock to the other.
pub(crate) fn is_leap(labels: &[usize], ends: Ends) -> bool
    ensures leap { IsTrue result
        → label_at labels.now ends.held + 1 < label_at labels.now ends.wanted }
    ensures step { ¬ IsTrue result
        → label_at labels.now ends.wanted ≤ label_at labels.now ends.held + 1 }
{
    let held = label(labels, ends.held);
    let wanted = label(labels, ends.wanted);
    wanted > held && wanted - held > 1
}

// Whether the labels show that the edge has no way back.
fn is_without_way(
    sought: &Sought<'_>,
    ends: &[Ends],
    kept: &[bool],
    labels: &[usize],
    x: usize,
) -> bool
    requires there { x < length sought.now.table.now }
    requires flags { length kept.now ≡ length sought.now.table.now }
    requires ended { length ends.now ≡ length sought.now.table.now }
    ensures { IsTrue result
        → ShowsNoWay (is_before sought.now.order.now) sought.now.mode sought.now.len
        (edges_of_table sought.now.table.now) kept.now ends.now labels.now x }
{
    let from = label(labels, ends[x].wanted);
    let to = label(labels, ends[x].held);
    if to < from || to - from < sought.len {
        return false;
    }
    let edge = &sought.table[x].0;
    for i in 0..sought.table.len() {
        if is_leap_beside(sought, ends[i], kept[i], labels, i, edge) {
            return false;
        }
    }
    true
}

// Whether the edge at a position is kept and goes with the other one, but the label grows by more
// than one along it.
fn is_leap_beside(
    sought: &Sought<'_>,
    ends: Ends,
    is_kept: bool,
    labels: &[usize],
    i: usize,
    edge: &Edge,
) -> bool
    requires { i < length sought.now.table.now }
    ensures { (e : Edge) → slice_get (edges_of_table sought.now.table.now) i ≡ Some e
        → is_kept ≡ true
        → goes_with (is_before sought.now.order.now) sought.now.mode e edge.now ≡ true
        → result ≡ false → label_at labels.now ends.wanted
        ≤ label_at labels.now ends.held + 1 }
{
    if !is_kept || !is_leap(labels, ends) {
        return false;
    }
    goes_with(sought.mode, sought.order, &sought.table[i].0, edge)
}

// Leaves out the edge at a position, if it is in this part and has no way back. Whether it was
// left out.
fn leave_out_at(
    sought: &Sought<'_>,
    part: Part,
    ways: &mut Ways,
    ends: &[Ends],
    kept: &mut Vec<bool>,
    x: usize,
) -> Result<bool, Memory>
    requires there { x < length sought.now.table.now }
    requires kept { KeepsSought sought.now kept.old.items }
    requires ended { length ends.now ≡ length sought.now.table.now }
    requires numbered { IsNumbered (edges_of_table sought.now.table.now) ends.now }
    ensures goes_on { OnOk result (GoesOnSeeking sought.now kept.old.items kept.new.items) }
    ensures any { IfOk result (λ any. TellsIfAny any kept.old.items kept.new.items) }
{
    if !part.has(x) {
        return Ok(false);
    }
    if !kept[x] || !ways.has_none(sought, kept, ends[x], &sought.table[x].0)? {
        return Ok(false);
    }
    ways.pay(sought.table.len());
    if !is_without_way(sought, ends, kept, &ways.labels, x) {
        return Ok(false);
    }
    kept[x] = false;
    Ok(true)
}

// Leaves out each edge of a part that has no way back. Whether any was left out.
fn leave_out_each(
    sought: &Sought<'_>,
    part: Part,
    ways: &mut Ways,
    ends: &[Ends],
    kept: &mut Vec<bool>,
) -> Result<bool, Memory>
    requires kept { KeepsSought sought.now kept.old.items }
    requires ended { length ends.now ≡ length sought.now.table.now }
    requires numbered { IsNumbered (edges_of_table sought.now.table.now) ends.now }
    ensures goes_on { OnOk result (GoesOnSeeking sought.now kept.old.items kept.new.items) }
    ensures any { IfOk result (λ any. TellsIfAny any kept.old.items kept.new.items) }
{
    let mut has_changed = false;
    for x in 0..sought.table.len() {
        has_changed |= leave_out_at(sought, part, ways, ends, kept, x)?;
    }
    Ok(has_changed)
}

// Leaves out edges of a part that have no way back, as long as there are any and the search for them may go on.
fn leave_out_in_rounds(
    sought: &Sought<'_>,
    part: Part,
    ways: &mut Ways,
    ends: &[Ends],
    kept: &mut Vec<bool>,
) -> Result<(), Memory>
    requires kept { KeepsSought sought.now kept.old.items }
    requires ended { length ends.now ≡ length sought.now.table.now }
    requires numbered { IsNumbered (edges_of_table sought.now.table.now) ends.now }
    ensures { OnOk result (GoesOnSeeking sought.now kept.old.items kept.new.items) }
{
    for _ in 0..ROUNDS {
        if !leave_out_each(sought, part, ways, ends, kept)? {
            return Ok(());
        }
    }
    Ok(())
}

// Leaves out edges of a part that are too far, and then those that have no way back, as long as there are any and the search for them
// may go on. Locks have so many numbers.
fn leave_out_along_ways(
    sought: &Sought<'_>,
    alloc: Global,
    part: Part,
    locks: usize,
    ends: &[Ends],
    kept: &mut Vec<bool>,
) -> Result<(), Memory>
    requires kept { KeepsSought sought.now kept.old.items }
    requires ended { length ends.now ≡ length sought.now.table.now }
    requires numbered { IsNumbered (edges_of_table sought.now.table.now) ends.now }
    ensures { OnOk result (GoesOnSeeking sought.now kept.old.items kept.new.items) }
{
    let budget = part.share_of(BUDGET);
    let mut ways = Ways::new(alloc, sought, locks, ends, kept, budget)?;
    leave_out_far(sought, part, &mut ways, budget, ends, kept)?;
    leave_out_in_rounds(sought, part, &mut ways, ends, kept)
}

/// Leaves out edges of a part that have no way back, as long as there are any and the search for
/// them may go on. Err where memory was refused.
pub fn leave_out_without_way(
    sought: &Sought<'_>,
    alloc: Global,
    part: Part,
    kept: &mut Vec<bool>,
) -> Result<(), Memory>
    requires { KeepsSought sought.now kept.old.items }
    ensures { OnOk result (GoesOnSeeking sought.now kept.old.items kept.new.items) }
{
    let numbers = Numbers::of(alloc, sought.table)?;
    let ends = numbers.of_edges(alloc, sought.table)?;
    leave_out_along_ways(sought, alloc, part, numbers.count(), &ends, kept)
}
