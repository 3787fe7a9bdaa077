//! Edges whose way back leads through others of their owner.
//!
//! A cycle has one edge of an [owner](crate::owners) at most. So where one thread alone joins parts of the lock-order graph, as one
//! that works for modules which know nothing of each other, its edges have no way back without others of its own; and where all edges
//! of a module are made under one lock, none of them has. This is seen at once for all edges of an owner, by labels of locks that
//! don't grow along those of others.
ghost use Rattle.std.specs.Prelude.{◌≡◌, ◌+◌, ◌<◌, ◌≤◌, Some, true, false, length, slice_get, IsTrue, OnOk};
ghost use Rattle.gl_edges.specs.declared.edge.Edge.{Edge};
ghost use Rattle.gl_filters.specs.Picked.{edges_of_table};
ghost use Rattle.gl_sought.specs.Sought.{KeepsSought, GoesOnSeeking};
ghost use Rattle.gl_ways.specs.bodies.Owners.{IsOwned};
ghost use Rattle.gl_sought.specs.Walks.{IsNumbered, label_at};
ghost use Rattle.gl_ways.specs.bodies.Owners.{GrowWithout};

use crate::far::is_far;
use crate::no_way::is_leap;
use crate::owners::{Graph, Owner};
use gl_event::Memory;
use gl_sought::{Ends, Numbers, Sought};
use std::alloc::Global;

// How many times each pair of locks is looked at for an owner, and each edge where some of the owner's may go.
const LOOKS: usize = 4;

// Whether the edge at a position is kept and others have it, and the label of a lock grows by more than one along it.
fn is_leap_without(
    sought: &Sought<'_>,
    owner: &Owner,
    ends: Ends,
    is_kept: bool,
    labels: &[usize],
    i: usize,
) -> bool
    requires { i < length sought.now.table.now }
    ensures { (e : Edge) → slice_get (edges_of_table sought.now.table.now) i ≡ Some e
        → is_kept ≡ true → ¬ IsOwned sought.now.mode owner.now e
        → result ≡ false → label_at labels.now ends.wanted
        ≤ label_at labels.now ends.held + 1 }
{
    if !is_kept || !is_leap(labels, ends) {
        return false;
    }
    !owner.has(sought.mode, &sought.table[i].0)
}

// Whether the label of a lock grows by one at the most along each edge that is kept and that others have.
fn grow_by_one_without(
    sought: &Sought<'_>,
    owner: &Owner,
    ends: &[Ends],
    kept: &[bool],
    labels: &[usize],
) -> bool
    requires flags { length kept.now ≡ length sought.now.table.now }
    requires ended { length ends.now ≡ length sought.now.table.now }
    ensures { IsTrue result
        → GrowWithout sought.now.mode owner.now (edges_of_table sought.now.table.now) kept.now
        ends.now labels.now }
{
    for i in 0..sought.table.len() {
        if is_leap_without(sought, owner, ends[i], kept[i], labels, i) {
            return false;
        }
    }
    true
}

// Leaves out the edge at a position, if it is one of the owner's and the labels show that it is too far.
fn leave_out_if_far_without(
    sought: &Sought<'_>,
    owner: &Owner,
    ends: &[Ends],
    labels: &[usize],
    kept: &mut Vec<bool>,
    x: usize,
)
    requires there { x < length sought.now.table.now }
    requires kept { KeepsSought sought.now kept.old.items }
    requires ended { length ends.now ≡ length sought.now.table.now }
    requires numbered { IsNumbered (edges_of_table sought.now.table.now) ends.now }
    requires grow { GrowWithout sought.now.mode owner.now (edges_of_table sought.now.table.now)
        kept.old.items ends.now labels.now }
    ensures goes_on { GoesOnSeeking sought.now kept.old.items kept.new.items }
    ensures grow { GrowWithout sought.now.mode owner.now (edges_of_table sought.now.table.now)
        kept.new.items ends.now labels.now }
{
    if is_far(ends, labels, x, sought.len) && owner.has(sought.mode, &sought.table[x].0) {
        kept[x] = false;
    }
}

// Leaves out each edge of the owner of which the labels show that it is too far. They show it of none where the label of a
// lock grows by more than one along an edge that is kept and that others have.
fn leave_out_by_labels_without(
    sought: &Sought<'_>,
    owner: &Owner,
    ends: &[Ends],
    labels: &[usize],
    kept: &mut Vec<bool>,
)
    requires kept { KeepsSought sought.now kept.old.items }
    requires ended { length ends.now ≡ length sought.now.table.now }
    requires numbered { IsNumbered (edges_of_table sought.now.table.now) ends.now }
    ensures { GoesOnSeeking sought.now kept.old.items kept.new.items }
{
    if !grow_by_one_without(sought, owner, ends, kept, labels) {
        return;
    }
    for x in 0..sought.table.len() {
        leave_out_if_far_without(sought, owner, ends, labels, kept, x);
    }
}

// Leaves out edges of the owner that have no way back along those of others, by one of two kinds of labels.
fn leave_out_one_way(
    sought: &Sought<'_>,
    alloc: Global,
    graph: &Graph,
    owner: &Owner,
    is_back: bool,
    ends: &[Ends],
    looks: &mut usize,
    kept: &mut Vec<bool>,
) -> Result<(), Memory>
    requires kept { KeepsSought sought.now kept.old.items }
    requires ended { length ends.now ≡ length sought.now.table.now }
    requires numbered { IsNumbered (edges_of_table sought.now.table.now) ends.now }
    ensures { OnOk result (GoesOnSeeking sought.now kept.old.items kept.new.items) }
{
    let labels = graph.labels_without(alloc, owner, is_back, sought.len)?;
    *looks = looks.saturating_sub(graph.count().saturating_mul(LOOKS));
    if !graph.has_fall(owner, &labels) {
        return Ok(());
    }
    *looks = looks.saturating_sub(sought.table.len().saturating_mul(LOOKS));
    leave_out_by_labels_without(sought, owner, ends, &labels, kept);
    Ok(())
}

// Leaves out edges of the owner that have no way back along those of others, by both kinds of labels, where edges may still
// be looked at.
fn leave_out_without_others(
    sought: &Sought<'_>,
    alloc: Global,
    graph: &Graph,
    owner: &Owner,
    ends: &[Ends],
    looks: &mut usize,
    kept: &mut Vec<bool>,
) -> Result<(), Memory>
    requires kept { KeepsSought sought.now kept.old.items }
    requires ended { length ends.now ≡ length sought.now.table.now }
    requires numbered { IsNumbered (edges_of_table sought.now.table.now) ends.now }
    ensures { OnOk result (GoesOnSeeking sought.now kept.old.items kept.new.items) }
{
    if *looks == 0 {
        return Ok(());
    }
    leave_out_one_way(sought, alloc, graph, owner, false, ends, looks, kept)?;
    leave_out_one_way(sought, alloc, graph, owner, true, ends, looks, kept)
}

// Leaves out edges of each of these owners that have no way back along those of others, while edges may still be looked at.
fn leave_out_of_owners(
    sought: &Sought<'_>,
    alloc: Global,
    graph: &Graph,
    owners: &[Owner],
    ends: &[Ends],
    looks: &mut usize,
    kept: &mut Vec<bool>,
) -> Result<(), Memory>
    requires kept { KeepsSought sought.now kept.old.items }
    requires ended { length ends.now ≡ length sought.now.table.now }
    requires numbered { IsNumbered (edges_of_table sought.now.table.now) ends.now }
    ensures { OnOk result (GoesOnSeeking sought.now kept.old.items kept.new.items) }
{
    for owner in owners {
        leave_out_without_others(sought, alloc, graph, owner, ends, looks, kept)?;
    }
    Ok(())
}

/// Leaves out edges whose way back leads through others of their owner, for each owner who alone joins locks, while so many edges
/// may still be looked at, of which `looks` is left with the rest. Err where memory was refused.
pub fn leave_out_through(
    sought: &Sought<'_>,
    alloc: Global,
    looks: &mut usize,
    kept: &mut Vec<bool>,
) -> Result<(), Memory>
    requires { KeepsSought sought.now kept.old.items }
    ensures { OnOk result (GoesOnSeeking sought.now kept.old.items kept.new.items) }
{
    let numbers = Numbers::of(alloc, sought.table)?;
    let ends = numbers.of_edges(alloc, sought.table)?;
    let graph = Graph::of(alloc, sought, &ends, numbers.count(), kept)?;
    let owners = graph.sole_owners(alloc)?;
    leave_out_of_owners(sought, alloc, &graph, &owners, &ends, looks, kept)
}
