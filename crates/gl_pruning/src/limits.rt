//! How many edges a cycle can have at most, by an edge that is in it.
//!
//! All edges of a cycle lie in one component of the lock-order graph. So where a few [exclusions](gl_exclusions) have all edges of
//! a component that are kept between them, no cycle there has more edges than there are of these, however long those of other
//! components are.
//!
//! Which components and which exclusions these are is not proved; it is checked.
ghost use Rattle.std.specs.Prelude.{◌≡◌, ◌<◌, ◌≤◌, Some, true, false, length, slice_get, IsTrue, IfOk};
ghost use Rattle.gl_edges.specs.declared.edge.Edge.{Edge};
ghost use Rattle.gl_segments.specs.Clocks.{is_before};
ghost use Rattle.gl_filters.specs.Picked.{edges_of_table};
ghost use Rattle.gl_pruning.specs.Limits.{IsLimit, AreLimits};
ghost use Rattle.gl_sought.specs.Sought.{KeepsSought};
ghost use Rattle.gl_pruning.specs.bodies.Covers.{component_in, HaveIn, AreCovered, AreChecked};
ghost use Rattle.gl_sought.specs.Walks.{IsNumbered};
ghost use Rattle.gl_sought.specs.declared.numbers.Ends.{Ends};

use crate::covering::{covered_by, forget_unnamed};
use gl_edges::Edge;
use gl_event::Memory;
use gl_exclusions::{Exclusion, Turn, is_one_of, take_turns, turns_of};
use gl_filters::Mode;
use gl_sought::{Ends, Numbers, Sought, label, none_goes_back};
use std::alloc::Global;

/// The components of the lock-order graph, by numbers.
#[derive(Drop)]
pub(crate) struct Covered {
    // for each lock, by its number, that of its component
    pub(crate) labels: Vec<usize>,
    // for each component exclusions that have all its edges, or none where such aren't found
    pub(crate) exclusions: Vec<Vec<Exclusion>>,
}

impl Covered {
    // The component of a lock.
    fn component(&self, lock: usize) -> usize
        ensures { result ≡ component_in self.now lock }
    {
        label(&self.labels, lock)
    }

    // Whether the exclusions of a component have the edge, or there are none.
    fn has(&self, mode: Mode, turns: &[Turn], component: usize, edge: &Edge) -> bool
        ensures { IsTrue result → HaveIn mode turns.now self.now component edge.now }
    {
        match self.exclusions.get(component) {
            Some(exclusions) => {
                exclusions.is_empty() || is_one_of(mode, turns, exclusions, edge)
            }
            None => true,
        }
    }
}

// Whether the edge at a position, if it is kept and lies inside a component, is one that the exclusions of this one have.
fn is_covered(
    sought: &Sought<'_>,
    turns: &[Turn],
    covered: &Covered,
    ends: Ends,
    is_kept: bool,
    position: usize,
) -> bool
    requires { position < length sought.now.table.now }
    ensures { IsTrue result → (e : Edge)
        → slice_get (edges_of_table sought.now.table.now) position ≡ Some e
        → is_kept ≡ true
        → component_in covered.now ends.held ≡ component_in covered.now ends.wanted
        → HaveIn sought.now.mode turns.now covered.now (component_in covered.now ends.held) e }
{
    let component = covered.component(ends.held);
    if !is_kept || component != covered.component(ends.wanted) {
        return true;
    }
    covered.has(sought.mode, turns, component, &sought.table[position].0)
}

// Whether all edges that are kept are so.
fn are_covered(
    sought: &Sought<'_>,
    turns: &[Turn],
    covered: &Covered,
    ends: &[Ends],
    kept: &[bool],
) -> bool
    requires flags { length kept.now ≡ length sought.now.table.now }
    requires ended { length ends.now ≡ length sought.now.table.now }
    ensures { IsTrue result
        → AreCovered sought.now.mode turns.now covered.now (edges_of_table sought.now.table.now)
        ends.now kept.now }
{
    for i in 0..sought.table.len() {
        if !is_covered(sought, turns, covered, ends[i], kept[i], i) {
            return false;
        }
    }
    true
}

// How many edges a cycle with the edge at a position has at most.
fn limit(
    sought: &Sought<'_>,
    turns: &[Turn],
    covered: &Covered,
    ends: &[Ends],
    kept: &[bool],
    position: usize,
) -> usize
    requires some { 0 < sought.now.len }
    requires ended { length ends.now ≡ length sought.now.table.now }
    requires there { position < length sought.now.table.now }
    requires checked { AreChecked sought.now turns.now covered.now ends.now kept.now }
    ensures { IsLimit (is_before sought.now.order.now) sought.now.mode sought.now.len
        (edges_of_table sought.now.table.now) position result }
{
    if !kept[position] {
        return 1;
    }
    let component = covered.component(ends[position].held);
    match covered.exclusions.get(component) {
        Some(exclusions) if !exclusions.is_empty() => exclusions.len().min(sought.len),
        _ => sought.len,
    }
}

// The same for each edge.
fn limits_of(
    sought: &Sought<'_>,
    alloc: Global,
    turns: &[Turn],
    covered: &Covered,
    ends: &[Ends],
    kept: &[bool],
) -> Result<Vec<usize>, Memory>
    requires some { 0 < sought.now.len }
    requires ended { length ends.now ≡ length sought.now.table.now }
    requires checked { AreChecked sought.now turns.now covered.now ends.now kept.now }
    ensures { IfOk result
        (λ limits. AreLimits (is_before sought.now.order.now) sought.now.mode sought.now.len
        (edges_of_table sought.now.table.now) limits.items) }
{
    let mut limits = Vec::with_capacity(alloc, sought.table.len())?;
    for i in 0..sought.table.len() {
        limits.push(limit(sought, turns, covered, ends, kept, i))?;
    }
    Ok(limits)
}

// For each edge as many as is asked for.
fn same_limits(sought: &Sought<'_>, alloc: Global) -> Result<Vec<usize>, Memory>
    requires { 0 < sought.now.len }
    ensures { IfOk result
        (λ limits. AreLimits (is_before sought.now.order.now) sought.now.mode sought.now.len
        (edges_of_table sought.now.table.now) limits.items) }
{
    let limits = vec![in alloc; sought.len; sought.table.len()]?;
    Ok(limits)
}

// The same by components and turns that are checked first.
fn limits_by(
    sought: &Sought<'_>,
    alloc: Global,
    turns: &[Turn],
    covered: &Covered,
    ends: &[Ends],
    kept: &[bool],
) -> Result<Vec<usize>, Memory>
    requires kept { KeepsSought sought.now kept.now }
    requires some { 0 < sought.now.len }
    requires ended { length ends.now ≡ length sought.now.table.now }
    requires numbered { IsNumbered (edges_of_table sought.now.table.now) ends.now }
    ensures { IfOk result
        (λ limits. AreLimits (is_before sought.now.order.now) sought.now.mode sought.now.len
        (edges_of_table sought.now.table.now) limits.items) }
{
    if !none_goes_back(&covered.labels, ends, kept) {
        return same_limits(sought, alloc);
    }
    if !are_covered(sought, turns, covered, ends, kept) {
        return same_limits(sought, alloc);
    }
    if !take_turns(sought, turns, kept) {
        return same_limits(sought, alloc);
    }
    limits_of(sought, alloc, turns, covered, ends, kept)
}

/// For each edge how many edges a cycle with it has at most, as far as it is soon seen for the edges that are kept. In each
/// component of the lock-order graph a few [exclusions](shortened) may have all of these between them.
///
/// It takes four look-ups for each edge, two walks through the graph, and a few looks at each edge and its guards. Err where memory
/// was refused.
pub fn limits_by_edge(
    sought: &Sought<'_>,
    alloc: Global,
    kept: &[bool],
) -> Result<Vec<usize>, Memory>
    requires kept { KeepsSought sought.now kept.now }
    requires some { 0 < sought.now.len }
    ensures { IfOk result
        (λ limits. AreLimits (is_before sought.now.order.now) sought.now.mode sought.now.len
        (edges_of_table sought.now.table.now) limits.items) }
{
    let numbers = Numbers::of(alloc, sought.table)?;
    let ends = numbers.of_edges(alloc, sought.table)?;
    let mut turns = turns_of(sought, alloc, kept)?;
    let covered = covered_by(alloc, sought, &turns, &ends, numbers.count(), kept)?;
    forget_unnamed(alloc, &mut turns, &covered)?;
    limits_by(sought, alloc, &turns, &covered, &ends, kept)
}
