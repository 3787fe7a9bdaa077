//! Epochs: parts of a run of which each is over before the next one begins.
//!
//! A pool that joins all its threads before it forks others cuts a run, and so do phases behind barriers that are
//! made of forks and joins: all edges before the cut are over, by forks and joins, before those behind it begin.
//! So where the mode asks for the order, all edges of a cycle are of one epoch, and of each epoch it may be seen
//! alone which edges lie on a loop.
//!
//! Edges of one thread that begin in one segment are a group, which is of one epoch as a whole. Which group is of
//! which epoch is not proved; of each two groups it is checked.
ghost use Rattle.std.specs.Prelude.{◌≡◌, ◌<◌, ℕ, Some, [], true, false, length, slice_get, IsTrue, IsSomeAnd, IfOk};
ghost use Rattle.gl_edges.specs.declared.edge.Edge.{Edge};
ghost use Rattle.gl_segments.specs.Clocks.{is_before};
ghost use Rattle.gl_filters.specs.Picked.{edges_of_table};
ghost use Rattle.gl_loops.specs.bodies.Epochs.{begin_of, group_at, epoch_at, IsIn, AreGrouped, IsOverBefore, IsInOrder, AreInOrder, AreCut};
ghost use Rattle.gl_loops.specs.declared.epochs.Group.{Group};

use crate::cuts::cut;
use gl_edges::Edge;
use gl_event::{Memory, Segment, ThreadId};
use gl_filters::Mode;
use gl_sought::Sought;
use std::alloc::Global;

/// Edges of one thread that begin in one segment: the last segment in which one of them ends, and their epoch.
#[derive(Clone, Copy, Debug)]
pub(crate) struct Group {
    pub(crate) thread: ThreadId,
    pub(crate) first: u32,
    pub(crate) last: u32,
    pub(crate) epoch: usize,
}

impl Group {
    // The segment in which its edges begin.
    fn begin(&self) -> Segment
        ensures { result ≡ begin_of self.now }
    {
        Segment {
            thread: self.thread,
            index: self.first,
        }
    }

    // Whether the edge is one of the group's.
    fn has(&self, edge: &Edge) -> bool
        ensures { IsTrue result → IsIn edge.now self.now }
    {
        self.thread == edge.thread && self.first == edge.first && edge.second <= self.last
    }
}

/// Groups of edges and their epochs, by numbers.
#[derive(Drop)]
pub(crate) struct Epochs {
    pub(crate) groups: Vec<Group>,
    // for each edge where its group stands; edges without one are of epoch 0
    pub(crate) places: Vec<usize>,
    // how many epochs there are
    pub(crate) count: usize,
}

impl Epochs {
    /// One epoch, of which all edges are.
    pub(crate) fn one(alloc: Global) -> Epochs
        ensures { result.groups.items ≡ [] }
    {
        Epochs {
            groups: Vec::new(alloc),
            places: Vec::new(alloc),
            count: 1,
        }
    }

    // The group of the edge at a position.
    fn group(&self, position: usize) -> Option<Group>
        ensures { result ≡ group_at self.now position }
    {
        match self.places.get(position) {
            Some(&place) => self.groups.get(place).copied(),
            None => None,
        }
    }

    /// The epoch of the edge at a position.
    pub(crate) fn epoch(&self, position: usize) -> usize
        ensures { result ≡ epoch_at self.now position }
    {
        match self.group(position) {
            Some(group) => group.epoch,
            None => 0,
        }
    }

    // Whether the edge at a position is in its group.
    fn has(&self, position: usize, edge: &Edge) -> bool
        ensures { IsTrue result → IsSomeAnd (group_at self.now position) (IsIn edge.now) }
    {
        match self.group(position) {
            Some(group) => group.has(edge),
            None => false,
        }
    }
}

/// Whether the order counts, and a group is over before another one begins.
pub(crate) fn is_over_before(sought: &Sought<'_>, one: &Group, other: &Group) -> bool
    ensures { IsTrue result
        → IsOverBefore sought.now.mode sought.now.order.now one.now other.now }
{
    sought.mode == Mode::Full && one.last < sought.order.ahead(other.begin(), one.thread)
}

// Whether a group is over before another one of a later epoch and of another thread.
fn is_in_order(sought: &Sought<'_>, one: &Group, other: &Group) -> bool
    ensures { IsTrue result
        → IsInOrder sought.now.mode sought.now.order.now one.now other.now }
{
    if one.epoch >= other.epoch || one.thread == other.thread {
        return true;
    }
    is_over_before(sought, one, other)
}

// Whether all groups are so before this one.
fn are_before(sought: &Sought<'_>, groups: &[Group], other: &Group) -> bool
    ensures { IsTrue result → (one : Group) (i : ℕ) → slice_get groups.now i ≡ Some one
        → IsInOrder sought.now.mode sought.now.order.now one other.now }
{
    for i in 0..groups.len() {
        if !is_in_order(sought, &groups[i], other) {
            return false;
        }
    }
    true
}

// Whether all groups are over before those of later epochs and of other threads.
fn are_in_order(sought: &Sought<'_>, groups: &[Group]) -> bool
    ensures { IsTrue result
        → AreInOrder sought.now.mode sought.now.order.now groups.now }
{
    for i in 0..groups.len() {
        if !are_before(sought, groups, &groups[i]) {
            return false;
        }
    }
    true
}

// Whether the edge at a position is in its group, if it is kept.
fn is_grouped(sought: &Sought<'_>, epochs: &Epochs, is_kept: bool, position: usize) -> bool
    requires { position < length sought.now.table.now }
    ensures { IsTrue result → (e : Edge)
        → slice_get (edges_of_table sought.now.table.now) position ≡ Some e
        → is_kept ≡ true → IsSomeAnd (group_at epochs.now position) (IsIn e) }
{
    !is_kept || epochs.has(position, &sought.table[position].0)
}

// Whether all edges that are kept are in their groups.
fn are_grouped(sought: &Sought<'_>, epochs: &Epochs, kept: &[bool]) -> bool
    requires { length kept.now ≡ length sought.now.table.now }
    ensures { IsTrue result
        → AreGrouped epochs.now (edges_of_table sought.now.table.now) kept.now }
{
    for i in 0..sought.table.len() {
        if !is_grouped(sought, epochs, kept[i], i) {
            return false;
        }
    }
    true
}

/// Epochs of the edges that are kept: one, unless the mode asks for the order and more are soon found. Then it takes a look-up
/// for each two groups of different epochs.
pub(crate) fn epochs_of(sought: &Sought<'_>, alloc: Global, kept: &[bool]) -> Result<Epochs, Memory>
    requires { length kept.now ≡ length sought.now.table.now }
    ensures { IfOk result
        (λ epochs. AreCut (is_before sought.now.order.now) sought.now.mode (epoch_at epochs)
        (edges_of_table sought.now.table.now) kept.now) }
{
    let epochs = cut(sought, alloc, kept)?;
    if are_grouped(sought, &epochs, kept) && are_in_order(sought, &epochs.groups) {
        return Ok(epochs);
    }
    Ok(Epochs::one(alloc))
}
