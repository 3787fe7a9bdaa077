//! The search for cuts of a run, before which all edges are over when those behind it begin.
//!
//! Groups of edges are put in one after the other. A group is added to the epochs that are neither over before it
//! begins nor begin after it is over, and these become one; where there are none, it is an epoch of its own.
//! Nothing of this is proved, and nothing relies on it but for speed: epochs are checked. So a number that is out
//! of range, which none is, is passed over.
use crate::epochs::{Epochs, Group, is_over_before};
use gl_edges::Edge;
use gl_event::{Memory, ThreadId};
use gl_filters::Mode;
use gl_sought::{Sought, count_set};
use std::alloc::Global;
use std::collections::HashMap;

// How many pairs of groups there may be for each edge that is kept.
const PAIRS_OF_EDGE: usize = 64;

// How many there may be however few edges there are: it takes some milliseconds.
const FEW_PAIRS: usize = 1_000_000;

// How many there may be at most.
const MOST_PAIRS: usize = 16_000_000;

// Whether it would take too long to look at each two of so many groups, of so many edges.
fn are_too_many(groups: usize, edges: usize) -> bool {
    let most = edges.saturating_mul(PAIRS_OF_EDGE).max(FEW_PAIRS);
    groups.saturating_mul(groups) > most.min(MOST_PAIRS)
}

// Groups, and where they stand by their threads and first segments.
#[derive(Drop)]
struct Grouping {
    groups: Vec<Group>,
    places: HashMap<(ThreadId, u32), usize>,
    // where the one stands that was last found
    last: usize,
}

impl Grouping {
    // Whether the group that was last found is the edge's.
    fn is_last(&self, edge: &Edge) -> bool {
        match self.groups.get(self.last) {
            Some(group) => group.thread == edge.thread && group.first == edge.first,
            None => false,
        }
    }

    // Finds the edge's group, or makes it.
    fn find(&mut self, edge: &Edge) -> Result<(), Memory> {
        let begin = (edge.thread, edge.first);
        if let Some(&place) = self.places.get(&begin) {
            self.last = place;
            return Ok(());
        }
        self.last = self.groups.len();
        self.places.insert(begin, self.last)?;
        self.groups.push(Group {
            thread: edge.thread,
            first: edge.first,
            last: edge.second,
            epoch: 0,
        })?;
        Ok(())
    }

    // Puts an edge into its group, and gives where that stands.
    fn put(&mut self, edge: &Edge) -> Result<usize, Memory> {
        if !self.is_last(edge) {
            self.find(edge)?;
        }
        if let Some(group) = self.groups.get_mut(self.last) {
            group.last = group.last.max(edge.second);
        }
        Ok(self.last)
    }
}

// Adds a group to the epochs from the first one to the end, which become one, or as an epoch of its own where there are none. The
// groups of an epoch are told by where they stand.
fn add(
    alloc: Global,
    epochs: &mut Vec<Vec<usize>>,
    first: usize,
    end: usize,
    place: usize,
) -> Result<(), Memory> {
    if first >= end {
        let mut epoch = Vec::new(alloc);
        epoch.push(place)?;
        epochs.insert(first.min(epochs.len()), epoch)?;
        return Ok(());
    }
    for _ in 1..end - first {
        join(epochs, first)?;
    }
    if let Some(epoch) = epochs.get_mut(first) {
        epoch.push(place)?;
    }
    Ok(())
}

// Makes one of two epochs, this one and the next.
fn join(epochs: &mut Vec<Vec<usize>>, first: usize) -> Result<(), Memory> {
    let next = first.saturating_add(1);
    if next >= epochs.len() {
        return Ok(());
    }
    let mut more = epochs.remove(next);
    if let Some(epoch) = epochs.get_mut(first) {
        epoch.append(&mut more)?;
    }
    Ok(())
}

// Gives each group the number of its epoch.
fn number_groups(groups: &mut Vec<Group>, epochs: &[Vec<usize>]) {
    for (number, epoch) in epochs.iter().enumerate() {
        for &place in epoch {
            if let Some(group) = groups.get_mut(place) {
                group.epoch = number;
            }
        }
    }
}

/// Epochs of the edges that are kept, if there are more than one and they are soon found. It takes a look-up for each edge at
/// most, and mostly a few for each group; where there are cuts as many as the group's epoch and its neighbours have groups,
/// a few times.
pub(crate) fn cut(sought: &Sought<'_>, alloc: Global, kept: &[bool]) -> Result<Epochs, Memory> {
    if sought.mode != Mode::Full {
        return Ok(Epochs::one(alloc));
    }
    let mut grouped = grouped(sought, alloc, kept)?;
    if are_too_many(grouped.groups.len(), count_set(kept)) {
        return Ok(Epochs::one(alloc));
    }
    let epochs = in_epochs(sought, alloc, &grouped.groups)?;
    if epochs.len() < 2 {
        return Ok(Epochs::one(alloc));
    }
    number_groups(&mut grouped.groups, &epochs);
    grouped.count = epochs.len();
    Ok(grouped)
}

// The edges that are kept in groups, all of one epoch.
fn grouped(sought: &Sought<'_>, alloc: Global, kept: &[bool]) -> Result<Epochs, Memory> {
    let mut places = Vec::with_capacity(alloc, sought.table.len())?;
    let mut grouping = Grouping {
        groups: Vec::new(alloc),
        places: HashMap::new(alloc),
        last: 0,
    };
    for ((edge, _), &is_kept) in sought.table.iter().zip(kept) {
        let place = if is_kept { grouping.put(edge)? } else { 0 };
        places.push(place)?;
    }
    Ok(Epochs {
        groups: grouping.groups,
        places,
        count: 1,
    })
}

// The places of the groups of each epoch, each of which is over before the next one begins.
fn in_epochs(
    sought: &Sought<'_>,
    alloc: Global,
    groups: &[Group],
) -> Result<Vec<Vec<usize>>, Memory> {
    let mut epochs: Vec<Vec<usize>> = Vec::new(alloc);
    for (place, group) in groups.iter().enumerate() {
        let first = epochs
            .as_slice()
            .partition_point(|epoch: &Vec<usize>| is_past(sought, groups, epoch, group));
        let end = epochs.as_slice().partition_point(|epoch: &Vec<usize>| !is_to_come(
            sought, groups, epoch, group,
        ));
        add(alloc, &mut epochs, first, end, place)?;
    }
    Ok(epochs)
}

// Whether an epoch is over before a group begins. The group that was added last is looked at first: most often it isn't.
fn is_past(sought: &Sought<'_>, groups: &[Group], epoch: &[usize], group: &Group) -> bool {
    for &place in epoch.iter().rev() {
        if let Some(other) = groups.get(place) {
            if !is_over_before(sought, other, group) {
                return false;
            }
        }
    }
    true
}

// Whether a group is over before an epoch begins.
fn is_to_come(sought: &Sought<'_>, groups: &[Group], epoch: &[usize], group: &Group) -> bool {
    for &place in epoch.iter().rev() {
        if let Some(other) = groups.get(place) {
            if !is_over_before(sought, group, other) {
                return false;
            }
        }
    }
    true
}
