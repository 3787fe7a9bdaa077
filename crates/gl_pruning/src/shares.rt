//! Parts of the lock-order graph by themselves.
//!
//! All edges of a cycle lie in one component of the lock-order graph. So edges may be left out among those of some components as if there
//! were no others: the epochs of the run and how long a cycle can be are then those of a part of the program that
//! knows nothing of the others. The greatest components are looked at one by one, and all others together.
//!
//! Which components these are is not proved; it is [checked](none_goes_back).
ghost use Rattle.std.specs.Prelude.{◌≡◌, ◌+◌, ◌<◌, ◌≤◌, length, IfOk, IfSome, OnOk};
ghost use Rattle.gl_filters.specs.Picked.{edges_of_table};
ghost use Rattle.gl_sought.specs.Components.{AreComponents};
ghost use Rattle.gl_sought.specs.OffCycles.{KeepsCycles};
ghost use Rattle.gl_sought.specs.Sought.{KeepsSought, GoesOnSeeking};
ghost use Rattle.gl_segments.specs.Clocks.{is_before};
ghost use Rattle.gl_pruning.specs.bodies.Shares.{share_in, AreShares, HasEdgesBelow, AreOff};

use crate::reasons::{kept_within, leave_out_by_reasons};
use gl_edges::{Edge, Sample};
use gl_event::Memory;
use gl_filters::Mode;
use gl_segments::Order;
use gl_sought::{Ends, Numbers, Sought, label, labels_of, none_goes_back};
use std::alloc::Global;

// How many shares there are at most: one for each of the greatest components, and the last one for all others.
const MOST: usize = 8;

/// The edges that are kept, dealt out to shares by their components.
#[derive(Drop)]
pub(crate) struct Shares {
    // for each edge the numbers of its locks
    pub(crate) ends: Vec<Ends>,
    // whether it is kept
    pub(crate) kept: Vec<bool>,
    // for each lock, by its number, that of its component
    pub(crate) labels: Vec<usize>,
    // for each component that of its share
    pub(crate) by_component: Vec<usize>,
    // how many shares there are
    pub(crate) count: usize,
}

/// The edges of a share, with their samples, and their positions among all edges.
#[derive(Drop)]
pub(crate) struct Share {
    pub(crate) table: Vec<(Edge, Sample)>,
    pub(crate) positions: Vec<usize>,
}

impl Shares {
    // The share of a lock.
    fn share(&self, lock: usize) -> usize
        ensures { result ≡ share_in self.now lock }
    {
        label(&self.by_component, label(&self.labels, lock))
    }

    // The share of the lock that the edge at a position holds.
    fn share_of(&self, position: usize) -> usize {
        match self.ends.get(position) {
            Some(ends) => self.share(ends.held),
            None => 0,
        }
    }
}

/// Shares of the edges that are kept, if they lie in more than one component.
///
/// It takes four look-ups for each edge and two walks through the graph. Err where memory was refused.
pub(crate) fn shares_of(
    sought: &Sought<'_>,
    alloc: Global,
    kept: &[bool],
) -> Result<Option<Shares>, Memory>
    requires { KeepsSought sought.now kept.now }
    ensures { IfOk result (λ found. IfSome found (λ shares. AreShares sought.now shares)) }
{
    let numbers = Numbers::of(alloc, sought.table)?;
    let ends = numbers.of_edges(alloc, sought.table)?;
    let labels = labels_of(alloc, &ends, numbers.count(), kept)?;
    if !none_goes_back(&labels, &ends, kept) {
        return Ok(None);
    }
    shares_by(sought, alloc, ends, labels, kept)
}

// Shares of the edges that are kept, by the components of their locks, if they lie in more than one.
fn shares_by(
    sought: &Sought<'_>,
    alloc: Global,
    ends: Vec<Ends>,
    labels: Vec<usize>,
    kept: &[bool],
) -> Result<Option<Shares>, Memory>
    requires { AreComponents sought.now labels.items ends.items kept.now }
    ensures { IfOk result (λ found. IfSome found (λ shares. AreShares sought.now shares)) }
{
    let sizes = sizes_of(alloc, &labels, &ends, kept)?;
    let count = count_some(&sizes).min(MOST);
    if count < 2 {
        return Ok(None);
    }
    let by_component = dealt_out(alloc, &sizes)?;
    let kept = Vec::from_slice(alloc, kept)?;
    Ok(Some(Shares {
        ends,
        kept,
        labels,
        by_component,
        count,
    }))
}

// Adds the edge at a position to a share, if it is kept and lies in it.
fn add_to_share(
    sought: &Sought<'_>,
    alloc: Global,
    shares: &Shares,
    number: usize,
    position: usize,
    share: &mut Share,
) -> Result<(), Memory>
    requires shares { AreShares sought.now shares.now }
    requires there { position < length sought.now.table.now }
    requires edges { HasEdgesBelow (edges_of_table sought.now.table.now) shares.now number
        position share.old }
    ensures { OnOk result
        (HasEdgesBelow (edges_of_table sought.now.table.now) shares.now number
        (position + 1) share.new) }
{
    if !shares.kept[position] || shares.share(shares.ends[position].held) != number {
        return Ok(());
    }
    let (edge, sample) = &sought.table[position];
    let edge = edge.copy(alloc)?;
    share.table.push((edge, *sample))?;
    share.positions.push(position)?;
    Ok(())
}

/// The share with a number. Takes a look at each edge, and copies its own.
pub(crate) fn share_at(
    sought: &Sought<'_>,
    alloc: Global,
    shares: &Shares,
    number: usize,
) -> Result<Share, Memory>
    requires { AreShares sought.now shares.now }
    ensures { IfOk result
        (λ share. HasEdgesBelow (edges_of_table sought.now.table.now) shares.now number
        (length sought.now.table.now) share) }
{
    let mut share = Share {
        table: Vec::new(alloc),
        positions: Vec::new(alloc),
    };
    for position in 0..sought.table.len() {
        add_to_share(sought, alloc, shares, number, position, &mut share)?;
    }
    Ok(share)
}

// Leaves out the edge at a place of a share, if it isn't one that stays.
fn leave_out_at_place(
    sought: &Sought<'_>,
    share: &Share,
    stay: &[bool],
    kept: &mut Vec<bool>,
    place: usize,
)
    requires there { place < length share.now.positions.items }
    requires off { AreOff sought.now share.now stay.now }
    requires kept { KeepsSought sought.now kept.old.items }
    ensures { GoesOnSeeking sought.now kept.old.items kept.new.items }
{
    if !stay[place] {
        kept[share.positions[place]] = false;
    }
}

/// Leaves out the edges of a share, but for those that stay.
pub(crate) fn leave_out_of_share(
    sought: &Sought<'_>,
    share: &Share,
    stay: &[bool],
    kept: &mut Vec<bool>,
)
    requires off { AreOff sought.now share.now stay.now }
    requires kept { KeepsSought sought.now kept.old.items }
    ensures { GoesOnSeeking sought.now kept.old.items kept.new.items }
{
    for place in 0..share.positions.len() {
        leave_out_at_place(sought, share, stay, kept, place);
    }
}

/// Leaves out edges for all reasons, in each share by itself, with so much effort for each reason.
pub(crate) fn leave_out_apart(
    sought: &Sought<'_>,
    alloc: Global,
    shares: &Shares,
    effort: usize,
    kept: &mut Vec<bool>,
) -> Result<(), Memory>
    requires some { 0 < sought.now.len }
    requires shares { AreShares sought.now shares.now }
    requires kept { KeepsSought sought.now kept.old.items }
    ensures { OnOk result (GoesOnSeeking sought.now kept.old.items kept.new.items) }
{
    for number in 0..shares.count {
        let share = share_at(sought, alloc, shares, number)?;
        let stay = kept_of_share(
            alloc,
            &share.table,
            sought.order,
            sought.mode,
            sought.len,
            effort,
        )?;
        leave_out_of_share(sought, &share, &stay, kept);
    }
    Ok(())
}

/// Leaves out edges for all reasons, with so much effort for each, among those alone that share a component of the lock-order
/// graph with the edge at a position; among all where there is one component. The greatest components are told apart, and all
/// others count as one. For each edge of these one time more is noted, so that it is known how often each was looked at.
///
/// Err where memory was refused.
pub fn leave_out_around(
    sought: &Sought<'_>,
    alloc: Global,
    effort: usize,
    position: usize,
    times: &mut Vec<usize>,
    kept: &mut Vec<bool>,
) -> Result<(), Memory>
    requires some { 0 < sought.now.len }
    requires kept { KeepsSought sought.now kept.old.items }
    ensures { OnOk result (GoesOnSeeking sought.now kept.old.items kept.new.items) }
{
    let Some(shares) = shares_of(sought, alloc, kept)? else {
        note_all(times);
        return leave_out_by_reasons(sought, alloc, effort, kept);
    };
    let share = share_at(sought, alloc, &shares, shares.share_of(position))?;
    note_each(times, &share.positions);
    let stay = kept_of_share(
        alloc,
        &share.table,
        sought.order,
        sought.mode,
        sought.len,
        effort,
    )?;
    leave_out_of_share(sought, &share, &stay, kept);
    Ok(())
}

// Notes one time more for each edge.
fn note_all(times: &mut Vec<usize>) {
    for time in times.iter_mut() {
        *time = time.saturating_add(1);
    }
}

// Notes one time more for the edges at these positions.
fn note_each(times: &mut Vec<usize>, positions: &[usize]) {
    for &position in positions {
        if let Some(time) = times.get_mut(position) {
            *time = time.saturating_add(1);
        }
    }
}

// Which edges of a share stay where cycles are sought among them alone.
fn kept_of_share(
    alloc: Global,
    table: &[(Edge, Sample)],
    order: &Order,
    mode: Mode,
    len: usize,
    effort: usize,
) -> Result<Vec<bool>, Memory>
    requires { 0 < len }
    ensures { IfOk result
        (λ stay. KeepsCycles (is_before order.now) mode len (edges_of_table table.now)
        stay.items) }
{
    let sought = Sought {
        table,
        order,
        mode,
        len,
    };
    kept_within(&sought, alloc, effort)
}

// How many edges that are kept lie in each component.
fn sizes_of(
    alloc: Global,
    labels: &[usize],
    ends: &[Ends],
    kept: &[bool],
) -> Result<Vec<usize>, Memory> {
    let mut sizes: Vec<usize> = vec![in alloc; 0; labels.len()]?;
    for (ends, &is_kept) in ends.iter().zip(kept) {
        if let Some(size) = sizes.get_mut(label(labels, ends.held)) {
            *size = size.saturating_add(is_kept as usize);
        }
    }
    Ok(sizes)
}

// How many of these sizes are more than nothing.
fn count_some(sizes: &[usize]) -> usize {
    sizes.iter().filter(|&&size| size > 0).count()
}

// For each component the number of its share.
fn dealt_out(alloc: Global, sizes: &[usize]) -> Result<Vec<usize>, Memory> {
    let mut by_size = Vec::with_capacity(alloc, sizes.len())?;
    for (component, &size) in sizes.iter().enumerate() {
        by_size.push((size, component))?;
    }
    by_size.sort_unstable();
    let mut numbers: Vec<usize> = vec![in alloc; 0; sizes.len()]?;
    for (place, (_, component)) in by_size.iter().rev().enumerate() {
        if let Some(number) = numbers.get_mut(*component) {
            *number = place.min(MOST - 1);
        }
    }
    Ok(numbers)
}
