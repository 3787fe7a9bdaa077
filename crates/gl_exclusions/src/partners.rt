//! Edges that are stuck: beside which no other one may stand in a cycle, on one side.
//!
//! Each edge of a cycle is followed by another one of it, and led by one. So where none of the edges that are kept may
//! follow an edge, or none may lead it, it is in no cycle, and is left out; and then others may have none in turn.
//!
//! Which edge was found beside one is remembered: as long as that is kept, nothing is looked for. It isn't proved that it
//! stands there, and nothing relies on it but for speed: such an edge stays.
ghost use Rattle.std.specs.Prelude.{◌≡◌, ◌<◌, None, length, IsTrue, IfOk, OnOk};
ghost use Rattle.gl_segments.specs.Clocks.{is_before};
ghost use Rattle.gl_filters.specs.Picked.{edges_of_table};
ghost use Rattle.gl_index.specs.Indexes.{AreChainedKept};
ghost use Rattle.gl_index.specs.Sides.{is_beside, opposite};
ghost use Rattle.gl_edges.specs.declared.edge.Edge.{Edge};
ghost use Rattle.gl_sought.specs.Sought.{KeepsSought, GoesOnSeeking};
ghost use Rattle.gl_sought.specs.Flags.{TellsIfAny};
ghost use Rattle.gl_exclusions.specs.bodies.Partners.{LeadsThrough, NoneBeside};

use crate::gates::leave_out_barred;
use gl_edges::Edge;
use gl_event::Memory;
use gl_filters::compatible;
use gl_index::{Chain, Side};
use gl_sought::Sought;
use std::alloc::Global;

// How many times all edges are looked at, as long as some are left out.
const PASSES: usize = 64;

// Where edges stand that may stand beside others, on one side of them.
#[derive(Drop)]
pub(crate) struct Partners {
    // leads through the edges that share a lock
    pub(crate) chain: Chain,
    // for each position where an edge was found beside the one there
    found: Vec<usize>,
}

impl Partners {
    // What is known before any edge was looked at.
    fn of(alloc: Global, sought: &Sought<'_>, side: Side, kept: &[bool]) -> Result<Partners, Memory>
        ensures { IfOk result
            (λ partners. AreChainedKept (opposite side) (edges_of_table sought.now.table.now)
            kept.now 0 partners.chain) }
    {
        let chain = Chain::of_kept(alloc, sought.table, side.opposite(), kept)?;
        let found = vec![in alloc; usize::MAX; sought.table.len()]?;
        Ok(Partners { chain, found })
    }

    // Whether the edge that was found beside the one at a position is kept.
    fn has_kept(&self, kept: &[bool], x: usize) -> bool {
        match self.found.get(x) {
            Some(&other) => kept.get(other) == Some(&true),
            None => false,
        }
    }

    // Remembers which edge was found beside the one at a position.
    fn remember(&mut self, x: usize, other: usize)
        ensures { self.new.chain ≡ self.old.chain }
    {
        if let Some(found) = self.found.get_mut(x) {
            *found = other;
        }
    }
}

// Whether the second edge may stand on this side of the first one.
fn stands_beside(sought: &Sought<'_>, side: Side, edge: &Edge, other: &Edge) -> bool
    ensures { result
        ≡ is_beside (is_before sought.now.order.now) sought.now.mode side edge.now other.now }
{
    match side {
        Side::Follower => compatible(sought.mode, sought.order, edge, other),
        Side::Leader => compatible(sought.mode, sought.order, other, edge),
    }
}

// The first position of an edge that is kept and may stand beside the one at x; or where no more may be looked at,
// that of the next one that may be.
fn next_beside(
    sought: &Sought<'_>,
    chain: &Chain,
    kept: &[bool],
    side: Side,
    looks: &mut usize,
    x: usize,
) -> Option<usize>
    requires there { x < length sought.now.table.now }
    requires flags { length kept.now ≡ length sought.now.table.now }
    requires chain { LeadsThrough side (edges_of_table sought.now.table.now) kept.now chain.now }
    ensures { result ≡ None
        → NoneBeside (is_before sought.now.order.now) sought.now.mode
        (edges_of_table sought.now.table.now) kept.now side x (length sought.now.table.now) }
{
    let edge = &sought.table[x].0;
    let mut next = chain.begin(side.lock_of(edge));
    while let Some(other) = next {
        if *looks == 0 {
            return Some(other);
        }
        *looks -= 1;
        if kept[other] && stands_beside(sought, side, edge, &sought.table[other].0) {
            return Some(other);
        }
        next = chain.after(other);
    }
    None
}

// Leaves out the edge at a position, if it is kept and none may stand on this side of it. Whether it was left out.
fn leave_out_if_stuck(
    sought: &Sought<'_>,
    partners: &mut Partners,
    side: Side,
    looks: &mut usize,
    kept: &mut Vec<bool>,
    x: usize,
) -> bool
    requires there { x < length sought.now.table.now }
    requires kept { KeepsSought sought.now kept.old.items }
    requires chain { LeadsThrough side (edges_of_table sought.now.table.now) kept.old.items
        partners.old.chain }
    ensures goes_on { GoesOnSeeking sought.now kept.old.items kept.new.items }
    ensures any { TellsIfAny result kept.old.items kept.new.items }
    ensures chain { partners.new.chain ≡ partners.old.chain }
{
    if !kept[x] || partners.has_kept(kept, x) {
        return false;
    }
    match next_beside(sought, &partners.chain, kept, side, looks, x) {
        Some(other) => {
            partners.remember(x, other);
            false
        }
        None => {
            kept[x] = false;
            true
        }
    }
}

// Leaves out each edge that none may stand beside on this side. Whether any was left out.
fn leave_out_each_stuck(
    sought: &Sought<'_>,
    partners: &mut Partners,
    side: Side,
    looks: &mut usize,
    kept: &mut Vec<bool>,
) -> bool
    requires kept { KeepsSought sought.now kept.old.items }
    requires chain { LeadsThrough side (edges_of_table sought.now.table.now) kept.old.items
        partners.old.chain }
    ensures goes_on { GoesOnSeeking sought.now kept.old.items kept.new.items }
    ensures any { TellsIfAny result kept.old.items kept.new.items }
    ensures chain { partners.new.chain ≡ partners.old.chain }
{
    let mut has_changed = false;
    for x in 0..sought.table.len() {
        has_changed |= leave_out_if_stuck(sought, partners, side, looks, kept, x);
    }
    has_changed
}

/// Leaves out edges that none may follow, or none may lead, as long as there are any and so many may still be looked
/// at; first those of which this is seen without a look at others, since they are barred. `looks` is left with what is
/// not used up. Err where memory was refused.
pub fn leave_out_stuck(
    sought: &Sought<'_>,
    alloc: Global,
    looks: &mut usize,
    kept: &mut Vec<bool>,
) -> Result<(), Memory>
    requires { KeepsSought sought.now kept.old.items }
    ensures { OnOk result (GoesOnSeeking sought.now kept.old.items kept.new.items) }
{
    leave_out_barred(sought, alloc, Side::Follower, kept)?;
    leave_out_barred(sought, alloc, Side::Leader, kept)?;
    let mut followers = Partners::of(alloc, sought, Side::Follower, kept)?;
    let mut leaders = Partners::of(alloc, sought, Side::Leader, kept)?;
    for _pass in 0..PASSES {
        let some_unfollowed = leave_out_each_stuck(
            sought,
            &mut followers,
            Side::Follower,
            looks,
            kept,
        );
        let some_unled = leave_out_each_stuck(sought, &mut leaders, Side::Leader, looks, kept);
        if !some_unfollowed && !some_unled {
            return Ok(());
        }
    }
    Ok(())
}
