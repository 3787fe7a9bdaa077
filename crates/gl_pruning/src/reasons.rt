//! Why edges are left out, and in which order.
//!
//! The edges that lie on no loop are the first, since they are soon found, then those that lie on none of their
//! epoch where a run has some, and then those that are alone among edges of their own thread. The others are left out for one reason after the other, the cheaper ones
//! first: those beside which none may stand; those whose way back leads through others of their thread, or of a lock that they are
//! made under; by kind, since there may be many edges of each kind; those that have no way back; by kind and thread; and single ones by their segments. Where some are, others may lie on no loop any more.
ghost use Rattle.std.specs.Prelude.{◌≡◌, ◌<◌, ◌∷◌, [], IfOk, OnOk};
ghost use Rattle.gl_filters.specs.Picked.{edges_of_table};
ghost use Rattle.gl_loops.specs.Alone.{LeavesOutAlone};
ghost use Rattle.gl_sought.specs.Sought.{KeepsSought, GoesOnSeeking};
ghost use Rattle.gl_kinds.specs.declared.grains.Grain.TheVariants.{ByKind, ByThread, BySegment};
ghost use Rattle.gl_pruning.specs.declared.reasons.Reason.TheVariants.{Alike, NoWay, Stuck, Through};

use crate::shares::{leave_out_apart, shares_of};
use gl_event::Memory;
use gl_exclusions::{leave_out_stuck, shortened};
use gl_kinds::{Grain, leave_out_alike};
use gl_loops::{edges_on_loops, leave_out_alone, leave_out_by_epochs, leave_out_off_loops};
use gl_sought::{Part, Sought, count_set};
use gl_ways::{leave_out_through, leave_out_without_way};
use std::alloc::Global;

/// All the effort that a reason makes at most.
pub const ALL_EFFORT: usize = usize::MAX;

// How many times edges are left out for a reason that is soon gone through, as long as there are any.
const TURNS: usize = 4;

// How many edges are looked at for the effort of one.
const LOOKS: usize = 4;

// How many are at most.
const MOST_LOOKS: usize = 100_000_000;

/// Why edges are left out.
#[derive(Clone, Copy, Debug)]
pub(crate) enum Reason {
    // none may follow them, or none may lead them
    Stuck,
    // their way back leads through others of their owner
    Through,
    // none of a cycle is alike to them
    Alike(Grain),
    // they have no way back
    NoWay,
}

/// The reasons, in their order.
pub(crate) fn reasons() -> [Reason; 6]
    ensures { result ≡ Stuck ∷ Through ∷ Alike ByKind
        ∷ NoWay ∷ Alike ByThread ∷ Alike BySegment ∷ [] }
{
    [
        Reason::Stuck,
        Reason::Through,
        Reason::Alike(Grain::ByKind),
        Reason::NoWay,
        Reason::Alike(Grain::ByThread),
        Reason::Alike(Grain::BySegment),
    ]
}

/// Which edges stay by what is soon seen: they lie on a loop of their epoch, as far as ranks of locks tell, and edges
/// of other threads hold the lock that they want and want the one that they hold. For each a flag.
///
/// Err where memory was refused.
pub fn kept_at_first(sought: &Sought<'_>, alloc: Global) -> Result<Vec<bool>, Memory>
    ensures kept { IfOk result (λ kept. KeepsSought sought.now kept.items) }
    ensures alone { IfOk result
        (λ kept. LeavesOutAlone (edges_of_table sought.now.table.now) [] kept.items) }
{
    let mut kept = on_loops(sought, alloc)?;
    leave_out_by_epochs(sought, alloc, &mut kept)?;
    leave_out_alone(sought, alloc, &mut kept)?;
    Ok(kept)
}

// Which edges lie on a loop, as far as ranks of locks tell: for each a flag.
fn on_loops(sought: &Sought<'_>, alloc: Global) -> Result<Vec<bool>, Memory>
    ensures { IfOk result (λ kept. KeepsSought sought.now kept.items) }
{
    let kept = edges_on_loops(alloc, sought.table)?;
    Ok(kept)
}

/// Leaves out edges for all reasons, with so much effort for each; where they lie in several components of the lock-order graph, in
/// the greatest of these by themselves, each with so much. Where a reason left out some, it is gone through once more,
/// but for all the effort.
///
/// Err where memory was refused.
pub fn leave_out_in_turn(
    sought: &Sought<'_>,
    alloc: Global,
    effort: usize,
    kept: &mut Vec<bool>,
) -> Result<(), Memory>
    requires { KeepsSought sought.now kept.old.items }
    ensures { OnOk result (GoesOnSeeking sought.now kept.old.items kept.new.items) }
{
    if sought.len == 0 {
        return leave_out_by_reasons(sought, alloc, effort, kept);
    }
    match shares_of(sought, alloc, kept)? {
        Some(shares) => leave_out_apart(sought, alloc, &shares, effort, kept),
        None => leave_out_by_reasons(sought, alloc, effort, kept),
    }
}

/// The same by what is known of the edges as they stand here, without a look at components.
pub(crate) fn leave_out_by_reasons(
    sought: &Sought<'_>,
    alloc: Global,
    effort: usize,
    kept: &mut Vec<bool>,
) -> Result<(), Memory>
    requires { KeepsSought sought.now kept.old.items }
    ensures { OnOk result (GoesOnSeeking sought.now kept.old.items kept.new.items) }
{
    for reason in reasons() {
        leave_out_again(sought, alloc, reason, effort, kept)?;
    }
    Ok(())
}

// Leaves out edges for a reason, and then those that lie on no loop any more; and once more where that left out some:
// the same effort gets further then. All the effort isn't made twice.
pub(crate) fn leave_out_again(
    sought: &Sought<'_>,
    alloc: Global,
    reason: Reason,
    effort: usize,
    kept: &mut Vec<bool>,
) -> Result<(), Memory>
    requires { KeepsSought sought.now kept.old.items }
    ensures { OnOk result (GoesOnSeeking sought.now kept.old.items kept.new.items) }
{
    let part = Part::whole().within(effort);
    let before = count_set(kept);
    leave_out(sought, alloc, reason, part, kept)?;
    if count_set(kept) == before {
        return Ok(());
    }
    leave_out_off_loops(sought, alloc, kept)?;
    if effort == ALL_EFFORT {
        return Ok(());
    }
    leave_out(sought, alloc, reason, part, kept)
}

// Leaves out edges for the first reason or the second one, while so many may still be looked at.
fn leave_out_soon(
    sought: &Sought<'_>,
    alloc: Global,
    reason: Reason,
    looks: &mut usize,
    kept: &mut Vec<bool>,
) -> Result<(), Memory>
    requires { KeepsSought sought.now kept.old.items }
    ensures { OnOk result (GoesOnSeeking sought.now kept.old.items kept.new.items) }
{
    match reason {
        Reason::Through => leave_out_through(sought, alloc, looks, kept),
        _ => leave_out_stuck(sought, alloc, looks, kept),
    }
}

// Leaves out edges for the first reason or the second one, and then those that lie on no loop any more, a few times while there are
// any.
fn leave_out_in_turns(
    sought: &Sought<'_>,
    alloc: Global,
    reason: Reason,
    effort: usize,
    kept: &mut Vec<bool>,
) -> Result<(), Memory>
    requires { KeepsSought sought.now kept.old.items }
    ensures { OnOk result (GoesOnSeeking sought.now kept.old.items kept.new.items) }
{
    let mut looks = effort.saturating_mul(LOOKS).min(MOST_LOOKS);
    for _turn in 0..TURNS {
        let before = count_set(kept);
        leave_out_soon(sought, alloc, reason, &mut looks, kept)?;
        if count_set(kept) == before {
            return Ok(());
        }
        leave_out_off_loops(sought, alloc, kept)?;
    }
    Ok(())
}

/// Leaves out edges of a part for a reason.
pub(crate) fn leave_out(
    sought: &Sought<'_>,
    alloc: Global,
    reason: Reason,
    part: Part,
    kept: &mut Vec<bool>,
) -> Result<(), Memory>
    requires { KeepsSought sought.now kept.old.items }
    ensures { OnOk result (GoesOnSeeking sought.now kept.old.items kept.new.items) }
{
    match reason {
        Reason::Through | Reason::Stuck => {
            leave_out_in_turns(sought, alloc, reason, part.share_of(ALL_EFFORT), kept)
        }
        Reason::Alike(grain) => leave_out_alike(sought, alloc, grain, part, kept),
        Reason::NoWay => leave_out_without_way(sought, alloc, part, kept),
    }
}

/// Which edges stay with so much effort for each reason, where paths grow no longer than cycles can be: for each a flag.
pub(crate) fn kept_within(
    sought: &Sought<'_>,
    alloc: Global,
    effort: usize,
) -> Result<Vec<bool>, Memory>
    requires { 0 < sought.now.len }
    ensures { IfOk result (λ kept. KeepsSought sought.now kept.items) }
{
    let mut kept = kept_at_first(sought, alloc)?;
    let shorter = shortened(sought, alloc, &kept)?;
    leave_out_by_reasons(&shorter, alloc, effort, &mut kept)?;
    Ok(kept)
}

/// Which edges may be in a cycle, as far as all reasons tell: for each a flag.
pub(crate) fn kept_edges(sought: &Sought<'_>, alloc: Global) -> Result<Vec<bool>, Memory>
    ensures kept { IfOk result (λ kept. KeepsSought sought.now kept.items) }
    ensures alone { IfOk result
        (λ kept. LeavesOutAlone (edges_of_table sought.now.table.now) [] kept.items) }
{
    let mut kept = kept_at_first(sought, alloc)?;
    leave_out_in_turn(sought, alloc, ALL_EFFORT, &mut kept)?;
    Ok(kept)
}
