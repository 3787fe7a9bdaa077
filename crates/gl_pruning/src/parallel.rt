//! Edges that are in no cycle, left out on several threads.
//!
//! The positions of a table are dealt out to parts. In each part a thread leaves out edges of its own,
//! and knows nothing of the others. An edge stays that stays by each of them.
ghost use Rattle.std.specs.Prelude.{◌≡◌, ◌<◌, [], Some, false, length, slice_get, All, IfOk, OnOk};
ghost use Rattle.gl_segments.specs.Clocks.{is_before};
ghost use Rattle.gl_filters.specs.Picked.{edges_of_table};
ghost use Rattle.gl_sought.specs.OffCycles.{KeepsCycles};
ghost use Rattle.gl_loops.specs.Alone.{LeavesOutAlone};
ghost use Rattle.gl_sought.specs.Sought.{KeepsSought, StayLeftOut, GoesOnSeeking};
ghost use Rattle.gl_pruning.specs.bodies.Shares.{AreShares};

use crate::reasons::{ALL_EFFORT, Reason, kept_at_first, leave_out, leave_out_again, reasons};
use crate::shares::{Shares, leave_out_of_share, share_at, shares_of};
use gl_edges::{Edge, Sample};
use gl_event::Memory;
use gl_exclusions::shortened;
use gl_filters::Mode;
use gl_segments::Order;
use gl_sought::{Part, Sought, count_set};
use rayon::prelude::*;
use std::alloc::Global;
use std::thread::Threads;

// How many parts there are: more than most machines have processors, so that they even out.
const PARTS: usize = 8;

// For how many edges other threads don't pay.
const FEW: usize = 1_000;

// How many times ways back are looked for at most, each time within the whole budget, since what one part
// leaves out another one sees the next time.
const PASSES: usize = 3;

// Which edges stay if some of a part are left out.
fn kept_by_part(
    sought: &Sought<'_>,
    alloc: Global,
    reason: Reason,
    part: Part,
    kept: &[bool],
) -> Result<Vec<bool>, Memory>
    requires { KeepsSought sought.now kept.now }
    ensures { IfOk result (λ stay. KeepsSought sought.now stay.items) }
{
    let mut stay = Vec::from_slice(alloc, kept)?;
    leave_out(sought, alloc, reason, part, &mut stay)?;
    Ok(stay)
}

// Leaves out the edge at a position, if it isn't one that stays.
fn leave_out_unless(sought: &Sought<'_>, stay: &[bool], kept: &mut Vec<bool>, i: usize)
    requires there { i < length sought.now.table.now }
    requires stay { KeepsSought sought.now stay.now }
    requires kept { KeepsSought sought.now kept.old.items }
    ensures goes_on { GoesOnSeeking sought.now kept.old.items kept.new.items }
    ensures out { slice_get stay.now i ≡ Some false
        → slice_get kept.new.items i ≡ Some false }
{
    if !stay[i] {
        kept[i] = false;
    }
}

// Leaves out all but those that stay.
fn leave_out_others(sought: &Sought<'_>, stay: &[bool], kept: &mut Vec<bool>)
    requires stay { KeepsSought sought.now stay.now }
    requires kept { KeepsSought sought.now kept.old.items }
    ensures goes_on { GoesOnSeeking sought.now kept.old.items kept.new.items }
    ensures out { StayLeftOut stay.now kept.new.items }
{
    for i in 0..sought.table.len() {
        leave_out_unless(sought, stay, kept, i);
    }
}

// Which edges stay by each part.
fn kept_by_each(
    rt: &(impl Threads + Sync),
    alloc: Global,
    sought: &Sought<'_>,
    reason: Reason,
    effort: usize,
    kept: &[bool],
) -> Result<Vec<Vec<bool>>, Memory>
    requires { KeepsSought sought.now kept.now }
    ensures { IfOk result (λ parts. All (λ stay. KeepsSought sought.now stay.items) parts.items) }
{
    let found: Result<Vec<Vec<bool>>, Memory> = (0..PARTS)
        .into_par_iter()
        .map(
            |number: usize| -> Result<Vec<bool>, Memory>
                requires { KeepsSought sought.now kept.now }
                ensures { IfOk result (λ stay. KeepsSought sought.entry.now stay.items) }
            {
                kept_by_part(
                    sought,
                    alloc,
                    reason,
                    Part::one(number, PARTS).within(effort),
                    kept,
                )
            },
        )
        .with_min_len(1)
        .collect(rt, alloc)?;
    found
}

// Leaves out edges of all parts, some parts in each thread.
fn leave_out_by_parts(
    rt: &(impl Threads + Sync),
    alloc: Global,
    sought: &Sought<'_>,
    reason: Reason,
    effort: usize,
    kept: &mut Vec<bool>,
) -> Result<(), Memory>
    requires kept { KeepsSought sought.now kept.old.items }
    ensures { OnOk result (GoesOnSeeking sought.now kept.old.items kept.new.items) }
{
    if count_set(kept) <= FEW {
        return leave_out(sought, alloc, reason, Part::whole().within(effort), kept);
    }
    let parts = kept_by_each(rt, alloc, sought, reason, effort, kept)?;
    for i in 0..parts.len() {
        leave_out_others(sought, &parts[i], kept);
    }
    Ok(())
}

// Leaves out edges that have no way back, as long as there are any and the search for them may go on.
fn leave_out_in_passes(
    rt: &(impl Threads + Sync),
    alloc: Global,
    sought: &Sought<'_>,
    effort: usize,
    kept: &mut Vec<bool>,
) -> Result<(), Memory>
    requires kept { KeepsSought sought.now kept.old.items }
    ensures { OnOk result (GoesOnSeeking sought.now kept.old.items kept.new.items) }
{
    for _ in 0..PASSES {
        let before = count_set(kept);
        leave_out_by_parts(rt, alloc, sought, Reason::NoWay, effort, kept)?;
        if count_set(kept) == before {
            return Ok(());
        }
    }
    Ok(())
}

// Leaves out edges for a reason, with so much effort.
fn leave_out_parallel(
    rt: &(impl Threads + Sync),
    alloc: Global,
    sought: &Sought<'_>,
    reason: Reason,
    effort: usize,
    kept: &mut Vec<bool>,
) -> Result<(), Memory>
    requires kept { KeepsSought sought.now kept.old.items }
    ensures { OnOk result (GoesOnSeeking sought.now kept.old.items kept.new.items) }
{
    match reason {
        Reason::Through | Reason::Stuck => { leave_out_again(sought, alloc, reason, effort, kept) }
        Reason::Alike(_) => leave_out_by_parts(rt, alloc, sought, reason, effort, kept),
        Reason::NoWay => leave_out_in_passes(rt, alloc, sought, effort, kept),
    }
}

// Leaves out edges for all reasons, without a look at components.
fn leave_out_by_reasons_parallel(
    rt: &(impl Threads + Sync),
    alloc: Global,
    sought: &Sought<'_>,
    effort: usize,
    kept: &mut Vec<bool>,
) -> Result<(), Memory>
    requires kept { KeepsSought sought.now kept.old.items }
    ensures { OnOk result (GoesOnSeeking sought.now kept.old.items kept.new.items) }
{
    for reason in reasons() {
        leave_out_parallel(rt, alloc, sought, reason, effort, kept)?;
    }
    Ok(())
}

// The same as [`kept_within`](crate::reasons::kept_within), on several threads.
fn kept_within_parallel(
    rt: &(impl Threads + Sync),
    alloc: Global,
    sought: &Sought<'_>,
    effort: usize,
) -> Result<Vec<bool>, Memory>
    requires { 0 < sought.now.len }
    ensures { IfOk result (λ kept. KeepsSought sought.now kept.items) }
{
    let mut kept = kept_at_first(sought, alloc)?;
    let shorter = shortened(sought, alloc, &kept)?;
    leave_out_by_reasons_parallel(rt, alloc, &shorter, effort, &mut kept)?;
    Ok(kept)
}

// Which edges of a share stay where cycles are sought among them alone.
fn kept_of_share_parallel(
    rt: &(impl Threads + Sync),
    alloc: Global,
    table: &[(Edge, Sample)],
    order: &Order,
    mode: Mode,
    len: usize,
    effort: usize,
) -> Result<Vec<bool>, Memory>
    requires { 0 < len }
    ensures { IfOk result
        (λ stay. KeepsCycles (is_before order.now) mode len (edges_of_table table.now)
        stay.items) }
{
    let sought = Sought {
        table,
        order,
        mode,
        len,
    };
    kept_within_parallel(rt, alloc, &sought, effort)
}

// Leaves out edges for all reasons, in each share by itself.
fn leave_out_apart_parallel(
    rt: &(impl Threads + Sync),
    alloc: Global,
    sought: &Sought<'_>,
    shares: &Shares,
    effort: usize,
    kept: &mut Vec<bool>,
) -> Result<(), Memory>
    requires some { 0 < sought.now.len }
    requires shares { AreShares sought.now shares.now }
    requires kept { KeepsSought sought.now kept.old.items }
    ensures { OnOk result (GoesOnSeeking sought.now kept.old.items kept.new.items) }
{
    for number in 0..shares.count {
        let share = share_at(sought, alloc, shares, number)?;
        let stay = kept_of_share_parallel(
            rt,
            alloc,
            &share.table,
            sought.order,
            sought.mode,
            sought.len,
            effort,
        )?;
        leave_out_of_share(sought, &share, &stay, kept);
    }
    Ok(())
}

/// The same as [`leave_out_in_turn`](crate::leave_out_in_turn), on several threads. Ways back are looked for up to three times,
/// each time with so much effort, and as long as some edge has none; the other reasons are gone through once.
///
/// Err where memory was refused.
pub fn leave_out_in_turn_parallel(
    rt: &(impl Threads + Sync),
    alloc: Global,
    sought: &Sought<'_>,
    effort: usize,
    kept: &mut Vec<bool>,
) -> Result<(), Memory>
    requires kept { KeepsSought sought.now kept.old.items }
    ensures { OnOk result (GoesOnSeeking sought.now kept.old.items kept.new.items) }
{
    if sought.len == 0 {
        return leave_out_by_reasons_parallel(rt, alloc, sought, effort, kept);
    }
    match shares_of(sought, alloc, kept)? {
        Some(shares) => leave_out_apart_parallel(rt, alloc, sought, &shares, effort, kept),
        None => leave_out_by_reasons_parallel(rt, alloc, sought, effort, kept),
    }
}

/// The same as [`kept_edges`](crate::reasons::kept_edges), on several threads.
pub(crate) fn kept_edges_parallel(
    rt: &(impl Threads + Sync),
    alloc: Global,
    sought: &Sought<'_>,
) -> Result<Vec<bool>, Memory>
    ensures kept { IfOk result (λ kept. KeepsSought sought.now kept.items) }
    ensures alone { IfOk result
        (λ kept. LeavesOutAlone (edges_of_table sought.now.table.now) [] kept.items) }
{
    let mut kept = kept_at_first(sought, alloc)?;
    leave_out_in_turn_parallel(rt, alloc, sought, ALL_EFFORT, &mut kept)?;
    Ok(kept)
}
