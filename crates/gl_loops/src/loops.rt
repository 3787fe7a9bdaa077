//! Which edges may lie on a loop.
ghost use Rattle.std.specs.Prelude.{◌≡◌, ◌<◌, length, IsTrue, IfOk, IfSome, IfNone, OnOk, map};
ghost use Rattle.gl_filters.specs.Picked.{edges_of_table};
ghost use Rattle.gl_loops.specs.Loops.{KeepsLoops};
ghost use Rattle.gl_sought.specs.Sought.{KeepsSought, GoesOnSeeking};
ghost use Rattle.gl_loops.specs.bodies.Epochs.{epoch_at, AreCut};
ghost use Rattle.gl_loops.specs.bodies.Loops.{NoneFalls, NoneFallsAmong, is_level};
ghost use Rattle.gl_loops.specs.bodies.Ranks.{rank_in, rank_of_epoch};
ghost use Rattle.gl_segments.specs.Clocks.{is_before};

use crate::epochs::{Epochs, epochs_of};
use crate::ranks::{Ranks, held_rank, ranks_of, ranks_of_epochs, wanted_rank};
use gl_edges::{Edge, Sample};
use gl_event::Memory;
use gl_sought::Sought;
use std::alloc::Global;

/// Which edges of a table may lie on a loop of the lock-order graph, and so in a cycle: for each a flag.
/// Those have none that lead from a lock to another from which none leads back. Readers don't wait for readers, so
/// edges of readers alone are on none.
///
/// It takes four look-ups for each edge, or five where there are readers, and two walks through the graph.
///
/// Err where memory was refused.
pub fn edges_on_loops(alloc: Global, table: &[(Edge, Sample)]) -> Result<Vec<bool>, Memory>
    ensures { IfOk result (λ kept. KeepsLoops (edges_of_table table.now) kept.items) }
{
    let ranks = ranks_of(alloc, table)?;
    match level_edges(alloc, table, &ranks)? {
        Some(level) => Ok(level),
        None => all_edges(alloc, table),
    }
}

// Which edges wait for one of the same rank, where none waits for one of a lower rank.
fn level_edges(
    alloc: Global,
    table: &[(Edge, Sample)],
    ranks: &Ranks,
) -> Result<Option<Vec<bool>>, Memory>
    ensures certified { IfOk result
        (λ level. IfSome level
        (λ flags. NoneFalls (rank_in ranks.now) (edges_of_table table.now))) }
    ensures refused { IfOk result
        (λ level. IfNone level
        (¬ NoneFalls (rank_in ranks.now) (edges_of_table table.now))) }
    ensures level { IfOk result
        (λ level. IfSome level
        (λ flags. flags.items
        ≡ map (is_level (rank_in ranks.now)) (edges_of_table table.now))) }
{
    let mut level = Vec::new(alloc);
    for i in 0..table.len() {
        let edge = &table[i].0;
        let held = ranks.rank(edge.held, edge.held_mode);
        let wanted = ranks.least(edge.wanted, edge.wanted_mode);
        if held > wanted {
            return Ok(None);
        }
        level.push(held == wanted)?;
    }
    Ok(Some(level))
}

// All edges are kept.
fn all_edges(alloc: Global, table: &[(Edge, Sample)]) -> Result<Vec<bool>, Memory>
    ensures { IfOk result (λ kept. KeepsLoops (edges_of_table table.now) kept.items) }
{
    let kept = vec![in alloc; true; table.len()]?;
    Ok(kept)
}

// Whether no edge that is kept waits for one of a lower rank in its epoch.
fn none_falls(sought: &Sought<'_>, ranks: &[Ranks], epochs: &Epochs, kept: &[bool]) -> bool
    requires { length kept.now ≡ length sought.now.table.now }
    ensures { IsTrue result
        → NoneFallsAmong (rank_of_epoch ranks.now) (epoch_at epochs.now)
        (edges_of_table sought.now.table.now) kept.now }
{
    for i in 0..sought.table.len() {
        let edge = &sought.table[i].0;
        let epoch = epochs.epoch(i);
        let held = held_rank(ranks, epoch, edge);
        let wanted = wanted_rank(ranks, epoch, edge);
        if kept[i] && held > wanted {
            return false;
        }
    }
    true
}

// Leaves out the edge at a position, if it waits for one of a higher rank, where none waits for one of a lower rank.
fn leave_out_if_rising(
    sought: &Sought<'_>,
    ranks: &[Ranks],
    epochs: &Epochs,
    kept: &mut Vec<bool>,
    i: usize,
)
    requires there { i < length sought.now.table.now }
    requires kept { KeepsSought sought.now kept.old.items }
    requires cut { AreCut (is_before sought.now.order.now) sought.now.mode (epoch_at epochs.now)
        (edges_of_table sought.now.table.now) kept.old.items }
    requires certified { NoneFallsAmong (rank_of_epoch ranks.now) (epoch_at epochs.now)
        (edges_of_table sought.now.table.now) kept.old.items }
    ensures { GoesOnSeeking sought.now kept.old.items kept.new.items }
{
    if !kept[i] {
        return;
    }
    let edge = &sought.table[i].0;
    let epoch = epochs.epoch(i);
    if held_rank(ranks, epoch, edge) != wanted_rank(ranks, epoch, edge) {
        kept[i] = false;
    }
}

// Leaves out edges that lie on no loop of those of their epochs that are kept.
fn leave_out_off_loops_of(
    sought: &Sought<'_>,
    alloc: Global,
    epochs: &Epochs,
    kept: &mut Vec<bool>,
) -> Result<(), Memory>
    requires kept { KeepsSought sought.now kept.old.items }
    requires cut { AreCut (is_before sought.now.order.now) sought.now.mode (epoch_at epochs.now)
        (edges_of_table sought.now.table.now) kept.old.items }
    ensures { OnOk result (GoesOnSeeking sought.now kept.old.items kept.new.items) }
{
    let ranks = ranks_of_epochs(alloc, sought.table, kept, epochs)?;
    if !none_falls(sought, &ranks, epochs, kept) {
        return Ok(());
    }
    for i in 0..sought.table.len() {
        leave_out_if_rising(sought, &ranks, epochs, kept, i);
    }
    Ok(())
}

/// Leaves out edges that lie on no loop of those that are kept, of the same epoch where there are some. What it takes is
/// that of [`edges_on_loops`] and of [epochs](crate::epochs), and as many look-ups once more. Err where memory was refused.
pub fn leave_out_off_loops(
    sought: &Sought<'_>,
    alloc: Global,
    kept: &mut Vec<bool>,
) -> Result<(), Memory>
    requires { KeepsSought sought.now kept.old.items }
    ensures { OnOk result (GoesOnSeeking sought.now kept.old.items kept.new.items) }
{
    let epochs = epochs_of(sought, alloc, kept)?;
    leave_out_off_loops_of(sought, alloc, &epochs, kept)
}

/// The same as [`leave_out_off_loops`], but only where there are some epochs.
pub fn leave_out_by_epochs(
    sought: &Sought<'_>,
    alloc: Global,
    kept: &mut Vec<bool>,
) -> Result<(), Memory>
    requires { KeepsSought sought.now kept.old.items }
    ensures { OnOk result (GoesOnSeeking sought.now kept.old.items kept.new.items) }
{
    let epochs = epochs_of(sought, alloc, kept)?;
    if epochs.count < 2 {
        return Ok(());
    }
    leave_out_off_loops_of(sought, alloc, &epochs, kept)
}
