//! Edges that stand alone among edges of their own thread.
//!
//! The edges of a cycle have different threads. So each of them is followed by an edge of another thread,
//! which holds the lock that it wants, and led by one of another thread, which wants the lock that it holds.
//! Where on one of these sides all edges that are kept have an edge's own thread, it is in no cycle, and is
//! left out; and then others may be alone in turn.
//!
//! Of the edges that have a lock no more is known than their one thread, or that there are several. So it
//! takes as long for an edge that shares its locks with thousands as for one that shares them with few.
ghost use Rattle.std.specs.Prelude.{◌≡◌, ◌<◌, List, Bool, Some, false, length, slice_get, IsTrue, IfOk, OnOk};
ghost use Rattle.gl_segments.specs.Clocks.{is_before};
ghost use Rattle.gl_filters.specs.Picked.{edges_of_table};
ghost use Rattle.gl_loops.specs.Alone.{IsAlone, LeavesOutAlone};
ghost use Rattle.gl_sought.specs.OffCycles.{IsOffCycles};
ghost use Rattle.gl_sought.specs.Sought.{KeepsSought, GoesOnSeeking};
ghost use Rattle.gl_sought.specs.Flags.{TellsIfAny};
ghost use Rattle.gl_loops.specs.bodies.Users.{KnowsCycles, KnowUsers};
ghost use Rattle.gl_index.specs.Users.{UseAsKnown};
ghost use Rattle.gl_edges.specs.declared.edge.Edge.{Edge};
ghost use Rattle.gl_index.specs.declared.sides.Side.TheVariants.{Follower, Leader};

use gl_edges::Edge;
use gl_event::Memory;
use gl_index::{Side, Users};
use gl_sought::Sought;
use std::alloc::Global;

// How many times all edges are looked at, as long as some are left out.
const PASSES: usize = 4;

// The users of locks on this side of the edges that are kept.
fn users(sought: &Sought<'_>, alloc: Global, side: Side, kept: &[bool]) -> Result<Users, Memory>
    requires { KeepsSought sought.now kept.now }
    ensures cycles { IfOk result (λ users. KnowsCycles sought.now side users) }
    ensures known { IfOk result
        (λ users. UseAsKnown side (edges_of_table sought.now.table.now) kept.now
        (length (edges_of_table sought.now.table.now)) users) }
{
    let users = Users::of_kept(alloc, sought.table, side, kept)?;
    Ok(users)
}

// Whether an edge is alone: of those that hold the lock which it wants, or of those that want the
// lock which it holds, none has another thread.
fn is_alone(sought: &Sought<'_>, holders: &Users, wanters: &Users, edge: &Edge) -> bool
    requires holders { KnowsCycles sought.now Leader holders.now }
    requires wanters { KnowsCycles sought.now Follower wanters.now }
    ensures off { IsTrue result
        → IsOffCycles (is_before sought.now.order.now) sought.now.mode sought.now.len
        (edges_of_table sought.now.table.now) edge.now }
    ensures alone { (kept : List Bool)
        → KnowUsers (edges_of_table sought.now.table.now) kept holders.now wanters.now
        → IsAlone (edges_of_table sought.now.table.now) kept edge.now → IsTrue result }
{
    if holders.has_only(edge.wanted, edge.thread) {
        return true;
    }
    wanters.has_only(edge.held, edge.thread)
}

// Leaves out the edge at a position, if it is alone. Whether it was left out.
fn leave_out_if_alone(
    sought: &Sought<'_>,
    holders: &Users,
    wanters: &Users,
    kept: &mut Vec<bool>,
    x: usize,
) -> bool
    requires there { x < length sought.now.table.now }
    requires holders { KnowsCycles sought.now Leader holders.now }
    requires wanters { KnowsCycles sought.now Follower wanters.now }
    requires kept { KeepsSought sought.now kept.old.items }
    ensures goes_on { GoesOnSeeking sought.now kept.old.items kept.new.items }
    ensures any { TellsIfAny result kept.old.items kept.new.items }
    ensures alone { (before : List Bool) (e : Edge)
        → KnowUsers (edges_of_table sought.now.table.now) before holders.now wanters.now
        → slice_get (edges_of_table sought.now.table.now) x ≡ Some e
        → IsAlone (edges_of_table sought.now.table.now) before e
        → slice_get kept.new.items x ≡ Some false }
{
    if !kept[x] {
        return false;
    }
    if !is_alone(sought, holders, wanters, &sought.table[x].0) {
        return false;
    }
    kept[x] = false;
    true
}

// Leaves out each edge that is alone among those that were kept before. Whether any was left out.
fn leave_out_each_alone(
    sought: &Sought<'_>,
    alloc: Global,
    kept: &mut Vec<bool>,
) -> Result<bool, Memory>
    requires { KeepsSought sought.now kept.old.items }
    ensures goes_on { OnOk result (GoesOnSeeking sought.now kept.old.items kept.new.items) }
    ensures any { IfOk result (λ any. TellsIfAny any kept.old.items kept.new.items) }
    ensures alone { OnOk result
        (LeavesOutAlone (edges_of_table sought.now.table.now) kept.old.items kept.new.items) }
{
    let holders = users(sought, alloc, Side::Leader, kept)?;
    let wanters = users(sought, alloc, Side::Follower, kept)?;
    let mut has_changed = false;
    for x in 0..sought.table.len() {
        has_changed |= leave_out_if_alone(sought, &holders, &wanters, kept, x);
    }
    Ok(has_changed)
}

/// Leaves out edges that are alone, a few times while there are any. Six look-ups at most for each edge
/// that is kept, each time. Err where memory was refused.
pub fn leave_out_alone(
    sought: &Sought<'_>,
    alloc: Global,
    kept: &mut Vec<bool>,
) -> Result<(), Memory>
    requires { KeepsSought sought.now kept.old.items }
    ensures goes_on { OnOk result (GoesOnSeeking sought.now kept.old.items kept.new.items) }
    ensures alone { OnOk result
        (LeavesOutAlone (edges_of_table sought.now.table.now) kept.old.items kept.new.items) }
{
    for _pass in 0..PASSES {
        if !leave_out_each_alone(sought, alloc, kept)? {
            return Ok(());
        }
    }
    Ok(())
}
