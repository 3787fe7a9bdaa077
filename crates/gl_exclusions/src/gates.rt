//! Edges that are barred: they hold a lock alone that is held around all edges which could stand beside them on one side.
//!
//! Who holds a lock alone keeps out all who hold it, readers too. So where all edges that hold a lock are made while some
//! other one is held, be it shared, none of them may follow an edge that wants the first and is made while the other is held
//! alone; and where all that want a lock are, none may lead one. So it is where a table is rearranged under a lock that everybody
//! else takes shared. For many edges this is seen by what they have in common, without a look at any two.
//!
//! Which locks are held around all edges that share a lock is not proved; it is checked.
ghost use Rattle.std.specs.Prelude.{◌≡◌, ◌<◌, [], All, Some, true, false, length, slice_get, IsTrue, OnOk};
ghost use Rattle.gl_edges.specs.declared.edge.Edge.{Edge};
ghost use Rattle.gl_filters.specs.Cycle.{asks_guards};
ghost use Rattle.gl_filters.specs.Picked.{edges_of_table};
ghost use Rattle.gl_index.specs.Sides.{lock_towards, opposite};
ghost use Rattle.gl_sought.specs.Sought.{KeepsSought, GoesOnSeeking};
ghost use Rattle.gl_exclusions.specs.bodies.Gates.{gates_of, AreGated, IsBarredBy, IsMadeUnder};

use gl_edges::Edge;
use gl_event::{LockId, Memory};
use gl_index::Side;
use gl_sought::{Sought, is_under};
use std::alloc::Global;
use std::collections::HashMap;

/// Locks that are held around all edges that share a lock on a side, by that lock.
#[derive(Drop)]
pub(crate) struct Gates {
    of: HashMap<LockId, Vec<LockId>>,
}

// Whether the edge is made while the lock is held, alone or shared.
fn is_made_under(edge: &Edge, lock: LockId) -> bool
    ensures { IsTrue result → IsMadeUnder edge.now lock }
{
    for guard in edge.guards.as_slice() {
        if guard.lock == lock {
            return true;
        }
    }
    false
}

// Whether the edge is made while all of these locks are held.
fn is_made_under_all(edge: &Edge, gates: &[LockId]) -> bool
    ensures { IsTrue result → All (IsMadeUnder edge.now) gates.now }
{
    for gate in gates {
        if !is_made_under(edge, *gate) {
            return false;
        }
    }
    true
}

// Whether the edge is made while one of these locks is held alone.
fn is_barred_by(edge: &Edge, gates: &[LockId]) -> bool
    ensures { IsTrue result → IsBarredBy edge.now gates.now }
{
    for gate in gates {
        if is_under(edge, *gate) {
            return true;
        }
    }
    false
}

// Those of these locks that are held while the edge is made.
fn of_them_around(alloc: Global, edge: &Edge, gates: &[LockId]) -> Result<Vec<LockId>, Memory> {
    let mut left = Vec::new(alloc);
    for gate in gates {
        if is_made_under(edge, *gate) {
            left.push(*gate)?;
        }
    }
    Ok(left)
}

// The locks that are held while the edge is made.
fn around(alloc: Global, edge: &Edge) -> Result<Vec<LockId>, Memory> {
    let mut locks = Vec::new(alloc);
    for guard in edge.guards.as_slice() {
        locks.push(guard.lock)?;
    }
    Ok(locks)
}

impl Gates {
    // Those of a lock.
    fn at(&self, lock: LockId) -> &[LockId]
        ensures { result.now ≡ gates_of self.now lock }
    {
        match self.of.get(&lock) {
            Some(gates) => gates.as_slice(),
            None => &[],
        }
    }

    // Takes an edge into account that has the lock.
    fn meet(&mut self, alloc: Global, lock: LockId, edge: &Edge) -> Result<(), Memory> {
        let left = match self.of.get(&lock) {
            Some(gates) => {
                if is_made_under_all(edge, gates.as_slice()) {
                    return Ok(());
                }
                of_them_around(alloc, edge, gates.as_slice())?
            }
            None => around(alloc, edge)?,
        };
        self.of.insert(lock, left)?;
        Ok(())
    }
}

// The gates of the edges that are kept, by their locks on this side.
fn gates_towards(
    sought: &Sought<'_>,
    alloc: Global,
    side: Side,
    kept: &[bool],
) -> Result<Gates, Memory> {
    let mut gates = Gates {
        of: HashMap::new(alloc),
    };
    for ((edge, _), &is_kept) in sought.table.iter().zip(kept) {
        if is_kept {
            gates.meet(alloc, side.lock_of(edge), edge)?;
        }
    }
    Ok(gates)
}

// Whether the edge at a position is kept and not made under all gates of its lock.
fn is_ungated(
    sought: &Sought<'_>,
    gates: &Gates,
    side: Side,
    is_kept: bool,
    position: usize,
) -> bool
    requires { position < length sought.now.table.now }
    ensures { result ≡ false → (e : Edge)
        → slice_get (edges_of_table sought.now.table.now) position ≡ Some e
        → is_kept ≡ true
        → All (IsMadeUnder e) (gates_of gates.now (lock_towards side e)) }
{
    let edge = &sought.table[position].0;
    is_kept && !is_made_under_all(edge, gates.at(side.lock_of(edge)))
}

// Whether each edge that is kept is made under all gates of its lock on this side.
fn are_gated(sought: &Sought<'_>, gates: &Gates, side: Side, kept: &[bool]) -> bool
    requires { length kept.now ≡ length sought.now.table.now }
    ensures { IsTrue result
        → AreGated side (edges_of_table sought.now.table.now) kept.now gates.now }
{
    for i in 0..sought.table.len() {
        if is_ungated(sought, gates, side, kept[i], i) {
            return false;
        }
    }
    true
}

// Leaves out the edge at a position, if it is kept and barred by the gates of those that could stand on this side of it.
fn leave_out_if_barred(
    sought: &Sought<'_>,
    gates: &Gates,
    side: Side,
    kept: &mut Vec<bool>,
    x: usize,
)
    requires asks { asks_guards sought.now.mode ≡ true }
    requires there { x < length sought.now.table.now }
    requires kept { KeepsSought sought.now kept.old.items }
    requires gated { AreGated (opposite side) (edges_of_table sought.now.table.now)
        kept.old.items gates.now }
    ensures { GoesOnSeeking sought.now kept.old.items kept.new.items }
{
    let edge = &sought.table[x].0;
    if kept[x] && is_barred_by(edge, gates.at(side.lock_of(edge))) {
        kept[x] = false;
    }
}

/// Leaves out each edge that is barred on this side. It looks at the guards of each edge that is kept a few times.
pub(crate) fn leave_out_barred(
    sought: &Sought<'_>,
    alloc: Global,
    side: Side,
    kept: &mut Vec<bool>,
) -> Result<(), Memory>
    requires { KeepsSought sought.now kept.old.items }
    ensures { OnOk result (GoesOnSeeking sought.now kept.old.items kept.new.items) }
{
    if !sought.mode.asks_guards() {
        return Ok(());
    }
    let gates = gates_towards(sought, alloc, side.opposite(), kept)?;
    if !are_gated(sought, &gates, side.opposite(), kept) {
        return Ok(());
    }
    for x in 0..sought.table.len() {
        leave_out_if_barred(sought, &gates, side, kept, x);
    }
    Ok(())
}
