//! An index of edges by one of their locks.
ghost use Rattle.std.specs.Prelude.{◌≡◌, ◌↔◌, ◌+◌, ◌<◌, ℕ, Bool, false, List, length, slice_get, vec_len, Some, IfOk, OnOk};
ghost use Rattle.gl_filters.specs.Picked.{edges_of_table};
ghost use Rattle.gl_index.specs.Listed.{IsNextWith};
ghost use Rattle.gl_index.specs.Indexes.{AreChained, AreChainedKept};
ghost use Rattle.gl_index.specs.Sides.{lock_towards};
ghost use Rattle.gl_edges.specs.declared.edge.Edge.{Edge};
ghost use Rattle.gl_index.specs.declared.sides.Side.{Side};

use crate::by_lock::ByLock;
use crate::sides::Side;
use gl_edges::{Edge, Sample};
use gl_event::{LockId, Memory};
use std::alloc::Global;

/// Leads from a lock through the positions of the edges that have it on one side, ascending, but for
/// edges that are left out.
#[derive(Drop)]
pub struct Chain {
    /// The first position of each lock.
    pub first: ByLock<usize>,
    /// For each position the next one with the same lock.
    pub next: Vec<Option<usize>>,
}

impl Chain {
    /// The index of the edges of a table by their locks on a side. Two look-ups by lock for each edge.
    ///
    /// Err where memory was refused.
    pub fn of(alloc: Global, table: &[(Edge, Sample)], side: Side) -> Result<Chain, Memory>
        ensures { IfOk result (λ chain. AreChained side (edges_of_table table.now) 0 chain) }
    {
        Chain::of_kept(alloc, table, side, &[])
    }

    /// The same of the edges that are kept: those that have no flag, or whose flag is set. Two look-ups
    /// by lock for each edge at most.
    ///
    /// Err where memory was refused.
    pub fn of_kept(
        alloc: Global,
        table: &[(Edge, Sample)],
        side: Side,
        kept: &[bool],
    ) -> Result<Chain, Memory>
        ensures { IfOk result
            (λ chain. AreChainedKept side (edges_of_table table.now) kept.now 0 chain) }
    {
        let mut chain = Chain {
            first: ByLock::for_edges(alloc, table.len()),
            next: vec![in alloc; None; table.len()]?,
        };
        for i in (0..table.len()).rev() {
            chain.put(i, side.lock_of(&table[i].0), is_kept(kept, i))?;
        }
        Ok(chain)
    }

    // Puts the edge at a position before those that are in the index. An edge that is left out
    // leads on, but nothing leads to it.
    fn put(&mut self, i: usize, lock: LockId, is_kept: bool) -> Result<(), Memory>
        requires { i < vec_len self.old.next }
        ensures { (edges : List Edge) (kept : List Bool) (side : Side) (e : Edge)
            → AreChainedKept side edges kept (i + 1) self.old
            → slice_get edges i ≡ Some e → lock_towards side e ≡ lock
            → (is_kept ≡ false ↔ slice_get kept i ≡ Some false)
            → OnOk result (AreChainedKept side edges kept i self.new) }
    {
        if !is_kept {
            self.next[i] = self.first.get(lock);
            return Ok(());
        }
        self.next[i] = self.first.insert(lock, i)?;
        Ok(())
    }

    /// The first position of a lock.
    pub fn begin(&self, lock: LockId) -> Option<usize>
        ensures { (edges : List Edge) (kept : List Bool) (side : Side)
            → AreChainedKept side edges kept 0 self.now
            → IsNextWith (lock_towards side) edges kept lock 0 result }
    {
        self.first.get(lock)
    }

    /// The position after `i` of the next edge with the lock of the edge at `i`.
    pub fn after(&self, i: usize) -> Option<usize>
        requires { i < vec_len self.now.next }
        ensures { (edges : List Edge) (kept : List Bool) (side : Side) (e : Edge)
            → AreChainedKept side edges kept 0 self.now → slice_get edges i ≡ Some e
            → IsNextWith (lock_towards side) edges kept (lock_towards side e)
            (i + 1) result }
    {
        self.next[i]
    }
}

// Whether the edge at a position is kept.
pub(crate) fn is_kept(kept: &[bool], i: usize) -> bool
    ensures { result ≡ false ↔ slice_get kept.now i ≡ Some false }
{
    kept.get(i).copied().unwrap_or(true)
}
