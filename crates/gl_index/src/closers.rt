//! An index of the edges that may close a path.
ghost use Rattle.std.specs.Prelude.{◌≡◌, ◌+◌, ◌<◌, ℕ, Bool, false, List, length, slice_get, vec_len, Some, IfOk, OnOk};
ghost use Rattle.gl_filters.specs.Picked.{edges_of_table};
ghost use Rattle.gl_index.specs.Listed.{IsNextWith};
ghost use Rattle.gl_index.specs.Indexes.{AreClosers, both_locks};
ghost use Rattle.gl_edges.specs.declared.edge.Edge.{Edge};

use gl_edges::{Edge, Sample};
use gl_event::{LockId, Memory};
use std::alloc::Global;
use std::collections::HashMap;

/// Leads from two locks through the positions of the edges that hold the one and want the other,
/// ascending, but for edges that are left out.
#[derive(Drop)]
pub struct Closers {
    /// The first position of each two locks.
    pub first: HashMap<(LockId, LockId), usize>,
    /// For each position the next one with the same two locks.
    pub next: Vec<Option<usize>>,
}

impl Closers {
    /// The index of the edges of a table, of which some are kept. One look-up for each edge.
    ///
    /// Err where memory was refused.
    pub fn of(alloc: Global, table: &[(Edge, Sample)], kept: &[bool]) -> Result<Closers, Memory>
        requires { length kept.now ≡ length table.now }
        ensures { IfOk result
            (λ closers. AreClosers (edges_of_table table.now) kept.now 0 closers) }
    {
        let mut closers = Closers {
            first: HashMap::new(alloc),
            next: vec![in alloc; None; table.len()]?,
        };
        for i in (0..table.len()).rev() {
            let edge = &table[i].0;
            closers.put(i, (edge.held, edge.wanted), kept[i])?;
        }
        Ok(closers)
    }

    // Puts the edge at a position before those that are in the index. An edge that is left out
    // leads on, but nothing leads to it.
    fn put(&mut self, i: usize, locks: (LockId, LockId), is_kept: bool) -> Result<(), Memory>
        requires { i < vec_len self.old.next }
        ensures { (edges : List Edge) (kept : List Bool) (e : Edge)
            → AreClosers edges kept (i + 1) self.old → slice_get edges i ≡ Some e
            → both_locks e ≡ locks → slice_get kept i ≡ Some is_kept
            → OnOk result (AreClosers edges kept i self.new) }
    {
        if !is_kept {
            self.next[i] = self.first.get(&locks).copied();
            return Ok(());
        }
        self.next[i] = self.first.insert(locks, i)?;
        Ok(())
    }

    /// The first position of an edge that holds the one lock and wants the other.
    pub fn begin(&self, held: LockId, wanted: LockId) -> Option<usize>
        ensures { (edges : List Edge) (kept : List Bool) → AreClosers edges kept 0 self.now
            → IsNextWith both_locks edges kept (held, wanted) 0 result }
    {
        self.first.get(&(held, wanted)).copied()
    }

    /// The position after `i` of the next edge with the locks of the edge at `i`.
    pub fn after(&self, i: usize) -> Option<usize>
        requires { i < vec_len self.now.next }
        ensures { (edges : List Edge) (kept : List Bool) (e : Edge)
            → AreClosers edges kept 0 self.now → slice_get edges i ≡ Some e
            → IsNextWith both_locks edges kept (both_locks e) (i + 1) result }
    {
        self.next[i]
    }
}
