//! Which threads use each lock.
ghost use Rattle.std.specs.Prelude.{◌≡◌, ◌↔◌, ℕ, true, false, length, IsTrue, IfOk, OnOk};
ghost use Rattle.gl_filters.specs.Picked.{edges_of_table};
ghost use Rattle.gl_index.specs.Sides.{lock_towards};
ghost use Rattle.gl_index.specs.Users.{AddsUser, AreUsers, MayUse, NoneUse, UseAsKnown};

use crate::by_lock::ByLock;
use crate::chains::is_kept;
use crate::sides::Side;
use gl_edges::{Edge, Sample};
use gl_event::{LockId, Memory, ThreadId};
use std::alloc::Global;

/// Which threads use each lock: those of the edges that have it on one side. Of a lock no more is known than
/// its one thread, or that there are several.
#[derive(Drop)]
pub struct Users {
    /// The one thread of a lock, and none where there are several. No edge has a lock that isn't there.
    pub by_lock: ByLock<Option<ThreadId>>,
}

impl Users {
    /// The users of the locks on a side of the edges of a table that are kept: those that have no flag, or
    /// whose flag is set. Two look-ups by lock for each edge at most.
    ///
    /// Err where memory was refused.
    pub fn of_kept(
        alloc: Global,
        table: &[(Edge, Sample)],
        side: Side,
        kept: &[bool],
    ) -> Result<Users, Memory>
        ensures users { IfOk result
            (λ users. AreUsers side (edges_of_table table.now) kept.now
            (length table.now) users) }
        ensures known { IfOk result
            (λ users. UseAsKnown side (edges_of_table table.now) kept.now
            (length table.now) users) }
    {
        let mut users = Users::none(alloc, table.len());
        for i in 0..table.len() {
            users.add_kept(is_kept(kept, i), side, &table[i].0)?;
        }
        Ok(users)
    }

    // No lock of so many edges is used.
    fn none(alloc: Global, edges: usize) -> Users
        ensures { NoneUse result }
    {
        Users {
            by_lock: ByLock::for_edges(alloc, edges),
        }
    }

    // This thread uses a lock, too.
    fn add(&mut self, lock: LockId, thread: ThreadId) -> Result<(), Memory>
        ensures { OnOk result (AddsUser self.old lock thread self.new) }
    {
        let Some(known) = self.by_lock.get(lock) else {
            self.by_lock.insert(lock, Some(thread))?;
            return Ok(());
        };
        let Some(one) = known else {
            return Ok(());
        };
        if one == thread {
            return Ok(());
        }
        self.by_lock.insert(lock, None)?;
        Ok(())
    }

    // The thread of an edge uses its lock on this side, if the edge is kept.
    fn add_kept(&mut self, is_kept: bool, side: Side, edge: &Edge) -> Result<(), Memory>
        ensures added { OnOk result (is_kept ≡ true
            → AddsUser self.old (lock_towards side edge.now) edge.now.thread self.new) }
        ensures left { OnOk result (is_kept ≡ false → self.new ≡ self.old) }
    {
        if !is_kept {
            return Ok(());
        }
        self.add(side.lock_of(edge), edge.thread)
    }

    /// Whether no thread but this one uses a lock, as far as is known.
    pub fn has_only(&self, lock: LockId, thread: ThreadId) -> bool
        ensures { IsTrue result ↔ ((t : ℕ) → MayUse self.now lock t → t ≡ thread) }
    {
        let Some(known) = self.by_lock.get(lock) else {
            return true;
        };
        let Some(one) = known else {
            return false;
        };
        one == thread
    }
}
