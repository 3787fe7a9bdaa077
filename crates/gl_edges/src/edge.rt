//! Edges of the lock-order graph, and where each was seen first.
ghost use Rattle.std.specs.Prelude.{◌≡◌, ◌≤◌, length, IsOk, IfOk};

use crate::guards::Guards;
use gl_event::{LocId, LockId, LockMode, Memory, ThreadId};
use std::alloc::Global;

/// One thread wanted a lock while it held another one.
///
/// Edges are ordered by their fields, in this order.
#[derive(Drop, Debug, PartialEq, Eq, PartialOrd, Ord)]
pub struct Edge {
    /// The thread.
    pub thread: ThreadId,
    /// The lock that the thread held.
    pub held: LockId,
    /// The mode in which it held that lock.
    pub held_mode: LockMode,
    /// The lock that the thread wanted, and acquired.
    pub wanted: LockId,
    /// The mode in which it wanted that lock.
    pub wanted_mode: LockMode,
    /// The segment in which the held lock was opened, by its outermost acquire.
    pub first: u32,
    /// The segment in which the wanted lock was acquired.
    pub second: u32,
    /// All locks that the thread held just before, each in its mode, the held one among them.
    pub guards: Guards,
}

impl Edge {
    /// The same edge once more, or that there is no memory for its guards. Up to two guards take none.
    pub fn copy(&self, alloc: Global) -> Result<Edge, Memory>
        ensures same { IfOk result (λ e. e ≡ self.now) }
        ensures in_place { length self.now.guards ≤ 2 → IsOk result }
    {
        let guards = self.guards.copy(alloc)?;
        Ok(Edge { guards, ..*self })
    }
}

/// Where an edge was seen: the place of the acquire in its thread's list, and the locations in the
/// source of the two acquires.
///
/// Samples are ordered by their fields, in this order.
#[derive(Clone, Copy, Debug, PartialEq, Eq, PartialOrd, Ord)]
pub struct Sample {
    /// The place of the acquire of the wanted lock, in its thread's list of events.
    pub place: u32,
    /// The location of the outermost acquire of the held lock.
    pub held_loc: LocId,
    /// The location of the acquire of the wanted lock.
    pub wanted_loc: LocId,
}
