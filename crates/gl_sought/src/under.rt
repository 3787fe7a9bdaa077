//! Edges that are made under a lock.
ghost use Rattle.std.specs.Prelude.{IsTrue, Contains};
ghost use Rattle.gl_event.specs.declared.events.LockMode.TheVariants.{Exclusive};

use gl_edges::Edge;
use gl_event::{LockId, LockMode};

/// Whether the edge is made under this lock, which is held exclusively.
pub fn is_under(edge: &Edge, lock: LockId) -> bool
    ensures { IsTrue result
        → Contains edge.now.guards (record { lock = lock; mode = Exclusive }) }
{
    for guard in edge.guards.as_slice() {
        if guard.lock == lock && guard.mode == LockMode::Exclusive {
            return true;
        }
    }
    false
}
