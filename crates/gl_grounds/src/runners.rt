//! Which thread runs the code of a class, where one alone does.
//!
//! The threads of a cycle differ. So no cycle has edges of two classes that one and the same thread alone runs:
//! a server's threads for housekeeping run most of its pieces of code alone.
ghost use Rattle.std.specs.Prelude.{◌≡◌, ◌<◌, ℕ, Some, length, slice_get, IfOk, IsTrue};
ghost use Rattle.gl_filters.specs.Picked.{edges_of_table};
ghost use Rattle.gl_grounds.specs.Running.{AreRunByOne, AreRunners, IsRunBy, IsRunTwice};
ghost use Rattle.gl_grounds.specs.declared.runners.Runner.TheVariants.{One};

use gl_edges::{Edge, Sample};
use gl_event::{Memory, ThreadId};
use std::alloc::Global;

/// Of which threads the edges of a class are.
#[derive(Clone, Copy)]
pub enum Runner {
    /// There is no edge.
    Nobody,
    /// All are of this thread.
    One(ThreadId),
    /// They may be of several.
    Several,
}

/// For each class of which threads its edges are that are kept.
pub(crate) fn runners_of(
    alloc: Global,
    table: &[(Edge, Sample)],
    classes: &[usize],
    kept: &[bool],
) -> Result<Vec<Runner>, Memory>
    requires classes { length classes.now ≡ length table.now }
    requires kept { length kept.now ≡ length table.now }
    ensures { IfOk result
        (λ runners. AreRunners (edges_of_table table.now) classes.now kept.now runners.items) }
{
    let mut runners = vec![in alloc; Runner::Nobody; table.len()]?;
    for i in 0..table.len() {
        if !kept[i] {
            continue;
        }
        add_runner(&mut runners, classes[i], table[i].0.thread);
    }
    Ok(runners)
}

// Adds an edge of a thread to a class.
fn add_runner(runners: &mut Vec<Runner>, class: usize, thread: ThreadId)
    ensures run { IsRunBy thread (slice_get runners.new.items class) }
    ensures stay { (other t : ℕ) → IsRunBy t (slice_get runners.old.items other)
        → IsRunBy t (slice_get runners.new.items other) }
{
    if class >= runners.len() {
        return;
    }
    runners[class] = with_thread(runners[class], thread);
}

// Of which threads edges are, with one more edge.
fn with_thread(runner: Runner, thread: ThreadId) -> Runner
    ensures run { IsRunBy thread (Some result) }
    ensures stay { (t : ℕ) → IsRunBy t (Some runner) → IsRunBy t (Some result) }
{
    match runner {
        Runner::Nobody => Runner::One(thread),
        Runner::One(alone) => {
            if alone.number() == thread.number() {
                return Runner::One(thread);
            }
            Runner::Several
        }
        Runner::Several => Runner::Several,
    }
}

// Whether one and the same thread alone runs both classes.
fn are_run_by_one(runners: &[Runner], one: usize, other: usize) -> bool
    ensures { IsTrue result → AreRunByOne runners.now one other }
{
    if one >= runners.len() || other >= runners.len() {
        return false;
    }
    match runners[one] {
        Runner::One(thread) => is_alone(runners[other], thread),
        _ => false,
    }
}

// Whether all edges are of this thread.
fn is_alone(runner: Runner, thread: ThreadId) -> bool
    ensures { IsTrue result → runner ≡ One thread }
{
    match runner {
        Runner::One(alone) => alone.number() == thread.number(),
        _ => false,
    }
}

/// Whether a thread that alone runs the last class of a front alone runs one before it, too.
pub fn is_run_twice(runners: &[Runner], front: &[usize]) -> bool
    requires { 0 < length front.now }
    ensures { IsTrue result → IsRunTwice runners.now front.now }
{
    let last = front.len() - 1;
    for k in 0..last {
        if are_run_by_one(runners, front[k], front[last]) {
            return true;
        }
    }
    false
}
