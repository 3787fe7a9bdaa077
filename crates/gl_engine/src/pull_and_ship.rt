//! How a run goes on as long as nothing goes wrong: it pulls, and ships the edges.
ghost use Rattle.std.specs.Prelude.{◌≡◌, ◌<◌, ◌++◌, [], ◌∷◌, List, map, length, OnOk, OnErr, IfOk, IfErr};
ghost use mathlib.Core.List.{IsPrefix};
ghost use Rattle.gl_edges.specs.declared.edge.Edge.{Edge};
ghost use Rattle.gl_edges.specs.declared.edge.Sample.{Sample};
ghost use Rattle.gl_shards.specs.Shards as shards_of;
ghost use Rattle.gl_engine.specs.bodies.Breaking.{IsGoneAt, IsKeptFor, TellsTaken};
ghost use Rattle.gl_engine.specs.Gathering.{ReachShards};
ghost use Rattle.gl_engine.specs.bodies.Shipping.{HaveShipped, CanBegin, Ships};
ghost use Rattle.gl_engine.specs.bodies.Sparing.{NotesMade};
ghost use Rattle.gl_engine.specs.Settling.{HaveEndedBelow};
ghost use Rattle.gl_engine.specs.bodies.Whole.{CanTakeTurns, GoesOn, HasMoved, HasTakenTurns, KeepsNotes, PullsOn};

use crate::discarding::discard_all;
use crate::gathered::RunFault;
use crate::lane_input::LaneInput;
use crate::making::Making;
use crate::pulled::{PullFault, Pulled};
use gl_edges::{Edge, Sample};
use gl_event::ThreadId;
use gl_intake::Intake;
use gl_shards::{Outlet, pause, shard_of};
use std::alloc::Global;
use std::sync::Wait;

// The most notes that are pulled off a lane before their edges are shipped, so that a worker that waits
// finds several at once.
const BURST: u32 = 64;

// The most turns in a row of a lane that still has notes. A collector of a thousand lanes, of which a few have notes at a
// time, would else look at all of them for each few notes.
const TURNS: u32 = 8;

// Ships an edge to its shard, or answers that shard, whose worker is gone.
fn ship_one<R: Wait>(
    rt: &R,
    outlets: &mut Vec<Outlet>,
    edge: Edge,
    sample: Sample,
) -> Result<(), u32>
    requires shards { ReachShards outlets.old.items }
    ensures ships { Ships ((edge, sample) ∷ []) outlets.old.items outlets.new.items result }
    ensures unsent { OnErr result
        (map (λ o. o.sent) outlets.new.items ≡ map (λ o. o.sent) outlets.old.items) }
    ensures whose { IfErr result
        (λ shard. shard ≡ shards_of.shard_of edge (length outlets.old.items)) }
{
    let shard = shard_of(&edge, outlets.len() as u32);
    let Ok(()) = outlets[shard as usize].send(rt, edge, sample) else {
        return Err(shard);
    };
    Ok(())
}

// Ships the edges to their shards, in order, up to one that can't be sent: the worker of its shard is gone.
// None is left, and the list's memory serves the next ones.
fn ship<R: Wait>(
    rt: &R,
    outlets: &mut Vec<Outlet>,
    made: &mut Vec<(Edge, Sample)>,
) -> Result<(), RunFault>
    requires shards { ReachShards outlets.old.items }
    ensures ships { Ships made.old.items outlets.old.items outlets.new.items result }
    ensures stopped { (before : List (Edge × Sample)) → HaveShipped outlets.old.items before
        → IfErr result
        (IsGoneAt (before ++ made.old.items) (map (λ o. o.sent) outlets.new.items)) }
    ensures none { made.new.items ≡ [] }
{
    for (edge, sample) in made.drain(..) {
        if let Err(shard) = ship_one(rt, outlets, edge, sample) {
            return Err(RunFault::Gone { shard });
        }
    }
    Ok(())
}

// Whether a pull from the thread's lane took a note.
fn has_pulled(thread: ThreadId, pulled: &Result<Pulled, PullFault>) -> Result<bool, RunFault>
    ensures taken { IfOk result (TellsTaken pulled.now) }
    ensures fault { IfErr result (λ fault. IsKeptFor thread pulled.now fault) }
{
    match *pulled {
        Ok(Pulled::Empty) => Ok(false),
        Ok(_) => Ok(true),
        Err(PullFault::Memory) => Err(RunFault::Memory),
        Err(PullFault::Broken(refused)) => Err(RunFault::Broken { thread, refused }),
    }
}

// Pulls the next note off the thread's lane, if there is one, and adds its edges to those made. Whether there
// was one.
fn pull_at(
    alloc: Global,
    thread: ThreadId,
    inputs: &mut Vec<LaneInput>,
    intake: &mut Intake,
    making: &mut Making,
) -> Result<bool, RunFault>
    requires known { thread < intake.old.limits.threads }
    requires keeps { KeepsNotes intake.old inputs.old.items }
    requires notes { NotesMade intake.old.stream making.old }
    ensures pulls_on { PullsOn 1 thread intake.old intake.new inputs.old.items
        inputs.new.items making.old making.new result }
    ensures moved { IfOk result (HasMoved intake.old.stream intake.new.stream) }
{
    let input = &mut inputs[thread.number() as usize];
    let pulled = input.pull_with_edges(alloc, thread, intake, making);
    has_pulled(thread, &pulled)
}

// Pulls the next notes off the thread's lane, as many as a turn may at most, and adds their edges to those
// made. Whether there was one.
fn pull_some(
    alloc: Global,
    thread: ThreadId,
    inputs: &mut Vec<LaneInput>,
    intake: &mut Intake,
    making: &mut Making,
) -> Result<bool, RunFault>
    requires known { thread < intake.old.limits.threads }
    requires keeps { KeepsNotes intake.old inputs.old.items }
    requires notes { NotesMade intake.old.stream making.old }
    ensures pulls_on { PullsOn 64 thread intake.old intake.new inputs.old.items
        inputs.new.items making.old making.new result }
    ensures moved { IfOk result (HasMoved intake.old.stream intake.new.stream) }
{
    let mut moved = false;
    for _ in 0..BURST {
        let pulled = pull_at(alloc, thread, inputs, intake, making)?;
        if !pulled {
            return Ok(moved);
        }
        moved = true;
    }
    Ok(moved)
}

// Pulls notes off the thread's lane, if there are any, and ships their edges, by way of this empty list.
// Whether there was one.
fn turn<R: Wait>(
    rt: &R,
    alloc: Global,
    thread: ThreadId,
    inputs: &mut Vec<LaneInput>,
    intake: &mut Intake,
    making: &mut Making,
    outlets: &mut Vec<Outlet>,
) -> Result<bool, RunFault>
    requires known { thread < intake.old.limits.threads }
    requires begins { CanTakeTurns intake.old inputs.old.items making.old outlets.old.items }
    ensures { HasTakenTurns intake.old intake.new inputs.old.items inputs.new.items making.old
        making.new outlets.old.items outlets.new.items result }
{
    let pulled = pull_some(alloc, thread, inputs, intake, making)?;
    ship(rt, outlets, &mut making.made)?;
    Ok(pulled)
}

// Turns of the thread, as long as its lane has notes, and no more than some. Whether a note was pulled.
fn turns<R: Wait>(
    rt: &R,
    alloc: Global,
    thread: ThreadId,
    inputs: &mut Vec<LaneInput>,
    intake: &mut Intake,
    making: &mut Making,
    outlets: &mut Vec<Outlet>,
) -> Result<bool, RunFault>
    requires known { thread < intake.old.limits.threads }
    requires begins { CanTakeTurns intake.old inputs.old.items making.old outlets.old.items }
    ensures { HasTakenTurns intake.old intake.new inputs.old.items inputs.new.items making.old
        making.new outlets.old.items outlets.new.items result }
{
    let mut moved = false;
    for _ in 0..TURNS {
        let pulled = turn(rt, alloc, thread, inputs, intake, making, outlets)?;
        if !pulled {
            return Ok(moved);
        }
        moved = true;
    }
    Ok(moved)
}

// Turns of each thread, all by way of this empty list. Whether a note was pulled.
fn round<R: Wait>(
    rt: &R,
    alloc: Global,
    threads: u32,
    inputs: &mut Vec<LaneInput>,
    intake: &mut Intake,
    making: &mut Making,
    outlets: &mut Vec<Outlet>,
) -> Result<bool, RunFault>
    requires all { threads ≡ intake.old.limits.threads }
    requires begins { CanTakeTurns intake.old inputs.old.items making.old outlets.old.items }
    ensures { HasTakenTurns intake.old intake.new inputs.old.items inputs.new.items making.old
        making.new outlets.old.items outlets.new.items result }
{
    let mut moved = false;
    for number in 0..threads {
        let thread = ThreadId::new(number);
        let pulled = turns(rt, alloc, thread, inputs, intake, making, outlets)?;
        moved = moved || pulled;
    }
    Ok(moved)
}

// Ships the edges made before; then pulls and ships, round by round, until every thread's end mark was
// pulled. It waits a little after a round in which no note was seen.
fn pull_until_ended<R: Wait>(
    rt: &R,
    alloc: Global,
    threads: u32,
    inputs: &mut Vec<LaneInput>,
    intake: &mut Intake,
    making: Making,
    outlets: &mut Vec<Outlet>,
) -> Result<(), RunFault>
    requires begins { CanBegin threads intake.old inputs.old.items making outlets.old.items }
    ensures goes_on { GoesOn making.spares intake.old intake.new inputs.old.items inputs.new.items
        outlets.old.items outlets.new.items result }
    ensures ended { OnOk result (HaveEndedBelow intake.new.stream intake.old.limits.threads) }
{
    let mut making = making;
    ship(rt, outlets, &mut making.made)?;
    let mut looks: u32 = 0;
    for _ in rt.forever() {
        if intake.all_ended() {
            return Ok(());
        }
        if round(rt, alloc, threads, inputs, intake, &mut making, outlets)? {
            looks = 0;
        } else {
            pause(rt, looks);
            looks = looks.saturating_add(1);
        }
    }
    unreachable!()
}

/// Collects and ships all. Where something goes wrong, it throws away what comes, until every thread's end
/// mark came.
pub(crate) fn collect_all<R: Wait>(
    rt: &R,
    alloc: Global,
    threads: u32,
    inputs: &mut Vec<LaneInput>,
    intake: &mut Intake,
    making: Making,
    outlets: &mut Vec<Outlet>,
) -> Result<(), RunFault>
    requires begins { CanBegin threads intake.old inputs.old.items making outlets.old.items }
    ensures goes_on { GoesOn making.spares intake.old intake.new inputs.old.items inputs.new.items
        outlets.old.items outlets.new.items result }
    ensures ended { OnOk result (HaveEndedBelow intake.new.stream intake.old.limits.threads) }
{
    match pull_until_ended(rt, alloc, threads, inputs, intake, making, outlets) {
        Ok(()) => Ok(()),
        Err(fault) => {
            discard_all(rt, inputs, intake, threads);
            Err(fault)
        }
    }
}
