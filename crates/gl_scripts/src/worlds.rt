//! The core as one machine, step by step.
ghost use Rattle.std.specs.Prelude.{◌≡◌, ◌≤◌, length, IfOk};
ghost use Rattle.gl_shards.specs.declared.shard.TheConstants.{MAX_SHARDS};

use crate::reports::{counts_of, full};
use crate::say::{Stop, refused, say};
use gl_event::{Event, Limits, ThreadId};
use gl_filters::Query;
use gl_worked::ops::Op::{Acq, Rel};
use gl_worked::ops::event_of;
use gl_world::{Step, World};
use std::alloc::AllocError;

// What two threads wish: they take a and b in opposite orders.
fn wishes(rt: &HostRuntime) -> Result<Vec<Vec<Event>>, AllocError>
    ensures { IfOk result (λ wishes. length wishes.items ≡ 2) }
{
    let alloc = rt.alloc();
    let first = vec![in alloc;
        event_of(Acq(0, 1)),
        event_of(Acq(1, 2)),
        event_of(Rel(1, 3)),
        event_of(Rel(0, 4)),
    ]?;
    let second = vec![in alloc; event_of(Acq(1, 5)), event_of(Acq(0, 6))]?;
    let mut wishes = Vec::new(alloc);
    wishes.push(first)?;
    wishes.push(second)?;
    Ok(wishes)
}

// A new world with rings of this size and so many shards.
fn fresh(rt: &HostRuntime, ring: u32, shards: u32) -> Result<World, Stop>
    requires some { 1 ≤ shards }
    requires fit { shards ≤ MAX_SHARDS }
{
    let Ok(limits) = Limits::new(2, ring, 100, 100) else {
        return Err(Stop::Astray);
    };
    let wishes = wishes(rt)?;
    Ok(World::new(rt.alloc(), &limits, shards, wishes)?)
}

// The same, for which memory may be refused once.
fn world_of(rt: &HostRuntime, ring: u32, shards: u32) -> Result<World, Stop>
    requires some { 1 ≤ shards }
    requires fit { shards ≤ MAX_SHARDS }
{
    if let Ok(world) = fresh(rt, ring, shards) {
        return Ok(world);
    }
    refused(rt, "world", &());
    fresh(rt, ring, shards)
}

// Makes a step; memory may be refused once.
fn step(rt: &HostRuntime, world: &mut World, next: &Step) {
    let did = world.step(*next);
    if did.is_err() {
        refused(rt, "step", &(world.stream().len(), world.drained()));
        say(rt, "step", &world.step(*next));
        return;
    }
    say(rt, "step", &did);
}

// Makes the steps in turn.
fn go(rt: &HostRuntime, world: &mut World, steps: &[Step]) {
    for next in steps {
        step(rt, world, next);
    }
}

// Prints whether the world is drained, and what its report counts; memory may be refused once.
fn report(rt: &HostRuntime, world: &World, query: &Query) {
    say(rt, "drained", &world.drained());
    let counts = counts_of(&world.report(query));
    if counts.is_none() {
        refused(rt, "report", &(world.stream().len(), world.drained()));
        say(rt, "report", &counts_of(&world.report(query)));
        return;
    }
    say(rt, "report", &counts);
}

// Each thread makes all its steps at once.
fn at_once() -> [Step; 20] {
    let (first, second) = (ThreadId::new(0), ThreadId::new(1));
    [
        Step::Take(first),
        Step::Take(first),
        Step::Take(first),
        Step::Take(first),
        Step::End(first),
        Step::Take(second),
        Step::Take(second),
        Step::End(second),
        Step::Pull(first),
        Step::Pull(first),
        Step::Pull(first),
        Step::Pull(first),
        Step::Pull(first),
        Step::Pull(second),
        Step::Pull(second),
        Step::Pull(second),
        Step::Ship,
        Step::Ship,
        Step::Work(0),
        Step::Work(0),
    ]
}

// The threads and the collector take turns.
fn in_turn() -> [Step; 5] {
    let (first, second) = (ThreadId::new(0), ThreadId::new(1));
    [
        Step::Take(second),
        Step::Pull(second),
        Step::Again(second, 0),
        Step::Take(first),
        Step::Pull(first),
    ]
}

// What is left once they took all.
fn ends() -> [Step; 8] {
    let (first, second) = (ThreadId::new(0), ThreadId::new(1));
    [
        Step::End(second),
        Step::Pull(second),
        Step::End(first),
        Step::Pull(first),
        Step::Ship,
        Step::Work(1),
        Step::Ship,
        Step::Work(0),
    ]
}

// A world in which each thread makes all its steps at once.
fn first_schedule(rt: &HostRuntime, query: &Query) -> Result<(), Stop> {
    let mut world = world_of(rt, 8, 1)?;
    go(rt, &mut world, &at_once());
    report(rt, &world, query);
    Ok(())
}

// One in which the threads and the collector take turns.
fn second_schedule(rt: &HostRuntime, query: &Query) -> Result<(), Stop> {
    let mut world = world_of(rt, 1, 3)?;
    for _ in 0..5 {
        go(rt, &mut world, &in_turn());
    }
    go(rt, &mut world, &ends());
    report(rt, &world, query);
    Ok(())
}

/// Two worlds in which the threads take the same, by different steps, rings and shards.
pub(crate) fn two_schedules(rt: &HostRuntime) -> Result<(), Stop> {
    let query = full()?;
    first_schedule(rt, &query)?;
    second_schedule(rt, &query)
}
