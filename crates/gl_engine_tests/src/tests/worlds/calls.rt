//! What worlds are asked.
use crate::watched::Watched;
use gl_cycles::{Report, ReportFault};
use gl_edges::{Edge, Sample};
use gl_event::{Event, ThreadId};
use gl_filters::{Mode, Query};
use gl_worked::cycles::are_cycles;
use gl_worked::notes::{Told, are_notes};
use gl_worked::ops::{Op, are_events};
use gl_worked::rings::is_ring;
use gl_world::{Did, Step};
use std::alloc::Global;

// A step, by the numbers of its thread and of a place, or by that of its shard.
#[derive(Clone, Copy)]
pub(super) enum Turn {
    Take(u32),
    End(u32),
    Pull(u32),
    Again(u32, u32),
    Ship,
    Work(u32),
}

// An edge in its thread's first segment, with no other guard: its thread, the held lock and the wanted one; then
// the place, the held lock's location and the wanted one's.
#[derive(Clone, Copy)]
pub(super) struct Want(pub [u32; 3], pub [u32; 3]);

// A call, and its answer.
#[derive(Clone, Copy)]
pub(super) enum Call {
    // a step, and what it does
    Does(Turn, Did),
    // steps that are made by one call
    Runs(&'static [Turn]),
    // the events that the thread took
    Took(u32, &'static [Op]),
    // those of its events that were collected
    Log(u32, &'static [Op]),
    // all notes that were collected
    Stream(&'static [Told]),
    // whether the world is drained
    Drained(bool),
    // how many edges each shard's table has
    Tables(&'static [usize]),
    // there is a report
    Reports,
    // it has these edges and these cycles
    Report(&'static [Want], &'static [&'static [usize]]),
    // there is none, since these segments, the first of them once more, wait for each other
    NoReport(&'static [(u32, u32)]),
}

fn step_of(turn: Turn) -> Step {
    match turn {
        Turn::Take(thread) => Step::Take(ThreadId::new(thread)),
        Turn::End(thread) => Step::End(ThreadId::new(thread)),
        Turn::Pull(thread) => Step::Pull(ThreadId::new(thread)),
        Turn::Again(thread, place) => Step::Again(ThreadId::new(thread), place),
        Turn::Ship => Step::Ship,
        Turn::Work(shard) => Step::Work(shard),
    }
}

fn steps_of(alloc: Global, turns: &[Turn]) -> Option<Vec<Step>> {
    let mut steps = Vec::new(alloc);
    for turn in turns {
        steps.push(step_of(*turn)).ok()?;
    }
    Some(steps)
}

// Whether it is answered so.
pub(super) fn answers(alloc: Global, world: &mut Watched, call: &Call) -> bool {
    match *call {
        Call::Does(turn, did) => world.step(step_of(turn)) == Some(did),
        Call::Runs(turns) => runs(alloc, world, turns),
        Call::Took(thread, ops) => has_events(world.taken(thread), ops),
        Call::Log(thread, ops) => has_events(world.log(thread), ops),
        Call::Stream(notes) => are_notes(world.stream(), notes),
        Call::Drained(wanted) => world.drained() == wanted,
        Call::Tables(sizes) => has_tables(world, sizes),
        Call::Reports => reports(world),
        Call::Report(edges, cycles) => is_report(world, edges, cycles),
        Call::NoReport(ring) => is_no_report(world, ring),
    }
}

fn runs(alloc: Global, world: &mut Watched, turns: &[Turn]) -> bool {
    match steps_of(alloc, turns) {
        Some(steps) => world.run(&steps),
        None => false,
    }
}

// Whether there are events, and they are these.
fn has_events(found: Option<&[Event]>, ops: &[Op]) -> bool {
    match found {
        Some(events) => are_events(events, ops),
        None => false,
    }
}

// Whether the tables have so many edges, and there is none behind them.
fn has_tables(world: &Watched, sizes: &[usize]) -> bool {
    let mut shard: u32 = 0;
    for size in sizes {
        if world.edges_in(shard) != Some(*size) {
            return false;
        }
        shard = shard.saturating_add(1);
    }
    world.edges_in(shard).is_none()
}

// The report of the mode Full, or why there is none.
fn report_of(world: &Watched) -> Option<Result<Report, ReportFault>> {
    let query = Query::new(Mode::Full, 4, 1_000).ok()?;
    Some(world.report(&query))
}

fn reports(world: &Watched) -> bool {
    match report_of(world) {
        Some(report) => report.is_ok(),
        None => false,
    }
}

fn is_report(world: &Watched, edges: &[Want], cycles: &[&[usize]]) -> bool {
    match report_of(world) {
        Some(Ok(report)) => {
            are_edges(report.edges.entries(), edges)
                && are_cycles(report.found.cycles.as_slice(), cycles)
                && !report.found.more
        }
        _ => false,
    }
}

fn is_no_report(world: &Watched, wanted: &[(u32, u32)]) -> bool {
    match report_of(world) {
        Some(Err(ReportFault::Inconsistent { at, ring })) => is_ring(&at, &ring, wanted),
        _ => false,
    }
}

fn are_edges(pairs: &[(Edge, Sample)], wanted: &[Want]) -> bool {
    if pairs.len() != wanted.len() {
        return false;
    }
    for (pair, want) in pairs.iter().zip(wanted) {
        if !is_edge(&pair.0, want.0) || !is_sample(&pair.1, want.1) {
            return false;
        }
    }
    true
}

// Whether the edge is of this thread, held and wanted lock, in the thread's first segment and with no other
// guard.
fn is_edge(edge: &Edge, wanted: [u32; 3]) -> bool {
    let numbers = [
        edge.thread.number(),
        edge.held.number(),
        edge.wanted.number(),
    ];
    let guards = edge.guards.as_slice();
    numbers == wanted
        && edge.first == 0
        && edge.second == 0
        && guards.len() == 1
        && guards[0].lock == edge.held
}

fn is_sample(sample: &Sample, wanted: [u32; 3]) -> bool {
    let found = [
        sample.place,
        sample.held_loc.number(),
        sample.wanted_loc.number(),
    ];
    found == wanted
}
