//! The run of a session: its threads are started, and joined when the collector is done.
ghost use Rattle.std.specs.Prelude.{◌≡◌, ◌≤◌, ◌+◌, ℕ, true, [], List, None, length, map, IfOk, IfErr};
ghost use Rattle.std.specs.List.{All};
ghost use Rattle.std.specs.Vec.{vec_len, vec_capacity};
ghost use Rattle.gl_event.specs.declared.events.Event.{Event};
ghost use Rattle.gl_event.specs.Lawful.{lists_of};
ghost use Rattle.gl_engine.specs.Collecting.{Collecting};
ghost use Rattle.gl_live.specs.Faults.{IsLiveFault};
ghost use Rattle.gl_shards.specs.declared.shard.TheConstants.{MAX_SHARDS};
ghost use Rattle.gl_live.specs.bodies.Workloads.{IsWorkloadOf};
ghost use Rattle.gl_live.specs.bodies.Ready.{HasSizes, IsReady};
ghost use Rattle.gl_live.specs.bodies.Runs.{HasRecordedLists, HasRun};
ghost use Rattle.gl_live.specs.bodies.Rosters.{gathered_from, roster_of, IsReceiptOf};

use crate::faults::LiveFault;
use crate::recording::{Recording, Workload, join_recorders, start_recorders};
use crate::session::{Session, SessionOptions};
use crate::start_gate::{StartGate, ThreadCounts};
use crate::working::{Working, join_workers, start_workers};
use gl_engine::{Collector, Gathered, Receipt};
use gl_event::Event;
use gl_shards::{Gate, Inlet, Outlet, Served};
use std::alloc::Global;
use std::sync::Wait;
use std::thread;
use std::thread::{Scope, Threads};

/// What a session leaves that has run.
#[derive(Drop)]
pub struct Ran {
    pub gathered: Gathered,
    pub receipts: Vec<Receipt>,
    pub served: Vec<Served>,
}

// Calls the run off: the threads that were started end without recording, and the feeds are ended.
fn call_off<R: Wait>(rt: &R, start: &StartGate, outlets: Vec<Outlet>) {
    start.call_off();
    for outlet in outlets {
        let _ = outlet.end(rt);
    }
}

// Starts the workers and then the recorder threads, up to the first that can't be started. Whether all were.
fn start_threads<'s, E, R: Threads + Wait + Sync, G: Gate + Sync>(
    scope: &'s Scope<'s, E>,
    rt: &'s R,
    alloc: Global,
    start: &'s StartGate,
    lists: &'s [Vec<Event>],
    gate: &'s G,
    collector: &Collector,
    workloads: Vec<Workload>,
    inlets: Vec<Inlet>,
    workers: &mut Vec<Working>,
    recorders: &mut Vec<Recording<'s>>,
) -> bool
    requires workloads { All (IsWorkloadOf (roster_of collector.now)) workloads.items }
    requires fit { length inlets.items ≤ MAX_SHARDS }
    requires none_works { workers.old.items ≡ [] }
    requires work_room { vec_len workers.old + length inlets.items ≤ vec_capacity workers.old }
    requires none_records { recorders.old.items ≡ [] }
    requires all_fit { vec_len recorders.old + length workloads.items
        ≤ vec_capacity recorders.old }
    ensures feeds { result ≡ true
        → map (λ w. w.promise.0.value.feed) workers.new.items
        ≡ map (λ i. i.feed) inlets.items }
    ensures lists { result ≡ true
        → All (λ h. (h.promise.collector.value ≡ collector.now)
        × (lists_of h.promise.lists.now ≡ lists_of lists.now)) recorders.new.items }
    ensures all { result ≡ true → length recorders.new.items ≡ length workloads.items }
{
    if !start_workers(scope, rt, alloc, inlets, gate, workers) {
        return false;
    }
    start_recorders(scope, rt, start, lists, collector, workloads, recorders)
}

// Waits for all threads, and gives what they leave.
fn join_threads<'s, R: Threads>(
    rt: &R,
    gathered: Gathered,
    workers: Vec<Working>,
    recorders: Vec<Recording<'s>>,
    receipts: Vec<Receipt>,
    served: Vec<Served>,
) -> Result<Ran, LiveFault>
    requires empty { served.items ≡ [] }
    requires room { vec_len served + length workers.items ≤ vec_capacity served }
    ensures run { (shards : ℕ) → length workers.items ≡ shards
        → (gathered.fault ≡ None
        → map (λ w. w.promise.0.value.feed) workers.items ≡ map (λ s. s.feed) gathered.sent)
        → IfOk result (λ ran. HasRun shards ran.gathered ran.served.items) }
    ensures threads { (threads : ℕ) → gathered.limits.threads ≡ threads
        → IfOk result (λ ran. ran.gathered.limits.threads ≡ threads) }
    ensures receipts { (c : Collecting) (lists : List (List Event))
        → roster_of c ≡ gathered_from gathered
        → All (λ h. (h.promise.collector.value ≡ c)
        × (lists_of h.promise.lists.now ≡ lists)) recorders.entry.items
        → receipts.items ≡ []
        → IfOk result
        (λ ran. All (IsReceiptOf (gathered_from ran.gathered) lists) ran.receipts.items) }
    ensures fault { (all : List (List Event)) → IfErr result (IsLiveFault all) }
{
    let mut receipts = receipts;
    let mut served = served;
    let joined = join_recorders(rt, recorders, &mut receipts);
    join_workers(rt, workers, &mut served);
    match joined {
        Ok(()) => Ok(Ran {
            gathered,
            receipts,
            served,
        }),
        Err(_) => Err(LiveFault::Memory),
    }
}

// Starts the workers and the recorder threads, in the room that is there for their handles, and then
// runs the collector. No recorder records before all threads are started.
fn run_with_handles<'s, E, R: Threads + Wait + Sync, G: Gate + Sync>(
    scope: &'s Scope<'s, E>,
    rt: &'s R,
    alloc: Global,
    start: &'s StartGate,
    lists: &'s [Vec<Event>],
    gate: &'s G,
    session: Session,
    workloads: Vec<Workload>,
    mut workers: Vec<Working>,
    mut recorders: Vec<Recording<'s>>,
) -> Result<Ran, LiveFault>
    requires ready { IsReady (length lists.now) session }
    requires workloads { All (IsWorkloadOf (roster_of session.collector)) workloads.items }
    requires none_works { workers.items ≡ [] }
    requires work_room { vec_len workers + length session.inlets.items ≤ vec_capacity workers }
    requires none_records { recorders.items ≡ [] }
    requires record_room { vec_len recorders + length workloads.items ≤ vec_capacity recorders }
    ensures { HasRecordedLists session (length lists.now) (lists_of lists.now) result }
{
    let Session {
        collector,
        outlets,
        inlets,
        receipts,
        served,
    } = session;
    let wanted = ThreadCounts {
        workers: inlets.len(),
        recorders: workloads.len(),
    };
    if !start_threads(
        scope,
        rt,
        alloc,
        start,
        lists,
        gate,
        &collector,
        workloads,
        inlets,
        &mut workers,
        &mut recorders,
    ) {
        call_off(rt, start, outlets);
        return Err(LiveFault::Unconfirmed);
    }
    start.begin(workers.as_slice(), recorders.as_slice(), wanted);
    let gathered = collector.run_without_repeats(rt, outlets);
    join_threads(rt, gathered, workers, recorders, receipts, served)
}

// Makes room for the threads' handles, and runs the session. No recorder records before all threads are
// started.
fn run_threads<'s, E, R: Threads + Wait + Sync, G: Gate + Sync>(
    scope: &'s Scope<'s, E>,
    rt: &'s R,
    alloc: Global,
    start: &'s StartGate,
    lists: &'s [Vec<Event>],
    options: &SessionOptions,
    gate: &'s G,
    session: Session,
    workloads: Vec<Workload>,
) -> Result<Ran, LiveFault>
    requires ready { IsReady (length lists.now) session }
    requires sizes { HasSizes (length lists.now) options.now.shards options.now.ring session }
    requires recorders { length workloads.items ≡ options.now.recorders }
    requires workloads { All (IsWorkloadOf (roster_of session.collector)) workloads.items }
    ensures { HasRecordedLists session (length lists.now) (lists_of lists.now) result }
{
    let Ok(workers) = Vec::with_capacity(alloc, options.shards as usize) else {
        return Err(LiveFault::Memory);
    };
    let Ok(recorders) = Vec::with_capacity(alloc, options.recorders as usize) else {
        return Err(LiveFault::Memory);
    };
    run_with_handles(
        scope, rt, alloc, start, lists, gate, session, workloads, workers, recorders,
    )
}

/// Runs the session: each recorder thread records the lists of its lanes, each worker fills a table, and
/// the collector collects in the calling thread. It has the sizes that the options ask for.
///
/// It returns once all threads have ended.
pub fn run_session<R: Threads + Wait + Sync, G: Gate + Sync>(
    rt: &R,
    alloc: Global,
    lists: &[Vec<Event>],
    options: &SessionOptions,
    gate: &G,
    session: Session,
    workloads: Vec<Workload>,
) -> Result<Ran, LiveFault>
    requires ready { IsReady (length lists.now) session }
    requires sizes { HasSizes (length lists.now) options.now.shards options.now.ring session }
    requires recorders { length workloads.items ≡ options.now.recorders }
    requires workloads { All (IsWorkloadOf (roster_of session.collector)) workloads.items }
    ensures { HasRecordedLists session (length lists.now) (lists_of lists.now) result }
{
    let begin = StartGate::new();
    let start = &begin;
    thread::scope(
        thread::scope_env(),
        rt,
        move |scope| -> Result<Ran, LiveFault>
            requires ready { IsReady (length lists.now) session }
            requires sizes { HasSizes (length lists.now) options.now.shards options.now.ring
                session }
            requires recorders { length workloads.items ≡ options.now.recorders }
            requires workloads { All (IsWorkloadOf (roster_of session.collector)) workloads.items }
            ensures { HasRecordedLists session (length lists.entry.now)
                (lists_of lists.entry.now) result }
        {
            run_threads(
                scope, rt, alloc, start, lists, options, gate, session, workloads,
            )
        },
    )
}
