//! A session that records a text as it is read.
ghost use Rattle.std.specs.Prelude.{◌≡◌, ◌<◌, ◌≤◌, ◌+◌, ℕ, false, [], List, Ok, length, map, IfErr, IfSome, OnOk};
ghost use Rattle.std.specs.List.{All};
ghost use Rattle.std.specs.Vec.{vec_len, vec_capacity};
ghost use Rattle.gl_event.specs.declared.events.Event.{Event as EventOf};
ghost use Rattle.gl_std.specs.Listed.{listed};
ghost use Rattle.gl_std.specs.Names.{NameLists};
ghost use Rattle.gl_std.specs.Streaming.{with_item, CanBeAsked, IsDone};
ghost use Rattle.gl_std.specs.declared.trace.Trace.{Trace};
ghost use Rattle.gl_engine.specs.Gathering.{AreUnused};
ghost use Rattle.gl_live.specs.bodies.Ready.{HasSizes};
ghost use Rattle.gl_live.specs.bodies.Rosters.{Roster, IsReceiptOf};
ghost use Rattle.gl_live.specs.bodies.Streams.{AreRecorded, CanBeTaken, HasGathered, HasRecordedText, HasTaken, IsAtStart, IsOfThreads, IsRecording, KeepUp, MayTake, StopsAfter};

use crate::faults::{LiveFault, StreamFault};
use crate::recording::close_wait;
use crate::run::Ran;
use crate::session::Session;
use crate::working::{Working, join_workers, start_workers};
use gl_engine::preallocated::keep;
use gl_engine::{Collector, Gathered, Receipt, Recorder};
use gl_event::Event;
use gl_shards::{Gate, Inlet, Outlet};
use gl_std::{Item, Items, LinesFault, Source};
use std::alloc::Global;
use std::snapshot::Snapshot;
use std::sync::Wait;
use std::thread;
use std::thread::{Promise, PromisedHandle, Scope, Threads};

/// How a session over a text is run.
#[derive(Clone, Copy, Debug, PartialEq, Eq)]
pub struct StreamOptions {
    /// How many lanes there are, 1 to 1,024: as many threads as the text may name.
    pub threads: u32,
    /// How many workers there are, 1 to 16.
    pub shards: u32,
    /// The capacity of each lane and of each feed, 1 to 65,536.
    pub ring: u32,
}

// Records the event by its thread's recorder, as soon as there is room for it.
fn record_one<R: Wait>(rt: &R, recorders: &mut Vec<Recorder>, thread: u32, event: Event)
    requires may_take { MayTake recorders.old.items thread event }
    ensures count { length recorders.new.items ≡ length recorders.old.items }
    ensures recorded { (s : Roster) (lists : List (List EventOf)) (threads : ℕ)
        → thread < threads
        → AreRecorded s lists recorders.old.items
        → AreRecorded s (listed threads lists thread event) recorders.new.items }
{
    let recorder = &mut recorders[thread as usize];
    let Ok(_) = recorder.record_wait(rt, event) else {
        unreachable!()
    };
}

// Records the item where it is an event.
fn record_item<R: Wait>(rt: &R, recorders: &mut Vec<Recorder>, item: Item)
    requires can_be_taken { CanBeTaken recorders.old.items item }
    ensures count { length recorders.new.items ≡ length recorders.old.items }
    ensures recorded { (s : Roster) (names : NameLists) (told : Trace)
        → IsOfThreads (length names.threads) item → AreRecorded s told.lists recorders.old.items
        → AreRecorded s (with_item item names told).lists recorders.new.items }
{
    match item.event() {
        Some((thread, event)) => record_one(rt, recorders, thread, event),
        None => {}
    }
}

// Reads the next item, and records it where it is an event. Whether the text goes on.
fn record_next<R: Wait, S: Source>(
    rt: &R,
    items: &mut Items,
    input: &mut S,
    recorders: &mut Vec<Recorder>,
) -> Result<bool, LinesFault>
    requires usable { CanBeAsked items.old (S.failed input.old) }
    requires recording { IsRecording (S.position input.old)
        (S.failed input.old) items.old recorders.old.items }
    ensures usable { CanBeAsked items.new (S.failed input.new) }
    ensures count { length recorders.new.items ≡ length recorders.old.items }
    ensures follows { OnOk result
        (KeepUp (S.position input.old) (S.failed input.old) items.old recorders.old.items
        (S.position input.new) (S.failed input.new) items.new recorders.new.items) }
    ensures done { result ≡ Ok false → IsDone items.new }
    ensures stops { IfErr result
        (StopsAfter (S.position input.old) (S.failed input.old) items.old recorders.old.items
        (S.position input.new) (S.failed input.new) items.new) }
{
    match items.next(input) {
        Ok(Item::End) => Ok(false),
        Ok(item) => {
            record_item(rt, recorders, item);
            Ok(true)
        }
        Err(fault) => Err(fault),
    }
}

// Reads the items one after the other, and records each event before it reads on, up to the end or the
// first fault.
fn record_items<R: Wait, S: Source>(
    rt: &R,
    items: &mut Items,
    input: &mut S,
    recorders: &mut Vec<Recorder>,
) -> Result<(), LinesFault>
    requires usable { CanBeAsked items.old (S.failed input.old) }
    requires recording { IsRecording (S.position input.old)
        (S.failed input.old) items.old recorders.old.items }
    ensures count { length recorders.new.items ≡ length recorders.old.items }
    ensures follows { OnOk result
        (KeepUp (S.position input.old) (S.failed input.old) items.old recorders.old.items
        (S.position input.new) (S.failed input.new) items.new recorders.new.items) }
    ensures done { OnOk result (IsDone items.new) }
    ensures stops { IfErr result
        (StopsAfter (S.position input.old) (S.failed input.old) items.old recorders.old.items
        (S.position input.new) (S.failed input.new) items.new) }
{
    for _ in rt.forever() {
        match record_next(rt, items, input, recorders) {
            Ok(true) => {}
            Ok(false) => return Ok(()),
            Err(fault) => return Err(fault),
        }
    }
    unreachable!()
}

// Closes all recorders, and keeps their receipts.
fn close_all<R: Wait>(rt: &R, recorders: Vec<Recorder>, receipts: &mut Vec<Receipt>)
    requires room { vec_len receipts.old + length recorders.items ≤ vec_capacity receipts.old }
    ensures { (s : Roster) (lists : List (List EventOf)) → All (HasTaken s lists) recorders.items
        → All (IsReceiptOf s lists) receipts.old.items
        → All (IsReceiptOf s lists) receipts.new.items }
{
    for recorder in recorders {
        if let Some(receipt) = close_wait(rt, recorder) {
            keep(receipts, receipt);
        }
    }
}

/// A collector's thread leaves what it gathered of its session, with these outlets.
#[derive(Drop)]
pub struct GatheredBy {
    collector: Snapshot<Collector>,
    outlets: Snapshot<Vec<Outlet>>,
}

impl Promise<Gathered> for GatheredBy {
    ghost kept_by = { λ p gathered. HasGathered p.collector.value p.outlets.value.items gathered };
}

// A collector's thread.
type CollectorThread = PromisedHandle<Gathered, GatheredBy>;

// Starts the collector's thread.
fn start_collector<'s, E, R: Threads + Wait + Sync>(
    scope: &'s Scope<'s, E>,
    rt: &'s R,
    collector: Collector,
    outlets: Vec<Outlet>,
) -> Option<CollectorThread>
    requires unused { AreUnused outlets.items }
    ensures collector { IfSome result (λ h. h.promise.collector.value ≡ collector) }
    ensures outlets { IfSome result (λ h. h.promise.outlets.value.items ≡ outlets.items) }
{
    let promise = GatheredBy {
        collector: Snapshot::of(&collector),
        outlets: Snapshot::of(&outlets),
    };
    let gathering = scope.spawn_with(
        promise,
        move || -> Gathered
            requires unused { AreUnused outlets.items }
            ensures { HasGathered collector outlets.items result }
        { run_collector(rt, collector, outlets) },
    );
    gathering.ok()
}

// Runs the collector.
fn run_collector<R: Wait>(rt: &R, collector: Collector, outlets: Vec<Outlet>) -> Gathered
    requires unused { AreUnused outlets.items }
    ensures { HasGathered collector outlets.items result }
{
    collector.run_without_repeats(rt, outlets)
}

// Starts the workers, and then the collector's thread. None where one can't be started.
fn start_collecting<'s, E, R: Threads + Wait + Sync, G: Gate + Sync>(
    scope: &'s Scope<'s, E>,
    rt: &'s R,
    alloc: Global,
    gate: &'s G,
    collector: Collector,
    outlets: Vec<Outlet>,
    inlets: Vec<Inlet>,
    workers: &mut Vec<Working>,
) -> Option<CollectorThread>
    requires unused { AreUnused outlets.items }
    requires feeds { map (λ i. i.feed) inlets.items ≡ map (λ o. o.feed) outlets.items }
    requires empty { workers.old.items ≡ [] }
    requires room { vec_len workers.old + length inlets.items ≤ vec_capacity workers.old }
    ensures feeds { IfSome result
        (λ h. map (λ w. w.promise.0.value.feed) workers.new.items
        ≡ map (λ i. i.feed) inlets.items) }
    ensures collector { IfSome result (λ h. h.promise.collector.value ≡ collector) }
    ensures outlets { IfSome result (λ h. h.promise.outlets.value.items ≡ outlets.items) }
{
    if !start_workers(scope, rt, alloc, inlets, gate, workers) {
        return None;
    }
    start_collector(scope, rt, collector, outlets)
}

// Starts the workers, in the room that is there for their handles, and the collector, and then reads and
// records.
fn record_and_collect<'s, E, R: Threads + Wait + Sync, S: Source, G: Gate + Sync>(
    scope: &'s Scope<'s, E>,
    rt: &'s R,
    alloc: Global,
    gate: &'s G,
    session: Session,
    mut recorders: Vec<Recorder>,
    mut workers: Vec<Working>,
    items: &mut Items,
    input: &mut S,
) -> Result<Ran, StreamFault>
    requires start { IsAtStart session recorders.items (S.position input.old)
        (S.failed input.old) items.old }
    requires none_works { workers.items ≡ [] }
    requires work_room { vec_len workers + length session.inlets.items ≤ vec_capacity workers }
    ensures { HasRecordedText session (length recorders.items) (S.position input.old)
        (S.failed input.old) items.old (S.position input.new) (S.failed input.new) items.new
        result }
{
    let Session {
        collector,
        outlets,
        inlets,
        mut receipts,
        mut served,
    } = session;
    let Some(gathering) = start_collecting(
        scope,
        rt,
        alloc,
        gate,
        collector,
        outlets,
        inlets,
        &mut workers,
    ) else {
        return Err(StreamFault::Session(LiveFault::Unconfirmed));
    };
    let read = record_items(rt, items, input, &mut recorders);
    close_all(rt, recorders, &mut receipts);
    let gathered = gathering.join(rt);
    join_workers(rt, workers, &mut served);
    match read {
        Ok(()) => Ok(Ran {
            gathered,
            receipts,
            served,
        }),
        Err(fault) => Err(StreamFault::Text(fault)),
    }
}

// Makes room for the workers' handles, starts the workers and the collector, and then reads and records.
fn record_text<'s, E, R: Threads + Wait + Sync, S: Source, G: Gate + Sync>(
    scope: &'s Scope<'s, E>,
    rt: &'s R,
    alloc: Global,
    options: &StreamOptions,
    gate: &'s G,
    session: Session,
    recorders: Vec<Recorder>,
    items: &mut Items,
    input: &mut S,
) -> Result<Ran, StreamFault>
    requires start { IsAtStart session recorders.items (S.position input.old)
        (S.failed input.old) items.old }
    requires sizes { HasSizes options.now.threads options.now.shards options.now.ring session }
    ensures { HasRecordedText session (length recorders.items) (S.position input.old)
        (S.failed input.old) items.old (S.position input.new) (S.failed input.new) items.new
        result }
{
    let Ok(workers) = Vec::with_capacity(alloc, options.shards as usize) else {
        return Err(StreamFault::Session(LiveFault::Memory));
    };
    record_and_collect(
        scope, rt, alloc, gate, session, recorders, workers, items, input,
    )
}

// As `record_text`, with the items and the source handed back.
fn lend_text<'s, 'x, E, R: Threads + Wait + Sync, S: Source, G: Gate + Sync>(
    scope: &'s Scope<'s, E>,
    rt: &'s R,
    alloc: Global,
    options: &StreamOptions,
    gate: &'s G,
    session: Session,
    recorders: Vec<Recorder>,
    items: Items,
    input: &'x mut S,
) -> (Result<Ran, StreamFault>, Items, &'x mut S)
    requires start { IsAtStart session recorders.items (S.position input.old)
        (S.failed input.old) items }
    requires sizes { HasSizes options.now.threads options.now.shards options.now.ring session }
    ensures same { result.2.ghost_name ≡ input.entry.ghost_name }
    ensures text { HasRecordedText session (length recorders.items) (S.position input.old)
        (S.failed input.old) items (S.position result.2.now) (S.failed result.2.now) result.1
        result.0 }
{
    let mut items = items;
    let ran = record_text(
        scope, rt, alloc, options, gate, session, recorders, &mut items, input,
    );
    (ran, items, input)
}

/// Runs the session over the text that the source gives: the calling thread reads and records, each
/// worker fills a table, and the collector collects in a thread of its own. It has the sizes that the options ask
/// for.
///
/// It returns once all threads have ended.
pub fn read_session<R: Threads + Wait + Sync, S: Source, G: Gate + Sync>(
    rt: &R,
    alloc: Global,
    options: &StreamOptions,
    gate: &G,
    session: Session,
    recorders: Vec<Recorder>,
    items: Items,
    input: &mut S,
) -> (Result<Ran, StreamFault>, Items)
    requires start { IsAtStart session recorders.items (S.position input.old)
        (S.failed input.old) items }
    requires sizes { HasSizes options.now.threads options.now.shards options.now.ring session }
    ensures { HasRecordedText session (length recorders.items) (S.position input.old)
        (S.failed input.old) items (S.position input.new) (S.failed input.new) result.1
        result.0 }
{
    let (ran, items, _input) = thread::scope(
        thread::scope_env(),
        rt,
        move |scope| -> (Result<Ran, StreamFault>, Items, &mut S)
            requires start { IsAtStart session recorders.items (S.position input.now)
                (S.failed input.now) items }
            requires sizes { HasSizes options.now.threads options.now.shards options.now.ring
                session }
            ensures same { result.2.ghost_name ≡ input.entry.ghost_name }
            ensures text { HasRecordedText session (length recorders.items)
                (S.position input.entry.now) (S.failed input.entry.now) items
                (S.position result.2.now) (S.failed result.2.now) result.1 result.0 }
        {
            lend_text(
                scope, rt, alloc, options, gate, session, recorders, items, input,
            )
        },
    );
    (ran, items)
}
