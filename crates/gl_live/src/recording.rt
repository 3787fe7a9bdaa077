//! What a recorder thread does.
ghost use Rattle.std.specs.Prelude.{◌≡◌, ◌≤◌, ◌+◌, ◌++◌, true, Some, List, [], length, slice_get, IfSome, OnOk};
ghost use Rattle.std.specs.List.{All};
ghost use Rattle.std.specs.Vec.{vec_len, vec_capacity};
ghost use Rattle.gl_event.specs.Lawful.{lists_of};
ghost use Rattle.gl_event.specs.declared.events.Event.{Event};
ghost use Rattle.gl_engine.specs.Collecting.{Collecting};
ghost use Rattle.gl_engine.specs.Recording.{recorded, recorded_whole, identity_of, left_by};
ghost use Rattle.gl_live.specs.bodies.Workloads.{HasRoom, IsWorkloadOf};
ghost use Rattle.gl_live.specs.bodies.Rosters.{Roster, roster_of, IsRecorderOf, IsReceiptOf};

use crate::start_gate::StartGate;
use gl_engine::preallocated::keep;
use gl_engine::{CloseFault, Collector, Receipt, Recorder};
use gl_event::{Event, Memory, ThreadId};
use std::snapshot::Snapshot;
use std::sync::Wait;
use std::thread::{Promise, PromisedHandle, Scope, Threads};

/// The recorders that one running thread has, with room for their receipts.
#[derive(Drop)]
pub struct Workload {
    pub recorders: Vec<Recorder>,
    pub receipts: Vec<Receipt>,
}

/// A recorder thread leaves receipts of a collector's session, each for the list of its thread.
#[derive(Drop)]
pub struct RecordedBy<'a> {
    collector: Snapshot<Collector>,
    lists: &'a [Vec<Event>],
}

impl<'a> Promise<Vec<Receipt>> for RecordedBy<'a> {
    ghost kept_by = { λ p receipts.
        All (IsReceiptOf (roster_of p.collector.value) (lists_of p.lists.now)) receipts.items };
}

/// A recorder thread.
pub type Recording<'a> = PromisedHandle<Vec<Receipt>, RecordedBy<'a>>;

// Records these events one after the other, each as soon as there is room for it. Whether each may
// come after those before it.
fn record_each<R: Wait>(rt: &R, recorder: &mut Recorder, list: &[Event]) -> bool
    ensures identity { identity_of recorder.new ≡ identity_of recorder.old }
    ensures all { result ≡ true → recorded recorder.new ≡ recorded recorder.old ++ list.now }
{
    for event in list {
        let Ok(_) = recorder.record_wait(rt, *event) else {
            return false;
        };
    }
    true
}

/// Closes the recorder as soon as there is room for its end mark. None where nobody is left to collect.
pub fn close_wait<R: Wait>(rt: &R, recorder: Recorder) -> Option<Receipt>
    ensures identity { IfSome result (λ receipt. left_by receipt ≡ identity_of recorder) }
    ensures all { IfSome result (λ receipt. recorded_whole receipt ≡ recorded recorder) }
{
    let mut recorder = recorder;
    let mut looks: u32 = 0;
    for _ in rt.forever() {
        match recorder.close() {
            Ok(receipt) => return Some(receipt),
            Err(CloseFault::Unconfirmed { .. }) => return None,
            Err(CloseFault::Full(back)) => recorder = back,
        }
        recorder.wait_for_room(rt, looks);
        looks = looks.saturating_add(1);
    }
    unreachable!()
}

// Records the list, and closes the recorder. None where an event of the list may not come next, and
// where nobody is left to collect.
fn record_list<R: Wait>(rt: &R, recorder: Recorder, list: &[Event]) -> Option<Receipt>
    ensures identity { IfSome result (λ receipt. left_by receipt ≡ identity_of recorder) }
    ensures whole { IfSome result
        (λ receipt. recorded_whole receipt ≡ recorded recorder ++ list.now) }
{
    let mut recorder = recorder;
    let all = record_each(rt, &mut recorder, list);
    let receipt = close_wait(rt, recorder)?;
    if all { Some(receipt) } else { None }
}

// The list of the thread, if it has one.
fn list_of(lists: &[Vec<Event>], thread: ThreadId) -> Option<&[Event]>
    ensures { IfSome result (λ list. slice_get (lists_of lists.now) thread ≡ Some list.now) }
{
    let list = lists.get(thread.number() as usize)?;
    Some(list.as_slice())
}

// Records the list of the recorder's thread, and closes the recorder.
fn record_own<R: Wait>(rt: &R, recorder: Recorder, lists: &[Vec<Event>]) -> Option<Receipt>
    ensures { (s : Roster) → IsRecorderOf s recorder
        → IfSome result (IsReceiptOf s (lists_of lists.now)) }
{
    let Some(list) = list_of(lists, recorder.thread()) else {
        // a thread without a list has nothing to confirm
        let _ = close_wait(rt, recorder);
        return None;
    };
    record_list(rt, recorder, list)
}

// Records the lists of the recorders' threads, one after the other, once the run begins. Nothing, where
// it is called off.
fn record_all<R: Wait>(
    rt: &R,
    start: &StartGate,
    workload: Workload,
    lists: &[Vec<Event>],
) -> Vec<Receipt>
    requires room { HasRoom workload }
    ensures { (s : Roster) → All (IsRecorderOf s) workload.recorders.items
        → All (IsReceiptOf s (lists_of lists.now)) workload.receipts.items
        → All (IsReceiptOf s (lists_of lists.now)) result.items }
{
    let Workload {
        recorders,
        mut receipts,
    } = workload;
    if !start.wait(rt) {
        return receipts;
    }
    for recorder in recorders {
        if let Some(receipt) = record_own(rt, recorder, lists) {
            keep(&mut receipts, receipt);
        }
    }
    receipts
}

// Starts the recorder thread of this workload.
fn start_recorder<'s, E, R: Threads + Wait + Sync>(
    scope: &'s Scope<'s, E>,
    rt: &'s R,
    start: &'s StartGate,
    lists: &'s [Vec<Event>],
    collector: &Collector,
    workload: Workload,
) -> Option<Recording<'s>>
    requires room { HasRoom workload }
    requires ours { All (IsRecorderOf (roster_of collector.now)) workload.recorders.items }
    requires kept { All (IsReceiptOf (roster_of collector.now)
        (lists_of lists.now)) workload.receipts.items }
    ensures collector { IfSome result (λ h. h.promise.collector.value ≡ collector.now) }
    ensures lists { IfSome result (λ h. h.promise.lists.now ≡ lists.now) }
{
    let promise = RecordedBy {
        collector: Snapshot::of(collector),
        lists,
    };
    let recorder = scope.spawn_with(
        promise,
        move || -> Vec<Receipt>
            requires room { HasRoom workload }
            ensures { (s : Roster) → All (IsRecorderOf s) workload.recorders.items
                → All (IsReceiptOf s (lists_of lists.entry.now)) workload.receipts.items
                → All (IsReceiptOf s (lists_of lists.entry.now)) result.items }
        { record_all(rt, start, workload, lists) },
    );
    recorder.ok()
}

/// Starts a recorder thread for each workload, up to the first that can't be started. Whether all were.
pub fn start_recorders<'s, E, R: Threads + Wait + Sync>(
    scope: &'s Scope<'s, E>,
    rt: &'s R,
    start: &'s StartGate,
    lists: &'s [Vec<Event>],
    collector: &Collector,
    workloads: Vec<Workload>,
    recorders: &mut Vec<Recording<'s>>,
) -> bool
    requires workloads { All (IsWorkloadOf (roster_of collector.now)) workloads.items }
    requires empty { recorders.old.items ≡ [] }
    requires room { vec_len recorders.old + length workloads.items ≤ vec_capacity recorders.old }
    ensures promised { result ≡ true
        → All (λ h. (h.promise.collector.value ≡ collector.now)
        × (lists_of h.promise.lists.now ≡ lists_of lists.now)) recorders.new.items }
    ensures all { result ≡ true → length recorders.new.items ≡ length workloads.items }
{
    for workload in workloads {
        let Some(recorder) = start_recorder(scope, rt, start, lists, collector, workload) else {
            return false;
        };
        keep(recorders, recorder);
    }
    true
}

/// Waits for all recorder threads, and puts their receipts into the list, in the room that is there for
/// them.
pub fn join_recorders<'a, R: Threads>(
    rt: &R,
    recorders: Vec<Recording<'a>>,
    receipts: &mut Vec<Receipt>,
) -> Result<(), Memory>
    ensures { (c : Collecting) (lists : List (List Event))
        → All (λ h. (h.promise.collector.value ≡ c)
        × (lists_of h.promise.lists.now ≡ lists)) recorders.entry.items
        → All (IsReceiptOf (roster_of c) lists) receipts.old.items
        → OnOk result (All (IsReceiptOf (roster_of c) lists) receipts.new.items) }
{
    for recorder in recorders {
        let mut left = recorder.join(rt);
        receipts.append(&mut left)?;
    }
    Ok(())
}
