//! A session that is ready to run: recorders, collector and feeds, and room for what it leaves.
ghost use Rattle.std.specs.Prelude.{◌≡◌, ◌≤◌, ◌+◌, [], map, length, IfOk, OnOk};
ghost use Rattle.std.specs.List.{All};
ghost use Rattle.gl_event.specs.declared.limits.TheConstants.{MAX_THREADS, MAX_RING};
ghost use Rattle.gl_shards.specs.declared.shard.TheConstants.{MAX_SHARDS};
ghost use Rattle.gl_live.specs.bodies.Workloads.{AreDealt, IsWorkloadOf};
ghost use Rattle.gl_live.specs.bodies.Rosters.{Roster, roster_of, IsRecorderOf};
ghost use Rattle.gl_live.specs.bodies.Ready.{HasSizes, IsReady};
ghost use Rattle.gl_live.specs.bodies.Streams.{AreRecorded};

use crate::recording::Workload;
use gl_engine::{Collector, Receipt, Recorder, open};
use gl_event::{Limits, Memory};
use gl_shards::{Inlet, Outlet, Served, feed};
use std::alloc::Global;

/// How a session is run.
#[derive(Clone, Copy, Debug, PartialEq, Eq)]
pub struct SessionOptions {
    /// How many threads record, at least 1 (the command line takes up to 16). Lane `t` is recorded by thread `t` modulo this number.
    pub recorders: u32,
    /// How many workers there are, 1 to 16.
    pub shards: u32,
    /// The capacity of each lane and of each feed, 1 to 65,536.
    pub ring: u32,
}

/// A session that is ready to run, apart from its recorders.
#[derive(Drop)]
pub struct Session {
    pub collector: Collector,
    pub outlets: Vec<Outlet>,
    pub inlets: Vec<Inlet>,
    pub receipts: Vec<Receipt>,
    pub served: Vec<Served>,
}

// The number of each session: there is one at a time.
const SESSION: u64 = 0;

// So many groups without recorders.
fn empty_groups(alloc: Global, count: u32) -> Result<Vec<Vec<Recorder>>, Memory>
    ensures count { IfOk result (λ groups. length groups.items ≡ count) }
    ensures empty { IfOk result (λ groups. All (λ group. group.items ≡ []) groups.items) }
{
    let mut groups = Vec::with_capacity(alloc, count as usize)?;
    for _ in 0..count {
        groups.push(Vec::new(alloc))?;
    }
    Ok(groups)
}

// The recorders in so many groups: that of thread `t` in group `t` modulo their number.
fn grouped(
    alloc: Global,
    recorders: Vec<Recorder>,
    count: u32,
) -> Result<Vec<Vec<Recorder>>, Memory>
    requires some { 1 ≤ count }
    ensures ours { (s : Roster) → All (IsRecorderOf s) recorders.items
        → IfOk result (λ groups. All (λ group. All (IsRecorderOf s) group.items) groups.items) }
    ensures dealt { IfOk result
        (λ groups. AreDealt count recorders.items (map (λ g. g.items) groups.items)) }
{
    let mut groups = empty_groups(alloc, count)?;
    for recorder in recorders {
        let group = recorder.thread().number() % count;
        groups[group as usize].push(recorder)?;
    }
    Ok(groups)
}

// A workload for these recorders.
fn workload(alloc: Global, recorders: Vec<Recorder>) -> Result<Workload, Memory>
    ensures ours { (s : Roster) → All (IsRecorderOf s) recorders.items
        → IfOk result (IsWorkloadOf s) }
    ensures all { IfOk result (λ workload. workload.recorders.items ≡ recorders.items) }
{
    let receipts = Vec::with_capacity(alloc, recorders.len())?;
    Ok(Workload {
        recorders,
        receipts,
    })
}

/// The recorders' workloads, so many: the recorder of thread `t` is in workload `t` modulo their number.
pub fn workloads(
    alloc: Global,
    recorders: Vec<Recorder>,
    count: u32,
) -> Result<Vec<Workload>, Memory>
    requires some { 1 ≤ count }
    ensures ours { (s : Roster) → All (IsRecorderOf s) recorders.items
        → IfOk result (λ workloads. All (IsWorkloadOf s) workloads.items) }
    ensures dealt { IfOk result
        (λ workloads. AreDealt count recorders.items
        (map (λ w. w.recorders.items) workloads.items)) }
{
    let groups = grouped(alloc, recorders, count)?;
    let mut workloads = Vec::with_capacity(alloc, groups.len())?;
    for group in groups {
        workloads.push(workload(alloc, group)?)?;
    }
    Ok(workloads)
}

// Adds a feed with this capacity.
fn add_feed(
    alloc: Global,
    capacity: u32,
    outlets: &mut Vec<Outlet>,
    inlets: &mut Vec<Inlet>,
) -> Result<(), Memory>
    requires some { 1 ≤ capacity }
    requires fit { capacity ≤ MAX_RING }
    ensures count { OnOk result (length outlets.new.items ≡ length outlets.old.items + 1) }
    ensures feeds { map (λ i. i.feed) inlets.old.items ≡ map (λ o. o.feed) outlets.old.items
        → OnOk result (map (λ i. i.feed) inlets.new.items
        ≡ map (λ o. o.feed) outlets.new.items) }
    ensures unsent { All (λ o. o.sent ≡ []) outlets.old.items
        → OnOk result (All (λ o. o.sent ≡ []) outlets.new.items) }
    ensures room { All (λ o. o.capacity ≡ capacity) outlets.old.items
        → OnOk result (All (λ o. o.capacity ≡ capacity) outlets.new.items) }
{
    let (outlet, inlet) = feed(alloc, capacity)?;
    outlets.push(outlet)?;
    inlets.push(inlet)?;
    Ok(())
}

// So many feeds, with this capacity.
fn feeds(alloc: Global, count: u32, capacity: u32) -> Result<(Vec<Outlet>, Vec<Inlet>), Memory>
    requires some { 1 ≤ capacity }
    requires fit { capacity ≤ MAX_RING }
    ensures count { IfOk result (λ ends. length ends.0.items ≡ count) }
    ensures feeds { IfOk result
        (λ ends. map (λ i. i.feed) ends.1.items ≡ map (λ o. o.feed) ends.0.items) }
    ensures unsent { IfOk result (λ ends. All (λ o. o.sent ≡ []) ends.0.items) }
    ensures room { IfOk result (λ ends. All (λ o. o.capacity ≡ capacity) ends.0.items) }
{
    let mut outlets = Vec::with_capacity(alloc, count as usize)?;
    let mut inlets = Vec::with_capacity(alloc, count as usize)?;
    for _ in 0..count {
        add_feed(alloc, capacity, &mut outlets, &mut inlets)?;
    }
    Ok((outlets, inlets))
}

/// A session for so many threads, with so many workers, and with this capacity of lanes and feeds: a
/// recorder for each thread, in the order of thread numbers, and the rest.
///
/// It makes every growth of the run but those of the workloads, of the text, of the collector, of the
/// workers and of the report.
pub fn prepare(
    alloc: Global,
    threads: u32,
    shards: u32,
    ring: u32,
) -> Result<(Vec<Recorder>, Session), Memory>
    requires some_thread { 1 ≤ threads }
    requires threads_fit { threads ≤ MAX_THREADS }
    requires some_shard { 1 ≤ shards }
    requires shards_fit { shards ≤ MAX_SHARDS }
    requires some_ring { 1 ≤ ring }
    requires ring_fits { ring ≤ MAX_RING }
    ensures ready { IfOk result (λ opened. IsReady threads opened.1) }
    ensures unused { IfOk result
        (λ opened. AreRecorded (roster_of opened.1.collector) [] opened.0.items) }
    ensures threads { IfOk result (λ opened. length opened.0.items ≡ threads) }
    ensures sizes { IfOk result (λ opened. HasSizes threads shards ring opened.1) }
{
    let receipts = Vec::with_capacity(alloc, threads as usize)?;
    let served = Vec::with_capacity(alloc, shards as usize)?;
    let (outlets, inlets) = feeds(alloc, shards, ring)?;
    let limits = Limits::of_session(threads, ring);
    let (recorders, collector) = open(alloc, SESSION, &limits)?;
    Ok((
        recorders,
        Session {
            collector,
            outlets,
            inlets,
            receipts,
            served,
        },
    ))
}
