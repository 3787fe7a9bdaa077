//! The report of a session over given lists.
ghost use Rattle.std.specs.Prelude.{◌≡◌, ◌≤◌, ◌+◌, [], List, length, map, IfOk, IfErr, OnOk};
ghost use Rattle.std.specs.List.{All};
ghost use Rattle.std.specs.Vec.{vec_len, vec_capacity};
ghost use Rattle.gl_event.specs.declared.events.Event.{Event};
ghost use Rattle.gl_event.specs.Lawful.{lists_of};
ghost use Rattle.gl_cycles.specs.Reports.{IsGoodlockReport};
ghost use Rattle.gl_edges.specs.Edges.{edges, once};
ghost use Rattle.gl_shards.specs.Feeds.{AllSent};
ghost use Rattle.gl_engine.specs.Recording.{Closed};
ghost use Rattle.gl_engine.specs.Settling.{IsSettled, IsSettledFrom};
ghost use Rattle.gl_findings.specs.Reports.{IsReportWith};
ghost use Rattle.gl_live.specs.Faults.{IsLiveFault};
ghost use Rattle.gl_live.specs.Options.{CanRunOverLists};
ghost use Rattle.gl_live.specs.bodies.Runs.{HasRun};
ghost use Rattle.gl_live.specs.bodies.Rosters.{gathered_from, AreReceipts, IsReceiptOf};

use crate::faults::{LiveFault, unserved, unsettled};
use crate::reports::report_with_contents;
use crate::run::{Ran, run_session};
use crate::session::{SessionOptions, prepare, workloads};
use gl_cycles::Report;
use gl_edges::EdgeList;
use gl_engine::preallocated::keep;
use gl_engine::{Gathered, Receipt, Settled};
use gl_event::Event;
use gl_filters::Query;
use gl_findings::Contents;
use gl_shards::{Gate, Sent, Served, Table};
use std::alloc::Global;
use std::sync::Wait;
use std::thread::Threads;

// Settles the workers, in the order of shards, and keeps their tables.
fn settle_workers(
    served: Vec<Served>,
    sent: Vec<Sent>,
    tables: &mut Vec<Table>,
) -> Result<(), LiveFault>
    requires feeds { map (λ s. s.feed) served.items ≡ map (λ s. s.feed) sent.items }
    requires empty { tables.old.items ≡ [] }
    requires room { vec_len tables.old + length served.items ≤ vec_capacity tables.old }
    ensures tables { OnOk result (tables.new.items ≡ map (λ s. once s.sent) sent.items) }
    ensures fault { (lists : List (List Event)) → IfErr result (IsLiveFault lists) }
{
    let mut feeds = sent.into_iter();
    for worker in served {
        let Some(feed) = feeds.next() else {
            unreachable!()
        };
        match worker.settle(feed) {
            Ok(table) => keep(tables, table),
            Err(fault) => return Err(unserved(fault)),
        }
    }
    Ok(())
}

// Settles what was gathered with the receipts. The lists are those that the receipts are for.
fn settle(gathered: Gathered, receipts: &mut [Receipt]) -> Result<(Settled, Vec<Sent>), LiveFault>
    requires ours { AreReceipts (gathered_from gathered) receipts.old }
    ensures lists { (lists : List (List Event)) → gathered.limits.threads ≡ length lists
        → All (IsReceiptOf (gathered_from gathered) lists) receipts.old
        → IfOk result (λ settled. settled.0 ≡ lists) }
    ensures settled { IfOk result
        (λ settled. IsSettledFrom gathered receipts.old settled.0 settled.1.items) }
    ensures fault { (all : List (List Event)) → IfErr result (IsLiveFault all) }
{
    match gathered.settle(receipts) {
        Ok(settled) => Ok(settled),
        Err(fault) => Err(unsettled(fault)),
    }
}

// The report of what was settled, over the tables of all workers.
fn report_settled(
    rt: &(impl Threads + Sync),
    alloc: Global,
    settled: Settled,
    tables: Vec<Table>,
    contents: Contents,
    query: &Query,
) -> Result<Report, LiveFault>
    ensures report { (receipts : List Closed) (sent : List AllSent)
        → IsSettled receipts settled sent → tables.items ≡ map (λ s. once s.sent) sent
        → IfOk result
        (λ report. IsReportWith contents query.now (edges settled) settled report) }
    ensures fault { IfErr result (IsLiveFault settled) }
{
    let Ok(edges) = settled.edges(tables) else {
        return Err(LiveFault::Memory);
    };
    report_with_contents(rt, alloc, contents, edges, settled.lists(), query)
}

/// The report of a session that has run, with these contents: that of the lists that its receipts are for.
pub fn conclude(
    rt: &(impl Threads + Sync),
    alloc: Global,
    ran: Ran,
    tables: Vec<Table>,
    contents: Contents,
    query: &Query,
) -> Result<Report, LiveFault>
    requires run { HasRun (vec_capacity tables) ran.gathered ran.served.items }
    requires ours { AreReceipts (gathered_from ran.gathered) ran.receipts.items }
    requires empty { tables.items ≡ [] }
    requires none { vec_len tables ≡ 0 }
    ensures report { (lists : List (List Event)) → ran.gathered.limits.threads ≡ length lists
        → All (IsReceiptOf (gathered_from ran.gathered) lists) ran.receipts.items
        → IfOk result (λ report. IsReportWith contents query.now (edges lists) lists report) }
    ensures fault { (lists : List (List Event)) → ran.gathered.limits.threads ≡ length lists
        → All (IsReceiptOf (gathered_from ran.gathered) lists) ran.receipts.items
        → IfErr result (IsLiveFault lists) }
{
    let Ran {
        gathered,
        mut receipts,
        served,
    } = ran;
    let mut tables = tables;
    match settle(gathered, receipts.as_mut_slice()) {
        Ok((settled, sent)) => match settle_workers(served, sent, &mut tables) {
            Ok(()) => report_settled(rt, alloc, settled, tables, contents, query),
            Err(fault) => Err(fault),
        },
        Err(fault) => Err(fault),
    }
}

// The report of no lists.
fn report_of_none(
    rt: &(impl Threads + Sync),
    alloc: Global,
    lists: &[Vec<Event>],
    contents: Contents,
    query: &Query,
) -> Result<Report, LiveFault>
    requires none { lists.now ≡ [] }
    ensures report { IfOk result
        (λ report. IsReportWith contents query.now (edges (lists_of lists.now))
        (lists_of lists.now) report) }
    ensures fault { IfErr result (IsLiveFault (lists_of lists.now)) }
{
    report_with_contents(rt, alloc, contents, EdgeList::new(alloc), lists, query)
}

/// The report of these lists with these contents, by a session in which threads record them at once: whatever their timing, it is that of the lists. A thread's number is the position of its list.
///
/// Lane `t` is recorded by recorder thread `t` modulo their number, list after list; each worker is passed
/// the gate; the collector runs in the calling thread. No recorder thread records before every thread was
/// started. Where there are no lists, no session is opened.
///
/// # Errors
///
/// [`LiveFault::Memory`] where a growth was refused; [`LiveFault::Unconfirmed`] where a thread couldn't be
/// started, and where the session isn't confirmed; [`LiveFault::Inconsistent`] where a segment of the lists is
/// before itself. Which one comes first where several could isn't promised.
pub fn live_report_with<R: Threads + Wait + Sync, G: Gate + Sync>(
    rt: &R,
    alloc: Global,
    lists: &[Vec<Event>],
    options: &SessionOptions,
    contents: Contents,
    query: &Query,
    gate: &G,
) -> Result<Report, LiveFault>
    requires few { length lists.now ≤ 1024 }
    requires options { CanRunOverLists options.now }
    ensures report { IfOk result
        (λ report. IsReportWith contents query.now (edges (lists_of lists.now))
        (lists_of lists.now) report) }
    ensures fault { IfErr result (IsLiveFault (lists_of lists.now)) }
{
    if lists.is_empty() {
        return report_of_none(rt, alloc, lists, contents, query);
    }
    let threads = lists.len() as u32;
    let Ok((recorders, session)) = prepare(alloc, threads, options.shards, options.ring) else {
        return Err(LiveFault::Memory);
    };
    let Ok(workloads) = workloads(alloc, recorders, options.recorders) else {
        return Err(LiveFault::Memory);
    };
    let Ok(tables) = Vec::with_capacity(alloc, options.shards as usize) else {
        return Err(LiveFault::Memory);
    };
    match run_session(rt, alloc, lists, options, gate, session, workloads) {
        Ok(ran) => conclude(rt, alloc, ran, tables, contents, query),
        Err(fault) => Err(fault),
    }
}

/// The Goodlock report of these lists, by a session as in [`live_report_with`]: it lists cycles, and has
/// the trim order.
///
/// # Errors
///
/// Those of [`live_report_with`].
pub fn live_report<R: Threads + Wait + Sync, G: Gate + Sync>(
    rt: &R,
    alloc: Global,
    lists: &[Vec<Event>],
    options: &SessionOptions,
    query: &Query,
    gate: &G,
) -> Result<Report, LiveFault>
    requires few { length lists.now ≤ 1024 }
    requires options { CanRunOverLists options.now }
    ensures report { IfOk result
        (λ report. IsGoodlockReport query.now (lists_of lists.now) report) }
    ensures fault { IfErr result (IsLiveFault (lists_of lists.now)) }
{
    live_report_with(
        rt,
        alloc,
        lists,
        options,
        Contents::CyclesAndTrim,
        query,
        gate,
    )
}
