//! Whole sessions of one thread: recorded, run, settled and reported.
ghost use Rattle.std.specs.Prelude.{◌≡◌, [], ◌∷◌, map, length, None, IfOk, IfSome};
ghost use Rattle.gl_engine.specs.Gathering.{AreOurs};

use crate::reports::{counts_of, full};
use crate::say::{Stop, refused, say};
use crate::sessions::{closed, limits_of, record_all, session};
use gl_cycles::{Report, ReportFault};
use gl_engine::{Collector, Gathered, Receipt, SettleFault, Settled};
use gl_event::{Event, Limits, Memory};
use gl_filters::Query;
use gl_shards::{Inlet, Open, Outlet, Sent, ServeFault, Served, Table, feed, serve};
use gl_worked::ops::Op::Acq;
use gl_worked::ops::event_of;
use std::alloc::AllocError;
use std::sync::Wait;
use std::thread::Threads;

// A session of one thread that has recorded these few events and closed.
fn recorded_alone(
    rt: &HostRuntime,
    number: u64,
    limits: &Limits,
    events: &[Event],
) -> Result<(Receipt, Collector), Stop>
    requires one { limits.now.threads ≡ 1 }
    ensures sessions { IfOk result
        (λ done. (done.0.session ≡ number) × (done.1.session ≡ number)) }
    ensures limits { IfOk result (λ done. done.0.limits ≡ done.1.limits) }
    ensures lane { IfOk result (λ done. map (λ i. i.lane) done.1.inputs ≡ done.0.lane ∷ []) }
{
    let (mut recorders, collector) = session(rt, number, limits)?;
    let Some(mut recorder) = recorders.pop() else {
        return Err(Stop::Astray);
    };
    record_all(rt, &mut recorder, events);
    let receipt = closed(rt, recorder)?;
    Ok((receipt, collector))
}

/// The ends of a feed, for which memory may be refused once. It has room for all that is sent.
pub(crate) fn roomy_feed(rt: &HostRuntime) -> Result<(Outlet, Inlet), Memory>
    ensures one_feed { IfOk result (λ ends. ends.1.feed ≡ ends.0.feed) }
    ensures empty { IfOk result (λ ends. ends.0.sent ≡ []) }
{
    if let Ok(ends) = feed(rt.alloc(), 8) {
        return Ok(ends);
    }
    refused(rt, "feed", &());
    feed(rt.alloc(), 8)
}

// Room for one outlet; memory may be refused once.
fn room_for_outlet(rt: &HostRuntime) -> Result<Vec<Outlet>, AllocError>
    ensures { IfOk result (λ outlets. outlets.items ≡ []) }
{
    if let Ok(outlets) = Vec::with_capacity(rt.alloc(), 1) {
        return Ok(outlets);
    }
    refused(rt, "outlets", &());
    Vec::with_capacity(rt.alloc(), 1)
}

// One outlet.
fn only_outlet(rt: &HostRuntime, outlet: Outlet) -> Result<Vec<Outlet>, Stop>
    ensures { IfOk result (λ outlets. outlets.items ≡ outlet ∷ []) }
{
    let mut outlets = room_for_outlet(rt)?;
    match outlets.push(outlet) {
        Ok(()) => Ok(outlets),
        Err(_) => Err(Stop::Memory),
    }
}

// The collector's run, and the other end of its only outlet.
fn run_alone<W: Wait>(
    rt: &HostRuntime,
    waits: &W,
    collector: Collector,
) -> Result<(Gathered, Inlet), Stop>
    ensures session { IfOk result (λ run. run.0.session ≡ collector.session) }
    ensures limits { IfOk result (λ run. run.0.limits ≡ collector.limits) }
    ensures lanes { IfOk result (λ run. run.0.lanes ≡ map (λ i. i.lane) collector.inputs) }
    ensures feeds { IfOk result
        (λ run. run.0.fault ≡ None → map (λ s. s.feed) run.0.sent ≡ run.1.feed ∷ []) }
{
    let (outlet, inlet) = roomy_feed(rt)?;
    let outlets = only_outlet(rt, outlet)?;
    Ok((collector.run(waits, outlets), inlet))
}

// No receipt: that of the only thread is missing. What was gathered comes back.
fn settle_none(rt: &HostRuntime, gathered: Gathered) -> Result<Gathered, Stop>
    ensures back { IfOk result (λ back. back ≡ gathered) }
{
    let mut none: Vec<Receipt> = Vec::new(rt.alloc());
    match gathered.settle(none.as_mut_slice()) {
        Err(SettleFault::Missing { gathered, .. }) => {
            say(rt, "missing", &none.len());
            Ok(gathered)
        }
        _ => Err(Stop::Astray),
    }
}

// The receipt of another session is strange. What was gathered comes back.
fn settle_foreign(rt: &HostRuntime, gathered: Gathered, foreign: Receipt) -> Result<Gathered, Stop>
    requires foreign { foreign.session ≡ gathered.session → ⊥ }
    ensures back { IfOk result (λ back. back ≡ gathered) }
{
    let mut receipts = [foreign];
    match gathered.settle(&mut receipts) {
        Err(SettleFault::Strange { at, gathered }) => {
            say(rt, "strange", &at);
            Ok(gathered)
        }
        _ => Err(Stop::Astray),
    }
}

// What the only worker is settled with.
fn only_sent(sent: Vec<Sent>) -> Result<Sent, Stop>
    requires one { length sent.items ≡ 1 }
    ensures { IfOk result (λ only. sent.items ≡ only ∷ []) }
{
    let mut sent = sent;
    match sent.pop() {
        Some(only) => Ok(only),
        None => Err(Stop::Astray),
    }
}

/// The worker's table. There is none where it had no memory: it has taken all that was sent then.
pub(crate) fn settle_worker(
    rt: &HostRuntime,
    served: Served,
    sent: Sent,
) -> Result<Option<Table>, Stop>
    requires one_feed { served.feed ≡ sent.feed }
{
    let is_cut = served.cut();
    match served.settle(sent) {
        Ok(table) => {
            say(rt, "worker", &(is_cut, table.len()));
            Ok(Some(table))
        }
        Err(ServeFault::Memory) => {
            refused(rt, "worker", &is_cut);
            Ok(None)
        }
        Err(ServeFault::Cut) => Err(Stop::Astray),
    }
}

// The table of the only worker, of which this was sent.
fn only_table(rt: &HostRuntime, served: Served, sent: Vec<Sent>) -> Result<Option<Table>, Stop>
    requires { map (λ s. s.feed) sent.items ≡ served.feed ∷ [] }
{
    settle_worker(rt, served, only_sent(sent)?)
}

// The lists of the session, and the table of its worker, which serves now. There is none where memory was
// refused: to the collector, which has ended the feed all the same, or to the worker.
fn settle_own<W: Wait>(
    rt: &HostRuntime,
    waits: &W,
    gathered: Gathered,
    own: Receipt,
    inlet: Inlet,
) -> Result<Option<(Settled, Table)>, Stop>
    requires ours { AreOurs gathered (own ∷ []) }
    requires feed { gathered.fault ≡ None
        → map (λ s. s.feed) gathered.sent ≡ inlet.feed ∷ [] }
{
    let served = serve(waits, rt.alloc(), inlet, 0, &Open);
    let mut receipts = [own];
    match gathered.settle(&mut receipts) {
        Ok((settled, sent)) => {
            say(rt, "settle", &settled.lists());
            match only_table(rt, served, sent)? {
                Some(table) => Ok(Some((settled, table))),
                None => Ok(None),
            }
        }
        Err(SettleFault::Memory) => {
            refused(rt, "settle", &served.cut());
            Ok(None)
        }
        Err(_) => Err(Stop::Astray),
    }
}

// A copy of the table, alone.
fn tables_of(rt: &HostRuntime, table: &Table) -> Result<Vec<Table>, Memory> {
    let copy = table.copy(rt.alloc())?;
    Ok(vec![in rt.alloc(); copy]?)
}

// The report over a copy of the table.
fn report_over<T: Threads + Sync>(
    rt: &HostRuntime,
    threads: &T,
    settled: &Settled,
    table: &Table,
    query: &Query,
) -> Result<Report, ReportFault> {
    let tables = tables_of(rt, table)?;
    settled.report(threads, tables, query)
}

// Prints what the report counts; memory may be refused once.
fn report<T: Threads + Sync>(
    rt: &HostRuntime,
    threads: &T,
    settled: &Settled,
    table: &Table,
    query: &Query,
) {
    let counts = counts_of(&report_over(rt, threads, settled, table, query));
    if counts.is_none() {
        refused(rt, "report", &settled.lists());
        let again = counts_of(&report_over(rt, threads, settled, table, query));
        say(rt, "report", &again);
        return;
    }
    say(rt, "report", &counts);
}

// What a session of a thread that recorded these events gathered, with the worker's end, the thread's receipt and that of
// another session.
fn gathered_alone<W: Wait>(
    rt: &HostRuntime,
    waits: &W,
    events: &[Event],
) -> Result<(Gathered, Inlet, Receipt, Receipt), Stop>
    ensures ours { IfOk result (λ ran. AreOurs ran.0 (ran.2 ∷ [])) }
    ensures feed { IfOk result
        (λ ran. ran.0.fault ≡ None → map (λ s. s.feed) ran.0.sent ≡ ran.1.feed ∷ []) }
    ensures foreign { IfOk result (λ ran. ran.3.session ≡ ran.0.session → ⊥) }
{
    let limits = limits_of(1, 8)?;
    let (own, collector) = recorded_alone(rt, 7, &limits, events)?;
    let (foreign, _) = recorded_alone(rt, 8, &limits, &[])?;
    let (gathered, inlet) = run_alone(rt, waits, collector)?;
    Ok((gathered, inlet, own, foreign))
}

// What was gathered, settled with no receipt and with that of another session, comes back.
fn settle_in_vain(rt: &HostRuntime, gathered: Gathered, foreign: Receipt) -> Result<Gathered, Stop>
    requires foreign { foreign.session ≡ gathered.session → ⊥ }
    ensures back { IfOk result (λ back. back ≡ gathered) }
{
    let gathered = settle_none(rt, gathered)?;
    settle_foreign(rt, gathered, foreign)
}

// A session of a thread that recorded these events, settled with no receipt, with that of another session
// and with its own. Whether it could be reported: else memory was refused to its collector or its worker.
fn is_reported<W: Threads + Wait + Sync>(
    rt: &HostRuntime,
    threads: &W,
    events: &[Event],
) -> Result<bool, Stop> {
    let query = full()?;
    let (gathered, inlet, own, foreign) = gathered_alone(rt, threads, events)?;
    let gathered = settle_in_vain(rt, gathered, foreign)?;
    match settle_own(rt, threads, gathered, own, inlet)? {
        Some((settled, table)) => {
            report(rt, threads, &settled, &table, &query);
            Ok(true)
        }
        None => Ok(false),
    }
}

// The same, once more from the beginning where memory was refused to the collector or the worker.
fn settle<W: Threads + Wait + Sync>(
    rt: &HostRuntime,
    threads: &W,
    events: &[Event],
) -> Result<(), Stop> {
    if is_reported(rt, threads, events)? {
        return Ok(());
    }
    if is_reported(rt, threads, events)? {
        return Ok(());
    }
    Err(Stop::Memory)
}

/// A session without an event, settled with no receipt, with a strange one, and with its own.
pub(crate) fn settle_receipts<W: Threads + Wait + Sync>(
    rt: &HostRuntime,
    threads: &W,
) -> Result<(), Stop> {
    settle(rt, threads, &[])
}

/// The same, of a thread that has two locks when it takes a third one.
pub(crate) fn settle_edges<W: Threads + Wait + Sync>(
    rt: &HostRuntime,
    threads: &W,
) -> Result<(), Stop> {
    settle(
        rt,
        threads,
        &[
            event_of(Acq(0, 1)),
            event_of(Acq(1, 2)),
            event_of(Acq(2, 3)),
        ],
    )
}
