//! Sessions whose threads take turns in one thread.
ghost use Rattle.std.specs.Prelude.{◌≡◌, ◌<◌, IfOk};
ghost use Rattle.gl_engine.specs.Collecting.{IsOpened};
ghost use Rattle.gl_engine.specs.Recording.{closed_of};

use crate::reports::{counts_of, full};
use crate::say::{Stop, refused, say};
use gl_engine::{CloseFault, Collector, PullFault, Receipt, Recorder, open};
use gl_event::{Event, Limits, Memory, ThreadId};
use gl_filters::Query;
use gl_worked::ops::Op::{Acq, Fork, Join};
use gl_worked::ops::event_of;

/// The limits of a session of so many threads with rings of this size.
pub(crate) fn limits_of(threads: u32, ring: u32) -> Result<Limits, Stop>
    ensures { IfOk result (λ limits. limits.threads ≡ threads) }
{
    match Limits::new(threads, ring, 100, 100) {
        Ok(limits) => Ok(limits),
        Err(_) => Err(Stop::Astray),
    }
}

/// A new session of this number, for which memory may be refused once.
pub(crate) fn session(
    rt: &HostRuntime,
    number: u64,
    limits: &Limits,
) -> Result<(Vec<Recorder>, Collector), Memory>
    ensures { IfOk result (λ opened. IsOpened number limits.now opened.0.items opened.1) }
{
    if let Ok(opened) = open(rt.alloc(), number, limits) {
        return Ok(opened);
    }
    refused(rt, "open", &());
    open(rt.alloc(), number, limits)
}

// Records the event, if the lane has room for it.
fn record(rt: &HostRuntime, recorder: &mut Recorder, event: &Event)
    ensures session { recorder.new.session ≡ recorder.old.session }
    ensures limits { recorder.new.limits ≡ recorder.old.limits }
    ensures lane { recorder.new.lane ≡ recorder.old.lane }
{
    say(rt, "record", &recorder.record(*event));
}

/// Records the events one after the other.
pub(crate) fn record_all(rt: &HostRuntime, recorder: &mut Recorder, events: &[Event])
    ensures session { recorder.new.session ≡ recorder.old.session }
    ensures limits { recorder.new.limits ≡ recorder.old.limits }
    ensures lane { recorder.new.lane ≡ recorder.old.lane }
{
    for event in events {
        record(rt, recorder, event);
    }
}

// Closes the recorder of a full lane: it comes back.
fn handed_back(rt: &HostRuntime, recorder: Recorder) -> Result<Recorder, Stop> {
    match recorder.close() {
        Err(CloseFault::Full(back)) => {
            say(rt, "full", &back.taken());
            Ok(back)
        }
        _ => Err(Stop::Astray),
    }
}

/// Closes the recorder, whose lane has room for the end mark.
pub(crate) fn closed(rt: &HostRuntime, recorder: Recorder) -> Result<Receipt, Stop>
    ensures { IfOk result (λ receipt. receipt ≡ closed_of recorder) }
{
    match recorder.close() {
        Ok(receipt) => {
            let thread = receipt.thread().number();
            say(rt, "close", &(receipt.session(), thread, receipt.taken()));
            Ok(receipt)
        }
        Err(_) => Err(Stop::Astray),
    }
}

// Pulls the thread's next note, if there is memory for it.
fn pull_next(rt: &HostRuntime, collector: &mut Collector, thread: ThreadId) -> Result<(), Stop>
    requires known { thread < collector.old.limits.threads }
    ensures limits { collector.new.limits ≡ collector.old.limits }
{
    match collector.pull(thread) {
        Err(PullFault::Memory) => Err(Stop::Memory),
        pulled => {
            say(rt, "pull", &pulled);
            Ok(())
        }
    }
}

// The same, for which memory may be refused once.
fn pull(rt: &HostRuntime, collector: &mut Collector, thread: ThreadId) -> Result<(), Stop>
    requires known { thread < collector.old.limits.threads }
    ensures limits { collector.new.limits ≡ collector.old.limits }
{
    if let Ok(()) = pull_next(rt, collector, thread) {
        return Ok(());
    }
    let (log, notes) = (collector.log(thread), collector.stream().len());
    refused(rt, "pull", &(log, notes));
    pull_next(rt, collector, thread)
}

// Pulls so many notes of the thread.
fn pull_some(
    rt: &HostRuntime,
    collector: &mut Collector,
    thread: u32,
    notes: u32,
) -> Result<(), Stop>
    requires known { thread < collector.old.limits.threads }
    ensures limits { collector.new.limits ≡ collector.old.limits }
{
    for _ in 0..notes {
        pull(rt, collector, ThreadId::new(thread))?;
    }
    Ok(())
}

// Prints what is reported of all that was pulled; memory may be refused once.
fn report_so_far(rt: &HostRuntime, collector: &Collector, query: &Query) {
    let counts = counts_of(&collector.report_so_far(query));
    if counts.is_none() {
        refused(rt, "report", &collector.stream().len());
        say(rt, "report", &counts_of(&collector.report_so_far(query)));
        return;
    }
    say(rt, "report", &counts);
}

// Records two events and closes the recorder: each event, and the end mark, waits for the one before it to be pulled.
fn record_by_one(
    rt: &HostRuntime,
    recorder: Recorder,
    collector: &mut Collector,
) -> Result<(), Stop>
    requires known { 0 < collector.old.limits.threads }
{
    let mut recorder = recorder;
    record_all(
        rt,
        &mut recorder,
        &[event_of(Acq(0, 1)), event_of(Acq(1, 2))],
    );
    let mut recorder = handed_back(rt, recorder)?;
    pull_some(rt, collector, 0, 1)?;
    record(rt, &mut recorder, &event_of(Acq(1, 2)));
    pull_some(rt, collector, 0, 1)?;
    closed(rt, recorder)?;
    pull_some(rt, collector, 0, 2)
}

/// A lane of one note.
pub(crate) fn ring_of_one(rt: &HostRuntime) -> Result<(), Stop> {
    let limits = limits_of(1, 1)?;
    let (mut recorders, mut collector) = session(rt, 7, &limits)?;
    let recorder = recorders.pop().ok_or(Stop::Astray)?;
    record_by_one(rt, recorder, &mut collector)?;
    say(rt, "log", &collector.log(ThreadId::new(0)));
    Ok(())
}

// Pulls what the last two of three threads recorded, and prints what is reported then.
fn pull_two(rt: &HostRuntime, collector: &mut Collector, query: &Query) -> Result<(), Stop>
    requires known { 2 < collector.old.limits.threads }
    ensures limits { collector.new.limits ≡ collector.old.limits }
{
    pull_some(rt, collector, 1, 2)?;
    pull_some(rt, collector, 2, 2)?;
    report_so_far(rt, collector, query);
    Ok(())
}

// The same of the first one.
fn pull_first(rt: &HostRuntime, collector: &mut Collector, query: &Query) -> Result<(), Stop>
    requires known { 0 < collector.old.limits.threads }
{
    pull_some(rt, collector, 0, 3)?;
    report_so_far(rt, collector, query);
    Ok(())
}

/// Two threads take two locks in opposite orders. That the first one was joined before the second one was
/// forked is collected later: the cycle that was reported is dropped then.
pub(crate) fn report_so_far_drops(rt: &HostRuntime) -> Result<(), Stop> {
    let query = full()?;
    let limits = limits_of(3, 8)?;
    let (mut recorders, mut collector) = session(rt, 7, &limits)?;
    let first = [event_of(Acq(0, 1)), event_of(Acq(1, 2))];
    let second = [event_of(Acq(1, 3)), event_of(Acq(0, 4))];
    let forks = [
        event_of(Fork(1, 5)),
        event_of(Join(1, 6)),
        event_of(Fork(2, 7)),
    ];
    record_all(rt, &mut recorders[1], &first);
    record_all(rt, &mut recorders[2], &second);
    pull_two(rt, &mut collector, &query)?;
    record_all(rt, &mut recorders[0], &forks);
    pull_first(rt, &mut collector, &query)
}
