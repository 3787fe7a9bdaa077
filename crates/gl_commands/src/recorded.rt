//! What is answered to a text by a session that records its trace again.
ghost use Rattle.std.specs.Prelude.{◌≡◌, Ok, IfOk, IfErr};
ghost use Rattle.gl_event.specs.Bounds.{greatest};
ghost use Rattle.gl_edges.specs.Edges.{edges};
ghost use Rattle.gl_findings.specs.Reports.{IsReportWith};
ghost use Rattle.gl_live.specs.Faults.{IsLiveFault};
ghost use Rattle.gl_live.specs.declared.faults.LiveFault.TheVariants.{Memory as OutOfMemory, Unconfirmed as NotConfirmed};
ghost use Rattle.gl_std.specs.Trace.{IsTraceOver};
ghost use Rattle.gl_options.specs.Sessions.{AreOfSession};
ghost use Rattle.gl_commands.specs.Answer.{IsAnswer};
ghost use Rattle.gl_commands.specs.Sessions.{listing_asked, session_prediction};
ghost use Rattle.gl_commands.specs.bodies.Needed.{contents_of};
ghost use Rattle.gl_commands.specs.bodies.Stops.{IfStopped, IsAnsweredInSession, IsLoopOf};

use crate::answer::{Printed, contents_for, printed_in, trace_or_line};
use crate::ended::Ended;
use crate::refusal_lines::inconsistent_line;
use gl_cycles::Report;
use gl_event::Memory;
use gl_findings::{Contents, Listing};
use gl_live::{LiveFault, SessionOptions, live_report_with};
use gl_options::LiveOptions;
use gl_shards::Gate;
use gl_std::{ReadFault, Trace};
use std::alloc::Global;
use std::sync::Wait;
use std::thread::Threads;

/// What the options ask to be listed.
pub(crate) fn listing_of(options: &LiveOptions) -> Listing
    ensures { result ≡ listing_asked options.now }
{
    if options.findings {
        return Listing::Findings;
    }
    Listing::Cycles
}

/// What the report that the options ask for has to have to be printed.
pub(crate) fn contents_of(options: &LiveOptions) -> Contents
    ensures { result ≡ contents_of options.now }
{
    contents_for(listing_of(options), options.form)
}

// What the options ask a session over lists to be run with.
fn session_of(options: &LiveOptions) -> SessionOptions
    ensures recorders { result.recorders ≡ options.now.recorders }
    ensures shards { result.shards ≡ options.now.shards }
    ensures ring { result.ring ≡ options.now.ring }
{
    SessionOptions {
        recorders: options.recorders,
        shards: options.shards,
        ring: options.ring,
    }
}

// How the command ends where a session over the trace gives no report for this reason.
fn ended_for(alloc: Global, trace: &Trace, fault: LiveFault) -> Ended
    requires fault { IsLiveFault trace.now.lists fault }
    ensures stopped { IfStopped result (IsLoopOf trace.now) }
    ensures memory { fault ≡ OutOfMemory → result ≡ Ended.Memory }
    ensures unconfirmed { fault ≡ NotConfirmed → result ≡ Ended.Unconfirmed }
{
    match fault {
        LiveFault::Inconsistent { at, ring: _ring } => {
            match inconsistent_line(alloc, &trace.names, at) {
                Ok(line) => Ended::Refused(line),
                Err(Memory) => Ended::Memory,
            }
        }
        LiveFault::Memory => Ended::Memory,
        LiveFault::Unconfirmed => Ended::Unconfirmed,
    }
}

// The report of a trace by a session, or why there is none.
fn session_report<R: Threads + Wait + Sync, G: Gate + Sync>(
    rt: &R,
    alloc: Global,
    trace: &Trace,
    options: &LiveOptions,
    gate: &G,
) -> Result<Report, Ended>
    requires trace { IsTraceOver greatest trace.now }
    requires session { AreOfSession options.now }
    ensures report { IfOk result
        (λ report. IsReportWith (contents_of options.now) options.now.query
        (edges trace.now.lists) trace.now.lists report) }
    ensures refused { IfErr result (λ ended. IfStopped ended (IsLoopOf trace.now)) }
{
    let lists = trace.lists.as_slice();
    let session = session_of(options);
    let contents = contents_of(options);
    match live_report_with(rt, alloc, lists, &session, contents, &options.query, gate) {
        Ok(report) => Ok(report),
        Err(fault) => Err(ended_for(alloc, trace, fault)),
    }
}

// What is answered to the texts that have this trace, by a session.
fn session_answer<R: Threads + Wait + Sync, G: Gate + Sync>(
    rt: &R,
    alloc: Global,
    trace: &Trace,
    options: &LiveOptions,
    gate: &G,
) -> Result<Printed, Ended>
    requires trace { IsTraceOver greatest trace.now }
    requires session { AreOfSession options.now }
    ensures { IsAnsweredInSession (IsAnswer (session_prediction options.now)) (Ok trace.now)
        result }
{
    let report = session_report(rt, alloc, trace, options, gate)?;
    let listing = listing_of(options);
    let answer = printed_in(alloc, listing, options.form, &trace.names, &report);
    drop(report);
    answer
}

/// The report of the texts that have this trace or first fault, by a session, in the form asked for, or
/// why there is none.
pub(crate) fn recorded<R: Threads + Wait + Sync, G: Gate + Sync>(
    rt: &R,
    alloc: Global,
    read: Result<Trace, ReadFault>,
    options: &LiveOptions,
    gate: &G,
) -> Result<Printed, Ended>
    requires over { IfOk read (IsTraceOver greatest) }
    requires session { AreOfSession options.now }
    ensures { IsAnsweredInSession (IsAnswer (session_prediction options.now)) read result }
{
    let trace = trace_or_line(alloc, read)?;
    let answer = session_answer(rt, alloc, &trace, options, gate);
    drop(trace);
    answer
}
