//! What is answered to a text.
//!
//! A trace, a report and the names are given back by `drop`, each at one place of its own: wherever one goes out of
//! scope instead, what it holds is proved to be given back part by part.
ghost use Rattle.std.specs.Prelude.{◌≡◌, Ok, IfOk, IfErr, OnOk};
ghost use Rattle.gl_event.specs.Bounds.{greatest};
ghost use Rattle.gl_std.specs.Trace.{IsTraceOver};
ghost use Rattle.gl_segments.specs.Clocks.{is_before, OrdersBy};
ghost use Rattle.gl_segments.specs.Segments.{IsConsistent};
ghost use Rattle.gl_edges.specs.Edges.{edges};
ghost use Rattle.gl_findings.specs.Reports.{report_with};
ghost use Rattle.gl_findings.specs.declared.listing.Listing.TheVariants.{Cycles, Findings};
ghost use Rattle.gl_report.specs.Counts.{stats_of, stats_text};
ghost use Rattle.gl_commands.specs.Answer.{IsAnswer, IsPlainAnswer, counts, outcome_of, prediction, printed_report, replay};
ghost use Rattle.gl_commands.specs.Answer.Answer.{Prints};
ghost use Rattle.gl_commands.specs.bodies.Needed.{contents_for};
ghost use Rattle.gl_commands.specs.bodies.Stops.{IfRefused, IsAnsweredBy, IsFaultIn, IsLoopOf, IsReportOf, SaysWhyNoReport};

use crate::ended::{Ended, Outcome};
use crate::refusal_lines::{fault_line, inconsistent_line};
use gl_cycles::Report;
use gl_edges::{EdgeList, edges_of_parallel};
use gl_event::Memory;
use gl_filters::Query;
use gl_findings::{Contents, Listing, report_with, report_with_parallel};
use gl_options::Form;
use gl_report::{Stats, listed_json_text, listed_text, stats_text};
use gl_segments::{Order, OrderFault};
use gl_std::{Names, ReadFault, Trace};
use gl_writing::write_trace;
use std::alloc::Global;
use std::thread::{Threads, join_mut};

// The order of so many events is found in a tenth of a millisecond or two.
const FEW: usize = 65_536;

/// What a command prints of a text.
#[derive(Drop, Debug)]
pub(crate) struct Printed {
    /// What is printed.
    pub(crate) text: Vec<u8>,
    /// What becomes of the command once it is.
    pub(crate) outcome: Outcome,
}

// A trace with its report.
#[derive(Drop)]
struct Reported {
    trace: Trace,
    report: Report,
}

/// The trace that was read, or the line that says its first fault.
pub(crate) fn trace_or_line(alloc: Global, read: Result<Trace, ReadFault>) -> Result<Trace, Ended>
    ensures trace { IfOk result (λ t. read ≡ Ok t) }
    ensures refused { IfErr result (λ ended. IfRefused ended (IsFaultIn read)) }
{
    match read {
        Ok(trace) => Ok(trace),
        Err(ReadFault::Line { line, kind }) => {
            let line = fault_line(alloc, line, kind)?;
            Err(Ended::Refused(line))
        }
        Err(ReadFault::Memory) => Err(Ended::Memory),
    }
}

// The order of a trace's segments, or the line that says which one is before itself.
pub(crate) fn order_or_line(alloc: Global, trace: &Trace) -> Result<Order, Ended>
    requires { IsTraceOver greatest trace.now }
    ensures order { IfOk result (λ order. OrdersBy trace.now.lists order) }
    ensures consistent { OnOk result (IsConsistent trace.now.lists) }
    ensures refused { IfErr result (λ ended. IfRefused ended (IsLoopOf trace.now)) }
{
    match Order::of(alloc, trace.lists.as_slice()) {
        Ok(order) => Ok(order),
        Err(OrderFault::Inconsistent { at, ring: _ring }) => {
            let line = inconsistent_line(alloc, &trace.names, at)?;
            Err(Ended::Refused(line))
        }
        Err(OrderFault::Memory) => Err(Ended::Memory),
    }
}

// A report that lists cycles, or findings, in this form.
fn print(
    alloc: Global,
    listing: Listing,
    form: Form,
    names: &Names,
    report: &Report,
) -> Result<Vec<u8>, Memory>
    ensures { IfOk result (λ t. t.items ≡ printed_report listing form names.now report.now) }
{
    match form {
        Form::Text => listed_text(alloc, listing, names, report),
        Form::Json => listed_json_text(alloc, listing, names, report),
    }
}

/// What a report that lists cycles, or findings, has to have to be printed in this form: a text has no trim order.
pub(crate) fn contents_for(listing: Listing, form: Form) -> Contents
    ensures { result ≡ contents_for listing form }
{
    match (listing, form) {
        (Listing::Cycles, Form::Text) => Contents::Cycles,
        (Listing::Cycles, Form::Json) => Contents::CyclesAndTrim,
        (Listing::Findings, Form::Text | Form::Json) => Contents::Findings,
    }
}

// The edges of a trace. So many threads look for them.
fn edges_in(
    rt: &(impl Threads + Sync),
    alloc: Global,
    trace: &Trace,
    threads: usize,
) -> Result<EdgeList, Memory>
    requires { IsTraceOver greatest trace.now }
    ensures { IfOk result (λ es. es ≡ edges trace.now.lists) }
{
    edges_of_parallel(rt, alloc, trace.lists.as_slice(), threads)
}

// The report over these edges. Cycles are sought in several threads, unless there is to be one.
fn report_over(
    rt: &(impl Threads + Sync),
    alloc: Global,
    contents: Contents,
    edges: EdgeList,
    order: &Order,
    query: &Query,
    threads: usize,
) -> Result<Report, Memory>
    ensures { IfOk result
        (λ r. r ≡ report_with contents query.now (is_before order.now) edges) }
{
    if threads < 2 {
        return report_with(alloc, contents, edges, order, query);
    }
    report_with_parallel(rt, alloc, contents, edges, order, query)
}

// Whether a trace has so many events that finding its order takes longer than starting a thread.
fn is_long(trace: &Trace) -> bool {
    let mut events: usize = 0;
    for list in trace.lists.as_slice() {
        events = events.saturating_add(list.len());
    }
    events > FEW
}

// The order of a trace's segments, or the line that says which one is before itself; and the trace's edges. Where
// several threads look for those of a long trace, the order is found in one more meanwhile.
fn order_and_edges(
    rt: &(impl Threads + Sync),
    alloc: Global,
    trace: &Trace,
    threads: usize,
) -> (Result<Order, Ended>, Result<EdgeList, Memory>)
    requires { IsTraceOver greatest trace.now }
    ensures order { IfOk result.0 (λ order. OrdersBy trace.now.lists order) }
    ensures consistent { OnOk result.0 (IsConsistent trace.now.lists) }
    ensures refused { IfErr result.0 (λ ended. IfRefused ended (IsLoopOf trace.now)) }
    ensures edges { IfOk result.1 (λ es. es ≡ edges trace.now.lists) }
{
    if threads < 2 || !is_long(trace) {
        return (
            order_or_line(alloc, trace),
            edges_in(rt, alloc, trace, threads),
        );
    }
    let mut ordering = || -> Result<Order, Ended>
        requires { IsTraceOver greatest trace.now }
        ensures order { IfOk result (λ order. OrdersBy trace.entry.now.lists order) }
        ensures consistent { OnOk result (IsConsistent trace.entry.now.lists) }
        ensures refused { IfErr result (λ ended. IfRefused ended (IsLoopOf trace.entry.now)) }
    { order_or_line(alloc, trace) };
    let mut looking = || -> Result<EdgeList, Memory>
        requires { IsTraceOver greatest trace.now }
        ensures { IfOk result (λ es. es ≡ edges trace.entry.now.lists) }
    { edges_in(rt, alloc, trace, threads) };
    join_mut(rt, &mut ordering, &mut looking)
}

// The report of a trace, or the line that says which segment is before itself.
fn report_or_line(
    rt: &(impl Threads + Sync),
    alloc: Global,
    trace: &Trace,
    contents: Contents,
    query: &Query,
    threads: usize,
) -> Result<Report, Ended>
    requires { IsTraceOver greatest trace.now }
    ensures report { IfOk result (λ r. IsReportOf contents query.now (Ok trace.now) trace.now r) }
    ensures refused { IfErr result (λ ended. IfRefused ended (IsLoopOf trace.now)) }
{
    let (order, edges) = order_and_edges(rt, alloc, trace, threads);
    let order = order?;
    let edges = edges?;
    let report = report_over(rt, alloc, contents, edges, &order, query, threads)?;
    Ok(report)
}

// The report of the trace that was read, or why there is none.
fn trace_and_report(
    rt: &(impl Threads + Sync),
    alloc: Global,
    read: Result<Trace, ReadFault>,
    contents: Contents,
    query: &Query,
    threads: usize,
) -> Result<Reported, Ended>
    requires { IfOk read (IsTraceOver greatest) }
    ensures report { IfOk result (λ r. IsReportOf contents query.now read r.trace r.report) }
    ensures over { IfOk result (λ r. IsTraceOver greatest r.trace) }
    ensures refused { IfErr result (λ ended. IfRefused ended (SaysWhyNoReport read)) }
{
    let trace = trace_or_line(alloc, read)?;
    match report_or_line(rt, alloc, &trace, contents, query, threads) {
        Ok(report) => Ok(Reported { trace, report }),
        Err(ended) => {
            drop(trace);
            Err(ended)
        }
    }
}

// Whether a report lists a cycle, or a finding.
fn outcome_of(report: &Report) -> Outcome
    ensures { result ≡ outcome_of report.now }
{
    if report.found.cycles.as_slice().is_empty() {
        return Outcome::Clean;
    }
    Outcome::Cycles
}

/// What is printed of a report that lists cycles, or findings, in this form, where these are the names.
pub(crate) fn printed_in(
    alloc: Global,
    listing: Listing,
    form: Form,
    names: &Names,
    report: &Report,
) -> Result<Printed, Ended>
    ensures printed { IfOk result
        (λ p. Prints p.text.items p.outcome
        ≡ Prints (printed_report listing form names.now report.now) (outcome_of report.now)) }
    ensures memory { IfErr result (λ ended. ended ≡ Ended.Memory) }
{
    let outcome = outcome_of(report);
    let text = print(alloc, listing, form, names, report)?;
    Ok(Printed { text, outcome })
}

/// The report of the texts that have this trace or first fault, which lists cycles, or findings, in this form,
/// or why they have none.
pub(crate) fn predicted(
    rt: &(impl Threads + Sync),
    alloc: Global,
    read: Result<Trace, ReadFault>,
    listing: Listing,
    query: &Query,
    form: Form,
    threads: usize,
) -> Result<Printed, Ended>
    requires { IfOk read (IsTraceOver greatest) }
    ensures { IsAnsweredBy (IsAnswer (prediction listing query.now form)) read result }
{
    let contents = contents_for(listing, form);
    let Reported { trace, report } = trace_and_report(rt, alloc, read, contents, query, threads)?;
    let answer = printed_in(alloc, listing, form, &trace.names, &report);
    drop(report);
    drop(trace);
    answer
}

// What is printed of the counts of a trace and its report.
fn printed_counts(alloc: Global, trace: &Trace, report: &Report) -> Result<Printed, Ended>
    requires { IsTraceOver greatest trace.now }
    ensures printed { IfOk result
        (λ p. Prints p.text.items p.outcome
        ≡ Prints (stats_text (stats_of trace.now report.now)) Outcome.Done) }
    ensures memory { IfErr result (λ ended. ended ≡ Ended.Memory) }
{
    let text = stats_text(alloc, &Stats::of(trace, report))?;
    Ok(Printed {
        text,
        outcome: Outcome::Done,
    })
}

/// The counts of the texts that have this trace or first fault, and of their report, or why they have
/// none.
pub(crate) fn counted(
    rt: &(impl Threads + Sync),
    alloc: Global,
    read: Result<Trace, ReadFault>,
    query: &Query,
    threads: usize,
) -> Result<Printed, Ended>
    requires { IfOk read (IsTraceOver greatest) }
    ensures { IsAnsweredBy (IsAnswer (counts query.now)) read result }
{
    let contents = Contents::Cycles;
    let Reported { trace, report } = trace_and_report(rt, alloc, read, contents, query, threads)?;
    let answer = printed_counts(alloc, &trace, &report);
    drop(report);
    drop(trace);
    answer
}

// What is printed of a trace that is written.
fn printed_trace(alloc: Global, trace: &Trace) -> Result<Printed, Ended>
    requires { IsTraceOver greatest trace.now }
    ensures printed { IfOk result (λ p. Prints p.text.items p.outcome ≡ replay trace.now) }
    ensures memory { IfErr result (λ ended. ended ≡ Ended.Memory) }
{
    let text = write_trace(alloc, trace)?;
    Ok(Printed {
        text,
        outcome: Outcome::Done,
    })
}

/// The trace of the texts that have this trace or first fault, written, or their first fault.
pub(crate) fn replayed(alloc: Global, read: Result<Trace, ReadFault>) -> Result<Printed, Ended>
    requires { IfOk read (IsTraceOver greatest) }
    ensures { IsAnsweredBy (IsPlainAnswer replay) read result }
{
    let trace = trace_or_line(alloc, read)?;
    let answer = printed_trace(alloc, &trace);
    drop(trace);
    answer
}
