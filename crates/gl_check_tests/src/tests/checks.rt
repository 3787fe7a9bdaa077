//! Reports that are accepted, or refused.
ghost use Rattle.gl_event.specs.Bounds.{greatest};
ghost use Rattle.gl_std.specs.Trace.{IsTraceOver};

use crate::traces::trace_of;
use findings::{Second, edges_with};
use gl_check::{CheckFault, Checked, check};
use gl_filters::Verdict;
use gl_findings::Listing;
use gl_std::Trace;
use gl_worked::texts::put;
use std::alloc::Global;
use std::process::Abort;

mod cycles;
mod findings;
mod tables;
mod words;

// A report, as constants tell it.
#[derive(Clone, Copy)]
enum Json {
    // this text
    Told(&'static [u8]),
    // one of format 2 with these cycles, edges, greatest length and trim order
    Table(&'static [u8], &'static [&'static [u8]], &'static [u8], &'static [u8]),
    // one of format 3 of five threads, with this second edge, this member beside the edges, and these after it
    Findings(Second, &'static [u8], &'static [u8]),
}

// What is answered of a report.
#[derive(Clone, Copy, PartialEq)]
enum Answer {
    // it lists so many cycles, or findings, and has no trim order
    Cycles(u32),
    Findings(u32),
    // it lists so many cycles and has a trim order
    Acyclic(u32),
    // it lists findings and has a trim order
    TrimmedFindings,
    Json,
    Shape,
    Table(usize),
    Edge(usize, usize),
    // this cycle is none, from this place on: it isn't closed there, or begins with another thread than its least
    NotClosed(usize, usize),
    NotLeast(usize, usize),
    // it is none for another reason
    NoCycle(usize),
    Order(usize),
    Trim(usize),
    // the least segment that is before itself, by its thread and index, and how many are in the ring
    Inconsistent(u32, u32, usize),
    Memory,
}

// The lines of a trace, a report of it, and what is answered.
#[derive(Clone, Copy)]
struct Case {
    name: &'static str,
    lines: &'static [u8],
    json: Json,
    answer: Answer,
}

// Puts the edges at the end of the text, with commas between them. None where there was no memory; so it is with the next one.
fn put_edges(text: &mut Vec<u8>, edges: &[&[u8]]) -> Option<()> {
    for (at, edge) in edges.iter().enumerate() {
        let comma: &[u8] = if at > 0 { b"," } else { b"" };
        put(text, &[comma, *edge])?;
    }
    Some(())
}

fn put_json(text: &mut Vec<u8>, json: Json) -> Option<()> {
    match json {
        Json::Told(told) => put(text, &[told]),
        Json::Table(cycles, edges, len, trim) => {
            let max = b",\"max\":1000,\"mode\":\"full\",\"more\":false,\"trim\":";
            put(text, &[b"{\"cycles\":", cycles, b",\"edges\":["])?;
            put_edges(text, edges)?;
            put(text, &[b"],\"format\":2,\"len\":", len, max, trim, b"}"])
        }
        Json::Findings(second, listed, last) => {
            put(text, &[b"{\"edges\":["])?;
            put_edges(text, &edges_with(second))?;
            put(text, &[b"],", listed, last, b"}"])
        }
    }
}

fn made(alloc: Global, json: Json) -> Option<Vec<u8>> {
    let mut text = Vec::new(alloc);
    put_json(&mut text, json)?;
    Some(text)
}

fn accepted(checked: &Checked) -> Answer {
    match (checked.listing, checked.acyclic) {
        (Listing::Cycles, false) => Answer::Cycles(checked.cycles),
        (Listing::Cycles, true) => Answer::Acyclic(checked.cycles),
        (Listing::Findings, false) => Answer::Findings(checked.cycles),
        (Listing::Findings, true) => Answer::TrimmedFindings,
    }
}

fn verdict_on(cycle: usize, verdict: &Verdict) -> Answer {
    match verdict {
        Verdict::NotClosed(place) => Answer::NotClosed(cycle, *place),
        Verdict::NotLeast(place) => Answer::NotLeast(cycle, *place),
        _ => Answer::NoCycle(cycle),
    }
}

fn refused(fault: &CheckFault) -> Answer {
    match fault {
        CheckFault::Json => Answer::Json,
        CheckFault::Shape => Answer::Shape,
        CheckFault::Inconsistent { at, ring } => {
            Answer::Inconsistent(at.thread.number(), at.index, ring.len())
        }
        CheckFault::Table(entry) => Answer::Table(*entry),
        CheckFault::Edge(cycle, edge) => Answer::Edge(*cycle, *edge),
        CheckFault::Verdict(cycle, verdict) => verdict_on(*cycle, verdict),
        CheckFault::Order(cycle) => Answer::Order(*cycle),
        CheckFault::Trim(entry) => Answer::Trim(*entry),
        CheckFault::Memory => Answer::Memory,
    }
}

// Checks the report. Nothing is told of it, so that little is known where the answer is looked at.
fn check_report(alloc: Global, trace: &Trace, json: &[u8]) -> Result<Checked, CheckFault>
    requires { IsTraceOver greatest trace.now }
{
    check(alloc, trace, json)
}

fn answer_of(alloc: Global, trace: &Trace, json: &[u8]) -> Answer
    requires { IsTraceOver greatest trace.now }
{
    match check_report(alloc, trace, json) {
        Ok(checked) => accepted(&checked),
        Err(fault) => refused(&fault),
    }
}

// Whether it is answered so.
fn is_answered(alloc: Global, case: &Case) -> bool {
    match (trace_of(alloc, case.lines), made(alloc, case.json)) {
        (Some(trace), Some(json)) => answer_of(alloc, &trace, json.as_slice()) == case.answer,
        _ => false,
    }
}

// Each report is answered as it is wanted.
fn expect_all(rt: &impl Abort, alloc: Global, cases: &[Case]) {
    for case in cases {
        assert!(rt; is_answered(alloc, case), "{}", case.name);
    }
}
