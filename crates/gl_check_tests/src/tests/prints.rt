//! What is printed of reports, with edges and cycles as they are found in the texts that give the names.
ghost use Rattle.std.specs.Prelude.{IsTrue};
ghost use Rattle.gl_edges.specs.Order.{IsAboveLast};
ghost use Rattle.gl_event.specs.Bounds.{greatest};
ghost use Rattle.gl_std.specs.Trace.{IsTraceOver};

use crate::format_1::json_if_exclusive;
use crate::traces::trace_of;
use gl_cycles::{Cycles, Found, Report, TrimOrder};
use gl_edges::{Edge, EdgeList, Guard, Guards, Sample};
use gl_event::{LocId, LockId, LockMode, ThreadId};
use gl_filters::{Mode, Query};
use gl_report::{Stats, findings_json_text, findings_text, json_text, stats_text, text};
use gl_std::{Names, Trace};
use std::alloc::Global;
use std::cmp::Ordering;
use std::process::Abort;

mod escapes;
mod reports;

// An edge, as constants tell it: how its lock is held; the thread, the held and the wanted lock; the place of the
// second acquire, and the locations of both.
#[derive(Clone, Copy)]
struct Told(LockMode, [u32; 3], [u32; 3]);

// What is printed of a report.
#[derive(Clone, Copy)]
enum Print {
    Text(&'static [u8]),
    Json(&'static [u8]),
    // JSON of format 1
    Format1(&'static [u8]),
    // the counts of the trace and of the report
    Counts(&'static [u8]),
    // findings in place of cycles
    FindingsText(&'static [u8]),
    FindingsJson(&'static [u8]),
}

// The lines that give the names, a report of these edges and these cycles, whether there are more, with this trim
// order, and what is printed of it.
#[derive(Clone, Copy)]
struct Case {
    name: &'static str,
    lines: &'static [u8],
    edges: &'static [Told],
    cycles: &'static [&'static [usize]],
    more: bool,
    trim: Option<&'static [usize]>,
    prints: &'static [Print],
}

fn edge_of(alloc: Global, told: &Told) -> Option<Edge> {
    let Told(mode, [thread, held, wanted], _) = *told;
    let lock = LockId::new(held);
    Some(Edge {
        thread: ThreadId::new(thread),
        held: lock,
        held_mode: mode,
        wanted: LockId::new(wanted),
        wanted_mode: LockMode::Exclusive,
        first: 0,
        second: 0,
        guards: Guards::new(vec![in alloc; Guard { lock, mode }].ok()?),
    })
}

fn sample_of(told: &Told) -> Sample {
    Sample {
        place: told.2[0],
        held_loc: LocId::new(told.2[1]),
        wanted_loc: LocId::new(told.2[2]),
    }
}

// Whether the edge is above the last one.
fn is_above(pairs: &[(Edge, Sample)], edge: &Edge) -> bool
    ensures { IsTrue result → IsAboveLast pairs.now edge.now }
{
    match pairs.last() {
        Some(pair) => pair.0.cmp(edge) == Ordering::Less,
        None => true,
    }
}

// Appends the edge. Whether it is above the last one, and there was memory for it.
fn add(list: &mut EdgeList, edge: Edge, sample: Sample) -> bool {
    is_above(list.entries(), &edge) && list.push(edge, sample).is_ok()
}

fn edges_of(alloc: Global, rows: &[Told]) -> Option<EdgeList> {
    let mut edges = EdgeList::new(alloc);
    for row in rows {
        if !add(&mut edges, edge_of(alloc, row)?, sample_of(row)) {
            return None;
        }
    }
    Some(edges)
}

fn cycles_of(alloc: Global, lists: &[&[usize]]) -> Option<Cycles> {
    let mut cycles = Vec::new(alloc);
    for list in lists {
        cycles.push(Vec::from_slice(alloc, *list).ok()?).ok()?;
    }
    Some(Cycles::from_vec(cycles))
}

fn trim_of(alloc: Global, positions: &[usize]) -> Option<TrimOrder> {
    Some(TrimOrder::from_vec(Vec::from_slice(alloc, positions).ok()?))
}

fn report_of(alloc: Global, case: &Case) -> Option<Report> {
    let trim = match case.trim {
        Some(positions) => Some(trim_of(alloc, positions)?),
        None => None,
    };
    Some(Report {
        query: Query::new(Mode::Full, 4, 1_000).ok()?,
        edges: edges_of(alloc, case.edges)?,
        found: Found {
            cycles: cycles_of(alloc, case.cycles)?,
            more: case.more,
        },
        trim,
    })
}

// Whether this is printed.
fn is_text(printed: Option<Vec<u8>>, wanted: &[u8]) -> bool {
    match printed {
        Some(text) => text.as_slice() == wanted,
        None => false,
    }
}

// What is printed, of which nothing is told; so it is with the next ones.
fn cycles_text(alloc: Global, names: &Names, report: &Report) -> Option<Vec<u8>> {
    text(alloc, names, report).ok()
}

fn cycles_json(alloc: Global, names: &Names, report: &Report) -> Option<Vec<u8>> {
    json_text(alloc, names, report).ok()
}

fn cycles_json_1(alloc: Global, names: &Names, report: &Report) -> Option<Vec<u8>> {
    match json_if_exclusive(alloc, names, report) {
        Ok(text) => text,
        Err(_) => None,
    }
}

fn text_of_findings(alloc: Global, names: &Names, report: &Report) -> Option<Vec<u8>> {
    findings_text(alloc, names, &report.edges, &report.found).ok()
}

fn json_of_findings(alloc: Global, names: &Names, report: &Report) -> Option<Vec<u8>> {
    findings_json_text(alloc, names, &report.query, &report.edges, &report.found).ok()
}

fn counts(alloc: Global, trace: &Trace, report: &Report) -> Option<Vec<u8>>
    requires { IsTraceOver greatest trace.now }
{
    stats_text(alloc, &Stats::of(trace, report)).ok()
}

// Whether it is printed so.
fn is_printed(alloc: Global, trace: &Trace, report: &Report, print: Print) -> bool
    requires { IsTraceOver greatest trace.now }
{
    let names = &trace.names;
    match print {
        Print::Text(wanted) => is_text(cycles_text(alloc, names, report), wanted),
        Print::Json(wanted) => is_text(cycles_json(alloc, names, report), wanted),
        Print::Format1(wanted) => is_text(cycles_json_1(alloc, names, report), wanted),
        Print::Counts(wanted) => is_text(counts(alloc, trace, report), wanted),
        Print::FindingsText(wanted) => is_text(text_of_findings(alloc, names, report), wanted),
        Print::FindingsJson(wanted) => is_text(json_of_findings(alloc, names, report), wanted),
    }
}

// The same, where the lines have no fault and the edges ascend.
fn is_right(alloc: Global, case: &Case, print: Print) -> bool {
    match (trace_of(alloc, case.lines), report_of(alloc, case)) {
        (Some(trace), Some(report)) => is_printed(alloc, &trace, &report, print),
        _ => false,
    }
}

// Each is printed as it is wanted.
fn expect(rt: &impl Abort, alloc: Global, case: &Case) {
    for (at, print) in case.prints.iter().enumerate() {
        assert!(rt; is_right(alloc, case, *print), "{}: {at}", case.name);
    }
}

fn expect_all(rt: &impl Abort, alloc: Global, cases: &[Case]) {
    for case in cases {
        expect(rt, alloc, case);
    }
}
