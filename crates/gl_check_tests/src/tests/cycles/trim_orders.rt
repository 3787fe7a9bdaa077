//! The trim order of a report, where it is whole.
use gl_cycles::{Report, report_by};
use gl_filters::{Mode, Query};
use gl_worked::known::known_in;
use gl_worked::ops::Op::{self, Acq, Rel};
use std::alloc::Global;

// Three threads, each of which takes two of three locks, round.
const RING: &[&[Op]] = &[
    &[Acq(0, 1), Acq(1, 2)],
    &[Acq(1, 3), Acq(2, 4)],
    &[Acq(2, 5), Acq(0, 6)],
];

// Lists, the most edges of a cycle, and the whole trim order of their report, or none.
const CASES: &[(&str, &[&[Op]], u32, Option<&[usize]>)] = &[
    // Of two edges after each other in one thread first the one goes and then the other.
    (
        "trim_order",
        &[&[Acq(0, 1), Acq(1, 2), Rel(0, 3), Acq(2, 4)]],
        4,
        Some(&[0, 1]),
    ),
    // Where there are no edges there are none to go.
    ("empty_report", &[], 4, Some(&[])),
    // The edges of a cycle stay, be it listed or too long for that.
    ("cycle_stays", RING, 3, None),
    ("cycle_stays, too long", RING, 2, None),
];

// The report of these lists' cycles of at most so many edges.
fn report_of(alloc: Global, lists: &[&[Op]], len: u32) -> Option<Report> {
    let query = Query::new(Mode::Full, len, 1_000).ok()?;
    let known = known_in(alloc, lists)?;
    report_by(alloc, known.edges, &known.order, &query).ok()
}

// Whether the report has this whole trim order, or none.
fn has_trim(report: &Report, wanted: Option<&[usize]>) -> bool {
    match (&report.trim, wanted) {
        (Some(trim), Some(wanted)) => trim.as_slice() == wanted,
        (None, None) => true,
        _ => false,
    }
}

// Whether the lists' report is there, and has it.
fn is_reported(alloc: Global, lists: &[&[Op]], len: u32, wanted: Option<&[usize]>) -> bool {
    match report_of(alloc, lists, len) {
        Some(report) => has_trim(&report, wanted),
        None => false,
    }
}

#[test]
fn trim_orders(rt: HostRuntime) {
    for (name, lists, len, wanted) in CASES {
        assert!(rt; is_reported(rt.alloc(), lists, *len, *wanted), "{name}");
    }
}
