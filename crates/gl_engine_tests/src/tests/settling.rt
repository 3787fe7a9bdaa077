//! Whole sessions: recorded, run, settled and reported.
mod alone;

use crate::closing::Why;
use crate::sessions::{Session, receipt_of, session_of};
use gl_cycles::{Report, ReportFault};
use gl_engine::Settled;
use gl_filters::{Mode, Query};
use gl_shards::Table;
use gl_worked::ops::Op::{self, Acq};
use std::alloc::Global;
use std::process::Abort;
use std::sync::Wait;
use std::thread::Threads;

// What is done with a session.
#[derive(Clone, Copy)]
enum Step {
    // its last receipt is put aside
    PutAside,
    // it takes the receipts that were put aside, and puts aside those that it had
    Exchange,
    // it takes a receipt of another session as the last one
    AddForeign,
    // its last receipt is dropped
    DropLast,
    // it isn't settled, and handed back as it was
    Refused(Why),
}

// What comes of it then.
#[derive(Clone, Copy)]
enum End {
    // it isn't settled
    Refused(Why),
    // it is settled, with so many edges and cycles
    Settled(usize, usize),
}

// A session whose threads record these lists, what is done with it, and what comes of it.
#[derive(Clone, Copy)]
struct Case {
    name: &'static str,
    lists: &'static [&'static [Op]],
    workers: Workers,
    steps: &'static [Step],
    end: End,
}

#[derive(Clone, Copy)]
enum Workers {
    // so many
    There(u32),
    // one, whose end of the feed was dropped before the run
    Gone,
}

// A thread without events.
const NOTHING: &[&[Op]] = &[&[]];

// A thread that takes one lock and then another.
const TWO_LOCKS: &[&[Op]] = &[&[Acq(0, 1), Acq(1, 2)]];

// Two threads that take two locks in opposite orders.
const OPPOSITE: &[&[Op]] = &[&[Acq(0, 1), Acq(1, 2)], &[Acq(1, 3), Acq(0, 4)]];

const CASES: &[Case] = &[
    // A receipt of another session, in the place of its own, is strange.
    Case {
        name: "foreign_receipt",
        lists: NOTHING,
        workers: Workers::There(1),
        steps: &[Step::PutAside, Step::AddForeign],
        end: End::Refused(Why::Strange(0)),
    },
    // A session without an event, settled with no receipt, and with its own.
    Case {
        name: "settle_receipts",
        lists: NOTHING,
        workers: Workers::There(1),
        steps: &[
            Step::PutAside,
            Step::Refused(Why::Missing(0)),
            Step::Exchange,
        ],
        end: End::Settled(0, 0),
    },
    // A report has the edges of the table that it is given.
    Case {
        name: "empty_table",
        lists: TWO_LOCKS,
        workers: Workers::There(1),
        steps: &[],
        end: End::Settled(1, 0),
    },
    // The worker's end was dropped before the run: that is answered where the receipt is there, and else
    // that it is missing.
    Case {
        name: "inlet_dropped",
        lists: TWO_LOCKS,
        workers: Workers::Gone,
        steps: &[
            Step::PutAside,
            Step::Refused(Why::Missing(0)),
            Step::Exchange,
        ],
        end: End::Refused(Why::Gone(0)),
    },
    // A report has the edges of the tables that it is given: over those of both workers the edges of both
    // threads, and their cycle.
    Case {
        name: "empty_tables",
        lists: OPPOSITE,
        workers: Workers::There(2),
        steps: &[],
        end: End::Settled(2, 1),
    },
    // The second thread's receipt alone, then the first one's and one of another session, then both of the
    // session, the second thread's first.
    Case {
        name: "receipts_in_any_order",
        lists: OPPOSITE,
        workers: Workers::There(1),
        steps: &[
            Step::PutAside,
            Step::Exchange,
            Step::Refused(Why::Missing(0)),
            Step::Exchange,
            Step::AddForeign,
            Step::Refused(Why::Strange(1)),
            Step::DropLast,
            Step::PutAside,
            Step::Exchange,
        ],
        end: End::Settled(2, 1),
    },
    // The second thread's receipt alone: it is the first thread's that is missing.
    Case {
        name: "first_thread_missing",
        lists: OPPOSITE,
        workers: Workers::There(1),
        steps: &[Step::PutAside, Step::Exchange],
        end: End::Refused(Why::Missing(0)),
    },
];

// The session, of number 7.
fn made<R: Wait>(rt: &R, alloc: Global, case: &Case) -> Option<Session> {
    match case.workers {
        Workers::There(workers) => session_of(rt, alloc, 7, case.lists, workers, true),
        Workers::Gone => session_of(rt, alloc, 7, case.lists, 1, false),
    }
}

// The session as it was, where it isn't settled for this reason.
fn handed_back(session: Session, wanted: Why) -> Option<Session> {
    let (why, back) = session.refused()?;
    if why == wanted { back } else { None }
}

// The session after the step.
fn stepped(session: Session, alloc: Global, step: Step) -> Option<Session> {
    match step {
        Step::PutAside => session.put_aside(),
        Step::Exchange => Some(session.exchanged()),
        Step::AddForeign => session.with_foreign(receipt_of(alloc, 8)?),
        Step::DropLast => Some(session.without_last()),
        Step::Refused(why) => handed_back(session, why),
    }
}

fn stepped_through(session: Session, alloc: Global, steps: &[Step]) -> Option<Session> {
    let mut session = session;
    for step in steps {
        session = stepped(session, alloc, *step)?;
    }
    Some(session)
}

// How many edges and cycles are in the report. None where there are more cycles.
fn counts_in(report: Result<Report, ReportFault>) -> Option<(usize, usize)> {
    match report {
        Ok(report) => edges_and_cycles(&report),
        Err(_) => None,
    }
}

fn edges_and_cycles(report: &Report) -> Option<(usize, usize)> {
    if report.found.more {
        None
    } else {
        Some((
            report.edges.entries().len(),
            report.found.cycles.as_slice().len(),
        ))
    }
}

// How many edges and cycles are reported over these tables. None where there are more cycles.
fn counts_over<R: Threads + Sync>(
    rt: &R,
    settled: &Settled,
    tables: Vec<Table>,
) -> Option<(usize, usize)> {
    match Query::new(Mode::Full, 4, 1_000) {
        Ok(query) => counts_in(settled.report(rt, tables, &query)),
        Err(_) => None,
    }
}

// So many tables without edges.
fn without_edges(alloc: Global, count: usize) -> Option<Vec<Table>> {
    let mut tables = Vec::new(alloc);
    for _ in 0..count {
        tables.push(Table::new(alloc)).ok()?;
    }
    Some(tables)
}

// How many edges the tables have in all.
fn edges_in(tables: &[Table]) -> usize {
    let mut count: usize = 0;
    for table in tables {
        count = count.saturating_add(table.len());
    }
    count
}

// Whether a report has the edges of the tables that it is given, and no others: so many and so many cycles of those
// that were settled, and none of tables without edges.
fn reports<R: Threads + Sync>(
    rt: &R,
    alloc: Global,
    settled: &Settled,
    tables: Vec<Table>,
    counts: (usize, usize),
) -> bool {
    let Some(none) = without_edges(alloc, tables.len()) else {
        return false;
    };
    counts_over(rt, settled, none) == Some((0, 0))
        && counts_over(rt, settled, tables) == Some(counts)
}

// Whether it is settled: a list for each thread, a table for each worker, and so many edges and cycles.
fn is_settled<R: Threads + Wait + Sync>(
    rt: &R,
    alloc: Global,
    session: Session,
    case: &Case,
    counts: (usize, usize),
) -> bool {
    let Some((settled, tables)) = session.settled(rt, alloc) else {
        return false;
    };
    settled.lists().len() == case.lists.len()
        && is_count(case.workers, tables.len())
        && edges_in(&tables) == counts.0
        && reports(rt, alloc, &settled, tables, counts)
}

// Whether these are so many workers.
fn is_count(workers: Workers, count: usize) -> bool {
    match workers {
        Workers::There(wanted) => count == wanted as usize,
        Workers::Gone => false,
    }
}

// Whether it isn't settled for this reason.
fn is_refused(session: Session, wanted: Why) -> bool {
    match session.refused() {
        Some((why, _)) => why == wanted,
        None => false,
    }
}

// Whether this comes of the session.
fn ends<R: Threads + Wait + Sync>(rt: &R, alloc: Global, session: Session, case: &Case) -> bool {
    match case.end {
        End::Refused(why) => is_refused(session, why),
        End::Settled(edges, cycles) => is_settled(rt, alloc, session, case, (edges, cycles)),
    }
}

fn expect<R: Abort + AllocGlobal + Threads + Wait + Sync>(rt: &R, case: &Case) {
    let session = made(rt, rt.alloc(), case).expect(rt, case.name);
    let session = stepped_through(session, rt.alloc(), case.steps).expect(rt, case.name);
    assert!(rt; ends(rt, rt.alloc(), session, case), "{}", case.name);
}

#[test]
fn sessions_settled(rt: HostRuntime) {
    for case in CASES {
        expect(&rt, case);
    }
}
