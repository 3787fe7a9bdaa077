//! Reports over given edges.
use super::asks::shows;
use gl_cycles::{Report, ReportFault, report_over};
use gl_edges::EdgeList;
use gl_event::{Event, ThreadId};
use gl_filters::{Mode, Query};
use gl_worked::known::lawful_edges;
use gl_worked::lawful::are_lawful;
use gl_worked::ops::Op::{self, Acq, Join};
use gl_worked::ops::lists_of;
use std::alloc::Global;

// Two threads that take two locks in opposite orders.
const OPPOSITE: &[&[Op]] = &[&[Acq(0, 1), Acq(1, 2)], &[Acq(1, 5), Acq(0, 6)]];

// The report over these edges, or why there is none. None where the lists aren't lawful.
fn report_on(
    alloc: Global,
    edges: EdgeList,
    lists: &[Vec<Event>],
    query: &Query,
) -> Option<Result<Report, ReportFault>> {
    if are_lawful(lists) {
        return Some(report_over(alloc, edges, lists, query));
    }
    None
}

// The report over the lists' own edges.
fn own_report(alloc: Global, lists: &[Vec<Event>], query: &Query) -> Option<Report> {
    let edges = lawful_edges(alloc, lists)?;
    report_on(alloc, edges, lists, query)?.ok()
}

// Whether the answer is that the second segments of threads 0 and 1 wait for each other.
fn is_loop_of_joins(answer: &Result<Report, ReportFault>) -> bool {
    match answer {
        Err(ReportFault::Inconsistent { at, ring }) => {
            at.thread == ThreadId::new(0)
                && at.index == 1
                && ring.len() == 2
                && ring[1].thread == ThreadId::new(1)
                && ring[1].index == 1
        }
        _ => false,
    }
}

// The edges, the query and the cycle of the lists.
#[test]
fn report_over_own_edges(rt: HostRuntime) {
    let lists = lists_of(rt.alloc(), OPPOSITE).expect(&rt, "lists");
    let query = Query::new(Mode::Full, 3, 7).ok().expect(&rt, "a query");
    let report = own_report(rt.alloc(), &lists, &query).expect(&rt, "a report");
    assert!(rt; report.query == query);
    assert!(rt; report.edges.entries().len() == 2);
    assert!(rt; shows(&report.found, &[&[0, 1]], false));
}

// The report over no edges, by the least query.
fn report_of_none(alloc: Global, lists: &[&[Op]]) -> Option<Result<Report, ReportFault>> {
    let query = Query::new(Mode::Basic, 2, 1).ok()?;
    let lists = lists_of(alloc, lists)?;
    report_on(alloc, EdgeList::new(alloc), &lists, &query)
}

// Over no edges there is no cycle.
#[test]
fn report_over_no_edges(rt: HostRuntime) {
    let answer = report_of_none(rt.alloc(), OPPOSITE).expect(&rt, "lawful lists");
    let report = answer.ok().expect(&rt, "a report");
    assert!(rt; shows(&report.found, &[], false));
}

// Lists that wait for each other's end have no report at all.
#[test]
fn no_report_of_a_loop(rt: HostRuntime) {
    let lists: [&[Op]; 2] = [&[Join(1, 1)], &[Join(0, 2)]];
    let answer = report_of_none(rt.alloc(), &lists).expect(&rt, "lawful lists");
    assert!(rt; is_loop_of_joins(&answer));
}
