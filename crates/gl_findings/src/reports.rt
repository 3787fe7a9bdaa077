//! Reports that list cycles or findings.
ghost use Rattle.std.specs.Prelude.{◌≡◌, IfOk, IfErr};
ghost use Rattle.gl_event.specs.Bounds.{greatest};
ghost use Rattle.gl_event.specs.Lawful.{AreLawful, lists_of};
ghost use Rattle.gl_segments.specs.Clocks.{is_before};
ghost use Rattle.gl_edges.specs.Edges.{edges};
ghost use Rattle.gl_cycles.specs.Reports.{IsReportFault};
ghost use Rattle.gl_findings.specs.Reports.{report_with, untrimmed, IsReportOf, IsReportWith};
ghost use Rattle.gl_findings.specs.declared.listing.Contents.TheVariants as only;

use crate::listing::{Contents, Listing};
use crate::search::{findings, findings_parallel};
use gl_cycles::{
    Found, Report, ReportFault, no_report, report_by, report_by_parallel, search, search_parallel,
};
use gl_edges::{EdgeList, edges_of};
use gl_event::{Event, Memory};
use gl_filters::Query;
use gl_segments::Order;
use std::alloc::Global;
use std::thread::Threads;

// The report of what was found, without a trim order.
fn untrimmed(edges: EdgeList, query: &Query, found: Found) -> Report
    ensures { result ≡ untrimmed query.now edges found }
{
    Report {
        query: *query,
        edges,
        found,
        trim: None,
    }
}

/// The report over these edges, by this order of segments: the first cycles that are asked for, or the first
/// findings, each shown by a cycle; whether there are more; and the order in which trimming takes away all
/// edges, where the contents have it and it does.
///
/// Err where memory was refused.
pub fn report_with(
    alloc: Global,
    contents: Contents,
    edges: EdgeList,
    order: &Order,
    query: &Query,
) -> Result<Report, Memory>
    ensures { IfOk result
        (λ report. report ≡ report_with contents query.now (is_before order.now) edges) }
{
    match contents {
        Contents::Cycles => {
            let found = search(alloc, &edges, order, query)?;
            Ok(untrimmed(edges, query, found))
        }
        Contents::CyclesAndTrim => report_by(alloc, edges, order, query),
        Contents::Findings => {
            let found = findings(alloc, &edges, order, query)?;
            Ok(untrimmed(edges, query, found))
        }
    }
}

/// The same as [`report_with`], with the search on several threads.
///
/// Err where memory was refused.
pub fn report_with_parallel(
    rt: &(impl Threads + Sync),
    alloc: Global,
    contents: Contents,
    edges: EdgeList,
    order: &Order,
    query: &Query,
) -> Result<Report, Memory>
    ensures { IfOk result
        (λ report. report ≡ report_with contents query.now (is_before order.now) edges) }
{
    match contents {
        Contents::Cycles => {
            let found = search_parallel(rt, alloc, &edges, order, query)?;
            Ok(untrimmed(edges, query, found))
        }
        Contents::CyclesAndTrim => report_by_parallel(rt, alloc, edges, order, query),
        Contents::Findings => {
            let found = findings_parallel(rt, alloc, &edges, order, query)?;
            Ok(untrimmed(edges, query, found))
        }
    }
}

// The report of these lists that lists findings.
fn findings_of_lists(
    alloc: Global,
    lists: &[Vec<Event>],
    query: &Query,
) -> Result<Report, ReportFault>
    requires lawful { AreLawful greatest (lists_of lists.now) }
    ensures report { IfOk result
        (λ report. IsReportWith only.Findings query.now (edges (lists_of lists.now))
        (lists_of lists.now) report) }
    ensures fault { IfErr result (λ fault. IsReportFault (lists_of lists.now) fault) }
{
    let edges = edges_of(alloc, lists)?;
    let order = match Order::of(alloc, lists) {
        Ok(order) => order,
        Err(fault) => return Err(no_report(fault)),
    };
    Ok(report_with(alloc, Contents::Findings, edges, &order, query)?)
}

/// The report of these lists that lists cycles, their Goodlock report (Havelund 2000; Bensalem and Havelund 2005), or
/// the one that lists findings; made on the calling thread, over the edges which it finds in them. A thread's
/// number is the position of its list. That of cycles has a trim order, where trimming takes away all edges.
///
/// Err where a segment of the lists is before itself, with the least such one and a ring through it,
/// and where memory was refused.
pub fn report_of_lists(
    alloc: Global,
    listing: Listing,
    lists: &[Vec<Event>],
    query: &Query,
) -> Result<Report, ReportFault>
    requires lawful { AreLawful greatest (lists_of lists.now) }
    ensures report { IfOk result
        (λ report. IsReportOf listing query.now (lists_of lists.now) report) }
    ensures fault { IfErr result (λ fault. IsReportFault (lists_of lists.now) fault) }
{
    match listing {
        Listing::Cycles => gl_cycles::report_of_lists(alloc, lists, query),
        Listing::Findings => findings_of_lists(alloc, lists, query),
    }
}
