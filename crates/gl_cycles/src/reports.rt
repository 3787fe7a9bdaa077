//! Reports over edges.
ghost use Rattle.std.specs.Prelude.{◌≡◌, List, Some, None, IfOk, IfErr};
ghost use Rattle.gl_event.specs.Bounds.{greatest};
ghost use Rattle.gl_event.specs.Lawful.{AreLawful, lists_of};
ghost use Rattle.gl_event.specs.declared.events.Event.{Event};
ghost use Rattle.gl_segments.specs.Clocks.{is_before};
ghost use Rattle.gl_segments.specs.Orders.{IsFaultOf};
ghost use Rattle.gl_filters.specs.Picked.{edges_of_table};
ghost use Rattle.gl_cycles.specs.Listed.{listed_cycles};
ghost use Rattle.gl_cycles.specs.Reports.{IsGoodlockReport, IsReport, IsReportFault, report_by, report_fault_of};
ghost use Rattle.gl_trims.specs.Trims.{whole_trim};

use crate::found::{Found, Report, ReportFault, TrimOrder};
use crate::searches::{search, search_parallel};
use gl_edges::{EdgeList, edges_of};
use gl_event::{Event, Memory};
use gl_filters::Query;
use gl_segments::{Order, OrderFault};
use gl_trims::trim;
use std::alloc::Global;
use std::thread::Threads;

/// Why there is no report where the segments have no order.
pub fn no_report(fault: OrderFault) -> ReportFault
    ensures same { result ≡ report_fault_of fault }
    ensures fault { (lists : List (List Event)) → IsFaultOf lists fault
        → IsReportFault lists result }
{
    match fault {
        OrderFault::Inconsistent { at, ring } => ReportFault::Inconsistent { at, ring },
        OrderFault::Memory => ReportFault::Memory,
    }
}

// The order in which trimming takes away all edges, where it does. Where a cycle was found it
// doesn't, since no edge of a cycle goes, and nothing is trimmed.
fn whole_trim(
    alloc: Global,
    edges: &EdgeList,
    order: &Order,
    query: &Query,
    found: &Found,
) -> Result<Option<TrimOrder>, Memory>
    requires { found.now ≡ listed_cycles query.now (is_before order.now) edges.now }
    ensures { IfOk result
        (λ trim. trim
        ≡ whole_trim (is_before order.now) query.now.mode (edges_of_table edges.now)) }
{
    if !found.cycles.as_slice().is_empty() {
        return Ok(None);
    }
    let trimmed = trim(alloc, edges, order, query.mode())?;
    if !trimmed.kept.is_empty() {
        return Ok(None);
    }
    Ok(Some(TrimOrder::from_vec(trimmed.removed)))
}

// The report of what was found.
fn report_found(
    alloc: Global,
    edges: EdgeList,
    order: &Order,
    query: &Query,
    found: Found,
) -> Result<Report, Memory>
    requires { found ≡ listed_cycles query.now (is_before order.now) edges }
    ensures { IfOk result (λ report. report ≡ report_by query.now (is_before order.now) edges) }
{
    let trim = whole_trim(alloc, &edges, order, query, &found)?;
    Ok(Report {
        query: *query,
        edges,
        found,
        trim,
    })
}

/// The report over these edges, by this order of segments: the first cycles that are asked for,
/// whether there are more, and the order in which trimming takes away all edges, where it does.
///
/// Err where memory was refused.
pub fn report_by(
    alloc: Global,
    edges: EdgeList,
    order: &Order,
    query: &Query,
) -> Result<Report, Memory>
    ensures { IfOk result (λ report. report ≡ report_by query.now (is_before order.now) edges) }
{
    let found = search(alloc, &edges, order, query)?;
    report_found(alloc, edges, order, query, found)
}

/// The same as [`report_by`], with the search for cycles on several threads.
///
/// Err where memory was refused.
pub fn report_by_parallel(
    rt: &(impl Threads + Sync),
    alloc: Global,
    edges: EdgeList,
    order: &Order,
    query: &Query,
) -> Result<Report, Memory>
    ensures { IfOk result (λ report. report ≡ report_by query.now (is_before order.now) edges) }
{
    let found = search_parallel(rt, alloc, &edges, order, query)?;
    report_found(alloc, edges, order, query, found)
}

/// The report over these edges, by the order of the segments of these lists: the first cycles that
/// are asked for, whether there are more, and the order in which trimming takes away all edges, where
/// it does. A thread's number is the position of its list.
///
/// Whichever edges they are, they keep their order; over the edges of the lists themselves it is the
/// Goodlock report of the lists (Havelund 2000; Bensalem and Havelund 2005).
///
/// Err where a segment of the lists is before itself, with the least such one and a ring through it,
/// and where memory was refused.
pub fn report_over(
    alloc: Global,
    edges: EdgeList,
    lists: &[Vec<Event>],
    query: &Query,
) -> Result<Report, ReportFault>
    requires lawful { AreLawful greatest (lists_of lists.now) }
    ensures report { IfOk result (λ report. IsReport query.now edges (lists_of lists.now) report) }
    ensures fault { IfErr result (λ fault. IsReportFault (lists_of lists.now) fault) }
{
    let order = match Order::of(alloc, lists) {
        Ok(order) => order,
        Err(fault) => return Err(no_report(fault)),
    };
    Ok(report_by(alloc, edges, &order, query)?)
}

/// The same as [`report_over`], with the search for cycles on several threads.
///
/// Err where a segment of the lists is before itself, with the least such one and a ring through it,
/// and where memory was refused.
pub fn report_over_parallel(
    rt: &(impl Threads + Sync),
    alloc: Global,
    edges: EdgeList,
    lists: &[Vec<Event>],
    query: &Query,
) -> Result<Report, ReportFault>
    requires lawful { AreLawful greatest (lists_of lists.now) }
    ensures report { IfOk result (λ report. IsReport query.now edges (lists_of lists.now) report) }
    ensures fault { IfErr result (λ fault. IsReportFault (lists_of lists.now) fault) }
{
    let order = match Order::of(alloc, lists) {
        Ok(order) => order,
        Err(fault) => return Err(no_report(fault)),
    };
    Ok(report_by_parallel(rt, alloc, edges, &order, query)?)
}

/// The Goodlock report of these lists (Havelund 2000; Bensalem and Havelund 2005), made on the calling
/// thread: that over the edges which it finds in them.
///
/// Err where a segment of the lists is before itself, with the least such one and a ring through it,
/// and where memory was refused.
pub fn report_of_lists(
    alloc: Global,
    lists: &[Vec<Event>],
    query: &Query,
) -> Result<Report, ReportFault>
    requires lawful { AreLawful greatest (lists_of lists.now) }
    ensures report { IfOk result
        (λ report. IsGoodlockReport query.now (lists_of lists.now) report) }
    ensures fault { IfErr result (λ fault. IsReportFault (lists_of lists.now) fault) }
{
    let edges = edges_of(alloc, lists)?;
    report_over(alloc, edges, lists, query)
}
