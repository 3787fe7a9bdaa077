//! Reports over edges, by the order of lists.
ghost use Rattle.std.specs.Prelude.{IfOk, IfErr};
ghost use Rattle.gl_event.specs.Bounds.{greatest};
ghost use Rattle.gl_event.specs.Lawful.{AreLawful, lists_of};
ghost use Rattle.gl_event.specs.declared.events.Event.{Event};
ghost use Rattle.gl_findings.specs.Reports.{IsReportWith};
ghost use Rattle.gl_live.specs.Faults.{IsLiveFault};

use crate::faults::{LiveFault, unordered};
use gl_cycles::Report;
use gl_edges::EdgeList;
use gl_event::Event;
use gl_filters::Query;
use gl_findings::{Contents, report_with_parallel};
use gl_segments::Order;
use std::alloc::Global;
use std::thread::Threads;

/// The report over these edges, by the order of the segments of these lists, with these contents. Whichever
/// edges they are, they keep their order. The search is on several threads, which changes nothing of the
/// report.
///
/// Err where a segment of the lists is before itself, and where memory was refused.
pub fn report_with_contents(
    rt: &(impl Threads + Sync),
    alloc: Global,
    contents: Contents,
    edges: EdgeList,
    lists: &[Vec<Event>],
    query: &Query,
) -> Result<Report, LiveFault>
    requires lawful { AreLawful greatest (lists_of lists.now) }
    ensures report { IfOk result
        (λ report. IsReportWith contents query.now edges (lists_of lists.now) report) }
    ensures fault { IfErr result (IsLiveFault (lists_of lists.now)) }
{
    let order = match Order::of(alloc, lists) {
        Ok(order) => order,
        Err(fault) => return Err(unordered(fault)),
    };
    let Ok(report) = report_with_parallel(rt, alloc, contents, edges, &order, query) else {
        return Err(LiveFault::Memory);
    };
    Ok(report)
}
