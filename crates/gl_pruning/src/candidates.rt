//! Which edges stay where a search leaves out all that it can.
ghost use Rattle.std.specs.Prelude.{[], IfOk};
ghost use Rattle.gl_segments.specs.Clocks.{is_before};
ghost use Rattle.gl_filters.specs.Picked.{edges_of_table};
ghost use Rattle.gl_loops.specs.Alone.{LeavesOutAlone};
ghost use Rattle.gl_sought.specs.OffCycles.{KeepsCycles};

use crate::parallel::kept_edges_parallel;
use crate::reasons::kept_edges;
use gl_edges::EdgeList;
use gl_event::Memory;
use gl_filters::Query;
use gl_segments::Order;
use gl_sought::Sought;
use std::alloc::Global;
use std::thread::Threads;

/// Which edges stay where a search leaves out all that it can: for each a flag. Each edge of a cycle of the
/// mode and of at most as many edges as are asked for has its flag, whether that cycle would be listed or
/// not. An edge in no such cycle has none, unless it takes too long to see that. It never does where of the
/// edges that hold the lock which it wants, or of those that want the lock which it holds, none has another
/// thread.
///
/// Err where memory was refused.
pub fn edges_sought(
    alloc: Global,
    edges: &EdgeList,
    order: &Order,
    query: &Query,
) -> Result<Vec<bool>, Memory>
    ensures kept { IfOk result
        (λ kept. KeepsCycles (is_before order.now) query.now.mode query.now.len
        (edges_of_table edges.now) kept.items) }
    ensures alone { IfOk result
        (λ kept. LeavesOutAlone (edges_of_table edges.now) [] kept.items) }
{
    kept_edges(&Sought::of(edges, order, query), alloc)
}

/// The same as [`edges_sought`], on several threads. Where it takes too long to see that an edge is in no
/// cycle, other edges may be left out.
///
/// Err where memory was refused.
pub fn edges_sought_parallel(
    rt: &(impl Threads + Sync),
    alloc: Global,
    edges: &EdgeList,
    order: &Order,
    query: &Query,
) -> Result<Vec<bool>, Memory>
    ensures kept { IfOk result
        (λ kept. KeepsCycles (is_before order.now) query.now.mode query.now.len
        (edges_of_table edges.now) kept.items) }
    ensures alone { IfOk result
        (λ kept. LeavesOutAlone (edges_of_table edges.now) [] kept.items) }
{
    kept_edges_parallel(rt, alloc, &Sought::of(edges, order, query))
}
