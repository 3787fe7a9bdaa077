//! The search for cycles: the first ones of a query, on one thread or on several.
ghost use Rattle.std.specs.Prelude.{◌≡◌, IfOk};
ghost use Rattle.gl_segments.specs.Clocks.{is_before};
ghost use Rattle.gl_cycles.specs.Listed.{listed_cycles};

use crate::found::Found;
use crate::stages::{first_cycles, first_cycles_parallel};
use gl_edges::EdgeList;
use gl_event::Memory;
use gl_filters::Query;
use gl_pruning::Sought;
use gl_segments::Order;
use std::alloc::Global;
use std::thread::Threads;

/// The first cycles of a query over these edges, in the order of their edges, and whether there are
/// more. Each edge in turn is the first of paths, which grow by every edge that may follow. The search
/// ends where one cycle more than are listed was found.
///
/// Edges that are in no cycle are left out, in the order of [gl_pruning]: before the search those that
/// [a few look-ups for each edge](gl_pruning::kept_at_first) show, others
/// [for one reason after the other](gl_pruning::leave_out_in_turn) and only where the search takes
/// long. It then goes on at the edge where it stood, with more steps to take, and so on in turn.
///
/// To leave out others takes no more steps than some for each that the search took before, but in the last
/// round as many as each reason takes at most. There may be as many paths as the edges that stay to the
/// power of the greatest length of a cycle less one. That length is the query's, or
/// [how many edges a cycle can have](gl_pruning::shortened), where that is less.
///
/// Err where memory was refused.
pub fn search(
    alloc: Global,
    edges: &EdgeList,
    order: &Order,
    query: &Query,
) -> Result<Found, Memory>
    ensures { IfOk result
        (λ found. found ≡ listed_cycles query.now (is_before order.now) edges.now) }
{
    let sought = Sought::of(edges, order, query);
    let max = query.max() as usize;
    let cycles = first_cycles(alloc, &sought, max + 1)?;
    Ok(Found::listed(cycles, max))
}

/// The same as [`search`], on several threads. The steps that a search takes before more edges are left
/// out are taken in one thread, behind the first some millions at a time at most, and so is what leaves them out with as much
/// effort. The last time edges
/// are dealt out to parts, each of which leaves out some of its own. Then each edge from the one on where the search stands is
/// the first of paths, and the edges are dealt out in runs: the first few to one thread, and then each
/// time as many as were dealt out before, in pieces of one length. The search ends after the run in
/// which one cycle more than are listed was found. Each run goes to its end, so that what is found and
/// in which order doesn't depend on the threads.
///
/// Err where memory was refused.
pub fn search_parallel(
    rt: &(impl Threads + Sync),
    alloc: Global,
    edges: &EdgeList,
    order: &Order,
    query: &Query,
) -> Result<Found, Memory>
    ensures { IfOk result
        (λ found. found ≡ listed_cycles query.now (is_before order.now) edges.now) }
{
    let sought = Sought::of(edges, order, query);
    let max = query.max() as usize;
    let cycles = first_cycles_parallel(rt, alloc, &sought, max + 1)?;
    Ok(Found::listed(cycles, max))
}
