//! The search for findings.
ghost use Rattle.std.specs.Prelude.{◌≡◌, List, Bool, IfOk, IfSome};
ghost use Rattle.gl_event.specs.declared.events.Segment.{Segment};
ghost use Rattle.gl_edges.specs.declared.edge.Edge.{Edge};
ghost use Rattle.gl_edges.specs.declared.edge.Sample.{Sample};
ghost use Rattle.gl_segments.specs.Clocks.{is_before};
ghost use Rattle.gl_cycles.specs.Listed.{listed_cycles};
ghost use Rattle.gl_filters.specs.Picked.{edges_of_table};
ghost use Rattle.gl_grounds.specs.Classes.{classes_of};
ghost use Rattle.gl_findings.specs.Listed.{listed_findings};
ghost use Rattle.gl_findings.specs.bodies.Lengths.{AreLongest};
ghost use Rattle.gl_grounds.specs.Grounds.{AreGrounds};

use crate::finder::Finder;
use crate::grouped::{findings_of_cycles, findings_of_cycles_parallel};
use crate::lengths::longest_of;
use crate::parallel::first_findings;
use gl_cycles::{Found, edges_sought, edges_sought_parallel, first_steps, search, search_parallel};
use gl_edges::EdgeList;
use gl_event::Memory;
use gl_filters::Query;
use gl_grounds::Grounds;
use gl_pruning::{Sought, kept_at_first, limits_by_edge, shortened};
use gl_segments::Order;
use std::alloc::Global;
use std::thread::Threads;

// How many times as many steps a search is given once more, where it found some share of what is asked for.
const MORE: usize = 16;

// What share it has to find.
const SHARE: usize = 16;

// The findings that are listed, where a search that is told this finds them in so many steps. None where it doesn't; it tells how
// many it found.
fn found_within(
    alloc: Global,
    edges: &EdgeList,
    order: &Order,
    query: &Query,
    grounds: &Grounds,
    steps: usize,
    count: &mut usize,
) -> Result<Option<Found>, Memory>
    requires { AreGrounds (is_before order.now) query.now.mode query.now.len edges.now grounds.now }
    ensures { IfOk result
        (λ soon. IfSome soon
        (λ found. found ≡ listed_findings query.now (is_before order.now) edges.now)) }
{
    let unknown: Vec<usize> = Vec::new(alloc);
    let finder = Finder::of(alloc, edges, order, query, grounds, &unknown, true)?;
    match finder.findings_within(alloc, steps, count)? {
        Some(findings) => Ok(Some(Found::listed(findings, query.max() as usize))),
        None => Ok(None),
    }
}

// The grounds of the edges that are kept at first.
fn grounds_at_first(
    alloc: Global,
    edges: &EdgeList,
    order: &Order,
    query: &Query,
) -> Result<Grounds, Memory>
    ensures { IfOk result
        (AreGrounds (is_before order.now) query.now.mode query.now.len edges.now) }
{
    let kept = kept_at_first(&Sought::of(edges, order, query), alloc)?;
    let grounds = Grounds::of(alloc, edges, kept)?;
    Ok(grounds)
}

// The same, in a few steps for each edge.
fn found_soon(
    alloc: Global,
    edges: &EdgeList,
    order: &Order,
    query: &Query,
    grounds: &Grounds,
    count: &mut usize,
) -> Result<Option<Found>, Memory>
    requires { AreGrounds (is_before order.now) query.now.mode query.now.len edges.now grounds.now }
    ensures { IfOk result
        (λ soon. IfSome soon
        (λ found. found ≡ listed_findings query.now (is_before order.now) edges.now)) }
{
    let steps = first_steps(edges.entries().len());
    found_within(alloc, edges, order, query, grounds, steps, count)
}

// The same in more steps, where so many that were found before are a share of what is asked for.
fn found_later(
    alloc: Global,
    edges: &EdgeList,
    order: &Order,
    query: &Query,
    grounds: &Grounds,
    before: usize,
) -> Result<Option<Found>, Memory>
    requires { AreGrounds (is_before order.now) query.now.mode query.now.len edges.now grounds.now }
    ensures { IfOk result
        (λ soon. IfSome soon
        (λ found. found ≡ listed_findings query.now (is_before order.now) edges.now)) }
{
    if before < query.max() as usize / SHARE {
        return Ok(None);
    }
    let steps = first_steps(edges.entries().len()).saturating_mul(MORE);
    let mut count = 0;
    found_within(alloc, edges, order, query, grounds, steps, &mut count)
}

// The same question, but of cycles no longer than those of these edges can be, and of two edges at least.
fn shorter_query(
    alloc: Global,
    edges: &EdgeList,
    order: &Order,
    query: &Query,
) -> Result<Query, Memory>
    ensures { IfOk result
        (λ shorter. listed_findings shorter (is_before order.now) edges.now
        ≡ listed_findings query.now (is_before order.now) edges.now) }
{
    let sought = Sought::of(edges, order, query);
    let kept = kept_at_first(&sought, alloc)?;
    let shorter = shortened(&sought, alloc, &kept)?;
    match Query::new(query.mode(), shorter.len.max(2) as u32, query.max()) {
        Ok(shorter) => Ok(shorter),
        Err(_) => Ok(*query),
    }
}

// The same question, but for one cycle.
fn for_one(query: &Query) -> Query
    ensures { result ≡ record query.now { max = 1 } }
{
    match Query::new(query.mode(), query.len(), 1) {
        Ok(one) => one,
        Err(_) => unreachable!(),
    }
}

// No findings, where a search for one cycle found none. None where it found one.
fn none_without_cycle(alloc: Global, first: &Found, query: &Query) -> Option<Found>
    ensures { (before : Segment → Segment → Bool) (pairs : List (Edge × Sample))
        → first.now ≡ listed_cycles (record query.now { max = 1 }) before pairs
        → IfSome result (λ found. found ≡ listed_findings query.now before pairs) }
{
    if first.cycles.as_slice().is_empty() {
        return Some(Found::listed(Vec::new(alloc), query.max() as usize));
    }
    None
}

// No findings, where there is no cycle.
fn none_found(
    alloc: Global,
    edges: &EdgeList,
    order: &Order,
    query: &Query,
) -> Result<Option<Found>, Memory>
    ensures { IfOk result
        (λ none. IfSome none
        (λ found. found ≡ listed_findings query.now (is_before order.now) edges.now)) }
{
    let first = search(alloc, edges, order, &for_one(query))?;
    Ok(none_without_cycle(alloc, &first, query))
}

// The same, on several threads.
fn none_found_parallel(
    rt: &(impl Threads + Sync),
    alloc: Global,
    edges: &EdgeList,
    order: &Order,
    query: &Query,
) -> Result<Option<Found>, Memory>
    ensures { IfOk result
        (λ none. IfSome none
        (λ found. found ≡ listed_findings query.now (is_before order.now) edges.now)) }
{
    let first = search_parallel(rt, alloc, edges, order, &for_one(query))?;
    Ok(none_without_cycle(alloc, &first, query))
}

// How many edges a cycle has at most, by the class of one of them.
fn longest_by_class(
    alloc: Global,
    edges: &EdgeList,
    order: &Order,
    query: &Query,
    grounds: &Grounds,
) -> Result<Vec<usize>, Memory>
    requires { AreGrounds (is_before order.now) query.now.mode query.now.len edges.now grounds.now }
    ensures { IfOk result
        (λ longest. AreLongest (is_before order.now) query.now.mode query.now.len
        (edges_of_table edges.now) (classes_of edges.now) longest.items) }
{
    let sought = Sought::of(edges, order, query);
    let limits = limits_by_edge(&sought, alloc, &grounds.kept)?;
    let longest = longest_of(alloc, &grounds.classes, &limits)?;
    Ok(longest)
}

// The findings that a search lists that is told this.
fn first_found(
    alloc: Global,
    edges: &EdgeList,
    order: &Order,
    query: &Query,
    grounds: &Grounds,
) -> Result<Found, Memory>
    requires { AreGrounds (is_before order.now) query.now.mode query.now.len edges.now grounds.now }
    ensures { IfOk result
        (λ found. found ≡ listed_findings query.now (is_before order.now) edges.now) }
{
    let longest = longest_by_class(alloc, edges, order, query, grounds)?;
    let finder = Finder::of(alloc, edges, order, query, grounds, &longest, false)?;
    let found = finder.first_findings(alloc)?;
    Ok(Found::listed(found, query.max() as usize))
}

// The same, on several threads.
fn first_found_parallel(
    rt: &(impl Threads + Sync),
    alloc: Global,
    edges: &EdgeList,
    order: &Order,
    query: &Query,
    grounds: &Grounds,
) -> Result<Found, Memory>
    requires { AreGrounds (is_before order.now) query.now.mode query.now.len edges.now grounds.now }
    ensures { IfOk result
        (λ found. found ≡ listed_findings query.now (is_before order.now) edges.now) }
{
    let longest = longest_by_class(alloc, edges, order, query, grounds)?;
    let finder = Finder::of(alloc, edges, order, query, grounds, &longest, false)?;
    let found = first_findings(rt, alloc, &finder)?;
    Ok(Found::listed(found, query.max() as usize))
}

// The first findings, while it may not pay to leave out all that can be seen to be in no cycle: in a few steps, where there is no
// cycle, from all cycles, or in more steps. None where none of these tells them.
fn found_early(
    alloc: Global,
    edges: &EdgeList,
    order: &Order,
    query: &Query,
    grounds: &Grounds,
) -> Result<Option<Found>, Memory>
    requires { AreGrounds (is_before order.now) query.now.mode query.now.len edges.now grounds.now }
    ensures { IfOk result
        (λ soon. IfSome soon
        (λ found. found ≡ listed_findings query.now (is_before order.now) edges.now)) }
{
    let mut count = 0;
    if let Some(found) = found_soon(alloc, edges, order, query, grounds, &mut count)? {
        return Ok(Some(found));
    }
    if let Some(found) = none_found(alloc, edges, order, query)? {
        return Ok(Some(found));
    }
    if let Some(found) = findings_of_cycles(alloc, edges, order, query)? {
        return Ok(Some(found));
    }
    found_later(alloc, edges, order, query, grounds, count)
}

// The same, on several threads.
fn found_early_parallel(
    rt: &(impl Threads + Sync),
    alloc: Global,
    edges: &EdgeList,
    order: &Order,
    query: &Query,
    grounds: &Grounds,
) -> Result<Option<Found>, Memory>
    requires { AreGrounds (is_before order.now) query.now.mode query.now.len edges.now grounds.now }
    ensures { IfOk result
        (λ soon. IfSome soon
        (λ found. found ≡ listed_findings query.now (is_before order.now) edges.now)) }
{
    let mut count = 0;
    if let Some(found) = found_soon(alloc, edges, order, query, grounds, &mut count)? {
        return Ok(Some(found));
    }
    if let Some(found) = none_found_parallel(rt, alloc, edges, order, query)? {
        return Ok(Some(found));
    }
    if let Some(found) = findings_of_cycles_parallel(rt, alloc, edges, order, query)? {
        return Ok(Some(found));
    }
    found_later(alloc, edges, order, query, grounds, count)
}

// The first findings, once all is left out that can be seen to be in no cycle.
fn found_at_last(
    alloc: Global,
    edges: &EdgeList,
    order: &Order,
    query: &Query,
) -> Result<Found, Memory>
    ensures { IfOk result
        (λ found. found ≡ listed_findings query.now (is_before order.now) edges.now) }
{
    let kept = edges_sought(alloc, edges, order, query)?;
    let grounds = Grounds::of(alloc, edges, kept)?;
    first_found(alloc, edges, order, query, &grounds)
}

// The same, on several threads.
fn found_at_last_parallel(
    rt: &(impl Threads + Sync),
    alloc: Global,
    edges: &EdgeList,
    order: &Order,
    query: &Query,
) -> Result<Found, Memory>
    ensures { IfOk result
        (λ found. found ≡ listed_findings query.now (is_before order.now) edges.now) }
{
    let kept = edges_sought_parallel(rt, alloc, edges, order, query)?;
    let grounds = Grounds::of(alloc, edges, kept)?;
    first_found_parallel(rt, alloc, edges, order, query, &grounds)
}

// The first findings of a query whose length is as short as is soon seen.
fn found_by(alloc: Global, edges: &EdgeList, order: &Order, query: &Query) -> Result<Found, Memory>
    ensures { IfOk result
        (λ found. found ≡ listed_findings query.now (is_before order.now) edges.now) }
{
    let grounds = grounds_at_first(alloc, edges, order, query)?;
    if let Some(found) = found_early(alloc, edges, order, query, &grounds)? {
        return Ok(found);
    }
    found_at_last(alloc, edges, order, query)
}

// The same, on several threads.
fn found_by_parallel(
    rt: &(impl Threads + Sync),
    alloc: Global,
    edges: &EdgeList,
    order: &Order,
    query: &Query,
) -> Result<Found, Memory>
    ensures { IfOk result
        (λ found. found ≡ listed_findings query.now (is_before order.now) edges.now) }
{
    let grounds = grounds_at_first(alloc, edges, order, query)?;
    if let Some(found) = found_early_parallel(rt, alloc, edges, order, query, &grounds)? {
        return Ok(found);
    }
    found_at_last_parallel(rt, alloc, edges, order, query)
}

/// The first findings of a query over these edges, in the order of their signatures, each shown by the
/// first of its cycles, and whether there are more.
///
/// Signatures grow class by class, among classes of edges that may be in a cycle. Of edges that are alike
/// but for their threads and segments one is the model; where there is no walk through models of these
/// classes, or one thread alone runs two of them, no cycle's signature begins so, and it grows no further. For
/// each signature that begins where it is to be told from the first cycle is looked for, told from each of its
/// places on.
///
/// A search among the edges that [are kept at first](kept_at_first) comes first, with a few steps for
/// each edge. Where these don't suffice, a cycle is looked for: without one there are no findings. Else up to some ten thousand
/// cycles are listed: where these are all, findings are told from them. Else the search begins again with more steps, where it found some
/// share of what is asked for; and where these don't suffice either, what can be seen to be in no cycle is left out, and it begins once more.
///
/// There may be as many signatures as classes to the power of the greatest length of a cycle: the query's, or
/// [how many edges a cycle can have](shorter_query), where that is less. Threads that run the same code add none.
///
/// Err where memory was refused.
pub fn findings(
    alloc: Global,
    edges: &EdgeList,
    order: &Order,
    query: &Query,
) -> Result<Found, Memory>
    ensures { IfOk result
        (λ found. found ≡ listed_findings query.now (is_before order.now) edges.now) }
{
    let shorter = shorter_query(alloc, edges, order, query)?;
    found_by(alloc, edges, order, &shorter)
}

/// The same as [`findings`], on several threads.
///
/// Err where memory was refused.
pub fn findings_parallel(
    rt: &(impl Threads + Sync),
    alloc: Global,
    edges: &EdgeList,
    order: &Order,
    query: &Query,
) -> Result<Found, Memory>
    ensures { IfOk result
        (λ found. found ≡ listed_findings query.now (is_before order.now) edges.now) }
{
    let shorter = shorter_query(alloc, edges, order, query)?;
    found_by_parallel(rt, alloc, edges, order, &shorter)
}
