//! The edges of whole lists of events, by several threads.
ghost use Rattle.std.specs.Prelude.{◌≡◌, ◌≤◌, ◌<◌, ◌+◌, ⊤, map, length, IfOk, Ok};
ghost use Rattle.std.specs.List.{flat_map};
ghost use denote.Param.Send.{IsSync};
ghost use Rattle.gl_event.specs.Bounds.{greatest};
ghost use Rattle.gl_event.specs.Lawful.{AreLawful, lists_of};
ghost use Rattle.gl_edges.specs.Edges.{edges};
ghost use Rattle.gl_edges.specs.bodies.Sharing.{edges_of_share, FollowOn};
ghost use Rattle.gl_edges.specs.declared.parallel.Share.{Share};

use crate::batch::move_behind;
use crate::edge::{Edge, Sample};
use crate::gather::{edges_from, edges_of};
use crate::list::EdgeList;
use crate::long_list::edges_of_long_list;
use gl_event::{Event, Memory, ThreadId};
use rayon::prelude::*;
use std::alloc::Global;
use std::thread::Threads;

// Up to how many events one thread goes through: for so few, others don't pay.
const ALONE: usize = 16_384;

/// Lists that follow one another, or events of a list that do: from one position to another.
#[derive(Clone, Copy)]
pub(crate) struct Share {
    pub(crate) from: usize,
    pub(crate) to: usize,
}

// How many events the lists have.
fn events_in(lists: &[Vec<Event>]) -> usize {
    let mut events: usize = 0;
    for list in lists {
        events = events.saturating_add(list.len());
    }
    events
}

// Whether a list of so many events is to be cut into parts: it has half as many again as an even part of all events.
fn is_long(events: usize, even: usize) -> bool {
    events >= even.saturating_add(even / 2)
}

// Whether this list or the one before it is to be cut into parts.
fn stands_apart(lists: &[Vec<Event>], at: usize, even: usize) -> bool
    requires { at < length lists.now }
{
    is_long(lists[at].len(), even) || at > 0 && is_long(lists[at - 1].len(), even)
}

// The lists dealt out: each to the share in whose even part of all events its middle lies. One that is to be cut stands
// alone.
fn deal(alloc: Global, lists: &[Vec<Event>], even: usize) -> Result<Vec<Share>, Memory>
    requires { 0 < even }
    ensures { IfOk result (λ shares. FollowOn 0 shares.items (length lists.now)) }
{
    let mut shares = Vec::new(alloc);
    let mut from = 0;
    let mut end = even;
    let mut before: usize = 0;
    for i in 0..lists.len() {
        let middle = before.saturating_add(lists[i].len() / 2);
        let is_due = middle >= end || stands_apart(lists, i, even);
        if from < i && is_due {
            shares.push(Share { from, to: i })?;
            from = i;
            end = (middle / even).saturating_add(1).saturating_mul(even);
        }
        before = before.saturating_add(lists[i].len());
    }
    if from < lists.len() {
        shares.push(Share {
            from,
            to: lists.len(),
        })?;
    }
    Ok(shares)
}

// What a chain gives for each of its items, in order, where each answers. Each item may have a thread of its own.
pub(crate) fn gathered<I: IndexedParallelIterator<Item = Result<EdgeList, Memory>>>(
    rt: &(impl Threads + Sync),
    alloc: Global,
    chain: I,
) -> Result<Vec<EdgeList>, Memory>
    requires ready { I.each chain (λ _. ⊤) }
    ensures { IfOk result (λ pieces. I.gives chain (map Ok pieces.items)) }
{
    let found: Result<Vec<EdgeList>, Memory> = chain.with_min_len(1).collect(rt, alloc)?;
    found
}

// The edges of a share of the lists. A list that is to be cut is gone through by several threads.
fn edges_of_one(
    rt: &(impl Threads + Sync),
    alloc: Global,
    lists: &[Vec<Event>],
    share: Share,
    even: usize,
) -> Result<EdgeList, Memory>
    requires some { 0 < even }
    requires within { (share.from ≤ share.to) × (share.to ≤ length lists.now) }
    requires lawful { AreLawful greatest (lists_of lists.now) }
    ensures { IfOk result (λ l. l ≡ edges_of_share (lists_of lists.now) share) }
{
    let first = share.from as u32;
    let shared = &lists[share.from..share.to];
    if let [list] = shared {
        if is_long(list.len(), even) {
            return edges_of_long_list(rt, alloc, ThreadId::new(first), list.as_slice(), even);
        }
    }
    edges_from(alloc, first, shared)
}

// For each share of the lists its edges, by several threads.
fn edges_of_each<T: Threads + Sync>(
    rt: &T,
    alloc: Global,
    lists: &[Vec<Event>],
    shares: &[Share],
    even: usize,
) -> Result<Vec<EdgeList>, Memory>
    requires some { 0 < even }
    requires lawful { AreLawful greatest (lists_of lists.now) }
    requires dealt { FollowOn 0 shares.now (length lists.now) }
    ensures { IfOk result
        (λ pieces. pieces.items ≡ map (edges_of_share (lists_of lists.now)) shares.now) }
{
    let chain = shares.par_iter().map(
        |share: &Share| -> Result<EdgeList, Memory>
            requires sync { IsSync T.row }
            requires some { 0 < even }
            requires within { (share.now.from ≤ share.now.to)
                × (share.now.to ≤ length lists.now) }
            requires lawful { AreLawful greatest (lists_of lists.now) }
            ensures { IfOk result
                (λ l. l ≡ edges_of_share (lists_of lists.entry.now) share.now) }
        { edges_of_one(rt, alloc, lists, *share, even) },
    );
    gathered(rt, alloc, chain)
}

// How many pairs the lists have.
fn pairs_in(pieces: &[EdgeList]) -> usize {
    let mut pairs: usize = 0;
    for piece in pieces {
        pairs = pairs.saturating_add(piece.entries().len());
    }
    pairs
}

// The pairs of all lists, one list after the other: behind those of the first one, which stay where they are if they can.
fn joined(alloc: Global, pieces: Vec<EdgeList>) -> Result<Vec<(Edge, Sample)>, Memory>
    ensures { IfOk result (λ pairs. pairs.items ≡ flat_map (λ piece. piece) pieces.items) }
{
    let all = pairs_in(&pieces);
    let mut pairs = Vec::new(alloc);
    for piece in pieces {
        let mut more = piece.into_vec();
        move_behind(&mut pairs, &mut more)?;
        pairs.reserve(all.saturating_sub(pairs.len()))?;
    }
    Ok(pairs)
}

/// The same as [`edges_of`], by so many threads, or one where there are few events. Each thread goes through lists that
/// follow one another, about as many events as each other one does, since an edge of a lesser thread is below all edges
/// of a greater one. A list with half as many again is cut into parts, whose edges are merged.
///
/// A thread that goes through a part of a list goes through the events before it, too, without their edges.
pub fn edges_of_parallel(
    rt: &(impl Threads + Sync),
    alloc: Global,
    lists: &[Vec<Event>],
    threads: usize,
) -> Result<EdgeList, Memory>
    requires lawful { AreLawful greatest (lists_of lists.now) }
    ensures { IfOk result (λ l. l ≡ edges (lists_of lists.now)) }
{
    let events = events_in(lists);
    if threads < 2 || events <= ALONE {
        return edges_of(alloc, lists);
    }
    let even = events.div_ceil(threads);
    let shares = deal(alloc, lists, even)?;
    let pieces = edges_of_each(rt, alloc, lists, shares.as_slice(), even)?;
    let pairs = joined(alloc, pieces)?;
    Ok(EdgeList::from_ascending(pairs))
}
