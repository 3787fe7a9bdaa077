//! The edges of one long list of events, by several threads: each goes through a part of it.
ghost use Rattle.std.specs.Prelude.{◌≡◌, ◌≤◌, ◌<◌, ⊤, map, length, IfOk};
ghost use Rattle.std.specs.List.{flat_map};
ghost use Rattle.gl_event.specs.Bounds.{greatest};
ghost use Rattle.gl_event.specs.Lawful.{IsLawful};
ghost use Rattle.gl_edges.specs.Edges.{edges_of_list, once};
ghost use Rattle.gl_edges.specs.bodies.Sharing.{edges_of_places, FollowOn};

use crate::batch::Batch;
use crate::gather::edges_of_part;
use crate::list::EdgeList;
use crate::parallel::{Share, gathered};
use gl_event::{Event, Memory, ThreadId};
use rayon::prelude::*;
use std::alloc::Global;
use std::thread::Threads;

// With more parts than this their threads would do little but go through the events before them.
const MOST: usize = 8;

// The places of a list that is so long, dealt out to parts of this length and one that may be shorter.
fn cut(alloc: Global, events: usize, even: usize) -> Result<Vec<Share>, Memory>
    requires { 0 < even }
    ensures { IfOk result (λ parts. FollowOn 0 parts.items events) }
{
    let mut parts = Vec::new(alloc);
    let mut from = 0;
    while from < events {
        let to = from.saturating_add(even).min(events);
        parts.push(Share { from, to })?;
        from = to;
    }
    Ok(parts)
}

// For each part of the list its edges, by several threads.
fn edges_of_each_part(
    rt: &(impl Threads + Sync),
    alloc: Global,
    thread: ThreadId,
    list: &[Event],
    parts: &[Share],
) -> Result<Vec<EdgeList>, Memory>
    requires lawful { IsLawful greatest thread list.now }
    requires dealt { FollowOn 0 parts.now (length list.now) }
    ensures { IfOk result
        (λ pieces. pieces.items ≡ map (edges_of_places thread list.now) parts.now) }
{
    let chain = parts.par_iter().map(
        |part: &Share| -> Result<EdgeList, Memory>
            requires { (part.now.from ≤ part.now.to)
                × (part.now.to ≤ length list.now)
                × IsLawful greatest thread list.now }
            ensures { IfOk result (λ l. l ≡ edges_of_places thread list.entry.now part.now) }
        { edges_of_part(alloc, thread, list, part.from, part.to) },
    );
    gathered(rt, alloc, chain)
}

// The edges of all pieces: each once, ascending, with its least sample.
fn merged(alloc: Global, pieces: Vec<EdgeList>) -> Result<EdgeList, Memory>
    ensures { IfOk result (λ l. l ≡ once (flat_map (λ piece. piece) pieces.items)) }
{
    let mut batch = Batch::new(alloc);
    for piece in pieces {
        batch.add_list(piece)?;
    }
    batch.into_list()
}

/// The edges of a thread's list: each once, ascending, with its least sample. It is gone through in at most eight parts, of
/// so many events or more, each by a thread of its own, which also goes through the events before its part, but without
/// their edges.
pub(crate) fn edges_of_long_list(
    rt: &(impl Threads + Sync),
    alloc: Global,
    thread: ThreadId,
    list: &[Event],
    even: usize,
) -> Result<EdgeList, Memory>
    requires some { 0 < even }
    requires lawful { IsLawful greatest thread list.now }
    ensures { IfOk result (λ l. l ≡ once (edges_of_list thread list.now)) }
{
    let length = even.max(list.len().div_ceil(MOST));
    let parts = cut(alloc, list.len(), length)?;
    let pieces = edges_of_each_part(rt, alloc, thread, list, parts.as_slice())?;
    merged(alloc, pieces)
}
