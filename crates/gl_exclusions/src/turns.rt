//! Threads that take turns: chains of threads of which each has its edges before the next one begins its own.
//!
//! Such edges are ordered by forks and joins, so no two of them stand in a cycle together where the mode asks for
//! that. A pool that joins its threads before it forks others has few chains, however many threads come and go.
//!
//! Chains are sought greedily, in the order in which threads are numbered. That isn't proved; they are checked.
ghost use Rattle.std.specs.Prelude.{◌≡◌, ◌<◌, ◌≤◌, Some, true, false, length, slice_get, IsTrue, IfSome};
ghost use Rattle.gl_edges.specs.declared.edge.Edge.{Edge};
ghost use Rattle.gl_filters.specs.Picked.{edges_of_table};
ghost use Rattle.gl_exclusions.specs.Turns.{chain_of, IsOver, IsBehind, IsInTurn, TakeTurns};
ghost use Rattle.gl_exclusions.specs.declared.turns.Turn.{Turn};

use gl_edges::Edge;
use gl_event::{Memory, Segment, ThreadId};
use gl_filters::Mode;
use gl_sought::Sought;
use std::alloc::Global;

// How many chains it is looked at whether a thread may be the next of them: the last ones that began.
const CHAINS: usize = 16;

// How many threads are looked at for each edge at most, as it is checked that chains are in turn.
const LOOKS_OF_EDGE: usize = 64;

/// The turn of a thread: its chain, by a number, and the last segment in which an edge of the thread ends. Chains that
/// don't count are none.
#[derive(Clone, Copy, Debug)]
pub struct Turn {
    pub chain: Option<usize>,
    pub last: u32,
}

/// The chain of a thread.
pub(crate) fn chain_of(turns: &[Turn], thread: ThreadId) -> Option<usize>
    ensures { result ≡ chain_of turns.now thread }
{
    match turns.get(thread.number() as usize) {
        Some(turn) => turn.chain,
        None => None,
    }
}

// The segment before which it was last seen that all others of a chain are over, and how many threads may still be looked at.
#[derive(Drop)]
struct Looked {
    last: Option<Segment>,
    left: usize,
}

impl Looked {
    // Whether it was last looked at this segment.
    fn was_at(&self, begin: &Segment) -> bool
        ensures { IsTrue result → self.now.last ≡ Some begin.now }
    {
        match &self.last {
            Some(last) => last == begin,
            None => false,
        }
    }
}

// The first segment in which an edge of a thread begins, and the last in which one ends.
#[derive(Clone, Copy)]
struct Span {
    thread: ThreadId,
    first: u32,
    last: u32,
}

impl Span {
    // With one edge more.
    fn with(self, edge: &Edge) -> Span {
        Span {
            thread: self.thread,
            first: self.first.min(edge.first),
            last: self.last.max(edge.second),
        }
    }
}

// Where a chain ends so far: its last thread, and the last segment of that in which an edge ends.
#[derive(Clone, Copy)]
struct ChainEnd {
    thread: ThreadId,
    last: u32,
}

// Whether the edge is over by the last segment of its thread's turn.
fn ends_in_turn(turns: &[Turn], edge: &Edge) -> bool
    ensures { IsTrue result → (turn : Turn)
        → slice_get turns.now edge.now.thread ≡ Some turn → edge.now.second ≤ turn.last }
{
    match turns.get(edge.thread.number() as usize) {
        Some(turn) => edge.second <= turn.last,
        None => true,
    }
}

// Whether the order counts and a thread, if it is of this chain, has its edges before a segment begins.
fn is_over(sought: &Sought<'_>, turns: &[Turn], thread: u32, chain: usize, begin: &Segment) -> bool
    ensures { IsTrue result
        → IsOver sought.now.mode sought.now.order.now turns.now chain begin.now thread }
{
    let Some(turn) = turns.get(thread as usize) else {
        return true;
    };
    if turn.chain != Some(chain) {
        return true;
    }
    sought.mode == Mode::Full && turn.last < sought.order.ahead(*begin, ThreadId::new(thread))
}

// Whether all threads with lower numbers and the same chain are over before a segment.
fn is_behind(sought: &Sought<'_>, turns: &[Turn], begin: &Segment) -> bool
    ensures { IsTrue result → IsBehind sought.now.mode sought.now.order.now turns.now begin.now }
{
    let Some(chain) = chain_of(turns, begin.thread) else {
        return true;
    };
    for thread in 0..begin.thread.number() {
        if !is_over(sought, turns, thread, chain, begin) {
            return false;
        }
    }
    true
}

// The same, unless it was just seen of this segment, or too much was looked at before.
fn is_seen_behind(sought: &Sought<'_>, turns: &[Turn], begin: Segment, looked: &mut Looked) -> bool
    requires { IfSome looked.old.last (IsBehind sought.now.mode sought.now.order.now turns.now) }
    ensures last { IfSome looked.new.last
        (IsBehind sought.now.mode sought.now.order.now turns.now) }
    ensures behind { IsTrue result
        → IsBehind sought.now.mode sought.now.order.now turns.now begin }
{
    if looked.was_at(&begin) {
        return true;
    }
    let looks = match chain_of(turns, begin.thread) {
        Some(_) => begin.thread.number() as usize,
        None => 0,
    };
    if looked.left < looks || !is_behind(sought, turns, &begin) {
        return false;
    }
    looked.left -= looks;
    looked.last = Some(begin);
    true
}

// Whether the edge is in the turn of its thread.
fn is_in_turn(sought: &Sought<'_>, turns: &[Turn], edge: &Edge, looked: &mut Looked) -> bool
    requires { IfSome looked.old.last (IsBehind sought.now.mode sought.now.order.now turns.now) }
    ensures last { IfSome looked.new.last
        (IsBehind sought.now.mode sought.now.order.now turns.now) }
    ensures turn { IsTrue result
        → IsInTurn sought.now.mode sought.now.order.now turns.now edge.now }
{
    let begin = Segment {
        thread: edge.thread,
        index: edge.first,
    };
    ends_in_turn(turns, edge) && is_seen_behind(sought, turns, begin, looked)
}

// Whether the edge at a position is kept and not in the turn of its thread.
fn is_out_of_turn(
    sought: &Sought<'_>,
    turns: &[Turn],
    is_kept: bool,
    position: usize,
    looked: &mut Looked,
) -> bool
    requires there { position < length sought.now.table.now }
    requires last { IfSome looked.old.last
        (IsBehind sought.now.mode sought.now.order.now turns.now) }
    ensures last { IfSome looked.new.last
        (IsBehind sought.now.mode sought.now.order.now turns.now) }
    ensures turn { result ≡ false → (e : Edge)
        → slice_get (edges_of_table sought.now.table.now) position ≡ Some e
        → is_kept ≡ true → IsInTurn sought.now.mode sought.now.order.now turns.now e }
{
    is_kept && !is_in_turn(sought, turns, &sought.table[position].0, looked)
}

/// Whether the edges that are kept are in the turns of their threads, as far as that is soon seen.
pub fn take_turns(sought: &Sought<'_>, turns: &[Turn], kept: &[bool]) -> bool
    requires { length kept.now ≡ length sought.now.table.now }
    ensures { IsTrue result
        → TakeTurns sought.now.mode sought.now.order.now turns.now
        (edges_of_table sought.now.table.now) kept.now }
{
    let mut looked = Looked {
        last: None,
        left: sought.table.len().saturating_mul(LOOKS_OF_EDGE),
    };
    for i in 0..sought.table.len() {
        if is_out_of_turn(sought, turns, kept[i], i, &mut looked) {
            return false;
        }
    }
    true
}

/// Turns of the threads, by their numbers, for the edges that are kept. Err where memory was refused.
pub fn turns_of(sought: &Sought<'_>, alloc: Global, kept: &[bool]) -> Result<Vec<Turn>, Memory> {
    let spans = spans(sought, alloc, kept)?;
    let mut turns = Vec::with_capacity(alloc, spans.len())?;
    let mut chains = Vec::new(alloc);
    for span in spans.iter() {
        turns.push(match span {
            Some(span) => next_turn(sought, &mut chains, span)?,
            None => Turn {
                chain: None,
                last: 0,
            },
        })?;
    }
    Ok(turns)
}

// The spans of the threads, by their numbers, as far as they have edges that are kept.
fn spans(sought: &Sought<'_>, alloc: Global, kept: &[bool]) -> Result<Vec<Option<Span>>, Memory> {
    let mut spans: Vec<Option<Span>> = Vec::new(alloc);
    for ((edge, _), &is_kept) in sought.table.iter().zip(kept) {
        let thread = edge.thread.number() as usize;
        if !is_kept {
            continue;
        }
        if spans.len() <= thread {
            spans.resize(thread.saturating_add(1), None)?;
        }
        let one = Span {
            thread: edge.thread,
            first: edge.first,
            last: edge.second,
        };
        if let Some(span) = spans.get_mut(thread) {
            *span = Some(span.unwrap_or(one).with(edge));
        }
    }
    Ok(spans)
}

// The thread's turn: in one of the last chains, where that ends before the thread's edges begin, or in a new one.
fn next_turn(sought: &Sought<'_>, chains: &mut Vec<ChainEnd>, span: &Span) -> Result<Turn, Memory> {
    let end = ChainEnd {
        thread: span.thread,
        last: span.last,
    };
    let begin = Segment {
        thread: span.thread,
        index: span.first,
    };
    let chain = chain_before(sought, chains, &begin);
    match chains.get_mut(chain) {
        Some(place) => *place = end,
        None => chains.push(end)?,
    }
    Ok(Turn {
        chain: Some(chain),
        last: span.last,
    })
}

// The number of one of the last chains that ends before the segment, or of a new one.
fn chain_before(sought: &Sought<'_>, chains: &[ChainEnd], begin: &Segment) -> usize {
    let first = chains.len().saturating_sub(CHAINS);
    for (chain, end) in chains.iter().enumerate().skip(first) {
        if ends_before(sought, end, begin) {
            return chain;
        }
    }
    chains.len()
}

// Whether the order counts and a chain ends before the segment.
fn ends_before(sought: &Sought<'_>, end: &ChainEnd, begin: &Segment) -> bool {
    sought.mode == Mode::Full && end.last < sought.order.ahead(*begin, end.thread)
}
