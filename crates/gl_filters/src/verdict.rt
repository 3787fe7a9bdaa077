//! What a list of edges is, as a cycle.
ghost use Rattle.std.specs.Prelude.{◌≡◌, ◌<◌, ◌≤◌, ℕ, Some, length, slice_get, MatchOption, true};
ghost use Rattle.gl_segments.specs.Clocks.{is_before};
ghost use Rattle.gl_edges.specs.declared.edge.Edge.{Edge};
ghost use Rattle.gl_filters.specs.Picked.{edges_picked, AreWithin};
ghost use Rattle.gl_filters.specs.Verdicts.{have_gate_lock, IsFree, IsFirstAfter, NoPair, IsFirstPair, following, IsClosedAt, IsFirstOpen, IsNotLesserAt, IsFirstLesser, IsVerdict, IsLeastShared};
ghost use Rattle.gl_filters.specs.bodies.Clashing.{clashes};
ghost use Rattle.gl_filters.specs.Cycle.{HasGate};
ghost use Rattle.gl_edges.specs.Clashes.{guards_clash};
ghost use Rattle.std.specs.List.Sorted.{IsStrictlySortedBy};
ghost use Rattle.gl_edges.specs.Guards.{guard_cmp};

use crate::gate_locks::clashes_with_any;
use crate::pairs::{are_ordered, leads_on};
use crate::query::Query;
use gl_edges::{Edge, EdgeList, Guard, Sample};
use gl_event::LockId;
use gl_segments::Order;

/// What a list of positions of edges is, as a cycle: its first fault, or that it has none. Numbers
/// are places in the list of positions.
#[derive(Clone, Copy, Debug, PartialEq, Eq)]
pub enum Verdict {
    /// It has fewer than two edges.
    TooShort,
    /// It has more edges than asked for.
    TooLong,
    /// The edge here doesn't want the lock that the next one, round, holds, or both as readers.
    NotClosed(usize),
    /// The edges here hold the same lock.
    SameLock(usize, usize),
    /// The edges here are of the same thread.
    SameThread(usize, usize),
    /// The edge here is of a lesser thread than the first edge.
    NotLeast(usize),
    /// The edges here have this guard in common, and not both shared.
    SharedGuard(usize, usize, LockId),
    /// The edges here are ordered.
    Ordered(usize, usize),
    /// It is a cycle.
    Valid,
}

// The tests of two edges that one loop makes.
#[derive(Clone, Copy)]
enum Clash {
    SameLock,
    SameThread,
    SharedGuard,
    Ordered,
}

// The edge at a place of the list of positions.
fn edge_at<'a>(table: &'a [(Edge, Sample)], cycle: &[usize], i: usize) -> &'a Edge
    requires within { AreWithin table.now cycle.now }
    requires there { i < length cycle.now }
    ensures { slice_get (edges_picked table.now cycle.now) i ≡ Some result.now }
{
    &table[cycle[i]].0
}

// Whether the edges clash in this way.
fn do_clash(clash: Clash, order: &Order, e: &Edge, f: &Edge) -> bool
    ensures { result ≡ clashes (is_before order.now) clash e.now f.now }
{
    match clash {
        Clash::SameLock => e.held == f.held,
        Clash::SameThread => e.thread == f.thread,
        Clash::SharedGuard => e.guards.clash_with(&f.guards),
        Clash::Ordered => are_ordered(order, e, f),
    }
}

// The first place after this one at which the edge clashes with the edge here.
fn first_after(
    clash: Clash,
    order: &Order,
    table: &[(Edge, Sample)],
    cycle: &[usize],
    i: usize,
) -> Option<usize>
    requires within { AreWithin table.now cycle.now }
    requires there { i < length cycle.now }
    ensures { MatchOption result
        (IsFree (clashes (is_before order.now) clash) (edges_picked table.now cycle.now) i
        (length (edges_picked table.now cycle.now)))
        (λ j. IsFirstAfter (clashes (is_before order.now) clash)
        (edges_picked table.now cycle.now) i j) }
{
    let one = edge_at(table, cycle, i);
    for j in i + 1..cycle.len() {
        let other = edge_at(table, cycle, j);
        if do_clash(clash, order, one, other) {
            return Some(j);
        }
    }
    None
}

// The first two places whose edges clash.
fn first_pair(
    clash: Clash,
    order: &Order,
    table: &[(Edge, Sample)],
    cycle: &[usize],
) -> Option<(usize, usize)>
    requires within { AreWithin table.now cycle.now }
    ensures { MatchOption result
        (NoPair (clashes (is_before order.now) clash) (edges_picked table.now cycle.now))
        (λ places. IsFirstPair (clashes (is_before order.now) clash)
        (edges_picked table.now cycle.now) places.0 places.1) }
{
    for i in 0..cycle.len() {
        if let Some(j) = first_after(clash, order, table, cycle, i) {
            return Some((i, j));
        }
    }
    None
}

// The place after this one, round.
fn next_place(i: usize, count: usize) -> usize
    requires { i < count }
    ensures next { result ≡ following count i }
    ensures within { result < count }
{
    if i + 1 == count {
        return 0;
    }
    i + 1
}

// The first place whose edge doesn't lead on to the next one, round.
fn first_open(table: &[(Edge, Sample)], cycle: &[usize]) -> Option<usize>
    requires within { AreWithin table.now cycle.now }
    ensures { MatchOption result
        ((i : ℕ) → i < length (edges_picked table.now cycle.now)
        → IsClosedAt (edges_picked table.now cycle.now) i)
        (λ i. IsFirstOpen (edges_picked table.now cycle.now) i) }
{
    for i in 0..cycle.len() {
        let next = next_place(i, cycle.len());
        if !leads_on(edge_at(table, cycle, i), edge_at(table, cycle, next)) {
            return Some(i);
        }
    }
    None
}

// The first place whose edge has a lesser thread than the first edge.
fn first_lesser(table: &[(Edge, Sample)], cycle: &[usize]) -> Option<usize>
    requires within { AreWithin table.now cycle.now }
    requires some { 0 < length cycle.now }
    ensures { MatchOption result
        ((i : ℕ) → i < length (edges_picked table.now cycle.now)
        → IsNotLesserAt (edges_picked table.now cycle.now) i)
        (λ i. IsFirstLesser (edges_picked table.now cycle.now) i) }
{
    let first = edge_at(table, cycle, 0);
    for i in 0..cycle.len() {
        if edge_at(table, cycle, i).thread < first.thread {
            return Some(i);
        }
    }
    None
}

// The first two places whose edges clash, where the mode asks for it.
fn first_pair_where(
    asked: bool,
    clash: Clash,
    order: &Order,
    table: &[(Edge, Sample)],
    cycle: &[usize],
) -> Option<(usize, usize)>
    requires within { AreWithin table.now cycle.now }
    ensures { MatchOption result
        (asked ≡ true
        → NoPair (clashes (is_before order.now) clash) (edges_picked table.now cycle.now))
        (λ places. (asked ≡ true)
        × IsFirstPair (clashes (is_before order.now) clash)
        (edges_picked table.now cycle.now) places.0 places.1) }
{
    if !asked {
        return None;
    }
    first_pair(clash, order, table, cycle)
}

// The least lock that is a gate of both sets.
fn gate_lock(guards: &[Guard], others: &[Guard]) -> LockId
    requires ascending { IsStrictlySortedBy guard_cmp guards.now }
    requires clash { guards_clash guards.now others.now ≡ true }
    ensures gate { HasGate guards.now others.now result }
    ensures least { (lock : ℕ) → HasGate guards.now others.now lock → result ≤ lock }
{
    for guard in guards {
        if clashes_with_any(guard, others) {
            return guard.lock;
        }
    }
    unreachable!()
}

// The least lock that is a gate of the edges at both places.
fn guard_at(table: &[(Edge, Sample)], cycle: &[usize], i: usize, j: usize) -> LockId
    requires within { AreWithin table.now cycle.now }
    requires clash { IsFirstAfter have_gate_lock (edges_picked table.now cycle.now) i j }
    ensures { IsLeastShared (edges_picked table.now cycle.now) i j result }
{
    let one = edge_at(table, cycle, i);
    let other = edge_at(table, cycle, j);
    gate_lock(one.guards.as_slice(), other.guards.as_slice())
}

// What the edges at these positions are, as a cycle that the query asks for.
fn verdict_of(query: &Query, order: &Order, table: &[(Edge, Sample)], cycle: &[usize]) -> Verdict
    requires { AreWithin table.now cycle.now }
    ensures { IsVerdict (is_before order.now) query.now (edges_picked table.now cycle.now) result }
{
    if cycle.len() < 2 {
        return Verdict::TooShort;
    }
    if cycle.len() > query.len() as usize {
        return Verdict::TooLong;
    }
    if let Some(i) = first_open(table, cycle) {
        return Verdict::NotClosed(i);
    }
    if let Some((i, j)) = first_pair(Clash::SameLock, order, table, cycle) {
        return Verdict::SameLock(i, j);
    }
    if let Some((i, j)) = first_pair(Clash::SameThread, order, table, cycle) {
        return Verdict::SameThread(i, j);
    }
    if let Some(i) = first_lesser(table, cycle) {
        return Verdict::NotLeast(i);
    }
    let mode = query.mode();
    let guards = mode.asks_guards();
    if let Some((i, j)) = first_pair_where(guards, Clash::SharedGuard, order, table, cycle) {
        return Verdict::SharedGuard(i, j, guard_at(table, cycle, i, j));
    }
    let ordered = mode.asks_order();
    if let Some((i, j)) = first_pair_where(ordered, Clash::Ordered, order, table, cycle) {
        return Verdict::Ordered(i, j);
    }
    Verdict::Valid
}

/// What the edges at these positions are, as a cycle that the query asks for: the first fault, of
/// those in the order of [`Verdict`], or [`Verdict::Valid`]. Of the places with the same fault the
/// first one is named, then the second one after it, then the least lock. Takes time as there are
/// pairs of edges, and no memory.
pub fn judge(query: &Query, order: &Order, edges: &EdgeList, cycle: &[usize]) -> Verdict
    requires { AreWithin edges.now cycle.now }
    ensures { IsVerdict (is_before order.now) query.now (edges_picked edges.now cycle.now) result }
{
    verdict_of(query, order, edges.entries(), cycle)
}
