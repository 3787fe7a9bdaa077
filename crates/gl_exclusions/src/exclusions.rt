//! How many edges a cycle can have at most: edges that exclude each other.
//!
//! No two edges of one thread stand in a cycle together, nor do two of threads that take turns, where the mode asks
//! for the order. From Guarded on, neither do two that are made under one lock which is held exclusively. Two that hold one lock
//! don't either, nor two that want one. Where a few chains of threads and such locks have all edges that are kept between them, a cycle has one edge of each at
//! most. So under one lock there is none, and of two threads no path is looked at that is longer than two edges.
//!
//! Which chains and locks these are is not proved; it is checked.
ghost use Rattle.std.specs.Prelude.{◌≡◌, ◌<◌, ◌≤◌, List, Some, true, false, length, slice_get, All, Contains, IsTrue, IfOk};
ghost use Rattle.gl_edges.specs.declared.edge.Edge.{Edge};
ghost use Rattle.gl_segments.specs.Clocks.{is_before};
ghost use Rattle.gl_filters.specs.Cycle.{IsCycle};
ghost use Rattle.gl_filters.specs.Picked.{edges_of_table};
ghost use Rattle.gl_sought.specs.Sought.{KeepsSought};
ghost use Rattle.gl_exclusions.specs.Exclusions.{IsExcluded, IsOneOf, HaveAll};

use crate::turns::{Turn, chain_of, take_turns, turns_of};
use gl_edges::{Edge, Sample};
use gl_event::{LockId, Memory};
use gl_filters::Mode;
use gl_sought::{Sought, is_under};
use std::alloc::Global;

// At so many of the edges that are left, or at all where there are fewer, it is looked at which an exclusion has.
const LOOKS: usize = 500;

// How far these lie apart, round: the edges of threads that run the same code come in one order again and again, and this is a
// prime number, so that all of them have their turn.
const STRIDE: usize = 2_654_435_761;

/// Edges of which no two stand in a cycle together.
#[derive(Clone, Copy, Debug)]
pub enum Exclusion {
    /// Those of the threads of a chain, which take turns.
    InTurn(usize),
    /// Those that are made under a lock which is held exclusively.
    UnderLock(LockId),
    /// Those that hold a lock.
    Holding(LockId),
    /// Those that want a lock.
    Wanting(LockId),
}

impl Exclusion {
    // Whether the edge is one of these, in this mode and with these turns.
    fn has(&self, mode: Mode, turns: &[Turn], edge: &Edge) -> bool
        ensures { IsTrue result → IsExcluded mode turns.now self.now edge.now }
    {
        match *self {
            Exclusion::InTurn(chain) => chain_of(turns, edge.thread) == Some(chain),
            Exclusion::UnderLock(lock) => mode.asks_guards() && is_under(edge, lock),
            Exclusion::Holding(lock) => edge.held == lock,
            Exclusion::Wanting(lock) => edge.wanted == lock,
        }
    }
}

/// Whether one of these has the edge.
pub fn is_one_of(mode: Mode, turns: &[Turn], exclusions: &[Exclusion], edge: &Edge) -> bool
    ensures { IsTrue result → IsOneOf mode turns.now exclusions.now edge.now }
{
    for exclusion in exclusions {
        if exclusion.has(mode, turns, edge) {
            return true;
        }
    }
    false
}

// Forgets the chains that aren't among these, so that nobody looks whether their threads take turns.
fn forget_others(turns: &mut Vec<Turn>, exclusions: &[Exclusion]) {
    for turn in turns.iter_mut() {
        if !has_chain(exclusions, turn.chain) {
            turn.chain = None;
        }
    }
}

// Whether a chain is among these.
fn has_chain(exclusions: &[Exclusion], chain: Option<usize>) -> bool {
    for exclusion in exclusions {
        if let Exclusion::InTurn(of_chain) = *exclusion {
            if chain == Some(of_chain) {
                return true;
            }
        }
    }
    false
}

// Whether the edge at a position is kept, and none of these has it.
fn is_missed(
    sought: &Sought<'_>,
    turns: &[Turn],
    exclusions: &[Exclusion],
    is_kept: bool,
    position: usize,
) -> bool
    requires { position < length sought.now.table.now }
    ensures { result ≡ false → (e : Edge)
        → slice_get (edges_of_table sought.now.table.now) position ≡ Some e
        → is_kept ≡ true → IsOneOf sought.now.mode turns.now exclusions.now e }
{
    is_kept && !is_one_of(sought.mode, turns, exclusions, &sought.table[position].0)
}

// Whether these have all edges that are kept.
fn have_all(sought: &Sought<'_>, turns: &[Turn], exclusions: &[Exclusion], kept: &[bool]) -> bool
    requires { length kept.now ≡ length sought.now.table.now }
    ensures { IsTrue result
        → HaveAll sought.now.mode turns.now exclusions.now (edges_of_table sought.now.table.now)
        kept.now }
{
    for i in 0..sought.table.len() {
        if is_missed(sought, turns, exclusions, kept[i], i) {
            return false;
        }
    }
    true
}

// How many edges a cycle of those that are kept has at most, as far as these turns and exclusions tell.
fn longest_by(sought: &Sought<'_>, turns: &[Turn], exclusions: &[Exclusion], kept: &[bool]) -> usize
    requires kept { KeepsSought sought.now kept.now }
    requires some { 0 < sought.now.len }
    ensures some { 0 < result }
    ensures short { result ≤ sought.now.len }
    ensures all { (cycle : List Edge)
        → All (Contains (edges_of_table sought.now.table.now)) cycle
        → IsCycle (is_before sought.now.order.now) sought.now.mode sought.now.len cycle
        → length cycle ≤ result }
{
    if exclusions.len() >= sought.len || !have_all(sought, turns, exclusions, kept) {
        return sought.len;
    }
    if !take_turns(sought, turns, kept) {
        return sought.len;
    }
    exclusions.len().max(1)
}

// The same by turns and exclusions that are sought first.
fn longest(sought: &Sought<'_>, alloc: Global, kept: &[bool]) -> Result<usize, Memory>
    requires kept { KeepsSought sought.now kept.now }
    requires some { 0 < sought.now.len }
    ensures some { IfOk result (λ longest. 0 < longest) }
    ensures short { IfOk result (λ longest. longest ≤ sought.now.len) }
    ensures all { IfOk result
        (λ longest. (cycle : List Edge)
        → All (Contains (edges_of_table sought.now.table.now)) cycle
        → IsCycle (is_before sought.now.order.now) sought.now.mode sought.now.len cycle
        → length cycle ≤ longest) }
{
    let mut turns = turns_of(sought, alloc, kept)?;
    let exclusions = exclusions(sought, alloc, &turns, kept)?;
    forget_others(&mut turns, &exclusions);
    Ok(longest_by(sought, &turns, &exclusions, kept))
}

/// The same as what is sought, but of cycles no longer than those of the edges that are kept can be. Where a few chains of threads
/// that take turns, or locks that are held exclusively, have all these edges between them, no cycle has more edges
/// than there are of them.
///
/// It looks at each edge and its guards a few times, and at 64 threads for each edge at most. Err where memory was
/// refused.
pub fn shortened<'a>(
    sought: &Sought<'a>,
    alloc: Global,
    kept: &[bool],
) -> Result<Sought<'a>, Memory>
    requires kept { KeepsSought sought.now kept.now }
    requires some { 0 < sought.now.len }
    ensures table { IfOk result (λ s. s.table.now ≡ sought.now.table.now) }
    ensures order { IfOk result (λ s. s.order.now ≡ sought.now.order.now) }
    ensures mode { IfOk result (λ s. s.mode ≡ sought.now.mode) }
    ensures some { IfOk result (λ s. 0 < s.len) }
    ensures short { IfOk result (λ s. s.len ≤ sought.now.len) }
    ensures kept { IfOk result (λ s. KeepsSought s kept.now) }
    ensures all { IfOk result
        (λ s. (cycle : List Edge)
        → All (Contains (edges_of_table sought.now.table.now)) cycle
        → IsCycle (is_before sought.now.order.now) sought.now.mode sought.now.len cycle
        → length cycle ≤ s.len) }
{
    let len = longest(sought, alloc, kept)?;
    Ok(Sought { len, ..*sought })
}

// Exclusions that have all edges that are kept, if they are fewer than the edges of a cycle may be and soon found: each time one of the
// first edge's that has most of those left. Else none, or some that don't have all.
fn exclusions(
    sought: &Sought<'_>,
    alloc: Global,
    turns: &[Turn],
    kept: &[bool],
) -> Result<Vec<Exclusion>, Memory> {
    let mut left = places_of(alloc, kept)?;
    let mut found = Vec::new(alloc);
    for turns_left in (1..sought.len).rev() {
        let Some(exclusion) = widest_of(sought, turns, &left, false) else {
            return Ok(found);
        };
        if turns_left == 1 && !has_looked_at(sought, turns, &exclusion, &left) {
            break;
        }
        left = without(sought, alloc, turns, &exclusion, &left)?;
        found.push(exclusion)?;
    }
    if !left.is_empty() {
        found.clear();
    }
    Ok(found)
}

// Whether an exclusion has all of some of the edges at these places.
fn has_looked_at(
    sought: &Sought<'_>,
    turns: &[Turn],
    exclusion: &Exclusion,
    places: &[usize],
) -> bool {
    count(sought, turns, exclusion, places) == places.len().min(LOOKS)
}

/// Of the exclusions of the first edge at these places the one that has most of some of the edges there; of those of the locks that
/// edges hold and want, too, if that is asked for.
pub fn widest_of(
    sought: &Sought<'_>,
    turns: &[Turn],
    places: &[usize],
    has_locks: bool,
) -> Option<Exclusion> {
    let (edge, _) = edge_at(sought, places.get(0))?;
    let mut widest = widest(sought, turns, chain_of(turns, edge.thread)?, edge, places);
    if !has_locks {
        return Some(widest);
    }
    for of_lock in [
        Exclusion::Holding(edge.held),
        Exclusion::Wanting(edge.wanted),
    ] {
        if count(sought, turns, &of_lock, places) > count(sought, turns, &widest, places) {
            widest = of_lock;
        }
    }
    Some(widest)
}

/// Those of these places whose edges an exclusion hasn't. Err where memory was refused.
pub fn without(
    sought: &Sought<'_>,
    alloc: Global,
    turns: &[Turn],
    exclusion: &Exclusion,
    places: &[usize],
) -> Result<Vec<usize>, Memory> {
    let mut left = Vec::new(alloc);
    for place in places {
        if !has_at(sought, turns, exclusion, Some(place)) {
            left.push(*place)?;
        }
    }
    Ok(left)
}

// The edge's chain, or the lock that the edge is made under, where that has more of some of the edges at these places.
fn widest(
    sought: &Sought<'_>,
    turns: &[Turn],
    chain: usize,
    edge: &Edge,
    places: &[usize],
) -> Exclusion {
    let mut widest = Exclusion::InTurn(chain);
    let mut most = count(sought, turns, &widest, places);
    for guard in edge.guards.as_slice() {
        let under = Exclusion::UnderLock(guard.lock);
        let count = count(sought, turns, &under, places);
        if count > most {
            most = count;
            widest = under;
        }
    }
    widest
}

// How many of some of the edges at these places an exclusion has.
fn count(sought: &Sought<'_>, turns: &[Turn], exclusion: &Exclusion, places: &[usize]) -> usize {
    let mut count: usize = 0;
    for look in 0..LOOKS {
        if has_at(sought, turns, exclusion, looked_at(places, look)) {
            count = count.saturating_add(1);
        }
    }
    count
}

// The edge at a place.
fn edge_at<'a>(sought: &Sought<'a>, place: Option<&usize>) -> Option<&'a (Edge, Sample)> {
    match place {
        Some(&place) => sought.table.get(place),
        None => None,
    }
}

// Whether an exclusion has the edge at a place.
fn has_at(
    sought: &Sought<'_>,
    turns: &[Turn],
    exclusion: &Exclusion,
    place: Option<&usize>,
) -> bool {
    match edge_at(sought, place) {
        Some((edge, _)) => exclusion.has(sought.mode, turns, edge),
        None => false,
    }
}

// The places of the edges that are kept.
fn places_of(alloc: Global, kept: &[bool]) -> Result<Vec<usize>, Memory> {
    let mut places = Vec::new(alloc);
    for (place, &is_kept) in kept.iter().enumerate() {
        if is_kept {
            places.push(place)?;
        }
    }
    Ok(places)
}

// Which of these places is looked at the n-th time: all in turn, where there are few.
fn looked_at(places: &[usize], n: usize) -> Option<&usize> {
    if places.len() <= LOOKS {
        return places.get(n);
    }
    places.get(n.wrapping_mul(STRIDE) % places.len())
}
