//! Findings that are told from all cycles, where these are soon listed and aren't many.
ghost use Rattle.std.specs.Prelude.{◌≡◌, ◌≤◌, ◌∷◌, ◌++◌, [], true, refl, nat_eq, Bool, List, ℕ, length, slice_get, take, IfOk, IfSome};
ghost use Rattle.std.specs.BTreeMap as tree;
ghost use Rattle.std.specs.Cmp.{partial_equiv_from_equiv, po};
ghost use Rattle.std.specs.Cmp.Lexicographic.{nat_list_cmp_total, nat_list_eq_equiv, pointwise, slice_cmp, texts_ties};
ghost use Rattle.std.specs.List.{filter_map};
ghost use Rattle.std.specs.Ordering.{as_partial_cmp, nat_cmp};
ghost use Rattle.gl_event.specs.declared.events.Segment.{Segment};
ghost use Rattle.gl_segments.specs.Clocks.{is_before};
ghost use Rattle.gl_filters.specs.declared.lengths.TheConstants.{LONGEST};
ghost use Rattle.gl_cycles.specs.Cycles.{cycles_in};
ghost use Rattle.gl_cycles.specs.Listed.{listed_cycles};
ghost use Rattle.gl_findings.specs.Listed.{listed_findings};
ghost use Rattle.gl_findings.specs.bodies.Grouping.{AreFirsts, is_told};
ghost use Rattle.gl_findings.specs.declared.grouped.TheConstants.{MANY};

use crate::turns::{Signature, begins_least, turned};
use arrayvec::ArrayVec;
use gl_cycles::{Found, search, search_parallel};
use gl_edges::EdgeList;
use gl_event::Memory;
use gl_filters::Query;
use gl_grounds::classes_of;
use gl_segments::Order;
use std::alloc::Global;
use std::cmp::Ordering;
use std::collections::BTreeMap;
use std::marker::Model;
use std::thread::Threads;

// How many cycles are looked at, at most.
const MANY: u32 = 16_384;

// A signature by which cycles are grouped. Contracts see the list of its classes.
#[derive(Drop)]
struct Key {
    classes: Signature,
}

impl Model for Key {
    ghost use Rattle.std.specs.Prelude.{List, ℕ};

    ghost Value = { List ℕ };

    ghost view = { λ key. key.classes.items };
}

impl PartialEq for Key {
    ghost eq = { pointwise nat_eq };

    ghost laws = { partial_equiv_from_equiv nat_list_eq_equiv };

    fn eq(&self, other: &Key) -> bool {
        self.classes.as_slice() == other.classes.as_slice()
    }
}

impl Eq for Key {
    ghost laws = { nat_list_eq_equiv };
}

impl PartialOrd for Key {
    ghost partial_cmp = { as_partial_cmp (slice_cmp nat_cmp) };

    ghost laws = { po nat_list_cmp_total texts_ties };

    fn partial_cmp(&self, other: &Key) -> Option<Ordering> {
        Some(self.cmp(other))
    }
}

impl Ord for Key {
    ghost cmp = { slice_cmp nat_cmp };

    ghost total = { nat_list_cmp_total };

    ghost matches_partial_cmp = { λ a b. refl };

    ghost matches_eq = { texts_ties };

    fn cmp(&self, other: &Key) -> Ordering {
        self.classes.as_slice().cmp(other.classes.as_slice())
    }
}

// The classes of the edges at these positions. None where there is no edge, or there are too many.
fn signature_of(classes: &[usize], positions: &[usize]) -> Option<Signature>
    ensures fits { IfSome result (λ signature. length signature.items ≤ LONGEST) }
    ensures classes { IfSome result
        (λ signature. signature.items ≡ filter_map (slice_get classes.now) positions.now) }
{
    let mut signature = ArrayVec::new();
    for &position in positions {
        if position >= classes.len() || signature.is_full() {
            return None;
        }
        signature.push(classes[position]);
    }
    Some(signature)
}

// The signature of a cycle, told from where it begins least.
fn key_of(classes: &[usize], cycle: &[usize]) -> Option<Key>
    ensures { IfSome result (λ key. is_told classes.now key cycle.now ≡ true) }
{
    let Some(signature) = signature_of(classes, cycle) else {
        return None;
    };
    for k in 0..signature.len() {
        let turn = turned(signature.as_slice(), k);
        if begins_least(turn.as_slice()) {
            return Some(Key { classes: turn });
        }
    }
    None
}

// Puts a cycle to those of its signature. False where this can't be told.
fn add(
    firsts: &mut BTreeMap<Key, Vec<usize>>,
    alloc: Global,
    classes: &[usize],
    cycle: &[usize],
) -> Result<bool, Memory>
    ensures { IfOk result
        (λ is_told. is_told ≡ true → (cycles : List (List ℕ))
        → AreFirsts classes.now cycles firsts.old
        → AreFirsts classes.now (cycles ++ cycle.now ∷ []) firsts.new) }
{
    let Some(key) = key_of(classes, cycle) else {
        return Ok(false);
    };
    if firsts.contains_key(&key) {
        return Ok(true);
    }
    let first = Vec::from_slice(alloc, cycle)?;
    firsts.insert(key, first)?;
    Ok(true)
}

// The first cycle of each signature. None where that of a cycle can't be told.
fn firsts_of(
    alloc: Global,
    classes: &[usize],
    cycles: &[Vec<usize>],
) -> Result<Option<BTreeMap<Key, Vec<usize>>>, Memory>
    ensures { IfOk result
        (λ told. IfSome told (λ firsts. AreFirsts classes.now (cycles_in cycles.now) firsts)) }
{
    let mut firsts = BTreeMap::new(alloc);
    for i in 0..cycles.len() {
        if !add(&mut firsts, alloc, classes, &cycles[i])? {
            return Ok(None);
        }
    }
    Ok(Some(firsts))
}

// The cycles in the order of their signatures.
fn values_of(alloc: Global, firsts: BTreeMap<Key, Vec<usize>>) -> Result<Vec<Vec<usize>>, Memory>
    ensures { IfOk result (λ cycles. cycles.items ≡ tree.values firsts) }
{
    let cycles = firsts.into_values().collect(alloc)?;
    Ok(cycles)
}

// The first ones, so many at most.
fn in_order(
    alloc: Global,
    firsts: BTreeMap<Key, Vec<usize>>,
    count: usize,
) -> Result<Vec<Vec<usize>>, Memory>
    ensures { IfOk result
        (λ cycles. cycles_in cycles.items ≡ take count (cycles_in (tree.values firsts))) }
{
    let mut cycles = values_of(alloc, firsts)?;
    cycles.truncate(count);
    Ok(cycles)
}

// The first findings, told from this listing of cycles. None where it hasn't all of them.
fn grouped(
    alloc: Global,
    edges: &EdgeList,
    all: &Found,
    query: &Query,
) -> Result<Option<Found>, Memory>
    ensures { (before : Segment → Segment → Bool)
        → all.now ≡ listed_cycles (record query.now { max = MANY }) before edges.now
        → IfOk result
        (λ soon. IfSome soon (λ found. found ≡ listed_findings query.now before edges.now)) }
{
    if all.more {
        return Ok(None);
    }
    let classes = classes_of(alloc, edges.entries())?;
    let Some(firsts) = firsts_of(alloc, &classes, all.cycles.as_slice())? else {
        return Ok(None);
    };
    let findings = in_order(alloc, firsts, query.max() as usize + 1)?;
    Ok(Some(Found::listed(findings, query.max() as usize)))
}

// The same question, but for all cycles, where these aren't many.
fn for_many(query: &Query) -> Query
    ensures { result ≡ record query.now { max = MANY } }
{
    match Query::new(query.mode(), query.len(), MANY) {
        Ok(many) => many,
        Err(_) => unreachable!(),
    }
}

/// The first findings, told from all cycles where these are soon listed and aren't many. None where there are too
/// many.
pub(crate) fn findings_of_cycles(
    alloc: Global,
    edges: &EdgeList,
    order: &Order,
    query: &Query,
) -> Result<Option<Found>, Memory>
    ensures { IfOk result
        (λ soon. IfSome soon
        (λ found. found ≡ listed_findings query.now (is_before order.now) edges.now)) }
{
    let all = search(alloc, edges, order, &for_many(query))?;
    grouped(alloc, edges, &all, query)
}

/// The same, on several threads.
pub(crate) fn findings_of_cycles_parallel(
    rt: &(impl Threads + Sync),
    alloc: Global,
    edges: &EdgeList,
    order: &Order,
    query: &Query,
) -> Result<Option<Found>, Memory>
    ensures { IfOk result
        (λ soon. IfSome soon
        (λ found. found ≡ listed_findings query.now (is_before order.now) edges.now)) }
{
    let all = search_parallel(rt, alloc, edges, order, &for_many(query))?;
    grouped(alloc, edges, &all, query)
}
