//! Edges as they come, sorted from time to time.
//!
//! Nearly each edge that comes is a new one. To put it into a tree takes a search along the tree, once to see whether
//! it is there and once more to put it in; to append it and to sort all at the end takes less time. Where the same
//! locks are taken in very many orders most edges are repeats: then they are looked up among those that were sorted.
ghost use Rattle.std.specs.Prelude.{◌≡◌, true, [], ◌∷◌, ◌++◌, Contains, IsTrue, IfOk, OnOk};
ghost use Rattle.std.specs.Ordering.{eq_by_cmp, is_le};
ghost use Rattle.std.specs.List.Sorted.{IsPermutation, IsSorted};
ghost use Rattle.gl_edges.specs.Edges.{once};
ghost use Rattle.gl_edges.specs.declared.edge.Sample.{Sample};
ghost use Rattle.gl_edges.specs.Order.{edge_cmp, sample_cmp, AreAscending};
ghost use Rattle.gl_edges.specs.bodies.Batches.{pair_cmp};

use crate::edge::{Edge, Sample};
use crate::list::EdgeList;
use crate::table::Table;
use gl_event::Memory;
use std::alloc::Global;
use std::marker::Model;
use std::mem::swap;

// So many pairs more than twice those that were left the last time come before they are sorted.
const SPARE: usize = 16_384;

/// Edges that come in any order, each with a sample, and maybe more than once. Contracts see the ascending list of
/// these edges, each once, with its least sample.
#[derive(Drop)]
pub struct Batch {
    // Those of the lists that ended, which were sorted list by list.
    ended: Vec<(Edge, Sample)>,
    // Those of the current list, in the order in which they came.
    pairs: Vec<(Edge, Sample)>,
    // So many of these are sorted, from the first on.
    sorted: usize,
    // Whether a quarter of them were repeats when they were sorted last.
    has_repeats: bool,
    // Before there are more than so many of the current list, they are sorted and freed of repeats.
    most: usize,
}

impl Model for Batch {
    ghost use Rattle.std.specs.Prelude.{List, ◌++◌};
    ghost use Rattle.gl_edges.specs.Edges.{once};
    ghost use Rattle.gl_edges.specs.declared.edge.Edge.{Edge};
    ghost use Rattle.gl_edges.specs.declared.edge.Sample.{Sample};

    ghost Value = { List (Edge × Sample) };

    ghost view = { λ b. once (b.ended.items ++ b.pairs.items) };
}

impl Batch {
    /// No edges. It takes no memory.
    pub fn new(alloc: Global) -> Batch
        ensures { result ≡ [] }
    {
        Batch {
            ended: Vec::new(alloc),
            pairs: Vec::new(alloc),
            sorted: 0,
            has_repeats: false,
            most: SPARE,
        }
    }

    /// How many pairs there are: no more than twice the edges of each list, and some 16,000.
    pub(crate) fn len(&self) -> usize {
        self.ended.len().saturating_add(self.pairs.len())
    }

    /// Puts all edges of the table in, each with its sample. Where there is no memory for them some may be in, or none.
    pub fn absorb(&mut self, alloc: Global, table: Table) -> Result<(), Memory>
        ensures { OnOk result (self.new ≡ once (self.old ++ table)) }
    {
        self.add_list(table.into_list(alloc)?)
    }

    /// Puts all edges of the list in, each with its sample. Where there is no memory for them none is in.
    pub(crate) fn add_list(&mut self, list: EdgeList) -> Result<(), Memory>
        ensures { OnOk result (self.new ≡ once (self.old ++ list)) }
    {
        let mut pairs = list.into_vec();
        move_behind(&mut self.pairs, &mut pairs)?;
        Ok(())
    }

    /// Puts a copy of the edge in. Where it is there already, the lesser of the two samples stays.
    pub(crate) fn keep(&mut self, alloc: Global, edge: &Edge, sample: Sample) -> Result<(), Memory>
        ensures { OnOk result (self.new ≡ once (self.old ++ (edge.now, sample) ∷ [])) }
    {
        self.make_room();
        if self.knows(edge, &sample) {
            return Ok(());
        }
        let copy = edge.copy(alloc)?;
        self.pairs.push((copy, sample))?;
        Ok(())
    }

    // Sorts the edges of the current list, where very many came since they were sorted last.
    fn make_room(&mut self)
        ensures { self.new ≡ self.old }
    {
        let came = self.pairs.len();
        if came < self.most {
            return;
        }
        compact(&mut self.pairs);
        self.sorted = self.pairs.len();
        self.has_repeats = self.sorted <= came - came / 4;
        self.most = self.sorted.saturating_mul(2).saturating_add(SPARE);
    }

    // Whether the edge is looked up, and found with a sample that isn't above this one.
    fn knows(&self, edge: &Edge, sample: &Sample) -> bool
        ensures { IsTrue result
            → once (self.now ++ (edge.now, sample.now) ∷ []) ≡ self.now }
    {
        if !self.has_repeats {
            return false;
        }
        let count = self.sorted.min(self.pairs.len());
        is_among(&self.pairs[..count], edge, sample)
    }

    /// Ends the current list: edges of another thread come.
    pub(crate) fn end_list(&mut self) -> Result<(), Memory>
        ensures { OnOk result (self.new ≡ self.old) }
    {
        compact(&mut self.pairs);
        move_behind(&mut self.ended, &mut self.pairs)?;
        self.sorted = 0;
        self.has_repeats = false;
        self.most = SPARE;
        Ok(())
    }

    /// The edges with their samples, ascending. What came ascending is merged.
    pub fn into_list(self) -> Result<EdgeList, Memory>
        ensures { IfOk result (λ l. l ≡ self) }
    {
        let Batch {
            ended: mut all,
            mut pairs,
            sorted: _,
            has_repeats: _,
            most: _,
        } = self;
        move_behind(&mut all, &mut pairs)?;
        compact(&mut all);
        Ok(EdgeList::from_ascending(all))
    }
}

/// Moves more pairs behind others. Where there are none yet, the two lists change places: nothing is copied.
pub(crate) fn move_behind(
    pairs: &mut Vec<(Edge, Sample)>,
    more: &mut Vec<(Edge, Sample)>,
) -> Result<(), Memory>
    ensures all { OnOk result (pairs.new.items ≡ pairs.old.items ++ more.old.items) }
    ensures moved { OnOk result (more.new.items ≡ []) }
{
    if pairs.is_empty() {
        swap(pairs, more);
        return Ok(());
    }
    pairs.append(more)?;
    Ok(())
}

// Sorts the pairs, by merging where there is memory for that: those that were sorted before stay together then.
fn sort(pairs: &mut Vec<(Edge, Sample)>)
    ensures same { IsPermutation pairs.old.items pairs.new.items }
    ensures sorted { IsSorted pair_cmp pairs.new.items }
{
    if pairs.sort().is_err() {
        pairs.sort_unstable();
    }
}

// Sorts the pairs, and leaves each edge once, with its least sample.
fn compact(pairs: &mut Vec<(Edge, Sample)>)
    ensures same { once pairs.new.items ≡ once pairs.old.items }
    ensures ascending { AreAscending pairs.new.items }
{
    sort(pairs);
    let is_repeated = |later: &mut (Edge, Sample), earlier: &mut (Edge, Sample)| -> bool
        ensures { (result ≡ eq_by_cmp edge_cmp later.entry.now.0 earlier.entry.now.0)
            × (later.exit.now ≡ later.entry.now) × (earlier.exit.now ≡ earlier.entry.now) }
    { later.0.cmp(&earlier.0).is_eq() };
    pairs.dedup_by(is_repeated);
}

// Whether a search among sorted pairs finds this edge with a sample that isn't above this one.
fn is_among(pairs: &[(Edge, Sample)], edge: &Edge, sample: &Sample) -> bool
    ensures { IsTrue result
        → (known : Sample) × Contains pairs.now (edge.now, known)
        × (is_le (sample_cmp known sample.now) ≡ true) }
{
    let Ok(at) = pairs.binary_search_by(|pair: &(Edge, Sample)| pair.0.cmp(edge)) else {
        return false;
    };
    match pairs.get(at) {
        Some(pair) => pair.0.cmp(edge).is_eq() && pair.1.cmp(sample).is_le(),
        None => false,
    }
}
