//! Tables of edges: each edge once, with its least sample.
ghost use Rattle.std.specs.Prelude.{◌≡◌, ◌↔◌, [], ◌∷◌, ◌++◌, false, Some, Contains, length, OnOk, OnErr, IfOk};
ghost use Rattle.std.specs.BTreeMap as tree;
ghost use Rattle.std.specs.Option.{option_map_or};
ghost use Rattle.std.specs.Ordering.{is_le};
ghost use Rattle.gl_edges.specs.Edges.{once};
ghost use Rattle.gl_edges.specs.Order.{edge_cmp, sample_cmp};

use crate::edge::{Edge, Sample};
use crate::list::EdgeList;
use gl_event::Memory;
use std::alloc::Global;
use std::collections::BTreeMap;
use std::marker::Model;

/// Edges, each once, with the least of the samples that it was inserted with. Contracts see the
/// ascending list of the edges with these samples.
#[derive(Drop, Debug)]
pub struct Table {
    edges: BTreeMap<Edge, Sample>,
}

impl Model for Table {
    ghost use Rattle.std.specs.Prelude.{List};
    ghost use Rattle.gl_edges.specs.declared.edge.Edge.{Edge};
    ghost use Rattle.gl_edges.specs.declared.edge.Sample.{Sample};
    ghost use Rattle.gl_edges.specs.Order.{AreAscending};

    ghost Value = { List (Edge × Sample) };

    ghost view = { λ t. t.edges.entries };

    ghost invariant = { λ t. AreAscending t.edges.entries };
}

impl Table {
    /// A table without edges. It takes no memory.
    pub fn new(alloc: Global) -> Table
        ensures { result ≡ [] }
    {
        Table {
            edges: BTreeMap::new(alloc),
        }
    }

    /// Puts an edge in. Where the table has the edge already, the lesser of the two samples stays.
    /// Where there is no memory for it the table stays as it was.
    ///
    /// It takes time logarithmic in the number of edges. An edge that the table has already takes no
    /// memory.
    pub fn insert(&mut self, edge: Edge, sample: Sample) -> Result<(), Memory>
        ensures inserted { OnOk result (self.new ≡ once (self.old ++ (edge, sample) ∷ [])) }
        ensures unchanged { OnErr result (self.new ≡ self.old) }
        ensures absent { OnErr result ((known : Sample) → ¬ Contains self.old (edge, known)) }
    {
        if has_seen(&self.edges, &edge, &sample) {
            return Ok(());
        }
        self.edges.insert(edge, sample)?;
        Ok(())
    }

    /// The same table once more, or that there is no memory for it. It copies each edge, in time
    /// logarithmic in the number of edges.
    pub fn copy(&self, alloc: Global) -> Result<Table, Memory>
        ensures { IfOk result (λ table. table ≡ self.now) }
    {
        let mut table = Table::new(alloc);
        for (edge, sample) in self.edges.iter() {
            table.insert(edge.copy(alloc)?, *sample)?;
        }
        Ok(table)
    }

    /// The edge's sample, if the table has the edge. It takes time logarithmic in the number of
    /// edges.
    pub fn get(&self, edge: &Edge) -> Option<Sample>
        ensures { (sample : Sample)
            → (result ≡ Some sample) ↔ Contains self.now (edge.now, sample) }
    {
        self.edges.get(edge).copied()
    }

    /// How many edges there are. It takes one step.
    pub fn len(&self) -> usize
        ensures { result ≡ length self.now }
    {
        self.edges.len()
    }

    /// Puts all edges of the other table in, each with its sample. Where there is no memory for one of
    /// them, some may be in.
    ///
    /// It takes time logarithmic in the number of edges for each of the other table's.
    pub fn absorb(&mut self, other: Table) -> Result<(), Memory>
        ensures { OnOk result (self.new ≡ once (self.old ++ other)) }
    {
        // Tells the proof that the edges ascend, for where no edge comes.
        let _ = &self.edges;
        for (edge, sample) in other.edges {
            self.insert(edge, sample)?;
        }
        Ok(())
    }

    /// The edges with their samples, ascending.
    pub fn into_list(self, alloc: Global) -> Result<EdgeList, Memory>
        ensures { IfOk result (λ list. list ≡ self) }
    {
        let pairs = self.edges.into_iter().collect(alloc)?;
        Ok(EdgeList::from_ascending(pairs))
    }
}

// Whether the edges have this one with a sample that is not above this one.
fn has_seen(edges: &BTreeMap<Edge, Sample>, edge: &Edge, sample: &Sample) -> bool
    ensures { result ≡ option_map_or (λ known. is_le (sample_cmp known sample.now))
        (tree.get edge_cmp edges.now edge.now) false }
{
    match edges.get(edge) {
        Some(known) => known <= sample,
        None => false,
    }
}
