//! Ascending lists of edges.
ghost use Rattle.std.specs.Prelude.{◌≡◌, [], ◌∷◌, ◌++◌, OnOk, OnErr};
ghost use Rattle.gl_edges.specs.Order.{AreAscending, IsAboveLast};

use crate::edge::{Edge, Sample};
use gl_event::Memory;
use std::alloc::Global;
use std::marker::Model;

/// Edges, each once and each above the one before it, with the sample of each. Contracts see the
/// list of the pairs.
#[derive(Drop, Debug)]
pub struct EdgeList {
    pairs: Vec<(Edge, Sample)>,
}

impl Model for EdgeList {
    ghost use Rattle.std.specs.Prelude.{List};
    ghost use Rattle.gl_edges.specs.declared.edge.Edge.{Edge};
    ghost use Rattle.gl_edges.specs.declared.edge.Sample.{Sample};
    ghost use Rattle.gl_edges.specs.Order.{AreAscending};

    ghost Value = { List (Edge × Sample) };

    ghost view = { λ l. l.pairs.items };

    ghost invariant = { λ l. AreAscending l.pairs.items };
}

impl EdgeList {
    /// No edges.
    pub fn new(alloc: Global) -> EdgeList
        ensures { result ≡ [] }
    {
        EdgeList {
            pairs: Vec::new(alloc),
        }
    }

    /// The list of these pairs, whose edges have to ascend.
    pub fn from_ascending(pairs: Vec<(Edge, Sample)>) -> EdgeList
        requires { AreAscending pairs.items }
        ensures { result ≡ pairs.items }
    {
        EdgeList { pairs }
    }

    /// The pairs, whose edges ascend.
    pub fn into_vec(self) -> Vec<(Edge, Sample)>
        ensures pairs { result.items ≡ self }
        ensures ascending { AreAscending self }
    {
        self.pairs
    }

    /// Appends an edge, which is above the last one, with its sample. Where there is no memory for
    /// it the list stays as it was.
    pub fn push(&mut self, edge: Edge, sample: Sample) -> Result<(), Memory>
        requires { IsAboveLast self.old edge }
        ensures appended { OnOk result (self.new ≡ self.old ++ (edge, sample) ∷ []) }
        ensures unchanged { OnErr result (self.new ≡ self.old) }
    {
        self.pairs.push((edge, sample))?;
        Ok(())
    }

    /// The edges with their samples, ascending.
    pub fn entries(&self) -> &[(Edge, Sample)]
        ensures pairs { result.now ≡ self.now }
        ensures ascending { AreAscending self.now }
    {
        self.pairs.as_slice()
    }
}
