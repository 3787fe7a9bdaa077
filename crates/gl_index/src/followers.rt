//! An index of the edges that may follow an edge.
ghost use Rattle.std.specs.Prelude.{◌≡◌, ◌+◌, ◌<◌, ℕ, Bool, true, false, List, length, map, slice_get, vec_len, Some, IfOk};
ghost use Rattle.gl_filters.specs.Picked.{edges_of_table};
ghost use Rattle.gl_index.specs.Listed.{IsNextWith};
ghost use Rattle.gl_index.specs.Indexes.{IsIndexOf, first_in_chain, held_lock};
ghost use Rattle.gl_edges.specs.declared.edge.Edge.{Edge};

use crate::chains::Chain;
use crate::closers::Closers;
use crate::sides::Side;
use gl_edges::{Edge, Sample};
use gl_event::Memory;
use std::alloc::Global;

/// Leads from an edge through the positions of its followers, ascending. These are the edges that
/// hold the lock which it wants, but for those that are left out.
#[derive(Drop)]
pub struct Followers {
    /// For each position the first follower of the edge there.
    pub first: Vec<Option<usize>>,
    /// For each position the next one with the same held lock.
    pub next: Vec<Option<usize>>,
    /// The followers by the lock to which they lead.
    pub closers: Closers,
}

impl Followers {
    /// The index of the edges of a table, of which some are kept. Four look-ups for each edge
    /// at most, three of them by lock.
    ///
    /// Err where memory was refused.
    pub fn of(alloc: Global, table: &[(Edge, Sample)], kept: &[bool]) -> Result<Followers, Memory>
        requires { length kept.now ≡ length table.now }
        ensures { IfOk result (λ index. IsIndexOf (edges_of_table table.now) kept.now index) }
    {
        let holders = Chain::of_kept(alloc, table, Side::Leader, kept)?;
        let first = firsts(alloc, table, &holders)?;
        Ok(Followers {
            first,
            next: holders.next,
            closers: Closers::of(alloc, table, kept)?,
        })
    }

    /// The position of the first follower of the edge at `i`.
    pub fn begin(&self, i: usize) -> Option<usize>
        requires { i < vec_len self.now.first }
        ensures { (edges : List Edge) (kept : List Bool) (e : Edge)
            → IsIndexOf edges kept self.now
            → slice_get edges i ≡ Some e → IsNextWith held_lock edges kept e.wanted 0 result }
    {
        self.first[i]
    }

    /// The position after `i` of the next edge that holds the lock which the edge at `i` holds.
    pub fn after(&self, i: usize) -> Option<usize>
        requires { i < vec_len self.now.next }
        ensures { (edges : List Edge) (kept : List Bool) (e : Edge)
            → IsIndexOf edges kept self.now
            → slice_get edges i ≡ Some e
            → IsNextWith held_lock edges kept e.held (i + 1) result }
    {
        self.next[i]
    }
}

// For each edge the first position of the lock that it wants.
fn firsts(
    alloc: Global,
    table: &[(Edge, Sample)],
    holders: &Chain,
) -> Result<Vec<Option<usize>>, Memory>
    ensures { IfOk result
        (λ firsts. firsts.items
        ≡ map (λ pair. first_in_chain holders.now pair.0.wanted) table.now) }
{
    let mut firsts = Vec::new(alloc);
    for i in 0..table.len() {
        firsts.push(holders.first.get(table[i].0.wanted))?;
    }
    Ok(firsts)
}
