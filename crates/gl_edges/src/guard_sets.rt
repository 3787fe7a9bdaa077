//! Guard sets with numbers.
ghost use Rattle.std.specs.Prelude.{◌≡◌, ◌<◌, List, Some, length, slice_get, IfOk};
ghost use Rattle.gl_edges.specs.Clashes.{guards_clash};
ghost use Rattle.gl_edges.specs.Numbered.{guards_in, AreNumbered};
ghost use Rattle.gl_edges.specs.declared.guards.Guard.{Guard};

use crate::guards::Guards;
use crate::list::EdgeList;
use crate::numberer::Numberer;
use gl_event::Memory;
use std::alloc::Global;
use std::marker::Model;

/// A number for the guard set of each edge of a list, from 0 in order of first position: equal sets
/// have equal numbers. Each set is kept once.
#[derive(Drop, Debug)]
pub struct GuardSets {
    ids: Vec<usize>,
    sets: Vec<Guards>,
}

impl Model for GuardSets {
    ghost use Rattle.gl_edges.specs.Numbered.{Numbering};

    ghost Value = { Numbering };

    ghost view = { λ g. record { ids = g.ids.items; sets = g.sets.items } };
}

impl GuardSets {
    /// The numbers of the guard sets of these edges. A look-up for each edge, and two copies of each
    /// set.
    ///
    /// Err where memory was refused.
    pub fn of(alloc: Global, edges: &EdgeList) -> Result<GuardSets, Memory>
        ensures { IfOk result (λ sets. AreNumbered (guards_in edges.now) sets) }
    {
        let pairs = edges.entries();
        let mut numberer = Numberer::new(alloc);
        for i in 0..pairs.len() {
            numberer.add(alloc, &pairs[i].0.guards)?;
        }
        Ok(GuardSets {
            ids: numberer.ids,
            sets: numberer.sets,
        })
    }

    /// The number of the guard set of the edge at a position.
    pub fn id(&self, position: usize) -> usize
        requires { position < length self.now.ids }
        ensures { slice_get self.now.ids position ≡ Some result }
    {
        self.ids[position]
    }

    /// Whether the guard sets with these numbers clash: there is a lock that both have, and not both
    /// shared. One walk through both.
    pub fn clash(&self, a: usize, b: usize) -> bool
        requires one { a < length self.now.sets }
        requires other { b < length self.now.sets }
        ensures { (guards others : List Guard) → slice_get self.now.sets a ≡ Some guards
            → slice_get self.now.sets b ≡ Some others
            → result ≡ guards_clash guards others }
    {
        self.sets[a].clash_with(&self.sets[b])
    }
}
