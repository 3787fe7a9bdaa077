//! The keys by which edges are looked up.
ghost use Rattle.std.specs.Prelude.{◌≡◌, ◌<◌, length, IfOk};
ghost use Rattle.gl_filters.specs.Picked.{edges_of_table};
ghost use Rattle.gl_walks.specs.bodies.Listing.{key_at};
ghost use Rattle.gl_walks.specs.bodies.Fronts.{IsChainOf};

use crate::chains::Chain;
use crate::ground::Ground;
use gl_event::{LockId, Memory};
use std::alloc::Global;

/// By what edges are looked up.
#[derive(Clone, Copy)]
pub(crate) enum Keyed {
    /// Their class.
    ByClass,
    /// Their class, and the lock that they hold.
    ByLock,
}

impl Ground<'_> {
    // The key of the edge at a position, and none where the edge isn't flagged.
    fn key(&self, keyed: Keyed, i: usize) -> Option<(usize, Option<LockId>)>
        requires there { i < length self.now.table.now }
        requires classes { length self.now.classes.now ≡ length self.now.table.now }
        requires flags { length self.now.flags.now ≡ length self.now.table.now }
        ensures { result ≡ key_at keyed (edges_of_table self.now.table.now) self.now.classes.now
            self.now.flags.now i }
    {
        if !self.flags[i] {
            return None;
        }
        match keyed {
            Keyed::ByClass => Some((self.classes[i], None)),
            Keyed::ByLock => Some((self.classes[i], Some(self.table[i].0.held))),
        }
    }

    /// The index of the flagged edges. Two look-ups for each of them.
    pub(crate) fn chain(&self, alloc: Global, keyed: Keyed) -> Result<Chain, Memory>
        requires classes { length self.now.classes.now ≡ length self.now.table.now }
        requires flags { length self.now.flags.now ≡ length self.now.table.now }
        ensures { IfOk result (λ chain. IsChainOf keyed self.now chain) }
    {
        let mut chain = Chain::new(alloc, self.table.len())?;
        for i in (0..self.table.len()).rev() {
            chain.put(i, self.key(keyed, i))?;
        }
        Ok(chain)
    }
}
