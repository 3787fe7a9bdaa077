//! The last round of a search, on several threads.
ghost use Rattle.std.specs.Prelude.{◌≡◌, take, IfOk};
ghost use Rattle.gl_segments.specs.Clocks.{is_before};
ghost use Rattle.gl_filters.specs.Picked.{edges_of_table};
ghost use Rattle.gl_cycles.specs.Cycles.{cycles_in};
ghost use Rattle.gl_cycles.specs.AllCycles.{all_cycles};
ghost use Rattle.gl_cycles.specs.bodies.Searching.{CanFinish, HasFound, sought_by};

use crate::paths::Searcher;
use crate::roots::{RootedSearch, found_by_roots};
use gl_event::Memory;
use std::alloc::Global;
use std::thread::Threads;

// Up to how many edges are looked at in one thread: for so few, others don't pay.
const ALONE: usize = 32;

// The roots are the edges, by their positions.
impl RootedSearch for Searcher<'_> {
    ghost use Rattle.std.specs.Prelude.{length, ◌∷◌, []};
    ghost use Rattle.gl_cycles.specs.bodies.Searching.{CanFinish, all_from};

    ghost IsReady = { CanFinish };

    ghost roots = { λ s. length s.table.now };

    ghost cap = { λ s. s.cap };

    ghost found_from = { λ s root. all_from s (root ∷ []) };

    fn roots(&self) -> usize {
        self.table.len()
    }

    fn cap(&self) -> usize {
        self.cap
    }

    fn add_found_from(
        &self,
        alloc: Global,
        root: usize,
        found: &mut Vec<Vec<usize>>,
    ) -> Result<(), Memory> {
        self.add_from(alloc, root, found)
    }
}

/// The first cycles, up to the cap, of which those that begin with edges before a root were found.
pub(crate) fn first_cycles(
    rt: &(impl Threads + Sync),
    alloc: Global,
    search: &Searcher<'_>,
    from: usize,
    found: Vec<Vec<usize>>,
) -> Result<Vec<Vec<usize>>, Memory>
    requires finishes { CanFinish search.now }
    requires found { HasFound (sought_by search.now) search.now.cap from
        (cycles_in found.items) }
    ensures { IfOk result
        (λ found. cycles_in found.items
        ≡ take search.now.cap
        (all_cycles (is_before search.now.order.now) search.now.mode search.now.len
        (edges_of_table search.now.table.now))) }
{
    found_by_roots(rt, alloc, search, ALONE, from, found)
}
