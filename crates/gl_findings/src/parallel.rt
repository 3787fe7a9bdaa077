//! The search on several threads.
ghost use Rattle.std.specs.Prelude.{◌≡◌, take, IfOk};
ghost use Rattle.gl_segments.specs.Clocks.{is_before};
ghost use Rattle.gl_cycles.specs.Cycles.{cycles_in};
ghost use Rattle.gl_findings.specs.Findings.{findings};
ghost use Rattle.gl_findings.specs.bodies.Finding.{IsReady, IsUnbound};

use crate::finder::Finder;
use crate::roots::roots_of;
use gl_cycles::{RootedSearch, found_by_roots};
use gl_event::Memory;
use std::alloc::Global;
use std::thread::Threads;

// Up to how many classes are looked at in one thread: for so few, others don't pay.
const ALONE: usize = 16;

/// A search that begins at one of some classes after the other.
#[derive(Clone, Copy)]
struct ByClass<'s, 'a> {
    finder: &'s Finder<'a>,
    roots: &'s [usize],
}

impl RootedSearch for ByClass<'_, '_> {
    ghost use Rattle.std.specs.Prelude.{length};
    ghost use Rattle.gl_findings.specs.bodies.Finding.{CanFinish, all_of_root};

    ghost IsReady = { CanFinish };

    ghost roots = { λ s. length s.roots.now };

    ghost cap = { λ s. s.finder.now.cap };

    ghost found_from = { λ s i. all_of_root s.finder.now s.roots.now i };

    fn roots(&self) -> usize {
        self.roots.len()
    }

    fn cap(&self) -> usize {
        self.finder.cap
    }

    fn add_found_from(
        &self,
        alloc: Global,
        root: usize,
        found: &mut Vec<Vec<usize>>,
    ) -> Result<(), Memory> {
        self.finder.add_from(alloc, self.roots[root], found)
    }
}

/// The first findings, up to the cap. The classes with which signatures may begin are the roots of the
/// search.
pub(crate) fn first_findings(
    rt: &(impl Threads + Sync),
    alloc: Global,
    finder: &Finder<'_>,
) -> Result<Vec<Vec<usize>>, Memory>
    requires ready { IsReady finder.now }
    requires unbound { IsUnbound finder.now }
    ensures { IfOk result
        (λ found. cycles_in found.items
        ≡ take finder.now.cap
        (findings (is_before finder.now.order.now) finder.now.mode finder.now.len
        finder.now.table.now)) }
{
    let roots = roots_of(alloc, finder)?;
    let search = ByClass {
        finder,
        roots: &roots,
    };
    found_by_roots(rt, alloc, &search, ALONE, 0, Vec::new(alloc))
}
