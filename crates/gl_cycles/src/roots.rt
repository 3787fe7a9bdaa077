//! A search that begins at one root after the other, on several threads.
//!
//! Roots are dealt out in runs: the first few to one thread, and then each time as many as were dealt out
//! before, in pieces of one length. The search ends after the run in which there was enough. Each run goes
//! to its end, so that what is found, and in which order, doesn't depend on the threads.
ghost use Rattle.std.specs.Prelude.{◌≡◌, ◌-◌, ◌<◌, ◌≤◌, ◌++◌, ℕ, List, length, map, take, IfOk, OnOk};
ghost use Rattle.std.specs.List.{range_with_len};
ghost use Rattle.gl_cycles.specs.Cycles.{cycles_in};
ghost use Rattle.gl_cycles.specs.Roots.{first_below};
ghost use Rattle.gl_cycles.specs.bodies.Dealt.{first_with};

use crate::pieces::add_pieces;
use crate::runs::next_end;
use gl_event::Memory;
use rayon::prelude::*;
use std::alloc::Global;
use std::thread::Threads;

/// A search that begins at one root after the other. Roots have numbers from 0.
pub trait RootedSearch {
    // it can begin
    ghost IsReady: { Self → Type 0 };
    // how many roots there are
    ghost roots: { Self → ℕ };
    // how much is looked for
    ghost cap: { Self → ℕ };
    // all that there is from a root
    ghost found_from: { Self → ℕ → List (List ℕ) };

    /// How many roots there are.
    fn roots(&self) -> usize
        ensures { result ≡ roots self.now };

    /// How much is looked for.
    fn cap(&self) -> usize
        ensures { result ≡ cap self.now };

    /// Adds what there is from a root, up to the cap.
    ///
    /// Err where memory was refused.
    fn add_found_from(
        &self,
        alloc: Global,
        root: usize,
        found: &mut Vec<Vec<usize>>,
    ) -> Result<(), Memory>
        requires ready { IsReady self.now }
        requires there { root < roots self.now }
        requires room { length found.old.items ≤ cap self.now }
        ensures { OnOk result
            (cycles_in found.new.items
            ≡ take (cap self.now)
            (cycles_in found.old.items ++ found_from self.now root)) };
}

// What there is from a root, up to the cap.
fn found_from<S: RootedSearch>(
    alloc: Global,
    search: &S,
    root: usize,
) -> Result<Vec<Vec<usize>>, Memory>
    requires ready { S.IsReady search.now }
    requires there { root < S.roots search.now }
    ensures { IfOk result
        (λ found. cycles_in found.items
        ≡ take (S.cap search.now) (S.found_from search.now root)) }
{
    let mut found = Vec::new(alloc);
    search.add_found_from(alloc, root, &mut found)?;
    Ok(found)
}

// For each root from one to another what there is from it, up to the cap.
fn found_from_each<R: Threads + Sync, S: RootedSearch + Sync>(
    rt: &R,
    alloc: Global,
    search: &S,
    from: usize,
    to: usize,
) -> Result<Vec<Vec<Vec<usize>>>, Memory>
    requires ready { S.IsReady search.now }
    requires within { to ≤ S.roots search.now }
    ensures { IfOk result
        (λ pieces. map (λ piece. cycles_in piece.items) pieces.items
        ≡ map (λ root. take (S.cap search.now) (S.found_from search.now root))
        (range_with_len from (to - from))) }
{
    let found: Result<Vec<Vec<Vec<usize>>>, Memory> = (from..to)
        .into_par_iter()
        .map(
            |root: usize| -> Result<Vec<Vec<usize>>, Memory>
                requires { S.IsReady search.now × (root < S.roots search.now) }
                ensures { IfOk result
                    (λ found. cycles_in found.items
                    ≡ take (S.cap search.entry.now) (S.found_from search.entry.now root)) }
            { found_from(alloc, search, root) },
        )
        .with_min_len(1)
        .collect(rt, alloc)?;
    found
}

// Adds what there is from the roots from one to another, up to the cap.
fn add_run<R: Threads + Sync, S: RootedSearch + Sync>(
    rt: &R,
    alloc: Global,
    search: &S,
    alone: usize,
    from: usize,
    to: usize,
    found: &mut Vec<Vec<usize>>,
) -> Result<(), Memory>
    requires ready { S.IsReady search.now }
    requires up { from ≤ to }
    requires within { to ≤ S.roots search.now }
    requires room { length found.old.items ≤ S.cap search.now }
    ensures { OnOk result
        (cycles_in found.new.items
        ≡ first_with (S.cap search.now) (S.found_from search.now)
        (cycles_in found.old.items) from to) }
{
    let cap = search.cap();
    if found.len() >= cap {
        return Ok(());
    }
    if to - from <= alone {
        return add_alone(alloc, search, from, to, found);
    }
    let pieces = found_from_each(rt, alloc, search, from, to)?;
    add_pieces(alloc, found, &pieces, cap)
}

// The same in one thread.
fn add_alone<S: RootedSearch>(
    alloc: Global,
    search: &S,
    from: usize,
    to: usize,
    found: &mut Vec<Vec<usize>>,
) -> Result<(), Memory>
    requires ready { S.IsReady search.now }
    requires up { from ≤ to }
    requires within { to ≤ S.roots search.now }
    requires room { length found.old.items ≤ S.cap search.now }
    ensures { OnOk result
        (cycles_in found.new.items
        ≡ first_with (S.cap search.now) (S.found_from search.now)
        (cycles_in found.old.items) from to) }
{
    for root in from..to {
        search.add_found_from(alloc, root, found)?;
    }
    Ok(())
}

/// Goes on with a search at a root, where it has what there is from those before: the first of what there is
/// from all roots, up to the cap. Up to so many roots are looked at in one thread: for so few, others don't
/// pay.
///
/// Err where memory was refused.
pub fn found_by_roots<R: Threads + Sync, S: RootedSearch + Sync>(
    rt: &R,
    alloc: Global,
    search: &S,
    alone: usize,
    from: usize,
    found: Vec<Vec<usize>>,
) -> Result<Vec<Vec<usize>>, Memory>
    requires ready { S.IsReady search.now }
    requires some { 0 < alone }
    requires within { from ≤ S.roots search.now }
    requires found { cycles_in found.items
        ≡ first_below (S.cap search.now) (S.found_from search.now) from }
    ensures { IfOk result
        (λ found. cycles_in found.items
        ≡ first_below (S.cap search.now) (S.found_from search.now) (S.roots search.now)) }
{
    let size = search.roots();
    let mut found = found;
    let mut done = from;
    while done < size {
        let end = next_end(from, done, size, alone);
        add_run(rt, alloc, search, alone, done, end, &mut found)?;
        done = end;
    }
    Ok(found)
}
