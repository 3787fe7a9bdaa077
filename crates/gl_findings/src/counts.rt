//! Of each class of edges how many threads made them, and on how many locks.
ghost use Rattle.std.specs.Prelude.{◌≡◌, ◌≢◌, ◌+◌, ◌^◌, ◌<◌, ℕ, List, [], ◌∷◌, ◌++◌, Some, length, map, slice_get, IfOk, OnErr, OnOk};
ghost use Rattle.std.specs.HashSet.{contains};
ghost use Rattle.gl_edges.specs.declared.edge.Edge.{Edge};
ghost use Rattle.gl_edges.specs.declared.edge.Sample.{Sample};
ghost use Rattle.gl_findings.specs.Counts.{counts_of};
ghost use Rattle.gl_grounds.specs.Classes.{classes_of, are_places};
ghost use Rattle.gl_findings.specs.bodies.Tallies.{AreCounted, IsTally, locks_of, noted_by, threads_of};

use gl_edges::{Edge, Sample};
use gl_event::Memory;
use gl_grounds::classes_of;
use std::alloc::Global;
use std::collections::HashSet;

/// What is counted of all edges of a class.
#[derive(Clone, Copy, Debug, PartialEq, Eq)]
pub struct ClassCounts {
    /// How many threads made them, each counted once.
    pub threads: usize,
    /// How many locks they hold or want, each counted once.
    pub locks: usize,
}

/// What is counted of the class of each edge. Three look-ups for an edge beside those of its class.
///
/// Err where memory was refused, and never where there is no edge.
pub fn class_counts(alloc: Global, table: &[(Edge, Sample)]) -> Result<Vec<ClassCounts>, Memory>
    ensures counts { IfOk result (λ counts. counts.items ≡ map (counts_of table.now) table.now) }
    ensures memory { OnErr result (table.now ≢ []) }
{
    if table.is_empty() {
        return Ok(Vec::new(alloc));
    }
    let classes = classes_of(alloc, table)?;
    let threads = threads_by_class(alloc, table, &classes)?;
    let locks = locks_by_class(alloc, table, &classes)?;
    counts_by_edge(alloc, table, &classes, &threads, &locks)
}

// For each class how many threads made its edges.
fn threads_by_class(
    alloc: Global,
    table: &[(Edge, Sample)],
    classes: &[usize],
) -> Result<Vec<usize>, Memory>
    requires { classes.now ≡ classes_of table.now }
    ensures long { IfOk result (λ counts. length counts.items ≡ length table.now) }
    ensures counted { IfOk result
        (λ counts. AreCounted (noted_by threads_of table.now table.now) counts.items) }
{
    let mut seen = HashSet::new(alloc);
    let mut counts = vec![in alloc; 0; table.len()]?;
    for i in 0..table.len() {
        note(
            &mut seen,
            &mut counts,
            classes[i],
            table[i].0.thread.number(),
        )?;
    }
    Ok(counts)
}

// For each class how many locks its edges hold or want.
fn locks_by_class(
    alloc: Global,
    table: &[(Edge, Sample)],
    classes: &[usize],
) -> Result<Vec<usize>, Memory>
    requires { classes.now ≡ classes_of table.now }
    ensures long { IfOk result (λ counts. length counts.items ≡ length table.now) }
    ensures counted { IfOk result
        (λ counts. AreCounted (noted_by locks_of table.now table.now) counts.items) }
{
    let mut seen = HashSet::new(alloc);
    let mut counts = vec![in alloc; 0; table.len()]?;
    for i in 0..table.len() {
        let edge = &table[i].0;
        note(&mut seen, &mut counts, classes[i], edge.held.number())?;
        note(&mut seen, &mut counts, classes[i], edge.wanted.number())?;
    }
    Ok(counts)
}

// Notes a number for a class, and counts it where it is a new one there.
fn note(
    seen: &mut HashSet<(usize, u32)>,
    counts: &mut Vec<usize>,
    class: usize,
    number: u32,
) -> Result<(), Memory>
    requires there { class < length counts.old.items }
    requires small { (count : ℕ) → slice_get counts.old.items class ≡ Some count
        → count + 1 < 2 ^ 64 }
    ensures long { length counts.new.items ≡ length counts.old.items }
    ensures tally { (noted : List (ℕ × ℕ))
        → IsTally noted (contains are_places seen.old) counts.old.items
        → OnOk result (IsTally (noted ++ (class, number) ∷ [])
        (contains are_places seen.new) counts.new.items) }
{
    if seen.insert((class, number))? {
        counts[class] += 1;
    }
    Ok(())
}

// The counts of the class of each edge.
fn counts_by_edge(
    alloc: Global,
    table: &[(Edge, Sample)],
    classes: &[usize],
    threads: &[usize],
    locks: &[usize],
) -> Result<Vec<ClassCounts>, Memory>
    requires classes { classes.now ≡ classes_of table.now }
    requires threads_long { length threads.now ≡ length table.now }
    requires threads { AreCounted (noted_by threads_of table.now table.now) threads.now }
    requires locks_long { length locks.now ≡ length table.now }
    requires locks { AreCounted (noted_by locks_of table.now table.now) locks.now }
    ensures { IfOk result (λ counts. counts.items ≡ map (counts_of table.now) table.now) }
{
    let mut counts = Vec::with_capacity(alloc, classes.len())?;
    for &class in classes {
        counts.push(counts_at(threads, locks, class))?;
    }
    Ok(counts)
}

// The counts of a class.
fn counts_at(threads: &[usize], locks: &[usize], class: usize) -> ClassCounts
    requires threads { class < length threads.now }
    requires locks { class < length locks.now }
    ensures threads { slice_get threads.now class ≡ Some result.threads }
    ensures locks { slice_get locks.now class ≡ Some result.locks }
{
    ClassCounts {
        threads: threads[class],
        locks: locks[class],
    }
}
