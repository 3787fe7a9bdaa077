//! What is asked of the edges of lists of events.
use gl_cycles::{Found, Trimmed};
use gl_filters::{Mode, Query};
use gl_findings::ClassCounts;
use gl_pruning::{Sought, kept_at_first, leave_out_in_turn, limits_by_edge, shortened};
use gl_worked::cycles::are_cycles;
use gl_worked::known::Known;
use std::alloc::Global;
use std::thread::Threads;

// Cycles, by the positions of their edges.
pub(super) type Wanted = &'static [&'static [usize]];

#[derive(Clone, Copy)]
pub(super) enum Ask {
    // the cycles of the mode and of at most so many edges, among a thousand
    All(Mode, u32, Wanted),
    // so many cycles of at most four edges, and whether there are more
    First(u32, Wanted, bool),
    // the same by several threads: the first of them
    Parallel(u32, Wanted, bool),
    // which edges may be in a cycle of the mode and of at most so many edges
    Sought(Mode, u32, &'static [bool]),
    // how many may
    Count(Mode, u32, usize),
    // how many edges of the mode are kept at first
    AtFirst(Mode, usize),
    // how many are still where no two edges are looked at to leave others out
    Effortless(Mode, usize),
    // how many edges a cycle of the mode can have, of at most so many, as far as threads and gate locks tell
    Longest(Mode, u32, usize),
    // how many edges a cycle of the mode with each edge can have, of at most so many, as far as components tell
    Limits(Mode, u32, &'static [usize]),
    // which edges trimming keeps in the mode, and which it removes, in this order
    Trimmed(Mode, &'static [usize], &'static [usize]),
    // which edges may lie on a loop
    OnLoops(&'static [bool]),
    // so many findings of the mode and of at most so many edges, by the cycles that show them, and whether there are
    // more: by one thread and by several
    Findings(Mode, u32, u32, Wanted, bool),
    // how many threads and locks the class of each edge has
    Classes(&'static [(usize, usize)]),
}

// Whether it is answered so.
pub(super) fn answers<R: Threads + Sync>(rt: &R, alloc: Global, known: &Known, ask: &Ask) -> bool {
    match *ask {
        Ask::All(mode, len, wanted) => finds(alloc, known, (mode, len, 1_000), wanted, false),
        Ask::First(max, wanted, more) => finds(alloc, known, (Mode::Full, 4, max), wanted, more),
        Ask::Parallel(max, wanted, more) => finds_parallel(rt, alloc, known, max, wanted, more),
        Ask::Sought(mode, len, wanted) => is_sought(rt, alloc, known, (mode, len), wanted),
        Ask::Count(mode, len, wanted) => is_count(rt, alloc, known, (mode, len), wanted),
        Ask::AtFirst(mode, wanted) => count_at_first(alloc, known, mode) == Some(wanted),
        Ask::Effortless(mode, wanted) => count_effortless(alloc, known, mode) == Some(wanted),
        Ask::Longest(mode, len, wanted) => longest(alloc, known, (mode, len)) == Some(wanted),
        Ask::Limits(mode, len, wanted) => is_limited(alloc, known, (mode, len), wanted),
        Ask::Trimmed(mode, kept, removed) => is_trimmed(alloc, known, mode, kept, removed),
        Ask::OnLoops(wanted) => is_on_loops(alloc, known, wanted),
        Ask::Findings(mode, len, max, wanted, more) => {
            is_found(rt, alloc, known, (mode, len, max), wanted, more)
        }
        Ask::Classes(wanted) => has_classes(alloc, known, wanted),
    }
}

// Whether these cycles were found, and whether there are more.
pub(super) fn shows(found: &Found, wanted: &[&[usize]], more: bool) -> bool {
    found.more == more && are_cycles(found.cycles.as_slice(), wanted)
}

// The query for a mode, a length and a number of cycles.
fn query_for(asked: (Mode, u32, u32)) -> Option<Query> {
    Query::new(asked.0, asked.1, asked.2).ok()
}

// Searches these edges, of which nothing is told; so it is with the next ones.
pub(super) fn search(alloc: Global, known: &Known, asked: (Mode, u32, u32)) -> Option<Found> {
    let query = query_for(asked)?;
    gl_cycles::search(alloc, &known.edges, &known.order, &query).ok()
}

pub(super) fn search_parallel<R: Threads + Sync>(
    rt: &R,
    alloc: Global,
    known: &Known,
    asked: (Mode, u32, u32),
) -> Option<Found> {
    let query = query_for(asked)?;
    gl_cycles::search_parallel(rt, alloc, &known.edges, &known.order, &query).ok()
}

// Whether the cycles are these.
fn finds(
    alloc: Global,
    known: &Known,
    asked: (Mode, u32, u32),
    wanted: &[&[usize]],
    more: bool,
) -> bool {
    match search(alloc, known, asked) {
        Some(found) => shows(&found, wanted, more),
        None => false,
    }
}

// Whether so many cycles were found, these are the first of them, and whether there are more.
fn begins_with(found: &Found, count: usize, first: &[&[usize]], more: bool) -> bool {
    let cycles = found.cycles.as_slice();
    cycles.len() == count
        && first.len() <= count
        && are_cycles(&cycles[..first.len()], first)
        && found.more == more
}

// Whether so many cycles are found on several threads, and these are the first of them.
fn finds_parallel<R: Threads + Sync>(
    rt: &R,
    alloc: Global,
    known: &Known,
    max: u32,
    first: &[&[usize]],
    more: bool,
) -> bool {
    match search_parallel(rt, alloc, known, (Mode::Full, 4, max)) {
        Some(found) => begins_with(&found, max as usize, first, more),
        None => false,
    }
}

// Which edges may be in a cycle, as one thread finds them.
fn sought_alone(alloc: Global, known: &Known, asked: (Mode, u32)) -> Option<Vec<bool>> {
    let query = query_for((asked.0, asked.1, 1))?;
    gl_cycles::edges_sought(alloc, &known.edges, &known.order, &query).ok()
}

// The same, found on several threads.
fn sought_by_parts<R: Threads + Sync>(
    rt: &R,
    alloc: Global,
    known: &Known,
    asked: (Mode, u32),
) -> Option<Vec<bool>> {
    let query = query_for((asked.0, asked.1, 1))?;
    gl_cycles::edges_sought_parallel(rt, alloc, &known.edges, &known.order, &query).ok()
}

// Whether several threads find these.
fn is_by_parts<R: Threads + Sync>(
    rt: &R,
    alloc: Global,
    known: &Known,
    asked: (Mode, u32),
    wanted: &[bool],
) -> bool {
    match sought_by_parts(rt, alloc, known, asked) {
        Some(flags) => flags.as_slice() == wanted,
        None => false,
    }
}

// How many edges are kept at first.
fn count_at_first(alloc: Global, known: &Known, mode: Mode) -> Option<usize> {
    let query = query_for((mode, 4, 1))?;
    let sought = Sought::of(&known.edges, &known.order, &query);
    let kept = kept_at_first(&sought, alloc).ok()?;
    Some(count_set(&kept))
}

// How many edges are kept where others are left out with no effort.
fn count_effortless(alloc: Global, known: &Known, mode: Mode) -> Option<usize> {
    let query = query_for((mode, 4, 1))?;
    let sought = Sought::of(&known.edges, &known.order, &query);
    let mut kept = kept_at_first(&sought, alloc).ok()?;
    leave_out_in_turn(&sought, alloc, 0, &mut kept).ok()?;
    Some(count_set(&kept))
}

// How many edges a cycle can have.
fn longest(alloc: Global, known: &Known, asked: (Mode, u32)) -> Option<usize> {
    let query = query_for((asked.0, asked.1, 1))?;
    let sought = Sought::of(&known.edges, &known.order, &query);
    let kept = kept_at_first(&sought, alloc).ok()?;
    let shorter = shortened(&sought, alloc, &kept).ok()?;
    Some(shorter.len)
}

// How many edges a cycle with each edge can have.
fn limits(alloc: Global, known: &Known, asked: (Mode, u32)) -> Option<Vec<usize>> {
    let query = query_for((asked.0, asked.1, 1))?;
    let sought = Sought::of(&known.edges, &known.order, &query);
    let kept = kept_at_first(&sought, alloc).ok()?;
    limits_by_edge(&sought, alloc, &kept).ok()
}

// Whether these are so many.
fn is_limited(alloc: Global, known: &Known, asked: (Mode, u32), wanted: &[usize]) -> bool {
    match limits(alloc, known, asked) {
        Some(limits) => limits.as_slice() == wanted,
        None => false,
    }
}

// Whether one thread finds these and several find the same.
fn is_sought<R: Threads + Sync>(
    rt: &R,
    alloc: Global,
    known: &Known,
    asked: (Mode, u32),
    wanted: &[bool],
) -> bool {
    match sought_alone(alloc, known, asked) {
        Some(flags) => flags.as_slice() == wanted && is_by_parts(rt, alloc, known, asked, wanted),
        None => false,
    }
}

// How many flags are set.
fn count_set(flags: &[bool]) -> usize {
    let mut count: usize = 0;
    for flag in flags {
        if *flag {
            count = count.saturating_add(1);
        }
    }
    count
}

// Whether one thread finds so many and several find the same.
fn is_count<R: Threads + Sync>(
    rt: &R,
    alloc: Global,
    known: &Known,
    asked: (Mode, u32),
    wanted: usize,
) -> bool {
    match sought_alone(alloc, known, asked) {
        Some(flags) => count_set(&flags) == wanted && is_by_parts(rt, alloc, known, asked, &flags),
        None => false,
    }
}

fn trimmed(alloc: Global, known: &Known, mode: Mode) -> Option<Trimmed> {
    gl_cycles::trim(alloc, &known.edges, &known.order, mode).ok()
}

// Whether these edges are kept and those are removed.
fn is_trimmed(alloc: Global, known: &Known, mode: Mode, kept: &[usize], removed: &[usize]) -> bool {
    match trimmed(alloc, known, mode) {
        Some(trimmed) => trimmed.kept.as_slice() == kept && trimmed.removed.as_slice() == removed,
        None => false,
    }
}

fn on_loops(alloc: Global, known: &Known) -> Option<Vec<bool>> {
    gl_cycles::edges_on_loops(alloc, known.edges.entries()).ok()
}

fn is_on_loops(alloc: Global, known: &Known, wanted: &[bool]) -> bool {
    match on_loops(alloc, known) {
        Some(flags) => flags.as_slice() == wanted,
        None => false,
    }
}

fn findings(alloc: Global, known: &Known, asked: (Mode, u32, u32)) -> Option<Found> {
    let query = query_for(asked)?;
    gl_findings::findings(alloc, &known.edges, &known.order, &query).ok()
}

fn findings_parallel<R: Threads + Sync>(
    rt: &R,
    alloc: Global,
    known: &Known,
    asked: (Mode, u32, u32),
) -> Option<Found> {
    let query = query_for(asked)?;
    gl_findings::findings_parallel(rt, alloc, &known.edges, &known.order, &query).ok()
}

// Whether several threads find these.
fn is_found_parallel<R: Threads + Sync>(
    rt: &R,
    alloc: Global,
    known: &Known,
    asked: (Mode, u32, u32),
    wanted: &[&[usize]],
    more: bool,
) -> bool {
    match findings_parallel(rt, alloc, known, asked) {
        Some(found) => shows(&found, wanted, more),
        None => false,
    }
}

// Whether one thread finds these, and so do several.
fn is_found<R: Threads + Sync>(
    rt: &R,
    alloc: Global,
    known: &Known,
    asked: (Mode, u32, u32),
    wanted: &[&[usize]],
    more: bool,
) -> bool {
    match findings(alloc, known, asked) {
        Some(found) => {
            shows(&found, wanted, more) && is_found_parallel(rt, alloc, known, asked, wanted, more)
        }
        None => false,
    }
}

fn class_counts(alloc: Global, known: &Known) -> Option<Vec<ClassCounts>> {
    gl_findings::class_counts(alloc, known.edges.entries()).ok()
}

// Whether these are the counts of threads and locks.
fn are_counts(counts: &[ClassCounts], wanted: &[(usize, usize)]) -> bool {
    if counts.len() != wanted.len() {
        return false;
    }
    for (count, want) in counts.iter().zip(wanted) {
        if (count.threads, count.locks) != *want {
            return false;
        }
    }
    true
}

fn has_classes(alloc: Global, known: &Known, wanted: &[(usize, usize)]) -> bool {
    match class_counts(alloc, known) {
        Some(counts) => are_counts(&counts, wanted),
        None => false,
    }
}
