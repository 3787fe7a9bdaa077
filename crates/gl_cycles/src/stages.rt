//! The stages of a search.
//!
//! Most traces have few edges that could lie on a cycle, or so many cycles that the first ones are
//! found at once: there a plain search is the quickest. In others edges lead to each other in a knot
//! and make no cycle, and a plain search takes as long as there are paths, which may be for ever. Then
//! it helps to leave out edges that are in no cycle. Which of both it is shows only on the way. So a
//! search begins among the edges that lie on loops and aren't alone among edges of their own thread,
//! which are soon found, and takes no more than some steps for each edge. Where it isn't through by
//! then, edges are left out with about as much effort, and the search goes on at the root where it
//! stood, among those that stay, with several times the steps: a round. What was found stays, since what is left out is in no cycle.
//! They are left out in the component of the lock-order graph in which the search stands, or in all but the greatest ones together:
//! others may be such that a plain search is through with them at once. Each has its turn once the search stands there. Only where it stands
//! there again they are left out in all components, and the search has several times the steps.
//!
//! From the second round on it is asked of each edge how long a cycle with it can be: in some parts of the lock-order graph none may be longer
//! than a few edges.
//!
//! In each round edges are left out for one reason after the other. Before the last round the efforts
//! are bound, so what comes too dear is tried again. In the last one edges are left out with all the
//! effort that each reason makes at most, and again as long as that leaves out many, and the search then goes on to its end, on
//! several threads if there are any. But where a round found a good part of the cycles that are looked for, the next ones only have
//! more steps: the search is on its way. Where there are, a round's steps are bound, as it goes on in one thread: what needs more
//! is dealt out.
ghost use Rattle.std.specs.Prelude.{◌≡◌, ◌<◌, ◌≤◌, ◌*◌, ◌-◌, ◌^◌, min, max, take, IfOk, IfSome, OnOk};
ghost use Rattle.gl_segments.specs.Clocks.{is_before};
ghost use Rattle.gl_filters.specs.Picked.{edges_of_table};
ghost use Rattle.gl_cycles.specs.Cycles.{cycles_in};
ghost use Rattle.gl_cycles.specs.AllCycles.{all_cycles};
ghost use Rattle.gl_sought.specs.Sought.{KeepsSought};
ghost use Rattle.gl_cycles.specs.bodies.Searching.{HasFound, HasLimits};
ghost use Rattle.gl_filters.specs.declared.lengths.TheConstants.{LONGEST};

use crate::parallel;
use crate::paths::Searcher;
use gl_event::Memory;
use gl_pruning::{
    ALL_EFFORT, Sought, kept_at_first, leave_out_around, leave_out_in_turn,
    leave_out_in_turn_parallel, limits_by_edge, shortened,
};
use std::alloc::Global;
use std::thread::Threads;

// The number of the last round, from 0.
const LAST: usize = 2;

// A search is near its end that has found one of so many of the cycles that it looks for, and so many at least: a round has about
// so many times the steps of the one before.
const NEAR: usize = 8;

// How many steps the last round has at most: a search is often through with these where no more edges can be left out, and leaving
// out with all the effort takes as long as several times as many.
const STEPS_LAST: usize = 16_000_000;

// The same for a search that is near its end.
const STEPS_NEAR: usize = 64_000_000;

// How often a search goes on at most before its last stage: twice for each part of the graph in which edges are left out by itself, and a few
// times more.
const TURNS: usize = 20;

// How many steps a round has at most where there are several threads.
const STEPS_ALONE: usize = 32_000_000;

// How many steps a search has at first for each edge, and how many at least.
const STEPS_OF_EDGE: usize = 64;

const STEPS: usize = 10_000;

// How many times the steps of the round before each round has.
const GROWTH: usize = 8;

// How many times edges are left out with all the effort at most.
const PASSES: usize = 8;

// Of how many edges one is to be left out, so that leaving out once more may pay.
const WORTH: usize = 8;

// What part of its steps the first round has in later turns: in the next part of the graph that no plain search goes through they are for nothing.
const LATER: usize = 4;

// What part of the effort each part of the graph gets where edges are left out in all of them.
const PARTS: usize = 4;

// How many steps are worth the effort for each reason of one: there are several reasons, and each takes
// as much effort twice.
const SHARE: usize = 4;

/// How many steps a search has at first, among so many edges. Where it isn't through by then, leaving edges out may pay.
pub fn first_steps(edges: usize) -> usize
    ensures { result ≡ max (min (edges * 64) (2 ^ 64 - 1)) 10000 }
{
    edges.saturating_mul(STEPS_OF_EDGE).max(STEPS)
}

// How many steps the search of a round has, among so many edges.
fn steps_of(round: usize, edges: usize) -> usize {
    let mut steps = first_steps(edges);
    for _ in 0..round {
        steps = steps.saturating_mul(GROWTH);
    }
    steps
}

// Where a search stands between its rounds.
#[derive(Drop)]
struct Standing {
    // the root at which it stands
    root: usize,
    // the number of the round that is next, from 0
    round: usize,
    // whether it is near its end
    is_near: bool,
    // for each edge how often edges were left out in its part of the graph
    times: Vec<usize>,
}

// How many of these steps the next round has in a turn where there may be no more than so many: the first one has all, and in later
// turns a part.
fn steps_within(turn: usize, standing: &Standing, steps: usize, most: usize) -> usize {
    if standing.round == 0 {
        return if turn == 0 { steps } else { steps / LATER };
    }
    if standing.round < LAST {
        return steps.min(most);
    }
    let bound = if standing.is_near {
        STEPS_NEAR
    } else {
        STEPS_LAST
    };
    steps.min(most).min(bound)
}

// How much effort a round makes for each reason, behind so many steps.
fn effort_of(steps: usize) -> usize {
    steps / SHARE
}

// Goes on with a search at a root within so many steps, among the edges that are kept. The root at
// which it stands then.
fn search_on(
    alloc: Global,
    sought: &Sought<'_>,
    cap: usize,
    effort: usize,
    kept: &[bool],
    limits: Option<Vec<usize>>,
    from: usize,
    found: &mut Vec<Vec<usize>>,
) -> Result<usize, Memory>
    requires some { 0 < sought.now.len }
    requires fits { sought.now.len ≤ LONGEST }
    requires kept { KeepsSought sought.now kept.now }
    requires limited { IfSome limits (λ limits. HasLimits sought.now limits.items) }
    requires found { HasFound sought.now cap from (cycles_in found.old.items) }
    ensures { IfOk result
        (λ to. HasFound sought.now cap to (cycles_in found.new.items)) }
{
    let kept = Vec::from_slice(alloc, kept)?;
    let search = Searcher::of(alloc, sought, cap, true, kept, limits)?;
    search.go_on(alloc, effort, from, found)
}

// For each edge how many edges a cycle with it has at most, in a turn. The first one doesn't ask: most searches end there.
fn limits_in(
    alloc: Global,
    sought: &Sought<'_>,
    turn: usize,
    kept: &[bool],
) -> Result<Option<Vec<usize>>, Memory>
    requires some { 0 < sought.now.len }
    requires kept { KeepsSought sought.now kept.now }
    ensures { IfOk result
        (λ limits. IfSome limits (λ limits. HasLimits sought.now limits.items)) }
{
    if turn == 0 {
        return Ok(None);
    }
    let limits = limits_by_edge(sought, alloc, kept)?;
    Ok(Some(limits))
}

// Whether edges were left out already in the part of the graph in which the edge at a position lies.
fn is_left_out(times: &[usize], position: usize) -> bool {
    match times.get(position) {
        Some(&count) => count > 0,
        None => true,
    }
}

// Whether a search that stands at a root has found the last one of these cycles in a part of the graph like the root's: edges were left out in
// both, or in neither.
fn is_alike(found: &[Vec<usize>], times: &[usize], root: usize) -> bool {
    let Some(cycle) = found.last() else {
        return true;
    };
    match cycle.first() {
        Some(&first) => is_left_out(times, first) == is_left_out(times, root),
        None => true,
    }
}

// Whether a search that has found these cycles up to a cap, and stands at a root, is near its end: then it goes on as it is.
fn is_near(found: &[Vec<usize>], cap: usize, times: &[usize], root: usize) -> bool {
    found.len() >= NEAR && found.len() >= cap / NEAR && is_alike(found, times, root)
}

// Leaves out edges before a search goes on that stands at a root: in the root's part of the graph, where none were left out there; else in all
// parts, since it goes on with several times the steps, and would spend them in one where none were.
fn leave_out_between(
    alloc: Global,
    sought: &Sought<'_>,
    effort: usize,
    root: usize,
    times: &mut Vec<usize>,
    kept: &mut Vec<bool>,
) -> Result<(), Memory>
    requires some { 0 < sought.now.len }
    requires kept { KeepsSought sought.now kept.old.items }
    ensures { OnOk result (KeepsSought sought.now kept.new.items) }
{
    if !is_left_out(times, root) {
        leave_out_around(sought, alloc, effort, root, times, kept)?;
        return Ok(());
    }
    if times.contains(&0) {
        leave_out_in_turn(sought, alloc, effort / PARTS, kept)?;
        *times = vec![in alloc; 1; times.len()]?;
    }
    Ok(())
}

// Goes on with a search in its next round, and leaves out edges where it stands then. Whether that was its last round.
fn search_round(
    alloc: Global,
    sought: &Sought<'_>,
    cap: usize,
    most: usize,
    turn: usize,
    standing: &mut Standing,
    kept: &mut Vec<bool>,
    found: &mut Vec<Vec<usize>>,
) -> Result<bool, Memory>
    requires some { 0 < sought.now.len }
    requires fits { sought.now.len ≤ LONGEST }
    requires kept { KeepsSought sought.now kept.old.items }
    requires found { HasFound sought.now cap standing.old.root (cycles_in found.old.items) }
    ensures kept { OnOk result (KeepsSought sought.now kept.new.items) }
    ensures found { OnOk result
        (HasFound sought.now cap standing.new.root (cycles_in found.new.items)) }
{
    let steps = steps_of(standing.round, sought.table.len());
    let within = steps_within(turn, &*standing, steps, most);
    let limits = limits_in(alloc, sought, turn, kept)?;
    let root = search_on(
        alloc,
        sought,
        cap,
        within,
        kept,
        limits,
        standing.root,
        found,
    )?;
    standing.root = root;
    standing.is_near = is_near(found, cap, &standing.times, root);
    let goes_on = standing.is_near || is_left_out(&standing.times, root);
    if root >= sought.table.len() || most <= steps || (goes_on && standing.round >= LAST) {
        return Ok(true);
    }
    if !standing.is_near {
        leave_out_between(
            alloc,
            sought,
            effort_of(steps),
            root,
            &mut standing.times,
            kept,
        )?;
    }
    standing.round = if goes_on {
        standing.round.saturating_add(1)
    } else {
        0
    };
    Ok(false)
}

// Searches in rounds, each of no more than so many steps but the first. Where the search stands in a part of the graph in which none were left
// out, edges are left out there, and it goes on with a part of the steps of the first round: another part may be one that a plain
// search goes through at once, and then it is left as it is, or one in which it stands soon. Where they were left out there, they are left
// out in all parts, and then, as where it is near its end, it has the steps of one round more. A round that wouldn't have more steps than
// the one before is passed over. The root at which the search stands then.
fn search_in_rounds(
    alloc: Global,
    sought: &Sought<'_>,
    cap: usize,
    most: usize,
    kept: &mut Vec<bool>,
    found: &mut Vec<Vec<usize>>,
) -> Result<usize, Memory>
    requires some { 0 < sought.now.len }
    requires fits { sought.now.len ≤ LONGEST }
    requires kept { KeepsSought sought.now kept.old.items }
    requires found { HasFound sought.now cap 0 (cycles_in found.old.items) }
    ensures kept { OnOk result (KeepsSought sought.now kept.new.items) }
    ensures found { IfOk result
        (λ to. HasFound sought.now cap to (cycles_in found.new.items)) }
{
    let mut standing = Standing {
        root: 0,
        round: 0,
        is_near: false,
        times: vec![in alloc; 0; sought.table.len()]?,
    };
    for turn in 0..TURNS {
        if search_round(alloc, sought, cap, most, turn, &mut standing, kept, found)? {
            return Ok(standing.root);
        }
    }
    Ok(standing.root)
}

// How many edges are kept.
fn count_kept(kept: &[bool]) -> usize {
    kept.iter().filter(|&&is_kept| is_kept).count()
}

// Leaves out edges with all the effort, and again as long as many go: the same effort gets further then.
fn leave_out_all(alloc: Global, sought: &Sought<'_>, kept: &mut Vec<bool>) -> Result<(), Memory>
    requires kept { KeepsSought sought.now kept.old.items }
    ensures kept { OnOk result (KeepsSought sought.now kept.new.items) }
{
    for _ in 0..PASSES {
        let before = count_kept(kept);
        leave_out_in_turn(sought, alloc, ALL_EFFORT, kept)?;
        let gone = before.saturating_sub(count_kept(kept));
        if gone < before / WORTH || gone == 0 {
            return Ok(());
        }
    }
    Ok(())
}

// The first cycles that are sought, up to a cap, among the edges that are kept.
fn first_among(
    alloc: Global,
    sought: &Sought<'_>,
    cap: usize,
    kept: Vec<bool>,
) -> Result<Vec<Vec<usize>>, Memory>
    requires some { 0 < sought.now.len }
    requires fits { sought.now.len ≤ LONGEST }
    requires kept { KeepsSought sought.now kept.items }
    ensures { IfOk result
        (λ found. cycles_in found.items
        ≡ take cap
        (all_cycles (is_before sought.now.order.now) sought.now.mode sought.now.len
        (edges_of_table sought.now.table.now))) }
{
    let mut kept = kept;
    let mut found = Vec::new(alloc);
    let root = search_in_rounds(alloc, sought, cap, usize::MAX, &mut kept, &mut found)?;
    if root >= sought.table.len() {
        return Ok(found);
    }
    leave_out_all(alloc, sought, &mut kept)?;
    let limits = limits_by_edge(sought, alloc, &kept)?;
    let search = Searcher::of(alloc, sought, cap, false, kept, Some(limits))?;
    search.first_cycles(alloc, root, found)
}

/// The first cycles that are sought, up to a cap. Paths grow no longer than cycles can be, as far as
/// [that is soon seen](shortened).
pub(crate) fn first_cycles(
    alloc: Global,
    sought: &Sought<'_>,
    cap: usize,
) -> Result<Vec<Vec<usize>>, Memory>
    requires some { 0 < sought.now.len }
    requires fits { sought.now.len ≤ LONGEST }
    ensures { IfOk result
        (λ found. cycles_in found.items
        ≡ take cap
        (all_cycles (is_before sought.now.order.now) sought.now.mode sought.now.len
        (edges_of_table sought.now.table.now))) }
{
    let kept = kept_at_first(sought, alloc)?;
    let shorter = shortened(sought, alloc, &kept)?;
    first_among(alloc, &shorter, cap, kept)
}

// The same on several threads.
fn first_among_parallel(
    rt: &(impl Threads + Sync),
    alloc: Global,
    sought: &Sought<'_>,
    cap: usize,
    kept: Vec<bool>,
) -> Result<Vec<Vec<usize>>, Memory>
    requires some { 0 < sought.now.len }
    requires fits { sought.now.len ≤ LONGEST }
    requires kept { KeepsSought sought.now kept.items }
    ensures { IfOk result
        (λ found. cycles_in found.items
        ≡ take cap
        (all_cycles (is_before sought.now.order.now) sought.now.mode sought.now.len
        (edges_of_table sought.now.table.now))) }
{
    let mut kept = kept;
    let mut found = Vec::new(alloc);
    let root = search_in_rounds(alloc, sought, cap, STEPS_ALONE, &mut kept, &mut found)?;
    if root >= sought.table.len() {
        return Ok(found);
    }
    leave_out_in_turn_parallel(rt, alloc, sought, ALL_EFFORT, &mut kept)?;
    let limits = limits_by_edge(sought, alloc, &kept)?;
    let search = Searcher::of(alloc, sought, cap, false, kept, Some(limits))?;
    parallel::first_cycles(rt, alloc, &search, root, found)
}

/// The same as [`first_cycles`], on several threads. Rounds are gone through in one thread: each part of the edges would
/// take as long to begin as all of them. So none but the first has many steps.
pub(crate) fn first_cycles_parallel(
    rt: &(impl Threads + Sync),
    alloc: Global,
    sought: &Sought<'_>,
    cap: usize,
) -> Result<Vec<Vec<usize>>, Memory>
    requires some { 0 < sought.now.len }
    requires fits { sought.now.len ≤ LONGEST }
    ensures { IfOk result
        (λ found. cycles_in found.items
        ≡ take cap
        (all_cycles (is_before sought.now.order.now) sought.now.mode sought.now.len
        (edges_of_table sought.now.table.now))) }
{
    let kept = kept_at_first(sought, alloc)?;
    let shorter = shortened(sought, alloc, &kept)?;
    first_among_parallel(rt, alloc, &shorter, cap, kept)
}
