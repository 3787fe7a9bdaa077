//! The search for rounds that remembers what may still come.
//!
//! A path is known by its gap and its rest: the models that may meet each edge of it. Each next model
//! is one of the rest, and narrows it. Very many paths may leave the same gap and the same rest, as
//! where there are fewer gate locks than edges of a round: what was once found to lead nowhere isn't
//! tried again.
ghost use Rattle.std.specs.Prelude.{◌≡◌, ◌↔◌, ◌-◌, ◌<◌, ◌≤◌, ◌∷◌, [], ℕ, Some, true, false, if◌then◌else◌, length, slice_get, IsTrue, OnOk, IfOk, All, Contains};
ghost use Rattle.gl_segments.specs.Clocks.{is_before};
ghost use Rattle.gl_filters.specs.Picked.{edges_of_table};
ghost use Rattle.gl_kinds.specs.bodies.Kinds.{may_meet, AreWithin, HasModels, NoneThrough};
ghost use Rattle.gl_kinds.specs.bodies.Gaps.{HasFlagged, IsNarrowed, NoneBy, AreDeadEnds, IsDeadEnd, KnowsModels};
ghost use Rattle.gl_edges.specs.declared.edge.Edge.{Edge};

use crate::dead_ends::{DeadEnds, Gap};
use crate::rounds::Rounds;
use gl_edges::Edge;
use gl_event::Memory;
use std::alloc::Global;

impl Rounds<'_> {
    /// The positions of the models.
    pub(crate) fn models(&self, alloc: Global) -> Result<Vec<usize>, Memory>
        requires long { length self.now.flags.items ≡ length self.now.sought.table.now }
        ensures within { IfOk result (λ models. AreWithin self.now models.items) }
        ensures all { IfOk result (λ models. HasFlagged self.now.flags.items models.items) }
    {
        let mut models = Vec::new(alloc);
        for i in 0..self.flags.len() {
            add_flagged(&mut models, i, self.flags[i])?;
        }
        Ok(models)
    }

    // Those of the models that aren't flagged as dead.
    fn alive(&self, alloc: Global, models: &[usize], dead: &[bool]) -> Result<Vec<usize>, Memory>
        requires { AreWithin self.now models.now }
        ensures within { IfOk result (λ alive. AreWithin self.now alive.items) }
        ensures all { IfOk result
            (λ alive. (i : ℕ) → Contains models.now i
            → ¬ (slice_get dead.now i ≡ Some true)
            → Contains alive.items i) }
    {
        let mut alive = Vec::new(alloc);
        for place in 0..models.len() {
            add_alive(&mut alive, models[place], dead)?;
        }
        Ok(alive)
    }

    /// Whether no edge of a cycle is alike to the model at a position. No where that isn't known.
    pub(crate) fn is_hopeless(
        &self,
        alloc: Global,
        root: usize,
        models: &[usize],
        dead: &[bool],
        ends: &mut DeadEnds,
        tests: &mut usize,
    ) -> Result<bool, Memory>
        requires there { root < length self.now.sought.table.now }
        requires known { KnowsModels self.now models.now dead.now }
        requires ends { AreDeadEnds self.now ends.old.known.items }
        ensures none { IfOk result (λ is. is ≡ true → NoneThrough self.now (root ∷ [])) }
        ensures ends { OnOk result (AreDeadEnds self.now ends.new.known.items) }
        ensures spent { tests.new ≤ tests.old }
    {
        if !take_tests(tests, models.len()) {
            return Ok(false);
        }
        let alive = self.alive(alloc, models, dead)?;
        let rest = self.narrowed(alloc, &alive, root)?;
        let gap = Gap::of(&self.sought.table[root].0, self.sought.len);
        let may = self.may_close_gap(alloc, &gap, &rest, ends, tests)?;
        Ok(!may)
    }

    // Adds the model at a position, if it may meet the edge.
    fn add_met(&self, some: &mut Vec<usize>, edge: &Edge, i: usize) -> Result<(), Memory>
        requires there { i < length self.now.sought.table.now }
        requires within { AreWithin self.now some.old.items }
        ensures within { OnOk result (AreWithin self.now some.new.items) }
        ensures stay { OnOk result
            ((j : ℕ) → Contains some.old.items j → Contains some.new.items j) }
        ensures met { OnOk result
            ((d : Edge) → slice_get (edges_of_table self.now.sought.table.now) i ≡ Some d
            → may_meet
            (is_before self.now.sought.order.now) self.now.sought.mode self.now.grain edge.now d
            ≡ true → Contains some.new.items i) }
    {
        if !self.may_meet(edge, &self.sought.table[i].0) {
            return Ok(());
        }
        some.push(i)?;
        Ok(())
    }

    // Those of the rest that may meet the edge at a position.
    fn narrowed(&self, alloc: Global, rest: &[usize], next: usize) -> Result<Vec<usize>, Memory>
        requires within { AreWithin self.now rest.now }
        requires there { next < length self.now.sought.table.now }
        ensures within { IfOk result (λ some. AreWithin self.now some.items) }
        ensures narrowed { IfOk result
            (λ some. IsNarrowed
            (is_before self.now.sought.order.now) self.now.sought.mode self.now.grain
            (edges_of_table self.now.sought.table.now) rest.now next some.items) }
    {
        let edge = &self.sought.table[next].0;
        let mut some = Vec::new(alloc);
        for place in 0..rest.len() {
            self.add_met(&mut some, edge, rest[place])?;
        }
        Ok(some)
    }

    // Whether a cycle may close the gap by edges whose models are among the rest. Yes where that
    // isn't known.
    #[cycle(gaps)]
    fn may_close_gap(
        &self,
        alloc: Global,
        gap: &Gap,
        rest: &[usize],
        ends: &mut DeadEnds,
        tests: &mut usize,
    ) -> Result<bool, Memory>
        requires within { AreWithin self.now rest.now }
        requires models { HasModels self.now }
        requires ends { AreDeadEnds self.now ends.old.known.items }
        ensures none { IfOk result (λ may. may ≡ false → IsDeadEnd self.now gap.now rest.now) }
        ensures ends { OnOk result (AreDeadEnds self.now ends.new.known.items) }
        ensures spent { tests.new ≤ tests.old }
    {
        if gap.is_closed() {
            return Ok(true);
        }
        let left = gap.left;
        if left == 0 {
            return Ok(false);
        }
        if ends.has(gap, rest) {
            return Ok(false);
        }
        if !take_tests(tests, rest.len()) {
            return Ok(true);
        }
        for place in 0..rest.len() {
            let next = rest[place];
            let may = self.may_close_gap_by(alloc, gap, rest, next, ends, tests)?;
            if may {
                return Ok(true);
            }
        }
        ends.add(alloc, gap, rest)?;
        Ok(false)
    }

    // Whether a cycle may close the gap by such edges, this model first.
    #[cycle(gaps)]
    fn may_close_gap_by(
        &self,
        alloc: Global,
        gap: &Gap,
        rest: &[usize],
        next: usize,
        ends: &mut DeadEnds,
        tests: &mut usize,
    ) -> Result<bool, Memory>
        requires left { 0 < gap.now.left }
        requires within { AreWithin self.now rest.now }
        requires there { next < length self.now.sought.table.now }
        requires models { HasModels self.now }
        requires ends { AreDeadEnds self.now ends.old.known.items }
        ensures none { IfOk result
            (λ may. may ≡ false
            → NoneBy (is_before self.now.sought.order.now) self.now.sought.mode self.now.grain
            self.now.sought.len
            (edges_of_table self.now.sought.table.now) self.now.flags.items gap.now rest.now next) }
        ensures ends { OnOk result (AreDeadEnds self.now ends.new.known.items) }
        ensures spent { tests.new ≤ tests.old }
    {
        let edge = &self.sought.table[next].0;
        if !gap.leads_to(edge) {
            return Ok(false);
        }
        if !take_tests(tests, rest.len()) {
            return Ok(true);
        }
        let some = self.narrowed(alloc, rest, next)?;
        let behind = gap.behind(edge);
        self.may_close_gap(alloc, &behind, &some, ends, tests)
    }
}

// Takes so many of the tests that may still be made, if there are as many. Whether there were.
fn take_tests(tests: &mut usize, some: usize) -> bool
    ensures enough { IsTrue result ↔ some ≤ tests.old }
    ensures taken { tests.new ≡ (if result then tests.old - some else tests.old) }
{
    let before = *tests;
    if before < some {
        return false;
    }
    *tests = before - some;
    true
}

// Adds a position, if its flag is set.
fn add_flagged(models: &mut Vec<usize>, i: usize, flag: bool) -> Result<(), Memory>
    ensures stay { OnOk result
        ((j : ℕ) → Contains models.old.items j → Contains models.new.items j) }
    ensures added { OnOk result (flag ≡ true → Contains models.new.items i) }
    ensures within { OnOk result
        ((n : ℕ) → i < n → All (λ j. j < n) models.old.items
        → All (λ j. j < n) models.new.items) }
{
    if !flag {
        return Ok(());
    }
    models.push(i)?;
    Ok(())
}

// Adds a position, if it isn't flagged as dead.
fn add_alive(alive: &mut Vec<usize>, i: usize, dead: &[bool]) -> Result<(), Memory>
    ensures stay { OnOk result
        ((j : ℕ) → Contains alive.old.items j → Contains alive.new.items j) }
    ensures added { OnOk result
        (¬ (slice_get dead.now i ≡ Some true) → Contains alive.new.items i) }
    ensures within { OnOk result
        ((n : ℕ) → i < n → All (λ j. j < n) alive.old.items
        → All (λ j. j < n) alive.new.items) }
{
    let is_dead = dead.get(i).copied().unwrap_or(false);
    add_flagged(alive, i, !is_dead)
}
