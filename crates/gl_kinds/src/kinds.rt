//! Edges whose kind is in no cycle of kinds.
//!
//! Threads run the same code again and again, so that many edges differ in nothing but their thread
//! and their segments. Edges that are alike otherwise are of one kind. Round a cycle, kinds lead on
//! to each other, and no two of them have a gate lock. So an edge of whose kind no such round goes on
//! is in no cycle, however many edges there are of each kind.
//!
//! The same is then done again with kinds that are told apart by their threads, no two of which are
//! the same on a round, and at last with single edges.
//!
//! One edge of each kind is its model, and rounds are looked for among models. Which edges are models
//! of which is not proved; that an edge and its model are alike is checked, and an edge that isn't is
//! its own model.
ghost use Rattle.std.specs.Prelude.{◌≡◌, ◌-◌, ◌<◌, ◌≤◌, ◌∷◌, [], ℕ, Some, true, length, slice_get, OnOk, IfOk};
ghost use Rattle.gl_segments.specs.Clocks.{is_before};
ghost use Rattle.gl_filters.specs.Picked.{edges_of_table};
ghost use Rattle.gl_kinds.specs.bodies.Kinds.{AreAlike, HasModel, AreModels, HasModels, AreDead, NoneThrough};
ghost use Rattle.gl_kinds.specs.bodies.Gaps.{AreDeadEnds, KnowsModels};
ghost use Rattle.gl_sought.specs.Sought.{KeepsSought, GoesOnSeeking};
ghost use Rattle.gl_kinds.specs.declared.kinds.TheConstants.{TRIES_OF_ONE};
ghost use Rattle.gl_edges.specs.declared.edge.Edge.{Edge};

use crate::alike::are_alike;
use crate::dead_ends::{DeadEnds, ROOM};
use crate::grains::Grain;
use crate::models::models_of;
use crate::rounds::Rounds;
use gl_event::Memory;
use gl_index::Followers;
use gl_sought::{Part, Sought};
use std::alloc::Global;

// How many models are tried as the next one of a round, for one grain.
const TRIES: usize = 1_000_000;

// And how many for one model, before rests are looked at.
const TRIES_OF_ONE: usize = 1_000;

// How many models of rests are looked at, for one grain.
const TESTS: usize = 2_000_000;

// Flags of the models of the edges that are kept.
fn flags_of(
    sought: &Sought<'_>,
    alloc: Global,
    grain: Grain,
    kept: &[bool],
    model_of_each: &[usize],
) -> Result<Vec<bool>, Memory>
    requires kept { length kept.now ≡ length sought.now.table.now }
    ensures long { IfOk result (λ flags. length flags.items ≡ length sought.now.table.now) }
    ensures models { IfOk result
        (λ flags. AreModels grain (edges_of_table sought.now.table.now) kept.now flags.items) }
{
    let mut flags = vec![in alloc; false; sought.table.len()]?;
    for i in 0..sought.table.len() {
        flag_model(sought, grain, kept[i], model_of_each, i, &mut flags);
    }
    Ok(flags)
}

// Sets the flag of the model of the edge at a position, if that edge is kept.
fn flag_model(
    sought: &Sought<'_>,
    grain: Grain,
    is_kept: bool,
    model_of_each: &[usize],
    i: usize,
    flags: &mut Vec<bool>,
)
    requires there { i < length sought.now.table.now }
    requires long { length flags.old.items ≡ length sought.now.table.now }
    ensures long { length flags.new.items ≡ length sought.now.table.now }
    ensures stay { (j : ℕ) → slice_get flags.old.items j ≡ Some true
        → slice_get flags.new.items j ≡ Some true }
    ensures model { (e : Edge) → is_kept ≡ true
        → slice_get (edges_of_table sought.now.table.now) i ≡ Some e
        → HasModel grain (edges_of_table sought.now.table.now) flags.new.items e }
{
    if !is_kept {
        return;
    }
    let model = model_of(sought, grain, model_of_each, i);
    flags[model] = true;
}

// The position of the model of the edge at a position.
fn model_of(sought: &Sought<'_>, grain: Grain, model_of_each: &[usize], i: usize) -> usize
    requires there { i < length sought.now.table.now }
    ensures within { result < length sought.now.table.now }
    ensures alike { (d e : Edge)
        → slice_get (edges_of_table sought.now.table.now) result ≡ Some d
        → slice_get (edges_of_table sought.now.table.now) i ≡ Some e → AreAlike grain d e }
{
    let model = model_of_each.get(i).copied().unwrap_or(i);
    if model < sought.table.len() && are_alike(grain, &sought.table[model].0, &sought.table[i].0) {
        return model;
    }
    i
}

/// Leaves out each edge to whose model, if that is in this part, none of a cycle is alike. Err where memory was refused.
pub fn leave_out_alike(
    sought: &Sought<'_>,
    alloc: Global,
    grain: Grain,
    part: Part,
    kept: &mut Vec<bool>,
) -> Result<(), Memory>
    requires { KeepsSought sought.now kept.old.items }
    ensures { OnOk result (GoesOnSeeking sought.now kept.old.items kept.new.items) }
{
    if !kept.contains(&true) {
        return Ok(());
    }
    let model_of_each = models_of(alloc, sought.table, kept, grain)?;
    let dead = dead_alike(sought, alloc, grain, part, &model_of_each, kept)?;
    for i in 0..sought.table.len() {
        leave_out_dead(sought, grain, &model_of_each, &dead, kept, i);
    }
    Ok(())
}

// For each position whether an edge is a model of this part there to which none of a cycle is
// alike.
fn dead_alike(
    sought: &Sought<'_>,
    alloc: Global,
    grain: Grain,
    part: Part,
    model_of_each: &[usize],
    kept: &[bool],
) -> Result<Vec<bool>, Memory>
    requires { KeepsSought sought.now kept.now }
    ensures { IfOk result
        (λ dead. AreDead (is_before sought.now.order.now) sought.now.mode grain sought.now.len
        (edges_of_table sought.now.table.now) dead.items) }
{
    let flags = flags_of(sought, alloc, grain, kept, model_of_each)?;
    let index = Followers::of(alloc, sought.table, &flags)?;
    let rounds = Rounds {
        sought: *sought,
        grain,
        flags,
        index,
    };
    rounds.dead_models(alloc, part)
}

// Leaves out the edge at a position, if no edge of a cycle is alike to its model.
fn leave_out_dead(
    sought: &Sought<'_>,
    grain: Grain,
    model_of_each: &[usize],
    dead: &[bool],
    kept: &mut Vec<bool>,
    i: usize,
)
    requires there { i < length sought.now.table.now }
    requires kept { KeepsSought sought.now kept.old.items }
    requires dead { AreDead (is_before sought.now.order.now) sought.now.mode grain sought.now.len
        (edges_of_table sought.now.table.now) dead.now }
    ensures { GoesOnSeeking sought.now kept.old.items kept.new.items }
{
    let model = model_of(sought, grain, model_of_each, i);
    if dead[model] {
        kept[i] = false;
    }
}

/// How much may still be done.
#[derive(Drop)]
pub(crate) struct Effort {
    // how many models may be tried as the next one of a round
    tries: usize,
    // how many models of rests may be looked at
    tests: usize,
}

impl Effort {
    // How many models may be tried for one.
    fn tries_of_one(&self) -> usize
        ensures one { result ≤ TRIES_OF_ONE }
        ensures all { result ≤ self.now.tries }
    {
        TRIES_OF_ONE.min(self.tries)
    }

    // Some models were tried.
    fn spend(&mut self, tries: usize)
        ensures tries { self.new.tries ≡ self.old.tries - tries }
        ensures tests { self.new.tests ≡ self.old.tests }
    {
        self.tries = self.tries.saturating_sub(tries);
    }
}

impl Rounds<'_> {
    // For each position whether an edge is a model of this part there to which none of a cycle is
    // alike.
    fn dead_models(&self, alloc: Global, part: Part) -> Result<Vec<bool>, Memory>
        requires models { HasModels self.now }
        ensures { IfOk result
            (λ dead. AreDead
            (is_before self.now.sought.order.now) self.now.sought.mode self.now.grain
            self.now.sought.len (edges_of_table self.now.sought.table.now) dead.items) }
    {
        let models = self.models(alloc)?;
        let mut ends = DeadEnds::none(alloc, part.share_of(ROOM));
        let mut effort = Effort {
            tries: part.share_of(TRIES),
            tests: part.share_of(TESTS),
        };
        let mut dead = Vec::with_capacity(alloc, self.flags.len())?;
        for i in 0..self.sought.table.len() {
            let is_dead = self.is_dead(alloc, part, i, &models, &dead, &mut ends, &mut effort)?;
            dead.push(is_dead)?;
        }
        Ok(dead)
    }

    // Whether an edge is a model of this part at a position and none of a cycle is alike to it. No
    // where that isn't known.
    fn is_dead(
        &self,
        alloc: Global,
        part: Part,
        i: usize,
        models: &[usize],
        dead: &[bool],
        ends: &mut DeadEnds,
        effort: &mut Effort,
    ) -> Result<bool, Memory>
        requires there { i < length self.now.sought.table.now }
        requires known { KnowsModels self.now models.now dead.now }
        requires ends { AreDeadEnds self.now ends.old.known.items }
        ensures none { IfOk result (λ is. is ≡ true → NoneThrough self.now (i ∷ [])) }
        ensures ends { OnOk result (AreDeadEnds self.now ends.new.known.items) }
        ensures tries { effort.new.tries ≤ effort.old.tries }
        ensures tests { effort.new.tests ≤ effort.old.tests }
    {
        if !part.has(i) {
            return Ok(false);
        }
        if !self.flags[i] {
            return Ok(false);
        }
        let given = effort.tries_of_one();
        let mut tries = given;
        let may = self.may_close(&[i], &mut tries);
        effort.spend(given.saturating_sub(tries));
        if !may {
            return Ok(true);
        }
        if tries > 0 {
            return Ok(false);
        }
        self.is_hopeless(alloc, i, models, dead, ends, &mut effort.tests)
    }
}
