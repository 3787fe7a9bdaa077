//! The search for a walk through edges of given classes.
ghost use Rattle.std.specs.Prelude.{◌≡◌, ◌<◌, ◌≤◌, true, false, length, IfErr, IfOk, MatchOption};
ghost use Rattle.gl_segments.specs.Clocks.{is_before};
ghost use Rattle.gl_filters.specs.Picked.{edges_of_table};
ghost use Rattle.gl_filters.specs.declared.steps.Stop.TheVariants.{Memory, Spent};
ghost use Rattle.gl_filters.specs.declared.lengths.TheConstants.{LONGEST};
ghost use Rattle.gl_walks.specs.Walks.{NoWalk, IsFirstWalk, HasWalkFrom};

use crate::ground::Ground;
use crate::purpose::Purpose;
use crate::search::Search;
use gl_event::{LockId, Memory};
use gl_filters::Stop;
use std::alloc::Global;
use std::marker::Model;

/// Finds walks through flagged edges of given classes. Contracts see the ground, and whether it is bound to
/// steps.
#[derive(Drop)]
pub struct Walker<'a> {
    search: Search<'a>,
}

impl<'a> Model for Walker<'a> {
    ghost use Rattle.gl_walks.specs.Walkers.{Walking, walking};

    ghost Value = { Walking };

    ghost view = { λ w. walking w.search.area w.search.is_bound };
}

impl<'a> Walker<'a> {
    /// The walker through this ground, which may be bound to the steps that each call is given. Four look-ups for each flagged edge.
    ///
    /// Err where memory was refused.
    pub fn of(alloc: Global, area: Ground<'a>, is_bound: bool) -> Result<Walker<'a>, Memory>
        requires classes { length area.classes.now ≡ length area.table.now }
        requires flags { length area.flags.now ≡ length area.table.now }
        ensures ground { IfOk result (λ walker. walker.ground ≡ area.entry) }
        ensures bound { IfOk result (λ walker. walker.is_bound ≡ is_bound) }
    {
        let search = Search::of(alloc, area, is_bound)?;
        Ok(Walker { search })
    }

    /// The positions of the first walk of a purpose for a pattern: an edge of each of these classes, in turn.
    /// None where there is no such walk.
    ///
    /// A path grows by each edge that may come next, the first one first: a look-up for each, and a
    /// test against each edge of the path. So there may be as many paths as flagged edges of a class
    /// that hold one lock, to the power of the pattern's length, before the first walk is found. Each such
    /// edge takes one of the steps, as long as there are any.
    ///
    /// # Errors
    ///
    /// [`Stop::Spent`] where no step is left and the walker is bound to them; [`Stop::Memory`] where memory
    /// was refused, which is asked only for the walk that was found.
    pub fn first(
        &self,
        alloc: Global,
        purpose: Purpose,
        pattern: &[usize],
        steps: &mut usize,
    ) -> Result<Option<Vec<usize>>, Stop>
        requires some { 0 < length pattern.now }
        requires fits { length pattern.now ≤ LONGEST }
        ensures found { IfOk result
            (λ found. MatchOption found
            (NoWalk purpose (is_before self.now.ground.order.now) self.now.ground.mode
            (edges_of_table self.now.ground.table.now) self.now.ground.classes.now
            self.now.ground.flags.now pattern.now)
            (λ walk. IsFirstWalk purpose (is_before self.now.ground.order.now)
            self.now.ground.mode (edges_of_table self.now.ground.table.now)
            self.now.ground.classes.now self.now.ground.flags.now pattern.now walk.items)) }
        ensures stopped { IfErr result (λ stop. self.now.is_bound ≡ false → stop ≡ Memory) }
        ensures spent { IfErr result (λ stop. stop ≡ Spent → steps.new ≡ 0) }
        ensures fewer { steps.new ≤ steps.old }
    {
        self.search.first(alloc, purpose, pattern, steps)
    }
    /// Whether there is such a walk whose first edge holds this lock. What it takes is what
    /// [`first`](Walker::first) takes from the edges of the first class on that hold it.
    ///
    /// # Errors
    ///
    /// [`Stop::Spent`] where no step is left and the walker is bound to them; [`Stop::Memory`] where memory
    /// was refused, which is asked only for the walk that was found.
    pub fn has_from(
        &self,
        alloc: Global,
        purpose: Purpose,
        pattern: &[usize],
        lock: LockId,
        steps: &mut usize,
    ) -> Result<bool, Stop>
        requires some { 0 < length pattern.now }
        requires fits { length pattern.now ≤ LONGEST }
        ensures has { IfOk result
            (λ has. has ≡ true
            → HasWalkFrom purpose (is_before self.now.ground.order.now)
            self.now.ground.mode (edges_of_table self.now.ground.table.now)
            self.now.ground.classes.now self.now.ground.flags.now pattern.now lock) }
        ensures none { IfOk result
            (λ has. has ≡ false
            → ¬ HasWalkFrom purpose (is_before self.now.ground.order.now)
            self.now.ground.mode (edges_of_table self.now.ground.table.now)
            self.now.ground.classes.now self.now.ground.flags.now pattern.now lock) }
        ensures stopped { IfErr result (λ stop. self.now.is_bound ≡ false → stop ≡ Memory) }
        ensures spent { IfErr result (λ stop. stop ≡ Spent → steps.new ≡ 0) }
        ensures fewer { steps.new ≤ steps.old }
    {
        self.search.has_from(alloc, purpose, pattern, lock, steps)
    }
}
