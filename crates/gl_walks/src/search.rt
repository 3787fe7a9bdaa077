//! The search: paths of edges that may stand in a walk, grown in order of their positions.
ghost use Rattle.std.specs.Prelude.{◌≡◌, ◌+◌, ◌-◌, ◌<◌, ◌≤◌, [], ◌∷◌, ◌++◌, false, true, ℕ, Err, Some, List, length, slice_get, IfErr, IfOk, MatchOption, All};
ghost use Rattle.std.specs.List.{list_all};
ghost use Rattle.gl_segments.specs.Clocks.{is_before};
ghost use Rattle.gl_edges.specs.declared.edge.Edge.{Edge};
ghost use Rattle.gl_filters.specs.Picked.{edges_of_table, picked};
ghost use Rattle.gl_filters.specs.Test.{leads_back};
ghost use Rattle.gl_filters.specs.declared.steps.Stop.TheVariants.{Memory, Spent};
ghost use Rattle.gl_filters.specs.declared.lengths.TheConstants.{LONGEST};
ghost use Rattle.gl_walks.specs.declared.purpose.Purpose.{Purpose};
ghost use Rattle.gl_walks.specs.bodies.Listing.{Key, IsNext};
ghost use Rattle.gl_walks.specs.bodies.Fronts.{goes_by, stays_above, may_follow, may_end, sought_by, IsFront, NoneFrom, IsLeastFrom, HasFrom, key_after, key_behind, IsIndexed};

use crate::chains::Chain;
use crate::ground::Ground;
use crate::keys::Keyed;
use crate::purpose::Purpose;
use gl_edges::Edge;
use gl_event::{LockId, Memory};
use gl_filters::{Stop, goes_with, kinds_go_together, leads_on, longer_path, spend_step};
use std::alloc::Global;

/// What is looked at.
#[derive(Drop)]
pub(crate) struct Search<'a> {
    pub(crate) area: Ground<'a>,
    // whether it ends where its steps are taken
    pub(crate) is_bound: bool,
    // the flagged edges by their classes
    by_class: Chain,
    // and by the locks that they hold too
    by_lock: Chain,
    ghost indexed: { IsIndexed area by_class by_lock },
}

impl<'a> Search<'a> {
    /// The search through this ground.
    pub(crate) fn of(alloc: Global, area: Ground<'a>, is_bound: bool) -> Result<Search<'a>, Memory>
        requires classes { length area.classes.now ≡ length area.table.now }
        requires flags { length area.flags.now ≡ length area.table.now }
        ensures area { IfOk result (λ search. search.area ≡ area.entry) }
        ensures bound { IfOk result (λ search. search.is_bound ≡ is_bound) }
    {
        let by_class = area.chain(alloc, Keyed::ByClass)?;
        let by_lock = area.chain(alloc, Keyed::ByLock)?;
        Ok(Search {
            area,
            is_bound,
            by_class,
            by_lock,
        })
    }
}

// Whether an edge may stand in a walk that begins with this one: a cycle begins with its least thread.
fn stays_above(purpose: Purpose, first: &Edge, edge: &Edge) -> bool
    ensures { result ≡ stays_above purpose first.now edge.now }
{
    match purpose {
        Purpose::Cycle => first.thread.number() <= edge.thread.number(),
        Purpose::Front | Purpose::Round | Purpose::Turned => true,
    }
}

impl Search<'_> {
    // Whether two edges may stand in one walk.
    fn go_together(&self, purpose: Purpose, e: &Edge, f: &Edge) -> bool
        ensures { result ≡ goes_by purpose (is_before self.now.area.order.now)
            self.now.area.mode e.now f.now }
    {
        match purpose {
            Purpose::Cycle | Purpose::Turned => goes_with(self.area.mode, self.area.order, e, f),
            Purpose::Front | Purpose::Round => kinds_go_together(self.area.mode, e, f),
        }
    }

    // Whether each edge of the path may stand in one walk with this one.
    fn goes_with_all(&self, purpose: Purpose, path: &[usize], edge: &Edge) -> bool
        requires within { All (λ i. i < length (edges_of_table self.now.area.table.now)) path.now }
        ensures { result ≡ list_all
            (λ e. goes_by purpose (is_before self.now.area.order.now)
            self.now.area.mode e edge.now)
            (picked (edges_of_table self.now.area.table.now) path.now) }
    {
        for &i in path {
            if !self.go_together(purpose, &self.area.table[i].0, edge) {
                return false;
            }
        }
        true
    }

    // Whether the edge at a position may come next in the path.
    fn may_follow(&self, purpose: Purpose, path: &[usize], next: usize) -> bool
        requires within { All (λ i. i < length (edges_of_table self.now.area.table.now)) path.now }
        requires there { next < length self.now.area.table.now }
        ensures { (f : Edge)
            → slice_get (edges_of_table self.now.area.table.now) next ≡ Some f
            → result ≡ may_follow purpose (is_before self.now.area.order.now)
            self.now.area.mode (picked (edges_of_table self.now.area.table.now) path.now) f }
    {
        if path.is_empty() {
            return true;
        }
        let first = path[0];
        let last = path[path.len() - 1];
        let edge = &self.area.table[next].0;
        if !leads_on(&self.area.table[last].0, edge) {
            return false;
        }
        if !stays_above(purpose, &self.area.table[first].0, edge) {
            return false;
        }
        self.goes_with_all(purpose, path, edge)
    }

    // Whether the path's last edge leads back to its first.
    fn is_closed(&self, path: &[usize]) -> bool
        requires within { All (λ i. i < length (edges_of_table self.now.area.table.now)) path.now }
        ensures { result
            ≡ leads_back (picked (edges_of_table self.now.area.table.now) path.now) }
    {
        if path.is_empty() {
            return false;
        }
        let first = path[0];
        let last = path[path.len() - 1];
        leads_on(&self.area.table[last].0, &self.area.table[first].0)
    }

    // Whether the path may be a whole walk: a cycle has two edges or more, and goes round.
    fn may_end(&self, purpose: Purpose, path: &[usize]) -> bool
        requires within { All (λ i. i < length (edges_of_table self.now.area.table.now)) path.now }
        ensures { result ≡ may_end purpose
            (picked (edges_of_table self.now.area.table.now) path.now) }
    {
        match purpose {
            Purpose::Cycle => {
                if path.len() < 2 {
                    return false;
                }
                self.is_closed(path)
            }
            Purpose::Front => true,
            Purpose::Round | Purpose::Turned => self.is_closed(path),
        }
    }

    // Whether the path is none, or the edge at a position leads back to its first one.
    fn leads_round(&self, path: &[usize], next: usize) -> bool
        requires within { All (λ i. i < length (edges_of_table self.now.area.table.now)) path.now }
        requires there { next < length self.now.area.table.now }
        ensures { result ≡ false
            → leads_back (picked (edges_of_table self.now.area.table.now)
            (path.now ++ next ∷ [])) ≡ false }
    {
        if path.is_empty() {
            return true;
        }
        let first = path[0];
        leads_on(&self.area.table[next].0, &self.area.table[first].0)
    }

    // Whether the edge at a position may be the last one of a walk that begins with the path, as far as both ends tell.
    fn may_be_last(&self, purpose: Purpose, path: &[usize], next: usize) -> bool
        requires within { All (λ i. i < length (edges_of_table self.now.area.table.now)) path.now }
        requires there { next < length self.now.area.table.now }
        ensures { result ≡ false
            → may_end purpose (picked (edges_of_table self.now.area.table.now)
            (path.now ++ next ∷ [])) ≡ false }
    {
        match purpose {
            Purpose::Front => true,
            Purpose::Cycle | Purpose::Round | Purpose::Turned => self.leads_round(path, next),
        }
    }

    // The first position that may come next in the path, by its class and the lock that it holds.
    fn begin(&self, pattern: &[usize], path: &[usize]) -> Option<usize>
        requires short { length path.now < length pattern.now }
        requires within { All (λ i. i < length (edges_of_table self.now.area.table.now)) path.now }
        ensures { (purpose : Purpose) → IsNext
            (key_behind (sought_by self.now.area purpose pattern.now) path.now)
            (length (edges_of_table self.now.area.table.now))
            (key_after (sought_by self.now.area purpose pattern.now) path.now) 0 result }
    {
        let class = pattern[path.len()];
        if path.is_empty() {
            return self.by_class.begin(class, None);
        }
        let last = path[path.len() - 1];
        self.by_lock
            .begin(class, Some(self.area.table[last].0.wanted))
    }

    // The position after `i` of the next one with the key by which `i` was found.
    fn after(&self, path: &[usize], i: usize) -> Option<usize>
        requires { i < length self.now.area.table.now }
        ensures { (purpose : Purpose) (pattern : List ℕ) (k : Key)
            → key_behind (sought_by self.now.area purpose pattern) path.now i ≡ Some k
            → IsNext (key_behind (sought_by self.now.area purpose pattern) path.now)
            (length (edges_of_table self.now.area.table.now)) k (i + 1) result }
    {
        if path.is_empty() {
            return self.by_class.after(i);
        }
        self.by_lock.after(i)
    }

    /// The first walk of a purpose for a pattern. Each edge that may come next takes a step.
    pub(crate) fn first(
        &self,
        alloc: Global,
        purpose: Purpose,
        pattern: &[usize],
        steps: &mut usize,
    ) -> Result<Option<Vec<usize>>, Stop>
        requires { length pattern.now ≤ LONGEST }
        ensures found { IfOk result
            (λ found. MatchOption found
            (NoneFrom (sought_by self.now.area purpose pattern.now) [])
            (λ walk. IsLeastFrom (sought_by self.now.area purpose pattern.now) []
            walk.items)) }
        ensures stopped { IfErr result (λ stop. self.now.is_bound ≡ false → stop ≡ Memory) }
        ensures spent { IfErr result (λ stop. stop ≡ Spent → steps.new ≡ 0) }
        ensures fewer { steps.new ≤ steps.old }
    {
        self.grow(alloc, purpose, pattern, &[], steps)
    }

    /// Whether there is such a walk whose first edge holds this lock. Each edge that may come next takes a
    /// step.
    pub(crate) fn has_from(
        &self,
        alloc: Global,
        purpose: Purpose,
        pattern: &[usize],
        lock: LockId,
        steps: &mut usize,
    ) -> Result<bool, Stop>
        requires some { 0 < length pattern.now }
        requires fits { length pattern.now ≤ LONGEST }
        ensures has { IfOk result
            (λ has. has ≡ true
            → HasFrom (sought_by self.now.area purpose pattern.now) lock) }
        ensures none { IfOk result
            (λ has. has ≡ false
            → ¬ HasFrom (sought_by self.now.area purpose pattern.now) lock) }
        ensures stopped { IfErr result (λ stop. self.now.is_bound ≡ false → stop ≡ Memory) }
        ensures spent { IfErr result (λ stop. stop ≡ Spent → steps.new ≡ 0) }
        ensures fewer { steps.new ≤ steps.old }
    {
        let mut next = self.by_lock.begin(pattern[0], Some(lock));
        while let Some(i) = next {
            if self
                .grow_by(alloc, purpose, pattern, &[], i, steps)?
                .is_some()
            {
                return Ok(true);
            }
            next = self.by_lock.after(i);
        }
        Ok(false)
    }

    // The first walk that begins with the path.
    #[cycle(grow)]
    fn grow(
        &self,
        alloc: Global,
        purpose: Purpose,
        pattern: &[usize],
        path: &[usize],
        steps: &mut usize,
    ) -> Result<Option<Vec<usize>>, Stop>
        requires fits { length pattern.now ≤ LONGEST }
        requires front { IsFront (sought_by self.now.area purpose pattern.now) path.now }
        ensures found { IfOk result
            (λ found. MatchOption found
            (NoneFrom (sought_by self.now.area purpose pattern.now) path.now)
            (λ walk. IsLeastFrom (sought_by self.now.area purpose pattern.now) path.now
            walk.items)) }
        ensures stopped { IfErr result (λ stop. self.now.is_bound ≡ false → stop ≡ Memory) }
        ensures spent { IfErr result (λ stop. stop ≡ Spent → steps.new ≡ 0) }
        ensures fewer { steps.new ≤ steps.old }
    {
        if path.len() == pattern.len() {
            if !self.may_end(purpose, path) {
                return Ok(None);
            }
            let walk = Vec::from_slice(alloc, path)?;
            return Ok(Some(walk));
        }
        if self.is_closed(path) {
            return Ok(None);
        }
        let mut next = self.begin(pattern, path);
        while let Some(i) = next {
            if let Some(walk) = self.grow_by(alloc, purpose, pattern, path, i, steps)? {
                return Ok(Some(walk));
            }
            next = self.after(path, i);
        }
        Ok(None)
    }

    // The first walk that begins with the path and the edge at a position.
    #[cycle(grow)]
    fn grow_by(
        &self,
        alloc: Global,
        purpose: Purpose,
        pattern: &[usize],
        path: &[usize],
        next: usize,
        steps: &mut usize,
    ) -> Result<Option<Vec<usize>>, Stop>
        requires fits { length pattern.now ≤ LONGEST }
        requires short { length path.now < length pattern.now }
        requires front { IsFront (sought_by self.now.area purpose pattern.now) path.now }
        requires there { next < length self.now.area.table.now }
        requires has { key_behind
            (sought_by self.now.area purpose pattern.now) path.now next
            ≡ Some (key_after (sought_by self.now.area purpose pattern.now) path.now) }
        ensures found { IfOk result
            (λ found. MatchOption found
            (NoneFrom (sought_by self.now.area purpose pattern.now)
            (path.now ++ next ∷ []))
            (λ walk. IsLeastFrom (sought_by self.now.area purpose pattern.now)
            (path.now ++ next ∷ []) walk.items)) }
        ensures stopped { IfErr result (λ stop. self.now.is_bound ≡ false → stop ≡ Memory) }
        ensures spent { IfErr result (λ stop. stop ≡ Spent → steps.new ≡ 0) }
        ensures fewer { steps.new ≤ steps.old - 1 }
        ensures last { self.now.is_bound ≡ true → steps.old ≡ 0 → result ≡ Err Spent }
    {
        spend_step(self.is_bound, steps)?;
        if path.len() + 1 == pattern.len() && !self.may_be_last(purpose, path, next) {
            return Ok(None);
        }
        if !self.may_follow(purpose, path, next) {
            return Ok(None);
        }
        let longer = longer_path(path, next);
        self.grow(alloc, purpose, pattern, longer.as_slice(), steps)
    }
}
