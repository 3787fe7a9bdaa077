//! Paths of edges that lead on from each other, grown from each edge.
ghost use Rattle.std.specs.Prelude.{◌≡◌, ◌+◌, ◌<◌, ◌≤◌, [], ◌∷◌, ◌++◌, true, false, Some, length, take, slice_get, nat_le, if◌then◌else◌, IfOk, IfErr, IfSome, OnOk, All};
ghost use Rattle.gl_filters.specs.declared.lengths.TheConstants.{LONGEST};
ghost use Rattle.gl_segments.specs.Clocks.{is_before};
ghost use Rattle.std.specs.List.{list_all};
ghost use Rattle.gl_filters.specs.Test.{can_follow, goes_with, leads_back, is_path};
ghost use Rattle.gl_filters.specs.Picked.{edges_of_table, picked};
ghost use Rattle.gl_cycles.specs.Cycles.{cycles_in};
ghost use Rattle.gl_cycles.specs.AllCycles.{all_cycles};
ghost use Rattle.gl_sought.specs.Sought.{KeepsSought};
ghost use Rattle.gl_cycles.specs.bodies.Searching.{CanFinish, IsReady, HasFound, HasGrown, HasLimit, HasLimits, all_from, first_from, limited, sought_by};
ghost use Rattle.gl_filters.specs.declared.steps.Stop.TheVariants.{Memory};
ghost use Rattle.gl_edges.specs.declared.edge.Edge.{Edge};

use crate::pieces::add_cycles;
use gl_edges::{Edge, Sample};
use gl_event::{LockId, Memory};
use gl_filters::{Mode, Stop, goes_with, leads_on, longer_path, spend_step};
use gl_index::Followers;
use gl_pruning::Sought;
use gl_segments::Order;
use std::alloc::{AllocError, Global};

// What a search looks at, and when it has enough.
#[derive(Drop)]
pub(crate) struct Searcher<'a> {
    pub(crate) table: &'a [(Edge, Sample)],
    order: &'a Order,
    mode: Mode,
    // which edges may lie on a loop
    kept: Vec<bool>,
    index: Followers,
    // how many edges a cycle may have
    len: usize,
    // how many it has at most, by the edge that it begins with, where that is known
    limits: Option<Vec<usize>>,
    // how many cycles are looked for: one more than are listed
    pub(crate) cap: usize,
    // whether the search ends where its steps are taken
    is_bound: bool,
}

impl<'a> Searcher<'a> {
    // The search for what is sought, up to a cap, among edges of which those that aren't kept are in
    // no cycle, and none is in one that is longer than its limit.
    pub(crate) fn of(
        alloc: Global,
        sought: &Sought<'a>,
        cap: usize,
        is_bound: bool,
        kept: Vec<bool>,
        limits: Option<Vec<usize>>,
    ) -> Result<Searcher<'a>, Memory>
        requires fits { sought.now.len ≤ LONGEST }
        requires kept { KeepsSought sought.now kept.items }
        requires limited { IfSome limits (λ limits. HasLimits sought.now limits.items) }
        ensures ready { IfOk result IsReady }
        ensures sought { IfOk result (λ s. sought_by s ≡ sought.now) }
        ensures cap { IfOk result (λ s. s.cap ≡ cap) }
        ensures bound { IfOk result (λ s. s.is_bound ≡ is_bound) }
    {
        let index = Followers::of(alloc, sought.table, &kept)?;
        Ok(Searcher {
            table: sought.table,
            order: sought.order,
            mode: sought.mode,
            kept,
            index,
            len: sought.len,
            limits,
            cap,
            is_bound,
        })
    }
}

impl Searcher<'_> {
    // Whether the path's last edge leads back to its first.
    fn is_closed(&self, path: &[usize]) -> bool
        requires some { 0 < length path.now }
        requires within { All (λ i. i < length self.now.table.now) path.now }
        ensures { result ≡ leads_back (picked (edges_of_table self.now.table.now) path.now) }
    {
        let first = path[0];
        let last = path[path.len() - 1];
        leads_on(&self.table[last].0, &self.table[first].0)
    }

    // Whether each edge of the path goes with this one.
    fn goes_with_all(&self, path: &[usize], edge: &Edge) -> bool
        requires within { All (λ i. i < length self.now.table.now) path.now }
        ensures { result ≡ list_all
            (λ e. goes_with (is_before self.now.order.now) self.now.mode e edge.now)
            (picked (edges_of_table self.now.table.now) path.now) }
    {
        for &i in path {
            if !goes_with(self.mode, self.order, &self.table[i].0, edge) {
                return false;
            }
        }
        true
    }

    // Whether the edge at a position may come next in the path.
    fn can_join(&self, path: &[usize], next: usize) -> bool
        requires some { 0 < length path.now }
        requires within { All (λ i. i < length self.now.table.now) path.now }
        requires there { next < length self.now.table.now }
        ensures { (f : Edge) → slice_get (edges_of_table self.now.table.now) next ≡ Some f
            → result ≡ can_follow (is_before self.now.order.now) self.now.mode
            (picked (edges_of_table self.now.table.now) path.now) f }
    {
        let edge = &self.table[next].0;
        let first = path[0];
        let last = path[path.len() - 1];
        if edge.thread < self.table[first].0.thread {
            return false;
        }
        if !leads_on(&self.table[last].0, edge) {
            return false;
        }
        self.goes_with_all(path, edge)
    }

    // Whether the thread of the edge at a position is less than that of the path's first edge. Then it may not come next,
    // and that is seen before anything else is looked at.
    fn comes_before(&self, path: &[usize], next: usize) -> bool
        requires some { 0 < length path.now }
        requires within { All (λ i. i < length self.now.table.now) path.now }
        requires there { next < length self.now.table.now }
        ensures { result ≡ true → (f : Edge)
            → slice_get (edges_of_table self.now.table.now) next ≡ Some f
            → can_follow (is_before self.now.order.now) self.now.mode
            (picked (edges_of_table self.now.table.now) path.now) f ≡ false }
    {
        let first = path[0];
        self.table[next].0.thread < self.table[first].0.thread
    }

    // Whether an edge of the path holds this lock. Then no other one that holds it goes with all of the path.
    fn is_held(&self, path: &[usize], lock: LockId) -> bool
        requires within { All (λ i. i < length self.now.table.now) path.now }
        ensures { result ≡ true → (g : Edge) → g.held ≡ lock
            → list_all (λ e. goes_with (is_before self.now.order.now) self.now.mode e g)
            (picked (edges_of_table self.now.table.now) path.now) ≡ false }
    {
        for &i in path {
            if self.table[i].0.held == lock {
                return true;
            }
        }
        false
    }

    // Whether the edge at a position wants a lock that the path holds, but not its first edge. Behind the path, none may
    // follow it then, and it doesn't lead back.
    fn leads_astray(&self, path: &[usize], next: usize) -> bool
        requires some { 0 < length path.now }
        requires within { All (λ i. i < length self.now.table.now) path.now }
        requires there { next < length self.now.table.now }
        ensures none { result ≡ true → (f g : Edge)
            → slice_get (edges_of_table self.now.table.now) next ≡ Some f
            → can_follow (is_before self.now.order.now) self.now.mode
            (picked (edges_of_table self.now.table.now) path.now ++ f ∷ []) g ≡ false }
        ensures unclosed { result ≡ true → (f : Edge)
            → slice_get (edges_of_table self.now.table.now) next ≡ Some f
            → leads_back
            (picked (edges_of_table self.now.table.now) path.now ++ f ∷ []) ≡ false }
    {
        let wanted = self.table[next].0.wanted;
        let first = path[0];
        if wanted == self.table[first].0.held {
            return false;
        }
        self.is_held(path, wanted)
    }

    // The first cycles, up to the cap, of which those that begin with edges before a root were found.
    pub(crate) fn first_cycles(
        &self,
        alloc: Global,
        from: usize,
        found: Vec<Vec<usize>>,
    ) -> Result<Vec<Vec<usize>>, Memory>
        requires finishes { CanFinish self.now }
        requires found { HasFound (sought_by self.now) self.now.cap from
            (cycles_in found.items) }
        ensures { IfOk result
            (λ found. cycles_in found.items
            ≡ take self.now.cap
            (all_cycles (is_before self.now.order.now) self.now.mode self.now.len
            (edges_of_table self.now.table.now))) }
    {
        let mut found = found;
        for root in from..self.table.len() {
            self.add_from(alloc, root, &mut found)?;
        }
        Ok(found)
    }

    // Goes on at a root within so many steps. The root at which it stands then.
    pub(crate) fn go_on(
        &self,
        alloc: Global,
        effort: usize,
        from: usize,
        found: &mut Vec<Vec<usize>>,
    ) -> Result<usize, Memory>
        requires some { 0 < self.now.len }
        requires ready { IsReady self.now }
        requires found { HasFound (sought_by self.now) self.now.cap from
            (cycles_in found.old.items) }
        ensures { IfOk result
            (λ to. HasFound (sought_by self.now) self.now.cap to
            (cycles_in found.new.items)) }
    {
        let mut steps = effort;
        for root in from..self.table.len() {
            if !self.add_root(alloc, root, &mut steps, found)? {
                return Ok(root);
            }
        }
        Ok(self.table.len())
    }

    // Adds the cycles that begin with a root, up to the cap. Whether the steps sufficed: nothing is
    // added where they don't.
    fn add_root(
        &self,
        alloc: Global,
        root: usize,
        steps: &mut usize,
        found: &mut Vec<Vec<usize>>,
    ) -> Result<bool, Memory>
        requires some { 0 < self.now.len }
        requires ready { IsReady self.now }
        requires there { root < length self.now.table.now }
        requires found { HasFound (sought_by self.now) self.now.cap root
            (cycles_in found.old.items) }
        ensures more { IfOk result
            (λ is. is ≡ true
            → HasFound (sought_by self.now) self.now.cap (root + 1)
            (cycles_in found.new.items)) }
        ensures same { IfOk result
            (λ is. is ≡ false
            → HasFound (sought_by self.now) self.now.cap root
            (cycles_in found.new.items)) }
    {
        if found.len() >= self.cap {
            return Ok(true);
        }
        let Some(cycles) = self.cycles_within(alloc, root, steps)? else {
            return Ok(false);
        };
        add_cycles(alloc, found, &cycles, self.cap)?;
        Ok(true)
    }

    // The cycles that begin with the edge at a position, up to the cap. None where the steps don't
    // suffice.
    fn cycles_within(
        &self,
        alloc: Global,
        root: usize,
        steps: &mut usize,
    ) -> Result<Option<Vec<Vec<usize>>>, Memory>
        requires some { 0 < self.now.len }
        requires ready { IsReady self.now }
        requires there { root < length self.now.table.now }
        ensures { IfOk result
            (λ cycles. IfSome cycles
            (λ found. cycles_in found.items ≡ first_from self.now root)) }
    {
        let mut found = Vec::new(alloc);
        match self.grow_from(alloc, root, steps, &mut found) {
            Ok(()) => Ok(Some(found)),
            Err(Stop::Spent) => Ok(None),
            Err(Stop::Memory) => Err(AllocError),
        }
    }

    // Adds the cycles that begin with the edge at a position, up to the cap, in as many steps as it
    // takes.
    pub(crate) fn add_from(
        &self,
        alloc: Global,
        root: usize,
        found: &mut Vec<Vec<usize>>,
    ) -> Result<(), Memory>
        requires finishes { CanFinish self.now }
        requires there { root < length self.now.table.now }
        requires room { length found.old.items ≤ self.now.cap }
        ensures { OnOk result
            (cycles_in found.new.items
            ≡ take self.now.cap
            (cycles_in found.old.items ++ all_from self.now (root ∷ []))) }
    {
        let mut steps = 0;
        match self.grow_from(alloc, root, &mut steps, found) {
            Ok(()) => Ok(()),
            Err(Stop::Memory) => Err(AllocError),
            Err(Stop::Spent) => unreachable!(),
        }
    }

    // How many edges a cycle has at most that begins with the edge at a position.
    fn limit(&self, root: usize) -> usize
        requires some { 0 < self.now.len }
        requires there { root < length self.now.table.now }
        requires ready { IsReady self.now }
        ensures { HasLimit (sought_by self.now) root result }
    {
        match &self.limits {
            Some(limits) => limits[root],
            None => self.len,
        }
    }

    // Adds the cycles that begin with the edge at a position, up to the cap.
    fn grow_from(
        &self,
        alloc: Global,
        root: usize,
        steps: &mut usize,
        found: &mut Vec<Vec<usize>>,
    ) -> Result<(), Stop>
        requires some { 0 < self.now.len }
        requires there { root < length self.now.table.now }
        requires ready { IsReady self.now }
        requires room { length found.old.items ≤ self.now.cap }
        ensures { HasGrown self.now (root ∷ []) (cycles_in found.old.items)
            (cycles_in found.new.items) result }
    {
        if !self.kept[root] {
            return Ok(());
        }
        self.grow(alloc, self.limit(root), &[root], steps, found)
    }

    // Adds the cycles that begin with the path, of so many edges at most, up to the cap.
    #[cycle(grow)]
    fn grow(
        &self,
        alloc: Global,
        limit: usize,
        path: &[usize],
        steps: &mut usize,
        found: &mut Vec<Vec<usize>>,
    ) -> Result<(), Stop>
        requires some { 0 < length path.now }
        requires short { length path.now ≤ limit }
        requires within { All (λ i. i < length self.now.table.now) path.now }
        requires is_path { is_path (is_before self.now.order.now) self.now.mode
            (picked (edges_of_table self.now.table.now) path.now) ≡ true }
        requires ready { IsReady (limited self.now limit) }
        requires room { length found.old.items ≤ self.now.cap }
        ensures { HasGrown (limited self.now limit) path.now (cycles_in found.old.items)
            (cycles_in found.new.items) result }
    {
        if found.len() >= self.cap {
            return Ok(());
        }
        if self.is_closed(path) {
            keep_closed(alloc, path, found)?;
            return Ok(());
        }
        if path.len() == limit {
            return Ok(());
        }
        if path.len() + 1 == limit {
            return self.close(alloc, limit, path, steps, found);
        }
        let last = path[path.len() - 1];
        let mut next = self.index.begin(last);
        while let Some(i) = next {
            self.grow_by(alloc, limit, path, i, steps, found)?;
            next = self.index.after(i);
        }
        Ok(())
    }

    // Adds the cycles that the path and one more edge make, up to the cap.
    #[cycle(grow)]
    fn close(
        &self,
        alloc: Global,
        limit: usize,
        path: &[usize],
        steps: &mut usize,
        found: &mut Vec<Vec<usize>>,
    ) -> Result<(), Stop>
        requires some { 0 < length path.now }
        requires one_left { length path.now + 1 ≡ limit }
        requires within { All (λ i. i < length self.now.table.now) path.now }
        requires is_path { is_path (is_before self.now.order.now) self.now.mode
            (picked (edges_of_table self.now.table.now) path.now) ≡ true }
        requires unclosed { leads_back (picked (edges_of_table self.now.table.now) path.now)
            ≡ false }
        requires ready { IsReady (limited self.now limit) }
        requires room { length found.old.items ≤ self.now.cap }
        ensures { HasGrown (limited self.now limit) path.now (cycles_in found.old.items)
            (cycles_in found.new.items) result }
    {
        let first = path[0];
        let last = path[path.len() - 1];
        let closers = &self.index.closers;
        let mut next = closers.begin(self.table[last].0.wanted, self.table[first].0.held);
        while let Some(i) = next {
            self.grow_by(alloc, limit, path, i, steps, found)?;
            next = closers.after(i);
        }
        Ok(())
    }

    // Adds the cycles that begin with the path and the edge at a position, up to the cap.
    #[cycle(grow)]
    fn grow_by(
        &self,
        alloc: Global,
        limit: usize,
        path: &[usize],
        next: usize,
        steps: &mut usize,
        found: &mut Vec<Vec<usize>>,
    ) -> Result<(), Stop>
        requires some { 0 < length path.now }
        requires short { length path.now < limit }
        requires within { All (λ i. i < length self.now.table.now) path.now }
        requires there { next < length self.now.table.now }
        requires is_path { is_path (is_before self.now.order.now) self.now.mode
            (picked (edges_of_table self.now.table.now) path.now) ≡ true }
        requires ready { IsReady (limited self.now limit) }
        requires room { length found.old.items ≤ self.now.cap }
        ensures { HasGrown (limited self.now limit) (path.now ++ next ∷ [])
            (cycles_in found.old.items) (cycles_in found.new.items) result }
    {
        spend_step(self.is_bound, steps)?;
        if self.comes_before(path, next) {
            return Ok(());
        }
        if self.leads_astray(path, next) {
            return Ok(());
        }
        if !self.can_join(path, next) {
            return Ok(());
        }
        let longer = longer_path(path, next);
        self.grow(alloc, limit, longer.as_slice(), steps, found)
    }
}

// Adds a closed path, which is a cycle if it has two edges or more.
fn keep_closed(alloc: Global, path: &[usize], found: &mut Vec<Vec<usize>>) -> Result<(), Memory>
    ensures { OnOk result
        (cycles_in found.new.items
        ≡ cycles_in found.old.items ++
        (if nat_le 2 (length path.now) then path.now ∷ [] else [])) }
{
    if path.len() < 2 {
        return Ok(());
    }
    let cycle = Vec::from_slice(alloc, path)?;
    found.push(cycle)?;
    Ok(())
}
