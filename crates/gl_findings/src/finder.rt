//! The search of signatures: they grow class by class.
ghost use Rattle.std.specs.Prelude.{◌≡◌, ◌+◌, ◌-◌, ◌<◌, ◌≤◌, [], ◌∷◌, ◌++◌, ℕ, length, take, true, false, IfErr, IfOk, IfSome, IsTrue, OnOk, All};
ghost use Rattle.gl_segments.specs.Clocks.{is_before};
ghost use Rattle.gl_filters.specs.declared.steps.Stop.TheVariants.{Memory};
ghost use Rattle.gl_cycles.specs.Cycles.{cycles_in};
ghost use Rattle.gl_filters.specs.Picked.{edges_of_table};
ghost use Rattle.gl_grounds.specs.Classes.{classes_of};
ghost use Rattle.gl_findings.specs.Findings.{findings};
ghost use Rattle.gl_findings.specs.bodies.Finding.{AreAdded, AreReachedBy, HasSpans, IsReady, IsUnbound, finding_of, block_of, below_of};
ghost use Rattle.gl_findings.specs.bodies.Lengths.{AreLongest};
ghost use Rattle.gl_grounds.specs.Grounds.{AreGrounds};

use crate::lengths::is_full;
use crate::shown::{first_with, keep};
use crate::turns::{begins_least, longer};
use gl_edges::{Edge, EdgeList, Sample};
use gl_event::Memory;
use gl_filters::{Mode, Query, Stop, spend_step};
use gl_grounds::{Grounds, Passages, Runner, Spans};
use gl_index::{Chain, Closers};
use gl_segments::Order;
use gl_walks::{Ground, Walker};
use std::alloc::{AllocError, Global};

/// What a search looks at, and when it has enough.
pub(crate) struct Finder<'a> {
    pub(crate) table: &'a [(Edge, Sample)],
    pub(crate) order: &'a Order,
    pub(crate) mode: Mode,
    // shows the cycles of a signature, among edges that are kept
    pub(crate) among_kept: Walker<'a>,
    // shows whether a signature may begin so, and be one of a round, among models
    pub(crate) among_models: Walker<'a>,
    // for each class the next one that has a model
    pub(crate) next: &'a [usize],
    // and which thread runs it, where one alone does
    pub(crate) runners: &'a [Runner],
    // which classes lead on to which
    pub(crate) passages: &'a Passages,
    // the class of each edge
    pub(crate) classes: &'a [usize],
    // the models by the locks that they hold, and by those that they want too
    pub(crate) holders: &'a Chain,
    pub(crate) closers: &'a Closers,
    // and their spans, by their classes
    pub(crate) begins: &'a Spans,
    // how many edges a cycle has at most, by the class of one of them; none, where that isn't known
    pub(crate) longest: &'a [usize],
    // whether it ends where its steps are taken
    pub(crate) is_bound: bool,
    // how many edges a cycle may have
    pub(crate) len: usize,
    // how many findings are looked for: one more than are listed
    pub(crate) cap: usize,
}

// Written out, so that it is proved once: a derived drop is proved again wherever one is let go.
impl Drop for Finder<'_> {
    fn drop(self) {
        let Finder {
            table,
            order,
            mode,
            among_kept,
            among_models,
            next,
            runners,
            passages,
            classes,
            holders,
            closers,
            begins,
            longest,
            is_bound,
            len,
            cap,
        } = self;
    }
}

// The walkers of a search: among edges that are kept, and among their models.
#[derive(Drop)]
struct Walkers<'a> {
    kept: Walker<'a>,
    models: Walker<'a>,
}

impl<'a> Walkers<'a> {
    // Those over these grounds.
    fn of(
        alloc: Global,
        kept: Ground<'a>,
        models: Ground<'a>,
        is_bound: bool,
    ) -> Result<Walkers<'a>, Memory>
        requires kept_classes { length kept.classes.now ≡ length kept.table.now }
        requires kept_flags { length kept.flags.now ≡ length kept.table.now }
        requires models_classes { length models.classes.now ≡ length models.table.now }
        requires models_flags { length models.flags.now ≡ length models.table.now }
        ensures kept { IfOk result (λ walkers. walkers.kept.ground ≡ kept.entry) }
        ensures models { IfOk result (λ walkers. walkers.models.ground ≡ models.entry) }
        ensures kept_bound { IfOk result (λ walkers. walkers.kept.is_bound ≡ is_bound) }
        ensures models_bound { IfOk result (λ walkers. walkers.models.is_bound ≡ is_bound) }
    {
        let kept = Walker::of(alloc, kept, is_bound)?;
        let models = Walker::of(alloc, models, is_bound)?;
        Ok(Walkers { kept, models })
    }
}

impl<'a> Finder<'a> {
    /// The search for the findings of a query, up to one more than are listed, which may be bound to steps.
    pub(crate) fn of(
        alloc: Global,
        edges: &'a EdgeList,
        order: &'a Order,
        query: &Query,
        grounds: &'a Grounds,
        longest: &'a [usize],
        is_bound: bool,
    ) -> Result<Finder<'a>, Memory>
        requires grounds { AreGrounds (is_before order.now) query.now.mode query.now.len edges.now
            grounds.now }
        requires longest { AreLongest (is_before order.now) query.now.mode query.now.len
            (edges_of_table edges.now) (classes_of edges.now) longest.now }
        ensures ready { IfOk result IsReady }
        ensures table { IfOk result (λ finder. finder.table.now ≡ edges.now) }
        ensures order { IfOk result (λ finder. finder.order.now ≡ order.now) }
        ensures mode { IfOk result (λ finder. finder.mode ≡ query.now.mode) }
        ensures len { IfOk result (λ finder. finder.len ≡ query.now.len) }
        ensures cap { IfOk result (λ finder. finder.cap ≡ query.now.max + 1) }
        ensures unbound { IfOk result (λ finder. is_bound ≡ false → IsUnbound finder) }
    {
        let table = edges.entries();
        let mode = query.mode();
        let classes = grounds.classes.as_slice();
        let kept = Ground {
            table,
            order,
            mode,
            classes,
            flags: grounds.kept.as_slice(),
        };
        let models = Ground {
            table,
            order,
            mode,
            classes,
            flags: grounds.models.as_slice(),
        };
        let walkers = Walkers::of(alloc, kept, models, is_bound)?;
        Ok(Finder {
            table,
            order,
            mode,
            among_kept: walkers.kept,
            among_models: walkers.models,
            next: grounds.next.as_slice(),
            runners: grounds.runners.as_slice(),
            passages: &grounds.passages,
            classes,
            holders: &grounds.holders,
            closers: &grounds.closers,
            begins: &grounds.begins,
            longest,
            is_bound,
            len: query.len() as usize,
            cap: query.max() as usize + 1,
        })
    }
}

impl Finder<'_> {
    // The first findings, up to the cap. None where so many steps don't suffice; it tells how many there are by then.
    pub(crate) fn findings_within(
        &self,
        alloc: Global,
        steps: usize,
        count: &mut usize,
    ) -> Result<Option<Vec<Vec<usize>>>, Memory>
        requires ready { IsReady self.now }
        ensures { IfOk result
            (λ found. IfSome found
            (λ shown. cycles_in shown.items
            ≡ take self.now.cap
            (findings (is_before self.now.order.now) self.now.mode self.now.len
            self.now.table.now))) }
    {
        let mut steps = steps;
        let mut found = Vec::new(alloc);
        let ended = self.grow_on(alloc, &[], self.begins, 0, &mut steps, &mut found);
        *count = found.len();
        match ended {
            Ok(()) => Ok(Some(found)),
            Err(Stop::Spent) => Ok(None),
            Err(Stop::Memory) => Err(AllocError),
        }
    }

    // The first findings, up to the cap.
    pub(crate) fn first_findings(&self, alloc: Global) -> Result<Vec<Vec<usize>>, Memory>
        requires ready { IsReady self.now }
        requires unbound { IsUnbound self.now }
        ensures { IfOk result
            (λ found. cycles_in found.items
            ≡ take self.now.cap
            (findings (is_before self.now.order.now) self.now.mode self.now.len
            self.now.table.now)) }
    {
        let mut steps = 0;
        let mut found = Vec::new(alloc);
        match self.grow_on(alloc, &[], self.begins, 0, &mut steps, &mut found) {
            Ok(()) => Ok(found),
            Err(Stop::Memory) => Err(AllocError),
            Err(Stop::Spent) => unreachable!(),
        }
    }

    // Adds the findings whose signature begins with a class, up to the cap.
    pub(crate) fn add_from(
        &self,
        alloc: Global,
        class: usize,
        found: &mut Vec<Vec<usize>>,
    ) -> Result<(), Memory>
        requires there { class < length self.now.table.now }
        requires ready { IsReady self.now }
        requires unbound { IsUnbound self.now }
        requires room { length found.old.items ≤ self.now.cap }
        ensures { OnOk result
            (AreAdded self.now (block_of self.now (self.now.len - 1) (class ∷ []))
            (cycles_in found.old.items) (cycles_in found.new.items)) }
    {
        let mut steps = 0;
        let spans = self.begins.of_class(alloc, class)?;
        match self.grow_by(alloc, &[], &spans, class, &mut steps, found) {
            Ok(()) => Ok(()),
            Err(Stop::Memory) => Err(AllocError),
            Err(Stop::Spent) => unreachable!(),
        }
    }

    // Adds the findings whose signature begins with this one, up to the cap.
    #[cycle(grow)]
    fn grow(
        &self,
        alloc: Global,
        signature: &[usize],
        spans: &Spans,
        steps: &mut usize,
        found: &mut Vec<Vec<usize>>,
    ) -> Result<(), Stop>
        requires some { 0 < length signature.now }
        requires short { length signature.now ≤ self.now.len }
        requires within { All (λ class. class < length self.now.table.now) signature.now }
        requires ready { IsReady self.now }
        requires spans { HasSpans self.now signature.now spans.now }
        requires room { length found.old.items ≤ self.now.cap }
        ensures grown { OnOk result
            (AreAdded self.now
            (block_of self.now (self.now.len - length signature.now) signature.now)
            (cycles_in found.old.items) (cycles_in found.new.items)) }
        ensures stopped { IfErr result (λ stop. IsUnbound self.now → stop ≡ Memory) }
    {
        if found.len() >= self.cap {
            return Ok(());
        }
        if !self.add_own(alloc, signature, spans, steps, found)? {
            return Ok(());
        }
        let reached = self.reached(alloc, signature, spans, steps)?;
        self.grow_on(alloc, signature, &reached, signature[0], steps, found)
    }

    // Adds the findings whose signature goes on from this one, up to the cap. No signature that goes on
    // with a class before the given one begins where it is to be told from.
    #[cycle(grow)]
    fn grow_on(
        &self,
        alloc: Global,
        signature: &[usize],
        reached: &Spans,
        from: usize,
        steps: &mut usize,
        found: &mut Vec<Vec<usize>>,
    ) -> Result<(), Stop>
        requires short { length signature.now < self.now.len }
        requires within { All (λ class. class < length self.now.table.now) signature.now }
        requires begins { from ≤ length self.now.table.now }
        requires none { (i : ℕ) → i < from
            → block_of self.now (self.now.len - length signature.now - 1)
            (signature.now ++ i ∷ []) ≡ [] }
        requires ready { IsReady self.now }
        requires reached { AreReachedBy self.now signature.now reached.now }
        requires room { length found.old.items ≤ self.now.cap }
        ensures grown { OnOk result
            (AreAdded self.now
            (below_of self.now (self.now.len - length signature.now - 1) signature.now
            (length self.now.table.now))
            (cycles_in found.old.items) (cycles_in found.new.items)) }
        ensures stopped { IfErr result (λ stop. IsUnbound self.now → stop ≡ Memory) }
    {
        let mut next = self.next_class(reached, from);
        while next < self.table.len() {
            let spans = reached.of_class(alloc, next)?;
            self.grow_by(alloc, signature, &spans, next, steps, found)?;
            next = self.next_class(reached, next + 1);
        }
        Ok(())
    }

    // Adds the findings whose signature goes on from this one with a class, up to the cap. It takes a step at least.
    #[cycle(grow)]
    fn grow_by(
        &self,
        alloc: Global,
        signature: &[usize],
        spans: &Spans,
        class: usize,
        steps: &mut usize,
        found: &mut Vec<Vec<usize>>,
    ) -> Result<(), Stop>
        requires short { length signature.now < self.now.len }
        requires within { All (λ class. class < length self.now.table.now) signature.now }
        requires there { class < length self.now.table.now }
        requires ready { IsReady self.now }
        requires spans { HasSpans self.now (signature.now ++ class ∷ []) spans.now }
        requires room { length found.old.items ≤ self.now.cap }
        ensures grown { OnOk result
            (AreAdded self.now
            (block_of self.now (self.now.len - length signature.now - 1)
            (signature.now ++ class ∷ []))
            (cycles_in found.old.items) (cycles_in found.new.items)) }
        ensures stopped { IfErr result (λ stop. IsUnbound self.now → stop ≡ Memory) }
    {
        spend_step(self.is_bound, steps)?;
        if !self.may_go_on(signature, class) {
            return Ok(());
        }
        let longer = longer(signature, class);
        if !self.may_grow(alloc, longer.as_slice(), spans, steps)? {
            return Ok(());
        }
        self.grow(alloc, longer.as_slice(), spans, steps, found)
    }

    // Adds the finding of a signature, where it has one. Whether signatures of findings may go on from this one, as far as its length
    // tells.
    fn add_own(
        &self,
        alloc: Global,
        signature: &[usize],
        spans: &Spans,
        steps: &mut usize,
        found: &mut Vec<Vec<usize>>,
    ) -> Result<bool, Stop>
        requires some { 0 < length signature.now }
        requires short { length signature.now ≤ self.now.len }
        requires ready { IsReady self.now }
        requires spans { HasSpans self.now signature.now spans.now }
        requires room { length found.old.items < self.now.cap }
        ensures own { IfOk result
            (λ goes_on. cycles_in found.new.items
            ≡ cycles_in found.old.items ++ finding_of self.now signature.now) }
        ensures short { IfOk result
            (λ goes_on. goes_on ≡ true → length signature.now < self.now.len) }
        ensures whole { IfOk result
            (λ goes_on. goes_on ≡ false
            → AreAdded self.now
            (block_of self.now (self.now.len - length signature.now) signature.now)
            (cycles_in found.old.items) (cycles_in found.new.items)) }
        ensures stopped { IfErr result (λ stop. IsUnbound self.now → stop ≡ Memory) }
    {
        self.add_shown(alloc, signature, spans, steps, found)?;
        if signature.len() == self.len {
            return Ok(false);
        }
        Ok(!is_full(self.longest, signature))
    }

    // Whether there may be findings whose signature begins with this one.
    fn may_grow(
        &self,
        alloc: Global,
        signature: &[usize],
        spans: &Spans,
        steps: &mut usize,
    ) -> Result<bool, Stop>
        requires some { 0 < length signature.now }
        requires short { length signature.now ≤ self.now.len }
        requires ready { IsReady self.now }
        requires spans { HasSpans self.now signature.now spans.now }
        ensures none { IfOk result
            (λ may. may ≡ false
            → block_of self.now (self.now.len - length signature.now) signature.now ≡ []) }
        ensures stopped { IfErr result (λ stop. IsUnbound self.now → stop ≡ Memory) }
    {
        if signature.len() == self.len && !self.may_close(signature) {
            return Ok(false);
        }
        self.may_begin(alloc, signature, spans, steps)
    }

    // Adds the finding of a signature, where it has one. No cycle has fewer than two edges, and each has models that go round
    // as it does.
    fn add_shown(
        &self,
        alloc: Global,
        signature: &[usize],
        spans: &Spans,
        steps: &mut usize,
        found: &mut Vec<Vec<usize>>,
    ) -> Result<(), Stop>
        requires some { 0 < length signature.now }
        requires short { length signature.now ≤ self.now.len }
        requires ready { IsReady self.now }
        requires spans { HasSpans self.now signature.now spans.now }
        ensures grown { OnOk result
            (cycles_in found.new.items
            ≡ cycles_in found.old.items ++ finding_of self.now signature.now) }
        ensures stopped { IfErr result (λ stop. IsUnbound self.now → stop ≡ Memory) }
    {
        if signature.len() < 2 {
            return Ok(());
        }
        if !self.may_close(signature) || !begins_least(signature) {
            return Ok(());
        }
        if !self.goes_round(alloc, signature, spans, steps)? {
            return Ok(());
        }
        if let Some(cycle) = first_with(alloc, &self.among_kept, self.len, signature, steps)? {
            keep(found, cycle)?;
        }
        Ok(())
    }
}
