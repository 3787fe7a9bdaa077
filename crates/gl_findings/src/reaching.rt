//! Which spans are reached from those of a front.
ghost use Rattle.std.specs.Prelude.{◌≡◌, ◌<◌, ◌≤◌, ◌∷◌, [], ◌++◌, ◌-◌, ℕ, Bool, List, true, false, length, IfErr, IfOk, OnOk};
ghost use Rattle.gl_edges.specs.declared.edge.Edge.{Edge};
ghost use Rattle.gl_filters.specs.Picked.{edges_of_table};
ghost use Rattle.gl_filters.specs.declared.steps.Stop.TheVariants.{Memory};
ghost use Rattle.gl_grounds.specs.Classes.{classes_of};
ghost use Rattle.gl_findings.specs.bodies.Finding.{AreReachedBy, HasSpans, IsReady, IsUnbound, block_of};
ghost use Rattle.gl_grounds.specs.Spanning.{AreInOrder, GoesOn, GoesOnAt, GoesWithAt, KeepSpans};

use crate::finder::Finder;
use gl_edges::Edge;
use gl_event::Memory;
use gl_filters::{Stop, kinds_go_together, spend_step};
use gl_grounds::{Span, Spans};
use std::alloc::Global;

// How many edges are looked at for the spans of one front at most.
const MOST_LOOKS: usize = 65_536;

impl Finder<'_> {
    /// The spans of the fronts that go on from this one with one class more, by that class: only those that are round where
    /// these fronts are as long as a cycle may be. Each edge that is looked at takes a step.
    pub(crate) fn reached(
        &self,
        alloc: Global,
        front: &[usize],
        spans: &Spans,
        steps: &mut usize,
    ) -> Result<Spans, Stop>
        requires some { 0 < length front.now }
        requires short { length front.now < self.now.len }
        requires ready { IsReady self.now }
        requires spans { HasSpans self.now front.now spans.now }
        ensures reached { IfOk result (AreReachedBy self.now front.now) }
        ensures stopped { IfErr result (λ stop. IsUnbound self.now → stop ≡ Memory) }
    {
        let is_last = front.len() + 1 == self.len;
        let mut looks = MOST_LOOKS;
        let mut reached = Spans::unknown(alloc);
        reached.are_all = spans.are_all;
        for i in 0..spans.list.len() {
            if !reached.are_all {
                return Ok(Spans::unknown(alloc));
            }
            spend_step(self.is_bound, steps)?;
            self.add_after(&spans.list[i], is_last, &mut looks, steps, &mut reached)?;
        }
        reached.sort();
        Ok(reached)
    }

    // Adds the spans that are reached from this one: the last ones lead back to where they begin.
    fn add_after(
        &self,
        span: &Span,
        is_last: bool,
        looks: &mut usize,
        steps: &mut usize,
        reached: &mut Spans,
    ) -> Result<(), Stop>
        requires ready { IsReady self.now }
        ensures keep { OnOk result (KeepSpans reached.old reached.new) }
        ensures added { OnOk result
            (GoesOn self.now.mode (edges_of_table self.now.table.now)
            (classes_of self.now.table.now) self.now.among_models.ground.flags.now is_last
            span.now reached.new) }
        ensures stopped { IfErr result (λ stop. IsUnbound self.now → stop ≡ Memory) }
    {
        if is_last {
            self.add_closers(span, looks, steps, reached)?;
            return Ok(());
        }
        self.add_followers(span, looks, steps, reached)?;
        Ok(())
    }

    // Adds those of each model that holds what the last edge wants.
    fn add_followers(
        &self,
        span: &Span,
        looks: &mut usize,
        steps: &mut usize,
        reached: &mut Spans,
    ) -> Result<(), Stop>
        requires ready { IsReady self.now }
        ensures keep { OnOk result (KeepSpans reached.old reached.new) }
        ensures added { OnOk result
            (GoesOn self.now.mode (edges_of_table self.now.table.now)
            (classes_of self.now.table.now) self.now.among_models.ground.flags.now false
            span.now reached.new) }
        ensures stopped { IfErr result (λ stop. IsUnbound self.now → stop ≡ Memory) }
    {
        let mut next = self.holders.begin(span.wanted);
        while let Some(j) = next {
            if *looks == 0 {
                reached.are_all = false;
                return Ok(());
            }
            *looks -= 1;
            spend_step(self.is_bound, steps)?;
            self.add_with(span, j, reached)?;
            next = self.holders.after(j);
        }
        Ok(())
    }

    // Adds those of each model that holds what the last edge wants, and wants what the first one holds.
    fn add_closers(
        &self,
        span: &Span,
        looks: &mut usize,
        steps: &mut usize,
        reached: &mut Spans,
    ) -> Result<(), Stop>
        requires ready { IsReady self.now }
        ensures keep { OnOk result (KeepSpans reached.old reached.new) }
        ensures added { OnOk result
            (GoesOn self.now.mode (edges_of_table self.now.table.now)
            (classes_of self.now.table.now) self.now.among_models.ground.flags.now true
            span.now reached.new) }
        ensures stopped { IfErr result (λ stop. IsUnbound self.now → stop ≡ Memory) }
    {
        let mut next = self.closers.begin(span.wanted, span.held);
        while let Some(j) = next {
            if *looks == 0 {
                reached.are_all = false;
                return Ok(());
            }
            *looks -= 1;
            spend_step(self.is_bound, steps)?;
            self.add_with(span, j, reached)?;
            next = self.closers.after(j);
        }
        Ok(())
    }

    // Adds the span of the chain that goes on with the edge at a place, where it may: the last edge leads on to it, and the kinds
    // of both ends go with its own.
    fn add_with(&self, span: &Span, j: usize, reached: &mut Spans) -> Result<(), Memory>
        requires there { j < length self.now.table.now }
        requires ready { IsReady self.now }
        ensures keep { OnOk result (KeepSpans reached.old reached.new) }
        ensures added { OnOk result
            ((is_last : Bool) (f : Edge)
            → GoesOnAt self.now.mode (edges_of_table self.now.table.now)
            (classes_of self.now.table.now) self.now.among_models.ground.flags.now
            is_last span.now reached.new j f) }
    {
        let edge = &self.table[j].0;
        if !span.goes_on(edge) {
            return Ok(());
        }
        if !self.may_go_with(span.first, edge) || !self.may_go_with(span.last, edge) {
            return Ok(());
        }
        reached.add(span.longer(j, edge, self.classes[j]))?;
        Ok(())
    }

    // Whether the kind of the edge at a place, if there is one, goes with that of this edge.
    fn may_go_with(&self, place: usize, edge: &Edge) -> bool
        ensures { result ≡ false
            → ¬ GoesWithAt self.now.mode (edges_of_table self.now.table.now) place edge.now }
    {
        if place >= self.table.len() {
            return true;
        }
        kinds_go_together(self.mode, &self.table[place].0, edge)
    }

    /// The next class, from this one on, with which a signature that reached these spans may go on. As many as there are edges
    /// where there is none.
    pub(crate) fn next_class(&self, reached: &Spans, from: usize) -> usize
        requires ready { IsReady self.now }
        requires ordered { AreInOrder reached.now }
        requires within { from ≤ length self.now.table.now }
        ensures from { from ≤ result }
        ensures within { result ≤ length self.now.table.now }
        ensures none { (front : List ℕ) (i : ℕ) → length front < self.now.len
            → AreReachedBy self.now front reached.now → from ≤ i → i < result
            → block_of self.now (self.now.len - length front - 1) (front ++ i ∷ []) ≡ [] }
    {
        if !reached.are_all {
            return self.next[from];
        }
        reached.next_class(from, self.table.len())
    }
}
