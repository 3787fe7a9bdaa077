//! Whether a cycle may have a signature, or one that begins with it.
ghost use Rattle.std.specs.Prelude.{◌≡◌, ◌<◌, ◌≤◌, [], ◌∷◌, ◌++◌, ℕ, length, true, false, IfErr, IfOk};
ghost use Rattle.gl_filters.specs.declared.steps.Stop.TheVariants.{Memory};
ghost use Rattle.gl_findings.specs.bodies.Finding.{HasSpans, IsReady, IsUnbound, finding_of, block_of};

use crate::finder::Finder;
use gl_filters::Stop;
use gl_grounds::{Spans, has_walk, is_run_twice};
use gl_walks::Purpose;
use std::alloc::Global;

impl Finder<'_> {
    /// Whether a cycle may have this signature, as far as its last class and its first one tell.
    pub(crate) fn may_close(&self, signature: &[usize]) -> bool
        requires ready { IsReady self.now }
        ensures { result ≡ false → finding_of self.now signature.now ≡ [] }
    {
        if signature.len() < 2 {
            return true;
        }
        let last = signature[signature.len() - 1];
        self.passages.may_pass(last, signature[0])
    }

    /// Whether a signature of a cycle may go on with a class, as far as its last one tells.
    pub(crate) fn may_go_on(&self, front: &[usize], class: usize) -> bool
        requires ready { IsReady self.now }
        ensures { result ≡ false
            → (n : ℕ) → block_of self.now n (front.now ++ class ∷ []) ≡ [] }
    {
        if front.is_empty() {
            return true;
        }
        self.passages.may_pass(front[front.len() - 1], class)
    }

    /// Whether a signature of a cycle may begin so: no thread would have to run two classes alone, and models show
    /// a walk. Where its spans are known none is sought that would be found for certain, and where it has no room for more
    /// classes either: a round is sought then. Else it is sought from their locks.
    pub(crate) fn may_begin(
        &self,
        alloc: Global,
        front: &[usize],
        spans: &Spans,
        steps: &mut usize,
    ) -> Result<bool, Stop>
        requires some { 0 < length front.now }
        requires short { length front.now ≤ self.now.len }
        requires ready { IsReady self.now }
        requires spans { HasSpans self.now front.now spans.now }
        ensures none { IfOk result
            (λ may. may ≡ false
            → (n : ℕ) → block_of self.now n front.now ≡ []) }
        ensures stopped { IfErr result (λ stop. IsUnbound self.now → stop ≡ Memory) }
    {
        if is_run_twice(self.runners, front) {
            return Ok(false);
        }
        if spans.are_exact(front.len()) {
            return Ok(true);
        }
        if !spans.are_all {
            let walk = self
                .among_models
                .first(alloc, Purpose::Front, front, steps)?;
            return Ok(walk.is_some());
        }
        if front.len() == self.len {
            return Ok(true);
        }
        let begins = has_walk(
            alloc,
            &self.among_models,
            Purpose::Front,
            front,
            spans,
            steps,
        )?;
        Ok(begins)
    }

    /// Whether a cycle may have this signature: models show a round. Where its spans are known edges that are kept have to show
    /// one, too, that begins where one of its chains does.
    pub(crate) fn goes_round(
        &self,
        alloc: Global,
        signature: &[usize],
        spans: &Spans,
        steps: &mut usize,
    ) -> Result<bool, Stop>
        requires some { 0 < length signature.now }
        requires short { length signature.now ≤ self.now.len }
        requires ready { IsReady self.now }
        requires spans { HasSpans self.now signature.now spans.now }
        ensures none { IfOk result
            (λ goes. goes ≡ false → finding_of self.now signature.now ≡ []) }
        ensures stopped { IfErr result (λ stop. IsUnbound self.now → stop ≡ Memory) }
    {
        if !spans.are_all {
            let round = self
                .among_models
                .first(alloc, Purpose::Round, signature, steps)?;
            return Ok(round.is_some());
        }
        if !spans.are_exact(signature.len()) && !self.shows_round(alloc, signature, spans, steps)? {
            return Ok(false);
        }
        let goes = has_walk(
            alloc,
            &self.among_kept,
            Purpose::Turned,
            signature,
            spans,
            steps,
        )?;
        Ok(goes)
    }

    // Whether models show a round that begins where a chain of them does.
    fn shows_round(
        &self,
        alloc: Global,
        signature: &[usize],
        spans: &Spans,
        steps: &mut usize,
    ) -> Result<bool, Stop>
        requires some { 0 < length signature.now }
        requires short { length signature.now ≤ self.now.len }
        requires ready { IsReady self.now }
        requires spans { HasSpans self.now signature.now spans.now }
        requires all { spans.now.are_all ≡ true }
        ensures none { IfOk result
            (λ shows. shows ≡ false → finding_of self.now signature.now ≡ []) }
        ensures stopped { IfErr result (λ stop. IsUnbound self.now → stop ≡ Memory) }
    {
        let shows = has_walk(
            alloc,
            &self.among_models,
            Purpose::Round,
            signature,
            spans,
            steps,
        )?;
        Ok(shows)
    }
}
