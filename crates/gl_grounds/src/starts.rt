//! Whether a walk begins where a chain of models does.
//!
//! A walk through the classes of a front has models that are a chain, so its first edge holds what the first one of a chain
//! holds. Where the spans of all these chains are known it is sought from their locks alone, and not from each edge of the
//! first class.
ghost use Rattle.std.specs.Prelude.{◌≡◌, ◌<◌, ◌≤◌, false, length, Contains, IfErr, IfOk, IfSome};
ghost use Rattle.gl_filters.specs.declared.lengths.TheConstants.{LONGEST};
ghost use Rattle.gl_filters.specs.declared.steps.Stop.TheVariants.{Memory};
ghost use Rattle.gl_grounds.specs.Starting.{NoneAt, NoneHolding};
ghost use Rattle.gl_grounds.specs.declared.spans.Span.{Span};

use crate::spans::{Span, Spans};
use gl_event::LockId;
use gl_filters::Stop;
use gl_walks::{Purpose, Walker};
use std::alloc::Global;

/// Whether the walker has a walk for the signature that begins as one of these spans does: as a round one, unless a front is
/// sought.
pub fn has_walk(
    alloc: Global,
    walker: &Walker<'_>,
    purpose: Purpose,
    signature: &[usize],
    spans: &Spans,
    steps: &mut usize,
) -> Result<bool, Stop>
    requires some { 0 < length signature.now }
    requires fits { length signature.now ≤ LONGEST }
    ensures none { IfOk result
        (λ has. has ≡ false → (span : Span) → Contains spans.now.list.items span
        → NoneAt walker.now purpose signature.now span) }
    ensures stopped { IfErr result (λ stop. walker.now.is_bound ≡ false → stop ≡ Memory) }
{
    let mut last = None;
    for i in 0..spans.list.len() {
        if has_walk_at(
            alloc,
            walker,
            purpose,
            signature,
            &spans.list[i],
            &mut last,
            steps,
        )? {
            return Ok(true);
        }
    }
    Ok(false)
}

// Whether it has one that begins as this span does. None is sought from the lock that was the last one before.
fn has_walk_at(
    alloc: Global,
    walker: &Walker<'_>,
    purpose: Purpose,
    signature: &[usize],
    span: &Span,
    last: &mut Option<LockId>,
    steps: &mut usize,
) -> Result<bool, Stop>
    requires some { 0 < length signature.now }
    requires fits { length signature.now ≤ LONGEST }
    requires last { IfSome last.old (NoneHolding walker.now purpose signature.now) }
    ensures none { IfOk result
        (λ has. has ≡ false → NoneAt walker.now purpose signature.now span.now) }
    ensures last { IfOk result
        (λ has. has ≡ false → IfSome last.new (NoneHolding walker.now purpose signature.now)) }
    ensures stopped { IfErr result (λ stop. walker.now.is_bound ≡ false → stop ≡ Memory) }
{
    if purpose != Purpose::Front && !span.is_round() {
        return Ok(false);
    }
    if *last == Some(span.held) {
        return Ok(false);
    }
    if walker.has_from(alloc, purpose, signature, span.held, steps)? {
        return Ok(true);
    }
    *last = Some(span.held);
    Ok(false)
}
