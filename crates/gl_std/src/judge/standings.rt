//! What is known of each thread after the lines so far: what an event changes of that, or why it is refused.
ghost use Rattle.std.specs.Prelude.{◌≡◌, ◌+◌, ◌^◌, ◌<◌, [], All, None, OnOk, IfOk, IfSome, vec_len};
ghost use Rattle.gl_event.specs.Lawful.{lock_refusal};
ghost use Rattle.gl_std.specs.Trace.{with_event};
ghost use Rattle.gl_std.specs.bodies.Finding.{ruling_of, with_lists, with_partner};
ghost use Rattle.gl_std.specs.bodies.Rulings.{IsRulingOf, Stands, StandsRuled};
ghost use Rattle.gl_std.specs.bodies.Shown.{shown_operation};

use crate::faults::StdKind;
use crate::line::Operation;
use crate::names::Found;
use crate::ruling::{Ruling, rule};
use gl_event::{Event, ThreadState};
use std::alloc::AllocError;

/// Lets the thread of the event stand after it, and a new thread that it forks or joins after nothing,
/// unless the held locks or `limit` refuse the event.
#[inline(always)]
pub(super) fn stand(
    standings: &mut Vec<ThreadState>,
    operation: Operation,
    found: &Found,
    event: Event,
    limit: Option<StdKind>,
) -> Result<Ruling, AllocError>
    requires known { IfSome found.now.thread (λ i. i < vec_len standings.old) }
    requires fits { All (λ s. s.events + 1 < 2 ^ 32) standings.old.items }
    ensures ruling { IfOk result
        (IsRulingOf standings.old.items found.now.thread event limit) }
    ensures stands { IfOk result (StandsRuled standings.old.items standings.new.items
        (λ lists. with_lists lists (shown_operation operation) found.now event)) }
{
    match stand_own(standings, found, event, limit)? {
        Ruling::Kept => {
            add_partner(standings, operation, found)?;
            Ok(Ruling::Kept)
        }
        other => Ok(other),
    }
}

// `stand`, for the acting thread, known or new.
#[inline(always)]
fn stand_own(
    standings: &mut Vec<ThreadState>,
    found: &Found,
    event: Event,
    limit: Option<StdKind>,
) -> Result<Ruling, AllocError>
    requires known { IfSome found.now.thread (λ i. i < vec_len standings.old) }
    requires fits { All (λ s. s.events + 1 < 2 ^ 32) standings.old.items }
    ensures ruling { IfOk result
        (IsRulingOf standings.old.items found.now.thread event limit) }
    ensures stands { IfOk result (StandsRuled standings.old.items standings.new.items
        (λ lists. with_event lists found.now.thread event)) }
{
    match found.thread {
        Some(number) => {
            let standing = &mut standings[number.number() as usize];
            Ok(rule(standing, event, limit))
        }
        None => stand_first(standings, event, limit),
    }
}

// Lets a new thread that the event forks or joins stand after nothing.
fn add_partner(
    standings: &mut Vec<ThreadState>,
    operation: Operation,
    found: &Found,
) -> Result<(), AllocError>
    ensures { OnOk result (Stands standings.old.items standings.new.items
        (λ lists. with_partner lists (shown_operation operation) found.now)) }
{
    if !operation.is_on_thread() {
        return Ok(());
    }
    match found.operand {
        Some(_) => Ok(()),
        None => {
            standings.push(ThreadState::new())?;
            Ok(())
        }
    }
}

// `stand_own`, for the first event of a thread. It isn't inlined, since a new state is large.
#[inline(never)]
fn stand_first(
    standings: &mut Vec<ThreadState>,
    event: Event,
    limit: Option<StdKind>,
) -> Result<Ruling, AllocError>
    ensures ruling { IfOk result (λ v. v ≡ ruling_of (lock_refusal [] event) limit) }
    ensures stands { IfOk result (StandsRuled standings.old.items standings.new.items
        (λ lists. with_event lists None event)) }
{
    let mut standing = ThreadState::new();
    match rule(&mut standing, event, limit) {
        Ruling::Kept => {
            standings.push(standing)?;
            Ok(Ruling::Kept)
        }
        other => Ok(other),
    }
}
