//! What becomes of an event that a line tells.
ghost use Rattle.std.specs.Prelude.{◌≡◌, ◌≢◌, ◌+◌, ◌^◌, ◌<◌, List, Option, Some};
ghost use Rattle.gl_event.specs.Lawful.{lock_refusal};
ghost use Rattle.gl_event.specs.States.{HasFollowed, StandsAfter};
ghost use Rattle.gl_event.specs.declared.events.Event.{Event};
ghost use Rattle.gl_std.specs.bodies.Finding.{ruling_of};
ghost use Rattle.gl_std.specs.declared.faults.StdKind.{StdKind};
ghost use Rattle.gl_std.specs.declared.ruling.Ruling.TheVariants.{Kept, Stray};

use crate::faults::StdKind;
use gl_event::{Event, Refusal, ThreadState};

/// What becomes of an event that a line tells.
#[derive(Clone, Copy)]
pub(crate) enum Ruling {
    /// It is in the trace.
    Kept,
    /// It is dropped: a release of a lock that its thread doesn't hold.
    Stray,
    /// Its line is at fault.
    Fault(StdKind),
}

/// Takes the event as the thread's next one, where neither the held locks nor `limit` refuse it. A
/// stray changes nothing. After a fault the state is of no use.
#[inline(always)]
pub(crate) fn rule(state: &mut ThreadState, event: Event, limit: Option<StdKind>) -> Ruling
    requires fits { state.old.events + 1 < 2 ^ 32 }
    ensures ruling { (es : List Event) → StandsAfter es state.old
        → result ≡ ruling_of (lock_refusal es event) limit }
    ensures kept { result ≡ Kept → HasFollowed state.old event state.new }
    ensures stray { result ≡ Stray → state.new ≡ state.old }
{
    match state.take(event) {
        Ok(()) => match limit {
            Some(kind) => Ruling::Fault(kind),
            None => Ruling::Kept,
        },
        Err(refusal) => refused(refusal),
    }
}

// What becomes of an event that the held locks refuse so.
fn refused(refusal: Refusal) -> Ruling
    ensures ruling { (limit : Option StdKind) → result ≡ ruling_of (Some refusal) limit }
    ensures dropped { result ≢ Kept }
{
    match refusal {
        Refusal::HeldFull => Ruling::Fault(StdKind::HeldFull),
        Refusal::DepthFull => Ruling::Fault(StdKind::DepthFull),
        Refusal::Upgrade => Ruling::Fault(StdKind::Upgrade),
        Refusal::NotHeld => Ruling::Stray,
        // these aren't the locks' refusals
        Refusal::PlaceFull | Refusal::NoSuchThread | Refusal::OnItself => Ruling::Stray,
    }
}
