//! Events and their refusals by the numbers that C has for them.
ghost use Rattle.std.specs.Prelude.{◌≡◌, ◌<◌, Some};
ghost use Rattle.gl_c.specs.Numbered.{event_of_kind, refusal_code};
ghost use Rattle.gl_c.specs.declared.codes.TheConstants.{FORK};

use crate::codes::{
    ACQUIRE, DEPTH_FULL, EVENTS_FULL, FORK, HELD_FULL, JOIN, NO_SUCH_THREAD, NOT_HELD, ON_ITSELF,
    RELEASE, TRY_ACQUIRE, UPGRADE,
};
use gl_event::{Event, LocId, LockId, LockMode, Refusal, ThreadId};

// The kinds of event with a lock go by two, an exclusive one and behind it its shared form. These are the numbers of the pairs.
const ACQUIRES: u32 = ACQUIRE / 2;

const RELEASES: u32 = RELEASE / 2;

const TRY_ACQUIRES: u32 = TRY_ACQUIRE / 2;

// The event of this kind, one with a lock, at this place.
#[inline(always)]
fn lock_event_of(kind: u32, lock: LockId, loc: LocId) -> Event
    requires { kind < FORK }
    ensures { event_of_kind kind lock loc ≡ Some result }
{
    let mode = if kind % 2 == 0 {
        LockMode::Exclusive
    } else {
        LockMode::Shared
    };
    match kind / 2 {
        ACQUIRES => Event::Acquire { lock, mode, loc },
        RELEASES => Event::Release { lock, mode, loc },
        TRY_ACQUIRES => Event::TryAcquire { lock, mode, loc },
        _ => unreachable!(),
    }
}

/// The event of this kind, on this lock or thread, at this place.
pub fn event_of(kind: u32, operand: u32, place: u32) -> Option<Event>
    ensures { result ≡ event_of_kind kind operand place }
{
    let (lock, thread, loc) = (
        LockId::new(operand),
        ThreadId::new(operand),
        LocId::new(place),
    );
    if kind < FORK {
        return Some(lock_event_of(kind, lock, loc));
    }
    match kind {
        FORK => Some(Event::Fork { thread, loc }),
        JOIN => Some(Event::Join { thread, loc }),
        _ => None,
    }
}

/// The number of the reason.
pub fn refusal_code(why: Refusal) -> u32
    ensures { result ≡ refusal_code why }
{
    match why {
        Refusal::PlaceFull => EVENTS_FULL,
        Refusal::NoSuchThread => NO_SUCH_THREAD,
        Refusal::OnItself => ON_ITSELF,
        Refusal::NotHeld => NOT_HELD,
        Refusal::HeldFull => HELD_FULL,
        Refusal::DepthFull => DEPTH_FULL,
        Refusal::Upgrade => UPGRADE,
    }
}
