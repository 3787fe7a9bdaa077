//! Giving out the lanes of a session.
ghost use Rattle.std.specs.Prelude.{◌≡◌, ◌==◌, length, if◌then◌else◌};
ghost use Rattle.gl_c.specs.Calls.{IsCall};
ghost use Rattle.gl_c.specs.LaneOpening.{next_lane_code, HasRecorders, IsGivenOut, IsLaneOpen};
ghost use Rattle.gl_c.specs.declared.codes.TheConstants.{OK, MISUSE};

use crate::codes::{MEMORY, MISUSE, NO_LANE, OK};
use crate::lane::Lane;
use crate::lane_state::LaneState;
use crate::session::Session;
use crate::session_state::SessionState;
use std::alloc::Global;

// The lane of the next thread, in this box.
fn next_lane(session: &mut SessionState, lane: &mut Box<LaneState>, thread: &mut u32) -> u32
    ensures answer { result ≡ next_lane_code session.old.recorders.items }
    ensures done { result ≡ OK → IsGivenOut session.old lane.new.value thread.new session.new }
    ensures session { (result ≡ OK → ⊥)
        → HasRecorders session.old session.old.recorders.items session.new }
    ensures thread { (result ≡ OK → ⊥) → thread.new ≡ thread.old }
{
    let Some(recorder) = session.recorders.pop() else {
        return NO_LANE;
    };
    *thread = recorder.thread().number();
    drop(Box::replace(lane, LaneState::Recording(recorder)));
    OK
}

// Gives out the lane of the next thread.
fn lane_open(alloc: Global, session: &mut SessionState, lane: &mut Lane, thread: &mut u32) -> u32
    ensures { IsLaneOpen session.old lane.old.value thread.old result thread.new
        session.new lane.new.value }
{
    if let Some(state) = lane.take(alloc) {
        lane.put(state);
        return MISUSE;
    }
    if session.recorders.is_empty() {
        return NO_LANE;
    }
    let Ok(mut room) = Box::new(alloc, LaneState::Lost) else {
        return MEMORY;
    };
    let answer = next_lane(session, &mut room, thread);
    if answer == OK {
        lane.put(room);
    }
    answer
}

/// Gives out the lane of the next thread, and its number.
#[unsafe(no_mangle)]
pub extern "C" fn goodlock_lane_open(
    alloc: Global,
    session: &mut Session,
    lane: &mut Lane,
    thread: &mut u32,
) -> u32
    ensures { IsCall
        (λ old new. IsLaneOpen old lane.old.value thread.old result thread.new new lane.new.value)
        ((result ≡ MISUSE) × (lane.new.value ≡ lane.old.value)
        × (thread.new ≡ thread.old)) session.old.value session.new.value }
{
    let Some(mut state) = session.take(alloc) else {
        return MISUSE;
    };
    let answer = lane_open(alloc, &mut state, lane, thread);
    session.put(state);
    answer
}
