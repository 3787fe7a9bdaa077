//! The calls on a lane.
ghost use Rattle.std.specs.Prelude.{◌≡◌, None};
ghost use Rattle.gl_c.specs.Calls.{IsCall};
ghost use Rattle.gl_c.specs.Lanes.{IsRecordOfState, IsClose};
ghost use Rattle.gl_c.specs.declared.codes.TheConstants.{MISUSE};

use crate::codes::MISUSE;
use crate::lane::Lane;
use crate::lane_state::LaneState;
use std::alloc::Global;

/// Records the thread's next event.
#[unsafe(no_mangle)]
pub extern "C" fn goodlock_record(
    alloc: Global,
    lane: &mut Lane,
    kind: u32,
    operand: u32,
    place: u32,
    at: &mut u32,
) -> u32
    ensures { IsCall (λ old new. IsRecordOfState old kind operand place at.old result at.new new)
        ((result ≡ MISUSE) × (at.new ≡ at.old)) lane.old.value lane.new.value }
{
    let Some(mut state) = lane.take(alloc) else {
        return MISUSE;
    };
    let answer = state.record(kind, operand, place, at);
    lane.put(state);
    answer
}

/// Ends the recording.
#[unsafe(no_mangle)]
pub extern "C" fn goodlock_close(alloc: Global, lane: &mut Lane) -> u32
    ensures { IsCall (λ old new. IsClose old result new)
        (result ≡ MISUSE) lane.old.value lane.new.value }
{
    let Some(mut state) = lane.take(alloc) else {
        return MISUSE;
    };
    let (after, answer) = Box::replace(&mut state, LaneState::Lost).close();
    drop(Box::replace(&mut state, after));
    lane.put(state);
    answer
}

/// Frees the lane.
#[unsafe(no_mangle)]
pub extern "C" fn goodlock_lane_free(alloc: Global, lane: &mut Lane)
    ensures { lane.new.value ≡ None }
{
    drop(lane.take(alloc));
}
