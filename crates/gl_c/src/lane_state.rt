//! What a lane's handle is of.
ghost use Rattle.std.specs.Prelude.{◌≡◌, ◌<◌};
ghost use Rattle.gl_c.specs.Lanes.{IsRecordOn, IsRecordOfKind, IsRecordOfState, IsClose};
ghost use Rattle.gl_c.specs.Numbered.{event_of_kind};

use crate::codes::{FULL, MISUSE, OK, RANGE, UNCONFIRMED};
use crate::numbered::{event_of, refusal_code};
use gl_engine::{CloseFault, Receipt, RecordFault, Recorder};
use gl_event::Event;

/// One thread's lane: it is recorded on, then it is closed, and waits to be handed in.
#[derive(Drop)]
pub enum LaneState {
    /// Events are recorded.
    Recording(Recorder),
    /// The recording has ended.
    Closed(Receipt),
    /// The recording has ended, and the session was freed before: there is no receipt.
    Lost,
}

// Records the event of this kind, where the lane has to be asked whether there is room for it. It isn't inlined, and is given numbers:
// so an event for which there certainly is room stays in registers.
#[inline(never)]
fn record_looking(recorder: &mut Recorder, kind: u32, operand: u32, place: u32, at: &mut u32) -> u32
    ensures { IsRecordOfKind recorder.old (event_of_kind kind operand place) at.old result at.new
        recorder.new }
{
    let Some(event) = event_of(kind, operand, place) else {
        return RANGE;
    };
    *at = recorder.taken();
    match recorder.record(event) {
        Ok(_) => OK,
        Err(RecordFault::Full(_)) => FULL,
        Err(RecordFault::Refused(why)) => refusal_code(why),
    }
}

// Records the event, for which there certainly is room, and tells the place that it has in the thread's list, or would
// have had.
#[inline(always)]
fn record_known(recorder: &mut Recorder, event: Event, at: &mut u32) -> u32
    requires { 0 < recorder.old.room }
    ensures { IsRecordOn recorder.old event result at.new recorder.new }
{
    *at = recorder.taken();
    match recorder.record_known(event) {
        Ok(_) => OK,
        Err(why) => refusal_code(why),
    }
}

impl LaneState {
    /// Records the event of this kind, on this lock or thread, at this place.
    pub fn record(&mut self, kind: u32, operand: u32, place: u32, at: &mut u32) -> u32
        ensures { IsRecordOfState self.old kind operand place at.old result at.new self.new }
    {
        let LaneState::Recording(recorder) = self else {
            return MISUSE;
        };
        if !recorder.has_room() {
            return record_looking(recorder, kind, operand, place, at);
        }
        let Some(event) = event_of(kind, operand, place) else {
            return RANGE;
        };
        record_known(recorder, event, at)
    }

    /// Ends the recording, and what is answered. A lane that is full and stays so, since nobody is left to pull,
    /// is lost as well.
    pub fn close(self) -> (LaneState, u32)
        ensures { IsClose self result.1 result.0 }
    {
        let LaneState::Recording(mut recorder) = self else {
            return (self, MISUSE);
        };
        let is_abandoned = recorder.is_abandoned();
        match recorder.close() {
            Ok(receipt) => (LaneState::Closed(receipt), OK),
            Err(CloseFault::Full(recorder)) if !is_abandoned => {
                (LaneState::Recording(recorder), FULL)
            }
            Err(_) => (LaneState::Lost, UNCONFIRMED),
        }
    }
}
