//! Opening a session.
ghost use Rattle.std.specs.Prelude.{◌≡◌, ◌<◌, [], map, IfOk};
ghost use Rattle.gl_event.specs.Bounds.{AreWithinRange};
ghost use Rattle.gl_engine.specs.Collecting.{fresh_input, IsOpened};
ghost use Rattle.gl_engine.specs.Keeping.{pulling_of};
ghost use Rattle.gl_engine.specs.bodies.Opening.{AreFresh};
ghost use Rattle.gl_engine.specs.Recording.{IsFresh};

use crate::collector::Collector;
use crate::lane_input::LaneInput;
use crate::recorder::Recorder;
use gl_event::{Limits, Memory, ThreadId};
use gl_intake::Intake;
use gl_lane::own_lane;
use std::alloc::Global;

// A thread's recorder, and the collector's input of the thread, with the two ends of a new lane.
fn open_lane(
    alloc: Global,
    session: u64,
    thread: ThreadId,
    limits: &Limits,
) -> Result<(Recorder, LaneInput), Memory>
    requires known { thread < limits.now.threads }
    ensures fresh { IfOk result (λ ends. IsFresh session limits.now thread ends.0) }
    ensures input { IfOk result (λ ends. pulling_of ends.1 ≡ fresh_input ends.0.lane) }
{
    let (recorder, collector) = own_lane(alloc, thread, limits.ring())?;
    let input = LaneInput {
        lane: collector,
        broken: None,
    };
    Ok((Recorder::new(session, thread, limits, recorder), input))
}

// The recorders and the inputs of all threads, in the order of thread numbers.
fn open_lanes(
    alloc: Global,
    session: u64,
    limits: &Limits,
) -> Result<(Vec<Recorder>, Vec<LaneInput>), Memory>
    ensures fresh { IfOk result
        (λ ends. AreFresh session limits.now limits.now.threads ends.0.items ends.1.items) }
    ensures range { AreWithinRange limits.now }
{
    let mut recorders = Vec::new(alloc);
    let mut inputs = Vec::new(alloc);
    for thread in 0..limits.threads() {
        let (recorder, input) = open_lane(alloc, session, ThreadId::new(thread), limits)?;
        recorders.push(recorder)?;
        inputs.push(input)?;
    }
    Ok((recorders, inputs))
}

/// A session of this number: a recorder for each thread, in the order of thread numbers, and the
/// collector of what they record. All lists are empty, and each lane has the capacity of a ring.
///
/// It takes memory for the lanes, and for an input of each thread.
pub fn open(
    alloc: Global,
    session: u64,
    limits: &Limits,
) -> Result<(Vec<Recorder>, Collector), Memory>
    ensures { IfOk result (λ opened. IsOpened session limits.now opened.0.items opened.1) }
{
    let intake = Intake::new(alloc, limits)?;
    let (recorders, inputs) = open_lanes(alloc, session, limits)?;
    let collector = Collector {
        alloc,
        session,
        limits: *limits,
        intake,
        inputs,
    };
    Ok((recorders, collector))
}
