//! How a run goes on in which something went wrong: what comes is thrown away.
ghost use Rattle.std.specs.Prelude.{◌≡◌, ◌<◌, map, length};
ghost use mathlib.Core.List.{IsPrefix};
ghost use Rattle.gl_engine.specs.bodies.Breaking.{handed, HandOver};
ghost use Rattle.gl_engine.specs.bodies.Whole.{lane_of};

use crate::lane_input::LaneInput;
use gl_event::{Body, ThreadId};
use gl_intake::Intake;
use gl_lane::OwnLaneOut;
use std::sync::Wait;
use std::thread;

// What came off a lane.
#[derive(Clone, Copy)]
enum Discarded {
    Nothing,
    Event,
    Ended,
}

// How many end marks are still to come, and whether a note came.
#[derive(Clone, Copy)]
struct Round {
    left: u32,
    moved: bool,
}

// Pops a note off the lane, if there is one.
fn discard_one(lane: &mut OwnLaneOut) -> Discarded
    ensures lane { lane.new.lane ≡ lane.old.lane }
    ensures handed { IsPrefix (handed lane.old) (handed lane.new) }
{
    let Some(note) = lane.pop() else {
        return Discarded::Nothing;
    };
    match note.body {
        Body::Happened(_) => Discarded::Event,
        Body::Ended { .. } => Discarded::Ended,
    }
}

// Pops a note off a thread's lane, if there is one.
fn discard_at(inputs: &mut Vec<LaneInput>, index: usize, round: Round) -> Round
    requires { index < length inputs.old.items }
    ensures lanes { map lane_of inputs.new.items ≡ map lane_of inputs.old.items }
    ensures handed { HandOver inputs.old.items inputs.new.items }
{
    match discard_one(&mut inputs[index].lane) {
        Discarded::Nothing => round,
        Discarded::Event => Round {
            left: round.left,
            moved: true,
        },
        Discarded::Ended => Round {
            left: round.left.saturating_sub(1),
            moved: true,
        },
    }
}

// Pops a note off each lane that has one.
fn discard_round(inputs: &mut Vec<LaneInput>, left: u32) -> Round
    ensures lanes { map lane_of inputs.new.items ≡ map lane_of inputs.old.items }
    ensures handed { HandOver inputs.old.items inputs.new.items }
{
    let mut round = Round { left, moved: false };
    for index in 0..inputs.len() {
        round = discard_at(inputs, index, round);
    }
    round
}

// How many of the threads have not ended.
fn running(intake: &Intake, threads: u32) -> u32 {
    let mut left = 0;
    for number in 0..threads {
        if !intake.ended(ThreadId::new(number)) {
            left += 1;
        }
    }
    left
}

/// Pops all notes off the lanes and throws them away, round by round, until every thread's end mark
/// came. It yields the processor after a round in which no note was seen.
pub(crate) fn discard_all<R: Wait>(
    rt: &R,
    inputs: &mut Vec<LaneInput>,
    intake: &Intake,
    threads: u32,
)
    ensures lanes { map lane_of inputs.new.items ≡ map lane_of inputs.old.items }
    ensures handed { HandOver inputs.old.items inputs.new.items }
{
    let mut left = running(intake, threads);
    for _ in rt.forever() {
        if left == 0 {
            return;
        }
        let round = discard_round(inputs, left);
        left = round.left;
        if !round.moved {
            thread::yield_now();
        }
    }
    unreachable!()
}
