//! The two ends of a lane, and what the recorder's end leaves behind.
ghost use Rattle.std.specs.Prelude.{◌≡◌, ◌+◌, ◌<◌, ◌≤◌, [], ◌∷◌, ◌++◌, length, IsOk, OnOk, IfOk, IfErr, IfSome, IfNone, IsTrue, MatchOption, ◌↔◌};
ghost use mathlib.Core.List.{IsPrefix};
ghost use Rattle.gl_event.specs.declared.limits.TheConstants.{MAX_RING};
ghost use Rattle.gl_lane.specs.Rule.{IsPlaced};

use gl_event::{Body, Memory, Note, ThreadId};
use rtrb::{Consumer, Producer, Protocol, PushError, RingBuffer};
use std::alloc::Global;
use std::marker::Model;

// How many notes are taken off the ring together, at most: each time costs a write on which all processors agree.
const RUN: usize = 8;

// The rule of a lane: an end mark's place is its count.
struct Placed;

impl Protocol<Note> for Placed {
    ghost allows = { λ _ note. IsPlaced note };
}

/// The recorder's end of a lane.
///
/// Contracts see which lane it is, the notes that were pushed, and for how many more there is
/// certainly room.
#[derive(Drop)]
pub struct LaneIn {
    producer: Producer<Note, Global, Placed>,
}

impl Model for LaneIn {
    ghost use Rattle.rtrb.specs.Ring.{sent, known_free};
    ghost use Rattle.gl_lane.specs.Lanes.{Pushing, lane_of};

    ghost Value = { Pushing };

    ghost view = { λ l. record {
      lane = lane_of l.producer.end;
      pushed = sent l.producer;
      room = known_free l.producer;
    } };
}

/// The collector's end of a lane.
///
/// Contracts see which lane it is, the notes that were popped, and those that it has seen in the
/// lane and not popped yet.
#[derive(Drop)]
pub struct LaneOut {
    consumer: Consumer<Note, Global, Placed>,
    // the notes that were taken off the ring last
    run: [Note; RUN],
    // how many of them were popped, and how many there are
    popped: usize,
    taken: usize,
}

impl Model for LaneOut {
    ghost use Rattle.std.specs.Prelude.{◌++◌};
    ghost use Rattle.rtrb.specs.Ring.{received, known_items};
    ghost use Rattle.gl_lane.specs.Lanes.{Popping, lane_of};
    ghost use Rattle.gl_lane.specs.bodies.Runs.{rest, without, AreTaken};

    ghost Value = { Popping };

    ghost view = { λ l. record {
      lane = lane_of l.consumer.end;
      popped = without (rest l.popped l.taken l.run) (received l.consumer);
      left = rest l.popped l.taken l.run ++ known_items l.consumer;
    } };

    ghost invariant = { λ l. AreTaken l.popped l.taken l.run (received l.consumer) };
}

/// What a recorder leaves behind that has finished. It may move to the collector's thread.
///
/// Contracts see which lane it is of, and all notes that were pushed into it.
#[derive(Drop)]
pub struct Finished {
    finished: rtrb::Finished<Note, Global, Placed>,
}

impl Model for Finished {
    ghost use Rattle.rtrb.specs.Ring.{all_sent};
    ghost use Rattle.gl_lane.specs.Lanes.{AllPushed, lane_of};

    ghost Value = { AllPushed };

    ghost view = { λ f. record { lane = lane_of f.finished.end; pushed = all_sent f.finished } };
}

/// The two ends of a new lane with room for so many notes, from 1 to 65,536, or that there is no
/// memory for it. The memory is given back once both ends are dropped.
pub fn lane(alloc: Global, capacity: u32) -> Result<(LaneIn, LaneOut), Memory>
    requires some { 1 ≤ capacity }
    requires fit { capacity ≤ MAX_RING }
    ensures one_lane { IfOk result (λ ends. ends.1.lane ≡ ends.0.lane) }
    ensures empty { IfOk result
        (λ ends. (ends.0.pushed ≡ []) × (ends.1.popped ≡ []) × (ends.1.left ≡ [])) }
    ensures room { IfOk result (λ ends. ends.0.room ≡ capacity) }
{
    let (producer, consumer) = RingBuffer::with_protocol::<Global, Placed>(
        alloc,
        capacity as usize,
    )?;
    Ok((LaneIn { producer }, LaneOut::new(consumer)))
}

// A note that nobody sees.
fn no_note() -> Note {
    Note {
        thread: ThreadId::new(0),
        place: 0,
        body: Body::Ended { count: 0 },
    }
}

impl LaneIn {
    /// Pushes a note, or hands it back where the lane is full. It takes one step and no memory.
    pub fn push(&mut self, note: Note) -> Result<(), Note>
        requires placed { IsPlaced note }
        ensures lane { self.new.lane ≡ self.old.lane }
        ensures pushed { OnOk result
            ((self.new.pushed ≡ self.old.pushed ++ note ∷ [])
            × (self.old.room ≤ self.new.room + 1)) }
        ensures full { IfErr result
            (λ back. (back ≡ note) × (self.new.pushed ≡ self.old.pushed)
            × (self.new.room ≡ 0)) }
        ensures succeeds { 0 < self.old.room → IsOk result }
    {
        match self.producer.push(note) {
            Ok(()) => Ok(()),
            Err(PushError::Full(back)) => Err(back),
        }
    }

    /// Pushes a note, where there is certainly room for it, as after `has_room` said so. It takes one step and
    /// no memory.
    #[inline(always)]
    pub fn push_known(&mut self, note: Note)
        requires known { 0 < self.old.room }
        requires placed { IsPlaced note }
        ensures lane { self.new.lane ≡ self.old.lane }
        ensures pushed { self.new.pushed ≡ self.old.pushed ++ note ∷ [] }
        ensures room { self.old.room ≡ self.new.room + 1 }
    {
        let Note {
            thread,
            place,
            body,
        } = note;
        self.producer.push_reserved(Note {
            thread,
            place,
            body,
        });
    }

    /// Whether there is certainly room for a note: a push is then certain. Where there isn't, the
    /// collector may have made some since, and `push` looks. It takes one step.
    #[inline(always)]
    pub fn has_room(&self) -> bool
        ensures { IsTrue result ↔ (0 < self.now.room) }
    {
        self.producer.cached_slots() > 0
    }

    /// Whether the collector's end was dropped, so that a lane that is full stays so. It takes one step, and
    /// no clause says when.
    pub fn is_abandoned(&mut self) -> bool
        ensures lane { self.new.lane ≡ self.old.lane }
        ensures pushed { self.new.pushed ≡ self.old.pushed }
        ensures room { self.old.room ≤ self.new.room }
    {
        self.producer.is_abandoned()
    }

    /// Ends the pushing, and answers what stands for all notes that were pushed; `None` where the
    /// collector's end was dropped before. It takes no memory.
    pub fn finish(self) -> Option<Finished>
        ensures lane { IfSome result (λ finished. finished.lane ≡ self.lane) }
        ensures pushed { IfSome result (λ finished. finished.pushed ≡ self.pushed) }
    {
        let finished = self.producer.finish()?;
        Some(Finished { finished })
    }
}

impl LaneOut {
    ghost use Rattle.std.specs.Prelude.{◌≡◌, ◌<◌, ◌++◌, ◌∷◌, [], length, IfSome, IfNone, MatchOption};
    ghost use mathlib.Core.List.{IsPrefix};
    ghost use Rattle.rtrb.specs.Ring.{received, known_items};
    ghost use Rattle.gl_lane.specs.Rule.{IsPlaced};
    ghost use Rattle.gl_lane.specs.Lanes.{lane_of};

    // That of a ring of which nothing was popped.
    fn new(consumer: Consumer<Note, Global, Placed>) -> LaneOut
        requires none { received consumer ≡ [] }
        ensures lane { result.lane ≡ lane_of consumer.end }
        ensures popped { result.popped ≡ [] }
        ensures left { result.left ≡ known_items consumer }
    {
        LaneOut {
            consumer,
            run: [no_note(); RUN],
            popped: 0,
            taken: 0,
        }
    }

    /// The oldest note in the lane, which stays there; `None` where it sees none. It takes one step
    /// and no memory.
    pub fn peek(&mut self) -> Option<Note>
        ensures lane { self.new.lane ≡ self.old.lane }
        ensures popped { self.new.popped ≡ self.old.popped }
        ensures left { IsPrefix self.old.left self.new.left }
        ensures shown { MatchOption result (self.new.left ≡ [])
            (λ note. IsPrefix (note ∷ []) self.new.left) }
    {
        if self.popped != self.taken {
            return Some(self.run[self.popped]);
        }
        self.popped = 0;
        self.taken = self.consumer.pop_partial_slice(&mut self.run);
        if self.taken == 0 {
            return None;
        }
        Some(self.run[0])
    }

    /// Pops the oldest note in the lane; `None` where it sees none. It takes one step and no memory.
    pub fn pop(&mut self) -> Option<Note>
        ensures lane { self.new.lane ≡ self.old.lane }
        ensures popped { IfSome result
            (λ note. self.new.popped ≡ self.old.popped ++ note ∷ []) }
        ensures left { IfSome result (λ note. IsPrefix self.old.left (note ∷ self.new.left)) }
        ensures placed { IfSome result (λ note. IsPlaced note) }
        ensures empty { IfNone result
            ((self.new.popped ≡ self.old.popped) × (self.old.left ≡ [])
            × (self.new.left ≡ [])) }
    {
        let Some(_) = self.peek() else {
            return None;
        };
        Some(self.pop_known())
    }

    /// Pops the oldest note, where one is known to be in the lane, as after a `peek` that showed it.
    /// It takes one step and no memory.
    pub fn pop_known(&mut self) -> Note
        requires known { 0 < length self.old.left }
        ensures lane { self.new.lane ≡ self.old.lane }
        ensures popped { self.new.popped ≡ self.old.popped ++ result ∷ [] }
        ensures left { self.old.left ≡ result ∷ self.new.left }
        ensures placed { IsPlaced result }
    {
        if self.popped == self.taken {
            return self.consumer.pop_known();
        }
        let note = self.run[self.popped];
        self.popped += 1;
        note
    }

    /// Looks at all that is left in the lane once its recorder has finished: what was pushed is what
    /// was popped, followed by what is left. It takes one step and no memory.
    pub fn confirm(&mut self, finished: &mut Finished)
        requires one_lane { finished.old.lane ≡ self.old.lane }
        ensures lane { self.new.lane ≡ self.old.lane }
        ensures popped { self.new.popped ≡ self.old.popped }
        ensures left { IsPrefix self.old.left self.new.left }
        ensures whole { self.new.popped ++ self.new.left ≡ finished.old.pushed }
        ensures finished { finished.new ≡ finished.old }
    {
        self.consumer.slots_after(&mut finished.finished);
    }
}
