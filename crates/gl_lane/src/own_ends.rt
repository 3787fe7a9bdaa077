//! The two ends of a thread's own lane, and what the recorder's end leaves behind.
//!
//! Of a note only its body is in the ring: the thread follows from the lane, and the place from how many notes came before.
ghost use Rattle.std.specs.Prelude.{◌≡◌, ◌+◌, ◌<◌, ◌≤◌, ◌^◌, [], ◌∷◌, ◌++◌, length, IsOk, OnOk, IfOk, IfErr, IfSome, IfNone, IsTrue, MatchOption, ◌↔◌};
ghost use mathlib.Core.List.{IsPrefix};
ghost use Rattle.gl_event.specs.declared.limits.TheConstants.{MAX_RING};
ghost use Rattle.gl_lane.specs.OwnLanes.{ComesAfter};
ghost use Rattle.gl_lane.specs.bodies.OwnRuns.{MayCome};

use gl_event::{Body, Memory, Note, ThreadId};
use rtrb::{Consumer, Producer, Protocol, PushError, RingBuffer};
use std::alloc::Global;
use std::marker::Model;

// How many notes are taken off the ring together, at most: each time costs a write on which all processors agree.
const RUN: usize = 8;

// The rule of a ring of bodies: an end mark counts those before it, of which there are so many that their number is one
// of 32 bits.
struct Counted;

impl Protocol<Body> for Counted {
    ghost allows = { λ before body. MayCome before body };
}

/// The recorder's end of a thread's own lane.
///
/// Contracts see which lane it is, the notes that were pushed, and for how many more there is
/// certainly room.
#[derive(Drop)]
pub struct OwnLaneIn {
    producer: Producer<Body, Global, Counted>,
    thread: ThreadId,
    // for how many more notes there is certainly room: the ring would have to reckon it, for each note
    room: usize,
}

impl Model for OwnLaneIn {
    ghost use Rattle.std.specs.Prelude.{◌≡◌};
    ghost use Rattle.rtrb.specs.Ring.{sent, known_free};
    ghost use Rattle.gl_lane.specs.OwnLanes.{OwnPushing, own_lane_of};
    ghost use Rattle.gl_lane.specs.bodies.OwnRuns.{notes_after};

    ghost Value = { OwnPushing };

    ghost view = { λ l. record {
      lane = own_lane_of l.thread l.producer.end;
      pushed = notes_after l.thread 0 (sent l.producer);
      room = l.room;
    } };

    ghost invariant = { λ l. l.room ≡ known_free l.producer };
}

/// The collector's end of a thread's own lane.
///
/// Contracts see which lane it is, the notes that were popped, and those that it has seen in the
/// lane and not popped yet.
#[derive(Drop)]
pub struct OwnLaneOut {
    consumer: Consumer<Body, Global, Counted>,
    thread: ThreadId,
    // how many notes were popped, which is the next one's place
    place: usize,
    // the bodies that were taken off the ring last
    run: [Body; RUN],
    // how many of them were popped, and how many there are
    popped: usize,
    taken: usize,
}

impl Model for OwnLaneOut {
    ghost use Rattle.std.specs.Prelude.{◌++◌};
    ghost use Rattle.rtrb.specs.Ring.{received, known_items};
    ghost use Rattle.gl_lane.specs.OwnLanes.{OwnPopping, own_lane_of};
    ghost use Rattle.gl_lane.specs.bodies.OwnRuns.{notes_after, rest, without, AreTaken};

    ghost Value = { OwnPopping };

    ghost view = { λ l. record {
      lane = own_lane_of l.thread l.consumer.end;
      popped = notes_after l.thread 0 (without (rest l.popped l.taken l.run) (received l.consumer));
      left = notes_after l.thread l.place (rest l.popped l.taken l.run ++ known_items l.consumer);
    } };

    ghost invariant = { λ l. AreTaken l.place l.popped l.taken l.run (received l.consumer) };
}

/// What a recorder leaves behind that has finished. It may move to the collector's thread.
///
/// Contracts see which lane it is of, and all notes that were pushed into it.
#[derive(Drop)]
pub struct OwnFinished {
    finished: rtrb::Finished<Body, Global, Counted>,
    thread: ThreadId,
}

impl Model for OwnFinished {
    ghost use Rattle.rtrb.specs.Ring.{all_sent};
    ghost use Rattle.gl_lane.specs.OwnLanes.{AllOwnPushed, own_lane_of};
    ghost use Rattle.gl_lane.specs.bodies.OwnRuns.{notes_after};

    ghost Value = { AllOwnPushed };

    ghost view = { λ f. record {
      lane = own_lane_of f.thread f.finished.end;
      pushed = notes_after f.thread 0 (all_sent f.finished);
    } };
}

/// The two ends of a new lane of the thread's own, with room for so many notes, from 1 to 65,536, or that there is
/// no memory for it: 16 bytes for each. The memory is given back once both ends are dropped.
pub fn own_lane(
    alloc: Global,
    thread: ThreadId,
    capacity: u32,
) -> Result<(OwnLaneIn, OwnLaneOut), Memory>
    requires some { 1 ≤ capacity }
    requires fit { capacity ≤ MAX_RING }
    ensures own { IfOk result (λ ends. ends.0.lane.thread ≡ thread) }
    ensures one_lane { IfOk result (λ ends. ends.1.lane ≡ ends.0.lane) }
    ensures empty { IfOk result
        (λ ends. (ends.0.pushed ≡ []) × (ends.1.popped ≡ []) × (ends.1.left ≡ [])) }
    ensures room { IfOk result (λ ends. ends.0.room ≡ capacity) }
{
    let (producer, consumer) = RingBuffer::with_protocol::<Global, Counted>(
        alloc,
        capacity as usize,
    )?;
    Ok((
        OwnLaneIn {
            producer,
            thread,
            room: capacity as usize,
        },
        OwnLaneOut::new(thread, consumer),
    ))
}

// The thread's note with this body that comes after so many.
#[inline(always)]
fn note_of(thread: ThreadId, place: usize, body: Body) -> Note
    requires fits { place < 2 ^ 32 }
    ensures { result ≡ record { thread = thread; place = place; body = body } }
{
    Note {
        thread,
        place: place as u32,
        body,
    }
}

impl OwnLaneIn {
    /// Pushes the thread's next note, or hands it back where the lane is full. It takes one step and no memory.
    pub fn push(&mut self, note: Note) -> Result<(), Note>
        requires next { ComesAfter self.old.lane self.old.pushed note }
        ensures lane { self.new.lane ≡ self.old.lane }
        ensures pushed { OnOk result
            ((self.new.pushed ≡ self.old.pushed ++ note ∷ [])
            × (self.old.room ≤ self.new.room + 1)) }
        ensures full { IfErr result
            (λ back. (back ≡ note) × (self.new.pushed ≡ self.old.pushed)
            × (self.new.room ≡ 0)) }
        ensures succeeds { 0 < self.old.room → IsOk result }
    {
        match self.producer.push(note.body) {
            Ok(()) => {
                self.room = self.producer.cached_slots();
                Ok(())
            }
            Err(PushError::Full(body)) => Err(Note { body, ..note }),
        }
    }

    /// Pushes the thread's next note, where there is certainly room for it, as after `has_room` said so. It takes
    /// one step and no memory.
    #[inline(always)]
    pub fn push_known(&mut self, note: Note)
        requires known { 0 < self.old.room }
        requires next { ComesAfter self.old.lane self.old.pushed note }
        ensures lane { self.new.lane ≡ self.old.lane }
        ensures pushed { self.new.pushed ≡ self.old.pushed ++ note ∷ [] }
        ensures room { self.old.room ≡ self.new.room + 1 }
    {
        self.room -= 1;
        match note.body {
            Body::Happened(event) => self.producer.push_reserved(Body::Happened(event)),
            Body::Ended { count } => self.producer.push_reserved(Body::Ended { count }),
        }
    }

    /// Whether there is certainly room for a note: a push is then certain. Where there isn't, the
    /// collector may have made some since, and `push` looks. It takes one step.
    #[inline(always)]
    pub fn has_room(&self) -> bool
        ensures { IsTrue result ↔ (0 < self.now.room) }
    {
        self.room > 0
    }

    /// Whether the collector's end was dropped, so that a lane that is full stays so. It takes one step, and
    /// no clause says when.
    pub fn is_abandoned(&mut self) -> bool
        ensures lane { self.new.lane ≡ self.old.lane }
        ensures pushed { self.new.pushed ≡ self.old.pushed }
        ensures room { self.old.room ≤ self.new.room }
    {
        let is_abandoned = self.producer.is_abandoned();
        self.room = self.producer.cached_slots();
        is_abandoned
    }

    /// Ends the pushing, and answers what stands for all notes that were pushed; `None` where the
    /// collector's end was dropped before. It takes no memory.
    pub fn finish(self) -> Option<OwnFinished>
        ensures lane { IfSome result (λ finished. finished.lane ≡ self.lane) }
        ensures pushed { IfSome result (λ finished. finished.pushed ≡ self.pushed) }
    {
        let OwnLaneIn {
            producer,
            thread,
            room: _,
        } = self;
        let finished = producer.finish()?;
        Some(OwnFinished { finished, thread })
    }
}

impl OwnLaneOut {
    ghost use Rattle.std.specs.Prelude.{◌≡◌, ◌<◌, ◌++◌, ◌∷◌, [], length, IfSome, IfNone, MatchOption};
    ghost use mathlib.Core.List.{IsPrefix};
    ghost use Rattle.rtrb.specs.Ring.{received, known_items};
    ghost use Rattle.gl_lane.specs.OwnLanes.{ComesAfter};
    ghost use Rattle.gl_lane.specs.OwnLanes.{own_lane_of};
    ghost use Rattle.gl_lane.specs.bodies.OwnRuns.{notes_after};

    // That of a ring of which nothing was popped.
    fn new(thread: ThreadId, consumer: Consumer<Body, Global, Counted>) -> OwnLaneOut
        requires none { received consumer ≡ [] }
        ensures lane { result.lane ≡ own_lane_of thread consumer.end }
        ensures popped { result.popped ≡ [] }
        ensures left { result.left ≡ notes_after thread 0 (known_items consumer) }
    {
        OwnLaneOut {
            consumer,
            thread,
            place: 0,
            run: [Body::Ended { count: 0 }; RUN],
            popped: 0,
            taken: 0,
        }
    }

    /// The oldest note in the lane, which stays there; `None` where it sees none. It takes one step
    /// and no memory.
    pub fn peek(&mut self) -> Option<Note>
        ensures lane { self.new.lane ≡ self.old.lane }
        ensures popped { self.new.popped ≡ self.old.popped }
        ensures left { IsPrefix self.old.left self.new.left }
        ensures shown { MatchOption result (self.new.left ≡ [])
            (λ note. IsPrefix (note ∷ []) self.new.left) }
    {
        if self.popped != self.taken {
            return Some(note_of(self.thread, self.place, self.run[self.popped]));
        }
        self.popped = 0;
        self.taken = self.consumer.pop_partial_slice(&mut self.run);
        if self.taken == 0 {
            return None;
        }
        Some(note_of(self.thread, self.place, self.run[0]))
    }

    /// Pops the oldest note in the lane; `None` where it sees none. It takes one step and no memory.
    pub fn pop(&mut self) -> Option<Note>
        ensures lane { self.new.lane ≡ self.old.lane }
        ensures popped { IfSome result
            (λ note. self.new.popped ≡ self.old.popped ++ note ∷ []) }
        ensures left { IfSome result (λ note. IsPrefix self.old.left (note ∷ self.new.left)) }
        ensures next { IfSome result (λ note. ComesAfter self.old.lane self.old.popped note) }
        ensures empty { IfNone result
            ((self.new.popped ≡ self.old.popped) × (self.old.left ≡ [])
            × (self.new.left ≡ [])) }
    {
        let Some(_) = self.peek() else {
            return None;
        };
        Some(self.pop_known())
    }

    /// Pops the oldest note, where one is known to be in the lane, as after a `peek` that showed it.
    /// It takes one step and no memory.
    pub fn pop_known(&mut self) -> Note
        requires known { 0 < length self.old.left }
        ensures lane { self.new.lane ≡ self.old.lane }
        ensures popped { self.new.popped ≡ self.old.popped ++ result ∷ [] }
        ensures left { self.old.left ≡ result ∷ self.new.left }
        ensures next { ComesAfter self.old.lane self.old.popped result }
    {
        if self.popped == self.taken {
            let note = note_of(self.thread, self.place, self.consumer.pop_known());
            self.place += 1;
            return note;
        }
        let note = note_of(self.thread, self.place, self.run[self.popped]);
        self.popped += 1;
        self.place += 1;
        note
    }

    /// Looks at all that is left in the lane once its recorder has finished: what was pushed is what
    /// was popped, followed by what is left. It takes one step and no memory.
    pub fn confirm(&mut self, finished: &mut OwnFinished)
        requires one_lane { finished.old.lane ≡ self.old.lane }
        ensures lane { self.new.lane ≡ self.old.lane }
        ensures popped { self.new.popped ≡ self.old.popped }
        ensures left { IsPrefix self.old.left self.new.left }
        ensures whole { self.new.popped ++ self.new.left ≡ finished.old.pushed }
        ensures finished { finished.new ≡ finished.old }
    {
        self.consumer.slots_after(&mut finished.finished);
    }
}
