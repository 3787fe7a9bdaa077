//! What a world keeps of one thread.
ghost use Rattle.std.specs.Prelude.{◌≡◌, ◌<◌, ◌≤◌, ℕ, List, [], ◌∷◌, ◌++◌, length, Some, None, true, false, IsTrue, ◌↔◌, OnOk, OnErr, IfOk, is_ok, slice_get, if◌then◌else◌};
ghost use Rattle.gl_event.specs.Bounds.{AreWithinRange};
ghost use Rattle.gl_event.specs.Lawful.{refusal};
ghost use Rattle.gl_recorder.specs.Taking.{event_note, end_note};
ghost use Rattle.gl_world.specs.Machine.{Lane, fresh_lane, taken_of, has_closed, has_room, use_wish, push_note, pop_note, take_turn, take_judged, end_turn, edges_due};
ghost use Rattle.gl_world.specs.Enabled.{grows};
ghost use Rattle.gl_event.specs.declared.events.Event.{Event};
ghost use Rattle.gl_edges.specs.Tracking.{Follows};
ghost use Rattle.gl_world.specs.Keeping.{IsFrontOf, MayTake, with_body};

use crate::steps::Did;
use gl_edges::{Edge, Sample, Tracker};
use gl_event::{Body, Event, Limits, Memory, Note, ThreadId, append, append_both};
use gl_recorder::Taker;
use std::alloc::{AllocError, Global};
use std::marker::Model;

/// A thread's wishes, its recorder, its lane, and what the collector knows of it: which locks it
/// holds after the events that were pulled.
///
/// Contracts see the thread, the limits and the lane.
#[derive(Drop, Debug)]
pub struct ThreadPart {
    thread: ThreadId,
    limits: Limits,
    wishes: Vec<Event>,
    used: usize,
    taker: Taker,
    taken: Vec<Event>,
    has_closed: bool,
    pushed: Vec<Note>,
    popped: usize,
    tracker: Tracker,
}

impl Model for ThreadPart {
    ghost use Rattle.gl_world.specs.Keeping.{Keeper, IsKept};

    ghost Value = { Keeper };

    ghost view = { λ r. record {
      thread = r.thread;
      limits = r.limits;
      lane = record {
        wishes = r.wishes.items;
        used = r.used;
        pushed = r.pushed.items;
        popped = r.popped;
      };
    } };

    ghost invariant = { λ r. IsKept r.limits r.thread r.pushed.items r.popped r.taken.items
        r.has_closed r.taker r.tracker };
}

// Takes the event of the body, if it has one.
fn follow(tracker: &mut Tracker, body: &Body)
    requires { MayTake tracker.old body.now }
    ensures { (thread : ℕ) (es : List Event) → Follows thread es tracker.old
        → Follows thread (with_body es body.now) tracker.new }
{
    match *body {
        Body::Happened(event) => tracker.advance(event),
        Body::Ended { .. } => {}
    }
}

impl ThreadPart {
    /// The part of a thread with these wishes, before its first step.
    pub fn new(alloc: Global, thread: ThreadId, limits: &Limits, wishes: Vec<Event>) -> ThreadPart
        requires known { thread < limits.now.threads }
        requires range { AreWithinRange limits.now }
        ensures { result ≡ record
            { thread = thread; limits = limits.now; lane = fresh_lane wishes.items } }
    {
        ThreadPart {
            thread,
            limits: *limits,
            wishes,
            used: 0,
            taker: Taker::new(thread, limits),
            taken: Vec::new(alloc),
            has_closed: false,
            pushed: Vec::new(alloc),
            popped: 0,
            tracker: Tracker::new(thread),
        }
    }

    /// The events that the thread took.
    pub fn taken(&self) -> &[Event]
        ensures { result.now ≡ taken_of self.now.thread self.now.lane }
    {
        self.taken.as_slice()
    }

    /// The pushed note at this place, if there is one.
    pub fn note(&self, place: usize) -> Option<Note>
        ensures { result ≡ slice_get self.now.lane.pushed place }
    {
        match self.pushed.get(place) {
            Some(note) => Some(*note),
            None => None,
        }
    }

    /// The note that is popped next, if there is one.
    pub fn front(&self) -> Option<Note>
        ensures { result ≡ slice_get self.now.lane.pushed self.now.lane.popped }
    {
        self.note(self.popped)
    }

    /// How many notes were popped.
    pub fn popped(&self) -> usize
        ensures { result ≡ self.now.lane.popped }
    {
        self.popped
    }

    /// The edges that the next note makes, which is this one, ascending.
    pub fn due(&self, alloc: Global, note: &Note) -> Result<Vec<(Edge, Sample)>, Memory>
        requires { IsFrontOf self.now.limits self.now.thread self.now.lane note.now }
        ensures { IfOk result
            (λ edges. edges.items
            ≡ edges_due self.now.thread
            (taken_of self.now.thread self.now.lane) note.now.place note.now.body) }
    {
        match note.body {
            Body::Happened(event) => self.tracker.next_edges(alloc, &event),
            Body::Ended { .. } => Ok(Vec::new(alloc)),
        }
    }

    /// Pops the next note, which is this one.
    pub fn pop(&mut self, note: &Note)
        requires { IsFrontOf self.old.limits self.old.thread self.old.lane note.now }
        ensures { self.new ≡ record self.old { lane = pop_note self.old.lane } }
    {
        follow(&mut self.tracker, &note.body);
        self.popped += 1;
    }

    /// The thread takes its next wish, where that is enabled.
    pub fn take(&mut self) -> Result<Did, AllocError>
        ensures moved { OnOk result
            (self.new
            ≡ record self.old {
              lane =
                  (take_turn self.old.limits self.old.thread self.old.lane).lane;
            }) }
        ensures answer { IfOk result
            (λ did. did ≡ (take_turn self.old.limits self.old.thread self.old.lane).did) }
        ensures memory { OnErr result
            (IsTrue (grows (take_turn self.old.limits self.old.thread self.old.lane).did)) }
        ensures unchanged { OnErr result (self.new ≡ self.old) }
    {
        if self.has_closed {
            return Ok(Did::Nothing);
        }
        match self.next_wish() {
            Some(wish) => self.take_wish(&wish),
            None => Ok(Did::Nothing),
        }
    }

    /// The thread closes its lane by an end mark, where that is enabled.
    pub fn end(&mut self) -> Result<Did, AllocError>
        ensures moved { OnOk result
            (self.new
            ≡ record self.old {
              lane =
                  (end_turn self.old.limits self.old.thread self.old.lane).lane;
            }) }
        ensures answer { IfOk result
            (λ did. did ≡ (end_turn self.old.limits self.old.thread self.old.lane).did) }
        ensures memory { OnErr result
            (IsTrue (grows (end_turn self.old.limits self.old.thread self.old.lane).did)) }
        ensures unchanged { OnErr result (self.new ≡ self.old) }
    {
        if self.has_closed {
            return Ok(Did::Nothing);
        }
        if !self.has_room() {
            return Ok(Did::Nothing);
        }
        append(&mut self.pushed, self.taker.end())?;
        self.has_closed = true;
        Ok(Did::Ended)
    }

    // The next wish, if one is left.
    fn next_wish(&self) -> Option<Event>
        ensures { result ≡ slice_get self.now.lane.wishes self.now.lane.used }
    {
        match self.wishes.get(self.used) {
            Some(wish) => Some(*wish),
            None => None,
        }
    }

    // Whether the lane has room for one note more.
    fn has_room(&self) -> bool
        ensures { result ≡ has_room self.now.limits self.now.lane }
    {
        self.pushed.len() - self.popped < self.limits.ring() as usize
    }

    // Takes the next wish, which is this one, where the lane isn't closed.
    fn take_wish(&mut self, wish: &Event) -> Result<Did, AllocError>
        requires next { slice_get self.old.lane.wishes self.old.lane.used ≡ Some wish.now }
        requires running { has_closed self.old.thread self.old.lane ≡ false }
        ensures moved { OnOk result
            (self.new
            ≡ record self.old {
              lane =
                  (take_judged self.old.limits self.old.thread self.old.lane wish.now
                  (refusal self.old.limits self.old.thread
                  (taken_of self.old.thread self.old.lane) wish.now)).lane;
            }) }
        ensures answer { IfOk result
            (λ did. did
            ≡ (take_judged self.old.limits self.old.thread self.old.lane wish.now
            (refusal self.old.limits self.old.thread
            (taken_of self.old.thread self.old.lane) wish.now)).did) }
        ensures memory { OnErr result
            (IsTrue (grows
            (take_judged self.old.limits self.old.thread self.old.lane wish.now
            (refusal self.old.limits self.old.thread
            (taken_of self.old.thread self.old.lane) wish.now)).did)) }
        ensures unchanged { OnErr result (self.new ≡ self.old) }
    {
        match self.taker.check(*wish) {
            Err(refusal) => {
                self.used += 1;
                Ok(Did::Passed(refusal))
            }
            Ok(note) => {
                if !self.has_room() {
                    return Ok(Did::Nothing);
                }
                self.keep(wish, &note)?;
                Ok(Did::Taken(note.place))
            }
        }
    }

    // Takes the next wish, which is this one and lawful, and pushes its note.
    fn keep(&mut self, wish: &Event, note: &Note) -> Result<(), AllocError>
        requires next { slice_get self.old.lane.wishes self.old.lane.used ≡ Some wish.now }
        requires running { has_closed self.old.thread self.old.lane ≡ false }
        requires lawful { refusal self.old.limits self.old.thread
            (taken_of self.old.thread self.old.lane) wish.now ≡ None }
        requires its_note { note.now
            ≡ event_note self.old.thread (taken_of self.old.thread self.old.lane) wish.now }
        ensures moved { OnOk result
            (self.new ≡ record self.old { lane = push_note (use_wish self.old.lane) note.now }) }
        ensures unchanged { OnErr result (self.new ≡ self.old) }
    {
        append_both(&mut self.taken, &mut self.pushed, *wish, *note)?;
        self.taker.advance(*wish);
        self.used += 1;
        Ok(())
    }
}
