//! What a collector keeps of one thread, and what a pull does with it.
ghost use Rattle.std.specs.Prelude.{◌≡◌, ◌<◌, None, ℕ, List, [], ◌∷◌, ◌++◌, length, IsTrue, IfOk, IfErr, IfSome, OnOk, OnErr};
ghost use mathlib.Core.List.{IsPrefix};
ghost use Rattle.gl_event.specs.Bounds.{Bounds};
ghost use Rattle.gl_event.specs.States.{StandsAfter};
ghost use Rattle.gl_event.specs.declared.events.Event.{Event};
ghost use Rattle.gl_event.specs.declared.notes.Note.{Note};
ghost use Rattle.gl_edges.specs.declared.edge.Edge.{Edge};
ghost use Rattle.gl_edges.specs.declared.edge.Sample.{Sample};
ghost use Rattle.gl_intake.specs.Stream.{HasOffered, IsRefusedFor};
ghost use Rattle.gl_world.specs.Keeping.{with_body};
ghost use Rattle.gl_world.specs.Machine.{edges_due};
ghost use Rattle.gl_engine.specs.Collecting.{as_of, pulled_of, IsSidePull};
ghost use Rattle.gl_engine.specs.Dealing.{edges_of_next, made_by};
ghost use Rattle.gl_engine.specs.Keeping.{side_at, BreaksForCause};
ghost use Rattle.gl_engine.specs.bodies.Fronts.{IsFront};
ghost use Rattle.gl_engine.specs.bodies.Sparing.{AddsEdges, HasAdded, NotesMade};

use crate::making::Making;
use crate::pulled::{PullFault, Pulled};
use gl_event::{Body, Event, Memory, Note, ThreadId, ThreadState};
use gl_intake::{Accepted, Intake, Refused};
use gl_lane::OwnLaneOut;
use std::alloc::Global;

/// The collector's end of a thread's lane, and why the lane's front note was refused, if it was.
pub struct LaneInput {
    pub lane: OwnLaneOut,
    pub broken: Option<Refused>,
}

// Written out, so that it is proved once: a derived drop is proved again wherever one is let go.
impl Drop for LaneInput {
    fn drop(self) {
        let LaneInput { lane, broken } = self;
    }
}

// What the pull of an accepted note is answered.
fn pulled(accepted: &Accepted) -> Pulled
    ensures { result ≡ pulled_of accepted.now }
{
    match *accepted {
        Accepted::Event { place } => Pulled::Event { place },
        Accepted::Ended { count } => Pulled::Ended { count },
    }
}

// Adds to those made the edges of the body, whose note is the next one of the thread of which this is known,
// ascending, but for repeats, where these are spared. Where there is no memory none is added.
fn add_due(
    alloc: Global,
    thread: ThreadId,
    state: &ThreadState,
    body: &Body,
    making: &mut Making,
) -> Result<(), Memory>
    ensures added { (es : List Event) → StandsAfter es state.now
        → OnOk result (HasAdded thread
        (edges_due thread (with_body es body.now) (length es) body.now) making.old making.new) }
    ensures none { OnErr result (HasAdded thread [] making.old making.new) }
{
    match *body {
        Body::Happened(event) => making.add(alloc, thread, state, &event),
        Body::Ended { .. } => Ok(()),
    }
}

// Whether what the body tells makes no edge, whatever its thread holds: it wants no lock.
fn makes_none(body: &Body) -> bool
    ensures { IsTrue result → (thread : ℕ) (es : List Event)
        → edges_due thread (with_body es body.now) (length es) body.now ≡ [] }
{
    match *body {
        Body::Happened(event) => event.wanted().is_none(),
        Body::Ended { .. } => true,
    }
}

// Why the note isn't accepted, where there is no memory for its edges: for that, if it may come next.
fn refusal_without_memory(intake: &mut Intake, note: &Note) -> Refused
    ensures refused { IsRefusedFor intake.old.limits intake.old.stream note.now result }
    ensures limits { intake.new.limits ≡ intake.old.limits }
    ensures stream { intake.new.stream ≡ intake.old.stream }
{
    match intake.ready(note) {
        Ok(()) => Refused::Memory,
        Err(refused) => refused,
    }
}

/// Accepts the note, where it may come next, and adds its edges to those made, which otherwise stay as they
/// were; but for repeats, where these are spared.
///
/// The edges are found before the note is offered, so that the intake looks through the locks that the thread
/// holds once. A note that makes none is offered at once.
#[inline(always)]
pub fn accept_with_edges(
    alloc: Global,
    intake: &mut Intake,
    making: &mut Making,
    note: &Note,
) -> Result<Accepted, Refused>
    requires known { note.now.thread < intake.old.limits.threads }
    requires notes { NotesMade intake.old.stream making.old }
    ensures offered { HasOffered intake.old.limits intake.old.stream intake.new.stream note.now
        result }
    ensures added { AddsEdges intake.old.stream making.old intake.new.stream making.new }
    ensures limits { intake.new.limits ≡ intake.old.limits }
{
    if makes_none(&note.body) {
        return intake.offer(*note);
    }
    let before = making.made.len();
    let state = intake.state(note.thread);
    let Ok(()) = add_due(alloc, note.thread, state, &note.body, making) else {
        return Err(refusal_without_memory(intake, note));
    };
    match intake.offer(*note) {
        Ok(accepted) => Ok(accepted),
        Err(refused) => {
            making.take_back(note.thread, before);
            Err(refused)
        }
    }
}

// Pops the front note, which was seen.
fn pop_seen(lane: &mut OwnLaneOut)
    requires seen { 0 < length lane.old.left }
    ensures lane { lane.new.lane ≡ lane.old.lane }
    ensures popped { (front : Note) → IsPrefix (front ∷ []) lane.old.left
        → lane.new.popped ≡ lane.old.popped ++ front ∷ [] }
{
    lane.pop_known();
}

impl LaneInput {
    /// Pulls the front note off the lane, read as one of the thread, and accepts it. Its edges are made
    /// where they are asked for.
    pub fn pull(&mut self, thread: ThreadId, intake: &mut Intake) -> Result<Pulled, PullFault>
        ensures pull { IsSidePull intake.old.limits thread
            (side_at self.old intake.old.stream (made_by intake.old.stream)) result
            (side_at self.new intake.new.stream (made_by intake.new.stream)) }
        ensures limits { intake.new.limits ≡ intake.old.limits }
        ensures cause { BreaksForCause intake.old.limits thread intake.old.stream self.old
            → BreaksForCause intake.old.limits thread intake.new.stream self.new }
    {
        if let Some(refused) = self.broken {
            return Err(PullFault::Broken(refused));
        }
        let Some(front) = self.lane.peek() else {
            return Ok(Pulled::Empty);
        };
        let note = Note { thread, ..front };
        let offered = intake.offer(note);
        self.take_front(&note, offered)
    }

    /// The same, and adds the note's edges to those made, but for repeats, where these are spared.
    pub fn pull_with_edges(
        &mut self,
        alloc: Global,
        thread: ThreadId,
        intake: &mut Intake,
        making: &mut Making,
    ) -> Result<Pulled, PullFault>
        requires known { thread < intake.old.limits.threads }
        requires notes { NotesMade intake.old.stream making.old }
        ensures pull { IsSidePull intake.old.limits thread
            (side_at self.old intake.old.stream (made_by intake.old.stream)) result
            (side_at self.new intake.new.stream (made_by intake.new.stream)) }
        ensures added { AddsEdges intake.old.stream making.old intake.new.stream making.new }
        ensures limits { intake.new.limits ≡ intake.old.limits }
        ensures cause { BreaksForCause intake.old.limits thread intake.old.stream self.old
            → BreaksForCause intake.old.limits thread intake.new.stream self.new }
    {
        if let Some(refused) = self.broken {
            return Err(PullFault::Broken(refused));
        }
        let Some(front) = self.lane.peek() else {
            return Ok(Pulled::Empty);
        };
        let note = Note { thread, ..front };
        let offered = accept_with_edges(alloc, intake, making, &note);
        self.take_front(&note, offered)
    }

    // The end of a pull, whose front note is this one, read as one of the thread, and was offered to the intake.
    // Where it was accepted it is popped, where it was refused the lane is broken, and where there was no memory
    // it stays.
    #[inline(always)]
    fn take_front(
        &mut self,
        note: &Note,
        offered: Result<Accepted, Refused>,
    ) -> Result<Pulled, PullFault>
        requires running { self.old.broken ≡ None }
        requires front { IsFront self.old.lane note.now }
        ensures pull { (limits : Bounds) (before after : List Note)
            → HasOffered limits before after note.now offered
            → (made later : List (Edge × Sample))
            → OnOk offered (later ≡ made ++ edges_of_next before note.now)
            → OnErr offered (later ≡ made)
            → IsSidePull limits note.now.thread (side_at self.old before made) result
            (side_at self.new after later) }
        ensures cause { (limits : Bounds) (before after : List Note)
            → HasOffered limits before after note.now offered
            → BreaksForCause limits note.now.thread after self.new }
    {
        match offered {
            Ok(accepted) => {
                pop_seen(&mut self.lane);
                Ok(pulled(&accepted))
            }
            Err(Refused::Memory) => Err(PullFault::Memory),
            Err(refused) => {
                self.broken = Some(refused);
                Err(PullFault::Broken(refused))
            }
        }
    }
}
