//! The stream of accepted notes, with a log for each thread.
ghost use Rattle.std.specs.Prelude.{◌≡◌, ◌≢◌, ◌↔◌, ℕ, ◌<◌, ◌≤◌, Some, None, Err, List, [], ◌∷◌, ◌++◌, IsTrue, IsOk, IfOk, IfErr, IfSome, IfNone, OnOk, OnErr, ◌==◌, if◌then◌else◌, vec_capacity, vec_len};
ghost use Rattle.gl_intake.specs.Keeping.{AreLogs, AreCursors};
ghost use Rattle.gl_intake.specs.declared.notes.Refused.TheVariants.{WrongCount, Memory};
ghost use Rattle.gl_event.specs.declared.notes.Body.TheVariants.{Happened, Ended};
ghost use Rattle.gl_event.specs.Bounds.{Bounds, greatest};
ghost use Rattle.gl_event.specs.declared.events.Event.{Event};
ghost use Rattle.gl_event.specs.Lawful.{AreLawful, IsLawful, lists_of};
ghost use Rattle.gl_event.specs.States.{StandsAfter};
ghost use Rattle.gl_recorder.specs.Taking.{Tracks};
ghost use Rattle.gl_intake.specs.Stream.{events_of, has_ended, logs_of, AreInOrder, IsRefusal, IsRefusedFor, body_refusal, refusal_after, note_refusal, accepted_as, spare_of, HasOffered};

use crate::notes::{Accepted, Refused};
use gl_event::{
    Body, Event, Limits, Memory, Note, ThreadId, ThreadState, append, append_both, keep_both,
    make_room,
};
use gl_recorder::Taker;
use std::alloc::Global;
use std::marker::Model;

// What is known of a thread: its events so far, and whether it has ended.
#[derive(Drop, Debug)]
struct ThreadCursor {
    taker: Taker,
    has_ended: bool,
}

/// The notes accepted of all threads, in the order of acceptance, and the events of each thread.
///
/// Contracts see the limits, the stream, and for each thread how many of its notes there is memory
/// for beforehand. What they say of an unchanged intake is said of the limits and the stream alone.
#[derive(Drop, Debug)]
pub struct Intake {
    limits: Limits,
    stream: Vec<Note>,
    logs: Vec<Vec<Event>>,
    cursors: Vec<ThreadCursor>,
}

impl Model for Intake {
    ghost use Rattle.gl_intake.specs.Stream.{Collected};
    ghost use Rattle.gl_intake.specs.Keeping.{IsKept, spares};

    ghost Value = { Collected };

    ghost view = { λ i. record {
      limits = i.limits;
      stream = i.stream.items;
      spare = spares i.stream i.logs.items;
    } };

    ghost invariant = { λ i. IsKept i.limits i.stream.items i.logs.items i.cursors.items };
}

// Why the note may not come after the events so far of the cursor's thread, whatever it tells.
fn order_refusal(past: &ThreadCursor, note: &Note) -> Option<Refused>
    ensures refused { IfSome result
        (λ why. (limits : Bounds) (es : List Event)
        → Tracks limits note.now.thread es past.now.taker
        → refusal_after limits es past.now.has_ended note.now ≡ Some why) }
    ensures left { IfNone result
        ((limits : Bounds) (es : List Event) → Tracks limits note.now.thread es past.now.taker
        → refusal_after limits es past.now.has_ended note.now
        ≡ body_refusal limits note.now.thread es note.now.body) }
{
    if past.has_ended {
        return Some(Refused::Late);
    }
    let expected = past.taker.taken();
    if note.place != expected {
        return Some(Refused::Misplaced {
            expected,
            got: note.place,
        });
    }
    None
}

// Why the note may not come after the events so far of the cursor's thread.
fn cursor_refusal(past: &ThreadCursor, note: &Note) -> Option<Refused>
    ensures { (limits : Bounds) (es : List Event)
        → Tracks limits note.now.thread es past.now.taker
        → result ≡ refusal_after limits es past.now.has_ended note.now }
{
    if let Some(refused) = order_refusal(past, note) {
        return Some(refused);
    }
    match note.body {
        Body::Happened(event) => match past.taker.check(event) {
            Ok(_) => None,
            Err(refusal) => Some(Refused::Unlawful(refusal)),
        },
        Body::Ended { count } => count_refusal(past.taker.taken(), count),
    }
}

// Takes the note's event, where it may come after the events so far of the cursor's thread. The held locks
// are looked through once.
fn take_next(past: &mut ThreadCursor, note: &Note, event: &Event) -> Result<(), Refused>
    requires told { note.now.body ≡ Happened event.now }
    ensures next { (limits : Bounds) (es : List Event)
        → Tracks limits note.now.thread es past.old.taker
        → OnOk result (refusal_after limits es past.old.has_ended note.now ≡ None) }
    ensures refused { (limits : Bounds) (es : List Event)
        → Tracks limits note.now.thread es past.old.taker
        → IfErr result
        (λ why. refusal_after limits es past.old.has_ended note.now ≡ Some why) }
    ensures tracks { (limits : Bounds) (thread : ℕ) (es : List Event)
        → Tracks limits thread es past.old.taker
        → OnOk result (Tracks limits thread (es ++ event.now ∷ []) past.new.taker) }
    ensures ended { past.new.has_ended ≡ past.old.has_ended }
    ensures unchanged { OnErr result (past.new ≡ past.old) }
{
    if let Some(refused) = order_refusal(past, note) {
        return Err(refused);
    }
    match past.taker.take(*event) {
        Ok(_) => Ok(()),
        Err(refusal) => Err(Refused::Unlawful(refusal)),
    }
}

// Why an end mark with this count is refused where another is expected.
fn count_refusal(expected: u32, got: u32) -> Option<Refused>
    ensures { result ≡ (if got == expected then None else Some (WrongCount expected got)) }
{
    if got == expected {
        return None;
    }
    Some(Refused::WrongCount { expected, got })
}

// An empty log for each thread.
fn empty_logs(alloc: Global, threads: u32) -> Result<Vec<Vec<Event>>, Memory>
    ensures { IfOk result (λ logs. AreLogs threads [] logs.items) }
{
    let mut logs = Vec::with_capacity(alloc, threads as usize)?;
    for thread in 0..threads {
        logs.push(Vec::new(alloc))?;
    }
    Ok(logs)
}

// A cursor for each thread, which has had no event.
fn fresh_cursors(alloc: Global, limits: &Limits) -> Result<Vec<ThreadCursor>, Memory>
    ensures { IfOk result (λ cursors. AreCursors limits.now [] cursors.items) }
{
    let threads = limits.threads();
    let mut cursors = Vec::with_capacity(alloc, threads as usize)?;
    for thread in 0..threads {
        cursors.push(ThreadCursor {
            taker: Taker::new(ThreadId::new(thread), limits),
            has_ended: false,
        })?;
    }
    Ok(cursors)
}

impl Intake {
    ghost use Rattle.gl_intake.specs.bodies.Accepting.{Accepts};

    /// An intake that has accepted nothing yet, under these limits. It has memory for a cursor and a
    /// log of each thread.
    pub fn new(alloc: Global, limits: &Limits) -> Result<Intake, Memory>
        ensures limits { IfOk result (λ intake. intake.limits ≡ limits.now) }
        ensures empty { IfOk result (λ intake. intake.stream ≡ []) }
    {
        let logs = empty_logs(alloc, limits.threads())?;
        let cursors = fresh_cursors(alloc, limits)?;
        Ok(Intake {
            limits: *limits,
            stream: Vec::new(alloc),
            logs,
            cursors,
        })
    }

    /// All accepted notes, in the order of acceptance. Each was its thread's next one after those
    /// before it.
    pub fn stream(&self) -> &[Note]
        ensures value { result.now ≡ self.now.stream }
        ensures in_order { AreInOrder self.now.limits self.now.stream }
    {
        self.stream.as_slice()
    }

    /// The events of each thread, in the order of thread numbers. They are at most 1,024 lists, and
    /// each is lawful under the intake's limits and under the greatest.
    pub fn logs(&self) -> &[Vec<Event>]
        ensures value { lists_of result.now
            ≡ logs_of self.now.limits.threads self.now.stream }
        ensures lawful { (thread : ℕ) → thread < self.now.limits.threads
            → IsLawful self.now.limits thread (events_of thread self.now.stream) }
        ensures lawful_lists { AreLawful greatest (lists_of result.now) }
    {
        self.logs.as_slice()
    }

    /// The events of a thread.
    pub fn log(&self, thread: ThreadId) -> &[Event]
        requires { thread < self.now.limits.threads }
        ensures { result.now ≡ events_of thread self.now.stream }
    {
        self.logs[thread.number() as usize].as_slice()
    }

    /// What is known of the thread after the events that were accepted of it.
    pub fn state(&self, thread: ThreadId) -> &ThreadState
        requires { thread < self.now.limits.threads }
        ensures { StandsAfter (events_of thread self.now.stream) result.now }
    {
        self.cursors[thread.number() as usize].taker.state()
    }

    /// Whether the thread has ended. One that isn't known hasn't.
    pub fn ended(&self, thread: ThreadId) -> bool
        ensures { result ≡ has_ended thread self.now.stream }
    {
        match self.cursors.get(thread.number() as usize) {
            Some(cursor) => cursor.has_ended,
            None => false,
        }
    }

    /// Whether each known thread has ended. One look at each thread.
    pub fn all_ended(&self) -> bool
        ensures { IsTrue result ↔
            ((thread : ℕ) → thread < self.now.limits.threads
            → IsTrue (has_ended thread self.now.stream)) }
    {
        for cursor in &self.cursors {
            if !cursor.has_ended {
                return false;
            }
        }
        true
    }

    /// Makes room for the note, where it is its thread's next one, and accepts nothing: an offer of
    /// the note then takes no memory. An end mark has room made for it as an event has. Otherwise
    /// the answer is the first reason why not, as that of `offer`. Where there is room already it takes
    /// no memory.
    ///
    /// It looks through the at most 64 locks that the thread holds. Where two lists have to grow, each
    /// is moved.
    pub fn ready(&mut self, note: &Note) -> Result<(), Refused>
        ensures next { OnOk result
            (note_refusal self.old.limits self.old.stream note.now ≡ None) }
        ensures reserved { OnOk result (1 ≤ spare_of self.new note.now.thread) }
        ensures refused { IfErr result
            (λ why. IsRefusedFor self.old.limits self.old.stream note.now why) }
        ensures room { 1 ≤ spare_of self.old note.now.thread → result ≢ Err Memory }
        ensures limits { self.new.limits ≡ self.old.limits }
        ensures stream { self.new.stream ≡ self.old.stream }
    {
        if let Some(refused) = self.refusal(note) {
            return Err(refused);
        }
        Ok(self.reserve(note.thread)?)
    }

    /// Accepts the note where it is its thread's next one. Otherwise nothing changes, and the answer
    /// is the first reason why not, in the order in which `Refused` lists them; `Memory` only where
    /// the stream or the thread's log had to grow for a note that is next, and could not. Where there
    /// is room for the note, as after `ready`, it takes no memory.
    ///
    /// It looks through the at most 64 locks that the thread holds, once where there is room for the note,
    /// and appends to two lists.
    #[inline(always)]
    pub fn offer(&mut self, note: Note) -> Result<Accepted, Refused>
        ensures offered { HasOffered self.old.limits self.old.stream self.new.stream note result }
        ensures room { 1 ≤ spare_of self.old note.thread → result ≢ Err Memory }
        ensures limits { self.new.limits ≡ self.old.limits }
    {
        let body = note.body;
        if let Body::Happened(event) = body {
            if self.has_room(note.thread) {
                return self.take_event(&note, &event);
            }
        }
        if let Some(refused) = self.refusal(&note) {
            return Err(refused);
        }
        Ok(self.try_accept(&note)?)
    }

    /// Accepts the note, which is its thread's next one and has room, as `ready` answered and made it.
    /// It isn't asked again whether it is, and no memory is taken.
    ///
    /// It looks through the at most 64 locks that the thread holds, and appends to two lists.
    pub fn accept(&mut self, note: &Note) -> Accepted
        requires next { note_refusal self.old.limits self.old.stream note.now ≡ None }
        requires reserved { 1 ≤ spare_of self.old note.now.thread }
        ensures answer { result ≡ accepted_as note.now.place note.now.body }
        ensures grown { self.new.stream ≡ self.old.stream ++ note.now ∷ [] }
        ensures limits { self.new.limits ≡ self.old.limits }
    {
        match self.try_accept(note) {
            Ok(accepted) => accepted,
            // there is room for it
            Err(Memory) => unreachable!(),
        }
    }

    // Whether the thread is known and there is memory for one more note of it.
    fn has_room(&self, thread: ThreadId) -> bool
        ensures { IsTrue result → 1 ≤ spare_of self.now thread }
    {
        match self.logs.get(thread.number() as usize) {
            Some(log) => {
                log.len() < log.capacity() && self.stream.len() < self.stream.capacity()
            }
            None => false,
        }
    }

    // What `offer` does with an event's note that there is room for.
    #[inline(always)]
    fn take_event(&mut self, note: &Note, event: &Event) -> Result<Accepted, Refused>
        requires told { note.now.body ≡ Happened event.now }
        requires reserved { 1 ≤ spare_of self.old note.now.thread }
        ensures accepted { OnOk result
            (note_refusal self.old.limits self.old.stream note.now ≡ None) }
        ensures answer { IfOk result
            (λ answer. answer ≡ accepted_as note.now.place note.now.body) }
        ensures grown { OnOk result (self.new.stream ≡ self.old.stream ++ note.now ∷ []) }
        ensures refused { IfErr result
            (λ why. IsRefusal self.old.limits self.old.stream note.now why) }
        ensures unchanged { OnErr result (self.new.stream ≡ self.old.stream) }
        ensures limits { self.new.limits ≡ self.old.limits }
    {
        let index = note.thread.number() as usize;
        take_next(&mut self.cursors[index], note, event)?;
        keep_both(&mut self.logs[index], &mut self.stream, *event, *note);
        Ok(Accepted::Event { place: note.place })
    }

    // Why the note may not come next.
    fn refusal(&self, note: &Note) -> Option<Refused>
        ensures { result ≡ note_refusal self.now.limits self.now.stream note.now }
    {
        let index = note.thread.number() as usize;
        if index >= self.cursors.len() {
            return Some(Refused::Stranger);
        }
        cursor_refusal(&self.cursors[index], note)
    }

    // Makes room for a note of the thread.
    fn reserve(&mut self, thread: ThreadId) -> Result<(), Memory>
        requires { thread < self.old.limits.threads }
        ensures reserved { OnOk result (1 ≤ spare_of self.new thread) }
        ensures room { 1 ≤ spare_of self.old thread → IsOk result }
        ensures limits { self.new.limits ≡ self.old.limits }
        ensures stream { self.new.stream ≡ self.old.stream }
    {
        let index = thread.number() as usize;
        make_room(&mut self.logs[index], &mut self.stream)
    }

    // Accepts the note, which may come next.
    fn try_accept(&mut self, note: &Note) -> Result<Accepted, Memory>
        requires next { note_refusal self.old.limits self.old.stream note.now ≡ None }
        ensures answer { IfOk result
            (λ answer. answer ≡ accepted_as note.now.place note.now.body) }
        ensures accepts { Accepts self.old self.new note.now result }
    {
        match note.body {
            Body::Happened(event) => {
                self.accept_event(note, &event)?;
                Ok(Accepted::Event { place: note.place })
            }
            Body::Ended { count } => {
                self.accept_end(note, count)?;
                Ok(Accepted::Ended { count })
            }
        }
    }

    // Adds an event's note to the stream, and the event to its thread's log.
    fn accept_event(&mut self, note: &Note, event: &Event) -> Result<(), Memory>
        requires next { note_refusal self.old.limits self.old.stream note.now ≡ None }
        requires told { note.now.body ≡ Happened event.now }
        ensures { Accepts self.old self.new note.now result }
    {
        let index = note.thread.number() as usize;
        append_both(&mut self.logs[index], &mut self.stream, *event, *note)?;
        self.cursors[index].taker.advance(*event);
        Ok(())
    }

    // Adds an end mark to the stream.
    fn accept_end(&mut self, note: &Note, count: u32) -> Result<(), Memory>
        requires next { note_refusal self.old.limits self.old.stream note.now ≡ None }
        requires told { note.now.body ≡ Ended count }
        ensures { Accepts self.old self.new note.now result }
    {
        let index = note.thread.number() as usize;
        append(&mut self.stream, *note)?;
        self.cursors[index].has_ended = true;
        Ok(())
    }
}
