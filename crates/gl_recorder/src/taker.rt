//! Which events of one thread a recorder takes.
ghost use Rattle.std.specs.Prelude.{◌≡◌, ◌≢◌, ◌<◌, ◌≤◌, None, Some, [], ◌∷◌, ◌++◌, length, OnOk, OnErr, IfSome, IfNone};
ghost use Rattle.gl_event.specs.Lawful.{lock_refusal, refusal};
ghost use Rattle.gl_event.specs.States.{no_events, MayFollow};
ghost use Rattle.gl_event.specs.declared.limits.TheConstants.{MAX_EVENTS};
ghost use Rattle.gl_event.specs.declared.notes.Body.TheVariants.{Happened};
ghost use Rattle.gl_recorder.specs.Taking.{ForEachTracked, Tracks, end_note, answer_to, partner_refusal};

use gl_event::{Body, Effect, Event, Limits, Note, Refusal, ThreadId, ThreadState};
use std::marker::Model;

/// What a recorder knows of its thread: it takes the thread's events, each where it is lawful next.
///
/// Contracts see its thread and limits, and what is known of the thread after the events that it took.
#[derive(Drop, Debug)]
pub struct Taker {
    thread: ThreadId,
    limits: Limits,
    state: ThreadState,
}

impl Model for Taker {
    ghost use Rattle.gl_recorder.specs.Taking.{Taking};

    ghost Value = { Taking };

    ghost view = { λ t. record { thread = t.thread; limits = t.limits; state = t.state } };
}

impl Taker {
    /// That of this thread, which has taken nothing yet.
    pub fn new(thread: ThreadId, limits: &Limits) -> Taker
        requires { thread < limits.now.threads }
        ensures fresh { result.state ≡ no_events }
        ensures tracks { Tracks limits.now thread [] result }
    {
        Taker {
            thread,
            limits: *limits,
            state: ThreadState::new(),
        }
    }

    /// The note that `take` would answer this event, or the first reason why the event may not come
    /// next. Nothing changes. The cost is that of `take`.
    pub fn check(&self, event: Event) -> Result<Note, Refusal>
        ensures { ForEachTracked self.now
            (λ limits thread es. result ≡ answer_to limits thread es event) }
    {
        match self.refusal(&event) {
            Some(refusal) => Err(refusal),
            None => Ok(self.note(event)),
        }
    }

    /// Takes the event, if it may come next: the answer is its note. Otherwise nothing changes, and
    /// the answer is the first reason why not, in the order in which `Refusal` lists them.
    ///
    /// It looks through the at most 64 held locks, and takes no memory.
    #[inline(always)]
    pub fn take(&mut self, event: Event) -> Result<Note, Refusal>
        ensures answers { ForEachTracked self.old
            (λ limits thread es. result ≡ answer_to limits thread es event) }
        ensures tracks { ForEachTracked self.old
            (λ limits thread es. OnOk result
            (Tracks limits thread (es ++ event ∷ []) self.new)) }
        ensures unchanged { OnErr result (self.new ≡ self.old) }
    {
        if let Some(refusal) = self.refusal_beside_locks(&event) {
            return Err(refusal);
        }
        let note = self.note(event);
        self.state.take(event)?;
        Ok(note)
    }

    /// Takes the event, which has to be the thread's next one, without asking whether it may be: who
    /// asked `check` before and found it lawful needs no second answer.
    ///
    /// It looks through the at most 64 held locks, and takes no memory.
    pub fn advance(&mut self, event: Event)
        requires { MayFollow self.old.limits self.old.thread self.old.state event }
        ensures { ForEachTracked self.old
            (λ limits thread es. Tracks limits thread (es ++ event ∷ []) self.new) }
    {
        let has_room = self.state.events() < self.limits.events();
        prove!(has_room);
        // the locks let what is lawful next come
        let _ = self.state.take(event);
    }

    /// The thread whose events are taken.
    pub fn thread(&self) -> ThreadId
        ensures value { result ≡ self.now.thread }
        ensures own { ForEachTracked self.now (λ limits thread es. result ≡ thread) }
    {
        self.thread
    }

    /// What is known of the thread after the events that were taken.
    pub fn state(&self) -> &ThreadState
        ensures value { result.now ≡ self.now.state }
    {
        &self.state
    }

    /// How many events were taken.
    pub fn taken(&self) -> u32
        ensures value { result ≡ self.now.state.events }
        ensures length { ForEachTracked self.now (λ limits thread es. result ≡ length es) }
    {
        self.state.events()
    }

    /// The mark that the thread has ended, with the number of events taken.
    pub fn end(&self) -> Note
        ensures value { result ≡ end_note self.now.thread self.now.state.events }
        ensures mark { ForEachTracked self.now
            (λ limits thread es. result ≡ end_note thread (length es)) }
    {
        let count = self.state.events();
        Note {
            thread: self.thread,
            place: count,
            body: Body::Ended { count },
        }
    }

    // The note of the event, which comes next.
    fn note(&self, event: Event) -> Note
        ensures { result ≡ record
            { thread = self.now.thread; place = self.now.state.events; body = Happened event } }
    {
        Note {
            thread: self.thread,
            place: self.state.events(),
            body: Body::Happened(event),
        }
    }

    // Why the event may not come next.
    fn refusal(&self, event: &Event) -> Option<Refusal>
        ensures { ForEachTracked self.now
            (λ limits thread es. result ≡ refusal limits thread es event.now) }
    {
        if let Some(refusal) = self.refusal_beside_locks(event) {
            return Some(refusal);
        }
        self.state.refusal(event)
    }

    // Why the event may not come next, whatever the locks say; else these decide.
    fn refusal_beside_locks(&self, event: &Event) -> Option<Refusal>
        ensures refused { IfSome result
            (λ r. ForEachTracked self.now
            (λ limits thread es. refusal limits thread es event.now ≡ Some r)) }
        ensures left { IfNone result
            (ForEachTracked self.now
            (λ limits thread es. refusal limits thread es event.now
            ≡ lock_refusal es event.now)) }
        ensures room { IfNone result (self.now.state.events < MAX_EVENTS) }
    {
        if self.state.events() >= self.limits.events() {
            return Some(Refusal::PlaceFull);
        }
        match event.effect() {
            Effect::Closes { partner } => self.partner_refusal(partner),
            Effect::Acquires { .. } => None,
            Effect::Releases { .. } => None,
        }
    }

    // Why the thread can't be forked or joined.
    fn partner_refusal(&self, other: ThreadId) -> Option<Refusal>
        ensures { result ≡ partner_refusal self.now.limits self.now.thread other }
    {
        if other.number() >= self.limits.threads() {
            return Some(Refusal::NoSuchThread);
        }
        if other == self.thread {
            return Some(Refusal::OnItself);
        }
        None
    }
}
