//! What is known of a thread after its events so far.
ghost use Rattle.std.specs.Prelude.{◌≡◌, ◌↔◌, ◌+◌, ◌^◌, ◌<◌, ℕ, true, None, Some, List, [], ◌∷◌, ◌++◌, OnOk, OnErr, IfErr, IsTrue};
ghost use Rattle.gl_event.specs.Events.{depth};
ghost use Rattle.gl_event.specs.Lawful.{lock_refusal};
ghost use Rattle.gl_event.specs.Standing.{StandsFor, as_refusal};
ghost use Rattle.gl_event.specs.declared.events.Event.{Event};
ghost use Rattle.gl_event.specs.declared.events.Event.TheVariants.{Release};
ghost use Rattle.gl_event.specs.declared.events.LockMode.{LockMode};

use crate::events::{Effect, Event, LockMode, Refusal};
use crate::held::{Held, HeldEntry, HeldFault};
use crate::ids::{LocId, LockId};
use std::marker::Model;

/// What is known of a thread after its events so far: which locks it holds, how many events there
/// are, and how many of them closed a segment.
///
/// It keeps no events. All who follow a thread event by event (its recorder, the maker of its edges,
/// a reader of its trace) keep this of it, so that one place says what each kind of event does.
///
/// Contracts see the three, and say for every list of events that they stand for what comes of one
/// more.
#[derive(Drop, Debug)]
pub struct ThreadState {
    held: Held,
    events: u32,
    segments: u32,
}

impl Model for ThreadState {
    ghost use Rattle.std.specs.Prelude.{◌≤◌};
    ghost use Rattle.gl_event.specs.States.{State};

    ghost Value = { State };

    ghost view = { λ s. record { held = s.held; events = s.events; segments = s.segments } };

    ghost invariant = { λ s. s.segments ≤ s.events };
}

// Why an event is refused whose lock can't be acquired.
#[inline(always)]
fn as_refusal(fault: HeldFault) -> Refusal
    ensures { result ≡ as_refusal fault }
{
    match fault {
        HeldFault::HeldFull => Refusal::HeldFull,
        HeldFault::DepthFull => Refusal::DepthFull,
        HeldFault::Upgrade => Refusal::Upgrade,
    }
}

// Why the lock can't be released.
fn release_refusal(held: &Held, lock: LockId) -> Option<Refusal>
    ensures { (es : List Event) → StandsFor es held.now → (mode : LockMode) (loc : ℕ)
        → result ≡ lock_refusal es (Release mode lock loc) }
{
    if held.holds(lock) {
        return None;
    }
    Some(Refusal::NotHeld)
}

impl ThreadState {
    ghost use Rattle.gl_event.specs.Events.{closes, lock_mode, location};
    ghost use Rattle.gl_event.specs.Standing.{IsAcquireOf};
    ghost use Rattle.gl_event.specs.States.{HasFollowed, StandsAfter, no_events};

    /// What is known before the first event.
    pub fn new() -> ThreadState
        ensures fresh { result ≡ no_events }
        ensures stands { StandsAfter [] result }
    {
        ThreadState {
            held: Held::new(),
            events: 0,
            segments: 0,
        }
    }

    /// How many events there are: the place of the next one.
    pub fn events(&self) -> u32
        ensures { result ≡ self.now.events }
    {
        self.events
    }

    /// How many of the events closed a segment: the segment of the next one.
    pub fn segment(&self) -> u32
        ensures { result ≡ self.now.segments }
    {
        self.segments
    }

    /// The entries of the locks that the thread holds, in the order of their outermost acquires.
    pub fn entries(&self) -> &[HeldEntry]
        ensures { result.now ≡ self.now.held }
    {
        self.held.entries()
    }

    /// Whether the thread holds the lock.
    pub fn holds(&self, lock: LockId) -> bool
        ensures { (es : List Event) → StandsAfter es self.now
            → IsTrue result ↔ (0 < depth es lock) }
    {
        self.held.holds(lock)
    }

    /// Why the locks don't let the event come next. It looks through the at most 64 held locks.
    #[inline(always)]
    pub fn refusal(&self, event: &Event) -> Option<Refusal>
        ensures { (es : List Event) → StandsAfter es self.now
            → result ≡ lock_refusal es event.now }
    {
        match event.effect() {
            Effect::Acquires { lock, mode, .. } => {
                self.held.acquire_fault(lock, mode).map(as_refusal)
            }
            Effect::Releases { lock } => release_refusal(&self.held, lock),
            Effect::Closes { .. } => None,
        }
    }

    /// Takes the event as the next one, where the locks let it. Otherwise nothing changes, and the
    /// answer says why.
    ///
    /// It looks through the at most 64 held locks once, and takes no memory.
    #[inline(always)]
    pub fn take(&mut self, event: Event) -> Result<(), Refusal>
        requires fits { self.old.events + 1 < 2 ^ 32 }
        ensures refused { IfErr result
            (λ r. (es : List Event) → StandsAfter es self.old
            → lock_refusal es event ≡ Some r) }
        ensures allowed { OnOk result
            ((es : List Event) → StandsAfter es self.old → lock_refusal es event ≡ None) }
        ensures stands { OnOk result (HasFollowed self.old event self.new) }
        ensures unchanged { OnErr result (self.new ≡ self.old) }
    {
        match event.effect() {
            Effect::Acquires { lock, mode, loc } => self.acquire(event, lock, mode, loc),
            Effect::Releases { lock } => self.release(event, lock),
            Effect::Closes { .. } => {
                self.close(event);
                Ok(())
            }
        }
    }

    // `take`, for an acquire of this lock in this mode, tried or not.
    #[inline(always)]
    fn acquire(
        &mut self,
        event: Event,
        lock: LockId,
        mode: LockMode,
        loc: LocId,
    ) -> Result<(), Refusal>
        requires fits { self.old.events + 1 < 2 ^ 32 }
        requires acquires { IsAcquireOf lock mode event }
        requires located { loc ≡ location event }
        ensures refused { IfErr result
            (λ r. (es : List Event) → StandsAfter es self.old
            → lock_refusal es event ≡ Some r) }
        ensures allowed { OnOk result
            ((es : List Event) → StandsAfter es self.old → lock_refusal es event ≡ None) }
        ensures stands { OnOk result (HasFollowed self.old event self.new) }
        ensures unchanged { OnErr result (self.new ≡ self.old) }
    {
        match self
            .held
            .acquire(lock, mode, loc, self.events, self.segments)
        {
            Ok(_) => {}
            Err(fault) => return Err(as_refusal(fault)),
        }
        self.events += 1;
        Ok(())
    }

    // `take`, for a release of this lock.
    #[inline(always)]
    fn release(&mut self, event: Event, lock: LockId) -> Result<(), Refusal>
        requires fits { self.old.events + 1 < 2 ^ 32 }
        requires releases { event ≡ Release (lock_mode event) lock (location event) }
        ensures refused { IfErr result
            (λ r. (es : List Event) → StandsAfter es self.old
            → lock_refusal es event ≡ Some r) }
        ensures allowed { OnOk result
            ((es : List Event) → StandsAfter es self.old → lock_refusal es event ≡ None) }
        ensures stands { OnOk result (HasFollowed self.old event self.new) }
        ensures unchanged { OnErr result (self.new ≡ self.old) }
    {
        match self.held.release(lock) {
            Ok(_) => {}
            Err(_) => return Err(Refusal::NotHeld),
        }
        self.events += 1;
        Ok(())
    }

    // `take`, for a fork or a join.
    #[inline(always)]
    fn close(&mut self, event: Event)
        requires fits { self.old.events + 1 < 2 ^ 32 }
        requires closes { closes event ≡ true }
        ensures allowed { (es : List Event) → lock_refusal es event ≡ None }
        ensures stands { HasFollowed self.old event self.new }
    {
        self.events += 1;
        self.segments += 1;
    }
}
