//! Lists of events, as constants tell them.
use gl_event::{Event, LocId, LockId, LockMode, ThreadId};
use std::alloc::Global;

/// An event: the number of its lock or its thread, and that of its location.
#[derive(Clone, Copy)]
pub enum Op {
    /// An acquire.
    Acq(u32, u32),
    /// An acquire in shared mode.
    Racq(u32, u32),
    /// An acquire that could not have waited.
    Tryacq(u32, u32),
    /// The same in shared mode.
    Tryracq(u32, u32),
    /// A release.
    Rel(u32, u32),
    /// A release by the word for shared locks.
    Rrel(u32, u32),
    /// A fork of a thread.
    Fork(u32, u32),
    /// A join of a thread.
    Join(u32, u32),
}

/// The event.
pub fn event_of(op: Op) -> Event {
    match op {
        Op::Acq(lock, loc) => acquire_in(LockMode::Exclusive, lock, loc),
        Op::Racq(lock, loc) => acquire_in(LockMode::Shared, lock, loc),
        Op::Tryacq(lock, loc) => try_acquire_in(LockMode::Exclusive, lock, loc),
        Op::Tryracq(lock, loc) => try_acquire_in(LockMode::Shared, lock, loc),
        Op::Rel(lock, loc) => release_in(LockMode::Exclusive, lock, loc),
        Op::Rrel(lock, loc) => release_in(LockMode::Shared, lock, loc),
        Op::Fork(thread, loc) => Event::Fork {
            thread: ThreadId::new(thread),
            loc: LocId::new(loc),
        },
        Op::Join(thread, loc) => Event::Join {
            thread: ThreadId::new(thread),
            loc: LocId::new(loc),
        },
    }
}

fn acquire_in(mode: LockMode, lock: u32, loc: u32) -> Event {
    Event::Acquire {
        lock: LockId::new(lock),
        mode,
        loc: LocId::new(loc),
    }
}

fn try_acquire_in(mode: LockMode, lock: u32, loc: u32) -> Event {
    Event::TryAcquire {
        lock: LockId::new(lock),
        mode,
        loc: LocId::new(loc),
    }
}

fn release_in(mode: LockMode, lock: u32, loc: u32) -> Event {
    Event::Release {
        lock: LockId::new(lock),
        mode,
        loc: LocId::new(loc),
    }
}

/// The list of these events. None where memory was refused.
pub fn events_of(alloc: Global, ops: &[Op]) -> Option<Vec<Event>> {
    let mut events = Vec::new(alloc);
    for op in ops {
        events.push(event_of(*op)).ok()?;
    }
    Some(events)
}

/// The lists of these events. None where memory was refused.
pub fn lists_of(alloc: Global, lists: &[&[Op]]) -> Option<Vec<Vec<Event>>> {
    let mut made = Vec::new(alloc);
    for list in lists {
        made.push(events_of(alloc, list)?).ok()?;
    }
    Some(made)
}

/// Whether the events are these.
pub fn are_events(events: &[Event], ops: &[Op]) -> bool {
    if events.len() != ops.len() {
        return false;
    }
    for (event, op) in events.iter().zip(ops) {
        if *event != event_of(*op) {
            return false;
        }
    }
    true
}
