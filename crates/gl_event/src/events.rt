//! The events of a thread, and the segments that forks and joins cut its run into.
ghost use Rattle.std.specs.Prelude.{◌≡◌, refl, nat_eq};
ghost use Rattle.std.specs.Cmp.{nat_cmp_total, nat_eq_equiv, on_equiv, on_per, on_po, on_total, partial_equiv_from_equiv, partial_order_from_total, unsigned_po, unsigned_ties};
ghost use Rattle.std.specs.Ordering.{as_partial_cmp, on};
ghost use Rattle.gl_event.specs.Modes.{rank, mode_cmp};

use crate::ids::{LocId, LockId, ThreadId};
use std::cmp::Ordering;

/// How a lock is held: by one thread alone, or by readers together. The two are ordered as they
/// stand here.
#[derive(Clone, Copy, Debug, Hash, Default)]
#[repr(u8)]
pub enum LockMode {
    /// No other thread holds the lock meanwhile.
    #[default]
    Exclusive,
    /// Other threads may hold the lock meanwhile, all of them in this mode.
    Shared,
}

impl LockMode {
    // Its place in the order of modes.
    fn rank(self) -> u8
        ensures { result ≡ rank self }
    {
        match self {
            LockMode::Exclusive => 0,
            LockMode::Shared => 1,
        }
    }
}

impl PartialEq for LockMode {
    ghost eq = { λ a b. nat_eq (rank a) (rank b) };

    ghost laws = { on_per rank (partial_equiv_from_equiv nat_eq_equiv) };

    fn eq(&self, other: &LockMode) -> bool {
        self.rank() == other.rank()
    }
}

impl Eq for LockMode {
    ghost laws = { on_equiv rank nat_eq_equiv };
}

impl PartialOrd for LockMode {
    ghost partial_cmp = { as_partial_cmp mode_cmp };

    ghost laws = { on_po rank unsigned_po };

    fn partial_cmp(&self, other: &LockMode) -> Option<Ordering> {
        Some(self.cmp(other))
    }
}

impl Ord for LockMode {
    ghost cmp = { mode_cmp };

    ghost total = { on_total rank nat_cmp_total };

    ghost matches_partial_cmp = { λ a b. refl };

    ghost matches_eq = { λ a b. unsigned_ties (rank a) (rank b) };

    fn cmp(&self, other: &LockMode) -> Ordering {
        self.rank().cmp(&other.rank())
    }
}

impl LockMode {
    ghost use Rattle.gl_event.specs.Lawful.{is_upgrade};
    ghost use Rattle.gl_event.specs.Modes.{conflict};

    /// Whether two threads can't hold a lock in these modes at the same time: only readers can.
    pub fn conflicts_with(self, other: LockMode) -> bool
        ensures { result ≡ conflict self other }
    {
        match self {
            LockMode::Exclusive => true,
            LockMode::Shared => other == LockMode::Exclusive,
        }
    }

    /// Whether an acquire in this mode would make a lock that is held in the other one exclusive.
    /// Such a thread waits for all readers to go, itself among them.
    pub fn upgrades(self, held: LockMode) -> bool
        ensures { result ≡ is_upgrade held self }
    {
        match held {
            LockMode::Exclusive => false,
            LockMode::Shared => self == LockMode::Exclusive,
        }
    }
}

/// One event of a thread, with its location in the source. It takes 12 bytes: a mode stands beside
/// the byte that tells the kind of event.
#[derive(Clone, Copy, Debug, PartialEq, Eq)]
#[repr(u8)]
pub enum Event {
    /// The thread acquires the lock, and waits for it where it has to. A lock that the thread holds
    /// already is acquired once more, and stays held in the mode of its outermost acquire.
    Acquire {
        mode: LockMode,
        lock: LockId,
        loc: LocId,
    },
    /// The thread releases the lock once, in whichever mode it holds it.
    Release {
        mode: LockMode,
        lock: LockId,
        loc: LocId,
    },
    /// The thread acquires the lock by an attempt that could not have waited for ever, as
    /// `trylock`. It holds the lock like any other, but can't be in a deadlock there.
    TryAcquire {
        mode: LockMode,
        lock: LockId,
        loc: LocId,
    },
    /// The thread starts another thread.
    Fork {
        thread: ThreadId,
        loc: LocId,
    },
    /// The thread has waited for another thread to end.
    Join {
        thread: ThreadId,
        loc: LocId,
    },
}

/// What an event does to its thread: all that following a thread needs to know of it.
#[derive(Clone, Copy, Debug, PartialEq, Eq)]
pub enum Effect {
    /// It acquires the lock in this mode, whether or not it could have waited for it.
    Acquires {
        lock: LockId,
        mode: LockMode,
        loc: LocId,
    },
    /// It releases the lock once.
    Releases {
        lock: LockId,
    },
    /// It starts or has waited for this thread, and so it closes a segment.
    Closes {
        partner: ThreadId,
    },
}

/// A lock that an event wants, and the mode and the place in which it does.
#[derive(Clone, Copy, Debug, PartialEq, Eq)]
pub struct Wanted {
    pub lock: LockId,
    pub mode: LockMode,
    pub loc: LocId,
}

impl Event {
    ghost use Rattle.std.specs.Prelude.{None, IfSome};
    ghost use Rattle.gl_event.specs.Events.{closes, wanted_lock};
    ghost use Rattle.gl_event.specs.declared.events.Event.TheVariants.{Acquire};
    ghost use Rattle.gl_event.specs.States.{HasEffect};

    /// What the event does to its thread.
    pub fn effect(&self) -> Effect
        ensures { HasEffect self.now result }
    {
        match *self {
            Event::Acquire { lock, mode, loc } => Effect::Acquires { lock, mode, loc },
            Event::Release { lock, .. } => Effect::Releases { lock },
            Event::TryAcquire { lock, mode, loc } => Effect::Acquires { lock, mode, loc },
            Event::Fork { thread, .. } => Effect::Closes { partner: thread },
            Event::Join { thread, .. } => Effect::Closes { partner: thread },
        }
    }

    /// The lock that the event wants: it waits for it where it has to, and makes edges. None, where it
    /// wants none.
    pub fn wanted(&self) -> Option<Wanted>
        ensures some { IfSome result (λ w. self.now ≡ Acquire w.mode w.lock w.loc) }
        ensures none { result ≡ None → wanted_lock self.now ≡ None }
    {
        match *self {
            Event::Acquire { lock, mode, loc } => Some(Wanted { lock, mode, loc }),
            Event::Release { .. } => None,
            Event::TryAcquire { .. } => None,
            Event::Fork { .. } => None,
            Event::Join { .. } => None,
        }
    }

    /// Whether the event closes a segment of its thread: it is a fork or a join.
    pub fn closes(&self) -> bool
        ensures { result ≡ closes self.now }
    {
        match self.effect() {
            Effect::Closes { .. } => true,
            Effect::Acquires { .. } => false,
            Effect::Releases { .. } => false,
        }
    }
}

/// A part of a thread's run between two of its forks and joins. Segments of a thread count from 0;
/// a fork or join belongs to the segment that it closes.
#[derive(Clone, Copy, Debug, PartialEq, Eq, PartialOrd, Ord)]
pub struct Segment {
    pub thread: ThreadId,
    pub index: u32,
}

/// Why an event may not come next in a thread's list, in the order in which the reasons are tried.
#[derive(Clone, Copy, Debug, PartialEq, Eq)]
pub enum Refusal {
    /// The list is as long as the limit of events allows.
    PlaceFull,
    /// A fork or join of a thread whose number isn't below the limit of threads.
    NoSuchThread,
    /// A fork or join of the thread itself.
    OnItself,
    /// A release of a lock that the thread doesn't hold.
    NotHeld,
    /// An acquire of one more lock where the thread holds 64 already.
    HeldFull,
    /// An acquire of a lock that the thread has acquired 1,000,000 times without a release.
    DepthFull,
    /// An exclusive acquire of a lock that the thread holds in shared mode.
    Upgrade,
}
