//! The locks that one thread holds.
ghost use Rattle.std.specs.Prelude.{◌≡◌, ◌<◌, ◌↔◌, ℕ, List, [], length, remove, slice_set, IsTrue, IfNone, OnErr};

use crate::events::LockMode;
use crate::ids::{LocId, LockId};
use arrayvec::ArrayVec;
use std::marker::Model;

/// The most locks that a thread may hold at once.
pub const MAX_HELD: usize = 64;
/// How often a thread may acquire a lock that it holds.
pub const MAX_DEPTH: u32 = 1_000_000;

/// A lock that a thread holds: how often it has acquired it without a release, and the mode, the
/// place, the location and the segment of the outermost of these acquires.
#[derive(Clone, Copy, Debug, PartialEq, Eq, Default)]
pub struct HeldEntry {
    pub lock: LockId,
    pub mode: LockMode,
    pub depth: u32,
    pub place: u32,
    pub loc: LocId,
    pub seg: u32,
}

/// Why a lock could not be acquired.
#[derive(Clone, Copy, Debug, PartialEq, Eq)]
pub enum HeldFault {
    /// The thread holds 64 other locks.
    HeldFull,
    /// The thread has acquired the lock 1,000,000 times already.
    DepthFull,
    /// The thread holds the lock in shared mode, and asks for it exclusively.
    Upgrade,
}

/// The lock could not be released, since the thread doesn't hold it.
#[derive(Clone, Copy, Debug, PartialEq, Eq)]
pub struct NotHeld;

/// The locks that a thread holds, in the order of their outermost acquires.
#[derive(Drop, Debug)]
pub struct Held {
    entries: ArrayVec<HeldEntry, MAX_HELD>,
}

impl Model for Held {
    ghost use Rattle.std.specs.Prelude.{List};
    ghost use Rattle.gl_event.specs.declared.held.HeldEntry.{HeldEntry};

    ghost Value = { List HeldEntry };

    ghost view = { λ h. h.entries.items };
}

impl Held {
    ghost use Rattle.std.specs.Option.{option_map};
    ghost use Rattle.gl_event.specs.Events.{depth};
    ghost use Rattle.gl_event.specs.Lawful.{acquire_refusal};
    ghost use Rattle.gl_event.specs.Standing.{StandsFor, AnswersAcquire, AnswersRelease, as_refusal};
    ghost use Rattle.gl_event.specs.bodies.Finding.{IsFound, HasRoom};
    ghost use Rattle.gl_event.specs.declared.events.Event.{Event};

    /// No lock is held.
    pub fn new() -> Held
        ensures empty { result ≡ [] }
        ensures stands { StandsFor [] result }
    {
        Held {
            entries: ArrayVec::new(),
        }
    }

    /// The entries of the locks that are held, in the order of their outermost acquires.
    pub fn entries(&self) -> &[HeldEntry]
        ensures { result.now ≡ self.now }
    {
        self.entries.as_slice()
    }

    /// Whether the lock is held.
    pub fn holds(&self, lock: LockId) -> bool
        ensures { (es : List Event) → StandsFor es self.now
            → IsTrue result ↔ (0 < depth es lock) }
    {
        self.find(lock).is_some()
    }

    /// Acquires the lock once, whether or not the thread could have waited for it. `place` is how
    /// many events the thread had before, `seg` how many of these were forks and joins, `loc` where
    /// the acquire stands; these three count where the lock wasn't held. The answer is `true` where
    /// the lock wasn't held.
    ///
    /// A refused acquire changes nothing.
    #[inline(always)]
    pub fn acquire(
        &mut self,
        lock: LockId,
        mode: LockMode,
        loc: LocId,
        place: u32,
        seg: u32,
    ) -> Result<bool, HeldFault>
        ensures answers { (es : List Event) → StandsFor es self.old
            → AnswersAcquire es lock mode loc place seg self.new result }
        ensures unchanged { OnErr result (self.new ≡ self.old) }
    {
        let found = self.find(lock);
        if let Some(fault) = self.fault(&found, mode) {
            return Err(fault);
        }
        match found {
            Some((i, entry)) => {
                let depth = entry.depth + 1;
                self.put(i, HeldEntry { depth, ..entry });
                Ok(false)
            }
            None => {
                self.entries.push(HeldEntry {
                    lock,
                    mode,
                    depth: 1,
                    place,
                    loc,
                    seg,
                });
                Ok(true)
            }
        }
    }

    /// Why `acquire` would refuse the lock in this mode, where it would.
    #[inline(always)]
    pub(crate) fn acquire_fault(&self, lock: LockId, mode: LockMode) -> Option<HeldFault>
        ensures { (es : List Event) → StandsFor es self.now
            → option_map as_refusal result ≡ acquire_refusal es lock mode }
    {
        self.fault(&self.find(lock), mode)
    }

    /// Releases the lock once. The answer is `true` where the lock is then no longer held.
    ///
    /// A refused release changes nothing.
    #[inline(always)]
    pub fn release(&mut self, lock: LockId) -> Result<bool, NotHeld>
        ensures answers { (es : List Event) → StandsFor es self.old
            → AnswersRelease es lock self.new result }
        ensures unchanged { OnErr result (self.new ≡ self.old) }
    {
        match self.find(lock) {
            Some((i, entry)) => {
                if entry.depth <= 1 {
                    self.take_out(i);
                    return Ok(true);
                }
                let depth = entry.depth - 1;
                self.put(i, HeldEntry { depth, ..entry });
                Ok(false)
            }
            None => Err(NotHeld),
        }
    }

    // Why the lock of which this was found can't be acquired in this mode.
    #[inline(always)]
    fn fault(&self, found: &Option<(usize, HeldEntry)>, mode: LockMode) -> Option<HeldFault>
        ensures refusal { (es : List Event) (lock : ℕ) → StandsFor es self.now
            → IsFound self.now lock found.now
            → option_map as_refusal result ≡ acquire_refusal es lock mode }
        ensures room { IfNone result (HasRoom self.now found.now) }
    {
        let Some((_, entry)) = found else {
            if self.entries.is_full() {
                return Some(HeldFault::HeldFull);
            }
            return None;
        };
        if entry.depth >= MAX_DEPTH {
            return Some(HeldFault::DepthFull);
        }
        if mode.upgrades(entry.mode) {
            return Some(HeldFault::Upgrade);
        }
        None
    }

    // The place and the entry of the lock, if it has one. At most 64 entries are looked at, the newest
    // first: most releases are of these.
    #[inline(always)]
    fn find(&self, lock: LockId) -> Option<(usize, HeldEntry)>
        ensures { IsFound self.now lock result }
    {
        let entries = self.entries.as_slice();
        for i in (0..entries.len()).rev() {
            let entry = &entries[i];
            if entry.lock == lock {
                return Some((i, *entry));
            }
        }
        None
    }

    // Takes out the entry at a place. Behind the newest one, that most releases are of, no other moves up.
    #[inline(always)]
    fn take_out(&mut self, i: usize)
        requires { i < length self.old }
        ensures { self.new ≡ remove self.old i }
    {
        if self.entries.len() - i == 1 {
            self.entries.pop();
        } else {
            self.entries.remove(i);
        }
    }

    // Replaces the entry at a place.
    #[inline(always)]
    fn put(&mut self, i: usize, entry: HeldEntry)
        requires { i < length self.old }
        ensures { self.new ≡ slice_set self.old i entry }
    {
        self.entries.as_mut_slice()[i] = entry;
    }
}
