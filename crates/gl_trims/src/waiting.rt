//! Which positions wait to be looked at.
ghost use Rattle.std.specs.Prelude.{◌≡◌, ◌≢◌, ◌<◌, ◌≤◌, ◌==◌, ◌||◌, ℕ, true, false, MatchOption, OnOk};
ghost use Rattle.gl_trims.specs.bodies.Waiting.{waits, still_waiting, AreEarlier, IsFirstWaiting};

use gl_event::Memory;
use std::alloc::Global;
use std::collections::BTreeSet;

/// The positions that wait to be looked at: all from one on, and some before it that were looked at
/// once. So at first all wait, which takes neither time nor memory.
#[derive(Drop)]
pub(crate) struct Waiting {
    pub(crate) next: usize,
    pub(crate) again: BTreeSet<usize>,
}

impl Waiting {
    /// All wait.
    pub(crate) fn all(alloc: Global) -> Waiting
        ensures waits { (i : ℕ) → waits result i ≡ true }
        ensures earlier { AreEarlier result }
        ensures next { result.next ≡ 0 }
    {
        Waiting {
            next: 0,
            again: BTreeSet::new(alloc),
        }
    }

    /// The first one that waits, of those below a position.
    pub(crate) fn first(&self, end: usize) -> Option<usize>
        requires earlier { AreEarlier self.now }
        requires within { self.now.next ≤ end }
        ensures { MatchOption result
            ((i : ℕ) → i < end → waits self.now i ≡ false) (IsFirstWaiting end self.now) }
    {
        if let Some(first) = self.again.first() {
            return Some(*first);
        }
        if self.next < end {
            return Some(self.next);
        }
        None
    }

    /// The first one that waits was looked at, and waits no longer.
    pub(crate) fn pass(&mut self, i: usize, end: usize)
        requires earlier { AreEarlier self.old }
        requires first { IsFirstWaiting end self.old i }
        ensures others { (j : ℕ) → j ≢ i → waits self.new j ≡ waits self.old j }
        ensures earlier { AreEarlier self.new }
        ensures within { self.old.next ≤ end → self.new.next ≤ end }
        ensures fewer { still_waiting end self.new < still_waiting end self.old }
    {
        if i < self.next {
            self.again.remove(&i);
            return;
        }
        self.next = i + 1;
    }

    /// One more waits, if it didn't.
    pub(crate) fn add(&mut self, i: usize) -> Result<(), Memory>
        requires earlier { AreEarlier self.old }
        ensures waits { OnOk result
            ((j : ℕ) → waits self.new j ≡ (waits self.old j || (i == j))) }
        ensures earlier { OnOk result (AreEarlier self.new) }
        ensures next { OnOk result (self.new.next ≡ self.old.next) }
    {
        if i < self.next {
            self.again.insert(i)?;
        }
        Ok(())
    }
}
