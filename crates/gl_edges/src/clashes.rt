//! Guard sets that clash.
ghost use Rattle.std.specs.Prelude.{◌≡◌, ◌≤◌, length};
ghost use Rattle.std.specs.List.{list_any};
ghost use Rattle.std.specs.List.Sorted.{IsStrictlySortedBy};
ghost use Rattle.gl_edges.specs.Clashes.{clash_on, guards_clash};
ghost use Rattle.gl_edges.specs.bodies.Clashing.{AreBelow};
ghost use Rattle.gl_edges.specs.Guards.{guard_cmp};

use crate::guards::{Guard, Guards};
use gl_event::LockId;

impl Guard {
    /// Whether the guards clash: they are of one lock, and not both shared.
    pub fn clashes_with(&self, other: &Guard) -> bool
        ensures { result ≡ clash_on self.now other.now }
    {
        self.lock == other.lock && self.mode.conflicts_with(other.mode)
    }
}

impl Guards {
    /// Whether a guard of this set clashes with one of the other set: there is a lock that both have,
    /// and not both shared, so that a thread which holds the one set keeps out another that holds the
    /// other one. Mostly this is seen at once; where it isn't, one walk through both tells, as they ascend.
    pub fn clash_with(&self, others: &Guards) -> bool
        ensures { result ≡ guards_clash self.now others.now }
    {
        let marks = self.marks();
        let other_marks = others.marks();
        if marks.are_apart(other_marks) {
            return false;
        }
        if marks.do_clash(other_marks) {
            return true;
        }
        do_meet(self.as_slice(), others.as_slice())
    }
}

// The first place from this one on whose lock isn't below this one. Those before are.
fn first_from(guards: &[Guard], place: usize, lock: LockId) -> usize
    requires below { AreBelow guards.now place lock }
    requires within { place ≤ length guards.now }
    ensures below { AreBelow guards.now result lock }
    ensures within { result ≤ length guards.now }
{
    for here in place..guards.len() {
        if guards[here].lock >= lock {
            return here;
        }
    }
    guards.len()
}

// Whether the guard clashes with one of the others. Those before the place have lesser locks.
fn clashes_from(guard: &Guard, others: &[Guard], place: usize) -> bool
    requires ascending { IsStrictlySortedBy guard_cmp others.now }
    requires below { AreBelow others.now place guard.now.lock }
    requires within { place ≤ length others.now }
    ensures { result ≡ list_any (clash_on guard.now) others.now }
{
    for here in place..others.len() {
        let other = &others[here];
        if other.lock.number() > guard.lock.number() {
            return false;
        }
        if guard.clashes_with(other) {
            return true;
        }
    }
    false
}

// Whether a guard of the first list clashes with one of the second.
fn do_meet(guards: &[Guard], others: &[Guard]) -> bool
    requires ascending { IsStrictlySortedBy guard_cmp guards.now }
    requires others_ascend { IsStrictlySortedBy guard_cmp others.now }
    ensures { result ≡ guards_clash guards.now others.now }
{
    let mut place = 0;
    for guard in guards {
        place = first_from(others, place, guard.lock);
        if clashes_from(guard, others, place) {
            return true;
        }
    }
    false
}
