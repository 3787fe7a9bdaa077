//! Sets of locks, each in a mode.
ghost use Rattle.std.specs.Prelude.{◌≡◌, ◌<◌, ◌≤◌, List, [], length, map, refl, IsOk, IfOk, OnOk};
ghost use Rattle.std.specs.Cmp.{partial_equiv_from_equiv, po};
ghost use Rattle.std.specs.Cmp.Lexicographic.{pointwise, slice_cmp, lists_equiv, lists_ties, lists_total};
ghost use Rattle.std.specs.List.Sorted.{IsStrictlySortedBy};
ghost use Rattle.std.specs.Ordering.{as_partial_cmp};
ghost use Rattle.gl_edges.specs.bodies.Marking.{AreMarksOf};
ghost use Rattle.gl_edges.specs.Guards.{guard_cmp, guard_eq, guard_equiv, guard_ties, guard_total, ascending_guards, guards_of};

use crate::marks::Marks;
use gl_event::{HeldEntry, LockId, LockMode, Memory};
use smallvec::SmallVec;
use std::alloc::Global;
use std::cmp::Ordering;
use std::marker::Model;

// A set of up to so many guards needs no memory of its own.
const INLINE: usize = 2;

/// A lock that a thread holds, and in which mode. Guards are ordered by lock, and then by mode.
#[derive(Clone, Copy, Debug, PartialEq, Eq, PartialOrd, Ord, Default)]
pub struct Guard {
    pub lock: LockId,
    pub mode: LockMode,
}

/// A set of locks, each in a mode: those that a thread held as it acquired one more. Contracts see
/// the ascending list of them.
#[derive(Drop, Debug)]
pub struct Guards {
    // what most questions about two sets are answered by: in front, so that they lie near the edge's other fields
    marks: Marks,
    locks: SmallVec<Guard, INLINE>,
}

impl Model for Guards {
    ghost use Rattle.std.specs.Prelude.{List};
    ghost use Rattle.gl_edges.specs.bodies.Marking.{AreSetWith};
    ghost use Rattle.gl_edges.specs.declared.guards.Guard.{Guard};

    ghost Value = { List Guard };

    ghost view = { λ g. g.locks.items };

    ghost invariant = { λ g. AreSetWith g.marks g.locks.items };
}

impl Guards {
    /// The set of these, in whatever order they stand, and each of them once.
    pub fn new(locks: Vec<Guard>) -> Guards
        ensures { result ≡ ascending_guards locks.items }
    {
        let mut locks = locks;
        locks.sort_unstable();
        locks.dedup();
        let marks = Marks::of(&locks);
        Guards {
            locks: SmallVec::from_vec(locks),
            marks,
        }
    }

    /// The locks with their modes, ascending, as a list. Where there are more than two it takes no memory.
    pub fn into_vec(self) -> Result<Vec<Guard>, Memory>
        ensures locks { IfOk result (λ v. v.items ≡ self) }
        ensures room { 2 < length self → IsOk result }
    {
        let locks = self.locks.into_vec()?;
        Ok(locks)
    }

    /// No locks.
    pub(crate) fn empty(alloc: Global) -> Guards
        ensures { result ≡ [] }
    {
        Guards {
            locks: SmallVec::new(alloc),
            marks: Marks::none(),
        }
    }

    /// Becomes the set of these held locks. A set that had as many locks before takes no memory, nor do
    /// up to two locks.
    pub(crate) fn refill(&mut self, entries: &[HeldEntry]) -> Result<(), Memory>
        ensures guards { OnOk result (self.new ≡ guards_of entries.now) }
        ensures in_place { length entries.now ≤ 2 → IsOk result }
    {
        match fill(&mut self.locks, entries) {
            Ok(()) => {
                self.marks = Marks::of(self.locks.as_slice());
                Ok(())
            }
            Err(refused) => {
                self.locks.clear();
                self.marks = Marks::none();
                Err(refused)
            }
        }
    }

    /// The same locks once more, or that there is no memory for them. Up to two take none.
    pub(crate) fn copy(&self, alloc: Global) -> Result<Guards, Memory>
        ensures same { IfOk result (λ g. g ≡ self.now) }
        ensures in_place { length self.now ≤ 2 → IsOk result }
    {
        let locks = SmallVec::from_slice(alloc, self.locks.as_slice())?;
        let marks = self.marks;
        Ok(Guards { locks, marks })
    }

    /// The locks with their modes, ascending.
    pub fn as_slice(&self) -> &[Guard]
        ensures locks { result.now ≡ self.now }
        ensures ascending { IsStrictlySortedBy guard_cmp self.now }
    {
        self.locks.as_slice()
    }

    /// The marks of these locks.
    pub(crate) fn marks(&self) -> Marks
        ensures { AreMarksOf result self.now }
    {
        self.marks
    }
}

// The held locks as guards, each once, ascending.
fn fill(locks: &mut SmallVec<Guard, INLINE>, entries: &[HeldEntry]) -> Result<(), Memory>
    ensures ascending { OnOk result (IsStrictlySortedBy guard_cmp locks.new.items) }
    ensures guards { OnOk result (locks.new.items ≡ guards_of entries.now) }
    ensures in_place { length entries.now ≤ 2 → IsOk result }
{
    locks.clear();
    // Tells the proof that two locks fit without memory.
    let _ = locks.capacity();
    locks.reserve(entries.len())?;
    for entry in entries {
        locks.push_reserved(Guard {
            lock: entry.lock,
            mode: entry.mode,
        });
    }
    locks.sort_unstable();
    locks.dedup();
    Ok(())
}

impl PartialEq for Guards {
    ghost eq = { pointwise guard_eq };

    ghost laws = { partial_equiv_from_equiv (lists_equiv guard_equiv) };

    fn eq(&self, other: &Guards) -> bool {
        self.as_slice() == other.as_slice()
    }
}

impl Eq for Guards {
    ghost laws = { lists_equiv guard_equiv };
}

impl PartialOrd for Guards {
    ghost partial_cmp = { as_partial_cmp (slice_cmp guard_cmp) };

    ghost laws = { po (lists_total guard_total) (lists_ties guard_cmp guard_ties) };

    fn partial_cmp(&self, other: &Guards) -> Option<Ordering> {
        Some(self.cmp(other))
    }
}

impl Ord for Guards {
    ghost cmp = { slice_cmp guard_cmp };

    ghost total = { lists_total guard_total };

    ghost matches_partial_cmp = { λ a b. refl };

    ghost matches_eq = { lists_ties guard_cmp guard_ties };

    fn cmp(&self, other: &Guards) -> Ordering {
        self.as_slice().cmp(other.as_slice())
    }
}
