//! Gaps of rounds that no cycle closes.
//!
//! What is left of a round is a gap, from the lock that its last edge wants to the one that its first
//! edge holds. Whether models among some others may close it doesn't depend on how the round came so
//! far. So where it was once found that they don't, that is remembered.
//!
//! What is found by its fingerprint is compared, so nothing is proved of fingerprints.
ghost use Rattle.std.specs.Prelude.{◌≡◌, ◌-◌, ◌⊎◌, ℕ, Some, slice_get, IsTrue, IfOk, OnOk};
ghost use Rattle.gl_kinds.specs.bodies.Gaps.{gap_of, gap_closes, gap_leads, gap_behind, IsKnown};

use crate::prints::mixed;
use gl_edges::Edge;
use gl_event::{LockId, LockMode, Memory};
use gl_filters::waits_for;
use std::alloc::Global;
use std::collections::HashMap;

/// How much is remembered for one grain: of each gap its models take one, and the gap itself [`GAP_ROOM`].
pub(crate) const ROOM: usize = 2_000_000;

// What a gap takes of the room beside its models, since it has fields and a place in the map.
const GAP_ROOM: usize = 8;

/// What is missing of a round: a way from one lock back to another.
#[derive(Clone, Copy, Drop)]
pub(crate) struct Gap {
    // the lock that the last edge wants, and in which mode
    pub(crate) wanted: LockId,
    pub(crate) wanted_mode: LockMode,
    // the lock that the first edge holds, and in which mode
    pub(crate) held: LockId,
    pub(crate) held_mode: LockMode,
    // how many edges may come between them
    pub(crate) left: usize,
}

impl Gap {
    /// What is missing behind this edge alone, of a cycle of so many edges at most.
    pub(crate) fn of(edge: &Edge, len: usize) -> Gap
        ensures { result ≡ gap_of edge.now len }
    {
        Gap {
            wanted: edge.wanted,
            wanted_mode: edge.wanted_mode,
            held: edge.held,
            held_mode: edge.held_mode,
            left: len.saturating_sub(1),
        }
    }

    /// Whether the last edge leads back to the first.
    pub(crate) fn is_closed(&self) -> bool
        ensures { result ≡ gap_closes self.now }
    {
        waits_for(self.wanted, self.wanted_mode, self.held, self.held_mode)
    }

    /// Whether the last edge leads on to this one.
    pub(crate) fn leads_to(&self, edge: &Edge) -> bool
        ensures { result ≡ gap_leads self.now edge.now }
    {
        waits_for(self.wanted, self.wanted_mode, edge.held, edge.held_mode)
    }

    /// What is missing behind this edge.
    pub(crate) fn behind(&self, edge: &Edge) -> Gap
        ensures { result ≡ gap_behind self.now edge.now }
    {
        Gap {
            wanted: edge.wanted,
            wanted_mode: edge.wanted_mode,
            held: self.held,
            held_mode: self.held_mode,
            left: self.left.saturating_sub(1),
        }
    }

    // Whether both gaps are the same.
    fn is_same(&self, other: &Gap) -> bool
        ensures { IsTrue result → self.now ≡ other.now }
    {
        if self.wanted != other.wanted {
            return false;
        }
        if self.wanted_mode != other.wanted_mode {
            return false;
        }
        if self.held != other.held {
            return false;
        }
        if self.held_mode != other.held_mode {
            return false;
        }
        self.left == other.left
    }
}

/// A gap, and models by which no cycle closes it.
#[derive(Drop)]
pub(crate) struct DeadEnd {
    pub(crate) gap: Gap,
    pub(crate) rest: Vec<usize>,
}

impl DeadEnd {
    // A copy of the gap and the models.
    fn of(alloc: Global, gap: &Gap, rest: &[usize]) -> Result<DeadEnd, Memory>
        ensures gap { IfOk result (λ end. end.gap ≡ gap.now) }
        ensures rest { IfOk result (λ end. end.rest.items ≡ rest.now) }
    {
        let rest = Vec::from_slice(alloc, rest)?;
        Ok(DeadEnd { gap: *gap, rest })
    }
}

/// Gaps with models by which no cycle closes them.
#[derive(Drop)]
pub(crate) struct DeadEnds {
    pub(crate) known: Vec<DeadEnd>,
    // where those with a fingerprint stand
    by_print: HashMap<u64, usize>,
    // how much may still be remembered
    room: usize,
}

impl DeadEnds {
    /// None, and so much room.
    pub(crate) fn none(alloc: Global, room: usize) -> DeadEnds
        ensures { (i : ℕ) (end : DeadEnd) → ¬ (slice_get result.known.items i ≡ Some end) }
    {
        DeadEnds {
            known: Vec::new(alloc),
            by_print: HashMap::new(alloc),
            room,
        }
    }

    /// Whether it is remembered that no cycle closes the gap by these models.
    pub(crate) fn has(&self, gap: &Gap, rest: &[usize]) -> bool
        ensures { IsTrue result → IsKnown self.now.known.items gap.now rest.now }
    {
        let print = print_of(gap, rest);
        let Some(&place) = self.by_print.get(&print) else {
            return false;
        };
        if place >= self.known.len() {
            return false;
        }
        if !self.known[place].gap.is_same(gap) {
            return false;
        }
        self.known[place].rest.as_slice() == rest
    }

    /// Remembers that no cycle closes the gap by these models, as long as there is room.
    pub(crate) fn add(&mut self, alloc: Global, gap: &Gap, rest: &[usize]) -> Result<(), Memory>
        ensures { OnOk result
            ((i : ℕ) (end : DeadEnd) → slice_get self.new.known.items i ≡ Some end
            → (slice_get self.old.known.items i ≡ Some end)
            ⊎ ((end.gap ≡ gap.now) × (end.rest.items ≡ rest.now))) }
    {
        let size = GAP_ROOM + rest.len();
        if self.room < size {
            return Ok(());
        }
        self.room -= size;
        let place = self.known.len();
        self.by_print.insert(print_of(gap, rest), place)?;
        let end = DeadEnd::of(alloc, gap, rest)?;
        self.known.push(end)?;
        Ok(())
    }
}

// A number that is the same for the same gap and models, and hardly ever for others.
fn print_of(gap: &Gap, rest: &[usize]) -> u64 {
    let mut print = mixed(u64::from(gap.wanted.number()), u64::from(gap.held.number()));
    print = mixed(
        print,
        (gap.left as u64) << 1 | u64::from(gap.wanted_mode == LockMode::Shared),
    );
    for &position in rest {
        print = mixed(print, position as u64);
    }
    print
}
