//! What is seen at once of two guard sets: mostly whether they clash.
ghost use Rattle.std.specs.Prelude.{◌≡◌, ◌≢◌, ◌<◌, ℕ, List, [], ◌∷◌, ◌++◌, true, false, IsTrue};
ghost use Rattle.std.specs.Int.{bit_at};
ghost use Rattle.gl_edges.specs.Clashes.{guards_clash};
ghost use Rattle.gl_edges.specs.bodies.Marking.{AreMarksOf};
ghost use Rattle.gl_edges.specs.declared.guards.Guard.{Guard};

use crate::guards::Guard;
use gl_event::LockMode;

// How many locks have a mark of their own.
const PLACES: u32 = 64;

/// Marks of the locks of a guard set, one bit for each of 64 places.
///
/// Sets without a place in common have no lock in common. Sets that both have a lock of the first 64
/// exclusively clash.
#[derive(Clone, Copy, Debug)]
pub(crate) struct Marks {
    // the place of each lock: its number, counted round
    places: u64,
    // of the locks with the first numbers those that are held exclusively
    owned: u64,
}

impl Marks {
    /// Those of no guards.
    pub(crate) fn none() -> Marks
        ensures { AreMarksOf result [] }
    {
        Marks {
            places: 0,
            owned: 0,
        }
    }

    /// Those of these guards.
    pub(crate) fn of(guards: &[Guard]) -> Marks
        ensures { AreMarksOf result guards.now }
    {
        let mut marks = Marks::none();
        for guard in guards {
            marks.add(guard);
        }
        marks
    }

    // Marks one more guard.
    fn add(&mut self, guard: &Guard)
        ensures { (guards : List Guard) → AreMarksOf self.old guards
            → AreMarksOf self.new (guards ++ guard.now ∷ []) }
    {
        let number = guard.lock.number();
        self.places = with_bit(self.places, number % PLACES);
        if number >= PLACES {
            return;
        }
        match guard.mode {
            LockMode::Exclusive => self.owned = with_bit(self.owned, number),
            LockMode::Shared => {}
        }
    }

    /// Whether it is seen that sets with these marks have no lock in common.
    pub(crate) fn are_apart(self, others: Marks) -> bool
        ensures { IsTrue result → (gs hs : List Guard) → AreMarksOf self gs
            → AreMarksOf others hs → guards_clash gs hs ≡ false }
    {
        self.places & others.places == 0
    }

    /// Whether it is seen that sets with these marks clash.
    pub(crate) fn do_clash(self, others: Marks) -> bool
        ensures { IsTrue result → (gs hs : List Guard) → AreMarksOf self gs
            → AreMarksOf others hs → guards_clash gs hs ≡ true }
    {
        self.owned & others.owned != 0
    }
}

// The same bits, and the one at this place.
fn with_bit(bits: u64, place: u32) -> u64
    requires { place < 64 }
    ensures set { bit_at result place ≡ 1 }
    ensures same { (i : ℕ) → i ≢ place → bit_at result i ≡ bit_at bits i }
{
    bits | 1 << place
}
