//! What an intake answers.
ghost use Rattle.std.specs.Prelude.{◌≡◌};
ghost use Rattle.gl_intake.specs.declared.notes.Refused.TheVariants.{Memory};

use gl_event::Refusal;
use std::alloc::AllocError;

/// A note that was accepted.
#[derive(Clone, Copy, Debug, PartialEq, Eq)]
pub enum Accepted {
    /// An event, at this place of its thread's list.
    Event { place: u32 },
    /// A thread's end mark, with this count.
    Ended { count: u32 },
}

/// Why a note was refused, in the order in which the reasons are tried.
#[derive(Clone, Copy, Debug, PartialEq, Eq)]
pub enum Refused {
    /// The note is of a thread whose number isn't below the limit of threads.
    Stranger,
    /// The thread has ended.
    Late,
    /// The note's place isn't how many events the thread has had.
    Misplaced { expected: u32, got: u32 },
    /// The end mark doesn't count the events that the thread has had.
    WrongCount { expected: u32, got: u32 },
    /// The event isn't lawful next in its thread's list.
    Unlawful(Refusal),
    /// There is no memory for the note.
    Memory,
}

impl From<AllocError> for Refused {
    ghost from_gives = { λ _ refused. refused ≡ Memory };

    fn from(_: AllocError) -> Refused {
        Refused::Memory
    }
}
