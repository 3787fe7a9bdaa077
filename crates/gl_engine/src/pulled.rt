//! What a pull answers.
ghost use Rattle.std.specs.Prelude.{◌≡◌};

use gl_intake::{Accepted, Refused};

/// What was pulled off a lane.
#[derive(Clone, Copy, Debug, PartialEq, Eq)]
pub enum Pulled {
    /// Nothing: no note is seen in the lane.
    Empty,
    /// An event, at this place of its thread's list.
    Event { place: u32 },
    /// The thread's end mark, with the number of its events.
    Ended { count: u32 },
}

/// Why nothing was pulled off a lane.
#[derive(Clone, Copy, Debug, PartialEq, Eq)]
pub enum PullFault {
    /// The note at the lane's front may not come next, for this reason. It stays there, and every
    /// later pull from the lane answers the same.
    Broken(Refused),
    /// There is no memory for the note. It stays in the lane.
    Memory,
}
