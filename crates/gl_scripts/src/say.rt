//! The lines that scripts print.
ghost use Rattle.std.specs.Prelude.{◌≡◌};

use std::alloc::AllocError;
use std::fmt::Debug;

/// Why a script ended before its last call.
#[derive(Clone, Copy, Debug, PartialEq, Eq)]
pub(crate) enum Stop {
    /// A call found no memory twice.
    Memory,
    /// An answer was one with which the script can't go on.
    Astray,
    /// There is no such script.
    Unknown,
}

impl From<AllocError> for Stop {
    ghost use Rattle.gl_scripts.specs.declared.say.Stop.TheVariants.{Memory};

    ghost from_gives = { λ _ e. e ≡ Memory };

    fn from(_: AllocError) -> Stop {
        Stop::Memory
    }
}

/// Prints a call's answer.
pub(crate) fn say(rt: &HostRuntime, call: &str, answer: &impl Debug) {
    let _ = println!(rt; "{call}: {answer:?}");
}

/// Prints that there was no memory for a call, and what it left as it was.
pub(crate) fn refused(rt: &HostRuntime, call: &str, left: &impl Debug) {
    let _ = println!(rt; "{call}: memory");
    let _ = println!(rt; "  {left:?}");
}
