//! Why a sweep doesn't come to its end.
ghost use Rattle.std.specs.Prelude.{◌≡◌};

use std::alloc::{AllocError, AllocFailed};

/// Why a sweep doesn't come to its end.
#[derive(Drop, Debug)]
pub enum Halt {
    /// Segments wait for each other.
    Stuck,
    /// A growth was refused.
    Memory,
}

impl From<AllocError> for Halt {
    ghost use Rattle.gl_segments.specs.declared.halts.Halt.TheVariants.{Memory};

    ghost from_gives = { λ _ e. e ≡ Memory };

    fn from(_e: AllocError) -> Halt {
        Halt::Memory
    }
}

impl<T: Drop> From<AllocFailed<T>> for Halt {
    ghost use Rattle.gl_segments.specs.declared.halts.Halt.TheVariants.{Memory};

    ghost from_gives = { λ _ e. e ≡ Memory };

    fn from(_e: AllocFailed<T>) -> Halt {
        Halt::Memory
    }
}
