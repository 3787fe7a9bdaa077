//! The steps of a search.
ghost use Rattle.std.specs.Prelude.{◌≡◌, ◌-◌, ◌&&◌, ◌==◌, false, IfErr, Ok, Err, if◌then◌else◌};
ghost use Rattle.gl_filters.specs.declared.steps.Stop.TheVariants.{Memory, Spent};

use std::alloc::AllocError;

/// Why a search that may be bound to some steps ended before it was through.
#[derive(Clone, Copy, Debug, PartialEq, Eq)]
pub enum Stop {
    /// It had taken as many steps as it may.
    Spent,
    /// Memory was refused.
    Memory,
}

impl From<AllocError> for Stop {
    ghost use Rattle.gl_filters.specs.declared.steps.Stop.TheVariants.{Memory};

    ghost from_gives = { λ _ e. e ≡ Memory };

    fn from(_: AllocError) -> Stop {
        Stop::Memory
    }
}

/// Spends one of the steps. Err where none is left and the search is bound to them.
pub fn spend_step(is_bound: bool, steps: &mut usize) -> Result<(), Stop>
    ensures left { steps.new ≡ steps.old - 1 }
    ensures spent { result ≡ (if is_bound && (steps.old == 0) then Err Spent else Ok tt) }
    ensures stopped { IfErr result (λ stop. is_bound ≡ false → stop ≡ Memory) }
{
    if *steps > 0 {
        *steps -= 1;
        return Ok(());
    }
    if is_bound {
        return Err(Stop::Spent);
    }
    Ok(())
}
