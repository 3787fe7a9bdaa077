//! Cycles that were found apart, put together.
ghost use Rattle.std.specs.Prelude.{◌≡◌, ◌≤◌, ◌++◌, ◌∷◌, [], length, take, OnOk};
ghost use Rattle.std.specs.List.{flat_map};
ghost use Rattle.gl_cycles.specs.Cycles.{cycles_in};

use gl_event::Memory;
use std::alloc::Global;

// Adds a cycle, if that are not more than the cap.
fn add_cycle(
    alloc: Global,
    found: &mut Vec<Vec<usize>>,
    cycle: &[usize],
    cap: usize,
) -> Result<(), Memory>
    requires { length found.old.items ≤ cap }
    ensures { OnOk result
        (cycles_in found.new.items
        ≡ take cap (cycles_in found.old.items ++ cycle.now ∷ [])) }
{
    if found.len() >= cap {
        return Ok(());
    }
    let cycle = Vec::from_slice(alloc, cycle)?;
    found.push(cycle)?;
    Ok(())
}

/// Adds the cycles of a piece, up to the cap.
pub(crate) fn add_cycles(
    alloc: Global,
    found: &mut Vec<Vec<usize>>,
    piece: &[Vec<usize>],
    cap: usize,
) -> Result<(), Memory>
    requires { length found.old.items ≤ cap }
    ensures { OnOk result
        (cycles_in found.new.items
        ≡ take cap
        (cycles_in found.old.items ++ cycles_in piece.now)) }
{
    for i in 0..piece.len() {
        add_cycle(alloc, found, &piece[i], cap)?;
    }
    Ok(())
}

/// Adds the cycles of the pieces, one piece after the other, up to the cap.
pub(crate) fn add_pieces(
    alloc: Global,
    found: &mut Vec<Vec<usize>>,
    pieces: &[Vec<Vec<usize>>],
    cap: usize,
) -> Result<(), Memory>
    requires { length found.old.items ≤ cap }
    ensures { OnOk result
        (cycles_in found.new.items
        ≡ take cap
        (cycles_in found.old.items ++ flat_map
        (λ piece. cycles_in piece.items) pieces.now)) }
{
    for i in 0..pieces.len() {
        add_cycles(alloc, found, &pieces[i], cap)?;
    }
    Ok(())
}
