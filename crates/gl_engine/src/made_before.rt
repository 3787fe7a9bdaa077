//! The edges of notes that were collected, found once more.
ghost use Rattle.std.specs.Prelude.{◌≡◌, [], ◌∷◌, ◌++◌, IfOk, OnOk};
ghost use Rattle.gl_intake.specs.Stream.{AreInOrder, IsNext};
ghost use Rattle.gl_engine.specs.bodies.Sparing.{IsMadeOf};

use crate::lane_input::accept_with_edges;
use crate::making::Making;
use gl_event::{Limits, Memory, Note};
use gl_intake::Intake;
use std::alloc::{AllocError, Global};

// Takes a note once more, which is the next one of its thread, and adds its edges to those made. Err where
// memory was refused: nothing else can stand against it.
fn take_again(
    alloc: Global,
    intake: &mut Intake,
    making: &mut Making,
    note: &Note,
) -> Result<(), Memory>
    requires next { IsNext intake.old.limits intake.old.stream note.now }
    requires made { IsMadeOf intake.old.stream making.old }
    ensures made { OnOk result (IsMadeOf intake.new.stream making.new) }
    ensures spares { making.new.spares ≡ making.old.spares }
    ensures stream { OnOk result (intake.new.stream ≡ intake.old.stream ++ note.now ∷ []) }
    ensures limits { intake.new.limits ≡ intake.old.limits }
{
    match accept_with_edges(alloc, intake, making, note) {
        Ok(_) => Ok(()),
        Err(_) => Err(AllocError),
    }
}

/// The edges that these notes make, in their order, but for repeats, where these are spared. Each note is its
/// thread's next one after those before it.
///
/// Err where memory was refused.
pub fn made_by_notes(
    alloc: Global,
    limits: &Limits,
    spares: bool,
    notes: &[Note],
) -> Result<Making, Memory>
    requires in_order { AreInOrder limits.now notes.now }
    ensures made { IfOk result (λ making. IsMadeOf notes.now making) }
    ensures spares { IfOk result (λ making. making.spares ≡ spares) }
{
    let mut making = Making::new(alloc, limits.threads(), spares)?;
    if notes.is_empty() {
        return Ok(making);
    }
    let mut intake = Intake::new(alloc, limits)?;
    for note in notes {
        take_again(alloc, &mut intake, &mut making, note)?;
    }
    Ok(making)
}
