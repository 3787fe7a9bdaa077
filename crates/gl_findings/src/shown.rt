//! The cycle by which a finding is shown.
ghost use Rattle.std.specs.Prelude.{◌≡◌, ◌<◌, ◌≤◌, [], ◌∷◌, ◌++◌, false, length, IfErr, IfOk, OnOk, MatchOption};
ghost use Rattle.std.specs.Option.{option_map};
ghost use Rattle.gl_segments.specs.Clocks.{is_before};
ghost use Rattle.gl_filters.specs.Picked.{edges_of_table};
ghost use Rattle.gl_filters.specs.declared.steps.Stop.TheVariants.{Memory};
ghost use Rattle.gl_cycles.specs.Cycles.{cycles_in};
ghost use Rattle.gl_sought.specs.OffCycles.{KeepsCycles};
ghost use Rattle.gl_filters.specs.declared.lengths.TheConstants.{LONGEST};
ghost use Rattle.gl_grounds.specs.Classes.{classes_of};
ghost use Rattle.gl_findings.specs.Findings.{first_with};
ghost use Rattle.gl_findings.specs.bodies.Lesser.{lesser};

use crate::turns::turned;
use gl_event::Memory;
use gl_filters::Stop;
use gl_walks::{Purpose, Walker};
use std::alloc::Global;

// Of two cycles the first one, where there are any.
fn lesser(one: Option<Vec<usize>>, other: Option<Vec<usize>>) -> Option<Vec<usize>>
    ensures { option_map (λ cycle. cycle.items) result
        ≡ lesser (option_map (λ cycle. cycle.items) one)
        (option_map (λ cycle. cycle.items) other) }
{
    match (one, other) {
        (None, other) => other,
        (Some(a), None) => Some(a),
        (Some(a), Some(b)) => {
            if a.as_slice().cmp(b.as_slice()).is_le() {
                Some(a)
            } else {
                Some(b)
            }
        }
    }
}

/// The first cycle of a signature, of at most so many edges. Spent where the walker is bound to the steps and
/// they don't suffice.
pub(crate) fn first_with(
    alloc: Global,
    walker: &Walker<'_>,
    len: usize,
    signature: &[usize],
    steps: &mut usize,
) -> Result<Option<Vec<usize>>, Stop>
    requires classes { walker.now.ground.classes.now ≡ classes_of walker.now.ground.table.now }
    requires kept { KeepsCycles (is_before walker.now.ground.order.now) walker.now.ground.mode len
        (edges_of_table walker.now.ground.table.now) walker.now.ground.flags.now }
    requires some { 0 < length signature.now }
    requires short { length signature.now ≤ len }
    requires fits { len ≤ LONGEST }
    ensures found { IfOk result
        (λ found. MatchOption found
        (first_with (is_before walker.now.ground.order.now) walker.now.ground.mode len
        walker.now.ground.table.now signature.now ≡ [])
        (λ cycle. first_with (is_before walker.now.ground.order.now) walker.now.ground.mode len
        walker.now.ground.table.now signature.now ≡ cycle.items ∷ [])) }
    ensures stopped { IfErr result (λ stop. walker.now.is_bound ≡ false → stop ≡ Memory) }
{
    let mut first = None;
    for k in 0..signature.len() {
        let walk = walker.first(
            alloc,
            Purpose::Cycle,
            turned(signature, k).as_slice(),
            steps,
        )?;
        first = lesser(first, walk);
    }
    Ok(first)
}

/// Adds the cycle that shows a finding.
pub(crate) fn keep(found: &mut Vec<Vec<usize>>, cycle: Vec<usize>) -> Result<(), Memory>
    ensures { OnOk result
        (cycles_in found.new.items
        ≡ cycles_in found.old.items ++ cycle.items ∷ []) }
{
    found.push(cycle)?;
    Ok(())
}
