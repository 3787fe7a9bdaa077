//! Classes with which signatures of cycles may begin.
ghost use Rattle.std.specs.Prelude.{◌≡◌, ◌<◌, ◌∷◌, [], ℕ, length, All, IfOk};
ghost use Rattle.std.specs.List.{flat_map};
ghost use Rattle.gl_findings.specs.bodies.Finding.{IsReady, block_of, below_of};

use crate::finder::Finder;
use gl_event::Memory;
use std::alloc::Global;

/// The classes that have a model, in ascending order.
pub(crate) fn roots_of(alloc: Global, finder: &Finder<'_>) -> Result<Vec<usize>, Memory>
    requires { IsReady finder.now }
    ensures within { IfOk result
        (λ roots. All (λ class. class < length finder.now.table.now) roots.items) }
    ensures all { IfOk result
        (λ roots. (n : ℕ)
        → flat_map (λ class. block_of finder.now n (class ∷ [])) roots.items
        ≡ below_of finder.now n [] (length finder.now.table.now)) }
{
    let mut roots = Vec::new(alloc);
    let mut next = finder.next[0];
    while next < finder.table.len() {
        roots.push(next)?;
        next = finder.next[next + 1];
    }
    Ok(roots)
}
