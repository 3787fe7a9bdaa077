//! How many edges a cycle can have, by the class of one of them.
//!
//! Of each edge it is known how long a cycle with it is at most, by the component of the lock-order graph that it lies in. A class has
//! the greatest number of its edges: a signature that has its class is no longer.
ghost use Rattle.std.specs.Prelude.{◌≡◌, ◌<◌, ℕ, length, slice_get, IfOk, IsTrue};
ghost use Rattle.gl_findings.specs.bodies.Lengths.{AreGreatest, IsAtMost, IsFull};

use gl_event::Memory;
use std::alloc::Global;

/// For each class the greatest number of its edges.
pub(crate) fn longest_of(
    alloc: Global,
    classes: &[usize],
    limits: &[usize],
) -> Result<Vec<usize>, Memory>
    requires { length classes.now ≡ length limits.now }
    ensures { IfOk result
        (λ longest. AreGreatest classes.now limits.now longest.items) }
{
    let mut longest = vec![in alloc; 0; limits.len()]?;
    for i in 0..limits.len() {
        raise(&mut longest, classes[i], limits[i]);
    }
    Ok(longest)
}

/// Whether a signature has as many classes as a cycle with an edge of its first one has edges at most, by the
/// greatest numbers of classes, if they are known. Then none goes on from it.
pub(crate) fn is_full(longest: &[usize], signature: &[usize]) -> bool
    requires { 0 < length signature.now }
    ensures { IsTrue result → IsFull longest.now signature.now }
{
    match longest.get(signature[0]) {
        Some(&most) => signature.len() >= most,
        None => false,
    }
}

// Gives a class the number of an edge, if that is greater.
fn raise(longest: &mut Vec<usize>, class: usize, limit: usize)
    ensures here { IsAtMost limit (slice_get longest.new.items class) }
    ensures stay { (other least : ℕ) → IsAtMost least (slice_get longest.old.items other)
        → IsAtMost least (slice_get longest.new.items other) }
{
    if class >= longest.len() {
        return;
    }
    longest[class] = longest[class].max(limit);
}
