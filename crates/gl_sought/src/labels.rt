//! The components of the lock-order graph, by labels of locks.
//!
//! All edges of a cycle lie in one component. Which these are is not proved; it is checked that no edge leads back from one to an earlier
//! one, which is all that it takes: round a cycle the label stays the same.
ghost use Rattle.std.specs.Prelude.{◌≡◌, length, IsTrue};
ghost use Rattle.gl_sought.specs.Components.{NoneGoesBack};
ghost use Rattle.gl_sought.specs.Walks.{label_at};

use crate::components::{Step, components_of};
use crate::numbers::Ends;
use gl_event::Memory;
use std::alloc::Global;

/// The label of a lock, by its number; 0 where it has none.
pub fn label(labels: &[usize], number: usize) -> usize
    ensures { result ≡ label_at labels.now number }
{
    labels.get(number).copied().unwrap_or(0)
}

/// For each lock, by its number, the number of its component, among the edges that are kept. Err where memory was
/// refused.
pub fn labels_of(
    alloc: Global,
    ends: &[Ends],
    locks: usize,
    kept: &[bool],
) -> Result<Vec<usize>, Memory> {
    let mut steps = Vec::new(alloc);
    for (ends, &is_kept) in ends.iter().zip(kept) {
        let step = Step {
            from: ends.held,
            to: ends.wanted,
        };
        if is_kept && steps.last() != Some(&step) {
            steps.push(step)?;
        }
    }
    let mut labels = Vec::with_capacity(alloc, locks)?;
    for label in components_of(alloc, locks, &steps)?.iter() {
        labels.push(label.unwrap_or(0))?;
    }
    Ok(labels)
}

/// Whether along no edge that is kept the label falls: no cycle of these then leads from one label to another.
pub fn none_goes_back(labels: &[usize], ends: &[Ends], kept: &[bool]) -> bool
    requires { length kept.now ≡ length ends.now }
    ensures { IsTrue result → NoneGoesBack labels.now ends.now kept.now }
{
    for i in 0..ends.len() {
        if kept[i] && label(labels, ends[i].held) > label(labels, ends[i].wanted) {
            return false;
        }
    }
    true
}
