//! Models of edges: of those that are alike the first.
//!
//! Nothing of this is proved, and nothing relies on it but for speed: that an edge and its model are
//! alike is checked. So guards may be compared by a fingerprint.
use crate::grains::Grain;
use crate::prints::mixed;
use gl_edges::{Edge, Guards, Sample};
use gl_event::{LockId, LockMode, Memory};
use std::alloc::Global;

// What is looked at of an edge, and its position.
#[derive(Clone, Copy, PartialEq, Eq, PartialOrd, Ord)]
struct Kind {
    held: LockId,
    held_mode: LockMode,
    wanted: LockId,
    wanted_mode: LockMode,
    guards: u64,
    thread: u32,
    position: usize,
}

impl Kind {
    // The kind of the edge at a position, and its thread where that tells edges apart.
    fn of(edge: &Edge, position: usize, grain: Grain) -> Kind {
        let thread = match grain {
            Grain::ByKind => 0,
            _ => edge.thread.number(),
        };
        Kind {
            held: edge.held,
            held_mode: edge.held_mode,
            wanted: edge.wanted,
            wanted_mode: edge.wanted_mode,
            guards: fingerprint(&edge.guards),
            thread,
            position,
        }
    }

    // Whether both are of one kind.
    fn is_alike(&self, other: &Kind) -> bool {
        self.held == other.held
            && self.held_mode == other.held_mode
            && self.wanted == other.wanted
            && self.wanted_mode == other.wanted_mode
            && self.guards == other.guards
            && self.thread == other.thread
    }
}

// A number that is the same for the same guards, and hardly ever for others.
fn fingerprint(guards: &Guards) -> u64 {
    let mut print: u64 = 0;
    for guard in guards.as_slice() {
        let is_shared = guard.mode == LockMode::Shared;
        let number = (u64::from(guard.lock.number()) << 1) | u64::from(is_shared);
        print = mixed(print, number);
    }
    print
}

// The kinds of the edges that are kept, each behind those that are less.
fn kinds_of(
    alloc: Global,
    table: &[(Edge, Sample)],
    kept: &[bool],
    grain: Grain,
) -> Result<Vec<Kind>, Memory> {
    let mut kinds = Vec::new(alloc);
    for (position, ((edge, _), &is_kept)) in table.iter().zip(kept).enumerate() {
        if is_kept {
            kinds.push(Kind::of(edge, position, grain))?;
        }
    }
    kinds.sort_unstable();
    Ok(kinds)
}

/// For each edge that is kept the position of the first one that is alike. Sorts them. Where no two
/// are alike the answer is empty.
pub(crate) fn models_of(
    alloc: Global,
    table: &[(Edge, Sample)],
    kept: &[bool],
    grain: Grain,
) -> Result<Vec<usize>, Memory> {
    if let Grain::BySegment = grain {
        return Ok(Vec::new(alloc));
    }
    let kinds = kinds_of(alloc, table, kept, grain)?;
    let mut model_of_each = vec![in alloc; 0; table.len()]?;
    put_each(&mut model_of_each, &kinds);
    Ok(model_of_each)
}

// Puts down the model of the edge of each of these kinds, of which those that are alike follow one another.
fn put_each(model_of_each: &mut Vec<usize>, kinds: &[Kind]) {
    let mut first = 0;
    for i in 0..kinds.len() {
        if !are_alike(kinds, first, i) {
            first = i;
        }
        put(model_of_each, kinds, first, i);
    }
}

// Whether the kinds at these places are one.
fn are_alike(kinds: &[Kind], a: usize, b: usize) -> bool {
    match (kinds.get(a), kinds.get(b)) {
        (Some(a), Some(b)) => a.is_alike(b),
        _ => false,
    }
}

// Puts down that the edge of the first of these kinds is the model of the other one's.
fn put(model_of_each: &mut Vec<usize>, kinds: &[Kind], first: usize, i: usize) {
    let (Some(&model), Some(&kind)) = (kinds.get(first), kinds.get(i)) else {
        return;
    };
    let position = kind.position;
    if let Some(place) = model_of_each.get_mut(position) {
        *place = model.position;
    }
}
