//! The search for components of the lock-order graph, and for exclusions that have all edges of one.
//!
//! Of the edges of a component one exclusion after the other is taken away, each time one of the first edge's that has most of those left:
//! first among chains of threads and locks that are held around edges, and where these are many, among the locks that edges hold and
//! want as well. Nothing of this is proved, and nothing relies on it but for speed: components and exclusions are checked. So a number
//! that is out of range, which none is, is passed over.
use crate::limits::Covered;
use gl_event::Memory;
use gl_exclusions::{Exclusion, Turn, widest_of, without};
use gl_sought::{Ends, Sought, labels_of};
use std::alloc::Global;

// So few exclusions of chains and guards are enough: those of locks that edges hold and want are seldom fewer.
const FEW: usize = 2;

/// The components of the edges that are kept, between so many locks, and for each exclusions that have its edges, if fewer than a cycle
/// may have edges are soon found.
pub(crate) fn covered_by(
    alloc: Global,
    sought: &Sought<'_>,
    turns: &[Turn],
    ends: &[Ends],
    locks: usize,
    kept: &[bool],
) -> Result<Covered, Memory> {
    let labels = labels_of(alloc, ends, locks, kept)?;
    let places = places_by_component(alloc, &labels, ends, kept)?;
    let mut exclusions = Vec::with_capacity(alloc, places.len())?;
    for places in places.iter() {
        exclusions.push(exclusions_of(alloc, sought, turns, places)?)?;
    }
    Ok(Covered { labels, exclusions })
}

// The places of the edges inside each component that are kept.
fn places_by_component(
    alloc: Global,
    labels: &[usize],
    ends: &[Ends],
    kept: &[bool],
) -> Result<Vec<Vec<usize>>, Memory> {
    let mut by_component: Vec<Vec<usize>> = Vec::with_capacity(alloc, labels.len())?;
    for _component in 0..labels.len() {
        by_component.push(Vec::new(alloc))?;
    }
    for (place, (ends, &is_kept)) in ends.iter().zip(kept).enumerate() {
        let component = component_of(labels, ends);
        if let Some(places) = component.and_then(|number: usize| by_component.get_mut(number)) {
            if is_kept {
                places.push(place)?;
            }
        }
    }
    Ok(by_component)
}

// The component in which both locks of an edge lie, if it is one.
fn component_of(labels: &[usize], ends: &Ends) -> Option<usize> {
    let held = labels.get(ends.held)?;
    let wanted = labels.get(ends.wanted)?;
    if held == wanted { Some(*held) } else { None }
}

// Exclusions that have the edges at these places, fewer than a cycle may have edges, or none.
fn exclusions_of(
    alloc: Global,
    sought: &Sought<'_>,
    turns: &[Turn],
    places: &[usize],
) -> Result<Vec<Exclusion>, Memory> {
    let found = taken_away(alloc, sought, turns, places, false)?;
    if !found.is_empty() && found.len() <= FEW {
        return Ok(found);
    }
    let other = taken_away(alloc, sought, turns, places, true)?;
    if other.is_empty() || (!found.is_empty() && found.len() <= other.len()) {
        return Ok(found);
    }
    Ok(other)
}

// The same, with locks that edges hold or want among them or not.
fn taken_away(
    alloc: Global,
    sought: &Sought<'_>,
    turns: &[Turn],
    places: &[usize],
    has_locks: bool,
) -> Result<Vec<Exclusion>, Memory> {
    let mut left = Vec::from_slice(alloc, places)?;
    let mut found = Vec::new(alloc);
    for _ in 1..sought.len {
        let Some(exclusion) = widest_of(sought, turns, &left, has_locks) else {
            return Ok(found);
        };
        left = without(sought, alloc, turns, &exclusion, &left)?;
        found.push(exclusion)?;
    }
    if left.is_empty() {
        return Ok(found);
    }
    Ok(Vec::new(alloc))
}

/// Forgets the chains that are named nowhere among these exclusions, so that nobody looks whether their threads take turns.
pub(crate) fn forget_unnamed(
    alloc: Global,
    turns: &mut Vec<Turn>,
    covered: &Covered,
) -> Result<(), Memory> {
    let mut is_named = vec![in alloc; false; turns.len()]?;
    for exclusions in covered.exclusions.iter() {
        name_chains(exclusions, &mut is_named);
    }
    for turn in turns.iter_mut() {
        if let Some(chain) = turn.chain {
            if is_named.get(chain) == Some(&false) {
                turn.chain = None;
            }
        }
    }
    Ok(())
}

// Sets the flags of the chains that are named among these exclusions.
fn name_chains(exclusions: &[Exclusion], is_named: &mut Vec<bool>) {
    for exclusion in exclusions {
        if let Exclusion::InTurn(chain) = *exclusion {
            if let Some(flag) = is_named.get_mut(chain) {
                *flag = true;
            }
        }
    }
}
