//! Classes of edges: those made at the same pair of places are one.
ghost use Rattle.std.specs.Prelude.{◌≡◌, ◌≢◌, ◌+◌, ◌<◌, ℕ, cond, List, [], Some, true, length, take, slice_get, IfOk, OnErr, OnOk};
ghost use Rattle.std.specs.HashMap.{get};
ghost use Rattle.gl_edges.specs.declared.edge.Edge.{Edge};
ghost use Rattle.gl_edges.specs.declared.edge.Sample.{Sample};
ghost use Rattle.gl_grounds.specs.Classes.{class_of, classes_of, are_places, places_of};
ghost use Rattle.gl_grounds.specs.bodies.Classing.{AreFirsts, AreFlaggedBefore, AreNextFrom};
ghost use Rattle.gl_grounds.specs.Models.{IsNextClass};

use gl_edges::{Edge, Sample};
use gl_event::{LocId, Memory};
use std::alloc::Global;
use std::collections::HashMap;

/// The class of each edge: the position of the first edge that was made at the same pair of places. Two look-ups
/// for each.
///
/// Err where memory was refused, and never where there is no edge.
pub fn classes_of(alloc: Global, table: &[(Edge, Sample)]) -> Result<Vec<usize>, Memory>
    ensures classes { IfOk result (λ classes. classes.items ≡ classes_of table.now) }
    ensures memory { OnErr result (table.now ≢ []) }
{
    let mut first = HashMap::new(alloc);
    let mut classes = Vec::new(alloc);
    classes.reserve(table.len())?;
    for i in 0..table.len() {
        let sample = &table[i].1;
        let class = class_at(&mut first, (sample.held_loc, sample.wanted_loc), i)?;
        classes.push(class)?;
    }
    Ok(classes)
}

// The class of the edge at a position, which was made at these places: the first position that is
// known for them, or else its own, which then is.
fn class_at(
    first: &mut HashMap<(LocId, LocId), usize>,
    places: (LocId, LocId),
    i: usize,
) -> Result<usize, Memory>
    ensures class { (table : List (Edge × Sample)) (pair : Edge × Sample)
        → AreFirsts (take i table) (get are_places first.old) → slice_get table i ≡ Some pair
        → places_of pair ≡ places → IfOk result (λ class. class ≡ class_of table pair) }
    ensures firsts { (table : List (Edge × Sample)) (pair : Edge × Sample)
        → AreFirsts (take i table) (get are_places first.old) → slice_get table i ≡ Some pair
        → places_of pair ≡ places
        → OnOk result (AreFirsts (take (i + 1) table) (get are_places first.new)) }
{
    match first.get(&places).copied() {
        Some(class) => Ok(class),
        None => {
            first.insert(places, i)?;
            Ok(i)
        }
    }
}

/// For each class from 0 to as many as there are edges the next one, at it or after, of which an edge is
/// flagged.
pub(crate) fn next_classes(
    alloc: Global,
    classes: &[usize],
    flags: &[bool],
) -> Result<Vec<usize>, Memory>
    requires { length flags.now ≡ length classes.now }
    ensures { IfOk result
        (λ nexts. IsNextClass (length classes.now) classes.now flags.now nexts.items) }
{
    let occurs = flagged_classes(alloc, classes, flags)?;
    nexts_of(alloc, &occurs)
}

// For each class whether an edge of it is flagged.
fn flagged_classes(alloc: Global, classes: &[usize], flags: &[bool]) -> Result<Vec<bool>, Memory>
    requires { length flags.now ≡ length classes.now }
    ensures long { IfOk result (λ occurs. length occurs.items ≡ length classes.now) }
    ensures flagged { IfOk result
        (λ occurs. AreFlaggedBefore (length classes.now) classes.now flags.now occurs.items) }
{
    let mut occurs = vec![in alloc; false; classes.len()]?;
    for i in 0..classes.len() {
        flag_class(flags[i], classes[i], &mut occurs);
    }
    Ok(occurs)
}

// Flags a class, where an edge of it is flagged.
fn flag_class(is_flagged: bool, class: usize, occurs: &mut Vec<bool>)
    ensures long { length occurs.new.items ≡ length occurs.old.items }
    ensures stay { (j : ℕ) → slice_get occurs.old.items j ≡ Some true
        → slice_get occurs.new.items j ≡ Some true }
    ensures flagged { is_flagged ≡ true → class < length occurs.old.items
        → slice_get occurs.new.items class ≡ Some true }
{
    if is_flagged && class < occurs.len() {
        occurs[class] = true;
    }
}

// For each place the next one, at it or after, that is flagged, and one more for the end.
fn nexts_of(alloc: Global, occurs: &[bool]) -> Result<Vec<usize>, Memory>
    ensures { IfOk result (λ nexts. AreNextFrom 0 (length occurs.now) occurs.now nexts.items) }
{
    let mut nexts = vec![in alloc; occurs.len(); occurs.len() + 1]?;
    for m in (0..occurs.len()).rev() {
        nexts[m] = next_at(occurs[m], m, nexts[m + 1]);
    }
    Ok(nexts)
}

// The next place that is flagged, at this one or after.
fn next_at(is_flagged: bool, place: usize, after: usize) -> usize
    ensures { result ≡ cond is_flagged place after }
{
    if is_flagged { place } else { after }
}
