//! Models of edges: of those that are alike one.
//!
//! Threads run the same code again and again, so that many edges differ in nothing but their thread and
//! their segments. Of those one is the model, the first that is kept. Which edge is the model of another
//! is not proved; that the two are alike is checked, and an edge that isn't alike is its own model.
ghost use Rattle.std.specs.Prelude.{◌≡◌, ◌<◌, ℕ, Some, true, length, slice_get, IfOk, OnOk};
ghost use Rattle.gl_edges.specs.declared.edge.Edge.{Edge};
ghost use Rattle.gl_filters.specs.Picked.{edges_of_table};
ghost use Rattle.gl_kinds.specs.Kinds.{AreOfOneKind};
ghost use Rattle.gl_grounds.specs.Models.{AreModels, HasModel};

use gl_edges::{Edge, EdgeList, GuardSets, Sample};
use gl_event::{LockId, LockMode, Memory};
use gl_kinds::are_of_one_kind;
use std::alloc::Global;
use std::collections::HashMap;

// What alike edges of one class have in common: an edge's class, locks and modes, and the number of
// its guard set.
#[derive(Clone, Copy, PartialEq, Eq, Hash)]
struct Kind {
    class: usize,
    held: LockId,
    held_mode: LockMode,
    wanted: LockId,
    wanted_mode: LockMode,
    guards: usize,
}

impl Kind {
    // The kind of an edge.
    fn of(edge: &Edge, class: usize, guards: usize) -> Kind {
        Kind {
            class,
            held: edge.held,
            held_mode: edge.held_mode,
            wanted: edge.wanted,
            wanted_mode: edge.wanted_mode,
            guards,
        }
    }
}

/// Flags of the models of the edges that are kept. Numbers the guard sets of all edges; two look-ups more
/// for each edge that is kept.
pub(crate) fn models_of(
    alloc: Global,
    edges: &EdgeList,
    classes: &[usize],
    kept: &[bool],
) -> Result<Vec<bool>, Memory>
    requires classes { length classes.now ≡ length edges.now }
    requires kept { length kept.now ≡ length edges.now }
    ensures long { IfOk result (λ models. length models.items ≡ length edges.now) }
    ensures models { IfOk result
        (λ models. AreModels (edges_of_table edges.now) classes.now kept.now models.items) }
{
    let guards = GuardSets::of(alloc, edges)?;
    let table = edges.entries();
    let mut first = HashMap::new(alloc);
    let mut models = vec![in alloc; false; table.len()]?;
    for i in 0..table.len() {
        if !kept[i] {
            continue;
        }
        let kind = Kind::of(&table[i].0, classes[i], guards.id(i));
        let candidate = candidate_of(&mut first, kind, i)?;
        flag_model(table, classes, candidate, i, &mut models);
    }
    Ok(models)
}

// The first position that is known for this kind, or else this one, which then is.
fn candidate_of(first: &mut HashMap<Kind, usize>, kind: Kind, i: usize) -> Result<usize, Memory> {
    match first.get(&kind).copied() {
        Some(candidate) => Ok(candidate),
        None => {
            first.insert(kind, i)?;
            Ok(i)
        }
    }
}

// Sets the flag of the model of the edge at a position.
fn flag_model(
    table: &[(Edge, Sample)],
    classes: &[usize],
    candidate: usize,
    i: usize,
    models: &mut Vec<bool>,
)
    requires there { i < length table.now }
    requires classes { length classes.now ≡ length table.now }
    requires long { length models.old.items ≡ length table.now }
    ensures long { length models.new.items ≡ length table.now }
    ensures stay { (j : ℕ) → slice_get models.old.items j ≡ Some true
        → slice_get models.new.items j ≡ Some true }
    ensures model { HasModel (edges_of_table table.now) classes.now models.new.items i }
{
    let model = model_of(table, classes, candidate, i);
    models[model] = true;
}

// The position of the model of the edge at a position: the candidate, if it serves.
fn model_of(table: &[(Edge, Sample)], classes: &[usize], candidate: usize, i: usize) -> usize
    requires there { i < length table.now }
    requires classes { length classes.now ≡ length table.now }
    ensures within { result < length table.now }
    ensures same { slice_get classes.now result ≡ slice_get classes.now i }
    ensures alike { (d e : Edge) → slice_get (edges_of_table table.now) result ≡ Some d
        → slice_get (edges_of_table table.now) i ≡ Some e → AreOfOneKind d e }
{
    if candidate < table.len()
        && classes[candidate] == classes[i]
        && are_of_one_kind(&table[candidate].0, &table[i].0)
    {
        return candidate;
    }
    i
}
