//! What a report lists, as JSON values of format 2: its edges, and its cycles.
ghost use Rattle.std.specs.Prelude.{◌≡◌, [], ◌∷◌, ◌++◌, map, IfOk, OnOk};
ghost use Rattle.serde_json.specs.View.{view};
ghost use Rattle.gl_report.specs.Tree.{edge_tree, positions_tree};

use crate::members::{put_locations, put_modes, put_names, put_segments};
use crate::values::positions_value;
use gl_edges::{Edge, Sample};
use gl_event::Memory;
use gl_std::Names;
use serde_json::{Map, Value};
use std::alloc::Global;

/// An edge as a JSON value of format 2, with where it was seen. Names are text, with odd bytes
/// escaped. Err where memory was refused.
#[tactic(auto, unfolding(crate::specs::Tree::edge_tree))]
pub fn edge_json(
    alloc: Global,
    names: &Names,
    edge: &Edge,
    sample: &Sample,
) -> Result<Value, Memory>
    ensures { IfOk result (λ v. view v ≡ edge_tree names.now (edge.now, sample.now)) }
{
    let mut members = Map::new(alloc);
    put_names(&mut members, alloc, names, edge)?;
    put_locations(&mut members, alloc, names, sample)?;
    put_segments(&mut members, alloc, edge)?;
    put_modes(&mut members, alloc, edge)?;
    Ok(Value::Object(members))
}

// Adds an edge.
fn push_edge(
    alloc: Global,
    values: &mut Vec<Value>,
    names: &Names,
    pair: &(Edge, Sample),
) -> Result<(), Memory>
    ensures { OnOk result
        (map view values.new.items
        ≡ map view values.old.items ++ edge_tree names.now pair.now ∷ []) }
{
    let value = edge_json(alloc, names, &pair.0, &pair.1)?;
    values.push(value)?;
    Ok(())
}

// The edges.
pub(crate) fn edge_values(
    alloc: Global,
    names: &Names,
    table: &[(Edge, Sample)],
) -> Result<Vec<Value>, Memory>
    ensures { IfOk result (λ vs. map view vs.items ≡ map (edge_tree names.now) table.now) }
{
    let mut values = Vec::new(alloc);
    for pair in table {
        push_edge(alloc, &mut values, names, pair)?;
    }
    Ok(values)
}

// Adds a cycle.
fn push_cycle(alloc: Global, values: &mut Vec<Value>, cycle: &[usize]) -> Result<(), Memory>
    ensures { OnOk result
        (map view values.new.items
        ≡ map view values.old.items ++ positions_tree cycle.now ∷ []) }
{
    let value = positions_value(alloc, cycle)?;
    values.push(value)?;
    Ok(())
}

// The cycles.
pub(crate) fn cycle_values(alloc: Global, cycles: &[Vec<usize>]) -> Result<Vec<Value>, Memory>
    ensures { IfOk result
        (λ vs. map view vs.items ≡ map positions_tree (map (λ cycle. cycle.items) cycles.now)) }
{
    let mut values = Vec::new(alloc);
    for cycle in cycles {
        push_cycle(alloc, &mut values, cycle.as_slice())?;
    }
    Ok(values)
}
