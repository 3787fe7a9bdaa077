//! Which edge of a trace the JSON of an edge is, and whether a table is that of a trace.
ghost use Rattle.std.specs.Prelude.{◌≡◌, ◌≤◌, ◌⊎◌, ℕ, true, false, codes, length, map, IfErr, IfOk, MatchOption};
ghost use Rattle.std.specs.List.{list_all};
ghost use Rattle.std.specs.Bool.{Decides};
ghost use Rattle.serde_json.specs.Data.{depth};
ghost use Rattle.serde_json.specs.Read.{max_depth};
ghost use Rattle.serde_json.specs.View.{view};
ghost use Rattle.serde_json.specs.Written.{has_float};
ghost use Rattle.gl_check.specs.Edges.{IsEdgeAt, IsFirstDifference, NamesEdge, IsNoEdge, IsPrintOf};
ghost use Rattle.gl_check.specs.Shape.{edge_fields_v1, has_fields, is_edge, is_member, number_under};
ghost use Rattle.gl_check.specs.declared.faults.CheckFault.TheVariants.{Memory};
ghost use Rattle.gl_check.specs.declared.fields.Format.TheVariants.{One};
ghost use Rattle.gl_report.specs.Tree.{edge_tree};

use crate::faults::CheckFault;
use crate::fields::{Format, number_of, number_under};
use gl_edges::{Edge, Sample};
use gl_event::Memory;
use gl_report::{edge_json, edge_json_v1, is_exclusive};
use gl_std::Names;
use serde_json::Value;
use std::alloc::Global;

// Whether two values are the same.
fn are_same(alloc: Global, value: &Value, other: &Value) -> Result<bool, Memory>
    requires plain { has_float (view value.now) ≡ false }
    requires low { depth (view value.now) ≤ max_depth }
    requires other_plain { has_float (view other.now) ≡ false }
    requires other_low { depth (view other.now) ≤ max_depth }
    ensures { IfOk result (λ same. Decides same (view value.now ≡ view other.now)) }
{
    let text = value.to_string(alloc)?;
    let other_text = other.to_string(alloc)?;
    Ok(text.as_str() == other_text.as_str())
}

// Whether the JSON is that of this edge with its sample, in format 1.
fn is_print_of(
    alloc: Global,
    names: &Names,
    edge: &Edge,
    sample: &Sample,
    value: &Value,
) -> Result<bool, Memory>
    requires { has_fields edge_fields_v1 (view value.now) ≡ true }
    ensures { IfOk result
        (λ is. Decides is (IsPrintOf names.now (view value.now) (edge.now, sample.now))) }
{
    if !is_exclusive(edge) {
        return Ok(false);
    }
    let printed = edge_json_v1(alloc, names, edge, sample)?;
    are_same(alloc, value, &printed)
}

// Whether the edge has this JSON, in which this place stands.
fn has_json(
    alloc: Global,
    names: &Names,
    pair: &(Edge, Sample),
    place: u64,
    value: &Value,
) -> Result<bool, Memory>
    requires shaped { has_fields edge_fields_v1 (view value.now) ≡ true }
    requires place { place ≡ number_under (codes "place") (view value.now) }
    ensures { IfOk result (λ is. Decides is (IsPrintOf names.now (view value.now) pair.now)) }
{
    if u64::from(pair.1.place) != place {
        return Ok(false);
    }
    is_print_of(alloc, names, &pair.0, &pair.1, value)
}

// The first position whose edge has this JSON, in which this place stands. Edges of other places are
// passed over.
fn position_at(
    alloc: Global,
    names: &Names,
    table: &[(Edge, Sample)],
    place: u64,
    value: &Value,
) -> Result<Option<usize>, Memory>
    requires shaped { has_fields edge_fields_v1 (view value.now) ≡ true }
    requires place { place ≡ number_under (codes "place") (view value.now) }
    ensures { IfOk result
        (λ found. MatchOption found (IsNoEdge names.now table.now (view value.now))
        (IsEdgeAt names.now table.now (view value.now))) }
{
    for i in 0..table.len() {
        let pair = &table[i];
        if has_json(alloc, names, pair, place, value)? {
            return Ok(Some(i));
        }
    }
    Ok(None)
}

// The first position whose edge has this JSON. A look at each edge until then.
fn first_position(
    alloc: Global,
    names: &Names,
    table: &[(Edge, Sample)],
    value: &Value,
) -> Result<Option<usize>, Memory>
    requires { has_fields edge_fields_v1 (view value.now) ≡ true }
    ensures { IfOk result
        (λ found. MatchOption found (IsNoEdge names.now table.now (view value.now))
        (IsEdgeAt names.now table.now (view value.now))) }
{
    position_at(alloc, names, table, number_under(value, "place"), value)
}

/// The position of the edge that this JSON names in a cycle.
pub(crate) fn position_of(
    alloc: Global,
    format: Format,
    names: &Names,
    table: &[(Edge, Sample)],
    value: &Value,
) -> Result<Option<usize>, Memory>
    requires { is_member format (length table.now) (view value.now) ≡ true }
    ensures { IfOk result
        (λ found. MatchOption found
        ((format ≡ One) × IsNoEdge names.now table.now (view value.now))
        (NamesEdge format names.now table.now (view value.now))) }
{
    match format {
        Format::One => first_position(alloc, names, table, value),
        Format::Two | Format::Three => Ok(Some(number_of(value) as usize)),
    }
}

// Whether the JSON is that of this edge with its sample, in formats 2 and 3.
fn is_entry(
    alloc: Global,
    names: &Names,
    pair: &(Edge, Sample),
    value: &Value,
) -> Result<bool, Memory>
    requires { is_edge (view value.now) ≡ true }
    ensures { IfOk result (λ is. Decides is (view value.now ≡ edge_tree names.now pair.now)) }
{
    let entry = edge_json(alloc, names, &pair.0, &pair.1)?;
    are_same(alloc, value, &entry)
}

/// Looks whether these are the JSON of the edges of a table, one after the other. Prints each once.
pub(crate) fn check_table(
    alloc: Global,
    names: &Names,
    table: &[(Edge, Sample)],
    values: &[Value],
) -> Result<(), CheckFault>
    requires { list_all is_edge (map view values.now) ≡ true }
    ensures ok { IfOk result (λ _. map view values.now ≡ map (edge_tree names.now) table.now) }
    ensures fault { IfErr result
        (λ fault. (fault ≡ Memory)
        ⊎ ((k : ℕ) × (fault ≡ CheckFault.Table k)
        × IsFirstDifference (map view values.now) (map (edge_tree names.now) table.now) k)) }
{
    for k in 0..table.len() {
        if k >= values.len() {
            return Err(CheckFault::Table(k));
        }
        if !is_entry(alloc, names, &table[k], &values[k])? {
            return Err(CheckFault::Table(k));
        }
    }
    if values.len() > table.len() {
        return Err(CheckFault::Table(table.len()));
    }
    Ok(())
}
