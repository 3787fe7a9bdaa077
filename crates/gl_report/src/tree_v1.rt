//! The report as JSON of format 1.
ghost use Rattle.std.specs.Prelude.{◌≡◌, [], ◌∷◌, ◌++◌, codes, slice_get, map, IfOk, OnOk};
ghost use Rattle.std.specs.List.{filter_map};
ghost use Rattle.std.specs.Option.{option_map_or};
ghost use Rattle.serde_json.specs.View.{view};
ghost use Rattle.serde_json.specs.Written.{compact_text};
ghost use Rattle.gl_report.specs.Exclusive.{ListsExclusive};
ghost use Rattle.gl_report.specs.TreeV1.{cycle_tree_v1, edge_tree_v1, report_tree_v1};

use crate::members::{put_locations, put_names, put_segments};
use crate::report_members::put_question;
use gl_cycles::Report;
use gl_edges::{Edge, Sample};
use gl_event::Memory;
use gl_std::Names;
use serde_json::{Map, Value, put};
use std::alloc::Global;

/// An edge as a JSON value of format 1, with where it was seen. Names are text, with odd bytes
/// escaped. Err where memory was refused.
#[tactic(auto, unfolding(crate::specs::TreeV1::edge_tree_v1))]
pub fn edge_json_v1(
    alloc: Global,
    names: &Names,
    edge: &Edge,
    sample: &Sample,
) -> Result<Value, Memory>
    ensures { IfOk result (λ v. view v ≡ edge_tree_v1 names.now (edge.now, sample.now)) }
{
    let mut members = Map::new(alloc);
    put_names(&mut members, alloc, names, edge)?;
    put_locations(&mut members, alloc, names, sample)?;
    put_segments(&mut members, alloc, edge)?;
    Ok(Value::Object(members))
}

// Adds the edge at a position.
fn push_edge(
    alloc: Global,
    values: &mut Vec<Value>,
    names: &Names,
    table: &[(Edge, Sample)],
    position: usize,
) -> Result<(), Memory>
    ensures { OnOk result
        (map view values.new.items
        ≡ map view values.old.items ++ option_map_or (λ pair. edge_tree_v1 names.now pair ∷ [])
        (slice_get table.now position) []) }
{
    if position >= table.len() {
        return Ok(());
    }
    let pair = &table[position];
    let value = edge_json_v1(alloc, names, &pair.0, &pair.1)?;
    values.push(value)?;
    Ok(())
}

// The edges of a cycle.
fn edge_values(
    alloc: Global,
    names: &Names,
    table: &[(Edge, Sample)],
    cycle: &[usize],
) -> Result<Vec<Value>, Memory>
    ensures { IfOk result
        (λ vs. map view vs.items
        ≡ map (edge_tree_v1 names.now) (filter_map (slice_get table.now) cycle.now)) }
{
    let mut values = Vec::new(alloc);
    for &position in cycle {
        push_edge(alloc, &mut values, names, table, position)?;
    }
    Ok(values)
}

// Adds a cycle.
#[tactic(auto, unfolding(crate::specs::TreeV1::cycle_tree_v1))]
fn push_cycle(
    alloc: Global,
    values: &mut Vec<Value>,
    names: &Names,
    table: &[(Edge, Sample)],
    cycle: &[usize],
) -> Result<(), Memory>
    ensures { OnOk result
        (map view values.new.items
        ≡ map view values.old.items ++ cycle_tree_v1 names.now table.now cycle.now ∷ []) }
{
    let edges = edge_values(alloc, names, table, cycle)?;
    values.push(Value::from(edges))?;
    Ok(())
}

// The cycles.
fn cycle_values(
    alloc: Global,
    names: &Names,
    table: &[(Edge, Sample)],
    cycles: &[Vec<usize>],
) -> Result<Vec<Value>, Memory>
    ensures { IfOk result
        (λ vs. map view vs.items
        ≡ map (cycle_tree_v1 names.now table.now) (map (λ cycle. cycle.items) cycles.now)) }
{
    let mut values = Vec::new(alloc);
    for cycle in cycles {
        push_cycle(alloc, &mut values, names, table, cycle.as_slice())?;
    }
    Ok(values)
}

/// The report as a JSON value of format 1: what was asked, the cycles with their edges, and whether
/// there are more of them. Names are text, with odd bytes escaped. It shows no lock modes, so the locks
/// of the edges that are listed have to be held and wanted exclusively. Err where memory was refused.
#[tactic(auto, unfolding(crate::specs::TreeV1::report_tree_v1))]
pub fn json_v1(alloc: Global, names: &Names, report: &Report) -> Result<Value, Memory>
    requires exclusive { ListsExclusive report.now }
    ensures { IfOk result (λ v. view v ≡ report_tree_v1 names.now report.now) }
{
    let mut members = Map::new(alloc);
    put_question(&mut members, alloc, 1, &report.query)?;
    let table = report.edges.entries();
    let cycles = cycle_values(alloc, names, table, report.found.cycles.as_slice())?;
    put(&mut members, alloc, "cycles", Value::from(cycles))?;
    put(&mut members, alloc, "more", Value::from(report.found.more))?;
    Ok(Value::Object(members))
}

/// The report as one line of compact JSON text, of format 1, ended by LF. It shows no lock modes, so
/// the locks of the edges that are listed have to be held and wanted exclusively. Err where memory was
/// refused.
pub fn json_text_v1(alloc: Global, names: &Names, report: &Report) -> Result<Vec<u8>, Memory>
    requires exclusive { ListsExclusive report.now }
    ensures { IfOk result
        (λ t. t.items ≡ compact_text (report_tree_v1 names.now report.now) ++ codes "\n") }
{
    let value = json_v1(alloc, names, report)?;
    let mut text = value.to_string(alloc)?.into_bytes();
    text.push(b'\n')?;
    Ok(text)
}
