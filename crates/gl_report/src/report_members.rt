//! The members of a report's JSON object.
ghost use Rattle.std.specs.Prelude.{◌≡◌, codes, map, OnOk};
ghost use Rattle.serde_json.specs.Data.{array, put};
ghost use Rattle.serde_json.specs.View.{items_of, members_view};
ghost use Rattle.gl_report.specs.Tree.{edge_tree, positions_tree};
ghost use Rattle.gl_report.specs.bodies.Members.{with_found, with_question};

use crate::listed::{cycle_values, edge_values};
use crate::values::mode_value;
use gl_edges::{Edge, Sample};
use gl_event::Memory;
use gl_filters::Query;
use gl_std::Names;
use serde_json::{Map, Value, put};
use std::alloc::Global;

/// Adds the number of the format, and what was asked.
pub(crate) fn put_question(
    members: &mut Map<String, Value>,
    alloc: Global,
    format: u32,
    query: &Query,
) -> Result<(), Memory>
    ensures { OnOk result
        (members_view members.new.entries
        ≡ with_question format query.now (members_view members.old.entries)) }
{
    put(members, alloc, "format", Value::from(format))?;
    put(members, alloc, "len", Value::from(query.len()))?;
    put(members, alloc, "max", Value::from(query.max()))?;
    let mode = mode_value(alloc, query.mode())?;
    put(members, alloc, "mode", mode)?;
    Ok(())
}

/// Adds each edge once.
pub(crate) fn put_edges(
    members: &mut Map<String, Value>,
    alloc: Global,
    names: &Names,
    table: &[(Edge, Sample)],
) -> Result<(), Memory>
    ensures { OnOk result
        (members_view members.new.entries
        ≡ put (codes "edges") (array (items_of (map (edge_tree names.now) table.now)))
        (members_view members.old.entries)) }
{
    let edges = edge_values(alloc, names, table)?;
    put(members, alloc, "edges", Value::from(edges))?;
    Ok(())
}

/// Adds cycles under this key, as the positions of their edges, and whether there are more.
pub(crate) fn put_found(
    members: &mut Map<String, Value>,
    alloc: Global,
    key: &str,
    cycles: &[Vec<usize>],
    more: bool,
) -> Result<(), Memory>
    ensures { OnOk result
        (members_view members.new.entries
        ≡ with_found key.now (map (λ cycle. cycle.items) cycles.now) more
        (members_view members.old.entries)) }
{
    let values = cycle_values(alloc, cycles)?;
    put(members, alloc, key, Value::from(values))?;
    put(members, alloc, "more", Value::from(more))?;
    Ok(())
}
