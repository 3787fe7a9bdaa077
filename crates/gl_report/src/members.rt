//! The members of an edge's JSON object.
ghost use Rattle.std.specs.Prelude.{◌≡◌, IfOk, OnOk};
ghost use Rattle.serde_json.specs.View.{members_view};
ghost use Rattle.gl_report.specs.bodies.Members.{with_locations, with_modes, with_names, with_segments};

use crate::values::{
    guard_modes_value, guards_value, loc_value, lock_mode_value, lock_value, thread_value,
};
use gl_edges::{Edge, Sample};
use gl_event::Memory;
use gl_std::Names;
use serde_json::{Map, Value, put};
use std::alloc::Global;

/// Adds the names of the edge's thread and of its locks.
pub(crate) fn put_names(
    members: &mut Map<String, Value>,
    alloc: Global,
    names: &Names,
    edge: &Edge,
) -> Result<(), Memory>
    ensures { OnOk result
        (members_view members.new.entries
        ≡ with_names names.now edge.now (members_view members.old.entries)) }
{
    let guards = guards_value(alloc, names, &edge.guards)?;
    put(members, alloc, "guards", guards)?;
    let held = lock_value(alloc, names, edge.held)?;
    put(members, alloc, "held", held)?;
    let wanted = lock_value(alloc, names, edge.wanted)?;
    put(members, alloc, "wanted", wanted)?;
    let thread = thread_value(alloc, names, edge.thread)?;
    put(members, alloc, "thread", thread)?;
    Ok(())
}

/// Adds where the edge was seen.
pub(crate) fn put_locations(
    members: &mut Map<String, Value>,
    alloc: Global,
    names: &Names,
    sample: &Sample,
) -> Result<(), Memory>
    ensures { OnOk result
        (members_view members.new.entries
        ≡ with_locations names.now sample.now (members_view members.old.entries)) }
{
    let held_at = loc_value(alloc, names, sample.held_loc)?;
    put(members, alloc, "held_at", held_at)?;
    put(members, alloc, "place", Value::from(sample.place))?;
    let wanted_at = loc_value(alloc, names, sample.wanted_loc)?;
    put(members, alloc, "wanted_at", wanted_at)?;
    Ok(())
}

/// Adds the segments of the edge's acquires.
pub(crate) fn put_segments(
    members: &mut Map<String, Value>,
    alloc: Global,
    edge: &Edge,
) -> Result<(), Memory>
    ensures { OnOk result
        (members_view members.new.entries
        ≡ with_segments edge.now (members_view members.old.entries)) }
{
    put(members, alloc, "first", Value::from(edge.first))?;
    put(members, alloc, "second", Value::from(edge.second))?;
    Ok(())
}

/// Adds the modes of the edge's locks.
pub(crate) fn put_modes(
    members: &mut Map<String, Value>,
    alloc: Global,
    edge: &Edge,
) -> Result<(), Memory>
    ensures { OnOk result
        (members_view members.new.entries
        ≡ with_modes edge.now (members_view members.old.entries)) }
{
    let guard_modes = guard_modes_value(alloc, &edge.guards)?;
    put(members, alloc, "guard_modes", guard_modes)?;
    let held_mode = lock_mode_value(alloc, edge.held_mode)?;
    put(members, alloc, "held_mode", held_mode)?;
    let wanted_mode = lock_mode_value(alloc, edge.wanted_mode)?;
    put(members, alloc, "wanted_mode", wanted_mode)?;
    Ok(())
}
