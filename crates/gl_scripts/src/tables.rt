//! Tables of edges.
use crate::say::{Stop, refused, say};
use gl_edges::{Edge, Guard, Guards, Sample};
use gl_event::{LocId, LockId, LockMode, Memory, ThreadId};
use gl_shards::Table;
use std::alloc::AllocError;

// An edge of lock 0 to this lock.
fn edge(rt: &HostRuntime, wanted: u32) -> Result<Edge, AllocError> {
    let held = LockId::new(0);
    let mode = LockMode::Exclusive;
    let guards = vec![in rt.alloc(); Guard { lock: held, mode }]?;
    Ok(Edge {
        thread: ThreadId::new(0),
        held,
        held_mode: mode,
        wanted: LockId::new(wanted),
        wanted_mode: mode,
        first: 0,
        second: 0,
        guards: Guards::new(guards),
    })
}

/// The same, for which memory may be refused once.
pub(crate) fn known_edge(rt: &HostRuntime, wanted: u32) -> Result<Edge, AllocError> {
    if let Ok(edge) = edge(rt, wanted) {
        return Ok(edge);
    }
    refused(rt, "edge", &());
    edge(rt, wanted)
}

/// What is known of an edge that was seen at this place.
pub(crate) fn sample_at(place: u32) -> Sample {
    Sample {
        place,
        held_loc: LocId::new(1),
        wanted_loc: LocId::new(2),
    }
}

// Puts a copy of the edge into the table, seen at this place.
fn insert_copy(rt: &HostRuntime, table: &mut Table, edge: &Edge, place: u32) -> Result<(), Memory> {
    table.insert(edge.copy(rt.alloc())?, sample_at(place))
}

// What the table has: how many edges, and the place of this one.
fn seen(table: &Table, edge: &Edge) -> (usize, Option<u32>) {
    let place = match table.get(edge) {
        Some(sample) => Some(sample.place),
        None => None,
    };
    (table.len(), place)
}

// Puts a copy of the edge into the table; memory may be refused once.
fn insert(rt: &HostRuntime, table: &mut Table, edge: &Edge, place: u32) -> Result<(), Memory> {
    if insert_copy(rt, table, edge, place).is_err() {
        refused(rt, "insert", &seen(table, edge));
        insert_copy(rt, table, edge, place)?;
    }
    say(rt, "insert", &seen(table, edge));
    Ok(())
}

// A copy of the table; memory may be refused once.
fn copied(rt: &HostRuntime, table: &Table, edge: &Edge) -> Result<Table, Memory> {
    if let Ok(copy) = table.copy(rt.alloc()) {
        return Ok(copy);
    }
    refused(rt, "copy", &seen(table, edge));
    table.copy(rt.alloc())
}

/// One edge, seen at three places in turn.
pub(crate) fn least_sample(rt: &HostRuntime) -> Result<(), Stop> {
    let edge = known_edge(rt, 1)?;
    let mut table = Table::new(rt.alloc());
    for place in [5, 2, 9] {
        insert(rt, &mut table, &edge, place)?;
    }
    let copy = copied(rt, &table, &edge)?;
    say(rt, "copy", &seen(&copy, &edge));
    Ok(())
}
