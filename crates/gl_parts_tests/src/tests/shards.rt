//! Tables that are taken together, and the feeds that fill them.
use super::expect;
use gl_edges::{Edge, EdgeList, Guard, Guards, Sample};
use gl_event::{LocId, LockId, LockMode, Memory, ThreadId};
use gl_shards::{Table, merge};
use std::alloc::Global;

mod feeds;

// The edge from a lock to another one, both exclusive, of thread 0, with no other lock held.
fn edge(alloc: Global, held: u32, wanted: u32) -> Result<Edge, Memory> {
    let mode = LockMode::Exclusive;
    let held = LockId::new(held);
    let guards = vec![in alloc; Guard { lock: held, mode }]?;
    Ok(Edge {
        thread: ThreadId::new(0),
        held,
        held_mode: mode,
        wanted: LockId::new(wanted),
        wanted_mode: mode,
        first: 0,
        second: 0,
        guards: Guards::new(guards),
    })
}

// A sample at this place.
fn at(place: u32) -> Sample {
    Sample {
        place,
        held_loc: LocId::new(1),
        wanted_loc: LocId::new(2),
    }
}

// How many edges each of the large tables has.
const MANY: u32 = 10_000;

// The edges from so many locks, a step apart, each at this place.
fn many(alloc: Global, from: u32, step: u32, place: u32) -> Result<Table, Memory> {
    let mut table = Table::new(alloc);
    let mut lock = from;
    for _ in 0..MANY {
        table.insert(edge(alloc, lock, 70_000)?, at(place))?;
        lock = lock.saturating_add(step);
    }
    Ok(table)
}

// Tables of even locks, of odd ones and of each third one.
fn large_tables(alloc: Global) -> Result<Vec<Table>, Memory> {
    let mut made = Vec::new(alloc);
    made.push(many(alloc, 0, 2, 5)?)?;
    made.push(many(alloc, 1, 2, 6)?)?;
    made.push(many(alloc, 0, 3, 4)?)?;
    Ok(made)
}

// They, taken together.
fn together(alloc: Global) -> Result<EdgeList, Memory> {
    merge(alloc, large_tables(alloc)?)
}

// The first ones of their edges: the number of each one's held lock, and its place.
const FIRST: &[(u32, u32)] = &[(0, 4), (1, 6), (2, 5), (3, 4), (4, 5), (5, 6)];

// Whether these are the first ones.
fn begin(pairs: &[(Edge, Sample)], wants: &[(u32, u32)]) -> bool {
    for ((edge, sample), (held, place)) in pairs.iter().zip(wants) {
        if edge.held != LockId::new(*held) || sample.place != *place {
            return false;
        }
    }
    true
}

// Whether the tables are taken together: of each third lock 6,667 are among the first 20,000.
fn are_merged(alloc: Global) -> bool {
    match together(alloc) {
        Ok(list) => list.entries().len() == 23_333 && begin(list.entries(), FIRST),
        Err(_) => false,
    }
}

#[test]
fn large_merges(rt: HostRuntime) {
    expect(&rt, are_merged(rt.alloc()), "large tables", 0);
}
