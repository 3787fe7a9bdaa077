//! Feeds between a collector and its workers, and what the workers make of them.
ghost use Rattle.std.specs.Prelude.{◌≡◌, ◌≤◌, ℕ, true, [], Some, length, map, slice_get, IfSome};
ghost use Rattle.gl_shards.specs.Feeds.{AllSent, Receiving, Sending};

use gl_shards::{Inlet, Open, Outlet, Sent, Table, feed, serve};
use std::alloc::Global;
use std::sync::Wait;

/// So many feeds, each with room for eight edges.
pub fn feeds(alloc: Global, workers: u32) -> Option<(Vec<Outlet>, Vec<Inlet>)>
    ensures count { IfSome result (λ ends. length ends.0.items ≡ workers) }
    ensures unsent { IfSome result
        (λ ends. (shard : ℕ) (o : Sending) → slice_get ends.0.items shard ≡ Some o
        → o.sent ≡ []) }
    ensures one_feed { IfSome result
        (λ ends. map (λ (o : Sending). o.feed) ends.0.items
        ≡ map (λ (i : Receiving). i.feed) ends.1.items) }
{
    let mut outlets = Vec::new(alloc);
    let mut inlets = Vec::new(alloc);
    for _ in 0..workers {
        let Ok((outlet, inlet)) = feed(alloc, 8) else {
            return None;
        };
        let (Ok(()), Ok(())) = (outlets.push(outlet), inlets.push(inlet)) else {
            return None;
        };
    }
    Some((outlets, inlets))
}

// The worker's table, which it makes now, from what its feed holds.
fn table_of<R: Wait>(rt: &R, alloc: Global, inlet: Inlet, sent: Sent) -> Option<Table>
    requires one_feed { sent.feed ≡ inlet.feed }
{
    serve(rt, alloc, inlet, 0, &Open).settle(sent).ok()
}

// Adds the table. Whether there is one.
fn add(tables: &mut Vec<Table>, table: Option<Table>) -> bool {
    match table {
        Some(table) => tables.push(table).is_ok(),
        None => false,
    }
}

// Adds the table of the last worker. Whether it could.
fn add_last<R: Wait>(
    rt: &R,
    alloc: Global,
    sent: &mut Vec<Sent>,
    inlets: &mut Vec<Inlet>,
    tables: &mut Vec<Table>,
) -> bool
    requires one_feed { map (λ (s : AllSent). s.feed) sent.old.items
        ≡ map (λ (i : Receiving). i.feed) inlets.old.items }
    ensures one_feed { result ≡ true → map (λ (s : AllSent). s.feed) sent.new.items
        ≡ map (λ (i : Receiving). i.feed) inlets.new.items }
{
    match (sent.pop(), inlets.pop()) {
        (Some(last), Some(inlet)) => add(tables, table_of(rt, alloc, inlet, last)),
        _ => false,
    }
}

/// The workers' tables, which they make now, from what their feeds hold.
pub fn tables_of<R: Wait>(
    rt: &R,
    alloc: Global,
    sent: Vec<Sent>,
    inlets: Vec<Inlet>,
) -> Option<Vec<Table>>
    requires one_feed { map (λ (s : AllSent). s.feed) sent.items
        ≡ map (λ (i : Receiving). i.feed) inlets.items }
{
    let (mut sent, mut inlets) = (sent, inlets);
    let mut tables = Vec::new(alloc);
    for _ in 0..inlets.len() {
        if !add_last(rt, alloc, &mut sent, &mut inlets, &mut tables) {
            return None;
        }
    }
    tables.as_mut_slice().reverse();
    Some(tables)
}
