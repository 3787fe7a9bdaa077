//! The workers' threads.
ghost use Rattle.std.specs.Prelude.{◌≡◌, ◌≤◌, ◌+◌, true, [], map, length, IfSome};
ghost use Rattle.std.specs.Vec.{vec_len, vec_capacity};
ghost use Rattle.gl_shards.specs.declared.shard.TheConstants.{MAX_SHARDS};

use gl_engine::preallocated::keep;
use gl_shards::{Gate, Inlet, Served, serve};
use std::alloc::Global;
use std::snapshot::Snapshot;
use std::sync::Wait;
use std::thread::{Promise, PromisedHandle, Scope, Threads};

/// A worker's thread leaves the feed of this inlet served.
#[derive(Drop)]
pub struct ServedBy(Snapshot<Inlet>);

impl Promise<Served> for ServedBy {
    ghost kept_by = { λ p served. served.feed ≡ p.0.value.feed };
}

/// A worker's thread.
pub type Working = PromisedHandle<Served, ServedBy>;

// Starts the worker of this shard.
fn start_worker<'s, E, R: Threads + Wait + Sync, G: Gate + Sync>(
    scope: &'s Scope<'s, E>,
    rt: &'s R,
    alloc: Global,
    inlet: Inlet,
    shard: u32,
    gate: &'s G,
) -> Option<Working>
    ensures { IfSome result (λ worker. worker.promise.0.value.feed ≡ inlet.feed) }
{
    let promise = ServedBy(Snapshot::of(&inlet));
    let worker = scope.spawn_with(
        promise,
        move || -> Served
            ensures { result.feed ≡ inlet.feed }
        { serve(rt, alloc, inlet, shard, gate) },
    );
    worker.ok()
}

/// Starts a worker for each inlet, in the order of shards, up to the first that can't be started. Whether
/// all were.
pub fn start_workers<'s, E, R: Threads + Wait + Sync, G: Gate + Sync>(
    scope: &'s Scope<'s, E>,
    rt: &'s R,
    alloc: Global,
    inlets: Vec<Inlet>,
    gate: &'s G,
    workers: &mut Vec<Working>,
) -> bool
    requires fit { length inlets.items ≤ MAX_SHARDS }
    requires empty { workers.old.items ≡ [] }
    requires room { vec_len workers.old + length inlets.items ≤ vec_capacity workers.old }
    ensures feeds { result ≡ true
        → map (λ w. w.promise.0.value.feed) workers.new.items
        ≡ map (λ i. i.feed) inlets.items }
{
    let mut shard = 0;
    for inlet in inlets {
        let Some(worker) = start_worker(scope, rt, alloc, inlet, shard, gate) else {
            return false;
        };
        keep(workers, worker);
        shard += 1;
    }
    true
}

/// Waits for all workers, and keeps what they leave.
pub fn join_workers<R: Threads>(rt: &R, workers: Vec<Working>, served: &mut Vec<Served>)
    requires empty { served.old.items ≡ [] }
    requires room { vec_len served.old + length workers.items ≤ vec_capacity served.old }
    ensures feeds { map (λ s. s.feed) served.new.items
        ≡ map (λ w. w.promise.0.value.feed) workers.items }
{
    for worker in workers {
        keep(served, worker.join(rt));
    }
}
