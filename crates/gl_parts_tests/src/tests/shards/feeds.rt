//! Edges through feeds, in one thread and in several.
use super::super::expect;
use super::{at, edge};
use gl_event::MAX_RING;
use gl_shards::{Gate, Gone, Inlet, Outlet, feed, serve};
use std::alloc::Global;
use std::sync::Wait;
use std::sync::atomic::{AtomicU64, Ordering};
use std::thread;
use std::thread::Threads;

// How a feed is used, and what is wanted then.
#[derive(Clone, Copy, PartialEq)]
enum Course {
    // an end mark follows the edges, and the worker meets it
    Ended,
    // no end mark follows, and the worker is cut off
    Cut,
    // there is no worker, and the sender is told that it is gone
    Lone,
}

// A feed with room for so many messages, how many edges are sent through it, its course, and whether both ends run
// at once, or the worker after the sender. The shard that the worker is told; and what its gate adds up: how often it is
// passed, how many edges came before, and the shard.
#[derive(Clone, Copy)]
struct Case {
    name: &'static str,
    room: u32,
    edges: u32,
    course: Course,
    at_once: bool,
    shard: u32,
    sums: [u64; 3],
}

const CASES: &[Case] = &[
    // Nothing was sent.
    Case {
        name: "nothing_sent",
        room: MAX_RING,
        edges: 0,
        course: Course::Ended,
        at_once: false,
        shard: 7,
        sums: [0, 0, 0],
    },
    // The gate is told the shard, and for each edge how many came before it. Edges that were sent before the worker
    // begins pass it too.
    Case {
        name: "gate_counts",
        room: 5,
        edges: 4,
        course: Course::Ended,
        at_once: false,
        shard: 7,
        sums: [4, 6, 28],
    },
    // A worker whose sender is gone without an end mark is cut off.
    Case {
        name: "outlet_dropped",
        room: 2,
        edges: 1,
        course: Course::Cut,
        at_once: false,
        shard: 0,
        sums: [1, 0, 0],
    },
    // A worker that waits for an edge, or comes to wait for it, is told that its sender is gone.
    Case {
        name: "outlet_dropped_later",
        room: 1,
        edges: 1,
        course: Course::Cut,
        at_once: true,
        shard: 0,
        sums: [1, 0, 0],
    },
    // A sender that waits for room, or comes to wait for it, is told that its worker is gone.
    Case {
        name: "inlet_dropped_later",
        room: 1,
        edges: 2,
        course: Course::Lone,
        at_once: true,
        shard: 0,
        sums: [0, 0, 0],
    },
    // One thread sends through a feed with room for one edge, and another one receives. The gate is passed by
    // each of them, however many there are.
    Case {
        name: "thousands_of_edges",
        room: 1,
        edges: 3_000,
        course: Course::Ended,
        at_once: true,
        shard: 3,
        sums: [3_000, 4_498_500, 9_000],
    },
];

// A gate that counts how often it is passed, and adds up what it is told.
#[derive(Drop)]
struct Counter {
    passed: AtomicU64,
    taken: AtomicU64,
    shards: AtomicU64,
}

impl Gate for Counter {
    fn pass(&self, shard: u32, taken: u64) {
        self.passed.fetch_add(1, Ordering::SeqCst);
        self.taken.fetch_add(taken, Ordering::SeqCst);
        self.shards.fetch_add(u64::from(shard), Ordering::SeqCst);
    }
}

impl Counter {
    fn new() -> Counter {
        Counter {
            passed: AtomicU64::new(0),
            taken: AtomicU64::new(0),
            shards: AtomicU64::new(0),
        }
    }

    fn has(&self, sums: [u64; 3]) -> bool {
        self.passed.load(Ordering::SeqCst) == sums[0]
            && self.taken.load(Ordering::SeqCst) == sums[1]
            && self.shards.load(Ordering::SeqCst) == sums[2]
    }
}

// Whether an edge is sent; not where the worker is gone. Nothing is told of the rest, so that little is known where it
// is looked at.
fn is_sent(rt: &impl Wait, outlet: &mut Outlet, alloc: Global, lock: u32) -> bool {
    match edge(alloc, lock, 0) {
        Ok(edge) => outlet.send(rt, edge, at(lock)).is_ok(),
        Err(_) => false,
    }
}

// Sends an edge from each of so many locks to lock 0, and answers whether all were sent.
fn send_each(rt: &impl Wait, outlet: &mut Outlet, alloc: Global, locks: u32) -> bool {
    for lock in 1..=locks {
        if !is_sent(rt, outlet, alloc, lock) {
            return false;
        }
    }
    true
}

// What the sender of so many edges meets: it sends them, and the end mark where it is to follow; else its end is dropped.
fn send_all(rt: &impl Wait, alloc: Global, outlet: Outlet, edges: u32, course: Course) -> Course {
    let mut outlet = outlet;
    if !send_each(rt, &mut outlet, alloc, edges) {
        return Course::Lone;
    }
    if course == Course::Cut {
        return Course::Cut;
    }
    match outlet.end(rt) {
        Ok(_) => Course::Ended,
        Err(Gone) => Course::Lone,
    }
}

// What the worker meets, which serves through the gate; where there is none, its end is dropped.
fn work(rt: &impl Wait, alloc: Global, inlet: Inlet, case: &Case, counter: &Counter) -> Course {
    if case.course == Course::Lone {
        return Course::Lone;
    }
    if serve(rt, alloc, inlet, case.shard, counter).cut() {
        return Course::Cut;
    }
    Course::Ended
}

// What both ends meet, each of which runs in a thread of its own.
fn run_at_once<R: Threads + Wait + Sync>(
    rt: &R,
    alloc: Global,
    ends: (Outlet, Inlet),
    case: &Case,
    counter: &Counter,
) -> (Course, Course) {
    let (outlet, inlet) = ends;
    thread::join(
        rt,
        move || send_all(rt, alloc, outlet, case.edges, case.course),
        move || work(rt, alloc, inlet, case, counter),
    )
}

// What both ends meet.
fn run<R: Threads + Wait + Sync>(
    rt: &R,
    alloc: Global,
    ends: (Outlet, Inlet),
    case: &Case,
    counter: &Counter,
) -> (Course, Course) {
    if case.at_once {
        return run_at_once(rt, alloc, ends, case, counter);
    }
    let (outlet, inlet) = ends;
    let sender = send_all(rt, alloc, outlet, case.edges, case.course);
    (sender, work(rt, alloc, inlet, case, counter))
}

// The two ends of a feed.
fn both_ends(alloc: Global, room: u32) -> Option<(Outlet, Inlet)> {
    if room == 0 || room > MAX_RING {
        return None;
    }
    feed(alloc, room).ok()
}

// Whether both ends meet what is wanted, and the gate added up what is.
fn is_right<R: Threads + Wait + Sync>(rt: &R, alloc: Global, case: &Case) -> bool {
    let counter = Counter::new();
    match both_ends(alloc, case.room) {
        Some(ends) => {
            let (sender, worker) = run(rt, alloc, ends, case, &counter);
            sender == case.course && worker == case.course && counter.has(case.sums)
        }
        None => false,
    }
}

#[test]
fn feeds(rt: HostRuntime) {
    for (at, case) in CASES.iter().enumerate() {
        expect(&rt, is_right(&rt, rt.alloc(), case), case.name, at);
    }
}

// Whether a sender whose worker was gone before is told so, by its first edge or, where it has none, by the end mark.
fn is_told(rt: &impl Wait, alloc: Global, edges: u32) -> bool {
    match both_ends(alloc, 2) {
        Some((outlet, inlet)) => {
            drop(inlet);
            send_all(rt, alloc, outlet, edges, Course::Ended) == Course::Lone
        }
        None => false,
    }
}

#[test]
fn inlet_dropped(rt: HostRuntime) {
    for edges in 0..2 {
        assert!(rt; is_told(&rt, rt.alloc(), edges), "{edges} edges");
    }
}
