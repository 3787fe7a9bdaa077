//! The edges of lists of events, and those of acquires that weren't made before.
use super::expect;
use crate::stepping::unrepeated;
use gl_edges::{Edge, EdgeList, Guard, Sample};
use gl_event::{Event, LockId, LockMode};
use gl_worked::known::lawful_edges;
use gl_worked::ops::Op::{self, Acq, Fork, Racq, Rel, Tryacq};
use gl_worked::ops::{event_of, lists_of};
use std::alloc::Global;

// An edge and its sample, as they are wanted: the mode of the held lock and of all guards; the thread, the
// held lock and the wanted one; the first and the last segment; the guards' locks; and the place, the held
// lock's location and the wanted one's.
#[derive(Clone, Copy)]
struct Want(LockMode, [u32; 3], [u32; 2], &'static [u32], [u32; 3]);

const X: LockMode = LockMode::Exclusive;

// Lists of events, which have to be lawful, and their edges.
#[derive(Clone, Copy)]
struct Case {
    name: &'static str,
    lists: &'static [&'static [Op]],
    wants: &'static [Want],
}

// What edges lists have.
const EDGES: &[Case] = &[
    // Two threads take two locks in opposite orders.
    Case {
        name: "opposite_order",
        lists: &[
            &[Acq(0, 1), Acq(1, 2), Rel(1, 3), Rel(0, 4)],
            &[Acq(1, 5), Acq(0, 6)],
        ],
        wants: &[
            Want(X, [0, 0, 1], [0, 0], &[0], [1, 1, 2]),
            Want(X, [1, 1, 0], [0, 0], &[1], [1, 5, 6]),
        ],
    },
    // A fork closes a segment while a lock is held.
    Case {
        name: "fork_while_holding",
        lists: &[&[Acq(0, 1), Fork(1, 2), Acq(1, 3)], &[Acq(1, 4), Acq(0, 5)]],
        wants: &[
            Want(X, [0, 0, 1], [0, 1], &[0], [2, 1, 3]),
            Want(X, [1, 1, 0], [0, 0], &[1], [1, 4, 5]),
        ],
    },
    // A lock that is acquired twice and released once is still held, and was opened by the first acquire.
    Case {
        name: "reentrant_acquire",
        lists: &[
            &[Acq(0, 1), Acq(0, 2), Acq(1, 3), Rel(0, 4), Acq(2, 5)],
            &[Acq(2, 6), Acq(0, 7)],
        ],
        wants: &[
            Want(X, [0, 0, 1], [0, 0], &[0], [2, 1, 3]),
            Want(X, [0, 0, 2], [0, 0], &[0, 1], [4, 1, 5]),
            Want(X, [0, 1, 2], [0, 0], &[0, 1], [4, 3, 5]),
            Want(X, [1, 2, 0], [0, 0], &[2], [1, 6, 7]),
        ],
    },
    // The mode of a held lock is that of its outermost acquire, and edges of shared locks come after those
    // of exclusive ones.
    Case {
        name: "mode_orders_edges",
        lists: &[&[
            Racq(0, 1),
            Racq(0, 2),
            Acq(1, 3),
            Rel(1, 4),
            Rel(0, 5),
            Rel(0, 6),
            Acq(0, 7),
            Racq(0, 8),
            Acq(1, 9),
        ]],
        wants: &[
            Want(X, [0, 0, 1], [0, 0], &[0], [8, 7, 9]),
            Want(LockMode::Shared, [0, 0, 1], [0, 0], &[0], [2, 1, 3]),
        ],
    },
    // A lock that is tried is held and a guard, but never wanted.
    Case {
        name: "tried_locks",
        lists: &[&[Acq(0, 1), Tryacq(1, 2), Acq(2, 3)]],
        wants: &[
            Want(X, [0, 0, 2], [0, 0], &[0, 1], [2, 1, 3]),
            Want(X, [0, 1, 2], [0, 0], &[0, 1], [2, 2, 3]),
        ],
    },
];

// One list of these parts, each so many times: how many edges are added, with repeats spared, and the last ones.
#[derive(Clone, Copy)]
struct Repeats {
    name: &'static str,
    parts: &'static [(&'static [Op], usize)],
    count: usize,
    wants: &'static [Want],
}

// Locks taken one inside the other, and released.
const NEST: &[Op] = &[
    Acq(0, 1),
    Acq(1, 1),
    Acq(2, 1),
    Acq(3, 1),
    Acq(4, 1),
    Rel(0, 2),
    Rel(1, 2),
    Rel(2, 2),
    Rel(3, 2),
    Rel(4, 2),
];

const REPEATS: &[Repeats] = &[
    // Locks that are taken one inside the other make the same edges, however often it happens.
    Repeats {
        name: "repeated_nesting",
        parts: &[(NEST, 3)],
        count: 10,
        wants: &[],
    },
    // In another segment they make other edges.
    Repeats {
        name: "nesting_after_fork",
        parts: &[(NEST, 1), (&[Fork(1, 3)], 1), (NEST, 1)],
        count: 20,
        wants: &[],
    },
    // Lock 1 inside lock 0, and then inside it in the other mode, in the other mode itself, beside another
    // lock, and once more as at first, elsewhere.
    Repeats {
        name: "acquires_apart",
        parts: &[(
            &[
                Acq(0, 1),
                Acq(1, 2),
                Rel(1, 3),
                Rel(0, 4),
                Racq(0, 5),
                Acq(1, 6),
                Rel(1, 7),
                Rel(0, 8),
                Acq(0, 9),
                Racq(1, 10),
                Rel(1, 11),
                Acq(2, 12),
                Acq(1, 13),
                Rel(1, 14),
                Rel(2, 15),
                Acq(1, 16),
            ],
            1,
        )],
        count: 6,
        wants: &[
            Want(X, [0, 0, 2], [0, 0], &[0], [11, 9, 12]),
            Want(X, [0, 0, 1], [0, 0], &[0, 2], [12, 9, 13]),
            Want(X, [0, 2, 1], [0, 0], &[0, 2], [12, 12, 13]),
        ],
    },
    // Lock 1 is taken inside lock 0 again and again, and then, at place 10,000, lock 3 inside the locks 0 and
    // 2: lock 1 counts once.
    Repeats {
        name: "ten_thousand_repeats",
        parts: &[
            (&[Acq(0, 1)], 1),
            (&[Acq(1, 2), Rel(1, 3)], 4_999),
            (&[Acq(2, 4), Acq(3, 5)], 1),
        ],
        count: 4,
        wants: &[
            Want(X, [0, 0, 1], [0, 0], &[0], [1, 1, 2]),
            Want(X, [0, 0, 2], [0, 0], &[0], [9_999, 1, 4]),
            Want(X, [0, 0, 3], [0, 0], &[0, 2], [10_000, 1, 5]),
            Want(X, [0, 2, 3], [0, 0], &[0, 2], [10_000, 4, 5]),
        ],
    },
];

// Whether these are guards of the locks with these numbers, all of them in the mode.
fn are_locks(guards: &[Guard], numbers: &[u32], mode: LockMode) -> bool {
    if guards.len() != numbers.len() {
        return false;
    }
    for (guard, number) in guards.iter().zip(numbers) {
        if guard.lock != LockId::new(*number) || guard.mode != mode {
            return false;
        }
    }
    true
}

// The place, and the locations' numbers.
fn at_of(sample: &Sample) -> [u32; 3] {
    [
        sample.place,
        sample.held_loc.number(),
        sample.wanted_loc.number(),
    ]
}

// The numbers of the thread and of its locks.
fn numbers_of(edge: &Edge) -> [u32; 3] {
    [
        edge.thread.number(),
        edge.held.number(),
        edge.wanted.number(),
    ]
}

// Whether the edge and its sample are as they are wanted.
fn is_wanted(edge: &Edge, sample: &Sample, want: &Want) -> bool {
    edge.held_mode == want.0
        && edge.wanted_mode == X
        && numbers_of(edge) == want.1
        && [edge.first, edge.second] == want.2
        && are_locks(edge.guards.as_slice(), want.3, want.0)
        && at_of(sample) == want.4
}

// Whether there are as many as are wanted, and each is as it is wanted.
fn are_wanted(pairs: &[(Edge, Sample)], wants: &[Want]) -> bool {
    if pairs.len() != wants.len() {
        return false;
    }
    for ((edge, sample), want) in pairs.iter().zip(wants) {
        if !is_wanted(edge, sample, want) {
            return false;
        }
    }
    true
}

// The edges of the lists. Nothing is told of them, so that little is known where they are looked at; so it is with
// what else is made here.
fn edges_in(alloc: Global, lists: &[&[Op]]) -> Option<EdgeList> {
    lawful_edges(alloc, &lists_of(alloc, lists)?)
}

// Whether the lists have these edges.
fn has_edges(alloc: Global, case: &Case) -> bool {
    match edges_in(alloc, case.lists) {
        Some(edges) => are_wanted(edges.entries(), case.wants),
        None => false,
    }
}

#[test]
fn edges_of_lists(rt: HostRuntime) {
    for (at, case) in EDGES.iter().enumerate() {
        expect(&rt, has_edges(rt.alloc(), case), case.name, at);
    }
}

// Puts these events at the end, so many times.
fn add(list: &mut Vec<Event>, ops: &[Op], times: usize) -> bool {
    for _ in 0..times {
        for op in ops {
            if list.push(event_of(*op)).is_err() {
                return false;
            }
        }
    }
    true
}

// One list of these parts, each so many times.
fn made(alloc: Global, parts: &[(&[Op], usize)]) -> Option<Vec<Event>> {
    let mut list = Vec::new(alloc);
    for (ops, times) in parts {
        if !add(&mut list, ops, *times) {
            return None;
        }
    }
    Some(list)
}

// The edges that are added, with repeats spared.
fn added(alloc: Global, parts: &[(&[Op], usize)]) -> Option<Vec<(Edge, Sample)>> {
    unrepeated(alloc, &made(alloc, parts)?).ok()
}

// Whether there are so many, and these are the last ones.
fn end_with(pairs: &[(Edge, Sample)], count: usize, wants: &[Want]) -> bool {
    pairs.len() == count && wants.len() <= count && are_wanted(&pairs[count - wants.len()..], wants)
}

// Whether so many are added, and these are the last ones.
fn is_spared(alloc: Global, case: &Repeats) -> bool {
    match added(alloc, case.parts) {
        Some(pairs) => end_with(&pairs, case.count, case.wants),
        None => false,
    }
}

#[test]
fn repeats_are_spared(rt: HostRuntime) {
    for (at, case) in REPEATS.iter().enumerate() {
        expect(&rt, is_spared(rt.alloc(), case), case.name, at);
    }
}
