//! The cycles of a few threads.
use super::asks::Ask;
use super::lists::Lists::Told;
use super::{Case, expect_all};
use gl_cycles::Cycles;
use gl_filters::Mode;
use gl_worked::cycles::are_cycles;
use gl_worked::ops::Op::{Acq, Fork, Join, Rel};
use std::alloc::Global;

const CASES: &[Case] = &[
    // No lists.
    Case {
        name: "empty_input",
        lists: Told(&[]),
        asks: &[Ask::All(Mode::Full, 4, &[])],
    },
    // Two threads take two locks in opposite orders.
    Case {
        name: "opposite_order",
        lists: Told(&[
            &[Acq(0, 1), Acq(1, 2), Rel(1, 3), Rel(0, 4)],
            &[Acq(1, 5), Acq(0, 6)],
        ]),
        asks: &[Ask::All(Mode::Full, 4, &[&[0, 1]])],
    },
    // Both threads hold lock 0 while they take locks 1 and 2 in opposite orders.
    Case {
        name: "gate_lock",
        lists: Told(&[
            &[
                Acq(0, 1),
                Acq(1, 2),
                Acq(2, 3),
                Rel(2, 4),
                Rel(1, 5),
                Rel(0, 6),
            ],
            &[Acq(0, 7), Acq(2, 8), Acq(1, 9)],
        ]),
        asks: &[
            Ask::All(Mode::Basic, 4, &[&[2, 5]]),
            Ask::All(Mode::Guarded, 4, &[]),
            Ask::All(Mode::Full, 4, &[]),
        ],
    },
    // A gate lock of two edges that are no neighbours in the cycle.
    Case {
        name: "gate_lock_four_threads",
        lists: Told(&[
            &[Acq(0, 1), Acq(1, 2), Acq(2, 3)],
            &[Acq(2, 4), Acq(3, 5)],
            &[Acq(0, 6), Acq(3, 7), Acq(4, 8)],
            &[Acq(4, 9), Acq(1, 10)],
        ]),
        asks: &[
            Ask::All(Mode::Basic, 4, &[&[2, 3, 6, 7]]),
            Ask::All(Mode::Guarded, 4, &[]),
        ],
    },
    // Thread 0 joins thread 1 before it forks thread 2: then the two never run at once.
    Case {
        name: "joined_before",
        lists: Told(&[
            &[Fork(1, 1), Join(1, 2), Fork(2, 3)],
            &[Acq(0, 4), Acq(1, 5), Rel(1, 6), Rel(0, 7)],
            &[Acq(1, 8), Acq(0, 9)],
        ]),
        asks: &[
            Ask::All(Mode::Guarded, 4, &[&[0, 1]]),
            Ask::All(Mode::Full, 4, &[]),
        ],
    },
    // A thread is forked while a lock is held: the acquire after the fork may meet it.
    Case {
        name: "fork_while_holding",
        lists: Told(&[&[Acq(0, 1), Fork(1, 2), Acq(1, 3)], &[Acq(1, 4), Acq(0, 5)]]),
        asks: &[Ask::All(Mode::Full, 4, &[&[0, 1]])],
    },
    // Three threads, each of which takes two of three locks, round.
    Case {
        name: "three_lock_ring",
        lists: Told(&[
            &[Acq(0, 1), Acq(1, 2)],
            &[Acq(1, 3), Acq(2, 4)],
            &[Acq(2, 5), Acq(0, 6)],
        ]),
        asks: &[
            Ask::All(Mode::Full, 3, &[&[0, 1, 2]]),
            Ask::All(Mode::Full, 2, &[]),
        ],
    },
    // A lock that is acquired twice and released once is still held.
    Case {
        name: "reentrant_acquire",
        lists: Told(&[
            &[Acq(0, 1), Acq(0, 2), Acq(1, 3), Rel(0, 4), Acq(2, 5)],
            &[Acq(2, 6), Acq(0, 7)],
        ]),
        asks: &[Ask::All(Mode::Full, 4, &[&[1, 3]])],
    },
    // One thread takes two locks in both orders, and never meets itself.
    Case {
        name: "one_thread_both_orders",
        lists: Told(&[&[
            Acq(0, 1),
            Acq(1, 2),
            Rel(1, 3),
            Rel(0, 4),
            Acq(1, 5),
            Acq(0, 6),
        ]]),
        asks: &[
            Ask::All(Mode::Basic, 4, &[]),
            Ask::All(Mode::Guarded, 4, &[]),
            Ask::All(Mode::Full, 4, &[]),
        ],
    },
    // Two cycles, of which one is asked for, and then both.
    Case {
        name: "first_of_two_cycles",
        lists: Told(&[
            &[
                Acq(0, 1),
                Acq(1, 2),
                Rel(1, 3),
                Rel(0, 4),
                Acq(2, 5),
                Acq(3, 6),
                Rel(3, 7),
                Rel(2, 8),
            ],
            &[
                Acq(1, 9),
                Acq(0, 10),
                Rel(0, 11),
                Rel(1, 12),
                Acq(3, 13),
                Acq(2, 14),
            ],
        ]),
        asks: &[
            Ask::First(1, &[&[0, 2]], true),
            Ask::First(2, &[&[0, 2], &[1, 3]], false),
        ],
    },
];

#[test]
fn cycles_of_lists(rt: HostRuntime) {
    expect_all(&rt, rt.alloc(), CASES);
}

// Two lists of two numbers.
fn two_lists(alloc: Global) -> Option<Vec<Vec<usize>>> {
    let mut lists = Vec::new(alloc);
    lists.push(Vec::from_slice(alloc, &[0, 2]).ok()?).ok()?;
    lists.push(Vec::from_slice(alloc, &[1, 3]).ok()?).ok()?;
    Some(lists)
}

// Cycles are made from a list of lists and give it back.
#[test]
fn cycles_as_lists(rt: HostRuntime) {
    let wanted: [&[usize]; 2] = [&[0, 2], &[1, 3]];
    let lists = two_lists(rt.alloc()).expect(&rt, "memory");
    let cycles = Cycles::from_vec(lists);
    assert!(rt; are_cycles(cycles.as_slice(), &wanted));
    assert!(rt; are_cycles(&cycles.into_vec(), &wanted));
}
