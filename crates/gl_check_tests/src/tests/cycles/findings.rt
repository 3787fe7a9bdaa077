//! Findings, and how many threads and locks the classes of edges have.
use super::asks::Ask;
use super::lists::Lists::Told;
use super::{Case, expect_all};
use gl_filters::Mode;
use gl_worked::ops::Op::{self, Acq, Fork, Join, Rel};

const COUNTS: &[Case] = &[
    // Two threads that run the same two places, on three locks.
    Case {
        name: "counts_of_one_place",
        lists: Told(&[&[Acq(0, 1), Acq(1, 2)], &[Acq(1, 1), Acq(2, 2)]]),
        asks: &[Ask::Classes(&[(2, 3), (2, 3)])],
    },
    Case {
        name: "counts_of_one_place, of no lists",
        lists: Told(&[]),
        asks: &[Ask::Classes(&[])],
    },
    // A thread that runs one piece of code twice, on four locks, and two that run another, on the same two
    // locks.
    Case {
        name: "counts_of_two_places",
        lists: Told(&[
            &[
                Acq(0, 1),
                Acq(1, 2),
                Rel(1, 5),
                Rel(0, 6),
                Acq(2, 1),
                Acq(3, 2),
            ],
            OTHER,
            OTHER,
        ]),
        asks: &[Ask::Classes(&[(1, 4), (1, 4), (2, 2), (2, 2)])],
    },
    // Edges that share one place alone are of two classes, and a lock that is only a guard isn't counted.
    // The edges of each thread: from its second lock to its third one, 9 to 0, and 9 to its third one.
    Case {
        name: "counts_beside_a_guard",
        lists: Told(&[
            &[Acq(9, 1), Acq(0, 2), Acq(1, 3)],
            &[Acq(9, 1), Acq(0, 4), Acq(2, 3)],
        ]),
        asks: &[Ask::Classes(&[(1, 2), (1, 2), (2, 3), (1, 2), (1, 2), (2, 3)])],
    },
];

#[test]
fn counts_of_classes(rt: HostRuntime) {
    expect_all(&rt, rt.alloc(), COUNTS);
}

// A thread that takes two locks, and one that takes them in the opposite order.
const ONE: &[Op] = &[Acq(0, 1), Acq(1, 2)];

const OTHER: &[Op] = &[Acq(1, 3), Acq(0, 4)];

const FINDINGS: &[Case] = &[
    // Three threads that run one piece of code, and three that run another: nine cycles, one finding.
    Case {
        name: "many_threads",
        lists: Told(&[ONE, ONE, ONE, OTHER, OTHER, OTHER]),
        asks: &[Ask::Findings(Mode::Full, 4, 1, &[&[0, 3]], false)],
    },
    // Two pieces of code, each in conflict with a third one: two findings, by their places.
    Case {
        name: "two_faults",
        lists: Told(&[ONE, OTHER, &[Acq(1, 5), Acq(0, 6)]]),
        asks: &[
            Ask::Findings(Mode::Full, 4, 2, &[&[0, 1], &[0, 2]], false),
            Ask::Findings(Mode::Full, 4, 1, &[&[0, 1]], true),
        ],
    },
    // Threads that take the two locks beside them by one piece of code: one finding, three times its
    // place.
    Case {
        name: "one_place",
        lists: Told(&[
            &[Acq(0, 1), Acq(1, 2)],
            &[Acq(1, 1), Acq(2, 2)],
            &[Acq(2, 1), Acq(0, 2)],
        ]),
        asks: &[
            Ask::Findings(Mode::Full, 3, 1, &[&[0, 1, 2]], false),
            Ask::Findings(Mode::Full, 2, 1, &[], false),
        ],
    },
    // Two pairs of threads with other locks; in the second pair the other thread runs each piece of code.
    // So the cycles' classes are 0, 1 and 1, 0: one signature, told from its least turn.
    Case {
        name: "turned",
        lists: Told(&[ONE, OTHER, &[Acq(2, 3), Acq(3, 4)], &[Acq(3, 1), Acq(2, 2)]]),
        asks: &[Ask::Findings(Mode::Full, 4, 1, &[&[0, 1]], false)],
    },
    // The first thread's edge is in no cycle, but gives its class to the third one's.
    Case {
        name: "class_of_an_earlier_edge",
        lists: Told(&[&[Acq(7, 3), Acq(8, 4)], ONE, OTHER]),
        asks: &[Ask::Findings(Mode::Full, 4, 1, &[&[1, 2]], false)],
    },
    // A gate lock keeps the two apart, but in mode Basic. The edges of a thread ascend by held and wanted
    // lock: 0 to 1, 9 to 0, 9 to 1.
    Case {
        name: "gate_lock",
        lists: Told(&[
            &[Acq(9, 1), Acq(0, 2), Acq(1, 3)],
            &[Acq(9, 4), Acq(1, 5), Acq(0, 6)],
        ]),
        asks: &[
            Ask::Findings(Mode::Basic, 4, 1, &[&[0, 3]], false),
            Ask::Findings(Mode::Guarded, 4, 1, &[], false),
        ],
    },
    // The second thread's part is over before the third one begins, and none is ordered with the fourth.
    Case {
        name: "ordered",
        lists: Told(&[
            &[Fork(1, 1), Join(1, 2), Fork(2, 3)],
            &[Acq(0, 4), Acq(1, 5)],
            &[Acq(1, 6), Acq(0, 7)],
        ]),
        asks: &[
            Ask::Findings(Mode::Full, 4, 1, &[], false),
            Ask::Findings(Mode::Guarded, 4, 1, &[&[0, 1]], false),
        ],
    },
];

#[test]
fn findings(rt: HostRuntime) {
    expect_all(&rt, rt.alloc(), FINDINGS);
}
