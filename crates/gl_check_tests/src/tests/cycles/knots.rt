//! Many edges that lead to each other.
use super::asks::Ask;
use super::lists::Lists::{Steps, Told};
use super::{Case, expect_all};
use gl_filters::Mode;
use gl_worked::ops::Op::{self, Acq};

const SIXTEEN: &[usize] = &[0, 1, 2, 3, 4, 5, 6, 7, 8, 9, 10, 11, 12, 13, 14, 15];

const ONE: &[Op] = &[Acq(0, 1), Acq(1, 2)];

const OTHER: &[Op] = &[Acq(1, 3), Acq(0, 4)];

const NONE: &[bool] = &[false; 8];

const CASES: &[Case] = &[
    // Sixteen threads, each of which takes its own lock and then the next one's, round: one cycle of
    // sixteen edges, and none of fifteen.
    Case {
        name: "ring_of_sixteen",
        lists: Steps(&[
            (0, 1),
            (1, 2),
            (2, 3),
            (3, 4),
            (4, 5),
            (5, 6),
            (6, 7),
            (7, 8),
            (8, 9),
            (9, 10),
            (10, 11),
            (11, 12),
            (12, 13),
            (13, 14),
            (14, 15),
            (15, 0),
        ]),
        asks: &[
            Ask::Trimmed(Mode::Full, SIXTEEN, &[]),
            Ask::All(Mode::Full, 16, &[SIXTEEN]),
            Ask::All(Mode::Full, 15, &[]),
        ],
    },
    // Three threads take two locks in one order, and three in the other: each two of them are a cycle.
    // Some are asked for, and all, and the same on several threads.
    Case {
        name: "nine_cycles, parallel_as_search",
        lists: Told(&[ONE, ONE, ONE, OTHER, OTHER, OTHER]),
        asks: &[
            Ask::First(4, &[&[0, 3], &[0, 4], &[0, 5], &[1, 3]], true),
            Ask::First(
                9,
                &[
                    &[0, 3],
                    &[0, 4],
                    &[0, 5],
                    &[1, 3],
                    &[1, 4],
                    &[1, 5],
                    &[2, 3],
                    &[2, 4],
                    &[2, 5],
                ],
                false,
            ),
            Ask::Parallel(1, &[&[0, 3]], true),
            Ask::Parallel(4, &[&[0, 3], &[0, 4], &[0, 5], &[1, 3]], true),
            Ask::Parallel(9, &[&[0, 3], &[0, 4], &[0, 5], &[1, 3]], false),
        ],
    },
    // Two edges of a ring of four have a gate lock, and are no neighbours: from Guarded on none of the
    // four has a way back of edges that go with it.
    Case {
        name: "no_way_back",
        lists: Told(&[
            &[Acq(0, 1), Acq(1, 2), Acq(2, 3)],
            &[Acq(2, 4), Acq(3, 5)],
            &[Acq(0, 6), Acq(3, 7), Acq(4, 8)],
            &[Acq(4, 9), Acq(1, 10)],
        ]),
        asks: &[
            Ask::Sought(
                Mode::Basic,
                4,
                &[false, false, true, true, false, false, true, true],
            ),
            Ask::Sought(Mode::Basic, 3, NONE),
            Ask::Sought(Mode::Guarded, 16, NONE),
        ],
    },
];

#[test]
fn knots(rt: HostRuntime) {
    expect_all(&rt, rt.alloc(), CASES);
}
