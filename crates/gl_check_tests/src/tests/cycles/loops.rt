//! Edges that lie on loops of the lock-order graph, and edges that lie on none.
use super::asks::Ask;
use super::lists::Lists::Told;
use super::{Case, expect_all};
use gl_filters::Mode;
use gl_worked::ops::Op::{Acq, Rel};

const LOW: u32 = 3_000_000_000;

const MID: u32 = 4_000_000_000;

const HIGH: u32 = 4_294_967_295;

const CASES: &[Case] = &[
    // Locks 0 and 1 are a loop, and so are 2 and 3. The second edge leads from the one to the other, and
    // no edge leads back.
    Case {
        name: "two_loops_and_a_bridge",
        lists: Told(&[
            &[
                Acq(0, 1),
                Acq(1, 2),
                Rel(0, 3),
                Acq(2, 4),
                Rel(1, 5),
                Acq(3, 6),
            ],
            &[
                Acq(1, 7),
                Acq(0, 8),
                Rel(0, 9),
                Rel(1, 10),
                Acq(3, 11),
                Acq(2, 12),
            ],
        ]),
        asks: &[
            Ask::All(Mode::Basic, 4, &[&[0, 3], &[2, 4]]),
            Ask::All(Mode::Guarded, 4, &[&[0, 3], &[2, 4]]),
            Ask::All(Mode::Full, 4, &[&[0, 3], &[2, 4]]),
        ],
    },
    // Two loops go through lock 1. The third edge of the first thread leads on from lock 2 to a lock
    // from which nothing leads.
    Case {
        name: "two_loops_through_one_lock",
        lists: Told(&[
            &[
                Acq(0, 1),
                Acq(1, 2),
                Rel(0, 3),
                Acq(2, 4),
                Rel(1, 5),
                Acq(9, 6),
            ],
            &[
                Acq(1, 7),
                Acq(0, 8),
                Rel(0, 9),
                Rel(1, 10),
                Acq(2, 11),
                Acq(1, 12),
            ],
        ]),
        asks: &[Ask::All(Mode::Full, 4, &[&[0, 3], &[1, 4]])],
    },
    // A ring of three locks with great numbers, an edge into it and one out of it.
    Case {
        name: "ring_with_a_way_in_and_a_way_out",
        lists: Told(&[
            &[Acq(5, 1), Acq(LOW, 2), Rel(5, 3), Acq(MID, 4)],
            &[Acq(MID, 5), Acq(HIGH, 6), Rel(MID, 7), Acq(7, 8)],
            &[Acq(HIGH, 9), Acq(LOW, 10)],
        ]),
        asks: &[
            Ask::All(Mode::Full, 3, &[&[1, 2, 4]]),
            Ask::All(Mode::Full, 2, &[]),
        ],
    },
];

#[test]
fn loops(rt: HostRuntime) {
    expect_all(&rt, rt.alloc(), CASES);
}
