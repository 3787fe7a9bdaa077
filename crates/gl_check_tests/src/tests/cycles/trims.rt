//! What is left where edges without a follower or a leader go.
use super::asks::Ask;
use super::lists::Lists::Told;
use super::{Case, expect_all};
use gl_filters::Mode;
use gl_worked::ops::Op::{Acq, Rel};

const CASES: &[Case] = &[
    // A lock is released while one that was acquired after it is still held: each edge alone. The first
    // has no leader, and the second has none either once that is gone.
    Case {
        name: "crossed_releases",
        lists: Told(&[&[Acq(0, 1), Acq(1, 2), Rel(0, 3), Acq(2, 4)]]),
        asks: &[Ask::Trimmed(Mode::Full, &[], &[0, 1])],
    },
    // The edges from lock 0 to 2 and on the way to it are stuck, and the two of the cycle are not.
    Case {
        name: "trimmed_to_the_cycle",
        lists: Told(&[
            &[Acq(0, 1), Acq(0, 2), Acq(1, 3), Rel(0, 4), Acq(2, 5)],
            &[Acq(2, 6), Acq(0, 7)],
        ]),
        asks: &[Ask::Trimmed(Mode::Full, &[1, 3], &[0, 2])],
    },
    // An edge of the same thread is no follower.
    Case {
        name: "one_thread_trimmed",
        lists: Told(&[&[
            Acq(0, 1),
            Acq(1, 2),
            Rel(1, 3),
            Rel(0, 4),
            Acq(1, 5),
            Acq(0, 6),
        ]]),
        asks: &[
            Ask::Trimmed(Mode::Basic, &[], &[0, 1]),
            Ask::Trimmed(Mode::Guarded, &[], &[0, 1]),
            Ask::Trimmed(Mode::Full, &[], &[0, 1]),
        ],
    },
];

#[test]
fn trimmed(rt: HostRuntime) {
    expect_all(&rt, rt.alloc(), CASES);
}
