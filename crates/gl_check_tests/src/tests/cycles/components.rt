//! Locks that lead to each other, there and back.
use super::asks::Ask;
use super::lists::Lists::{Steps, Told};
use super::{Case, expect_all};
use gl_worked::ops::Op::{Acq, Racq};

const CASES: &[Case] = &[
    // Locks in a row, against the order of their numbers: no edge lies on a loop.
    Case {
        name: "locks_in_a_row",
        lists: Steps(&[(3, 2), (2, 1), (1, 0), (3, 0)]),
        asks: &[Ask::OnLoops(&[false; 4])],
    },
    // Two rings and a bridge: all but the bridge lie on a loop.
    Case {
        name: "two_rings",
        lists: Steps(&[(4, 0), (0, 2), (2, 4), (2, 1), (1, 3), (3, 1)]),
        asks: &[Ask::OnLoops(&[true, true, true, false, true, true])],
    },
    // Two locks that lead to a third one, the one by way of the other too.
    Case {
        name: "no_rings",
        lists: Steps(&[(0, 3), (4, 3), (4, 0)]),
        asks: &[Ask::OnLoops(&[false; 3])],
    },
    // Readers wait for nobody who reads: both orders of two locks are no loop.
    Case {
        name: "readers_alone",
        lists: Told(&[&[Racq(0, 1), Racq(1, 2)], &[Racq(1, 1), Racq(0, 2)]]),
        asks: &[Ask::OnLoops(&[false; 2])],
    },
    // A writer waits for a reader, but that one for nobody.
    Case {
        name: "one_writer",
        lists: Told(&[&[Racq(0, 1), Acq(1, 2)], &[Racq(1, 1), Racq(0, 2)]]),
        asks: &[Ask::OnLoops(&[false; 2])],
    },
    // Each one reads a lock for which the other one waits as a writer.
    Case {
        name: "two_writers",
        lists: Told(&[&[Racq(0, 1), Acq(1, 2)], &[Racq(1, 1), Acq(0, 2)]]),
        asks: &[Ask::OnLoops(&[true; 2])],
    },
    // A reader waits for a writer, and that one for another reader, who waits for the first one as a writer. A fourth
    // one, who reads all, is on no loop.
    Case {
        name: "readers_and_writers",
        lists: Told(&[
            &[Racq(0, 1), Racq(1, 2)],
            &[Acq(1, 1), Acq(2, 2)],
            &[Racq(2, 1), Acq(0, 2)],
            &[Racq(2, 1), Racq(0, 2)],
        ]),
        asks: &[Ask::OnLoops(&[true, true, true, false])],
    },
];

#[test]
fn components(rt: HostRuntime) {
    expect_all(&rt, rt.alloc(), CASES);
}
