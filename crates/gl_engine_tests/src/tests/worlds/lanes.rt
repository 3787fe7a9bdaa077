//! What a thread takes or passes over, and notes that are offered again.
use super::calls::Call::{Does, Log, Runs, Stream, Took};
use super::calls::Turn::{Again, End, Pull, Take};
use super::{Case, OPPOSITE_ORDER, expect_all};
use gl_event::Refusal;
use gl_intake::{Accepted, Refused};
use gl_worked::ops::Op::{Acq, Racq, Rel};
use gl_world::Did;

// Why a note of place 1 is refused where place 0 is next.
const TOO_EARLY: Refused = Refused::Misplaced {
    expected: 0,
    got: 1,
};

const CASES: &[Case] = &[
    Case {
        name: "again_in_a_wide_ring",
        wishes: OPPOSITE_ORDER,
        ring: 8,
        shards: 1,
        first: &[],
        calls: &[
            Took(0, &[]),
            Log(0, &[]),
            Runs(&[Take(0), Take(0)]),
            Took(0, &[Acq(0, 0), Acq(1, 1)]),
            Log(0, &[]),
            Does(Again(0, 1), Did::Refused(TOO_EARLY)),
            Does(Again(0, 0), Did::Nothing),
            Runs(&[Pull(0)]),
            Log(0, &[Acq(0, 0)]),
        ],
    },
    // A release of a lock that isn't held.
    Case {
        name: "passed_and_again",
        wishes: &[&[Rel(5, 0)]],
        ring: 1,
        shards: 1,
        first: &[],
        calls: &[
            Does(Take(0), Did::Passed(Refusal::NotHeld)),
            Does(Take(0), Did::Nothing),
            Does(End(0), Did::Ended),
            Does(Pull(0), Did::Pulled(Accepted::Ended { count: 0 })),
            Does(Again(0, 0), Did::Refused(Refused::Late)),
        ],
    },
    // Who holds a lock shared may not take it exclusively: the wish is used, and nothing else changes.
    Case {
        name: "upgrade_passed_over",
        wishes: &[&[Racq(0, 1), Acq(0, 2), Acq(1, 3)]],
        ring: 8,
        shards: 1,
        first: &[],
        calls: &[
            Does(Take(0), Did::Taken(0)),
            Does(Take(0), Did::Passed(Refusal::Upgrade)),
            Took(0, &[Racq(0, 1)]),
            Stream(&[]),
            Does(Pull(0), Did::Pulled(Accepted::Event { place: 0 })),
            Does(Pull(0), Did::Nothing),
            Does(Take(0), Did::Taken(1)),
        ],
    },
    // An unlawful wish is passed over though the lane is full. A lawful one waits, and so does the end.
    Case {
        name: "full_lane",
        wishes: &[&[Acq(0, 1), Rel(5, 2), Acq(1, 3)]],
        ring: 1,
        shards: 1,
        first: &[],
        calls: &[
            Does(Take(0), Did::Taken(0)),
            Does(End(0), Did::Nothing),
            Does(Take(0), Did::Passed(Refusal::NotHeld)),
            Does(Take(0), Did::Nothing),
            Does(End(0), Did::Nothing),
            Does(Pull(0), Did::Pulled(Accepted::Event { place: 0 })),
            Does(Take(0), Did::Taken(1)),
            Does(End(0), Did::Nothing),
            Does(Pull(0), Did::Pulled(Accepted::Event { place: 1 })),
            Does(End(0), Did::Ended),
        ],
    },
];

#[test]
fn lanes(rt: HostRuntime) {
    expect_all(&rt, rt.alloc(), CASES);
}
