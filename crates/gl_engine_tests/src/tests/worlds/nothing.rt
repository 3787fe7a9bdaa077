//! Steps that aren't enabled.
use super::calls::Call::Does;
use super::calls::Turn::{Again, End, Pull, Ship, Take, Work};
use super::{Case, expect_all};
use gl_intake::Accepted;
use gl_worked::ops::Op::Acq;
use gl_world::Did;

const CASES: &[Case] = &[
    // Threads, places and shards that aren't there, an empty lane, the front of a lane, and no edges.
    Case {
        name: "nothing_to_do",
        wishes: &[&[Acq(0, 1)]],
        ring: 8,
        shards: 2,
        first: &[],
        calls: &[
            Does(Take(1), Did::Nothing),
            Does(End(1), Did::Nothing),
            Does(Pull(1), Did::Nothing),
            Does(Again(1, 0), Did::Nothing),
            Does(Pull(0), Did::Nothing),
            Does(Again(0, 0), Did::Nothing),
            Does(Again(0, 1), Did::Nothing),
            Does(Ship, Did::Nothing),
            Does(Work(0), Did::Nothing),
            Does(Work(2), Did::Nothing),
            Does(Take(0), Did::Taken(0)),
            Does(Take(0), Did::Nothing),
            Does(Again(0, 0), Did::Nothing),
            Does(Again(0, 1), Did::Nothing),
        ],
    },
    // A thread that has ended takes no wish, and doesn't end once more.
    Case {
        name: "nothing_after_the_end",
        wishes: &[&[Acq(0, 1), Acq(1, 2)]],
        ring: 8,
        shards: 1,
        first: &[],
        calls: &[
            Does(Take(0), Did::Taken(0)),
            Does(End(0), Did::Ended),
            Does(Take(0), Did::Nothing),
            Does(End(0), Did::Nothing),
            Does(Pull(0), Did::Pulled(Accepted::Event { place: 0 })),
            Does(Pull(0), Did::Pulled(Accepted::Ended { count: 1 })),
            Does(Pull(0), Did::Nothing),
            Does(Take(0), Did::Nothing),
            Does(End(0), Did::Nothing),
        ],
    },
];

#[test]
fn steps_not_enabled(rt: HostRuntime) {
    expect_all(&rt, rt.alloc(), CASES);
}
