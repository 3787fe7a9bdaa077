//! Edges on their way to the shards' tables.
use super::calls::Call::{Does, Drained, Runs, Tables};
use super::calls::Turn::{End, Pull, Ship, Take, Work};
use super::{Case, expect_all};
use gl_intake::Accepted;
use gl_worked::ops::Op::{Acq, Rel};
use gl_world::Did;

const CASES: &[Case] = &[
    // Each edge goes to the shard of its held lock, and a full feed waits for its worker.
    Case {
        name: "two_shards",
        wishes: &[&[Acq(0, 1), Acq(0, 2), Acq(1, 3), Rel(0, 4), Acq(2, 5)]],
        ring: 1,
        shards: 2,
        first: &[],
        calls: &[
            Does(Take(0), Did::Taken(0)),
            Does(Pull(0), Did::Pulled(Accepted::Event { place: 0 })),
            Does(Take(0), Did::Taken(1)),
            Does(Pull(0), Did::Pulled(Accepted::Event { place: 1 })),
            Does(Take(0), Did::Taken(2)),
            Does(Pull(0), Did::Pulled(Accepted::Event { place: 2 })),
            Does(Take(0), Did::Taken(3)),
            Does(Pull(0), Did::Pulled(Accepted::Event { place: 3 })),
            Does(Take(0), Did::Taken(4)),
            Does(Pull(0), Did::Pulled(Accepted::Event { place: 4 })),
            Does(Ship, Did::Shipped(0)),
            Does(Ship, Did::Nothing),
            Does(Work(0), Did::Worked),
            Does(Ship, Did::Shipped(0)),
            Does(Ship, Did::Shipped(1)),
            Does(Ship, Did::Nothing),
        ],
    },
    // What the tables have, once their workers put it in.
    Case {
        name: "tables_of_shards",
        wishes: &[&[Acq(0, 1), Acq(1, 2), Acq(2, 3)]],
        ring: 8,
        shards: 2,
        first: &[],
        calls: &[
            Runs(&[
                Take(0),
                Take(0),
                Take(0),
                Pull(0),
                Pull(0),
                Pull(0),
                Ship,
                Ship,
                Ship,
                Work(0),
            ]),
            Tables(&[1, 0]),
            Runs(&[Work(1), Work(0)]),
            Tables(&[2, 1]),
            Drained(false),
            Runs(&[End(0), Pull(0)]),
            Drained(true),
        ],
    },
    // Three shards, and locks whose numbers are at least as great.
    Case {
        name: "three_shards",
        wishes: &[&[Acq(4, 1), Acq(5, 2), Acq(3, 3)]],
        ring: 8,
        shards: 3,
        first: &[],
        calls: &[
            Runs(&[Take(0), Pull(0), Take(0), Pull(0), Take(0), Pull(0)]),
            Does(Ship, Did::Shipped(1)),
            Does(Ship, Did::Shipped(1)),
            Does(Ship, Did::Shipped(2)),
            Does(Ship, Did::Nothing),
            Does(Work(0), Did::Nothing),
            Does(Work(1), Did::Worked),
            Does(Work(1), Did::Worked),
            Does(Work(1), Did::Nothing),
            Does(Work(2), Did::Worked),
            Does(Work(3), Did::Nothing),
        ],
    },
];

#[test]
fn shards(rt: HostRuntime) {
    expect_all(&rt, rt.alloc(), CASES);
}
