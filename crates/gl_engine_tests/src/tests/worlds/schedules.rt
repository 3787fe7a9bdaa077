//! Worlds that are drained, and their reports.
use super::calls::Call::{self, Does, Drained, NoReport, Report, Reports, Runs, Stream};
use super::calls::Turn::{Again, End, Pull, Ship, Take, Work};
use super::calls::Want;
use super::{Case, OPPOSITE_ORDER, expect_all};
use gl_intake::{Accepted, Refused};
use gl_worked::notes::Told::{Ended, Happened};
use gl_worked::ops::Op::{Acq, Join, Rel};
use gl_world::Did;

// Why a note of place 0 is refused where place 1 is next, or place 2.
const SECOND_NEXT: Refused = Refused::Misplaced {
    expected: 1,
    got: 0,
};

const THIRD_NEXT: Refused = Refused::Misplaced {
    expected: 2,
    got: 0,
};

// Recorders and collector take turns, in rings of one and with three shards. What is collected then.
const TURN_BY_TURN: &[Call] = &[
    Does(Take(1), Did::Taken(0)),
    Does(Pull(1), Did::Pulled(Accepted::Event { place: 0 })),
    Does(Again(1, 0), Did::Refused(SECOND_NEXT)),
    Does(Take(0), Did::Taken(0)),
    Does(Pull(0), Did::Pulled(Accepted::Event { place: 0 })),
    Does(Take(1), Did::Taken(1)),
    Does(Pull(1), Did::Pulled(Accepted::Event { place: 1 })),
    Does(Again(1, 0), Did::Refused(THIRD_NEXT)),
    Does(Take(0), Did::Taken(1)),
    Does(Pull(0), Did::Pulled(Accepted::Event { place: 1 })),
    Does(Take(1), Did::Nothing),
    Does(Pull(1), Did::Nothing),
    Does(Again(1, 0), Did::Refused(THIRD_NEXT)),
    Does(Take(0), Did::Taken(2)),
    Does(Pull(0), Did::Pulled(Accepted::Event { place: 2 })),
    Does(Take(1), Did::Nothing),
    Does(Pull(1), Did::Nothing),
    Does(Again(1, 0), Did::Refused(THIRD_NEXT)),
    Does(Take(0), Did::Taken(3)),
    Does(Pull(0), Did::Pulled(Accepted::Event { place: 3 })),
    Does(Take(1), Did::Nothing),
    Does(Pull(1), Did::Nothing),
    Does(Again(1, 0), Did::Refused(THIRD_NEXT)),
    Does(Take(0), Did::Nothing),
    Does(Pull(0), Did::Nothing),
    Does(End(1), Did::Ended),
    Does(Pull(1), Did::Pulled(Accepted::Ended { count: 2 })),
    Does(End(0), Did::Ended),
    Does(Pull(0), Did::Pulled(Accepted::Ended { count: 4 })),
    Does(Ship, Did::Shipped(1)),
    Does(Work(1), Did::Worked),
    Does(Ship, Did::Shipped(0)),
    Does(Work(2), Did::Nothing),
    Does(Work(3), Did::Nothing),
    Does(Ship, Did::Nothing),
    Does(Work(0), Did::Worked),
    Stream(&[
        Happened(1, 0, Acq(1, 4)),
        Happened(0, 0, Acq(0, 0)),
        Happened(1, 1, Acq(0, 5)),
        Happened(0, 1, Acq(1, 1)),
        Happened(0, 2, Rel(1, 2)),
        Happened(0, 3, Rel(0, 3)),
        Ended(1, 2, 2),
        Ended(0, 4, 4),
    ]),
];

// The edges and the cycle of opposite orders.
const OPPOSITE: Call = Report(
    &[Want([0, 0, 1], [1, 0, 1]), Want([1, 1, 0], [1, 4, 5])],
    &[&[0, 1]],
);

const CASES: &[Case] = &[
    // Two drained worlds in which the threads take the same, by different steps, rings and shards, have one
    // report. This one goes turn by turn, in rings of one note and with three shards.
    Case {
        name: "two_schedules_in_turn",
        wishes: OPPOSITE_ORDER,
        ring: 1,
        shards: 3,
        first: TURN_BY_TURN,
        calls: &[Drained(true), OPPOSITE],
    },
    // And this one goes thread by thread, in wide rings and with one shard. It is drained once the last edge
    // is worked.
    Case {
        name: "two_schedules_at_once",
        wishes: OPPOSITE_ORDER,
        ring: 8,
        shards: 1,
        first: &[],
        calls: &[
            Runs(&[
                Take(0),
                Take(0),
                Take(0),
                Take(0),
                End(0),
                Take(1),
                Take(1),
                End(1),
                Pull(0),
                Pull(0),
                Pull(0),
                Pull(0),
                Pull(0),
                Pull(1),
                Pull(1),
                Pull(1),
                Ship,
                Ship,
                Work(0),
            ]),
            Drained(false),
            Does(Work(0), Did::Worked),
            Drained(true),
            OPPOSITE,
        ],
    },
    // Notes that were collected come again, and steps of threads, places and shards that aren't there are
    // made: nothing changes.
    Case {
        name: "foreign_steps",
        wishes: OPPOSITE_ORDER,
        ring: 1,
        shards: 3,
        first: TURN_BY_TURN,
        calls: &[
            Does(Again(0, 0), Did::Refused(Refused::Late)),
            Does(Again(0, 4), Did::Refused(Refused::Late)),
            Does(Again(0, 5), Did::Nothing),
            Does(Again(9, 0), Did::Nothing),
            Does(Take(9), Did::Nothing),
            Does(Work(5), Did::Nothing),
            Drained(true),
            OPPOSITE,
        ],
    },
    // Two threads that wait for each other's end have no report once both joins are collected.
    Case {
        name: "join_loop",
        wishes: &[&[Join(1, 1)], &[Join(0, 2)]],
        ring: 8,
        shards: 1,
        first: &[],
        calls: &[
            Runs(&[Take(0), Take(1), End(0), End(1), Pull(0), Pull(0)]),
            Reports,
            Runs(&[Pull(1), Pull(1)]),
            Drained(true),
            NoReport(&[(0, 1), (1, 1)]),
        ],
    },
];

#[test]
fn schedules(rt: HostRuntime) {
    expect_all(&rt, rt.alloc(), CASES);
}
