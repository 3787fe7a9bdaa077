//! Edges that the search leaves out.
use super::asks::Ask;
use super::lists::Lists::{Apart, Pairs, Rings, Told, UnderGates};
use super::{Case, expect, expect_all};
use gl_filters::Mode;
use gl_worked::ops::Op::{Acq, Fork, Join, Racq, Rel};

const CASES: &[Case] = &[
    // Each edge of the ring goes with edges that lead back from it, but of four edges under two gate
    // locks two have the same one: no cycle goes through any kind.
    Case {
        name: "kinds_of_no_round",
        lists: UnderGates(4, 4, &[4, 5]),
        asks: &[
            Ask::Count(Mode::Basic, 4, 8),
            Ask::Count(Mode::Guarded, 4, 0),
        ],
    },
    // A cycle has one edge of each of four threads at most, and one under each of two gate locks.
    Case {
        name: "kinds_of_no_round, how long",
        lists: UnderGates(4, 4, &[4, 5]),
        asks: &[
            Ask::Longest(Mode::Basic, 8, 4),
            Ask::Longest(Mode::Basic, 3, 3),
            Ask::Longest(Mode::Guarded, 8, 2),
            Ask::Longest(Mode::Full, 8, 2),
        ],
    },
    // Two threads take two locks while they hold a third one shared, and one takes them the other way round while it
    // holds that alone: it has no follower, since each of these is made under the lock. The edges from the third lock
    // lie on no loop.
    Case {
        name: "barred",
        lists: Told(&[
            &[Racq(9, 1), Acq(0, 2), Acq(1, 3)],
            &[Racq(9, 1), Acq(0, 2), Acq(1, 3)],
            &[Acq(9, 1), Acq(1, 2), Acq(0, 3)],
        ]),
        asks: &[
            Ask::Effortless(Mode::Basic, 3),
            Ask::Effortless(Mode::Guarded, 0),
            Ask::Effortless(Mode::Full, 0),
        ],
    },
    // The same, but one of the two doesn't hold the third lock: it makes a cycle with the last one. No two edges are looked
    // at, so the other one's stays too.
    Case {
        name: "barred, but for one",
        lists: Told(&[
            &[Racq(9, 1), Acq(0, 2), Acq(1, 3)],
            &[Acq(0, 2), Acq(1, 3)],
            &[Acq(9, 1), Acq(1, 2), Acq(0, 3)],
        ]),
        asks: &[
            Ask::Effortless(Mode::Guarded, 3),
            Ask::All(Mode::Guarded, 2, &[&[3, 4]]),
        ],
    },
    // The one that holds the third lock alone has a follower that doesn't hold it, but no leader: the thread that goes on from
    // that follower to the lock which it holds has the third one shared.
    Case {
        name: "barred from its leaders",
        lists: Told(&[
            &[Racq(9, 1), Acq(2, 2), Acq(1, 3)],
            &[Acq(0, 2), Acq(2, 3)],
            &[Acq(9, 1), Acq(1, 2), Acq(0, 3)],
        ]),
        asks: &[
            Ask::Effortless(Mode::Basic, 3),
            Ask::Effortless(Mode::Guarded, 0),
        ],
    },
    // Round the ring go four edges, of four threads. Each edge goes with edges of two others that lead
    // back from it, but three threads make no cycle, in whichever of their segments; four do.
    Case {
        name: "more_pieces_than_threads",
        lists: Rings(3),
        asks: &[
            Ask::Count(Mode::Basic, 4, 0),
            Ask::Longest(Mode::Basic, 4, 3),
        ],
    },
    Case {
        name: "more_pieces_than_threads, as many",
        lists: Rings(4),
        asks: &[Ask::Count(Mode::Basic, 4, 480)],
    },
    // Two threads, each of which lets four others run the pieces of a ring of four locks, one after the
    // other's end. Each edge of the ring may run beside edges of the other row that lead back from it, but
    // of four edges in two rows two are in one, where each thread ends before the next one starts: their
    // segments alone show that no cycle goes through any. There are eight threads, four locks that are held, and two
    // rows of threads in turn.
    Case {
        name: "segments_of_no_round",
        lists: Told(&[
            &[
                Fork(1, 1),
                Fork(2, 1),
                Join(2, 2),
                Fork(3, 1),
                Join(3, 2),
                Fork(4, 1),
                Join(4, 2),
                Fork(5, 1),
                Join(5, 2),
            ],
            &[
                Fork(6, 1),
                Join(6, 2),
                Fork(7, 1),
                Join(7, 2),
                Fork(8, 1),
                Join(8, 2),
                Fork(9, 1),
                Join(9, 2),
            ],
            &[Acq(0, 1), Acq(1, 2)],
            &[Acq(1, 1), Acq(2, 2)],
            &[Acq(2, 1), Acq(3, 2)],
            &[Acq(3, 1), Acq(0, 2)],
            &[Acq(0, 1), Acq(1, 2)],
            &[Acq(1, 1), Acq(2, 2)],
            &[Acq(2, 1), Acq(3, 2)],
            &[Acq(3, 1), Acq(0, 2)],
        ]),
        asks: &[
            Ask::Count(Mode::Guarded, 4, 8),
            Ask::Count(Mode::Full, 4, 0),
            Ask::Longest(Mode::Basic, 16, 8),
            Ask::Longest(Mode::Guarded, 16, 4),
            Ask::Longest(Mode::Full, 16, 2),
        ],
    },
    // Three threads, each of which ends before the next one begins, take three locks round, and one beside them all takes
    // two of them the other way. Of two edges one lock is held; and by the order of their segments a cycle has one edge of
    // the three threads, and one of the other.
    Case {
        name: "threads_in_turn",
        lists: Told(&[
            &[
                Fork(1, 1),
                Join(1, 2),
                Fork(2, 1),
                Join(2, 2),
                Fork(3, 1),
                Join(3, 2),
            ],
            &[Acq(0, 1), Acq(1, 2)],
            &[Acq(1, 1), Acq(2, 2)],
            &[Acq(2, 1), Acq(0, 2)],
            &[Acq(1, 1), Acq(0, 2)],
        ]),
        asks: &[
            Ask::Longest(Mode::Basic, 8, 4),
            Ask::Longest(Mode::Guarded, 8, 3),
            Ask::Longest(Mode::Full, 8, 2),
            Ask::All(Mode::Guarded, 4, &[&[0, 1, 2], &[0, 3]]),
            Ask::All(Mode::Full, 4, &[&[0, 3]]),
        ],
    },
    // Of three threads two are there at once.
    Case {
        name: "threads_in_turn, but two",
        lists: Told(&[
            &[
                Fork(1, 1),
                Join(1, 2),
                Fork(2, 1),
                Fork(3, 1),
                Join(2, 2),
                Join(3, 2),
            ],
            &[Acq(0, 1), Acq(1, 2)],
            &[Acq(1, 1), Acq(0, 2)],
            &[Acq(0, 1), Acq(1, 2)],
        ]),
        asks: &[
            Ask::Longest(Mode::Full, 4, 2),
            Ask::All(Mode::Full, 4, &[&[1, 2]]),
        ],
    },
    // A thread has an edge before it forks another one, and one after that: it isn't over when that begins.
    Case {
        name: "threads_in_turn, but later",
        lists: Told(&[
            &[
                Acq(0, 1),
                Acq(1, 2),
                Rel(1, 3),
                Rel(0, 3),
                Fork(1, 4),
                Acq(0, 5),
                Acq(1, 6),
            ],
            &[Acq(1, 1), Acq(0, 2)],
        ]),
        asks: &[
            Ask::Longest(Mode::Full, 4, 2),
            Ask::All(Mode::Full, 4, &[&[1, 2]]),
        ],
    },
    // Two threads take two locks, aside of a ring of four. A cycle of the two has two edges, whatever the ring's have.
    Case {
        name: "components, by threads",
        lists: Told(&[
            &[Acq(0, 1), Acq(1, 2)],
            &[Acq(1, 1), Acq(0, 2)],
            &[Acq(2, 1), Acq(3, 2)],
            &[Acq(3, 1), Acq(4, 2)],
            &[Acq(4, 1), Acq(5, 2)],
            &[Acq(5, 1), Acq(2, 2)],
        ]),
        asks: &[
            Ask::Longest(Mode::Full, 8, 6),
            Ask::Limits(Mode::Full, 8, &[2, 2, 4, 4, 4, 4]),
            Ask::Limits(Mode::Full, 3, &[2, 2, 3, 3, 3, 3]),
        ],
    },
    // Each edge holds one lock or wants it, and a cycle has one edge of either. One edge more lies on no loop.
    Case {
        name: "components, by a lock",
        lists: Told(&[
            &[Acq(0, 1), Acq(1, 2)],
            &[Acq(1, 1), Acq(0, 2)],
            &[Acq(0, 1), Acq(2, 2)],
            &[Acq(2, 1), Acq(0, 2)],
            &[Acq(0, 1), Acq(3, 2)],
            &[Acq(3, 1), Acq(0, 2)],
            &[Acq(1, 1), Acq(9, 2)],
        ]),
        asks: &[
            Ask::Longest(Mode::Basic, 8, 6),
            Ask::Limits(Mode::Basic, 8, &[2, 2, 2, 2, 2, 2, 1]),
        ],
    },
    // A ring of four, each edge under one of two gate locks, which are none in Basic. Edges from a gate lock lie on no loop.
    Case {
        name: "components, by gate locks",
        lists: Told(&[
            &[Acq(8, 1), Acq(0, 2), Acq(1, 3)],
            &[Acq(9, 1), Acq(1, 2), Acq(2, 3)],
            &[Acq(8, 1), Acq(2, 2), Acq(3, 3)],
            &[Acq(9, 1), Acq(3, 2), Acq(0, 3)],
        ]),
        asks: &[
            Ask::Limits(Mode::Basic, 8, &[4, 1, 1, 4, 1, 1, 4, 1, 1, 4, 1, 1]),
            Ask::Limits(Mode::Guarded, 8, &[2, 1, 1, 2, 1, 1, 2, 1, 1, 2, 1, 1]),
        ],
    },
    // Twelve components of two locks, more than are looked at one by one. Only in the last one no gate lock keeps its edges apart.
    Case {
        name: "components, one by one",
        lists: Apart(12),
        asks: &[
            Ask::Count(Mode::Basic, 4, 24),
            Ask::Count(Mode::Guarded, 4, 2),
        ],
    },
    // Two threads take two locks, and two others that are forked once both are joined take them the other way round. So each
    // edge lies on a loop, but on none of its own epoch.
    Case {
        name: "epochs",
        lists: Told(&[
            &[
                Fork(1, 1),
                Fork(2, 1),
                Join(1, 2),
                Join(2, 2),
                Fork(3, 1),
                Fork(4, 1),
            ],
            &[Acq(0, 1), Acq(1, 2)],
            &[Acq(0, 1), Acq(1, 2)],
            &[Acq(1, 1), Acq(0, 2)],
            &[Acq(1, 1), Acq(0, 2)],
        ]),
        asks: &[Ask::AtFirst(Mode::Guarded, 4), Ask::AtFirst(Mode::Full, 0)],
    },
    // One of the first two is joined later, and may run beside the others: no cut is between them.
    Case {
        name: "epochs, but one thread lasts",
        lists: Told(&[
            &[
                Fork(1, 1),
                Fork(2, 1),
                Join(1, 2),
                Fork(3, 1),
                Fork(4, 1),
                Join(2, 2),
            ],
            &[Acq(0, 1), Acq(1, 2)],
            &[Acq(0, 1), Acq(1, 2)],
            &[Acq(1, 1), Acq(0, 2)],
            &[Acq(1, 1), Acq(0, 2)],
        ]),
        asks: &[
            Ask::AtFirst(Mode::Full, 4),
            Ask::All(Mode::Full, 4, &[&[1, 2], &[1, 3]]),
        ],
    },
    // The thread that forks two others takes the locks before that, and again after it joined them: it has edges in the
    // first and in the last of three epochs.
    Case {
        name: "epochs of one thread",
        lists: Told(&[
            &[
                Acq(0, 1),
                Acq(1, 2),
                Rel(1, 3),
                Rel(0, 3),
                Fork(1, 4),
                Fork(2, 4),
                Join(1, 5),
                Join(2, 5),
                Acq(0, 6),
                Acq(1, 7),
            ],
            &[Acq(1, 1), Acq(0, 2)],
            &[Acq(1, 1), Acq(0, 2)],
        ]),
        asks: &[Ask::AtFirst(Mode::Guarded, 4), Ask::AtFirst(Mode::Full, 0)],
    },
    // From the first piece no way leads back past the one across, and so none does from any other. The
    // pieces between can be run under so many choices of gate locks, of which each leaves others across,
    // that no search for rounds ends.
    Case {
        name: "no_way_back_among_many_rounds",
        lists: Pairs(16),
        asks: &[
            Ask::Count(Mode::Basic, 16, 86),
            Ask::Count(Mode::Guarded, 16, 0),
        ],
    },
    // Two threads, of which the second takes the locks under two gate locks in turn, and the first under
    // one of them the other way round. Of two kinds of edges that lead back, one has the gate lock of the
    // edge that they lead to. Its own kind is in no cycle, but the other one is.
    Case {
        name: "one_kind_of_two",
        lists: Told(&[
            &[
                Acq(2, 1),
                Acq(0, 1),
                Acq(1, 1),
                Rel(1, 1),
                Rel(0, 1),
                Rel(2, 1),
            ],
            &[
                Acq(2, 2),
                Acq(1, 2),
                Acq(0, 2),
                Rel(0, 2),
                Rel(1, 2),
                Rel(2, 2),
                Acq(3, 3),
                Acq(1, 3),
                Acq(0, 3),
                Rel(0, 3),
                Rel(1, 3),
                Rel(3, 3),
            ],
        ]),
        asks: &[Ask::First(9, &[&[0, 4]], false)],
    },
];

#[test]
fn pruned(rt: HostRuntime) {
    expect_all(&rt, rt.alloc(), CASES);
}

// Each of the parts has some of 2,000 edges. Under two gate locks no cycle goes through any kind of
// them. Without regard to gate locks each one is in a cycle.
const KINDS_BY_PARTS: Case = Case {
    name: "kinds_by_parts",
    lists: UnderGates(1_000, 4, &[4, 5]),
    asks: &[
        Ask::Count(Mode::Guarded, 4, 0),
        Ask::Count(Mode::Basic, 4, 2_000),
    ],
};

#[test]
fn kinds_by_parts(rt: HostRuntime) {
    expect(&rt, rt.alloc(), &KINDS_BY_PARTS);
}

// Under one gate lock no kind goes on to another.
const ONE_GATE_BY_PARTS: Case = Case {
    name: "one_gate_by_parts",
    lists: UnderGates(1_020, 4, &[4]),
    asks: &[
        Ask::Count(Mode::Guarded, 4, 0),
        Ask::Count(Mode::Basic, 4, 1_020),
        Ask::Longest(Mode::Guarded, 4, 1),
        Ask::Longest(Mode::Basic, 4, 4),
    ],
};

#[test]
fn one_gate_by_parts(rt: HostRuntime) {
    expect(&rt, rt.alloc(), &ONE_GATE_BY_PARTS);
}

// Each of the parts has some of 1,376 edges, between which so many rounds go that no search for them
// ends. No edge has a way back.
const WAYS_BY_PARTS: Case = Case {
    name: "ways_by_parts",
    lists: Pairs(256),
    asks: &[
        Ask::Count(Mode::Basic, 16, 1_376),
        Ask::Count(Mode::Guarded, 16, 0),
    ],
};

#[test]
fn ways_by_parts(rt: HostRuntime) {
    expect(&rt, rt.alloc(), &WAYS_BY_PARTS);
}

const RESTS: &[Case] = &[
    // Round a ring of ten locks go ten edges under ten different gate locks. With nine there is no cycle,
    // but each lesser part of the ring can be run in very many ways, which leave the same gate locks again
    // and again: so many that they can't be gone through without remembering. With ten each edge is in a
    // cycle.
    Case {
        name: "ten_pieces_under_gates, nine",
        lists: UnderGates(10, 10, &[10, 11, 12, 13, 14, 15, 16, 17, 18]),
        asks: &[Ask::Count(Mode::Guarded, 16, 0)],
    },
    Case {
        name: "ten_pieces_under_gates, ten",
        lists: UnderGates(10, 10, &[10, 11, 12, 13, 14, 15, 16, 17, 18, 19]),
        asks: &[Ask::Count(Mode::Guarded, 16, 100)],
    },
];

// Gaps that nothing closes.
#[test]
fn ten_pieces_under_gates(rt: HostRuntime) {
    expect_all(&rt, rt.alloc(), RESTS);
}
