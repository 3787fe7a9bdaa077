//! What is done with sessions on one thread, step by step, and what is answered.
use gl_engine::Pulled;
use gl_worked::ops::Op::{self, Acq, Fork, Join, Rel};

// What a recorder answers to an event.
#[derive(Clone, Copy)]
pub(super) enum Answer {
    // it is taken, at this place
    Taken(u32),
    // the lock isn't held
    NotHeld,
    // the lane is full
    Full,
}

// What is done with a session, by the last of its recorders that are left, and what is answered.
#[derive(Clone, Copy)]
pub(super) enum Step {
    // the recorder answers so to the event, and has taken so many then
    Record(Op, Answer, u32),
    // the recorder is dropped
    DropRecorder,
    // the recorder isn't closed, since the lane is full, and handed back
    CloseFull,
    // the recorder leaves a receipt of this session and so many events
    Close(u64, u32),
    // the recorder closes, and the collector didn't confirm so many events that were taken
    CloseUnconfirmed(u32),
    // the collector is dropped
    DropCollector,
    // the next note of the thread of this number
    Pull(u32, Pulled),
    // the first thread's collected events, and how many notes were collected in all
    Collected(&'static [Op], usize),
    // how many cycles are reported of what was collected so far, and whether there are more
    Report(usize, bool),
}

// A session of so many threads, with so much room in each lane, and what is done with it.
#[derive(Clone, Copy)]
pub(super) struct Case {
    pub(super) name: &'static str,
    pub(super) threads: u32,
    pub(super) ring: u32,
    pub(super) steps: &'static [Step],
}

pub(super) const CASES: &[Case] = &[
    // A lane of one note: each event, and the end mark, waits for the one before it to be pulled.
    Case {
        name: "ring_of_one",
        threads: 1,
        ring: 1,
        steps: &[
            Step::Record(Acq(0, 0), Answer::Taken(0), 1),
            Step::Record(Acq(1, 1), Answer::Full, 1),
            Step::CloseFull,
            Step::Pull(0, Pulled::Event { place: 0 }),
            Step::Record(Acq(1, 1), Answer::Taken(1), 2),
            Step::Pull(0, Pulled::Event { place: 1 }),
            Step::Close(7, 2),
            Step::Pull(0, Pulled::Ended { count: 2 }),
            Step::Pull(0, Pulled::Empty),
            Step::Collected(&[Acq(0, 0), Acq(1, 1)], 3),
        ],
    },
    // A release of a lock that isn't held leaves the recorder as it was.
    Case {
        name: "stray_release",
        threads: 1,
        ring: 8,
        steps: &[
            Step::Record(Rel(0, 1), Answer::NotHeld, 0),
            Step::Record(Acq(1, 2), Answer::Taken(0), 1),
        ],
    },
    // What can't come next is refused also where the lane is full.
    Case {
        name: "refused_before_full",
        threads: 1,
        ring: 1,
        steps: &[
            Step::Record(Acq(0, 1), Answer::Taken(0), 1),
            Step::Record(Rel(1, 2), Answer::NotHeld, 1),
            Step::Record(Rel(0, 3), Answer::Full, 1),
        ],
    },
    // Nobody is left to collect.
    Case {
        name: "nobody_left_to_collect",
        threads: 1,
        ring: 8,
        steps: &[
            Step::DropCollector,
            Step::Record(Acq(0, 1), Answer::Taken(0), 1),
            Step::CloseUnconfirmed(1),
        ],
    },
    // Two threads take two locks in opposite orders. That the first one was joined before the second one
    // was forked is collected later: the cycle of an earlier report is dropped then.
    Case {
        name: "report_so_far_drops",
        threads: 3,
        ring: 8,
        steps: &[
            Step::Record(Acq(1, 3), Answer::Taken(0), 1),
            Step::Record(Acq(0, 4), Answer::Taken(1), 2),
            Step::DropRecorder,
            Step::Record(Acq(0, 1), Answer::Taken(0), 1),
            Step::Record(Acq(1, 2), Answer::Taken(1), 2),
            Step::DropRecorder,
            Step::Pull(1, Pulled::Event { place: 0 }),
            Step::Pull(1, Pulled::Event { place: 1 }),
            Step::Pull(2, Pulled::Event { place: 0 }),
            Step::Pull(2, Pulled::Event { place: 1 }),
            Step::Report(1, false),
            Step::Record(Fork(1, 5), Answer::Taken(0), 1),
            Step::Record(Join(1, 6), Answer::Taken(1), 2),
            Step::Record(Fork(2, 7), Answer::Taken(2), 3),
            Step::DropRecorder,
            Step::Pull(0, Pulled::Event { place: 0 }),
            Step::Pull(0, Pulled::Event { place: 1 }),
            Step::Pull(0, Pulled::Event { place: 2 }),
            Step::Report(0, false),
        ],
    },
];
