//! What `live` prints: the bytes of `predict`.
use super::asks::Ask;
use super::runs::{Case, End, Reader, expect_all};
use super::texts::Text::{self, Told};
use super::{INCONSISTENT, JOIN_LOOP, NO_CYCLES, OPPOSITE_ORDER, OPPOSITE_ORDER_REPORT, STRAY};
use gl_filters::Mode;

// Sixteen threads hold a lock each and want the next one round.
const RING_REPORT: &[u8] =
    b"cycle 1: 16 edges\n  T0 holds 0 since 1 wants 1 at 1\n  T1 holds 1 since 1 wants 2 at 1\n  T2 holds 2 since 1 wants 3 at 1\n  T3 holds 3 since 1 wants 4 at 1\n  T4 holds 4 since 1 wants 5 at 1\n  T5 holds 5 since 1 wants 6 at 1\n  T6 holds 6 since 1 wants 7 at 1\n  T7 holds 7 since 1 wants 8 at 1\n  T8 holds 8 since 1 wants 9 at 1\n  T9 holds 9 since 1 wants 10 at 1\n  T10 holds 10 since 1 wants 11 at 1\n  T11 holds 11 since 1 wants 12 at 1\n  T12 holds 12 since 1 wants 13 at 1\n  T13 holds 13 since 1 wants 14 at 1\n  T14 holds 14 since 1 wants 15 at 1\n  T15 holds 15 since 1 wants 0 at 1\ncycles: 1\n";

const CASES: &[Case] = &[
    // Two recorder threads, three workers, and room for one note.
    Case {
        name: "live_as_predict, opposite order",
        ask: Ask::Live(2, 3, 1),
        text: Told(OPPOSITE_ORDER),
        reader: Reader::Whole,
        end: End::Cycles,
        printed: OPPOSITE_ORDER_REPORT,
    },
    Case {
        name: "live_as_predict, no events",
        ask: Ask::Live(2, 3, 1),
        text: Told(b""),
        reader: Reader::Whole,
        end: End::Clean,
        printed: NO_CYCLES,
    },
    Case {
        name: "live_as_predict, a stray release",
        ask: Ask::Live(2, 3, 1),
        text: Told(STRAY),
        reader: Reader::Whole,
        end: End::Clean,
        printed: NO_CYCLES,
    },
    Case {
        name: "live_refused, joins that wait for one another",
        ask: Ask::Live(4, 4, 256),
        text: Told(JOIN_LOOP),
        reader: Reader::Whole,
        end: End::Refused(INCONSISTENT),
        printed: b"",
    },
    Case {
        name: "live_refused, a bad operand",
        ask: Ask::Live(4, 4, 256),
        text: Told(b"T0|acq(|3"),
        reader: Reader::Whole,
        end: End::Refused(b"goodlock: line 1: bad operand\n"),
        printed: b"",
    },
    Case {
        name: "live_cut",
        ask: Ask::Live(4, 4, 256),
        text: Told(OPPOSITE_ORDER),
        reader: Reader::Cut,
        end: End::ReadFailed,
        printed: b"",
    },
];

#[test]
fn live_as_predict(rt: HostRuntime) {
    expect_all(&rt, CASES);
}

// The ring of sixteen locks, by `predict` and by so many recorder threads, by one worker and three, with room for one
// note and for 256.
const RINGS: &[Case] = &[
    Case {
        name: "sixteen_lanes, predict",
        ask: Ask::Predict(Mode::Full, 16, 1_000),
        text: Text::Ring,
        reader: Reader::Whole,
        end: End::Cycles,
        printed: RING_REPORT,
    },
    Case {
        name: "sixteen_lanes, 1 and 1, 1",
        ask: Ask::LiveLong(1, 1, 1),
        text: Text::Ring,
        reader: Reader::Whole,
        end: End::Cycles,
        printed: RING_REPORT,
    },
    Case {
        name: "sixteen_lanes, 1 and 1, 256",
        ask: Ask::LiveLong(1, 1, 256),
        text: Text::Ring,
        reader: Reader::Whole,
        end: End::Cycles,
        printed: RING_REPORT,
    },
    Case {
        name: "sixteen_lanes, 1 and 3, 1",
        ask: Ask::LiveLong(1, 3, 1),
        text: Text::Ring,
        reader: Reader::Whole,
        end: End::Cycles,
        printed: RING_REPORT,
    },
    Case {
        name: "sixteen_lanes, 1 and 3, 256",
        ask: Ask::LiveLong(1, 3, 256),
        text: Text::Ring,
        reader: Reader::Whole,
        end: End::Cycles,
        printed: RING_REPORT,
    },
    Case {
        name: "sixteen_lanes, 4 and 1, 1",
        ask: Ask::LiveLong(4, 1, 1),
        text: Text::Ring,
        reader: Reader::Whole,
        end: End::Cycles,
        printed: RING_REPORT,
    },
    Case {
        name: "sixteen_lanes, 4 and 1, 256",
        ask: Ask::LiveLong(4, 1, 256),
        text: Text::Ring,
        reader: Reader::Whole,
        end: End::Cycles,
        printed: RING_REPORT,
    },
    Case {
        name: "sixteen_lanes, 4 and 3, 1",
        ask: Ask::LiveLong(4, 3, 1),
        text: Text::Ring,
        reader: Reader::Whole,
        end: End::Cycles,
        printed: RING_REPORT,
    },
    Case {
        name: "sixteen_lanes, 4 and 3, 256",
        ask: Ask::LiveLong(4, 3, 256),
        text: Text::Ring,
        reader: Reader::Whole,
        end: End::Cycles,
        printed: RING_REPORT,
    },
];

#[test]
fn sixteen_lanes(rt: HostRuntime) {
    expect_all(&rt, RINGS);
}

// By as many recorder threads as there are lanes.
const RINGS_OF_RECORDERS: &[Case] = &[
    Case {
        name: "sixteen_lanes, 16 and 1, 1",
        ask: Ask::LiveLong(16, 1, 1),
        text: Text::Ring,
        reader: Reader::Whole,
        end: End::Cycles,
        printed: RING_REPORT,
    },
    Case {
        name: "sixteen_lanes, 16 and 1, 256",
        ask: Ask::LiveLong(16, 1, 256),
        text: Text::Ring,
        reader: Reader::Whole,
        end: End::Cycles,
        printed: RING_REPORT,
    },
    Case {
        name: "sixteen_lanes, 16 and 3, 1",
        ask: Ask::LiveLong(16, 3, 1),
        text: Text::Ring,
        reader: Reader::Whole,
        end: End::Cycles,
        printed: RING_REPORT,
    },
    Case {
        name: "sixteen_lanes, 16 and 3, 256",
        ask: Ask::LiveLong(16, 3, 256),
        text: Text::Ring,
        reader: Reader::Whole,
        end: End::Cycles,
        printed: RING_REPORT,
    },
];

#[test]
fn sixteen_recorders(rt: HostRuntime) {
    expect_all(&rt, RINGS_OF_RECORDERS);
}
