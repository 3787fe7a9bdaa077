//! Counts of traces, and traces replayed.
use super::asks::{Ask, COUNTS};
use super::runs::{Case, End, Reader, expect_all};
use super::texts::Text::Told;
use super::{FORKED, INCONSISTENT, JOIN_LOOP, OPPOSITE_ORDER, SKIPPED, STRAY, TWO_CYCLES};
use gl_filters::Mode;

const CASES: &[Case] = &[
    Case {
        name: "counted_texts, no events",
        ask: COUNTS,
        text: Told(b""),
        reader: Reader::Whole,
        end: End::Done,
        printed: b"events: 0\nskipped: 0\nstray: 0\nthreads: 0\nlocks: 0\nsegments: 0\nedges: 0\ncycles: 0\n",
    },
    Case {
        name: "counted_texts, opposite order",
        ask: COUNTS,
        text: Told(OPPOSITE_ORDER),
        reader: Reader::Whole,
        end: End::Done,
        printed: b"events: 6\nskipped: 0\nstray: 0\nthreads: 2\nlocks: 2\nsegments: 2\nedges: 2\ncycles: 1\n",
    },
    Case {
        name: "counted_texts, forked",
        ask: COUNTS,
        text: Told(FORKED),
        reader: Reader::Whole,
        end: End::Done,
        printed: b"events: 5\nskipped: 0\nstray: 0\nthreads: 2\nlocks: 2\nsegments: 3\nedges: 2\ncycles: 1\n",
    },
    Case {
        name: "counted_lines_and_cycles, skipped lines",
        ask: COUNTS,
        text: Told(SKIPPED),
        reader: Reader::Whole,
        end: End::Done,
        printed: b"events: 6\nskipped: 2\nstray: 0\nthreads: 2\nlocks: 2\nsegments: 2\nedges: 2\ncycles: 1\n",
    },
    Case {
        name: "counted_lines_and_cycles, a stray release",
        ask: COUNTS,
        text: Told(STRAY),
        reader: Reader::Whole,
        end: End::Done,
        printed: b"events: 1\nskipped: 0\nstray: 1\nthreads: 1\nlocks: 1\nsegments: 1\nedges: 0\ncycles: 0\n",
    },
    Case {
        name: "counted_lines_and_cycles, one of two cycles",
        ask: Ask::Stats(Mode::Full, 4, 1),
        text: Told(TWO_CYCLES),
        reader: Reader::Whole,
        end: End::Done,
        printed: b"events: 14\nskipped: 0\nstray: 0\nthreads: 2\nlocks: 4\nsegments: 2\nedges: 4\ncycles: 1\n",
    },
    Case {
        name: "replayed_lists, by threads",
        ask: Ask::Replay,
        text: Told(b"T1|acq(b)|5\nT0|acq(a)|1\nT1|rel(b)|6\nT1|r(x)|9\n"),
        reader: Reader::Whole,
        end: End::Done,
        printed: b"T1|acq(b)|5\nT1|rel(b)|6\nT0|acq(a)|1\n",
    },
    Case {
        name: "replayed_lists, CR",
        ask: Ask::Replay,
        text: Told(b"T0|acq(a)|x\r"),
        reader: Reader::Whole,
        end: End::Done,
        printed: b"T0|acq(a)|x\r\r\n",
    },
    // forks and joins that can't have happened
    Case {
        name: "replayed_lists, joins that wait for one another",
        ask: Ask::Replay,
        text: Told(JOIN_LOOP),
        reader: Reader::Whole,
        end: End::Done,
        printed: JOIN_LOOP,
    },
    Case {
        name: "counts_and_replays_refused, counts",
        ask: COUNTS,
        text: Told(JOIN_LOOP),
        reader: Reader::Whole,
        end: End::Refused(INCONSISTENT),
        printed: b"",
    },
    Case {
        name: "counts_and_replays_refused, a replay",
        ask: Ask::Replay,
        text: Told(b"T0|acq(|3"),
        reader: Reader::Whole,
        end: End::Refused(b"goodlock: line 1: bad operand\n"),
        printed: b"",
    },
];

#[test]
fn counts_and_replays(rt: HostRuntime) {
    expect_all(&rt, CASES);
}
