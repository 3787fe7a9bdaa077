//! What `live` prints where it records a text as it comes.
use super::asks::Ask;
use super::runs::{Case, End, Reader, expect_all};
use super::texts::Text::Told;
use super::{
    INCONSISTENT, JOIN_LOOP, NO_CYCLES, OPPOSITE_ORDER, OPPOSITE_ORDER_REPORT, SKIPPED,
    SKIPPED_REPORT, STRAY,
};

const CASES: &[Case] = &[
    Case {
        name: "streamed_as_predict, opposite order",
        ask: Ask::Stream(64, 4),
        text: Told(OPPOSITE_ORDER),
        reader: Reader::Sips(&[1_000], None),
        end: End::Cycles,
        printed: OPPOSITE_ORDER_REPORT,
    },
    Case {
        name: "streamed_as_predict, no events",
        ask: Ask::Stream(64, 4),
        text: Told(b""),
        reader: Reader::Sips(&[1_000], None),
        end: End::Clean,
        printed: NO_CYCLES,
    },
    Case {
        name: "streamed_as_predict, a stray release",
        ask: Ask::Stream(64, 4),
        text: Told(STRAY),
        reader: Reader::Sips(&[1_000], None),
        end: End::Clean,
        printed: NO_CYCLES,
    },
    Case {
        name: "one_thread_too_few",
        ask: Ask::Stream(1, 4),
        text: Told(OPPOSITE_ORDER),
        reader: Reader::Sips(&[1_000], None),
        end: End::Refused(b"goodlock: line 5: too many threads\n"),
        printed: b"",
    },
    Case {
        name: "one_thread_too_few, enough",
        ask: Ask::Stream(2, 4),
        text: Told(OPPOSITE_ORDER),
        reader: Reader::Sips(&[1_000], None),
        end: End::Cycles,
        printed: OPPOSITE_ORDER_REPORT,
    },
    Case {
        name: "cut_reads, opposite order",
        ask: Ask::Stream(1_024, 4),
        text: Told(OPPOSITE_ORDER),
        reader: Reader::Sips(&[1, 2, 3, 7], None),
        end: End::Cycles,
        printed: OPPOSITE_ORDER_REPORT,
    },
    Case {
        name: "cut_reads, skipped lines",
        ask: Ask::Stream(1_024, 4),
        text: Told(SKIPPED),
        reader: Reader::Sips(&[1, 2, 3, 7], None),
        end: End::Cycles,
        printed: SKIPPED_REPORT,
    },
    Case {
        name: "cut_reads, joins that wait for one another",
        ask: Ask::Stream(1_024, 4),
        text: Told(JOIN_LOOP),
        reader: Reader::Sips(&[1, 2, 3, 7], Some(0)),
        end: End::Refused(INCONSISTENT),
        printed: b"",
    },
    Case {
        name: "cut_reads_of_bad_lines, an operand without its end",
        ask: Ask::Stream(64, 4),
        text: Told(b"T0|acq(|3"),
        reader: Reader::Sips(&[1, 2, 3, 7], Some(0)),
        end: End::Refused(b"goodlock: line 1: bad operand\n"),
        printed: b"",
    },
    Case {
        name: "cut_reads_of_bad_lines, no operand",
        ask: Ask::Stream(64, 4),
        text: Told(b"T0|acq|3"),
        reader: Reader::Sips(&[1, 2, 3, 7], Some(0)),
        end: End::Refused(b"goodlock: line 1: bad operand\n"),
        printed: b"",
    },
    Case {
        name: "cut_reads_of_bad_lines, no location",
        ask: Ask::Stream(64, 4),
        text: Told(b"T0|acq(a)"),
        reader: Reader::Sips(&[1, 2, 3, 7], Some(0)),
        end: End::Refused(b"goodlock: line 1: no location field\n"),
        printed: b"",
    },
    Case {
        name: "cut_reads_of_bad_lines, no thread",
        ask: Ask::Stream(64, 4),
        text: Told(b"|acq(a)|1"),
        reader: Reader::Sips(&[1, 2, 3, 7], Some(0)),
        end: End::Refused(b"goodlock: line 1: no thread\n"),
        printed: b"",
    },
    Case {
        name: "cut_reads_of_bad_lines, no bar",
        ask: Ask::Stream(64, 4),
        text: Told(b"T0"),
        reader: Reader::Sips(&[1, 2, 3, 7], Some(0)),
        end: End::Refused(b"goodlock: line 1: no bar\n"),
        printed: b"",
    },
    Case {
        name: "cut_reads_of_bad_lines, a fork of itself",
        ask: Ask::Stream(64, 4),
        text: Told(b"T0|fork(T0)|1"),
        reader: Reader::Sips(&[1, 2, 3, 7], Some(0)),
        end: End::Refused(b"goodlock: line 1: thread forks or joins itself\n"),
        printed: b"",
    },
    // The third line is at fault, and the joins before it can't have happened: the line is what is said,
    // and what follows it, the twelve bytes of the last line, isn't read.
    Case {
        name: "fault_before_all_else",
        ask: Ask::Stream(64, 4),
        text: Told(b"T0|join(T1)|1\nT1|join(T0)|2\nT0|acq(|3\nT0|acq(a)|4\n"),
        reader: Reader::Sips(&[1], Some(12)),
        end: End::Refused(b"goodlock: line 3: bad operand\n"),
        printed: b"",
    },
    Case {
        name: "streams_that_stop, after a line",
        ask: Ask::Stream(64, 4),
        text: Told(b"T0\n"),
        reader: Reader::Cut,
        end: End::Refused(b"goodlock: line 1: no bar\n"),
        printed: b"",
    },
    Case {
        name: "streams_that_stop, in a line",
        ask: Ask::Stream(64, 4),
        text: Told(b"T0"),
        reader: Reader::Cut,
        end: End::ReadFailed,
        printed: b"",
    },
    Case {
        name: "streams_that_stop, after the last line",
        ask: Ask::Stream(64, 4),
        text: Told(OPPOSITE_ORDER),
        reader: Reader::Cut,
        end: End::ReadFailed,
        printed: b"",
    },
];

#[test]
fn streamed(rt: HostRuntime) {
    expect_all(&rt, CASES);
}
