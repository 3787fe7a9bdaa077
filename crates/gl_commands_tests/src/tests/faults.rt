//! Traces that are refused at a line.
use super::NO_CYCLES;
use super::asks::{Ask, PREDICTION};
use super::runs::{Case, End, Reader, expect_all};
use super::texts::Text::{LongLine, Nested, Told};

const TOO_LONG: End = End::Refused(b"goodlock: line 1: line too long\n");

const CASES: &[Case] = &[
    Case {
        name: "bad_lines, an operand without its end",
        ask: PREDICTION,
        text: Told(b"T0|acq(|3"),
        reader: Reader::Whole,
        end: End::Refused(b"goodlock: line 1: bad operand\n"),
        printed: b"",
    },
    Case {
        name: "bad_lines, no operand",
        ask: PREDICTION,
        text: Told(b"T0|acq|3"),
        reader: Reader::Whole,
        end: End::Refused(b"goodlock: line 1: bad operand\n"),
        printed: b"",
    },
    Case {
        name: "bad_lines, no location",
        ask: PREDICTION,
        text: Told(b"T0|acq(a)"),
        reader: Reader::Whole,
        end: End::Refused(b"goodlock: line 1: no location field\n"),
        printed: b"",
    },
    Case {
        name: "bad_lines, no thread",
        ask: PREDICTION,
        text: Told(b"|acq(a)|1"),
        reader: Reader::Whole,
        end: End::Refused(b"goodlock: line 1: no thread\n"),
        printed: b"",
    },
    Case {
        name: "bad_lines, no bar",
        ask: PREDICTION,
        text: Told(b"T0"),
        reader: Reader::Whole,
        end: End::Refused(b"goodlock: line 1: no bar\n"),
        printed: b"",
    },
    Case {
        name: "bad_lines, a fork of itself",
        ask: PREDICTION,
        text: Told(b"T0|fork(T0)|1"),
        reader: Reader::Whole,
        end: End::Refused(b"goodlock: line 1: thread forks or joins itself\n"),
        printed: b"",
    },
    // Lines of the greatest length, and one that is longer.
    Case {
        name: "longest_line, LF",
        ask: PREDICTION,
        text: LongLine(65_526, b"\n"),
        reader: Reader::Whole,
        end: End::Clean,
        printed: NO_CYCLES,
    },
    Case {
        name: "longest_line, CR LF",
        ask: PREDICTION,
        text: LongLine(65_526, b"\r\n"),
        reader: Reader::Whole,
        end: End::Clean,
        printed: NO_CYCLES,
    },
    Case {
        name: "longest_line, longer",
        ask: PREDICTION,
        text: LongLine(65_527, b"\n"),
        reader: Reader::Whole,
        end: TOO_LONG,
        printed: b"",
    },
    // The same in a session over a text as it comes, however its reads are cut. What is left of a line that is
    // too long isn't asked.
    Case {
        name: "cut_reads_of_long_lines, LF",
        ask: Ask::Stream(64, 4),
        text: LongLine(65_526, b"\n"),
        reader: Reader::Sips(&[1, 2, 3, 7], None),
        end: End::Clean,
        printed: NO_CYCLES,
    },
    Case {
        name: "cut_reads_of_long_lines, CR LF",
        ask: Ask::Stream(64, 4),
        text: LongLine(65_526, b"\r\n"),
        reader: Reader::Sips(&[1, 2, 3, 7], None),
        end: End::Clean,
        printed: NO_CYCLES,
    },
    Case {
        name: "cut_reads_of_long_lines, longer",
        ask: Ask::Stream(64, 4),
        text: LongLine(65_527, b"\n"),
        reader: Reader::Sips(&[1, 2, 3, 7], None),
        end: TOO_LONG,
        printed: b"",
    },
    Case {
        name: "limits_reached",
        ask: PREDICTION,
        text: Nested(65),
        reader: Reader::Whole,
        end: End::Refused(b"goodlock: line 65: too many locks held\n"),
        printed: b"",
    },
];

#[test]
fn refused_lines(rt: HostRuntime) {
    expect_all(&rt, CASES);
}
