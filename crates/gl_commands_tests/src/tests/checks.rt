//! Reports that are checked with their traces.
use super::INCONSISTENT;
use super::asks::Ask;
use super::runs::{Case, End, Reader, expect_all};
use super::texts::Text::{Tail, Told};

// The report of two threads that take two locks in opposite order, and their trace.
pub(super) const TRUE_REPORT: &[u8] =
    b"{\"cycles\":[[{\"first\":0,\"guards\":[\"a\"],\"held\":\"a\",\"held_at\":\"1\",\"place\":1,\"second\":0,\"thread\":\"T0\",\"wanted\":\"b\",\"wanted_at\":\"2\"},{\"first\":0,\"guards\":[\"b\"],\"held\":\"b\",\"held_at\":\"5\",\"place\":1,\"second\":0,\"thread\":\"T1\",\"wanted\":\"a\",\"wanted_at\":\"6\"}]],\"format\":1,\"len\":4,\"max\":1000,\"mode\":\"full\",\"more\":false}\nT0|acq(a)|1\nT0|acq(b)|2\nT0|rel(b)|3\nT0|rel(a)|4\nT1|acq(b)|5\nT1|acq(a)|6\n";

// With another place of the second edge.
const MOVED_EDGE: &[u8] =
    b"{\"cycles\":[[{\"first\":0,\"guards\":[\"a\"],\"held\":\"a\",\"held_at\":\"1\",\"place\":1,\"second\":0,\"thread\":\"T0\",\"wanted\":\"b\",\"wanted_at\":\"2\"},{\"first\":0,\"guards\":[\"b\"],\"held\":\"b\",\"held_at\":\"5\",\"place\":0,\"second\":0,\"thread\":\"T1\",\"wanted\":\"a\",\"wanted_at\":\"6\"}]],\"format\":1,\"len\":4,\"max\":1000,\"mode\":\"full\",\"more\":false}\nT0|acq(a)|1\nT0|acq(b)|2\nT0|rel(b)|3\nT0|rel(a)|4\nT1|acq(b)|5\nT1|acq(a)|6\n";

// A report that lists nothing, of two threads that wait for one another to end.
const JOIN_LOOP_REPORT: &[u8] =
    b"{\"cycles\":[],\"format\":1,\"len\":4,\"max\":1000,\"mode\":\"full\",\"more\":false}\nT0|join(T1)|1\nT1|join(T0)|2\n";

const CASES: &[Case] = &[
    Case {
        name: "checked_line",
        ask: Ask::Check,
        text: Told(TRUE_REPORT),
        reader: Reader::Whole,
        end: End::Done,
        printed: b"ok, cycles: 1\n",
    },
    Case {
        name: "report_tampered, another place",
        ask: Ask::Check,
        text: Told(MOVED_EDGE),
        reader: Reader::Whole,
        end: End::Refused(b"goodlock: cycle 0 edge 1 is not in the trace\n"),
        printed: b"",
    },
    Case {
        name: "report_tampered, no first byte",
        ask: Ask::Check,
        text: Tail(TRUE_REPORT),
        reader: Reader::Whole,
        end: End::Refused(b"goodlock: report is not JSON\n"),
        printed: b"",
    },
    Case {
        name: "report_tampered, another shape",
        ask: Ask::Check,
        text: Told(b"{}"),
        reader: Reader::Whole,
        end: End::Refused(b"goodlock: report has the wrong shape\n"),
        printed: b"",
    },
    Case {
        name: "report_tampered, joins that wait for one another",
        ask: Ask::Check,
        text: Told(JOIN_LOOP_REPORT),
        reader: Reader::Whole,
        end: End::Refused(INCONSISTENT),
        printed: b"",
    },
    // the lines of the trace are counted from its first one, and looked at before the report
    Case {
        name: "trace_fault_first, before the shape",
        ask: Ask::Check,
        text: Told(b"{}\nT0|acq(|3\n"),
        reader: Reader::Whole,
        end: End::Refused(b"goodlock: line 1: bad operand\n"),
        printed: b"",
    },
    Case {
        name: "trace_fault_first, in the second line",
        ask: Ask::Check,
        text: Told(b"\nT0|acq(a)|3\nT0"),
        reader: Reader::Whole,
        end: End::Refused(b"goodlock: line 2: no bar\n"),
        printed: b"",
    },
    Case {
        name: "cut_evidence, after a line",
        ask: Ask::Check,
        text: Told(b"{}\nT0\nT1"),
        reader: Reader::Cut,
        end: End::Refused(b"goodlock: line 1: no bar\n"),
        printed: b"",
    },
    Case {
        name: "cut_evidence, in the first line",
        ask: Ask::Check,
        text: Told(b"{}\nT0"),
        reader: Reader::Cut,
        end: End::ReadFailed,
        printed: b"",
    },
    Case {
        name: "cut_evidence, in the report",
        ask: Ask::Check,
        text: Told(b"T0"),
        reader: Reader::Cut,
        end: End::ReadFailed,
        printed: b"",
    },
    Case {
        name: "evidence_in_too_few_turns",
        ask: Ask::Check,
        text: Told(TRUE_REPORT),
        reader: Reader::Turns(1),
        end: End::ReadFailed,
        printed: b"",
    },
];

#[test]
fn checked_reports(rt: HostRuntime) {
    expect_all(&rt, CASES);
}
