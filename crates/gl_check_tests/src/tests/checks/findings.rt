//! Reports of format 3.
use super::Json::Findings;
use super::{Answer, Case, expect_all};

// Two threads acquire a before b, at other places each. Three acquire b before a: two of them at the same
// places, the first and the third. So there are six cycles, [0,1] and [1,2] of one finding, [0,4] and [2,4]
// of another, and [1,3] and [3,4] each of one more.
const FIVE_THREADS: &[u8] = b"T0|acq(b)|3
T0|acq(a)|4
T0|rel(a)|9
T0|rel(b)|9
T1|acq(a)|1
T1|acq(b)|2
T1|rel(b)|9
T1|rel(a)|9
T2|acq(b)|3
T2|acq(a)|4
T2|rel(a)|9
T2|rel(b)|9
T3|acq(b)|5
T3|acq(a)|6
T3|rel(a)|9
T3|rel(b)|9
T4|acq(a)|7
T4|acq(b)|8
";

// The edges before and after the second one, and that.
const BEFORE: &[u8] =
    b"{\"first\":0,\"guard_modes\":[\"x\"],\"guards\":[\"b\"],\"held\":\"b\",\"held_at\":\"3\",\"held_mode\":\"x\",\"place\":1,\"second\":0,\"thread\":\"T0\",\"wanted\":\"a\",\"wanted_at\":\"4\",\"wanted_mode\":\"x\"}";

const SECOND: &[u8] =
    b"{\"first\":0,\"guard_modes\":[\"x\"],\"guards\":[\"a\"],\"held\":\"a\",\"held_at\":\"1\",\"held_mode\":\"x\",\"place\":1,\"second\":0,\"thread\":\"T1\",\"wanted\":\"b\",\"wanted_at\":\"2\",\"wanted_mode\":\"x\"}";

const AFTER: &[u8] =
    b"{\"first\":0,\"guard_modes\":[\"x\"],\"guards\":[\"b\"],\"held\":\"b\",\"held_at\":\"3\",\"held_mode\":\"x\",\"place\":1,\"second\":0,\"thread\":\"T2\",\"wanted\":\"a\",\"wanted_at\":\"4\",\"wanted_mode\":\"x\"},{\"first\":0,\"guard_modes\":[\"x\"],\"guards\":[\"b\"],\"held\":\"b\",\"held_at\":\"5\",\"held_mode\":\"x\",\"place\":1,\"second\":0,\"thread\":\"T3\",\"wanted\":\"a\",\"wanted_at\":\"6\",\"wanted_mode\":\"x\"},{\"first\":0,\"guard_modes\":[\"x\"],\"guards\":[\"a\"],\"held\":\"a\",\"held_at\":\"7\",\"held_mode\":\"x\",\"place\":1,\"second\":0,\"thread\":\"T4\",\"wanted\":\"b\",\"wanted_at\":\"8\",\"wanted_mode\":\"x\"}";

// The second edge, said to want its lock at another place.
const MOVED: &[u8] =
    b"{\"first\":0,\"guard_modes\":[\"x\"],\"guards\":[\"a\"],\"held\":\"a\",\"held_at\":\"1\",\"held_mode\":\"x\",\"place\":1,\"second\":0,\"thread\":\"T1\",\"wanted\":\"b\",\"wanted_at\":\"8\",\"wanted_mode\":\"x\"}";

// The keys of a report of findings that come last.
const LAST: &[u8] = b",\"format\":3,\"len\":4,\"max\":1000,\"mode\":\"full\",\"more\":false";

// The second edge of a report.
#[derive(Clone, Copy)]
pub(super) enum Second {
    Own,
    Moved,
}

// The text of the edges, with this second one.
pub(super) fn edges_with(second: Second) -> [&'static [u8]; 3] {
    match second {
        Second::Own => [BEFORE, SECOND, AFTER],
        Second::Moved => [BEFORE, MOVED, AFTER],
    }
}

const CASES: &[Case] = &[
    // None, which is true of each trace, since no finding has to be there.
    Case {
        name: "accepted, none",
        lines: FIVE_THREADS,
        json: Findings(Second::Own, b"\"findings\":[]", LAST),
        answer: Answer::Findings(0),
    },
    Case {
        name: "accepted, one",
        lines: FIVE_THREADS,
        json: Findings(Second::Own, b"\"findings\":[[0,1]]", LAST),
        answer: Answer::Findings(1),
    },
    Case {
        name: "accepted, all",
        lines: FIVE_THREADS,
        json: Findings(Second::Own, b"\"findings\":[[0,1],[0,4],[1,3],[3,4]]", LAST),
        answer: Answer::Findings(4),
    },
    // The finding of [0,1] is shown by [1,2]: its signature is below that of [0,4], and the positions are above.
    Case {
        name: "shown_by_other_cycles",
        lines: FIVE_THREADS,
        json: Findings(Second::Own, b"\"findings\":[[1,2],[0,4],[1,3]]", LAST),
        answer: Answer::Findings(3),
    },
    Case {
        name: "out_of_order, swapped",
        lines: FIVE_THREADS,
        json: Findings(Second::Own, b"\"findings\":[[0,4],[0,1]]", LAST),
        answer: Answer::Order(1),
    },
    Case {
        name: "out_of_order, repeated",
        lines: FIVE_THREADS,
        json: Findings(Second::Own, b"\"findings\":[[0,1],[1,3],[1,3]]", LAST),
        answer: Answer::Order(2),
    },
    // One is told twice, by another cycle, whose positions are above.
    Case {
        name: "out_of_order, told twice",
        lines: FIVE_THREADS,
        json: Findings(Second::Own, b"\"findings\":[[0,1],[1,2]]", LAST),
        answer: Answer::Order(1),
    },
    Case {
        name: "out_of_order, told twice by a later cycle",
        lines: FIVE_THREADS,
        json: Findings(Second::Own, b"\"findings\":[[0,4],[2,4]]", LAST),
        answer: Answer::Order(1),
    },
    // Both edges hold the same lock.
    Case {
        name: "no_cycle, open",
        lines: FIVE_THREADS,
        json: Findings(Second::Own, b"\"findings\":[[0,1],[0,2]]", LAST),
        answer: Answer::NotClosed(1, 0),
    },
    // A cycle begins with its greater thread, and is out of order too.
    Case {
        name: "no_cycle, rotated",
        lines: FIVE_THREADS,
        json: Findings(Second::Own, b"\"findings\":[[0,4],[1,0]]", LAST),
        answer: Answer::NotLeast(1, 1),
    },
];

#[test]
fn format_3(rt: HostRuntime) {
    expect_all(&rt, rt.alloc(), CASES);
}

const OTHERS: &[Case] = &[
    // The table is looked at before the findings.
    Case {
        name: "table_tampered",
        lines: FIVE_THREADS,
        json: Findings(Second::Moved, b"\"findings\":[[1,0]]", LAST),
        answer: Answer::Table(1),
    },
    Case {
        name: "shapes, a position beyond the table",
        lines: FIVE_THREADS,
        json: Findings(Second::Own, b"\"findings\":[[0,5]]", LAST),
        answer: Answer::Shape,
    },
    Case {
        name: "shapes, cycles in place of findings",
        lines: FIVE_THREADS,
        json: Findings(Second::Own, b"\"cycles\":[[0,1]]", LAST),
        answer: Answer::Shape,
    },
    Case {
        name: "shapes, cycles beside findings",
        lines: FIVE_THREADS,
        json: Findings(Second::Own, b"\"cycles\":[],\"findings\":[[0,1]]", LAST),
        answer: Answer::Shape,
    },
    Case {
        name: "shapes, a trim order",
        lines: FIVE_THREADS,
        json: Findings(Second::Own, b"\"trim\":null,\"findings\":[[0,1]]", LAST),
        answer: Answer::Shape,
    },
    Case {
        name: "numbers, more findings than asked for",
        lines: FIVE_THREADS,
        json: Findings(
            Second::Own,
            b"\"findings\":[[0,1],[0,4]]",
            b",\"format\":3,\"len\":4,\"max\":1,\"mode\":\"full\",\"more\":true",
        ),
        answer: Answer::Shape,
    },
    Case {
        name: "numbers, a format that has other keys",
        lines: FIVE_THREADS,
        json: Findings(
            Second::Own,
            b"\"findings\":[[0,1],[0,4]]",
            b",\"format\":2,\"len\":4,\"max\":1000,\"mode\":\"full\",\"more\":false",
        ),
        answer: Answer::Shape,
    },
    Case {
        name: "numbers, a format that there isn't",
        lines: FIVE_THREADS,
        json: Findings(
            Second::Own,
            b"\"findings\":[[0,1],[0,4]]",
            b",\"format\":4,\"len\":4,\"max\":1000,\"mode\":\"full\",\"more\":false",
        ),
        answer: Answer::Shape,
    },
];

#[test]
fn other_shapes(rt: HostRuntime) {
    expect_all(&rt, rt.alloc(), OTHERS);
}
