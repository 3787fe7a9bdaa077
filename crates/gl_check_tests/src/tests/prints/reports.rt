//! Worked reports.
use super::{Case, Print, Told, expect_all};
use crate::tests::OPPOSITE_ORDER;
use gl_event::LockMode;

const X: LockMode = LockMode::Exclusive;

const S: LockMode = LockMode::Shared;

const CASES: &[Case] = &[
    Case {
        name: "empty_input",
        lines: b"",
        edges: &[],
        cycles: &[],
        more: false,
        trim: None,
        prints: &[
            Print::Text(b"cycles: 0\n"),
            Print::Format1(
                b"{\"cycles\":[],\"format\":1,\"len\":4,\"max\":1000,\"mode\":\"full\",\"more\":false}\n",
            ),
            Print::Counts(
                b"events: 0\nskipped: 0\nstray: 0\nthreads: 0\nlocks: 0\nsegments: 0\nedges: 0\ncycles: 0\n",
            ),
            Print::FindingsText(b"findings: 0\n"),
            Print::FindingsJson(
                b"{\"edges\":[],\"findings\":[],\"format\":3,\"len\":4,\"max\":1000,\"mode\":\"full\",\"more\":false}\n",
            ),
        ],
    },
    Case {
        name: "empty_report",
        lines: b"",
        edges: &[],
        cycles: &[],
        more: false,
        trim: Some(&[]),
        prints: &[Print::Json(
            b"{\"cycles\":[],\"edges\":[],\"format\":2,\"len\":4,\"max\":1000,\"mode\":\"full\",\"more\":false,\"trim\":[]}\n",
        )],
    },
    Case {
        name: "opposite_order",
        lines: OPPOSITE_ORDER,
        edges: &[Told(X, [0, 0, 1], [1, 0, 1]), Told(X, [1, 1, 0], [1, 4, 5])],
        cycles: &[&[0, 1]],
        more: false,
        trim: None,
        prints: &[
            Print::Text(
                b"cycle 1: 2 edges\n  T0 holds a since 1 wants b at 2\n  T1 holds b since 5 wants a at 6\ncycles: 1\n",
            ),
            Print::Format1(
                b"{\"cycles\":[[{\"first\":0,\"guards\":[\"a\"],\"held\":\"a\",\"held_at\":\"1\",\"place\":1,\"second\":0,\"thread\":\"T0\",\"wanted\":\"b\",\"wanted_at\":\"2\"},{\"first\":0,\"guards\":[\"b\"],\"held\":\"b\",\"held_at\":\"5\",\"place\":1,\"second\":0,\"thread\":\"T1\",\"wanted\":\"a\",\"wanted_at\":\"6\"}]],\"format\":1,\"len\":4,\"max\":1000,\"mode\":\"full\",\"more\":false}\n",
            ),
            Print::Counts(
                b"events: 6\nskipped: 0\nstray: 0\nthreads: 2\nlocks: 2\nsegments: 2\nedges: 2\ncycles: 1\n",
            ),
        ],
    },
    Case {
        name: "finding_of_opposite_order",
        lines: OPPOSITE_ORDER,
        edges: &[Told(X, [0, 0, 1], [1, 0, 1]), Told(X, [1, 1, 0], [1, 4, 5])],
        cycles: &[&[0, 1]],
        more: true,
        trim: None,
        prints: &[
            Print::FindingsText(
                b"finding 1: 2 edges\n  T0 holds a since 1 wants b at 2\n    threads: 1, locks: 2\n  T1 holds b since 5 wants a at 6\n    threads: 1, locks: 2\nfindings: 1 (more)\n",
            ),
            Print::FindingsJson(
                b"{\"edges\":[{\"first\":0,\"guard_modes\":[\"x\"],\"guards\":[\"a\"],\"held\":\"a\",\"held_at\":\"1\",\"held_mode\":\"x\",\"place\":1,\"second\":0,\"thread\":\"T0\",\"wanted\":\"b\",\"wanted_at\":\"2\",\"wanted_mode\":\"x\"},{\"first\":0,\"guard_modes\":[\"x\"],\"guards\":[\"b\"],\"held\":\"b\",\"held_at\":\"5\",\"held_mode\":\"x\",\"place\":1,\"second\":0,\"thread\":\"T1\",\"wanted\":\"a\",\"wanted_at\":\"6\",\"wanted_mode\":\"x\"}],\"findings\":[[0,1]],\"format\":3,\"len\":4,\"max\":1000,\"mode\":\"full\",\"more\":true}\n",
            ),
        ],
    },
    // T1 holds its lock as a reader.
    Case {
        name: "json_of_opposite_order",
        lines: OPPOSITE_ORDER,
        edges: &[Told(X, [0, 0, 1], [1, 0, 1]), Told(S, [1, 1, 0], [1, 4, 5])],
        cycles: &[&[0, 1]],
        more: false,
        trim: None,
        prints: &[Print::Json(
            b"{\"cycles\":[[0,1]],\"edges\":[{\"first\":0,\"guard_modes\":[\"x\"],\"guards\":[\"a\"],\"held\":\"a\",\"held_at\":\"1\",\"held_mode\":\"x\",\"place\":1,\"second\":0,\"thread\":\"T0\",\"wanted\":\"b\",\"wanted_at\":\"2\",\"wanted_mode\":\"x\"},{\"first\":0,\"guard_modes\":[\"s\"],\"guards\":[\"b\"],\"held\":\"b\",\"held_at\":\"5\",\"held_mode\":\"s\",\"place\":1,\"second\":0,\"thread\":\"T1\",\"wanted\":\"a\",\"wanted_at\":\"6\",\"wanted_mode\":\"x\"}],\"format\":2,\"len\":4,\"max\":1000,\"mode\":\"full\",\"more\":false,\"trim\":null}\n",
        )],
    },
    // Names are printed as their bytes: a bar, a backslash, bytes that are no text, no byte at all, and
    // the CR of a last line without LF.
    Case {
        name: "odd_bytes",
        lines: b"T 0|acq(\\)|A.java:7|x\nT 0|acq(\xc3\xa9)|\n\xff|acq(\xc3\xa9)|\"\n\xff|acq(\\)|6\r",
        edges: &[Told(X, [0, 0, 1], [1, 0, 1]), Told(X, [1, 1, 0], [1, 2, 3])],
        cycles: &[&[0, 1]],
        more: false,
        trim: None,
        prints: &[Print::Text(
            b"cycle 1: 2 edges\n  T 0 holds \\ since A.java:7|x wants \xc3\xa9 at \n  \xff holds \xc3\xa9 since \" wants \\ at 6\r\ncycles: 1\n",
        )],
    },
];

#[test]
fn one_cycle_or_none(rt: HostRuntime) {
    expect_all(&rt, rt.alloc(), CASES);
}

const TWO_CYCLES: &[u8] =
    b"T0|acq(a)|1\nT0|acq(b)|2\nT0|rel(b)|3\nT0|rel(a)|4\nT0|acq(c)|5\nT0|acq(d)|6\nT0|rel(d)|7\nT0|rel(c)|8\nT1|acq(b)|9\nT1|acq(a)|10\nT1|rel(a)|11\nT1|rel(b)|12\nT1|acq(d)|13\nT1|acq(c)|14\n";

const TWO_CYCLES_EDGES: &[Told] = &[
    Told(X, [0, 0, 1], [1, 0, 1]),
    Told(X, [0, 2, 3], [1, 4, 5]),
    Told(X, [1, 1, 0], [1, 8, 9]),
    Told(X, [1, 3, 2], [1, 12, 13]),
];

const OTHERS: &[Case] = &[
    Case {
        name: "first_of_two_cycles, one",
        lines: TWO_CYCLES,
        edges: TWO_CYCLES_EDGES,
        cycles: &[&[0, 2]],
        more: true,
        trim: None,
        prints: &[Print::Text(
            b"cycle 1: 2 edges\n  T0 holds a since 1 wants b at 2\n  T1 holds b since 9 wants a at 10\ncycles: 1 (more)\n",
        )],
    },
    Case {
        name: "first_of_two_cycles, both",
        lines: TWO_CYCLES,
        edges: TWO_CYCLES_EDGES,
        cycles: &[&[0, 2], &[1, 3]],
        more: false,
        trim: None,
        prints: &[Print::Text(
            b"cycle 1: 2 edges\n  T0 holds a since 1 wants b at 2\n  T1 holds b since 9 wants a at 10\ncycle 2: 2 edges\n  T0 holds c since 5 wants d at 6\n  T1 holds d since 13 wants c at 14\ncycles: 2\n",
        )],
    },
    // No cycle: T0 acquires a and b, releases a, and acquires c. Trimming takes away both edges.
    Case {
        name: "self_contained_line",
        lines: b"T0|acq(a)|1\nT0|acq(b)|2\nT0|rel(a)|3\nT0|acq(c)|4\n",
        edges: &[Told(X, [0, 0, 1], [1, 0, 1]), Told(X, [0, 1, 2], [3, 1, 3])],
        cycles: &[],
        more: false,
        trim: Some(&[0, 1]),
        prints: &[Print::Json(
            b"{\"cycles\":[],\"edges\":[{\"first\":0,\"guard_modes\":[\"x\"],\"guards\":[\"a\"],\"held\":\"a\",\"held_at\":\"1\",\"held_mode\":\"x\",\"place\":1,\"second\":0,\"thread\":\"T0\",\"wanted\":\"b\",\"wanted_at\":\"2\",\"wanted_mode\":\"x\"},{\"first\":0,\"guard_modes\":[\"x\"],\"guards\":[\"b\"],\"held\":\"b\",\"held_at\":\"2\",\"held_mode\":\"x\",\"place\":3,\"second\":0,\"thread\":\"T0\",\"wanted\":\"c\",\"wanted_at\":\"4\",\"wanted_mode\":\"x\"}],\"format\":2,\"len\":4,\"max\":1000,\"mode\":\"full\",\"more\":false,\"trim\":[0,1]}\n",
        )],
    },
    // A skipped line and an empty one, a stray release, a fork and a thread that is only forked.
    Case {
        name: "counts_that_differ",
        lines: b"M|r(x)|1\n\nM|w(x)|1\nM|rel(z)|2\nM|fork(T1)|3\nM|acq(a)|4\nM|acq(b)|5\nM|acq(c)|6\nM|join(T1)|7\n",
        edges: &[
            Told(X, [0, 0, 1], [1, 1, 2]),
            Told(X, [0, 0, 2], [1, 1, 3]),
            Told(X, [0, 1, 2], [1, 2, 3]),
        ],
        cycles: &[],
        more: false,
        trim: None,
        prints: &[Print::Counts(
            b"events: 5\nskipped: 2\nstray: 1\nthreads: 2\nlocks: 3\nsegments: 4\nedges: 3\ncycles: 0\n",
        )],
    },
    Case {
        name: "fork_while_holding",
        lines: b"M|acq(a)|1\nM|fork(T1)|2\nM|acq(b)|3\nT1|acq(b)|4\nT1|acq(a)|5\n",
        edges: &[Told(X, [0, 0, 1], [1, 0, 2]), Told(X, [1, 1, 0], [1, 3, 4])],
        cycles: &[&[0, 1]],
        more: false,
        trim: None,
        prints: &[Print::Counts(
            b"events: 5\nskipped: 0\nstray: 0\nthreads: 2\nlocks: 2\nsegments: 3\nedges: 2\ncycles: 1\n",
        )],
    },
    Case {
        name: "stray_release",
        lines: b"T0|rel(a)|1\nT0|acq(b)|2\n",
        edges: &[],
        cycles: &[],
        more: false,
        trim: None,
        prints: &[Print::Counts(
            b"events: 1\nskipped: 0\nstray: 1\nthreads: 1\nlocks: 1\nsegments: 1\nedges: 0\ncycles: 0\n",
        )],
    },
    // A third thread took lock 0 and then lock 2 at the places of the first edge. Its other edge has one place of
    // each of those that are shown, and so is in neither class.
    Case {
        name: "finding_with_counts",
        lines: OPPOSITE_ORDER,
        edges: &[
            Told(X, [0, 0, 1], [1, 0, 1]),
            Told(X, [1, 1, 0], [1, 4, 5]),
            Told(X, [2, 0, 2], [1, 0, 1]),
            Told(X, [2, 3, 0], [1, 0, 5]),
        ],
        cycles: &[&[0, 1]],
        more: false,
        trim: None,
        prints: &[Print::FindingsText(
            b"finding 1: 2 edges\n  T0 holds a since 1 wants b at 2\n    threads: 2, locks: 3\n  T1 holds b since 5 wants a at 6\n    threads: 1, locks: 2\nfindings: 1\n",
        )],
    },
];

#[test]
fn other_reports(rt: HostRuntime) {
    expect_all(&rt, rt.alloc(), OTHERS);
}
