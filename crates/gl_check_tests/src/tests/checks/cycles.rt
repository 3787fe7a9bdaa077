//! Reports of format 1.
use super::Json::Told;
use super::{Answer, Case, expect_all};
use crate::tests::{JOIN_LOOP, OPPOSITE_ORDER};

const CASES: &[Case] = &[
    Case {
        name: "checked_line",
        lines: OPPOSITE_ORDER,
        json: Told(
            b"{\"cycles\":[[{\"first\":0,\"guards\":[\"a\"],\"held\":\"a\",\"held_at\":\"1\",\"place\":1,\"second\":0,\"thread\":\"T0\",\"wanted\":\"b\",\"wanted_at\":\"2\"},{\"first\":0,\"guards\":[\"b\"],\"held\":\"b\",\"held_at\":\"5\",\"place\":1,\"second\":0,\"thread\":\"T1\",\"wanted\":\"a\",\"wanted_at\":\"6\"}]],\"format\":1,\"len\":4,\"max\":1000,\"mode\":\"full\",\"more\":false}\n",
        ),
        answer: Answer::Cycles(1),
    },
    // The second edge has the place 0.
    Case {
        name: "place_tampered",
        lines: OPPOSITE_ORDER,
        json: Told(
            b"{\"cycles\":[[{\"first\":0,\"guards\":[\"a\"],\"held\":\"a\",\"held_at\":\"1\",\"place\":1,\"second\":0,\"thread\":\"T0\",\"wanted\":\"b\",\"wanted_at\":\"2\"},{\"first\":0,\"guards\":[\"b\"],\"held\":\"b\",\"held_at\":\"5\",\"place\":0,\"second\":0,\"thread\":\"T1\",\"wanted\":\"a\",\"wanted_at\":\"6\"}]],\"format\":1,\"len\":4,\"max\":1000,\"mode\":\"full\",\"more\":false}",
        ),
        answer: Answer::Edge(0, 1),
    },
    // The second edge comes first.
    Case {
        name: "cycle_rotated",
        lines: OPPOSITE_ORDER,
        json: Told(
            b"{\"cycles\":[[{\"first\":0,\"guards\":[\"b\"],\"held\":\"b\",\"held_at\":\"5\",\"place\":1,\"second\":0,\"thread\":\"T1\",\"wanted\":\"a\",\"wanted_at\":\"6\"},{\"first\":0,\"guards\":[\"a\"],\"held\":\"a\",\"held_at\":\"1\",\"place\":1,\"second\":0,\"thread\":\"T0\",\"wanted\":\"b\",\"wanted_at\":\"2\"}]],\"format\":1,\"len\":4,\"max\":1000,\"mode\":\"full\",\"more\":false}",
        ),
        answer: Answer::NotLeast(0, 1),
    },
    // The cycle is listed twice.
    Case {
        name: "cycle_repeated",
        lines: OPPOSITE_ORDER,
        json: Told(
            b"{\"cycles\":[[{\"first\":0,\"guards\":[\"a\"],\"held\":\"a\",\"held_at\":\"1\",\"place\":1,\"second\":0,\"thread\":\"T0\",\"wanted\":\"b\",\"wanted_at\":\"2\"},{\"first\":0,\"guards\":[\"b\"],\"held\":\"b\",\"held_at\":\"5\",\"place\":1,\"second\":0,\"thread\":\"T1\",\"wanted\":\"a\",\"wanted_at\":\"6\"}],[{\"first\":0,\"guards\":[\"a\"],\"held\":\"a\",\"held_at\":\"1\",\"place\":1,\"second\":0,\"thread\":\"T0\",\"wanted\":\"b\",\"wanted_at\":\"2\"},{\"first\":0,\"guards\":[\"b\"],\"held\":\"b\",\"held_at\":\"5\",\"place\":1,\"second\":0,\"thread\":\"T1\",\"wanted\":\"a\",\"wanted_at\":\"6\"}]],\"format\":1,\"len\":4,\"max\":1000,\"mode\":\"full\",\"more\":false}",
        ),
        answer: Answer::Order(1),
    },
    Case {
        name: "shapes, no JSON",
        lines: OPPOSITE_ORDER,
        json: Told(b"\"cycles\":[]}"),
        answer: Answer::Json,
    },
    Case {
        name: "shapes, a key is missing",
        lines: OPPOSITE_ORDER,
        json: Told(b"{\"cycles\":[],\"format\":1,\"len\":4,\"max\":1000,\"mode\":\"full\"}"),
        answer: Answer::Shape,
    },
    Case {
        name: "shapes, the greatest length is 1",
        lines: OPPOSITE_ORDER,
        json: Told(
            b"{\"cycles\":[],\"format\":1,\"len\":1,\"max\":1000,\"mode\":\"full\",\"more\":false}",
        ),
        answer: Answer::Shape,
    },
    Case {
        name: "shapes, an unknown mode",
        lines: OPPOSITE_ORDER,
        json: Told(
            b"{\"cycles\":[],\"format\":1,\"len\":4,\"max\":1000,\"mode\":\"Full\",\"more\":false}",
        ),
        answer: Answer::Shape,
    },
    // An empty report is true of each trace. Keys in another order, and spaces, are the same JSON.
    Case {
        name: "empty_report",
        lines: OPPOSITE_ORDER,
        json: Told(
            b"{ \"more\": false, \"mode\": \"full\", \"max\": 1000, \"len\": 4, \"format\": 1, \"cycles\": [] }",
        ),
        answer: Answer::Cycles(0),
    },
    Case {
        name: "join_loop",
        lines: JOIN_LOOP,
        json: Told(
            b"{\"cycles\":[],\"format\":1,\"len\":4,\"max\":1000,\"mode\":\"full\",\"more\":false}",
        ),
        answer: Answer::Inconsistent(0, 1, 2),
    },
];

#[test]
fn format_1(rt: HostRuntime) {
    expect_all(&rt, rt.alloc(), CASES);
}
