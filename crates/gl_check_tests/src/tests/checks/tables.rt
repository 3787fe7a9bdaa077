//! Reports of format 2.
use super::Json::Table;
use super::{Answer, Case, expect_all};
use crate::tests::OPPOSITE_ORDER;

// One thread that holds two locks in turn as it acquires the next one.
const CHAIN: &[u8] = b"T0|acq(a)|1\nT0|acq(b)|2\nT0|rel(a)|3\nT0|acq(c)|4\n";

const FIRST: &[u8] =
    b"{\"first\":0,\"guard_modes\":[\"x\"],\"guards\":[\"a\"],\"held\":\"a\",\"held_at\":\"1\",\"held_mode\":\"x\",\"place\":1,\"second\":0,\"thread\":\"T0\",\"wanted\":\"b\",\"wanted_at\":\"2\",\"wanted_mode\":\"x\"}";

const SECOND: &[u8] =
    b"{\"first\":0,\"guard_modes\":[\"x\"],\"guards\":[\"b\"],\"held\":\"b\",\"held_at\":\"5\",\"held_mode\":\"x\",\"place\":1,\"second\":0,\"thread\":\"T1\",\"wanted\":\"a\",\"wanted_at\":\"6\",\"wanted_mode\":\"x\"}";

const NEXT: &[u8] =
    b"{\"first\":0,\"guard_modes\":[\"x\"],\"guards\":[\"b\"],\"held\":\"b\",\"held_at\":\"2\",\"held_mode\":\"x\",\"place\":3,\"second\":0,\"thread\":\"T0\",\"wanted\":\"c\",\"wanted_at\":\"4\",\"wanted_mode\":\"x\"}";

const LATER: &[u8] =
    b"{\"first\":0,\"guard_modes\":[\"x\"],\"guards\":[\"b\"],\"held\":\"b\",\"held_at\":\"2\",\"held_mode\":\"x\",\"place\":2,\"second\":0,\"thread\":\"T0\",\"wanted\":\"c\",\"wanted_at\":\"4\",\"wanted_mode\":\"x\"}";

const UNMODED: &[u8] =
    b"{\"first\":0,\"guard_modes\":[],\"guards\":[\"b\"],\"held\":\"b\",\"held_at\":\"5\",\"held_mode\":\"x\",\"place\":1,\"second\":0,\"thread\":\"T1\",\"wanted\":\"a\",\"wanted_at\":\"6\",\"wanted_mode\":\"x\"}";

const CASES: &[Case] = &[
    Case {
        name: "self_contained_line",
        lines: OPPOSITE_ORDER,
        json: Table(b"[[0,1]]", &[FIRST, SECOND], b"4", b"null"),
        answer: Answer::Cycles(1),
    },
    Case {
        name: "report_tampered, rotated",
        lines: OPPOSITE_ORDER,
        json: Table(b"[[1,0]]", &[FIRST, SECOND], b"4", b"null"),
        answer: Answer::NotLeast(0, 1),
    },
    Case {
        name: "report_tampered, repeated",
        lines: OPPOSITE_ORDER,
        json: Table(b"[[0,1],[0,1]]", &[FIRST, SECOND], b"4", b"null"),
        answer: Answer::Order(1),
    },
    Case {
        name: "report_tampered, a position beyond the table",
        lines: OPPOSITE_ORDER,
        json: Table(b"[[0,2]]", &[FIRST, SECOND], b"4", b"null"),
        answer: Answer::Shape,
    },
    Case {
        name: "report_tampered, trimmed",
        lines: OPPOSITE_ORDER,
        json: Table(b"[[0,1]]", &[FIRST, SECOND], b"4", b"[]"),
        answer: Answer::Trim(0),
    },
    Case {
        name: "report_tampered, the greatest length is 1",
        lines: OPPOSITE_ORDER,
        json: Table(b"[[0,1]]", &[FIRST, SECOND], b"1", b"null"),
        answer: Answer::Shape,
    },
    Case {
        name: "table_tampered, an edge is left out",
        lines: OPPOSITE_ORDER,
        json: Table(b"[]", &[FIRST], b"4", b"null"),
        answer: Answer::Table(1),
    },
    Case {
        name: "table_tampered, an edge comes twice",
        lines: OPPOSITE_ORDER,
        json: Table(b"[]", &[FIRST, SECOND, SECOND], b"4", b"null"),
        answer: Answer::Table(2),
    },
    Case {
        name: "table_tampered, an edge comes too early",
        lines: OPPOSITE_ORDER,
        json: Table(b"[]", &[SECOND, FIRST], b"4", b"null"),
        answer: Answer::Table(0),
    },
    Case {
        name: "table_tampered, a guard has no mode",
        lines: OPPOSITE_ORDER,
        json: Table(b"[]", &[FIRST, UNMODED], b"4", b"null"),
        answer: Answer::Shape,
    },
];

#[test]
fn format_2(rt: HostRuntime) {
    expect_all(&rt, rt.alloc(), CASES);
}

const TRIMMED: &[Case] = &[
    Case {
        name: "trim_order, least first",
        lines: CHAIN,
        json: Table(b"[]", &[FIRST, NEXT], b"4", b"[0,1]"),
        answer: Answer::Acyclic(0),
    },
    Case {
        name: "trim_order, another order",
        lines: CHAIN,
        json: Table(b"[]", &[FIRST, NEXT], b"4", b"[1,0]"),
        answer: Answer::Acyclic(0),
    },
    Case {
        name: "trim_order, none",
        lines: CHAIN,
        json: Table(b"[]", &[FIRST, NEXT], b"4", b"null"),
        answer: Answer::Cycles(0),
    },
    Case {
        name: "trim_order, an edge at another place",
        lines: CHAIN,
        json: Table(b"[]", &[FIRST, LATER], b"4", b"[0,1]"),
        answer: Answer::Table(1),
    },
    Case {
        name: "trim_order_tampered, an edge is left",
        lines: CHAIN,
        json: Table(b"[]", &[FIRST, NEXT], b"4", b"[1]"),
        answer: Answer::Trim(1),
    },
    Case {
        name: "trim_order_tampered, an edge goes twice",
        lines: CHAIN,
        json: Table(b"[]", &[FIRST, NEXT], b"4", b"[0,0]"),
        answer: Answer::Trim(1),
    },
    Case {
        name: "trim_order_tampered, it goes on after the last one",
        lines: CHAIN,
        json: Table(b"[]", &[FIRST, NEXT], b"4", b"[0,1,1]"),
        answer: Answer::Trim(2),
    },
    Case {
        name: "trim_order_tampered, a position beyond the table",
        lines: CHAIN,
        json: Table(b"[]", &[FIRST, NEXT], b"4", b"[2,0,1]"),
        answer: Answer::Trim(0),
    },
    // No trace at all: all edges went.
    Case {
        name: "no_edges",
        lines: b"",
        json: Table(b"[]", &[], b"4", b"[]"),
        answer: Answer::Acyclic(0),
    },
];

#[test]
fn trim_orders(rt: HostRuntime) {
    expect_all(&rt, rt.alloc(), TRIMMED);
}
