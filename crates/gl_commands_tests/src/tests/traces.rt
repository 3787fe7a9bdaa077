//! Whole traces, and their reports.
use super::asks::{Ask, PREDICTION};
use super::runs::{Case, End, Reader, expect_all};
use super::texts::Text::{ThousandTurns, Told};
use super::{
    FORKED, INCONSISTENT, JOIN_LOOP, NO_CYCLES, OPPOSITE_ORDER, OPPOSITE_ORDER_REPORT, SKIPPED,
    SKIPPED_REPORT, STRAY, TWO_CYCLES,
};
use gl_filters::Mode;

const GATE_LOCK: &[u8] =
    b"T0|acq(g)|1\nT0|acq(a)|2\nT0|acq(b)|3\nT0|rel(b)|4\nT0|rel(a)|5\nT0|rel(g)|6\nT1|acq(g)|7\nT1|acq(b)|8\nT1|acq(a)|9\n";

const FOUR_THREADS: &[u8] =
    b"T0|acq(g)|1\nT0|acq(a)|2\nT0|acq(b)|3\nT1|acq(b)|4\nT1|acq(c)|5\nT2|acq(g)|6\nT2|acq(c)|7\nT2|acq(d)|8\nT3|acq(d)|9\nT3|acq(a)|10\n";

const JOINED_BEFORE: &[u8] =
    b"M|fork(T0)|1\nM|join(T0)|2\nM|fork(T1)|3\nT0|acq(a)|1\nT0|acq(b)|2\nT0|rel(b)|3\nT0|rel(a)|4\nT1|acq(b)|5\nT1|acq(a)|6\n";

const THREE_LOCKS: &[u8] =
    b"T0|acq(a)|1\nT0|acq(b)|2\nT1|acq(b)|3\nT1|acq(c)|4\nT2|acq(c)|5\nT2|acq(a)|6\n";

const BOTH_ORDERS: &[u8] =
    b"T0|acq(a)|1\nT0|acq(b)|2\nT0|rel(b)|3\nT0|rel(a)|4\nT0|acq(b)|5\nT0|acq(a)|6\n";

const CASES: &[Case] = &[
    Case {
        name: "empty_input",
        ask: PREDICTION,
        text: Told(b""),
        reader: Reader::Whole,
        end: End::Clean,
        printed: NO_CYCLES,
    },
    Case {
        name: "opposite_order, basic",
        ask: Ask::Predict(Mode::Basic, 2, 1_000),
        text: Told(OPPOSITE_ORDER),
        reader: Reader::Whole,
        end: End::Cycles,
        printed: OPPOSITE_ORDER_REPORT,
    },
    Case {
        name: "opposite_order, guarded",
        ask: Ask::Predict(Mode::Guarded, 2, 1_000),
        text: Told(OPPOSITE_ORDER),
        reader: Reader::Whole,
        end: End::Cycles,
        printed: OPPOSITE_ORDER_REPORT,
    },
    Case {
        name: "opposite_order, full",
        ask: Ask::Predict(Mode::Full, 2, 1_000),
        text: Told(OPPOSITE_ORDER),
        reader: Reader::Whole,
        end: End::Cycles,
        printed: OPPOSITE_ORDER_REPORT,
    },
    Case {
        name: "gate_lock, basic",
        ask: Ask::Predict(Mode::Basic, 4, 1_000),
        text: Told(GATE_LOCK),
        reader: Reader::Whole,
        end: End::Cycles,
        printed: b"cycle 1: 2 edges\n  T0 holds a since 2 wants b at 3\n  T1 holds b since 8 wants a at 9\ncycles: 1\n",
    },
    Case {
        name: "gate_lock, guarded",
        ask: Ask::Predict(Mode::Guarded, 4, 1_000),
        text: Told(GATE_LOCK),
        reader: Reader::Whole,
        end: End::Clean,
        printed: NO_CYCLES,
    },
    Case {
        name: "gate_lock, full",
        ask: PREDICTION,
        text: Told(GATE_LOCK),
        reader: Reader::Whole,
        end: End::Clean,
        printed: NO_CYCLES,
    },
    Case {
        name: "gate_lock_four_threads, basic",
        ask: Ask::Predict(Mode::Basic, 4, 1_000),
        text: Told(FOUR_THREADS),
        reader: Reader::Whole,
        end: End::Cycles,
        printed: b"cycle 1: 4 edges\n  T0 holds a since 2 wants b at 3\n  T1 holds b since 4 wants c at 5\n  T2 holds c since 7 wants d at 8\n  T3 holds d since 9 wants a at 10\ncycles: 1\n",
    },
    Case {
        name: "gate_lock_four_threads, guarded",
        ask: Ask::Predict(Mode::Guarded, 4, 1_000),
        text: Told(FOUR_THREADS),
        reader: Reader::Whole,
        end: End::Clean,
        printed: NO_CYCLES,
    },
    Case {
        name: "joined_before, full",
        ask: PREDICTION,
        text: Told(JOINED_BEFORE),
        reader: Reader::Whole,
        end: End::Clean,
        printed: NO_CYCLES,
    },
    Case {
        name: "joined_before, guarded",
        ask: Ask::Predict(Mode::Guarded, 4, 1_000),
        text: Told(JOINED_BEFORE),
        reader: Reader::Whole,
        end: End::Cycles,
        printed: OPPOSITE_ORDER_REPORT,
    },
    Case {
        name: "fork_while_holding",
        ask: PREDICTION,
        text: Told(FORKED),
        reader: Reader::Whole,
        end: End::Cycles,
        printed: b"cycle 1: 2 edges\n  M holds a since 1 wants b at 3\n  T1 holds b since 4 wants a at 5\ncycles: 1\n",
    },
    Case {
        name: "three_lock_ring, three edges",
        ask: Ask::Predict(Mode::Full, 3, 1_000),
        text: Told(THREE_LOCKS),
        reader: Reader::Whole,
        end: End::Cycles,
        printed: b"cycle 1: 3 edges\n  T0 holds a since 1 wants b at 2\n  T1 holds b since 3 wants c at 4\n  T2 holds c since 5 wants a at 6\ncycles: 1\n",
    },
    Case {
        name: "three_lock_ring, two edges",
        ask: Ask::Predict(Mode::Full, 2, 1_000),
        text: Told(THREE_LOCKS),
        reader: Reader::Whole,
        end: End::Clean,
        printed: NO_CYCLES,
    },
    Case {
        name: "reentrant_acquire",
        ask: PREDICTION,
        text: Told(
            b"T0|acq(a)|1\nT0|acq(a)|2\nT0|acq(b)|3\nT0|rel(a)|4\nT0|acq(c)|5\nT1|acq(c)|6\nT1|acq(a)|7\n",
        ),
        reader: Reader::Whole,
        end: End::Cycles,
        printed: b"cycle 1: 2 edges\n  T0 holds a since 1 wants c at 5\n  T1 holds c since 6 wants a at 7\ncycles: 1\n",
    },
    // a was released before c was taken, so only b to c stands
    Case {
        name: "crossed_releases",
        ask: PREDICTION,
        text: Told(
            b"T0|acq(a)|1\nT0|acq(b)|2\nT0|rel(a)|3\nT0|acq(c)|4\nT1|acq(c)|5\nT1|acq(a)|6\nT1|rel(a)|7\nT1|acq(b)|8\n",
        ),
        reader: Reader::Whole,
        end: End::Cycles,
        printed: b"cycle 1: 2 edges\n  T0 holds b since 2 wants c at 4\n  T1 holds c since 5 wants b at 8\ncycles: 1\n",
    },
    Case {
        name: "one_thread_both_orders, basic",
        ask: Ask::Predict(Mode::Basic, 4, 1_000),
        text: Told(BOTH_ORDERS),
        reader: Reader::Whole,
        end: End::Clean,
        printed: NO_CYCLES,
    },
    Case {
        name: "one_thread_both_orders, guarded",
        ask: Ask::Predict(Mode::Guarded, 4, 1_000),
        text: Told(BOTH_ORDERS),
        reader: Reader::Whole,
        end: End::Clean,
        printed: NO_CYCLES,
    },
    Case {
        name: "one_thread_both_orders, full",
        ask: PREDICTION,
        text: Told(BOTH_ORDERS),
        reader: Reader::Whole,
        end: End::Clean,
        printed: NO_CYCLES,
    },
    Case {
        name: "least_sample",
        ask: PREDICTION,
        text: ThousandTurns,
        reader: Reader::Whole,
        end: End::Cycles,
        printed: b"cycle 1: 2 edges\n  T0 holds a since 1 wants b at 2\n  T1 holds b since 4001 wants a at 4002\ncycles: 1\n",
    },
    Case {
        name: "crlf_and_skipped",
        ask: PREDICTION,
        text: Told(SKIPPED),
        reader: Reader::Whole,
        end: End::Cycles,
        printed: SKIPPED_REPORT,
    },
    Case {
        name: "stray_release",
        ask: PREDICTION,
        text: Told(STRAY),
        reader: Reader::Whole,
        end: End::Clean,
        printed: NO_CYCLES,
    },
    Case {
        name: "first_of_two_cycles, one",
        ask: Ask::Predict(Mode::Full, 4, 1),
        text: Told(TWO_CYCLES),
        reader: Reader::Whole,
        end: End::Cycles,
        printed: b"cycle 1: 2 edges\n  T0 holds a since 1 wants b at 2\n  T1 holds b since 9 wants a at 10\ncycles: 1 (more)\n",
    },
    Case {
        name: "first_of_two_cycles, both",
        ask: Ask::Predict(Mode::Full, 4, 2),
        text: Told(TWO_CYCLES),
        reader: Reader::Whole,
        end: End::Cycles,
        printed: b"cycle 1: 2 edges\n  T0 holds a since 1 wants b at 2\n  T1 holds b since 9 wants a at 10\ncycle 2: 2 edges\n  T0 holds c since 5 wants d at 6\n  T1 holds d since 13 wants c at 14\ncycles: 2\n",
    },
    Case {
        name: "join_loop, basic",
        ask: Ask::Predict(Mode::Basic, 4, 1_000),
        text: Told(JOIN_LOOP),
        reader: Reader::Whole,
        end: End::Refused(INCONSISTENT),
        printed: b"",
    },
    Case {
        name: "join_loop, guarded",
        ask: Ask::Predict(Mode::Guarded, 4, 1_000),
        text: Told(JOIN_LOOP),
        reader: Reader::Whole,
        end: End::Refused(INCONSISTENT),
        printed: b"",
    },
    Case {
        name: "join_loop, full",
        ask: PREDICTION,
        text: Told(JOIN_LOOP),
        reader: Reader::Whole,
        end: End::Refused(INCONSISTENT),
        printed: b"",
    },
    Case {
        name: "fork_join_fork",
        ask: PREDICTION,
        text: Told(b"T0|fork(T1)|1\nT0|join(T1)|2\nT0|fork(T1)|3\nT1|acq(a)|4\n"),
        reader: Reader::Whole,
        end: End::Refused(b"goodlock: inconsistent: T0.2 precedes itself\n"),
        printed: b"",
    },
    // A trace without events, as JSON.
    Case {
        name: "empty_input_as_json",
        ask: Ask::Json,
        text: Told(b""),
        reader: Reader::Whole,
        end: End::Clean,
        printed: b"{\"cycles\":[],\"edges\":[],\"format\":2,\"len\":4,\"max\":1000,\"mode\":\"full\",\"more\":false,\"trim\":[]}\n",
    },
];

#[test]
fn reports_of_traces(rt: HostRuntime) {
    expect_all(&rt, CASES);
}
