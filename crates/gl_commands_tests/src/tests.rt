//! How commands end over whole traces, and what they write.
mod asks;
mod checks;
mod counts;
mod cuts;
mod faults;
mod gates;
mod runs;
mod sessions;
mod streams;
mod tables;
mod texts;
mod traces;

const OPPOSITE_ORDER: &[u8] =
    b"T0|acq(a)|1\nT0|acq(b)|2\nT0|rel(b)|3\nT0|rel(a)|4\nT1|acq(b)|5\nT1|acq(a)|6\n";

const OPPOSITE_ORDER_REPORT: &[u8] =
    b"cycle 1: 2 edges\n  T0 holds a since 1 wants b at 2\n  T1 holds b since 5 wants a at 6\ncycles: 1\n";

const NO_CYCLES: &[u8] = b"cycles: 0\n";

// The same trace with lines that end in CR LF and lines that are skipped, and its report.
const SKIPPED: &[u8] =
    b"T0|acq(a)|1\r\n\r\nT0|r(x)|9\r\nT0|acq(b)|A.java:7|x\r\nT0|rel(b)|3\r\nT0|rel(a)|4\r\nT0|begin|3\r\nT1|acq(b)|5\r\nT1|acq(a)|6";

const SKIPPED_REPORT: &[u8] =
    b"cycle 1: 2 edges\n  T0 holds a since 1 wants b at A.java:7|x\n  T1 holds b since 5 wants a at 6\ncycles: 1\n";

// A release of a lock that isn't held.
const STRAY: &[u8] = b"T0|rel(a)|1\nT0|acq(b)|2\n";

// Two threads that wait for one another to end, and what is said of them.
const JOIN_LOOP: &[u8] = b"T0|join(T1)|1\nT1|join(T0)|2\n";

const INCONSISTENT: &[u8] = b"goodlock: inconsistent: T0.1 precedes itself\n";

// Two cycles.
const TWO_CYCLES: &[u8] =
    b"T0|acq(a)|1\nT0|acq(b)|2\nT0|rel(b)|3\nT0|rel(a)|4\nT0|acq(c)|5\nT0|acq(d)|6\nT0|rel(d)|7\nT0|rel(c)|8\nT1|acq(b)|9\nT1|acq(a)|10\nT1|rel(a)|11\nT1|rel(b)|12\nT1|acq(d)|13\nT1|acq(c)|14\n";

// An acquire by a forked thread while its maker holds a lock.
const FORKED: &[u8] = b"M|acq(a)|1\nM|fork(T1)|2\nM|acq(b)|3\nT1|acq(b)|4\nT1|acq(a)|5\n";
