//! What each command answers to a front of a sample.
use crate::tests::{NO_CYCLES, OPPOSITE_ORDER_REPORT};
use gl_options::Command;
use std::alloc::Global;

// The report where the trace ends in the bar before its last location.
const NO_LAST_LOCATION: &[u8] =
    b"cycle 1: 2 edges\n  T0 holds a since 1 wants b at 2\n  T1 holds b since 5 wants a at \ncycles: 1\n";

// Each edge is the only one made at its places: one thread, and its two locks.
const FINDING: &[u8] =
    b"finding 1: 2 edges\n  T0 holds a since 1 wants b at 2\n    threads: 1, locks: 2\n  T1 holds b since 5 wants a at 6\n    threads: 1, locks: 2\nfindings: 1\n";

const FINDING_WITHOUT_LAST_LOCATION: &[u8] =
    b"finding 1: 2 edges\n  T0 holds a since 1 wants b at 2\n    threads: 1, locks: 2\n  T1 holds b since 5 wants a at \n    threads: 1, locks: 2\nfindings: 1\n";

// What is said on standard error: nothing, why, or why a line is refused.
#[derive(Clone, Copy)]
pub(super) enum Said {
    Nothing,
    Why(&'static str),
    Line(usize, &'static str),
}

// The line for standard error. None where memory was refused.
pub(super) fn line_of(alloc: Global, said: Said) -> Option<String> {
    match said {
        Said::Nothing => Some(String::new(alloc)),
        Said::Why(why) => format!(in alloc; "goodlock: {why}\n").ok(),
        Said::Line(line, why) => format!(in alloc; "goodlock: line {line}: {why}\n").ok(),
    }
}

// What a command writes, and whether LF stands behind it; what it says on standard error, and its status.
#[derive(Clone, Copy)]
pub(super) struct Wanted<'a> {
    pub(super) printed: &'a [u8],
    pub(super) has_lf: bool,
    pub(super) said: Said,
    pub(super) status: u8,
}

// Whether this was written.
pub(super) fn is_printed(written: &[u8], wanted: &Wanted<'_>) -> bool {
    if !wanted.has_lf {
        return written == wanted.printed;
    }
    match written.split_last() {
        Some((last, front)) => *last == b'\n' && front == wanted.printed,
        None => false,
    }
}

fn printed(text: &[u8], status: u8) -> Wanted<'_> {
    Wanted {
        printed: text,
        has_lf: false,
        said: Said::Nothing,
        status,
    }
}

fn unprinted(said: Said, status: u8) -> Wanted<'static> {
    Wanted {
        printed: b"",
        has_lf: false,
        said,
        status,
    }
}

// The last line counts from its second bar on.
fn reported(count: usize) -> Wanted<'static> {
    match count {
        0..=69 => printed(NO_CYCLES, 0),
        70 => printed(NO_LAST_LOCATION, 1),
        _ => printed(OPPOSITE_ORDER_REPORT, 1),
    }
}

// The same of findings.
fn found(count: usize) -> Wanted<'static> {
    match count {
        0..=69 => printed(b"findings: 0\n", 0),
        70 => printed(FINDING_WITHOUT_LAST_LOCATION, 1),
        _ => printed(FINDING, 1),
    }
}

// So does each line. Nobody forks or joins, so a thread has one segment.
fn counted(count: usize) -> &'static [u8] {
    match count {
        0..=9 =>
            b"events: 0\nskipped: 0\nstray: 0\nthreads: 0\nlocks: 0\nsegments: 0\nedges: 0\ncycles: 0\n",
        10..=21 =>
            b"events: 1\nskipped: 0\nstray: 0\nthreads: 1\nlocks: 1\nsegments: 1\nedges: 0\ncycles: 0\n",
        22..=33 =>
            b"events: 2\nskipped: 0\nstray: 0\nthreads: 1\nlocks: 2\nsegments: 1\nedges: 1\ncycles: 0\n",
        34..=45 =>
            b"events: 3\nskipped: 0\nstray: 0\nthreads: 1\nlocks: 2\nsegments: 1\nedges: 1\ncycles: 0\n",
        46..=57 =>
            b"events: 4\nskipped: 0\nstray: 0\nthreads: 1\nlocks: 2\nsegments: 1\nedges: 1\ncycles: 0\n",
        58..=69 =>
            b"events: 5\nskipped: 0\nstray: 0\nthreads: 2\nlocks: 2\nsegments: 2\nedges: 1\ncycles: 0\n",
        _ =>
            b"events: 6\nskipped: 0\nstray: 0\nthreads: 2\nlocks: 2\nsegments: 2\nedges: 2\ncycles: 1\n",
    }
}

// The threads' events stand one thread after the other already.
fn replayed(trace: &[u8]) -> Wanted<'_> {
    Wanted {
        printed: trace,
        has_lf: trace.len() % 12 != 0,
        said: Said::Nothing,
        status: 0,
    }
}

// The edge of T0 is there with its locations once the whole second line is, and that of T1 with the last line.
fn judged(count: usize) -> Wanted<'static> {
    match count {
        0..=22 => unprinted(Said::Why("cycle 0 edge 0 is not in the trace"), 2),
        23..=70 => unprinted(Said::Why("cycle 0 edge 1 is not in the trace"), 2),
        _ => printed(b"ok, cycles: 1\n", 0),
    }
}

// What the command answers to this front of the trace, of which no line is at fault.
pub(super) fn answered<'a>(command: &Command, trace: &'a [u8]) -> Wanted<'a> {
    match command {
        Command::Predict { .. } => reported(trace.len()),
        Command::Live(options) => {
            if options.findings {
                return found(trace.len());
            }
            reported(trace.len())
        }
        Command::Findings { .. } => found(trace.len()),
        Command::Stats { .. } => printed(counted(trace.len()), 0),
        Command::Replay { .. } => replayed(trace),
        Command::Check { .. } => judged(trace.len()),
    }
}

// What is read after the bytes of a sample: its end; nothing, or no more of the line's end; LF; or the trace.
#[derive(Clone, Copy, Debug, PartialEq, Eq)]
pub(super) enum Next {
    End,
    Nothing,
    Lf,
    Trace,
}

// Why the line after whole ones is refused, of which so many bytes were read and then this. With `T0|acq(a)|1` it
// is a line of another thread, of a word that isn't watched, of an operand that isn't closed, or of a location.
fn fault_in(bytes: usize, is_bad: bool, next: Next) -> Option<&'static str> {
    match (next, bytes) {
        (Next::Nothing, _) => None,
        (_, 10 | 11) if is_bad => Some("bad operand"),
        (Next::Trace, 7..=9) => Some("bad operand"),
        (Next::End | Next::Lf, 1 | 2) => Some("no bar"),
        (Next::End | Next::Lf, 3..=9) => Some("no location field"),
        _ => None,
    }
}

const READ_FAILED: Said = Said::Why("read failed");

// What the command answers to this front of the trace and what is read after it.
fn wanted_in_trace<'a>(command: &Command, trace: &'a [u8], is_bad: bool, next: Next) -> Wanted<'a> {
    let count = trace.len();
    if is_bad && count >= 36 {
        return unprinted(Said::Line(3, "bad operand"), 2);
    }
    if let Some(why) = fault_in(count % 12, is_bad && count >= 24, next) {
        return unprinted(Said::Line(count / 12 + 1, why), 2);
    }
    match next {
        Next::End => answered(command, trace),
        _ => unprinted(READ_FAILED, 4),
    }
}

// What `check` answers to a front of a report, which is whole or isn't. What follows its LF has no line at fault.
fn wanted_in_report(is_whole: bool, next: Next) -> Wanted<'static> {
    match next {
        Next::End if is_whole => judged(0),
        Next::End => unprinted(Said::Why("report is not JSON"), 2),
        _ => unprinted(READ_FAILED, 4),
    }
}

// A text for a command, and the name of its row: so many bytes, and then a trace, whose third line is at fault or isn't.
#[derive(Clone, Copy)]
pub(super) struct Sample<'a> {
    pub(super) name: &'static str,
    pub(super) text: &'a [u8],
    pub(super) head: usize,
    pub(super) is_bad: bool,
}

// What the command answers to so many bytes of the sample and what is read after them.
pub(super) fn wanted_of<'a>(
    command: &Command,
    sample: &Sample<'_>,
    front: &'a [u8],
    next: Next,
) -> Wanted<'a> {
    match front.get(sample.head..) {
        Some(trace) => wanted_in_trace(command, trace, sample.is_bad, next),
        None => wanted_in_report(front.len() + 1 == sample.head, next),
    }
}
