//! The first fault of a text, and texts that just obey the limits.
use super::{GREATEST, limits_of, long_line, trace_of};
use gl_std::{ReadFault, StdKind, read_trace};
use std::alloc::Global;

// Texts, and the line and kind of their first fault.
const BAD: &[(&[u8], u64, StdKind)] = &[
    (b"T0|acq(|3", 1, StdKind::BadOperand),
    (b"T0|acq|3", 1, StdKind::BadOperand),
    (b"T0|acq(a)", 1, StdKind::NoLocation),
    (b"|acq(a)|1", 1, StdKind::NoThread),
    (b"T0", 1, StdKind::NoBar),
    (b"T0|fork(T0)|1", 1, StdKind::OnItself),
    (b"T0|racq(a)|1\nT0|acq(a)|2\n", 2, StdKind::Upgrade),
    (b"T0|tryracq(a)|1\nT0|tryacq(a)|2\n", 2, StdKind::Upgrade),
];

// Limits, texts that don't obey them, and the line and kind of their first fault.
const LIMITED: &[([u32; 4], &[u8], u64, StdKind)] = &[
    (
        [2, 65_536, 4_000_000_000, 4_000_000_000],
        b"T0|acq(a)|1\nT0|fork(T1)|2\nT2|acq(a)|3\n",
        3,
        StdKind::TooManyThreads,
    ),
    (
        [1_024, 65_536, 1, 4_000_000_000],
        b"T0|acq(a)|1\nT0|acq(a)|2\n",
        2,
        StdKind::TooManyEvents,
    ),
    (
        [1_024, 65_536, 4_000_000_000, 1],
        b"T0|acq(a)|1\nT0|acq(b)|1\n",
        2,
        StdKind::TooManyNames,
    ),
];

// Why the text has no trace under these limits.
fn fault_of(alloc: Global, text: &[u8], numbers: [u32; 4]) -> Option<ReadFault> {
    read_trace(alloc, text, &limits_of(numbers)?).err()
}

// Whether the text's first fault under these limits is this one.
fn is_fault(alloc: Global, text: &[u8], numbers: [u32; 4], line: u64, kind: StdKind) -> bool {
    fault_of(alloc, text, numbers) == Some(ReadFault::Line { line, kind })
}

#[test]
fn bad_texts(rt: HostRuntime) {
    for (text, line, kind) in BAD {
        let is = is_fault(rt.alloc(), text, GREATEST, *line, *kind);
        assert!(rt; is, "{kind} at {line}");
    }
}

#[test]
fn limited_texts(rt: HostRuntime) {
    for (limits, text, line, kind) in LIMITED {
        assert!(rt; is_fault(rt.alloc(), text, *limits, *line, *kind), "{kind}");
    }
}

// Faults that differ from the first line's having no bar.
const OTHERS: &[ReadFault] = &[
    ReadFault::Line {
        line: 2,
        kind: StdKind::NoBar,
    },
    ReadFault::Line {
        line: 1,
        kind: StdKind::NoLocation,
    },
    ReadFault::Memory,
];

fn is_no_bar(fault: ReadFault) -> bool {
    fault
        == ReadFault::Line {
            line: 1,
            kind: StdKind::NoBar,
        }
}

#[test]
fn faults_differ(rt: HostRuntime) {
    for (at, other) in OTHERS.iter().enumerate() {
        assert!(rt; !is_no_bar(*other), "fault {at}");
    }
}

// Whether an acquire at a location of so many bytes is read.
fn is_read(alloc: Global, length: usize, end: &[u8]) -> bool {
    match long_line(alloc, length, end) {
        Some(text) => trace_of(alloc, &text, GREATEST).is_some(),
        None => false,
    }
}

// Whether the made text is refused for this fault.
fn is_refused(alloc: Global, text: Option<Vec<u8>>, line: u64, kind: StdKind) -> bool {
    match text {
        Some(text) => is_fault(alloc, &text, GREATEST, line, kind),
        None => false,
    }
}

#[test]
fn longest_line(rt: HostRuntime) {
    let alloc = rt.alloc();
    assert!(rt; is_read(alloc, 65_526, b"\n"));
    assert!(rt; is_read(alloc, 65_526, b"\r\n"));
    assert!(rt; is_refused(alloc, long_line(alloc, 65_527, b"\n"), 1, StdKind::TooLong));
}

// Acquires of so many locks, one after the other.
fn nested(alloc: Global, locks: u32) -> Option<Vec<u8>> {
    let mut text = Vec::new(alloc);
    for lock in 0..locks {
        let line = format!(in alloc; "T0|acq({lock})|1\n").ok()?;
        text.extend_from_slice(line.as_bytes()).ok()?;
    }
    Some(text)
}

#[test]
fn held_limit_reached(rt: HostRuntime) {
    let alloc = rt.alloc();
    assert!(rt; is_refused(alloc, nested(alloc, 65), 65, StdKind::HeldFull));
}
