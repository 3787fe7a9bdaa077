//! Texts that are written of traces.
use super::texts::{Named, Told, tells};
use super::{GREATEST, limits_of, trace_of};
use gl_std::read_trace;
use gl_worked::ops::Op::{Acq, Fork, Rel};
use gl_writing::write_trace;
use std::alloc::Global;

// What is written of the text's trace under these limits.
fn replayed(alloc: Global, text: &[u8], numbers: [u32; 4]) -> Option<Vec<u8>> {
    let trace = read_trace(alloc, text, &limits_of(numbers)?).ok()?;
    write_trace(alloc, &trace).ok()
}

// Texts, and what is written of their traces.
const WRITTEN: &[(&[u8], &[u8])] = &[
    (
        b"T1|acq(b)|5\nT0|acq(a)|1\nT1|rel(b)|6\nT1|r(x)|9\n",
        b"T1|acq(b)|5\nT1|rel(b)|6\nT0|acq(a)|1\n",
    ),
    // its location ends with CR
    (b"T0|acq(a)|x\r", b"T0|acq(a)|x\r\r\n"),
];

// Whether this is written of the text's trace.
fn is_written(alloc: Global, text: &[u8], written: &[u8]) -> bool {
    match replayed(alloc, text, GREATEST) {
        Some(found) => found.as_slice() == written,
        None => false,
    }
}

#[test]
fn replayed_lists(rt: HostRuntime) {
    for (text, written) in WRITTEN {
        assert!(rt; is_written(rt.alloc(), text, written));
    }
}

// T1's two events come first and mention T2, which has one; T0 is the third thread.
const NUMBERED_ANEW: Told = Told {
    lists: &[
        &[Acq(0, 0), Fork(1, 1)],
        &[Acq(1, 4)],
        &[Acq(1, 2), Rel(1, 3)],
    ],
    counts: (3, 2, 5),
    dropped: (0, 0),
    names: &[Named::Thread(b"T0", Some(2))],
};

// Whether the text's trace, written and read again, tells this.
fn is_read_again(alloc: Global, text: &[u8], numbers: [u32; 4], told: &Told) -> bool {
    match replayed(alloc, text, numbers) {
        Some(written) => match trace_of(alloc, &written, numbers) {
            Some(again) => tells(&again, told),
            None => false,
        },
        None => false,
    }
}

#[test]
fn threads_read_again(rt: HostRuntime) {
    let text =
        b"T1|acq(b)|5\nT0|acq(a)|1\nT1|r(x)|9\nT0|rel(b)|4\nT1|fork(T2)|6\nT0|rel(a)|2\nT2|acq(a)|7\n";
    assert!(rt; is_read_again(rt.alloc(), text, [3, 1, 2, 5], &NUMBERED_ANEW));
}
