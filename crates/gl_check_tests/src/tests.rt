//! Cycles of lists of events, and reports: what is printed of them, and which are accepted.
mod checks;
mod cycles;
mod prints;

// Two threads that acquire two locks in opposite order.
const OPPOSITE_ORDER: &[u8] =
    b"T0|acq(a)|1\nT0|acq(b)|2\nT0|rel(b)|3\nT0|rel(a)|4\nT1|acq(b)|5\nT1|acq(a)|6\n";

// Two threads that join each other.
const JOIN_LOOP: &[u8] = b"T0|join(T1)|1\nT1|join(T0)|2\n";
