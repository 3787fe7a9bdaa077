//! Worked examples, and each call that takes memory on its happy path.
use gl_event::Limits;
use gl_std::{Trace, read_trace};
use std::alloc::Global;

mod cut_texts;
mod faults;
mod pieces;
mod renumbered;
mod rewritten;
mod seeds;
mod tables;
mod texts;

// The greatest limits: threads, a ring, events of a thread, names.
const GREATEST: [u32; 4] = [1_024, 65_536, 4_000_000_000, 4_000_000_000];

// These limits.
fn limits_of(numbers: [u32; 4]) -> Option<Limits> {
    let [threads, ring, events, names] = numbers;
    Limits::new(threads, ring, events, names).ok()
}

// The trace of the text under these limits. Nothing is told of it, so that little is known where it is looked at; so
// it is with what else is made of texts.
fn trace_of(alloc: Global, text: &[u8], numbers: [u32; 4]) -> Option<Trace> {
    read_trace(alloc, text, &limits_of(numbers)?).ok()
}

// An acquire at a location of so many bytes.
fn long_line(alloc: Global, length: usize, end: &[u8]) -> Option<Vec<u8>> {
    let mut text = Vec::from_slice(alloc, b"T0|acq(a)|").ok()?;
    for _ in 0..length {
        text.push(b'x').ok()?;
    }
    text.extend_from_slice(end).ok()?;
    Some(text)
}
