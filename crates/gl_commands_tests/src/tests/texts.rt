//! The texts that commands are run over: told, or made.
use gl_worked::texts::put;
use itoa::Buffer;
use std::alloc::Global;

#[derive(Clone, Copy)]
pub(super) enum Text {
    // this one
    Told(&'static [u8]),
    // this one without its first byte
    Tail(&'static [u8]),
    // an acquire at a location of so many bytes, in a line that ends so
    LongLine(usize, &'static [u8]),
    // acquires of so many locks, one inside the other
    Nested(u32),
    // T0 takes two locks a thousand times, and T1 once the other way round
    ThousandTurns,
    // of 16 threads, thread `t` takes lock `t` and then the next one round, and releases both, 500 times; all at
    // location 1
    Ring,
}

// None where memory was refused.
pub(super) fn made(alloc: Global, text: Text) -> Option<Vec<u8>> {
    match text {
        Text::Told(text) => Vec::from_slice(alloc, text).ok(),
        Text::Tail(text) => Vec::from_slice(alloc, text.get(1..)?).ok(),
        Text::LongLine(length, ends) => long_line(alloc, length, ends),
        Text::Nested(locks) => nested(alloc, locks),
        Text::ThousandTurns => thousand_turns(alloc),
        Text::Ring => ring(alloc),
    }
}

fn long_line(alloc: Global, length: usize, ends: &[u8]) -> Option<Vec<u8>> {
    let location = vec![in alloc; b'x'; length].ok()?;
    let mut text = Vec::new(alloc);
    put(&mut text, &[b"T0|acq(a)|", location.as_slice(), ends])?;
    Some(text)
}

// Puts an acquire of the lock of this number.
fn put_acquire(text: &mut Vec<u8>, lock: u32) -> Option<()> {
    let mut buffer = Buffer::new();
    put(
        text,
        &[b"T0|acq(l", buffer.format(lock).as_bytes(), b")|1\n"],
    )
}

fn nested(alloc: Global, locks: u32) -> Option<Vec<u8>> {
    let mut text = Vec::new(alloc);
    for lock in 0..locks {
        put_acquire(&mut text, lock)?;
    }
    Some(text)
}

// What the line of each number does, the first one an acquire of a.
const OPERATIONS: [&[u8]; 4] = [b"rel(a)", b"acq(a)", b"acq(b)", b"rel(b)"];

// Puts an event of T0 at the location of this number.
fn put_turn(text: &mut Vec<u8>, operation: &[u8], number: u32) -> Option<()> {
    let mut buffer = Buffer::new();
    let location = buffer.format(number).as_bytes();
    put(text, &[b"T0|", operation, b"|", location, b"\n"])
}

fn thousand_turns(alloc: Global) -> Option<Vec<u8>> {
    let mut text = Vec::new(alloc);
    for number in 1..4_001u32 {
        put_turn(&mut text, OPERATIONS[(number % 4) as usize], number)?;
    }
    put(&mut text, &[b"T1|acq(b)|4001\nT1|acq(a)|4002\n"])?;
    Some(text)
}

// Puts an event of the thread of this number.
fn put_event(text: &mut Vec<u8>, thread: u32, operation: &[u8], lock: u32) -> Option<()> {
    let (mut first, mut second) = (Buffer::new(), Buffer::new());
    let thread = first.format(thread).as_bytes();
    let lock = second.format(lock).as_bytes();
    put(text, &[b"T", thread, operation, lock, b")|1\n"])
}

fn ring(alloc: Global) -> Option<Vec<u8>> {
    let mut text = Vec::new(alloc);
    for turn in 0..8_000u32 {
        let thread = turn % 16;
        let next = (thread + 1) % 16;
        put_event(&mut text, thread, b"|acq(", thread)?;
        put_event(&mut text, thread, b"|acq(", next)?;
        put_event(&mut text, thread, b"|rel(", next)?;
        put_event(&mut text, thread, b"|rel(", thread)?;
    }
    Some(text)
}
