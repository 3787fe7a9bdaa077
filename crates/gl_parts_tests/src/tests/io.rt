//! Readers and writers that stop, and how often they are called.
use super::expect;
use fakes::{After, Full, Gives, Stops};
use gl_io::{Failed, FromStd, Source, WriteFault, read_whole, write_out};
use std::alloc::Global;
use std::io::ErrorKind::{self, Interrupted, Other};

mod fakes;

const REPORT: &[u8] = b"cycle 1: 2 edges\n  T0 holds a since 1 wants b at 2\n";

// A reader that gives this text, and then fails once.
fn failing(text: &[u8], kind: ErrorKind) -> Gives<'_> {
    Gives {
        rest: text,
        after: After::Fails(kind),
        calls: 0,
    }
}

// Whether a read after that of one byte fails, by a single call.
fn fails_at_once(kind: ErrorKind) -> bool {
    let mut input = FromStd::new(failing(&[7], kind));
    let mut buffer = [0u8; 4];
    input.read(&mut buffer) == Ok(1)
        && input.read(&mut buffer) == Err(Failed)
        && input.into_inner().calls == 2
}

// Whether gathering gives two bytes that aren't the whole, where two reads give a byte each and the third one fails.
fn fails_by_three(alloc: Global, kind: ErrorKind) -> bool {
    let mut input = FromStd::new(failing(&[0, 0], kind));
    match read_whole(alloc, &mut input, 100) {
        Ok(gathered) => {
            gathered.text.len() == 2 && !gathered.is_whole && input.into_inner().calls == 3
        }
        Err(_) => false,
    }
}

// A read that fails isn't tried again, one that was interrupted neither.
#[test]
fn failed_reads(rt: HostRuntime) {
    for (at, kind) in [Other, Interrupted].iter().enumerate() {
        expect(&rt, fails_at_once(*kind), "a read", at);
        expect(&rt, fails_by_three(rt.alloc(), *kind), "a text", at);
    }
}

// What the writer with so much room answers, and the writer then.
fn written(alloc: Global, room: usize, full: Full) -> (Result<(), WriteFault>, Stops) {
    let mut output = FromStd::new(Stops {
        held: Vec::new(alloc),
        room,
        full,
        calls: 0,
    });
    let answer = write_out(&mut output, REPORT);
    (answer, output.into_inner())
}

// Whether the writer stops after so many bytes of the report, at the call after these.
fn stops(alloc: Global, room: usize, full: Full) -> bool {
    let (answer, output) = written(alloc, room, full);
    answer == Err(WriteFault { written: room })
        && output.held.len() == room
        && output.calls as usize == room + 1
}

// However a full writer answers.
const FULL: &[Full] = &[
    Full::TakesNone,
    Full::Fails(Other),
    Full::Fails(Interrupted),
];

// A write that fails, or takes none, isn't tried again, wherever it comes.
#[test]
fn failed_writes(rt: HostRuntime) {
    for room in 0..REPORT.len() {
        for full in FULL {
            expect(&rt, stops(rt.alloc(), room, *full), "room", room);
        }
    }
}
