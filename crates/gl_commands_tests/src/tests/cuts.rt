//! Readers and writers that stop, and turns that are used up.
ghost use Rattle.std.specs.Prelude.{◌≡◌};
ghost use Rattle.gl_options.specs.Sessions.{CanRun};

use super::asks::{Ask, COUNTS, PREDICTION, command_of};
use super::checks::TRUE_REPORT;
use super::runs::{Case, End, Reader, TURNS, expect_all, run};
use super::texts::Text::Told;
use super::{NO_CYCLES, OPPOSITE_ORDER};
use gl_commands::Ended;
use gl_io::FromStd;
use gl_options::Command;
use std::alloc::Global;
use std::io::Cursor;
use std::process::Abort;
use std::sync::Wait;
use std::thread::Threads;

const CASES: &[Case] = &[
    Case {
        name: "turns_used_up, no events",
        ask: PREDICTION,
        text: Told(b""),
        reader: Reader::Turns(1),
        end: End::Clean,
        printed: NO_CYCLES,
    },
    Case {
        name: "turns_used_up, opposite order",
        ask: PREDICTION,
        text: Told(OPPOSITE_ORDER),
        reader: Reader::Turns(1),
        end: End::ReadFailed,
        printed: b"",
    },
    Case {
        name: "writer_and_reader_fail, after a line",
        ask: PREDICTION,
        text: Told(b"T0\n"),
        reader: Reader::Cut,
        end: End::Refused(b"goodlock: line 1: no bar\n"),
        printed: b"",
    },
    Case {
        name: "writer_and_reader_fail, in a line",
        ask: PREDICTION,
        text: Told(b"T0"),
        reader: Reader::Cut,
        end: End::ReadFailed,
        printed: b"",
    },
    Case {
        name: "counts_and_replays_cut, a replay",
        ask: Ask::Replay,
        text: Told(OPPOSITE_ORDER),
        reader: Reader::Cut,
        end: End::ReadFailed,
        printed: b"",
    },
];

#[test]
fn readers_stop(rt: HostRuntime) {
    expect_all(&rt, CASES);
}

// A run into a writer with room for so many bytes as it holds when it is full.
#[derive(Clone, Copy)]
struct Full {
    name: &'static str,
    ask: Ask,
    text: &'static [u8],
    held: &'static [u8],
}

const FULL: &[Full] = &[
    Full {
        name: "writer_and_reader_fail, a writer",
        ask: PREDICTION,
        text: OPPOSITE_ORDER,
        held: b"cycle",
    },
    Full {
        name: "live_cut, a writer",
        ask: Ask::Live(4, 4, 256),
        text: OPPOSITE_ORDER,
        held: b"cycle",
    },
    Full {
        name: "streams_that_stop, a writer",
        ask: Ask::Stream(64, 4),
        text: OPPOSITE_ORDER,
        held: b"cycle",
    },
    Full {
        name: "counts_and_replays_cut, counts",
        ask: COUNTS,
        text: OPPOSITE_ORDER,
        held: b"events: 6",
    },
    Full {
        name: "opinion_cut",
        ask: Ask::Check,
        text: TRUE_REPORT,
        held: b"ok,",
    },
];

// How the command ends over the text and a writer that writes into these bytes.
fn run_into<R: AllocGlobal + Threads + Wait + Sync>(
    rt: &R,
    command: &Command,
    text: &[u8],
    held: &mut [u8],
) -> Ended
    requires { CanRun command.now }
{
    let mut input = FromStd::new(text);
    let mut output = FromStd::new(Cursor::new(held));
    run(rt, command, &mut input, &mut output, TURNS)
}

// Whether a write failed after so many bytes.
pub(super) fn is_failed(ended: &Ended, count: usize) -> bool {
    match ended {
        Ended::WriteFailed { written } => *written == count,
        _ => false,
    }
}

// So many zeros.
fn zeros(alloc: Global, count: usize) -> Option<Vec<u8>> {
    vec![in alloc; 0u8; count].ok()
}

// The writer failed when it was full, and this is what it is to hold.
fn expect_held(rt: &impl Abort, full: &Full, ended: &Ended, held: &[u8]) {
    assert!(rt;
        is_failed(ended, full.held.len()),
        "{}: {ended:?}",
        full.name
    );
    assert_eq!(rt; held, full.held, "{}", full.name);
}

// The writer is full, and holds what it is to hold.
fn expect_full<R: Abort + AllocGlobal + Threads + Wait + Sync>(rt: &R, full: &Full) {
    let command = command_of(full.ask, 2).expect(rt, full.name);
    let mut held = zeros(rt.alloc(), full.held.len()).expect(rt, full.name);
    let ended = run_into(rt, &command, full.text, held.as_mut_slice());
    expect_held(rt, full, &ended, &held);
}

#[test]
fn writers_are_full(rt: HostRuntime) {
    for full in FULL {
        expect_full(&rt, full);
    }
}
