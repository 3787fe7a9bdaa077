//! Readers that stop after so many bytes, and writers that have room for so many: each number of them in turn, for
//! each command.
ghost use Rattle.gl_options.specs.Sessions.{CanRun};

use super::OPPOSITE_ORDER;
use super::asks::{Ask, COUNTS, PREDICTION, command_of};
use super::checks::TRUE_REPORT;
use super::cuts::is_failed;
use super::runs::{TURNS, run};
use gl_commands::{Ended, said};
use gl_io::FromStd;
use gl_options::Command;
use gl_worked::texts::put;
use std::alloc::Global;
use std::io::{self, ErrorKind};
use std::process::Abort;
use std::sync::Wait;
use std::thread::Threads;
use wanted::{Next, Sample, Wanted, answered, is_printed, line_of, wanted_of};

mod wanted;

// The trace is `OPPOSITE_ORDER`: six lines of twelve bytes, which end in a bar, one byte and LF.

// The same with a third line whose operand isn't closed.
const BAD_THIRD: &[u8] =
    b"T0|acq(a)|1\nT0|acq(b)|2\nT0|rel(b?|3\nT0|rel(a)|4\nT1|acq(b)|5\nT1|acq(a)|6\n";

// How many bytes stand before the trace where a report is checked.
const HEAD: usize = TRUE_REPORT.len() - OPPOSITE_ORDER.len();

// What a reader does after its text.
#[derive(Clone, Copy)]
enum After<'a> {
    End,
    Failure,
    Again(&'a [u8]),
}

// A reader of std that gives its text by one byte a call, and then ends, fails, or gives another text for ever.
#[derive(Drop)]
struct Gives<'a> {
    rest: &'a [u8],
    after: After<'a>,
}

impl io::Read for Gives<'_> {
    fn read(&mut self, buffer: &mut [u8]) -> io::Result<usize> {
        if self.rest.is_empty() {
            match self.after {
                After::End => return Ok(0),
                After::Failure => return Err(io::Error::from(ErrorKind::Other)),
                After::Again(text) => self.rest = text,
            }
        }
        let count = self.rest.len().min(buffer.len()).min(1);
        buffer[..count].copy_from_slice(&self.rest[..count]);
        self.rest = &self.rest[count..];
        Ok(count)
    }
}

// A writer of std that takes one byte a call until it is full. Then it fails, or takes none.
#[derive(Drop)]
struct Narrow {
    held: Vec<u8>,
    room: usize,
    fails: bool,
    calls: usize,
}

impl io::Write for Narrow {
    fn write(&mut self, bytes: &[u8]) -> io::Result<usize> {
        self.calls = self.calls.saturating_add(1);
        let Some(byte) = bytes.first() else {
            return Ok(0);
        };
        if self.held.len() < self.room && self.held.push(*byte).is_ok() {
            return Ok(1);
        }
        if self.fails {
            return Err(io::Error::from(ErrorKind::Other));
        }
        Ok(0)
    }

    fn flush(&mut self) -> io::Result<()> {
        Ok(())
    }
}

// A run over this text and what the reader does after it, in so many turns, into a writer with so much room.
#[derive(Clone, Copy)]
struct Try<'a> {
    name: &'static str,
    text: &'a [u8],
    after: After<'a>,
    next: Next,
    turns: u64,
    room: usize,
    fails: bool,
}

// How the command ends then, and the writer.
fn tried<R: AllocGlobal + Threads + Wait + Sync>(
    rt: &R,
    command: &Command,
    once: &Try<'_>,
) -> (Ended, Narrow)
    requires { CanRun command.now }
{
    let mut input = FromStd::new(Gives {
        rest: once.text,
        after: once.after,
    });
    let mut output = FromStd::new(Narrow {
        held: Vec::new(rt.alloc()),
        room: once.room,
        fails: once.fails,
        calls: 0,
    });
    let turns = once.turns.min(TURNS);
    let ended = run(rt, command, &mut input, &mut output, turns);
    (ended, output.into_inner())
}

// Whether the line for standard error and the status are these.
fn is_said(alloc: Global, ended: &Ended, wanted: &Wanted<'_>) -> bool {
    let (line, status) = said(ended);
    match line_of(alloc, wanted.said) {
        Some(wanted_line) => line == wanted_line.as_bytes() && status == wanted.status,
        None => false,
    }
}

// It ends so, and the writer holds what is printed, each byte by a call.
fn is_answer(alloc: Global, ended: &Ended, output: &Narrow, wanted: &Wanted<'_>) -> bool {
    is_said(alloc, ended, wanted)
        && is_printed(output.held.as_slice(), wanted)
        && output.calls == output.held.len()
}

fn expect_answer<R: Abort + AllocGlobal + Threads + Wait + Sync>(
    rt: &R,
    command: &Command,
    once: &Try<'_>,
    wanted: &Wanted<'_>,
)
    requires { CanRun command.now }
{
    let (ended, output) = tried(rt, command, once);
    expect_tried(rt, once, &ended, &output, wanted);
}

// It is what is wanted.
fn expect_tried<R: Abort + AllocGlobal>(
    rt: &R,
    once: &Try<'_>,
    ended: &Ended,
    output: &Narrow,
    wanted: &Wanted<'_>,
) {
    assert!(rt;
        is_answer(rt.alloc(), ended, output, wanted),
        "{}: {} bytes, {} turns, {:?}, room for {}: {ended:?}, {} calls, {:?}",
        once.name,
        once.text.len(),
        once.turns,
        once.next,
        once.room,
        output.calls,
        output.held.as_slice()
    );
}

// The ways to go on after a front: what the reader does, and how many turns there are for it.
const WAYS: [(After<'static>, u64, Next); 6] = [
    (After::End, 1, Next::End),
    (After::End, 0, Next::Nothing),
    (After::Failure, 1, Next::Nothing),
    (After::Again(b"\n"), 20, Next::Lf),
    (After::Again(b"x"), 20, Next::Nothing),
    (After::Again(OPPOSITE_ORDER), 100, Next::Trace),
];

// The command over this front of the sample, and each of the ways to go on.
fn expect_stops<R: Abort + AllocGlobal + Threads + Wait + Sync>(
    rt: &R,
    command: &Command,
    sample: &Sample<'_>,
    front: &[u8],
)
    requires { CanRun command.now }
{
    for (after, more, next) in WAYS {
        let once = Try {
            name: sample.name,
            text: front,
            after,
            next,
            turns: (front.len() as u64).saturating_add(more),
            room: 1_000,
            fails: true,
        };
        expect_answer(rt, command, &once, &wanted_of(command, sample, front, next));
    }
}

// The command over each front of the sample. Those before the third line are alike in both traces.
fn expect_fronts<R: Abort + AllocGlobal + Threads + Wait + Sync>(
    rt: &R,
    command: &Command,
    sample: &Sample<'_>,
)
    requires { CanRun command.now }
{
    let first = if sample.is_bad {
        sample.head.saturating_add(24)
    } else {
        0
    };
    for count in first..sample.text.len() {
        expect_stops(rt, command, sample, &sample.text[..count]);
    }
    expect_stops(rt, command, sample, sample.text);
}

// What stands before the trace in a text for the command.
fn head_of(command: &Command) -> &'static [u8] {
    match command {
        Command::Check { .. } => &TRUE_REPORT[..HEAD],
        _ => b"",
    }
}

// The text of these two parts.
fn joined(alloc: Global, head: &[u8], trace: &[u8]) -> Option<Vec<u8>> {
    let mut text = Vec::new(alloc);
    put(&mut text, &[head, trace])?;
    Some(text)
}

// The row's command over the fronts of this trace, whose third line is at fault or isn't.
fn expect_trace<R: Abort + AllocGlobal + Threads + Wait + Sync>(
    rt: &R,
    row: &Row,
    trace: &[u8],
    is_bad: bool,
) {
    let command = command_of(row.ask, 2).expect(rt, row.name);
    let head = head_of(&command);
    let text = joined(rt.alloc(), head, trace).expect(rt, row.name);
    let sample = Sample {
        name: row.name,
        text: text.as_slice(),
        head: head.len(),
        is_bad,
    };
    expect_fronts(rt, &command, &sample);
}

// The writer stops before what is printed is whole, and holds its first bytes.
fn expect_full<R: Abort + AllocGlobal + Threads + Wait + Sync>(
    rt: &R,
    command: &Command,
    once: &Try<'_>,
    printed: &[u8],
)
    requires { CanRun command.now }
{
    let (ended, output) = tried(rt, command, once);
    expect_stopped(rt, once, &ended, &output, printed);
}

// It has stopped so.
fn expect_stopped(rt: &impl Abort, once: &Try<'_>, ended: &Ended, output: &Narrow, printed: &[u8]) {
    let room = once.room;
    assert!(rt;
        is_failed(ended, room)
            && printed.get(..room) == Some(output.held.as_slice())
            && output.calls == room.saturating_add(1),
        "{}: room for {room}: {ended:?}, {} calls, {:?}",
        once.name,
        output.calls,
        output.held.as_slice()
    );
}

// The writer, with so much room, fails when it is full, or takes no byte.
fn expect_room<R: Abort + AllocGlobal + Threads + Wait + Sync>(
    rt: &R,
    command: &Command,
    asked: &Try<'_>,
    room: usize,
    printed: &[u8],
)
    requires { CanRun command.now }
{
    for fails in [false, true] {
        let once = Try {
            room,
            fails,
            ..*asked
        };
        expect_full(rt, command, &once, printed);
    }
}

// The command over the text that is asked, into writers with each number of bytes of room.
fn expect_rooms<R: Abort + AllocGlobal + Threads + Wait + Sync>(
    rt: &R,
    command: &Command,
    asked: &Try<'_>,
    wanted: &Wanted<'_>,
)
    requires { CanRun command.now }
{
    let whole = wanted.printed.len();
    for room in 0..whole {
        expect_room(rt, command, asked, room, wanted.printed);
    }
    let fits = Try {
        room: whole,
        ..*asked
    };
    expect_answer(rt, command, &fits, wanted);
    let roomy = Try {
        room: 1_000,
        ..*asked
    };
    expect_answer(rt, command, &roomy, wanted);
}

// The row's command into writers.
fn expect_writers<R: Abort + AllocGlobal + Threads + Wait + Sync>(rt: &R, row: &Row) {
    let command = command_of(row.ask, 2).expect(rt, row.name);
    let text = joined(rt.alloc(), head_of(&command), OPPOSITE_ORDER).expect(rt, row.name);
    let asked = Try {
        name: row.name,
        text: text.as_slice(),
        after: After::End,
        next: Next::End,
        turns: TURNS,
        room: 0,
        fails: true,
    };
    let wanted = answered(&command, OPPOSITE_ORDER);
    expect_rooms(rt, &command, &asked, &wanted);
}

// A command that is tried.
#[derive(Clone, Copy)]
struct Row {
    name: &'static str,
    ask: Ask,
}

fn expect_readers<R: Abort + AllocGlobal + Threads + Wait + Sync>(rt: &R, rows: &[Row]) {
    for row in rows {
        expect_trace(rt, row, OPPOSITE_ORDER, false);
        expect_trace(rt, row, BAD_THIRD, true);
    }
}

// A test has a minute, so a few commands are tried at a time.
const PREDICTED: &[Row] = &[
    Row {
        name: "predict_from_readers",
        ask: PREDICTION,
    },
    Row {
        name: "findings_from_readers",
        ask: Ask::Findings,
    },
];

#[test]
fn predictions_from_readers(rt: HostRuntime) {
    expect_readers(&rt, PREDICTED);
}

const COUNTED: &[Row] = &[
    Row {
        name: "stats_from_readers",
        ask: COUNTS,
    },
    Row {
        name: "replay_from_readers",
        ask: Ask::Replay,
    },
];

#[test]
fn counts_and_replays_from_readers(rt: HostRuntime) {
    expect_readers(&rt, COUNTED);
}

const CHECKED: &[Row] = &[Row {
    name: "check_from_readers",
    ask: Ask::Check,
}];

#[test]
fn checks_from_readers(rt: HostRuntime) {
    expect_readers(&rt, CHECKED);
}

const LIVE: &[Row] = &[
    Row {
        name: "live_from_readers",
        ask: Ask::Live(2, 2, 1),
    },
    Row {
        name: "live_findings_from_readers",
        ask: Ask::LiveFindings(2, 2, 1),
    },
];

#[test]
fn sessions_from_readers(rt: HostRuntime) {
    expect_readers(&rt, LIVE);
}

const STREAMED: &[Row] = &[
    Row {
        name: "stream_from_readers",
        ask: Ask::Stream(4, 2),
    },
    Row {
        name: "stream_findings_from_readers",
        ask: Ask::StreamFindings(4, 2),
    },
];

#[test]
fn streams_from_readers(rt: HostRuntime) {
    expect_readers(&rt, STREAMED);
}

const INTO_WRITERS: &[Row] = &[
    Row {
        name: "predict_into_writers",
        ask: PREDICTION,
    },
    Row {
        name: "findings_into_writers",
        ask: Ask::Findings,
    },
    Row {
        name: "stats_into_writers",
        ask: COUNTS,
    },
    Row {
        name: "replay_into_writers",
        ask: Ask::Replay,
    },
    Row {
        name: "live_into_writers",
        ask: Ask::Live(2, 2, 1),
    },
    Row {
        name: "stream_into_writers",
        ask: Ask::Stream(4, 2),
    },
    Row {
        name: "check_into_writers",
        ask: Ask::Check,
    },
];

#[test]
fn into_writers(rt: HostRuntime) {
    for row in INTO_WRITERS {
        expect_writers(&rt, row);
    }
}
