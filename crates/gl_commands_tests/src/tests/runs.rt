//! Runs of commands: over whole texts, over texts that can't be read to their end, and by so many bytes a
//! read.
ghost use Rattle.std.specs.Prelude.{◌≡◌, ◌≤◌, ◌^◌, false};
ghost use Rattle.gl_io.specs.Positions.{untold};
ghost use Rattle.gl_commands.specs.Ready.{AreReady};
ghost use Rattle.gl_options.specs.Sessions.{AreOfSession, CanRun};

use super::asks::{Ask, command_of};
use super::texts::{Text, made};
use crate::cut::Cut;
use gl_commands::{Ended, Reading, check_input, live, predict, predict_findings, replay, stats};
use gl_filters::Query;
use gl_io::{Failed, FromStd, Sink, Source};
use gl_options::{Command, Form, LiveOptions};
use gl_std::Seed;
use std::process::Abort;
use std::sync::Wait;
use std::thread::Threads;

pub(super) const TURNS: u64 = 1_000_000_000;

// How a text is read.
#[derive(Clone, Copy)]
pub(super) enum Reader {
    // at once
    Whole,
    // in at most so many reads
    Turns(u64),
    // at once, and then a read fails
    Cut,
    // by so many bytes a read, each number in turn; then so much is left of it, where that is asked
    Sips(&'static [usize], Option<usize>),
}

// How a command ends.
#[derive(Clone, Copy)]
pub(super) enum End {
    Clean,
    Cycles,
    Done,
    Refused(&'static [u8]),
    ReadFailed,
}

// A run of a command over a text: how it ends, and what it writes.
#[derive(Clone, Copy)]
pub(super) struct Case {
    pub(super) name: &'static str,
    pub(super) ask: Ask,
    pub(super) text: Text,
    pub(super) reader: Reader,
    pub(super) end: End,
    pub(super) printed: &'static [u8],
}

// How `replay` ends, of which nothing is told: what is asked then stands among few facts, and the prover takes it
// quickly. So it is with the others. A proof that is the first to call a command reads what stands behind that, so
// these go from the command with least behind it to the one with most.
fn run_replay<R: AllocGlobal + Threads + Sync, I: Source, O: Sink>(
    rt: &R,
    input: &mut I,
    output: &mut O,
    reading: &Reading,
) -> Ended
    requires ready { AreReady reading.now.turns (I.failed input.old) (O.failed output.old) }
{
    replay(rt, input, output, reading)
}

fn run_check<R: AllocGlobal + Threads + Sync, I: Source, O: Sink>(
    rt: &R,
    input: &mut I,
    output: &mut O,
    reading: &Reading,
) -> Ended
    requires ready { AreReady reading.now.turns (I.failed input.old) (O.failed output.old) }
{
    check_input(rt, input, output, reading)
}

fn run_stats<R: AllocGlobal + Threads + Sync, I: Source, O: Sink>(
    rt: &R,
    input: &mut I,
    output: &mut O,
    reading: &Reading,
    query: &Query,
) -> Ended
    requires ready { AreReady reading.now.turns (I.failed input.old) (O.failed output.old) }
{
    stats(rt, input, output, reading, query)
}

fn run_predict<R: AllocGlobal + Threads + Sync, I: Source, O: Sink>(
    rt: &R,
    input: &mut I,
    output: &mut O,
    reading: &Reading,
    query: &Query,
    form: Form,
) -> Ended
    requires ready { AreReady reading.now.turns (I.failed input.old) (O.failed output.old) }
{
    predict(rt, input, output, reading, query, form)
}

fn run_findings<R: AllocGlobal + Threads + Sync, I: Source, O: Sink>(
    rt: &R,
    input: &mut I,
    output: &mut O,
    reading: &Reading,
    query: &Query,
    form: Form,
) -> Ended
    requires ready { AreReady reading.now.turns (I.failed input.old) (O.failed output.old) }
{
    predict_findings(rt, input, output, reading, query, form)
}

fn run_live<R: AllocGlobal + Threads + Wait + Sync, I: Source, O: Sink>(
    rt: &R,
    input: &mut I,
    output: &mut O,
    reading: &Reading,
    options: &LiveOptions,
) -> Ended
    requires ready { AreReady reading.now.turns (I.failed input.old) (O.failed output.old) }
    requires session { AreOfSession options.now }
{
    live(rt, input, output, reading, options)
}

// How the command ends over a reader and a writer.
pub(super) fn run<R: AllocGlobal + Threads + Wait + Sync, I: Source, O: Sink>(
    rt: &R,
    command: &Command,
    input: &mut I,
    output: &mut O,
    turns: u64,
) -> Ended
    requires readable { I.failed input.old ≡ false }
    requires writable { O.failed output.old ≡ false }
    requires few { turns ≤ 2 ^ 40 }
    requires runs { CanRun command.now }
{
    let reading = Reading {
        turns,
        seed: Seed::fixed(),
        jobs: command.jobs(),
    };
    match command {
        Command::Replay { .. } => run_replay(rt, input, output, &reading),
        Command::Check { .. } => run_check(rt, input, output, &reading),
        Command::Stats { query, .. } => run_stats(rt, input, output, &reading, query),
        Command::Predict { query, form, .. } => run_predict(
            rt, input, output, &reading, query, *form,
        ),
        Command::Findings { query, form, .. } => {
            run_findings(rt, input, output, &reading, query, *form)
        }
        Command::Live(options) => run_live(rt, input, output, &reading, options),
    }
}

// Whether it ends so.
fn is_end(ended: &Ended, wanted: End) -> bool {
    match (ended, wanted) {
        (Ended::Clean, End::Clean) => true,
        (Ended::Cycles, End::Cycles) => true,
        (Ended::Done, End::Done) => true,
        (Ended::ReadFailed, End::ReadFailed) => true,
        (Ended::Refused(line), End::Refused(said)) => line.as_slice() == said,
        _ => false,
    }
}

// It ends as it is wanted, and writes that.
fn expect_end(rt: &impl Abort, ended: &Ended, printed: &[u8], case: &Case) {
    assert!(rt; is_end(ended, case.end), "{}: {ended:?}", case.name);
    assert_eq!(rt; printed, case.printed, "{}", case.name);
}

// The run of the case over this reader is as it is wanted.
fn expect_over<R: Abort + AllocGlobal + Threads + Wait + Sync, I: Source>(
    rt: &R,
    command: &Command,
    input: &mut I,
    turns: u64,
    case: &Case,
)
    requires readable { I.failed input.old ≡ false }
    requires few { turns ≤ 2 ^ 40 }
    requires runs { CanRun command.now }
{
    let mut output = FromStd::new(Vec::new(rt.alloc()));
    let ended = run(rt, command, input, &mut output, turns);
    expect_end(rt, &ended, &output.into_inner(), case);
}

// The same over a text that is read at once, in at most so many turns.
fn expect_whole<R: Abort + AllocGlobal + Threads + Wait + Sync>(
    rt: &R,
    command: &Command,
    text: &[u8],
    turns: u64,
    case: &Case,
)
    requires few { turns ≤ 2 ^ 40 }
    requires runs { CanRun command.now }
{
    let mut input = FromStd::new(text);
    expect_over(rt, command, &mut input, turns, case);
}

// The same over a text after which a read fails.
fn expect_cut<R: Abort + AllocGlobal + Threads + Wait + Sync>(
    rt: &R,
    command: &Command,
    text: &[u8],
    case: &Case,
)
    requires { CanRun command.now }
{
    let mut input = Cut {
        rest: text,
        is_failed: false,
    };
    expect_over(rt, command, &mut input, TURNS, case);
}

// Gives its text by so many bytes a read.
#[derive(Drop)]
struct Sips<'a> {
    rest: &'a [u8],
    size: usize,
}

impl Source for Sips<'_> {
    ghost position = { λ _. untold };

    ghost failed = { λ _. false };

    fn read(&mut self, buffer: &mut [u8]) -> Result<usize, Failed> {
        let count = self.size.min(self.rest.len()).min(buffer.len());
        buffer[..count].copy_from_slice(&self.rest[..count]);
        self.rest = &self.rest[count..];
        Ok(count)
    }
}

// The same over a text that is read by so many bytes, of which so much is left, where that is asked.
fn expect_sipped<R: Abort + AllocGlobal + Threads + Wait + Sync>(
    rt: &R,
    command: &Command,
    text: &[u8],
    asked: (usize, Option<usize>),
    case: &Case,
)
    requires { CanRun command.now }
{
    let (size, left) = asked;
    let mut input = Sips { rest: text, size };
    expect_over(rt, command, &mut input, TURNS, case);
    let rest = input.rest.len();
    assert!(rt;
        rest == left.unwrap_or(rest),
        "{}: {rest} are left by {size}",
        case.name
    );
}

// The same for each number of bytes.
fn expect_sips<R: Abort + AllocGlobal + Threads + Wait + Sync>(
    rt: &R,
    command: &Command,
    text: &[u8],
    asked: (&[usize], Option<usize>),
    case: &Case,
)
    requires { CanRun command.now }
{
    for size in asked.0 {
        expect_sipped(rt, command, text, (*size, asked.1), case);
    }
}

// The run is as it is wanted.
fn expect_run<R: Abort + AllocGlobal + Threads + Wait + Sync>(
    rt: &R,
    command: &Command,
    text: &[u8],
    case: &Case,
)
    requires { CanRun command.now }
{
    match case.reader {
        Reader::Whole => expect_whole(rt, command, text, TURNS, case),
        Reader::Turns(turns) => expect_whole(rt, command, text, turns.min(TURNS), case),
        Reader::Cut => expect_cut(rt, command, text, case),
        Reader::Sips(sizes, left) => expect_sips(rt, command, text, (sizes, left), case),
    }
}

// The same where so many threads read.
fn expect<R: Abort + AllocGlobal + Threads + Wait + Sync>(rt: &R, case: &Case, jobs: u32) {
    let command = command_of(case.ask, jobs).expect(rt, case.name);
    let text = made(rt.alloc(), case.text).expect(rt, case.name);
    expect_run(rt, &command, &text, case);
}

// Each case ends alike whether one thread reads or several do.
pub(super) fn expect_all<R: Abort + AllocGlobal + Threads + Wait + Sync>(rt: &R, cases: &[Case]) {
    for case in cases {
        expect(rt, case, 1);
        expect(rt, case, 3);
    }
}
