//! The commands, over a reader and a writer.
//!
//! Each hears the trace of its input, makes what it prints of it, and writes that.
ghost use Rattle.std.specs.Prelude.{◌≡◌, ◌≤◌, ◌^◌, ℕ, false, List, Option, IfOk, IfErr};
ghost use Rattle.std.specs.Io.KnownBytes.{Appends};
ghost use Rattle.gl_event.specs.Bounds.{greatest};
ghost use Rattle.gl_std.specs.Lines.{ended_lines};
ghost use Rattle.gl_std.specs.Trace.{trace_of, IsTraceOver};
ghost use Rattle.gl_options.specs.Sessions.{AreOfSession, CanRun};
ghost use Rattle.gl_commands.specs.Answer.{IsAnswer, IsPlainAnswer, counts, prediction, replay};
ghost use Rattle.gl_findings.specs.declared.listing.Listing.TheVariants.{Cycles, Findings};
ghost use Rattle.gl_commands.specs.Checking.{HasChecked};
ghost use Rattle.gl_io.specs.Uses.{used};
ghost use Rattle.gl_commands.specs.Ending.{EndsEarlyAs, HasEnded, HasEndedEarly};
ghost use Rattle.gl_commands.specs.bodies.Halves.{EndsWith, HasHeardAll, HasWrittenText};
ghost use Rattle.gl_commands.specs.Performed.{HasPerformed};
ghost use Rattle.gl_commands.specs.Ready.{AreReady};
ghost use Rattle.gl_commands.specs.Sessions.{HasEndedSession};

use crate::answer::{Printed, counted, predicted, replayed, trace_or_line};
use crate::checking::{checked, end_cut};
use crate::ended::{Ended, Outcome};
use crate::reading::{Reading, TURNS};
use crate::recorded::recorded;
use crate::streamed::streamed;
use gl_event::Limits;
use gl_filters::Query;
use gl_findings::Listing;
use gl_io::{Sink, Source, WriteFault, read_whole, write_out};
use gl_options::{Command, Form, LiveOptions};
use gl_shards::{Gate, Open};
use gl_std::{ReadFault, Seed, Trace, read_source_parallel};
use std::alloc::Global;
use std::sync::Wait;
use std::thread::Threads;

// How a command ends over a text that wasn't read whole, with this trace or first fault of the
// lines that LF has ended.
fn end_early(alloc: Global, read: Result<Trace, ReadFault>) -> Ended
    ensures { (text : List ℕ) → trace_of greatest (ended_lines text) ≡ read
        → EndsEarlyAs greatest text result }
{
    match trace_or_line(alloc, read) {
        Ok(trace) => {
            drop(trace);
            Ended::ReadFailed
        }
        Err(ended) => ended,
    }
}

// Reads the input to its end: the trace of its text or the first fault, or how a command ends where
// it can't be read so far.
fn hear<R: Threads + Sync, I: Source>(
    rt: &R,
    alloc: Global,
    input: &mut I,
    reading: &Reading,
) -> Result<Result<Trace, ReadFault>, Ended>
    requires readable { I.failed input.old ≡ false }
    requires few_turns { reading.now.turns ≤ 2 ^ 40 }
    ensures heard { IfOk result
        (HasHeardAll reading.now.turns
        (used (I.position input.old) (I.position input.new) (I.failed input.new))) }
    ensures over { IfOk result (λ read. IfOk read (IsTraceOver greatest)) }
    ensures early { IfErr result
        (HasEndedEarly greatest reading.now.turns
        (used (I.position input.old) (I.position input.new) (I.failed input.new))) }
{
    let Reading { turns, seed, .. } = *reading;
    let jobs = reading.threads(rt);
    let limits = Limits::greatest();
    let Ok(heard) = read_source_parallel(rt, alloc, input, turns, &limits, seed, jobs) else {
        return Err(Ended::Memory);
    };
    if heard.is_whole {
        return Ok(heard.trace);
    }
    Err(end_early(alloc, heard.trace))
}

// How a command ends that has written all.
fn end_written(outcome: Outcome) -> Ended
    ensures { (before after : Option (List ℕ)) (text : List ℕ) → Appends before after text
        → HasWrittenText text outcome before after false result }
{
    match outcome {
        Outcome::Clean => Ended::Clean,
        Outcome::Cycles => Ended::Cycles,
        Outcome::Done => Ended::Done,
    }
}

// Writes a text.
fn write<O: Sink>(output: &mut O, printed: &Printed) -> Ended
    requires { O.failed output.old ≡ false }
    ensures { HasWrittenText printed.now.text.items printed.now.outcome (O.contents output.old)
        (O.contents output.new) (O.failed output.new) result }
{
    match write_out(output, printed.text.as_slice()) {
        Ok(()) => end_written(printed.outcome),
        Err(WriteFault { written }) => Ended::WriteFailed { written },
    }
}

// Writes what is answered, if it is a text to be printed.
fn end<O: Sink>(output: &mut O, answered: Result<Printed, Ended>) -> Ended
    requires { O.failed output.old ≡ false }
    ensures { EndsWith answered (O.contents output.old) (O.contents output.new)
        (O.failed output.new) result }
{
    match answered {
        Ok(printed) => write(output, &printed),
        Err(ended) => ended,
    }
}

// Reads a trace, predicts its deadlocks and writes the report that lists cycles, or findings.
fn predict_listing<R: AllocGlobal + Threads + Sync, I: Source, O: Sink>(
    rt: &R,
    input: &mut I,
    output: &mut O,
    reading: &Reading,
    listing: Listing,
    query: &Query,
    form: Form,
) -> Ended
    requires ready { AreReady reading.now.turns (I.failed input.old) (O.failed output.old) }
    ensures { HasEnded (IsAnswer (prediction listing query.now form)) reading.now.turns
        (used (I.position input.old) (I.position input.new) (I.failed input.new))
        (used (O.contents output.old) (O.contents output.new) (O.failed output.new)) result }
{
    let alloc = rt.alloc();
    match hear(rt, alloc, input, reading) {
        Ok(read) => {
            let threads = reading.threads(rt);
            end(
                output,
                predicted(rt, alloc, read, listing, query, form, threads),
            )
        }
        Err(ended) => ended,
    }
}

/// Reads a trace, predicts its deadlocks and writes the report in the form asked for.
///
/// The input is read to its end before anything else, as [`Reading`] says; its text isn't kept.
/// The report is made whole before its first byte is written. Where the input can't be read to its
/// end, the first fault in the lines that were ended before is answered, else
/// [`Ended::ReadFailed`]. Each reader and writer is used only while it hasn't failed. Cycles are sought in
/// several threads, unless one is to read.
pub fn predict<R: AllocGlobal + Threads + Sync, I: Source, O: Sink>(
    rt: &R,
    input: &mut I,
    output: &mut O,
    reading: &Reading,
    query: &Query,
    form: Form,
) -> Ended
    requires ready { AreReady reading.now.turns (I.failed input.old) (O.failed output.old) }
    ensures { HasEnded (IsAnswer (prediction Cycles query.now form)) reading.now.turns
        (used (I.position input.old) (I.position input.new) (I.failed input.new))
        (used (O.contents output.old) (O.contents output.new) (O.failed output.new)) result }
{
    predict_listing(rt, input, output, reading, Listing::Cycles, query, form)
}

/// Reads a trace, predicts its deadlocks and writes the findings in the form asked for: each signature of the
/// cycles once, shown by the first of its cycles.
///
/// Reads, refuses and fails as [`predict`] does. Findings are sought in several threads, unless one is to read.
pub fn predict_findings<R: AllocGlobal + Threads + Sync, I: Source, O: Sink>(
    rt: &R,
    input: &mut I,
    output: &mut O,
    reading: &Reading,
    query: &Query,
    form: Form,
) -> Ended
    requires ready { AreReady reading.now.turns (I.failed input.old) (O.failed output.old) }
    ensures { HasEnded (IsAnswer (prediction Findings query.now form)) reading.now.turns
        (used (I.position input.old) (I.position input.new) (I.failed input.new))
        (used (O.contents output.old) (O.contents output.new) (O.failed output.new)) result }
{
    predict_listing(rt, input, output, reading, Listing::Findings, query, form)
}

/// Reads a trace, records it again in running threads, and writes the report of what was recorded, in
/// the form asked for.
///
/// **Unless it answers [`Ended::Memory`] or [`Ended::Unconfirmed`], it ends as [`predict`] does and writes
/// the same bytes**, or with [`LiveOptions::findings`] as [`predict_findings`] does, whatever the threads'
/// timing. Each thread of the trace has a lane of its own; lane `t`
/// is recorded by recorder thread `t` modulo their number, event after event; the collector runs in the
/// calling thread, and a worker keeps the edges of each shard. A trace without threads opens no session.
/// The input is read whole before a thread of the session is started, and no thread records before all were.
///
/// With [`LiveOptions::stream`] the calling thread alone reads, whatever [`Reading::jobs`] is, and records each
/// event as it is read, into one of [`LiveOptions::threads`] lanes, and the collector has a thread of its own:
/// edges are shipped before the input ends. It ends as `predict` does under that limit of threads; but reading
/// stops at the first line with a fault, which is refused as `predict` refuses it, whatever follows.
pub fn live<R: AllocGlobal + Threads + Wait + Sync, I: Source, O: Sink>(
    rt: &R,
    input: &mut I,
    output: &mut O,
    reading: &Reading,
    options: &LiveOptions,
) -> Ended
    requires ready { AreReady reading.now.turns (I.failed input.old) (O.failed output.old) }
    requires session { AreOfSession options.now }
    ensures { HasEndedSession options.now reading.now.turns
        (used (I.position input.old) (I.position input.new) (I.failed input.new))
        (used (O.contents output.old) (O.contents output.new) (O.failed output.new)) result }
{
    live_gated(rt, input, output, reading, options, &Open)
}

/// As [`live`], with a gate that each worker passes before it keeps an edge.
pub fn live_gated<R: AllocGlobal + Threads + Wait + Sync, I: Source, O: Sink, G: Gate + Sync>(
    rt: &R,
    input: &mut I,
    output: &mut O,
    reading: &Reading,
    options: &LiveOptions,
    gate: &G,
) -> Ended
    requires ready { AreReady reading.now.turns (I.failed input.old) (O.failed output.old) }
    requires session { AreOfSession options.now }
    ensures { HasEndedSession options.now reading.now.turns
        (used (I.position input.old) (I.position input.new) (I.failed input.new))
        (used (O.contents output.old) (O.contents output.new) (O.failed output.new)) result }
{
    if options.stream {
        return end(output, streamed(rt, input, reading, options, gate));
    }
    let alloc = rt.alloc();
    match hear(rt, alloc, input, reading) {
        Ok(read) => end(output, recorded(rt, alloc, read, options, gate)),
        Err(ended) => ended,
    }
}

/// Reads a trace and writes eight counts of it and of its report, each on a line.
///
/// Reads, refuses and fails as [`predict`] does.
pub fn stats<R: AllocGlobal + Threads + Sync, I: Source, O: Sink>(
    rt: &R,
    input: &mut I,
    output: &mut O,
    reading: &Reading,
    query: &Query,
) -> Ended
    requires ready { AreReady reading.now.turns (I.failed input.old) (O.failed output.old) }
    ensures { HasEnded (IsAnswer (counts query.now)) reading.now.turns
        (used (I.position input.old) (I.position input.new) (I.failed input.new))
        (used (O.contents output.old) (O.contents output.new) (O.failed output.new)) result }
{
    let alloc = rt.alloc();
    match hear(rt, alloc, input, reading) {
        Ok(read) => {
            let threads = reading.threads(rt);
            end(output, counted(rt, alloc, read, query, threads))
        }
        Err(ended) => ended,
    }
}

/// Reads a trace and writes it as a text, thread by thread: its events alone, each as a line.
///
/// Reads and fails as [`predict`] does, and refuses lines at fault alone: whether its forks and joins
/// can have happened isn't asked.
pub fn replay<R: AllocGlobal + Threads + Sync, I: Source, O: Sink>(
    rt: &R,
    input: &mut I,
    output: &mut O,
    reading: &Reading,
) -> Ended
    requires ready { AreReady reading.now.turns (I.failed input.old) (O.failed output.old) }
    ensures { HasEnded (IsPlainAnswer replay) reading.now.turns
        (used (I.position input.old) (I.position input.new) (I.failed input.new))
        (used (O.contents output.old) (O.contents output.new) (O.failed output.new)) result }
{
    let alloc = rt.alloc();
    match hear(rt, alloc, input, reading) {
        Ok(read) => end(output, replayed(alloc, read)),
        Err(ended) => ended,
    }
}

/// Reads a report, which is one line of JSON, and after it the text of a trace, and writes whether the
/// report is true of the trace. A report that isn't is refused with the line that says its first fault.
///
/// Fails as [`predict`] does, and refuses each trace that has a line at fault, with the number of the line
/// in the trace, before it looks at the report. Where the input can't be read to its end, it judges the
/// lines of the trace that were ended. The input is kept in memory, and the trace read from there by several
/// threads, as [`Reading`] says.
pub fn check_input<R: AllocGlobal + Threads + Sync, I: Source, O: Sink>(
    rt: &R,
    input: &mut I,
    output: &mut O,
    reading: &Reading,
) -> Ended
    requires ready { AreReady reading.now.turns (I.failed input.old) (O.failed output.old) }
    ensures { HasChecked reading.now.turns
        (used (I.position input.old) (I.position input.new) (I.failed input.new))
        (used (O.contents output.old) (O.contents output.new) (O.failed output.new)) result }
{
    let alloc = rt.alloc();
    let Ok(input_read) = read_whole(alloc, input, reading.turns) else {
        return Ended::Memory;
    };
    let text = input_read.text.as_slice();
    if input_read.is_whole {
        return end(output, checked(rt, alloc, text, reading));
    }
    end_cut(rt, alloc, text, reading)
}

/// Does what the words of the command line ask for, from the input to the output, in at most
/// 1,000,000,000 reads, and with as many threads that read as they ask for. The seed is that of the names' hash:
/// no answer depends on it, or on how many threads read.
pub fn perform<R: AllocGlobal + Threads + Wait + Sync, I: Source, O: Sink>(
    rt: &R,
    input: &mut I,
    output: &mut O,
    seed: Seed,
    command: &Command,
) -> Ended
    requires readable { I.failed input.old ≡ false }
    requires writable { O.failed output.old ≡ false }
    requires runs { CanRun command.now }
    ensures { HasPerformed command.now 1000000000
        (used (I.position input.old) (I.position input.new) (I.failed input.new))
        (used (O.contents output.old) (O.contents output.new) (O.failed output.new)) result }
{
    let reading = Reading {
        turns: TURNS,
        seed,
        jobs: command.jobs(),
    };
    match command {
        Command::Predict { query, form, .. } => predict(rt, input, output, &reading, query, *form),
        Command::Findings { query, form, .. } => {
            predict_findings(rt, input, output, &reading, query, *form)
        }
        Command::Live(options) => live(rt, input, output, &reading, options),
        Command::Stats { query, .. } => stats(rt, input, output, &reading, query),
        Command::Replay { .. } => replay(rt, input, output, &reading),
        Command::Check { .. } => check_input(rt, input, output, &reading),
    }
}
