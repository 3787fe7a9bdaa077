//! What is answered to a text by a session that records it as it comes.
ghost use Rattle.std.specs.Prelude.{◌≡◌, ◌≤◌, ◌^◌, true, false, Ok, Err, IfOk, IfErr};
ghost use Rattle.gl_live.specs.Streamed.{FailsInTime};
ghost use Rattle.gl_live.specs.declared.faults.LiveFault.TheVariants.{Inconsistent, Memory as OutOfMemory, Unconfirmed as NotConfirmed};
ghost use Rattle.gl_live.specs.declared.faults.StreamFault.TheVariants.{Session};
ghost use Rattle.gl_options.specs.Sessions.{AreOfSession, with_threads};
ghost use Rattle.gl_io.specs.Uses.{used};
ghost use Rattle.gl_commands.specs.RefusalLines.{inconsistent_line};
ghost use Rattle.gl_commands.specs.bodies.Stops.{ForEachText, IfRefused, IsEndOfText, IsPrintedUnder, StopsUnder};

use crate::answer::{Printed, printed_in};
use crate::ended::Ended;
use crate::reading::Reading;
use crate::recorded::{contents_of, listing_of};
use crate::refusal_lines::{fault_line, inconsistent_line};
use gl_cycles::Report;
use gl_event::{Limits, MAX_RING, Segment};
use gl_io::Source;
use gl_live::{LiveFault, StreamFault, StreamOptions, stream_report_with};
use gl_options::LiveOptions;
use gl_shards::Gate;
use gl_std::{Items, LinesFault, Names};
use std::alloc::Global;
use std::sync::Wait;
use std::thread::Threads;

// What the options ask a session over a text to be run with.
fn stream_of(options: &LiveOptions) -> StreamOptions
    ensures threads { result.threads ≡ options.now.threads }
    ensures shards { result.shards ≡ options.now.shards }
    ensures ring { result.ring ≡ options.now.ring }
{
    StreamOptions {
        threads: options.threads,
        shards: options.shards,
        ring: options.ring,
    }
}

// How a session ends over a text of which this fault was met.
fn end_of_text(alloc: Global, fault: LinesFault) -> Ended
    ensures { IsEndOfText fault result }
{
    match fault {
        LinesFault::Line { line, kind } => match fault_line(alloc, line, kind) {
            Ok(said) => Ended::Refused(said),
            Err(_) => Ended::Memory,
        },
        LinesFault::Read => Ended::ReadFailed,
        LinesFault::Memory => Ended::Memory,
    }
}

// What is printed of a text that has this report.
fn printed_of(
    alloc: Global,
    options: &LiveOptions,
    report: Report,
    items: Items,
) -> Result<Printed, Ended>
    ensures printed { ForEachText options.now items (Ok report)
        (λ limits turns input. IfOk result (IsPrintedUnder options.now limits turns input)) }
    ensures memory { IfErr result (λ ended. ended ≡ Ended.Memory) }
{
    let (names, _skipped, _stray) = items.parts();
    let answer = printed_in(alloc, listing_of(options), options.form, &names, &report);
    drop(names);
    drop(report);
    answer
}

// How a session ends over a text of which this segment is before itself, where these are the names.
fn end_at(alloc: Global, names: &Names, at: Segment) -> Ended
    ensures { IfRefused result (λ line. line ≡ inconsistent_line names.now at) }
{
    match inconsistent_line(alloc, names, at) {
        Ok(line) => Ended::Refused(line),
        Err(_) => Ended::Memory,
    }
}

// How a session ends over a text of which this segment is before itself.
fn end_of_loop(
    alloc: Global,
    options: &LiveOptions,
    at: Segment,
    ring: Vec<Segment>,
    items: Items,
) -> Ended
    ensures { ForEachText options.now items (Err (Session (Inconsistent at ring)))
        (λ limits turns input. StopsUnder options.now limits turns input result) }
{
    let (names, _skipped, _stray) = items.parts();
    let ended = end_at(alloc, &names, at);
    drop(names);
    drop(ring);
    ended
}

// How a session ends over a text of which it has no report.
fn end_without_report(
    alloc: Global,
    options: &LiveOptions,
    fault: StreamFault,
    items: Items,
) -> Ended
    ensures ends { ForEachText options.now items (Err fault) (λ limits turns input.
        FailsInTime {Y = Report} input.before input.after items (Err fault)
        → StopsUnder options.now limits turns input result) }
    ensures memory { fault ≡ Session OutOfMemory → result ≡ Ended.Memory }
    ensures unconfirmed { fault ≡ Session NotConfirmed → result ≡ Ended.Unconfirmed }
{
    match fault {
        StreamFault::Text(fault) => {
            drop(items);
            end_of_text(alloc, fault)
        }
        StreamFault::Session(LiveFault::Inconsistent { at, ring }) => {
            end_of_loop(alloc, options, at, ring, items)
        }
        StreamFault::Session(LiveFault::Memory) => {
            drop(items);
            Ended::Memory
        }
        StreamFault::Session(LiveFault::Unconfirmed) => {
            drop(items);
            Ended::Unconfirmed
        }
    }
}

// What is answered to a text, where a session had this report of it or none.
fn answered(
    alloc: Global,
    options: &LiveOptions,
    reported: Result<Report, StreamFault>,
    items: Items,
) -> Result<Printed, Ended>
    ensures printed { ForEachText options.now items reported
        (λ limits turns input. IfOk result (IsPrintedUnder options.now limits turns input)) }
    ensures stopped { ForEachText options.now items reported (λ limits turns input.
        FailsInTime input.before input.after items reported
        → IfErr result (StopsUnder options.now limits turns input)) }
{
    match reported {
        Ok(report) => printed_of(alloc, options, report, items),
        Err(fault) => Err(end_without_report(alloc, options, fault, items)),
    }
}

/// What is answered to the text that a source gives, by a session that records it as it comes.
///
/// The names and what each thread holds are kept of the text, and the session's events; reading stops at the
/// first line with a fault.
pub(crate) fn streamed<R: AllocGlobal + Threads + Wait + Sync, I: Source, G: Gate + Sync>(
    rt: &R,
    input: &mut I,
    reading: &Reading,
    options: &LiveOptions,
    gate: &G,
) -> Result<Printed, Ended>
    requires readable { I.failed input.old ≡ false }
    requires few_turns { reading.now.turns ≤ 2 ^ 40 }
    requires session { AreOfSession options.now }
    requires as_it_comes { options.now.stream ≡ true }
    ensures printed { IfOk result
        (IsPrintedUnder options.now (with_threads options.now.threads) reading.now.turns
        (used (I.position input.old) (I.position input.new) (I.failed input.new))) }
    ensures stopped { IfErr result
        (StopsUnder options.now (with_threads options.now.threads) reading.now.turns
        (used (I.position input.old) (I.position input.new) (I.failed input.new))) }
{
    let alloc = rt.alloc();
    let limits = Limits::of_session(options.threads, MAX_RING);
    let items = Items::new(alloc, &limits, reading.turns, reading.seed)?;
    let contents = contents_of(options);
    let session = stream_of(options);
    let (reported, items) = stream_report_with(
        rt,
        alloc,
        items,
        input,
        &session,
        contents,
        &options.query,
        gate,
    );
    answered(alloc, options, reported, items)
}
