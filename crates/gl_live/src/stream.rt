//! The report of a text by a session that records it as it is read.
ghost use Rattle.std.specs.Prelude.{◌≡◌, ℕ, [], IfOk, OnOk};
ghost use Rattle.std.specs.Vec.{vec_len, vec_capacity};
ghost use Rattle.gl_event.specs.Bounds.{Bounds};
ghost use Rattle.gl_findings.specs.declared.listing.Contents.TheVariants.{CyclesAndTrim};
ghost use Rattle.gl_io.specs.Positions.{Position};
ghost use Rattle.gl_io.specs.Uses.{SourceUse, used};
ghost use Rattle.gl_std.specs.Streaming.{CanBeAsked, HasTold, IsDone};
ghost use Rattle.gl_std.specs.Trace.{nothing};
ghost use Rattle.gl_live.specs.Options.{CanRunOverText};
ghost use Rattle.gl_live.specs.Streamed.{Becomes, FailsInTime, IsUnread};
ghost use Rattle.gl_live.specs.bodies.Runs.{HasRun};
ghost use Rattle.gl_live.specs.bodies.Rosters.{gathered_from, AreReceipts};
ghost use Rattle.gl_live.specs.bodies.Streams.{HasStreamed};

use crate::faults::{LiveFault, StreamFault};
use crate::live::conclude;
use crate::run::Ran;
use crate::session::prepare;
use crate::streaming::{StreamOptions, read_session};
use gl_cycles::Report;
use gl_filters::Query;
use gl_findings::Contents;
use gl_shards::{Gate, Table};
use gl_std::{Items, Source};
use std::alloc::Global;
use std::sync::Wait;
use std::thread::Threads;

// The report of a session that has recorded a text, or why there is none.
fn report_streamed(
    rt: &(impl Threads + Sync),
    alloc: Global,
    ran: Result<Ran, StreamFault>,
    tables: Vec<Table>,
    contents: Contents,
    query: &Query,
) -> Result<Report, StreamFault>
    requires run { IfOk ran (λ r. HasRun (vec_capacity tables) r.gathered r.served.items) }
    requires ours { IfOk ran (λ r. AreReceipts (gathered_from r.gathered) r.receipts.items) }
    requires empty { tables.items ≡ [] }
    requires none { vec_len tables ≡ 0 }
    ensures becomes { (limits : Bounds) (turns : ℕ) (input : SourceUse) (items : Items)
        → IfOk ran (λ r. r.gathered.limits.threads ≡ limits.threads)
        → HasStreamed limits turns input limits.threads items ran
        → Becomes contents query.now limits turns input items result }
    ensures in_time { (old new : Position) (items : Items) → OnOk ran (IsDone items)
        → FailsInTime old new items ran → FailsInTime old new items result }
{
    match ran {
        Ok(ran) => match conclude(rt, alloc, ran, tables, contents, query) {
            Ok(report) => Ok(report),
            Err(fault) => Err(StreamFault::Session(fault)),
        },
        Err(fault) => Err(fault),
    }
}

/// The report of the text that a source gives, with these contents, by a session that records it as it is
/// read: whatever the threads' timing, it is that of the trace of the text, where this names no
/// more threads than there are lanes.
///
/// The items are those of the text, of which none was asked for yet, under a limit of as many threads as
/// there are lanes; they are handed back. The calling thread reads, and records each event into the lane of
/// its thread's number before it reads on; the collector runs in a thread of its own, which is started
/// last; each worker is passed the gate. So edges are shipped before the text has ended. At its end, and
/// at a fault, all lanes are closed. Where a thread couldn't be started, nothing is read.
///
/// # Errors
///
/// [`StreamFault::Text`] with the fault that the items answered; [`StreamFault::Session`] with
/// [`LiveFault::Memory`] where a growth was refused, [`LiveFault::Unconfirmed`] where a thread couldn't be
/// started, and where the session isn't confirmed, and [`LiveFault::Inconsistent`] where a segment of the
/// text's trace is before itself. What isn't the text's comes before anything was read, or once all was told;
/// which one comes first where several could isn't promised else.
pub fn stream_report_with<R: Threads + Wait + Sync, S: Source, G: Gate + Sync>(
    rt: &R,
    alloc: Global,
    items: Items,
    input: &mut S,
    options: &StreamOptions,
    contents: Contents,
    query: &Query,
    gate: &G,
) -> (Result<Report, StreamFault>, Items)
    requires usable { CanBeAsked items (S.failed input.old) }
    requires unread { IsUnread options.now.threads (S.position input.old)
        (S.failed input.old) items }
    requires options { CanRunOverText options.now }
    ensures becomes { (limits : Bounds) (turns : ℕ) (start : Position)
        → limits.threads ≡ options.now.threads
        → HasTold limits turns
        (used start (S.position input.old) (S.failed input.old)) items [] nothing
        → Becomes contents query.now limits turns
        (used start (S.position input.new) (S.failed input.new)) result.1 result.0 }
    ensures in_time { FailsInTime (S.position input.old)
        (S.position input.new) result.1 result.0 }
{
    let opened = prepare(alloc, options.threads, options.shards, options.ring);
    let Ok((recorders, session)) = opened else {
        return (Err(StreamFault::Session(LiveFault::Memory)), items);
    };
    let Ok(tables) = Vec::with_capacity(alloc, options.shards as usize) else {
        return (Err(StreamFault::Session(LiveFault::Memory)), items);
    };
    let (ran, items) = read_session(rt, alloc, options, gate, session, recorders, items, input);
    (
        report_streamed(rt, alloc, ran, tables, contents, query),
        items,
    )
}

/// The Goodlock report of the text that a source gives, by a session as in
/// [`stream_report_with`]: it lists cycles, and has the trim order.
///
/// # Errors
///
/// Those of [`stream_report_with`].
pub fn stream_report<R: Threads + Wait + Sync, S: Source, G: Gate + Sync>(
    rt: &R,
    alloc: Global,
    items: Items,
    input: &mut S,
    options: &StreamOptions,
    query: &Query,
    gate: &G,
) -> (Result<Report, StreamFault>, Items)
    requires usable { CanBeAsked items (S.failed input.old) }
    requires unread { IsUnread options.now.threads (S.position input.old)
        (S.failed input.old) items }
    requires options { CanRunOverText options.now }
    ensures becomes { (limits : Bounds) (turns : ℕ) (start : Position)
        → limits.threads ≡ options.now.threads
        → HasTold limits turns
        (used start (S.position input.old) (S.failed input.old)) items [] nothing
        → Becomes CyclesAndTrim query.now limits turns
        (used start (S.position input.new) (S.failed input.new)) result.1 result.0 }
    ensures in_time { FailsInTime (S.position input.old)
        (S.position input.new) result.1 result.0 }
{
    stream_report_with(
        rt,
        alloc,
        items,
        input,
        options,
        Contents::CyclesAndTrim,
        query,
        gate,
    )
}
