//! Reading the text that a source gives in several threads.
//!
//! One thread judges the pieces that were cut before, one after another. Meanwhile the next ones are cut into lines by
//! the others, and the calling thread reads those after them, in the memory of pieces that were judged before. Those that
//! cut number the names in each piece, and go on with the names of a piece that was judged: so the thread that judges
//! looks each of them up once, and sees numbers else.
//!
//! The first piece is read before any thread is started, so that a text that ends in it costs what it costs one
//! thread. Where a piece has many new names, cutting it ahead doesn't pay: its lines are judged from its text, and where
//! that is so of all pieces of a round, this thread goes on alone.
ghost use Rattle.std.specs.Prelude.{◌≡◌, ◌^◌, ◌<◌, ◌≤◌, [], false, IfOk};
ghost use Rattle.gl_std.specs.Heard.{HasHeard};
ghost use Rattle.gl_std.specs.Trace.{IsTraceOver};
ghost use Rattle.gl_std.specs.bodies.Ahead.{text_of, AreRight, AreShort, CanReadAhead, HearsRest};

use super::{Heard, read_source};
use crate::faults::ReadFault;
use crate::line_reader::LineReader;
use crate::line_reader::pieces::Piece;
use crate::lists::Lists;
use crate::seed::Seed;
use gl_event::Limits;
use gl_io::Source;
use std::alloc::{AllocError, Global};
use std::thread::Threads;

mod cutting;
mod ending;

use cutting::{Cutters, judge_beside_list, read_first};
use ending::{goes_on, leave, leave_both, stop_ahead};

// With fewer threads the calling one does all: two would wait for each other.
const LEAST: usize = 3;

// What is heard where two readers read ahead to the end of the source: the one judges what the other has read. These
// pieces were read first.
fn read_rounds<T: Threads + Sync, R: Source>(
    rt: &T,
    cutters: Cutters,
    mut reader: LineReader,
    mut judge: LineReader,
    mut lists: Lists,
    mut next: Vec<Piece>,
    input: &mut R,
) -> Result<Heard, AllocError>
    requires threads { 0 < cutters.threads }
    requires can { CanReadAhead reader judge (text_of next.items) }
    requires short { AreShort next.items }
    requires right { AreRight judge.judge.names next.items }
    requires not_failed { R.failed input.old ≡ false }
    ensures { IfOk result
        (HearsRest (R.position input.old) reader judge lists (text_of next.items)
        (R.position input.new) (R.failed input.new)) }
{
    let mut spare = Vec::new(cutters.alloc);
    let mut ahead = Vec::new(cutters.alloc);
    loop {
        let mut pieces = Vec::new(cutters.alloc);
        let (taken, read) = judge_beside_list(
            rt,
            cutters,
            &mut judge,
            &mut lists,
            &mut ahead,
            &mut reader,
            input,
            &mut spare,
            &mut pieces,
            &mut next,
        );
        let ending = read?;
        match taken {
            Ok(()) => {}
            Err(ReadFault::Line { line, kind }) => {
                return Ok(stop_ahead(reader, input, ending, line, kind));
            }
            Err(ReadFault::Memory) => return Err(AllocError),
        }
        if !goes_on(ending, next.as_slice()) {
            return leave_both(
                rt,
                cutters,
                reader,
                judge,
                lists,
                &mut next,
                &mut pieces,
                input,
                ending,
            );
        }
        spare = ahead;
        ahead = next;
        next = pieces;
    }
}

// What is heard where two readers read to the end of the source, of which nothing was read.
fn read_ahead<T: Threads + Sync, R: Source>(
    rt: &T,
    cutters: Cutters,
    mut reader: LineReader,
    judge: LineReader,
    lists: Lists,
    input: &mut R,
) -> Result<Heard, AllocError>
    requires threads { 0 < cutters.threads }
    requires can { CanReadAhead reader judge [] }
    requires not_failed { R.failed input.old ≡ false }
    ensures { IfOk result
        (HearsRest (R.position input.old) reader judge lists [] (R.position input.new)
        (R.failed input.new)) }
{
    let mut pieces = Vec::new(cutters.alloc);
    let ending = read_first(rt, cutters, &mut reader, input, &mut pieces)?;
    if goes_on(ending, pieces.as_slice()) {
        return read_rounds(rt, cutters, reader, judge, lists, pieces, input);
    }
    leave(
        cutters.alloc,
        reader,
        judge,
        lists,
        &mut pieces,
        input,
        ending,
    )
}

/// As [`read_source`], in so many threads beside the calling one, which only reads then: what is heard doesn't depend on
/// their number. With fewer than three the calling thread reads, cuts and judges line by line, since two would wait for
/// each other. So it does where the text ends in its first half megabyte, and from where it is seen that most names are
/// new.
///
/// Err where memory was refused. Beside what [`read_source`] keeps in memory, there are three pieces of half a megabyte
/// for each thread but one: the text of each, cut into lines, and a table of at most 131,072 names beside its own.
pub fn read_source_parallel<T: Threads + Sync, R: Source>(
    rt: &T,
    alloc: Global,
    input: &mut R,
    turns: u64,
    limits: &Limits,
    seed: Seed,
    jobs: usize,
) -> Result<Heard, AllocError>
    requires not_failed { R.failed input.old ≡ false }
    requires few_turns { turns ≤ 2 ^ 40 }
    ensures heard { IfOk result
        (HasHeard limits.now turns (R.position input.old) (R.position input.new)
        (R.failed input.new)) }
    ensures over { IfOk result (λ h. IfOk h.trace (IsTraceOver limits.now)) }
{
    if jobs < LEAST {
        return read_source(alloc, input, turns, limits, seed);
    }
    let cutters = Cutters::beside_judge(alloc, seed, jobs);
    let reader = LineReader::new(alloc, limits, turns, seed)?;
    let judge = LineReader::new(alloc, limits, turns, seed)?;
    let lists = Lists::new(Vec::new(alloc));
    read_ahead(rt, cutters, reader, judge, lists, input)
}
