//! What is heard where reading ahead ends: a line is at fault, the source has ended or broke off, or it doesn't pay.
ghost use Rattle.std.specs.Prelude.{◌≡◌, ◌<◌, ◌++◌, true, false, vec_len, IfOk};
ghost use Rattle.gl_io.specs.declared.source.TheConstants.{CHUNK};
ghost use Rattle.gl_std.specs.bodies.Ahead.{text_of, AreRight, CanCutAndJudge, CanJudge, CanReadAhead, HearsEnding, HearsFault, HearsFaulty, HearsPieces, HearsRest};
ghost use Rattle.gl_std.specs.declared.line_reader.pieces.Ending.TheVariants.{More};

use super::super::{Heard, finish, read_on};
use super::cutting::{Cutters, cut_pieces};
use crate::faults::{ReadFault, StdKind};
use crate::line_reader::LineReader;
use crate::line_reader::pieces::{Ending, Piece};
use crate::lists::Lists;
use crate::trace::Trace;
use gl_io::Source;
use std::alloc::{AllocError, Global};
use std::thread::Threads;

// Whether cutting them ahead pays for one of these pieces, as far as that is known.
fn may_pay(pieces: &[Piece]) -> bool {
    for i in 0..pieces.len() {
        if pieces[i].may_pay() {
            return true;
        }
    }
    false
}

// What was heard, where a line is at fault.
fn faulty(line: u64, kind: StdKind, is_whole: bool) -> Heard
    ensures { HearsFaulty line kind is_whole result }
{
    Heard {
        trace: Err(ReadFault::Line { line, kind }),
        is_whole,
    }
}

// What was heard, where a line is at fault that was read. The source is still read to its end.
#[inline(never)]
pub(super) fn stop_ahead<R: Source>(
    mut reader: LineReader,
    input: &mut R,
    ending: Ending,
    line: u64,
    kind: StdKind,
) -> Heard
    requires room { vec_len reader.buffer ≡ CHUNK }
    requires not_failed { ending ≡ More → R.failed input.old ≡ false }
    ensures { HearsFault ending (R.position input.old) (R.failed input.old) reader.turns line kind
        (R.position input.new) (R.failed input.new) result }
{
    match ending {
        Ending::More => faulty(line, kind, reader.drain(input)),
        Ending::End => faulty(line, kind, true),
        Ending::Broke => faulty(line, kind, false),
    }
}

// What was heard, where no more comes after these pieces: the text is whole, or a read failed or no turn was left.
#[inline(never)]
fn finish_ahead(
    alloc: Global,
    mut reader: LineReader,
    mut lists: Lists,
    pieces: &mut Vec<Piece>,
    is_whole: bool,
) -> Result<Heard, AllocError>
    requires can { CanJudge reader pieces.old.items }
    requires right { AreRight reader.judge.names pieces.old.items }
    ensures { IfOk result (HearsPieces reader lists (text_of pieces.old.items) is_whole) }
{
    match reader.take_pieces(alloc, &mut lists, pieces) {
        Ok(()) => {
            if is_whole {
                return finish(alloc, reader, lists);
            }
            Ok(Heard {
                trace: Ok(Trace::of(reader.into_judge(), lists)),
                is_whole: false,
            })
        }
        Err(ReadFault::Line { line, kind }) => Ok(faulty(line, kind, is_whole)),
        Err(ReadFault::Memory) => Err(AllocError),
    }
}

// What is heard, where these pieces are judged and the rest is read by this thread alone.
#[inline(never)]
fn read_alone<R: Source>(
    alloc: Global,
    mut reader: LineReader,
    mut judge: LineReader,
    mut lists: Lists,
    pieces: &mut Vec<Piece>,
    input: &mut R,
) -> Result<Heard, AllocError>
    requires can { CanJudge judge pieces.old.items }
    requires right { AreRight judge.judge.names pieces.old.items }
    requires on { CanReadAhead reader judge (text_of pieces.old.items) }
    requires not_failed { R.failed input.old ≡ false }
    ensures { IfOk result
        (HearsRest (R.position input.old) reader judge lists (text_of pieces.old.items)
        (R.position input.new) (R.failed input.new)) }
{
    match judge.take_pieces(alloc, &mut lists, pieces) {
        Ok(()) => {
            reader.go_on_from(judge);
            read_on(alloc, reader, lists, input)
        }
        Err(ReadFault::Line { line, kind }) => {
            Ok(stop_ahead(reader, input, Ending::More, line, kind))
        }
        Err(ReadFault::Memory) => Err(AllocError),
    }
}

// Whether reading ahead goes on after these pieces: there may be more, and cutting it pays.
pub(super) fn goes_on(ending: Ending, pieces: &[Piece]) -> bool
    ensures { result ≡ true → ending ≡ More }
{
    match ending {
        Ending::More => may_pay(pieces),
        Ending::End => false,
        Ending::Broke => false,
    }
}

// What is heard, where nothing more is read ahead: these pieces are judged, and the rest is read by this thread alone.
#[inline(never)]
pub(super) fn leave<R: Source>(
    alloc: Global,
    reader: LineReader,
    judge: LineReader,
    lists: Lists,
    pieces: &mut Vec<Piece>,
    input: &mut R,
    ending: Ending,
) -> Result<Heard, AllocError>
    requires can { CanJudge judge pieces.old.items }
    requires right { AreRight judge.judge.names pieces.old.items }
    requires on { ending ≡ More → CanReadAhead reader judge (text_of pieces.old.items) }
    requires not_failed { ending ≡ More → R.failed input.old ≡ false }
    ensures { IfOk result
        (HearsEnding ending (R.position input.old) (R.failed input.old) reader judge lists
        (text_of pieces.old.items) (R.position input.new) (R.failed input.new)) }
{
    match ending {
        Ending::More => read_alone(alloc, reader, judge, lists, pieces, input),
        Ending::End => finish_ahead(alloc, judge, lists, pieces, true),
        Ending::Broke => finish_ahead(alloc, judge, lists, pieces, false),
    }
}

// The same, where these pieces are left before, which were cut. The last ones are cut if that pays.
#[inline(never)]
pub(super) fn leave_both<T: Threads + Sync, R: Source>(
    rt: &T,
    cutters: Cutters,
    reader: LineReader,
    mut judge: LineReader,
    mut lists: Lists,
    ahead: &mut Vec<Piece>,
    next: &mut Vec<Piece>,
    input: &mut R,
    ending: Ending,
) -> Result<Heard, AllocError>
    requires threads { 0 < cutters.threads }
    requires can { CanJudge judge ahead.old.items }
    requires right { AreRight judge.judge.names ahead.old.items }
    requires next { CanCutAndJudge judge (text_of ahead.old.items) next.old.items }
    requires room { vec_len reader.buffer ≡ CHUNK }
    requires on { ending ≡ More
        → CanReadAhead reader judge (text_of ahead.old.items ++ text_of next.old.items) }
    requires not_failed { ending ≡ More → R.failed input.old ≡ false }
    ensures { IfOk result
        (HearsEnding ending (R.position input.old) (R.failed input.old) reader judge lists
        (text_of ahead.old.items ++ text_of next.old.items) (R.position input.new)
        (R.failed input.new)) }
{
    let alloc = cutters.alloc;
    let paying = cutters.where_it_pays(may_pay(ahead.as_slice()));
    cut_pieces(rt, paying, next);
    match judge.take_pieces(alloc, &mut lists, ahead) {
        Ok(()) => leave(alloc, reader, judge, lists, next, input, ending),
        Err(ReadFault::Line { line, kind }) => Ok(stop_ahead(reader, input, ending, line, kind)),
        Err(ReadFault::Memory) => Err(AllocError),
    }
}
