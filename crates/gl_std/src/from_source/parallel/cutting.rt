//! Reading pieces of a text and cutting them into lines, beside what judges those that were cut before.
ghost use Rattle.std.specs.Prelude.{◌≡◌, ◌<◌, ◌≤◌, IfOk, OnOk};
ghost use denote.Param.Send.{IsSync};
ghost use Rattle.gl_std.specs.Names.{NameLists};
ghost use Rattle.gl_std.specs.bodies.Ahead.{text_of, AreCut, AreRight, AreShort, CanJudge, CanReadPieces, HasCut, HasCutPiece, HasReadPieces, IsShort, JudgesText, StayRight};

use crate::faults::ReadFault;
use crate::line_reader::LineReader;
use crate::line_reader::pieces::{Ending, Piece};
use crate::lists::Lists;
use crate::seed::Seed;
use gl_io::Source;
use std::alloc::{AllocError, Global};
use std::thread;
use std::thread::{Threads, join_mut};

// More threads than this have nothing to do: what they cut waits for the one that judges.
const MOST: usize = 8;

// What cuts pieces into lines.
#[derive(Clone, Copy)]
pub(super) struct Cutters {
    pub(super) alloc: Global,
    // What the hash of a piece's names begins with.
    seed: Seed,
    // So many pieces are read in a round, and so many threads cut them.
    pub(super) threads: usize,
    // Whether they are cut at all.
    cuts: bool,
}

impl Cutters {
    // Of so many threads one judges, and the others cut.
    pub(super) fn beside_judge(alloc: Global, seed: Seed, jobs: usize) -> Cutters
        requires { 2 ≤ jobs }
        ensures { 0 < result.threads }
    {
        Cutters {
            alloc,
            seed,
            threads: jobs.min(MOST) - 1,
            cuts: true,
        }
    }

    // The same, which cut nothing where that doesn't pay.
    pub(super) fn where_it_pays(self, pays: bool) -> Cutters
        ensures { result.threads ≡ self.threads }
    {
        Cutters {
            alloc: self.alloc,
            seed: self.seed,
            threads: self.threads,
            cuts: pays,
        }
    }
}

// Cuts pieces into lines.
fn cut_all<R: Threads + Sync>(rt: &R, cutters: Cutters, pieces: &mut [Piece])
    requires threads { 0 < cutters.threads }
    requires short { AreShort pieces.old }
    ensures { HasCut pieces.old pieces.new }
{
    thread::for_each_mut(
        rt,
        pieces,
        cutters.threads,
        &|_place: usize, piece: &mut Piece|
            requires { IsShort piece.now }
            ensures { HasCutPiece piece.old piece.new }
        {
            piece.cut(cutters.alloc, cutters.seed, cutters.cuts);
        },
    );
}

// As `cut_all`, of all pieces of a list.
pub(super) fn cut_pieces<R: Threads + Sync>(rt: &R, cutters: Cutters, pieces: &mut Vec<Piece>)
    requires threads { 0 < cutters.threads }
    requires short { AreShort pieces.old.items }
    ensures { HasCut pieces.old.items pieces.new.items }
{
    cut_all(rt, cutters, pieces.as_mut_slice());
}

// Reads the first piece. Its lines are judged from its text, where it isn't cut later.
pub(super) fn read_first<T: Threads + Sync, R: Source>(
    rt: &T,
    cutters: Cutters,
    reader: &mut LineReader,
    input: &mut R,
    pieces: &mut Vec<Piece>,
) -> Result<Ending, AllocError>
    requires { CanReadPieces cutters.threads reader.old (R.failed input.old) pieces.old.items }
    ensures read { IfOk result
        (HasReadPieces (R.position input.old) reader.old (R.position input.new)
        (R.failed input.new) reader.new pieces.new.items) }
    ensures cut { OnOk result (AreCut pieces.new.items) }
    ensures right { OnOk result ((names : NameLists) → AreRight names pieces.new.items) }
{
    let mut spare = Vec::new(cutters.alloc);
    let ending = reader.read_ahead(cutters.alloc, input, &mut spare, pieces, 1)?;
    cut_pieces(rt, cutters.where_it_pays(false), pieces);
    Ok(ending)
}

// Reads the next pieces, in the memory of those that are spare.
fn read_next<R: Source>(
    cutters: Cutters,
    reader: &mut LineReader,
    input: &mut R,
    spare: &mut Vec<Piece>,
    pieces: &mut Vec<Piece>,
) -> Result<Ending, AllocError>
    requires can_read { CanReadPieces cutters.threads
        reader.old (R.failed input.old) pieces.old.items }
    ensures read { IfOk result
        (HasReadPieces (R.position input.old) reader.old (R.position input.new)
        (R.failed input.new) reader.new pieces.new.items) }
    ensures right { OnOk result
        (StayRight spare.old.items pieces.old.items spare.new.items pieces.new.items) }
{
    reader.read_ahead(cutters.alloc, input, spare, pieces, cutters.threads)
}

// Reads the next pieces, in the memory of those that are spare, while each of some others is cut in a thread of its own.
// The calling thread starts them all: none waits until another one is there that starts it.
#[cycle(rounds)]
fn read_beside_cutting<T: Threads + Sync, R: Source>(
    rt: &T,
    cutters: Cutters,
    reader: &mut LineReader,
    input: &mut R,
    spare: &mut Vec<Piece>,
    pieces: &mut Vec<Piece>,
    next: &mut [Piece],
) -> Result<Ending, AllocError>
    requires can_read { CanReadPieces cutters.threads
        reader.old (R.failed input.old) pieces.old.items }
    requires short { AreShort next.old }
    ensures read { IfOk result
        (HasReadPieces (R.position input.old) reader.old (R.position input.new)
        (R.failed input.new) reader.new pieces.new.items) }
    ensures right { OnOk result
        (StayRight spare.old.items pieces.old.items spare.new.items pieces.new.items) }
    ensures cut { HasCut next.old next.new }
{
    match next.split_first_mut() {
        Some((first, others)) => {
            cut_beside(rt, cutters, reader, input, spare, pieces, first, others)
        }
        None => read_next(cutters, reader, input, spare, pieces),
    }
}

// The same, where the first one of those others stands apart.
#[cycle(rounds)]
fn cut_beside<T: Threads + Sync, R: Source>(
    rt: &T,
    cutters: Cutters,
    reader: &mut LineReader,
    input: &mut R,
    spare: &mut Vec<Piece>,
    pieces: &mut Vec<Piece>,
    first: &mut Piece,
    others: &mut [Piece],
) -> Result<Ending, AllocError>
    requires can_read { CanReadPieces cutters.threads
        reader.old (R.failed input.old) pieces.old.items }
    requires short { IsShort first.old }
    requires others_short { AreShort others.old }
    ensures read { IfOk result
        (HasReadPieces (R.position input.old) reader.old (R.position input.new)
        (R.failed input.new) reader.new pieces.new.items) }
    ensures right { OnOk result
        (StayRight spare.old.items pieces.old.items spare.new.items pieces.new.items) }
    ensures cut { HasCutPiece first.old first.new }
    ensures others_cut { HasCut others.old others.new }
{
    let (alloc, seed, cuts) = (cutters.alloc, cutters.seed, cutters.cuts);
    let mut cutting = ||
        requires { IsShort first.now }
        ensures { HasCutPiece first.entry.now first.exit.now }
    { first.cut(alloc, seed, cuts) };
    let mut going_on = || -> Result<Ending, AllocError>
        requires sync { IsSync T.row }
        requires can_read { CanReadPieces cutters.threads
            reader.now (R.failed input.now) pieces.now.items }
        requires short { AreShort others.now }
        ensures read { IfOk result
            (HasReadPieces (R.position input.entry.now) reader.entry.now
            (R.position input.exit.now) (R.failed input.exit.now) reader.exit.now
            pieces.exit.now.items) }
        ensures right { OnOk result
            (StayRight spare.entry.now.items pieces.entry.now.items spare.exit.now.items
            pieces.exit.now.items) }
        ensures cut { HasCut others.entry.now others.exit.now }
    { read_beside_cutting(rt, cutters, reader, input, spare, pieces, others) };
    let ((), ending) = join_mut(rt, &mut cutting, &mut going_on);
    ending
}

// Judges the pieces that were cut before in a thread of its own, while others are cut and the next ones are read, in the
// memory of pieces that are spare.
fn judge_beside_reading<T: Threads + Sync, R: Source>(
    rt: &T,
    cutters: Cutters,
    judge: &mut LineReader,
    lists: &mut Lists,
    ahead: &mut Vec<Piece>,
    reader: &mut LineReader,
    input: &mut R,
    spare: &mut Vec<Piece>,
    pieces: &mut Vec<Piece>,
    next: &mut [Piece],
) -> (Result<(), ReadFault>, Result<Ending, AllocError>)
    requires can { CanJudge judge.old ahead.old.items }
    requires right { AreRight judge.old.judge.names ahead.old.items }
    requires spare_right { AreRight judge.old.judge.names spare.old.items }
    requires can_read { CanReadPieces cutters.threads
        reader.old (R.failed input.old) pieces.old.items }
    requires short { AreShort next.old }
    ensures taken { JudgesText judge.old lists.old (text_of ahead.old.items)
        judge.new lists.new result.0 }
    ensures judged { OnOk result.0 (AreRight judge.new.judge.names ahead.new.items) }
    ensures read { IfOk result.1
        (HasReadPieces (R.position input.old) reader.old (R.position input.new)
        (R.failed input.new) reader.new pieces.new.items) }
    ensures right { OnOk result.0
        (OnOk result.1 (AreRight judge.new.judge.names pieces.new.items)) }
    ensures cut { HasCut next.old next.new }
{
    let alloc = cutters.alloc;
    let mut judging = || -> Result<(), ReadFault>
        requires can { CanJudge judge.now ahead.now.items }
        requires right { AreRight judge.now.judge.names ahead.now.items }
        ensures taken { JudgesText judge.entry.now lists.entry.now (text_of ahead.entry.now.items)
            judge.exit.now lists.exit.now result }
        ensures judged { OnOk result (AreRight judge.exit.now.judge.names ahead.exit.now.items) }
    { judge.take_pieces(alloc, lists, ahead) };
    let mut cutting = || -> Result<Ending, AllocError>
        requires can_read { CanReadPieces cutters.threads
            reader.now (R.failed input.now) pieces.now.items }
        requires short { AreShort next.now }
        ensures read { IfOk result
            (HasReadPieces (R.position input.entry.now) reader.entry.now
            (R.position input.exit.now) (R.failed input.exit.now) reader.exit.now
            pieces.exit.now.items) }
        ensures right { OnOk result
            (StayRight spare.entry.now.items pieces.entry.now.items spare.exit.now.items
            pieces.exit.now.items) }
        ensures cut { HasCut next.entry.now next.exit.now }
    { read_beside_cutting(rt, cutters, reader, input, spare, pieces, next) };
    join_mut(rt, &mut judging, &mut cutting)
}

// The same, while the first of the pieces that are to be cut, which stands apart, is cut in a thread of its own. That thread
// is started before the one that judges, which all others wait for: a system may let the first one wait until the
// calling thread does.
fn judge_beside_first<T: Threads + Sync, R: Source>(
    rt: &T,
    cutters: Cutters,
    judge: &mut LineReader,
    lists: &mut Lists,
    ahead: &mut Vec<Piece>,
    reader: &mut LineReader,
    input: &mut R,
    spare: &mut Vec<Piece>,
    pieces: &mut Vec<Piece>,
    first: &mut Piece,
    others: &mut [Piece],
) -> (Result<(), ReadFault>, Result<Ending, AllocError>)
    requires can { CanJudge judge.old ahead.old.items }
    requires right { AreRight judge.old.judge.names ahead.old.items }
    requires spare_right { AreRight judge.old.judge.names spare.old.items }
    requires can_read { CanReadPieces cutters.threads
        reader.old (R.failed input.old) pieces.old.items }
    requires short { IsShort first.old }
    requires others_short { AreShort others.old }
    ensures taken { JudgesText judge.old lists.old (text_of ahead.old.items)
        judge.new lists.new result.0 }
    ensures judged { OnOk result.0 (AreRight judge.new.judge.names ahead.new.items) }
    ensures read { IfOk result.1
        (HasReadPieces (R.position input.old) reader.old (R.position input.new)
        (R.failed input.new) reader.new pieces.new.items) }
    ensures right { OnOk result.0
        (OnOk result.1 (AreRight judge.new.judge.names pieces.new.items)) }
    ensures cut { HasCutPiece first.old first.new }
    ensures others_cut { HasCut others.old others.new }
{
    let (alloc, seed, cuts) = (cutters.alloc, cutters.seed, cutters.cuts);
    let mut cutting = ||
        requires { IsShort first.now }
        ensures { HasCutPiece first.entry.now first.exit.now }
    { first.cut(alloc, seed, cuts) };
    let mut going_on = || -> (Result<(), ReadFault>, Result<Ending, AllocError>)
        requires can { CanJudge judge.now ahead.now.items }
        requires right { AreRight judge.now.judge.names ahead.now.items }
        requires spare_right { AreRight judge.now.judge.names spare.now.items }
        requires can_read { CanReadPieces cutters.threads
            reader.now (R.failed input.now) pieces.now.items }
        requires short { AreShort others.now }
        ensures taken { JudgesText judge.entry.now lists.entry.now (text_of ahead.entry.now.items)
            judge.exit.now lists.exit.now result.0 }
        ensures judged { OnOk result.0 (AreRight judge.exit.now.judge.names ahead.exit.now.items) }
        ensures read { IfOk result.1
            (HasReadPieces (R.position input.entry.now) reader.entry.now
            (R.position input.exit.now) (R.failed input.exit.now) reader.exit.now
            pieces.exit.now.items) }
        ensures right { OnOk result.0
            (OnOk result.1 (AreRight judge.exit.now.judge.names pieces.exit.now.items)) }
        ensures cut { HasCut others.entry.now others.exit.now }
    {
        judge_beside_reading(
            rt, cutters, judge, lists, ahead, reader, input, spare, pieces, others,
        )
    };
    let ((), both) = join_mut(rt, &mut cutting, &mut going_on);
    both
}

// Judges the pieces that were cut before, while the next ones are cut and those after them are read, in the memory of
// pieces that are spare.
fn judge_beside_cutting<T: Threads + Sync, R: Source>(
    rt: &T,
    cutters: Cutters,
    judge: &mut LineReader,
    lists: &mut Lists,
    ahead: &mut Vec<Piece>,
    reader: &mut LineReader,
    input: &mut R,
    spare: &mut Vec<Piece>,
    pieces: &mut Vec<Piece>,
    next: &mut [Piece],
) -> (Result<(), ReadFault>, Result<Ending, AllocError>)
    requires can { CanJudge judge.old ahead.old.items }
    requires right { AreRight judge.old.judge.names ahead.old.items }
    requires spare_right { AreRight judge.old.judge.names spare.old.items }
    requires can_read { CanReadPieces cutters.threads
        reader.old (R.failed input.old) pieces.old.items }
    requires short { AreShort next.old }
    ensures taken { JudgesText judge.old lists.old (text_of ahead.old.items)
        judge.new lists.new result.0 }
    ensures judged { OnOk result.0 (AreRight judge.new.judge.names ahead.new.items) }
    ensures read { IfOk result.1
        (HasReadPieces (R.position input.old) reader.old (R.position input.new)
        (R.failed input.new) reader.new pieces.new.items) }
    ensures right { OnOk result.0
        (OnOk result.1 (AreRight judge.new.judge.names pieces.new.items)) }
    ensures cut { HasCut next.old next.new }
{
    match next.split_first_mut() {
        Some((first, others)) => judge_beside_first(
            rt, cutters, judge, lists, ahead, reader, input, spare, pieces, first, others,
        ),
        None => judge_beside_reading(
            rt,
            cutters,
            judge,
            lists,
            ahead,
            reader,
            input,
            spare,
            pieces,
            &mut [],
        ),
    }
}

// As `judge_beside_cutting`, where all pieces of a list are cut.
pub(super) fn judge_beside_list<T: Threads + Sync, R: Source>(
    rt: &T,
    cutters: Cutters,
    judge: &mut LineReader,
    lists: &mut Lists,
    ahead: &mut Vec<Piece>,
    reader: &mut LineReader,
    input: &mut R,
    spare: &mut Vec<Piece>,
    pieces: &mut Vec<Piece>,
    next: &mut Vec<Piece>,
) -> (Result<(), ReadFault>, Result<Ending, AllocError>)
    requires can { CanJudge judge.old ahead.old.items }
    requires right { AreRight judge.old.judge.names ahead.old.items }
    requires spare_right { AreRight judge.old.judge.names spare.old.items }
    requires can_read { CanReadPieces cutters.threads
        reader.old (R.failed input.old) pieces.old.items }
    requires short { AreShort next.old.items }
    ensures taken { JudgesText judge.old lists.old (text_of ahead.old.items)
        judge.new lists.new result.0 }
    ensures judged { OnOk result.0 (AreRight judge.new.judge.names ahead.new.items) }
    ensures read { IfOk result.1
        (HasReadPieces (R.position input.old) reader.old (R.position input.new)
        (R.failed input.new) reader.new pieces.new.items) }
    ensures right { OnOk result.0
        (OnOk result.1 (AreRight judge.new.judge.names pieces.new.items)) }
    ensures cut { HasCut next.old.items next.new.items }
{
    let next = next.as_mut_slice();
    judge_beside_cutting(
        rt, cutters, judge, lists, ahead, reader, input, spare, pieces, next,
    )
}
