//! Reading ahead: what the reads give is cut into lines before it is judged.
ghost use Rattle.std.specs.Prelude.{◌≡◌, ◌+◌, ◌<◌, ◌≤◌, List, [], ◌∷◌, ◌++◌, Contains, drop, length, take, Ok, Some, vec_len, IfOk, OnOk};
ghost use Rattle.gl_event.specs.declared.events.Event.{Event};
ghost use Rattle.gl_io.specs.declared.source.TheConstants.{CHUNK};
ghost use Rattle.gl_std.specs.Line.{cut_at};
ghost use Rattle.gl_std.specs.Lines.{LF};
ghost use Rattle.gl_std.specs.Names.{NameLists};
ghost use Rattle.gl_std.specs.bodies.Ahead.{bytes_of, text_of, AreRight, AreShort, CanJudge, CanJudgeText, HasAddedPieces, HasCutPiece, HasFilledPiece, HasGoneOn, IsCut, IsRightPiece, IsShort, JudgesText, StayRight};
ghost use Rattle.gl_std.specs.bodies.Blocks.{IsBlockOf, IsRight};
ghost use Rattle.gl_std.specs.bodies.Judgements.{CanJudgeLine};
ghost use Rattle.gl_std.specs.bodies.States.{IsSound};
ghost use Rattle.gl_std.specs.bodies.Stepping.{CanRead};
ghost use Rattle.gl_std.specs.declared.block.TheConstants.{LONGEST};
ghost use Rattle.gl_std.specs.declared.line_reader.TheConstants.{KEPT};
ghost use Rattle.gl_std.specs.declared.line_reader.pieces.Ending.TheVariants.{More};

use super::read_text::ReadText;
use super::{LineReader, end_line, keep};
use crate::block::{Block, LONGEST};
use crate::faults::ReadFault;
use crate::line::cut;
use crate::line_ends::{LF, unended};
use crate::lists::Lists;
use crate::seed::Seed;
use gl_io::{CHUNK, Source};
use std::alloc::{AllocError, Global};

/// What comes after some reads.
#[derive(Clone, Copy)]
pub(crate) enum Ending {
    /// There may be more.
    More,
    /// The source has ended.
    End,
    /// A read failed, or no turn is left.
    Broke,
}

/// What some reads gave together, and what its lines say, once it was cut.
pub(crate) struct Piece {
    text: ReadText,
    // None where its lines are judged from its text. Before it is cut it may be that of another piece.
    block: Option<Block>,
}

// Written out, so that it is proved once: a derived drop is proved again wherever a piece is let go.
impl Drop for Piece {
    fn drop(self) {
        let Piece { text, block } = self;
    }
}

impl Piece {
    // A piece without text, in the memory of another one if there is one.
    fn empty(alloc: Global, spare: &mut Vec<Piece>) -> Piece
        ensures none { bytes_of result ≡ [] }
        ensures right { (names : NameLists) → AreRight names spare.old.items
            → (IsRightPiece names result) × (AreRight names spare.new.items) }
    {
        match spare.pop() {
            Some(mut piece) => {
                piece.text.clear();
                piece
            }
            None => Piece {
                text: ReadText::new(alloc),
                block: None,
            },
        }
    }

    /// Cuts it into lines, where that is asked for and memory isn't refused. Else its lines are judged from its
    /// text. Each name is looked up at most once by hash.
    pub(crate) fn cut(&mut self, alloc: Global, seed: Seed, cuts: bool)
        requires { IsShort self.old }
        ensures { HasCutPiece self.old self.new }
    {
        let spare = self.block.take();
        if !cuts {
            return;
        }
        self.block = match Block::of(alloc, seed, self.text.as_slice(), spare) {
            Ok(block) => Some(block),
            Err(AllocError) => None,
        };
    }

    /// Whether cutting pieces ahead pays, as far as this one tells: nothing is known of one that wasn't cut.
    pub(crate) fn may_pay(&self) -> bool {
        match &self.block {
            Some(block) => block.pays(),
            None => true,
        }
    }
}

impl LineReader {
    /// Reads on until there are so many pieces more, in the memory of those that are spare.
    pub(crate) fn read_ahead<R: Source>(
        &mut self,
        alloc: Global,
        input: &mut R,
        spare: &mut Vec<Piece>,
        pieces: &mut Vec<Piece>,
        most: usize,
    ) -> Result<Ending, AllocError>
        requires can { CanRead self.old (R.failed input.old) }
        requires short { AreShort pieces.old.items }
        requires few { vec_len pieces.old < most }
        ensures adds { IfOk result
            (HasAddedPieces (R.position input.old) self.old pieces.old.items
            (R.position input.new) (R.failed input.new) self.new pieces.new.items) }
        ensures right { OnOk result
            (StayRight spare.old.items pieces.old.items spare.new.items pieces.new.items) }
    {
        loop {
            match self.read_piece(alloc, input, spare, pieces)? {
                Ending::More => {}
                ending => return Ok(ending),
            }
            if pieces.len() >= most {
                return Ok(Ending::More);
            }
        }
    }

    // Adds a piece.
    fn read_piece<R: Source>(
        &mut self,
        alloc: Global,
        input: &mut R,
        spare: &mut Vec<Piece>,
        pieces: &mut Vec<Piece>,
    ) -> Result<Ending, AllocError>
        requires can { CanRead self.old (R.failed input.old) }
        requires short { AreShort pieces.old.items }
        ensures adds { IfOk result
            (HasAddedPieces (R.position input.old) self.old pieces.old.items
            (R.position input.new) (R.failed input.new) self.new pieces.new.items) }
        ensures one { result ≡ Ok More → vec_len pieces.new ≡ vec_len pieces.old + 1 }
        ensures right { OnOk result
            (StayRight spare.old.items pieces.old.items spare.new.items pieces.new.items) }
    {
        let mut piece = Piece::empty(alloc, spare);
        let ending = self.read_into(input, &mut piece)?;
        pieces.push(piece)?;
        Ok(ending)
    }

    // Fills a piece with what some reads give.
    fn read_into<R: Source>(
        &mut self,
        input: &mut R,
        piece: &mut Piece,
    ) -> Result<Ending, AllocError>
        requires can { CanRead self.old (R.failed input.old) }
        requires none { bytes_of piece.old ≡ [] }
        ensures filled { IfOk result
            (HasFilledPiece (R.position input.old) self.old piece.old
            (R.position input.new) (R.failed input.new) self.new piece.new) }
        ensures block { piece.new.block ≡ piece.old.block }
    {
        loop {
            match self.read_more(input, piece)? {
                Ending::More => {}
                ending => return Ok(ending),
            }
            if piece.text.len() > LONGEST - CHUNK {
                return Ok(Ending::More);
            }
        }
    }

    // Adds what one read gives to a piece, where that is something. It is read into the piece itself.
    fn read_more<R: Source>(
        &mut self,
        input: &mut R,
        piece: &mut Piece,
    ) -> Result<Ending, AllocError>
        requires can { CanRead self.old (R.failed input.old) }
        requires short { length (bytes_of piece.old) + CHUNK ≤ LONGEST }
        ensures filled { IfOk result
            (HasFilledPiece (R.position input.old) self.old piece.old
            (R.position input.new) (R.failed input.new) self.new piece.new) }
        ensures block { piece.new.block ≡ piece.old.block }
    {
        if self.turns == 0 {
            return Ok(Ending::Broke);
        }
        let ending = piece.text.read_more(input)?;
        self.turns -= 1;
        Ok(ending)
    }

    /// Goes on from what the other reader has judged, where nothing is left that this one has read.
    pub(crate) fn go_on_from(&mut self, judged: LineReader)
        ensures { HasGoneOn self.old judged self.new }
    {
        let LineReader {
            judge,
            unfinished,
            buffer,
            start: _,
            end: _,
            turns: _,
        } = judged;
        self.judge = judge;
        self.unfinished = unfinished;
        self.start = 0;
        self.end = 0;
    }

    /// Judges the pieces, and puts the events that they tell into the lists. After a fault both are of no
    /// use.
    pub(crate) fn take_pieces(
        &mut self,
        alloc: Global,
        lists: &mut Lists,
        pieces: &mut Vec<Piece>,
    ) -> Result<(), ReadFault>
        requires can { CanJudge self.old pieces.old.items }
        requires right { AreRight self.old.judge.names pieces.old.items }
        ensures judges { JudgesText self.old lists.old (text_of pieces.old.items)
            self.new lists.new result }
        ensures right { OnOk result (AreRight self.new.judge.names pieces.new.items) }
    {
        for piece in pieces.iter_mut() {
            self.take_piece(alloc, lists, piece)?;
        }
        Ok(())
    }

    // Judges a piece.
    fn take_piece(
        &mut self,
        alloc: Global,
        lists: &mut Lists,
        piece: &mut Piece,
    ) -> Result<(), ReadFault>
        requires can { CanJudgeText self.old (length (bytes_of piece.old)) }
        requires short { IsShort piece.old }
        requires cut { IsCut piece.old }
        requires right { IsRightPiece self.old.judge.names piece.old }
        ensures judges { JudgesText self.old lists.old (bytes_of piece.old)
            self.new lists.new result }
        ensures right { OnOk result (IsRightPiece self.new.judge.names piece.new) }
    {
        match &mut piece.block {
            Some(block) => {
                if block.pays() {
                    return self.take_cut(alloc, lists, piece.text.as_slice(), block);
                }
                self.take_text(alloc, lists, piece.text.as_slice())
            }
            None => self.take_text(alloc, lists, piece.text.as_slice()),
        }
    }

    // Judges a piece from its text, line by line.
    fn take_text(&mut self, alloc: Global, lists: &mut Lists, text: &[u8]) -> Result<(), ReadFault>
        requires can { CanJudgeText self.old (length text.now) }
        ensures { JudgesText self.old lists.old text.now self.new lists.new result }
    {
        let mut rest = text;
        while let Some((end, after)) = cut(rest, LF) {
            self.take_ended(alloc, lists, end)?;
            rest = after;
        }
        self.take_unended(rest)
    }

    // Judges the line that ends here, where LF follows.
    #[inline(always)]
    fn take_ended(&mut self, alloc: Global, lists: &mut Lists, end: &[u8]) -> Result<(), ReadFault>
        requires one_line { ¬ Contains end.now LF }
        requires can { CanJudgeLine self.old.judge }
        requires few { length self.old.unfinished.items ≤ KEPT }
        ensures { JudgesText self.old lists.old (end.now ++ LF ∷ []) self.new lists.new result }
    {
        let judged = end_line(&mut self.judge, &mut self.unfinished, end)?;
        lists.add(alloc, self.judge.names(), judged)?;
        Ok(())
    }

    // Keeps the beginning of a line, or what goes on with one.
    fn take_unended(&mut self, more: &[u8]) -> Result<(), ReadFault>
        requires none { ¬ Contains more.now LF }
        requires sound { IsSound self.old.judge }
        requires few { length self.old.unfinished.items ≤ KEPT }
        ensures { (lists : List (List Event))
            → JudgesText self.old lists more.now self.new lists result }
    {
        keep(&mut self.unfinished, more)?;
        Ok(())
    }

    // Judges a piece that was cut.
    fn take_cut(
        &mut self,
        alloc: Global,
        lists: &mut Lists,
        text: &[u8],
        block: &mut Block,
    ) -> Result<(), ReadFault>
        requires can { CanJudgeText self.old (length text.now) }
        requires block { IsBlockOf text.now block.old }
        requires right { IsRight self.old.judge.names block.old }
        ensures judges { JudgesText self.old lists.old text.now self.new lists.new result }
        ensures right { OnOk result (IsRight self.new.judge.names block.new) }
    {
        match cut(text, LF) {
            Some((end, after)) => self.take_lines(alloc, lists, text, end, after, block),
            None => self.take_unended(text),
        }
    }

    // Judges a piece that has an LF: what stands before it, the lines of the block, and the beginning of a line
    // after these.
    fn take_lines(
        &mut self,
        alloc: Global,
        lists: &mut Lists,
        piece: &[u8],
        end: &[u8],
        after: &[u8],
        block: &mut Block,
    ) -> Result<(), ReadFault>
        requires can { CanJudgeText self.old (length piece.now) }
        requires parts { Some (end.now, after.now) ≡ cut_at LF piece.now }
        requires block { IsBlockOf piece.now block.old }
        requires right { IsRight self.old.judge.names block.old }
        ensures judges { JudgesText self.old lists.old piece.now self.new lists.new result }
        ensures right { OnOk result (IsRight self.new.judge.names block.new) }
    {
        let judged = end_line(&mut self.judge, &mut self.unfinished, end)?;
        lists.add(alloc, self.judge.names(), judged)?;
        self.judge.take_block(alloc, lists, block)?;
        keep(&mut self.unfinished, unended(after))?;
        Ok(())
    }
}
