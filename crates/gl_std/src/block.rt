//! The lines of a piece of a text, each taken alone, with numbers of the piece's own for names.
ghost use Rattle.std.specs.Prelude.{◌≡◌, ◌+◌, ◌≤◌, [], ◌∷◌, ◌++◌, length, map, vec_len, IfOk, IfSome, OnOk};
ghost use Rattle.gl_std.specs.declared.block.TheConstants.{LONGEST};
ghost use Rattle.gl_std.specs.Line.{shape_of};
ghost use Rattle.gl_std.specs.Lines.{lines};
ghost use Rattle.gl_std.specs.Names.{NameLists};
ghost use Rattle.gl_std.specs.bodies.Blocks.{shapes_of, AreFew, AreNumbered, HasFewNames, IsBlockOf, IsRight};

use crate::line::{Shape, cut, shape_of};
use crate::line_ends::{LF, ended_lines, next_line};
use crate::names::{Known, Names};
use crate::numbered_line::NumberedLine;
use crate::seed::Seed;
use gl_io::CHUNK;
use std::alloc::{AllocError, Global};

/// So many bytes a piece may have: so many that most of its lines name what lines before them did, and so few
/// that it stays near the processor.
pub(crate) const LONGEST: usize = 8 * CHUNK;

// So many names a block may have before its lines are added. With more it begins anew, so that what blocks keep
// stays within bounds.
pub(crate) const MOST_NAMES: u64 = 131_072;

/// What the lines of a piece of a text say, in order. Names have numbers from 0 in order of first mention in the
/// pieces that were cut with the same names: a block is made in the memory of one that was judged, and goes on with
/// its names, so that those which come again and again are added, and looked up in the text, once.
pub(crate) struct Block {
    pub(crate) names: Names,
    pub(crate) lines: Vec<NumberedLine>,
    /// The numbers that its names have in the text, of those that were looked up.
    pub(crate) known: Known,
    // So many names there were before its lines.
    before: u64,
}

// Written out, so that it is proved once: a derived drop is proved again wherever a block is let go.
impl Drop for Block {
    fn drop(self) {
        let Block {
            names,
            lines,
            known,
            before: _,
        } = self;
    }
}

impl Block {
    /// No lines, and no names.
    fn new(alloc: Global, seed: Seed) -> Block
        ensures numbered { AreNumbered result }
        ensures few { AreFew result }
        ensures none { shapes_of result ≡ [] }
        ensures count { vec_len result.lines ≡ 0 }
        ensures right { (names : NameLists) → IsRight names result }
    {
        Block {
            names: Names::new(alloc, seed),
            lines: Vec::new(alloc),
            known: Known::none(alloc),
            before: 0,
        }
    }

    // No lines, in the memory of another block if there is one, and with its names unless there are many.
    fn empty(alloc: Global, seed: Seed, spare: Option<Block>) -> Block
        ensures numbered { AreNumbered result }
        ensures few { AreFew result }
        ensures none { shapes_of result ≡ [] }
        ensures count { vec_len result.lines ≡ 0 }
        ensures right { (names : NameLists) → IfSome spare (IsRight names)
            → IsRight names result }
    {
        match spare {
            Some(mut block) => {
                block.lines.clear();
                block.forget_many();
                block.before = block.names.count();
                block
            }
            None => Block::new(alloc, seed),
        }
    }

    // Forgets the names where there are many.
    fn forget_many(&mut self)
        ensures few { HasFewNames self.new }
        ensures lines { self.new.lines ≡ self.old.lines }
        ensures right { (names : NameLists) → IsRight names self.old → IsRight names self.new }
    {
        if self.names.count() <= MOST_NAMES {
            return;
        }
        self.names.clear();
        self.known.clear();
    }

    /// What the lines of a piece say that lie between its first LF and its last one, in the memory of another
    /// block if there is one, whose names go on. Each line is cut once, and each of its names looked up at most once
    /// by hash.
    pub(crate) fn of(
        alloc: Global,
        seed: Seed,
        piece: &[u8],
        spare: Option<Block>,
    ) -> Result<Block, AllocError>
        requires short { length piece.now ≤ LONGEST }
        ensures says { IfOk result (IsBlockOf piece.now) }
        ensures right { IfOk result
            (λ block. (names : NameLists) → IfSome spare (IsRight names)
            → IsRight names block) }
    {
        let mut block = Block::empty(alloc, seed, spare);
        match cut(piece, LF) {
            Some((_, after)) => {
                block.add_lines(alloc, ended_lines(after))?;
                Ok(block)
            }
            None => Ok(block),
        }
    }

    /// Whether its lines are judged quicker by numbers than from their text: they have no more names that weren't there
    /// before than half of them. Else the time goes into looking up each name of the piece.
    pub(crate) fn pays(&self) -> bool {
        self.added() <= self.lines.len() as u64 / 2
    }

    // How many names its lines have that weren't there before.
    fn added(&self) -> u64 {
        self.names.count().saturating_sub(self.before)
    }

    // Adds the lines of a text.
    fn add_lines(&mut self, alloc: Global, text: &[u8]) -> Result<(), AllocError>
        requires numbered { AreNumbered self.old }
        requires few { AreFew self.old }
        requires room { vec_len self.old.lines + length text.now ≤ LONGEST }
        ensures numbered { OnOk result (AreNumbered self.new) }
        ensures lines { OnOk result
            (shapes_of self.new ≡ shapes_of self.old ++ map shape_of (lines text.now)) }
        ensures count { OnOk result
            (vec_len self.new.lines ≡ vec_len self.old.lines + length (lines text.now)) }
        ensures right { OnOk result
            ((names : NameLists) → IsRight names self.old → IsRight names self.new) }
    {
        let mut rest = text;
        while let Some((line, after)) = next_line(rest) {
            self.add(alloc, line)?;
            rest = after;
        }
        Ok(())
    }

    // Adds a line.
    fn add(&mut self, alloc: Global, line: &[u8]) -> Result<(), AllocError>
        requires numbered { AreNumbered self.old }
        requires few { AreFew self.old }
        requires room { vec_len self.old.lines + 1 ≤ LONGEST }
        ensures numbered { OnOk result (AreNumbered self.new) }
        ensures few { OnOk result (AreFew self.new) }
        ensures count { OnOk result (vec_len self.new.lines ≡ vec_len self.old.lines + 1) }
        ensures line { OnOk result
            (shapes_of self.new ≡ shapes_of self.old ++ shape_of line.now ∷ []) }
        ensures right { OnOk result
            ((names : NameLists) → IsRight names self.old → IsRight names self.new) }
    {
        let numbered = self.names.number_shape(alloc, shape_of(line))?;
        self.lines.push(numbered)?;
        Ok(())
    }
}
