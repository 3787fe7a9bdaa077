//! What some reads gave together.
ghost use Rattle.std.specs.Prelude.{◌≡◌, ◌+◌, ◌<◌, ◌≤◌, ℕ, [], drop, false, is_err, length, take, vec_len, IfOk, OnErr, OnOk};
ghost use Rattle.std.specs.Io.KnownBytes.{Consumes, IsAtEnd, Keeps};
ghost use Rattle.gl_io.specs.Positions.{LieBetween};
ghost use Rattle.gl_io.specs.declared.source.TheConstants.{CHUNK};
ghost use Rattle.gl_std.specs.bodies.Ahead.{HasReadOn, HasTakenTurn};
ghost use Rattle.gl_std.specs.declared.block.TheConstants.{LONGEST};
ghost use Rattle.gl_std.specs.declared.line_reader.LineReader.{LineReader};

use super::pieces::Ending;
use gl_io::{CHUNK, Failed, Source};
use std::alloc::{AllocError, Global};
use std::marker::Model;

/// A text that reads add to. Contracts see its bytes.
///
/// Its memory is filled with zeros once, where it grows. Behind the text stands what was read into it before: a text
/// that is read in the memory of another one isn't filled again.
pub(crate) struct ReadText {
    room: Vec<u8>,
    count: usize,
}

// Written out, so that it is proved once: a derived drop is proved again wherever a text is let go.
impl Drop for ReadText {
    fn drop(self) {
        let ReadText { room, count: _ } = self;
    }
}

impl Model for ReadText {
    ghost use Rattle.std.specs.Prelude.{◌≤◌, ℕ, List, take, vec_len};

    ghost Value = { List ℕ };

    ghost view = { λ t. take t.count t.room.items };

    ghost invariant = { λ t. t.count ≤ vec_len t.room };
}

// One read into a buffer, behind its first bytes, so many, which stay as they are.
fn read_behind<R: Source>(input: &mut R, buffer: &mut [u8], first: usize) -> Result<usize, Failed>
    requires not_failed { R.failed input.old ≡ false }
    requires room { first + CHUNK ≤ length buffer.old }
    ensures front { take first buffer.new ≡ take first buffer.old }
    ensures size { length buffer.new ≡ length buffer.old }
    ensures fits { IfOk result (λ count. count ≤ CHUNK) }
    ensures bytes { IfOk result (λ count. Consumes (R.position input.old).left
        (R.position input.new).left (take count (drop first buffer.new))) }
    ensures end { IfOk result (λ count. count ≡ 0 → IsAtEnd (R.position input.new).left) }
    ensures kept { OnErr result (Keeps (R.position input.old).left (R.position input.new).left) }
    ensures counted { LieBetween 1 (R.position input.old) (R.position input.new) }
    ensures failed { R.failed input.new ≡ is_err result }
{
    let room = &mut buffer[..first + CHUNK];
    input.read(&mut room[first..])
}

// Makes a buffer so long, where it is shorter. The bytes that it has stay.
fn lengthen(room: &mut Vec<u8>, size: usize) -> Result<(), AllocError>
    ensures front { (n : ℕ) → n ≤ vec_len room.old
        → take n room.new.items ≡ take n room.old.items }
    ensures no_shorter { vec_len room.old ≤ vec_len room.new }
    ensures size { OnOk result (size ≤ vec_len room.new) }
{
    if room.len() < size {
        room.resize(size, 0)?;
    }
    Ok(())
}

impl ReadText {
    /// No text yet.
    pub(crate) fn new(alloc: Global) -> ReadText
        ensures { result ≡ [] }
    {
        ReadText {
            room: Vec::new(alloc),
            count: 0,
        }
    }

    /// How many bytes it has.
    pub(crate) fn len(&self) -> usize
        ensures { result ≡ length self.now }
    {
        self.count
    }

    /// Its bytes.
    pub(crate) fn as_slice(&self) -> &[u8]
        ensures { result.now ≡ self.now }
    {
        &self.room[..self.count]
    }

    /// Forgets its bytes. Its memory stays.
    pub(crate) fn clear(&mut self)
        ensures { self.new ≡ [] }
    {
        self.count = 0;
    }

    /// One read, whose bytes are added. Where there is no memory for them nothing is read.
    pub(crate) fn read_more<R: Source>(&mut self, input: &mut R) -> Result<Ending, AllocError>
        requires not_failed { R.failed input.old ≡ false }
        requires short { length self.old + CHUNK ≤ LONGEST }
        ensures gave { IfOk result
            (λ ending. (before later : LineReader) → HasTakenTurn before later
            → HasReadOn (R.position input.old) before self.old
            (R.position input.new) (R.failed input.new) later self.new ending) }
        ensures short { OnOk result (length self.new ≤ length self.old + CHUNK) }
    {
        let first = self.count;
        lengthen(&mut self.room, first + CHUNK)?;
        match read_behind(input, self.room.as_mut_slice(), first) {
            Ok(0) => Ok(Ending::End),
            Ok(count) => {
                self.count = first + count;
                Ok(Ending::More)
            }
            Err(Failed) => Ok(Ending::Broke),
        }
    }
}
