//! Texts that come in pieces.
ghost use Rattle.std.specs.Prelude.{◌≡◌, ◌≤◌, false};
ghost use Rattle.gl_io.specs.Positions.{untold};

use gl_event::{Limits, Memory};
use gl_std::{Failed, Heard, Seed, Source, read_source, read_source_parallel};
use std::alloc::Global;
use std::thread::Threads;

/// Gives its text in pieces, and then ends or fails.
#[derive(Drop)]
pub struct Pieces<'a> {
    /// The text that no read has given yet.
    pub rest: &'a [u8],
    /// How many times it was read.
    pub reads: u64,
    /// Whether a read has failed.
    pub is_failed: bool,
    piece: usize,
    fails: bool,
}

impl<'a> Pieces<'a> {
    /// The text in pieces of so many bytes, which then fails or ends.
    pub fn new(rest: &'a [u8], piece: usize, fails: bool) -> Pieces<'a>
        ensures { result.is_failed ≡ false }
    {
        Pieces {
            rest,
            reads: 0,
            is_failed: false,
            piece,
            fails,
        }
    }
}

impl Source for Pieces<'_> {
    ghost position = { λ _. untold };

    ghost failed = { λ s. s.is_failed };

    fn read(&mut self, buffer: &mut [u8]) -> Result<usize, Failed> {
        self.reads = self.reads.saturating_add(1);
        let count = self.piece.min(self.rest.len()).min(buffer.len());
        if count == 0 && self.fails {
            self.is_failed = true;
            return Err(Failed);
        }
        buffer[..count].copy_from_slice(&self.rest[..count]);
        self.rest = &self.rest[count..];
        Ok(count)
    }
}

/// What is read of the pieces in at most so many turns, under the greatest limits. Nothing is told of it, so that
/// little is known where it is looked at.
pub fn hear(alloc: Global, input: &mut Pieces<'_>, turns: u64) -> Result<Heard, Memory>
    requires sound { input.old.is_failed ≡ false }
    requires few { turns ≤ 100 }
{
    read_source(alloc, input, turns, &Limits::greatest(), Seed::fixed())
}

/// The same, in three threads.
pub fn hear_in_threads<T: Threads + Sync>(
    rt: &T,
    alloc: Global,
    input: &mut Pieces<'_>,
    turns: u64,
) -> Result<Heard, Memory>
    requires sound { input.old.is_failed ≡ false }
    requires few { turns ≤ 100 }
{
    read_source_parallel(
        rt,
        alloc,
        input,
        turns,
        &Limits::greatest(),
        Seed::fixed(),
        3,
    )
}
