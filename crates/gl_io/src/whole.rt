//! Reading a source to its end into memory.
ghost use Rattle.std.specs.Prelude.{◌≡◌, ◌<◌, ◌≤◌, ◌+◌, ◌^◌, false, List, ℕ, Option, length, IfOk, OnErr, vec_len};
ghost use Rattle.std.specs.Io.KnownBytes.{Consumes};
ghost use Rattle.gl_io.specs.Positions.{LieBetween};
ghost use Rattle.gl_io.specs.Reads.{HasRead};
ghost use Rattle.gl_io.specs.bodies.Turns.{TurnDid};

use crate::source::{CHUNK, Failed, Source};
use std::alloc::{AllocError, Global};

/// The text that was read of a source, and whether it is all that the source had.
#[derive(Debug, Drop)]
pub struct SourceText {
    /// The bytes that the reads gave, in order.
    pub text: Vec<u8>,
    /// A read met the end.
    pub is_whole: bool,
}

// A buffer of zeros.
fn zeros(alloc: Global, length: usize) -> Result<Vec<u8>, AllocError>
    ensures { IfOk result (λ v. vec_len v ≡ length) }
{
    Ok(vec![in alloc; 0u8; length]?)
}

// What one turn of reading met.
#[derive(Clone, Copy)]
enum Turn {
    Gave,
    End,
    Broke,
}

// One read, whose bytes join the text.
fn take_turn<R: Source>(
    input: &mut R,
    buffer: &mut [u8],
    text: &mut Vec<u8>,
) -> Result<Turn, AllocError>
    requires not_failed { R.failed input.old ≡ false }
    requires room { length buffer.old ≡ CHUNK }
    ensures bytes { IfOk result
        (λ _. (first : Option (List ℕ))
        → Consumes first (R.position input.old).left text.old.items
        → Consumes first (R.position input.new).left text.new.items) }
    ensures did { IfOk result
        (λ turn. TurnDid turn (R.position input.new).left
        (R.failed input.new) text.old.items text.new.items) }
    ensures counted { LieBetween 1 (R.position input.old) (R.position input.new) }
    ensures refused { OnErr result (R.failed input.new ≡ false) }
{
    match input.read(buffer) {
        Ok(0) => Ok(Turn::End),
        Ok(count) => {
            text.extend_from_slice(&buffer[..count])?;
            Ok(Turn::Gave)
        }
        Err(Failed) => Ok(Turn::Broke),
    }
}

/// Reads the source to its end, in at most `turns` reads. The text is whole where one of them
/// answered 0 bytes; it isn't where a read failed or the turns were used up before. Err where
/// memory for the text was refused; the reads before that are lost.
///
/// Each byte is copied once from a buffer of [`CHUNK`] bytes, and when the text grows.
pub fn read_whole<R: Source>(
    alloc: Global,
    input: &mut R,
    turns: u64,
) -> Result<SourceText, AllocError>
    requires not_failed { R.failed input.old ≡ false }
    requires few_turns { turns ≤ 2 ^ 40 }
    ensures read { IfOk result
        (λ g. HasRead turns (R.position input.old) (R.position input.new)
        (R.failed input.new) g.text.items g.is_whole) }
    ensures refused { OnErr result (R.failed input.new ≡ false) }
{
    let mut buffer = zeros(alloc, CHUNK)?;
    let mut text = Vec::new(alloc);
    for turn in 0..turns {
        match take_turn(input, buffer.as_mut_slice(), &mut text)? {
            Turn::Gave => {}
            Turn::End => {
                return Ok(SourceText {
                    text,
                    is_whole: true,
                });
            }
            Turn::Broke => {
                return Ok(SourceText {
                    text,
                    is_whole: false,
                });
            }
        }
    }
    Ok(SourceText {
        text,
        is_whole: false,
    })
}
