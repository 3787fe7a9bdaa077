//! Sources of bytes.
ghost use Rattle.std.specs.Prelude.{◌≡◌, Bool, true, false, is_err, Some, codes};
ghost use Rattle.std.specs.Io.{ReadsAtMost};
ghost use Rattle.std.specs.Io.KnownBytes.{ReadConsumes};
ghost use Rattle.gl_io.specs.Positions.{Position, LieBetween};

use std::error::Error;
use std::fmt;

/// The most bytes that a source is asked for in one turn, where it is read to its end.
pub const CHUNK: usize = 65_536;

/// A read or a write failed.
#[derive(Clone, Copy, Debug, PartialEq, Eq)]
pub struct Failed;

impl fmt::Display for Failed {
    ghost output = { λ _. Some (codes "the read or write failed") };

    fn fmt<W: fmt::Write>(&self, f: &mut fmt::Formatter<W>) -> fmt::Result {
        f.write_str("the read or write failed")
    }
}

impl Error for Failed {}

/// Where bytes are read from.
pub trait Source {
    // the bytes that reads will give from here on, and how many reads were made, where the type tells them
    ghost position: { Self → Position };
    // a read has answered `Failed`
    ghost failed: { Self → Bool };

    /// Reads some of the bytes that are left into the front of `buffer`, and answers how many. 0 for
    /// a buffer that isn't empty is the end. Where the read fails, the source has failed and none
    /// of its bytes is taken.
    fn read(&mut self, buffer: &mut [u8]) -> Result<usize, Failed>
        requires not_failed { failed self.old ≡ false }
        ensures bound { ReadsAtMost result buffer.new }
        ensures bytes { ReadConsumes (position self.old).left (position self.new).left
            result buffer.new }
        ensures counted { LieBetween 1 (position self.old) (position self.new) }
        ensures failed { failed self.new ≡ is_err result };
}
