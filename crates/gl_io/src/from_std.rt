//! Sources and sinks over the readers and writers of std.
ghost use Rattle.std.specs.Prelude.{◌≡◌, false};
ghost use Rattle.gl_io.specs.Positions.{uncounted};
ghost use Rattle.gl_io.specs.Wrapped.{inner_of, has_failed};

use crate::sink::Sink;
use crate::source::{Failed, Source};
use std::io;

/// A reader or a writer of std as a [`Source`] or a [`Sink`]. A call makes one call of what it wraps,
/// and answers as that does. Each error is `Failed`, also one that tells of an interruption, and so
/// is a writer's answer that it took none of bytes that aren't empty.
#[derive(Drop)]
pub struct FromStd<T> {
    inner: T,
    is_failed: bool,
}

impl<T> FromStd<T> {
    /// The reader or writer, which hasn't failed yet.
    pub fn new(inner: T) -> FromStd<T>
        ensures inner { inner_of result ≡ inner }
        ensures sound { has_failed result ≡ false }
    {
        FromStd {
            inner,
            is_failed: false,
        }
    }

    /// The reader or writer itself.
    pub fn into_inner(self) -> T
        ensures { result ≡ inner_of self }
    {
        self.inner
    }
}

impl<R: io::Read> Source for FromStd<R> {
    // readers of std count nothing
    ghost position = { λ s. uncounted (R.remaining (inner_of s)) };

    ghost failed = { has_failed };

    fn read(&mut self, buffer: &mut [u8]) -> Result<usize, Failed> {
        match self.inner.read(buffer) {
            Ok(count) => Ok(count),
            Err(_) => {
                self.is_failed = true;
                Err(Failed)
            }
        }
    }
}

impl<W: io::Write> Sink for FromStd<W> {
    ghost contents = { λ s. W.contents (inner_of s) };

    ghost failed = { has_failed };

    fn write(&mut self, bytes: &[u8]) -> Result<usize, Failed> {
        match self.inner.write(bytes) {
            Ok(0) if !bytes.is_empty() => {
                self.is_failed = true;
                Err(Failed)
            }
            Ok(count) => Ok(count),
            Err(_) => {
                self.is_failed = true;
                Err(Failed)
            }
        }
    }
}
