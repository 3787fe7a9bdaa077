//! Sinks of bytes, and writing a whole text to one.
ghost use Rattle.std.specs.Prelude.{◌≡◌, ℕ, ◌<◌, Bool, true, false, List, Option, length, take, is_err, IfOk, IfErr, OnOk, OnErr, Some, codes};
ghost use Rattle.std.specs.Io.{WritesAtMost};
ghost use Rattle.std.specs.Io.KnownBytes.{WriteAppends, Appends};

use crate::source::Failed;
use std::error::Error;
use std::fmt;

/// Where bytes are written to.
pub trait Sink {
    // the bytes that were written, where the type tells them
    ghost contents: { Self → Option (List ℕ) };
    // a write has answered `Failed`
    ghost failed: { Self → Bool };

    /// Takes some bytes from the front of `bytes`, and answers how many: at least one of bytes that
    /// aren't empty. Where the write fails, the sink has failed and none of them is taken.
    fn write(&mut self, bytes: &[u8]) -> Result<usize, Failed>
        requires not_failed { failed self.old ≡ false }
        ensures bound { WritesAtMost result bytes.now }
        ensures some { IfOk result (λ n. 0 < length bytes.now → 0 < n) }
        ensures bytes { WriteAppends (contents self.old) (contents self.new) result bytes.now }
        ensures failed { failed self.new ≡ is_err result };
}

/// A write failed after this many bytes of the text.
#[derive(Clone, Copy, Debug, PartialEq, Eq)]
pub struct WriteFault {
    pub written: usize,
}

impl fmt::Display for WriteFault {
    ghost output = { λ _. Some (codes "the text could not be written whole") };

    fn fmt<W: fmt::Write>(&self, f: &mut fmt::Formatter<W>) -> fmt::Result {
        f.write_str("the text could not be written whole")
    }
}

impl Error for WriteFault {}

/// Writes the whole text. Err where the sink fails, with how many bytes it took before.
///
/// One write for each piece that the sink takes; no memory.
pub fn write_out<W: Sink>(output: &mut W, text: &[u8]) -> Result<(), WriteFault>
    requires { W.failed output.old ≡ false }
    ensures whole { OnOk result (Appends (W.contents output.old) (W.contents output.new) text.now) }
    ensures sound { OnOk result (W.failed output.new ≡ false) }
    ensures front { IfErr result
        (λ fault. Appends (W.contents output.old) (W.contents output.new)
        (take fault.written text.now)) }
    ensures part { IfErr result (λ fault. fault.written < length text.now) }
    ensures broke { OnErr result (W.failed output.new ≡ true) }
{
    let mut written = 0;
    while written < text.len() {
        match output.write(&text[written..]) {
            Ok(count) => written += count,
            Err(Failed) => return Err(WriteFault { written }),
        }
    }
    Ok(())
}
