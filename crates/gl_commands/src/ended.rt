//! How a command ends, and what is said of it.
ghost use Rattle.std.specs.Prelude.{◌≡◌};
ghost use Rattle.gl_commands.specs.Said.{line_of, status_of};

use std::alloc::AllocError;

/// How a command ended.
#[derive(Drop, Debug)]
pub enum Ended {
    /// The report was written. It lists no cycle.
    Clean,
    /// The report was written. It lists a cycle or more.
    Cycles,
    /// What was asked for was written, and it is no report.
    Done,
    /// Nothing can be printed of the text: this is the line for standard error that says why. Nothing was
    /// written.
    Refused(Vec<u8>),
    /// Memory was refused. Nothing was written.
    Memory,
    /// The input wasn't read to its end, and no line that was ended before has a fault. Nothing was
    /// written.
    ReadFailed,
    /// The writer failed after this many bytes of what was to be written.
    WriteFailed { written: usize },
    /// A thread of a session couldn't be started, or it isn't confirmed that all that was recorded was
    /// collected. Nothing was written.
    Unconfirmed,
}

impl From<AllocError> for Ended {
    ghost use Rattle.gl_commands.specs.declared.ended.Ended.TheVariants.{Memory};

    ghost from_gives = { λ _ ended. ended ≡ Memory };

    fn from(_e: AllocError) -> Ended {
        Ended::Memory
    }
}

/// How a command ends once what it prints is written.
#[derive(Clone, Copy, Debug, PartialEq, Eq)]
pub enum Outcome {
    /// It is a report that lists no cycle.
    Clean,
    /// It is a report that lists a cycle or more.
    Cycles,
    /// It is no report.
    Done,
}

/// The line for standard error and the exit status.
pub fn said(ended: &Ended) -> (&[u8], u8)
    ensures line { result.0.now ≡ line_of ended.now }
    ensures status { result.1 ≡ status_of ended.now }
{
    match ended {
        Ended::Clean => (b"", 0),
        Ended::Cycles => (b"", 1),
        Ended::Done => (b"", 0),
        Ended::Refused(line) => (line.as_slice(), 2),
        Ended::Memory => (b"goodlock: out of memory\n", 3),
        Ended::ReadFailed => (b"goodlock: read failed\n", 4),
        Ended::WriteFailed { .. } => (b"goodlock: write failed\n", 4),
        Ended::Unconfirmed => (b"goodlock: session not confirmed\n", 4),
    }
}
