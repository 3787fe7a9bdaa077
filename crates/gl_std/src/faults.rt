//! What can be wrong with a text.
ghost use Rattle.std.specs.Prelude.{◌≡◌};

use std::alloc::{AllocError, AllocFailed};
use std::error::Error;
use std::fmt;

/// What is wrong with a line, in the order in which the faults are tried.
#[derive(Clone, Copy, Debug, PartialEq, Eq)]
pub enum StdKind {
    /// The line has more than 65,536 bytes.
    TooLong,
    /// The line has no bar.
    NoBar,
    /// The line has one bar only.
    NoLocation,
    /// The thread's field is empty.
    NoThread,
    /// There is no opening parenthesis, nothing after it, or no closing one at the field's end.
    BadOperand,
    /// A fork or join of the line's own thread.
    OnItself,
    /// The thread holds 64 other locks.
    HeldFull,
    /// The thread has acquired the lock 1,000,000 times without a release.
    DepthFull,
    /// An exclusive acquire, tried or not, of a lock that the thread holds in shared mode.
    Upgrade,
    /// More threads than the limit allows, with those that the line names for the first time.
    TooManyThreads,
    /// One more event of the thread than the limit allows.
    TooManyEvents,
    /// One more lock name, or one more location name, than the limit allows.
    TooManyNames,
}

impl StdKind {
    ghost use Rattle.gl_std.specs.Faults.{text_of};

    /// The fault in words.
    pub fn text(self) -> &'static str
        ensures { result.now ≡ text_of self }
    {
        match self {
            StdKind::TooLong => "line too long",
            StdKind::NoBar => "no bar",
            StdKind::NoLocation => "no location field",
            StdKind::NoThread => "no thread",
            StdKind::BadOperand => "bad operand",
            StdKind::OnItself => "thread forks or joins itself",
            StdKind::HeldFull => "too many locks held",
            StdKind::DepthFull => "lock taken too often",
            StdKind::Upgrade => "shared lock taken exclusively",
            StdKind::TooManyThreads => "too many threads",
            StdKind::TooManyEvents => "too many events",
            StdKind::TooManyNames => "too many names",
        }
    }
}

impl fmt::Display for StdKind {
    ghost use Rattle.std.specs.Prelude.{Some};
    ghost use Rattle.gl_std.specs.Faults.{text_of};

    ghost output = { λ kind. Some (text_of kind) };

    fn fmt<W: fmt::Write>(&self, f: &mut fmt::Formatter<W>) -> fmt::Result {
        f.write_str(self.text())
    }
}

/// Why a text gave no trace.
#[derive(Clone, Copy, Debug, PartialEq, Eq)]
pub enum ReadFault {
    /// The first line that is no event, with its number from 1 on.
    Line { line: u64, kind: StdKind },
    /// A growth was refused.
    Memory,
}

impl fmt::Display for ReadFault {
    ghost use Rattle.std.specs.Prelude.{Some};
    ghost use Rattle.gl_std.specs.Faults.{fault_text_of};

    ghost output = { λ fault. Some (fault_text_of fault) };

    fn fmt<W: fmt::Write>(&self, f: &mut fmt::Formatter<W>) -> fmt::Result {
        match self {
            ReadFault::Line { line, kind } => write!(f, "line {line}: {kind}"),
            ReadFault::Memory => f.write_str("out of memory"),
        }
    }
}

impl Error for ReadFault {}

impl From<AllocError> for ReadFault {
    ghost use Rattle.gl_std.specs.declared.faults.ReadFault.TheVariants.{Memory};

    ghost from_gives = { λ _ e. e ≡ Memory };

    fn from(_e: AllocError) -> ReadFault {
        ReadFault::Memory
    }
}

impl<T: Drop> From<AllocFailed<T>> for ReadFault {
    ghost use Rattle.gl_std.specs.declared.faults.ReadFault.TheVariants.{Memory};

    ghost from_gives = { λ _ e. e ≡ Memory };

    fn from(_e: AllocFailed<T>) -> ReadFault {
        ReadFault::Memory
    }
}

/// Why no further item comes.
#[derive(Clone, Copy, Debug, PartialEq, Eq)]
pub enum LinesFault {
    /// The first line that is no event, with its number from 1 on.
    Line { line: u64, kind: StdKind },
    /// A read failed, or the turns were used up before the end.
    Read,
    /// A growth was refused.
    Memory,
}

impl fmt::Display for LinesFault {
    ghost use Rattle.std.specs.Prelude.{Some};
    ghost use Rattle.gl_std.specs.Faults.{lines_text_of};

    ghost output = { λ fault. Some (lines_text_of fault) };

    fn fmt<W: fmt::Write>(&self, f: &mut fmt::Formatter<W>) -> fmt::Result {
        match self {
            LinesFault::Line { line, kind } => write!(f, "line {line}: {kind}"),
            LinesFault::Read => f.write_str("the text could not be read whole"),
            LinesFault::Memory => f.write_str("out of memory"),
        }
    }
}

impl Error for LinesFault {}

impl From<ReadFault> for LinesFault {
    ghost use Rattle.gl_std.specs.Faults.{lines_fault};

    ghost from_gives = { λ fault e. e ≡ lines_fault fault };

    fn from(fault: ReadFault) -> LinesFault {
        match fault {
            ReadFault::Line { line, kind } => LinesFault::Line { line, kind },
            ReadFault::Memory => LinesFault::Memory,
        }
    }
}
