//! Why a report isn't accepted.
ghost use Rattle.std.specs.Prelude.{◌≡◌};

use gl_event::Segment;
use gl_filters::Verdict;
use std::alloc::{AllocError, AllocFailed};
use std::error::Error;
use std::fmt;

/// Why a report isn't accepted. Cycles, their edges, and the entries of the table and of the trim order
/// count from 0. In format 3 a cycle is one that shows a finding.
#[derive(Drop, Debug)]
pub enum CheckFault {
    /// It is no JSON.
    Json,
    /// It hasn't exactly the keys of its format, a value is of another kind or out of its range, an
    /// edge hasn't a mode for each guard, a cycle names a position beyond the table, or more cycles
    /// are listed than were asked for.
    Shape,
    /// A segment of the trace is before itself: this is the least one, by thread and index, and a ring
    /// of segments that begins with it, each one step from the one before and the first from the last.
    Inconsistent { at: Segment, ring: Vec<Segment> },
    /// This is the first position at which the table, which formats 2 and 3 have, isn't that of the
    /// trace's edges: another edge stands there, or another sample, or a further one, or none.
    Table(usize),
    /// This edge of this cycle, in format 1, is none of the trace, or has another sample.
    Edge(usize, usize),
    /// This cycle is none that was asked for, and why.
    Verdict(usize, Verdict),
    /// This cycle isn't above the one before it, or its finding isn't above the one before it.
    Order(usize),
    /// This is the first place at which the trim order is wrong: there stands a position beyond the
    /// table, one that stood there before, or one of an edge that has both a follower and a leader
    /// among those left; or the order ends there, and an edge is left.
    Trim(usize),
    /// Memory was refused.
    Memory,
}

impl fmt::Display for CheckFault {
    ghost use Rattle.std.specs.Prelude.{Some};
    ghost use Rattle.gl_check.specs.Faults.{text_of};

    ghost output = { λ fault. Some (text_of fault) };

    fn fmt<W: fmt::Write>(&self, f: &mut fmt::Formatter<W>) -> fmt::Result {
        match self {
            CheckFault::Json => f.write_str("report is not JSON"),
            CheckFault::Shape => f.write_str("report has the wrong shape"),
            CheckFault::Inconsistent { .. } => f.write_str("a segment precedes itself"),
            CheckFault::Table(entry) => write!(f, "table entry {entry} is wrong"),
            CheckFault::Edge(cycle, edge) => {
                write!(f, "cycle {cycle} edge {edge} is not in the trace")
            }
            CheckFault::Verdict(cycle, _) => write!(f, "cycle {cycle} is not valid"),
            CheckFault::Order(cycle) => write!(f, "cycle {cycle} is out of order"),
            CheckFault::Trim(entry) => write!(f, "trim entry {entry} is wrong"),
            CheckFault::Memory => f.write_str("out of memory"),
        }
    }
}

impl Error for CheckFault {}

impl From<AllocError> for CheckFault {
    ghost use Rattle.gl_check.specs.declared.faults.CheckFault.TheVariants.{Memory};

    ghost from_gives = { λ _ e. e ≡ Memory };

    fn from(_e: AllocError) -> CheckFault {
        CheckFault::Memory
    }
}

impl<T: Drop> From<AllocFailed<T>> for CheckFault {
    ghost use Rattle.gl_check.specs.declared.faults.CheckFault.TheVariants.{Memory};

    ghost from_gives = { λ _ e. e ≡ Memory };

    fn from(_e: AllocFailed<T>) -> CheckFault {
        CheckFault::Memory
    }
}
