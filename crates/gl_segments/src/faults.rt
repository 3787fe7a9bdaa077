//! Why lists of events have no order.
ghost use Rattle.std.specs.Prelude.{◌≡◌};

use gl_event::Segment;
use std::alloc::{AllocError, AllocFailed};
use std::error::Error;
use std::fmt;

/// Why there is no order of the segments.
#[derive(Debug, Drop)]
pub enum OrderFault {
    /// A segment is before itself. `at` is the least such segment, by thread and then by index.
    /// The ring begins with `at`; each member is one step from the one before it, the first from
    /// the last.
    Inconsistent { at: Segment, ring: Vec<Segment> },
    /// A growth was refused.
    Memory,
}

impl fmt::Display for OrderFault {
    ghost use Rattle.std.specs.Prelude.{Some};
    ghost use Rattle.gl_segments.specs.Faults.{text_of};

    ghost output = { λ fault. Some (text_of fault) };

    fn fmt<W: fmt::Write>(&self, f: &mut fmt::Formatter<W>) -> fmt::Result {
        f.write_str(match self {
            OrderFault::Inconsistent { .. } => "a segment precedes itself",
            OrderFault::Memory => "out of memory",
        })
    }
}

impl Error for OrderFault {}

impl From<AllocError> for OrderFault {
    ghost use Rattle.gl_segments.specs.declared.faults.OrderFault.TheVariants.{Memory};

    ghost from_gives = { λ _ e. e ≡ Memory };

    fn from(_e: AllocError) -> OrderFault {
        OrderFault::Memory
    }
}

impl<T: Drop> From<AllocFailed<T>> for OrderFault {
    ghost use Rattle.gl_segments.specs.declared.faults.OrderFault.TheVariants.{Memory};

    ghost from_gives = { λ _ e. e ≡ Memory };

    fn from(_e: AllocFailed<T>) -> OrderFault {
        OrderFault::Memory
    }
}
