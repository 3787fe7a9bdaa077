//! What a line says, by numbers in place of names.
use crate::faults::StdKind;
use crate::line::Operation;
use gl_event::{LocId, ThreadId};

/// What a line says, by the numbers that its block gives to names. The operand is a lock or a thread, as
/// the operation says.
#[derive(Clone, Copy)]
pub(crate) enum NumberedLine {
    /// Nothing: the line is empty.
    Blank,
    /// Nothing, since the line is at fault.
    Bad(StdKind),
    /// An operation that is no event.
    Other,
    /// An operation of a thread at a location.
    Call {
        operation: Operation,
        thread: ThreadId,
        operand: u32,
        location: LocId,
    },
}
