//! What a line says, taken alone.
ghost use Rattle.std.specs.Prelude.{◌≡◌, Some, IsSome, IfSome, take, drop};
ghost use Rattle.std.specs.Option.{option_map};
ghost use Rattle.gl_std.specs.Line.{cut_at, before_close, is_on_itself, is_on_thread, operation_of, shape_of, shape_of_call, shape_of_fields};
ghost use Rattle.gl_std.specs.bodies.Shown.{shown, shown_operation};

use crate::faults::StdKind;
use gl_bytes::find_from;
use gl_event::LockMode;

/// The longest line, in bytes, without what ends it.
pub const MAX_LINE: usize = 65_536;
/// The byte between fields.
pub(crate) const BAR: u8 = b'|';
/// The byte before an operand.
pub(crate) const OPEN: u8 = b'(';
/// The byte after an operand.
pub(crate) const CLOSE: u8 = b')';

/// The operations that are events.
#[derive(Clone, Copy)]
pub(crate) enum Operation {
    /// The thread acquires a lock, and waits for it where it has to.
    Acquire(LockMode),
    /// The thread releases a lock, in whichever mode it holds it.
    Release(LockMode),
    /// The thread acquires a lock by an attempt that could not have waited for ever.
    TryAcquire(LockMode),
    /// The thread starts another thread.
    Fork,
    /// The thread waits for another thread to end.
    Join,
}

impl Operation {
    /// Whether the operand is a thread, and not a lock.
    #[inline(always)]
    pub(crate) fn is_on_thread(self) -> bool
        ensures { result ≡ is_on_thread (shown_operation self) }
    {
        match self {
            Operation::Acquire(_) | Operation::Release(_) | Operation::TryAcquire(_) => false,
            Operation::Fork | Operation::Join => true,
        }
    }
}

/// What a line says.
#[derive(Clone, Copy)]
pub(crate) enum Shape<'a> {
    /// Nothing: the line is empty.
    Blank,
    /// Nothing, since the line is at fault.
    Bad(StdKind),
    /// An operation that is no event.
    Other,
    /// An operation of a thread at a location.
    Call {
        operation: Operation,
        thread: &'a [u8],
        operand: &'a [u8],
        location: &'a [u8],
    },
}

/// What stands before the first such byte, and what stands after it. One scan.
#[inline(always)]
pub(crate) fn cut(text: &[u8], byte: u8) -> Option<(&[u8], &[u8])>
    ensures { option_map (λ p. (p.0.now, p.1.now)) result ≡ cut_at byte text.now }
{
    match find_from(byte, text, 0) {
        Some(place) => Some((&text[..place], &text[place + 1..])),
        None => None,
    }
}

/// What the line says. Looks at each byte a few times at most.
#[inline(always)]
pub(crate) fn shape_of(line: &[u8]) -> Shape<'_>
    ensures { shown result ≡ shape_of line.now }
{
    if line.len() > MAX_LINE {
        return Shape::Bad(StdKind::TooLong);
    }
    if line.is_empty() {
        return Shape::Blank;
    }
    match cut(line, BAR) {
        Some((thread, rest)) => match cut(rest, BAR) {
            Some((field, location)) => shape_of_fields(thread, field, location),
            None => Shape::Bad(StdKind::NoLocation),
        },
        None => Shape::Bad(StdKind::NoBar),
    }
}

/// What the three fields of a line say.
#[inline(always)]
fn shape_of_fields<'a>(thread: &'a [u8], field: &'a [u8], location: &'a [u8]) -> Shape<'a>
    ensures { shown result ≡ shape_of_fields thread.now field.now location.now }
{
    if thread.is_empty() {
        return Shape::Bad(StdKind::NoThread);
    }
    if let Some(operation) = plain_operation(field) {
        return shape_of_call(thread, Some(operation), before_close(&field[4..]), location);
    }
    match cut(field, OPEN) {
        Some((name, rest)) => {
            shape_of_call(thread, operation_of(name), before_close(rest), location)
        }
        None => shape_of_call(thread, operation_of(field), None, location),
    }
}

/// The operation that most lines tell, an exclusive acquire or its release, where the field begins with its
/// name and a parenthesis.
#[inline(always)]
fn plain_operation(field: &[u8]) -> Option<Operation>
    ensures named { IfSome result
        (λ operation. operation_of (take 3 field.now) ≡ Some (shown_operation operation)) }
    ensures cut { IsSome result
        → cut_at OPEN field.now ≡ Some (take 3 field.now, drop 4 field.now) }
{
    if field.len() < 4 || field[3] != OPEN {
        return None;
    }
    if field[0] == b'a' && field[1] == b'c' && field[2] == b'q' {
        return Some(Operation::Acquire(LockMode::Exclusive));
    }
    if field[0] == b'r' && field[1] == b'e' && field[2] == b'l' {
        return Some(Operation::Release(LockMode::Exclusive));
    }
    None
}

/// What this operation with this operand says.
#[inline(always)]
fn shape_of_call<'a>(
    thread: &'a [u8],
    operation: Option<Operation>,
    operand: Option<&'a [u8]>,
    location: &'a [u8],
) -> Shape<'a>
    ensures { shown result
        ≡ shape_of_call thread.now (option_map shown_operation operation)
        (option_map (λ o. o.now) operand.entry) location.now }
{
    match operation {
        Some(operation) => match operand {
            Some(operand) => {
                if is_on_itself(operation, thread, operand) {
                    return Shape::Bad(StdKind::OnItself);
                }
                Shape::Call {
                    operation,
                    thread,
                    operand,
                    location,
                }
            }
            None => Shape::Bad(StdKind::BadOperand),
        },
        None => Shape::Other,
    }
}

/// Whether the operation is a fork or join of the line's own thread.
#[inline(always)]
fn is_on_itself(operation: Operation, thread: &[u8], operand: &[u8]) -> bool
    ensures { result ≡ is_on_itself (shown_operation operation) thread.now operand.now }
{
    if !operation.is_on_thread() {
        return false;
    }
    operand == thread
}

/// The operation with this name.
#[inline(always)]
fn operation_of(name: &[u8]) -> Option<Operation>
    ensures { option_map shown_operation result ≡ operation_of name.now }
{
    if name == b"acq".as_slice() {
        return Some(Operation::Acquire(LockMode::Exclusive));
    }
    if name == b"racq".as_slice() {
        return Some(Operation::Acquire(LockMode::Shared));
    }
    if name == b"rel".as_slice() {
        return Some(Operation::Release(LockMode::Exclusive));
    }
    if name == b"rrel".as_slice() {
        return Some(Operation::Release(LockMode::Shared));
    }
    if name == b"tryacq".as_slice() {
        return Some(Operation::TryAcquire(LockMode::Exclusive));
    }
    if name == b"tryracq".as_slice() {
        return Some(Operation::TryAcquire(LockMode::Shared));
    }
    if name == b"fork".as_slice() {
        return Some(Operation::Fork);
    }
    if name == b"join".as_slice() {
        return Some(Operation::Join);
    }
    None
}

/// What stands before a closing parenthesis at the end, if that is something.
#[inline(always)]
fn before_close(text: &[u8]) -> Option<&[u8]>
    ensures { option_map (λ o. o.now) result ≡ before_close text.now }
{
    if text.len() < 2 || text[text.len() - 1] != CLOSE {
        return None;
    }
    Some(&text[..text.len() - 1])
}

/// How long a line may be, in numbers. It does nothing: its contract is the table.
pub fn limits_in_numbers()
    ensures line { MAX_LINE ≡ 65536 }
{}
