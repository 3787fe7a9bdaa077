//! Writing a trace as a text.
ghost use Rattle.std.specs.Prelude.{◌≡◌, ◌≢◌, ℕ, List, [], ◌++◌, Some, length, slice_get, All, IfOk, OnOk, OnErr};
ghost use Rattle.gl_event.specs.Events.{location};
ghost use Rattle.gl_event.specs.declared.events.Event.{Event};
ghost use Rattle.gl_std.specs.Trace.{IsNamed};
ghost use Rattle.gl_writing.specs.Written.{line_end, name_at, operand_name, word_of, written, written_event, written_list};

use gl_event::{Event, LockMode, ThreadId};
use gl_std::{Names, Trace, without_cr};
use std::alloc::{AllocError, Global};

// The word of the event's operation.
fn word_of(event: &Event) -> &'static [u8]
    ensures { result.now ≡ word_of event.now }
{
    match *event {
        Event::Acquire { mode, .. } => match mode {
            LockMode::Exclusive => b"acq".as_slice(),
            LockMode::Shared => b"racq".as_slice(),
        },
        Event::Release { mode, .. } => match mode {
            LockMode::Exclusive => b"rel".as_slice(),
            LockMode::Shared => b"rrel".as_slice(),
        },
        Event::TryAcquire { mode, .. } => match mode {
            LockMode::Exclusive => b"tryacq".as_slice(),
            LockMode::Shared => b"tryracq".as_slice(),
        },
        Event::Fork { .. } => b"fork".as_slice(),
        Event::Join { .. } => b"join".as_slice(),
    }
}

// The name of the lock or thread that the event is on.
fn operand_name<'a>(names: &'a Names, event: &Event) -> &'a [u8]
    requires { IsNamed names.now event.now }
    ensures { result.now ≡ operand_name names.now event.now }
{
    match *event {
        Event::Acquire { lock, .. } => names.lock(lock),
        Event::Release { lock, .. } => names.lock(lock),
        Event::TryAcquire { lock, .. } => names.lock(lock),
        Event::Fork { thread, .. } => names.thread(thread),
        Event::Join { thread, .. } => names.thread(thread),
    }
}

// The name of the event's location.
fn location_name<'a>(names: &'a Names, event: &Event) -> &'a [u8]
    requires { IsNamed names.now event.now }
    ensures { result.now ≡ name_at names.now.locs (location event.now) }
{
    match *event {
        Event::Acquire { loc, .. } => names.loc(loc),
        Event::Release { loc, .. } => names.loc(loc),
        Event::TryAcquire { loc, .. } => names.loc(loc),
        Event::Fork { loc, .. } => names.loc(loc),
        Event::Join { loc, .. } => names.loc(loc),
    }
}

// What ends a line at this location.
fn line_end(location: &[u8]) -> &'static [u8]
    ensures { result.now ≡ line_end location.now }
{
    if without_cr(location) == location {
        return b"\n".as_slice();
    }
    b"\r\n".as_slice()
}

// Adds the line of an event.
fn put_event(
    text: &mut Vec<u8>,
    names: &Names,
    thread: &[u8],
    event: &Event,
) -> Result<(), AllocError>
    requires { IsNamed names.now event.now }
    ensures { OnOk result
        (text.new.items ≡ text.old.items ++ written_event names.now thread.now event.now) }
{
    let location = location_name(names, event);
    text.extend_from_slice(thread)?;
    text.extend_from_slice(b"|")?;
    text.extend_from_slice(word_of(event))?;
    text.extend_from_slice(b"(")?;
    text.extend_from_slice(operand_name(names, event))?;
    text.extend_from_slice(b")|")?;
    text.extend_from_slice(location)?;
    text.extend_from_slice(line_end(location))?;
    Ok(())
}

// Adds the lines of a thread's events.
fn put_list(
    text: &mut Vec<u8>,
    names: &Names,
    thread: &[u8],
    events: &[Event],
) -> Result<(), AllocError>
    requires { All (IsNamed names.now) events.now }
    ensures written { OnOk result
        (text.new.items ≡ text.old.items ++ written_list names.now thread.now events.now) }
    ensures memory { OnErr result (written_list names.now thread.now events.now ≢ []) }
{
    for event in events {
        put_event(text, names, thread, event)?;
    }
    Ok(())
}

/// The text that tells a trace: each thread's list in the order of their numbers, and each event as
/// its line, by the word of its operation. A line is ended by LF, and by CR LF where its location
/// ends with CR. Where the trace is that of a text, what is written is read again under the same
/// limits, and tells the same ([`written_texts_are_read_again`](crate::written_texts_are_read_again)).
///
/// Err where memory was refused, and never where nothing is to be written.
///
/// Takes memory for the text alone. Time grows with its length.
pub fn write_trace(alloc: Global, trace: &Trace) -> Result<Vec<u8>, AllocError>
    requires one_list_each { length trace.now.lists ≡ length trace.now.names.threads }
    requires named { (thread : ℕ) (es : List Event)
        → slice_get trace.now.lists thread ≡ Some es
        → All (IsNamed trace.now.names) es }
    ensures written { IfOk result
        (λ text. text.items ≡ written trace.now.names trace.now.lists) }
    ensures memory { OnErr result (written trace.now.names trace.now.lists ≢ []) }
{
    let lists = trace.lists.as_slice();
    let mut text = Vec::new(alloc);
    for number in 0..trace.names.threads() {
        let thread = trace.names.thread(ThreadId::new(number));
        put_list(&mut text, &trace.names, thread, &lists[number as usize])?;
    }
    Ok(text)
}
