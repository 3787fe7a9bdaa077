//! Texts that are read line by line.
ghost use Rattle.gl_io.specs.Wrapped.{has_failed};
ghost use Rattle.gl_std.specs.Sourced.{items_of, source_of};
ghost use Rattle.gl_std.specs.Streaming.{CanBeAsked};
ghost use Rattle.std.specs.Prelude.{IfOk};

use crate::say::{Stop, refused, say};
use gl_event::Limits;
use gl_io::FromStd;
use gl_std::{Lines, LinesFault, Seed};
use std::alloc::AllocError;

type Text = Lines<FromStd<&'static [u8]>>;

const BAD_LINE: &[u8] = b"T0|acq(|3";

const OPPOSITE_ORDER: &[u8] =
    b"T0|acq(a)|1\nT0|acq(b)|2\nT0|rel(b)|3\nT0|rel(a)|4\nT1|acq(b)|5\nT1|acq(a)|6\n";

// The lines of the text, none of which was read yet.
fn unread(rt: &HostRuntime, text: &'static [u8]) -> Result<Text, AllocError>
    ensures { IfOk result (λ lines. CanBeAsked (items_of lines) (has_failed (source_of lines))) }
{
    let limits = Limits::greatest();
    Lines::new(
        rt.alloc(),
        FromStd::new(text),
        &limits,
        1_000,
        Seed::fixed(),
    )
}

// The lines of the text, for which memory may be refused once.
fn lines_of(rt: &HostRuntime, text: &'static [u8]) -> Result<Text, AllocError>
    ensures { IfOk result (λ lines. CanBeAsked (items_of lines) (has_failed (source_of lines))) }
{
    if let Ok(lines) = unread(rt, text) {
        return Ok(lines);
    }
    refused(rt, "lines", &());
    unread(rt, text)
}

// Asks for the next item. Whether there was no memory for it: then each later answer is that too.
fn has_spoilt(rt: &HostRuntime, lines: &mut Text) -> bool
    requires { CanBeAsked (items_of lines.old) (has_failed (source_of lines.old)) }
    ensures { CanBeAsked (items_of lines.new) (has_failed (source_of lines.new)) }
{
    let item = lines.next();
    if item == Err(LinesFault::Memory) {
        refused(rt, "next", &lines.next());
        return true;
    }
    say(rt, "next", &item);
    false
}

// Asks for so many items of the text. There are no lines to go on with where memory was refused.
fn read(rt: &HostRuntime, text: &'static [u8], items: u32) -> Result<Option<Text>, AllocError> {
    let mut lines = lines_of(rt, text)?;
    for _ in 0..items {
        if has_spoilt(rt, &mut lines) {
            return Ok(None);
        }
    }
    Ok(Some(lines))
}

// The same, once more from the beginning where memory was refused.
fn read_whole(rt: &HostRuntime, text: &'static [u8], items: u32) -> Result<Text, Stop> {
    if let Some(lines) = read(rt, text, items)? {
        return Ok(lines);
    }
    read(rt, text, items)?.ok_or(Stop::Memory)
}

/// After a fault each answer is that fault, and after the end that it has ended.
pub(crate) fn fault_repeats(rt: &HostRuntime) -> Result<(), Stop> {
    read_whole(rt, BAD_LINE, 2)?;
    let lines = read_whole(rt, OPPOSITE_ORDER, 8)?;
    let (names, skipped, stray, _) = lines.parts();
    let counts = (names.threads(), names.locks(), names.locs());
    say(rt, "parts", &(counts, skipped, stray));
    Ok(())
}
