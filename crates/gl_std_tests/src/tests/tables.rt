//! Texts that stop after so many bytes, each number of them in turn, and texts that never end.
ghost use Rattle.std.specs.Prelude.{◌≡◌, ◌<◌, ◌≤◌, length, IfSome};
ghost use Rattle.gl_io.specs.Positions.{untold};
ghost use Rattle.gl_std.specs.Sourced.{items_of, source_of};
ghost use Rattle.gl_std.specs.Streaming.{CanBeAsked};

use super::cut_texts::{Answer, answer_of, ends, lines_of};
use super::{GREATEST, limits_of};
use crate::pieces::{Pieces, hear};
use Answer::{Bad, Broken, End, Skipped, Told};
use gl_std::{Failed, Heard, Lines, ReadFault, Seed, Source, StdKind, Trace};
use gl_worked::ops::Op::{Acq, Rel};
use std::alloc::Global;

// Six lines, of twelve bytes each.
const SIX_LINES: &[u8] =
    b"T0|acq(a)|1\nT0|acq(b)|2\nT0|rel(b)|3\nT0|rel(a)|4\nT1|acq(b)|5\nT1|acq(a)|6\n";

// What they tell.
const SIX_ITEMS: [Answer; 6] = [
    Told(0, Acq(0, 0)),
    Told(0, Acq(1, 1)),
    Told(0, Rel(1, 2)),
    Told(0, Rel(0, 3)),
    Told(1, Acq(1, 4)),
    Told(1, Acq(0, 5)),
];

// Where the text ends after so many bytes of a line: what that line tells, if it is whole but for its
// location's end, or what it is refused for.
fn rest_of_line(bytes: usize, line: u64, item: Answer) -> Answer {
    match bytes {
        0 => End,
        1 | 2 => Bad(line, StdKind::NoBar),
        3..=9 => Bad(line, StdKind::NoLocation),
        _ => item,
    }
}

// Whether the front of the text, a byte a read, is these items and then this. A fault stays, and else the
// text has ended.
fn is_front(alloc: Global, front: &[u8], fails: bool, items: &[Answer], last: Answer) -> bool {
    let then = if let Told(..) = last { End } else { last };
    match lines_of(alloc, front, 1, fails, 100) {
        Some(mut lines) => ends(&mut lines, items, last, then),
        None => false,
    }
}

// The text after so many lines and so many bytes of the next one: then it ends, or a read fails, whatever
// that line was to be.
fn is_cut_at(alloc: Global, text: &[u8], lines: usize, bytes: usize) -> bool
    requires text { length text.now ≡ 72 }
    requires lines { lines < 6 }
    requires bytes { bytes < 12 }
{
    let front = &text[..12 * lines + bytes];
    let items = &SIX_ITEMS[..lines];
    let last = rest_of_line(bytes, lines as u64 + 1, SIX_ITEMS[lines]);
    is_front(alloc, front, false, items, last) && is_front(alloc, front, true, items, Broken)
}

// The text cut at each byte of this line.
fn is_cut_in_line(alloc: Global, text: &[u8], line: usize) -> bool
    requires text { length text.now ≡ 72 }
    requires line { line < 6 }
{
    for bytes in 0..12 {
        if !is_cut_at(alloc, text, line, bytes) {
            return false;
        }
    }
    true
}

#[test]
fn cut_line(rt: HostRuntime) {
    for line in 0..6 {
        assert!(rt; is_cut_in_line(rt.alloc(), SIX_LINES, line), "line {line}");
    }
}

// How many events the lists have.
fn events_of(trace: &Trace) -> usize {
    let mut count: usize = 0;
    for list in trace.lists.as_slice() {
        count = count.saturating_add(list.len());
    }
    count
}

// Whether so many events are read at once, or this is the fault.
fn is_read(heard: &Heard, is_whole: bool, wanted: Result<usize, ReadFault>) -> bool {
    if heard.is_whole != is_whole {
        return false;
    }
    match (&heard.trace, wanted) {
        (Ok(trace), Ok(events)) => events_of(trace) == events,
        (Err(fault), Err(wanted)) => *fault == wanted,
        _ => false,
    }
}

// Whether so it is of the front of the text, a byte a read; then it ends, or a read fails.
fn is_heard(alloc: Global, front: &[u8], fails: bool, wanted: Result<usize, ReadFault>) -> bool {
    let mut input = Pieces::new(front, 1, fails);
    match hear(alloc, &mut input, 100) {
        Ok(heard) => is_read(&heard, !fails, wanted),
        Err(_) => false,
    }
}

// What is read at once of a text that ends after so many bytes of its next line.
fn heard_at_end(lines: usize, bytes: usize) -> Result<usize, ReadFault>
    requires lines { lines < 6 }
{
    match rest_of_line(bytes, lines as u64 + 1, Broken) {
        End => Ok(lines),
        Bad(line, kind) => Err(ReadFault::Line { line, kind }),
        _ => Ok(lines + 1),
    }
}

// The same of the text that is read at once: where a read fails, the lines that LF had ended are its trace.
fn is_heard_at(alloc: Global, text: &[u8], lines: usize, bytes: usize) -> bool
    requires text { length text.now ≡ 72 }
    requires lines { lines < 6 }
    requires bytes { bytes < 12 }
{
    let front = &text[..12 * lines + bytes];
    is_heard(alloc, front, false, heard_at_end(lines, bytes))
        && is_heard(alloc, front, true, Ok(lines))
}

// The text read at once, cut at each byte of this line.
fn is_heard_in_line(alloc: Global, text: &[u8], line: usize) -> bool
    requires text { length text.now ≡ 72 }
    requires line { line < 6 }
{
    for bytes in 0..12 {
        if !is_heard_at(alloc, text, line, bytes) {
            return false;
        }
    }
    true
}

#[test]
fn cut_line_read_at_once(rt: HostRuntime) {
    for line in 0..6 {
        assert!(rt;
            is_heard_in_line(rt.alloc(), SIX_LINES, line),
            "line {line}"
        );
    }
}

// Gives a line for ever, a byte a read.
#[derive(Drop)]
struct Endless<'a> {
    line: &'a [u8],
    rest: &'a [u8],
    is_failed: bool,
}

impl Source for Endless<'_> {
    ghost position = { λ _. untold };

    ghost failed = { λ s. s.is_failed };

    fn read(&mut self, buffer: &mut [u8]) -> Result<usize, Failed> {
        if self.rest.is_empty() {
            self.rest = self.line;
        }
        let count = self.rest.len().min(buffer.len()).min(1);
        buffer[..count].copy_from_slice(&self.rest[..count]);
        self.rest = &self.rest[count..];
        Ok(count)
    }
}

// The line for ever, of which so many bytes are read.
fn for_ever<'a>(alloc: Global, line: &'a [u8], turns: u64) -> Option<Lines<Endless<'a>>>
    requires few { turns ≤ 100_000 }
    ensures { IfSome result (λ l. CanBeAsked (items_of l) (source_of l).is_failed) }
{
    let input = Endless {
        line,
        rest: line,
        is_failed: false,
    };
    Lines::new(alloc, input, &limits_of(GREATEST)?, turns, Seed::fixed()).ok()
}

// Whether the next answer is this one.
fn is_next(lines: &mut Lines<Endless<'_>>, answer: Answer) -> bool
    requires { CanBeAsked (items_of lines.old) (source_of lines.old).is_failed }
    ensures { CanBeAsked (items_of lines.new) (source_of lines.new).is_failed }
{
    lines.next() == answer_of(answer)
}

// Whether so many lines are skipped, and then reading fails.
fn is_broken_after(lines: &mut Lines<Endless<'_>>, count: u64) -> bool
    requires { CanBeAsked (items_of lines.old) (source_of lines.old).is_failed }
{
    for _ in 0..count {
        if !is_next(lines, Skipped) {
            return false;
        }
    }
    is_next(lines, Broken) && is_next(lines, Broken)
}

// As many items as lines could be read, and then that reading failed.
fn is_endless(alloc: Global, line: &[u8], count: u64, turns: u64) -> bool
    requires few { turns ≤ 100_000 }
{
    match for_ever(alloc, line, turns) {
        Some(mut lines) => is_broken_after(&mut lines, count),
        None => false,
    }
}

// A line of ten bytes.
const SKIPPED_LINE: &[u8] = b"T0|r(x)|1\n";

// The line for ever, and each number of turns.
#[test]
fn endless_reader(rt: HostRuntime) {
    for turns in 0..50u64 {
        assert!(rt;
            is_endless(rt.alloc(), SKIPPED_LINE, turns / 10, turns),
            "{turns} turns"
        );
    }
    assert!(rt; is_endless(rt.alloc(), SKIPPED_LINE, 100, 1_000));
}

// Whether a line of so many bytes that has ended is too long, though the next read fails.
fn is_too_long(alloc: Global, length: usize) -> bool {
    let Ok(mut text) = Vec::from_elem(alloc, b'x', length) else {
        return false;
    };
    if text.push(b'\n').is_err() {
        return false;
    }
    let fault = Bad(1, StdKind::TooLong);
    match lines_of(alloc, text.as_slice(), 1_000, true, 100) {
        Some(mut lines) => ends(&mut lines, &[], fault, fault),
        None => false,
    }
}

// A line that never ends is not too long before its end is seen. One that has ended is.
#[test]
fn endless_line(rt: HostRuntime) {
    assert!(rt; is_endless(rt.alloc(), b"x", 0, 70_000));
    assert!(rt; is_too_long(rt.alloc(), 65_537));
}
