//! Texts that are told item by item.
ghost use Rattle.std.specs.Prelude.{◌≤◌, IfSome};
ghost use Rattle.gl_std.specs.Sourced.{items_of, source_of};
ghost use Rattle.gl_std.specs.Streaming.{CanBeAsked};

use super::{GREATEST, limits_of, long_line};
use crate::pieces::Pieces;
use gl_event::ThreadId;
use gl_std::{Item, Lines, LinesFault, Seed, StdKind};
use gl_worked::ops::Op::{self, Acq, Rel};
use gl_worked::ops::event_of;
use std::alloc::Global;

// An answer.
#[derive(Clone, Copy)]
pub(super) enum Answer {
    Told(u32, Op),
    Skipped,
    Stray,
    End,
    Bad(u64, StdKind),
    Broken,
}

use Answer::{Bad, Broken, End, Skipped, Stray, Told};

// A text that is read in pieces of each of these sizes in turn, and then fails or ends: its answers, of
// which the last one stays.
#[derive(Clone, Copy)]
struct Case {
    name: &'static str,
    text: &'static [u8],
    pieces: &'static [usize],
    fails: bool,
    turns: u64,
    answers: &'static [Answer],
    last: Answer,
}

const CASES: &[Case] = &[
    Case {
        name: "opposite_order",
        text: b"T0|acq(a)|1\nT0|acq(b)|2\nT0|rel(b)|3\nT0|rel(a)|4\nT1|acq(b)|5\nT1|acq(a)|6\n",
        pieces: &[1, 2, 3, 7],
        fails: false,
        turns: 100_000,
        answers: &[
            Told(0, Acq(0, 0)),
            Told(0, Acq(1, 1)),
            Told(0, Rel(1, 2)),
            Told(0, Rel(0, 3)),
            Told(1, Acq(1, 4)),
            Told(1, Acq(0, 5)),
        ],
        last: End,
    },
    Case {
        name: "crlf_and_skipped",
        text: b"T0|acq(a)|1\r\n\r\nT0|r(x)|9\r\nT0|acq(b)|A.java:7|x\r\nT0|rel(c)|3\r\nT1|acq(b)|5",
        pieces: &[1, 2, 3, 7],
        fails: false,
        turns: 100_000,
        answers: &[
            Told(0, Acq(0, 0)),
            Skipped,
            Told(0, Acq(1, 1)),
            Stray,
            Told(1, Acq(1, 2)),
        ],
        last: End,
    },
    Case {
        name: "fault_repeats",
        text: b"T0|acq(a)|1\nT0|acq(|3\nT0|acq(b)|1\n",
        pieces: &[1_000],
        fails: false,
        turns: 100_000,
        answers: &[Told(0, Acq(0, 0))],
        last: Bad(2, StdKind::BadOperand),
    },
    // After one line that LF has ended, the text can't be read: a read fails, or the turns are used up.
    Case {
        name: "failed_read",
        text: b"T0|acq(a)|1\nT0",
        pieces: &[5],
        fails: true,
        turns: 100,
        answers: &[Told(0, Acq(0, 0))],
        last: Broken,
    },
    Case {
        name: "cut_read",
        text: b"T0|acq(a)|1\nT0|acq(b)|2\n",
        pieces: &[5],
        fails: false,
        turns: 4,
        answers: &[Told(0, Acq(0, 0))],
        last: Broken,
    },
];

/// The answer.
pub(super) fn answer_of(answer: Answer) -> Result<Item, LinesFault> {
    match answer {
        Told(thread, op) => Ok(Item::Event {
            thread: ThreadId::new(thread),
            event: event_of(op),
        }),
        Skipped => Ok(Item::Skipped),
        Stray => Ok(Item::Stray),
        End => Ok(Item::End),
        Bad(line, kind) => Err(LinesFault::Line { line, kind }),
        Broken => Err(LinesFault::Read),
    }
}

// The lines of the text, so many bytes a read and at most so many reads; then it fails or ends.
pub(super) fn lines_of<'a>(
    alloc: Global,
    text: &'a [u8],
    piece: usize,
    fails: bool,
    turns: u64,
) -> Option<Lines<Pieces<'a>>>
    requires few { turns ≤ 100000 }
    ensures { IfSome result (λ l. CanBeAsked (items_of l) (source_of l).is_failed) }
{
    let input = Pieces::new(text, piece, fails);
    Lines::new(alloc, input, &limits_of(GREATEST)?, turns, Seed::fixed()).ok()
}

// Whether the next answer is this one.
pub(super) fn answers(lines: &mut Lines<Pieces<'_>>, answer: Answer) -> bool
    requires { CanBeAsked (items_of lines.old) (source_of lines.old).is_failed }
    ensures { CanBeAsked (items_of lines.new) (source_of lines.new).is_failed }
{
    lines.next() == answer_of(answer)
}

// Whether the next answers are these.
pub(super) fn answers_all(lines: &mut Lines<Pieces<'_>>, all: &[Answer]) -> bool
    requires { CanBeAsked (items_of lines.old) (source_of lines.old).is_failed }
    ensures { CanBeAsked (items_of lines.new) (source_of lines.new).is_failed }
{
    let mut are = true;
    for answer in all {
        let is = answers(lines, *answer);
        are = are && is;
    }
    are
}

// Whether the next answers are these, then this one, and then another one.
pub(super) fn ends(
    lines: &mut Lines<Pieces<'_>>,
    all: &[Answer],
    last: Answer,
    then: Answer,
) -> bool
    requires { CanBeAsked (items_of lines.old) (source_of lines.old).is_failed }
{
    let are = answers_all(lines, all);
    let is_last = answers(lines, last);
    let stays = answers(lines, then);
    are && is_last && stays
}

// Whether the text's answers are these, so many bytes a read.
fn is_answered(alloc: Global, case: &Case, piece: usize) -> bool {
    if case.turns > 100_000 {
        return false;
    }
    match lines_of(alloc, case.text, piece, case.fails, case.turns) {
        Some(mut lines) => ends(&mut lines, case.answers, case.last, case.last),
        None => false,
    }
}

// The same, whichever of these pieces it is read in.
fn is_answered_each(alloc: Global, case: &Case) -> bool {
    for piece in case.pieces {
        if !is_answered(alloc, case, *piece) {
            return false;
        }
    }
    true
}

#[test]
fn cut_texts(rt: HostRuntime) {
    for case in CASES {
        assert!(rt; is_answered_each(rt.alloc(), case), "{}", case.name);
    }
}

// Texts whose first line is at fault, read so many bytes at a time.
const BAD_FIRST: &[(&[u8], usize, StdKind)] = &[
    (b"T0|acq(|3", 1, StdKind::BadOperand),
    (b"T0|acq(a)\r\n", 2, StdKind::NoLocation),
    (b"|acq(a)|1\n\n", 3, StdKind::NoThread),
    (b"T0", 7, StdKind::NoBar),
];

// Whether the first line is at fault, and stays so.
fn is_bad_first(alloc: Global, text: &[u8], piece: usize, kind: StdKind) -> bool {
    match lines_of(alloc, text, piece, false, 100_000) {
        Some(mut lines) => ends(&mut lines, &[], Bad(1, kind), Bad(1, kind)),
        None => false,
    }
}

#[test]
fn cut_reads_of_bad_lines(rt: HostRuntime) {
    for (text, piece, kind) in BAD_FIRST {
        assert!(rt; is_bad_first(rt.alloc(), text, *piece, *kind), "{kind}");
    }
}

// The first acquire, at a location of so many bytes, and what ends its line.
const LONG: &[(usize, &[u8], usize, Answer)] = &[
    (65_526, b"\r\n", 1, Told(0, Acq(0, 0))),
    (65_526, b"\n", 7, Told(0, Acq(0, 0))),
    (65_527, b"\r\n", 2, Bad(1, StdKind::TooLong)),
    (65_526, b"\ry\n", 3, Bad(1, StdKind::TooLong)),
];

// Whether this is what the text begins with, read so many bytes at a time.
fn is_first(alloc: Global, text: &[u8], piece: usize, answer: Answer) -> bool {
    match lines_of(alloc, text, piece, false, 100_000) {
        Some(mut lines) => answers(&mut lines, answer),
        None => false,
    }
}

// What the long line is, read so many bytes at a time.
fn is_long(alloc: Global, length: usize, end: &[u8], piece: usize, answer: Answer) -> bool {
    match long_line(alloc, length, end) {
        Some(text) => is_first(alloc, &text, piece, answer),
        None => false,
    }
}

#[test]
fn cut_reads_of_longest_line(rt: HostRuntime) {
    for (length, end, piece, answer) in LONG {
        let is = is_long(rt.alloc(), *length, end, *piece, *answer);
        assert!(rt; is, "{length}, {piece}");
    }
}

const PARTS: &[Answer] = &[
    Told(0, Acq(0, 0)),
    Told(0, Acq(1, 1)),
    Skipped,
    Stray,
    Told(1, Acq(1, 2)),
    Told(1, Acq(0, 3)),
    End,
];

// Whether so many threads, locks and locations have names, and so many lines were skipped and releases were strays.
// The whole text was read.
fn has_parts(lines: Lines<Pieces<'_>>, names: (u32, u32, u32), dropped: (u64, u64)) -> bool {
    let (found, skipped, stray, input) = lines.parts();
    (found.threads(), found.locks(), found.locs()) == names
        && (skipped, stray) == dropped
        && input.rest.is_empty()
}

// Whether the text's answers are these, and so are its parts then.
fn is_parted(
    alloc: Global,
    text: &[u8],
    all: &[Answer],
    names: (u32, u32, u32),
    dropped: (u64, u64),
) -> bool {
    match lines_of(alloc, text, 1_000, false, 100_000) {
        Some(mut lines) => {
            let are = answers_all(&mut lines, all);
            are && has_parts(lines, names, dropped)
        }
        None => false,
    }
}

// What is known once the end was answered.
#[test]
fn parts_at_the_end(rt: HostRuntime) {
    let text = b"T0|acq(a)|1\nT0|acq(b)|2\nT0|r(x)|9\nT0|rel(c)|7\nT1|acq(b)|5\nT1|acq(a)|6\n";
    assert!(rt; is_parted(rt.alloc(), text, PARTS, (2, 2, 4), (1, 1)));
}
