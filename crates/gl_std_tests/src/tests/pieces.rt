//! Texts that come in pieces.
ghost use Rattle.std.specs.Prelude.{◌≡◌, false};

use super::texts::{Named, Told, tells};
use crate::pieces::{Pieces, hear, hear_in_threads};
use gl_std::{Heard, ReadFault, StdKind};
use gl_worked::ops::Op::{Acq, Rel};
use std::alloc::Global;
use std::thread::Threads;

// What is heard of a text.
#[derive(Clone, Copy)]
enum Wanted {
    Tells(Told),
    Bad(u64, StdKind),
}

// A text that is read in pieces of each of these sizes in turn, and then fails or ends: whether it was read
// whole, and what is heard of it.
#[derive(Clone, Copy)]
struct Case {
    name: &'static str,
    text: &'static [u8],
    pieces: &'static [usize],
    fails: bool,
    is_whole: bool,
    wanted: Wanted,
}

const CASES: &[Case] = &[
    Case {
        name: "pieces_are_joined",
        text: b"T0|acq(a)|1\r\nT0|acq(b)|2\nT1|r(x)|3\n\nT0|rel(b)|4",
        pieces: &[1, 7, 1_000],
        fails: false,
        is_whole: true,
        wanted: Wanted::Tells(Told {
            lists: &[&[Acq(0, 0), Acq(1, 1), Rel(1, 2)]],
            counts: (1, 2, 3),
            dropped: (1, 0),
            names: &[Named::Loc(b"1", Some(0))],
        }),
    },
    Case {
        name: "lines_before_a_failed_read",
        text: b"T0|acq(a)|1\nT0",
        pieces: &[5],
        fails: true,
        is_whole: false,
        wanted: Wanted::Tells(Told {
            lists: &[&[Acq(0, 0)]],
            counts: (1, 1, 1),
            dropped: (0, 0),
            names: &[],
        }),
    },
    Case {
        name: "only_ended_lines_are_judged",
        text: b"T0|acq(a)|1\nT0",
        pieces: &[5],
        fails: false,
        is_whole: true,
        wanted: Wanted::Bad(2, StdKind::NoBar),
    },
    Case {
        name: "reading_goes_on_after_a_fault",
        text: b"\nT0|acq(a)\n|acq(a)|1\nT0|acq(a)|1\n",
        pieces: &[6],
        fails: false,
        is_whole: true,
        wanted: Wanted::Bad(2, StdKind::NoLocation),
    },
];

// Whether this is heard.
fn is_heard(heard: &Heard, is_whole: bool, wanted: &Wanted) -> bool {
    if heard.is_whole != is_whole {
        return false;
    }
    match (&heard.trace, wanted) {
        (Ok(trace), Wanted::Tells(told)) => tells(trace, told),
        (Err(fault), Wanted::Bad(line, kind)) => {
            *fault
                == ReadFault::Line {
                    line: *line,
                    kind: *kind,
                }
        }
        _ => false,
    }
}

// Whether this is heard of the text in pieces of so many bytes, by one thread, and all of it was read.
fn is_heard_alone(alloc: Global, case: &Case, piece: usize) -> bool {
    let mut input = Pieces::new(case.text, piece, case.fails);
    match hear(alloc, &mut input, 100) {
        Ok(heard) => is_heard(&heard, case.is_whole, &case.wanted) && input.rest.is_empty(),
        Err(_) => false,
    }
}

// The same by three.
fn is_heard_in_threads<T: Threads + Sync>(
    rt: &T,
    alloc: Global,
    case: &Case,
    piece: usize,
) -> bool {
    let mut input = Pieces::new(case.text, piece, case.fails);
    match hear_in_threads(rt, alloc, &mut input, 100) {
        Ok(heard) => is_heard(&heard, case.is_whole, &case.wanted) && input.rest.is_empty(),
        Err(_) => false,
    }
}

// Both, whichever of these pieces it is read in.
fn is_heard_in_each<T: Threads + Sync>(rt: &T, alloc: Global, case: &Case) -> bool {
    for piece in case.pieces {
        if !is_heard_alone(alloc, case, *piece) || !is_heard_in_threads(rt, alloc, case, *piece) {
            return false;
        }
    }
    true
}

#[test]
fn pieces(rt: HostRuntime) {
    for case in CASES {
        assert!(rt; is_heard_in_each(&rt, rt.alloc(), case), "{}", case.name);
    }
}

// A text of 1,200,000 bytes and 100,000 lines, and then this line.
fn long_text(alloc: Global, last: &[u8]) -> Option<Vec<u8>> {
    let mut text = Vec::new(alloc);
    for _ in 0..50_000 {
        text.extend_from_slice(b"T0|acq(a)|1\nT0|rel(a)|2\n").ok()?;
    }
    text.extend_from_slice(last).ok()?;
    Some(text)
}

// How many events the trace's only thread has.
fn events_heard(heard: &Heard) -> Option<usize> {
    match &heard.trace {
        Ok(trace) => {
            let lists = trace.lists.as_slice();
            if lists.len() != 1 {
                return None;
            }
            Some(lists[0].len())
        }
        Err(_) => None,
    }
}

// What is heard in three threads of a text, of which many bytes are read at a time.
fn heard_of<T: Threads + Sync>(rt: &T, alloc: Global, text: &[u8], fails: bool) -> Option<Heard> {
    let mut input = Pieces::new(text, 65_536, fails);
    hear_in_threads(rt, alloc, &mut input, 100).ok()
}

// Whether so many events are heard.
fn has_events(heard: Option<Heard>, is_whole: bool, events: usize) -> bool {
    match heard {
        Some(heard) => heard.is_whole == is_whole && events_heard(&heard) == Some(events),
        None => false,
    }
}

// A text that is cut in several pieces, in the midst of lines.
#[test]
fn more_than_one_piece(rt: HostRuntime) {
    let text = long_text(rt.alloc(), b"T0|acq(a)|1").expect(&rt, "memory");
    assert!(rt; has_events(heard_of(&rt, rt.alloc(), &text, false), true, 100_001));
    assert!(rt; has_events(heard_of(&rt, rt.alloc(), &text, true), false, 100_000));
}

// Whether this is heard of the whole text.
fn is_wanted(heard: Option<Heard>, wanted: &Wanted) -> bool {
    match heard {
        Some(heard) => is_heard(&heard, true, wanted),
        None => false,
    }
}

#[test]
fn fault_in_a_later_piece(rt: HostRuntime) {
    let text = long_text(rt.alloc(), b"T0|acq(a)\nT0\n").expect(&rt, "memory");
    let wanted = Wanted::Bad(100_001, StdKind::NoLocation);
    assert!(rt; is_wanted(heard_of(&rt, rt.alloc(), &text, false), &wanted));
}

// A text that two reads give; a third one meets the end. So many turns, how many of them read it, and whether it was
// read whole.
const TURNS: &[(u64, u64, bool)] = &[(0, 0, false), (2, 2, false), (3, 3, true), (9, 3, true)];

fn two_reads() -> Pieces<'static>
    ensures { result.is_failed ≡ false }
{
    Pieces::new(b"T0|acq(a)|1\n", 6, false)
}

// How many of so many turns read the text, and whether it was read whole.
fn reads_of(alloc: Global, turns: u64) -> Option<(u64, bool)> {
    let mut input = two_reads();
    let heard = hear(alloc, &mut input, turns.min(100)).ok()?;
    Some((input.reads, heard.is_whole))
}

// The same in three threads.
fn reads_in_threads<T: Threads + Sync>(rt: &T, alloc: Global, turns: u64) -> Option<(u64, bool)> {
    let mut input = two_reads();
    let heard = hear_in_threads(rt, alloc, &mut input, turns.min(100)).ok()?;
    Some((input.reads, heard.is_whole))
}

#[test]
fn turns_used_up(rt: HostRuntime) {
    for (turns, reads, is_whole) in TURNS {
        let wanted = Some((*reads, *is_whole));
        assert!(rt; reads_of(rt.alloc(), *turns) == wanted, "{turns} turns");
        assert!(rt;
            reads_in_threads(&rt, rt.alloc(), *turns) == wanted,
            "{turns} turns in threads"
        );
    }
}
