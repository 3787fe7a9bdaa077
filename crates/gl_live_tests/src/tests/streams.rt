//! Sessions over texts, which are recorded as they are read.
ghost use Rattle.std.specs.Prelude.{◌≡◌, ◌≤◌, false};
ghost use Rattle.gl_event.specs.declared.limits.TheConstants.{MAX_RING, MAX_THREADS};
ghost use Rattle.gl_io.specs.Positions.{untold};
ghost use Rattle.gl_live.specs.Streamed.{IsUnread};
ghost use Rattle.gl_shards.specs.declared.shard.TheConstants.{MAX_SHARDS};
ghost use Rattle.gl_std.specs.Streaming.{CanBeAsked};

use super::lists::reported;
use super::wanted::{Listed, TWO_EDGES, Wanted, is_wanted, query_for};
use crate::unread::unread_items;
use gl_cycles::Report;
use gl_event::{MAX_RING, MAX_THREADS};
use gl_filters::Query;
use gl_findings::Contents;
use gl_io::FromStd;
use gl_live::{LiveFault, StreamFault, StreamOptions, stream_report, stream_report_with};
use gl_shards::{Gate, MAX_SHARDS, Open};
use gl_std::{Failed, Items, LinesFault, Source, StdKind};
use gl_worked::meeting::Meeting;
use gl_worked::ops::Op::{self, Acq, Rel};
use gl_worked::ops::lists_of;
use gl_worked::rings::is_ring;
use std::process::Abort;
use std::sync::Wait;
use std::thread::Threads;

// The first thread takes a and b, and releases both; the second takes b and then a.
const OPPOSITE_ORDER: &[u8] =
    b"T0|acq(a)|1\nT0|acq(b)|2\nT0|rel(b)|3\nT0|rel(a)|4\nT1|acq(b)|5\nT1|acq(a)|6\n";

// The events of that text.
const OPPOSITE_LISTS: &[&[Op]] = &[
    &[Acq(0, 0), Acq(1, 1), Rel(1, 2), Rel(0, 3)],
    &[Acq(1, 4), Acq(0, 5)],
];

// Two threads join one another.
const JOIN_LOOP: &[u8] = b"T0|join(T1)|1\nT1|join(T0)|2\n";

// Two threads take a and then b, at the same places; two others take b and then a.
const CROSSED: &[u8] = b"T0|acq(a)|1\nT0|acq(b)|2\nT0|rel(b)|3\nT0|rel(a)|4\n\
    T1|acq(a)|1\nT1|acq(b)|2\nT1|rel(b)|3\nT1|rel(a)|4\n\
    T2|acq(b)|5\nT2|acq(a)|6\nT2|rel(a)|7\nT2|rel(b)|8\n\
    T3|acq(b)|5\nT3|acq(a)|6\nT3|rel(a)|7\nT3|rel(b)|8\n";

// What becomes of a text.
#[derive(Clone, Copy)]
enum End {
    Report(Wanted),
    Fault(LinesFault),
    // each of these segments is before the next one round
    Ring(&'static [(u32, u32)]),
}

// A text, how many threads it may name, with which contents a report is asked for, where that is told, and what
// becomes of it: by three workers, and rings of one note.
#[derive(Clone, Copy)]
struct Case {
    name: &'static str,
    text: &'static [u8],
    threads: u32,
    contents: Option<Contents>,
    end: End,
}

const CASES: &[Case] = &[
    // The first line of the second thread is the fifth.
    Case {
        name: "one_thread_too_few",
        text: OPPOSITE_ORDER,
        threads: 1,
        contents: None,
        end: End::Fault(LinesFault::Line {
            line: 5,
            kind: StdKind::TooManyThreads,
        }),
    },
    // The line after an edge has no operand: it is told, and not the one after it, which has no bar.
    Case {
        name: "fault_after_an_edge",
        text: b"T0|acq(a)|1\nT0|acq(b)|2\nT0|acq|3\nT0\n",
        threads: 64,
        contents: None,
        end: End::Fault(LinesFault::Line {
            line: 3,
            kind: StdKind::BadOperand,
        }),
    },
    // A text of no lines has no events, whatever lanes there are.
    Case {
        name: "no_lines",
        text: b"",
        threads: 64,
        contents: None,
        end: End::Report(Wanted {
            edges: 0,
            cycles: Listed::Count(0),
            more: false,
            trim: None,
        }),
    },
    // Two threads join one another: what each does afterwards is before itself.
    Case {
        name: "joined_by_each_other",
        text: JOIN_LOOP,
        threads: 64,
        contents: None,
        end: End::Ring(&[(0, 1), (1, 1)]),
    },
    // There is no order, and so there are no findings.
    Case {
        name: "joined_by_each_other, findings",
        text: JOIN_LOOP,
        threads: 64,
        contents: Some(Contents::Findings),
        end: End::Ring(&[(0, 1), (1, 1)]),
    },
    // The text's four cycles are one finding.
    Case {
        name: "crossed_in_a_text",
        text: CROSSED,
        threads: 64,
        contents: Some(Contents::CyclesAndTrim),
        end: End::Report(Wanted {
            edges: 4,
            cycles: Listed::These(&[&[0, 2], &[0, 3], &[1, 2], &[1, 3]]),
            more: false,
            trim: None,
        }),
    },
    Case {
        name: "crossed_in_a_text, findings",
        text: CROSSED,
        threads: 64,
        contents: Some(Contents::Findings),
        end: End::Report(Wanted {
            edges: 4,
            cycles: Listed::These(&[&[0, 2]]),
            more: false,
            trim: None,
        }),
    },
];

// What `stream_report` answers, of which nothing is told: what is asked then stands among few facts, and the prover
// takes it quickly. So it is with the next one.
fn run_plain<R: AllocGlobal + Threads + Wait + Sync, S: Source, G: Gate + Sync>(
    rt: &R,
    items: Items,
    input: &mut S,
    options: &StreamOptions,
    query: &Query,
    gate: &G,
) -> (Result<Report, StreamFault>, Items)
    requires usable { CanBeAsked items (S.failed input.old) }
    requires unread { IsUnread options.now.threads (S.position input.old)
        (S.failed input.old) items }
    requires some_thread { 1 ≤ options.now.threads }
    requires threads_fit { options.now.threads ≤ MAX_THREADS }
    requires some_shard { 1 ≤ options.now.shards }
    requires shards_fit { options.now.shards ≤ MAX_SHARDS }
    requires some_ring { 1 ≤ options.now.ring }
    requires ring_fits { options.now.ring ≤ MAX_RING }
{
    stream_report(rt, rt.alloc(), items, input, options, query, gate)
}

// What `stream_report_with` answers, for a text that names 64 threads at the most, by three workers and rings of one
// note.
fn run_with<R: AllocGlobal + Threads + Wait + Sync, S: Source>(
    rt: &R,
    items: Items,
    input: &mut S,
    contents: Contents,
    query: &Query,
) -> (Result<Report, StreamFault>, Items)
    requires usable { CanBeAsked items (S.failed input.old) }
    requires unread { IsUnread 64 (S.position input.old) (S.failed input.old) items }
{
    let options = StreamOptions {
        threads: 64,
        shards: 3,
        ring: 1,
    };
    stream_report_with(
        rt,
        rt.alloc(),
        items,
        input,
        &options,
        contents,
        query,
        &Open,
    )
}

// What becomes of the text of a source, and its items, by a session with so many lanes, workers, and notes in a ring.
fn streamed<R: AllocGlobal + Threads + Wait + Sync, S: Source, G: Gate + Sync>(
    rt: &R,
    input: &mut S,
    numbers: (u32, u32, u32),
    gate: &G,
) -> Option<(Result<Report, StreamFault>, Items)>
    requires { S.failed input.old ≡ false }
{
    let (threads, shards, ring) = numbers;
    if threads == 0
        || threads > MAX_THREADS
        || shards == 0
        || shards > MAX_SHARDS
        || ring == 0
        || ring > MAX_RING
    {
        return None;
    }
    let items = unread_items(rt.alloc(), threads)?;
    let query = query_for(1_000)?;
    let options = StreamOptions {
        threads,
        shards,
        ring,
    };
    Some(run_plain(rt, items, input, &options, &query, gate))
}

// The same with these contents.
fn streamed_with<R: AllocGlobal + Threads + Wait + Sync>(
    rt: &R,
    text: &[u8],
    contents: Contents,
) -> Option<Result<Report, StreamFault>> {
    let items = unread_items(rt.alloc(), 64)?;
    let query = query_for(1_000)?;
    let mut input = FromStd::new(text);
    let (result, _items) = run_with(rt, items, &mut input, contents, &query);
    Some(result)
}

// The same without contents, and so many threads.
fn of_text<R: AllocGlobal + Threads + Wait + Sync>(
    rt: &R,
    text: &[u8],
    threads: u32,
) -> Option<Result<Report, StreamFault>> {
    let mut input = FromStd::new(text);
    match streamed(rt, &mut input, (threads, 3, 1), &Open) {
        Some((result, _items)) => Some(result),
        None => None,
    }
}

fn ended<R: AllocGlobal + Threads + Wait + Sync>(
    rt: &R,
    case: &Case,
) -> Option<Result<Report, StreamFault>> {
    match case.contents {
        Some(contents) => streamed_with(rt, case.text, contents),
        None => of_text(rt, case.text, case.threads),
    }
}

// Whether it is as it is wanted.
fn is_end(ended: &Result<Report, StreamFault>, wanted: &End) -> bool {
    match (ended, wanted) {
        (Ok(report), End::Report(wanted)) => is_wanted(report, wanted),
        (Err(StreamFault::Text(fault)), End::Fault(wanted)) => *fault == *wanted,
        (Err(StreamFault::Session(LiveFault::Inconsistent { at, ring })), End::Ring(wanted)) => {
            is_ring(at, ring, wanted)
        }
        _ => false,
    }
}

// Whether there is a session, and it ends so.
fn is_right(ended: Option<Result<Report, StreamFault>>, wanted: &End) -> bool {
    match ended {
        Some(ended) => is_end(&ended, wanted),
        None => false,
    }
}

#[test]
fn ends_of_texts(rt: HostRuntime) {
    for case in CASES {
        assert!(rt; is_right(ended(&rt, case), &case.end), "{}", case.name);
    }
}

// The edges, the cycles, and what is said of more of them are the same.
fn are_alike(one: &Report, other: &Report) -> bool {
    one.edges.entries() == other.edges.entries()
        && one.found.cycles.as_slice() == other.found.cycles.as_slice()
        && one.found.more == other.found.more
}

// Whether the text's report is as wanted, and that of its lists.
fn is_as_live(streamed: Option<Result<Report, StreamFault>>, live: Option<Report>) -> bool {
    match (streamed, live) {
        (Some(Ok(report)), Some(live)) => {
            is_wanted(&report, &TWO_EDGES) && are_alike(&report, &live)
        }
        _ => false,
    }
}

// A lane for each thread of the text; and lanes that no line mentions, which change nothing.
#[test]
fn streamed_as_live(rt: HostRuntime) {
    let lists = lists_of(rt.alloc(), OPPOSITE_LISTS).expect(&rt, "memory");
    for threads in [2, 64] {
        let live = reported(&rt, &lists, (2, 3, 1), &Open);
        let report = of_text(&rt, OPPOSITE_ORDER, threads);
        assert!(rt; is_as_live(report, live), "{threads} lanes");
    }
}

// Whether the items have told so many threads, locks and locations, skipped lines and stray releases.
fn have_told(items: Items, names: (u32, u32, u32), others: (u64, u64)) -> bool {
    let (found, skipped, stray) = items.parts();
    (found.threads(), found.locks(), found.locs()) == names && (skipped, stray) == others
}

// The items come back with the names that they told.
#[test]
fn names_come_back(rt: HostRuntime) {
    let mut input = FromStd::new(OPPOSITE_ORDER);
    let (_result, items) = streamed(&rt, &mut input, (64, 1, 1), &Open).expect(&rt, "a session");
    assert!(rt; have_told(items, (2, 2, 6), (0, 0)));
}

// Gives its text, and then fails, or ends once both workers have passed their gate.
#[derive(Drop)]
struct HeldBack<'a> {
    rest: &'a [u8],
    gate: Option<&'a Meeting>,
    is_failed: bool,
}

impl<'a> HeldBack<'a> {
    fn new(rest: &'a [u8], gate: Option<&'a Meeting>) -> HeldBack<'a>
        ensures { result.is_failed ≡ false }
    {
        HeldBack {
            rest,
            gate,
            is_failed: false,
        }
    }

    // Whether the end may be told.
    fn may_end(&self) -> bool {
        match self.gate {
            Some(gate) => gate.is_passed(),
            None => false,
        }
    }
}

impl Source for HeldBack<'_> {
    ghost position = { λ _. untold };

    ghost failed = { λ s. s.is_failed };

    fn read(&mut self, buffer: &mut [u8]) -> Result<usize, Failed> {
        let count = self.rest.len().min(buffer.len());
        if count == 0 && !self.may_end() {
            self.is_failed = true;
            return Err(Failed);
        }
        buffer[..count].copy_from_slice(&self.rest[..count]);
        self.rest = &self.rest[count..];
        Ok(count)
    }
}

// What becomes of the text that the source gives, by a session of 64 lanes and two workers.
fn of_held<R: AllocGlobal + Threads + Wait + Sync, G: Gate + Sync>(
    rt: &R,
    input: HeldBack<'_>,
    ring: u32,
    gate: &G,
) -> Option<Result<Report, StreamFault>>
    requires { input.is_failed ≡ false }
{
    let mut input = input;
    match streamed(rt, &mut input, (64, 2, ring), gate) {
        Some((result, _items)) => Some(result),
        None => None,
    }
}

// Two workers are both at work before the text has ended, each on its first edge.
#[test]
fn reader_pair(rt: HostRuntime) {
    let gate = Meeting::new();
    let input = HeldBack::new(OPPOSITE_ORDER, Some(&gate));
    assert!(rt; is_right(of_held(&rt, input, 256, &gate), &End::Report(TWO_EDGES)));
    assert!(rt; gate.passes() == (1, 1, 0, 0));
}

// A read fails after a line that LF has ended.
#[test]
fn cut_while_streaming(rt: HostRuntime) {
    let input = HeldBack::new(b"T0|acq(a)|1\nT0", None);
    assert!(rt; is_right(of_held(&rt, input, 1, &Open), &End::Fault(LinesFault::Read)));
}
