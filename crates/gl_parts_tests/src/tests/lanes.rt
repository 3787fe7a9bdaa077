//! Notes through lanes, in one thread and in two.
ghost use Rattle.gl_lane.specs.Rule.{IsPlaced};

use super::expect;
use gl_event::{Body, Event, LocId, MAX_RING, Note, ThreadId};
use gl_lane::{LaneIn, LaneOut, lane};
use std::alloc::Global;
use std::process::Abort;
use std::thread;
use std::thread::Threads;

// A note of the thread, as constants tell it.
#[derive(Clone, Copy)]
enum Told {
    // an event at this place
    At(u32),
    // the end mark with this count
    End(u32),
}

// A call, and its answer.
#[derive(Clone, Copy)]
enum Call {
    // a note that is pushed
    Push(Told),
    // a note that is handed back
    Full(Told),
    // so many events, from place 0 on, which are pushed
    PushAll(u32),
    // the note that is popped
    Pop(Option<Told>),
    // so many events, from place 0 on, which are popped
    PopAll(u32),
    // the note that is oldest
    Peek(Option<Told>),
}

use Call::{Full, Peek, Pop, PopAll, Push, PushAll};
use Told::{At, End};

// Calls of both ends of a lane; and the notes that are left then.
#[derive(Clone, Copy)]
struct Case {
    name: &'static str,
    ring: u32,
    calls: &'static [Call],
    left: &'static [Told],
}

const CASES: &[Case] = &[
    // A full lane hands the note back, and has room again once its note is popped.
    Case {
        name: "ring_of_one",
        ring: 1,
        calls: &[
            Pop(None),
            Push(At(0)),
            Full(At(1)),
            Peek(Some(At(0))),
            Pop(Some(At(0))),
            Push(At(1)),
            Pop(Some(At(1))),
        ],
        left: &[],
    },
    // An end mark wants room as any note does, and can be popped after the recorder has finished.
    Case {
        name: "ring_of_one_ended",
        ring: 1,
        calls: &[Push(At(0)), Full(End(1)), Pop(Some(At(0))), Push(End(1))],
        left: &[End(1)],
    },
    Case {
        name: "greatest_ring",
        ring: MAX_RING,
        calls: &[
            PushAll(MAX_RING),
            Full(At(MAX_RING)),
            PopAll(MAX_RING),
            Pop(None),
        ],
        left: &[],
    },
];

// An event of the thread at this place.
fn event_at(place: u32) -> Note
    ensures { IsPlaced result }
{
    Note {
        thread: ThreadId::new(3),
        place,
        body: Body::Happened(Event::Fork {
            thread: ThreadId::new(4),
            loc: LocId::new(7),
        }),
    }
}

// The thread's end mark.
fn end_of(count: u32) -> Note
    ensures { IsPlaced result }
{
    Note {
        thread: ThreadId::new(3),
        place: count,
        body: Body::Ended { count },
    }
}

fn note_of(told: Told) -> Note
    ensures { IsPlaced result }
{
    match told {
        At(place) => event_at(place),
        End(count) => end_of(count),
    }
}

// How often a thread tries a push or a pop again, at most.
const TRIES: u32 = 10_000_000;

// Pushes the note as soon as there is room, and answers whether there was.
fn push_soon(recorder: &mut LaneIn, note: &Note) -> bool
    requires placed { IsPlaced note.now }
{
    for _ in 0..TRIES {
        if recorder.push(*note).is_ok() {
            return true;
        }
        thread::yield_now();
    }
    false
}

// Pops the next note as soon as there is one.
fn pop_soon(collector: &mut LaneOut) -> Option<Note> {
    for _ in 0..TRIES {
        if let Some(note) = collector.pop() {
            return Some(note);
        }
        thread::yield_now();
    }
    None
}

// Whether so many events are pushed, each as soon as there is room.
fn pushes(recorder: &mut LaneIn, count: u32) -> bool {
    for place in 0..count {
        if !push_soon(recorder, &event_at(place)) {
            return false;
        }
    }
    true
}

// Whether so many events are popped, each as soon as there is one.
fn pops(collector: &mut LaneOut, count: u32) -> bool {
    for place in 0..count {
        if pop_soon(collector) != Some(event_at(place)) {
            return false;
        }
    }
    true
}

// Whether the note is pushed, or else is handed back.
fn is_pushed(recorder: &mut LaneIn, told: Told, has_room: bool) -> bool {
    match recorder.push(note_of(told)) {
        Ok(()) => has_room,
        Err(back) => !has_room && back == note_of(told),
    }
}

// Whether there is a note, and it is this; or there is none.
fn is_note(note: Option<Note>, wanted: Option<Told>) -> bool {
    match (note, wanted) {
        (Some(note), Some(told)) => note == note_of(told),
        (None, None) => true,
        _ => false,
    }
}

// Whether the call is answered so.
fn answers(recorder: &mut LaneIn, collector: &mut LaneOut, call: &Call) -> bool {
    match *call {
        Push(told) => is_pushed(recorder, told, true),
        Full(told) => is_pushed(recorder, told, false),
        PushAll(count) => pushes(recorder, count),
        Pop(wanted) => is_note(collector.pop(), wanted),
        PopAll(count) => pops(collector, count),
        Peek(wanted) => is_note(collector.peek(), wanted),
    }
}

// Both ends answer each call as it is wanted.
fn expect_answers(rt: &impl Abort, recorder: &mut LaneIn, collector: &mut LaneOut, case: &Case) {
    for (at, call) in case.calls.iter().enumerate() {
        expect(rt, answers(recorder, collector, call), case.name, at);
    }
}

// Whether these notes are popped, and then none is left.
fn pops_left(collector: &mut LaneOut, left: &[Told]) -> bool {
    for told in left {
        if collector.pop() != Some(note_of(*told)) {
            return false;
        }
    }
    collector.peek().is_none()
}

// The two ends of a lane.
fn both_ends(alloc: Global, ring: u32) -> Option<(LaneIn, LaneOut)> {
    if ring == 0 || ring > MAX_RING {
        return None;
    }
    lane(alloc, ring).ok()
}

// Both ends of a lane answer as the case wants, and the recorder can finish while the collector is there: what it left
// is popped then.
fn expect_case(rt: &impl Abort, ends: (LaneIn, LaneOut), case: &Case) {
    let (mut recorder, mut collector) = ends;
    expect_answers(rt, &mut recorder, &mut collector, case);
    let is_left = recorder.finish().is_some() && pops_left(&mut collector, case.left);
    assert!(rt; is_left, "{}: left", case.name);
}

#[test]
fn lanes_answer(rt: HostRuntime) {
    for case in CASES {
        expect_case(
            &rt,
            both_ends(rt.alloc(), case.ring).expect(&rt, case.name),
            case,
        );
    }
}

// Whether a recorder is told that its collector is gone, and not before.
fn is_told(recorder: &mut LaneIn, collector: LaneOut) -> bool {
    let was_told = recorder.is_abandoned();
    drop(collector);
    !was_told && recorder.is_abandoned()
}

// Whether it can push then, and leaves nothing.
fn leaves_nothing(ends: (LaneIn, LaneOut)) -> bool {
    let (mut recorder, collector) = ends;
    is_told(&mut recorder, collector)
        && recorder.push(event_at(0)) == Ok(())
        && recorder.finish().is_none()
}

#[test]
fn nobody_left_to_collect(rt: HostRuntime) {
    assert!(rt; leaves_nothing(both_ends(rt.alloc(), 1).expect(&rt, "a lane")));
}

// How many events one thread pushes and another one pops.
const EVENTS: u32 = 10_000;

// Pushes the events and the end mark, and answers whether the pushing could be ended.
fn push_all(recorder: LaneIn) -> bool {
    let mut recorder = recorder;
    pushes(&mut recorder, EVENTS)
        && push_soon(&mut recorder, &end_of(EVENTS))
        && recorder.finish().is_some()
}

// Pops the events and the end mark, and answers whether they came in their order.
fn pop_all(collector: &mut LaneOut) -> bool {
    pops(collector, EVENTS) && pop_soon(collector) == Some(end_of(EVENTS))
}

// Whether the notes pass from one thread to another one, and none is left.
fn pass<R: Threads + Sync>(rt: &R, recorder: LaneIn, collector: &mut LaneOut) -> bool {
    let (are_pushed, in_order) = thread::join(
        rt,
        move || push_all(recorder),
        || pop_all(collector),
    );
    are_pushed && in_order && collector.peek().is_none()
}

#[test]
fn ten_thousand_events(rt: HostRuntime) {
    let (recorder, mut collector) = both_ends(rt.alloc(), 64).expect(&rt, "a lane");
    assert!(rt; pass(&rt, recorder, &mut collector));
}
