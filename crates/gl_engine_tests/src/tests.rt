//! Sessions, in one thread and in two.
mod settling;
mod steps;
mod worlds;

use crate::asking::{Asked, opened};
use gl_cycles::{Report, ReportFault};
use gl_engine::{CloseFault, Pulled, Receipt, RecordFault, Recorder};
use gl_event::{Event, Limits, Refusal};
use gl_filters::{Mode, Query};
use gl_worked::ops::Op::{self, Acq, Rel};
use gl_worked::ops::{event_of, events_of};
use std::alloc::Global;
use std::process::Abort;
use std::sync::Wait;
use std::thread;
use std::thread::Threads;
use steps::{Answer, CASES, Case, Step};

// The recorders and the collector of a session with these limits. Nothing is told of it, so that little is
// known where it is looked at; so it is with what follows.
fn session(alloc: Global, threads: u32, ring: u32, events: u32) -> Option<(Vec<Recorder>, Asked)> {
    match Limits::new(threads, ring, events, 100) {
        Ok(limits) => opened(alloc, &limits),
        Err(_) => None,
    }
}

// The answer to the event.
fn answer_of(event: &Event, answer: Answer) -> Result<u32, RecordFault> {
    match answer {
        Answer::Taken(place) => Ok(place),
        Answer::NotHeld => Err(RecordFault::Refused(Refusal::NotHeld)),
        Answer::Full => Err(RecordFault::Full(*event)),
    }
}

// Whether the recorder answers so to the event, and has taken so many then.
fn answers(
    recorder: &mut Recorder,
    event: &Event,
    wanted: &Result<u32, RecordFault>,
    taken: u32,
) -> bool {
    let answer = recorder.record(*event);
    answer == *wanted && recorder.taken() == taken
}

// Whether the last recorder answers so to the event, and has taken so many then.
fn last_answers(recorders: &mut Vec<Recorder>, op: Op, answer: Answer, taken: u32) -> bool {
    let event = event_of(op);
    let wanted = answer_of(&event, answer);
    match recorders.last_mut() {
        Some(recorder) => answers(recorder, &event, &wanted, taken),
        None => false,
    }
}

// What the last recorder answers where it closes.
fn last_closes(recorders: &mut Vec<Recorder>) -> Option<Result<Receipt, CloseFault>> {
    match recorders.pop() {
        Some(recorder) => Some(recorder.close()),
        None => None,
    }
}

// Whether the lane was full. The recorder is handed back then.
fn is_full(recorders: &mut Vec<Recorder>, answer: Option<Result<Receipt, CloseFault>>) -> bool {
    match answer {
        Some(Err(CloseFault::Full(recorder))) => recorders.push(recorder).is_ok(),
        _ => false,
    }
}

// Whether it is a receipt of this session and so many events.
fn is_closed(answer: Option<Result<Receipt, CloseFault>>, session: u64, taken: u32) -> bool {
    match answer {
        Some(Ok(receipt)) => receipt.session() == session && receipt.taken() == taken,
        _ => false,
    }
}

// Whether so many events had been taken that the collector didn't confirm.
fn is_unconfirmed(answer: Option<Result<Receipt, CloseFault>>, wanted: u32) -> bool {
    match answer {
        Some(Err(CloseFault::Unconfirmed { taken, .. })) => taken == wanted,
        _ => false,
    }
}

// Drops the last recorder. Whether there was one.
fn last_dropped(recorders: &mut Vec<Recorder>) -> bool {
    recorders.pop().is_some()
}

// Drops the collector. Whether there was one.
fn dropped(collector: &mut Option<Asked>) -> bool {
    collector.take().is_some()
}

// Whether this is the thread's next note.
fn pulls(collector: &mut Option<Asked>, thread: u32, wanted: Pulled) -> bool {
    match collector {
        Some(asked) => asked.pull(thread) == Some(Ok(wanted)),
        None => false,
    }
}

// Whether these are the first thread's collected events, and so many notes were collected in all.
fn has_collected(collector: &Asked, events: &[Event], notes: usize) -> bool {
    collector.log(0) == Some(events) && collector.notes() == notes
}

// Whether these are the first thread's collected events, as constants tell them, and so many notes were collected in
// all.
fn collected(collector: &Option<Asked>, alloc: Global, ops: &[Op], notes: usize) -> bool {
    match (collector, events_of(alloc, ops)) {
        (Some(asked), Some(events)) => has_collected(asked, events.as_slice(), notes),
        _ => false,
    }
}

// How many cycles are in the report, and whether there are more.
fn cycles_in(report: Result<Report, ReportFault>) -> Option<(usize, bool)> {
    match report {
        Ok(report) => Some((report.found.cycles.as_slice().len(), report.found.more)),
        Err(_) => None,
    }
}

// How many cycles are reported of what was collected so far, and whether there are more.
fn cycles_so_far(collector: &Asked) -> Option<(usize, bool)> {
    match Query::new(Mode::Full, 4, 1_000) {
        Ok(query) => cycles_in(collector.report_so_far(&query)),
        Err(_) => None,
    }
}

// Whether so many cycles are reported of what was collected so far, and more.
fn reports(collector: &Option<Asked>, cycles: usize, more: bool) -> bool {
    match collector {
        Some(asked) => cycles_so_far(asked) == Some((cycles, more)),
        None => false,
    }
}

// Whether the step is answered so.
fn is_answered(
    recorders: &mut Vec<Recorder>,
    collector: &mut Option<Asked>,
    alloc: Global,
    step: Step,
) -> bool {
    match step {
        Step::Record(op, answer, taken) => last_answers(recorders, op, answer, taken),
        Step::DropRecorder => last_dropped(recorders),
        Step::CloseFull => {
            let answer = last_closes(recorders);
            is_full(recorders, answer)
        }
        Step::Close(session, taken) => is_closed(last_closes(recorders), session, taken),
        Step::CloseUnconfirmed(taken) => is_unconfirmed(last_closes(recorders), taken),
        Step::DropCollector => dropped(collector),
        Step::Pull(thread, wanted) => pulls(collector, thread, wanted),
        Step::Collected(ops, notes) => collected(collector, alloc, ops, notes),
        Step::Report(cycles, more) => reports(collector, cycles, more),
    }
}

// Whether each step is answered so.
fn are_answered(
    recorders: &mut Vec<Recorder>,
    collector: &mut Option<Asked>,
    alloc: Global,
    steps: &[Step],
) -> bool {
    for step in steps {
        if !is_answered(recorders, collector, alloc, *step) {
            return false;
        }
    }
    true
}

// Whether the session is made and each step answered so.
fn passes(alloc: Global, case: &Case) -> bool {
    match session(alloc, case.threads, case.ring, 100) {
        Some((mut recorders, collector)) => {
            let mut collector = Some(collector);
            are_answered(&mut recorders, &mut collector, alloc, case.steps)
        }
        None => false,
    }
}

fn expect<R: Abort + AllocGlobal>(rt: &R, case: &Case) {
    assert!(rt; passes(rt.alloc(), case), "{}", case.name);
}

#[test]
fn sessions_stepped(rt: HostRuntime) {
    for case in CASES {
        expect(&rt, case);
    }
}

// How often a thread tries a call again, at most.
const TRIES: u32 = 10_000_000;

// How many events one thread records and another one collects.
const EVENTS: u32 = 10_000;

// The lock is acquired and released in turn.
fn event_at(place: u32) -> Event {
    if place % 2 == 0 {
        event_of(Acq(0, 1))
    } else {
        event_of(Rel(0, 2))
    }
}

// Records the event as soon as there is room for it. Whether there was.
fn record_soon(recorder: &mut Recorder, event: &Event) -> bool {
    for _ in 0..TRIES {
        if recorder.record(*event).is_ok() {
            return true;
        }
        thread::yield_now();
    }
    false
}

// Closes the recorder as soon as there is room for its end mark.
fn close_soon(recorder: Recorder) -> Option<Receipt> {
    let mut recorder = recorder;
    for _ in 0..TRIES {
        recorder = match recorder.close() {
            Ok(receipt) => return Some(receipt),
            Err(CloseFault::Full(back)) => back,
            Err(CloseFault::Unconfirmed { .. }) => return None,
        };
        thread::yield_now();
    }
    None
}

fn record_all(recorder: Recorder) -> Option<Receipt> {
    let mut recorder = recorder;
    for place in 0..EVENTS {
        if !record_soon(&mut recorder, &event_at(place)) {
            return None;
        }
    }
    close_soon(recorder)
}

// Pulls the next note of the thread as soon as there is one.
fn pull_soon(collector: &mut Asked, number: u32) -> Option<Pulled> {
    for _ in 0..TRIES {
        match collector.pull(number)?.ok()? {
            Pulled::Empty => thread::yield_now(),
            pulled => return Some(pulled),
        }
    }
    None
}

// Pulls the events and the end mark. Whether they came in their order.
fn pull_all(collector: &mut Asked) -> bool {
    for place in 0..EVENTS {
        if pull_soon(collector, 0) != Some(Pulled::Event { place }) {
            return false;
        }
    }
    pull_soon(collector, 0) == Some(Pulled::Ended { count: EVENTS })
}

// Whether the log has the events in their order, and no more.
fn has_all(log: &[Event]) -> bool {
    let mut place = 0;
    for event in log {
        if place >= EVENTS || *event != event_at(place) {
            return false;
        }
        place += 1;
    }
    place == EVENTS
}

// The recorder and the collector of a session of one thread.
fn only(session: Option<(Vec<Recorder>, Asked)>) -> Option<(Recorder, Asked)> {
    match session {
        Some((mut recorders, collector)) => match recorders.pop() {
            Some(recorder) => Some((recorder, collector)),
            None => None,
        },
        None => None,
    }
}

// How many events one running thread records, and whether another one collects all in their order.
fn recorded_and_pulled<R: Threads + Sync>(
    rt: &R,
    recorder: Recorder,
    collector: &mut Asked,
) -> (Option<u32>, bool) {
    thread::join(
        rt,
        move || taken_by(record_all(recorder)),
        || pull_all(collector),
    )
}

// How many events the receipt is of.
fn taken_by(receipt: Option<Receipt>) -> Option<u32> {
    match receipt {
        Some(receipt) => Some(receipt.taken()),
        None => None,
    }
}

// Whether the thread's log has the events in their order, and no more.
fn has_log(collector: &Asked) -> bool {
    match collector.log(0) {
        Some(log) => has_all(log),
        None => false,
    }
}

fn expect_all<R: Abort + Threads + Sync>(rt: &R, recorder: Recorder, collector: Asked) {
    let mut collector = collector;
    let (taken, in_order) = recorded_and_pulled(rt, recorder, &mut collector);
    assert!(rt; taken == Some(EVENTS), "every event was recorded");
    assert!(rt; in_order);
    assert!(rt; has_log(&collector));
}

// Two running threads, with a lane of one note between them, and room for all events.
#[test]
fn ten_thousand_events(rt: HostRuntime) {
    let (recorder, collector) = only(session(rt.alloc(), 1, 1, EVENTS)).expect(&rt, "a session");
    expect_all(&rt, recorder, collector);
}

// Records the events, waiting for room, and closes.
fn record_and_close<R: Wait>(rt: &R, recorder: Recorder, events: &[Op]) -> Option<Receipt> {
    let mut recorder = recorder;
    for event in events {
        if recorder.record_wait(rt, event_of(*event)).is_err() {
            return None;
        }
    }
    close_soon(recorder)
}

// Two running threads record two locks in opposite orders, and close. Whether both did.
fn record_opposite<R: Threads + Wait + Sync>(rt: &R, first: Recorder, second: Recorder) -> bool {
    let (one, other) = thread::join(
        rt,
        move || record_and_close(rt, first, &[Acq(0, 1), Acq(1, 2)]),
        move || record_and_close(rt, second, &[Acq(1, 3), Acq(0, 4)]),
    );
    one.is_some() && other.is_some()
}

// Pulls the thread's notes until its end mark came. Whether it came.
fn pulls_to_end(collector: &mut Asked, number: u32) -> bool {
    for _ in 0..TRIES {
        match collector.pull(number) {
            Some(Ok(Pulled::Ended { .. })) => return true,
            Some(Ok(Pulled::Event { .. })) => {}
            Some(Ok(Pulled::Empty)) => thread::yield_now(),
            _ => return false,
        }
    }
    false
}

fn pull_both(collector: &mut Asked) -> bool {
    pulls_to_end(collector, 1) && pulls_to_end(collector, 0)
}

// Two running threads record with the last two recorders. Whether both did.
fn both_record<R: Threads + Wait + Sync>(rt: &R, recorders: Vec<Recorder>) -> bool {
    let mut recorders = recorders;
    match (recorders.pop(), recorders.pop()) {
        (Some(second), Some(first)) => record_opposite(rt, first, second),
        _ => false,
    }
}

// Whether both threads recorded, and all was collected.
fn recorded_and_collected<R: Threads + Wait + Sync>(
    rt: &R,
    recorders: Vec<Recorder>,
    collector: &mut Asked,
) -> (bool, bool) {
    thread::join(
        rt,
        move || both_record(rt, recorders),
        || pull_both(collector),
    )
}

fn expect_opposite<R: Abort + Threads + Wait + Sync>(
    rt: &R,
    recorders: Vec<Recorder>,
    collector: Asked,
) {
    let mut collector = collector;
    let (recorded, collected) = recorded_and_collected(rt, recorders, &mut collector);
    assert!(rt; recorded && collected);
    assert!(rt; cycles_so_far(&collector) == Some((1, false)));
}

// A whole session: two running threads that take two locks in opposite orders, while a third one
// collects what they record and then reports it.
#[test]
fn opposite_order(rt: HostRuntime) {
    let (recorders, collector) = session(rt.alloc(), 2, 1, 100).expect(&rt, "a session");
    expect_opposite(&rt, recorders, collector);
}
