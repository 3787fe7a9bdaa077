//! Sessions of two threads that take two locks in opposite orders, settled on one thread.
use super::{OPPOSITE, counts_in};
use crate::alone::{Unrun, unrun_of};
use crate::closing::Why;
use crate::sessions::receipt_of;
use gl_engine::Settled;
use gl_filters::{Mode, Query};
use std::alloc::Global;
use std::process::Abort;

// What is done with a session.
#[derive(Clone, Copy)]
enum Step {
    // all notes of the thread of this number are pulled
    Pull(u32),
    // it isn't settled with a receipt of another session beside its own, without its last receipt, or with its own,
    // and is then as it was
    WithForeign(Why),
    WithoutLast(Why),
    Unsettled(Why),
}

// A session, what is done with it, and how many edges and cycles it has then.
#[derive(Clone, Copy)]
struct Case {
    name: &'static str,
    steps: &'static [Step],
    edges: usize,
    cycles: usize,
}

const CASES: &[Case] = &[
    // All is pulled and each thread's receipt is there: the edges of both threads, and their cycle.
    Case {
        name: "settled_alone",
        steps: &[Step::Pull(0), Step::Pull(1)],
        edges: 2,
        cycles: 1,
    },
    // While the second thread's end mark isn't pulled, that is missing, and first its receipt where that isn't
    // there, and first of all a receipt of another session is strange. Each time the session is as it was: once
    // the end mark is pulled, it is settled.
    Case {
        name: "unsettled_first",
        steps: &[
            Step::Pull(0),
            Step::WithForeign(Why::Strange(2)),
            Step::WithoutLast(Why::Missing(1)),
            Step::Unsettled(Why::Unended(1)),
            Step::Pull(1),
        ],
        edges: 2,
        cycles: 1,
    },
];

// The session as it was, where it wasn't settled for this reason.
fn handed_back(answer: Option<(Why, Unrun)>, wanted: Why) -> Option<Unrun> {
    let (why, session) = answer?;
    if why == wanted { Some(session) } else { None }
}

// The session, of which all notes of the thread were pulled.
fn pulled(session: Unrun, number: u32) -> Unrun {
    let mut session = session;
    session.pull(number);
    session
}

// The session after the step.
fn stepped(session: Unrun, alloc: Global, step: Step) -> Option<Unrun> {
    match step {
        Step::Pull(number) => Some(pulled(session, number)),
        Step::WithForeign(why) => handed_back(session.with_foreign(receipt_of(alloc, 8)?), why),
        Step::WithoutLast(why) => handed_back(session.without_last(), why),
        Step::Unsettled(why) => handed_back(session.unsettled(), why),
    }
}

// The lists of the session, where each step is answered as it is wanted.
fn settled(alloc: Global, steps: &[Step]) -> Option<Settled> {
    let mut session = unrun_of(alloc, OPPOSITE)?;
    for step in steps {
        session = stepped(session, alloc, *step)?;
    }
    session.settled()
}

// How many edges and cycles are reported. None where there are more cycles.
fn counts(settled: &Settled) -> Option<(usize, usize)> {
    match Query::new(Mode::Full, 4, 1_000) {
        Ok(query) => counts_in(settled.report_alone(&query)),
        Err(_) => None,
    }
}

fn expect<R: Abort + AllocGlobal>(rt: &R, case: &Case) {
    let lists = settled(rt.alloc(), case.steps).expect(rt, case.name);
    assert!(rt;
        counts(&lists) == Some((case.edges, case.cycles)),
        "{}",
        case.name
    );
}

#[test]
fn settled_alone(rt: HostRuntime) {
    for case in CASES {
        expect(&rt, case);
    }
}
