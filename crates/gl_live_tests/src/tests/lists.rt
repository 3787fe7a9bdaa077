//! Sessions over given lists.
ghost use Rattle.std.specs.Prelude.{◌≤◌, length};
ghost use Rattle.gl_event.specs.declared.limits.TheConstants.{MAX_RING};
ghost use Rattle.gl_shards.specs.declared.shard.TheConstants.{MAX_SHARDS};

use super::wanted::{Listed, TWO_EDGES, Wanted, is_wanted, query_for};
use gl_cycles::Report;
use gl_edges::{Edge, Sample};
use gl_event::{Event, MAX_RING};
use gl_filters::Query;
use gl_findings::Contents;
use gl_live::{LiveFault, SessionOptions, live_report, live_report_with};
use gl_shards::{Gate, MAX_SHARDS, Open};
use gl_worked::meeting::Meeting;
use gl_worked::ops::Op::{self, Acq, Rel};
use gl_worked::ops::{event_of, lists_of};
use std::alloc::Global;
use std::process::Abort;
use std::sync::Wait;
use std::thread::Threads;

// How a report is asked for.
#[derive(Clone, Copy)]
enum Ask {
    // by a session of so many recorder threads and workers, with lanes and feeds of so many notes
    Plain(u32, u32, u32),
    // with these contents, and at most so many cycles or findings
    With(Contents, u32),
}

use Ask::{Plain, With};
use Listed::{Count, These};

// Lists of events, how their report is asked for, and what is wanted of it.
#[derive(Clone, Copy)]
struct Case {
    name: &'static str,
    lists: &'static [&'static [Op]],
    ask: Ask,
    wanted: Wanted,
}

// A thread that runs one piece of code, and two others, which take the same locks the other way round.
const ONE: &[Op] = &[Acq(0, 0), Acq(1, 1)];

const SECOND: &[Op] = &[Acq(1, 2), Acq(0, 3)];

const THIRD: &[Op] = &[Acq(1, 4), Acq(0, 5)];

// Lanes and feeds of one note, two recorder threads and three workers.
const SMALL: Ask = Plain(2, 3, 1);

const CASES: &[Case] = &[
    // One cycle of two edges.
    Case {
        name: "live_as_predict",
        lists: &[ONE, SECOND],
        ask: SMALL,
        wanted: Wanted {
            edges: 2,
            cycles: Count(1),
            more: false,
            trim: None,
        },
    },
    // Without lists there is no session, and nothing to report.
    Case {
        name: "no_lists",
        lists: &[],
        ask: Plain(1, 1, 1),
        wanted: Wanted {
            edges: 0,
            cycles: Count(0),
            more: false,
            trim: None,
        },
    },
    // Two threads run one piece of code, and two another: each of the first with each of the others makes a
    // cycle, and all four are one finding, shown by the first.
    Case {
        name: "crossed_by_four_threads",
        lists: &[ONE, ONE, SECOND, SECOND],
        ask: SMALL,
        wanted: Wanted {
            edges: 4,
            cycles: Count(4),
            more: false,
            trim: None,
        },
    },
    // One edge is in no cycle: trimming takes it away, as a report says that has the trim order, and no other one.
    Case {
        name: "no_cycle",
        lists: &[ONE],
        ask: SMALL,
        wanted: Wanted {
            edges: 1,
            cycles: Count(0),
            more: false,
            trim: Some(true),
        },
    },
    Case {
        name: "no_cycle, without a trim order",
        lists: &[ONE],
        ask: With(Contents::Cycles, 1),
        wanted: Wanted {
            edges: 1,
            cycles: These(&[]),
            more: false,
            trim: Some(false),
        },
    },
];

const FINDINGS: &[Case] = &[
    Case {
        name: "crossed_by_four_threads, findings",
        lists: &[ONE, ONE, SECOND, SECOND],
        ask: With(Contents::Findings, 1),
        wanted: Wanted {
            edges: 4,
            cycles: These(&[&[0, 2]]),
            more: false,
            trim: None,
        },
    },
    // Two threads that run one piece of code, and a thread for each of two others that it is in conflict with:
    // two findings, of which one is listed where no more are asked for.
    Case {
        name: "two_findings",
        lists: &[ONE, ONE, SECOND, THIRD],
        ask: With(Contents::Findings, 2),
        wanted: Wanted {
            edges: 4,
            cycles: These(&[&[0, 2], &[0, 3]]),
            more: false,
            trim: None,
        },
    },
    Case {
        name: "two_findings, one of them",
        lists: &[ONE, ONE, SECOND, THIRD],
        ask: With(Contents::Findings, 1),
        wanted: Wanted {
            edges: 4,
            cycles: These(&[&[0, 2]]),
            more: true,
            trim: None,
        },
    },
    Case {
        name: "no_finding",
        lists: &[ONE],
        ask: With(Contents::Findings, 1),
        wanted: Wanted {
            edges: 1,
            cycles: These(&[]),
            more: false,
            trim: Some(false),
        },
    },
    Case {
        name: "no_lists, findings",
        lists: &[],
        ask: With(Contents::Findings, 1),
        wanted: Wanted {
            edges: 0,
            cycles: These(&[]),
            more: false,
            trim: Some(false),
        },
    },
];

// What `live_report` answers, of which nothing is told: what is asked then stands among few facts, and the prover
// takes it quickly. So it is with the next one.
fn run_plain<R: AllocGlobal + Threads + Wait + Sync, G: Gate + Sync>(
    rt: &R,
    lists: &[Vec<Event>],
    options: &SessionOptions,
    query: &Query,
    gate: &G,
) -> Result<Report, LiveFault>
    requires few { length lists.now ≤ 1024 }
    requires some_recorder { 1 ≤ options.now.recorders }
    requires some_shard { 1 ≤ options.now.shards }
    requires shards_fit { options.now.shards ≤ MAX_SHARDS }
    requires some_ring { 1 ≤ options.now.ring }
    requires ring_fits { options.now.ring ≤ MAX_RING }
{
    live_report(rt, rt.alloc(), lists, options, query, gate)
}

// What `live_report_with` answers, by a session of two recorder threads and three workers, with lanes and feeds of
// one note.
fn run_with<R: AllocGlobal + Threads + Wait + Sync>(
    rt: &R,
    lists: &[Vec<Event>],
    contents: Contents,
    query: &Query,
) -> Result<Report, LiveFault>
    requires few { length lists.now ≤ 1024 }
{
    let options = SessionOptions {
        recorders: 2,
        shards: 3,
        ring: 1,
    };
    live_report_with(rt, rt.alloc(), lists, &options, contents, query, &Open)
}

// The report, if there is one.
fn report_in(answer: Result<Report, LiveFault>) -> Option<Report> {
    match answer {
        Ok(report) => Some(report),
        Err(_) => None,
    }
}

// The report by a session of so many recorder threads and workers, and notes in a ring.
pub(super) fn reported<R: AllocGlobal + Threads + Wait + Sync, G: Gate + Sync>(
    rt: &R,
    lists: &[Vec<Event>],
    numbers: (u32, u32, u32),
    gate: &G,
) -> Option<Report> {
    let (recorders, shards, ring) = numbers;
    if lists.len() > 16
        || recorders == 0
        || shards == 0
        || shards > MAX_SHARDS
        || ring == 0
        || ring > MAX_RING
    {
        return None;
    }
    let query = query_for(1_000)?;
    let options = SessionOptions {
        recorders,
        shards,
        ring,
    };
    report_in(run_plain(rt, lists, &options, &query, gate))
}

// The report with these contents, and at most so many cycles or findings.
fn found<R: AllocGlobal + Threads + Wait + Sync>(
    rt: &R,
    lists: &[Vec<Event>],
    contents: Contents,
    max: u32,
) -> Option<Report> {
    if lists.len() > 16 {
        return None;
    }
    let query = query_for(max)?;
    report_in(run_with(rt, lists, contents, &query))
}

fn report_of<R: AllocGlobal + Threads + Wait + Sync>(
    rt: &R,
    lists: &[Vec<Event>],
    ask: Ask,
) -> Option<Report> {
    match ask {
        Plain(recorders, shards, ring) => reported(rt, lists, (recorders, shards, ring), &Open),
        With(contents, max) => found(rt, lists, contents, max),
    }
}

// Whether there is a report, and it is as it is wanted.
fn is_right(report: Option<Report>, wanted: &Wanted) -> bool {
    match report {
        Some(report) => is_wanted(&report, wanted),
        None => false,
    }
}

fn expect<R: Abort + AllocGlobal + Threads + Wait + Sync>(rt: &R, case: &Case) {
    let lists = lists_of(rt.alloc(), case.lists).expect(rt, case.name);
    assert!(rt;
        is_right(report_of(rt, &lists, case.ask), &case.wanted),
        "{}",
        case.name
    );
}

#[test]
fn reports_of_lists(rt: HostRuntime) {
    for case in CASES {
        expect(&rt, case);
    }
}

#[test]
fn findings_of_lists(rt: HostRuntime) {
    for case in FINDINGS {
        expect(&rt, case);
    }
}

// Whether it is told that the session of these lists isn't confirmed.
fn is_unconfirmed<R: AllocGlobal + Threads + Wait + Sync>(rt: &R, lists: &[Vec<Event>]) -> bool {
    if lists.len() > 16 {
        return false;
    }
    let Some(query) = query_for(1) else {
        return false;
    };
    match run_with(rt, lists, Contents::Cycles, &query) {
        Err(LiveFault::Unconfirmed) => true,
        _ => false,
    }
}

// A thread releases a lock that it doesn't hold: that isn't recorded, and so nothing is confirmed.
#[test]
fn refused_event(rt: HostRuntime) {
    let lists = lists_of(rt.alloc(), &[ONE, &[Rel(0, 2), Acq(0, 3)]]).expect(&rt, "memory");
    assert!(rt; is_unconfirmed(&rt, &lists));
}

// Two workers of a session are both at work at one moment, each on its first edge.
#[test]
fn gated_workers(rt: HostRuntime) {
    let gate = Meeting::new();
    let lists = lists_of(rt.alloc(), &[ONE, SECOND]).expect(&rt, "memory");
    assert!(rt; is_right(reported(&rt, &lists, (2, 2, 256), &gate), &TWO_EDGES));
    assert!(rt; gate.passes() == (1, 1, 0, 0));
}

// How many lanes and locks there are.
const LANES: u32 = 16;

// How often each lane takes its two locks.
const TIMES: u32 = 500;

// Lane `t` takes lock `t` and then the next one round, and releases both, again and again.
fn lock_ring(alloc: Global) -> Option<Vec<Vec<Event>>> {
    let mut lists = Vec::new(alloc);
    for lane in 0..LANES {
        lists.push(lane_events(alloc, lane)?).ok()?;
    }
    Some(lists)
}

// Puts the events at the end of the list.
fn add(list: &mut Vec<Event>, ops: &[Op]) -> Option<()> {
    for op in ops {
        list.push(event_of(*op)).ok()?;
    }
    Some(())
}

fn lane_events(alloc: Global, lane: u32) -> Option<Vec<Event>> {
    let next = next_lock(lane);
    let mut events = Vec::new(alloc);
    for _ in 0..TIMES {
        add(
            &mut events,
            &[Acq(lane, 0), Acq(next, 1), Rel(next, 2), Rel(lane, 3)],
        )?;
    }
    Some(events)
}

fn next_lock(lock: u32) -> u32 {
    if lock < LANES - 1 { lock + 1 } else { 0 }
}

// The edge at the lane's position is the lane's: from its lock to the next, first seen at place 1.
fn is_of_lane(edges: &[(Edge, Sample)], lane: u32) -> bool {
    match edges.get(lane as usize) {
        Some((edge, sample)) => {
            edge.thread.number() == lane
                && edge.held.number() == lane
                && edge.wanted.number() == next_lock(lane)
                && sample.place == 1
        }
        None => false,
    }
}

// The report has an edge of each lane.
fn has_each_lane(report: &Report) -> bool {
    for lane in 0..LANES {
        if !is_of_lane(report.edges.entries(), lane) {
            return false;
        }
    }
    true
}

// The report has an edge of each lane, and the one cycle of them all.
const RING: Wanted = Wanted {
    edges: LANES as usize,
    cycles: Listed::These(&[&[0, 1, 2, 3, 4, 5, 6, 7, 8, 9, 10, 11, 12, 13, 14, 15]]),
    more: false,
    trim: None,
};

// Numbers of recorder threads and of workers, and of notes in a lane or a feed.
const RINGS: &[(u32, u32, u32)] = &[
    (16, 1, 1),
    (16, 1, 256),
    (16, 3, 1),
    (16, 3, 256),
    (4, 1, 1),
    (4, 1, 256),
    (4, 3, 1),
    (4, 3, 256),
    (1, 1, 1),
    (1, 1, 256),
    (1, 3, 1),
    (1, 3, 256),
];

fn is_ring(report: Option<Report>) -> bool {
    match report {
        Some(report) => is_wanted(&report, &RING) && has_each_lane(&report),
        None => false,
    }
}

#[test]
fn sixteen_lanes(rt: HostRuntime) {
    let lists = lock_ring(rt.alloc()).expect(&rt, "memory");
    for (at, numbers) in RINGS.iter().enumerate() {
        assert!(rt;
            is_ring(reported(&rt, &lists, *numbers, &Open)),
            "ring {at}"
        );
    }
}
