//! The search, on one thread and on several.
use crate::known::{Known, known_of};
use crate::say::{Stop, refused, say};
use gl_cycles::{Found, search, search_parallel};
use gl_event::{Event, Memory};
use gl_filters::{Mode, Query};
use gl_worked::ops::Op::{Acq, Rel};
use gl_worked::ops::event_of;
use std::alloc::AllocError;
use std::thread::Threads;

// The first cycles, on one thread; memory may be refused once.
fn alone(rt: &HostRuntime, known: &Known, query: &Query) -> Result<Found, Memory> {
    if let Ok(found) = search(rt.alloc(), &known.edges, &known.order, query) {
        return Ok(found);
    }
    refused(rt, "search", &known.edges.entries().len());
    search(rt.alloc(), &known.edges, &known.order, query)
}

// The first cycles, on several threads; memory may be refused once.
fn together(
    rt: &HostRuntime,
    threads: &(impl Threads + Sync),
    known: &Known,
    query: &Query,
) -> Result<Found, Memory> {
    let (edges, order) = (&known.edges, &known.order);
    if let Ok(found) = search_parallel(threads, rt.alloc(), edges, order, query) {
        return Ok(found);
    }
    refused(rt, "search_parallel", &edges.entries().len());
    search_parallel(threads, rt.alloc(), edges, order, query)
}

// The lists of two threads that take a and b in opposite orders, and then c and d.
fn two_cycles(rt: &HostRuntime) -> Result<Vec<Vec<Event>>, AllocError> {
    let alloc = rt.alloc();
    let first = vec![in alloc;
        event_of(Acq(0, 1)),
        event_of(Acq(1, 2)),
        event_of(Rel(1, 3)),
        event_of(Rel(0, 4)),
        event_of(Acq(2, 5)),
        event_of(Acq(3, 6)),
        event_of(Rel(3, 7)),
        event_of(Rel(2, 8)),
    ]?;
    let second = vec![in alloc;
        event_of(Acq(1, 9)),
        event_of(Acq(0, 10)),
        event_of(Rel(0, 11)),
        event_of(Rel(1, 12)),
        event_of(Acq(3, 13)),
        event_of(Acq(2, 14)),
    ]?;
    Ok(vec![in alloc; first, second]?)
}

// The same, for which memory may be refused once.
fn lists(rt: &HostRuntime) -> Result<Vec<Vec<Event>>, AllocError> {
    if let Ok(lists) = two_cycles(rt) {
        return Ok(lists);
    }
    refused(rt, "lists", &());
    two_cycles(rt)
}

// Both searches find the same of the first cycles, so many at the most.
fn both(
    rt: &HostRuntime,
    threads: &(impl Threads + Sync),
    known: &Known,
    max: u32,
) -> Result<(), Stop> {
    let query = Query::new(Mode::Full, 4, max).ok().ok_or(Stop::Astray)?;
    say(rt, "search", &alone(rt, known, &query)?);
    say(
        rt,
        "search_parallel",
        &together(rt, threads, known, &query)?,
    );
    Ok(())
}

/// Both searches find the same.
pub(crate) fn parallel_as_search(
    rt: &HostRuntime,
    threads: &(impl Threads + Sync),
) -> Result<(), Stop> {
    let lists = lists(rt)?;
    let known = known_of(rt, lists.as_slice())?;
    both(rt, threads, &known, 1)?;
    both(rt, threads, &known, 2)
}
