//! Lists of edges.
ghost use Rattle.std.specs.Prelude.{◌≡◌, [], ◌∷◌, ◌++◌, IfOk, OnOk, OnErr};
ghost use Rattle.gl_edges.specs.Order.{IsAboveLast};

use crate::known::{Known, known_of};
use crate::say::{Stop, refused, say};
use gl_cycles::{Trimmed, trim};
use gl_edges::{Edge, EdgeList, Sample};
use gl_event::{Event, Memory};
use gl_filters::Mode;
use gl_worked::ops::Op::{Acq, Rel};
use gl_worked::ops::event_of;
use std::alloc::AllocError;

// The list of a thread that takes a and b, releases a, and takes c.
fn crossed(rt: &HostRuntime) -> Result<Vec<Vec<Event>>, AllocError> {
    let list = vec![in rt.alloc();
        event_of(Acq(0, 1)),
        event_of(Acq(1, 2)),
        event_of(Rel(0, 3)),
        event_of(Acq(2, 4)),
    ]?;
    Ok(vec![in rt.alloc(); list]?)
}

// The same, for which memory may be refused once.
fn crossed_lists(rt: &HostRuntime) -> Result<Vec<Vec<Event>>, AllocError> {
    if let Ok(lists) = crossed(rt) {
        return Ok(lists);
    }
    refused(rt, "lists", &());
    crossed(rt)
}

/// Prints each edge of the list, with its guards and its place.
pub(crate) fn say_edges(rt: &HostRuntime, list: &EdgeList) {
    for (edge, sample) in list.entries() {
        let (held, wanted) = (edge.held.number(), edge.wanted.number());
        say(
            rt,
            "edge",
            &(held, wanted, edge.guards.as_slice(), sample.place),
        );
    }
}

// Puts a copy of the edge at the end of the list.
fn push_copy(rt: &HostRuntime, list: &mut EdgeList, pair: &(Edge, Sample)) -> Result<(), Memory>
    requires { IsAboveLast list.old pair.now.0 }
    ensures pushed { OnOk result (list.new ≡ list.old ++ pair.now ∷ []) }
    ensures unchanged { OnErr result (list.new ≡ list.old) }
{
    let copy = pair.0.copy(rt.alloc())?;
    list.push(copy, pair.1)
}

// The same, for which memory may be refused once.
fn push(rt: &HostRuntime, list: &mut EdgeList, pair: &(Edge, Sample)) -> Result<(), Memory>
    requires { IsAboveLast list.old pair.now.0 }
    ensures { OnOk result (list.new ≡ list.old ++ pair.now ∷ []) }
{
    let Ok(()) = push_copy(rt, list, pair) else {
        refused(rt, "push", &list.entries().len());
        push_copy(rt, list, pair)?;
        say(rt, "push", &list.entries().len());
        return Ok(());
    };
    say(rt, "push", &list.entries().len());
    Ok(())
}

// The list, by copies of its edges.
fn copied(rt: &HostRuntime, list: &EdgeList) -> Result<EdgeList, Memory> {
    let mut copies = EdgeList::new(rt.alloc());
    let pairs = list.entries();
    for pair in pairs {
        push(rt, &mut copies, pair)?;
    }
    Ok(copies)
}

// The list, trimmed; memory may be refused once.
fn trimmed(rt: &HostRuntime, known: &Known) -> Result<Trimmed, Memory> {
    if let Ok(trimmed) = trim(rt.alloc(), &known.edges, &known.order, Mode::Full) {
        return Ok(trimmed);
    }
    refused(rt, "trim", &known.edges.entries().len());
    trim(rt.alloc(), &known.edges, &known.order, Mode::Full)
}

/// Locks that are not released in the opposite order of their acquires.
pub(crate) fn crossed_releases(rt: &HostRuntime) -> Result<(), Stop> {
    let lists = crossed_lists(rt)?;
    let known = known_of(rt, lists.as_slice())?;
    say_edges(rt, &known.edges);
    let copies = copied(rt, &known.edges)?;
    say_edges(rt, &copies);
    let trimmed = trimmed(rt, &known)?;
    say(rt, "kept", &trimmed.kept.as_slice());
    say(rt, "removed", &trimmed.removed.as_slice());
    Ok(())
}
