//! Lists of events, told or made.
ghost use Rattle.std.specs.Prelude.{◌<◌};

use gl_event::Event;
use gl_worked::ops::Op::{self, Acq, Fork, Rel};
use gl_worked::ops::{event_of, events_of, lists_of};
use std::alloc::Global;

#[derive(Clone, Copy)]
pub(super) enum Lists {
    // of these events
    Told(&'static [&'static [Op]]),
    // a thread for each step, which takes the step's first lock and then its second one
    Steps(&'static [(u32, u32)]),
    // so many threads take lock 0 and then lock 1, and so many others the other way round
    Crossed(u32, u32),
    // so many threads run the pieces of a ring of so many locks in turn, each its piece under each of
    // these gate locks
    UnderGates(u32, u32, &'static [u32]),
    // so many threads, each of which runs all pieces of a ring of four locks in thirty segments
    Rings(u32),
    // so many threads run the pieces of a ring of sixteen locks in turn, each under gate locks that only
    // the piece across the ring has too: the first piece and the one across under one, and the others
    // under six
    Pairs(u32),
    // so many pairs of threads, each with two locks of its own which they take in both orders, all under a gate lock of the
    // pair but in the last one
    Apart(u32),
}

// None where memory was refused.
pub(super) fn made(alloc: Global, lists: Lists) -> Option<Vec<Vec<Event>>> {
    match lists {
        Lists::Told(lists) => lists_of(alloc, lists),
        Lists::Steps(steps) => threads_of(alloc, steps),
        Lists::Crossed(there, back) => crossed(alloc, there, back),
        Lists::UnderGates(threads, locks, gates) => ring_under_gates(alloc, threads, locks, gates),
        Lists::Rings(threads) => rings_of_all(alloc, threads),
        Lists::Pairs(threads) => ring_of_pairs(alloc, threads),
        Lists::Apart(pairs) => pairs_apart(alloc, pairs),
    }
}

// Adds the list of these events.
fn add_list(alloc: Global, lists: &mut Vec<Vec<Event>>, ops: &[Op]) -> Option<()> {
    lists.push(events_of(alloc, ops)?).ok()
}

fn threads_of(alloc: Global, steps: &[(u32, u32)]) -> Option<Vec<Vec<Event>>> {
    let mut lists = Vec::new(alloc);
    for (from, to) in steps {
        add_list(alloc, &mut lists, &[Acq(*from, 1), Acq(*to, 2)])?;
    }
    Some(lists)
}

fn crossed(alloc: Global, there: u32, back: u32) -> Option<Vec<Vec<Event>>> {
    let mut lists = Vec::new(alloc);
    for _ in 0..there {
        add_list(alloc, &mut lists, &[Acq(0, 1), Acq(1, 2)])?;
    }
    for _ in 0..back {
        add_list(alloc, &mut lists, &[Acq(1, 3), Acq(0, 4)])?;
    }
    Some(lists)
}

// Puts the events at the end of the list.
fn add_events(list: &mut Vec<Event>, ops: &[Op]) -> Option<()> {
    for op in ops {
        list.push(event_of(*op)).ok()?;
    }
    Some(())
}

// A thread takes three locks one inside the other, and releases them.
fn add_piece(list: &mut Vec<Event>, gate: u32, lock: u32, next: u32) -> Option<()> {
    let ops = [
        Acq(gate, 1),
        Acq(lock, 1),
        Acq(next, 1),
        Rel(next, 1),
        Rel(lock, 1),
        Rel(gate, 1),
    ];
    add_events(list, &ops)
}

// A thread runs one piece under each of these gate locks.
fn under_gates(alloc: Global, gates: &[u32], lock: u32, next: u32) -> Option<Vec<Event>> {
    let mut list = Vec::new(alloc);
    for gate in gates {
        add_piece(&mut list, *gate, lock, next)?;
    }
    Some(list)
}

fn ring_under_gates(
    alloc: Global,
    threads: u32,
    locks: u32,
    gates: &[u32],
) -> Option<Vec<Vec<Event>>> {
    let mut lists = Vec::new(alloc);
    for thread in 0..threads {
        let lock = thread.checked_rem(locks)?;
        let next = (thread + 1).checked_rem(locks)?;
        lists.push(under_gates(alloc, gates, lock, next)?).ok()?;
    }
    Some(lists)
}

// A thread runs all pieces of a ring of four locks in one segment, and then begins the next one.
fn add_ring(list: &mut Vec<Event>) -> Option<()> {
    for lock in 0..4u32 {
        add_piece(list, 4 + lock, lock, (lock + 1) % 4)?;
    }
    add_events(list, &[Fork(1_000, 2)])
}

// A thread that does so in thirty segments.
fn thirty_rings(alloc: Global) -> Option<Vec<Event>> {
    let mut list = Vec::new(alloc);
    for _ in 0..30 {
        add_ring(&mut list)?;
    }
    Some(list)
}

fn rings_of_all(alloc: Global, threads: u32) -> Option<Vec<Vec<Event>>> {
    let mut lists = Vec::new(alloc);
    for _ in 0..threads {
        lists.push(thirty_rings(alloc)?).ok()?;
    }
    Some(lists)
}

// A thread runs a piece under gate locks that go with a number: under one for 0, and else under six.
fn gated_piece(alloc: Global, number: u32, piece: u32, next: u32) -> Option<Vec<Event>>
    requires { number < 8 }
{
    let own = 16 + number * 6;
    if number == 0 {
        return under_gates(alloc, &[own], piece, next);
    }
    let gates = [own, own + 1, own + 2, own + 3, own + 4, own + 5];
    under_gates(alloc, &gates, piece, next)
}

fn ring_of_pairs(alloc: Global, threads: u32) -> Option<Vec<Vec<Event>>> {
    let mut lists = Vec::new(alloc);
    for thread in 0..threads {
        let piece = thread % 16;
        lists
            .push(gated_piece(alloc, piece % 8, piece, (piece + 1) % 16)?)
            .ok()?;
    }
    Some(lists)
}

// A thread takes two locks, under a gate lock or not.
fn add_pair_of_locks(
    alloc: Global,
    lists: &mut Vec<Vec<Event>>,
    gate: Option<u32>,
    lock: u32,
    next: u32,
) -> Option<()> {
    match gate {
        Some(gate) => add_list(alloc, lists, &[Acq(gate, 1), Acq(lock, 2), Acq(next, 3)]),
        None => add_list(alloc, lists, &[Acq(lock, 2), Acq(next, 3)]),
    }
}

fn pairs_apart(alloc: Global, pairs: u32) -> Option<Vec<Vec<Event>>> {
    let mut lists = Vec::new(alloc);
    for pair in 0..pairs {
        let first = pair.checked_mul(3)?;
        let gate = if pair + 1 < pairs {
            Some(first.checked_add(2)?)
        } else {
            None
        };
        let second = first.checked_add(1)?;
        add_pair_of_locks(alloc, &mut lists, gate, first, second)?;
        add_pair_of_locks(alloc, &mut lists, gate, second, first)?;
    }
    Some(lists)
}
