//! Lists that are numbered by mention.
use gl_event::{Event, LocId, LockId};
use gl_renumbering::{ByMention, RenumberingFault, by_mention};
use gl_std::{Names, Seed};
use gl_worked::ops::Op::{self, Acq, Fork};
use gl_worked::ops::lists_of;
use std::alloc::Global;

// The names: locks c, b, a and places 3, 2, 1, told in these orders.
fn told_names(alloc: Global) -> Option<Names> {
    let mut names = Names::new(alloc, Seed::fixed());
    for name in [b"c", b"b", b"a"] {
        names.number_lock(alloc, name).ok()?;
    }
    for name in [b"3", b"2", b"1"] {
        names.number_loc(alloc, name).ok()?;
    }
    Some(names)
}

// These lists by mention. Nothing is told of it, so that little is known where it is looked at.
fn told(alloc: Global, lists: &[&[Op]]) -> Option<Result<ByMention, RenumberingFault>> {
    let names = told_names(alloc)?;
    let lists = lists_of(alloc, lists)?;
    Some(by_mention(alloc, &names, &lists))
}

// Whether the lists are these.
fn are_lists(alloc: Global, lists: &[Vec<Event>], wanted: &[&[Op]]) -> bool {
    match lists_of(alloc, wanted) {
        Some(wanted) => lists == wanted.as_slice(),
        None => false,
    }
}

// Whether the lists are numbered so, and so are lock b and place 2.
fn is_numbered(alloc: Global, lists: &[&[Op]], wanted: &[&[Op]], numbers: (u32, u32)) -> bool {
    match told(alloc, lists) {
        Some(Ok(found)) => {
            are_lists(alloc, &found.lists, wanted)
                && found.names.find_lock(b"b") == Some(LockId::new(numbers.0))
                && found.names.find_loc(b"2") == Some(LocId::new(numbers.1))
        }
        _ => false,
    }
}

// Thread 0 takes a at 1, forks thread 1 at 3 and takes c at 1; thread 1 takes b at 2, and then a at 3.
#[test]
fn numbers_follow_mentions(rt: HostRuntime) {
    let lists: &[&[Op]] = &[&[Acq(2, 2), Fork(1, 0), Acq(0, 2)], &[Acq(1, 1), Acq(2, 0)]];
    let right: &[&[Op]] = &[&[Acq(0, 0), Fork(1, 1), Acq(1, 0)], &[Acq(2, 2), Acq(0, 1)]];
    assert!(rt; is_numbered(rt.alloc(), lists, right, (2, 2)));
}

// A lock, and then a place, without a name.
const UNNAMED: &[&[&[Op]]] = &[&[&[], &[Acq(3, 0)]], &[&[Fork(1, 3)], &[]]];

fn is_unnamed(alloc: Global, lists: &[&[Op]]) -> bool {
    match told(alloc, lists) {
        Some(Err(RenumberingFault::Unnamed)) => true,
        _ => false,
    }
}

#[test]
fn unnamed_is_refused(rt: HostRuntime) {
    for (at, lists) in UNNAMED.iter().enumerate() {
        assert!(rt; is_unnamed(rt.alloc(), lists), "lists {at}");
    }
}
