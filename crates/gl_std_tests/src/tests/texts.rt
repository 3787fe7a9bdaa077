//! Texts, and what their traces tell.
use super::{GREATEST, trace_of};
use gl_event::{LocId, LockId, ThreadId};
use gl_std::{Lists, Names, Trace};
use gl_worked::ops::Op::{self, Acq, Fork, Join, Racq, Rel, Rrel, Tryacq, Tryracq};
use gl_worked::ops::are_events;
use std::alloc::Global;

/// What a trace tells: the lists, how many threads, locks and locations have names, how many lines were
/// skipped and how many releases were strays, and the numbers of some names.
#[derive(Clone, Copy)]
pub struct Told {
    pub lists: &'static [&'static [Op]],
    pub counts: (u32, u32, u32),
    pub dropped: (u64, u64),
    pub names: &'static [Named],
}

/// A name with the number that it has, or with none.
#[derive(Clone, Copy)]
pub enum Named {
    Thread(&'static [u8], Option<u32>),
    Lock(&'static [u8], Option<u32>),
    Loc(&'static [u8], Option<u32>),
}

#[derive(Clone, Copy)]
struct Case {
    name: &'static str,
    text: &'static [u8],
    told: Told,
}

// T0 and T1 take two locks in opposite order.
const OPPOSITE: &[&[Op]] = &[
    &[Acq(0, 0), Acq(1, 1), Rel(1, 2), Rel(0, 3)],
    &[Acq(1, 4), Acq(0, 5)],
];

const CASES: &[Case] = &[
    Case {
        name: "opposite_order",
        text: b"T0|acq(a)|1\nT0|acq(b)|2\nT0|rel(b)|3\nT0|rel(a)|4\nT1|acq(b)|5\nT1|acq(a)|6\n",
        told: Told {
            lists: OPPOSITE,
            counts: (2, 2, 6),
            dropped: (0, 0),
            names: &[
                Named::Thread(b"T1", Some(1)),
                Named::Lock(b"b", Some(1)),
                Named::Loc(b"6", Some(5)),
            ],
        },
    },
    Case {
        name: "crlf_and_skipped",
        text: b"T0|acq(a)|1\r\n\r\nT0|r(x)|9\r\nT0|acq(b)|A.java:7|x\r\nT0|rel(b)|3\r\nT0|rel(a)|4\r\nT0|begin|3\r\nT1|acq(b)|5\r\nT1|acq(a)|6",
        told: Told {
            lists: OPPOSITE,
            counts: (2, 2, 6),
            dropped: (2, 0),
            names: &[
                Named::Loc(b"A.java:7|x", Some(1)),
                Named::Loc(b"9", None),
                Named::Lock(b"x", None),
                Named::Thread(b"T1", Some(1)),
            ],
        },
    },
    // One thread forks, joins and forks; the others have no events.
    Case {
        name: "forks_and_joins",
        text: b"M|fork(T0)|1\nM|join(T0)|2\nM|fork(T1)|3\n",
        told: Told {
            lists: &[&[Fork(1, 0), Join(1, 1), Fork(2, 2)], &[], &[]],
            counts: (3, 0, 3),
            dropped: (0, 0),
            names: &[
                Named::Thread(b"M", Some(0)),
                Named::Thread(b"T0", Some(1)),
                Named::Thread(b"T1", Some(2)),
            ],
        },
    },
    Case {
        name: "joined_before",
        text: b"M|fork(T0)|1\nM|join(T0)|2\nM|fork(T1)|3\nT0|acq(a)|1\nT0|acq(b)|2\nT0|rel(b)|3\nT0|rel(a)|4\nT1|acq(b)|5\nT1|acq(a)|6\n",
        told: Told {
            lists: &[
                &[Fork(1, 0), Join(1, 1), Fork(2, 2)],
                &[Acq(0, 0), Acq(1, 1), Rel(1, 2), Rel(0, 3)],
                &[Acq(1, 4), Acq(0, 5)],
            ],
            counts: (3, 2, 6),
            dropped: (0, 0),
            names: &[],
        },
    },
    Case {
        name: "join_loop",
        text: b"T0|join(T1)|1\nT1|join(T0)|2\n",
        told: Told {
            lists: &[&[Join(1, 0)], &[Join(0, 1)]],
            counts: (2, 0, 2),
            dropped: (0, 0),
            names: &[],
        },
    },
    Case {
        name: "stray_release",
        text: b"T0|rel(a)|1\nT0|acq(b)|2\n",
        told: Told {
            lists: &[&[Acq(0, 0)]],
            counts: (1, 1, 1),
            dropped: (0, 1),
            names: &[Named::Lock(b"a", None), Named::Lock(b"b", Some(0))],
        },
    },
    // A lock is acquired in shared mode and released, by either word.
    Case {
        name: "either_release_word",
        text: b"T0|racq(a)|1\nT0|rel(a)|2\nT0|rrel(a)|3\n",
        told: Told {
            lists: &[&[Racq(0, 0), Rel(0, 1)]],
            counts: (1, 1, 2),
            dropped: (0, 1),
            names: &[],
        },
    },
    // A lock that is held is acquired in shared mode and released once.
    Case {
        name: "reentrant_shared",
        text: b"T0|acq(a)|1\nT0|racq(a)|2\nT0|rrel(a)|3\nT0|acq(b)|4\n",
        told: Told {
            lists: &[&[Acq(0, 0), Racq(0, 1), Rrel(0, 2), Acq(1, 3)]],
            counts: (1, 2, 4),
            dropped: (0, 0),
            names: &[],
        },
    },
    // Two locks are tried, one in each mode; `tryrel` is no operation.
    Case {
        name: "tried_acquires",
        text: b"T0|tryacq(a)|1\nT0|tryracq(b)|2\nT0|tryrel(a)|3\n",
        told: Told {
            lists: &[&[Tryacq(0, 0), Tryracq(1, 1)]],
            counts: (1, 2, 2),
            dropped: (1, 0),
            names: &[],
        },
    },
];

// Whether the thread with this number has this name, if there is one.
fn is_thread(names: &Names, name: &[u8], number: Option<u32>) -> bool {
    match number {
        Some(number) if number < names.threads() => names.thread(ThreadId::new(number)) == name,
        Some(_) => false,
        None => true,
    }
}

// Whether the lock with this number has this name, if there is one.
fn is_lock(names: &Names, name: &[u8], number: Option<u32>) -> bool {
    match number {
        Some(number) if number < names.locks() => names.lock(LockId::new(number)) == name,
        Some(_) => false,
        None => true,
    }
}

// Whether the location with this number has this name, if there is one.
fn is_loc(names: &Names, name: &[u8], number: Option<u32>) -> bool {
    match number {
        Some(number) if number < names.locs() => names.loc(LocId::new(number)) == name,
        Some(_) => false,
        None => true,
    }
}

// The number of the thread with this name, if there is one; so it is with the next ones.
fn thread_number(names: &Names, name: &[u8]) -> Option<u32> {
    match names.find_thread(name) {
        Some(thread) => Some(thread.number()),
        None => None,
    }
}

fn lock_number(names: &Names, name: &[u8]) -> Option<u32> {
    match names.find_lock(name) {
        Some(lock) => Some(lock.number()),
        None => None,
    }
}

fn loc_number(names: &Names, name: &[u8]) -> Option<u32> {
    match names.find_loc(name) {
        Some(loc) => Some(loc.number()),
        None => None,
    }
}

// Whether the name has this number, either way.
fn is_named(names: &Names, named: Named) -> bool {
    match named {
        Named::Thread(name, number) => {
            thread_number(names, name) == number && is_thread(names, name, number)
        }
        Named::Lock(name, number) => {
            lock_number(names, name) == number && is_lock(names, name, number)
        }
        Named::Loc(name, number) => {
            loc_number(names, name) == number && is_loc(names, name, number)
        }
    }
}

// Whether these are the names.
fn are_named(names: &Names, counts: (u32, u32, u32), all: &[Named]) -> bool {
    for named in all {
        if !is_named(names, *named) {
            return false;
        }
    }
    (names.threads(), names.locks(), names.locs()) == counts
}

// Whether these are the lists.
fn are_lists(found: &Lists, lists: &[&[Op]]) -> bool {
    let found = found.as_slice();
    if found.len() != lists.len() {
        return false;
    }
    for (events, ops) in found.iter().zip(lists) {
        if !are_events(events.as_slice(), ops) {
            return false;
        }
    }
    true
}

/// Whether the trace tells this.
pub fn tells(trace: &Trace, told: &Told) -> bool {
    are_lists(&trace.lists, told.lists)
        && are_named(&trace.names, told.counts, told.names)
        && (trace.skipped, trace.stray) == told.dropped
}

// Whether the text's trace tells this.
fn is_told(alloc: Global, case: &Case) -> bool {
    match trace_of(alloc, case.text, GREATEST) {
        Some(trace) => tells(&trace, &case.told),
        None => false,
    }
}

#[test]
fn told_texts(rt: HostRuntime) {
    for case in CASES {
        assert!(rt; is_told(rt.alloc(), case), "{}", case.name);
    }
}

// How many lists the text has, once they were given back and taken again.
fn count_of_lists(alloc: Global, text: &[u8]) -> Option<usize> {
    let trace = trace_of(alloc, text, GREATEST)?;
    let lists = Lists::new(trace.lists.into_vec());
    Some(lists.as_slice().len())
}

#[test]
fn lists_given_back(rt: HostRuntime) {
    assert!(rt; count_of_lists(rt.alloc(), b"T0|acq(a)|1\nT1|acq(b)|2\n") == Some(2));
}
