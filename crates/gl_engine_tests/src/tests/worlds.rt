//! What worlds answer, call by call.
use crate::watched::{Watched, watch};
use calls::{Call, answers};
use gl_worked::ops::Op::{self, Acq, Rel};
use gl_worked::ops::lists_of;
use std::alloc::Global;
use std::process::Abort;

mod calls;
mod lanes;
mod nothing;
mod schedules;
mod shards;

// A world: what each of its threads is to take, the room of its rings, and how many shards it has. Then what it
// is asked: first calls that several cases begin with, and those of its own.
#[derive(Clone, Copy)]
struct Case {
    name: &'static str,
    wishes: &'static [&'static [Op]],
    ring: u32,
    shards: u32,
    first: &'static [Call],
    calls: &'static [Call],
}

// Two threads that take the locks of numbers 0 and 1 in opposite orders. The second releases none.
const OPPOSITE_ORDER: &[&[Op]] = &[
    &[Acq(0, 0), Acq(1, 1), Rel(1, 2), Rel(0, 3)],
    &[Acq(1, 4), Acq(0, 5)],
];

fn world_of(alloc: Global, case: &Case) -> Option<Watched> {
    let wishes = lists_of(alloc, case.wishes)?;
    watch(alloc, wishes, case.ring, case.shards)
}

// The world answers each call as it is wanted.
fn expect(rt: &impl Abort, alloc: Global, name: &str, world: &mut Watched, calls: &[Call]) {
    for (at, call) in calls.iter().enumerate() {
        assert!(rt; answers(alloc, world, call), "{name}: call {at}");
    }
}

fn expect_all(rt: &impl Abort, alloc: Global, cases: &[Case]) {
    for case in cases {
        let mut world = world_of(alloc, case).expect(rt, case.name);
        expect(rt, alloc, case.name, &mut world, case.first);
        expect(rt, alloc, case.name, &mut world, case.calls);
    }
}
