//! Lists of events, what is asked of their edges, and the answers.
use asks::{Ask, answers};
use gl_worked::known::{Known, known_of};
use lists::{Lists, made};
use std::alloc::Global;
use std::process::Abort;
use std::thread::Threads;

mod asks;
mod at_size;
mod components;
mod cycles;
mod findings;
mod knots;
mod lists;
mod loops;
mod pruning;
mod reports;
mod trim_orders;
mod trims;

// Lists, which have to be lawful, and what is asked of their edges.
#[derive(Clone, Copy)]
struct Case {
    name: &'static str,
    lists: Lists,
    asks: &'static [Ask],
}

// What is known of these lists.
fn known_from(alloc: Global, lists: Lists) -> Option<Known> {
    let lists = made(alloc, lists)?;
    known_of(alloc, &lists)
}

// Each that is asked is answered as it is wanted.
fn expect<R: Abort + Threads + Sync>(rt: &R, alloc: Global, case: &Case) {
    let known = known_from(alloc, case.lists).expect(rt, case.name);
    for (at, ask) in case.asks.iter().enumerate() {
        assert!(rt; answers(rt, alloc, &known, ask), "{}: {at}", case.name);
    }
}

fn expect_all<R: Abort + Threads + Sync>(rt: &R, alloc: Global, cases: &[Case]) {
    for case in cases {
        expect(rt, alloc, case);
    }
}
