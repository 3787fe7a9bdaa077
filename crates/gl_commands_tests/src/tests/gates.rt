//! Sessions whose workers pass a gate: both at one moment, or with each edge.
ghost use Rattle.std.specs.Prelude.{◌≡◌, false};
ghost use Rattle.gl_io.specs.Positions.{untold};

use super::asks::{Ask, command_of};
use super::runs::TURNS;
use super::{NO_CYCLES, OPPOSITE_ORDER, OPPOSITE_ORDER_REPORT};
use gl_commands::{Ended, Reading, live_gated};
use gl_io::{Failed, FromStd, Source};
use gl_options::Command;
use gl_shards::Gate;
use gl_std::Seed;
use gl_worked::meeting::Meeting;
use std::process::Abort;
use std::sync::Wait;
use std::sync::atomic::{AtomicU64, Ordering};
use std::thread::Threads;

// How a session ends whose workers pass a gate, and what it writes. None where it is no session.
fn gated<R: AllocGlobal + Threads + Wait + Sync, I: Source, G: Gate + Sync>(
    rt: &R,
    ask: Ask,
    input: &mut I,
    gate: &G,
) -> Option<(Ended, Vec<u8>)>
    requires { I.failed input.old ≡ false }
{
    let Command::Live(options) = command_of(ask, 2)? else {
        return None;
    };
    let reading = Reading {
        turns: TURNS,
        seed: Seed::fixed(),
        jobs: options.jobs,
    };
    let mut output = FromStd::new(Vec::new(rt.alloc()));
    let ended = live_gated(rt, input, &mut output, &reading, &options, gate);
    Some((ended, output.into_inner()))
}

// It lists the cycle of two locks in opposite order.
fn expect_opposite(rt: &impl Abort, ended: &Ended, printed: &[u8]) {
    assert!(rt; matches!(ended, Ended::Cycles), "{ended:?}");
    assert_eq!(rt; printed, OPPOSITE_ORDER_REPORT);
}

// A session is opened, and its two workers are both at work at one moment, each on its first edge.
#[test]
fn gated_workers(rt: HostRuntime) {
    let gate = Meeting::new();
    let mut input = FromStd::new(OPPOSITE_ORDER);
    let answer = gated(&rt, Ask::Live(2, 2, 256), &mut input, &gate);
    let (ended, printed) = answer.expect(&rt, "a session");
    expect_opposite(&rt, &ended, &printed);
    assert_eq!(rt; gate.passes(), (1, 1, 0, 0));
}

// Six locks, one inside the other, with numbers from 0 on: 15 edges. Of two shards the first keeps those that a, c or
// e is held for, which are 5, 3 and 1; the second those of b and d, 4 and 2.
const NESTED: &[u8] = b"T|acq(a)|1\nT|acq(b)|2\nT|acq(c)|3\nT|acq(d)|4\nT|acq(e)|5\nT|acq(f)|6\n";

// Two locks, one inside the other, three times in the one order and twice in the other: an edge for each order, and
// repeats, which aren't shipped again, as they have later samples.
const REPEATED: &[u8] = b"T|acq(a)|1\nT|acq(b)|2\nT|rel(b)|3\nT|rel(a)|4\n\
T|acq(a)|1\nT|acq(b)|2\nT|rel(b)|3\nT|rel(a)|4\n\
T|acq(b)|5\nT|acq(a)|6\nT|rel(a)|7\nT|rel(b)|8\n\
T|acq(a)|9\nT|acq(b)|10\nT|rel(b)|11\nT|rel(a)|12\n\
T|acq(b)|5\nT|acq(a)|6\nT|rel(a)|7\nT|rel(b)|8\n";

// A gate that counts the edges of two shards, and what is told of them that isn't so.
#[derive(Drop)]
struct Count {
    first: AtomicU64,
    second: AtomicU64,
    wrong: AtomicU64,
}

impl Gate for Count {
    fn pass(&self, shard: u32, taken: u64) {
        let own = match shard {
            0 => &self.first,
            1 => &self.second,
            _ => &self.wrong,
        };
        if own.fetch_add(1, Ordering::SeqCst) != taken {
            self.wrong.fetch_add(1, Ordering::SeqCst);
        }
    }
}

// No cycle is found.
fn expect_clean(rt: &impl Abort, ended: &Ended, printed: &[u8]) {
    assert!(rt; matches!(ended, Ended::Clean), "{ended:?}");
    assert_eq!(rt; printed, NO_CYCLES);
}

// All edges were counted, and what was told of each is so.
fn expect_counts(rt: &impl Abort, gate: &Count, counts: (u64, u64)) {
    assert_eq!(rt; gate.first.load(Ordering::SeqCst), counts.0);
    assert_eq!(rt; gate.second.load(Ordering::SeqCst), counts.1);
    assert_eq!(rt; gate.wrong.load(Ordering::SeqCst), 0);
}

// Of a text without a cycle so many edges pass the gate, each at its own shard, with the number of those before it.
fn expect_edges<R: AllocGlobal + Abort + Threads + Wait + Sync>(
    rt: &R,
    ask: Ask,
    text: &'static [u8],
    counts: (u64, u64),
) {
    let gate = Count {
        first: AtomicU64::new(0),
        second: AtomicU64::new(0),
        wrong: AtomicU64::new(0),
    };
    let mut input = FromStd::new(text);
    let (ended, printed) = gated(rt, ask, &mut input, &gate).expect(rt, "a session");
    expect_clean(rt, &ended, &printed);
    expect_counts(rt, &gate, counts);
}

#[test]
fn each_edge_passes(rt: HostRuntime) {
    expect_edges(&rt, Ask::Live(1, 2, 256), NESTED, (9, 6));
    expect_edges(&rt, Ask::Stream(64, 2), NESTED, (9, 6));
}

#[test]
fn repeats_are_spared(rt: HostRuntime) {
    expect_edges(&rt, Ask::Live(1, 2, 256), REPEATED, (1, 1));
    expect_edges(&rt, Ask::Stream(64, 2), REPEATED, (1, 1));
}

// Gives its text at once, and holds back its end until two workers have met.
#[derive(Drop)]
struct HeldBack<'a> {
    rest: &'a [u8],
    gate: &'a Meeting,
    is_late: bool,
}

impl Source for HeldBack<'_> {
    ghost position = { λ _. untold };

    ghost failed = { λ _. false };

    fn read(&mut self, buffer: &mut [u8]) -> Result<usize, Failed> {
        let count = self.rest.len().min(buffer.len());
        if count == 0 {
            self.is_late = !self.gate.is_passed();
        }
        buffer[..count].copy_from_slice(&self.rest[..count]);
        self.rest = &self.rest[count..];
        Ok(count)
    }
}

// The workers keep edges before the text has ended.
#[test]
fn edges_before_the_end(rt: HostRuntime) {
    let gate = Meeting::new();
    let mut input = HeldBack {
        rest: OPPOSITE_ORDER,
        gate: &gate,
        is_late: false,
    };
    let answer = gated(&rt, Ask::Stream(64, 4), &mut input, &gate);
    let (ended, printed) = answer.expect(&rt, "a session");
    expect_opposite(&rt, &ended, &printed);
    assert!(rt; !input.is_late);
    assert_eq!(rt; gate.passes(), (1, 1, 0, 0));
}
