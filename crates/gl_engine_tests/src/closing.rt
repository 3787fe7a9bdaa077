//! Threads that record their lists and close.
ghost use Rattle.std.specs.Prelude.{◌≡◌, [], ◌∷◌, ◌++◌, length, map, IfSome};
ghost use Rattle.gl_engine.specs.Recording.{identity_of, left_by};
ghost use Rattle.gl_engine_tests.specs.Sessions.{AreOursOf};

use gl_engine::{Collector, Receipt, Recorder, open};
use gl_event::Limits;
use gl_worked::ops::{Op, event_of};
use std::alloc::Global;

// Records the events and closes.
fn close_one(recorder: Recorder, events: &[Op]) -> Option<Receipt>
    ensures { IfSome result (λ receipt. left_by receipt ≡ identity_of recorder) }
{
    let mut recorder = recorder;
    for event in events {
        let Ok(_) = recorder.record(event_of(*event)) else {
            return None;
        };
    }
    match recorder.close() {
        Ok(receipt) => Some(receipt),
        Err(_) => None,
    }
}

// Records the next list, closes, and keeps the receipt.
fn close_next(receipts: &mut Vec<Receipt>, recorder: Recorder, lists: &[&[Op]]) -> Option<()>
    ensures { IfSome result (λ _. map left_by receipts.new.items
        ≡ map left_by receipts.old.items ++ identity_of recorder ∷ []) }
{
    let events = lists.get(receipts.len())?;
    let receipt = close_one(recorder, *events)?;
    match receipts.push(receipt) {
        Ok(()) => Some(()),
        Err(_) => None,
    }
}

// Each recorder records its list and closes.
fn close_all(alloc: Global, recorders: Vec<Recorder>, lists: &[&[Op]]) -> Option<Vec<Receipt>>
    ensures { IfSome result
        (λ receipts. map left_by receipts.items ≡ map identity_of recorders.items) }
{
    let mut receipts = Vec::new(alloc);
    for recorder in recorders {
        close_next(&mut receipts, recorder, lists)?;
    }
    Some(receipts)
}

/// Why a session isn't settled.
#[derive(Clone, Copy, PartialEq)]
pub enum Why {
    Strange(usize),
    Missing(u32),
    Unended(u32),
    Gone(u32),
}

/// A session of this number, with a thread for each list, that has recorded it and closed: the receipts, in
/// the order of thread numbers, and the collector.
pub fn closed(alloc: Global, number: u64, lists: &[&[Op]]) -> Option<(Vec<Receipt>, Collector)>
    ensures number { IfSome result (λ session. session.1.session ≡ number) }
    ensures threads { IfSome result (λ session. session.1.limits.threads ≡ length lists.now) }
    ensures ours { IfSome result (λ session. AreOursOf session.1 session.0.items) }
{
    let threads = u32::try_from(lists.len()).ok()?;
    let limits = Limits::new(threads, 8, 100, 100).ok()?;
    let Ok((recorders, collector)) = open(alloc, number, &limits) else {
        return None;
    };
    let receipts = close_all(alloc, recorders, lists)?;
    Some((receipts, collector))
}
