//! Sessions that have run, and are settled with their receipts or with others.
ghost use Rattle.std.specs.Prelude.{◌≡◌, true, List, IfSome};
ghost use Rattle.gl_engine.specs.Gathering.{Gathering, AreOurs};
ghost use Rattle.gl_engine.specs.Recording.{Closed};
ghost use Rattle.gl_engine.specs.Settling.{IsSettleFault};

use crate::closing::{Why, closed};
use crate::feeds::{feeds, tables_of};
use gl_engine::{Gathered, Receipt, SettleFault, Settled};
use gl_shards::{Inlet, MAX_SHARDS, Table};
use gl_worked::ops::Op;
use std::alloc::Global;
use std::marker::Model;
use std::sync::Wait;

/// A session that has run, with receipts, some of which may be put aside, and the feeds for its workers.
///
/// Each receipt is that of its thread's recorder, or another session's.
pub struct Session {
    number: u64,
    gathered: Gathered,
    receipts: Vec<Receipt>,
    aside: Vec<Receipt>,
    inlets: Vec<Inlet>,
    served: bool,
}

impl Model for Session {
    ghost use Rattle.std.specs.Prelude.{ℕ};
    ghost use Rattle.gl_engine_tests.specs.Sessions.{IsSession};

    ghost Value = { ℕ };

    ghost view = { λ s. s.number };

    ghost invariant = { λ s. IsSession s.number s.gathered s.receipts.items s.aside.items
        s.inlets.items s.served };
}

impl Drop for Session {
    fn drop(self) {
        let Session {
            number: _,
            gathered: _,
            receipts: _,
            aside: _,
            inlets: _,
            served: _,
        } = self;
    }
}

// The ends of the workers, where these are there. They are dropped where they aren't.
fn kept(alloc: Global, inlets: Vec<Inlet>, served: bool) -> Vec<Inlet>
    ensures { served ≡ true → result.items ≡ inlets.items }
{
    if served { inlets } else { Vec::new(alloc) }
}

/// A session of this number, with a thread for each list, that has recorded it and closed, run with so
/// many workers, 1 to 16, whose feeds have room for all that is sent, or who are gone before it runs.
pub fn session_of<R: Wait>(
    rt: &R,
    alloc: Global,
    number: u64,
    lists: &[&[Op]],
    workers: u32,
    served: bool,
) -> Option<Session> {
    if workers == 0 || workers > MAX_SHARDS {
        return None;
    }
    let (receipts, collector) = closed(alloc, number, lists)?;
    let (outlets, inlets) = feeds(alloc, workers)?;
    let inlets = kept(alloc, inlets, served);
    Some(Session {
        number,
        gathered: collector.run(rt, outlets),
        receipts,
        aside: Vec::new(alloc),
        inlets,
        served,
    })
}

// A thread without events.
const NOTHING: &[&[Op]] = &[&[]];

/// A receipt of a session of this number, of one thread without events.
pub fn receipt_of(alloc: Global, number: u64) -> Option<Receipt> {
    match closed(alloc, number, NOTHING) {
        Some((mut receipts, _)) => receipts.pop(),
        None => None,
    }
}

// Why it isn't settled, and what was gathered, where that is handed back.
fn why_of(fault: SettleFault) -> Option<(Why, Option<Gathered>)>
    ensures { (g : Gathering) (receipts : List Closed) → IsSettleFault g receipts fault
        → IfSome result (λ refused. IfSome refused.1 (λ back. back ≡ g)) }
{
    match fault {
        SettleFault::Strange { at, gathered } => Some((Why::Strange(at), Some(gathered))),
        SettleFault::Missing { thread, gathered } => {
            Some((Why::Missing(thread.number()), Some(gathered)))
        }
        SettleFault::Gone { shard } => Some((Why::Gone(shard), None)),
        _ => None,
    }
}

// Why the receipts don't settle what was gathered, and that as it was, where it is handed back.
fn refused(gathered: Gathered, receipts: &mut [Receipt]) -> Option<(Why, Option<Gathered>)>
    requires ours { AreOurs gathered receipts.old }
    ensures receipts { receipts.new ≡ receipts.old }
    ensures same { IfSome result (λ refused. IfSome refused.1 (λ back. back ≡ gathered)) }
{
    match gathered.settle(receipts) {
        Ok(_) => None,
        Err(fault) => why_of(fault),
    }
}

// Both, where there are tables.
fn both(settled: Settled, tables: Option<Vec<Table>>) -> Option<(Settled, Vec<Table>)> {
    match tables {
        Some(tables) => Some((settled, tables)),
        None => None,
    }
}

impl Session {
    /// Puts the last receipt aside.
    pub fn put_aside(self) -> Option<Session> {
        let Session {
            number,
            gathered,
            mut receipts,
            mut aside,
            inlets,
            served,
        } = self;
        let receipt = receipts.pop()?;
        let Ok(()) = aside.push(receipt) else {
            return None;
        };
        Some(Session {
            number,
            gathered,
            receipts,
            aside,
            inlets,
            served,
        })
    }

    /// Takes the receipts that were put aside, and puts those it had aside.
    pub fn exchanged(self) -> Session {
        let Session {
            number,
            gathered,
            receipts,
            aside,
            inlets,
            served,
        } = self;
        Session {
            number,
            gathered,
            receipts: aside,
            aside: receipts,
            inlets,
            served,
        }
    }

    /// Takes a receipt of another session as the last one.
    pub fn with_foreign(self, foreign: Receipt) -> Option<Session> {
        let Session {
            number,
            gathered,
            mut receipts,
            aside,
            inlets,
            served,
        } = self;
        if foreign.session() == number {
            return None;
        }
        let Ok(()) = receipts.push(foreign) else {
            return None;
        };
        Some(Session {
            number,
            gathered,
            receipts,
            aside,
            inlets,
            served,
        })
    }

    /// Drops the last receipt.
    pub fn without_last(self) -> Session {
        let mut session = self;
        drop(session.receipts.pop());
        session
    }

    /// Why it isn't settled, and the session as it was, unless a worker is gone.
    pub fn refused(self) -> Option<(Why, Option<Session>)> {
        let Session {
            number,
            gathered,
            mut receipts,
            aside,
            inlets,
            served,
        } = self;
        let (why, back) = refused(gathered, receipts.as_mut_slice())?;
        let Some(gathered) = back else {
            return Some((why, None));
        };
        let session = Session {
            number,
            gathered,
            receipts,
            aside,
            inlets,
            served,
        };
        Some((why, Some(session)))
    }

    /// The lists, and the tables of the workers, which make them now.
    pub fn settled<R: Wait>(self, rt: &R, alloc: Global) -> Option<(Settled, Vec<Table>)> {
        let Session {
            number: _,
            gathered,
            mut receipts,
            aside: _,
            inlets,
            served,
        } = self;
        if !served {
            return None;
        }
        match gathered.settle(receipts.as_mut_slice()) {
            Ok((settled, sent)) => both(settled, tables_of(rt, alloc, sent, inlets)),
            Err(_) => None,
        }
    }
}
