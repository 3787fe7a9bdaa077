//! Sessions that are settled on one thread, without a run.
ghost use Rattle.std.specs.Prelude.{◌≡◌, ◌<◌, List, IfSome};
ghost use Rattle.gl_engine.specs.Recording.{Closed};
ghost use Rattle.gl_engine.specs.Settling.{IsUnsettledFault};
ghost use Rattle.gl_engine.specs.Collecting.{Collecting};
ghost use Rattle.gl_engine_tests.specs.Sessions.{AreOursOf, IsSameSession};

use crate::closing::{Why, closed};
use gl_engine::{Collector, Pulled, Receipt, Settled, UnsettledFault};
use gl_event::ThreadId;
use gl_worked::ops::Op;
use std::alloc::Global;
use std::marker::Model;

// The number of these sessions.
const NUMBER: u64 = 7;

/// A session whose threads have closed, with its collector and receipts.
///
/// Each receipt is that of its thread's recorder, or another session's.
pub struct Unrun {
    threads: u32,
    collector: Collector,
    receipts: Vec<Receipt>,
}

impl Model for Unrun {
    ghost use Rattle.std.specs.Prelude.{ℕ};
    ghost use Rattle.gl_engine_tests.specs.Sessions.{IsUnrun};

    ghost Value = { ℕ };

    ghost view = { λ a. a.threads };

    ghost invariant = { λ a. IsUnrun a.threads a.collector a.receipts.items };
}

impl Drop for Unrun {
    fn drop(self) {
        let Unrun {
            threads: _,
            collector: _,
            receipts: _,
        } = self;
    }
}

/// A session with a thread for each list, that has recorded it and closed. Nothing is pulled.
pub fn unrun_of(alloc: Global, lists: &[&[Op]]) -> Option<Unrun> {
    let threads = u32::try_from(lists.len()).ok()?;
    let (receipts, collector) = closed(alloc, NUMBER, lists)?;
    Some(Unrun {
        threads,
        collector,
        receipts,
    })
}

// Pulls the thread's notes up to its end mark.
fn pull_list(collector: &mut Collector, thread: ThreadId)
    requires known { thread < collector.old.limits.threads }
    ensures same { IsSameSession collector.old collector.new }
{
    for _ in 0..100 {
        let Ok(Pulled::Event { .. }) = collector.pull(thread) else {
            return;
        };
    }
}

// Why it isn't settled, and the collector.
fn why_of(fault: UnsettledFault) -> (Why, Collector)
    ensures { (c : Collecting) (receipts : List Closed) → IsUnsettledFault c receipts fault
        → result.1 ≡ c }
{
    match fault {
        UnsettledFault::Strange { at, collector } => (Why::Strange(at), collector),
        UnsettledFault::Missing { thread, collector } => (Why::Missing(thread.number()), collector),
        UnsettledFault::Unended { thread, collector } => (Why::Unended(thread.number()), collector),
    }
}

// Why the receipts don't settle the collector, and that as it was.
fn refused(collector: Collector, receipts: &mut [Receipt]) -> Option<(Why, Collector)>
    requires ours { AreOursOf collector receipts.old }
    ensures receipts { receipts.new ≡ receipts.old }
    ensures same { IfSome result (λ refused. refused.1 ≡ collector) }
{
    match collector.settle(receipts) {
        Ok(_) => None,
        Err(fault) => Some(why_of(fault)),
    }
}

impl Unrun {
    /// Pulls all notes of the thread of this number.
    pub fn pull(&mut self, number: u32) {
        if number < self.threads {
            pull_list(&mut self.collector, ThreadId::new(number));
        }
    }

    /// Why it isn't settled, and the session as it was.
    pub fn unsettled(self) -> Option<(Why, Unrun)> {
        let Unrun {
            threads,
            collector,
            mut receipts,
        } = self;
        let (why, collector) = refused(collector, receipts.as_mut_slice())?;
        Some((
            why,
            Unrun {
                threads,
                collector,
                receipts,
            },
        ))
    }

    /// Why it isn't settled without its last receipt, and the session as it was.
    pub fn without_last(self) -> Option<(Why, Unrun)> {
        let Unrun {
            threads,
            collector,
            mut receipts,
        } = self;
        let last = receipts.pop()?;
        let (why, collector) = refused(collector, receipts.as_mut_slice())?;
        let Ok(()) = receipts.push(last) else {
            return None;
        };
        Some((
            why,
            Unrun {
                threads,
                collector,
                receipts,
            },
        ))
    }

    /// Why it isn't settled with a receipt of another session beside its own, and the session as it was.
    pub fn with_foreign(self, foreign: Receipt) -> Option<(Why, Unrun)> {
        let Unrun {
            threads,
            collector,
            mut receipts,
        } = self;
        if foreign.session() == NUMBER {
            return None;
        }
        let Ok(()) = receipts.push(foreign) else {
            return None;
        };
        let (why, collector) = refused(collector, receipts.as_mut_slice())?;
        receipts.pop();
        Some((
            why,
            Unrun {
                threads,
                collector,
                receipts,
            },
        ))
    }

    /// The lists, where it is settled.
    pub fn settled(self) -> Option<Settled> {
        let Unrun {
            threads: _,
            collector,
            mut receipts,
        } = self;
        match collector.settle(receipts.as_mut_slice()) {
            Ok(settled) => Some(settled),
            // taken apart: letting go of the fault as a whole takes the prover as long as a dozen tests
            Err(fault) => {
                drop(why_of(fault));
                None
            }
        }
    }
}
