//! Settling a session.
ghost use Rattle.std.specs.Prelude.{◌≡◌, length, IfSome};
ghost use Rattle.gl_engine.specs.Collecting.{lanes_of};
ghost use Rattle.gl_engine.specs.Receipts.{AreOfRecorders};
ghost use Rattle.gl_c.specs.Calls.{IsCall};
ghost use Rattle.gl_c.specs.Settling.{collector_of, missing_thread, AreOfItsLanes, IsSettle, IsSettled, IsSettling, IsToldMissing};
ghost use Rattle.gl_c.specs.declared.codes.TheConstants.{MISUSE};

use crate::codes::{MISSING, MISUSE, OK, STRANGE};
use crate::session::Session;
use crate::session_state::{Running, SessionState, Stage};
use gl_engine::{Collector, Receipt, UnsettledFault};
use gl_event::Limits;
use std::alloc::Global;
use std::mem;

// The thread whose lane or end mark is missing, if that stands against settling.
fn missing_thread(fault: &UnsettledFault) -> Option<u32>
    ensures { result ≡ missing_thread fault.now }
{
    match fault {
        UnsettledFault::Strange { .. } => None,
        UnsettledFault::Missing { thread, .. } => Some(thread.number()),
        UnsettledFault::Unended { thread, .. } => Some(thread.number()),
    }
}

// The collector that wasn't settled.
fn collector_of(fault: UnsettledFault) -> Collector
    ensures { result ≡ collector_of fault }
{
    match fault {
        UnsettledFault::Strange { collector, .. } => collector,
        UnsettledFault::Missing { collector, .. } => collector,
        UnsettledFault::Unended { collector, .. } => collector,
    }
}

// Says which thread is missing, and what is answered.
fn tell_missing(missing: Option<u32>, thread: &mut u32) -> u32
    ensures { IsToldMissing missing thread.old result thread.new }
{
    match missing {
        Some(number) => {
            *thread = number;
            MISSING
        }
        None => STRANGE,
    }
}

// The session as it was, and what is answered.
fn unsettled(limits: Limits, fault: UnsettledFault, thread: &mut u32) -> (Running, u32)
    requires same { (collector_of fault).limits ≡ limits }
    requires inputs { length (collector_of fault).inputs ≡ limits.threads }
    ensures running { (result.0.limits ≡ limits) × (result.0.collector ≡ collector_of fault) }
    ensures told { IsToldMissing (missing_thread fault) thread.old result.1 thread.new }
{
    let answer = tell_missing(missing_thread(&fault), thread);
    let collector = collector_of(fault);
    (Running { limits, collector }, answer)
}

// The session with what it was settled into, or as it was, and what is answered.
#[tactic(auto, using(crate::proofs::Unsettled::back))]
fn settle_running(running: Running, receipts: &mut [Receipt], thread: &mut u32) -> (Stage, u32)
    requires ours { AreOfRecorders running.collector.session running.collector.limits
        (lanes_of running.collector) receipts.old }
    ensures receipts { receipts.new ≡ receipts.old }
    ensures settled { IsSettling running receipts.old thread.old result.1 thread.new result.0 }
{
    let Running { limits, collector } = running;
    match collector.settle(receipts) {
        Ok(settled) => (Stage::Settled(settled), OK),
        Err(fault) => {
            let (running, answer) = unsettled(limits, fault, thread);
            (Stage::Running(running), answer)
        }
    }
}

// Settles what runs.
fn settle_stage(stage: Stage, receipts: &mut [Receipt], thread: &mut u32) -> (Stage, u32)
    requires ours { AreOfItsLanes stage receipts.old }
    ensures receipts { receipts.new ≡ receipts.old }
    ensures settled { IsSettled stage receipts.old thread.old result.1 thread.new result.0 }
{
    match stage {
        Stage::Running(running) => settle_running(running, receipts, thread),
        other => (other, MISUSE),
    }
}

// Settles the session.
fn settle(session: &mut SessionState, thread: &mut u32) -> u32
    requires ours { AreOfItsLanes session.old.stage session.old.receipts.items }
    ensures settled { IsSettle session.old thread.old result thread.new session.new }
{
    let stage = mem::replace(&mut session.stage, Stage::Gone);
    let (stage, answer) = settle_stage(stage, &mut session.receipts, thread);
    session.stage = stage;
    answer
}

/// Settles the session.
///
/// The caller promises that no two sessions were opened with the same number: then each lane that was
/// handed in is one that this session gave out.
#[unsafe(no_mangle)]
pub extern "C" fn goodlock_settle(alloc: Global, session: &mut Session, thread: &mut u32) -> u32
    requires ours { IfSome session.old.value
        (λ state. AreOfItsLanes state.stage state.receipts.items) }
    ensures { IsCall (λ old new. IsSettle old thread.old result thread.new new)
        ((result ≡ MISUSE) × (thread.new ≡ thread.old)) session.old.value session.new.value }
{
    let Some(mut state) = session.take(alloc) else {
        return MISUSE;
    };
    let answer = settle(&mut state, thread);
    session.put(state);
    answer
}
