//! Handing in lanes that were closed.
ghost use Rattle.std.specs.Prelude.{◌≡◌, Some, Ok, None, IfErr, OnOk, OnErr};
ghost use Rattle.gl_c.specs.Calls.{IsCodeFor, IsCall};
ghost use Rattle.gl_c.specs.HandingIn.{is_wanted, runs, state_refusal, HasReceipts, IsHandIn, IsTaken};
ghost use Rattle.gl_c.specs.declared.codes.TheConstants.{OK, MISUSE};
ghost use Rattle.gl_c.specs.declared.lane_state.LaneState.TheVariants.{Closed};

use crate::codes::{MEMORY, MISUSE, OK, STRANGE};
use crate::lane::Lane;
use crate::lane_state::LaneState;
use crate::session::Session;
use crate::session_state::{SessionState, Stage};
use gl_engine::{Receipt, has_receipt};
use std::alloc::Global;

// Whether the session runs.
fn runs(stage: &Stage) -> bool
    ensures { result ≡ runs stage.now }
{
    match stage {
        Stage::Running(_) => true,
        Stage::Settled(_) | Stage::Gone => false,
    }
}

// Whether the receipt is of the session, and the first of its thread.
fn is_wanted(session: &SessionState, receipt: &Receipt) -> bool
    ensures { result ≡ is_wanted session.now receipt.now }
{
    receipt.session() == session.number && !has_receipt(&session.receipts, receipt.thread())
}

// Takes the receipt, where the session wants it, or hands it back with what is answered.
fn take_receipt(session: &mut SessionState, receipt: Receipt) -> Result<(), (Receipt, u32)>
    ensures taken { OnOk result (IsTaken session.old (Closed receipt) session.new) }
    ensures free { OnOk result (state_refusal session.old (Closed receipt) ≡ None) }
    ensures back { IfErr result (λ back. (back.0 ≡ receipt) × (back.1 ≡ OK → ⊥)) }
    ensures same { OnErr result (HasReceipts session.old session.old.receipts.items session.new) }
    ensures why { IfErr result
        (λ back. IsCodeFor (state_refusal session.old (Closed receipt)) back.1) }
{
    if !is_wanted(session, &receipt) {
        return Err((receipt, STRANGE));
    }
    match session.receipts.push(receipt) {
        Ok(()) => Ok(()),
        Err(failed) => Err((failed.value, MEMORY)),
    }
}

// Takes back what a lane is of, or hands it back with what is answered.
fn take_state(session: &mut SessionState, state: LaneState) -> Result<(), (LaneState, u32)>
    ensures taken { OnOk result (IsTaken session.old state session.new) }
    ensures free { OnOk result (state_refusal session.old state ≡ None) }
    ensures back { IfErr result (λ back. (back.0 ≡ state) × (back.1 ≡ OK → ⊥)) }
    ensures same { OnErr result (HasReceipts session.old session.old.receipts.items session.new) }
    ensures why { IfErr result (λ back. IsCodeFor (state_refusal session.old state) back.1) }
{
    match state {
        LaneState::Closed(receipt) => match take_receipt(session, receipt) {
            Ok(()) => Ok(()),
            Err((receipt, answer)) => Err((LaneState::Closed(receipt), answer)),
        },
        other => Err((other, MISUSE)),
    }
}

// Takes back the lane.
fn hand_in(alloc: Global, session: &mut SessionState, lane: &mut Lane) -> u32
    ensures { IsHandIn session.old lane.old.value result session.new lane.new.value }
{
    if !runs(&session.stage) {
        return MISUSE;
    }
    let Some(mut state) = lane.take(alloc) else {
        return MISUSE;
    };
    match take_state(session, Box::replace(&mut state, LaneState::Lost)) {
        Ok(()) => OK,
        Err((back, answer)) => {
            drop(Box::replace(&mut state, back));
            lane.put(state);
            answer
        }
    }
}

/// Takes back a lane that was closed.
#[unsafe(no_mangle)]
pub extern "C" fn goodlock_hand_in(alloc: Global, session: &mut Session, lane: &mut Lane) -> u32
    ensures { IsCall (λ old new. IsHandIn old lane.old.value result new lane.new.value)
        ((result ≡ MISUSE)
        × (lane.new.value ≡ lane.old.value)) session.old.value session.new.value }
{
    let Some(mut state) = session.take(alloc) else {
        return MISUSE;
    };
    let answer = hand_in(alloc, &mut state, lane);
    session.put(state);
    answer
}
