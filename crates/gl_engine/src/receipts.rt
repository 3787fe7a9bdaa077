//! Receipts, compared with what was collected.
ghost use Rattle.std.specs.Prelude.{◌≡◌, ◌<◌, ℕ, Some, map, length, slice_get, IfSome, IfNone};
ghost use Rattle.gl_engine.specs.Recording.{Closed};
ghost use Rattle.gl_engine.specs.Collecting.{Pulling};
ghost use Rattle.gl_engine.specs.Keeping.{pulling_of};
ghost use Rattle.gl_engine.specs.bodies.Breaking.{handed, HandOver};
ghost use Rattle.gl_engine.specs.bodies.Whole.{IsConfirmed};
ghost use Rattle.gl_engine.specs.declared.lane_input.LaneInput.{LaneInput};
ghost use Rattle.gl_engine.specs.Receipts as wanted;
ghost use Rattle.gl_engine.specs.Receipts.{AreOwnBelow, AreThereBelow, IsFirstStrange, IsFirstMissing};

use crate::lane_input::LaneInput;
use crate::receipt::Receipt;
use gl_event::ThreadId;

/// Whether one of the receipts is of the thread. It looks at each of them.
pub fn has_receipt(receipts: &[Receipt], thread: ThreadId) -> bool
    ensures { result ≡ wanted.has_receipt receipts.now thread }
{
    for receipt in receipts {
        if receipt.thread().number() == thread.number() {
            return true;
        }
    }
    false
}

// Whether the receipt is strange after those before, in a session of this number and so many threads.
#[tactic(auto, unfolding(crate::specs::Receipts::is_strange))]
fn is_strange(session: u64, threads: u32, before: &[Receipt], receipt: &Receipt) -> bool
    ensures { result ≡ wanted.is_strange session threads before.now receipt.now }
{
    if receipt.session() != session {
        return true;
    }
    if receipt.thread().number() >= threads {
        return true;
    }
    has_receipt(before, receipt.thread())
}

/// The first receipt that is strange in a session of this number and so many threads.
pub(crate) fn first_strange(session: u64, threads: u32, receipts: &[Receipt]) -> Option<usize>
    ensures some { IfSome result (λ at. IsFirstStrange session threads receipts.now at) }
    ensures none { IfNone result (AreOwnBelow session threads receipts.now (length receipts.now)) }
{
    for at in 0..receipts.len() {
        if is_strange(session, threads, &receipts[..at], &receipts[at]) {
            return Some(at);
        }
    }
    None
}

/// The first of so many threads that no receipt is of.
pub(crate) fn first_missing(threads: u32, receipts: &[Receipt]) -> Option<ThreadId>
    ensures some { IfSome result (λ thread. IsFirstMissing threads receipts.now thread) }
    ensures none { IfNone result (AreThereBelow receipts.now threads) }
{
    for number in 0..threads {
        let thread = ThreadId::new(number);
        if !has_receipt(receipts, thread) {
            return Some(thread);
        }
    }
    None
}

// Compares a receipt with what came off its thread's lane, where that is the recorder's lane.
fn confirm_at(inputs: &mut Vec<LaneInput>, receipt: &mut Receipt)
    requires known { receipt.old.thread < length inputs.old.items }
    requires one_lane { (input : Pulling)
        → slice_get (map pulling_of inputs.old.items) receipt.old.thread ≡ Some input
        → receipt.old.lane ≡ input.lane }
    ensures receipt { receipt.new ≡ receipt.old }
    ensures inputs { map pulling_of inputs.new.items ≡ map pulling_of inputs.old.items }
    ensures handed { HandOver inputs.old.items inputs.new.items }
    ensures confirmed { (i : LaneInput) → slice_get inputs.old.items receipt.old.thread ≡ Some i
        → IsConfirmed (handed i.lane) receipt.old }
{
    let input = &mut inputs[receipt.thread.number() as usize];
    input.lane.confirm(&mut receipt.finished);
}

/// Compares each receipt with what came off its thread's lane.
pub(crate) fn confirm_all(inputs: &mut Vec<LaneInput>, receipts: &mut [Receipt])
    requires known { (at : ℕ) (r : Closed) → slice_get receipts.old at ≡ Some r
        → r.thread < length inputs.old.items }
    requires one_lane { (at : ℕ) (r : Closed) (input : Pulling)
        → slice_get receipts.old at ≡ Some r
        → slice_get (map pulling_of inputs.old.items) r.thread ≡ Some input
        → r.lane ≡ input.lane }
    ensures receipts { receipts.new ≡ receipts.old }
    ensures confirmed { (at : ℕ) (r : Closed) (i : LaneInput)
        → slice_get receipts.old at ≡ Some r
        → slice_get inputs.old.items r.thread ≡ Some i → IsConfirmed (handed i.lane) r }
{
    for at in 0..receipts.len() {
        confirm_at(inputs, &mut receipts[at]);
    }
}
