//! Pulling notes off the lanes of a session.
ghost use Rattle.std.specs.Prelude.{◌≡◌, ◌<◌, ◌+◌, ◌^◌, IfOk, IfErr};
ghost use Rattle.gl_c.specs.Calls.{IsCall};
ghost use Rattle.gl_c.specs.Pulling.{both, none_pulled, IsNoPull, IsOnePull, IsPullAll, IsPullOff, IsPullOfLane, IsPulling};
ghost use Rattle.gl_c.specs.declared.codes.TheConstants.{MISUSE};

use crate::codes::{BROKEN, MEMORY, MISUSE, OK, RANGE};
use crate::session::Session;
use crate::session_state::{Running, Stage};
use gl_engine::{PullFault, Pulled};
use gl_event::ThreadId;
use std::alloc::Global;

/// What a pull did: how many events were pulled, and how many end marks.
#[derive(Clone, Copy)]
#[repr(C)]
pub struct PulledCount {
    /// Events that were pulled.
    pub events: u32,
    /// End marks of lanes that were pulled.
    pub ended: u32,
}

// Nothing was pulled.
fn none_pulled() -> PulledCount
    ensures { result ≡ none_pulled }
{
    PulledCount {
        events: 0,
        ended: 0,
    }
}

// Both counts together, where they fit.
fn both(some: PulledCount, more: PulledCount) -> PulledCount
    ensures { some.events + more.events < 2 ^ 32 → some.ended + more.ended < 2 ^ 32
        → result ≡ both some more }
{
    PulledCount {
        events: some.events.saturating_add(more.events),
        ended: some.ended.saturating_add(more.ended),
    }
}

// Pulls the next note off the thread's lane. Err where none is pulled, with what is answered.
fn pull_one(running: &mut Running, thread: ThreadId) -> Result<PulledCount, u32>
    requires known { thread < running.old.limits.threads }
    ensures limits { running.new.limits ≡ running.old.limits }
    ensures one { IfOk result (λ one. IsOnePull thread
        running.old.collector one running.new.collector) }
    ensures none { IfErr result (λ answer. IsNoPull thread
        running.old.collector answer running.new.collector) }
{
    match running.collector.pull(thread) {
        Ok(Pulled::Empty) => Err(OK),
        Ok(Pulled::Event { .. }) => Ok(PulledCount {
            events: 1,
            ended: 0,
        }),
        Ok(Pulled::Ended { .. }) => Ok(PulledCount {
            events: 0,
            ended: 1,
        }),
        Err(PullFault::Memory) => Err(MEMORY),
        Err(PullFault::Broken(_)) => Err(BROKEN),
    }
}

// Pulls at most so many notes off the thread's lane, and what is answered.
fn pull_off(running: &mut Running, thread: ThreadId, most: u32) -> (PulledCount, u32)
    requires known { thread < running.old.limits.threads }
    ensures { IsPullOff thread most running.old result.0 result.1 running.new }
{
    let mut pulled = none_pulled();
    for _ in 0..most {
        match pull_one(running, thread) {
            Ok(one) => pulled = both(pulled, one),
            Err(answer) => return (pulled, answer),
        }
    }
    (pulled, OK)
}

// Pulls at most so many notes in all, off each lane in turn from the first thread's on, and off none
// more than its ring holds, so that a busy one doesn't keep the others waiting.
fn pull_all(running: &mut Running, most: u32) -> (PulledCount, u32)
    ensures { IsPullAll most running.old result.0 result.1 running.new }
{
    let threads = running.limits.threads();
    let ring = running.limits.ring();
    let mut pulled = none_pulled();
    for number in 0..threads {
        let left = most - pulled.events - pulled.ended;
        let (more, answer) = pull_off(running, ThreadId::new(number), left.min(ring));
        pulled = both(pulled, more);
        if answer != OK {
            return (pulled, answer);
        }
    }
    (pulled, OK)
}

// Pulls off one thread's lane, where there is such a thread.
fn pull_known(running: &mut Running, thread: u32, most: u32) -> (PulledCount, u32)
    ensures { IsPullOfLane thread most running.old result.0 result.1 running.new }
{
    if thread >= running.limits.threads() {
        return (none_pulled(), RANGE);
    }
    pull_off(running, ThreadId::new(thread), most)
}

/// Pulls at most so many notes off the lanes, each lane in turn from the first thread's on.
#[unsafe(no_mangle)]
pub extern "C" fn goodlock_pull(
    alloc: Global,
    session: &mut Session,
    most: u32,
    pulled: &mut PulledCount,
) -> u32
    ensures { IsCall (λ old new. IsPulling (IsPullAll most) old pulled.new result new)
        ((result ≡ MISUSE) × (pulled.new ≡ none_pulled)) session.old.value session.new.value }
{
    *pulled = none_pulled();
    let Some(mut state) = session.take(alloc) else {
        return MISUSE;
    };
    let (count, answer) = match &mut state.stage {
        Stage::Running(running) => pull_all(running, most),
        Stage::Settled(_) | Stage::Gone => (none_pulled(), MISUSE),
    };
    *pulled = count;
    session.put(state);
    answer
}

/// Pulls at most so many notes off one thread's lane.
#[unsafe(no_mangle)]
pub extern "C" fn goodlock_pull_lane(
    alloc: Global,
    session: &mut Session,
    thread: u32,
    most: u32,
    pulled: &mut PulledCount,
) -> u32
    ensures { IsCall (λ old new. IsPulling (IsPullOfLane thread most) old pulled.new result new)
        ((result ≡ MISUSE) × (pulled.new ≡ none_pulled)) session.old.value session.new.value }
{
    *pulled = none_pulled();
    let Some(mut state) = session.take(alloc) else {
        return MISUSE;
    };
    let (count, answer) = match &mut state.stage {
        Stage::Running(running) => pull_known(running, thread, most),
        Stage::Settled(_) | Stage::Gone => (none_pulled(), MISUSE),
    };
    *pulled = count;
    session.put(state);
    answer
}
