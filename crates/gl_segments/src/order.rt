//! Which segment is before which.
ghost use Rattle.gl_event.specs.declared.events.Event.{Event};
ghost use Rattle.gl_segments.specs.Clocks.{OrdersBy};
ghost use Rattle.gl_segments.specs.Orders.{IsFaultOf};
ghost use Rattle.gl_segments.specs.Segments.{IsConsistent};
ghost use Rattle.gl_segments.specs.bodies.Search.{Counts, Explores};
ghost use Rattle.gl_segments.specs.bodies.Tables.{IsSound, Precedes, ShowsSteps};
ghost use Rattle.gl_segments.specs.bodies.Rows.{AreClocksOf, IsThreadFault};
ghost use Rattle.std.specs.Prelude.{◌≡◌, ◌<◌, ℕ, List, length, IfOk, OnOk, IfErr};

use crate::faults::OrderFault;
use crate::halts::Halt;
use crate::history::{Growing, History};
use crate::search::Search;
use crate::steps::Steps;
use crate::sweep::clocks;
use gl_event::{Event, Segment, ThreadId};
use std::alloc::Global;
use std::marker::Model;

/// The order of the segments of lists of events: which is before which.
#[derive(Drop, Debug)]
pub struct Order {
    histories: Vec<History>,
}

impl Model for Order {
    ghost use Rattle.gl_segments.specs.Clocks.{Clocks};

    ghost Value = { Clocks };

    ghost view = { λ o. o.histories.items };
}

impl Order {
    ghost use Rattle.gl_segments.specs.Clocks.{ahead, is_before, CountsBefore};
    ghost use Rattle.gl_event.specs.Bounds.{greatest};
    ghost use Rattle.gl_event.specs.Lawful.{lists_of, AreLawful};

    /// The order of the segments of these lists, one list a thread, by number.
    ///
    /// It errs with [`OrderFault::Inconsistent`] exactly where some segment is before itself, and
    /// with [`OrderFault::Memory`] only where a growth was refused. It reads each event once, and
    /// sorts the forks; otherwise it takes time as there are segments and pairs of threads, for each
    /// fork as there are threads, and for each join that tells something as there are threads and
    /// places along the joined one from which more segments of another thread are before. Where some
    /// segment is before itself, it takes time for each thread as there are segments before it. It
    /// takes memory as there are forks and joins, as there are pairs of threads, and as there are
    /// places along threads from which more segments of another thread are before.
    pub fn of(alloc: Global, lists: &[Vec<Event>]) -> Result<Order, OrderFault>
        requires lawful { AreLawful greatest (lists_of lists.now) }
        ensures ok { IfOk result (λ order. OrdersBy (lists_of lists.now) order) }
        ensures consistent { OnOk result (IsConsistent (lists_of lists.now)) }
        ensures fault { IfErr result (λ fault. IsFaultOf (lists_of lists.now) fault) }
    {
        let steps = Steps::of(alloc, lists)?;
        let histories = histories(alloc, &steps)?;
        Ok(Order { histories })
    }

    /// How many segments of the thread are before `a`, that is, lead to it by a chain of one or more
    /// steps: they are its first ones. 0, where `a` isn't a segment of the lists or they don't have
    /// the thread. Takes time as the logarithm of how often such numbers grow along a's thread.
    pub fn ahead(&self, a: Segment, thread: ThreadId) -> u32
        ensures value { result ≡ ahead self.now a thread }
        ensures counts { (lists : List (List Event)) → OrdersBy lists self.now
            → CountsBefore lists a thread result }
    {
        self.count(a, thread)
    }

    // How many segments of the thread are before `a`, by the clocks.
    fn count(&self, a: Segment, thread: ThreadId) -> u32
        ensures { result ≡ ahead self.now a thread }
    {
        match self.histories.get(a.thread.number() as usize) {
            Some(history) => history.ahead(a.index, thread),
            None => 0,
        }
    }

    /// Whether a chain of one or more steps leads from `a` to `b`: false where either isn't a
    /// segment of the lists. Takes the time of `ahead`.
    pub fn before(&self, a: Segment, b: Segment) -> bool
        ensures { result ≡ is_before self.now a b }
    {
        a.index < self.ahead(b, a.thread)
    }
}

// The clocks of all segments, or the least segment that is before itself, with a ring.
fn histories(alloc: Global, steps: &Steps) -> Result<Vec<History>, OrderFault>
    requires { IsSound steps.now }
    ensures ok { IfOk result
        (λ v. (lists : List (List Event)) → ShowsSteps lists steps.now
        → OrdersBy lists v.items) }
    ensures consistent { OnOk result
        ((lists : List (List Event)) → ShowsSteps lists steps.now → IsConsistent lists) }
    ensures fault { IfErr result
        (λ fault. (lists : List (List Event)) → ShowsSteps lists steps.now
        → IsFaultOf lists fault) }
{
    match clocks(alloc, steps) {
        Ok(histories) => Ok(histories),
        Err(Halt::Stuck) => searched(alloc, steps),
        Err(Halt::Memory) => Err(OrderFault::Memory),
    }
}

// The same by a search for each thread, which finds a segment that is before itself, with its ring.
fn searched(alloc: Global, steps: &Steps) -> Result<Vec<History>, OrderFault>
    requires { IsSound steps.now }
    ensures ok { IfOk result
        (λ v. (lists : List (List Event)) → ShowsSteps lists steps.now
        → OrdersBy lists v.items) }
    ensures consistent { OnOk result
        ((lists : List (List Event)) → ShowsSteps lists steps.now → IsConsistent lists) }
    ensures fault { IfErr result
        (λ fault. (lists : List (List Event)) → ShowsSteps lists steps.now
        → IsFaultOf lists fault) }
{
    let mut histories = Vec::new(alloc);
    for thread in 0..steps.threads() {
        let thread = ThreadId::new(thread as u32);
        histories.push(history(alloc, steps, thread)?)?;
    }
    Ok(histories)
}

// The clocks of a thread's segments, or the first of them that is before itself, with a ring.
fn history(alloc: Global, steps: &Steps, thread: ThreadId) -> Result<History, OrderFault>
    requires sound { IsSound steps.now }
    requires within { thread < length steps.now }
    ensures ok { IfOk result (λ h. AreClocksOf steps.now thread h) }
    ensures fault { IfErr result (λ fault. IsThreadFault steps.now thread fault) }
{
    let first = Segment { thread, index: 0 };
    let mut search = Search::new(alloc, steps.threads(), first)?;
    let mut growing = Growing::new(alloc, thread, steps.threads())?;
    for index in 0..steps.segments(thread) {
        let index = index as u32;
        let at = Segment { thread, index };
        search.find_before(steps, at)?;
        if index < search.clock.ahead(thread) {
            return Err(fault_at(alloc, steps, &search, at));
        }
        growing.push(alloc, &search.clock, &search.found)?;
    }
    Ok(growing.finish(alloc)?)
}

// The fault that the segment is before itself, with a ring that a search for what is before it found.
fn fault_at(alloc: Global, steps: &Steps, search: &Search, at: Segment) -> OrderFault
    requires target { search.now.target ≡ at }
    requires explored { Explores steps.now at search.now.clock search.now.found.items
        (length search.now.found.items) }
    requires counted { Counts search.now.clock at }
    ensures { ((i : ℕ) → i < at.index
        → ¬ Precedes steps.now (record { thread = at.thread; index = i })
        (record { thread = at.thread; index = i }))
        → IsThreadFault steps.now at.thread result }
{
    match search.ring(alloc) {
        Ok(ring) => OrderFault::Inconsistent { at, ring },
        Err(_) => OrderFault::Memory,
    }
}
