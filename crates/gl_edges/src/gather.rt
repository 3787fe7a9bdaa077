//! The edges of whole lists of events.
ghost use Rattle.std.specs.Prelude.{◌≡◌, ◌≤◌, ◌+◌, ℕ, List, [], map, length, slice_get, take, Some, OnOk, IfOk};
ghost use Rattle.gl_event.specs.Bounds.{greatest};
ghost use Rattle.gl_event.specs.Lawful.{AreLawful, IsLawful, lists_of};
ghost use Rattle.gl_event.specs.declared.events.Event.{Event};
ghost use Rattle.gl_edges.specs.Edges.{edges_after, edges_made_from, once, edges};
ghost use Rattle.gl_edges.specs.bodies.Gatherers.{HasGathered, pair_for};
ghost use Rattle.gl_edges.specs.bodies.Sharing.{edges_between};
ghost use Rattle.gl_edges.specs.bodies.Tables.{HasAdded};
ghost use Rattle.gl_edges.specs.Tracking.{Follows, ForEachFollowed, HasAdvanced, IsNextFor};
ghost use Rattle.gl_edges.specs.declared.edge.Edge.{Edge};
ghost use Rattle.gl_edges.specs.declared.edge.Sample.{Sample};

use crate::batch::Batch;
use crate::edge::{Edge, Sample};
use crate::guards::Guards;
use crate::list::EdgeList;
use crate::seen::Seen;
use crate::tracker::Tracker;
use gl_event::{Event, LocId, LockId, LockMode, Memory, ThreadId};
use std::alloc::Global;

// So many nodes more than twice the edges may be noted.
const SPARE: usize = 1024;

// The edges found so far, one edge whose fields are set in turn to look others up, and acquires that
// the current thread made before.
#[derive(Drop)]
struct Gatherer {
    batch: Batch,
    edge: Edge,
    seen: Seen,
}

impl Gatherer {
    // It has no edges.
    fn new(alloc: Global) -> Gatherer
        ensures { result.batch ≡ [] }
    {
        Gatherer {
            batch: Batch::new(alloc),
            edge: Edge {
                thread: ThreadId::new(0),
                held: LockId::new(0),
                held_mode: LockMode::Exclusive,
                wanted: LockId::new(0),
                wanted_mode: LockMode::Exclusive,
                first: 0,
                second: 0,
                guards: Guards::empty(alloc),
            },
            seen: Seen::new(alloc),
        }
    }

    // Puts in the edges of an acquire of a lock that the thread doesn't hold. Where it was made before
    // they are in already, with lesser samples.
    fn add_acquire(
        &mut self,
        alloc: Global,
        tracker: &Tracker,
        wanted: LockId,
        mode: LockMode,
        loc: LocId,
    ) -> Result<(), Memory>
        ensures { OnOk result
            (HasGathered tracker.now.state.events
            (map (pair_for tracker.now wanted mode loc) tracker.now.state.held)
            self.old self.new) }
    {
        let room = self.batch.len().saturating_mul(2).saturating_add(SPARE);
        if self
            .seen
            .note(tracker.thread, &tracker.state, wanted, mode, room)?
        {
            return Ok(());
        }
        self.add_each(alloc, tracker, wanted, mode, loc)
    }

    // Puts in the edges of an acquire of a lock that the thread doesn't hold: one for each lock
    // that it holds.
    fn add_each(
        &mut self,
        alloc: Global,
        tracker: &Tracker,
        wanted: LockId,
        mode: LockMode,
        loc: LocId,
    ) -> Result<(), Memory>
        ensures table { OnOk result
            (HasAdded (map (pair_for tracker.now wanted mode loc) tracker.now.state.held)
            self.old.batch self.new.batch) }
        ensures seen { OnOk result (self.new.seen ≡ self.old.seen) }
    {
        let entries = tracker.state.entries();
        self.edge.thread = tracker.thread;
        self.edge.wanted = wanted;
        self.edge.wanted_mode = mode;
        self.edge.second = tracker.state.segment();
        self.edge.guards.refill(entries)?;
        for entry in entries {
            self.edge.held = entry.lock;
            self.edge.held_mode = entry.mode;
            self.edge.first = entry.seg;
            let sample = Sample {
                place: tracker.state.events(),
                held_loc: entry.loc,
                wanted_loc: loc,
            };
            self.batch.keep(alloc, &self.edge, sample)?;
        }
        Ok(())
    }

    // Puts in the edges that the next event of the thread makes.
    fn add_edges(&mut self, alloc: Global, tracker: &Tracker, event: &Event) -> Result<(), Memory>
        ensures { OnOk result
            (ForEachFollowed tracker.now
            (λ thread es. HasGathered (length es) (edges_after thread es event.now)
            self.old self.new)) }
    {
        let Some(wanted) = event.wanted() else {
            return Ok(());
        };
        if tracker.state.holds(wanted.lock) {
            return Ok(());
        }
        self.add_acquire(alloc, tracker, wanted.lock, wanted.mode, wanted.loc)
    }

    // Takes the next event of the thread.
    fn take(&mut self, alloc: Global, tracker: &mut Tracker, event: Event) -> Result<(), Memory>
        requires { IsNextFor tracker.old event }
        ensures gathers { OnOk result
            (ForEachFollowed tracker.old
            (λ thread es. HasGathered (length es) (edges_after thread es event)
            self.old self.new)) }
        ensures follows { OnOk result (HasAdvanced tracker.old event tracker.new) }
    {
        self.add_edges(alloc, tracker, &event)?;
        tracker.advance(event);
        Ok(())
    }

    // Takes the events of a list at these places: from one on, up to another.
    fn take_part(
        &mut self,
        alloc: Global,
        thread: ThreadId,
        list: &[Event],
        from: usize,
        to: usize,
    ) -> Result<(), Memory>
        requires lawful { IsLawful greatest thread list.now }
        requires within { (from ≤ to) × (to ≤ length list.now) }
        ensures { OnOk result
            (HasAdded (edges_between thread list.now from to) self.old.batch self.new.batch) }
    {
        self.seen.begin(thread);
        let mut tracker = follow(thread, list, from);
        for place in from..to {
            self.take(alloc, &mut tracker, list[place])?;
        }
        self.batch.end_list()
    }
}

// The thread after the events of its list up to a place.
fn follow(thread: ThreadId, list: &[Event], to: usize) -> Tracker
    requires lawful { IsLawful greatest thread list.now }
    requires within { to ≤ length list.now }
    ensures { Follows thread (take to list.now) result }
{
    let mut tracker = Tracker::new(thread);
    for place in 0..to {
        tracker.advance(list[place]);
    }
    tracker
}

/// The edges of these lists, whose threads are numbered from the first one on: each once, ascending, with
/// its least sample.
pub(crate) fn edges_from(
    alloc: Global,
    first: u32,
    lists: &[Vec<Event>],
) -> Result<EdgeList, Memory>
    requires few { first + length lists.now ≤ 1024 }
    requires lawful { (index : ℕ) (es : List Event)
        → slice_get (lists_of lists.now) index ≡ Some es
        → IsLawful greatest (first + index) es }
    ensures { IfOk result (λ l. l ≡ once (edges_made_from first (lists_of lists.now))) }
{
    let mut gatherer = Gatherer::new(alloc);
    for (index, list) in lists.iter().enumerate() {
        let thread = ThreadId::new(first + index as u32);
        let list = list.as_slice();
        gatherer.take_part(alloc, thread, list, 0, list.len())?;
    }
    gatherer.batch.into_list()
}

/// The edges that the events of a thread's list make at these places: each once, ascending, with its least sample.
///
/// The events before them are gone through, without their edges.
pub(crate) fn edges_of_part(
    alloc: Global,
    thread: ThreadId,
    list: &[Event],
    from: usize,
    to: usize,
) -> Result<EdgeList, Memory>
    requires lawful { IsLawful greatest thread list.now }
    requires within { (from ≤ to) × (to ≤ length list.now) }
    ensures { IfOk result (λ l. l ≡ once (edges_between thread list.now from to)) }
{
    let mut gatherer = Gatherer::new(alloc);
    gatherer.take_part(alloc, thread, list, from, to)?;
    gatherer.batch.into_list()
}

/// The edges of these lists: each once, ascending, with its least sample. A thread's number is the
/// position of its list.
///
/// It takes a step for each event and for each lock held at an acquire. The edges of acquires that aren't
/// found among those that the thread made before are sorted, thread by thread, and more often where very
/// many come. It takes memory as there are edges.
pub fn edges_of(alloc: Global, lists: &[Vec<Event>]) -> Result<EdgeList, Memory>
    requires lawful { AreLawful greatest (lists_of lists.now) }
    ensures { IfOk result (λ l. l ≡ edges (lists_of lists.now)) }
{
    edges_from(alloc, 0, lists)
}
