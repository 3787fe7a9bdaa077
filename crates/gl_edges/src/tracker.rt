//! A thread that is followed event by event.
ghost use Rattle.std.specs.Prelude.{◌≡◌, ◌≢◌, ◌≤◌, ◌+◌, [], ◌∷◌, ◌++◌, map, take, length, Contains, Any, IsOk, IfOk, OnOk, OnErr};
ghost use Rattle.std.specs.Vec.{vec_len, vec_capacity};
ghost use Rattle.gl_event.specs.Events as events;
ghost use Rattle.gl_edges.specs.Edges.{edges_at, edges_after, pair_at};
ghost use Rattle.gl_edges.specs.Guards.{guards_of};
ghost use Rattle.gl_edges.specs.Order.{AreAscending};
ghost use Rattle.gl_edges.specs.Tracking.{Follows, ForEachFollowed, ForEachStanding, HasAdvanced, HaveRoom, IsNextFor};

use crate::edge::{Edge, Sample};
use crate::guards::Guards;
use gl_event::{Event, HeldEntry, LocId, LockId, LockMode, Memory, ThreadId, ThreadState};
use std::alloc::Global;

/// What a thread holds after its events so far, and where the next one stands.
///
/// It keeps no events: it follows every list of events that leaves the same locks held, is as long
/// and has as many forks and joins.
#[derive(Drop, Debug)]
pub struct Tracker {
    pub(crate) thread: ThreadId,
    pub(crate) state: ThreadState,
}

impl Tracker {
    /// The thread before its first event.
    pub fn new(thread: ThreadId) -> Tracker
        ensures { Follows thread [] result }
    {
        Tracker {
            thread,
            state: ThreadState::new(),
        }
    }

    /// Takes the next event, which has to be lawful next under the greatest limits, and answers the
    /// edges that it makes, ascending, each with its sample. Where there is no memory for them the
    /// event isn't taken; one that makes no edge takes no memory.
    ///
    /// An acquire takes a step for each pair of locks that are held.
    pub fn step(&mut self, alloc: Global, event: Event) -> Result<Vec<(Edge, Sample)>, Memory>
        requires { IsNextFor self.old event }
        ensures edges { ForEachFollowed self.old
            (λ thread es. IfOk result
            (λ v. v.items ≡ edges_at thread (es ++ event ∷ []) (length es))) }
        ensures ascending { IfOk result (λ v. AreAscending v.items) }
        ensures follows { OnOk result (HasAdvanced self.old event self.new) }
        ensures unchanged { OnErr result (self.new ≡ self.old) }
        ensures room { ForEachFollowed self.old
            (λ thread es. OnErr result (edges_at thread (es ++ event ∷ []) (length es) ≢ [])) }
    {
        let edges = self.next_edges(alloc, &event)?;
        self.advance(event);
        Ok(edges)
    }

    /// The edges that the event would make as the next one, ascending: what `step` answers. It isn't
    /// taken. Where it makes none no memory is taken.
    pub fn next_edges(&self, alloc: Global, event: &Event) -> Result<Vec<(Edge, Sample)>, Memory>
        ensures edges { ForEachFollowed self.now
            (λ thread es. IfOk result (λ v. v.items ≡ edges_after thread es event.now)) }
        ensures room { ForEachFollowed self.now
            (λ thread es. OnErr result (edges_after thread es event.now ≢ [])) }
    {
        next_edges(alloc, self.thread, &self.state, event)
    }

    /// Takes the next event, which has to be lawful next under the greatest limits, without its edges.
    /// It takes no memory.
    pub fn advance(&mut self, event: Event)
        requires { IsNextFor self.old event }
        ensures { HasAdvanced self.old event self.new }
    {
        // the locks let what is lawful next come
        let _ = self.state.take(event);
    }
}

/// The edges that the event would make as the next one of the thread of which this is known, ascending.
/// Where it makes none no memory is taken.
///
/// An acquire takes a step for each pair of locks that are held.
pub fn next_edges(
    alloc: Global,
    thread: ThreadId,
    state: &ThreadState,
    event: &Event,
) -> Result<Vec<(Edge, Sample)>, Memory>
    ensures edges { ForEachStanding state.now
        (λ es. IfOk result (λ v. v.items ≡ edges_after thread es event.now)) }
    ensures room { ForEachStanding state.now
        (λ es. OnErr result (edges_after thread es event.now ≢ [])) }
{
    let mut made = Vec::new(alloc);
    add_next_edges(alloc, thread, state, event, &mut made)?;
    Ok(made)
}

/// Adds the edges that the event would make as the next one of the thread of which this is known,
/// ascending, to those made. Where there is no memory those made are as they were. Where the event makes
/// none no memory is taken, nor where at most two locks are held and those made have room for as many more.
///
/// An acquire takes a step for each pair of locks that are held.
pub fn add_next_edges(
    alloc: Global,
    thread: ThreadId,
    state: &ThreadState,
    event: &Event,
    made: &mut Vec<(Edge, Sample)>,
) -> Result<(), Memory>
    ensures added { ForEachStanding state.now
        (λ es. OnOk result
        (made.new.items ≡ made.old.items ++ edges_after thread es event.now)) }
    ensures unchanged { OnErr result (made.new.items ≡ made.old.items) }
    ensures room { ForEachStanding state.now
        (λ es. OnErr result (edges_after thread es event.now ≢ [])) }
    ensures in_place { HaveRoom state.now made.old → IsOk result }
{
    let Some(wanted) = event.wanted() else {
        return Ok(());
    };
    if state.holds(wanted.lock) {
        return Ok(());
    }
    let count = made.len();
    match push_edges(
        alloc,
        thread,
        state,
        wanted.lock,
        wanted.mode,
        wanted.loc,
        made,
    ) {
        Ok(()) => Ok(()),
        Err(refused) => {
            made.truncate(count);
            Err(refused)
        }
    }
}

// Puts the edges from each held lock to one that isn't held behind those made, ascending. Where there is
// no memory some of them may be there.
fn push_edges(
    alloc: Global,
    thread: ThreadId,
    state: &ThreadState,
    wanted: LockId,
    mode: LockMode,
    loc: LocId,
    made: &mut Vec<(Edge, Sample)>,
) -> Result<(), Memory>
    ensures pushed { ForEachStanding state.now
        (λ es. OnOk result (made.new.items
        ≡ made.old.items ++ map (pair_at thread es wanted mode loc) (events.held es))) }
    ensures kept { take (length made.old.items) made.new.items ≡ made.old.items }
    ensures room { OnErr result (state.now.held ≢ []) }
    ensures in_place { HaveRoom state.now made.old → IsOk result }
{
    let entries = state.entries();
    if entries.is_empty() {
        return Ok(());
    }
    let mut guards = Guards::empty(alloc);
    guards.refill(entries)?;
    made.reserve(entries.len())?;
    push_each(alloc, thread, state, guards, wanted, mode, loc, made)
}

// Puts the edges from each of the held locks, which are the guards, to the wanted one behind those made, ascending:
// for each of them there is room. Where there is no memory for a copy of the guards some of them may be there.
fn push_each(
    alloc: Global,
    thread: ThreadId,
    state: &ThreadState,
    guards: Guards,
    wanted: LockId,
    mode: LockMode,
    loc: LocId,
    made: &mut Vec<(Edge, Sample)>,
) -> Result<(), Memory>
    requires guarded { guards ≡ guards_of state.now.held }
    requires reserved { vec_len made.old + length guards ≤ vec_capacity made.old }
    ensures pushed { ForEachStanding state.now
        (λ es. OnOk result (made.new.items
        ≡ made.old.items ++ map (pair_at thread es wanted mode loc) (events.held es))) }
    ensures kept { take (length made.old.items) made.new.items ≡ made.old.items }
    ensures in_place { length guards ≤ 2 → IsOk result }
{
    let Some((last, others)) = guards.as_slice().split_last() else {
        return Ok(());
    };
    let last_lock = last.lock;
    for guard in others {
        let copy = guards.copy(alloc)?;
        made.push_reserved(pair_to(thread, state, guard.lock, copy, wanted, mode, loc));
    }
    made.push_reserved(pair_to(thread, state, last_lock, guards, wanted, mode, loc));
    Ok(())
}

// The edge from a held lock to the wanted one, with all held locks as its guards, and where it is made.
fn pair_to(
    thread: ThreadId,
    state: &ThreadState,
    held: LockId,
    guards: Guards,
    wanted: LockId,
    mode: LockMode,
    loc: LocId,
) -> (Edge, Sample)
    requires { Any (λ h. h.lock ≡ held) state.now.held }
    ensures { ForEachStanding state.now
        (λ es. guards ≡ guards_of state.now.held
        → result ≡ pair_at thread es wanted mode loc held) }
{
    let entry = entry_for(state.entries(), held);
    let edge = Edge {
        thread,
        held: entry.lock,
        held_mode: entry.mode,
        wanted,
        wanted_mode: mode,
        first: entry.seg,
        second: state.segment(),
        guards,
    };
    let sample = Sample {
        place: state.events(),
        held_loc: entry.loc,
        wanted_loc: loc,
    };
    (edge, sample)
}

// The entry of the lock, which is among these.
fn entry_for(entries: &[HeldEntry], lock: LockId) -> HeldEntry
    requires { Any (λ h. h.lock ≡ lock) entries.now }
    ensures there { Contains entries.now result }
    ensures of_lock { result.lock ≡ lock }
{
    for entry in entries {
        if entry.lock == lock {
            return *entry;
        }
    }
    unreachable!()
}
