//! Trimming: edges that nothing may follow in a cycle, or that may follow nothing, go one by one.
ghost use Rattle.std.specs.Prelude.{◌≡◌, ◌<◌, ◌||◌, ℕ, Bool, true, false, List, [], None, Some, length, set, get_or, slice_get, nat_lt, ◌==◌, IfOk, IfSome, OnOk, MatchOption, vec_len};
ghost use Rattle.std.specs.Bool.{Decides};
ghost use Rattle.std.specs.List.{list_any};
ghost use Rattle.gl_segments.specs.Clocks.{is_before};
ghost use Rattle.gl_filters.specs.Picked.{edges_of_table};
ghost use Rattle.gl_trims.specs.Trims.{IsFirstStuck, IsTrimmed, others};
ghost use Rattle.gl_index.specs.declared.sides.Side.{Side};
ghost use Rattle.gl_edges.specs.declared.edge.Edge.{Edge};
ghost use Rattle.gl_trims.specs.bodies.Trimming.{IsFlagged, IsStart, IsHint, HasHint, AreHints, AreBothHints, HasBesideAt, TellsStuck, KeepHints, AreSettled, AreFlagsOf, AreAwake, AreTaken, IsWoken, hints_of, watched_at};
ghost use Rattle.gl_trims.specs.bodies.Waiting.{waits, AreEarlier};
ghost use Rattle.gl_index.specs.Indexes.{AreChained};
ghost use Rattle.gl_index.specs.Sides.{is_beside, lock_towards, opposite};
ghost use Rattle.gl_index.specs.Users.{AreUsers, MayUse};

use crate::waiting::Waiting;
use crate::watchers::Watchers;
use gl_edges::{Edge, EdgeList, Sample};
use gl_event::Memory;
use gl_filters::{Mode, compatible};
use gl_index::{Chain, Side, Users};
use gl_segments::Order;
use std::alloc::Global;

/// What trimming leaves of a list of edges, and what it takes away, by their positions.
#[derive(Drop, Debug)]
pub struct Trimmed {
    /// The edges that stay, ascending.
    pub kept: Vec<usize>,
    /// The edges that go, in the order in which they went.
    pub removed: Vec<usize>,
}

// For each edge that was looked at a hint: a position before which no edge is left that may come beside it on one
// side.
//
// A hint is looked for only when its edge is looked at, and a leader only where there is a follower: an edge
// without one goes. By then the edges before it may be gone, with which it needn't be compared.
pub(crate) struct Hints {
    // which threads use a lock
    pub(crate) users: Users,
    // leads through the edges that share a lock
    pub(crate) chain: Chain,
    // for each position its hint, where one was found
    pub(crate) found: Vec<Option<usize>>,
    // for each position that is left those of which it is the hint
    pub(crate) watchers: Watchers,
}

// Written out, so that it is proved once: a derived drop is proved again wherever one is let go.
impl Drop for Hints {
    fn drop(self) {
        let Hints {
            users,
            chain,
            found,
            watchers,
        } = self;
    }
}

impl Hints {
    // The edge at a position has this hint from here on, and watches it.
    fn put(&mut self, i: usize, hint: Option<usize>) -> Result<(), Memory>
        requires here { i < vec_len self.old.found }
        requires there { IfSome hint (λ p. p < length self.old.watchers) }
        ensures users { OnOk result (self.new.users ≡ self.old.users) }
        ensures chain { OnOk result (self.new.chain ≡ self.old.chain) }
        ensures found { OnOk result (self.new.found.items ≡ set self.old.found.items i hint) }
        ensures watchers { OnOk result
            (self.new.watchers ≡ watched_at hint i self.old.watchers) }
    {
        self.found[i] = hint;
        match hint {
            Some(hint) => self.watchers.add(hint, i),
            None => Ok(()),
        }
    }
}

// The hints on both sides.
pub(crate) struct Sides {
    pub(crate) followers: Hints,
    pub(crate) leaders: Hints,
}

// Written out, so that it is proved once: a derived drop is proved again wherever one is let go.
impl Drop for Sides {
    fn drop(self) {
        let Sides { followers, leaders } = self;
    }
}

// Whether the edge at a position has a hint, and the edge there is left.
fn has_hint(gone: &[bool], found: &[Option<usize>], i: usize) -> bool
    requires here { i < length found.now }
    requires within { (p : ℕ) → slice_get found.now i ≡ Some (Some p)
        → p < length gone.now }
    ensures { Decides result (HasHint gone.now found.now i) }
{
    let Some(hint) = found[i] else {
        return false;
    };
    !gone[hint]
}

// What is trimmed.
#[derive(Clone, Copy)]
pub(crate) struct Trimming<'a> {
    pub(crate) table: &'a [(Edge, Sample)],
    pub(crate) order: &'a Order,
    pub(crate) mode: Mode,
}

impl Trimming<'_> {
    // Whether the edge at the second position may come beside the one at the first.
    fn fits(&self, side: Side, i: usize, other: usize) -> bool
        requires here { i < length self.now.table.now }
        requires there { other < length self.now.table.now }
        ensures { (e f : Edge) → slice_get (edges_of_table self.now.table.now) i ≡ Some e
            → slice_get (edges_of_table self.now.table.now) other ≡ Some f
            → result ≡ is_beside (is_before self.now.order.now) self.now.mode side e f }
    {
        let edge = &self.table[i].0;
        let beside = &self.table[other].0;
        match side {
            Side::Follower => compatible(self.mode, self.order, edge, beside),
            Side::Leader => compatible(self.mode, self.order, beside, edge),
        }
    }

    // The first position from this one on of an edge that isn't gone and may come beside the edge at a
    // position.
    pub(crate) fn next_beside(
        &self,
        gone: &[bool],
        chain: &Chain,
        side: Side,
        i: usize,
        from: Option<usize>,
    ) -> Option<usize>
        requires here { i < length self.now.table.now }
        requires flags { length gone.now ≡ length self.now.table.now }
        requires chain { AreChained (opposite side)
            (edges_of_table self.now.table.now) 0 chain.now }
        requires start { IsStart (is_before self.now.order.now) self.now.mode
            (edges_of_table self.now.table.now) gone.now side i from }
        ensures hint { IsHint (is_before self.now.order.now) self.now.mode
            (edges_of_table self.now.table.now) gone.now side i result }
        ensures left { IfSome result (λ p. slice_get gone.now p ≡ Some false) }
    {
        let mut next = from;
        while let Some(other) = next {
            if !gone[other] && self.fits(side, i, other) {
                return Some(other);
            }
            next = chain.after(other);
        }
        None
    }

    // Before any edge was looked at.
    fn hints(&self, alloc: Global, side: Side) -> Result<Hints, Memory>
        ensures { IfOk result
            (λ hints. (gone : List Bool)
            → AreHints (is_before self.now.order.now) self.now.mode
            (edges_of_table self.now.table.now) gone side hints) }
    {
        let towards = side.opposite();
        Ok(Hints {
            users: Users::of_kept(alloc, self.table, towards, &[])?,
            chain: Chain::of(alloc, self.table, towards)?,
            found: vec![in alloc; None; self.table.len()]?,
            watchers: Watchers::none(alloc, self.table.len())?,
        })
    }

    // The hints on both sides.
    fn both_hints(&self, alloc: Global) -> Result<Sides, Memory>
        ensures { IfOk result
            (λ sides. (gone : List Bool)
            → AreBothHints (is_before self.now.order.now) self.now.mode
            (edges_of_table self.now.table.now) gone sides) }
    {
        let followers = self.hints(alloc, Side::Follower)?;
        let leaders = self.hints(alloc, Side::Leader)?;
        Ok(Sides { followers, leaders })
    }

    // Where to begin to look for an edge that may come beside the one at a position. There is none where only
    // edges of its own thread have their lock.
    fn first_candidate(&self, hints: &Hints, side: Side, i: usize) -> Option<usize>
        requires here { i < length self.now.table.now }
        requires users { AreUsers (opposite side) (edges_of_table self.now.table.now) []
            (length self.now.table.now) hints.now.users }
        requires chain { AreChained (opposite side)
            (edges_of_table self.now.table.now) 0 hints.now.chain }
        ensures start { (gone : List Bool) → IsStart (is_before self.now.order.now) self.now.mode
            (edges_of_table self.now.table.now) gone side i result }
        ensures own { (e : Edge) → slice_get (edges_of_table self.now.table.now) i ≡ Some e
            → ((t : ℕ) → MayUse hints.now.users (lock_towards side e) t → t ≡ e.thread)
            → result ≡ None }
    {
        let edge = &self.table[i].0;
        let lock = side.lock_of(edge);
        if hints.users.has_only(lock, edge.thread) {
            return None;
        }
        hints.chain.begin(lock)
    }

    // The first position of an edge that isn't gone and may come beside the one at a position. Where that has a hint,
    // none before it does.
    fn find(&self, gone: &[bool], hints: &Hints, side: Side, i: usize) -> Option<usize>
        requires here { i < length self.now.table.now }
        requires flags { length gone.now ≡ length self.now.table.now }
        requires hints { AreHints (is_before self.now.order.now) self.now.mode
            (edges_of_table self.now.table.now) gone.now side hints.now }
        ensures hint { IsHint (is_before self.now.order.now) self.now.mode
            (edges_of_table self.now.table.now) gone.now side i result }
        ensures left { IfSome result (λ p. slice_get gone.now p ≡ Some false) }
    {
        let Some(hint) = hints.found[i] else {
            let first = self.first_candidate(hints, side, i);
            return self.next_beside(gone, &hints.chain, side, i, first);
        };
        self.next_beside(gone, &hints.chain, side, i, Some(hint))
    }

    // Whether an edge is left that may come beside the one at a position. Then one is its hint.
    fn has_beside(
        &self,
        gone: &[bool],
        hints: &mut Hints,
        side: Side,
        i: usize,
    ) -> Result<bool, Memory>
        requires here { i < length self.now.table.now }
        requires flags { length gone.now ≡ length self.now.table.now }
        requires hints { AreHints (is_before self.now.order.now) self.now.mode
            (edges_of_table self.now.table.now) gone.now side hints.old }
        ensures hints { OnOk result
            (AreHints (is_before self.now.order.now) self.now.mode
            (edges_of_table self.now.table.now) gone.now side hints.new) }
        ensures kept { OnOk result
            (KeepHints gone.now hints.old.found.items hints.new.found.items) }
        ensures tells { IfOk result
            (λ has. HasBesideAt (is_before self.now.order.now) self.now.mode
            (edges_of_table self.now.table.now) gone.now side i hints.new.found.items has) }
    {
        if has_hint(gone, &hints.found, i) {
            return Ok(true);
        }
        let hint = self.find(gone, hints, side, i);
        hints.put(i, hint)?;
        Ok(hint.is_some())
    }

    // Whether the edge at a position is left, and no follower of it, or no leader.
    fn is_stuck(&self, gone: &[bool], sides: &mut Sides, i: usize) -> Result<bool, Memory>
        requires here { i < length self.now.table.now }
        requires flags { length gone.now ≡ length self.now.table.now }
        requires hints { AreBothHints (is_before self.now.order.now) self.now.mode
            (edges_of_table self.now.table.now) gone.now sides.old }
        ensures hints { OnOk result
            (AreBothHints (is_before self.now.order.now) self.now.mode
            (edges_of_table self.now.table.now) gone.now sides.new) }
        ensures kept { OnOk result
            ((side : Side)
            → KeepHints gone.now (hints_of side sides.old) (hints_of side sides.new)) }
        ensures tells { IfOk result
            (λ stuck. TellsStuck (is_before self.now.order.now) self.now.mode
            (edges_of_table self.now.table.now) gone.now sides.new i stuck) }
    {
        if gone[i] {
            return Ok(false);
        }
        if !self.has_beside(gone, &mut sides.followers, Side::Follower, i)? {
            return Ok(true);
        }
        let has_leader = self.has_beside(gone, &mut sides.leaders, Side::Leader, i)?;
        Ok(!has_leader)
    }

    // The first edge that isn't gone and has no follower left, or no leader. It still waits.
    fn first_stuck(
        &self,
        gone: &[bool],
        sides: &mut Sides,
        waiting: &mut Waiting,
    ) -> Result<Option<usize>, Memory>
        requires flags { length gone.now ≡ length self.now.table.now }
        requires hints { AreBothHints (is_before self.now.order.now) self.now.mode
            (edges_of_table self.now.table.now) gone.now sides.old }
        requires awake { AreAwake gone.now (length self.now.table.now) sides.old waiting.old }
        ensures hints { OnOk result
            (AreBothHints (is_before self.now.order.now) self.now.mode
            (edges_of_table self.now.table.now) gone.now sides.new) }
        ensures awake { OnOk result
            (AreAwake gone.now (length self.now.table.now) sides.new waiting.new) }
        ensures found { IfOk result
            (λ found. MatchOption found
            (AreSettled (is_before self.now.order.now) self.now.mode
            (edges_of_table self.now.table.now) gone.now (length self.now.table.now))
            (λ i. IsFirstStuck (is_before self.now.order.now) self.now.mode
            (edges_of_table self.now.table.now) (IsFlagged gone.now) i)) }
    {
        let end = self.table.len();
        while let Some(i) = waiting.first(end) {
            if self.is_stuck(gone, sides, i)? {
                return Ok(Some(i));
            }
            waiting.pass(i, end);
        }
        Ok(None)
    }

    // Takes away the first edge that is stuck.
    fn take_away(
        &self,
        alloc: Global,
        gone: &mut Vec<bool>,
        sides: &mut Sides,
        waiting: &mut Waiting,
        removed: &mut Vec<usize>,
        i: usize,
    ) -> Result<(), Memory>
        requires first { IsFirstStuck (is_before self.now.order.now) self.now.mode
            (edges_of_table self.now.table.now) (IsFlagged gone.old.items) i }
        requires taken { AreTaken (is_before self.now.order.now) self.now.mode
            (edges_of_table self.now.table.now)
            (length self.now.table.now) gone.old.items sides.old waiting.old removed.old.items }
        ensures flag { OnOk result (gone.new.items ≡ set gone.old.items i true) }
        ensures taken { OnOk result
            (AreTaken (is_before self.now.order.now) self.now.mode
            (edges_of_table self.now.table.now)
            (length self.now.table.now) gone.new.items sides.new waiting.new removed.new.items) }
    {
        gone[i] = true;
        wake(alloc, sides, waiting, i)?;
        removed.push(i)?;
        Ok(())
    }

    // Takes away edges that are stuck, as long as there are any.
    fn run(&self, alloc: Global) -> Result<Trimmed, Memory>
        ensures { IfOk result
            (λ trimmed. IsTrimmed (is_before self.now.order.now) self.now.mode
            (edges_of_table self.now.table.now) trimmed.kept.items trimmed.removed.items) }
    {
        let mut gone = vec![in alloc; false; self.table.len()]?;
        let mut sides = self.both_hints(alloc)?;
        let mut waiting = Waiting::all(alloc);
        let mut removed = Vec::new(alloc);
        while let Some(i) = self.first_stuck(&gone, &mut sides, &mut waiting)? {
            self.take_away(alloc, &mut gone, &mut sides, &mut waiting, &mut removed, i)?;
        }
        let kept = left_of(alloc, &gone)?;
        Ok(Trimmed { kept, removed })
    }
}

// These wait to be looked at again.
fn all_of(waiting: &mut Waiting, watchers: &[usize]) -> Result<(), Memory>
    requires { AreEarlier waiting.old }
    ensures waits { OnOk result
        ((i : ℕ) → waits waiting.new i
        ≡ (waits waiting.old i || list_any (λ w. w == i) watchers.now)) }
    ensures earlier { OnOk result (AreEarlier waiting.new) }
    ensures next { OnOk result (waiting.new.next ≡ waiting.old.next) }
{
    for i in 0..watchers.len() {
        waiting.add(watchers[i])?;
    }
    Ok(())
}

// Those that watch the edge at a position wait to be looked at again, as it goes.
fn wake(alloc: Global, sides: &mut Sides, waiting: &mut Waiting, i: usize) -> Result<(), Memory>
    requires followers { i < length sides.old.followers.watchers }
    requires leaders { i < length sides.old.leaders.watchers }
    requires earlier { AreEarlier waiting.old }
    ensures followers { OnOk result (IsWoken i sides.old.followers sides.new.followers) }
    ensures leaders { OnOk result (IsWoken i sides.old.leaders sides.new.leaders) }
    ensures waiting { OnOk result
        ((j : ℕ) → waits waiting.new j
        ≡ ((waits waiting.old j || list_any (λ w. w == j)
        (get_or sides.old.followers.watchers i [])) || list_any (λ w. w == j)
        (get_or sides.old.leaders.watchers i []))) }
    ensures earlier { OnOk result (AreEarlier waiting.new) }
    ensures next { OnOk result (waiting.new.next ≡ waiting.old.next) }
{
    let before = sides.followers.watchers.take(alloc, i);
    all_of(waiting, &before)?;
    let after = sides.leaders.watchers.take(alloc, i);
    all_of(waiting, &after)
}

// The positions of flags that aren't set, ascending.
fn left_of(alloc: Global, gone: &[bool]) -> Result<Vec<usize>, Memory>
    ensures { (edges : List Edge) (removed : List ℕ)
        → AreFlagsOf (length edges) gone.now removed
        → IfOk result (λ left. left.items ≡ others edges removed) }
{
    let mut left = Vec::new(alloc);
    for i in 0..gone.len() {
        if !gone[i] {
            left.push(i)?;
        }
    }
    Ok(left)
}

/// Trims a list of edges. As long as no edge that is left may follow some edge in a cycle of this
/// mode, or that edge may follow none, the first such edge goes. What stays is kept: each of these
/// edges has a follower and a leader among them, and each edge of a cycle is one of them.
///
/// Each edge is compared at most once with each edge that holds the lock which it wants, and, where
/// one of these may follow it, with each that wants the lock which it holds; with none that went
/// before. As an edge goes, only those are looked at again that had it as their follower or their
/// leader.
///
/// Err where memory was refused.
pub fn trim(alloc: Global, edges: &EdgeList, order: &Order, mode: Mode) -> Result<Trimmed, Memory>
    ensures { IfOk result
        (λ trimmed. IsTrimmed (is_before order.now) mode
        (edges_of_table edges.now) trimmed.kept.items trimmed.removed.items) }
{
    let trimming = Trimming {
        table: edges.entries(),
        order,
        mode,
    };
    trimming.run(alloc)
}
