//! Which two edges may stand in one cycle.
ghost use Rattle.std.specs.Prelude.{◌≡◌, ◌<◌, length, map, slice_get, Some};
ghost use Rattle.gl_edges.specs.Clashes.{guards_clash};
ghost use Rattle.gl_edges.specs.Numbered.{guards_in, AreNumbered};
ghost use Rattle.gl_edges.specs.declared.edge.Edge.{Edge};
ghost use Rattle.gl_segments.specs.Clocks.{is_before};
ghost use Rattle.gl_filters.specs.Cycle.{asks_guards, asks_order, is_ordered};
ghost use Rattle.gl_filters.specs.Test.{leads_to, waits_for, is_clear, goes_with, kinds_go_together, is_compatible};

use crate::query::Mode;
use gl_edges::{Edge, EdgeList, GuardSets, Guards};
use gl_event::{LockId, LockMode, Segment};
use gl_segments::Order;

/// Whether who wants a lock in this mode waits for who holds one in that mode: the locks are the same,
/// and the two aren't both readers. A reader doesn't wait for a reader.
pub fn waits_for(wanted: LockId, wanted_mode: LockMode, held: LockId, held_mode: LockMode) -> bool
    ensures { result ≡ waits_for wanted wanted_mode held held_mode }
{
    wanted == held && wanted_mode.conflicts_with(held_mode)
}

/// Whether the first edge leads on to the second: it wants the lock that the second one holds, and
/// not both as readers.
pub fn leads_on(e: &Edge, f: &Edge) -> bool
    ensures { result ≡ leads_to e.now f.now }
{
    waits_for(e.wanted, e.wanted_mode, f.held, f.held_mode)
}

impl Mode {
    /// Whether guard sets of a cycle's edges have no gate lock: from Guarded on.
    pub fn asks_guards(self) -> bool
        ensures { result ≡ asks_guards self }
    {
        match self {
            Mode::Basic => false,
            Mode::Guarded => true,
            Mode::Full => true,
        }
    }

    // Whether no two edges of a cycle are ordered.
    pub(crate) fn asks_order(self) -> bool
        ensures { result ≡ asks_order self }
    {
        match self {
            Mode::Basic => false,
            Mode::Guarded => false,
            Mode::Full => true,
        }
    }
}

// Whether one of the edges is over before the other begins.
pub(crate) fn are_ordered(order: &Order, e: &Edge, f: &Edge) -> bool
    ensures { result ≡ is_ordered (is_before order.now) e.now f.now }
{
    let e_wants = Segment {
        thread: e.thread,
        index: e.second,
    };
    let f_holds = Segment {
        thread: f.thread,
        index: f.first,
    };
    if order.before(e_wants, f_holds) {
        return true;
    }
    let f_wants = Segment {
        thread: f.thread,
        index: f.second,
    };
    let e_holds = Segment {
        thread: e.thread,
        index: e.first,
    };
    order.before(f_wants, e_holds)
}

// Whether guards and order let the two edges stand in one cycle of this mode.
#[tactic(auto, unfolding(crate::specs::Test::is_clear))]
fn are_clear(mode: Mode, order: &Order, e: &Edge, f: &Edge) -> bool
    ensures { result ≡ is_clear (is_before order.now) mode e.now f.now }
{
    if mode.asks_guards() && e.guards.clash_with(&f.guards) {
        return false;
    }
    if mode.asks_order() && are_ordered(order, e, f) {
        return false;
    }
    true
}

/// Whether two edges may stand in one cycle of this mode, at any distance: their held locks and
/// their threads differ, from Guarded on their guards have no gate lock, and in Full they aren't
/// ordered.
#[tactic(auto, unfolding(crate::specs::Test::goes_with))]
pub fn goes_with(mode: Mode, order: &Order, e: &Edge, f: &Edge) -> bool
    ensures { result ≡ goes_with (is_before order.now) mode e.now f.now }
{
    if e.held == f.held || e.thread == f.thread {
        return false;
    }
    are_clear(mode, order, e, f)
}

/// Whether edges of the kinds of these two may stand in one cycle of this mode, as far as held locks
/// and guards tell: their held locks differ, and from Guarded on their guards have no gate lock.
/// Threads and segments aren't looked at.
#[tactic(auto, unfolding(crate::specs::Test::kinds_go_together))]
pub fn kinds_go_together(mode: Mode, e: &Edge, f: &Edge) -> bool
    ensures { result ≡ kinds_go_together mode e.now f.now }
{
    if e.held == f.held {
        return false;
    }
    !(mode.asks_guards() && e.guards.clash_with(&f.guards))
}

/// Whether the second edge may follow the first one in a cycle of this mode: the first leads on to
/// the second, their threads differ, from Guarded on their guards have no gate lock, and in Full
/// they aren't ordered.
#[tactic(auto, unfolding(crate::specs::Test::is_compatible))]
pub fn compatible(mode: Mode, order: &Order, e: &Edge, f: &Edge) -> bool
    ensures { result ≡ is_compatible (is_before order.now) mode e.now f.now }
{
    if !leads_on(e, f) || e.thread == f.thread {
        return false;
    }
    are_clear(mode, order, e, f)
}

// Whether the second edge may follow the first one, whose guard sets have these numbers.
#[tactic(auto, unfolding(crate::specs::Test::is_compatible, crate::specs::Test::is_clear))]
fn compatible_by(
    mode: Mode,
    order: &Order,
    sets: &GuardSets,
    e: &Edge,
    f: &Edge,
    a: usize,
    b: usize,
) -> bool
    requires one { slice_get sets.now.sets a ≡ Some e.now.guards }
    requires other { slice_get sets.now.sets b ≡ Some f.now.guards }
    ensures { result ≡ is_compatible (is_before order.now) mode e.now f.now }
{
    if e.thread == f.thread || !leads_on(e, f) {
        return false;
    }
    if mode.asks_guards() && have_gate(sets, &e.guards, &f.guards, a, b) {
        return false;
    }
    !(mode.asks_order() && are_ordered(order, e, f))
}

// Whether guard sets clash, by their numbers.
fn have_gate(sets: &GuardSets, guards: &Guards, others: &Guards, a: usize, b: usize) -> bool
    requires one { slice_get sets.now.sets a ≡ Some guards.now }
    requires other { slice_get sets.now.sets b ≡ Some others.now }
    ensures { result ≡ guards_clash guards.now others.now }
{
    sets.clash(a, b)
}

/// The same as [`compatible`] of the entries at two positions of a list, of which these are the guard
/// sets.
pub fn compatible_at(
    mode: Mode,
    order: &Order,
    edges: &EdgeList,
    sets: &GuardSets,
    i: usize,
    j: usize,
) -> bool
    requires one { i < length edges.now }
    requires other { j < length edges.now }
    requires sets { AreNumbered (guards_in edges.now) sets.now }
    ensures { (e f : Edge) → slice_get (map (λ pair. pair.0) edges.now) i ≡ Some e
        → slice_get (map (λ pair. pair.0) edges.now) j ≡ Some f
        → result ≡ is_compatible (is_before order.now) mode e f }
{
    let entries = edges.entries();
    let e = &entries[i].0;
    let f = &entries[j].0;
    let a = sets.id(i);
    let b = sets.id(j);
    compatible_by(mode, order, sets, e, f, a, b)
}
