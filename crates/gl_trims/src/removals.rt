//! Orders in which edges go one by one, checked.
ghost use Rattle.std.specs.Prelude.{◌≡◌, ◌<◌, Some, length, not, slice_get, IfOk, MatchOption};
ghost use Rattle.std.specs.Bool.{Decides};
ghost use Rattle.std.specs.List.{list_any};
ghost use Rattle.gl_segments.specs.Clocks.{is_before};
ghost use Rattle.gl_filters.specs.Picked.{edges_of_table};
ghost use Rattle.gl_trims.specs.Trims.{HasBeside, IsRemovalFault, IsStuck, IsWholeRemoval};
ghost use Rattle.gl_index.specs.Indexes.{AreChained};
ghost use Rattle.gl_trims.specs.bodies.Trimming.{IsFlagged};
ghost use Rattle.gl_index.specs.Sides.{opposite};
ghost use Rattle.gl_index.specs.declared.sides.Side.TheVariants.{Follower, Leader};
ghost use Rattle.gl_edges.specs.declared.edge.Edge.{Edge};

use crate::trims::Trimming;
use gl_edges::EdgeList;
use gl_event::Memory;
use gl_filters::Mode;
use gl_index::{Chain, Side};
use gl_segments::Order;
use std::alloc::Global;

// Whether a flag isn't set.
fn is_any_left(gone: &[bool]) -> bool
    ensures { result ≡ list_any not gone.now }
{
    gone.iter().any(|flag| !*flag)
}

impl Trimming<'_> {
    // Whether no edge that is left may come beside the one at a position on this side.
    fn lacks(&self, gone: &[bool], chain: &Chain, side: Side, i: usize) -> bool
        requires here { i < length self.now.table.now }
        requires flags { length gone.now ≡ length self.now.table.now }
        requires chain { AreChained (opposite side)
            (edges_of_table self.now.table.now) 0 chain.now }
        ensures { (e : Edge) → slice_get (edges_of_table self.now.table.now) i ≡ Some e
            → Decides result
            (¬ HasBeside (is_before self.now.order.now) self.now.mode
            (edges_of_table self.now.table.now) (IsFlagged gone.now) side e) }
    {
        let first = chain.begin(side.lock_of(&self.table[i].0));
        self.next_beside(gone, chain, side, i, first).is_none()
    }

    // Whether the edge at a position may go now. Those that hold a lock follow one that wants it, and
    // those that want it lead one that holds it.
    fn may_go(&self, gone: &[bool], holders: &Chain, wanters: &Chain, i: usize) -> bool
        requires flags { length gone.now ≡ length self.now.table.now }
        requires holders { AreChained Leader (edges_of_table self.now.table.now) 0 holders.now }
        requires wanters { AreChained Follower (edges_of_table self.now.table.now) 0 wanters.now }
        ensures { Decides result
            (IsStuck (is_before self.now.order.now) self.now.mode
            (edges_of_table self.now.table.now) (IsFlagged gone.now) i) }
    {
        if i >= self.table.len() || gone[i] {
            return false;
        }
        self.lacks(gone, holders, Side::Follower, i) || self.lacks(gone, wanters, Side::Leader, i)
    }

    // The first place at which this is no order in which all edges go.
    fn fault_of(&self, alloc: Global, removed: &[usize]) -> Result<Option<usize>, Memory>
        ensures { IfOk result
            (λ fault. MatchOption fault
            (IsWholeRemoval (is_before self.now.order.now) self.now.mode
            (edges_of_table self.now.table.now) removed.now)
            (IsRemovalFault (is_before self.now.order.now) self.now.mode
            (edges_of_table self.now.table.now) removed.now)) }
    {
        let holders = Chain::of(alloc, self.table, Side::Leader)?;
        let wanters = Chain::of(alloc, self.table, Side::Follower)?;
        let mut gone = vec![in alloc; false; self.table.len()]?;
        for n in 0..removed.len() {
            if !self.may_go(&gone, &holders, &wanters, removed[n]) {
                return Ok(Some(n));
            }
            gone[removed[n]] = true;
        }
        if is_any_left(&gone) {
            return Ok(Some(removed.len()));
        }
        Ok(None)
    }
}

/// The first place at which these positions are no order in which all edges go: there stands what is
/// no edge, or one that went before, or one that some edge which is left may follow in a cycle of this
/// mode, and another one may lead. Where they end too early it is the place after the last one. None
/// where they are such an order; it needn't be the one of [`trim`](crate::trim).
///
/// Each edge is compared at most once with each edge that holds the lock which it wants, and with
/// each that wants the lock which it holds.
///
/// Err where memory was refused.
pub fn removal_fault(
    alloc: Global,
    edges: &EdgeList,
    order: &Order,
    mode: Mode,
    removed: &[usize],
) -> Result<Option<usize>, Memory>
    ensures { IfOk result
        (λ fault. MatchOption fault
        (IsWholeRemoval (is_before order.now) mode (edges_of_table edges.now) removed.now)
        (IsRemovalFault (is_before order.now) mode (edges_of_table edges.now) removed.now)) }
{
    let trimming = Trimming {
        table: edges.entries(),
        order,
        mode,
    };
    trimming.fault_of(alloc, removed)
}
