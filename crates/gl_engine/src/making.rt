//! The edges that a run makes, until they are shipped.
ghost use Rattle.std.specs.Prelude.{◌≡◌, [], take, IfOk, OnOk, OnErr};
ghost use Rattle.gl_edges.specs.Edges.{edges_after};
ghost use Rattle.gl_edges.specs.Tracking.{ForEachStanding};
ghost use Rattle.gl_engine.specs.bodies.Sparing.{HasAdded, HasForgotten, NothingIsKnown};

use gl_edges::{Acquires, Edge, Sample, add_next_edges};
use gl_event::{Event, Memory, ThreadId, ThreadState};
use std::alloc::Global;

/// The edges made that wait to be shipped, in their order, and what is known of each thread's acquires.
#[derive(Drop)]
pub struct Making {
    pub made: Vec<(Edge, Sample)>,
    pub acquires: Vec<Acquires>,
    /// Whether the edges of an acquire are spared that its thread made before.
    pub spares: bool,
}

impl Making {
    /// No edges, of so many threads. It takes memory only where repeats are spared.
    pub fn new(alloc: Global, threads: u32, spares: bool) -> Result<Making, Memory>
        ensures none { IfOk result (λ making. making.made.items ≡ []) }
        ensures spares { IfOk result (λ making. making.spares ≡ spares) }
        ensures unknown { IfOk result NothingIsKnown }
    {
        let mut acquires = Vec::new(alloc);
        let known = if spares { threads } else { 0 };
        for number in 0..known {
            acquires.push(Acquires::new(alloc, ThreadId::new(number)))?;
        }
        Ok(Making {
            made: Vec::new(alloc),
            acquires,
            spares,
        })
    }

    /// Adds the edges that the event makes as the next one of the thread of which this is known, ascending, but
    /// for repeats, where these are spared. Where there is no memory none is added.
    pub fn add(
        &mut self,
        alloc: Global,
        thread: ThreadId,
        state: &ThreadState,
        event: &Event,
    ) -> Result<(), Memory>
        ensures added { ForEachStanding state.now
            (λ es. OnOk result
            (HasAdded thread (edges_after thread es event.now) self.old self.new)) }
        ensures none { OnErr result (HasAdded thread [] self.old self.new) }
    {
        let number = thread.number() as usize;
        if !self.spares || number >= self.acquires.len() {
            return add_next_edges(alloc, thread, state, event, &mut self.made);
        }
        let acquires = &mut self.acquires[number];
        acquires.add_new_edges(alloc, thread, state, event, &mut self.made)
    }

    // Forgets the thread's acquires.
    fn forget(&mut self, thread: ThreadId)
        ensures made { self.new.made ≡ self.old.made }
        ensures spares { self.new.spares ≡ self.old.spares }
        ensures forgotten { HasForgotten thread self.old self.new }
    {
        let number = thread.number() as usize;
        if number < self.acquires.len() {
            self.acquires[number].forget();
        }
    }

    /// Takes back the edges behind the first ones, so many, which were added last, for the thread. It may have
    /// to make them again, so its acquires are forgotten.
    pub fn take_back(&mut self, thread: ThreadId, count: usize)
        ensures made { self.new.made.items ≡ take count self.old.made.items }
        ensures spares { self.new.spares ≡ self.old.spares }
        ensures forgotten { HasForgotten thread self.old self.new }
    {
        self.made.truncate(count);
        self.forget(thread);
    }
}
