//! The edges of a thread that is followed by somebody else, but for those of acquires that it made before.
//!
//! A program runs the same code over and over, and an acquire of the same lock, with the same locks held, in
//! the same modes and segments, makes the same edges. Who keeps each edge with its least sample needs them
//! once: those that come later are of later places.
ghost use Rattle.std.specs.Prelude.{◌≡◌, ◌≢◌, [], IsTrue, IfOk, OnOk, OnErr};
ghost use Rattle.gl_edges.specs.Edges.{edges_after};
ghost use Rattle.gl_edges.specs.Known.{AreAddedUnlessKnown, AreKnown, AreLearned};
ghost use Rattle.gl_edges.specs.Tracking.{ForEachStanding};

use crate::edge::{Edge, Sample};
use crate::seen::Seen;
use crate::tracker::add_next_edges;
use gl_event::{Event, Memory, ThreadId, ThreadState};
use std::alloc::Global;
use std::marker::Model;

// So many locks inside others more than twice the edges may be kept.
const SPARE: usize = 1024;

/// The acquires that a thread made with locks held, so that one that is made again is known.
///
/// Contracts see the edges that they made.
#[derive(Drop)]
pub struct Acquires {
    seen: Seen,
    // How many edges were made for these.
    count: usize,
}

impl Model for Acquires {
    ghost use Rattle.std.specs.Prelude.{List};
    ghost use Rattle.gl_edges.specs.declared.edge.Edge.{Edge};

    ghost Value = { List Edge };

    ghost view = { λ a. a.seen };
}

impl Acquires {
    /// None of this thread. It takes no memory.
    pub fn new(alloc: Global, thread: ThreadId) -> Acquires
        ensures { result ≡ [] }
    {
        let mut seen = Seen::new(alloc);
        seen.begin(thread);
        Acquires { seen, count: 0 }
    }

    /// Forgets them all.
    pub fn forget(&mut self)
        ensures { self.new ≡ [] }
    {
        self.seen.forget();
    }

    /// Adds the edges that the event would make as the next one of the thread of which this is known,
    /// ascending, to those made, as [`add_next_edges`](crate::add_next_edges) does; or none, where the thread
    /// made the same acquire before, as far as that is known. Where there is no memory those made are as they
    /// were, and all acquires are forgotten. Where the event makes no edge no memory is taken.
    ///
    /// An acquire takes a step for each lock that is held, and one that isn't known a step for each pair of
    /// them. What is kept is 64 bytes for each lock inside others, no more than two of these for each edge that
    /// was added, and some 1,000.
    pub fn add_new_edges(
        &mut self,
        alloc: Global,
        thread: ThreadId,
        state: &ThreadState,
        event: &Event,
        made: &mut Vec<(Edge, Sample)>,
    ) -> Result<(), Memory>
        ensures added { ForEachStanding state.now
            (λ es. OnOk result
            (AreAddedUnlessKnown self.old (edges_after thread es event.now) made.old.items
            made.new.items)) }
        ensures learned { ForEachStanding state.now
            (λ es. OnOk result
            (AreLearned self.old (edges_after thread es event.now) self.new)) }
        ensures unchanged { OnErr result (made.new.items ≡ made.old.items) }
        ensures room { ForEachStanding state.now
            (λ es. OnErr result (edges_after thread es event.now ≢ [])) }
        ensures forgotten { OnErr result (self.new ≡ []) }
    {
        let before = made.len();
        match self.add_or_know(alloc, thread, state, event, made) {
            Ok(()) => {
                let more = made.len().saturating_sub(before);
                self.count = self.count.saturating_add(more);
                Ok(())
            }
            Err(refused) => {
                self.forget();
                Err(refused)
            }
        }
    }

    // The same, but that acquires aren't forgotten where there is no memory.
    fn add_or_know(
        &mut self,
        alloc: Global,
        thread: ThreadId,
        state: &ThreadState,
        event: &Event,
        made: &mut Vec<(Edge, Sample)>,
    ) -> Result<(), Memory>
        ensures added { ForEachStanding state.now
            (λ es. OnOk result
            (AreAddedUnlessKnown self.old (edges_after thread es event.now) made.old.items
            made.new.items)) }
        ensures learned { ForEachStanding state.now
            (λ es. OnOk result
            (AreLearned self.old (edges_after thread es event.now) self.new)) }
        ensures unchanged { OnErr result (made.new.items ≡ made.old.items) }
        ensures room { ForEachStanding state.now
            (λ es. OnErr result (edges_after thread es event.now ≢ [])) }
    {
        if self.note(thread, state, event)? {
            return Ok(());
        }
        add_next_edges(alloc, thread, state, event, made)
    }

    // Notes the acquire that the event is as the next one of the thread, if it is one that makes edges. The
    // answer is `true` only where the edges that it makes are known.
    fn note(&mut self, thread: ThreadId, state: &ThreadState, event: &Event) -> Result<bool, Memory>
        ensures known { ForEachStanding state.now
            (λ es. IfOk result
            (λ known. IsTrue known
            → AreKnown self.old (edges_after thread es event.now))) }
        ensures learned { ForEachStanding state.now
            (λ es. OnOk result
            (AreLearned self.old (edges_after thread es event.now) self.new)) }
        ensures room { ForEachStanding state.now
            (λ es. OnErr result (edges_after thread es event.now ≢ [])) }
    {
        let Some(wanted) = event.wanted() else {
            return Ok(false);
        };
        if state.holds(wanted.lock) {
            return Ok(false);
        }
        let room = self.count.saturating_mul(2).saturating_add(SPARE);
        self.seen
            .note(thread, state, wanted.lock, wanted.mode, room)
    }
}
