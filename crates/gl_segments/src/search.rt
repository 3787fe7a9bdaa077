//! A search backwards, over the steps, from one segment to all that are before it.
ghost use Rattle.std.specs.Prelude.{◌≡◌, ℕ, ◌+◌, ◌-◌, ◌<◌, ◌≤◌, ◌++◌, ◌^◌, List, [], ◌∷◌, length, max, replicate, slice_get, slice_index, slice_set, Some, IfOk, OnOk};
ghost use Rattle.gl_segments.specs.bodies.Search.{links_back, FollowsLinks};

use crate::clock::Clock;
use crate::steps::Steps;
use gl_event::Segment;
use std::alloc::{AllocError, Global};

/// A segment that was found.
#[derive(Clone, Copy)]
pub struct Link {
    pub segment: Segment,
    /// The entry of the segment that is one step after it.
    pub next: usize,
}

/// A search for all that is before one segment of a thread. The clock is kept from the thread's
/// segment before it, so that nothing is looked at twice for one thread.
pub struct Search {
    pub target: Segment,
    /// What was found so far, as a clock: a thread's earlier segments are before its later ones.
    pub clock: Clock,
    /// The target, and then what was found since the search began.
    pub found: Vec<Link>,
}

// Written out, so that it is proved once: a derived drop is proved again wherever one is let go.
impl Drop for Search {
    fn drop(self) {
        let Search {
            target,
            clock,
            found,
        } = self;
    }
}

impl Search {
    ghost use Rattle.gl_segments.specs.bodies.Tables.{IsSound, Has};
    ghost use Rattle.gl_segments.specs.bodies.Search.{Counts, MayStart, Explores, IsFound, GrowsBy, unseen};

    /// A search among these many threads that has found nothing.
    pub fn new(alloc: Global, threads: usize, target: Segment) -> Result<Search, AllocError>
        ensures { IfOk result (λ s. s.clock ≡ replicate threads 0) }
    {
        Ok(Search {
            target,
            clock: Clock::new(alloc, threads)?,
            found: Vec::new(alloc),
        })
    }

    /// Finds all that is before the target: the clock is then the target's.
    pub fn find_before(&mut self, steps: &Steps, target: Segment) -> Result<(), AllocError>
        requires sound { IsSound steps.now }
        requires has { Has steps.now target }
        requires may_start { MayStart steps.now self.old.clock target }
        ensures target { self.new.target ≡ target }
        ensures explored { OnOk result
            (Explores steps.now target self.new.clock self.new.found.items
            (length self.new.found.items)) }
        ensures grown { OnOk result (GrowsBy self.old.clock self.new.found.items self.new.clock) }
    {
        self.begin(target)?;
        let mut done = 0;
        while done < self.found.len() {
            self.look_at(steps, done)?;
            done += 1;
        }
        Ok(())
    }

    // Forgets what was found, but for the clock, and sets out from the target.
    fn begin(&mut self, target: Segment) -> Result<(), AllocError>
        ensures target { self.new.target ≡ target }
        ensures clock { self.new.clock ≡ self.old.clock }
        ensures found { OnOk result
            (self.new.found.items ≡ record { segment = target; next = 0 } ∷ []) }
    {
        let Segment { thread, index } = target;
        self.target = target;
        self.found.clear();
        let segment = Segment { thread, index };
        self.found.push(Link { segment, next: 0 })?;
        Ok(())
    }

    // Finds what is one step before an entry.
    fn look_at(&mut self, steps: &Steps, at: usize) -> Result<(), AllocError>
        requires sound { IsSound steps.now }
        requires has { Has steps.now self.old.target }
        requires within { at < length self.old.found.items }
        requires explored { Explores steps.now self.old.target self.old.clock self.old.found.items
            at }
        ensures target { self.new.target ≡ self.old.target }
        ensures explored { OnOk result
            (Explores steps.now self.old.target self.new.clock self.new.found.items (at + 1)) }
        ensures longer { OnOk result (length self.old.found.items ≤ length self.new.found.items) }
        ensures room { OnOk result
            (unseen steps.now self.new.clock + length self.new.found.items
            ≡ unseen steps.now self.old.clock + length self.old.found.items) }
        ensures grown { OnOk result
            ((start : List ℕ) → GrowsBy start self.old.found.items self.old.clock
            → GrowsBy start self.new.found.items self.new.clock) }
    {
        let segment = self.found[at].segment;
        for source in steps.sources(segment) {
            self.reach(*source, at)?;
        }
        Ok(())
    }

    // Notes a segment that is one step before an entry, and the segments of its thread before it,
    // as far as they are new.
    fn reach(&mut self, source: Segment, at: usize) -> Result<(), AllocError>
        requires thread { source.thread < length self.old.clock }
        requires small { source.index + 1 < 2 ^ 32 }
        ensures target { self.new.target ≡ self.old.target }
        ensures found { OnOk result
            (self.new.found.items
            ≡ self.old.found.items ++ links_back source at (length self.old.found.items)
            (source.index + 1 - slice_index self.old.clock source.thread)) }
        ensures clock { OnOk result
            (self.new.clock
            ≡ slice_set self.old.clock source.thread
            (max (slice_index self.old.clock source.thread) (source.index + 1))) }
    {
        let known = self.clock.ahead(source.thread);
        if source.index < known {
            return Ok(());
        }
        let end = source.index + 1;
        let mut next = at;
        for index in (known..end).rev() {
            let this = self.found.len();
            let segment = Segment {
                thread: source.thread,
                index,
            };
            self.found.push(Link { segment, next })?;
            next = this;
        }
        self.clock.set(source.thread, end);
        Ok(())
    }

    /// The segments along the links from the target, which was found before itself, back to it.
    pub fn ring(&self, alloc: Global) -> Result<Vec<Segment>, AllocError>
        requires found { IsFound self.now.found.items self.now.target }
        requires linked { (k : ℕ) (l : Link) → 0 < k
            → slice_get self.now.found.items k ≡ Some l
            → l.next < k }
        ensures { IfOk result
            (λ v. (k : ℕ) × (l : Link) × (0 < k)
            × (slice_get self.now.found.items k ≡ Some l)
            × (l.segment ≡ self.now.target) × FollowsLinks self.now.found.items k v.items) }
    {
        for (k, link) in self.found.iter().enumerate() {
            if k > 0 && link.segment == self.target {
                return chain(alloc, &self.found, k);
            }
        }
        unreachable!()
    }
}

// The segments along the links from an entry to the first one, which is left out.
fn chain(alloc: Global, found: &[Link], from: usize) -> Result<Vec<Segment>, AllocError>
    requires within { from < length found.now }
    requires linked { (k : ℕ) (l : Link) → 0 < k → slice_get found.now k ≡ Some l
        → l.next < k }
    ensures { IfOk result (λ v. FollowsLinks found.now from v.items) }
{
    let mut segments = Vec::new(alloc);
    let mut at = from;
    while at > 0 {
        let link = found[at];
        segments.push(link.segment)?;
        at = link.next;
    }
    Ok(segments)
}
