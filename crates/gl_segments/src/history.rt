//! The clocks of one thread's segments, kept by where they grow.
//!
//! Along a thread, what is before its segments only grows, and most of its segments add nothing to
//! it. So a clock is kept for the first segment alone, and then each growth: from which segment on
//! how many segments of which thread are before.
ghost use Rattle.std.specs.Prelude.{◌≡◌, ℕ, ◌+◌, ◌<◌, ◌^◌, List, [], ◌∷◌, ◌++◌, length, max, slice_get, slice_index, slice_set, Some, IfOk, OnOk};
ghost use Rattle.std.specs.List.Sorted.{IsNonDecreasingBy};
ghost use Rattle.gl_segments.specs.Clocks.{clock_at};
ghost use Rattle.gl_segments.specs.declared.growths.Growth.{Growth};
ghost use Rattle.gl_segments.specs.bodies.Histories.{count_at, AddsNoClock, AreOrdered, IsNoted, KeepsClocks};
ghost use Rattle.gl_segments.specs.bodies.Search.{IsAmong, GrowsBy};
ghost use Rattle.gl_segments.specs.bodies.Merging.{IsMerged, IsReached};

use crate::clock::Clock;
use crate::growths::{Growth, Growths};
use crate::search::Link;
use gl_event::ThreadId;
use std::alloc::{AllocError, Global};
use std::marker::Model;

/// The clocks of the segments of one thread.
#[derive(Drop, Debug)]
pub struct History {
    thread: ThreadId,
    segments: u32,
    threads: usize,
    /// The first segment's clock, without the zeros at its end.
    first: Vec<u32>,
    /// Where other threads' counts change after that, by thread and then by segment.
    growths: Growths,
}

impl Model for History {
    ghost use Rattle.std.specs.Prelude.{ℕ, List};
    ghost use Rattle.gl_segments.specs.bodies.Histories.{clocks_along, AreOrdered};

    ghost Value = { List (List ℕ) };

    ghost view = { λ h. clocks_along h.thread h.segments h.threads h.first.items h.growths };

    ghost invariant = { λ h. AreOrdered h.growths };
}

impl History {
    /// How many segments of the other thread are before the segment of this index: 0, where either
    /// isn't known. Takes time as the logarithm of how many growths there are.
    pub fn ahead(&self, index: u32, thread: ThreadId) -> u32
        ensures { result ≡ slice_index (clock_at self.now index) thread }
    {
        if index >= self.segments {
            return 0;
        }
        if thread.number() as usize >= self.threads {
            return 0;
        }
        if thread.number() == self.thread.number() {
            return index;
        }
        let first = count_of(&self.first, thread);
        count_in(&self.growths, first, index, thread)
    }
}

// The count of this thread: 0, where there is none.
fn count_of(counts: &[u32], thread: ThreadId) -> u32
    ensures { result ≡ slice_index counts.now thread }
{
    match counts.get(thread.number() as usize) {
        Some(count) => *count,
        None => 0,
    }
}

// How many segments of the thread are before the segment of this index, where so many are before
// the first segment.
fn count_in(growths: &Growths, first: u32, index: u32, thread: ThreadId) -> u32
    requires { AreOrdered growths.now }
    ensures { result ≡ count_at first growths.now index thread }
{
    let until = growths.up_to(index, thread);
    if until == 0 {
        return first;
    }
    let last = growths.get(until - 1);
    if last.thread.number() == thread.number() {
        return last.count;
    }
    first
}

/// The clocks of the first segments of one thread, as they come.
pub struct Growing {
    pub thread: ThreadId,
    /// How many clocks came.
    pub segments: u32,
    /// The first clock, without the zeros at its end.
    pub first: Vec<u32>,
    /// The last clock, which is raised to the next one.
    pub latest: Clock,
    /// Where other threads' counts changed after the first clock, by segment.
    pub growths: Vec<Growth>,
}

// Written out, so that it is proved once: a derived drop is proved again wherever one is let go.
impl Drop for Growing {
    fn drop(self) {
        let Growing {
            thread,
            segments,
            first,
            latest,
            growths,
        } = self;
    }
}

impl Growing {
    /// No clocks, of a thread among these many.
    pub fn new(alloc: Global, thread: ThreadId, threads: usize) -> Result<Growing, AllocError>
        ensures thread { IfOk result (λ g. g.thread ≡ thread) }
        ensures threads { IfOk result (λ g. length g.latest ≡ threads) }
        ensures noted { IfOk result (λ g. IsNoted g []) }
    {
        Ok(Growing {
            thread,
            segments: 0,
            first: Vec::new(alloc),
            latest: Clock::new(alloc, threads)?,
            growths: Vec::new(alloc),
        })
    }

    /// Adds the clock of the thread's next segment. What was found since the last one has an entry
    /// of each thread whose count is another: no other threads are looked at.
    pub fn push(&mut self, alloc: Global, clock: &Clock, found: &[Link]) -> Result<(), AllocError>
        requires room { self.old.segments + 1 < 2 ^ 32 }
        requires width { length clock.now ≡ length self.old.latest }
        requires among { IsAmong found.now (length clock.now) }
        requires grown { 0 < self.old.segments → GrowsBy self.old.latest found.now clock.now }
        ensures thread { self.new.thread ≡ self.old.thread }
        ensures latest { OnOk result (self.new.latest ≡ clock.now) }
        ensures segments { OnOk result (self.new.segments ≡ self.old.segments + 1) }
        ensures noted { OnOk result
            ((clocks : List (List ℕ)) → IsNoted self.old clocks
            → slice_index clock.now self.old.thread ≡ length clocks
            → IsNoted self.new (clocks ++ clock.now ∷ [])) }
    {
        self.keep(alloc, clock, found)?;
        self.push_latest();
        Ok(())
    }

    /// Takes the latest counts as the clock of the thread's next segment.
    pub fn push_latest(&mut self)
        requires room { self.old.segments + 1 < 2 ^ 32 }
        ensures thread { self.new.thread ≡ self.old.thread }
        ensures latest { self.new.latest ≡ self.old.latest }
        ensures segments { self.new.segments ≡ self.old.segments + 1 }
        ensures noted { (clocks : List (List ℕ)) → IsNoted self.old clocks
            → slice_index self.old.latest self.old.thread ≡ length clocks
            → IsNoted self.new (clocks ++ self.old.latest ∷ []) }
    {
        self.segments += 1;
    }

    // Makes the next clock the latest one, and keeps what is new in it.
    fn keep(&mut self, alloc: Global, clock: &Clock, found: &[Link]) -> Result<(), AllocError>
        requires width { length clock.now ≡ length self.old.latest }
        requires among { IsAmong found.now (length clock.now) }
        requires grown { 0 < self.old.segments → GrowsBy self.old.latest found.now clock.now }
        ensures still { AddsNoClock self.old self.new }
        ensures latest { OnOk result (self.new.latest ≡ clock.now) }
        ensures noted { OnOk result
            ((clocks : List (List ℕ)) → IsNoted self.old clocks → IsNoted self.new clocks) }
    {
        if self.segments == 0 {
            return self.begin(alloc, clock);
        }
        self.note(clock, found)
    }

    // Keeps the first clock.
    fn begin(&mut self, alloc: Global, clock: &Clock) -> Result<(), AllocError>
        ensures still { AddsNoClock self.old self.new }
        ensures latest { OnOk result (self.new.latest ≡ clock.now) }
        ensures noted { OnOk result
            ((clocks : List (List ℕ)) → length clocks ≡ 0 → IsNoted self.old clocks
            → IsNoted self.new clocks) }
    {
        self.first = clock.front(alloc)?;
        self.latest = clock.copy(alloc)?;
        Ok(())
    }

    // Notes where the next clock differs from the last one, which it becomes.
    fn note(&mut self, clock: &Clock, found: &[Link]) -> Result<(), AllocError>
        requires width { length clock.now ≡ length self.old.latest }
        requires among { IsAmong found.now (length clock.now) }
        requires grown { GrowsBy self.old.latest found.now clock.now }
        ensures still { AddsNoClock self.old self.new }
        ensures latest { OnOk result (self.new.latest ≡ clock.now) }
        ensures noted { OnOk result (KeepsClocks self.old self.new) }
    {
        for link in found {
            let thread = link.segment.thread;
            self.note_count(thread, clock.ahead(thread))?;
        }
        Ok(())
    }

    /// Notes the next count of a thread.
    pub fn note_count(&mut self, thread: ThreadId, count: u32) -> Result<(), AllocError>
        requires { thread < length self.old.latest }
        ensures still { AddsNoClock self.old self.new }
        ensures latest { OnOk result (self.new.latest ≡ slice_set self.old.latest thread count) }
        ensures noted { OnOk result (KeepsClocks self.old self.new) }
    {
        if self.latest.ahead(thread) == count {
            return Ok(());
        }
        self.latest.set(thread, count);
        if thread.number() == self.thread.number() {
            return Ok(());
        }
        self.growths.push(Growth {
            thread,
            from: self.segments,
            count,
        })?;
        Ok(())
    }

    /// Notes the next count of a thread, where it is greater than the latest one.
    pub fn raise(&mut self, thread: ThreadId, count: u32) -> Result<(), AllocError>
        requires { thread < length self.old.latest }
        ensures still { AddsNoClock self.old self.new }
        ensures latest { OnOk result
            (self.new.latest ≡ slice_set self.old.latest thread
            (max (slice_index self.old.latest thread) count)) }
        ensures noted { OnOk result (KeepsClocks self.old self.new) }
    {
        if count <= self.latest.ahead(thread) {
            return Ok(());
        }
        self.note_count(thread, count)
    }

    /// Raises the latest counts to those of a clock of another thread. It looks at each number that
    /// is kept of that one, and asks for the clock's count only where it may be the greater one.
    pub fn merge(&mut self, other: &History, index: u32) -> Result<(), AllocError>
        requires { length self.old.latest < 2 ^ 32 }
        ensures still { AddsNoClock self.old self.new }
        ensures latest { OnOk result
            (IsMerged self.old.latest (clock_at other.now index) self.new.latest
            (length self.old.latest)) }
        ensures noted { OnOk result (KeepsClocks self.old self.new) }
    {
        self.reach(other, index, other.thread, index)?;
        self.reach_first(other, index, &other.first)?;
        self.reach_growths(other, index, &other.growths)?;
        Ok(())
    }

    // The same for each thread that the other thread's first clock counts.
    fn reach_first(&mut self, other: &History, index: u32, first: &[u32]) -> Result<(), AllocError>
        requires { length self.old.latest < 2 ^ 32 }
        ensures still { AddsNoClock self.old self.new }
        ensures latest { OnOk result
            (IsMerged self.old.latest (clock_at other.now index) self.new.latest 0) }
        ensures reached { OnOk result
            ((k : ℕ) → k < length first.now
            → IsReached (clock_at other.now index) self.new.latest k
            (slice_index first.now k)) }
        ensures noted { OnOk result (KeepsClocks self.old self.new) }
    {
        let threads = first.len().min(self.latest.threads());
        for place in 0..threads {
            let thread = ThreadId::new(place as u32);
            self.reach(other, index, thread, first[place])?;
        }
        Ok(())
    }

    // The same for each thread that has a growth of the other thread.
    fn reach_growths(
        &mut self,
        other: &History,
        index: u32,
        growths: &Growths,
    ) -> Result<(), AllocError>
        ensures still { AddsNoClock self.old self.new }
        ensures latest { OnOk result
            (IsMerged self.old.latest (clock_at other.now index) self.new.latest 0) }
        ensures reached { OnOk result
            ((p : ℕ) (g : Growth) → slice_get growths.now p ≡ Some g
            → IsReached (clock_at other.now index) self.new.latest g.thread g.count) }
        ensures noted { OnOk result (KeepsClocks self.old self.new) }
    {
        for at in 0..growths.len() {
            let growth = growths.get(at);
            self.reach(other, index, growth.thread, growth.count)?;
        }
        Ok(())
    }

    // Raises the latest count of a thread to the other clock's, where that may be as great as this.
    fn reach(
        &mut self,
        other: &History,
        index: u32,
        thread: ThreadId,
        count: u32,
    ) -> Result<(), AllocError>
        ensures still { AddsNoClock self.old self.new }
        ensures latest { OnOk result
            (IsMerged self.old.latest (clock_at other.now index) self.new.latest 0) }
        ensures reached { OnOk result
            (IsReached (clock_at other.now index) self.new.latest thread count) }
        ensures noted { OnOk result (KeepsClocks self.old self.new) }
    {
        if count <= self.latest.ahead(thread) {
            return Ok(());
        }
        if thread.number() as usize >= self.latest.threads() {
            return Ok(());
        }
        self.raise(thread, other.ahead(index, thread))?;
        Ok(())
    }

    /// The history that has these clocks.
    pub fn finish(self, alloc: Global) -> Result<History, AllocError>
        requires rising { IsNonDecreasingBy (λ g. g.from) self.growths.items }
        ensures { IfOk result
            (λ h. (clocks : List (List ℕ)) → IsNoted self clocks → h ≡ clocks) }
    {
        let Growing {
            thread,
            segments,
            first,
            latest,
            mut growths,
        } = self;
        growths.sort_by_key(|g| g.thread.number())?;
        let growths = Growths::new(alloc, growths)?;
        Ok(History {
            thread,
            segments,
            threads: latest.threads(),
            first,
            growths,
        })
    }
}
