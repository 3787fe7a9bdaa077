//! Clocks made forwards: each from those of the segments one step before it.
//!
//! A thread goes on as far as it can. Where it must wait for another thread, that one goes on first:
//! until it ends, or until it must wait itself. So a thread waits for a segment at most once, unless
//! segments wait for each other, and then some segment is before itself. Of this nothing is proved: a
//! clock is taken only where it counts all that is one step before its segment, and not the segment
//! itself.
ghost use Rattle.std.specs.Prelude.{◌≡◌, ◌+◌, ◌-◌, ◌*◌, ◌^◌, ◌<◌, None, length, min, IfOk, OnOk};
ghost use Rattle.std.specs.List.{find};
ghost use Rattle.std.specs.Option.{option_map};
ghost use Rattle.gl_segments.specs.bodies.Fronts.{first_of, AreStarting, IsFront};
ghost use Rattle.gl_segments.specs.bodies.Histories.{AddsNoClock, KeepsClocks};
ghost use Rattle.gl_segments.specs.bodies.Rows.{AreClocksTo};
ghost use Rattle.gl_segments.specs.bodies.Search.{Counts, IsClockOf, CountsSources};
ghost use Rattle.gl_segments.specs.bodies.Sweeps.{is_awaited, AreSwept, CanSweep, CountsAll, CountsEnded, HaveRows, IsGrowing, IsPart};
ghost use Rattle.gl_segments.specs.bodies.Tables.{Sources, segments_of, steps_of_thread, Has, IsSound};

use crate::clock::Clock;
use crate::forked::Spawn;
use crate::halts::Halt;
use crate::history::{Growing, History};
use crate::rows::{Row, Rows};
use crate::steps::Steps;
use gl_event::{Segment, ThreadId};
use std::alloc::{AllocError, Global};

/// How far a sweep has come.
pub struct Sweep {
    /// The forks, by the segment that they close.
    pub forks: Vec<Spawn>,
    /// What is known of each thread.
    pub rows: Rows,
}

// Written out, so that it is proved once: a derived drop is proved again wherever one is let go.
impl Drop for Sweep {
    fn drop(self) {
        let Sweep { forks, rows } = self;
    }
}

/// The clocks of all segments, unless some segment is before itself.
pub fn clocks(alloc: Global, steps: &Steps) -> Result<Vec<History>, Halt>
    requires { IsSound steps.now }
    ensures { IfOk result (λ v. AreClocksTo steps.now v.items (length steps.now)) }
{
    let mut sweep = Sweep::new(alloc, steps)?;
    let limit = limit(steps, sweep.forks.len());
    for thread in (0..steps.threads()).rev() {
        sweep.end(alloc, steps, ThreadId::new(thread as u32), limit)?;
    }
    sweep.finish(alloc)
}

// More often than this no thread goes on, where all can come to their ends.
fn limit(steps: &Steps, forks: usize) -> usize
    requires { IsSound steps.now }
    ensures { result ≡ min ((forks + segments_of steps.now) * 2) (2 ^ 64 - 1) }
{
    let mut limit = forks;
    for thread in 0..steps.threads() {
        let segments = steps.segments(ThreadId::new(thread as u32));
        limit = limit.saturating_add(segments);
    }
    limit.saturating_mul(2)
}

impl Sweep {
    // Nothing is known.
    fn new(alloc: Global, steps: &Steps) -> Result<Sweep, AllocError>
        requires { IsSound steps.now }
        ensures { IfOk result (λ s. AreSwept steps.now s) }
    {
        let mut forks = all_starting(alloc, steps)?;
        forks.sort_by_key(|s| s.from)?;
        let rows = Rows::new(alloc, steps.threads())?;
        Ok(Sweep { forks, rows })
    }

    // The clocks of all threads, where all are made.
    fn finish(self, alloc: Global) -> Result<Vec<History>, Halt>
        ensures { (steps : Sources) → AreSwept steps self
            → IfOk result (λ v. AreClocksTo steps v.items (length steps)) }
    {
        let Sweep { forks, rows } = self;
        drop(forks);
        rows.histories(alloc)
    }

    // Makes all clocks of a thread, and of those for which it must wait.
    fn end(
        &mut self,
        alloc: Global,
        steps: &Steps,
        thread: ThreadId,
        limit: usize,
    ) -> Result<(), Halt>
        requires sweeps { CanSweep steps.now self.old }
        ensures { OnOk result (AreSwept steps.now self.new) }
    {
        let mut waiting = Vec::new(alloc);
        waiting.push(thread)?;
        for _ in 0..limit {
            let Some(thread) = waiting.pop() else {
                return Ok(());
            };
            if let Some(other) = self.go_on(alloc, steps, thread)? {
                waiting.push(thread)?;
                waiting.push(other)?;
            }
        }
        Err(Halt::Stuck)
    }

    // Makes the clocks of a thread as far as it can, and tells for which other one it must wait then.
    fn go_on(
        &mut self,
        alloc: Global,
        steps: &Steps,
        thread: ThreadId,
    ) -> Result<Option<ThreadId>, Halt>
        requires sweeps { CanSweep steps.now self.old }
        ensures { OnOk result (AreSwept steps.now self.new) }
    {
        if thread.number() as usize >= steps.threads() {
            return Err(Halt::Stuck);
        }
        match self.rows.take(alloc, thread) {
            Row::Waiting(front) => self.begin(alloc, steps, thread, front),
            Row::Begun(growing) => self.grow(alloc, steps, thread, growing),
            Row::Ended(history) => {
                self.rows.put(thread, Row::Ended(history));
                Ok(None)
            }
        }
    }

    // Makes the clocks of a thread of which none is made.
    fn begin(
        &mut self,
        alloc: Global,
        steps: &Steps,
        thread: ThreadId,
        front: Vec<u32>,
    ) -> Result<Option<ThreadId>, Halt>
        requires sweeps { CanSweep steps.now self.old }
        requires within { thread < length steps.now }
        requires front { IsFront steps.now front.items (first_of thread) }
        ensures { OnOk result (AreSwept steps.now self.new) }
    {
        let sources = steps.sources(Segment { thread, index: 0 });
        if let Some(source) = uncounted(sources, &front) {
            self.rows.put(thread, Row::Waiting(front));
            return Ok(Some(source.thread));
        }
        let growing = begun(alloc, steps, thread, &front)?;
        self.fork(alloc, steps, thread, 0, &growing.latest)?;
        self.grow(alloc, steps, thread, growing)
    }

    // Makes the clocks of a thread of which one is made.
    fn grow(
        &mut self,
        alloc: Global,
        steps: &Steps,
        thread: ThreadId,
        growing: Growing,
    ) -> Result<Option<ThreadId>, Halt>
        requires sweeps { CanSweep steps.now self.old }
        requires within { thread < length steps.now }
        requires growing { IsGrowing steps.now thread growing }
        ensures { OnOk result (AreSwept steps.now self.new) }
    {
        let mut growing = growing;
        while (growing.segments as usize) < steps.segments(thread) {
            if let Some(other) = self.add(alloc, steps, thread, &mut growing)? {
                self.rows.put(thread, Row::Begun(growing));
                return Ok(Some(other));
            }
        }
        let history = growing.finish(alloc)?;
        self.rows.put(thread, Row::Ended(history));
        Ok(None)
    }

    // Makes the clock of the thread's next segment, or tells for which thread it must wait.
    fn add(
        &mut self,
        alloc: Global,
        steps: &Steps,
        thread: ThreadId,
        growing: &mut Growing,
    ) -> Result<Option<ThreadId>, Halt>
        requires sweeps { CanSweep steps.now self.old }
        requires has { growing.old.segments < length (steps_of_thread steps.now thread) }
        requires growing { IsGrowing steps.now thread growing.old }
        ensures swept { OnOk result (AreSwept steps.now self.new) }
        ensures growing { OnOk result (IsGrowing steps.now thread growing.new) }
        ensures more { IfOk result
            (λ o. o ≡ None → growing.new.segments ≡ growing.old.segments + 1) }
    {
        let index = growing.segments;
        let sources = steps.sources(Segment { thread, index });
        if let Some(other) = self.awaited(sources, growing) {
            return Ok(Some(other));
        }
        make_next_clock(steps, &self.rows, thread, growing)?;
        self.fork(alloc, steps, thread, index, &growing.latest)?;
        Ok(None)
    }

    // The first thread that must end before a segment of this one with these sources can have its
    // clock.
    fn awaited(&self, sources: &[Segment], growing: &Growing) -> Option<ThreadId>
        ensures { result
            ≡ option_map (λ source. source.thread)
            (find (is_awaited self.now.rows growing.now) sources.now) }
    {
        for source in sources {
            let thread = source.thread;
            let is_own = thread.number() == growing.thread.number();
            let is_counted = source.index < growing.latest.ahead(thread);
            if !is_own && !is_counted && !self.rows.is_ended(thread) {
                return Some(thread);
            }
        }
        None
    }

    // Tells the thread that a fork in this segment starts what is before it.
    fn fork(
        &mut self,
        alloc: Global,
        steps: &Steps,
        thread: ThreadId,
        index: u32,
        clock: &Clock,
    ) -> Result<(), AllocError>
        requires sweeps { CanSweep steps.now self.old }
        requires has { index < length (steps_of_thread steps.now thread) }
        requires width { length clock.now ≡ length steps.now }
        requires clock { IsClockOf steps.now clock.now (record { thread = thread; index = index }) }
        requires apart { ¬ Counts clock.now (record { thread = thread; index = index }) }
        ensures { OnOk result (AreSwept steps.now self.new) }
    {
        let from = Segment { thread, index };
        let place = self
            .forks
            .partition_point(|s: &Spawn| -> bool { s.from < from });
        match self.forks.get(place) {
            Some(fork) if fork.from == from => {
                self.rows.raise_front(alloc, fork.thread, from, clock)?;
                Ok(())
            }
            _ => Ok(()),
        }
    }
}

// A fork of each thread, for each that there is, by the segment that it closes.
fn all_starting(alloc: Global, steps: &Steps) -> Result<Vec<Spawn>, AllocError>
    requires { IsSound steps.now }
    ensures { IfOk result (λ v. AreStarting steps.now v.items) }
{
    let mut forks = Vec::new(alloc);
    for thread in 0..steps.threads() {
        add_starting(&mut forks, steps, ThreadId::new(thread as u32))?;
    }
    Ok(forks)
}

// Adds the forks of one thread.
fn add_starting(forks: &mut Vec<Spawn>, steps: &Steps, thread: ThreadId) -> Result<(), AllocError>
    requires sound { IsSound steps.now }
    requires within { thread < length steps.now }
    ensures { OnOk result (AreStarting steps.now forks.old.items
        → AreStarting steps.now forks.new.items) }
{
    let first = Segment { thread, index: 0 };
    for source in steps.sources(first) {
        let from = *source;
        forks.push(Spawn { thread, from })?;
    }
    Ok(())
}

// The first of these segments that isn't counted.
fn uncounted(segments: &[Segment], counts: &[u32]) -> Option<Segment>
    ensures { result ≡ None → CountsAll counts.now segments.now }
{
    for segment in segments {
        let counted = match counts.get(segment.thread.number() as usize) {
            Some(count) => *count,
            None => 0,
        };
        if segment.index >= counted {
            return Some(*segment);
        }
    }
    None
}

// The clock of a thread's first segment, of which all sources are counted.
fn begun(
    alloc: Global,
    steps: &Steps,
    thread: ThreadId,
    front: &[u32],
) -> Result<Growing, AllocError>
    requires sound { IsSound steps.now }
    requires within { thread < length steps.now }
    requires front { IsFront steps.now front.now (first_of thread) }
    requires all { CountsSources steps.now front.now (first_of thread) }
    ensures { IfOk result (λ g. IsGrowing steps.now thread g × (g.segments ≡ 1)) }
{
    let clock = Clock::from_front(alloc, front, steps.threads())?;
    let mut growing = Growing::new(alloc, thread, steps.threads())?;
    growing.push(alloc, &clock, &[])?;
    Ok(growing)
}

// Makes the clock of a thread's next segment.
fn make_next_clock(
    steps: &Steps,
    rows: &Rows,
    thread: ThreadId,
    growing: &mut Growing,
) -> Result<(), Halt>
    requires sound { IsSound steps.now }
    requires has { growing.old.segments < length (steps_of_thread steps.now thread) }
    requires growing { IsGrowing steps.now thread growing.old }
    requires rows { HaveRows steps.now rows.now }
    ensures growing { OnOk result (IsGrowing steps.now thread growing.new) }
    ensures more { OnOk result (growing.new.segments ≡ growing.old.segments + 1) }
{
    let index = growing.segments;
    growing.note_count(thread, index)?;
    merge_sources(steps, rows, growing, Segment { thread, index })?;
    let sources = steps.sources(Segment { thread, index });
    if uncounted(sources, growing.latest.counts()).is_some() {
        return Err(Halt::Stuck);
    }
    if index < growing.latest.ahead(thread) {
        return Err(Halt::Stuck);
    }
    growing.push_latest();
    Ok(())
}

// Takes each source of the segment that isn't counted, and its clock, into the latest counts.
fn merge_sources(
    steps: &Steps,
    rows: &Rows,
    growing: &mut Growing,
    at: Segment,
) -> Result<(), AllocError>
    requires sound { IsSound steps.now }
    requires has { Has steps.now at }
    requires part { IsPart steps.now growing.old.latest at }
    requires rows { HaveRows steps.now rows.now }
    ensures still { AddsNoClock growing.old growing.new }
    ensures part { OnOk result (IsPart steps.now growing.new.latest at) }
    ensures ended { OnOk result (CountsEnded steps.now rows.now growing.new.latest at) }
    ensures noted { OnOk result (KeepsClocks growing.old growing.new) }
{
    for source in steps.sources(at) {
        if source.index >= growing.latest.ahead(source.thread) {
            rows.merge_ended(growing, *source)?;
        }
    }
    Ok(())
}
