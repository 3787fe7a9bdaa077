//! What a sweep over the steps knows of each thread.
ghost use Rattle.std.specs.Prelude.{◌≡◌, ◌+◌, ◌<◌, ◌≤◌, ◌^◌, true, length, slice_get, slice_set, Some, IfOk, OnOk};
ghost use Rattle.gl_event.specs.declared.events.Segment.{Segment};
ghost use Rattle.gl_segments.specs.Clocks.{clock_at};
ghost use Rattle.gl_segments.specs.bodies.Fronts.{first_of};
ghost use Rattle.gl_segments.specs.bodies.Histories.{AddsNoClock, KeepsClocks};
ghost use Rattle.gl_segments.specs.bodies.Merging.{raised_to, IsMerged};
ghost use Rattle.gl_segments.specs.bodies.Rows.{AreClocksTo};
ghost use Rattle.gl_segments.specs.bodies.Search.{Counts, IsClockOf};
ghost use Rattle.gl_segments.specs.bodies.Sweeps.{is_ended, FrontsFit, HaveRows, IsPart, IsRow, RaisesFront};
ghost use Rattle.gl_segments.specs.bodies.Tables.{Sources, IsSound, LeadsTo};

use crate::clock::Clock;
use crate::halts::Halt;
use crate::history::{Growing, History};
use gl_event::{Segment, ThreadId};
use std::alloc::{AllocError, Global};
use std::marker::Model;
use std::mem;

/// What is known of a thread.
#[derive(Drop)]
pub enum Row {
    /// No clock of it is made. These are counts of what is before its first segment, without zeros
    /// after them.
    Waiting(Vec<u32>),
    /// The clocks of its first segments are made.
    Begun(Growing),
    /// All of its clocks are made.
    Ended(History),
}

/// What is known of each thread.
pub struct Rows {
    rows: Vec<Row>,
}

// Written out, so that it is proved once: a derived drop is proved again wherever one is let go.
impl Drop for Rows {
    fn drop(self) {
        let Rows { rows } = self;
    }
}

impl Model for Rows {
    ghost use Rattle.std.specs.Prelude.{List};
    ghost use Rattle.gl_segments.specs.declared.rows.Row.{Row};

    ghost Value = { List Row };

    ghost view = { λ r. r.rows.items };
}

impl Rows {
    /// Nothing is known.
    pub fn new(alloc: Global, threads: usize) -> Result<Rows, AllocError>
        ensures size { IfOk result (λ r. length r ≡ threads) }
        ensures rows { IfOk result (λ r. (steps : Sources) → HaveRows steps r) }
    {
        let mut rows = Vec::with_capacity(alloc, threads)?;
        for _ in 0..threads {
            rows.push(Row::Waiting(Vec::new(alloc)))?;
        }
        Ok(Rows { rows })
    }

    /// Takes out what is known of a thread.
    pub fn take(&mut self, alloc: Global, thread: ThreadId) -> Row
        requires { thread < length self.old }
        ensures size { length self.new ≡ length self.old }
        ensures taken { slice_get self.old thread ≡ Some result }
        ensures rows { (steps : Sources) → HaveRows steps self.old → HaveRows steps self.new }
    {
        let nothing = Row::Waiting(Vec::new(alloc));
        mem::replace(&mut self.rows[thread.number() as usize], nothing)
    }

    /// Puts in what is known of a thread.
    pub fn put(&mut self, thread: ThreadId, row: Row)
        requires { thread < length self.old }
        ensures size { length self.new ≡ length self.old }
        ensures set { self.new ≡ slice_set self.old thread row }
        ensures rows { (steps : Sources) → IsRow steps thread row → HaveRows steps self.old
            → HaveRows steps self.new }
    {
        self.rows[thread.number() as usize] = row;
    }

    /// Whether all clocks of the thread are made.
    pub fn is_ended(&self, thread: ThreadId) -> bool
        ensures { result ≡ is_ended self.now thread }
    {
        matches!(self.rows.get(thread.number() as usize), Some(Row::Ended(_)))
    }

    /// Takes the clock of a segment into the latest counts of a thread, and the segment itself, where
    /// all clocks of its thread are made.
    pub fn merge_ended(&self, growing: &mut Growing, source: Segment) -> Result<(), AllocError>
        requires width { length growing.old.latest < 2 ^ 32 }
        requires within { source.thread < length growing.old.latest }
        requires small { source.index + 1 < 2 ^ 32 }
        ensures still { AddsNoClock growing.old growing.new }
        ensures kept { OnOk result
            ((s : Segment) → Counts growing.old.latest s → Counts growing.new.latest s) }
        ensures counted { OnOk result
            (is_ended self.now source.thread ≡ true → Counts growing.new.latest source) }
        ensures part { OnOk result
            ((steps : Sources) (target : Segment) → IsSound steps → HaveRows steps self.now
            → LeadsTo steps source target → IsPart steps growing.old.latest target
            → IsPart steps growing.new.latest target) }
        ensures noted { OnOk result (KeepsClocks growing.old growing.new) }
    {
        match self.rows.get(source.thread.number() as usize) {
            Some(Row::Ended(history)) => {
                merge_segment(growing, history, source)?;
                Ok(())
            }
            _ => Ok(()),
        }
    }

    /// Raises the counts of what is before the first segment of a thread that a fork in this segment
    /// starts, by the segment and its clock. A thread of which a clock is made is left as it is.
    pub fn raise_front(
        &mut self,
        alloc: Global,
        thread: ThreadId,
        from: Segment,
        clock: &Clock,
    ) -> Result<(), AllocError>
        requires fit { FrontsFit self.old (length clock.now) }
        requires threads { length clock.now < 2 ^ 32 }
        requires within { from.thread < length clock.now }
        requires small { from.index + 1 < 2 ^ 32 }
        ensures size { length self.new ≡ length self.old }
        ensures raised { OnOk result (RaisesFront self.old self.new thread from) }
        ensures rows { OnOk result
            ((steps : Sources) → IsSound steps → length clock.now ≡ length steps
            → IsClockOf steps clock.now from → ¬ Counts clock.now from
            → LeadsTo steps from (first_of thread) → HaveRows steps self.old
            → HaveRows steps self.new) }
    {
        let place = thread.number() as usize;
        if place >= self.rows.len() {
            return Ok(());
        }
        if let Row::Waiting(front) = &self.rows[place] {
            let front = raised(alloc, front, from, clock)?.front(alloc)?;
            self.put(thread, Row::Waiting(front));
        }
        Ok(())
    }

    /// The clocks of all threads, where all are made.
    pub fn histories(self, alloc: Global) -> Result<Vec<History>, Halt>
        ensures { (steps : Sources) → HaveRows steps self
            → IfOk result (λ v. AreClocksTo steps v.items (length self)) }
    {
        let Rows { rows } = self;
        let mut histories = Vec::new(alloc);
        for row in rows {
            let Row::Ended(history) = row else {
                return Err(Halt::Stuck);
            };
            histories.push(history)?;
        }
        Ok(histories)
    }
}

// Takes a segment, and what is before it, into the latest counts.
fn merge_segment(
    growing: &mut Growing,
    history: &History,
    source: Segment,
) -> Result<(), AllocError>
    requires width { length growing.old.latest < 2 ^ 32 }
    requires within { source.thread < length growing.old.latest }
    requires small { source.index + 1 < 2 ^ 32 }
    ensures still { AddsNoClock growing.old growing.new }
    ensures latest { OnOk result
        (IsMerged (raised_to growing.old.latest source)
        (clock_at history.now source.index) growing.new.latest
        (length growing.old.latest)) }
    ensures noted { OnOk result (KeepsClocks growing.old growing.new) }
{
    growing.raise(source.thread, source.index + 1)?;
    growing.merge(history, source.index)
}

// The counts of a segment's clock, with the segment itself, raised to these.
fn raised(alloc: Global, front: &[u32], from: Segment, clock: &Clock) -> Result<Clock, AllocError>
    requires few { length front.now ≤ length clock.now }
    requires threads { length clock.now < 2 ^ 32 }
    requires within { from.thread < length clock.now }
    requires small { from.index + 1 < 2 ^ 32 }
    ensures { IfOk result
        (λ c. IsMerged (slice_set clock.now from.thread (from.index + 1)) front.now c
        (length front.now)) }
{
    let mut raised = clock.copy(alloc)?;
    raised.set(from.thread, from.index + 1);
    for (thread, count) in front.iter().enumerate() {
        raised.raise(ThreadId::new(thread as u32), *count);
    }
    Ok(raised)
}
