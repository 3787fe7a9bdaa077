//! The forks, by the thread that they start.
ghost use Rattle.std.specs.Prelude.{◌≡◌, ◌↔◌, ◌<◌, ◌≤◌, ◌^◌, length, map, nat_le, nat_lt, Contains, IfOk, OnOk};
ghost use Rattle.std.specs.List.Sorted.{IsNonDecreasingBy, IsPartitionPoint};
ghost use Rattle.gl_event.specs.Lawful.{lists_of};
ghost use Rattle.gl_segments.specs.bodies.Packing.{between};
ghost use Rattle.gl_segments.specs.bodies.Tables.{AreSmall};
ghost use Rattle.gl_segments.specs.bodies.Forked.{AddsForks, AreAllForks};

use gl_event::{Event, Segment, ThreadId};
use std::alloc::{AllocError, Global};
use std::marker::Model;

/// A fork.
#[derive(Clone, Copy, Debug)]
pub struct Spawn {
    /// The thread that it starts.
    pub thread: ThreadId,
    /// The segment that it closes.
    pub from: Segment,
}

/// All forks of lists of events.
#[derive(Drop)]
pub struct Forked {
    /// They stand by the thread that they start.
    forks: Vec<Spawn>,
}

impl Model for Forked {
    ghost use Rattle.std.specs.Prelude.{List};
    ghost use Rattle.std.specs.List.Sorted.{IsNonDecreasingBy};
    ghost use Rattle.gl_segments.specs.declared.forked.Spawn.{Spawn};

    ghost Value = { List Spawn };

    ghost view = { λ f. f.forks.items };

    ghost invariant = { λ f. IsNonDecreasingBy (λ s. s.thread) f.forks.items };
}

impl Forked {
    /// The forks of these lists of forks and joins. Takes the time to sort them.
    pub fn of(alloc: Global, cuts: &[Vec<Event>]) -> Result<Forked, AllocError>
        requires { AreSmall (lists_of cuts.now) }
        ensures { IfOk result (λ f. AreAllForks (lists_of cuts.now) f) }
    {
        let mut forks = all_forks(alloc, cuts)?;
        forks.sort_by_key(|s| s.thread.number())?;
        Ok(Forked { forks })
    }

    /// The segments that forks of the thread close.
    pub fn segments(&self, alloc: Global, thread: ThreadId) -> Result<Vec<Segment>, AllocError>
        ensures { IfOk result
            (λ v. (a : Segment) → Contains v.items a
            ↔ Contains self.now (record { thread = thread; from = a })) }
    {
        let forks = self.forks.as_slice();
        let start = start_of(forks, thread);
        let end = end_of(forks, thread);
        closed(alloc, forks, start, end)
    }
}

// The forks of all threads.
fn all_forks(alloc: Global, cuts: &[Vec<Event>]) -> Result<Vec<Spawn>, AllocError>
    requires { AreSmall (lists_of cuts.now) }
    ensures { IfOk result (λ v. AreAllForks (lists_of cuts.now) v.items) }
{
    let mut forks = Vec::new(alloc);
    for (from, list) in cuts.iter().enumerate() {
        add_forks(&mut forks, ThreadId::new(from as u32), list)?;
    }
    Ok(forks)
}

// Adds the forks of one thread.
fn add_forks(forks: &mut Vec<Spawn>, from: ThreadId, cuts: &[Event]) -> Result<(), AllocError>
    requires { length cuts.now < 2 ^ 32 }
    ensures { OnOk result (AddsForks forks.old.items forks.new.items from cuts.now) }
{
    for (index, cut) in cuts.iter().enumerate() {
        if let Event::Fork { thread, .. } = *cut {
            let index = index as u32;
            let from = Segment {
                thread: from,
                index,
            };
            forks.push(Spawn { thread, from })?;
        }
    }
    Ok(())
}

// How many forks start lesser threads.
fn start_of(forks: &[Spawn], thread: ThreadId) -> usize
    requires { IsNonDecreasingBy (λ s. s.thread) forks.now }
    ensures bound { result ≤ length forks.now }
    ensures parted { IsPartitionPoint (λ s. s.thread < thread)
        (λ s. thread ≤ s.thread) forks.now result }
{
    forks.partition_point(
        |s: &Spawn| -> bool
            ensures { result ≡ nat_lt s.now.thread thread }
        { s.thread.number() < thread.number() },
    )
}

// How many forks start this thread or lesser ones.
fn end_of(forks: &[Spawn], thread: ThreadId) -> usize
    requires { IsNonDecreasingBy (λ s. s.thread) forks.now }
    ensures bound { result ≤ length forks.now }
    ensures parted { IsPartitionPoint (λ s. s.thread ≤ thread)
        (λ s. thread < s.thread) forks.now result }
{
    forks.partition_point(
        |s: &Spawn| -> bool
            ensures { result ≡ nat_le s.now.thread thread }
        { s.thread.number() <= thread.number() },
    )
}

// The segments that the forks from one place to before another close.
fn closed(
    alloc: Global,
    forks: &[Spawn],
    start: usize,
    end: usize,
) -> Result<Vec<Segment>, AllocError>
    requires rising { start ≤ end }
    requires within { end ≤ length forks.now }
    ensures { IfOk result (λ v. v.items ≡ map (λ s. s.from) (between start end forks.now)) }
{
    forks[start..end].iter().map(|s| s.from).collect(alloc)
}
