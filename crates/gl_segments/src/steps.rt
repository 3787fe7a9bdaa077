//! The steps between segments, by the segment to which they lead.
ghost use Rattle.std.specs.Prelude.{◌≡◌, ◌<◌, List, ◌∷◌, filter, length, slice_get, Some, IfOk};
ghost use Rattle.gl_event.specs.Events.{closes};
ghost use Rattle.gl_segments.specs.bodies.Forked.{AreAllForks};
ghost use Rattle.gl_segments.specs.bodies.Tables.{cuts_of, AreSmall, joined_last, AreStepsOfThread};
ghost use Rattle.gl_event.specs.Lawful.{lists_of};

use crate::forked::Forked;
use crate::packed::Packed;
use gl_event::{Event, Segment, ThreadId};
use std::alloc::{AllocError, Global};
use std::marker::Model;

/// For each segment of each thread, the segments that are one step before it.
#[derive(Drop)]
pub struct Steps {
    by_thread: Vec<Packed>,
}

impl Model for Steps {
    ghost use Rattle.gl_segments.specs.bodies.Tables.{Sources};

    ghost Value = { Sources };

    ghost view = { λ s. s.by_thread.items };
}

impl Steps {
    ghost use Rattle.gl_event.specs.Bounds.{greatest};
    ghost use Rattle.gl_event.specs.Lawful.{AreLawful};
    ghost use Rattle.gl_segments.specs.bodies.Tables.{Has, IsSound, ShowsSteps, steps_of_thread, sources};

    /// The steps between the segments of these lists. It reads each event once, and sorts the forks;
    /// otherwise it takes time and memory as there are threads, forks and joins.
    pub fn of(alloc: Global, lists: &[Vec<Event>]) -> Result<Steps, AllocError>
        requires lawful { AreLawful greatest (lists_of lists.now) }
        ensures shows { IfOk result (λ s. ShowsSteps (lists_of lists.now) s) }
        ensures sound { IfOk result (λ s. IsSound s) }
    {
        let cuts = cuts(alloc, lists)?;
        let forked = Forked::of(alloc, &cuts)?;
        let mut by_thread = Vec::new(alloc);
        for thread in 0..cuts.len() {
            by_thread.push(steps_of_thread(alloc, &cuts, &forked, ThreadId::new(thread as u32))?)?;
        }
        Ok(Steps { by_thread })
    }

    /// How many threads there are.
    pub fn threads(&self) -> usize
        ensures { result ≡ length self.now }
    {
        self.by_thread.len()
    }

    /// How many segments the thread has.
    pub fn segments(&self, thread: ThreadId) -> usize
        requires { thread < length self.now }
        ensures { result ≡ length (steps_of_thread self.now thread) }
    {
        self.by_thread[thread.number() as usize].len()
    }

    /// The segments that are one step before this one.
    pub fn sources(&self, segment: Segment) -> &[Segment]
        requires { Has self.now segment }
        ensures { result.now ≡ sources self.now segment }
    {
        self.by_thread[segment.thread.number() as usize].get(segment.index as usize)
    }
}

// The forks and joins of each list.
fn cuts(alloc: Global, lists: &[Vec<Event>]) -> Result<Vec<Vec<Event>>, AllocError>
    ensures { IfOk result (λ v. lists_of v.items ≡ cuts_of (lists_of lists.now)) }
{
    let mut cuts = Vec::new(alloc);
    for list in lists {
        cuts.push(closers(alloc, list)?)?;
    }
    Ok(cuts)
}

// The forks and joins of a list.
fn closers(alloc: Global, list: &[Event]) -> Result<Vec<Event>, AllocError>
    ensures { IfOk result (λ v. v.items ≡ filter closes list.now) }
{
    list.iter().copied().filter(|e| e.closes()).collect(alloc)
}

// What is one step before each segment of the thread.
fn steps_of_thread(
    alloc: Global,
    cuts: &[Vec<Event>],
    forked: &Forked,
    thread: ThreadId,
) -> Result<Packed, AllocError>
    requires small { AreSmall (lists_of cuts.now) }
    requires forked { AreAllForks (lists_of cuts.now) forked.now }
    requires within { thread < length cuts.now }
    ensures { IfOk result
        (λ v. (es : List Event) → slice_get (lists_of cuts.now) thread ≡ Some es
        → AreStepsOfThread (lists_of cuts.now) thread es v) }
{
    let mut steps = Packed::new(alloc)?;
    steps.push(&forked.segments(alloc, thread)?)?;
    for (index, cut) in cuts[thread.number() as usize].iter().enumerate() {
        let closed = Segment {
            thread,
            index: index as u32,
        };
        steps.push(&after(alloc, cuts, closed, *cut)?)?;
    }
    steps.shrink();
    Ok(steps)
}

// What is one step before the segment that follows `closed`, which the fork or join `cut` closes.
fn after(
    alloc: Global,
    cuts: &[Vec<Event>],
    closed: Segment,
    cut: Event,
) -> Result<Vec<Segment>, AllocError>
    requires { AreSmall (lists_of cuts.now) }
    ensures { IfOk result (λ v. v.items ≡ closed ∷ joined_last (lists_of cuts.now) cut) }
{
    let mut sources = Vec::new(alloc);
    sources.push(closed)?;
    if let Event::Join { thread, .. } = cut {
        let joined = thread.number() as usize;
        if joined < cuts.len() {
            let index = cuts[joined].len() as u32;
            sources.push(Segment { thread, index })?;
        }
    }
    Ok(sources)
}
