//! The run of a collector: it collects all, ships all edges, and ends the feeds.
ghost use Rattle.std.specs.Prelude.{◌≡◌, ◌<◌, ◌≤◌, ◌+◌, [], ◌∷◌, ◌++◌, true, false, None, Some, List, map, length, IsOk};
ghost use Rattle.std.specs.Vec.{vec_len, vec_capacity};
ghost use Rattle.gl_edges.specs.declared.edge.Edge.{Edge};
ghost use Rattle.gl_edges.specs.declared.edge.Sample.{Sample};
ghost use Rattle.gl_shards.specs.Feeds.{FeedId};
ghost use Rattle.gl_shards.specs.declared.shard.TheConstants.{MAX_SHARDS};
ghost use Rattle.gl_engine.specs.bodies.Breaking.{first_of};
ghost use Rattle.gl_engine.specs.bodies.Sparing.{IsMadeOf};
ghost use Rattle.gl_engine.specs.Gathering.{AreEnded, AreUnused, HasNotBegun, HasRunThrough, IsLeftBy};
ghost use Rattle.gl_engine.specs.declared.gathered.RunFault.TheVariants as kept;

use crate::collector::Collector;
use crate::discarding::discard_all;
use crate::gathered::{Gathered, RunFault};
use crate::made_before::made_by_notes;
use crate::making::Making;
use crate::preallocated::keep;
use crate::pull_and_ship::collect_all;
use gl_shards::{Gone, Outlet, Sent};
use std::sync::Wait;

// Ends the outlet of this shard, and keeps the feed where its worker is there. The first shard whose
// worker is gone, this one or one before, if there is one.
fn end_one<R: Wait>(
    rt: &R,
    outlet: Outlet,
    shard: u32,
    gone: Option<u32>,
    sent: &mut Vec<Sent>,
) -> Option<u32>
    requires room { vec_len sent.old < vec_capacity sent.old }
    ensures ended { (feeds : List FeedId) (before : List (List (Edge × Sample)))
        → length feeds ≡ shard
        → AreEnded feeds before sent.old.items gone
        → AreEnded (feeds ++ outlet.feed ∷ []) (before ++ outlet.sent ∷ []) sent.new.items
        result }
    ensures len { vec_len sent.new ≤ vec_len sent.old + 1 }
    ensures capacity { vec_capacity sent.old ≤ vec_capacity sent.new }
{
    match outlet.end(rt) {
        Ok(ended) => {
            keep(sent, ended);
            gone
        }
        Err(Gone) => match gone {
            Some(first) => Some(first),
            None => Some(shard),
        },
    }
}

// Ends all outlets, and keeps the feeds whose workers are there. The first shard whose worker is gone, if
// there is one.
fn end_all<R: Wait>(rt: &R, outlets: Vec<Outlet>, sent: &mut Vec<Sent>) -> Option<u32>
    requires fit { length outlets.items ≤ MAX_SHARDS }
    requires empty { sent.old.items ≡ [] }
    requires room { vec_len sent.old + length outlets.items ≤ vec_capacity sent.old }
    ensures ended { AreEnded (map (λ o. o.feed) outlets.items) (map (λ o. o.sent) outlets.items)
        sent.new.items result }
    ensures feeds { result ≡ None
        → map (λ s. s.feed) sent.new.items ≡ map (λ o. o.feed) outlets.items }
    ensures sent { result ≡ None
        → map (λ s. s.sent) sent.new.items ≡ map (λ o. o.sent) outlets.items }
{
    let mut gone = None;
    let mut shard = 0;
    for outlet in outlets {
        gone = end_one(rt, outlet, shard, gone, sent);
        shard += 1;
    }
    gone
}

// Ends all outlets, where there is no room to keep the feeds.
fn end_unkept<R: Wait>(rt: &R, outlets: Vec<Outlet>) {
    for outlet in outlets {
        let _ = outlet.end(rt);
    }
}

// What went wrong first, if something did: as all was gathered, or else as the feeds were ended, where this
// is the first shard whose worker was gone.
fn first_fault(gathered: Result<(), RunFault>, gone: Option<u32>) -> Option<RunFault>
    ensures first { result ≡ first_of gathered gone }
    ensures none { result ≡ None → IsOk gathered × (gone ≡ None) }
{
    match gathered {
        Err(fault) => Some(fault),
        Ok(()) => match gone {
            Some(shard) => Some(RunFault::Gone { shard }),
            None => None,
        },
    }
}

impl Collector {
    /// Pulls until every thread's end mark came, ships each edge to the outlet of its shard before it looks
    /// at the next lane, first those of the pulls before, and ends the outlets. Through these nothing may
    /// have been sent yet, and there is one for each shard, 1 to 16 of them.
    ///
    /// At the first thing that goes wrong, it ships no more, goes on popping and throws away until every end
    /// mark came, and still ends the outlets: no recorder and no worker waits for ever. Unless it could not begin,
    /// the feeds whose workers are there are kept, with what was shipped through them until then:
    ///
    /// - A worker that is gone is found so by the first edge that can't be shipped, and the edges before that one
    ///   were; or, where all were, as the outlets are ended: then it is the first such one.
    /// - A lane breaks at a note that may not come next after all that was collected. The edges of all notes
    ///   before the lane's turn were shipped, and none of the notes that the turn had pulled, 64 at most.
    /// - Where there is no memory in a turn it is the same. Where there is none to begin, nothing is collected,
    ///   and no feed is kept.
    ///
    /// It waits for the recorders and for the workers: it returns only if every recorder closes, and as
    /// long as a worker's feed is full it waits for that. It looks at the lanes in turn, at each for up to eight turns
    /// of 64 notes, and after a round in which no lane had a note it spins or sleeps for a moment. The list for the
    /// [`Sent`]s is made before the first pull, and so are the edges of the pulls before: they are found once
    /// more in the notes, which takes as long as those pulls did.
    pub fn run<R: Wait>(self, rt: &R, outlets: Vec<Outlet>) -> Gathered
        requires unused { AreUnused outlets.items }
        ensures { HasRunThrough false self outlets.items result }
    {
        self.run_by(rt, outlets, false)
    }

    /// The same, but that repeats are spared: where a thread makes an acquire once more, of the same lock, with
    /// the same locks held, in the same modes and segments, its edges were shipped already, with earlier
    /// samples, so they are neither made nor shipped again, as far as that is known. The workers' tables are
    /// those of all edges. It takes less time the more often a program runs the same code, and memory for
    /// each thread's acquires: 600 bytes, and 64 for each lock inside others, no more than two of these for
    /// each edge that was made, and some 1,000.
    pub fn run_without_repeats<R: Wait>(self, rt: &R, outlets: Vec<Outlet>) -> Gathered
        requires unused { AreUnused outlets.items }
        ensures { HasRunThrough true self outlets.items result }
    {
        self.run_by(rt, outlets, true)
    }

    // The run, with repeats spared or not.
    fn run_by<R: Wait>(self, rt: &R, outlets: Vec<Outlet>, spares: bool) -> Gathered
        requires unused { AreUnused outlets.items }
        ensures { HasRunThrough spares self outlets.items result }
    {
        let Ok(sent) = Vec::with_capacity(self.alloc, outlets.len()) else {
            return self.run_unkept(rt, outlets);
        };
        match made_by_notes(self.alloc, &self.limits, spares, self.intake.stream()) {
            Ok(making) => self.run_into(rt, outlets, sent, making),
            Err(_) => self.run_unkept(rt, outlets),
        }
    }

    // The run, with room for the feeds, and with the edges of the pulls before.
    fn run_into<R: Wait>(
        self,
        rt: &R,
        outlets: Vec<Outlet>,
        sent: Vec<Sent>,
        making: Making,
    ) -> Gathered
        requires unused { AreUnused outlets.items }
        requires empty { sent.items ≡ [] }
        requires room { vec_len sent + length outlets.items ≤ vec_capacity sent }
        requires made { IsMadeOf self.stream making }
        ensures { HasRunThrough making.spares self outlets.items result }
    {
        let Collector {
            alloc,
            session,
            limits,
            mut intake,
            mut inputs,
        } = self;
        let (mut outlets, mut sent) = (outlets, sent);
        let threads = limits.threads();
        let gathered = collect_all(
            rt,
            alloc,
            threads,
            &mut inputs,
            &mut intake,
            making,
            &mut outlets,
        );
        let gone = end_all(rt, outlets, &mut sent);
        Gathered {
            alloc,
            session,
            limits,
            intake,
            inputs,
            sent,
            fault: first_fault(gathered, gone),
        }
    }

    // The run, where there is no room for the feeds, or none for the edges of the pulls before.
    fn run_unkept<R: Wait>(self, rt: &R, outlets: Vec<Outlet>) -> Gathered
        ensures left { IsLeftBy self result }
        ensures not_begun { HasNotBegun self result }
        ensures fault { result.fault ≡ Some kept.Memory }
    {
        let Collector {
            alloc,
            session,
            limits,
            intake,
            mut inputs,
        } = self;
        discard_all(rt, &mut inputs, &intake, limits.threads());
        end_unkept(rt, outlets);
        Gathered {
            alloc,
            session,
            limits,
            intake,
            inputs,
            sent: Vec::new(alloc),
            fault: Some(RunFault::Memory),
        }
    }
}
