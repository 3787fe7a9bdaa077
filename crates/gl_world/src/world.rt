//! Recorders, their lanes, a collector and shards, step by step.
ghost use Rattle.std.specs.Prelude.{◌≡◌, ◌≢◌, ◌↔◌, ◌<◌, ◌≤◌, ℕ, List, [], ◌∷◌, ◌++◌, length, map, take, Some, None, IsTrue, OnOk, OnErr, IfOk, IfErr, slice_get};
ghost use Rattle.gl_event.specs.Bounds.{AreWithinRange};
ghost use Rattle.gl_cycles.specs.Reports.{IsGoodlockReport, IsReportFault};
ghost use Rattle.gl_intake.specs.Stream.{events_of, note_refusal, accepted_as, spare_of, AreInOrder};
ghost use Rattle.gl_intake.specs.declared.notes.Refused.TheVariants.{Memory as OutOfMemory};
ghost use Rattle.gl_world.specs.Dispatch.{Shard, table_of};
ghost use Rattle.gl_world.specs.Enabled.{grows};
ghost use Rattle.gl_world.specs.Headline.{collected_lists, IsReportOf};
ghost use Rattle.gl_world.specs.Machine.{State, Lane, start, step, run, taken_of, taken_lists, fresh_lane, IsPrefixOf, IsDrained};
ghost use Rattle.gl_world.specs.Keeping.{AreKeepers, lanes_kept};
ghost use Rattle.gl_world.specs.declared.steps.Step.{Step};
ghost use Rattle.gl_world.specs.declared.steps.Step.TheVariants.{Take, End, Pull, Again, Ship, Work};

use crate::dispatcher::Dispatcher;
use crate::steps::{Did, Step};
use crate::thread_part::ThreadPart;
use gl_cycles::{Report, ReportFault, report_over};
use gl_event::{Event, Limits, Memory, Note, ThreadId};
use gl_filters::Query;
use gl_intake::{Accepted, Intake, Refused};
use gl_shards::{MAX_SHARDS, Table, merge};
use std::alloc::{AllocError, Global};
use std::marker::Model;

/// A recorder with a lane for each thread, a collector, and shards with a feed and a worker each.
///
/// Contracts see the machine's state.
#[derive(Drop, Debug)]
pub struct World {
    alloc: Global,
    limits: Limits,
    parts: Vec<ThreadPart>,
    intake: Intake,
    dispatcher: Dispatcher,
}

impl Model for World {
    ghost use Rattle.gl_world.specs.Machine.{State};
    ghost use Rattle.gl_world.specs.Keeping.{IsWorld, lanes_kept};

    ghost Value = { State };

    ghost view = { λ w. record {
      limits = w.limits;
      lanes = lanes_kept w.parts.items;
      stream = w.intake.stream;
      dispatch = w.dispatcher;
    } };

    ghost invariant = { λ w. IsWorld w.limits w.dispatcher w.parts.items w.intake.stream
        w.intake.limits };
}

// A part for each thread, with its wishes.
fn fresh_parts(
    alloc: Global,
    limits: &Limits,
    wishes: Vec<Vec<Event>>,
) -> Result<Vec<ThreadPart>, AllocError>
    requires { length wishes.items ≡ limits.now.threads }
    ensures lanes { IfOk result
        (λ parts. lanes_kept parts.items ≡ map (λ w. fresh_lane w.items) wishes.items) }
    ensures keepers { IfOk result (λ parts. AreKeepers limits.now parts.items) }
    ensures range { AreWithinRange limits.now }
{
    let mut parts = Vec::new(alloc);
    parts.reserve(limits.threads() as usize)?;
    let mut thread = 0;
    for list in wishes {
        parts.push(ThreadPart::new(alloc, ThreadId::new(thread), limits, list))?;
        thread += 1;
    }
    Ok(parts)
}

// The want of memory for which a note was refused.
fn only_memory(why: Refused) -> Memory
    requires { why ≡ OutOfMemory }
{
    match why {
        Refused::Memory => AllocError,
        _ => unreachable!(),
    }
}

// Makes room for the note, which may come next.
fn make_ready(intake: &mut Intake, note: &Note) -> Result<(), Memory>
    requires { note_refusal intake.old.limits intake.old.stream note.now ≡ None }
    ensures reserved { OnOk result (1 ≤ spare_of intake.new note.now.thread) }
    ensures limits { intake.new.limits ≡ intake.old.limits }
    ensures stream { intake.new.stream ≡ intake.old.stream }
{
    match intake.ready(note) {
        Ok(()) => Ok(()),
        Err(why) => Err(only_memory(why)),
    }
}

impl World {
    /// A new world under these limits, with this many shards, and with the events that each thread
    /// is to take, in the order of thread numbers. Each lane and each feed has the capacity of a ring.
    ///
    /// It takes memory for a part of each thread and a feed of each shard.
    pub fn new(
        alloc: Global,
        limits: &Limits,
        shards: u32,
        wishes: Vec<Vec<Event>>,
    ) -> Result<World, Memory>
        requires each_thread { length wishes.items ≡ limits.now.threads }
        requires some_shard { 1 ≤ shards }
        requires shards_fit { shards ≤ MAX_SHARDS }
        ensures state { IfOk result
            (λ world. world ≡ start limits.now shards (map (λ w. w.items) wishes.items)) }
        ensures lanes { IfOk result (λ world. length world.lanes ≡ world.limits.threads) }
    {
        let intake = Intake::new(alloc, limits)?;
        let parts = fresh_parts(alloc, limits, wishes)?;
        let dispatcher = Dispatcher::new(alloc, shards)?;
        Ok(World {
            alloc,
            limits: *limits,
            parts,
            intake,
            dispatcher,
        })
    }

    /// Makes one step, and answers what it did; `Memory` only where a list had to grow for a step
    /// that is enabled, and could not. Nothing changes then. A wish that is passed over and a note
    /// that is refused take no memory.
    ///
    /// A step looks through the at most 64 locks that the thread holds, and appends to lists. The pull
    /// of an acquire takes a step for each pair of held locks, and a worker's step a look-up among the
    /// edges of its shard.
    pub fn step(&mut self, next: Step) -> Result<Did, Memory>
        ensures moved { IfOk result
            (λ did. step self.old next ≡ record { after = self.new; did = did }) }
        ensures limits { OnOk result (self.new.limits ≡ self.old.limits) }
        ensures shards { OnOk result
            (length self.new.dispatch.shards ≡ length self.old.dispatch.shards) }
        ensures lanes { length self.new.lanes ≡ self.new.limits.threads }
        ensures memory { OnErr result (IsTrue (grows (step self.old next).did)) }
        ensures unchanged { OnErr result (self.new ≡ self.old) }
    {
        // Tells the proof that each thread has a lane.
        let _ = &self.parts;
        self.make(next)
    }

    /// Makes these steps in turn. Where one finds no memory, the answer has its place in the list:
    /// the steps before it are done, and it and those after it aren't.
    pub fn run(&mut self, steps: &[Step]) -> Result<(), (usize, Memory)>
        ensures done { OnOk result (self.new ≡ run self.old steps.now) }
        ensures limits { self.new.limits ≡ self.old.limits }
        ensures shards { length self.new.dispatch.shards ≡ length self.old.dispatch.shards }
        ensures lanes { length self.new.lanes ≡ self.new.limits.threads }
        ensures within { IfErr result (λ stop. stop.0 < length steps.now) }
        ensures memory { IfErr result
            (λ stop. (next : Step) → slice_get steps.now stop.0 ≡ Some next
            → IsTrue (grows (step self.new next).did)) }
        ensures stopped { IfErr result
            (λ stop. self.new ≡ run self.old (take stop.0 steps.now)) }
    {
        // Tells the proof that each thread has a lane.
        let _ = &self.parts;
        for place in 0..steps.len() {
            match self.step(steps[place]) {
                Ok(_) => {}
                Err(memory) => return Err((place, memory)),
            }
        }
        Ok(())
    }

    /// The events that the thread took.
    pub fn taken(&self, thread: ThreadId) -> &[Event]
        requires { thread < self.now.limits.threads }
        ensures { (lane : Lane) → slice_get self.now.lanes thread ≡ Some lane
            → result.now ≡ taken_of thread lane }
    {
        self.parts[thread.number() as usize].taken()
    }

    /// The events of the thread that were collected: how those that it took begin, and once the world
    /// is drained all of them.
    pub fn log(&self, thread: ThreadId) -> &[Event]
        requires { thread < self.now.limits.threads }
        ensures value { result.now ≡ events_of thread self.now.stream }
        ensures front { (lane : Lane) → slice_get self.now.lanes thread ≡ Some lane
            → IsPrefixOf result.now (taken_of thread lane) }
        ensures whole { IsDrained self.now → (lane : Lane)
            → slice_get self.now.lanes thread ≡ Some lane
            → result.now ≡ taken_of thread lane }
    {
        self.intake.log(thread)
    }

    /// All collected notes, in the order in which they were collected. Each was its thread's next one
    /// after those before it, so that none follows its thread's end mark.
    pub fn stream(&self) -> &[Note]
        ensures value { result.now ≡ self.now.stream }
        ensures in_order { AreInOrder self.now.limits self.now.stream }
    {
        self.intake.stream()
    }

    /// The table of a shard: the edges that its worker has put in, each once, ascending, with its least
    /// sample.
    pub fn table(&self, shard: u32) -> &Table
        requires { shard < length self.now.dispatch.shards }
        ensures { (s : Shard) → slice_get self.now.dispatch.shards shard ≡ Some s
            → result.now ≡ table_of s }
    {
        self.dispatcher.table(shard)
    }

    /// Whether every thread's end mark was collected, every edge made is shipped, and every edge shipped
    /// is worked.
    pub fn drained(&self) -> bool
        ensures { IsTrue result ↔ IsDrained self.now }
    {
        if !self.intake.all_ended() {
            return false;
        }
        self.dispatcher.is_done()
    }

    /// The report over the edges that were worked, by the order of what was collected. Once the world is
    /// drained it is the Goodlock report of what the threads took, whatever the steps and however many
    /// shards there are; before that it may list a cycle that the drained world's report doesn't.
    ///
    /// Err where a segment of what was collected is before itself, and where memory was refused.
    pub fn report(&self, query: &Query) -> Result<Report, ReportFault>
        ensures report { IfOk result (λ report. IsReportOf query.now self.now report) }
        ensures fault { IfErr result (λ fault. IsReportFault (collected_lists self.now) fault) }
        ensures drained { IsDrained self.now
            → IfOk result
            (λ report. IsGoodlockReport query.now (taken_lists self.now.lanes) report) }
        ensures drained_fault { IsDrained self.now
            → IfErr result (λ fault. IsReportFault (taken_lists self.now.lanes) fault) }
    {
        let tables = self.dispatcher.tables()?;
        let edges = merge(self.alloc, tables)?;
        report_over(self.alloc, edges, self.intake.logs(), query)
    }

    // Makes the step.
    fn make(&mut self, next: Step) -> Result<Did, Memory>
        ensures moved { IfOk result
            (λ did. step self.old next ≡ record { after = self.new; did = did }) }
        ensures memory { OnErr result (IsTrue (grows (step self.old next).did)) }
        ensures unchanged { OnErr result (self.new ≡ self.old) }
    {
        match next {
            Step::Take(thread) => self.take(thread),
            Step::End(thread) => self.end(thread),
            Step::Pull(thread) => self.pull(thread),
            Step::Again(thread, place) => Ok(self.again(thread, place)),
            Step::Ship => self.ship(),
            Step::Work(shard) => self.work(shard),
        }
    }

    fn take(&mut self, thread: ThreadId) -> Result<Did, Memory>
        ensures moved { IfOk result
            (λ did. step self.old (Take thread) ≡ record { after = self.new; did = did }) }
        ensures memory { OnErr result (IsTrue (grows (step self.old (Take thread)).did)) }
        ensures unchanged { OnErr result (self.new ≡ self.old) }
    {
        let index = thread.number() as usize;
        if index >= self.parts.len() {
            return Ok(Did::Nothing);
        }
        let did = self.parts[index].take()?;
        Ok(did)
    }

    fn end(&mut self, thread: ThreadId) -> Result<Did, Memory>
        ensures moved { IfOk result
            (λ did. step self.old (End thread) ≡ record { after = self.new; did = did }) }
        ensures memory { OnErr result (IsTrue (grows (step self.old (End thread)).did)) }
        ensures unchanged { OnErr result (self.new ≡ self.old) }
    {
        let index = thread.number() as usize;
        if index >= self.parts.len() {
            return Ok(Did::Nothing);
        }
        let did = self.parts[index].end()?;
        Ok(did)
    }

    fn pull(&mut self, thread: ThreadId) -> Result<Did, Memory>
        ensures moved { IfOk result
            (λ did. step self.old (Pull thread) ≡ record { after = self.new; did = did }) }
        ensures memory { OnErr result (IsTrue (grows (step self.old (Pull thread)).did)) }
        ensures unchanged { OnErr result (self.new ≡ self.old) }
    {
        let index = thread.number() as usize;
        if index >= self.parts.len() {
            return Ok(Did::Nothing);
        }
        match self.parts[index].front() {
            Some(note) => self.collect(thread, &note),
            None => Ok(Did::Nothing),
        }
    }

    // Adds the note, which is next in the thread's lane, to the stream. All that may grow grows before
    // the note is accepted.
    fn collect(&mut self, thread: ThreadId, note: &Note) -> Result<Did, Memory>
        requires known { thread < length self.old.lanes }
        requires front { (lane : Lane) → slice_get self.old.lanes thread ≡ Some lane
            → slice_get lane.pushed lane.popped ≡ Some note.now }
        ensures moved { IfOk result
            (λ did. step self.old (Pull thread) ≡ record { after = self.new; did = did }) }
        ensures unchanged { OnErr result (self.new ≡ self.old) }
    {
        let index = thread.number() as usize;
        make_ready(&mut self.intake, note)?;
        let edges = self.parts[index].due(self.alloc, note)?;
        self.dispatcher.add(edges)?;
        let accepted = self.intake.accept(note);
        self.parts[index].pop(note);
        Ok(Did::Pulled(accepted))
    }

    fn again(&mut self, thread: ThreadId, place: u32) -> Did
        ensures { step self.old (Again thread place) ≡ record { after = self.new; did = result } }
    {
        let index = thread.number() as usize;
        if index >= self.parts.len() {
            return Did::Nothing;
        }
        if place as usize == self.parts[index].popped() {
            return Did::Nothing;
        }
        match self.parts[index].note(place as usize) {
            Some(note) => self.refuse(thread, place, &note),
            None => Did::Nothing,
        }
    }

    // Offers the collector the note, which isn't next in the thread's lane.
    fn refuse(&mut self, thread: ThreadId, place: u32, note: &Note) -> Did
        requires other { (lane : Lane) → slice_get self.old.lanes thread ≡ Some lane
            → place ≢ lane.popped }
        requires known { thread < length self.old.lanes }
        requires there { (lane : Lane) → slice_get self.old.lanes thread ≡ Some lane
            → slice_get lane.pushed place ≡ Some note.now }
        ensures unchanged { self.new ≡ self.old }
        ensures moved { step self.old (Again thread place)
            ≡ record { after = self.new; did = result } }
    {
        match self.intake.offer(*note) {
            Err(why) => Did::Refused(why),
            // only the next note of a lane is its thread's next one in the stream
            Ok(_) => unreachable!(),
        }
    }

    fn ship(&mut self) -> Result<Did, Memory>
        ensures moved { IfOk result
            (λ did. step self.old Ship ≡ record { after = self.new; did = did }) }
        ensures memory { OnErr result (IsTrue (grows (step self.old Ship).did)) }
        ensures unchanged { OnErr result (self.new ≡ self.old) }
    {
        self.dispatcher.ship(&self.limits)
    }

    fn work(&mut self, shard: u32) -> Result<Did, Memory>
        ensures moved { IfOk result
            (λ did. step self.old (Work shard) ≡ record { after = self.new; did = did }) }
        ensures memory { OnErr result (IsTrue (grows (step self.old (Work shard)).did)) }
        ensures unchanged { OnErr result (self.new ≡ self.old) }
    {
        self.dispatcher.work(shard)
    }
}
