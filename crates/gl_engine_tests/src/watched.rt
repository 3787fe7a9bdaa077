//! Worlds whose numbers of threads and shards are known.
use gl_cycles::{Report, ReportFault};
use gl_event::{Event, Limits, Note, ThreadId};
use gl_filters::Query;
use gl_world::{Did, MAX_SHARDS, Step, World};
use std::alloc::Global;
use std::marker::Model;

/// A world of so many threads and shards.
#[derive(Drop)]
pub struct Watched {
    world: World,
    threads: u32,
    shards: u32,
}

impl Model for Watched {
    ghost use Rattle.std.specs.Prelude.{◌≡◌, ℕ, length};

    ghost Value = { ℕ };

    ghost view = { λ w. w.threads };

    ghost invariant = { λ w. (w.world.limits.threads ≡ w.threads)
        × (length w.world.dispatch.shards ≡ w.shards) };
}

/// The world of these wishes, a list for each thread, with this many shards and rings of so many notes. None
/// where a number isn't within its limits, or memory was refused.
pub fn watch(alloc: Global, wishes: Vec<Vec<Event>>, ring: u32, shards: u32) -> Option<Watched> {
    if shards == 0 || shards > MAX_SHARDS {
        return None;
    }
    let threads = u32::try_from(wishes.len()).ok()?;
    let limits = Limits::new(threads, ring, 100, 100).ok()?;
    let world = World::new(alloc, &limits, shards, wishes).ok()?;
    Some(Watched {
        world,
        threads,
        shards,
    })
}

impl Watched {
    /// What the step does. None where memory was refused.
    pub fn step(&mut self, step: Step) -> Option<Did> {
        match self.world.step(step) {
            Ok(did) => Some(did),
            Err(_) => None,
        }
    }

    /// Makes the steps in turn. Whether none wanted memory that isn't there.
    pub fn run(&mut self, steps: &[Step]) -> bool {
        self.world.run(steps) == Ok(())
    }

    /// The events that the thread of this number took, if there is one.
    pub fn taken(&self, number: u32) -> Option<&[Event]> {
        if number >= self.threads {
            return None;
        }
        Some(self.world.taken(ThreadId::new(number)))
    }

    /// The collected events of the thread of this number, if there is one.
    pub fn log(&self, number: u32) -> Option<&[Event]> {
        if number >= self.threads {
            return None;
        }
        Some(self.world.log(ThreadId::new(number)))
    }

    /// All collected notes.
    pub fn stream(&self) -> &[Note] {
        self.world.stream()
    }

    /// How many edges the table of the shard has, if there is one.
    pub fn edges_in(&self, shard: u32) -> Option<usize> {
        if shard >= self.shards {
            return None;
        }
        Some(self.world.table(shard).len())
    }

    /// Whether the world is drained.
    pub fn drained(&self) -> bool {
        self.world.drained()
    }

    /// The report over the edges that were worked.
    pub fn report(&self, query: &Query) -> Result<Report, ReportFault> {
        self.world.report(query)
    }
}
