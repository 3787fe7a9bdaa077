//! How an input is read.
ghost use Rattle.std.specs.Prelude.{◌≡◌, ◌≤◌};

use gl_std::Seed;
use std::thread::{Threads, available_parallelism};

/// The most reads of the program's input.
pub(crate) const TURNS: u64 = 1_000_000_000;

/// How an input is read. What a command answers depends neither on the seed nor on how many threads there are.
#[derive(Clone, Copy)]
pub struct Reading {
    /// The most reads.
    pub turns: u64,
    /// What the hash of names begins with: for texts of others, one that was drawn at random.
    pub seed: Seed,
    /// How many threads read the trace, and look for its edges, or 0: one for each processor that the
    /// program may use. With one, cycles and findings are sought in that one too.
    pub jobs: u32,
}

impl Reading {
    /// How many threads are asked for: one where it can't be told how many processors there are.
    pub(crate) fn threads(&self, rt: &impl Threads) -> usize
        ensures told { 1 ≤ self.now.jobs → result ≡ self.now.jobs }
        ensures some { 1 ≤ result }
    {
        if self.jobs > 0 {
            return self.jobs as usize;
        }
        match available_parallelism(rt) {
            Ok(processors) => processors.get(),
            Err(_) => 1,
        }
    }
}
