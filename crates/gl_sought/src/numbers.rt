//! Numbers of locks, and distances between them.
ghost use Rattle.std.specs.Prelude.{◌≡◌, ℕ, ◌==◌, map, IfOk, OnOk, if◌then◌else◌};
ghost use Rattle.gl_filters.specs.Picked.{edges_of_table};
ghost use Rattle.gl_sought.specs.Numbers.{number_in};
ghost use Rattle.gl_sought.specs.Walks.{ends_in, AreEnds};

use gl_edges::{Edge, Sample};
use gl_event::{LockId, Memory};
use gl_index::ByLock;
use std::alloc::Global;

/// A number for each lock of a table.
#[derive(Drop)]
pub struct Numbers {
    // locks that aren't there have number 0
    by_lock: ByLock<usize>,
    // what all numbers are below
    count: usize,
}

/// The numbers of the locks that an edge holds and wants.
#[derive(Clone, Copy, Debug)]
pub struct Ends {
    pub held: usize,
    pub wanted: usize,
}

impl Numbers {
    /// The locks of a table, numbered from 0 in order of first mention. Two look-ups by lock for each edge, and
    /// one for each lock. Err where memory was refused.
    pub fn of(alloc: Global, table: &[(Edge, Sample)]) -> Result<Numbers, Memory> {
        let mut numbers = Numbers::none(alloc, table.len());
        for (edge, _) in table {
            numbers.add(edge.held)?;
            numbers.add(edge.wanted)?;
        }
        Ok(numbers)
    }

    /// No lock of so many edges has a number.
    pub fn none(alloc: Global, edges: usize) -> Numbers
        ensures { (lock : ℕ) → number_in result lock ≡ 0 }
    {
        Numbers {
            by_lock: ByLock::for_edges(alloc, edges),
            count: 0,
        }
    }

    /// Gives a lock this number. Err where memory was refused.
    pub fn give(&mut self, lock: LockId, number: usize) -> Result<(), Memory>
        ensures { OnOk result ((l : ℕ) → number_in self.new l
            ≡ (if lock == l then number else number_in self.old l)) }
    {
        self.by_lock.insert(lock, number)?;
        self.count = self.count.max(number.saturating_add(1));
        Ok(())
    }

    // Gives a lock the next number, if it has none.
    fn add(&mut self, lock: LockId) -> Result<(), Memory> {
        if self.by_lock.get(lock).is_some() {
            return Ok(());
        }
        self.give(lock, self.count)
    }

    /// What all numbers are below: how many there are where they are those of a table.
    pub fn count(&self) -> usize {
        self.count
    }

    /// The number of a lock; 0 where it has none.
    pub fn number(&self, lock: LockId) -> usize
        ensures { result ≡ number_in self.now lock }
    {
        self.by_lock.get(lock).unwrap_or(0)
    }

    // The numbers of the locks of an edge.
    fn ends(&self, edge: &Edge) -> Ends
        ensures { result ≡ ends_in (number_in self.now) edge.now }
    {
        Ends {
            held: self.number(edge.held),
            wanted: self.number(edge.wanted),
        }
    }

    /// The numbers of the locks of each edge of a table. Two look-ups by lock for each. Err where memory was refused.
    pub fn of_edges(&self, alloc: Global, table: &[(Edge, Sample)]) -> Result<Vec<Ends>, Memory>
        ensures { IfOk result
            (λ ends. AreEnds (number_in self.now) (edges_of_table table.now) ends.items) }
    {
        let mut ends = Vec::with_capacity(alloc, table.len())?;
        for i in 0..table.len() {
            ends.push(self.ends(&table[i].0))?;
        }
        Ok(ends)
    }
}
