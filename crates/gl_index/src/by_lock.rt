//! Values by lock.
ghost use Rattle.std.specs.Prelude.{◌≡◌, ℕ, ◌==◌, Some, None, IfOk, OnOk, slice_get, if◌then◌else◌};
ghost use Rattle.std.specs.Option.{option_flatten};
ghost use Rattle.gl_index.specs.ByLock.{value_at};

use gl_event::{LockId, Memory};
use std::alloc::Global;
use std::collections::HashMap;

// How many numbers of locks are small for each edge.
const NEAR_AN_EDGE: usize = 4;

/// A value for each lock that has one. Where the number of a lock is small its value is found by it, else by
/// its hash.
#[derive(Drop)]
pub struct ByLock<V> {
    /// The values of locks with small numbers, each at the place that is the lock's number.
    pub near: Vec<Option<V>>,
    /// The values of other locks.
    pub far: HashMap<LockId, V>,
    // which numbers are small: those below this one
    bound: usize,
}

impl<V: Copy> ByLock<V> {
    /// No lock has a value. A number is small if it is below four for each of so many edges: a reader numbers
    /// locks from 0, so most are, unless a trace has few edges and many locks. It takes no memory; room for values
    /// that stand side by side grows with the greatest small number of a lock that is given one.
    pub fn for_edges(alloc: Global, edges: usize) -> ByLock<V>
        ensures { (lock : ℕ) → value_at result lock ≡ None }
    {
        ByLock {
            near: Vec::new(alloc),
            far: HashMap::new(alloc),
            bound: edges.saturating_mul(NEAR_AN_EDGE),
        }
    }

    /// The value of a lock, and none where it has none. One look-up.
    pub fn get(&self, lock: LockId) -> Option<V>
        ensures { result ≡ value_at self.now lock }
    {
        if let Some(value) = self.value_near(lock) {
            return Some(value);
        }
        if self.far.is_empty() {
            return None;
        }
        self.far.get(&lock).copied()
    }

    // The value of a lock at the place that is its number, if it has one there.
    fn value_near(&self, lock: LockId) -> Option<V>
        ensures { result ≡ option_flatten (slice_get self.now.near.items lock) }
    {
        self.near.get(lock.number() as usize).copied().flatten()
    }

    /// Gives a lock this value, and returns the one that it had. Err where memory was refused.
    pub fn insert(&mut self, lock: LockId, value: V) -> Result<Option<V>, Memory>
        ensures old { IfOk result (λ old. old ≡ value_at self.old lock) }
        ensures put { OnOk result ((l : ℕ) → value_at self.new l
            ≡ (if lock == l then Some value else value_at self.old l)) }
    {
        let old = self.get(lock);
        self.make_room(lock.number() as usize)?;
        self.put(lock, value)?;
        Ok(old)
    }

    // Makes a place for the value of a lock with this number, if it is small.
    fn make_room(&mut self, place: usize) -> Result<(), Memory>
        ensures { OnOk result ((l : ℕ) → value_at self.new l ≡ value_at self.old l) }
    {
        if place < self.near.len() || place >= self.bound {
            return Ok(());
        }
        self.near.resize(place + 1, None)?;
        Ok(())
    }

    // Puts a value at its place, or among those of other locks where it has none.
    fn put(&mut self, lock: LockId, value: V) -> Result<(), Memory>
        ensures { OnOk result ((l : ℕ) → value_at self.new l
            ≡ (if lock == l then Some value else value_at self.old l)) }
    {
        let place = lock.number() as usize;
        if place < self.near.len() {
            self.near[place] = Some(value);
            return Ok(());
        }
        self.far.insert(lock, value)?;
        Ok(())
    }
}
