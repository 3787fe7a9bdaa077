//! An index of positions by keys.
ghost use Rattle.std.specs.Prelude.{◌≡◌, ◌+◌, ◌<◌, ℕ, Option, vec_len, Some, IfOk, OnOk};
ghost use Rattle.gl_walks.specs.bodies.Listing.{Key, IsNext, IsChain};

use gl_event::{LockId, Memory};
use std::alloc::Global;
use std::collections::HashMap;

/// Leads from a class, and a lock where it matters, through the positions that have it, ascending.
#[derive(Drop)]
pub(crate) struct Chain {
    // the first position of each key
    pub(crate) first: HashMap<(usize, Option<LockId>), usize>,
    // for each position the next one with the same key
    pub(crate) next: Vec<Option<usize>>,
}

impl Chain {
    /// The index of so many positions, before any of them is put into it.
    pub(crate) fn new(alloc: Global, size: usize) -> Result<Chain, Memory>
        ensures { IfOk result
            (λ chain. (key : ℕ → Option Key) → IsChain key size size chain) }
    {
        Ok(Chain {
            first: HashMap::new(alloc),
            next: vec![in alloc; None; size]?,
        })
    }

    /// Puts a position before those that are in the index. To one without a key nothing leads.
    pub(crate) fn put(
        &mut self,
        i: usize,
        key: Option<(usize, Option<LockId>)>,
    ) -> Result<(), Memory>
        requires { i < vec_len self.old.next }
        ensures { (keys : ℕ → Option Key) (size : ℕ) → IsChain keys size (i + 1) self.old
            → keys i ≡ key → OnOk result (IsChain keys size i self.new) }
    {
        let Some(key) = key else {
            return Ok(());
        };
        self.next[i] = self.first.get(&key).copied();
        self.first.insert(key, i)?;
        Ok(())
    }

    /// The first position of a key.
    pub(crate) fn begin(&self, class: usize, lock: Option<LockId>) -> Option<usize>
        ensures { (keys : ℕ → Option Key) (size : ℕ) → IsChain keys size 0 self.now
            → IsNext keys size (class, lock) 0 result }
    {
        self.first.get(&(class, lock)).copied()
    }

    /// The position after `i` of the next one with the key of `i`.
    pub(crate) fn after(&self, i: usize) -> Option<usize>
        requires { i < vec_len self.now.next }
        ensures { (keys : ℕ → Option Key) (size : ℕ) (k : Key)
            → IsChain keys size 0 self.now
            → keys i ≡ Some k → IsNext keys size k (i + 1) result }
    {
        self.next[i]
    }
}
