//! Who has to be told as an edge goes.
ghost use Rattle.std.specs.Prelude.{◌≡◌, ◌+◌, ◌<◌, ℕ, List, [], ◌∷◌, ◌++◌, length, set, get_or, replicate, IfOk, OnOk};

use gl_event::Memory;
use std::alloc::Global;
use std::marker::Model;
use std::mem;

/// For each position the positions of those that watch it. Contracts see a list of lists of numbers.
#[derive(Drop)]
pub(crate) struct Watchers {
    lists: Vec<Vec<usize>>,
}

impl Model for Watchers {
    ghost use Rattle.std.specs.Prelude.{List, ℕ, map};

    ghost Value = { List (List ℕ) };

    ghost view = { λ w. map (λ list. list.items) w.lists.items };
}

impl Watchers {
    /// Nobody watches any of so many positions.
    pub(crate) fn none(alloc: Global, positions: usize) -> Result<Watchers, Memory>
        ensures { IfOk result (λ watchers. watchers ≡ replicate positions []) }
    {
        let mut lists = Vec::with_capacity(alloc, positions)?;
        for _ in 0..positions {
            lists.push(Vec::new(alloc))?;
        }
        Ok(Watchers { lists })
    }

    /// One more watches a position.
    pub(crate) fn add(&mut self, position: usize, watcher: usize) -> Result<(), Memory>
        requires { position < length self.old }
        ensures { OnOk result
            (self.new ≡ set self.old position (get_or self.old position [] ++ watcher ∷ [])) }
    {
        self.lists[position].push(watcher)?;
        Ok(())
    }

    /// Those that watch a position, of which none does so any longer.
    pub(crate) fn take(&mut self, alloc: Global, position: usize) -> Vec<usize>
        requires { position < length self.old }
        ensures taken { result.items ≡ get_or self.old position [] }
        ensures left { self.new ≡ set self.old position [] }
    {
        mem::replace(&mut self.lists[position], Vec::new(alloc))
    }
}
