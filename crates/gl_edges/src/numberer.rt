//! How guard sets get their numbers.
ghost use Rattle.std.specs.Prelude.{◌≡◌, List, [], ◌∷◌, ◌++◌, Some, None, slice_get, OnOk};
ghost use Rattle.std.specs.BTreeMap as tree;
ghost use Rattle.std.specs.Cmp.Lexicographic.{slice_cmp};
ghost use Rattle.gl_edges.specs.Guards.{guard_cmp};
ghost use Rattle.gl_edges.specs.bodies.Numberers.{IsNumbering};
ghost use Rattle.gl_edges.specs.declared.guards.Guard.{Guard};

use crate::guards::Guards;
use gl_event::Memory;
use std::alloc::Global;
use std::collections::BTreeMap;

/// Guard sets as they are numbered.
#[derive(Drop)]
pub(crate) struct Numberer {
    numbers: BTreeMap<Guards, usize>,
    // for each position a number
    pub(crate) ids: Vec<usize>,
    // for each number its guard set
    pub(crate) sets: Vec<Guards>,
}

impl Numberer {
    /// No guard sets.
    pub(crate) fn new(alloc: Global) -> Numberer
        ensures { IsNumbering [] result }
    {
        Numberer {
            numbers: BTreeMap::new(alloc),
            ids: Vec::new(alloc),
            sets: Vec::new(alloc),
        }
    }

    /// Gives the next position the number of this guard set, which is a new one where it has none.
    pub(crate) fn add(&mut self, alloc: Global, guards: &Guards) -> Result<(), Memory>
        ensures { OnOk result
            ((all : List (List Guard)) → IsNumbering all self.old
            → IsNumbering (all ++ guards.now ∷ []) self.new) }
    {
        match self.numbers.get(guards).copied() {
            Some(number) => self.add_known(number),
            None => self.add_new(alloc, guards),
        }
    }

    // Gives the next position this number.
    fn add_known(&mut self, number: usize) -> Result<(), Memory>
        ensures { OnOk result
            ((all : List (List Guard)) (guards : List Guard) → IsNumbering all self.old
            → slice_get self.old.sets.items number ≡ Some guards
            → IsNumbering (all ++ guards ∷ []) self.new) }
    {
        self.ids.push(number)?;
        Ok(())
    }

    // Gives the next position a new number.
    fn add_new(&mut self, alloc: Global, guards: &Guards) -> Result<(), Memory>
        ensures { OnOk result
            ((all : List (List Guard)) → IsNumbering all self.old
            → tree.get (slice_cmp guard_cmp) self.old.numbers guards.now ≡ None
            → IsNumbering (all ++ guards.now ∷ []) self.new) }
    {
        let number = self.sets.len();
        let key = guards.copy(alloc)?;
        self.numbers.insert(key, number)?;
        let set = guards.copy(alloc)?;
        self.sets.push(set)?;
        self.ids.push(number)?;
        Ok(())
    }
}
