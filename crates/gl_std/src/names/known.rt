//! Which numbers the names of a block have in its text.
ghost use Rattle.std.specs.Prelude.{◌≡◌, ◌<◌, Some, length, position, slice_get, vec_len, OnOk};
ghost use Rattle.std.specs.Str.{bytes_eq};
ghost use Rattle.gl_std.specs.Names.{NameLists};
ghost use Rattle.gl_std.specs.Trace.{operands};
ghost use Rattle.gl_std.specs.bodies.Blocks.{known_operands, named, AreKnown, IsKnownOf, IsKnownSoFar};
ghost use Rattle.gl_std.specs.bodies.Shown.{shown_operation};

use super::{NameList, Names};
use crate::line::Operation;
use gl_event::{LocId, ThreadId};
use std::alloc::{AllocError, Global};

/// The numbers that a block's names have in its text, of those that were looked up and had one. So each
/// name of a block is looked up once where the text has mentioned it before.
pub(crate) struct Known {
    pub(crate) threads: Vec<Option<u32>>,
    pub(crate) locks: Vec<Option<u32>>,
    pub(crate) locs: Vec<Option<u32>>,
}

// Written out, so that it is proved once: a derived drop is proved again wherever it is let go.
impl Drop for Known {
    fn drop(self) {
        let Known {
            threads,
            locks,
            locs,
        } = self;
    }
}

impl Known {
    /// None was looked up.
    pub(crate) fn none(alloc: Global) -> Known
        ensures { (block names : NameLists) → IsKnownSoFar block names result }
    {
        Known {
            threads: Vec::new(alloc),
            locks: Vec::new(alloc),
            locs: Vec::new(alloc),
        }
    }

    /// Forgets all that was looked up, and keeps the memory.
    pub(crate) fn clear(&mut self)
        ensures { (block names : NameLists) → IsKnownSoFar block names self.new }
    {
        self.threads.clear();
        self.locks.clear();
        self.locs.clear();
    }

    /// Makes a place for each of a block's names that has none yet: it wasn't looked up.
    pub(crate) fn make_room(&mut self, block: &Names) -> Result<(), AllocError>
        ensures { OnOk result ((names : NameLists) → IsKnownSoFar block.now names self.old
            → IsKnownOf block.now names self.new) }
    {
        self.threads.resize(block.threads.len() as usize, None)?;
        self.locks.resize(block.locks.len() as usize, None)?;
        self.locs.resize(block.locs.len() as usize, None)?;
        Ok(())
    }

    /// The number in the text of the lock or thread, as the operation says, that has this one in a block, where it is
    /// known.
    #[inline(always)]
    pub(crate) fn operand(&self, operation: Operation, number: u32) -> Option<u32>
        requires there { number < length (known_operands (shown_operation operation) self.now) }
        ensures number { slice_get (known_operands (shown_operation operation) self.now) number
            ≡ Some result }
    {
        if operation.is_on_thread() {
            return self.threads[number as usize];
        }
        self.locks[number as usize]
    }
}

impl NameList {
    // The number here of the name that has this number in a block.
    #[inline(always)]
    fn find_known(
        &mut self,
        block: &NameList,
        known: &mut Vec<Option<u32>>,
        number: u32,
    ) -> Option<u32>
        requires there { number < length block.now }
        requires room { vec_len known.old ≡ length block.now }
        requires known { AreKnown block.now self.old known.old.items }
        ensures number { result ≡ position (bytes_eq (named block.now number)) self.old }
        ensures known { AreKnown block.now self.new known.new.items }
        ensures room { vec_len known.new ≡ vec_len known.old }
        ensures same { self.new ≡ self.old }
    {
        let place = number as usize;
        if let Some(found) = known[place] {
            return Some(found);
        }
        let found = self.find_again(block.name(number));
        known[place] = found;
        found
    }
}

impl Names {
    /// The number of the thread that has this one in a block. One look-up by hash, but none where it is known
    /// or as guessed.
    #[inline(always)]
    pub(crate) fn find_known_thread(
        &mut self,
        block: &Names,
        known: &mut Known,
        number: ThreadId,
    ) -> Option<ThreadId>
        requires there { number < length block.now.threads }
        requires known { IsKnownOf block.now self.old known.old }
        ensures number { result
            ≡ position (bytes_eq (named block.now.threads number)) self.old.threads }
        ensures known { IsKnownOf block.now self.old known.new }
        ensures same { self.new ≡ self.old }
    {
        self.threads
            .find_known(&block.threads, &mut known.threads, number.number())
            .map(ThreadId::new)
    }

    /// The number of the lock or thread, as the operation says, that has this one in a block. One look-up by
    /// hash, but none where it is known or as guessed.
    #[inline(always)]
    pub(crate) fn find_known_operand(
        &mut self,
        block: &Names,
        known: &mut Known,
        operation: Operation,
        number: u32,
    ) -> Option<u32>
        requires there { number < length (operands (shown_operation operation) block.now) }
        requires known { IsKnownOf block.now self.old known.old }
        ensures number { result ≡ position
            (bytes_eq (named (operands (shown_operation operation) block.now) number))
            (operands (shown_operation operation) self.old) }
        ensures known { IsKnownOf block.now self.old known.new }
        ensures same { self.new ≡ self.old }
    {
        if operation.is_on_thread() {
            return self
                .threads
                .find_known(&block.threads, &mut known.threads, number);
        }
        self.locks
            .find_known(&block.locks, &mut known.locks, number)
    }

    /// The number of the location that has this one in a block. One look-up by hash, but none where it is
    /// known or as guessed.
    #[inline(always)]
    pub(crate) fn find_known_loc(
        &mut self,
        block: &Names,
        known: &mut Known,
        number: LocId,
    ) -> Option<LocId>
        requires there { number < length block.now.locs }
        requires known { IsKnownOf block.now self.old known.old }
        ensures number { result
            ≡ position (bytes_eq (named block.now.locs number)) self.old.locs }
        ensures known { IsKnownOf block.now self.old known.new }
        ensures same { self.new ≡ self.old }
    {
        self.locs
            .find_known(&block.locs, &mut known.locs, number.number())
            .map(LocId::new)
    }

    /// The name of the lock or thread, as the operation says, that has this number.
    #[inline(always)]
    pub(crate) fn operand(&self, operation: Operation, number: u32) -> &[u8]
        requires { number < length (operands (shown_operation operation) self.now) }
        ensures { slice_get (operands (shown_operation operation) self.now) number
            ≡ Some result.now }
    {
        if operation.is_on_thread() {
            return self.threads.name(number);
        }
        self.locks.name(number)
    }
}
