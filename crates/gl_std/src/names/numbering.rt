//! Names that get their numbers without a text.
ghost use Rattle.std.specs.Prelude.{◌≡◌};
ghost use Rattle.gl_std.specs.Names.{HasNumbered};

use super::{NameList, Names};
use gl_event::{LocId, LockId, ThreadId};
use std::alloc::Global;

/// Why a name got no number.
#[derive(Clone, Copy, Debug, PartialEq, Eq)]
pub enum NamesFault {
    /// The name is new, and there are 4,294,967,295 names of its kind, which is as many as there
    /// may be.
    Full,
    /// There is no memory for the name.
    Memory,
}

impl NameList {
    // The name's number. A new name gets the next one.
    fn number(&mut self, alloc: Global, name: &[u8]) -> Result<u32, NamesFault>
        ensures { HasNumbered self.old name.now self.new result }
    {
        if let Some(number) = self.find(name) {
            return Ok(number);
        }
        let number = self.len();
        if number == u32::MAX {
            return Err(NamesFault::Full);
        }
        let Ok(()) = self.add(alloc, name) else {
            return Err(NamesFault::Memory);
        };
        Ok(number)
    }
}

impl Names {
    /// The number of the thread with this name. A new name gets the next number. One look-up by hash.
    ///
    /// Err where there is no number left, and where memory was refused: the names are as they were.
    pub fn number_thread(&mut self, alloc: Global, name: &[u8]) -> Result<ThreadId, NamesFault>
        ensures numbered { HasNumbered self.old.threads name.now self.new.threads result }
        ensures others { self.new ≡ record self.old { threads = self.new.threads } }
    {
        match self.threads.number(alloc, name) {
            Ok(number) => Ok(ThreadId::new(number)),
            Err(fault) => Err(fault),
        }
    }

    /// The number of the lock with this name. A new name gets the next number. One look-up by hash.
    ///
    /// Err where there is no number left, and where memory was refused: the names are as they were.
    pub fn number_lock(&mut self, alloc: Global, name: &[u8]) -> Result<LockId, NamesFault>
        ensures numbered { HasNumbered self.old.locks name.now self.new.locks result }
        ensures others { self.new ≡ record self.old { locks = self.new.locks } }
    {
        match self.locks.number(alloc, name) {
            Ok(number) => Ok(LockId::new(number)),
            Err(fault) => Err(fault),
        }
    }

    /// The number of the location with this name. A new name gets the next number. One look-up by
    /// hash.
    ///
    /// Err where there is no number left, and where memory was refused: the names are as they were.
    pub fn number_loc(&mut self, alloc: Global, name: &[u8]) -> Result<LocId, NamesFault>
        ensures numbered { HasNumbered self.old.locs name.now self.new.locs result }
        ensures others { self.new ≡ record self.old { locs = self.new.locs } }
    {
        match self.locs.number(alloc, name) {
            Ok(number) => Ok(LocId::new(number)),
            Err(fault) => Err(fault),
        }
    }
}
