//! Numbers by first mention, event by event.
ghost use Rattle.std.specs.Prelude.{◌≡◌, ◌≢◌, ◌+◌, ◌^◌, ◌<◌, [], ◌∷◌, true, Some, None, length, position, AllPairs, IfOk, OnErr, OnOk};
ghost use Rattle.std.specs.Str.{bytes_eq};
ghost use Rattle.gl_std.specs.Names.{with_new};
ghost use Rattle.gl_writing.specs.Written.{name_at};
ghost use Rattle.gl_renumbering.specs.Tales.{has_names, mentioned, no_names, told};
ghost use Rattle.gl_renumbering.specs.bodies.Tables.{IsBlank, StandsFor, StaysToldBy};

use crate::threads::names_of_threads;
use gl_event::{Event, LocId, LockId, Memory, append};
use gl_std::{Names, NamesFault};
use std::alloc::{AllocError, Global};

/// What was mentioned so far: the names by their new numbers, and the new numbers of locks and of locations by
/// their old ones.
#[derive(Drop)]
pub(crate) struct Numbers {
    pub(crate) names: Names,
    pub(crate) locks: Vec<Option<u32>>,
    pub(crate) locations: Vec<Option<u32>>,
}

// A table of so many numbers, none of them known yet.
fn blank_table(alloc: Global, count: u32) -> Result<Vec<Option<u32>>, Memory>
    ensures blank { IfOk result (λ table. IsBlank count table.items) }
    ensures memory { OnErr result (0 < count) }
{
    let mut table = Vec::new(alloc);
    for _ in 0..count {
        append(&mut table, None)?;
    }
    Ok(table)
}

// The number of the lock's name among these.
fn number_lock(alloc: Global, names: &mut Names, name: &[u8]) -> Result<u32, Memory>
    requires room { position (bytes_eq name.now) names.old.locks ≡ None
        → length names.old.locks + 1 < 2 ^ 32 }
    ensures number { IfOk result
        (λ number. position (bytes_eq name.now) names.new.locks ≡ Some number) }
    ensures names { OnOk result
        (names.new
        ≡ record names.old { locks = with_new names.old.locks name.now }) }
{
    match names.number_lock(alloc, name) {
        Ok(number) => Ok(number.number()),
        Err(NamesFault::Memory) => Err(AllocError),
        // there are no more names than there were
        Err(NamesFault::Full) => unreachable!(),
    }
}

// The number of the location's name among these.
fn number_location(alloc: Global, names: &mut Names, name: &[u8]) -> Result<u32, Memory>
    requires room { position (bytes_eq name.now) names.old.locs ≡ None
        → length names.old.locs + 1 < 2 ^ 32 }
    ensures number { IfOk result
        (λ number. position (bytes_eq name.now) names.new.locs ≡ Some number) }
    ensures names { OnOk result
        (names.new
        ≡ record names.old { locs = with_new names.old.locs name.now }) }
{
    match names.number_loc(alloc, name) {
        Ok(number) => Ok(number.number()),
        Err(NamesFault::Memory) => Err(AllocError),
        // there are no more names than there were
        Err(NamesFault::Full) => unreachable!(),
    }
}

impl Numbers {
    /// None yet. It knows the names of the threads.
    pub(crate) fn new(alloc: Global, names: &Names) -> Result<Numbers, Memory>
        ensures stands { IfOk result (λ numbers. StandsFor names.now numbers.names
            numbers.locks.items numbers.locations.items) }
        ensures names { IfOk result
            (λ numbers. numbers.names ≡ record names.now { locks = []; locs = [] }) }
        ensures differ { OnOk result (AllPairs (λ a b. a ≢ b) names.now.locks) }
        ensures memory { OnErr result (names.now ≢ no_names) }
    {
        let alone = names_of_threads(alloc, names)?;
        Ok(Numbers {
            names: alone,
            locks: blank_table(alloc, names.locks())?,
            locations: blank_table(alloc, names.locs())?,
        })
    }

    // The lock's number. One look-up by hash at its first mention, and a look at the table later.
    fn lock(&mut self, alloc: Global, old: &Names, lock: LockId) -> Result<LockId, Memory>
        requires stands { StandsFor old.now self.old.names
            self.old.locks.items self.old.locations.items }
        requires named { lock < length old.now.locks }
        ensures stands { OnOk result (StandsFor old.now self.new.names
            self.new.locks.items self.new.locations.items) }
        ensures number { IfOk result (λ number. position (bytes_eq (name_at old.now.locks lock))
            self.new.names.locks ≡ Some number) }
        ensures names { OnOk result
            (self.new.names
            ≡ record self.old.names {
              locks =
                  with_new self.old.names.locks (name_at old.now.locks lock);
            }) }
    {
        let place = lock.number() as usize;
        if let Some(number) = self.locks[place] {
            return Ok(LockId::new(number));
        }
        let number = number_lock(alloc, &mut self.names, old.lock(lock))?;
        self.locks[place] = Some(number);
        Ok(LockId::new(number))
    }

    // The location's number, likewise.
    fn location(&mut self, alloc: Global, old: &Names, location: LocId) -> Result<LocId, Memory>
        requires stands { StandsFor old.now self.old.names
            self.old.locks.items self.old.locations.items }
        requires named { location < length old.now.locs }
        ensures stands { OnOk result (StandsFor old.now self.new.names
            self.new.locks.items self.new.locations.items) }
        ensures number { IfOk result (λ number. position (bytes_eq (name_at old.now.locs location))
            self.new.names.locs ≡ Some number) }
        ensures names { OnOk result
            (self.new.names
            ≡ record self.old.names {
              locs =
                  with_new self.old.names.locs (name_at old.now.locs location);
            }) }
    {
        let place = location.number() as usize;
        if let Some(number) = self.locations[place] {
            return Ok(LocId::new(number));
        }
        let number = number_location(alloc, &mut self.names, old.loc(location))?;
        self.locations[place] = Some(number);
        Ok(LocId::new(number))
    }

    /// The event by the new numbers. One look-up by hash at the first mention of a name.
    pub(crate) fn event(
        &mut self,
        alloc: Global,
        old: &Names,
        event: &Event,
    ) -> Result<Event, Memory>
        requires stands { StandsFor old.now self.old.names
            self.old.locks.items self.old.locations.items }
        requires named { has_names old.now event.now ≡ true }
        ensures stands { OnOk result (StandsFor old.now self.new.names
            self.new.locks.items self.new.locations.items) }
        ensures names { OnOk result
            (self.new.names ≡ mentioned self.old.names (told old.now event.now ∷ [])) }
        ensures event { IfOk result (StaysToldBy self.new.names (told old.now event.now)) }
    {
        match *event {
            Event::Acquire { lock, mode, loc } => {
                let lock = self.lock(alloc, old, lock)?;
                let loc = self.location(alloc, old, loc)?;
                Ok(Event::Acquire { lock, mode, loc })
            }
            Event::Release { lock, mode, loc } => {
                let lock = self.lock(alloc, old, lock)?;
                let loc = self.location(alloc, old, loc)?;
                Ok(Event::Release { lock, mode, loc })
            }
            Event::TryAcquire { lock, mode, loc } => {
                let lock = self.lock(alloc, old, lock)?;
                let loc = self.location(alloc, old, loc)?;
                Ok(Event::TryAcquire { lock, mode, loc })
            }
            Event::Fork { thread, loc } => {
                let loc = self.location(alloc, old, loc)?;
                Ok(Event::Fork { thread, loc })
            }
            Event::Join { thread, loc } => {
                let loc = self.location(alloc, old, loc)?;
                Ok(Event::Join { thread, loc })
            }
        }
    }
}
