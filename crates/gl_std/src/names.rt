//! Names of threads, locks and locations, by number.
ghost use Rattle.std.specs.Prelude.{◌≡◌, ◌≢◌, ◌+◌, ◌^◌, ◌<◌, [], ◌∷◌, ◌++◌, Some, None, length, position, slice_get, unwrap_or, AllPairs, IsTrue, OnOk, OnErr};
ghost use Rattle.std.specs.Str.{bytes_eq};

use crate::guess::{Guesses, Print};
use crate::line::Operation;
use crate::name::{Name, Wanted};
use crate::seed::Seed;
use gl_bytes::is_same;
use gl_event::{LocId, LockId, ThreadId};
use indexmap::IndexSet;
use std::alloc::{AllocError, Global};
use std::marker::Model;

mod known;
mod mentions;
mod numbering;

pub(crate) use known::Known;
pub use numbering::NamesFault;

/// Different names in order of first mention, so that the place of a name is its number.
struct NameList {
    names: IndexSet<Name, Seed>,
    guesses: Guesses,
}

// Written out, so that it is proved once: a derived drop is proved again wherever a list is let go.
impl Drop for NameList {
    fn drop(self) {
        let NameList { names, guesses } = self;
    }
}

impl Model for NameList {
    ghost use Rattle.std.specs.Prelude.{ℕ, ◌^◌, ◌<◌, List, length};

    ghost Value = { List (List ℕ) };

    ghost view = { λ n. n.names.keys };

    ghost invariant = { λ n. length n.names.keys < 2 ^ 32 };
}

impl NameList {
    ghost use Rattle.gl_std.specs.bodies.Finding.{with_name};

    /// No names.
    fn new(alloc: Global, seed: Seed) -> NameList
        ensures { result ≡ [] }
    {
        NameList {
            names: IndexSet::with_hasher(alloc, seed),
            guesses: Guesses::new(alloc),
        }
    }

    /// Drops the names, and keeps their memory. What was guessed stays: a guess is compared before it is used.
    fn clear(&mut self)
        ensures { self.new ≡ [] }
    {
        self.names.clear();
    }

    /// How many names there are.
    fn len(&self) -> u32
        ensures len { result ≡ length self.now }
        ensures within { length self.now < 2 ^ 32 }
        ensures distinct { AllPairs (λ a b. a ≢ b) self.now }
    {
        self.names.len() as u32
    }

    /// The name with this number.
    fn name(&self, number: u32) -> &[u8]
        requires { number < length self.now }
        ensures { slice_get self.now number ≡ Some result.now }
    {
        self.names.as_slice()[number as usize].as_bytes()
    }

    /// The name's number.
    fn find(&self, name: &[u8]) -> Option<u32>
        ensures { result ≡ position (bytes_eq name.now) self.now }
    {
        match self.names.get_index_of(Wanted { bytes: name }) {
            Some(place) => Some(place as u32),
            None => None,
        }
    }

    /// The name's number. Where it is `likely` or as guessed, that takes a comparison or two and no
    /// look-up by hash.
    #[inline(always)]
    fn find_near(&mut self, name: &[u8], likely: Option<u32>) -> Option<u32>
        ensures number { result ≡ position (bytes_eq name.now) self.old }
        ensures same { self.new ≡ self.old }
    {
        if self.has_number(name, likely) {
            return likely;
        }
        self.find_again(name)
    }

    /// The name's number. Where it is as guessed, that takes a comparison and no look-up by hash.
    #[inline(always)]
    fn find_again(&mut self, name: &[u8]) -> Option<u32>
        ensures number { result ≡ position (bytes_eq name.now) self.old }
        ensures same { self.new ≡ self.old }
    {
        let print = Print::new(name);
        let guess = self.guesses.get(print);
        if self.has_number(name, guess) {
            return guess;
        }
        let found = self.find(name);
        self.guesses.put(print, found);
        found
    }

    // Whether the name has this number, if that is one.
    #[inline(always)]
    fn has_number(&self, name: &[u8], number: Option<u32>) -> bool
        ensures { IsTrue result → position (bytes_eq name.now) self.now ≡ number }
    {
        match number {
            Some(number) => self.is_name_of(name, number),
            None => false,
        }
    }

    // Whether this is the name with this number.
    #[inline(always)]
    fn is_name_of(&self, name: &[u8], number: u32) -> bool
        ensures { IsTrue result → position (bytes_eq name.now) self.now ≡ Some number }
    {
        if number >= self.len() {
            return false;
        }
        is_same(name, self.name(number))
    }

    /// Puts a new name at the end.
    #[inline(never)]
    fn add(&mut self, alloc: Global, name: &[u8]) -> Result<(), AllocError>
        requires room { length self.old + 1 < 2 ^ 32 }
        requires absent { position (bytes_eq name.now) self.old ≡ None }
        ensures ok { OnOk result (self.new ≡ self.old ++ name.now ∷ []) }
        ensures err { OnErr result (self.new ≡ self.old) }
    {
        self.guesses.make_room(self.names.len())?;
        let name = Name::new(alloc, name)?;
        self.names.insert(name)?;
        Ok(())
    }

    /// Puts a name that has no number at the end.
    #[inline(always)]
    fn tell(&mut self, alloc: Global, number: Option<u32>, name: &[u8]) -> Result<(), AllocError>
        requires room { number ≡ None → length self.old + 1 < 2 ^ 32 }
        requires found { number ≡ position (bytes_eq name.now) self.old }
        ensures ok { OnOk result (self.new ≡ with_name self.old number name.now) }
    {
        match number {
            Some(_) => Ok(()),
            None => self.add(alloc, name),
        }
    }
}

/// The numbers of the names in a line, of those that have one. The operand is a lock or a thread, as
/// the operation says.
#[derive(Clone, Copy)]
pub(crate) struct Found {
    pub(crate) thread: Option<ThreadId>,
    pub(crate) operand: Option<u32>,
    pub(crate) loc: Option<LocId>,
}

impl Found {
    ghost use Rattle.std.specs.Prelude.{if◌then◌else◌, IsSome};
    ghost use Rattle.gl_std.specs.Line.{is_on_thread};
    ghost use Rattle.gl_std.specs.bodies.Finding.{if_new};
    ghost use Rattle.gl_std.specs.bodies.Shown.{shown_operation};

    /// Whether the three names have numbers.
    #[inline(always)]
    pub(crate) fn is_known(&self) -> bool
        ensures { IsTrue result → (IsSome self.now.thread) × (IsSome self.now.operand)
            × IsSome self.now.loc }
    {
        self.thread.is_some() && self.operand.is_some() && self.loc.is_some()
    }

    /// How many of the threads are new.
    #[inline(always)]
    pub(crate) fn new_threads(&self, operation: Operation) -> u64
        ensures { result ≡ if_new self.now.thread +
            (if is_on_thread (shown_operation operation) then if_new self.now.operand else 0) }
    {
        if self.is_known() {
            return 0;
        }
        let partner = if operation.is_on_thread() {
            u64::from(self.operand.is_none())
        } else {
            0
        };
        u64::from(self.thread.is_none()) + partner
    }

    /// How many of the locks are new.
    #[inline(always)]
    pub(crate) fn new_locks(&self, operation: Operation) -> u64
        ensures { result ≡
            (if is_on_thread (shown_operation operation) then 0 else if_new self.now.operand) }
    {
        if self.is_known() || operation.is_on_thread() {
            return 0;
        }
        u64::from(self.operand.is_none())
    }
}

/// The names of threads, of locks and of locations. Those of each kind have numbers from 0, in order
/// of first mention.
///
/// Contracts see three lists of byte strings. Of the public calls only those take memory that number a
/// new name.
pub struct Names {
    threads: NameList,
    locks: NameList,
    locs: NameList,
}

// Written out, so that it is proved once: a derived drop is proved again wherever names are let go.
impl Drop for Names {
    fn drop(self) {
        let Names {
            threads,
            locks,
            locs,
        } = self;
    }
}

impl Model for Names {
    ghost use Rattle.gl_std.specs.Names.{NameLists};

    ghost Value = { NameLists };

    ghost view = { λ n. record { threads = n.threads; locks = n.locks; locs = n.locs } };
}

impl Names {
    ghost use Rattle.std.specs.Prelude.{if◌then◌else◌};
    ghost use Rattle.gl_std.specs.Line.{is_on_thread};
    ghost use Rattle.gl_std.specs.bodies.Finding.{found_in, if_new, locks_after, operand_number, threads_after, with_name, with_names};
    ghost use Rattle.gl_std.specs.bodies.Shown.{shown_operation};

    /// No names. They are looked up by a hash that begins with this seed.
    pub fn new(alloc: Global, seed: Seed) -> Names
        ensures { result ≡ record { threads = []; locks = []; locs = [] } }
    {
        Names {
            threads: NameList::new(alloc, seed),
            locks: NameList::new(alloc, seed),
            locs: NameList::new(alloc, seed),
        }
    }

    /// Drops the names, and keeps their memory.
    pub(crate) fn clear(&mut self)
        ensures { self.new ≡ record { threads = []; locks = []; locs = [] } }
    {
        self.threads.clear();
        self.locks.clear();
        self.locs.clear();
    }

    /// How many names there are.
    pub(crate) fn count(&self) -> u64
        ensures { result ≡ length self.now.threads + length self.now.locks
            + length self.now.locs }
    {
        u64::from(self.threads.len()) + u64::from(self.locks.len()) + u64::from(self.locs.len())
    }

    /// How many threads have names.
    pub fn threads(&self) -> u32
        ensures count { result ≡ length self.now.threads }
        ensures distinct { AllPairs (λ a b. a ≢ b) self.now.threads }
    {
        self.threads.len()
    }

    /// How many locks have names.
    pub fn locks(&self) -> u32
        ensures count { result ≡ length self.now.locks }
        ensures distinct { AllPairs (λ a b. a ≢ b) self.now.locks }
    {
        self.locks.len()
    }

    /// How many locations have names.
    pub fn locs(&self) -> u32
        ensures count { result ≡ length self.now.locs }
        ensures distinct { AllPairs (λ a b. a ≢ b) self.now.locs }
    {
        self.locs.len()
    }

    /// The thread's name.
    pub fn thread(&self, number: ThreadId) -> &[u8]
        requires { number < length self.now.threads }
        ensures { slice_get self.now.threads number ≡ Some result.now }
    {
        self.threads.name(number.number())
    }

    /// The lock's name.
    pub fn lock(&self, number: LockId) -> &[u8]
        requires { number < length self.now.locks }
        ensures { slice_get self.now.locks number ≡ Some result.now }
    {
        self.locks.name(number.number())
    }

    /// The location's name.
    pub fn loc(&self, number: LocId) -> &[u8]
        requires { number < length self.now.locs }
        ensures { slice_get self.now.locs number ≡ Some result.now }
    {
        self.locs.name(number.number())
    }

    /// The number of the thread with this name. One look-up by hash.
    pub fn find_thread(&self, name: &[u8]) -> Option<ThreadId>
        ensures { result ≡ position (bytes_eq name.now) self.now.threads }
    {
        self.threads.find(name).map(ThreadId::new)
    }

    /// The number of the lock with this name. One look-up by hash.
    pub fn find_lock(&self, name: &[u8]) -> Option<LockId>
        ensures { result ≡ position (bytes_eq name.now) self.now.locks }
    {
        self.locks.find(name).map(LockId::new)
    }

    /// The number of the location with this name. One look-up by hash.
    pub fn find_loc(&self, name: &[u8]) -> Option<LocId>
        ensures { result ≡ position (bytes_eq name.now) self.now.locs }
    {
        self.locs.find(name).map(LocId::new)
    }

    /// The number of the thread with this name. One look-up by hash, but none where it is `likely` or
    /// as guessed.
    #[inline(always)]
    pub(crate) fn find_thread_near(
        &mut self,
        name: &[u8],
        likely: Option<ThreadId>,
    ) -> Option<ThreadId>
        ensures number { result ≡ position (bytes_eq name.now) self.old.threads }
        ensures same { self.new ≡ self.old }
    {
        self.threads
            .find_near(name, likely.map(ThreadId::number))
            .map(ThreadId::new)
    }

    /// The number of the lock with this name. One look-up by hash, but none where it is `likely` or as
    /// guessed.
    #[inline(always)]
    pub(crate) fn find_lock_near(&mut self, name: &[u8], likely: Option<LockId>) -> Option<LockId>
        ensures number { result ≡ position (bytes_eq name.now) self.old.locks }
        ensures same { self.new ≡ self.old }
    {
        self.locks
            .find_near(name, likely.map(LockId::number))
            .map(LockId::new)
    }

    /// The number of the location with this name. One look-up by hash, but none where it is as guessed.
    #[inline(always)]
    pub(crate) fn find_loc_again(&mut self, name: &[u8]) -> Option<LocId>
        ensures number { result ≡ position (bytes_eq name.now) self.old.locs }
        ensures same { self.new ≡ self.old }
    {
        self.locs.find_again(name).map(LocId::new)
    }

    /// The number of the operand, or the next one for a new lock or thread.
    #[inline(always)]
    pub(crate) fn operand_or_next(&self, operation: Operation, found: &Found) -> u32
        requires { threads_after self.now (shown_operation operation) found.now < 2 ^ 32 }
        ensures { result ≡ operand_number self.now (shown_operation operation) found.now }
    {
        match found.operand {
            Some(number) => number,
            None => {
                if operation.is_on_thread() {
                    self.threads() + u32::from(found.thread.is_none())
                } else {
                    self.locks()
                }
            }
        }
    }

    /// The number of the acting thread, or the next one for a new thread.
    #[inline(always)]
    pub(crate) fn thread_or_next(&self, found: &Found) -> ThreadId
        ensures { result ≡ unwrap_or found.now.thread (length self.now.threads) }
    {
        match found.thread {
            Some(number) => number,
            None => ThreadId::new(self.threads.len()),
        }
    }

    /// The number of the location, or the next one for a new location.
    #[inline(always)]
    pub(crate) fn loc_or_next(&self, found: &Found) -> LocId
        ensures { result ≡ unwrap_or found.now.loc (length self.now.locs) }
    {
        match found.loc {
            Some(loc) => loc,
            None => LocId::new(self.locs.len()),
        }
    }

    /// Gives numbers to the names of a line that have none.
    #[inline(always)]
    pub(crate) fn tell(
        &mut self,
        alloc: Global,
        operation: Operation,
        found: &Found,
        thread: &[u8],
        operand: &[u8],
        location: &[u8],
    ) -> Result<(), AllocError>
        requires found { found.now
            ≡ found_in self.old (shown_operation operation) thread.now operand.now location.now }
        requires threads { threads_after self.old (shown_operation operation) found.now < 2 ^ 32 }
        requires locks { locks_after self.old (shown_operation operation) found.now < 2 ^ 32 }
        requires locs { length self.old.locs + if_new found.now.loc < 2 ^ 32 }
        ensures { OnOk result
            (self.new
            ≡ with_names self.old
            (shown_operation operation) found.now thread.now operand.now location.now) }
    {
        if found.is_known() {
            return Ok(());
        }
        self.threads
            .tell(alloc, found.thread.map(ThreadId::number), thread)?;
        self.tell_operand(alloc, operation, found.operand, operand)?;
        self.locs
            .tell(alloc, found.loc.map(LocId::number), location)?;
        Ok(())
    }

    // Gives a number to an operand that has none.
    #[inline(always)]
    fn tell_operand(
        &mut self,
        alloc: Global,
        operation: Operation,
        number: Option<u32>,
        name: &[u8],
    ) -> Result<(), AllocError>
        requires found { number ≡ position (bytes_eq name.now)
            (if is_on_thread
            (shown_operation operation) then self.old.threads else self.old.locks) }
        requires room { number ≡ None
            → length (if is_on_thread
            (shown_operation operation) then self.old.threads else self.old.locks) + 1 < 2 ^ 32 }
        ensures threads { OnOk result
            (self.new.threads
            ≡ (if is_on_thread
            (shown_operation operation) then with_name self.old.threads number name.now else
            self.old.threads)) }
        ensures locks { OnOk result
            (self.new.locks
            ≡ (if is_on_thread
            (shown_operation operation) then self.old.locks else with_name self.old.locks number
            name.now)) }
        ensures locs { self.new.locs ≡ self.old.locs }
    {
        if operation.is_on_thread() {
            return self.threads.tell(alloc, number, name);
        }
        self.locks.tell(alloc, number, name)
    }
}
