//! Threads, locks and locations by number.
ghost use Rattle.std.specs.Prelude.{◌≡◌, ℕ};

use std::marker::Model;

/// A thread's number. Numbers count from 0.
#[derive(Clone, Copy, Debug, PartialEq, Eq, PartialOrd, Ord, Hash, Default)]
pub struct ThreadId {
    number: u32,
}

impl Model for ThreadId {
    ghost Value = { ℕ };

    ghost view = { λ t. t.number };

    ghost inverse = { λ n. record { number = n } };
}

impl ThreadId {
    /// The thread with this number.
    pub const fn new(number: u32) -> Self
        ensures { result ≡ number }
    {
        ThreadId { number }
    }

    /// The thread's number.
    pub const fn number(self) -> u32
        ensures { result ≡ self }
    {
        self.number
    }
}

/// A lock's number. Numbers count from 0.
#[derive(Clone, Copy, Debug, PartialEq, Eq, PartialOrd, Ord, Hash, Default)]
pub struct LockId {
    number: u32,
}

impl Model for LockId {
    ghost Value = { ℕ };

    ghost view = { λ l. l.number };

    ghost inverse = { λ n. record { number = n } };
}

impl LockId {
    /// The lock with this number.
    pub const fn new(number: u32) -> Self
        ensures { result ≡ number }
    {
        LockId { number }
    }

    /// The lock's number.
    pub const fn number(self) -> u32
        ensures { result ≡ self }
    {
        self.number
    }
}

/// The number of a location: a place in the source of the program that is watched. Numbers count
/// from 0.
#[derive(Clone, Copy, Debug, PartialEq, Eq, PartialOrd, Ord, Hash, Default)]
pub struct LocId {
    number: u32,
}

impl Model for LocId {
    ghost Value = { ℕ };

    ghost view = { λ l. l.number };

    ghost inverse = { λ n. record { number = n } };
}

impl LocId {
    /// The location with this number.
    pub const fn new(number: u32) -> Self
        ensures { result ≡ number }
    {
        LocId { number }
    }

    /// The location's number.
    pub const fn number(self) -> u32
        ensures { result ≡ self }
    {
        self.number
    }
}
