//! How large a session or a trace may grow.
ghost use Rattle.std.specs.Prelude.{◌≡◌, ◌≤◌, None, Some, IfOk, IfErr};
ghost use Rattle.gl_event.specs.declared.held.TheConstants.{MAX_HELD, MAX_DEPTH};

use std::error::Error;
use std::fmt;
use std::marker::Model;

/// The most threads that a session or a trace may have.
pub const MAX_THREADS: u32 = 1_024;
/// The greatest capacity of a ring or a feed.
pub const MAX_RING: u32 = 65_536;
/// The most events that one thread may have.
pub const MAX_EVENTS: u32 = 4_000_000_000;
/// The most lock names, and the most location names.
pub const MAX_NAMES: u32 = 4_000_000_000;

/// The limit that is out of its range.
#[derive(Clone, Copy, Debug, PartialEq, Eq)]
pub enum BadLimits {
    /// The number of threads isn't from 1 to 1,024.
    Threads,
    /// The capacity isn't from 1 to 65,536.
    Ring,
    /// The events per thread aren't from 1 to 4,000,000,000.
    Events,
    /// The names aren't from 1 to 4,000,000,000.
    Names,
}

impl fmt::Display for BadLimits {
    ghost use Rattle.std.specs.Prelude.{Some};
    ghost use Rattle.gl_event.specs.Faults.{text_of};

    ghost output = { λ bad. Some (text_of bad) };

    fn fmt<W: fmt::Write>(&self, f: &mut fmt::Formatter<W>) -> fmt::Result {
        f.write_str(match self {
            BadLimits::Threads => "the limit of threads is out of range",
            BadLimits::Ring => "the limit of a ring is out of range",
            BadLimits::Events => "the limit of events is out of range",
            BadLimits::Names => "the limit of names is out of range",
        })
    }
}

impl Error for BadLimits {}

/// How many threads there may be, how many entries a ring or a feed has, how many events a thread
/// may have, and how many locks and how many locations may have names.
///
/// Contracts see the four numbers as a record.
#[derive(Clone, Copy, Debug, PartialEq, Eq)]
pub struct Limits {
    threads: u32,
    ring: u32,
    events: u32,
    names: u32,
}

impl Model for Limits {
    ghost use Rattle.gl_event.specs.Bounds.{Bounds, AreWithinRange};

    ghost Value = { Bounds };

    ghost view = { λ l. record {
      threads = l.threads;
      ring = l.ring;
      events = l.events;
      names = l.names;
    } };

    ghost invariant = { λ l. AreWithinRange (record {
      threads = l.threads;
      ring = l.ring;
      events = l.events;
      names = l.names;
    }) };

    ghost inverse = { λ b. record {
      threads = b.threads;
      ring = b.ring;
      events = b.events;
      names = b.names;
    } };
}

impl Limits {
    ghost use Rattle.gl_event.specs.Bounds.{first_out_of_range, greatest, of_session, AreWithinRange};

    /// The limits with these four numbers, or the first of them that is out of its range.
    pub fn new(threads: u32, ring: u32, events: u32, names: u32) -> Result<Limits, BadLimits>
        ensures kept { IfOk result
            (λ l. l
            ≡ record { threads = threads; ring = ring; events = events; names = names }) }
        ensures good { IfOk result (λ l. first_out_of_range l ≡ None) }
        ensures bad { IfErr result
            (λ e. first_out_of_range
            (record { threads = threads; ring = ring; events = events; names = names })
            ≡ Some e) }
    {
        if threads < 1 || threads > MAX_THREADS {
            return Err(BadLimits::Threads);
        }
        if ring < 1 || ring > MAX_RING {
            return Err(BadLimits::Ring);
        }
        if events < 1 || events > MAX_EVENTS {
            return Err(BadLimits::Events);
        }
        if names < 1 || names > MAX_NAMES {
            return Err(BadLimits::Names);
        }
        Ok(Limits {
            threads,
            ring,
            events,
            names,
        })
    }

    /// The greatest limits: each number is as great as it may be.
    pub fn greatest() -> Limits
        ensures { result ≡ greatest }
    {
        Limits {
            threads: MAX_THREADS,
            ring: MAX_RING,
            events: MAX_EVENTS,
            names: MAX_NAMES,
        }
    }

    /// The limits of a session of so many threads, with rings of so many entries, which may have as many
    /// events and names as the greatest limits allow.
    pub fn of_session(threads: u32, ring: u32) -> Limits
        requires some_thread { 1 ≤ threads }
        requires threads_fit { threads ≤ MAX_THREADS }
        requires some_ring { 1 ≤ ring }
        requires ring_fits { ring ≤ MAX_RING }
        ensures { result ≡ of_session threads ring }
    {
        Limits {
            threads,
            ring,
            events: MAX_EVENTS,
            names: MAX_NAMES,
        }
    }

    /// How many threads there may be.
    pub fn threads(&self) -> u32
        ensures value { result ≡ self.now.threads }
        ensures within { AreWithinRange self.now }
    {
        self.threads
    }

    /// How many entries a ring or a feed has.
    pub fn ring(&self) -> u32
        ensures value { result ≡ self.now.ring }
        ensures within { AreWithinRange self.now }
    {
        self.ring
    }

    /// How many events a thread may have.
    pub fn events(&self) -> u32
        ensures value { result ≡ self.now.events }
        ensures within { AreWithinRange self.now }
    {
        self.events
    }

    /// How many locks, and how many locations, may have names.
    pub fn names(&self) -> u32
        ensures value { result ≡ self.now.names }
        ensures within { AreWithinRange self.now }
    {
        self.names
    }
}

/// What a session and a trace are bounded by, in numbers. It does nothing: its contract is the table.
pub fn limits_in_numbers()
    ensures threads { MAX_THREADS ≡ 1024 }
    ensures ring { MAX_RING ≡ 65536 }
    ensures events { MAX_EVENTS ≡ 4000000000 }
    ensures names { MAX_NAMES ≡ 4000000000 }
    ensures held_locks { MAX_HELD ≡ 64 }
    ensures depth { MAX_DEPTH ≡ 1000000 }
{}
