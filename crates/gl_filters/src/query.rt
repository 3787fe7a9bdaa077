//! What is asked of the analysis.
ghost use Rattle.std.specs.Prelude.{◌≡◌, ◌≤◌, None, Some, IfOk, IfErr};

use std::error::Error;
use std::fmt;
use std::marker::Model;

/// The greatest length of a cycle that may be asked for.
pub const MAX_LEN: u32 = 16;
/// The most cycles that may be asked for.
pub const MAX_CYCLES: u32 = 100_000;

/// Which cycles count as potential deadlocks. Each mode asks what the mode before it asks, and more.
#[derive(Clone, Copy, Debug, PartialEq, Eq)]
pub enum Mode {
    /// Each lock that an edge wants is the one that the next edge holds, round; held locks differ,
    /// and so do threads.
    Basic,
    /// No two edges have a guard lock in common: such a gate lock keeps them apart.
    Guarded,
    /// No two edges are ordered by forks and joins.
    Full,
}

impl Mode {
    ghost use Rattle.gl_filters.specs.Asked.{mode_name, mode_named};

    /// The word for the mode, in commands and in reports.
    pub fn name(self) -> &'static str
        ensures value { result.now ≡ mode_name self }
        ensures back { mode_named result.now ≡ Some self }
    {
        match self {
            Mode::Basic => "basic",
            Mode::Guarded => "guarded",
            Mode::Full => "full",
        }
    }

    /// The mode that the word stands for, if it is that of one.
    pub fn named(word: &str) -> Option<Mode>
        ensures value { result ≡ mode_named word.now }
    {
        if word == Mode::Basic.name() {
            return Some(Mode::Basic);
        }
        if word == Mode::Guarded.name() {
            return Some(Mode::Guarded);
        }
        if word == Mode::Full.name() {
            return Some(Mode::Full);
        }
        None
    }
}

/// What of a query is out of its range.
#[derive(Clone, Copy, Debug, PartialEq, Eq)]
pub enum BadQuery {
    /// The greatest length isn't from 2 to 16.
    Len,
    /// The number of cycles isn't from 1 to 100,000.
    Max,
}

impl fmt::Display for BadQuery {
    ghost use Rattle.gl_filters.specs.Faults.{text_of};

    ghost output = { λ bad. Some (text_of bad) };

    fn fmt<W: fmt::Write>(&self, f: &mut fmt::Formatter<W>) -> fmt::Result {
        f.write_str(match self {
            BadQuery::Len => "the greatest length of a cycle is out of range",
            BadQuery::Max => "the number of cycles is out of range",
        })
    }
}

impl Error for BadQuery {}

/// Which cycles are asked for: the mode, how many edges a cycle may have, and how many cycles are
/// listed at the most. Contracts see a record of the three.
#[derive(Clone, Copy, Debug, PartialEq, Eq)]
pub struct Query {
    mode: Mode,
    len: u32,
    max: u32,
}

impl Model for Query {
    ghost use Rattle.gl_filters.specs.Asked.{Asked, IsInRange};

    ghost Value = { Asked };

    ghost view = { λ q. record { mode = q.mode; len = q.len; max = q.max } };

    ghost invariant = { λ q. IsInRange (record { mode = q.mode; len = q.len; max = q.max }) };

    ghost inverse = { λ a. record { mode = a.mode; len = a.len; max = a.max } };
}

impl Query {
    ghost use Rattle.gl_filters.specs.Asked.{IsInRange, first_out_of_range};

    /// The query for at most `max` cycles of at most `len` edges, or what is out of its range.
    pub fn new(mode: Mode, len: u32, max: u32) -> Result<Query, BadQuery>
        ensures kept { IfOk result (λ q. q ≡ record { mode = mode; len = len; max = max }) }
        ensures good { IfOk result (λ q. first_out_of_range q ≡ None) }
        ensures bad { IfErr result
            (λ e. first_out_of_range (record { mode = mode; len = len; max = max }) ≡ Some e) }
    {
        if len < 2 || len > MAX_LEN {
            return Err(BadQuery::Len);
        }
        if max < 1 || max > MAX_CYCLES {
            return Err(BadQuery::Max);
        }
        Ok(Query { mode, len, max })
    }

    /// The mode.
    pub fn mode(&self) -> Mode
        ensures value { result ≡ self.now.mode }
    {
        self.mode
    }

    /// How many edges a cycle may have.
    pub fn len(&self) -> u32
        ensures value { result ≡ self.now.len }
        ensures within { IsInRange self.now }
    {
        self.len
    }

    /// How many cycles are listed at the most.
    pub fn max(&self) -> u32
        ensures value { result ≡ self.now.max }
        ensures within { IsInRange self.now }
    {
        self.max
    }
}

/// What a query is bounded by, in numbers. It does nothing: its contract is the table.
pub fn limits_in_numbers()
    ensures length { MAX_LEN ≡ 16 }
    ensures cycles { MAX_CYCLES ≡ 100000 }
{}
