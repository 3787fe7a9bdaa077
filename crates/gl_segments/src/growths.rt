//! The growths of one thread, in few bytes.
//!
//! There may be one for each two threads, and most threads have few segments. So where all numbers of
//! a thread's growths are below 2^16, they are kept as such, which takes 6 bytes for each in place of
//! 12.
ghost use Rattle.std.specs.Prelude.{◌≡◌, true, false, ◌<◌, ◌≤◌, length, map, slice_index_or, IfOk};
ghost use Rattle.std.specs.List.{list_all};
ghost use Rattle.std.specs.List.Sorted.{IsPartitionPoint};
ghost use Rattle.gl_segments.specs.bodies.Histories.{is_up_to, AreOrdered};
ghost use Rattle.gl_segments.specs.bodies.Growths.{is_short, long};

use gl_event::ThreadId;
use std::alloc::{AllocError, Global};
use std::marker::Model;

/// From a segment of a thread on, so many segments of another thread are before its segments.
#[derive(Clone, Copy, Debug)]
pub struct Growth {
    /// The other thread.
    pub thread: ThreadId,
    /// The index of the segment.
    pub from: u32,
    /// How many segments of the other thread are before it.
    pub count: u32,
}

/// A growth whose numbers are below 2^16.
#[derive(Clone, Copy, Debug)]
pub struct ShortGrowth {
    /// The other thread.
    pub thread: u16,
    /// The index of the segment.
    pub from: u16,
    /// How many segments of the other thread are before it.
    pub count: u16,
}

/// How the growths of a thread are kept.
#[derive(Drop, Debug)]
pub enum Kept {
    /// All of them in short.
    Short(Vec<ShortGrowth>),
    /// One of them isn't short.
    Long(Vec<Growth>),
}

/// The growths of a thread whose clocks are made: none comes any more.
#[derive(Drop, Debug)]
pub struct Growths {
    kept: Kept,
}

impl Model for Growths {
    ghost use Rattle.std.specs.Prelude.{List};
    ghost use Rattle.gl_segments.specs.declared.growths.Growth.{Growth};

    ghost Value = { List Growth };

    ghost use Rattle.gl_segments.specs.bodies.Growths.{growths_of, IsInShort};

    ghost view = { λ g. growths_of g.kept };

    ghost invariant = { λ g. IsInShort g.kept };
}

impl Growths {
    /// These growths.
    pub fn new(alloc: Global, mut growths: Vec<Growth>) -> Result<Growths, AllocError>
        ensures { IfOk result (λ g. g ≡ growths.items) }
    {
        if are_short(&growths) {
            let short = in_short(alloc, &growths)?;
            return Ok(Growths {
                kept: Kept::Short(short),
            });
        }
        growths.shrink_to_fit();
        Ok(Growths {
            kept: Kept::Long(growths),
        })
    }

    /// How many there are.
    pub fn len(&self) -> usize
        ensures { result ≡ length self.now }
    {
        match &self.kept {
            Kept::Short(growths) => growths.len(),
            Kept::Long(growths) => growths.len(),
        }
    }

    /// The growth at a position.
    pub fn get(&self, at: usize) -> Growth
        requires { at < length self.now }
        ensures { result ≡ slice_index_or self.now at result }
    {
        match &self.kept {
            Kept::Short(growths) => growths[at].long(),
            Kept::Long(growths) => growths[at],
        }
    }

    /// How many are of lesser threads, or of this one and from this segment or an earlier one. They
    /// are the first ones. Takes time as the logarithm of how many there are.
    pub fn up_to(&self, index: u32, thread: ThreadId) -> usize
        requires { AreOrdered self.now }
        ensures bound { result ≤ length self.now }
        ensures parted { IsPartitionPoint (λ g. is_up_to index thread g ≡ true)
            (λ g. is_up_to index thread g ≡ false) self.now result }
    {
        match &self.kept {
            Kept::Short(growths) => short_up_to(growths, index, thread),
            Kept::Long(growths) => long_up_to(growths, index, thread),
        }
    }
}

impl Growth {
    // Whether its numbers are below 2^16.
    fn is_short(&self) -> bool
        ensures { result ≡ is_short self.now }
    {
        let most = u16::MAX as u32;
        self.thread.number() <= most && self.from <= most && self.count <= most
    }

    // The same in short.
    fn short(&self) -> ShortGrowth
        requires { is_short self.now ≡ true }
        ensures { long result ≡ self.now }
    {
        ShortGrowth {
            thread: self.thread.number() as u16,
            from: self.from as u16,
            count: self.count as u16,
        }
    }

    // Whether it is of a lesser thread, or of this one and from this segment or an earlier one.
    fn is_up_to(&self, index: u32, thread: ThreadId) -> bool
        ensures { result ≡ is_up_to index thread self.now }
    {
        self.thread.number() < thread.number()
            || (self.thread.number() == thread.number() && self.from <= index)
    }
}

impl ShortGrowth {
    // The growth that it stands for.
    fn long(&self) -> Growth
        ensures { result ≡ long self.now }
    {
        Growth {
            thread: ThreadId::new(self.thread as u32),
            from: self.from as u32,
            count: self.count as u32,
        }
    }
}

// Whether all of them are short.
fn are_short(growths: &[Growth]) -> bool
    ensures { result ≡ list_all is_short growths.now }
{
    growths.iter().all(|g| g.is_short())
}

// All of them in short.
fn in_short(alloc: Global, growths: &[Growth]) -> Result<Vec<ShortGrowth>, AllocError>
    requires { list_all is_short growths.now ≡ true }
    ensures { IfOk result (λ v. map long v.items ≡ growths.now) }
{
    let mut short = Vec::with_capacity(alloc, growths.len())?;
    for growth in growths {
        short.push(growth.short())?;
    }
    Ok(short)
}

// How many short growths are of lesser threads, or of this one and up to this segment.
fn short_up_to(growths: &[ShortGrowth], index: u32, thread: ThreadId) -> usize
    requires { AreOrdered (map long growths.now) }
    ensures bound { result ≤ length growths.now }
    ensures parted { IsPartitionPoint (λ g. is_up_to index thread g ≡ true)
        (λ g. is_up_to index thread g ≡ false) (map long growths.now) result }
{
    growths.partition_point(
        |g: &ShortGrowth| -> bool
            ensures { result ≡ is_up_to index thread (long g.now) }
        { g.long().is_up_to(index, thread) },
    )
}

// How many growths are of lesser threads, or of this one and up to this segment.
fn long_up_to(growths: &[Growth], index: u32, thread: ThreadId) -> usize
    requires { AreOrdered growths.now }
    ensures bound { result ≤ length growths.now }
    ensures parted { IsPartitionPoint (λ g. is_up_to index thread g ≡ true)
        (λ g. is_up_to index thread g ≡ false) growths.now result }
{
    growths.partition_point(
        |g: &Growth| -> bool
            ensures { result ≡ is_up_to index thread g.now }
        { g.is_up_to(index, thread) },
    )
}
