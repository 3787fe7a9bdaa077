//! Clocks: of each thread, how many of its segments are before a segment.
ghost use Rattle.std.specs.Prelude.{◌≡◌, ℕ, ◌<◌, ◌≤◌, List, length, max, replicate, slice_index, slice_set, IfOk};

use gl_event::ThreadId;
use std::alloc::{AllocError, Global};
use std::marker::Model;

/// For each thread, by number, how many of its segments are before a segment.
#[derive(Drop)]
pub struct Clock {
    ahead: Vec<u32>,
    /// From here on there are only zeros.
    end: usize,
}

impl Model for Clock {
    ghost use Rattle.std.specs.Prelude.{ℕ, List};
    ghost use Rattle.gl_segments.specs.bodies.Ends.{IsEnd};

    ghost Value = { List ℕ };

    ghost view = { λ c. c.ahead.items };

    ghost invariant = { λ c. IsEnd c.ahead.items c.end };
}

impl Clock {
    /// The clock of a segment that no segment of these many threads is before.
    pub fn new(alloc: Global, threads: usize) -> Result<Clock, AllocError>
        ensures { IfOk result (λ c. c ≡ replicate threads 0) }
    {
        Ok(Clock {
            ahead: vec![in alloc; 0; threads]?,
            end: 0,
        })
    }

    /// The clock that has these counts, and zeros for all threads after them.
    pub fn from_front(alloc: Global, front: &[u32], threads: usize) -> Result<Clock, AllocError>
        requires { length front.now ≤ threads }
        ensures width { IfOk result (λ c. length c ≡ threads) }
        ensures counts { IfOk result
            (λ c. (thread : ℕ) → slice_index c thread ≡ slice_index front.now thread) }
    {
        let end = front.len();
        let mut ahead = Vec::with_capacity(alloc, threads)?;
        ahead.extend_from_slice(front)?;
        ahead.resize(threads, 0)?;
        Ok(Clock { ahead, end })
    }

    /// How many threads there are.
    pub fn threads(&self) -> usize
        ensures { result ≡ length self.now }
    {
        self.ahead.len()
    }

    /// How many segments of the thread are before the segment: 0, where the thread isn't known.
    pub fn ahead(&self, thread: ThreadId) -> u32
        ensures { result ≡ slice_index self.now thread }
    {
        match self.ahead.get(thread.number() as usize) {
            Some(count) => *count,
            None => 0,
        }
    }

    /// Changes how many segments of the thread are before the segment.
    pub fn set(&mut self, thread: ThreadId, count: u32)
        requires { thread < length self.old }
        ensures { self.new ≡ slice_set self.old thread count }
    {
        let place = thread.number() as usize;
        self.ahead[place] = count;
        self.end = self.end.max(place + 1);
    }

    /// Raises how many segments of the thread are before the segment, where this is more.
    pub fn raise(&mut self, thread: ThreadId, count: u32)
        requires { thread < length self.old }
        ensures { self.new ≡ slice_set self.old thread (max (slice_index self.old thread) count) }
    {
        if count > self.ahead(thread) {
            self.set(thread, count);
        }
    }

    /// The counts.
    pub fn counts(&self) -> &[u32]
        ensures { result.now ≡ self.now }
    {
        &self.ahead
    }

    /// The same clock once more.
    pub fn copy(&self, alloc: Global) -> Result<Clock, AllocError>
        ensures { IfOk result (λ c. c ≡ self.now) }
    {
        Ok(Clock {
            ahead: Vec::from_slice(alloc, &self.ahead)?,
            end: self.end,
        })
    }

    /// The counts, without zeros after them.
    pub fn front(&self, alloc: Global) -> Result<Vec<u32>, AllocError>
        ensures short { IfOk result (λ v. length v.items ≤ length self.now) }
        ensures counts { IfOk result
            (λ v. (thread : ℕ) → slice_index v.items thread ≡ slice_index self.now thread) }
    {
        Vec::from_slice(alloc, &self.ahead[..self.end])
    }
}
