//! A gate that the workers of two shards pass at one moment.
use gl_shards::Gate;
use std::sync::atomic::{AtomicU64, Ordering};
use std::thread;

// How often one looks for another, at most.
const LOOKS: u32 = 10_000_000;

/// A gate at which the workers of two shards meet: each sets its own flag and looks for the other's.
#[derive(Drop)]
pub struct Meeting {
    first: AtomicU64,
    second: AtomicU64,
    taken: AtomicU64,
    alone: AtomicU64,
}

impl Meeting {
    /// A gate that nobody has passed.
    pub fn new() -> Meeting {
        Meeting {
            first: AtomicU64::new(0),
            second: AtomicU64::new(0),
            taken: AtomicU64::new(0),
            alone: AtomicU64::new(0),
        }
    }

    /// How often each worker passed, how many edges they had received before, and how often one met no other.
    pub fn passes(&self) -> (u64, u64, u64, u64) {
        (
            self.first.load(Ordering::SeqCst),
            self.second.load(Ordering::SeqCst),
            self.taken.load(Ordering::SeqCst),
            self.alone.load(Ordering::SeqCst),
        )
    }

    /// Whether both workers have passed. Waits for that, but not for ever.
    pub fn is_passed(&self) -> bool {
        for _ in 0..LOOKS {
            if self.first.load(Ordering::SeqCst) > 0 && self.second.load(Ordering::SeqCst) > 0 {
                return true;
            }
            thread::yield_now();
        }
        false
    }
}

impl Gate for Meeting {
    fn pass(&self, shard: u32, taken: u64) {
        let (own, other) = match shard {
            0 => (&self.first, &self.second),
            _ => (&self.second, &self.first),
        };
        self.taken.fetch_add(taken, Ordering::SeqCst);
        own.fetch_add(1, Ordering::SeqCst);
        for _ in 0..LOOKS {
            if other.load(Ordering::SeqCst) > 0 {
                return;
            }
            thread::yield_now();
        }
        self.alone.fetch_add(1, Ordering::SeqCst);
    }
}
