//! The gate at which recorder threads wait until all threads of a run are started.
ghost use Rattle.std.specs.Prelude.{◌≡◌, length};

use std::sync::Wait;
use std::sync::atomic::{AtomicU64, Ordering};
use std::thread;

const WAITING: u64 = 0;

const STARTED: u64 = 1;

const CALLED_OFF: u64 = 2;

/// How many threads of each kind a run wants.
#[derive(Clone, Copy, Debug)]
pub struct ThreadCounts {
    pub workers: usize,
    pub recorders: usize,
}

/// Whether a run has begun, or was called off. Threads that share it wait for either.
#[derive(Drop)]
pub struct StartGate {
    state: AtomicU64,
}

impl StartGate {
    /// Neither was decided.
    pub fn new() -> StartGate {
        StartGate {
            state: AtomicU64::new(WAITING),
        }
    }

    /// The run begins: of these handles of the threads that were started there are as many as it wants.
    pub fn begin<W, R>(&self, workers: &[W], recorders: &[R], wanted: ThreadCounts)
        requires workers { length workers.now ≡ wanted.workers }
        requires recorders { length recorders.now ≡ wanted.recorders }
    {
        self.state.store(STARTED, Ordering::SeqCst);
    }

    /// The run is called off.
    pub fn call_off(&self) {
        self.state.store(CALLED_OFF, Ordering::SeqCst);
    }

    /// Waits until the run begins or is called off. Whether it begins.
    pub fn wait<R: Wait>(&self, rt: &R) -> bool {
        for _ in rt.forever() {
            match self.state.load(Ordering::SeqCst) {
                WAITING => thread::yield_now(),
                state => return state == STARTED,
            }
        }
        unreachable!()
    }
}
