//! Sessions: recorders in running threads, and the collector of what they record.
//!
//! [`open`] makes a recorder for each thread, to be moved to it, and one collector:
//!
//! ```text
//! let (recorders, mut collector) = open(alloc, 7, &Limits::new(2, 256, 1_000_000, 1_000)?)?;
//!
//! // in each thread, with its recorder
//! recorder.record(Event::Acquire { lock, mode, loc })?;      // its place; Full where the lane has no room
//! recorder.record_wait(&rt, Event::Release { lock, mode, loc })?;
//! let receipt = recorder.close()?;                            // the thread records no more
//!
//! // where they are collected
//! match collector.pull(thread)? {
//!     Pulled::Event { place } => ..                           // it stands in the thread's log now
//!     Pulled::Ended { count } => ..                           // the thread has closed
//!     Pulled::Empty => ..                                     // nothing is seen in its lane
//! }
//! let report = collector.report_so_far(&query)?;              // of all that was pulled
//!
//! // once every thread has closed and its end mark was pulled
//! let settled = collector.settle(&mut receipts)?;             // no event is missing
//! let report = settled.report_alone(&query)?;                 // of all that was recorded
//! ```
//!
//! With shards, workers and a collector that runs in a thread of its own, [`Collector::run`] or
//! [`Collector::run_without_repeats`], [`Gathered::settle`] and [`Settled::report`] do the same.
//!
//! [`Recorder::record`], [`Recorder::close`] and [`Collector::pull`] never wait for another thread: a
//! full lane hands the event or the recorder back, and an empty one answers [`Pulled::Empty`]. Only
//! [`Recorder::record_wait`] waits, for room. Recording takes no memory; a pull makes every growth
//! before it pops, so that no event is lost where memory is refused.
//!
//! What each call does is a step of the machine that gl_world defines, and is said in its words
//! ([`running_calls_are_steps`]): a recorder takes and ends, the collector pulls. That `Full` comes only
//! from a full lane and `Empty` only from an empty one, and that a recorder which closes while its
//! collector is there gets a receipt, is tested and not proved.
//!
//! docs/GLOSSARY.md has its words beside those of the field.
#![tactic(auto)]

mod collector;
mod collector_run;
mod discarding;
mod faults;
mod gathered;
mod lane_input;
mod laws;
mod made_before;
mod making;
pub mod preallocated;
mod pull_and_ship;
mod pulled;
mod receipt;
mod receipts;
mod recorder;
mod session;
mod settled;
mod settlement;

pub use collector::Collector;
pub use faults::{SettleFault, UnsettledFault};
pub use gathered::{Gathered, RunFault};
pub use laws::{running_calls_are_steps, unpulled_is_unchanged};
pub use pulled::{PullFault, Pulled};
pub use receipt::Receipt;
pub use receipts::has_receipt;
pub use recorder::{CloseFault, RecordFault, Recorder};
pub use session::open;
pub use settled::Settled;
