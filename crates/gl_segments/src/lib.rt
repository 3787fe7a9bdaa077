//! The order that forks and joins put on the segments of threads.
//!
//! Where a thread M forks T0, joins it and then forks T1, all that T0 does comes before all that T1
//! does: T0's segment 0 is before T1's. [`Order`] answers such questions for the whole lists of
//! events of all threads. It answers by clocks: how many segments of each thread are before a segment.
//! Along a thread these numbers only grow, and only at forks and joins that bring something new. So
//! it keeps where they grow, and an answer is a search by halving. The clock of a segment is made
//! from those of the segments one step before it, in an order in which these are made.
//!
//! Forks and joins that can't have happened, as where two threads join each other, put a segment
//! before itself, and then there is no such order. Such lists have no order either:
//! [`OrderFault::Inconsistent`] names the least such segment, and a ring of steps that leads from it
//! back to it, which a search backwards from each thread's segments finds.
//!
//! docs/GLOSSARY.md has its words beside those of the field.
#![tactic(auto)]

mod clock;
mod faults;
mod forked;
mod growths;
mod halts;
mod history;
mod laws;
mod order;
mod packed;
mod rows;
mod search;
mod steps;
mod sweep;

pub use faults::OrderFault;
pub use laws::{
    before_is_between_segments, before_is_transitive, earlier_is_before, fronts_are_consistent,
    tests_agree,
};
pub use order::Order;
