//! Lists of events for worked examples, as constants tell them, [`ops`], and notes, [`notes`]; whether lists are
//! lawful, [`lawful`]; what is known of them, [`known`]; rings of segments, [`rings`], and cycles of edges,
//! [`cycles`]; texts that are put together, [`texts`]; and a gate at which two workers meet, [`meeting`].
//!
//! Tests stand in crates of their own, since a crate is proved once more with its tests. What several of
//! these share is here. Little is told of it, so that a test's calls stand among few facts, and the prover
//! takes them quickly.
#![tactic(auto)]

pub mod cycles;
pub mod known;
pub mod lawful;
pub mod meeting;
pub mod notes;
pub mod ops;
pub mod rings;
pub mod texts;
