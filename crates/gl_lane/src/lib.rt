//! Lanes: how a thread's notes get from its recorder to the collector.
//!
//! A lane is a ring for one thread that pushes and one that pops, with its memory taken when it is
//! made. [`LaneIn`] is the recorder's end and [`LaneOut`] the collector's. Each may move to a thread
//! of its own, and no call waits for the other end: a push into a full lane hands the note back, and
//! a pop from an empty one answers `None`.
//!
//! ```text
//! let (mut recorder, mut collector) = lane(alloc, 256)?;
//! recorder.push(note)?;
//! let mut finished = recorder.finish()?;      // the recorder pushes no more
//! collector.confirm(&mut finished);           // what was pushed is what was popped and what is left
//! while let Some(note) = collector.pop() { .. }
//! ```
//!
//! While both ends run, neither knows what the other one has done: contracts say of each end what it
//! did itself, and of each popped note that it obeys the lane's rule, that an end mark's place is its
//! count. Once the recorder has finished, a [`Finished`] stands for all that it pushed, and
//! [`LaneOut::confirm`] compares: nothing was lost, repeated, put in or moved.
//!
//! A thread's [own lane](own_lane) is for the notes of that thread alone, each of which is the next one: so it needs 16 bytes for
//! a note, where a lane needs 24, and of each popped note contracts say which thread's it is and how many came before. Sessions
//! record by these.
//!
//! That an end sees the room or the notes that the other end made is tested and not proved.
//!
//! docs/GLOSSARY.md has its words beside those of the field.
#![tactic(auto)]

mod ends;
mod own_ends;

pub use ends::{Finished, LaneIn, LaneOut, lane};
pub use own_ends::{OwnFinished, OwnLaneIn, OwnLaneOut, own_lane};
