//! Worked sessions of gl_engine, and worked examples of gl_world, by their public calls.
//!
//! They stand in a crate of their own, since a crate is proved once more with its tests; what they share is
//! there for the tests alone, and so is proved once. It is collectors that are asked for notes, [`asking`],
//! sessions that have run and are to be settled, [`sessions`], those that are settled without a run,
//! [`alone`], and worlds whose numbers of threads and shards are known, [`watched`]. What is to be kept of
//! these is an invariant of theirs, so that the tests have nothing to prove.
#![tactic(auto)]

#[cfg(test)]
pub mod alone;
#[cfg(test)]
pub mod asking;
#[cfg(test)]
pub mod closing;
#[cfg(test)]
pub mod feeds;
#[cfg(test)]
pub mod sessions;
#[cfg(test)]
mod tests;
#[cfg(test)]
pub mod watched;
