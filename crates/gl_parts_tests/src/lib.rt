//! What no clause of gl_io, gl_lane, gl_edges and gl_shards tells, by their public calls, and worked examples of edges.
//!
//! They stand in a crate of their own, since a crate is proved once more with its tests; this one is proved long before the
//! last crates are. What stands outside of the tests is a thread that is followed event by event, [`stepping`].
#![tactic(auto)]

#[cfg(test)]
pub mod stepping;
#[cfg(test)]
mod tests;
