//! Worked examples of gl_std, gl_writing and gl_renumbering, by their public calls.
//!
//! They stand in a crate of their own, since a crate is proved once more with its tests. [`pieces`] gives
//! them texts that come in pieces and may fail.
#![tactic(auto)]

#[cfg(test)]
pub mod pieces;
#[cfg(test)]
mod tests;
