//! Worked runs of gl_commands, by its public calls.
//!
//! They stand in a crate of their own, since a crate is proved once more with its tests. What they share is a text that can't be
//! read to its end, [`Cut`](cut::Cut).
#![tactic(auto)]

#[cfg(test)]
pub mod cut;
#[cfg(test)]
mod tests;
