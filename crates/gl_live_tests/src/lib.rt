//! Worked sessions of gl_live, by its public calls: over given lists, and over texts.
//!
//! They stand in a crate of their own, since a crate is proved once more with its tests, and beside those of commands, so that
//! they are proved while gl_commands is.
#![tactic(auto)]

#[cfg(test)]
mod tests;
#[cfg(test)]
pub mod unread;
