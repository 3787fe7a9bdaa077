//! Walks through classes of edges.
//!
//! A finding is a ring of classes of edges. Whether there is a cycle for it shows by a walk: an edge of the
//! first class, then one of the second that goes on from it, and so on round. A [`Walker`] finds the
//! first such walk for a pattern of classes, or sees that there is none.
//!
//! docs/GLOSSARY.md has its words beside those of the field.
#![tactic(auto)]

mod chains;
mod ground;
mod keys;
mod purpose;
mod search;
mod walker;

pub use ground::Ground;
pub use purpose::Purpose;
pub use walker::Walker;
