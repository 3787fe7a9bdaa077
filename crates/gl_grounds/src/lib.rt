//! What a search for findings is told of the edges.
//!
//! A finding is all cycles of one signature, the pairs of places in the source where their edges were made. Who looks for signatures, and
//! not for cycles, is told which [class](classes_of) each edge is of, and of those that are alike one, their model; which thread
//! [runs](Runner) a class, where one alone does, and which classes [lead on](Passages) to which; and between which locks chains of models
//! [lead](Spans), and whether a walk [begins](has_walk) where one of them does. [`Grounds`] are all of these. What is looked up
//! so is sound: it never keeps a cycle out. How much it spares isn't said.
#![tactic(auto)]

mod classes;
mod grounds;
mod models;
mod passages;
mod runners;
mod spans;
mod starts;

pub use classes::classes_of;
pub use grounds::Grounds;
pub use passages::Passages;
pub use runners::{Runner, is_run_twice};
pub use spans::{Span, Spans};
pub use starts::has_walk;
