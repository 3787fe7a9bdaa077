//! Edges that are alike, and rounds of them.
//!
//! Where edges are alike, what is known of one of them, their model, is known of all: where no round of models goes on from it,
//! none of those that are alike to it is in a cycle. How much tells edges apart is [a grain](Grain).
#![tactic(auto)]

mod alike;
mod dead_ends;
mod grains;
mod kinds;
mod models;
mod prints;
mod rests;
mod rounds;

pub use alike::are_of_one_kind;
pub use grains::Grain;
pub use kinds::leave_out_alike;
