//! What a search for cycles is asked, and what is said of edges that it may leave out.
//!
//! An edge may be left out where it is in no cycle that is [sought](Sought). Crates above tell by what this is
//! seen; each of them goes on from flags of edges that are kept, and leaves out more. What they share stands here: numbers of
//! locks, the components of the lock-order graph, and parts of a table for several threads.
#![tactic(auto)]

mod components;
mod flags;
mod labels;
mod numbers;
mod parts;
mod sought;
mod under;

pub use components::{Step, components_of};
pub use flags::count_set;
pub use labels::{label, labels_of, none_goes_back};
pub use numbers::{Ends, Numbers};
pub use parts::Part;
pub use sought::Sought;
pub use under::is_under;
