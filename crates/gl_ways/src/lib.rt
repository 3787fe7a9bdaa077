//! Edges without a way back: from the lock that such an edge wants no walk of edges that go with it leads to the lock that it holds.
//!
//! That is seen [edge by edge](leave_out_without_way), or of many edges [at once](leave_out_through), where an owner, their thread or
//! a lock that is held around them, alone joins parts of the lock-order graph. How ways are sought is not proved; the labels of locks
//! that show that there is none are checked.
#![tactic(auto)]

mod far;
mod links;
mod no_way;
mod owners;
mod through;
mod ways;

pub use no_way::leave_out_without_way;
pub use through::leave_out_through;
