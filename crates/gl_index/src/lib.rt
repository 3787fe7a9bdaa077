//! Indexes of edges by their locks.
//!
//! Edges that may stand next to each other in a cycle share a lock: the one wants it, and the other
//! holds it. An index leads from a lock through the positions of such edges, ascending, and looks at no
//! other edge. [`Chain`] leads through the edges that have a lock on one [`Side`]. [`Followers`] leads
//! from an edge through those that may follow it, and [`Closers`] through those that lead from one lock
//! to another. All of them pass over edges that are left out. [`Users`] tells which threads have the edges
//! with a lock: one, or several. [`ByLock`] finds values by lock.
//!
//! What an index says is said of every list of edges that it is the index of: the next position with a
//! key, with no edge between that has this key and is kept.
//!
//! docs/GLOSSARY.md has its words beside those of the field.
#![tactic(auto)]

mod by_lock;
mod chains;
mod closers;
mod followers;
mod sides;
mod users;

pub use by_lock::ByLock;
pub use chains::Chain;
pub use closers::Closers;
pub use followers::Followers;
pub use sides::Side;
pub use users::Users;
