//! Edges that are soon seen to be in no cycle.
//!
//! Some edges lie on no loop of the lock-order graph, which is seen by ranks of locks that fall along no edge: round a
//! loop they stay the same. Others lie on no loop of their own epoch, where forks and joins cut a run into epochs: no cycle
//! goes through two of these. Others are alone among edges of their own thread: no edge of another thread holds the lock that such
//! an edge wants, or none wants the one that it holds. How ranks and epochs are found is not proved; what is found is checked.
#![tactic(auto)]

mod alone;
mod cuts;
mod epochs;
mod loops;
mod ranks;

pub use alone::leave_out_alone;
pub use loops::{edges_on_loops, leave_out_by_epochs, leave_out_off_loops};
