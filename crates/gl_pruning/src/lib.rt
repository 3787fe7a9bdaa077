//! Pruning: which edges a search for cycles may leave out.
//!
//! An edge may be left out where it is in no cycle. Some edges lie on no loop of the lock-order graph,
//! which is seen by ranks of locks that fall along no edge: round a loop they stay the same. Others lie on no loop
//! of their own epoch, where forks and joins cut a run into epochs: no cycle goes through two of these. Others are
//! alone among edges of their own thread: no edge of another thread holds the lock that such an edge wants,
//! or none wants the one that it holds. Others are stuck: none of the edges that are kept may follow such an
//! edge in a cycle, or none may lead it. Others have no way back: from the lock that such an edge wants no
//! walk of edges that go with it leads to the lock that it holds; of many edges this is seen at once, where an owner, their thread or
//! a lock that is held around them, alone joins parts of the graph. And where edges are alike, no round of
//! kinds may go on from theirs. Where some were left out, ranks are made anew for those that stay. And no cycle leaves its component of
//! the graph, so all of this is asked in each of the greatest components as if there were no others. How ranks,
//! epochs, ways, kinds and components are found is not proved; what is found is checked.
//!
//! [`edges_sought`] leaves out all that is seen to be in no cycle. A search for which that is too dear at
//! first takes a [`Sought`] and leaves out edges [on its way](leave_out_in_turn), with as much
//! effort as it likes. In which order edges are left out, and why, is said here for both, for one thread
//! and for many.
//!
//! docs/GLOSSARY.md has its words beside those of the field.
#![tactic(auto)]

mod candidates;
mod covering;
mod limits;
mod parallel;
mod reasons;
mod shares;

pub use candidates::{edges_sought, edges_sought_parallel};
pub use gl_exclusions::shortened;
pub use gl_kinds::are_of_one_kind;
pub use gl_loops::edges_on_loops;
pub use gl_sought::Sought;
pub use limits::limits_by_edge;
pub use parallel::leave_out_in_turn_parallel;
pub use reasons::{ALL_EFFORT, kept_at_first, leave_out_in_turn};
pub use shares::leave_out_around;
