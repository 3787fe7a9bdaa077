//! The lock-order graph: which lock a thread wanted while it held another one.
//!
//! A thread that acquires lock 0 and then lock 1 makes the edge from 0 to 1, with the guards 0 (all
//! locks that it held just before) and a [`Sample`] that says where both acquires stand. A second
//! thread that acquires 1 and then 0 makes the edge from 1 to 0, and the two edges are a cycle: a
//! potential deadlock. An acquire of a lock that the thread holds already makes no edge, nor does
//! one that could not have waited. Edges and guards say in which mode each lock is held or wanted.
//!
//! [`edges_of`] finds the edges of whole lists of events, [`Tracker`] those of one event after the
//! other, and [`next_edges`] those of one event of a thread that somebody else follows, which
//! [`add_next_edges`] puts behind those made before. [`Acquires`] do the same, and pass over acquires that the
//! thread made before. All name an edge by its fields alone; where a thread
//! makes it twice, the first place stays its sample. A [`Table`] is filled edge by edge in whatever order
//! they come, and has each once with its least sample; of several tables a [`Batch`] makes one list. The definitions stand in `specs/Edges.antt`, and
//! the functions without a body say what holds of them in the words of the events.
//!
//! docs/GLOSSARY.md has its words beside those of the field.
#![tactic(auto)]

mod acquires;
mod batch;
mod clashes;
mod edge;
mod gather;
mod guard_sets;
mod guards;
mod laws;
mod list;
mod long_list;
mod marks;
mod numberer;
mod parallel;
mod seen;
mod table;
mod tracker;

pub use acquires::Acquires;
pub use batch::Batch;
pub use edge::{Edge, Sample};
pub use gather::edges_of;
pub use guard_sets::GuardSets;
pub use guards::{Guard, Guards};
pub use laws::{
    edges_are_ordered_by_their_fields, edges_are_those_made, edges_ascend, edges_come_step_by_step,
    held_locks_are_those_of_positive_depth, once_needs_no_order, samples_are_of_the_first_place,
    samples_are_ordered_by_their_fields,
};
pub use list::EdgeList;
pub use parallel::edges_of_parallel;
pub use table::Table;
pub use tracker::{Tracker, add_next_edges, next_edges};
