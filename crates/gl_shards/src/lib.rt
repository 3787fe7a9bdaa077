//! Shards of the lock-order graph: which one keeps an edge, and the table of edges that each keeps.
//!
//! An edge belongs to the shard of its held lock ([`shard_of`]). A worker puts the edges of its
//! shard into a [`Table`] in whatever order they come; the table has each of them once, with its
//! least sample. [`merge`] makes one list of all tables. As the least of samples needs no order,
//! neither how many shards there are nor when an edge comes shows in that list.
//!
//! ```text
//! let mut table = Table::new(alloc);
//! table.insert(edge, late)?;
//! table.insert(same_edge, early)?;      // the table still has one edge, now with the early sample
//! let edges = merge(alloc, vec![in alloc; table]?)?;
//! ```
//!
//! Edges reach the worker of a shard through a [`feed`]. The collector's end is an [`Outlet`] and the
//! worker's an [`Inlet`]; each may move to a thread of its own.
//!
//! ```text
//! let (mut outlet, inlet) = feed(alloc, 256)?;
//! outlet.send(&rt, edge, sample)?;                          // waits as long as the feed is full
//! let sent = outlet.end(&rt)?;                              // stands for all edges that were sent
//! let served = serve(&rt, alloc, inlet, shard, &Open);      // in the worker's thread
//! let table = served.settle(sent)?;                         // exactly the edges that were sent
//! ```
//!
//! While both ends run, neither knows what the other one has done. A feed keeps the rule that what
//! was sent is what was received and then what is on the way, and that nothing follows an end mark.
//! So once the worker has the end mark, [`Served::settle`] knows that every edge came, with no look
//! at the edges. That a waiting call returns, and that an end which is dropped is seen by the other
//! one, is tested and not proved.
//!
//! The definitions stand in `specs/`, and the functions without a body say what holds of them.
//!
//! docs/GLOSSARY.md has its words beside those of the field.
#![tactic(auto)]

mod ends;
mod laws;
mod merging;
mod rule;
mod shard;
mod waiting;
mod worker;

pub use ends::{Gone, Inlet, Outlet, Sent, feed};
pub use gl_edges::Table;
pub use laws::{
    shards_make_the_whole, tables_have_least_samples, tables_need_no_order, unions_need_no_order,
};
pub use merging::merge;
pub use shard::{MAX_SHARDS, limits_in_numbers, shard_of};
pub use waiting::{pause, pause_without_yielding};
pub use worker::{Gate, Open, ServeFault, Served, serve};
