//! The core: recorders, lanes, a collector and shards as one machine, and its report.
//!
//! No running path goes through it: it is what running calls are proved against. gl_engine does on running
//! threads what the machine does step by step, and says it in the machine's words.
//!
//! A [`World`] has a recorder with a lane for each thread, one collector, and shards, each with a
//! queue of edges, a worker and a table of edges. Its steps may come in any order, as a scheduler of threads
//! might choose. Whatever the order, what is collected of a thread is how the list of events that
//! the thread took begins; and once the world is drained, its report is the Goodlock report of what
//! the threads took: timing doesn't show, nor the number of shards.
//!
//! ```text
//! let mut world = World::new(alloc, &limits, 2, wishes)?;
//! world.step(Step::Take(thread))?;      // the thread's recorder pushes its next event
//! world.step(Step::Pull(thread))?;      // the collector pulls it, and makes its edges
//! world.step(Step::Ship)?;              // the oldest edge goes to its shard
//! world.step(Step::Work(0))?;           // shard 0 puts its next edge into its table
//! if world.drained() {
//!     let report = world.report(&query)?;
//! }
//! ```
//!
//! What gl_shards calls a feed is the queue of edges alone, with its two ends. The machine keeps the queue, the
//! worker and the table of a shard in one.
//!
//! The steps are defined in `specs/Machine.antt` and `specs/Dispatch.antt`, and what a drained
//! machine reports in `specs/Headline.antt`. [`every_schedule_keeps_order`] and
//! [`every_drained_schedule_reports_what_was_taken`] say it for all lists of steps. For states that
//! come about in another way, [`every_step_keeps_a_state_sound`] and
//! [`sound_drained_states_report_what_was_taken`] say what has to be shown of them.
//!
//! docs/GLOSSARY.md has its words beside those of the field.
#![tactic(auto)]

mod dispatcher;
mod laws;
mod shard_part;
mod steps;
mod thread_part;
mod world;

pub use gl_shards::MAX_SHARDS;
pub use laws::{
    every_drained_schedule_reports_what_was_taken, every_schedule_keeps_order,
    every_step_keeps_a_state_sound, sound_drained_states_report_what_was_taken,
    steps_do_something_where_enabled,
};
pub use steps::{Did, Step};
pub use world::World;
