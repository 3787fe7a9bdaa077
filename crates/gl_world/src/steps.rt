//! The steps of a world, and what each answers.
use gl_event::{Refusal, ThreadId};
use gl_intake::{Accepted, Refused};

/// One step of a recorder, of the collector, or of a shard's worker.
#[derive(Clone, Copy, Debug, PartialEq, Eq)]
pub enum Step {
    /// The thread takes its next wish: its recorder pushes the event's note into the thread's lane.
    Take(ThreadId),
    /// The thread ends: its recorder pushes the end mark into the thread's lane.
    End(ThreadId),
    /// The collector pulls the next note off the thread's lane, and makes the edges of its event.
    Pull(ThreadId),
    /// A note of the thread that isn't next in its lane is offered to the collector. Notes count
    /// from 0.
    Again(ThreadId, u32),
    /// The collector ships the oldest edge that it hasn't shipped to the shard of that edge.
    Ship,
    /// The worker of the shard puts the next edge that was shipped to it into its table. Shards count
    /// from 0.
    Work(u32),
}

/// What a step did.
#[derive(Clone, Copy, Debug, PartialEq, Eq)]
pub enum Did {
    /// The step wasn't enabled, and nothing changed.
    Nothing,
    /// The event was taken, and its note has this place.
    Taken(u32),
    /// The event may not come next, and was passed over.
    Passed(Refusal),
    /// The end mark was pushed.
    Ended,
    /// The note was pulled and accepted.
    Pulled(Accepted),
    /// The note was refused.
    Refused(Refused),
    /// The edge was shipped to the shard of this number.
    Shipped(u32),
    /// The edge was put into the shard's table.
    Worked,
}
