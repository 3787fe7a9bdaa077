//! Why nothing is settled.
use crate::collector::Collector;
use crate::gathered::Gathered;
use gl_event::ThreadId;
use gl_intake::Refused;

/// Why nothing is settled.
#[derive(Drop)]
pub enum SettleFault {
    /// The receipt at this place is of another session, of an unknown thread, or the second one of its
    /// thread. It is the first such one.
    Strange {
        at: usize,
        gathered: Gathered,
    },
    /// There is no receipt of this thread. It is the first such one.
    Missing {
        thread: ThreadId,
        gathered: Gathered,
    },
    /// The run had no memory.
    Memory,
    /// The worker's end of this shard's feed was dropped.
    Gone {
        shard: u32,
    },
    /// A note of the thread's lane may not come next, for this reason. It isn't answered where each
    /// receipt is that of its lane's recorder, as [`Gathered::settle`] asks: no such lane breaks.
    Broken {
        thread: ThreadId,
        refused: Refused,
    },
}

/// Why a collector isn't settled. It is handed back as it was.
#[derive(Drop)]
pub enum UnsettledFault {
    /// The receipt at this place is of another session, of an unknown thread, or the second one of its
    /// thread. It is the first such one.
    Strange {
        at: usize,
        collector: Collector,
    },
    /// There is no receipt of this thread. It is the first such one.
    Missing {
        thread: ThreadId,
        collector: Collector,
    },
    /// The end mark of this thread wasn't pulled yet. It is the first such one.
    Unended {
        thread: ThreadId,
        collector: Collector,
    },
}
