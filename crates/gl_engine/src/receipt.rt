//! What a recorder leaves behind.
ghost use Rattle.std.specs.Prelude.{◌≡◌, true, length};
ghost use Rattle.gl_intake.specs.Stream.{has_ended};
ghost use Rattle.gl_engine.specs.Recording.{recorded_whole};

use gl_event::{Limits, ThreadId};
use gl_lane::OwnFinished;
use std::marker::Model;

/// What a recorder leaves behind that has closed. It may move to the collector's thread.
///
/// Contracts see the session, thread and limits, which lane it is of, and all notes that were pushed
/// into it.
pub struct Receipt {
    pub(crate) session: u64,
    pub(crate) thread: ThreadId,
    pub(crate) limits: Limits,
    pub(crate) taken: u32,
    pub(crate) finished: OwnFinished,
}

// Written out, so that it is proved once: a derived drop is proved again wherever one is let go.
impl Drop for Receipt {
    fn drop(self) {
        let Receipt {
            session: _,
            thread,
            limits,
            taken: _,
            finished,
        } = self;
    }
}

impl Model for Receipt {
    ghost use Rattle.gl_engine.specs.Recording.{Closed};
    ghost use Rattle.gl_engine.specs.Keeping.{IsReceipt};

    ghost Value = { Closed };

    ghost view = { λ r. record {
      session = r.session;
      thread = r.thread;
      limits = r.limits;
      lane = r.finished.lane;
      pushed = r.finished.pushed;
    } };

    ghost invariant = { λ r. IsReceipt r.limits r.thread r.finished.pushed r.taken };
}

impl Receipt {
    /// The number of the session.
    pub fn session(&self) -> u64
        ensures { result ≡ self.now.session }
    {
        self.session
    }

    /// The thread that recorded.
    pub fn thread(&self) -> ThreadId
        ensures { result ≡ self.now.thread }
    {
        self.thread
    }

    /// How many events the thread recorded.
    pub fn taken(&self) -> u32
        ensures value { result ≡ length (recorded_whole self.now) }
        ensures ended { has_ended self.now.thread self.now.pushed ≡ true }
    {
        self.taken
    }
}
