//! What a collector leaves behind that has run, and what went wrong in the run.
ghost use Rattle.std.specs.Prelude.{◌≡◌, Some, IfOk, IfErr};
ghost use Rattle.gl_engine.specs.Gathering.{AreOurs};
ghost use Rattle.gl_engine.specs.Receipts.{AreComplete};
ghost use Rattle.gl_engine.specs.Settling.{fault_for, IsMemoryOrGone, IsSettledFrom};

use crate::lane_input::LaneInput;
use crate::receipt::Receipt;
use crate::receipts::confirm_all;
use crate::settled::Settled;
use gl_event::{Limits, ThreadId};
use gl_intake::{Intake, Refused};
use gl_shards::Sent;
use std::alloc::Global;
use std::marker::Model;

/// What went wrong first in a run: nothing was collected or shipped after it.
///
/// [`Collector::run`](crate::Collector::run) says of each what was collected and shipped until then. Memory
/// may be refused at any time.
#[derive(Clone, Copy, Debug, PartialEq, Eq)]
pub enum RunFault {
    /// There was no memory: for the list of feeds or for the edges of the pulls before, and the run did not
    /// begin; or for a note or its edges, in a thread's turn. The edges of all notes before the turn were
    /// shipped then, and none of the notes that the turn had pulled.
    Memory,
    /// The worker's end of this shard's feed was dropped: the next edge made is this shard's and could not
    /// be sent, or all were, and its feed is the first that could not be ended.
    Gone { shard: u32 },
    /// A note of the thread's lane may not come next after those that were collected, for this reason. The
    /// edges of all notes before the thread's turn were shipped, and none of the notes that the turn had
    /// pulled before this one.
    Broken { thread: ThreadId, refused: Refused },
}

/// A collector that has run: every thread's end mark came, and every feed was ended.
///
/// Contracts see the session and the limits, which lane each thread has, the notes collected, the feeds
/// whose edges were all sent, and what went wrong in the run, if something did.
pub struct Gathered {
    pub(crate) alloc: Global,
    pub(crate) session: u64,
    pub(crate) limits: Limits,
    pub(crate) intake: Intake,
    pub(crate) inputs: Vec<LaneInput>,
    pub(crate) sent: Vec<Sent>,
    pub(crate) fault: Option<RunFault>,
}

// Written out, so that it is proved once: a derived drop is proved again wherever one is let go.
impl Drop for Gathered {
    fn drop(self) {
        let Gathered {
            alloc,
            session: _,
            limits,
            intake,
            inputs,
            sent,
            fault,
        } = self;
    }
}

impl Model for Gathered {
    ghost use Rattle.std.specs.Prelude.{map};
    ghost use Rattle.gl_engine.specs.Gathering.{Gathering};
    ghost use Rattle.gl_engine.specs.bodies.Whole.{lane_of, IsGathered};

    ghost Value = { Gathering };

    ghost view = { λ g. record {
      session = g.session;
      limits = g.limits;
      lanes = map lane_of g.inputs.items;
      stream = g.intake.stream;
      sent = g.sent.items;
      fault = g.fault;
    } };

    ghost invariant = { λ g. IsGathered g.limits g.inputs.items g.intake.stream g.intake.limits
        g.sent.items g.fault };
}

impl Gathered {
    /// Settles what was gathered, where there is one receipt of each thread and no other. Err with what
    /// went wrong in the run.
    pub(crate) fn settle_all(
        self,
        receipts: &mut [Receipt],
    ) -> Result<(Settled, Vec<Sent>), RunFault>
        requires ours { AreOurs self receipts.old }
        requires complete { AreComplete self.session self.limits.threads receipts.old }
        ensures receipts { receipts.new ≡ receipts.old }
        ensures settled { IfOk result
            (λ settled. IsSettledFrom self receipts.old settled.0 settled.1.items) }
        ensures fault { IfErr result (λ fault. self.fault ≡ Some fault) }
        ensures complete { IfErr result (λ fault. IsMemoryOrGone (fault_for fault)) }
    {
        let Gathered {
            alloc,
            session: _,
            limits: _,
            intake,
            mut inputs,
            sent,
            fault,
        } = self;
        confirm_all(&mut inputs, receipts);
        match fault {
            None => Ok((Settled { alloc, intake }, sent)),
            Some(fault) => Err(fault),
        }
    }
}
