//! The collector of a session.
ghost use Rattle.std.specs.Prelude.{◌≡◌, ◌<◌, ℕ, Some, slice_get, IfOk, IfErr, OnErr};
ghost use Rattle.gl_event.specs.Bounds.{greatest};
ghost use Rattle.gl_event.specs.Lawful.{AreLawful, lists_of};
ghost use Rattle.gl_cycles.specs.Reports.{IsGoodlockReport, IsReportFault};
ghost use Rattle.gl_intake.specs.Stream.{events_of, logs_of, AreInOrder};
ghost use Rattle.gl_engine.specs.Collecting.{Pulling, lanes_of, IsPull};

use crate::lane_input::LaneInput;
use crate::pulled::{PullFault, Pulled};
use gl_cycles::{Report, ReportFault, report_of_lists};
use gl_event::{Event, Limits, Note, ThreadId};
use gl_filters::Query;
use gl_intake::Intake;
use std::alloc::Global;
use std::marker::Model;

/// The collector of a session: it pulls the notes off the threads' lanes.
///
/// Contracts see the session and the limits, each thread's lane with the notes popped off it and
/// whether it is broken, all collected notes, and the edges that they made. The edges are kept nowhere: a
/// run and a report find them in the notes.
#[derive(Drop)]
pub struct Collector {
    pub(crate) alloc: Global,
    pub(crate) session: u64,
    pub(crate) limits: Limits,
    pub(crate) intake: Intake,
    pub(crate) inputs: Vec<LaneInput>,
}

impl Model for Collector {
    ghost use Rattle.std.specs.Prelude.{map};
    ghost use Rattle.gl_engine.specs.Collecting.{Collecting};
    ghost use Rattle.gl_engine.specs.Dealing.{made_by};
    ghost use Rattle.gl_engine.specs.Keeping.{pulling_of, IsCollector};

    ghost Value = { Collecting };

    ghost view = { λ c. record {
      session = c.session;
      limits = c.limits;
      inputs = map pulling_of c.inputs.items;
      stream = c.intake.stream;
      made = made_by c.intake.stream;
    } };

    ghost invariant = { λ c. IsCollector c.limits c.inputs.items c.intake.stream
        (made_by c.intake.stream) c.intake.limits };
}

impl Collector {
    /// Pulls the next note off the thread's lane, read as one of the thread. Err where the note may not
    /// come next in the thread's list, which breaks the lane for good, and where memory was refused: the
    /// note stays in the lane then.
    ///
    /// It waits for nobody. It makes every growth before it pops the note: for the stream and the thread's
    /// log. It looks through the at most 64 locks that the thread holds.
    pub fn pull(&mut self, thread: ThreadId) -> Result<Pulled, PullFault>
        requires known { thread < self.old.limits.threads }
        ensures tells { (input : Pulling) → slice_get self.old.inputs thread ≡ Some input
            → IsPull self.old thread input result self.new }
        ensures session { self.new.session ≡ self.old.session }
        ensures limits { self.new.limits ≡ self.old.limits }
        ensures lanes { lanes_of self.new ≡ lanes_of self.old }
    {
        let input = &mut self.inputs[thread.number() as usize];
        input.pull(thread, &mut self.intake)
    }

    /// The events of the thread that were collected so far.
    pub fn log(&self, thread: ThreadId) -> &[Event]
        requires { thread < self.now.limits.threads }
        ensures { result.now ≡ events_of thread self.now.stream }
    {
        self.intake.log(thread)
    }

    /// The events of each thread that were collected so far, in the order of thread numbers. They are at most 1,024
    /// lists, and each is lawful under the greatest limits.
    pub fn lists(&self) -> &[Vec<Event>]
        ensures value { lists_of result.now ≡ logs_of self.now.limits.threads self.now.stream }
        ensures lawful { AreLawful greatest (lists_of result.now) }
    {
        self.intake.logs()
    }

    /// All notes collected so far, in the order in which they were pulled. Each was its thread's next
    /// one after those before it.
    pub fn stream(&self) -> &[Note]
        ensures value { result.now ≡ self.now.stream }
        ensures in_order { AreInOrder self.now.limits self.now.stream }
    {
        self.intake.stream()
    }

    /// The Goodlock report of the events collected so far. It may list a cycle that a later report drops:
    /// a fork or a join that isn't collected yet may order its edges.
    ///
    /// Err where a segment of the lists is before itself, and where memory was refused.
    pub fn report_so_far(&self, query: &Query) -> Result<Report, ReportFault>
        ensures report { IfOk result
            (λ report. IsGoodlockReport query.now
            (logs_of self.now.limits.threads self.now.stream) report) }
        ensures fault { IfErr result
            (λ fault. IsReportFault (logs_of self.now.limits.threads self.now.stream) fault) }
    {
        report_of_lists(self.alloc, self.lists(), query)
    }
}
