//! What is known of a session once its receipts were settled.
ghost use Rattle.std.specs.Prelude.{◌≡◌, List, map, IfOk, IfErr};
ghost use Rattle.gl_event.specs.Bounds.{greatest};
ghost use Rattle.gl_event.specs.Lawful.{AreLawful, lists_of};
ghost use Rattle.gl_event.specs.declared.events.Event.{Event};
ghost use Rattle.gl_cycles.specs.Reports.{IsReport, IsGoodlockReport, IsReportFault};
ghost use Rattle.gl_edges.specs.Edges.{edges, once};
ghost use Rattle.gl_shards.specs.Feeds.{AllSent};
ghost use Rattle.gl_shards.specs.Tables.{union};
ghost use Rattle.gl_engine.specs.Recording.{Closed};
ghost use Rattle.gl_engine.specs.Settling.{IsSettled};

use gl_cycles::{Report, ReportFault, report_of_lists, report_over_parallel};
use gl_edges::EdgeList;
use gl_event::{Event, Memory};
use gl_filters::Query;
use gl_intake::Intake;
use gl_shards::{Table, merge};
use std::alloc::Global;
use std::marker::Model;
use std::thread::Threads;

/// The lists of all threads' events, from a session whose receipts were settled.
///
/// Contracts see the lists, in the order of thread numbers.
pub struct Settled {
    pub(crate) alloc: Global,
    pub(crate) intake: Intake,
}

// Written out, so that it is proved once: a derived drop is proved again wherever one is let go.
impl Drop for Settled {
    fn drop(self) {
        let Settled { alloc, intake } = self;
    }
}

impl Model for Settled {
    ghost use Rattle.std.specs.Prelude.{List};
    ghost use Rattle.gl_event.specs.declared.events.Event.{Event};
    ghost use Rattle.gl_intake.specs.Stream.{logs_of};

    ghost Value = { List (List Event) };

    ghost view = { λ s. logs_of s.intake.limits.threads s.intake.stream };
}

impl Settled {
    /// The events of each thread, in the order of thread numbers. They are at most 1,024 lists, and each is
    /// lawful under the greatest limits.
    pub fn lists(&self) -> &[Vec<Event>]
        ensures value { lists_of result.now ≡ self.now }
        ensures lawful { AreLawful greatest (lists_of result.now) }
    {
        self.intake.logs()
    }

    /// The edges of these tables, taken together. Whichever tables they are, each edge counts once, with its
    /// least sample.
    ///
    /// **Where they are the tables of the settled workers they are the edges of what the threads recorded.**
    ///
    /// Err where memory was refused.
    pub fn edges(&self, tables: Vec<Table>) -> Result<EdgeList, Memory>
        ensures union { IfOk result (λ list. list ≡ union tables.items) }
        ensures recorded { (receipts : List Closed) (sent : List AllSent)
            → IsSettled receipts self.now sent → tables.items ≡ map (λ s. once s.sent) sent
            → IfOk result (λ list. list ≡ edges self.now) }
    {
        merge(self.alloc, tables)
    }

    /// The report over the edges of these tables, taken together, by the order of the lists. Whichever
    /// tables they are, each edge counts once, with its least sample.
    ///
    /// **Where they are the tables of the settled workers it is the Goodlock report of what the threads
    /// recorded**, whatever the threads' timing and however many workers there were: the lists are
    /// those of the receipts, and table by table the workers have what was sent to them.
    ///
    /// The cycles are searched for on several threads, which changes nothing of the report. Err where a
    /// segment of the lists is before itself, and where memory was refused.
    pub fn report(
        &self,
        rt: &(impl Threads + Sync),
        tables: Vec<Table>,
        query: &Query,
    ) -> Result<Report, ReportFault>
        ensures report { IfOk result
            (λ report. IsReport query.now (union tables.items) self.now report) }
        ensures fault { IfErr result (λ fault. IsReportFault self.now fault) }
        ensures recorded { (receipts : List Closed) (sent : List AllSent)
            → IsSettled receipts self.now sent → tables.items ≡ map (λ s. once s.sent) sent
            → IfOk result (λ report. IsGoodlockReport query.now self.now report) }
    {
        let edges = self.edges(tables)?;
        report_over_parallel(rt, self.alloc, edges, self.intake.logs(), query)
    }

    /// The same report on the calling thread, which finds the edges in the lists: the Goodlock report of
    /// what the threads recorded.
    ///
    /// Err where a segment of the lists is before itself, and where memory was refused.
    pub fn report_alone(&self, query: &Query) -> Result<Report, ReportFault>
        ensures report { IfOk result (λ report. IsGoodlockReport query.now self.now report) }
        ensures fault { IfErr result (λ fault. IsReportFault self.now fault) }
    {
        report_of_lists(self.alloc, self.intake.logs(), query)
    }
}
