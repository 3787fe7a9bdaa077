//! Collectors that are asked for the next note of a thread.
use gl_cycles::{Report, ReportFault};
use gl_engine::{Collector, PullFault, Pulled, Recorder, open};
use gl_event::{Event, Limits, ThreadId};
use gl_filters::Query;
use std::alloc::Global;
use std::marker::Model;

/// The collector of a session of so many threads.
#[derive(Drop)]
pub struct Asked {
    collector: Collector,
    threads: u32,
}

impl Model for Asked {
    ghost use Rattle.std.specs.Prelude.{◌≡◌, ℕ};

    ghost Value = { ℕ };

    ghost view = { λ a. a.threads };

    ghost invariant = { λ a. a.collector.limits.threads ≡ a.threads };
}

/// The recorders and the collector of a session with these limits.
pub fn opened(alloc: Global, limits: &Limits) -> Option<(Vec<Recorder>, Asked)> {
    let (recorders, collector) = open(alloc, 7, limits).ok()?;
    let threads = limits.threads();
    Some((recorders, Asked { collector, threads }))
}

impl Asked {
    /// What the collector answers for the thread of this number, if there is one.
    pub fn pull(&mut self, number: u32) -> Option<Result<Pulled, PullFault>> {
        if number >= self.threads {
            return None;
        }
        Some(self.collector.pull(ThreadId::new(number)))
    }

    /// The collected events of the thread of this number, if there is one.
    pub fn log(&self, number: u32) -> Option<&[Event]> {
        if number >= self.threads {
            return None;
        }
        Some(self.collector.log(ThreadId::new(number)))
    }

    /// How many notes were collected.
    pub fn notes(&self) -> usize {
        self.collector.stream().len()
    }

    /// The report of what was collected so far.
    pub fn report_so_far(&self, query: &Query) -> Result<Report, ReportFault> {
        self.collector.report_so_far(query)
    }
}
