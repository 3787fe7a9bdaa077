//! What is counted of a trace and of its report.
ghost use Rattle.std.specs.Prelude.{◌≡◌, ◌+◌, ◌^◌, ◌<◌, ◌++◌, IfOk, OnOk};
ghost use Rattle.gl_event.specs.Bounds.{greatest};
ghost use Rattle.gl_event.specs.Events.{segment};
ghost use Rattle.gl_event.specs.Lawful.{AreLawful};
ghost use Rattle.gl_event.specs.declared.events.Event.{Event};
ghost use Rattle.gl_event.specs.Lawful.{lists_of};
ghost use Rattle.gl_report.specs.Counts.{count_line, event_count, segment_count, stats_of, stats_text};

use crate::number::put_number;
use gl_cycles::Report;
use gl_event::{Event, Memory};
use gl_std::Trace;
use std::alloc::Global;

/// Counts of a trace and of a report of it.
#[derive(Clone, Copy, Debug, PartialEq, Eq)]
pub struct Stats {
    /// Events of all threads.
    pub events: u64,
    /// Lines that were skipped, since their operation is none that is watched.
    pub skipped: u64,
    /// Releases that were dropped, since their thread didn't hold the lock.
    pub stray: u64,
    /// Threads that have a number.
    pub threads: u64,
    /// Locks that have a number.
    pub locks: u64,
    /// Segments of all threads: of each, one more than its forks and joins.
    pub segments: u64,
    /// Edges of the report, whether or not a cycle has them.
    pub edges: u64,
    /// Cycles that the report lists.
    pub cycles: u64,
}

impl Stats {
    /// The counts of a trace and of a report of it.
    ///
    /// Takes no memory. Each event is looked at once.
    pub fn of(trace: &Trace, report: &Report) -> Stats
        requires lawful { AreLawful greatest trace.now.lists }
        ensures { result ≡ stats_of trace.now report.now }
    {
        let lists = trace.lists.as_slice();
        Stats {
            events: count_events(lists),
            skipped: trace.skipped,
            stray: trace.stray,
            threads: u64::from(trace.names.threads()),
            locks: u64::from(trace.names.locks()),
            segments: count_segments(lists),
            edges: report.edges.entries().len() as u64,
            cycles: report.found.cycles.as_slice().len() as u64,
        }
    }
}

// How many events the lists hold.
fn count_events(lists: &[Vec<Event>]) -> u64
    requires { event_count (lists_of lists.now) < 2 ^ 64 }
    ensures { result ≡ event_count (lists_of lists.now) }
{
    let mut count = 0;
    for list in lists {
        count += list.len() as u64;
    }
    count
}

// How many segments the list has.
fn segments_in(list: &[Event]) -> u64
    requires { segment list.now + 1 < 2 ^ 64 }
    ensures { result ≡ segment list.now + 1 }
{
    let mut count = 1;
    for event in list {
        count += u64::from(event.closes());
    }
    count
}

// How many segments the lists have.
fn count_segments(lists: &[Vec<Event>]) -> u64
    requires { segment_count (lists_of lists.now) < 2 ^ 64 }
    ensures { result ≡ segment_count (lists_of lists.now) }
{
    let mut count = 0;
    for list in lists {
        count += segments_in(list.as_slice());
    }
    count
}

// Adds a count with its name.
fn put_count(out: &mut Vec<u8>, name: &str, count: u64) -> Result<(), Memory>
    ensures { OnOk result (out.new.items ≡ out.old.items ++ count_line name.now count) }
{
    out.extend_from_slice(name.as_bytes())?;
    out.extend_from_slice(b": ")?;
    put_number(out, count)?;
    out.extend_from_slice(b"\n")?;
    Ok(())
}

/// The counts as text: eight lines, each with a count's name and the count. Err where memory was
/// refused.
pub fn stats_text(alloc: Global, stats: &Stats) -> Result<Vec<u8>, Memory>
    ensures { IfOk result (λ t. t.items ≡ stats_text stats.now) }
{
    let mut out = Vec::new(alloc);
    put_count(&mut out, "events", stats.events)?;
    put_count(&mut out, "skipped", stats.skipped)?;
    put_count(&mut out, "stray", stats.stray)?;
    put_count(&mut out, "threads", stats.threads)?;
    put_count(&mut out, "locks", stats.locks)?;
    put_count(&mut out, "segments", stats.segments)?;
    put_count(&mut out, "edges", stats.edges)?;
    put_count(&mut out, "cycles", stats.cycles)?;
    Ok(out)
}
