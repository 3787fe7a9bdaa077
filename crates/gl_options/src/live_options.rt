//! What a session is run with, and how the words of the command line ask for it.
ghost use Rattle.std.specs.Prelude.{codes, option_map};
ghost use Rattle.gl_options.specs.Options.{live, session_app, recorders_rule, shards_rule, ring_rule, stream_rule, threads_rule};
ghost use Rattle.gl_options.specs.bodies.Parts.{HasRule, HasShape};
ghost use Rattle.gl_options.specs.bodies.Searches.{IsAskedBy};
ghost use Rattle.gl_options.specs.declared.options.Command.TheVariants.{Live};

use crate::building::{flag_option, number_option, with_option};
use crate::form::Form;
use crate::found::{flag_in, form_in, number_in, query_in};
use crate::jobs::{jobs_in, reading};
use crate::query_options::report_command;
use clap::{Arg, ArgMatches};
use gl_filters::Query;
use std::alloc::{AllocError, Global};

/// What is asked of a session over a trace, and what it is run with.
#[derive(Clone, Copy, Debug, PartialEq, Eq)]
pub struct LiveOptions {
    /// Which cycles count.
    pub query: Query,
    /// The form of the report.
    pub form: Form,
    /// Whether findings are listed, in place of cycles: those that were made at the same pairs of source places
    /// are one.
    pub findings: bool,
    /// How many threads record, at least 1; the command line takes up to 16. The trace's thread `t` is recorded by
    /// thread `t` modulo this number.
    pub recorders: u32,
    /// How many workers keep edges, 1 to 16.
    pub shards: u32,
    /// How many notes a lane or a feed has room for, 1 to 65,536.
    pub ring: u32,
    /// Whether each event is recorded as it is read, by the thread that reads. Then the recorder threads above
    /// don't count.
    pub stream: bool,
    /// How many threads the trace may name where it is recorded as it is read, 1 to 1,024. Else it doesn't
    /// count.
    pub threads: u32,
    /// How many threads read the trace, 1 to 64, or 0: one for each processor. A trace that is recorded as it is
    /// read is read by one thread, whatever this is.
    pub jobs: u32,
}

// The number of threads that record.
fn recorders_option<'a>(alloc: Global) -> Arg<'a>
    ensures { HasRule recorders_rule result }
{
    number_option(
        alloc,
        "recorders",
        "THREADS",
        1,
        16,
        "4",
        "How many threads record at once, 1 to 16",
    )
}

// The number of shards.
fn shards_option<'a>(alloc: Global) -> Arg<'a>
    ensures { HasRule shards_rule result }
{
    number_option(
        alloc,
        "shards",
        "WORKERS",
        1,
        16,
        "4",
        "How many workers keep edges, by the lock that is held, 1 to 16",
    )
}

// The capacity of rings.
fn ring_option<'a>(alloc: Global) -> Arg<'a>
    ensures { HasRule ring_rule result }
{
    number_option(
        alloc,
        "ring",
        "NOTES",
        1,
        65_536,
        "256",
        "How many events wait in each thread's ring, and edges before each worker, 1 to 65536",
    )
}

// Whether the trace is recorded as it is read.
fn stream_option<'a>(alloc: Global) -> Arg<'a>
    ensures { HasRule stream_rule result }
{
    flag_option(
        alloc,
        "stream",
        "Records each event as it is read, while the input is still coming: --recorders doesn't count then",
    )
}

// The limit of threads.
fn threads_option<'a>(alloc: Global) -> Arg<'a>
    ensures { HasRule threads_rule result }
{
    number_option(
        alloc,
        "threads",
        "THREADS",
        1,
        1_024,
        "64",
        "How many threads a trace may name with --stream, 1 to 1024",
    )
}

// A command that reports by a session of these recorder threads, workers and rings.
fn session_command<'a>(alloc: Global) -> Result<clap::Command<'a>, AllocError>
    ensures { HasShape session_app result }
{
    let command = report_command(alloc, "live");
    let command = with_option(command, recorders_option(alloc));
    let command = with_option(command, shards_option(alloc));
    with_option(command, ring_option(alloc))
}

/// The command that predicts by a session.
pub(crate) fn live_command<'a>(alloc: Global) -> Result<clap::Command<'a>, AllocError>
    ensures { HasShape live result }
{
    let command = with_option(session_command(alloc), stream_option(alloc));
    reading(
        alloc,
        with_option(command, threads_option(alloc)),
        "Reads a trace from standard input, records it again in running threads and prints the deadlocks that it predicts",
        "Examples:\n  goodlock live < trace.std\n  goodlock live --recorders 2 --shards 3 --ring 1 --json < trace.std\n  some-recorder | goodlock live --stream --threads 256",
    )
}

/// What the session is run with that these values of the command's options ask for.
pub(crate) fn live_in(options: &ArgMatches<'_>) -> Option<LiveOptions>
    ensures { IsAskedBy (codes "live") options.now (option_map Live result) }
{
    let query = query_in(options)?;
    let recorders = number_in(options, "recorders", 1, 16)?;
    let shards = number_in(options, "shards", 1, 16)?;
    let ring = number_in(options, "ring", 1, 65_536)?;
    let threads = number_in(options, "threads", 1, 1_024)?;
    let jobs = jobs_in(options)?;
    Some(LiveOptions {
        query,
        form: form_in(options),
        findings: flag_in(options, "findings"),
        recorders,
        shards,
        ring,
        stream: flag_in(options, "stream"),
        threads,
        jobs,
    })
}
