//! What the words of the command line ask for.
ghost use Rattle.std.specs.Prelude.{◌≡◌, map, codes, IfOk, IfErr};
ghost use Rattle.clap.specs.declared.error.kind.ErrorKind.TheVariants.{InvalidValue};
ghost use Rattle.clap.specs.Words.{app_of, kind_of, subcommand_rows_of, with_subcommand};
ghost use Rattle.gl_options.specs.Options.{goodlock, program, predict, live, stats, replay, check};
ghost use Rattle.gl_options.specs.Options.{Asks, IsEntered, IsUsageFor, IsUsageOf, NamesModes, jobs_of};
ghost use Rattle.gl_options.specs.bodies.Parts.{HasShape};
ghost use Rattle.gl_options.specs.bodies.Searches.{Finds, IsAskedBy};

use crate::building::with_command;
use crate::form::Form;
use crate::found::{flag_in, form_in, query_in};
use crate::jobs::{jobs_in, reading};
use crate::live_options::{LiveOptions, live_command, live_in};
use crate::query_options::{query_command, report_command};
use clap::error::ErrorKind;
use clap::{ArgMatches, Error};
use gl_filters::Query;
use std::alloc::{AllocError, Global};
use std::convert::AsStr;

// What is said of a value that no option takes.
const REFUSED: &str =
    "error: --mode takes basic, guarded or full\n\nFor more information, try '--help'.\n";

/// What the program is to do. Where a number of threads is 0, one reads for each processor.
#[derive(Clone, Copy, Debug, PartialEq, Eq)]
pub enum Command {
    /// Read a trace, by so many threads, and print the cycles that this query asks for, in this form.
    Predict { query: Query, form: Form, jobs: u32 },
    /// Read a trace, by so many threads, and print the findings that this query asks for, in this form.
    Findings { query: Query, form: Form, jobs: u32 },
    /// Read a trace, run a session over it and print the cycles that its options ask for.
    Live(LiveOptions),
    /// Read a trace, by so many threads, and print counts of it and of the cycles that this query asks for.
    Stats { query: Query, jobs: u32 },
    /// Read a trace, by so many threads, and print it as a text.
    Replay { jobs: u32 },
    /// Read a report and the trace that it is of, this by so many threads, and print whether it is true.
    Check { jobs: u32 },
}

impl Command {
    /// How many threads are to read the trace, or 0: one for each processor.
    pub fn jobs(&self) -> u32
        ensures { result ≡ jobs_of self.now }
    {
        match self {
            Command::Predict { jobs, .. } => *jobs,
            Command::Findings { jobs, .. } => *jobs,
            Command::Live(options) => options.jobs,
            Command::Stats { jobs, .. } => *jobs,
            Command::Replay { jobs } => *jobs,
            Command::Check { jobs } => *jobs,
        }
    }
}

/// Why words ask for nothing that is to be done.
#[derive(Drop, Debug)]
pub enum Usage {
    /// They ask for help or the version: this text for standard output.
    Shown(String),
    /// They are refused: this text for standard error says why.
    Refused(String),
    /// Memory was refused.
    Memory,
}

impl From<AllocError> for Usage {
    ghost use Rattle.gl_options.specs.declared.options.Usage.TheVariants.{Memory};

    ghost from_gives = { λ _ u. u ≡ Memory };

    fn from(_e: AllocError) -> Usage {
        Usage::Memory
    }
}

// The command that predicts.
fn predict_command<'a>(alloc: Global) -> Result<clap::Command<'a>, AllocError>
    ensures { HasShape predict result }
{
    reading(
        alloc,
        report_command(alloc, "predict"),
        "Reads a trace from standard input and prints the deadlocks that it predicts",
        "Examples:\n  goodlock predict < trace.std\n  goodlock predict --mode guarded --len 3 --json < trace.std",
    )
}

// The command that counts.
fn stats_command<'a>(alloc: Global) -> Result<clap::Command<'a>, AllocError>
    ensures { HasShape stats result }
{
    reading(
        alloc,
        query_command(alloc, "stats"),
        "Reads a trace from standard input and counts its events, names, segments, edges and cycles",
        "Examples:\n  goodlock stats < trace.std\n  goodlock stats --mode basic --max 100000 < trace.std",
    )
}

// The command that writes the trace.
fn replay_command<'a>(alloc: Global) -> Result<clap::Command<'a>, AllocError>
    ensures { HasShape replay result }
{
    reading(
        alloc,
        Ok(clap::Command::new(alloc, "replay")),
        "Reads a trace from standard input and prints its events again, thread by thread, each as a line",
        "Examples:\n  goodlock replay < trace.std\n  goodlock replay < trace.std | goodlock predict",
    )
}

// The command that checks a report.
fn check_command<'a>(alloc: Global) -> Result<clap::Command<'a>, AllocError>
    ensures { HasShape check result }
{
    reading(
        alloc,
        Ok(clap::Command::new(alloc, "check")),
        "Reads a JSON report, which is one line, and then its trace from standard input, and says whether the report is true",
        "Examples:\n  cat report.json trace.std | goodlock check\n  (goodlock predict --json < trace.std; cat trace.std) | goodlock check",
    )
}

// The program without its commands.
fn bare_program<'a>(alloc: Global) -> clap::Command<'a>
    ensures { app_of result ≡ program }
{
    clap::Command::new(alloc, "goodlock")
        .about("Predicts deadlocks from a trace of lock events")
        .version("0.1.0")
        .after_help(
            "Examples:\n  goodlock predict < trace.std\n  goodlock stats --mode guarded < trace.std",
        )
        .subcommand_required(true)
        .disable_help_subcommand(true)
}

// The program with the commands that report and the one that counts.
fn reporting<'a>(alloc: Global) -> Result<clap::Command<'a>, AllocError>
    ensures { IfOk result
        (λ c. app_of c
        ≡ with_subcommand
        (with_subcommand (with_subcommand program predict.top) live.top) stats.top) }
{
    let command = Ok(bare_program(alloc));
    let command = with_command(command, predict_command(alloc));
    let command = with_command(command, live_command(alloc));
    with_command(command, stats_command(alloc))
}

// The whole command line.
fn command_line<'a>(alloc: Global) -> Result<clap::Command<'a>, AllocError>
    ensures { IfOk result (λ c. app_of c ≡ goodlock) }
{
    let command = with_command(reporting(alloc), replay_command(alloc));
    with_command(command, check_command(alloc))
}

// What becomes of a parse that fails.
fn usage_of(alloc: Global, error: &Error) -> Usage
    ensures { IsUsageFor (kind_of error.now) result }
{
    if matches!(error.kind(), ErrorKind::OutOfMemory) {
        return Usage::Memory;
    }
    let Ok(text) = error.to_string(alloc) else {
        return Usage::Memory;
    };
    if error.use_stderr() {
        Usage::Refused(text)
    } else {
        Usage::Shown(text)
    }
}

// A value that no option takes.
fn refused(alloc: Global) -> Usage
    ensures usage { IsUsageFor InvalidValue result }
    ensures text { NamesModes result }
{
    match String::from_str(alloc, REFUSED) {
        Ok(text) => Usage::Refused(text),
        Err(_) => Usage::Memory,
    }
}

// The command that these values of its options ask for.
fn predict_in(options: &ArgMatches<'_>) -> Option<Command>
    ensures { IsAskedBy (codes "predict") options.now result }
{
    let query = query_in(options)?;
    let jobs = jobs_in(options)?;
    let form = form_in(options);
    if flag_in(options, "findings") {
        return Some(Command::Findings { query, form, jobs });
    }
    Some(Command::Predict { query, form, jobs })
}

// The command that these values of its options ask for.
fn stats_in(options: &ArgMatches<'_>) -> Option<Command>
    ensures { IsAskedBy (codes "stats") options.now result }
{
    let query = query_in(options)?;
    let jobs = jobs_in(options)?;
    Some(Command::Stats { query, jobs })
}

// The command that these values of its options ask for.
fn replay_in(options: &ArgMatches<'_>) -> Option<Command>
    ensures { IsAskedBy (codes "replay") options.now result }
{
    let jobs = jobs_in(options)?;
    Some(Command::Replay { jobs })
}

// The command that these values of its options ask for.
fn check_in(options: &ArgMatches<'_>) -> Option<Command>
    ensures { IsAskedBy (codes "check") options.now result }
{
    let jobs = jobs_in(options)?;
    Some(Command::Check { jobs })
}

// The command that was entered, where its options have values in their ranges.
fn command_in(matches: &ArgMatches<'_>) -> Option<Command>
    ensures { Finds (IsEntered (subcommand_rows_of matches.now)) result }
{
    if let Some(options) = matches.subcommand_matches("predict") {
        return predict_in(options);
    }
    if let Some(options) = matches.subcommand_matches("live") {
        return Some(Command::Live(live_in(options)?));
    }
    if let Some(options) = matches.subcommand_matches("stats") {
        return stats_in(options);
    }
    if let Some(options) = matches.subcommand_matches("replay") {
        return replay_in(options);
    }
    if let Some(options) = matches.subcommand_matches("check") {
        return check_in(options);
    }
    None
}

/// What these words ask for, of which the first is the program's name, or why they ask for nothing.
///
/// The words are `goodlock predict`, `goodlock live` or `goodlock stats`, then any of `--mode` with
/// `basic`, `guarded` or `full` (the default), `--len` with a number from 2 to 16 (4), and `--max` with
/// one from 1 to 100,000 (1,000), of `predict` and `live` also `--json` and `--findings`, and of `live`
/// `--recorders` and `--shards` with numbers from 1 to 16 (4 each), `--ring` with one from 1 to 65,536 (256),
/// `--stream`, and `--threads` with a number from 1 to 1,024 (64); or `goodlock replay`, or `goodlock check`; of
/// each of these also `--jobs` with a number from 0 to 64 (0), and each option once at the most. `--help`, of
/// the program or of a command, and `--version` ask for a text. With `--findings`, `predict` and `live` ask for
/// findings in place of cycles: cycles that were made at the same pairs of source places are one finding.
pub fn parse<'a, S: AsStr>(alloc: Global, words: &'a [S]) -> Result<Command, Usage>
    ensures asks { IfOk result (Asks (map S.text words.entry.now)) }
    ensures usage { IfErr result (IsUsageOf (map S.text words.entry.now)) }
{
    let matches = match command_line(alloc)?.try_get_matches_from(words) {
        Ok(matches) => matches,
        Err(error) => return Err(usage_of(alloc, &error)),
    };
    match command_in(&matches) {
        Some(command) => Ok(command),
        None => Err(refused(alloc)),
    }
}
