//! How many threads read a trace and look for its edges, and how the words of the command line ask for them.
ghost use Rattle.std.specs.Prelude.{◌≡◌, false, IfOk};
ghost use Rattle.clap.specs.Words.{App, app_of, found_of, rows_of, with_rule};
ghost use Rattle.clap.specs.declared.builder.command.Command.TheViews.{out-Command as fields_of};
ghost use Rattle.gl_options.specs.Options.{jobs_rule, IsJobsIn};
ghost use Rattle.gl_options.specs.bodies.Parts.{HasRule};
ghost use Rattle.gl_options.specs.bodies.Searches.{Finds};

use crate::building::{described, number_option, with_option};
use crate::found::number_in;
use clap::{Arg, ArgMatches};
use std::alloc::{AllocError, Global};

/// The number of threads that read the trace. With `--stream` the text is read as it comes, by one thread, and this
/// number doesn't count.
pub(crate) fn jobs_option<'a>(alloc: Global) -> Arg<'a>
    ensures { HasRule jobs_rule result }
{
    number_option(
        alloc,
        "jobs",
        "THREADS",
        0,
        64,
        "0",
        "How many threads read the trace, 1 to 64, or 0: one for each processor",
    )
}

/// The command with that option as its last one, with what help says of the command, and with examples after that.
pub(crate) fn reading<'a>(
    alloc: Global,
    command: Result<clap::Command<'a>, AllocError>,
    about: &'a str,
    examples: &'a str,
) -> Result<clap::Command<'a>, AllocError>
    ensures shape { (app : App) → IfOk command.entry (λ c. app_of c ≡ app)
        → IfOk result (λ c. app_of c ≡ with_rule app jobs_rule) }
    ensures local { IfOk command.entry (λ c. (fields_of c).has_globals ≡ false)
        → IfOk result (λ c. (fields_of c).has_globals ≡ false) }
{
    with_option(described(command, about, examples), jobs_option(alloc))
}

/// The number that was read for the option, where it is in its range.
pub(crate) fn jobs_in(matches: &ArgMatches<'_>) -> Option<u32>
    ensures { Finds (IsJobsIn (rows_of (found_of matches.now))) result }
{
    number_in(matches, "jobs", 0, 64)
}
