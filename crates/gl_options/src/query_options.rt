//! The options of a query, and of a report: how the words of the command line ask which cycles are wanted, and in which form.
ghost use Rattle.gl_options.specs.Options.{query_app, report_app, mode_rule, len_rule, max_rule, json_rule, findings_rule};
ghost use Rattle.gl_options.specs.bodies.Parts.{HasRule, HasShape};

use crate::building::{flag_option, number_option, with_option};
use clap::Arg;
use std::alloc::{AllocError, Global};

// Which cycles count.
fn mode_option<'a>(alloc: Global) -> Arg<'a>
    ensures { HasRule mode_rule result }
{
    Arg::new(alloc, "mode")
        .long("mode")
        .value_name("MODE")
        .default_value("full")
        .help(
            "Which cycles count: basic, guarded (no gate lock in common), or full (and not ordered by forks and joins)",
        )
}

// The greatest length of a cycle.
fn len_option<'a>(alloc: Global) -> Arg<'a>
    ensures { HasRule len_rule result }
{
    number_option(
        alloc,
        "len",
        "EDGES",
        2,
        16,
        "4",
        "The most edges that a cycle may have, 2 to 16",
    )
}

// The greatest number of cycles.
fn max_option<'a>(alloc: Global) -> Arg<'a>
    ensures { HasRule max_rule result }
{
    number_option(
        alloc,
        "max",
        "CYCLES",
        1,
        100_000,
        "1000",
        "The most cycles that are listed, 1 to 100000",
    )
}

// The form of the report.
fn json_option<'a>(alloc: Global) -> Arg<'a>
    ensures { HasRule json_rule result }
{
    flag_option(
        alloc,
        "json",
        "Prints the report as JSON, one object on a line",
    )
}

// Whether findings are listed, in place of cycles.
fn findings_option<'a>(alloc: Global) -> Arg<'a>
    ensures { HasRule findings_rule result }
{
    flag_option(
        alloc,
        "findings",
        "Lists each finding once: cycles made at the same places are one",
    )
}

/// A command of this name with the options of a query.
pub(crate) fn query_command<'a>(
    alloc: Global,
    name: &'a str,
) -> Result<clap::Command<'a>, AllocError>
    ensures { HasShape (query_app name.entry.now) result }
{
    let command = Ok(clap::Command::new(alloc, name));
    let command = with_option(command, mode_option(alloc));
    let command = with_option(command, len_option(alloc));
    with_option(command, max_option(alloc))
}

/// A command of this name that reports, with the options of a query, the form of the report and what it lists.
pub(crate) fn report_command<'a>(
    alloc: Global,
    name: &'a str,
) -> Result<clap::Command<'a>, AllocError>
    ensures { HasShape (report_app name.entry.now) result }
{
    let command = query_command(alloc, name);
    let command = with_option(command, json_option(alloc));
    with_option(command, findings_option(alloc))
}
