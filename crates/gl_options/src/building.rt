//! Options and commands of the command line, step by step. A step over a command that isn't there, since memory was
//! refused, leaves it so.
ghost use Rattle.std.specs.Prelude.{◌≡◌, false, Some, IfOk};
ghost use Rattle.clap.specs.Words.{App, Rule, app_of, rule_of, with_rule, with_subcommand};
ghost use Rattle.clap.specs.declared.builder.command.Command.TheViews.{out-Command as fields_of};
ghost use Rattle.clap.specs.declared.builder.value_parser.ValueParser.TheVariants.{Signed};
ghost use Rattle.gl_options.specs.Options.{flag_rule, option_rule};
ghost use Rattle.gl_options.specs.bodies.Parts.{HasRule};

use clap::builder::ValueParser;
use clap::{Arg, ArgAction};
use std::alloc::{AllocError, Global};

/// An option that takes a whole number from the least to the greatest: its name, what help calls the number, which
/// one it is by default, and what help says of it.
pub(crate) fn number_option<'a>(
    alloc: Global,
    name: &'a str,
    value: &'a str,
    least: i64,
    greatest: i64,
    default: &'a str,
    help: &'a str,
) -> Arg<'a>
    ensures { HasRule
        (record (option_rule name.entry.now default.entry.now) {
          parser = Some (Signed least greatest);
        })
        result }
{
    Arg::new(alloc, name)
        .long(name)
        .value_name(value)
        .value_parser(ValueParser::signed(least, greatest))
        .default_value(default)
        .help(help)
}

/// An option that takes no value: its name, and what help says of it.
pub(crate) fn flag_option<'a>(alloc: Global, name: &'a str, help: &'a str) -> Arg<'a>
    ensures { HasRule (flag_rule name.entry.now) result }
{
    Arg::new(alloc, name)
        .long(name)
        .action(ArgAction::SetTrue)
        .help(help)
}

/// The command with one more option.
pub(crate) fn with_option<'a>(
    command: Result<clap::Command<'a>, AllocError>,
    option: Arg<'a>,
) -> Result<clap::Command<'a>, AllocError>
    ensures shape { (app : App) (rule : Rule) → IfOk command.entry (λ c. app_of c ≡ app)
        → rule_of option.entry ≡ rule → option.entry.global ≡ false
        → IfOk result (λ c. app_of c ≡ with_rule app rule) }
    ensures local { IfOk command.entry (λ c. (fields_of c).has_globals ≡ false)
        → option.entry.global ≡ false
        → IfOk result (λ c. (fields_of c).has_globals ≡ false) }
{
    match command {
        Ok(command) => command.arg(option),
        Err(error) => Err(error),
    }
}

/// The command with what help says of it, and with examples after that.
pub(crate) fn described<'a>(
    command: Result<clap::Command<'a>, AllocError>,
    about: &'a str,
    examples: &'a str,
) -> Result<clap::Command<'a>, AllocError>
    ensures shape { (app : App) → IfOk command.entry (λ c. app_of c ≡ app)
        → IfOk result (λ c. app_of c ≡ app) }
    ensures local { IfOk command.entry (λ c. (fields_of c).has_globals ≡ false)
        → IfOk result (λ c. (fields_of c).has_globals ≡ false) }
{
    match command {
        Ok(command) => Ok(command.about(about).after_help(examples)),
        Err(error) => Err(error),
    }
}

/// The program with one more command.
pub(crate) fn with_command<'a>(
    program: Result<clap::Command<'a>, AllocError>,
    command: Result<clap::Command<'a>, AllocError>,
) -> Result<clap::Command<'a>, AllocError>
    ensures { (all one : App) → IfOk program.entry (λ c. app_of c ≡ all)
        → IfOk command.entry (λ c. app_of c ≡ one)
        → IfOk command.entry (λ c. (fields_of c).has_globals ≡ false)
        → IfOk result (λ c. app_of c ≡ with_subcommand all one.top) }
{
    match program {
        Ok(program) => added(program, command),
        Err(error) => {
            drop(command);
            Err(error)
        }
    }
}

// The program with one more command.
fn added<'a>(
    program: clap::Command<'a>,
    command: Result<clap::Command<'a>, AllocError>,
) -> Result<clap::Command<'a>, AllocError>
    ensures { (all one : App) → app_of program.entry ≡ all
        → IfOk command.entry (λ c. app_of c ≡ one)
        → IfOk command.entry (λ c. (fields_of c).has_globals ≡ false)
        → IfOk result (λ c. app_of c ≡ with_subcommand all one.top) }
{
    match command {
        Ok(command) => program.subcommand(command),
        Err(error) => {
            drop(program);
            Err(error)
        }
    }
}
