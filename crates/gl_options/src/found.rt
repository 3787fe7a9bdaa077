//! What was read for the options of a command.
ghost use Rattle.std.specs.Prelude.{◌≡◌, ◌<◌, ◌^◌, ℕ, None, codes, option_and_then, IfSome};
ghost use Rattle.clap.specs.Words.{first_of, found_of, rows_of};
ghost use Rattle.gl_filters.specs.Asked.{mode_named};
ghost use Rattle.gl_options.specs.Options.{AsksIn, IsFlagIn, IsFormIn, IsNumberAt, IsNumberIn};
ghost use Rattle.gl_options.specs.bodies.Searches.{Finds};

use crate::form::Form;
use clap::ArgMatches;
use gl_filters::{Mode, Query};

/// The number that was read for an option.
pub(crate) fn number_at(matches: &ArgMatches<'_>, id: &str) -> Option<u32>
    ensures some { IfSome result (λ n. IsNumberAt (rows_of (found_of matches.now)) id.now n) }
    ensures none { result ≡ None → (n : ℕ) → n < 2 ^ 32
        → IsNumberAt (rows_of (found_of matches.now)) id.now n → ⊥ }
{
    matches.get_one::<u32>(id)
}

/// The number that was read for an option, where it is from the least to the greatest.
pub(crate) fn number_in(
    matches: &ArgMatches<'_>,
    id: &str,
    least: u32,
    greatest: u32,
) -> Option<u32>
    ensures { Finds (IsNumberIn (rows_of (found_of matches.now)) id.now least greatest) result }
{
    let number = number_at(matches, id)?;
    if number < least || number > greatest {
        return None;
    }
    Some(number)
}

// The mode that was read.
fn mode_in(matches: &ArgMatches<'_>) -> Option<Mode>
    ensures { result ≡ option_and_then mode_named
        (first_of (codes "mode") (rows_of (found_of matches.now))) }
{
    match matches.get_str("mode") {
        Some(name) => Mode::named(name),
        None => None,
    }
}

/// The query that was read, where its options have values in their ranges.
pub(crate) fn query_in(matches: &ArgMatches<'_>) -> Option<Query>
    ensures { Finds (AsksIn (rows_of (found_of matches.now))) result }
{
    let mode = mode_in(matches)?;
    let len = number_at(matches, "len")?;
    let max = number_at(matches, "max")?;
    match Query::new(mode, len, max) {
        Ok(query) => Some(query),
        Err(_) => None,
    }
}

/// The form that was read.
pub(crate) fn form_in(matches: &ArgMatches<'_>) -> Form
    ensures { IsFormIn (rows_of (found_of matches.now)) result }
{
    if matches.get_flag("json") {
        return Form::Json;
    }
    Form::Text
}

/// Whether the flag was given.
pub(crate) fn flag_in(matches: &ArgMatches<'_>, id: &str) -> bool
    ensures { IsFlagIn (rows_of (found_of matches.now)) id.now result }
{
    matches.get_flag(id)
}
