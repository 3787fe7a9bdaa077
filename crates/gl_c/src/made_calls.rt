//! The calls on a report that was made.
ghost use Rattle.std.specs.Prelude.{◌≡◌, None, length};
ghost use Rattle.gl_report.specs.Listings.{listed_json, listed_text};
ghost use Rattle.gl_c.specs.Calls.{IsCall, IsGiven, IsGiving, IsGivingOf};
ghost use Rattle.gl_c.specs.Mentioning.{names_for};
ghost use Rattle.gl_c.specs.declared.codes.TheConstants.{OK, MISUSE};

use crate::codes::{MEMORY, MISUSE, OK};
use crate::made::Made;
use crate::made_state::MadeState;
use crate::session::Session;
use crate::session_state::SessionState;
use gl_report::{listed_json_text, listed_text};
use gl_std::Names;
use std::alloc::Global;

// Writes the text into the buffer, if all of it fits, and tells its length.
fn give(text: &[u8], buffer: &mut [u8], needed: &mut usize)
    ensures { IsGiven text.now buffer.old buffer.new needed.new }
{
    let length = text.len();
    *needed = length;
    if length <= buffer.len() {
        buffer[..length].copy_from_slice(text);
    }
}

// The names that the report is printed by: its own, or else the session's.
fn names_for<'a>(session: &'a SessionState, made: &'a MadeState) -> &'a Names
    ensures { result.now ≡ names_for session.now made.now }
{
    match &made.names {
        Some(names) => names,
        None => &session.names,
    }
}

// Writes the report's text.
fn give_text(
    alloc: Global,
    session: &SessionState,
    made: &MadeState,
    buffer: &mut [u8],
    needed: &mut usize,
) -> u32
    ensures { IsGiving
        (listed_text made.now.listing (names_for session.now made.now) made.now.report)
        buffer.old needed.old result buffer.new needed.new }
{
    let Ok(text) = listed_text(alloc, made.listing, names_for(session, made), &made.report) else {
        return MEMORY;
    };
    give(&text, buffer, needed);
    OK
}

/// Writes the report's text.
#[unsafe(no_mangle)]
pub extern "C" fn goodlock_text(
    alloc: Global,
    session: &mut Session,
    report: &mut Made,
    buffer: &mut [u8],
    needed: &mut usize,
) -> u32
    ensures session { session.new.value ≡ session.old.value }
    ensures report { report.new.value ≡ report.old.value }
    ensures given { IsGivingOf
        (λ state made. listed_text made.listing (names_for state made) made.report)
        session.old.value report.old.value buffer.old needed.old result buffer.new needed.new }
{
    let Some(state) = session.take(alloc) else {
        return MISUSE;
    };
    let Some(made) = report.take(alloc) else {
        session.put(state);
        return MISUSE;
    };
    let answer = give_text(alloc, &state, &made, buffer, needed);
    session.put(state);
    report.put(made);
    answer
}

// Writes the report's JSON.
fn give_json(
    alloc: Global,
    session: &SessionState,
    made: &MadeState,
    buffer: &mut [u8],
    needed: &mut usize,
) -> u32
    ensures { IsGiving
        (listed_json made.now.listing (names_for session.now made.now) made.now.report)
        buffer.old needed.old result buffer.new needed.new }
{
    let Ok(text) = listed_json_text(alloc, made.listing, names_for(session, made), &made.report)
    else {
        return MEMORY;
    };
    give(&text, buffer, needed);
    OK
}

/// Writes the report's JSON.
#[unsafe(no_mangle)]
pub extern "C" fn goodlock_json(
    alloc: Global,
    session: &mut Session,
    report: &mut Made,
    buffer: &mut [u8],
    needed: &mut usize,
) -> u32
    ensures session { session.new.value ≡ session.old.value }
    ensures report { report.new.value ≡ report.old.value }
    ensures given { IsGivingOf
        (λ state made. listed_json made.listing (names_for state made) made.report)
        session.old.value report.old.value buffer.old needed.old result buffer.new needed.new }
{
    let Some(state) = session.take(alloc) else {
        return MISUSE;
    };
    let Some(made) = report.take(alloc) else {
        session.put(state);
        return MISUSE;
    };
    let answer = give_json(alloc, &state, &made, buffer, needed);
    session.put(state);
    report.put(made);
    answer
}

/// How many cycles the report lists, or findings, and whether there are more.
#[unsafe(no_mangle)]
pub extern "C" fn goodlock_cycles(
    alloc: Global,
    report: &mut Made,
    cycles: &mut usize,
    more: &mut bool,
) -> u32
    ensures { IsCall
        (λ old new. (result ≡ OK) × (new ≡ old)
        × (cycles.new ≡ length old.report.found.cycles)
        × (more.new ≡ old.report.found.more))
        ((result ≡ MISUSE) × (cycles.new ≡ cycles.old) × (more.new ≡ more.old))
        report.old.value report.new.value }
{
    let Some(made) = report.take(alloc) else {
        return MISUSE;
    };
    *cycles = made.report.found.cycles.as_slice().len();
    *more = made.report.found.more;
    report.put(made);
    OK
}

/// Frees the report.
#[unsafe(no_mangle)]
pub extern "C" fn goodlock_report_free(alloc: Global, report: &mut Made)
    ensures { report.new.value ≡ None }
{
    drop(report.take(alloc));
}
