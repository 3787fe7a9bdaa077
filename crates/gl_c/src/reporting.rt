//! The reports of a session: of what was pulled so far, and of all that its threads recorded.
ghost use Rattle.std.specs.Prelude.{◌≡◌, Some};
ghost use Rattle.gl_findings.specs.declared.listing.Listing.TheVariants.{Cycles, Findings};
ghost use Rattle.gl_c.specs.Reporting.{lists_so_far, mode_of, query_of, report_code, settled_lists, IsKept, IsReportCall, IsReporting};

use crate::codes::{BASIC, FULL_MODE, GUARDED, INCONSISTENT, MEMORY, MISUSE, OK, RANGE};
use crate::made::Made;
use crate::made_state::MadeState;
use crate::session::Session;
use crate::session_state::Stage;
use gl_cycles::{Report, ReportFault};
use gl_filters::{Mode, Query};
use gl_findings::{Listing, report_of_lists};
use gl_std::Names;
use std::alloc::Global;

// The mode with this number.
fn mode_of(mode: u32) -> Option<Mode>
    ensures { result ≡ mode_of mode }
{
    match mode {
        BASIC => Some(Mode::Basic),
        GUARDED => Some(Mode::Guarded),
        FULL_MODE => Some(Mode::Full),
        _ => None,
    }
}

/// The query for these numbers, if each of them is in its range.
pub(crate) fn query_of(mode: u32, length: u32, number: u32) -> Option<Query>
    ensures { result ≡ query_of mode length number }
{
    let mode = mode_of(mode)?;
    let Ok(query) = Query::new(mode, length, number) else {
        return None;
    };
    Some(query)
}

// What is answered where there is no report.
fn report_code(fault: ReportFault) -> u32
    ensures { result ≡ report_code fault }
{
    match fault {
        ReportFault::Inconsistent { .. } => INCONSISTENT,
        ReportFault::Memory => MEMORY,
    }
}

/// Puts the report into the handle, with what it lists, and with the names that are its own.
pub(crate) fn keep_report(
    alloc: Global,
    listing: Listing,
    made: &mut Made,
    report: Result<Report, ReportFault>,
    names: Option<Names>,
) -> u32
    ensures { IsKept listing made.old.value report names result made.new.value }
{
    match report {
        Ok(report) => {
            let state = MadeState {
                report,
                listing,
                names,
            };
            match Box::new(alloc, state) {
                Ok(state) => {
                    made.put(state);
                    OK
                }
                Err(_) => MEMORY,
            }
        }
        Err(fault) => report_code(fault),
    }
}

// Makes the report, where the session runs.
fn make_so_far(
    alloc: Global,
    listing: Listing,
    stage: &Stage,
    query: &Query,
    made: &mut Made,
) -> u32
    ensures { IsReporting listing (Some query.now) (lists_so_far stage.now)
        made.old.value result made.new.value }
{
    match stage {
        Stage::Running(running) => {
            let report = report_of_lists(alloc, listing, running.collector.lists(), query);
            keep_report(alloc, listing, made, report, None)
        }
        Stage::Settled(_) | Stage::Gone => MISUSE,
    }
}

// Makes the report of all that was pulled so far that lists this.
fn report_so_far(
    alloc: Global,
    listing: Listing,
    session: &mut Session,
    query: Option<Query>,
    report: &mut Made,
) -> u32
    ensures session { session.new.value ≡ session.old.value }
    ensures report { IsReportCall listing lists_so_far session.old.value query
        report.old.value result report.new.value }
{
    if let Some(made) = report.take(alloc) {
        report.put(made);
        return MISUSE;
    }
    let Some(state) = session.take(alloc) else {
        return MISUSE;
    };
    let answer = match query {
        Some(query) => make_so_far(alloc, listing, &state.stage, &query, report),
        None => RANGE,
    };
    session.put(state);
    answer
}

/// Makes the report of all that was pulled so far.
#[unsafe(no_mangle)]
pub extern "C" fn goodlock_report_so_far(
    alloc: Global,
    session: &mut Session,
    mode: u32,
    length: u32,
    number: u32,
    report: &mut Made,
) -> u32
    ensures session { session.new.value ≡ session.old.value }
    ensures report { IsReportCall Cycles lists_so_far session.old.value
        (query_of mode length number) report.old.value result report.new.value }
{
    let query = query_of(mode, length, number);
    report_so_far(alloc, Listing::Cycles, session, query, report)
}

/// The same, of findings.
#[unsafe(no_mangle)]
pub extern "C" fn goodlock_findings_so_far(
    alloc: Global,
    session: &mut Session,
    mode: u32,
    length: u32,
    number: u32,
    report: &mut Made,
) -> u32
    ensures session { session.new.value ≡ session.old.value }
    ensures report { IsReportCall Findings lists_so_far session.old.value
        (query_of mode length number) report.old.value result report.new.value }
{
    let query = query_of(mode, length, number);
    report_so_far(alloc, Listing::Findings, session, query, report)
}

// Makes the report, where the session was settled.
fn make_settled(
    alloc: Global,
    listing: Listing,
    stage: &Stage,
    query: &Query,
    made: &mut Made,
) -> u32
    ensures { IsReporting listing (Some query.now) (settled_lists stage.now)
        made.old.value result made.new.value }
{
    match stage {
        Stage::Settled(settled) => {
            let report = report_of_lists(alloc, listing, settled.lists(), query);
            keep_report(alloc, listing, made, report, None)
        }
        Stage::Running(_) | Stage::Gone => MISUSE,
    }
}

// Makes the report of a session that was settled that lists this.
fn settled_report(
    alloc: Global,
    listing: Listing,
    session: &mut Session,
    query: Option<Query>,
    report: &mut Made,
) -> u32
    ensures session { session.new.value ≡ session.old.value }
    ensures report { IsReportCall listing settled_lists session.old.value query
        report.old.value result report.new.value }
{
    if let Some(made) = report.take(alloc) {
        report.put(made);
        return MISUSE;
    }
    let Some(state) = session.take(alloc) else {
        return MISUSE;
    };
    let answer = match query {
        Some(query) => make_settled(alloc, listing, &state.stage, &query, report),
        None => RANGE,
    };
    session.put(state);
    answer
}

/// Makes the report of a session that was settled: the Goodlock report of what its threads recorded.
#[unsafe(no_mangle)]
pub extern "C" fn goodlock_settled_report(
    alloc: Global,
    session: &mut Session,
    mode: u32,
    length: u32,
    number: u32,
    report: &mut Made,
) -> u32
    ensures session { session.new.value ≡ session.old.value }
    ensures report { IsReportCall Cycles settled_lists session.old.value
        (query_of mode length number) report.old.value result report.new.value }
{
    let query = query_of(mode, length, number);
    settled_report(alloc, Listing::Cycles, session, query, report)
}

/// The same, of findings.
#[unsafe(no_mangle)]
pub extern "C" fn goodlock_settled_findings(
    alloc: Global,
    session: &mut Session,
    mode: u32,
    length: u32,
    number: u32,
    report: &mut Made,
) -> u32
    ensures session { session.new.value ≡ session.old.value }
    ensures report { IsReportCall Findings settled_lists session.old.value
        (query_of mode length number) report.old.value result report.new.value }
{
    let query = query_of(mode, length, number);
    settled_report(alloc, Listing::Findings, session, query, report)
}
