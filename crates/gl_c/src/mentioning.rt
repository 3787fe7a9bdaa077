//! The report of a session whose locks and places are numbered by first mention.
ghost use Rattle.std.specs.Prelude.{◌≡◌, Some, length};
ghost use Rattle.gl_event.specs.Bounds.{greatest};
ghost use Rattle.gl_event.specs.Lawful.{AreLawful, lists_of};
ghost use Rattle.gl_event.specs.declared.events.Event.{Event};
ghost use Rattle.gl_findings.specs.declared.listing.Listing.TheVariants.{Cycles, Findings};
ghost use Rattle.gl_renumbering.specs.Tales.{have_names};
ghost use Rattle.gl_c.specs.Mentioning.{IsMakingByMention, IsReportByMention, IsReportingByMention};
ghost use Rattle.gl_c.specs.Reporting.{query_of, settled_lists};

use crate::codes::{MEMORY, MISUSE, RANGE, UNNAMED};
use crate::made::Made;
use crate::reporting::{keep_report, query_of};
use crate::session::Session;
use crate::session_state::Stage;
use gl_event::Event;
use gl_filters::Query;
use gl_findings::{Listing, report_of_lists};
use gl_renumbering::{ByMention, RenumberingFault, by_mention};
use gl_std::Names;
use std::alloc::Global;

// Makes the report of the lists by mention that lists this, if all their locks and places have names.
fn make_by_mention(
    alloc: Global,
    listing: Listing,
    names: &Names,
    lists: &[Vec<Event>],
    query: &Query,
    made: &mut Made,
) -> u32
    requires { AreLawful greatest (lists_of lists.now) }
    ensures { IsMakingByMention (have_names names.now (lists_of lists.now)) listing
        query.now names.now (lists_of lists.now)
        made.old.value result made.new.value }
{
    match by_mention(alloc, names, lists) {
        Ok(told) => {
            let ByMention { lists, names } = told;
            let report = report_of_lists(alloc, listing, &lists, query);
            keep_report(alloc, listing, made, report, Some(names))
        }
        Err(RenumberingFault::Unnamed) => UNNAMED,
        Err(RenumberingFault::Memory) => MEMORY,
    }
}

// Makes it, where the session was settled.
fn make_settled(
    alloc: Global,
    listing: Listing,
    names: &Names,
    stage: &Stage,
    query: &Query,
    made: &mut Made,
) -> u32
    ensures { IsReportingByMention listing (Some query.now) names.now (settled_lists stage.now)
        made.old.value result made.new.value }
{
    match stage {
        Stage::Settled(settled) => {
            make_by_mention(alloc, listing, names, settled.lists(), query, made)
        }
        Stage::Running(_) | Stage::Gone => MISUSE,
    }
}

// Makes the report by mention of a session that was settled that lists this.
fn report_by_mention(
    alloc: Global,
    listing: Listing,
    session: &mut Session,
    query: Option<Query>,
    report: &mut Made,
) -> u32
    ensures session { session.new.value ≡ session.old.value }
    ensures report { IsReportByMention listing session.old.value query
        report.old.value result report.new.value }
{
    if let Some(made) = report.take(alloc) {
        report.put(made);
        return MISUSE;
    }
    let Some(state) = session.take(alloc) else {
        return MISUSE;
    };
    let answer = match query {
        Some(query) => make_settled(alloc, listing, &state.names, &state.stage, &query, report),
        None => RANGE,
    };
    session.put(state);
    answer
}

/// Makes the report of a session that was settled, with locks and places numbered by first mention: thread 0's
/// list first, event by event, then thread 1's, and so on. It is printed by the names in this order, whatever
/// order they were told in.
#[unsafe(no_mangle)]
pub extern "C" fn goodlock_report_by_mention(
    alloc: Global,
    session: &mut Session,
    mode: u32,
    length: u32,
    number: u32,
    report: &mut Made,
) -> u32
    ensures session { session.new.value ≡ session.old.value }
    ensures report { IsReportByMention Cycles session.old.value (query_of mode length number)
        report.old.value result report.new.value }
{
    let query = query_of(mode, length, number);
    report_by_mention(alloc, Listing::Cycles, session, query, report)
}

/// The same, of findings.
#[unsafe(no_mangle)]
pub extern "C" fn goodlock_findings_by_mention(
    alloc: Global,
    session: &mut Session,
    mode: u32,
    length: u32,
    number: u32,
    report: &mut Made,
) -> u32
    ensures session { session.new.value ≡ session.old.value }
    ensures report { IsReportByMention Findings session.old.value (query_of mode length number)
        report.old.value result report.new.value }
{
    let query = query_of(mode, length, number);
    report_by_mention(alloc, Listing::Findings, session, query, report)
}
