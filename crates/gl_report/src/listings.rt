//! What a report lists, cycles or findings: as text, and as JSON.
ghost use Rattle.std.specs.Prelude.{◌≡◌, IfOk};
ghost use Rattle.gl_report.specs.Listings.{listed_json, listed_text};

use crate::findings::findings_json_text;
use crate::printing::{findings_text, text};
use crate::tree::json_text;
use gl_cycles::Report;
use gl_event::Memory;
use gl_findings::Listing;
use gl_std::Names;
use std::alloc::Global;

/// The text of a report that lists cycles, or findings: [`text`], or [`findings_text`].
///
/// Err where memory was refused.
pub fn listed_text(
    alloc: Global,
    listing: Listing,
    names: &Names,
    report: &Report,
) -> Result<Vec<u8>, Memory>
    ensures { IfOk result (λ t. t.items ≡ listed_text listing names.now report.now) }
{
    match listing {
        Listing::Cycles => text(alloc, names, report),
        Listing::Findings => findings_text(alloc, names, &report.edges, &report.found),
    }
}

/// The JSON of a report that lists cycles, or findings: [`json_text`], of format 2, or [`findings_json_text`], of
/// format 3.
///
/// Err where memory was refused.
pub fn listed_json_text(
    alloc: Global,
    listing: Listing,
    names: &Names,
    report: &Report,
) -> Result<Vec<u8>, Memory>
    ensures { IfOk result (λ t. t.items ≡ listed_json listing names.now report.now) }
{
    match listing {
        Listing::Cycles => json_text(alloc, names, report),
        Listing::Findings => {
            findings_json_text(alloc, names, &report.query, &report.edges, &report.found)
        }
    }
}
