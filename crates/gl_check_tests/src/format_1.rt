//! Reports in format 1, which stands for those alone whose cycles are of exclusive locks.
ghost use Rattle.std.specs.Prelude.{◌≡◌, ◌++◌, ◌↔◌, codes, IsSome, IfOk, IfSome};
ghost use Rattle.gl_report.specs.Exclusive.{ListsExclusive};
ghost use Rattle.gl_report.specs.TreeV1.{report_tree_v1};
ghost use Rattle.serde_json.specs.Written.{compact_text};

use gl_cycles::Report;
use gl_event::Memory;
use gl_report::{json_text_v1, lists_exclusive};
use gl_std::Names;
use std::alloc::Global;

/// The report as one line of JSON of format 1, or none where it lists a shared lock. Err where memory
/// was refused.
pub fn json_if_exclusive(
    alloc: Global,
    names: &Names,
    report: &Report,
) -> Result<Option<Vec<u8>>, Memory>
    ensures which { IfOk result (λ answer. IsSome answer ↔ ListsExclusive report.now) }
    ensures line { IfOk result
        (λ answer. IfSome answer
        (λ text. text.items
        ≡ compact_text (report_tree_v1 names.now report.now) ++ codes "\n")) }
{
    if lists_exclusive(report) {
        return Ok(Some(json_text_v1(alloc, names, report)?));
    }
    Ok(None)
}
