//! The report as JSON of format 2.
ghost use Rattle.std.specs.Prelude.{◌≡◌, ◌++◌, codes, false, IfOk};
ghost use Rattle.serde_json.specs.View.{view};
ghost use Rattle.serde_json.specs.Written.{compact_text, has_float};
ghost use Rattle.gl_report.specs.Tree.{report_tree, trim_tree};

use crate::report_members::{put_edges, put_found, put_question};
use crate::values::positions_value;
use gl_cycles::{Report, TrimOrder};
use gl_event::Memory;
use gl_std::Names;
use serde_json::{Map, Value, put};
use std::alloc::Global;

// The order in which trimming takes away all edges, or null.
fn trim_value(alloc: Global, trim: &Option<TrimOrder>) -> Result<Value, Memory>
    ensures { IfOk result (λ v. view v ≡ trim_tree trim.now) }
{
    match trim {
        Some(order) => positions_value(alloc, order.as_slice()),
        None => Ok(Value::Null),
    }
}

/// The report as a JSON value of format 2: what was asked, each edge once, the cycles as positions of
/// their edges, whether there are more of them, and the order in which trimming takes away all edges,
/// where it does. Names are text, with odd bytes escaped. Err where memory was refused.
#[tactic(auto, unfolding(crate::specs::Tree::report_tree))]
pub fn json(alloc: Global, names: &Names, report: &Report) -> Result<Value, Memory>
    ensures { IfOk result (λ v. view v ≡ report_tree names.now report.now) }
{
    let mut members = Map::new(alloc);
    put_question(&mut members, alloc, 2, &report.query)?;
    put_edges(&mut members, alloc, names, report.edges.entries())?;
    put_found(
        &mut members,
        alloc,
        "cycles",
        report.found.cycles.as_slice(),
        report.found.more,
    )?;
    let trim = trim_value(alloc, &report.trim)?;
    put(&mut members, alloc, "trim", trim)?;
    Ok(Value::Object(members))
}

// A value without floats as one line of compact text, ended by LF.
pub(crate) fn line_of(alloc: Global, value: &Value) -> Result<Vec<u8>, Memory>
    ensures { IfOk result
        (λ t. has_float (view value.now) ≡ false
        → t.items ≡ compact_text (view value.now) ++ codes "\n") }
{
    let mut text = value.to_string(alloc)?.into_bytes();
    text.push(b'\n')?;
    Ok(text)
}

/// The report as one line of compact JSON text, of format 2, ended by LF. Err where memory was
/// refused.
pub fn json_text(alloc: Global, names: &Names, report: &Report) -> Result<Vec<u8>, Memory>
    ensures { IfOk result
        (λ t. t.items ≡ compact_text (report_tree names.now report.now) ++ codes "\n") }
{
    let value = json(alloc, names, report)?;
    line_of(alloc, &value)
}
