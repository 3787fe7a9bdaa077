//! Findings as JSON of format 3.
ghost use Rattle.std.specs.Prelude.{◌≡◌, ◌++◌, codes, IfOk};
ghost use Rattle.serde_json.specs.View.{view};
ghost use Rattle.serde_json.specs.Written.{compact_text};
ghost use Rattle.gl_report.specs.Findings.{findings_tree};

use crate::report_members::{put_edges, put_found, put_question};
use crate::tree::line_of;
use gl_cycles::Found;
use gl_edges::EdgeList;
use gl_event::Memory;
use gl_filters::Query;
use gl_std::Names;
use serde_json::{Map, Value};
use std::alloc::Global;

/// Findings over these edges as a JSON value of format 3: what was asked, each edge once, for each finding the
/// positions of the edges of the cycle that shows it, and whether there are more. Names are text, with odd
/// bytes escaped. Err where memory was refused.
#[tactic(auto, unfolding(crate::specs::Findings::findings_tree))]
pub fn findings_json(
    alloc: Global,
    names: &Names,
    query: &Query,
    edges: &EdgeList,
    found: &Found,
) -> Result<Value, Memory>
    ensures { IfOk result
        (λ v. view v ≡ findings_tree names.now query.now edges.now found.now) }
{
    let mut members = Map::new(alloc);
    put_question(&mut members, alloc, 3, query)?;
    put_edges(&mut members, alloc, names, edges.entries())?;
    put_found(
        &mut members,
        alloc,
        "findings",
        found.cycles.as_slice(),
        found.more,
    )?;
    Ok(Value::Object(members))
}

/// Findings as one line of compact JSON text, of format 3, ended by LF. Err where memory was refused.
pub fn findings_json_text(
    alloc: Global,
    names: &Names,
    query: &Query,
    edges: &EdgeList,
    found: &Found,
) -> Result<Vec<u8>, Memory>
    ensures { IfOk result
        (λ t. t.items
        ≡ compact_text (findings_tree names.now query.now edges.now found.now) ++ codes "\n") }
{
    let value = findings_json(alloc, names, query, edges, found)?;
    line_of(alloc, &value)
}
