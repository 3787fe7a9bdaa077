//! What is counted of the edges' classes, where it is printed.
ghost use Rattle.std.specs.Prelude.{◌≡◌, [], ◌++◌, slice_get, IfOk, OnOk};
ghost use Rattle.std.specs.Option.{option_map_or};
ghost use Rattle.gl_report.specs.Text.{counts_line};
ghost use Rattle.gl_report.specs.bodies.Counted.{listed_counts};

use crate::number::put_number;
use gl_edges::{Edge, Sample};
use gl_event::Memory;
use gl_findings::{ClassCounts, Listing, class_counts};
use std::alloc::Global;

/// What is counted of the class of each edge, where findings are listed. Of cycles nothing is counted.
pub(crate) fn counts_listed(
    alloc: Global,
    listing: Listing,
    table: &[(Edge, Sample)],
) -> Result<Vec<ClassCounts>, Memory>
    ensures { IfOk result (λ counts. counts.items ≡ listed_counts listing table.now) }
{
    match listing {
        Listing::Cycles => Ok(Vec::new(alloc)),
        Listing::Findings => class_counts(alloc, table),
    }
}

// Adds the line of the counts.
fn put_counts_line(out: &mut Vec<u8>, counts: &ClassCounts) -> Result<(), Memory>
    ensures { OnOk result (out.new.items ≡ out.old.items ++ counts_line counts.now) }
{
    out.extend_from_slice(b"    threads: ")?;
    put_number(out, counts.threads as u64)?;
    out.extend_from_slice(b", locks: ")?;
    put_number(out, counts.locks as u64)?;
    out.extend_from_slice(b"\n")?;
    Ok(())
}

/// Adds the line of the counts at a position, if there are any.
pub(crate) fn put_counts(
    out: &mut Vec<u8>,
    counts: &[ClassCounts],
    position: usize,
) -> Result<(), Memory>
    ensures { OnOk result
        (out.new.items
        ≡ out.old.items ++ option_map_or counts_line (slice_get counts.now position) []) }
{
    if position >= counts.len() {
        return Ok(());
    }
    put_counts_line(out, &counts[position])
}
