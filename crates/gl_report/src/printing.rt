//! The text report.
ghost use Rattle.std.specs.Prelude.{◌≡◌, ◌+◌, ◌≤◌, ◌^◌, ◌<◌, List, ℕ, [], ◌++◌, codes, decimal, length, slice_get, map, IfOk, OnOk};
ghost use Rattle.std.specs.List.{filter_map, flat_map};
ghost use Rattle.std.specs.Option.{option_map_or};
ghost use Rattle.gl_findings.specs.declared.listing.Listing.{Listing};
ghost use Rattle.gl_report.specs.bodies.Counted.{listed_counts};
ghost use Rattle.gl_report.specs.Text.{name_of, held_text, wanted_text, edge_line, edge_text, cycle_line, cycle_text, cycles_text, last_line, listing_text, report_text, findings_text};

use crate::counted::{counts_listed, put_counts};
use crate::number::put_number;
use crate::words::{all_word, one_word};
use gl_cycles::{Found, Report};
use gl_edges::{Edge, EdgeList, Sample};
use gl_event::{LocId, LockId, Memory, ThreadId};
use gl_findings::{ClassCounts, Listing};
use gl_std::Names;
use std::alloc::Global;

/// The thread's name, or nothing where the number has none.
pub fn thread_name(names: &Names, thread: ThreadId) -> &[u8]
    ensures { result.now ≡ name_of names.now.threads thread }
{
    if thread.number() < names.threads() {
        return names.thread(thread);
    }
    &[]
}

// The lock's name, or nothing where the number has none.
pub(crate) fn lock_name(names: &Names, lock: LockId) -> &[u8]
    ensures { result.now ≡ name_of names.now.locks lock }
{
    if lock.number() < names.locks() {
        return names.lock(lock);
    }
    &[]
}

// The location's name, or nothing where the number has none.
pub(crate) fn loc_name(names: &Names, loc: LocId) -> &[u8]
    ensures { result.now ≡ name_of names.now.locs loc }
{
    if loc.number() < names.locs() {
        return names.loc(loc);
    }
    &[]
}

// Adds who holds what since where.
fn put_held(out: &mut Vec<u8>, names: &Names, edge: &Edge, sample: &Sample) -> Result<(), Memory>
    ensures { OnOk result
        (out.new.items ≡ out.old.items ++ held_text names.now (edge.now, sample.now)) }
{
    out.extend_from_slice(b"  ")?;
    out.extend_from_slice(thread_name(names, edge.thread))?;
    out.extend_from_slice(b" holds ")?;
    out.extend_from_slice(lock_name(names, edge.held))?;
    out.extend_from_slice(b" since ")?;
    out.extend_from_slice(loc_name(names, sample.held_loc))?;
    Ok(())
}

// Adds what is wanted, and at which place.
fn put_wanted(out: &mut Vec<u8>, names: &Names, edge: &Edge, sample: &Sample) -> Result<(), Memory>
    ensures { OnOk result
        (out.new.items ≡ out.old.items ++ wanted_text names.now (edge.now, sample.now)) }
{
    out.extend_from_slice(b" wants ")?;
    out.extend_from_slice(lock_name(names, edge.wanted))?;
    out.extend_from_slice(b" at ")?;
    out.extend_from_slice(loc_name(names, sample.wanted_loc))?;
    out.extend_from_slice(b"\n")?;
    Ok(())
}

// Adds the line of the edge at a position.
fn put_edge(
    out: &mut Vec<u8>,
    names: &Names,
    table: &[(Edge, Sample)],
    position: usize,
) -> Result<(), Memory>
    ensures { OnOk result
        (out.new.items
        ≡ out.old.items ++ option_map_or (edge_line names.now)
        (slice_get table.now position) []) }
{
    if position >= table.len() {
        return Ok(());
    }
    let pair = &table[position];
    put_held(out, names, &pair.0, &pair.1)?;
    put_wanted(out, names, &pair.0, &pair.1)?;
    Ok(())
}

// Adds what is printed of the edge at a position: its line, and that of its counts if there are any.
fn put_edge_text(
    out: &mut Vec<u8>,
    names: &Names,
    table: &[(Edge, Sample)],
    counts: &[ClassCounts],
    position: usize,
) -> Result<(), Memory>
    ensures { (listing : Listing) → counts.now ≡ listed_counts listing table.now
        → OnOk result (out.new.items ≡ out.old.items ++ option_map_or
        (edge_text listing names.now table.now) (slice_get table.now position) []) }
{
    put_edge(out, names, table, position)?;
    put_counts(out, counts, position)?;
    Ok(())
}

// Adds the line that begins a cycle.
fn put_cycle_line(
    out: &mut Vec<u8>,
    listing: Listing,
    number: usize,
    size: usize,
) -> Result<(), Memory>
    ensures { OnOk result (out.new.items ≡ out.old.items ++ cycle_line listing number size) }
{
    out.extend_from_slice(one_word(listing))?;
    put_number(out, number as u64)?;
    out.extend_from_slice(b": ")?;
    put_number(out, size as u64)?;
    out.extend_from_slice(b" edges\n")?;
    Ok(())
}

// Adds a cycle with its edges.
fn put_cycle(
    out: &mut Vec<u8>,
    listing: Listing,
    names: &Names,
    table: &[(Edge, Sample)],
    counts: &[ClassCounts],
    number: usize,
    cycle: &[usize],
) -> Result<(), Memory>
    requires { counts.now ≡ listed_counts listing table.now }
    ensures { OnOk result
        (out.new.items
        ≡ out.old.items ++ cycle_text listing names.now table.now number cycle.now) }
{
    put_cycle_line(out, listing, number, cycle.len())?;
    for &position in cycle {
        put_edge_text(out, names, table, counts, position)?;
    }
    Ok(())
}

// Adds the last line.
fn put_last_line(
    out: &mut Vec<u8>,
    listing: Listing,
    count: usize,
    more: bool,
) -> Result<(), Memory>
    ensures { OnOk result (out.new.items ≡ out.old.items ++ last_line listing count more) }
{
    out.extend_from_slice(all_word(listing))?;
    put_number(out, count as u64)?;
    if more {
        out.extend_from_slice(b" (more)\n")?;
        return Ok(());
    }
    out.extend_from_slice(b"\n")?;
    Ok(())
}

// The text of what is listed: for each a line that numbers it, and what is printed of each of its edges;
// then how many are listed, and whether there are more.
fn listing_text(
    alloc: Global,
    listing: Listing,
    names: &Names,
    edges: &EdgeList,
    found: &Found,
) -> Result<Vec<u8>, Memory>
    ensures { IfOk result
        (λ t. t.items
        ≡ listing_text listing names.now edges.now found.now.cycles found.now.more) }
{
    let mut out = Vec::new(alloc);
    let table = edges.entries();
    let counts = counts_listed(alloc, listing, table)?;
    let cycles = found.cycles.as_slice();
    for (i, cycle) in cycles.iter().enumerate() {
        put_cycle(
            &mut out,
            listing,
            names,
            table,
            &counts,
            i + 1,
            cycle.as_slice(),
        )?;
    }
    put_last_line(&mut out, listing, cycles.len(), found.more)?;
    Ok(out)
}

/// The text of a report, with the names of threads, locks and locations as their bytes.
///
/// For each listed cycle a line that numbers it, and a line for each of its edges; then how many
/// cycles are listed, and whether there are more. Err where memory was refused.
pub fn text(alloc: Global, names: &Names, report: &Report) -> Result<Vec<u8>, Memory>
    ensures { IfOk result
        (λ t. t.items
        ≡ report_text names.now report.now.edges report.now.found.cycles report.now.found.more) }
{
    listing_text(alloc, Listing::Cycles, names, &report.edges, &report.found)
}

/// The text of findings over these edges, with the names of threads, locks and locations as their bytes.
///
/// For each listed finding a line that numbers it, and for each edge of the cycle that shows it a line, and one
/// that tells how many threads made the edges of its class, and how many locks these hold or want; then how
/// many findings are listed, and whether there are more. All edges are looked at, for the counts. Err where
/// memory was refused.
pub fn findings_text(
    alloc: Global,
    names: &Names,
    edges: &EdgeList,
    found: &Found,
) -> Result<Vec<u8>, Memory>
    ensures { IfOk result
        (λ t. t.items ≡ findings_text names.now edges.now found.now.cycles found.now.more) }
{
    listing_text(alloc, Listing::Findings, names, edges, found)
}
