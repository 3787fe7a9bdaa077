//! Checks of reports.
ghost use Rattle.std.specs.Prelude.{◌≡◌, ◌≤◌, ◌⊎◌, ℕ, true, List, None, Some, is_some, length, IfOk, IfErr, IsUtf8};
ghost use Rattle.serde_json.specs.Read.{read};
ghost use Rattle.serde_json.specs.View.{view};
ghost use Rattle.gl_event.specs.Bounds.{greatest};
ghost use Rattle.gl_event.specs.Lawful.{AreLawful};
ghost use Rattle.gl_event.specs.declared.events.Event.{Event};
ghost use Rattle.gl_segments.specs.Orders.{IsFaultOf};
ghost use Rattle.gl_check.specs.Faults.{listing_word};
ghost use Rattle.gl_check.specs.Checked.{HoldsOf, IsChecked, IsCheckFault, IsFalseOf, IsOrderFault, Reads};
ghost use Rattle.gl_check.specs.Shape.{asked_in, format_in, is_report, listing_in, listings_in, trim_in};
ghost use Rattle.gl_check.specs.declared.faults.CheckFault.TheVariants.{Json, Memory};

use crate::claims::{asked_of, format_in};
use crate::cycles::Known;
use crate::faults::CheckFault;
use gl_edges::edges_of;
use gl_event::Event;
use gl_filters::Query;
use gl_findings::Listing;
use gl_segments::{Order, OrderFault};
use gl_std::Trace;
use serde_json::Value;
use std::alloc::Global;
use std::fmt;

/// What was found of a report that is accepted.
#[derive(Clone, Copy, Debug, PartialEq, Eq)]
pub struct Checked {
    /// What it lists.
    pub listing: Listing,
    /// How many cycles it lists; of findings each is shown by one.
    pub cycles: u32,
    /// Whether it has a trim order. Then the trace has no cycle of the mode, of whatever length.
    pub acyclic: bool,
}

// The word for what is listed.
fn word_of(listing: Listing) -> &'static str
    ensures { result.now ≡ listing_word listing }
{
    match listing {
        Listing::Cycles => "cycles",
        Listing::Findings => "findings",
    }
}

impl fmt::Display for Checked {
    ghost use Rattle.std.specs.Prelude.{Some};
    ghost use Rattle.gl_check.specs.Faults.{checked_text};

    ghost output = { λ checked. Some (checked_text checked) };

    fn fmt<W: fmt::Write>(&self, f: &mut fmt::Formatter<W>) -> fmt::Result {
        let word = word_of(self.listing);
        if self.acyclic {
            return write!(f, "ok, {}: {}, none of any length", word, self.cycles);
        }
        write!(f, "ok, {}: {}", word, self.cycles)
    }
}

// The JSON of these bytes.
fn value_of(alloc: Global, json: &[u8]) -> Result<Value, CheckFault>
    ensures ok { IfOk result (λ value. Reads json.now (view value)) }
    ensures fault { IfErr result
        (λ fault. (fault ≡ Memory)
        ⊎ ((fault ≡ Json) × (IsUtf8 json.now → read json.now ≡ None))) }
{
    match Value::from_slice(alloc, json) {
        Ok(value) => Ok(value),
        Err(error) => {
            if error.is_memory() {
                return Err(CheckFault::Memory);
            }
            Err(CheckFault::Json)
        }
    }
}

// Why there is no order of segments.
fn no_order(fault: OrderFault) -> CheckFault
    ensures { (lists : List (List Event)) → IsFaultOf lists fault → IsOrderFault lists result }
{
    match fault {
        OrderFault::Inconsistent { at, ring } => CheckFault::Inconsistent { at, ring },
        OrderFault::Memory => CheckFault::Memory,
    }
}

// What is found of a value that has the shape of a report.
fn checked_of(
    alloc: Global,
    trace: &Trace,
    value: &Value,
    query: Query,
) -> Result<Checked, CheckFault>
    requires lawful { AreLawful greatest trace.now.lists }
    requires shaped { is_report (view value.now) ≡ true }
    requires query { query ≡ asked_in (view value.now) }
    requires cycles { length (listings_in (format_in (view value.now)) (view value.now))
        ≤ 100000 }
    ensures ok { IfOk result
        (λ checked. (found : List (List ℕ)) × HoldsOf trace.now (view value.now) found
        × (checked.listing ≡ listing_in (format_in (view value.now)))
        × (checked.cycles ≡ length found)
        × (checked.acyclic ≡ is_some (trim_in (view value.now)))) }
    ensures fault { IfErr result
        (λ fault. IsOrderFault trace.now.lists fault
        ⊎ IsFalseOf trace.now (view value.now) fault) }
{
    let lists = trace.lists.as_slice();
    let order = match Order::of(alloc, lists) {
        Ok(order) => order,
        Err(fault) => return Err(no_order(fault)),
    };
    let edges = edges_of(alloc, lists)?;
    let known = Known {
        format: format_in(value),
        names: &trace.names,
        edges: &edges,
        order: &order,
        query,
    };
    known.check(alloc, value)
}

/// Whether a report can be believed, whoever made it: the bytes are JSON of format 1, 2 or 3, and what
/// they say holds of the trace.
///
/// A report that is accepted is, but for spaces and the order of keys, what is printed of a report over
/// the trace's own edges, each with its own sample: each listed cycle is a cycle of the mode and length
/// that the report names, and the list ascends. Where it has a trim order, that takes away each edge,
/// one by one, and then the trace has no cycle of the mode, of whatever length. What is not checked is
/// whether there are more cycles than those of a list. Format 1 shows no lock modes; an edge in it
/// stands for one whose locks are all held and wanted exclusively.
///
/// Format 3 lists findings: each is shown by such a cycle, and the list ascends by the signatures of the
/// findings, each told from where it begins least, so that no finding is told twice. What is not checked
/// is whether there are more findings, and whether a finding has a cycle before the one that shows it.
///
/// Err with the first fault, in the order of [`CheckFault`]: all of one kind are looked for before
/// those of the next, but edge, verdict and order for each cycle in turn.
///
/// Beside the order and the edges of the trace, format 2 takes the print of each edge, once, and for
/// each edge of the trim order a look at the edges that hold the lock which it wants and at those that
/// want the lock which it holds. Format 3 takes the print of each edge and two look-ups of its places,
/// once, and for each finding as many turns of its signature as its cycle has edges, each copied and
/// compared. Format 1 takes a look at each edge of the trace for each listed one.
pub fn check(alloc: Global, trace: &Trace, json: &[u8]) -> Result<Checked, CheckFault>
    requires lawful { AreLawful greatest trace.now.lists }
    ensures checked { IfOk result (IsChecked trace.now json.now) }
    ensures fault { IfErr result (IsCheckFault trace.now json.now) }
{
    let value = value_of(alloc, json)?;
    let Some(query) = asked_of(&value) else {
        return Err(CheckFault::Shape);
    };
    checked_of(alloc, trace, &value, query)
}
