//! What a report says, held against its trace: the table, the cycles, the trim order.
ghost use Rattle.std.specs.Prelude.{◌≡◌, ◌≤◌, ◌⊎◌, ℕ, List, true, codes, is_some, length, map, IfErr, IfOk, OnOk};
ghost use Rattle.serde_json.specs.View.{view};
ghost use Rattle.gl_report.specs.Tree.{edge_tree};
ghost use Rattle.gl_segments.specs.Clocks.{is_before};
ghost use Rattle.gl_check.specs.Checked.{HasTable, HasWholeTrim, Holds, IsFaultOfTrim, IsFirstFalse, ShowsTable};
ghost use Rattle.gl_check.specs.Edges.{IsFirstDifference};
ghost use Rattle.gl_check.specs.Shape.{asked_in, format_in, is_report, items_under, listing_in, listings_in, trim_in};
ghost use Rattle.gl_check.specs.declared.faults.CheckFault.TheVariants.{Memory};

use crate::claims::trim_in;
use crate::cycles::Known;
use crate::edges::check_table;
use crate::faults::CheckFault;
use crate::fields::{Format, items_under, listing_of, listings_in};
use crate::reports::Checked;
use crate::signatures::classes_for;
use gl_cycles::removal_fault;
use serde_json::Value;
use std::alloc::Global;

impl Known<'_> {
    // Looks at the table, where the format has one.
    fn check_edges(&self, alloc: Global, value: &Value) -> Result<(), CheckFault>
        requires shaped { is_report (view value.now) ≡ true }
        requires format { self.now.format ≡ format_in (view value.now) }
        ensures ok { IfOk result
            (λ _. HasTable self.now.names.now self.now.edges.now (is_before self.now.order.now)
            (view value.now) (format_in (view value.now))) }
        ensures fault { IfErr result
            (λ fault. (fault ≡ Memory)
            ⊎ ((k : ℕ) × (fault ≡ CheckFault.Table k)
            × ShowsTable (format_in (view value.now))
            × IsFirstDifference (items_under (codes "edges") (view value.now))
            (map (edge_tree self.now.names.now) self.now.edges.now) k)) }
    {
        match self.format {
            Format::One => Ok(()),
            Format::Two | Format::Three => {
                let entries = items_under(value, "edges");
                check_table(alloc, self.names, self.edges.entries(), entries)
            }
        }
    }

    // Looks at the trim order, and whether there is one.
    fn check_trim(&self, alloc: Global, value: &Value) -> Result<bool, CheckFault>
        requires { self.now.query ≡ asked_in (view value.now) }
        ensures trimmed { IfOk result (λ trimmed. trimmed ≡ is_some (trim_in (view value.now))) }
        ensures whole { OnOk result
            (HasWholeTrim self.now.names.now self.now.edges.now (is_before self.now.order.now)
            (view value.now)) }
        ensures fault { IfErr result
            (IsFaultOfTrim self.now.names.now self.now.edges.now (is_before self.now.order.now)
            (view value.now)) }
    {
        let Some(removed) = trim_in(alloc, value)? else {
            return Ok(false);
        };
        let mode = self.query.mode();
        match removal_fault(alloc, self.edges, self.order, mode, removed.as_slice())? {
            Some(place) => Err(CheckFault::Trim(place)),
            None => Ok(true),
        }
    }

    /// Looks at all that a report says, in the order of its faults.
    pub(crate) fn check(&self, alloc: Global, value: &Value) -> Result<Checked, CheckFault>
        requires shaped { is_report (view value.now) ≡ true }
        requires format { self.now.format ≡ format_in (view value.now) }
        requires query { self.now.query ≡ asked_in (view value.now) }
        requires few { length (listings_in (format_in (view value.now)) (view value.now))
            ≤ 100000 }
        ensures ok { IfOk result
            (λ checked. (found : List (List ℕ))
            × Holds self.now.names.now self.now.edges.now (is_before self.now.order.now)
            (view value.now) found × (checked.listing ≡ listing_in (format_in (view value.now)))
            × (checked.cycles ≡ length found)
            × (checked.acyclic ≡ is_some (trim_in (view value.now)))) }
        ensures fault { IfErr result
            (IsFirstFalse self.now.names.now self.now.edges.now (is_before self.now.order.now)
            (view value.now)) }
    {
        self.check_edges(alloc, value)?;
        let listing = listing_of(self.format);
        let classes = classes_for(alloc, listing, self.edges.entries())?;
        let cycles = listings_in(self.format, value);
        let count = self.check_cycles(alloc, classes.as_slice(), cycles)?;
        let acyclic = self.check_trim(alloc, value)?;
        Ok(Checked {
            listing,
            cycles: count as u32,
            acyclic,
        })
    }
}
