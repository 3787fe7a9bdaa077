//! Listed cycles: which edges they name, and whether they are cycles that were asked for.
ghost use Rattle.std.specs.Prelude.{◌≡◌, true, map, length, ℕ, ◌⊎◌, List, IfOk, IfErr};
ghost use Rattle.std.specs.Bool.{Decides};
ghost use Rattle.std.specs.List.{list_all};
ghost use Rattle.serde_json.specs.View.{view};
ghost use Rattle.gl_segments.specs.Clocks.{is_before};
ghost use Rattle.gl_check.specs.Cycles.{AreCyclesOf, IsGreaterThanLast, IsCycleOf, IsFaultOf, IsFirstFault, IsFirstStrange};
ghost use Rattle.gl_check.specs.Edges.{NameEdges};
ghost use Rattle.gl_check.specs.Shape.{is_listing, is_member, items_in, listing_in};
ghost use Rattle.gl_check.specs.Signatures.{AreClassesFor, compared_by};
ghost use Rattle.gl_check.specs.declared.faults.CheckFault.TheVariants.{Memory};
ghost use Rattle.gl_check.specs.declared.fields.Format.TheVariants.{One};

use crate::edges::position_of;
use crate::faults::CheckFault;
use crate::fields::{Format, items_in, listing_of};
use crate::signatures::compared_by;
use gl_edges::{Edge, EdgeList, Sample};
use gl_filters::{Query, Verdict, judge};
use gl_segments::Order;
use gl_std::Names;
use serde_json::Value;
use std::alloc::Global;
use std::cmp::Ordering;

// The positions of the edges of a cycle, which has this number.
fn positions_of(
    alloc: Global,
    format: Format,
    names: &Names,
    table: &[(Edge, Sample)],
    number: usize,
    edges: &[Value],
) -> Result<Vec<usize>, CheckFault>
    requires { list_all (is_member format (length table.now)) (map view edges.now) ≡ true }
    ensures found { IfOk result
        (λ positions. NameEdges format names.now table.now (map view edges.now) positions.items) }
    ensures fault { IfErr result
        (λ fault. (fault ≡ Memory)
        ⊎ ((k : ℕ) × (fault ≡ CheckFault.Edge number k) × (format ≡ One)
        × IsFirstStrange format names.now table.now (map view edges.now) k)) }
{
    let mut positions = Vec::new(alloc);
    for k in 0..edges.len() {
        match position_of(alloc, format, names, table, &edges[k])? {
            Some(position) => positions.push(position)?,
            None => return Err(CheckFault::Edge(number, k)),
        }
    }
    Ok(positions)
}

// Whether the numbers are above those of the last list.
fn is_above(lists: &[Vec<usize>], numbers: &[usize]) -> bool
    ensures { Decides result (IsGreaterThanLast (map (λ v. v.items) lists.now) numbers.now) }
{
    match lists.last() {
        Some(last) => last.as_slice().cmp(numbers) == Ordering::Less,
        None => true,
    }
}

/// What a report is held against: the names and the edges of a trace, the order of its segments, the
/// format, and what was asked.
#[derive(Clone, Copy)]
pub(crate) struct Known<'a> {
    pub(crate) format: Format,
    pub(crate) names: &'a Names,
    pub(crate) edges: &'a EdgeList,
    pub(crate) order: &'a Order,
    pub(crate) query: Query,
}

impl Known<'_> {
    // The positions of the edges of a cycle, which has this number.
    fn check_cycle(
        &self,
        alloc: Global,
        number: usize,
        edges: &[Value],
    ) -> Result<Vec<usize>, CheckFault>
        requires { list_all (is_member self.now.format (length self.now.edges.now))
            (map view edges.now) ≡ true }
        ensures cycle { IfOk result
            (λ positions. IsCycleOf self.now.format self.now.names.now self.now.edges.now
            (is_before self.now.order.now) self.now.query (map view edges.now) positions.items) }
        ensures fault { IfErr result
            (λ fault. (found : List (List ℕ))
            → IsFaultOf self.now.format self.now.names.now self.now.edges.now
            (is_before self.now.order.now) self.now.query number found (map view edges.now) fault) }
    {
        let positions = positions_of(
            alloc,
            self.format,
            self.names,
            self.edges.entries(),
            number,
            edges,
        )?;
        match judge(&self.query, self.order, self.edges, positions.as_slice()) {
            Verdict::Valid => Ok(positions),
            verdict => Err(CheckFault::Verdict(number, verdict)),
        }
    }

    // What the cycle is compared by that comes after those which these are compared by.
    fn check_next(
        &self,
        alloc: Global,
        classes: &[usize],
        lists: &[Vec<usize>],
        edges: &[Value],
    ) -> Result<Vec<usize>, CheckFault>
        requires classes { AreClassesFor (listing_in self.now.format) self.now.edges.now
            classes.now }
        requires members { list_all (is_member self.now.format (length self.now.edges.now))
            (map view edges.now) ≡ true }
        ensures cycle { IfOk result
            (λ numbers. (positions : List ℕ)
            × IsCycleOf self.now.format self.now.names.now self.now.edges.now
            (is_before self.now.order.now) self.now.query (map view edges.now) positions
            × (numbers.items
            ≡ compared_by (listing_in self.now.format) self.now.edges.now positions)) }
        ensures above { IfOk result
            (λ numbers. IsGreaterThanLast (map (λ v. v.items) lists.now) numbers.items) }
        ensures fault { IfErr result
            (λ fault. (found : List (List ℕ))
            → map (compared_by (listing_in self.now.format) self.now.edges.now) found
            ≡ map (λ v. v.items) lists.now
            → IsFaultOf self.now.format self.now.names.now self.now.edges.now
            (is_before self.now.order.now) self.now.query (length lists.now) found
            (map view edges.now) fault) }
    {
        let number = lists.len();
        let positions = self.check_cycle(alloc, number, edges)?;
        let numbers = compared_by(alloc, listing_of(self.format), classes, positions)?;
        if !is_above(lists, numbers.as_slice()) {
            return Err(CheckFault::Order(number));
        }
        Ok(numbers)
    }

    /// Looks at each listed cycle, and at whether they ascend. How many they are.
    pub(crate) fn check_cycles(
        &self,
        alloc: Global,
        classes: &[usize],
        cycles: &[Value],
    ) -> Result<usize, CheckFault>
        requires classes { AreClassesFor (listing_in self.now.format) self.now.edges.now
            classes.now }
        requires listings { list_all (is_listing self.now.format (length self.now.edges.now))
            (map view cycles.now) ≡ true }
        ensures cycles { IfOk result
            (λ count. (found : List (List ℕ))
            × AreCyclesOf self.now.format self.now.names.now self.now.edges.now
            (is_before self.now.order.now) self.now.query
            (map (λ cycle. items_in (view cycle)) cycles.now) found × (count ≡ length found)) }
        ensures fault { IfErr result
            (λ fault. (fault ≡ Memory)
            ⊎ IsFirstFault self.now.format self.now.names.now self.now.edges.now
            (is_before self.now.order.now) self.now.query
            (map (λ cycle. items_in (view cycle)) cycles.now) fault) }
    {
        let mut lists = Vec::new(alloc);
        for i in 0..cycles.len() {
            let edges = items_in(&cycles[i]);
            let numbers = self.check_next(alloc, classes, lists.as_slice(), edges)?;
            lists.push(numbers)?;
        }
        Ok(lists.len())
    }
}
