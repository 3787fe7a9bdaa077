//! What a report says.
ghost use Rattle.std.specs.Prelude.{◌≡◌, false, true, None, is_none, length, map, option_map, ◌≤◌, IfOk, MatchOption};
ghost use Rattle.serde_json.specs.View.{view};
ghost use Rattle.gl_filters.specs.Asked.{first_out_of_range};
ghost use Rattle.gl_check.specs.Shape.{asked_in, format_in, is_report, listings_in, mode_under, number_told, order_of, trim_in};

use crate::fields::{
    Format, are_edges, are_listings, has_report_fields, items_under, listings_in, number_of,
    number_under,
};
use gl_event::Memory;
use gl_filters::{Mode, Query};
use serde_json::Value;
use std::alloc::Global;

/// The format that a report says it has, where it is 1, 2 or 3.
pub(crate) fn format_in(value: &Value) -> Format
    ensures { result ≡ format_in (view value.now) }
{
    let number = number_under(value, "format");
    if number == 1 {
        return Format::One;
    }
    if number == 3 {
        return Format::Three;
    }
    Format::Two
}

// The mode whose word stands under `mode`.
fn mode_under(value: &Value) -> Mode
    ensures { result ≡ mode_under (view value.now) }
{
    value
        .get("mode")
        .and_then(Value::as_str)
        .and_then(Mode::named)
        .unwrap_or(Mode::Basic)
}

// What was asked, where it is in its ranges.
fn query_in(value: &Value) -> Option<Query>
    ensures { MatchOption result
        (is_none (first_out_of_range (asked_in (view value.now))) ≡ false)
        (λ query. (query ≡ asked_in (view value.now)) × (first_out_of_range query ≡ None)) }
{
    let len = number_under(value, "len");
    let max = number_under(value, "max");
    if len > 16 || max > 100_000 {
        return None;
    }
    Query::new(mode_under(value), len as u32, max as u32).ok()
}

/// What was asked, or nothing where the value hasn't the shape of a report.
#[tactic(auto, unfolding(crate::specs::Shape::is_report))]
pub(crate) fn asked_of(value: &Value) -> Option<Query>
    ensures { MatchOption result (is_report (view value.now) ≡ false)
        (λ query. (is_report (view value.now) ≡ true) × (query ≡ asked_in (view value.now))
        × (length (listings_in (format_in (view value.now)) (view value.now)) ≤ 100000)) }
{
    let format = format_in(value);
    if !has_report_fields(format, value) {
        return None;
    }
    let query = query_in(value)?;
    let cycles = listings_in(format, value);
    let edges = items_under(value, "edges");
    if cycles.len() > query.max() as usize || !are_edges(edges) {
        return None;
    }
    if !are_listings(format, edges.len(), cycles) {
        return None;
    }
    Some(query)
}

// The whole numbers that these are.
fn numbers_of(alloc: Global, values: &[Value]) -> Result<Vec<usize>, Memory>
    ensures { IfOk result (λ numbers. numbers.items ≡ map number_told (map view values.now)) }
{
    let mut numbers = Vec::new(alloc);
    for value in values {
        numbers.push(number_of(value) as usize)?;
    }
    Ok(numbers)
}

// The numbers that the value lists, where it is an array.
fn order_of(alloc: Global, value: &Value) -> Result<Option<Vec<usize>>, Memory>
    ensures { IfOk result
        (λ order. option_map (λ numbers. numbers.items) order ≡ order_of (view value.now)) }
{
    match value.as_array() {
        Some(items) => Ok(Some(numbers_of(alloc, items.as_slice())?)),
        None => Ok(None),
    }
}

/// The trim order that is given, if there is one.
pub(crate) fn trim_in(alloc: Global, value: &Value) -> Result<Option<Vec<usize>>, Memory>
    ensures { IfOk result
        (λ order. option_map (λ numbers. numbers.items) order ≡ trim_in (view value.now)) }
{
    match value.get("trim") {
        Some(order) => order_of(alloc, order),
        None => Ok(None),
    }
}
