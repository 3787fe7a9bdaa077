//! Objects with exactly the keys that a format has.
ghost use Rattle.std.specs.Prelude.{◌≡◌, ◌&&◌, ℕ, ◌<◌, ◌^◌, List, ◌∷◌, codes, map, is_some};
ghost use Rattle.std.specs.List.{list_all};
ghost use Rattle.serde_json.specs.Find.{as_str};
ghost use Rattle.serde_json.specs.View.{view, members_view};
ghost use Rattle.gl_check.specs.declared.fields.Kind.{Kind};
ghost use Rattle.gl_check.specs.Shape.{edge_fields, edge_fields_v1, has_fields, have_fields, is_below, is_edge, is_letter, is_listing, is_member, is_of, items_in, items_under, listing_in, listings_in, number_told, number_under, report_fields};

use gl_filters::Mode;
use gl_findings::Listing;
use serde_json::{Map, Value};
use std::collections::btree_map::Iter;

/// The format of a report.
#[derive(Clone, Copy)]
pub(crate) enum Format {
    /// Cycles as arrays of edges, without modes.
    One,
    /// A table of all edges, with modes; cycles as arrays of positions in it, and a trim order.
    Two,
    /// A table of all edges, with modes; findings as arrays of positions in it.
    Three,
}

/// What is listed in a format.
pub(crate) fn listing_of(format: Format) -> Listing
    ensures { result ≡ listing_in format }
{
    match format {
        Format::One | Format::Two => Listing::Cycles,
        Format::Three => Listing::Findings,
    }
}

/// What stands under a key.
#[derive(Clone, Copy)]
pub(crate) enum Kind {
    /// A whole number below 2 to the power 32.
    Number,
    /// This number.
    Exactly(u32),
    /// A text.
    Name,
    /// An array of texts.
    Names,
    /// The letter for the mode of a lock.
    Letter,
    /// An array of such letters.
    Letters,
    /// The word for a mode.
    Word,
    /// True or false.
    Flag,
    /// An array.
    Array,
    /// Null, or an array of whole numbers below 2 to the power 32.
    Trim,
}

/// The items of an array, and none where it is no array.
pub(crate) fn items_in(value: &Value) -> &[Value]
    ensures { map view result.now ≡ items_in (view value.now) }
{
    match value.as_array() {
        Some(items) => items.as_slice(),
        None => &[],
    }
}

/// The items of the array under a key, and none where there is no array.
pub(crate) fn items_under<'a>(value: &'a Value, key: &str) -> &'a [Value]
    ensures { map view result.now ≡ items_under key.now (view value.now) }
{
    match value.get(key) {
        Some(items) => items_in(items),
        None => &[],
    }
}

/// What is listed: cycles, or for each finding the cycle that shows it.
pub(crate) fn listings_in(format: Format, value: &Value) -> &[Value]
    ensures { map view result.now ≡ listings_in format (view value.now) }
{
    match format {
        Format::One | Format::Two => items_under(value, "cycles"),
        Format::Three => items_under(value, "findings"),
    }
}

/// The whole number under a key, or 0.
pub(crate) fn number_under(value: &Value, key: &str) -> u64
    ensures { result ≡ number_under key.now (view value.now) }
{
    value.get(key).and_then(Value::as_u64).unwrap_or(0)
}

/// The whole number that the value is, or 0.
pub(crate) fn number_of(value: &Value) -> u64
    ensures { result ≡ number_told (view value.now) }
{
    value.as_u64().unwrap_or(0)
}

// Whether the value is a whole number below this one.
fn is_below(bound: u64, value: &Value) -> bool
    ensures { result ≡ is_below bound (view value.now) }
{
    value.as_u64().is_some_and(|number| number < bound)
}

// Whether the value is the letter for the mode of a lock.
fn is_letter(value: &Value) -> bool
    ensures { result ≡ is_letter (view value.now) }
{
    value
        .as_str()
        .is_some_and(|word| word == "x" || word == "s")
}

// Whether these are texts.
fn are_names(values: &[Value]) -> bool
    ensures { result ≡ list_all (λ name. is_some (as_str name)) (map view values.now) }
{
    for value in values {
        if !value.is_string() {
            return false;
        }
    }
    true
}

// Whether these are letters for modes of locks.
fn are_letters(values: &[Value]) -> bool
    ensures { result ≡ list_all is_letter (map view values.now) }
{
    for value in values {
        if !is_letter(value) {
            return false;
        }
    }
    true
}

// Whether these are whole numbers below 2 to the power 32.
fn are_numbers(values: &[Value]) -> bool
    ensures { result ≡ list_all (is_below (2 ^ 32)) (map view values.now) }
{
    for value in values {
        if !is_below(1 << 32, value) {
            return false;
        }
    }
    true
}

// Whether the value is of the kind.
fn is_of(kind: Kind, value: &Value) -> bool
    ensures { result ≡ is_of kind (view value.now) }
{
    match kind {
        Kind::Number => is_below(1 << 32, value),
        Kind::Exactly(wanted) => value.as_u64() == Some(u64::from(wanted)),
        Kind::Name => value.is_string(),
        Kind::Names => value.is_array() && are_names(items_in(value)),
        Kind::Letter => is_letter(value),
        Kind::Letters => value.is_array() && are_letters(items_in(value)),
        Kind::Word => value.as_str().and_then(Mode::named).is_some(),
        Kind::Flag => value.is_boolean(),
        Kind::Array => value.is_array(),
        Kind::Trim => value.is_null() || (value.is_array() && are_numbers(items_in(value))),
    }
}

// Whether the next member has this key and a value of this kind.
fn has_next(members: &mut Iter<'_, String, Value>, key: &str, kind: Kind) -> bool
    ensures { (fields : List (List ℕ × Kind))
        → have_fields ((key.now, kind) ∷ fields) (members_view members.old)
        ≡ (result && have_fields fields (members_view members.new)) }
{
    match members.next() {
        Some((name, value)) => name.as_str() == key && is_of(kind, value),
        None => false,
    }
}

// Whether the members that are left have exactly these keys, in this order, and under each a value of
// its kind.
fn have_fields(members: &mut Iter<'_, String, Value>, fields: &[(&str, Kind)]) -> bool
    ensures { result ≡ have_fields (map (λ field. (field.0.now, field.1)) fields.now)
        (members_view members.old) }
{
    match fields.split_first() {
        None => members.next().is_none(),
        Some((&(key, kind), rest)) => has_next(members, key, kind) && have_fields(members, rest),
    }
}

// Whether the value is an object with exactly these keys, which ascend, and under each a value of its
// kind.
fn has_fields(value: &Value, fields: &[(&str, Kind)]) -> bool
    ensures { result ≡ has_fields (map (λ field. (field.0.now, field.1)) fields.now)
        (view value.now) }
{
    match value.as_object() {
        Some(object) => have_fields(&mut object.iter(), fields),
        None => false,
    }
}

const EDGE_FIELDS_V1: [(&str, Kind); 9] = [
    ("first", Kind::Number),
    ("guards", Kind::Names),
    ("held", Kind::Name),
    ("held_at", Kind::Name),
    ("place", Kind::Number),
    ("second", Kind::Number),
    ("thread", Kind::Name),
    ("wanted", Kind::Name),
    ("wanted_at", Kind::Name),
];

const EDGE_FIELDS: [(&str, Kind); 12] = [
    ("first", Kind::Number),
    ("guard_modes", Kind::Letters),
    ("guards", Kind::Names),
    ("held", Kind::Name),
    ("held_at", Kind::Name),
    ("held_mode", Kind::Letter),
    ("place", Kind::Number),
    ("second", Kind::Number),
    ("thread", Kind::Name),
    ("wanted", Kind::Name),
    ("wanted_at", Kind::Name),
    ("wanted_mode", Kind::Letter),
];

const REPORT_FIELDS_V1: [(&str, Kind); 6] = [
    ("cycles", Kind::Array),
    ("format", Kind::Exactly(1)),
    ("len", Kind::Number),
    ("max", Kind::Number),
    ("mode", Kind::Word),
    ("more", Kind::Flag),
];

const REPORT_FIELDS: [(&str, Kind); 8] = [
    ("cycles", Kind::Array),
    ("edges", Kind::Array),
    ("format", Kind::Exactly(2)),
    ("len", Kind::Number),
    ("max", Kind::Number),
    ("mode", Kind::Word),
    ("more", Kind::Flag),
    ("trim", Kind::Trim),
];

const REPORT_FIELDS_V3: [(&str, Kind); 7] = [
    ("edges", Kind::Array),
    ("findings", Kind::Array),
    ("format", Kind::Exactly(3)),
    ("len", Kind::Number),
    ("max", Kind::Number),
    ("mode", Kind::Word),
    ("more", Kind::Flag),
];

/// Whether the value has the keys of a report of the format.
pub(crate) fn has_report_fields(format: Format, value: &Value) -> bool
    ensures { result ≡ has_fields (report_fields format) (view value.now) }
{
    match format {
        Format::One => has_fields(value, &REPORT_FIELDS_V1),
        Format::Two => has_fields(value, &REPORT_FIELDS),
        Format::Three => has_fields(value, &REPORT_FIELDS_V3),
    }
}

// Whether the value is an edge of formats 2 and 3.
fn is_edge(value: &Value) -> bool
    ensures { result ≡ is_edge (view value.now) }
{
    has_fields(value, &EDGE_FIELDS)
        && items_under(value, "guard_modes").len() == items_under(value, "guards").len()
}

/// Whether these are edges of formats 2 and 3.
pub(crate) fn are_edges(values: &[Value]) -> bool
    ensures { result ≡ list_all is_edge (map view values.now) }
{
    for value in values {
        if !is_edge(value) {
            return false;
        }
    }
    true
}

// Whether the value names an edge in a cycle: in format 1 it is the edge, in the others its position
// among so many.
fn is_member(format: Format, size: usize, value: &Value) -> bool
    ensures { result ≡ is_member format size (view value.now) }
{
    match format {
        Format::One => has_fields(value, &EDGE_FIELDS_V1),
        Format::Two | Format::Three => is_below(size as u64, value),
    }
}

// Whether these name edges.
fn are_members(format: Format, size: usize, values: &[Value]) -> bool
    ensures { result ≡ list_all (is_member format size) (map view values.now) }
{
    for value in values {
        if !is_member(format, size, value) {
            return false;
        }
    }
    true
}

// Whether the value is an array of what names edges.
fn is_listing(format: Format, size: usize, value: &Value) -> bool
    ensures { result ≡ is_listing format size (view value.now) }
{
    value.is_array() && are_members(format, size, items_in(value))
}

/// Whether these are arrays of what names edges.
pub(crate) fn are_listings(format: Format, size: usize, values: &[Value]) -> bool
    ensures { result ≡ list_all (is_listing format size) (map view values.now) }
{
    for value in values {
        if !is_listing(format, size, value) {
            return false;
        }
    }
    true
}
