//! Spans: between which ends chains of models lead.
//!
//! A front of three classes that lead on to each other mostly has no walk: where each has models on many locks,
//! those that the first two classes have in a row want other locks than the third one's hold. What a chain of models leaves open
//! is its two ends, what its first edge holds and what its last one wants. With these, what can come next is looked up by
//! its lock, and whether a chain goes round is seen at once, where a search for a walk would begin anew for each class.
ghost use Rattle.std.specs.Prelude.{◌≡◌, ◌<◌, ◌≤◌, [], ℕ, true, false, nat_le, nat_lt, length, Contains, IfOk, OnOk};
ghost use Rattle.std.specs.List.{between};
ghost use Rattle.std.specs.List.Sorted.{IsNonDecreasingBy, IsPartitionPoint};
ghost use Rattle.gl_filters.specs.Picked.{edges_of_table};
ghost use Rattle.gl_filters.specs.declared.query.Mode.{Mode};
ghost use Rattle.gl_grounds.specs.Spanning.{AreInOrder, AreReached, HasModelsBefore, KeepSpans, StayIn, goes_on, is_round, longer_span, span_of};

use gl_edges::{Edge, Sample};
use gl_event::{LockId, LockMode, Memory};
use gl_filters::waits_for;
use std::alloc::Global;

// Up to how many edges each two of a chain stand side by side, or at both ends.
const EXACT: usize = 3;

/// The ends of a chain of models: where its first edge and its last one stand, what the first holds, and what the last wants.
/// And the class of the last.
#[derive(Clone, Copy)]
pub struct Span {
    pub first: usize,
    pub last: usize,
    pub held: LockId,
    pub held_mode: LockMode,
    pub wanted: LockId,
    pub wanted_mode: LockMode,
    pub class: usize,
}

impl Span {
    // The span of a chain of one edge.
    fn of(place: usize, edge: &Edge, class: usize) -> Span
        ensures { result ≡ span_of place place edge.now edge.now class }
    {
        Span {
            first: place,
            last: place,
            held: edge.held,
            held_mode: edge.held_mode,
            wanted: edge.wanted,
            wanted_mode: edge.wanted_mode,
            class,
        }
    }

    /// The span of a chain that is longer by the edge of a class at a place.
    pub fn longer(&self, place: usize, edge: &Edge, class: usize) -> Span
        ensures { result ≡ longer_span self.now place edge.now class }
    {
        Span {
            first: self.first,
            last: place,
            held: self.held,
            held_mode: self.held_mode,
            wanted: edge.wanted,
            wanted_mode: edge.wanted_mode,
            class,
        }
    }

    /// Whether the last edge of a chain leads on to this one.
    pub fn goes_on(&self, edge: &Edge) -> bool
        ensures { result ≡ goes_on self.now edge.now }
    {
        waits_for(self.wanted, self.wanted_mode, edge.held, edge.held_mode)
    }

    /// Whether a chain leads back to where it begins.
    pub fn is_round(&self) -> bool
        ensures { result ≡ is_round self.now }
    {
        waits_for(self.wanted, self.wanted_mode, self.held, self.held_mode)
    }
}

/// The spans of some chains, or of all of them where these aren't too many to look at.
#[derive(Drop)]
pub struct Spans {
    pub list: Vec<Span>,
    pub are_all: bool,
}

impl Spans {
    /// Those of single models, by their classes.
    pub(crate) fn of_models(
        alloc: Global,
        table: &[(Edge, Sample)],
        classes: &[usize],
        flags: &[bool],
    ) -> Result<Spans, Memory>
        requires classes { length classes.now ≡ length table.now }
        requires flags { length flags.now ≡ length table.now }
        ensures { IfOk result
            (λ spans. (mode : Mode) (len : ℕ)
            → AreReached mode (edges_of_table table.now) classes.now flags.now len [] spans) }
    {
        let mut list = spans_of_models(alloc, table, classes, flags)?;
        sort(&mut list);
        let are_all = true;
        Ok(Spans { list, are_all })
    }

    /// Where nothing is known.
    pub fn unknown(alloc: Global) -> Spans
        ensures unknown { result.are_all ≡ false }
        ensures ordered { AreInOrder result }
    {
        Spans {
            list: Vec::new(alloc),
            are_all: false,
        }
    }

    /// Adds a span.
    pub fn add(&mut self, span: Span) -> Result<(), Memory>
        ensures keep { OnOk result (KeepSpans self.old self.new) }
        ensures added { OnOk result (Contains self.new.list.items span) }
    {
        self.list.push(span)?;
        Ok(())
    }

    /// Puts them in order of their classes.
    pub fn sort(&mut self)
        ensures keep { KeepSpans self.old self.new }
        ensures ordered { AreInOrder self.new }
    {
        sort(&mut self.list);
    }

    /// The least class of a span, from this one on; `size` where none below it is.
    pub fn next_class(&self, from: usize, size: usize) -> usize
        requires ordered { AreInOrder self.now }
        requires within { from ≤ size }
        ensures from { from ≤ result }
        ensures within { result ≤ size }
        ensures skipped { (span : Span) → Contains self.now.list.items span
            → from ≤ span.class → ¬ (span.class < result) }
    {
        let place = count_below(&self.list, from);
        if place >= self.list.len() {
            return size;
        }
        self.list[place].class.min(size)
    }

    /// Those of a class.
    pub fn of_class(&self, alloc: Global, class: usize) -> Result<Spans, Memory>
        requires ordered { AreInOrder self.now }
        ensures all { IfOk result (λ spans. spans.are_all ≡ self.now.are_all) }
        ensures has { IfOk result
            (λ spans. (span : Span) → Contains self.now.list.items span → span.class ≡ class
            → Contains spans.list.items span) }
    {
        let begin = count_below(&self.list, class);
        let end = count_through(&self.list, class);
        let list = copied(alloc, &self.list, begin, end)?;
        let are_all = self.are_all;
        Ok(Spans { list, are_all })
    }

    /// Whether for a front of so many classes these say all that a search for a walk would: each two edges of its chains stand side
    /// by side, or at both ends.
    pub fn are_exact(&self, len: usize) -> bool {
        self.are_all && len <= EXACT
    }
}

// The spans from a place up to another one.
fn copied(alloc: Global, list: &[Span], begin: usize, end: usize) -> Result<Vec<Span>, Memory>
    requires order { begin ≤ end }
    requires bound { end ≤ length list.now }
    ensures { IfOk result (λ part. part.items ≡ between begin end list.now) }
{
    Vec::from_slice(alloc, &list[begin..end])
}

// The spans of single models.
fn spans_of_models(
    alloc: Global,
    table: &[(Edge, Sample)],
    classes: &[usize],
    flags: &[bool],
) -> Result<Vec<Span>, Memory>
    requires classes { length classes.now ≡ length table.now }
    requires flags { length flags.now ≡ length table.now }
    ensures { IfOk result
        (λ list. HasModelsBefore (edges_of_table table.now) classes.now flags.now
        (length table.now) list.items) }
{
    let mut list = Vec::new(alloc);
    for i in 0..table.len() {
        add_model(&mut list, flags[i], i, &table[i].0, classes[i])?;
    }
    Ok(list)
}

// Adds the span of the edge of a class at a place, if it is flagged.
fn add_model(
    list: &mut Vec<Span>,
    is_flagged: bool,
    place: usize,
    edge: &Edge,
    class: usize,
) -> Result<(), Memory>
    ensures keep { OnOk result (StayIn list.old.items list.new.items) }
    ensures added { OnOk result
        (is_flagged ≡ true
        → Contains list.new.items (span_of place place edge.now edge.now class)) }
{
    if !is_flagged {
        return Ok(());
    }
    list.push(Span::of(place, edge, class))?;
    Ok(())
}

// Puts spans in order of their classes.
fn sort(list: &mut Vec<Span>)
    ensures keep { StayIn list.old.items list.new.items }
    ensures ordered { IsNonDecreasingBy (λ span. span.class) list.new.items }
{
    list.sort_unstable_by_key(|span| span.class);
}

// How many spans, which stand in order of their classes, are of one before this class.
fn count_below(list: &[Span], class: usize) -> usize
    requires { IsNonDecreasingBy (λ (span : Span). span.class) list.now }
    ensures bound { result ≤ length list.now }
    ensures parted { IsPartitionPoint (λ span. nat_lt span.class class ≡ true)
        (λ span. nat_lt span.class class ≡ false) list.now result }
{
    list.partition_point(|span| span.class < class)
}

// How many are of one before this class, or of it.
fn count_through(list: &[Span], class: usize) -> usize
    requires { IsNonDecreasingBy (λ (span : Span). span.class) list.now }
    ensures bound { result ≤ length list.now }
    ensures parted { IsPartitionPoint (λ span. nat_le span.class class ≡ true)
        (λ span. nat_le span.class class ≡ false) list.now result }
{
    list.partition_point(|span| span.class <= class)
}
