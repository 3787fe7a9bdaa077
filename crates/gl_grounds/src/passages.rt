//! Which classes lead on to which.
//!
//! Each edge of a cycle leads on to the next one, and the last one to the first. So no cycle goes from a class to another
//! one to none of whose edges any of its own leads on. A server runs few pieces of code on many locks: most signatures that might
//! be tried end so, each after one look-up, where a search for a walk would go along all paths of the classes before.
ghost use Rattle.std.specs.Prelude.{◌≡◌, ◌+◌, ◌<◌, ℕ, true, length, slice_get, IsTrue, IfOk, OnOk};
ghost use Rattle.gl_filters.specs.Picked.{edges_of_table};
ghost use Rattle.gl_index.specs.Indexes.{AreChainedKept};
ghost use Rattle.gl_index.specs.declared.sides.Side.TheVariants.{Leader};
ghost use Rattle.gl_grounds.specs.Passing.{may_pass, stay, ArePassages, ArePassagesBefore, LeadLikewise, LeadsOnlyBy};

use gl_edges::{Edge, Sample};
use gl_event::{LockId, Memory};
use gl_filters::leads_on;
use gl_index::{Chain, Side};
use std::alloc::Global;
use std::collections::{HashMap, HashSet};

// How many followers are looked at for each edge at most, taken together, and how many in all.
const LOOKS: usize = 64;

const MOST_LOOKS: usize = 1_000_000;

/// The pairs of classes of which the one has an edge that leads on to one of the other. Where these are too many to look
/// at, any may.
#[derive(Drop)]
pub struct Passages {
    pub pairs: HashSet<(usize, usize)>,
    pub are_all: bool,
}

impl Passages {
    /// Those of edges that are flagged. Five look-ups for each of them, and one for each follower that is looked at.
    pub(crate) fn of(
        alloc: Global,
        table: &[(Edge, Sample)],
        classes: &[usize],
        flags: &[bool],
    ) -> Result<Passages, Memory>
        requires classes { length classes.now ≡ length table.now }
        requires flags { length flags.now ≡ length table.now }
        ensures { IfOk result
            (λ passages. ArePassages (edges_of_table table.now) classes.now flags.now passages) }
    {
        let holders = Chain::of_kept(alloc, table, Side::Leader, flags)?;
        let mut like = HashMap::new(alloc);
        let mut looks = table.len().saturating_mul(LOOKS).min(MOST_LOOKS);
        let mut passages = Passages {
            pairs: HashSet::new(alloc),
            are_all: true,
        };
        for i in 0..table.len() {
            let first = first_like(&mut like, classes[i], table[i].0.wanted, i)?;
            passages.add(table, classes, flags, &holders, &mut looks, first, i)?;
        }
        Ok(passages)
    }

    /// Whether an edge of the one class may lead on to one of the other, as far as that is known.
    pub fn may_pass(&self, one: usize, other: usize) -> bool
        ensures { result ≡ may_pass self.now one other }
    {
        !self.are_all || self.pairs.contains(&(one, other))
    }

    // Adds those of the edge at a position, if it is flagged, and the one before that may be like it isn't.
    fn add(
        &mut self,
        table: &[(Edge, Sample)],
        classes: &[usize],
        flags: &[bool],
        holders: &Chain,
        looks: &mut usize,
        first: usize,
        i: usize,
    ) -> Result<(), Memory>
        requires there { i < length table.now }
        requires classes { length classes.now ≡ length table.now }
        requires flags { length flags.now ≡ length table.now }
        requires holders { AreChainedKept Leader (edges_of_table table.now) flags.now 0
            holders.now }
        requires before { ArePassagesBefore (edges_of_table table.now) classes.now flags.now i
            self.old }
        ensures { OnOk result
            (ArePassagesBefore (edges_of_table table.now) classes.now flags.now (i + 1) self.new) }
    {
        if !flags[i] || leads_likewise(table, classes, flags, first, i) {
            return Ok(());
        }
        self.add_from(table, classes, flags, holders, looks, i)?;
        Ok(())
    }

    // Adds those of the edge at a position.
    fn add_from(
        &mut self,
        table: &[(Edge, Sample)],
        classes: &[usize],
        flags: &[bool],
        holders: &Chain,
        looks: &mut usize,
        i: usize,
    ) -> Result<(), Memory>
        requires there { i < length table.now }
        requires classes { length classes.now ≡ length table.now }
        requires flags { length flags.now ≡ length table.now }
        requires holders { AreChainedKept Leader (edges_of_table table.now) flags.now 0
            holders.now }
        ensures stay { OnOk result (stay self.old self.new) }
        ensures added { OnOk result
            (LeadsOnlyBy (edges_of_table table.now) classes.now flags.now self.new i) }
    {
        let edge = &table[i].0;
        let mut next = holders.begin(edge.wanted);
        while let Some(other) = next {
            if *looks == 0 {
                self.are_all = false;
                return Ok(());
            }
            *looks -= 1;
            if leads_on(edge, &table[other].0) {
                self.note(classes[i], classes[other])?;
            }
            next = holders.after(other);
        }
        Ok(())
    }

    // Adds a pair of classes.
    fn note(&mut self, one: usize, other: usize) -> Result<(), Memory>
        ensures stay { OnOk result (stay self.old self.new) }
        ensures noted { OnOk result (may_pass self.new one other ≡ true) }
    {
        self.pairs.insert((one, other))?;
        Ok(())
    }
}

// The first position that is known for edges of this class that want this lock, or else this one, which then is.
fn first_like(
    like: &mut HashMap<(usize, LockId), usize>,
    class: usize,
    wanted: LockId,
    i: usize,
) -> Result<usize, Memory> {
    match like.get(&(class, wanted)).copied() {
        Some(first) => Ok(first),
        None => {
            like.insert((class, wanted), i)?;
            Ok(i)
        }
    }
}

// Whether the first edge stands before the other one, is flagged, and leads on to the same ones, of the same class.
fn leads_likewise(
    table: &[(Edge, Sample)],
    classes: &[usize],
    flags: &[bool],
    first: usize,
    i: usize,
) -> bool
    requires there { i < length table.now }
    requires classes { length classes.now ≡ length table.now }
    requires flags { length flags.now ≡ length table.now }
    ensures { IsTrue result
        → LeadLikewise (edges_of_table table.now) classes.now flags.now first i }
{
    if first >= i || !flags[first] || classes[first] != classes[i] {
        return false;
    }
    let (edge, other) = (&table[first].0, &table[i].0);
    if edge.wanted != other.wanted {
        return false;
    }
    edge.wanted_mode == other.wanted_mode
}
