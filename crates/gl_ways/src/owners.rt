//! Owners of edges: threads, and locks that are held exclusively.
//!
//! No two edges of one owner stand in a cycle together: a cycle has one edge of a thread at most, and from Guarded on it has
//! no two that are made under one lock. So the way back of an edge leads along edges of others. Where an owner alone has
//! all edges from one lock to another, the lock-order graph may fall into parts without these, and then some of its edges have
//! no way back.
//!
//! Which owners are worth a look, and into which parts the graph falls, is not proved, and nothing relies on it but for speed:
//! the labels that tell the parts are checked. So a number that is out of range, which none is, is passed over.
ghost use Rattle.std.specs.Prelude.{IsTrue};
ghost use Rattle.gl_ways.specs.bodies.Owners.{IsOwned};

use crate::links::{Link, links_of};
use gl_edges::Edge;
use gl_event::{LockId, Memory, ThreadId};
use gl_filters::Mode;
use gl_sought::{Ends, Sought, Step, components_of, is_under};
use std::alloc::Global;

// How many owners of an edge are looked at.
const MOST: usize = 16;

/// Who has edges of which no two stand in a cycle together.
#[derive(Clone, Copy, Debug, PartialEq, Eq, PartialOrd, Ord)]
pub(crate) enum Owner {
    /// The thread that makes them.
    OfThread(ThreadId),
    /// A lock that is held exclusively while they are made.
    OfLock(LockId),
}

impl Owner {
    /// Whether the edge is one of its own, in this mode.
    pub(crate) fn has(&self, mode: Mode, edge: &Edge) -> bool
        ensures { IsTrue result → IsOwned mode self.now edge.now }
    {
        match *self {
            Owner::OfThread(thread) => edge.thread == thread,
            Owner::OfLock(lock) => mode.asks_guards() && is_under(edge, lock),
        }
    }
}

// A step of the lock-order graph from one lock to another, and who alone has all edges that make it.
#[derive(Drop)]
struct Pair {
    step: Step,
    owners: Vec<Owner>,
}

// The pairs of the links so far, by where these lead from and to, but for the last one, which may have more links: who alone
// has all that it has so far.
#[derive(Drop)]
struct Pairing {
    pairs: Vec<Pair>,
    owners: Vec<Owner>,
    last: Option<Link>,
}

impl Pairing {
    // No links.
    fn new(alloc: Global) -> Pairing {
        Pairing {
            pairs: Vec::new(alloc),
            owners: Vec::new(alloc),
            last: None,
        }
    }

    // Takes the next link.
    fn take(&mut self, alloc: Global, sought: &Sought<'_>, link: &Link) -> Result<(), Memory> {
        if !is_next(&self.last, link) {
            self.end_pair(alloc)?;
            self.owners = owners_of(alloc, sought, link)?;
        } else if !self.owners.is_empty() {
            // of most pairs with many edges nobody is left by then
            self.owners = owners_among(alloc, sought, &self.owners, link)?;
        }
        self.last = Some(*link);
        Ok(())
    }

    // Adds the pair of the last link, if there is one.
    fn end_pair(&mut self, alloc: Global) -> Result<(), Memory> {
        let owners = std::mem::replace(&mut self.owners, Vec::new(alloc));
        add_pair(&mut self.pairs, &self.last, owners)
    }

    // All pairs.
    fn finish(self, alloc: Global) -> Result<Vec<Pair>, Memory> {
        let mut pairing = self;
        pairing.end_pair(alloc)?;
        let Pairing { pairs, .. } = pairing;
        Ok(pairs)
    }
}

/// The lock-order graph of the edges that are kept.
#[derive(Drop)]
pub(crate) struct Graph {
    pairs: Vec<Pair>,
    // how many locks there are
    locks: usize,
}

impl Graph {
    /// That of the edges that are kept, between so many locks. Sorts them.
    pub(crate) fn of(
        alloc: Global,
        sought: &Sought<'_>,
        ends: &[Ends],
        locks: usize,
        kept: &[bool],
    ) -> Result<Graph, Memory> {
        let mut pairing = Pairing::new(alloc);
        for link in &links_of(alloc, ends, kept)? {
            pairing.take(alloc, sought, link)?;
        }
        Ok(Graph {
            pairs: pairing.finish(alloc)?,
            locks,
        })
    }

    /// How many pairs of locks there are that an edge leads from and to.
    pub(crate) fn count(&self) -> usize {
        self.pairs.len()
    }

    /// Who alone has all edges from one lock to another, those first who have most such pairs of locks.
    pub(crate) fn sole_owners(&self, alloc: Global) -> Result<Vec<Owner>, Memory> {
        let mut found = Vec::new(alloc);
        for pair in &self.pairs {
            add_all(&mut found, &pair.owners)?;
        }
        by_count(alloc, found)
    }

    // The steps along edges that others have, or back along these.
    fn steps_without(
        &self,
        alloc: Global,
        owner: &Owner,
        is_back: bool,
    ) -> Result<Vec<Step>, Memory> {
        let mut steps = Vec::with_capacity(alloc, self.pairs.len())?;
        for pair in &self.pairs {
            if !is_among(&pair.owners, owner) {
                steps.push(if is_back { pair.step.back() } else { pair.step })?;
            }
        }
        Ok(steps)
    }

    /// A label for each lock, which doesn't grow along any edge that others have. It falls from part to part of what these
    /// connect, by as many as a cycle may have edges. Where no way leads from one part to another, it falls either way;
    /// `is_back` says which of two such labels it is.
    pub(crate) fn labels_without(
        &self,
        alloc: Global,
        owner: &Owner,
        is_back: bool,
        len: usize,
    ) -> Result<Vec<usize>, Memory> {
        let steps = self.steps_without(alloc, owner, is_back)?;
        let parts = components_of(alloc, self.locks, &steps)?;
        let mut labels = Vec::with_capacity(alloc, parts.len())?;
        for part in &parts {
            let number = part.unwrap_or(0);
            let height = if is_back {
                number
            } else {
                self.locks.saturating_sub(number)
            };
            labels.push(height.saturating_mul(len))?;
        }
        Ok(labels)
    }

    /// Whether a pair that the owner alone has leads to where the label is less than from where it leads: only then its edges have
    /// no way back, as far as labels tell.
    pub(crate) fn has_fall(&self, owner: &Owner, labels: &[usize]) -> bool {
        for pair in &self.pairs {
            if labels.get(pair.step.to) < labels.get(pair.step.from)
                && is_among(&pair.owners, owner)
            {
                return true;
            }
        }
        false
    }
}

// Adds the pair of locks that a link leads from and to, if there is one.
fn add_pair(pairs: &mut Vec<Pair>, link: &Option<Link>, owners: Vec<Owner>) -> Result<(), Memory> {
    let Some(link) = link else {
        return Ok(());
    };
    let step = Step {
        from: link.held,
        to: link.wanted,
    };
    pairs.push(Pair { step, owners })?;
    Ok(())
}

// Whether the owner is one of these.
fn is_among(owners: &[Owner], owner: &Owner) -> bool {
    for other in owners {
        if *other == *owner {
            return true;
        }
    }
    false
}

// Whether a link leads from the same lock to the same other one as that before it.
fn is_next(before: &Option<Link>, link: &Link) -> bool {
    match before {
        Some(before) => before.is_beside(link),
        None => false,
    }
}

// The owners of a link's edge: its thread, and some of the locks that it is made under.
fn owners_of(alloc: Global, sought: &Sought<'_>, link: &Link) -> Result<Vec<Owner>, Memory> {
    let mut owners = Vec::new(alloc);
    if let Some((edge, _)) = sought.table.get(link.position) {
        add_owners(&mut owners, sought.mode, edge)?;
    }
    Ok(owners)
}

// Adds the owners of an edge to none.
fn add_owners(owners: &mut Vec<Owner>, mode: Mode, edge: &Edge) -> Result<(), Memory> {
    owners.push(Owner::OfThread(edge.thread))?;
    for guard in edge.guards.as_slice() {
        let owner = Owner::OfLock(guard.lock);
        if owners.len() < MOST && owner.has(mode, edge) {
            owners.push(owner)?;
        }
    }
    Ok(())
}

// Those of these owners that have the link's edge, too.
fn owners_among(
    alloc: Global,
    sought: &Sought<'_>,
    owners: &[Owner],
    link: &Link,
) -> Result<Vec<Owner>, Memory> {
    let mut among = Vec::new(alloc);
    if let Some((edge, _)) = sought.table.get(link.position) {
        add_those_of(&mut among, sought.mode, owners, edge)?;
    }
    Ok(among)
}

// Adds those of the owners that have the edge.
fn add_those_of(
    among: &mut Vec<Owner>,
    mode: Mode,
    owners: &[Owner],
    edge: &Edge,
) -> Result<(), Memory> {
    for owner in owners {
        if owner.has(mode, edge) {
            among.push(*owner)?;
        }
    }
    Ok(())
}

// Adds all of these.
fn add_all(found: &mut Vec<Owner>, owners: &[Owner]) -> Result<(), Memory> {
    for owner in owners {
        found.push(*owner)?;
    }
    Ok(())
}

// Each of these owners once, those first that stand there most often.
fn by_count(alloc: Global, found: Vec<Owner>) -> Result<Vec<Owner>, Memory> {
    let counts = counts_of(alloc, found)?;
    let mut owners = Vec::with_capacity(alloc, counts.len())?;
    for (_, owner) in counts.iter().rev() {
        owners.push(*owner)?;
    }
    Ok(owners)
}

// How often each of these owners stands there, and those last that do most often.
fn counts_of(alloc: Global, found: Vec<Owner>) -> Result<Vec<(usize, Owner)>, Memory> {
    let mut found = found;
    found.sort_unstable();
    let mut counts: Vec<(usize, Owner)> = Vec::new(alloc);
    let mut begin = 0;
    for (i, owner) in found.iter().enumerate() {
        let next = i.saturating_add(1);
        if found.get(next) != Some(owner) {
            counts.push((next.saturating_sub(begin), *owner))?;
            begin = next;
        }
    }
    counts.sort_unstable();
    Ok(counts)
}
