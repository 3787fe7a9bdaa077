//! The search for a way back from the lock that an edge wants to the one that it holds.
//!
//! Locks are labelled by how many edges it takes to get there, breadth first. Nothing of this is
//! proved, and nothing relies on it but for speed: labels are checked. So a number that is out of
//! range, which none is, is passed over, and the search may stop at any time.
use crate::links::{Link, links_of};
use gl_edges::Edge;
use gl_event::Memory;
use gl_filters::goes_with;
use gl_sought::{Ends, Sought};
use std::alloc::Global;

// How many edges are labelled, and looked at by their labels, for the price of one whose guards are.
const LOOKS: usize = 4;

/// What a search for ways back goes along, and the labels that the last one left.
#[derive(Drop)]
pub(crate) struct Ways {
    // the edges that are kept, by held lock and then by wanted lock
    links: Vec<Link>,
    // for each lock where its links begin
    first: Vec<Option<usize>>,
    // for each lock whether a link leads there
    is_wanted: Vec<bool>,
    // for each lock how many edges it takes to get there, or as many as a cycle may have
    pub(crate) labels: Vec<usize>,
    // the locks that were reached, in order
    reached: Vec<usize>,
    // how many links and edges may still be looked at
    budget: usize,
}

impl Ways {
    /// The ways along the edges that are kept, between so many locks. Sorts these edges.
    pub(crate) fn new(
        alloc: Global,
        sought: &Sought<'_>,
        locks: usize,
        ends: &[Ends],
        kept: &[bool],
        budget: usize,
    ) -> Result<Ways, Memory> {
        let links = links_of(alloc, ends, kept)?;
        let first = first_links(alloc, &links, locks)?;
        let is_wanted = wanted_by(alloc, &links, locks)?;
        Ok(Ways {
            links,
            first,
            is_wanted,
            labels: vec![in alloc; sought.len; locks]?,
            reached: Vec::new(alloc),
            budget,
        })
    }

    /// Looks for a way back for the edge at a position, and leaves labels. True where none was found.
    pub(crate) fn has_none(
        &mut self,
        sought: &Sought<'_>,
        kept: &[bool],
        ends: Ends,
        edge: &Edge,
    ) -> Result<bool, Memory> {
        if self.budget == 0 {
            return Ok(false);
        }
        self.forget(sought.len);
        self.reach(ends.wanted, 0)?;
        for turn in 0..self.labels.len() {
            let Some(&lock) = self.reached.get(turn) else {
                break;
            };
            let distance = self.label(lock).saturating_add(1);
            if distance >= sought.len {
                break;
            }
            if self.go_on(sought, kept, ends.held, edge, lock, distance)? {
                return Ok(false);
            }
        }
        Ok(true)
    }

    /// Labels all locks by how many edges it takes to get there from this one, whichever edges go with which. No where no edge
    /// wants this lock, or the budget is spent: a label is then one of before.
    pub(crate) fn label_from(
        &mut self,
        far: usize,
        lock: usize,
        budget: &mut usize,
    ) -> Result<bool, Memory> {
        if *budget == 0 || self.is_wanted.get(lock) != Some(&true) {
            return Ok(false);
        }
        *budget = budget.saturating_sub(self.links.len() / LOOKS + 1);
        self.forget(far);
        self.reach(lock, 0)?;
        for turn in 0..self.labels.len() {
            let Some(&lock) = self.reached.get(turn) else {
                break;
            };
            let distance = self.label(lock).saturating_add(1);
            if distance >= far {
                break;
            }
            self.reach_from(far, lock, distance)?;
        }
        Ok(true)
    }

    // Comes to each lock that is one edge on from this one.
    fn reach_from(&mut self, far: usize, lock: usize, distance: usize) -> Result<(), Memory> {
        let Some(first) = self.first.get(lock).copied().flatten() else {
            return Ok(());
        };
        for i in first..self.links.len() {
            let Some(&link) = self.links.get(i) else {
                break;
            };
            if link.held != lock {
                break;
            }
            if self.label(link.wanted) >= far {
                self.reach(link.wanted, distance)?;
            }
        }
        Ok(())
    }

    /// Takes what it costs to look at so many edges from the budget.
    pub(crate) fn pay(&mut self, edges: usize) {
        self.budget = self.budget.saturating_sub(edges);
    }

    // No lock is reached.
    fn forget(&mut self, far: usize) {
        for &lock in &self.reached {
            if let Some(label) = self.labels.get_mut(lock) {
                *label = far;
            }
        }
        self.reached.clear();
    }

    // The label of a lock.
    fn label(&self, lock: usize) -> usize {
        self.labels.get(lock).copied().unwrap_or(0)
    }

    // Comes to a lock.
    fn reach(&mut self, lock: usize, distance: usize) -> Result<(), Memory> {
        if let Some(label) = self.labels.get_mut(lock) {
            *label = distance;
        }
        self.reached.push(lock)?;
        Ok(())
    }

    // Goes one edge on from a lock. True where that leads to the lock which is looked for, or where
    // the search has to stop.
    fn go_on(
        &mut self,
        sought: &Sought<'_>,
        kept: &[bool],
        back: usize,
        edge: &Edge,
        lock: usize,
        distance: usize,
    ) -> Result<bool, Memory> {
        let Some(first) = self.first.get(lock).copied().flatten() else {
            return Ok(false);
        };
        for i in first..self.links.len() {
            let Some(&link) = self.links.get(i) else {
                break;
            };
            if link.held != lock {
                break;
            }
            if self.budget == 0 {
                return Ok(true);
            }
            self.budget -= 1;
            if self.label(link.wanted) < sought.len || !is_along(sought, kept, link, edge) {
                continue;
            }
            if link.wanted == back {
                return Ok(true);
            }
            self.reach(link.wanted, distance)?;
        }
        Ok(false)
    }
}

// For each lock where its links begin.
fn first_links(alloc: Global, links: &[Link], locks: usize) -> Result<Vec<Option<usize>>, Memory> {
    let mut first = vec![in alloc; None; locks]?;
    for (i, link) in links.iter().enumerate().rev() {
        if let Some(begin) = first.get_mut(link.held) {
            *begin = Some(i);
        }
    }
    Ok(first)
}

// For each lock whether a link leads there.
fn wanted_by(alloc: Global, links: &[Link], locks: usize) -> Result<Vec<bool>, Memory> {
    let mut is_wanted = vec![in alloc; false; locks]?;
    for link in links {
        if let Some(flag) = is_wanted.get_mut(link.wanted) {
            *flag = true;
        }
    }
    Ok(is_wanted)
}

// Whether the link's edge is kept and goes with this one.
fn is_along(sought: &Sought<'_>, kept: &[bool], link: Link, edge: &Edge) -> bool {
    if kept.get(link.position) != Some(&true) {
        return false;
    }
    match sought.table.get(link.position) {
        Some((other, _)) => goes_with(sought.mode, sought.order, other, edge),
        None => false,
    }
}
