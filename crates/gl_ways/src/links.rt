//! The edges that are kept, in the order of the locks between which they lead.
use gl_event::Memory;
use gl_sought::Ends;
use std::alloc::Global;

/// An edge of the lock-order graph, between numbers of locks.
#[derive(Clone, Copy, Debug, PartialEq, Eq, PartialOrd, Ord)]
pub(crate) struct Link {
    pub(crate) held: usize,
    pub(crate) wanted: usize,
    pub(crate) position: usize,
}

impl Link {
    /// Whether both lead from one lock to one other.
    pub(crate) fn is_beside(&self, other: &Link) -> bool {
        self.held == other.held && self.wanted == other.wanted
    }
}

/// The edges that are kept, by held lock and then by wanted lock.
pub(crate) fn links_of(alloc: Global, ends: &[Ends], kept: &[bool]) -> Result<Vec<Link>, Memory> {
    let mut links = Vec::new(alloc);
    for (position, (ends, &is_kept)) in ends.iter().zip(kept).enumerate() {
        if is_kept {
            links.push(Link {
                held: ends.held,
                wanted: ends.wanted,
                position,
            })?;
        }
    }
    links.sort_unstable();
    Ok(links)
}
