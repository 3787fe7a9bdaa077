//! Segments that lead round to one another, as constants tell them.
use gl_event::{Segment, ThreadId};

/// The segment of a thread and an index.
pub fn segment(at: (u32, u32)) -> Segment {
    Segment {
        thread: ThreadId::new(at.0),
        index: at.1,
    }
}

/// Whether the first of the wanted segments was found, and all of them are the ring. No segments are none.
pub fn is_ring(at: &Segment, ring: &[Segment], wanted: &[(u32, u32)]) -> bool {
    if wanted.is_empty() || ring.len() != wanted.len() || *at != segment(wanted[0]) {
        return false;
    }
    for (found, want) in ring.iter().zip(wanted) {
        if *found != segment(*want) {
            return false;
        }
    }
    true
}
