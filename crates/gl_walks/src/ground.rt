//! What walks are looked for in.

use gl_edges::{Edge, Sample};
use gl_filters::Mode;
use gl_segments::Order;

/// What is walked through.
#[derive(Clone, Copy, Drop)]
pub struct Ground<'a> {
    /// The edges.
    pub table: &'a [(Edge, Sample)],
    /// Which segment is before which.
    pub order: &'a Order,
    /// What is asked of two edges of a walk.
    pub mode: Mode,
    /// The class of each edge.
    pub classes: &'a [usize],
    /// Which edges may be walked along.
    pub flags: &'a [bool],
}
