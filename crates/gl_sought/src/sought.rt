//! What is looked for.
ghost use Rattle.std.specs.Prelude.{◌≡◌, ◌<◌, ◌≤◌};
ghost use Rattle.gl_filters.specs.declared.lengths.TheConstants.{LONGEST};

use gl_edges::{Edge, EdgeList, Sample};
use gl_filters::{Mode, Query};
use gl_segments::Order;

/// What is looked for: cycles of a mode, of so many edges at most.
#[derive(Clone, Copy, Drop)]
pub struct Sought<'a> {
    /// The edges, with their samples.
    pub table: &'a [(Edge, Sample)],
    /// Which segment is before which.
    pub order: &'a Order,
    /// The mode of the cycles.
    pub mode: Mode,
    /// How many edges a cycle may have.
    pub len: usize,
}

impl<'a> Sought<'a> {
    /// What a query asks of these edges.
    pub fn of(edges: &'a EdgeList, order: &'a Order, query: &Query) -> Sought<'a>
        ensures table { result.table.now ≡ edges.now }
        ensures order { result.order.now ≡ order.now }
        ensures mode { result.mode ≡ query.now.mode }
        ensures len { result.len ≡ query.now.len }
        ensures some { 0 < result.len }
        ensures fits { result.len ≤ LONGEST }
    {
        Sought {
            table: edges.entries(),
            order,
            mode: query.mode(),
            len: query.len() as usize,
        }
    }
}
