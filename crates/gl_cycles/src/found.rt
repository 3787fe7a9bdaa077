//! What a search finds.
ghost use Rattle.std.specs.Prelude.{◌≡◌, ◌+◌, List, ℕ, take};
ghost use Rattle.gl_cycles.specs.Cycles.{cycles_in};
ghost use Rattle.gl_cycles.specs.Listed.{listed};

use gl_edges::EdgeList;
use gl_event::Segment;
use gl_filters::Query;
use std::alloc::AllocError;
use std::error::Error;
use std::fmt;
use std::marker::Model;

/// Cycles, each as the positions of its edges in a list of edges. Contracts see a list of lists of
/// numbers.
#[derive(Drop, Debug)]
pub struct Cycles {
    cycles: Vec<Vec<usize>>,
}

impl Model for Cycles {
    ghost use Rattle.std.specs.Prelude.{List, ℕ, map};

    ghost Value = { List (List ℕ) };

    ghost view = { λ c. map (λ cycle. cycle.items) c.cycles.items };
}

impl Cycles {
    /// These cycles.
    pub fn from_vec(cycles: Vec<Vec<usize>>) -> Cycles
        ensures { result ≡ cycles_in cycles.items }
    {
        Cycles { cycles }
    }

    /// The cycles, in order.
    pub fn as_slice(&self) -> &[Vec<usize>]
        ensures { cycles_in result.now ≡ self.now }
    {
        &self.cycles
    }

    /// The cycles, in order.
    pub fn into_vec(self) -> Vec<Vec<usize>>
        ensures { cycles_in result.items ≡ self }
    {
        self.cycles
    }
}

/// The first cycles of a query, and whether there are more.
#[derive(Drop, Debug)]
pub struct Found {
    /// The cycles that are listed, in the order of their edges.
    pub cycles: Cycles,
    /// Whether there are more cycles than those that are listed.
    pub more: bool,
}

impl Found {
    /// What is listed of all cycles, of which these are the first ones, up to one more than may be listed.
    pub fn listed(cycles: Vec<Vec<usize>>, max: usize) -> Found
        ensures { (all : List (List ℕ))
            → cycles_in cycles.items ≡ take (max + 1) all
            → result ≡ listed max all }
    {
        let mut cycles = cycles;
        let more = cycles.len() > max;
        cycles.truncate(max);
        Found {
            cycles: Cycles::from_vec(cycles),
            more,
        }
    }
}

/// The edges that trimming takes away, in the order in which they go, as positions in a list of
/// edges. Contracts see a list of numbers.
#[derive(Drop, Debug)]
pub struct TrimOrder {
    positions: Vec<usize>,
}

impl Model for TrimOrder {
    ghost use Rattle.std.specs.Prelude.{List, ℕ};

    ghost Value = { List ℕ };

    ghost view = { λ t. t.positions.items };
}

impl TrimOrder {
    /// These positions.
    pub fn from_vec(positions: Vec<usize>) -> TrimOrder
        ensures { result ≡ positions.items }
    {
        TrimOrder { positions }
    }

    /// The positions, in order.
    pub fn as_slice(&self) -> &[usize]
        ensures { result.now ≡ self.now }
    {
        &self.positions
    }

    /// The positions, in order.
    pub fn into_vec(self) -> Vec<usize>
        ensures { result.items ≡ self }
    {
        self.positions
    }
}

/// The report of a query: the edges of the lists that were asked about, and the first cycles over
/// them.
#[derive(Drop, Debug)]
pub struct Report {
    /// What was asked.
    pub query: Query,
    /// The edges, of which the cycles give the positions.
    pub edges: EdgeList,
    /// The cycles that are listed, and whether there are more.
    pub found: Found,
    /// The order in which trimming in the mode of the query takes away the edges, where it takes away
    /// all of them: then there is no cycle of this mode, of whatever length.
    pub trim: Option<TrimOrder>,
}

/// Why there is no report.
#[derive(Drop, Debug)]
pub enum ReportFault {
    /// A segment is before itself: this is the least one, by thread and index, and a ring of
    /// segments that begins with it, each one step from the one before and the first from the last.
    Inconsistent { at: Segment, ring: Vec<Segment> },
    /// Memory was refused.
    Memory,
}

impl fmt::Display for ReportFault {
    ghost use Rattle.std.specs.Prelude.{Some};
    ghost use Rattle.gl_cycles.specs.Faults.{text_of};

    ghost output = { λ fault. Some (text_of fault) };

    fn fmt<W: fmt::Write>(&self, f: &mut fmt::Formatter<W>) -> fmt::Result {
        f.write_str(match self {
            ReportFault::Inconsistent { .. } => "a segment precedes itself",
            ReportFault::Memory => "out of memory",
        })
    }
}

impl Error for ReportFault {}

impl From<AllocError> for ReportFault {
    ghost use Rattle.gl_cycles.specs.declared.found.ReportFault.TheVariants.{Memory};

    ghost from_gives = { λ _ e. e ≡ Memory };

    fn from(_e: AllocError) -> ReportFault {
        ReportFault::Memory
    }
}
