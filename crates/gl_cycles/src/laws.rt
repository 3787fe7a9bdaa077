//! What holds of the definitions, for all lists of edges. Each function here does nothing: its
//! contract is a law.
ghost use Rattle.gl_cycles.specs.Reports.{ReportsAreUnique, LoopsAreUnique, NoReportOfLoops};
ghost use Rattle.std.specs.Prelude.{◌≡◌, ◌↔◌, ℕ, Bool, List, Some, None, length, map, All, Contains, ◌==◌, if◌then◌else◌};
ghost use Rattle.std.specs.Cmp.Lexicographic.{slice_cmp};
ghost use Rattle.std.specs.List.Sorted.{IsStrictlySortedBy};
ghost use Rattle.std.specs.Ordering.{nat_cmp};
ghost use Rattle.gl_filters.specs.Picked.{picked};
ghost use Rattle.gl_cycles.specs.AllCycles.{all_cycles};
ghost use Rattle.gl_cycles.specs.Laws.{IsCycleAt};
ghost use Rattle.gl_loops.specs.Loops.{IsNeverFalling};
ghost use Rattle.gl_trims.specs.Trims.{IsTrimOrder, IsTrimmed, IsWholeRemoval, removals, whole_trim};
ghost use Rattle.gl_edges.specs.Order.{edge_cmp};
ghost use Rattle.gl_edges.specs.declared.edge.Edge.{Edge};
ghost use Rattle.gl_event.specs.declared.events.Segment.{Segment};
ghost use Rattle.gl_filters.specs.declared.query.Mode.{Mode};

/// The list of all cycles ascends: each cycle is below those after it, where the first position in
/// which two cycles differ decides. So each cycle is listed once.
pub fn cycles_ascend()
    ensures { (before : Segment → Segment → Bool) (mode : Mode) (len : ℕ) (edges : List Edge)
        → IsStrictlySortedBy (slice_cmp nat_cmp) (all_cycles before mode len edges) }
{}

/// Over edges that ascend, the list of all cycles ascends by the cycles' edges: the first edge in
/// which two cycles differ decides.
pub fn cycles_ascend_by_edges()
    ensures { (before : Segment → Segment → Bool) (mode : Mode) (len : ℕ) (edges : List Edge)
        → IsStrictlySortedBy edge_cmp edges
        → IsStrictlySortedBy (slice_cmp edge_cmp)
        (map (picked edges) (all_cycles before mode len edges)) }
{}

/// The list of all cycles has exactly the lists of positions whose edges are a cycle of this mode
/// and of at most so many edges.
pub fn cycles_are_all()
    ensures { (before : Segment → Segment → Bool) (mode : Mode) (len : ℕ) (edges : List Edge)
        (positions : List ℕ)
        → Contains
        (all_cycles before mode len edges) positions ↔ IsCycleAt before mode len edges positions }
{}

/// What was asked, the edges and the lists decide the report: no two reports fit them. Where a segment
/// of the lists is before itself they decide the least one, and no report fits.
pub fn reports_are_unique()
    ensures report { ReportsAreUnique }
    ensures segment { LoopsAreUnique }
    ensures either { NoReportOfLoops }
{}

/// For ranks of locks that never fall along an edge, each edge of a cycle leads from a lock to one of
/// the same rank: going round, the rank comes back to where it was. So a search may leave out each
/// edge along which the rank rises.
pub fn cycles_are_level()
    ensures { (before : Segment → Segment → Bool) (mode : Mode) (len : ℕ) (edges : List Edge)
        (rank : ℕ → ℕ) (positions : List ℕ) → IsNeverFalling rank edges
        → Contains (all_cycles before mode len edges) positions
        → All (λ e. rank e.held ≡ rank e.wanted) (picked edges positions) }
{}

/// Trimming takes away no edge of a cycle of its mode, of whatever length: each edge of a cycle has
/// the next one as its follower and the one before as its leader, round, and none of them can go first.
pub fn cycles_survive_trims()
    ensures { (before : Segment → Segment → Bool) (mode : Mode) (len : ℕ) (edges : List Edge)
        (removed positions : List ℕ) → IsTrimOrder before mode edges removed
        → Contains (all_cycles before mode len edges) positions
        → All (λ i. ¬ Contains removed i) positions }
{}

/// Which edges trimming takes away, and in which order, follows from the edges. It takes away all of
/// them in the order that is whole, and where there is a cycle no order is.
pub fn trims_are_unique()
    ensures removed { (before : Segment → Segment → Bool) (mode : Mode) (edges : List Edge)
        (kept removed : List ℕ) → IsTrimmed before mode edges kept removed
        → removed ≡ removals before mode edges (length edges) }
    ensures whole { (before : Segment → Segment → Bool) (mode : Mode) (edges : List Edge)
        (kept removed : List ℕ) → IsTrimmed before mode edges kept removed
        → whole_trim before mode edges ≡ (if length kept == 0 then Some removed else None) }
    ensures cycle { (before : Segment → Segment → Bool) (mode : Mode) (len : ℕ)
        (edges : List Edge) (positions : List ℕ)
        → Contains (all_cycles before mode len edges) positions
        → whole_trim before mode edges ≡ None }
{}

/// Where all edges go one by one, in whatever order of removal, there is no cycle of the mode, of
/// whatever length.
pub fn no_cycle_if_all_go()
    ensures { (before : Segment → Segment → Bool) (mode : Mode) (len : ℕ) (edges : List Edge)
        (removed positions : List ℕ) → IsWholeRemoval before mode edges removed
        → ¬ IsCycleAt before mode len edges positions }
{}
