//! What holds of findings, for all tables of edges. Each function here does nothing: its contract is a law.
ghost use Rattle.std.specs.Prelude.{ℕ, Bool, List};
ghost use Rattle.gl_event.specs.declared.events.Segment.{Segment};
ghost use Rattle.gl_edges.specs.declared.edge.Edge.{Edge};
ghost use Rattle.gl_edges.specs.declared.edge.Sample.{Sample};
ghost use Rattle.gl_filters.specs.declared.query.Mode.{Mode};
ghost use Rattle.gl_findings.specs.Laws.{NoneIsMissed, EachIsCycle, NoneIsTwice};
ghost use Rattle.gl_findings.specs.Reports.{ListingsAreUnique};

/// Each cycle of the mode and of at most so many edges is one finding with a cycle that is shown: what is
/// listed misses none, where there are no more.
pub fn no_finding_is_missed()
    ensures { (before : Segment → Segment → Bool) (mode : Mode) (len : ℕ)
        (table : List (Edge × Sample)) → NoneIsMissed before mode len table }
{}

/// Each finding is shown by a cycle of the mode, of at most so many edges.
pub fn findings_are_cycles()
    ensures { (before : Segment → Segment → Bool) (mode : Mode) (len : ℕ)
        (table : List (Edge × Sample)) → EachIsCycle before mode len table }
{}

/// No finding is listed twice, wherever its cycles begin.
pub fn findings_differ()
    ensures { (before : Segment → Segment → Bool) (mode : Mode) (len : ℕ)
        (table : List (Edge × Sample)) → NoneIsTwice before mode len table }
{}

/// What a report of lists lists, what was asked and the lists decide the report.
pub fn listings_are_unique()
    ensures { ListingsAreUnique }
{}
