//! What holds of the definitions, for all lists of edges. Each function here does nothing: its
//! contract is a law.
ghost use Rattle.std.specs.Prelude.{◌≡◌, ◌≢◌, ◌≤◌, ◌↔◌, ℕ, Bool, true, List, length, slice_get, Some};
ghost use Rattle.gl_edges.specs.declared.edge.Edge.{Edge};
ghost use Rattle.gl_event.specs.declared.events.Segment.{Segment};
ghost use Rattle.gl_filters.specs.Asked.{Asked};
ghost use Rattle.gl_filters.specs.Cycle.{IsCycle};
ghost use Rattle.gl_filters.specs.Verdicts.{IsVerdict, following};
ghost use Rattle.gl_filters.specs.declared.verdict.Verdict.{Verdict};
ghost use Rattle.gl_filters.specs.declared.verdict.Verdict.TheVariants.{Valid};
ghost use Rattle.gl_filters.specs.Test.{is_cycle, is_compatible, goes_with};
ghost use Rattle.gl_filters.specs.declared.query.Mode.{Mode};

/// A list of edges is a cycle of at most so many edges exactly if it is no longer and passes the
/// test of a cycle, whatever the order of segments is.
pub fn cycles_are_as_tested()
    ensures { (before : Segment → Segment → Bool) (mode : Mode) (len : ℕ) (cycle : List Edge)
        → IsCycle before mode len cycle ↔
        ((length cycle ≤ len) × (is_cycle before mode cycle ≡ true)) }
{}

/// A list of edges has no fault exactly if it is a cycle that the query asks for.
pub fn valid_lists_are_cycles()
    ensures { (before : Segment → Segment → Bool) (asked : Asked) (es : List Edge)
        → IsVerdict before asked es Valid ↔ IsCycle before asked.mode asked.len es }
{}

/// A list of edges has one verdict: which of the tests it fails first, and where, or none. So a list
/// that is a cycle is judged valid, and nothing else is.
pub fn verdicts_are_unique()
    ensures { (before : Segment → Segment → Bool) (asked : Asked) (es : List Edge)
        (a b : Verdict)
        → IsVerdict before asked es a → IsVerdict before asked es b → a ≡ b }
{}

/// Each edge of a cycle may be followed by the next one, and the last one by the first. And each one
/// goes with each other one, at any distance. So an edge which nothing may follow, or that may follow
/// nothing, is in no cycle.
pub fn cycles_go_round()
    ensures next { (before : Segment → Segment → Bool) (mode : Mode) (len : ℕ)
        (cycle : List Edge)
        (i : ℕ) (e f : Edge) → IsCycle before mode len cycle → slice_get cycle i ≡ Some e
        → slice_get cycle (following (length cycle) i) ≡ Some f
        → is_compatible before mode e f ≡ true }
    ensures together { (before : Segment → Segment → Bool) (mode : Mode) (len : ℕ)
        (cycle : List Edge) (i j : ℕ) (e f : Edge) → IsCycle before mode len cycle → i ≢ j
        → slice_get cycle i ≡ Some e → slice_get cycle j ≡ Some f
        → goes_with before mode e f ≡ true }
{}
