//! What holds of the definitions, for all lists of events. Each function here does nothing: its
//! contract is a law.
ghost use Rattle.std.specs.Prelude.{◌≡◌, ◌<◌, ◌↔◌, ℕ, List, [], ◌∷◌, ◌++◌, map, length, Contains};
ghost use Rattle.std.specs.Cmp.{IsTotalOrder};
ghost use Rattle.std.specs.FinMap.{IsAntisymmetric};
ghost use Rattle.gl_edges.specs.declared.edge.Edge.{Edge};
ghost use Rattle.gl_edges.specs.declared.edge.Sample.{Sample};
ghost use Rattle.gl_edges.specs.declared.guards.Guard.{Guard};
ghost use Rattle.std.specs.List.{flat_map, enumerate_from};
ghost use Rattle.std.specs.List.Sorted.{IsStrictlySortedBy};
ghost use Rattle.std.specs.Ordering.{nat_cmp};
ghost use Rattle.gl_event.specs.Events as events;
ghost use Rattle.gl_event.specs.declared.events.Event.{Event};
ghost use Rattle.gl_edges.specs.Edges.{edges, edges_at, edges_of_list, guards, once};
ghost use Rattle.gl_edges.specs.Laws.{IsMade, IsMadeFirst, AreAmong};
ghost use Rattle.gl_edges.specs.Order.{edge_cmp, sample_cmp, AreAscending};
ghost use Rattle.gl_edges.specs.contracts.edge.EdgeOrd.TheImpl as edge_order;
ghost use Rattle.gl_edges.specs.contracts.edge.SampleOrd.TheImpl as sample_order;

/// Edges are compared by thread, held lock and its mode, wanted lock and its mode, first and second
/// segment, and guards, in this order, where exclusive comes before shared: that is a total order,
/// and only equal edges tie.
pub fn edges_are_ordered_by_their_fields()
    ensures by_fields { (a b : Edge) → edge_order.ghosts.cmp a b ≡ edge_cmp a b }
    ensures total { IsTotalOrder edge_cmp }
    ensures exact { IsAntisymmetric edge_cmp }
{}

/// Samples are compared by place, location of the held lock and location of the wanted lock, in
/// this order: that is a total order, and only equal samples tie.
pub fn samples_are_ordered_by_their_fields()
    ensures by_fields { (a b : Sample) → sample_order.ghosts.cmp a b ≡ sample_cmp a b }
    ensures total { IsTotalOrder sample_cmp }
    ensures exact { IsAntisymmetric sample_cmp }
{}

/// An edge is in the list of edges exactly if the thread with its number makes it: if it wants and
/// acquires the wanted lock, which it doesn't hold, while it holds the held one, in these modes and
/// segments and with these guards. A try acquire wants nothing and makes no edge.
pub fn edges_are_those_made()
    ensures { (lists : List (List Event)) (edge : Edge)
        → Contains (map (λ pair. pair.0) (edges lists)) edge ↔ IsMade lists edge }
{}

/// Each edge stands once in the list of edges, above the one before it.
pub fn edges_ascend()
    ensures { (lists : List (List Event)) → AreAscending (edges lists) }
{}

/// An edge stands in the list of edges with a sample exactly if its thread makes it at the place of
/// the sample and at no earlier place, and the two locations are those of the acquires.
pub fn samples_are_of_the_first_place()
    ensures { (lists : List (List Event)) (edge : Edge) (sample : Sample)
        → Contains (edges lists) (edge, sample) ↔ IsMadeFirst lists edge sample }
{}

/// Which edges there are, and with which samples, follows from the pairs, in whatever order and
/// however often they come; and two lists that are merged make the list of all pairs.
pub fn once_needs_no_order()
    ensures order { (xs ys : List (Edge × Sample)) → AreAmong xs ys → AreAmong ys xs
        → once xs ≡ once ys }
    ensures merged { (xs ys : List (Edge × Sample))
        → once (once xs ++ once ys) ≡ once (xs ++ ys) }
{}

/// The edges of a thread's list are those of its events, one after the other: a list without events
/// has none, and one more event adds the edges that it makes after those before it, which are what
/// a tracker's step answers. So the edges of whole lists are those of all steps, each once with its
/// least sample.
pub fn edges_come_step_by_step()
    ensures none { (thread : ℕ) → edges_of_list thread [] ≡ [] }
    ensures more { (thread : ℕ) (es : List Event) (e : Event)
        → edges_of_list thread (es ++ e ∷ [])
        ≡ edges_of_list thread es ++ edges_at thread (es ++ e ∷ []) (length es) }
    ensures front { (thread : ℕ) (front rest : List Event) (place : ℕ) → place < length front
        → edges_at thread (front ++ rest) place ≡ edges_at thread front place }
    ensures all { (lists : List (List Event))
        → edges lists
        ≡ once (flat_map (λ numbered. edges_of_list numbered.0 numbered.1)
        (enumerate_from 0 lists)) }
{}

/// The guards of an edge are the locks that are held, each in the mode of the acquire that opened
/// it, and these are the locks of positive depth, ascending.
pub fn held_locks_are_those_of_positive_depth()
    ensures guards { (es : List Event) (guard : Guard)
        → Contains (guards es) guard ↔ (0 < events.depth es guard.lock)
        × (guard.mode ≡ events.held_mode es guard.lock) }
    ensures members { (es : List Event) (lock : ℕ)
        → Contains (events.held es) lock ↔ (0 < events.depth es lock) }
    ensures ascending { (es : List Event) → IsStrictlySortedBy nat_cmp (events.held es) }
{}
