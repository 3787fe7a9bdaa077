//! What holds of the definitions, for all lists of edges. Each function here does nothing: its
//! contract is a law.
ghost use Rattle.std.specs.Prelude.{◌≡◌, ◌≤◌, ◌↔◌, ℕ, List, [], ◌∷◌, ◌++◌, map, Contains, IsPermutation};
ghost use Rattle.std.specs.List.{range_with_len};
ghost use Rattle.gl_edges.specs.Edges.{once};
ghost use Rattle.gl_edges.specs.Order.{AreAscending};
ghost use Rattle.gl_edges.specs.Samples.{IsLeastSample};
ghost use Rattle.gl_edges.specs.declared.edge.Edge.{Edge};
ghost use Rattle.gl_edges.specs.declared.edge.Sample.{Sample};
ghost use Rattle.gl_shards.specs.Tables.{all_pairs, filled, of_shard, union};

/// A table that was filled with some pairs ascends, and it has an edge with a sample exactly if that
/// is the least of the samples that the edge has among the pairs.
pub fn tables_have_least_samples()
    ensures ascending { (pairs : List (Edge × Sample)) → AreAscending (once pairs) }
    ensures least { (pairs : List (Edge × Sample)) (edge : Edge) (sample : Sample)
        → Contains (once pairs) (edge, sample) ↔ IsLeastSample pairs edge sample }
{}

/// A table into which pairs are inserted one after the other is filled with all of them, in whatever
/// order they come.
pub fn tables_need_no_order()
    ensures nothing { once [] ≡ [] }
    ensures one_more { (pairs : List (Edge × Sample)) (pair : Edge × Sample)
        → once (once pairs ++ pair ∷ []) ≡ once (pairs ++ pair ∷ []) }
    ensures filled { (pairs : List (Edge × Sample)) → filled [] pairs ≡ once pairs }
    ensures order { (xs ys : List (Edge × Sample)) → IsPermutation xs ys
        → once xs ≡ once ys }
{}

/// Tables that are taken together make the table of all their pairs, in whatever order the tables
/// come.
pub fn unions_need_no_order()
    ensures whole { (lists : List (List (Edge × Sample)))
        → union (map once lists) ≡ once (all_pairs lists) }
    ensures order { (xs ys : List (List (Edge × Sample))) → IsPermutation xs ys
        → union xs ≡ union ys }
{}

/// However many shards there are: the tables of all shards make the table that one shard alone would
/// have.
pub fn shards_make_the_whole()
    ensures { (shards : ℕ) (pairs : List (Edge × Sample)) → 1 ≤ shards
        → union (map (λ shard. once (of_shard shards pairs shard)) (range_with_len 0 shards))
        ≡ once pairs }
{}
