//! Which shard keeps an edge.
ghost use Rattle.std.specs.Prelude.{◌≡◌, ◌≤◌, ◌<◌};
ghost use Rattle.gl_shards.specs.Shards as shards_of;

use gl_edges::Edge;

/// The most shards.
pub const MAX_SHARDS: u32 = 16;

/// The shard, of so many, that keeps an edge: the number of its held lock modulo the number of
/// shards, so that all edges from one lock are kept together.
pub fn shard_of(edge: &Edge, shards: u32) -> u32
    requires some { 1 ≤ shards }
    requires fit { shards ≤ MAX_SHARDS }
    ensures value { result ≡ shards_of.shard_of edge.now shards }
    ensures within { result < shards }
{
    edge.held.number() % shards
}

/// How many shards there may be, in numbers. It does nothing: its contract is the table.
pub fn limits_in_numbers()
    ensures shards { MAX_SHARDS ≡ 16 }
{}
