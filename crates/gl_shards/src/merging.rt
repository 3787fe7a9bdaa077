//! Tables of edges, taken together.
ghost use Rattle.std.specs.Prelude.{◌≡◌, IfOk};
ghost use Rattle.gl_shards.specs.Tables.{union};

use gl_edges::{Batch, EdgeList, Table};
use gl_event::Memory;
use std::alloc::Global;

/// The edges of all these tables: each once, ascending, with its least sample; or that there is no
/// memory for them.
///
/// The tables, each of which ascends, are merged.
pub fn merge(alloc: Global, tables: Vec<Table>) -> Result<EdgeList, Memory>
    ensures { IfOk result (λ list. list ≡ union tables.items) }
{
    let mut all = Batch::new(alloc);
    for table in tables {
        all.absorb(alloc, table)?;
    }
    all.into_list()
}
