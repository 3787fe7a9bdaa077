//! What a world keeps of one shard.
ghost use Rattle.std.specs.Prelude.{◌≡◌, ◌↔◌, IsTrue, length, IfOk, OnOk, OnErr, if◌then◌else◌};
ghost use Rattle.gl_world.specs.Dispatch.{fresh_shard, table_of, has_place, has_work, ship_edge, work_edge};

use gl_edges::{Edge, Sample};
use gl_event::{Limits, Memory};
use gl_shards::Table;
use std::alloc::Global;
use std::marker::Model;

/// The edges shipped to a shard, how many of them its worker has put into its table, and the table: all
/// that went through what gl_shards calls a feed, and what became of it.
///
/// Contracts see the shard.
#[derive(Drop, Debug)]
pub struct ShardPart {
    shipped: Vec<(Edge, Sample)>,
    worked: usize,
    table: Table,
}

impl Model for ShardPart {
    ghost use Rattle.gl_world.specs.Dispatch.{Shard};
    ghost use Rattle.gl_world.specs.Keeping.{IsTabled};

    ghost Value = { Shard };

    ghost view = { λ f. record { shipped = f.shipped.items; worked = f.worked } };

    ghost invariant = { λ f. IsTabled f.shipped.items f.worked f.table };
}

impl ShardPart {
    /// A shard to which nothing was shipped.
    pub fn new(alloc: Global) -> ShardPart
        ensures { result ≡ fresh_shard }
    {
        ShardPart {
            shipped: Vec::new(alloc),
            worked: 0,
            table: Table::new(alloc),
        }
    }

    /// The table of the edges that were worked.
    pub fn table(&self) -> &Table
        ensures { result.now ≡ table_of self.now }
    {
        &self.table
    }

    /// Whether the shard's feed has a place for one edge more.
    pub fn has_place(&self, limits: &Limits) -> bool
        ensures { result ≡ has_place limits.now self.now }
    {
        self.shipped.len() - self.worked < limits.ring() as usize
    }

    /// Whether every edge that was shipped is worked.
    pub fn is_worked(&self) -> bool
        ensures { IsTrue result ↔ (self.now.worked ≡ length self.now.shipped) }
    {
        self.worked == self.shipped.len()
    }

    /// Ships a copy of the edge to the shard.
    pub fn ship(&mut self, alloc: Global, pair: &(Edge, Sample)) -> Result<(), Memory>
        ensures shipped { OnOk result (self.new ≡ ship_edge self.old pair.now) }
        ensures unchanged { OnErr result (self.new ≡ self.old) }
    {
        let edge = pair.0.copy(alloc)?;
        self.shipped.push((edge, pair.1))?;
        Ok(())
    }

    /// Puts the next edge into the table, and says whether there was one.
    pub fn work(&mut self, alloc: Global) -> Result<bool, Memory>
        ensures had { IfOk result (λ had. had ≡ has_work self.old) }
        ensures worked { OnOk result
            (self.new ≡ (if has_work self.old then work_edge self.old else self.old)) }
        ensures memory { OnErr result (IsTrue (has_work self.old)) }
        ensures unchanged { OnErr result (self.new ≡ self.old) }
    {
        if self.worked >= self.shipped.len() {
            return Ok(false);
        }
        let pair = &self.shipped[self.worked];
        let edge = pair.0.copy(alloc)?;
        self.table.insert(edge, pair.1)?;
        self.worked += 1;
        Ok(true)
    }
}
