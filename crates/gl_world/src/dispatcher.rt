//! What a world keeps of the edges that were made, and of the shards.
ghost use Rattle.std.specs.Prelude.{◌≡◌, ◌↔◌, ◌<◌, ◌≤◌, ◌++◌, ℕ, Some, IsTrue, length, map, replicate, slice_get, IfOk, OnOk, OnErr};
ghost use Rattle.gl_world.specs.Dispatch.{Shard, fresh_dispatch, fresh_shard, table_of, ship_turn, work_turn, IsDone};
ghost use Rattle.gl_world.specs.Enabled.{grows};
ghost use Rattle.gl_world.specs.Machine.{add_edges};

use crate::shard_part::ShardPart;
use crate::steps::Did;
use gl_edges::{Edge, Sample};
use gl_event::{Limits, Memory};
use gl_shards::{MAX_SHARDS, Table, shard_of};
use std::alloc::Global;
use std::marker::Model;

/// The edges made so far, how many of them were shipped, and what is kept of each shard.
///
/// Contracts see the dispatch.
#[derive(Drop, Debug)]
pub struct Dispatcher {
    alloc: Global,
    made: Vec<(Edge, Sample)>,
    sent: usize,
    parts: Vec<ShardPart>,
}

impl Model for Dispatcher {
    ghost use Rattle.gl_world.specs.Dispatch.{Dispatch};
    ghost use Rattle.gl_world.specs.Keeping.{AreShards};

    ghost Value = { Dispatch };

    ghost view = { λ d. record { made = d.made.items; sent = d.sent; shards = d.parts.items } };

    ghost invariant = { λ d. AreShards d.parts.items };
}

// The parts of this many shards, to which nothing was shipped.
fn fresh_parts(alloc: Global, shards: u32) -> Result<Vec<ShardPart>, Memory>
    ensures { IfOk result (λ parts. parts.items ≡ replicate shards fresh_shard) }
{
    let mut parts = Vec::new(alloc);
    for _shard in 0..shards {
        parts.push(ShardPart::new(alloc))?;
    }
    Ok(parts)
}

// Whether every edge that was shipped is worked, in all shards.
fn are_worked(parts: &[ShardPart]) -> bool
    ensures { IsTrue result ↔
        ((k : ℕ) (shard : Shard) → slice_get parts.now k ≡ Some shard
        → shard.worked ≡ length shard.shipped) }
{
    for part in parts {
        if !part.is_worked() {
            return false;
        }
    }
    true
}

// Copies of the shards' tables.
fn copied_tables(alloc: Global, parts: &[ShardPart]) -> Result<Vec<Table>, Memory>
    ensures { IfOk result (λ tables. tables.items ≡ map table_of parts.now) }
{
    let mut tables = Vec::new(alloc);
    for part in parts {
        let table = part.table().copy(alloc)?;
        tables.push(table)?;
    }
    Ok(tables)
}

impl Dispatcher {
    /// No edges, and this many shards.
    pub fn new(alloc: Global, shards: u32) -> Result<Dispatcher, Memory>
        requires some { 1 ≤ shards }
        requires fit { shards ≤ MAX_SHARDS }
        ensures { IfOk result (λ d. d ≡ fresh_dispatch shards) }
    {
        let parts = fresh_parts(alloc, shards)?;
        Ok(Dispatcher {
            alloc,
            made: Vec::new(alloc),
            sent: 0,
            parts,
        })
    }

    /// Adds edges to those made.
    pub fn add(&mut self, edges: Vec<(Edge, Sample)>) -> Result<(), Memory>
        ensures added { OnOk result (self.new ≡ add_edges self.old edges.items) }
        ensures unchanged { OnErr result (self.new ≡ self.old) }
    {
        let mut edges = edges;
        self.made.append(&mut edges)?;
        Ok(())
    }

    /// Ships the oldest edge that isn't shipped, where that is enabled.
    pub fn ship(&mut self, limits: &Limits) -> Result<Did, Memory>
        ensures moved { OnOk result (self.new ≡ (ship_turn limits.now self.old).dispatch) }
        ensures answer { IfOk result (λ did. did ≡ (ship_turn limits.now self.old).did) }
        ensures memory { OnErr result (IsTrue (grows (ship_turn limits.now self.old).did)) }
        ensures unchanged { OnErr result (self.new ≡ self.old) }
    {
        if self.sent >= self.made.len() {
            return Ok(Did::Nothing);
        }
        let pair = &self.made[self.sent];
        let shard = shard_of(&pair.0, self.parts.len() as u32);
        let part = &mut self.parts[shard as usize];
        if !part.has_place(limits) {
            return Ok(Did::Nothing);
        }
        part.ship(self.alloc, pair)?;
        self.sent += 1;
        Ok(Did::Shipped(shard))
    }

    /// Works the next edge of the shard, where that is enabled.
    pub fn work(&mut self, shard: u32) -> Result<Did, Memory>
        ensures moved { OnOk result (self.new ≡ (work_turn self.old shard).dispatch) }
        ensures answer { IfOk result (λ did. did ≡ (work_turn self.old shard).did) }
        ensures memory { OnErr result (IsTrue (grows (work_turn self.old shard).did)) }
        ensures unchanged { OnErr result (self.new ≡ self.old) }
    {
        let index = shard as usize;
        if index >= self.parts.len() {
            return Ok(Did::Nothing);
        }
        if self.parts[index].work(self.alloc)? {
            return Ok(Did::Worked);
        }
        Ok(Did::Nothing)
    }

    /// Whether every edge made is shipped, and every edge shipped is worked.
    pub fn is_done(&self) -> bool
        ensures { IsTrue result ↔ IsDone self.now }
    {
        if self.sent != self.made.len() {
            return false;
        }
        are_worked(self.parts.as_slice())
    }

    /// How many shards there are.
    pub fn shards(&self) -> usize
        ensures { result ≡ length self.now.shards }
    {
        self.parts.len()
    }

    /// The table of a shard.
    pub fn table(&self, shard: u32) -> &Table
        requires { shard < length self.now.shards }
        ensures { (s : Shard) → slice_get self.now.shards shard ≡ Some s
            → result.now ≡ table_of s }
    {
        self.parts[shard as usize].table()
    }

    /// Copies of all tables, in the order of shards.
    pub fn tables(&self) -> Result<Vec<Table>, Memory>
        ensures { IfOk result (λ tables. tables.items ≡ map table_of self.now.shards) }
    {
        copied_tables(self.alloc, self.parts.as_slice())
    }
}
