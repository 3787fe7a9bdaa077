//! The worker of a shard: it puts the edges of its feed into a table.
ghost use Rattle.std.specs.Prelude.{◌≡◌, ◌↔◌, false, true, Err, List, [], ◌∷◌, ◌++◌, IfOk, IfSome, MatchResult};
ghost use mathlib.Core.List.{IsPrefix};
ghost use Rattle.crossbeam_channel.specs.Claims.{view, IsSeatAt};
ghost use Rattle.crossbeam_channel.specs.Ends.{receives_on};
ghost use Rattle.gl_edges.specs.Edges.{once};
ghost use Rattle.gl_edges.specs.declared.edge.Edge.{Edge};
ghost use Rattle.gl_edges.specs.declared.edge.Sample.{Sample};
ghost use Rattle.gl_shards.specs.Rule.{and_got};
ghost use Rattle.gl_shards.specs.declared.worker.ServeFault.TheVariants.{Cut, Memory};

use crate::ends::{Inlet, Receiver, Sent};
use crate::rule::{Message, Receives, Roles, Traffic, Whole};
use crate::waiting::{LOOKS, pause};
use crossbeam_channel::{Pass, RecvError, TryRecvError};
use gl_edges::{Edge, Sample, Table};
use std::alloc::Global;
use std::marker::Model;
use std::sync::Wait;

/// What a worker passes before it puts in an edge: a place to watch it, or to hold it up.
pub trait Gate {
    /// Called by [`serve`] for each edge that it receives, before the edge is put into the table,
    /// with the worker's shard and the number of edges that it received before, which stops at the
    /// greatest number of its type.
    fn pass(&self, shard: u32, taken: u64);
}

/// The gate that does nothing.
#[derive(Clone, Copy, Debug)]
pub struct Open;

impl Gate for Open {
    fn pass(&self, shard: u32, taken: u64) {}
}

/// What a worker leaves behind that is done.
///
/// Contracts see which feed it is of, the edges that were received, whether receiving ended before
/// the end mark came, and whether there was no memory for an edge.
#[derive(Drop)]
pub struct Served {
    pass: Pass<Message, Traffic>,
    cut: bool,
    table: Option<Table>,
}

impl Model for Served {
    ghost use Rattle.std.specs.Option.{is_none};
    ghost use Rattle.gl_shards.specs.Feeds.{Worked, feed_of, received_by};
    ghost use Rattle.gl_shards.specs.Ends.{HasServed};

    ghost Value = { Worked };

    ghost view = { λ s. record {
      feed = feed_of s.pass;
      received = received_by s.pass;
      cut = s.cut;
      short = is_none s.table;
    } };

    ghost invariant = { λ s. HasServed s.pass s.cut s.table };
}

/// Why a worker has no table.
#[derive(Clone, Copy, Debug, PartialEq, Eq)]
pub enum ServeFault {
    /// Receiving ended before the end mark came.
    Cut,
    /// There was no memory for an edge.
    Memory,
}

/// Receives edges until the end mark comes or the collector's end is dropped, and puts them into a
/// table. It waits for each message as long as the feed is empty.
///
/// The gate is passed once for each edge, before the edge is put in. Where there is no memory for
/// an edge, the table is given up, and the edges that follow are received and thrown away, so that
/// the collector isn't held up. An edge takes time logarithmic in the number of edges.
pub fn serve<R: Wait, G: Gate>(rt: &R, alloc: Global, inlet: Inlet, shard: u32, gate: &G) -> Served
    ensures feed { result.feed ≡ inlet.feed }
{
    let Inlet { receiver, mut pass } = inlet;
    let mut table = Some(Table::new(alloc));
    let mut taken: u64 = 0;
    for _ in rt.forever() {
        match receive(rt, &receiver, &mut pass) {
            Ok(Message::Pair((edge, sample))) => {
                gate.pass(shard, taken);
                taken = taken.saturating_add(1);
                table = with_edge(table, edge, sample);
            }
            Ok(Message::Ended) => {
                return Served {
                    pass,
                    cut: false,
                    table,
                };
            }
            Err(_) => {
                return Served {
                    pass,
                    cut: true,
                    table,
                };
            }
        }
    }
    unreachable!()
}

// The next message, or that the sender is gone and none is left. It looks many times before it asks to be
// woken: a worker that slept would have the collector call the system for each edge until it runs.
fn receive<R: Wait>(
    rt: &R,
    receiver: &Receiver,
    pass: &mut Pass<Message, Traffic>,
) -> Result<Message, RecvError>
    requires seat { IsSeatAt (receives_on receiver.now) pass.old }
    requires receives { (view pass.old).receives ≡ true }
    ensures seat { IsSeatAt (receives_on receiver.now) pass.new }
    ensures received { MatchResult result
        (λ message. view pass.new ≡ and_got (view pass.old) message)
        (λ _. view pass.new ≡ view pass.old) }
{
    for looks in 0..LOOKS {
        match receiver.try_recv_as::<Receives, R>(rt, pass) {
            Ok(message) => return Ok(message),
            Err(TryRecvError::Empty) => pause(rt, looks),
            Err(TryRecvError::Disconnected) => return Err(RecvError),
        }
    }
    receiver.recv_as::<Receives, R>(rt, pass)
}

// The table with one edge more; none where there is no memory for it, or was none for an earlier
// one.
fn with_edge(table: Option<Table>, edge: Edge, sample: Sample) -> Option<Table>
    ensures { (pairs : List (Edge × Sample)) → IfSome table (λ old. old ≡ once pairs)
        → IfSome result (λ new. new ≡ once (pairs ++ (edge, sample) ∷ [])) }
{
    let mut table = table?;
    match table.insert(edge, sample) {
        Ok(()) => Some(table),
        Err(_) => None,
    }
}

impl Served {
    /// Whether receiving ended before the end mark came: the collector's end was dropped without an
    /// [`end`](crate::Outlet::end).
    pub fn cut(&self) -> bool
        ensures { result ≡ self.now.cut }
    {
        self.cut
    }

    /// The table of all edges that were sent, each with its least sample. It takes no memory.
    ///
    /// # Errors
    ///
    /// [`ServeFault::Cut`] where receiving ended before the end mark came; else
    /// [`ServeFault::Memory`] where the worker had no memory for an edge.
    pub fn settle(self, sent: Sent) -> Result<Table, ServeFault>
        requires one_feed { self.feed ≡ sent.feed }
        ensures table { IfOk result (λ table. table ≡ once sent.sent) }
        ensures cut { (result ≡ Err Cut) ↔ (self.cut ≡ true) }
        ensures memory { (result ≡ Err Memory)
            ↔ ((self.cut ≡ false) × (self.short ≡ true)) }
        ensures received { IsPrefix self.received sent.sent }
        ensures all_received { self.cut ≡ false → self.received ≡ sent.sent }
    {
        let Served { pass, cut, table } = self;
        let Sent {
            sender,
            pass: mut both,
        } = sent;
        sender.absorb::<Roles>(&mut both, pass);
        sender.learn_as::<Whole>(&mut both);
        if cut {
            return Err(ServeFault::Cut);
        }
        table.ok_or(ServeFault::Memory)
    }
}
