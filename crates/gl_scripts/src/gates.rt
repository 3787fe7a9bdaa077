//! A worker whose gate takes memory of its own.
ghost use Rattle.std.specs.Prelude.{◌≡◌, IfOk};

use crate::say::{Stop, refused, say};
use crate::settling::{roomy_feed, settle_worker};
use crate::tables::{known_edge, sample_at};
use gl_shards::{Gate, Outlet, Sent, serve};
use std::sync::Wait;

// A gate that takes memory for what it is passed with. It prints that, or that there was no memory for it,
// and lets the worker go on all the same.
#[derive(Drop)]
struct GrowingGate<'r> {
    rt: &'r HostRuntime,
}

impl Gate for GrowingGate<'_> {
    fn pass(&self, shard: u32, taken: u64) {
        match vec![in self.rt.alloc(); shard as u64, taken] {
            Ok(passed) => say(self.rt, "gate", &passed.as_slice()),
            Err(_) => refused(self.rt, "gate", &(shard, taken)),
        }
    }
}

// Sends the edge to this lock, for which memory may be refused once.
fn send<W: Wait>(rt: &HostRuntime, waits: &W, outlet: &mut Outlet, wanted: u32) -> Result<(), Stop>
    ensures feed { outlet.new.feed ≡ outlet.old.feed }
{
    let edge = known_edge(rt, wanted)?;
    match outlet.send(waits, edge, sample_at(wanted)) {
        Ok(()) => Ok(()),
        Err(_) => Err(Stop::Astray),
    }
}

// Sends two edges and the end mark.
fn send_all<W: Wait>(rt: &HostRuntime, waits: &W, outlet: Outlet) -> Result<Sent, Stop>
    ensures feed { IfOk result (λ sent. sent.feed ≡ outlet.feed) }
{
    let mut outlet = outlet;
    send(rt, waits, &mut outlet, 1)?;
    send(rt, waits, &mut outlet, 2)?;
    match outlet.end(waits) {
        Ok(sent) => Ok(sent),
        Err(_) => Err(Stop::Astray),
    }
}

// The worker of shard 1 serves a feed that has two edges. Whether it got memory for its table.
fn is_served<W: Wait>(rt: &HostRuntime, waits: &W) -> Result<bool, Stop> {
    let (outlet, inlet) = roomy_feed(rt)?;
    let sent = send_all(rt, waits, outlet)?;
    let served = serve(waits, rt.alloc(), inlet, 1, &GrowingGate { rt });
    Ok(settle_worker(rt, served, sent)?.is_some())
}

/// A worker that has to pass its gate before it puts an edge into its table: of the growths for the first edge
/// the gate's comes first. The script begins once more where memory was refused to the worker.
pub(crate) fn gate_before_table<W: Wait>(rt: &HostRuntime, waits: &W) -> Result<(), Stop> {
    if is_served(rt, waits)? {
        return Ok(());
    }
    if is_served(rt, waits)? {
        return Ok(());
    }
    Err(Stop::Memory)
}
