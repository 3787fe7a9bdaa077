//! Why a session gives no report.
ghost use Rattle.std.specs.Prelude.{◌≡◌, ◌≢◌, List};
ghost use Rattle.gl_event.specs.declared.events.Event.{Event};
ghost use Rattle.gl_segments.specs.Orders.{IsFaultOf};
ghost use Rattle.gl_engine.specs.declared.faults.SettleFault.TheVariants.{Memory as NotSettled};
ghost use Rattle.gl_live.specs.Faults.{IsLiveFault, live_fault_of};
ghost use Rattle.gl_live.specs.declared.faults.LiveFault.TheVariants.{Memory, Unconfirmed};
ghost use Rattle.gl_shards.specs.declared.worker.ServeFault.TheVariants.{Cut, Memory as NotServed};

use gl_engine::SettleFault;
use gl_event::Segment;
use gl_segments::OrderFault;
use gl_shards::ServeFault;
use gl_std::LinesFault;

/// Why a session gives no report.
#[derive(Drop, Debug)]
pub enum LiveFault {
    /// A segment is before itself: the least one, by thread and index, and a ring of segments that
    /// begins with it, each one step from the one before and the first from the last.
    Inconsistent { at: Segment, ring: Vec<Segment> },
    /// Memory was refused.
    Memory,
    /// A thread couldn't be started, or it isn't confirmed that all events were recorded and collected.
    Unconfirmed,
}

/// Why a session over a text gives no report.
#[derive(Drop, Debug)]
pub enum StreamFault {
    /// The text has no trace, or couldn't be read to its end.
    Text(LinesFault),
    /// The session gives none: before any of the text was read, or once all of it was told.
    Session(LiveFault),
}

/// Why there is no report where the segments have no order.
pub fn unordered(fault: OrderFault) -> LiveFault
    ensures same { result ≡ live_fault_of fault }
    ensures fault { (lists : List (List Event)) → IsFaultOf lists fault
        → IsLiveFault lists result }
{
    match fault {
        OrderFault::Inconsistent { at, ring } => LiveFault::Inconsistent { at, ring },
        OrderFault::Memory => LiveFault::Memory,
    }
}

/// Why nothing was settled.
pub fn unsettled(fault: SettleFault) -> LiveFault
    ensures fault { (lists : List (List Event)) → IsLiveFault lists result }
    ensures memory { fault ≡ NotSettled → result ≡ Memory }
    ensures others { fault ≢ NotSettled → result ≡ Unconfirmed }
{
    match fault {
        SettleFault::Memory => LiveFault::Memory,
        _ => LiveFault::Unconfirmed,
    }
}

/// Why a worker has no table.
pub fn unserved(fault: ServeFault) -> LiveFault
    ensures fault { (lists : List (List Event)) → IsLiveFault lists result }
    ensures memory { fault ≡ NotServed → result ≡ Memory }
    ensures cut { fault ≡ Cut → result ≡ Unconfirmed }
{
    match fault {
        ServeFault::Memory => LiveFault::Memory,
        ServeFault::Cut => LiveFault::Unconfirmed,
    }
}
