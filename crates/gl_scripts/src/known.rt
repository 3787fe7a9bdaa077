//! The edges of lists of events, and the order of their segments.
ghost use Rattle.gl_event.specs.Bounds.{greatest};
ghost use Rattle.gl_event.specs.Lawful.{AreLawful, lists_of};
ghost use Rattle.gl_event.specs.declared.events.Event.{Event};

use crate::say::{Stop, refused};
use gl_edges::{EdgeList, edges_of};
use gl_event::Event;
use gl_segments::{Order, OrderFault};

/// What is known of lists.
#[derive(Drop)]
pub(crate) struct Known {
    pub(crate) edges: EdgeList,
    pub(crate) order: Order,
}

// The edges of the lists, for which memory may be refused once.
fn edges(rt: &HostRuntime, lists: &[Vec<Event>]) -> Result<EdgeList, Stop>
    requires lawful { AreLawful greatest (lists_of lists.now) }
{
    if let Ok(edges) = edges_of(rt.alloc(), lists) {
        return Ok(edges);
    }
    refused(rt, "edges_of", &lists.len());
    Ok(edges_of(rt.alloc(), lists)?)
}

// The order of the lists' segments.
fn order_of(rt: &HostRuntime, lists: &[Vec<Event>]) -> Result<Order, Stop>
    requires lawful { AreLawful greatest (lists_of lists.now) }
{
    match Order::of(rt.alloc(), lists) {
        Ok(order) => Ok(order),
        Err(OrderFault::Memory) => Err(Stop::Memory),
        Err(OrderFault::Inconsistent { .. }) => Err(Stop::Astray),
    }
}

// The same, for which memory may be refused once.
fn order(rt: &HostRuntime, lists: &[Vec<Event>]) -> Result<Order, Stop>
    requires lawful { AreLawful greatest (lists_of lists.now) }
{
    if let Ok(order) = order_of(rt, lists) {
        return Ok(order);
    }
    refused(rt, "order", &lists.len());
    order_of(rt, lists)
}

/// What is known of the lists, if they are lawful.
pub(crate) fn known_of(rt: &HostRuntime, lists: &[Vec<Event>]) -> Result<Known, Stop> {
    if !gl_worked::lawful::are_lawful(lists) {
        return Err(Stop::Astray);
    }
    let edges = edges(rt, lists)?;
    let order = order(rt, lists)?;
    Ok(Known { edges, order })
}
