//! What is known of lists of events.
use crate::lawful::are_lawful;
use crate::ops::{Op, lists_of};
use gl_edges::{EdgeList, edges_of};
use gl_event::Event;
use gl_segments::{Order, OrderFault};
use std::alloc::Global;

/// The edges of lists of events, and the order of their segments.
#[derive(Drop)]
pub struct Known {
    /// The edges.
    pub edges: EdgeList,
    /// The order of segments.
    pub order: Order,
}

/// What is known of the lists. None where they aren't lawful or wait for each other, or memory was refused.
pub fn known_of(alloc: Global, lists: &[Vec<Event>]) -> Option<Known> {
    let order = order_of(alloc, lists)?.ok()?;
    Some(Known {
        edges: lawful_edges(alloc, lists)?,
        order,
    })
}

/// What is known of the lists of these events. None as with [`known_of`].
pub fn known_in(alloc: Global, lists: &[&[Op]]) -> Option<Known> {
    let lists = lists_of(alloc, lists)?;
    known_of(alloc, &lists)
}

/// The order of the segments of the lists, or why there is none. None where they aren't lawful.
pub fn order_of(alloc: Global, lists: &[Vec<Event>]) -> Option<Result<Order, OrderFault>> {
    if are_lawful(lists) {
        return Some(Order::of(alloc, lists));
    }
    None
}

/// The edges of the lists. None where they aren't lawful, or memory was refused.
pub fn lawful_edges(alloc: Global, lists: &[Vec<Event>]) -> Option<EdgeList> {
    if are_lawful(lists) {
        return edges_of(alloc, lists).ok();
    }
    None
}
