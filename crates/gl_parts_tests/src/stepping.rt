//! A thread that is followed through all of its events.
use gl_edges::{Acquires, Edge, Sample};
use gl_event::{Event, Limits, Memory, ThreadId};
use gl_recorder::Taker;
use std::alloc::Global;

/// The edges of the events of thread 0, one event after the other, but for those of acquires that it made
/// before. Err where memory was refused.
pub fn unrepeated(alloc: Global, list: &[Event]) -> Result<Vec<(Edge, Sample)>, Memory> {
    let thread = ThreadId::new(0);
    let limits = Limits::greatest();
    let mut taker = Taker::new(thread, &limits);
    let mut acquires = Acquires::new(alloc, thread);
    let mut found = Vec::new(alloc);
    for event in list {
        acquires.add_new_edges(alloc, thread, taker.state(), event, &mut found)?;
        let _ = taker.take(*event);
    }
    Ok(found)
}
