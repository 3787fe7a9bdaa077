//! Whether whole lists of events are lawful.
ghost use Rattle.std.specs.Prelude.{◌↔◌, ◌<◌, IsTrue};
ghost use Rattle.gl_event.specs.Lawful.{AreLawful, IsLawful, lists_of};
ghost use Rattle.gl_event.specs.declared.events.Event.{Event};

use crate::taker::Taker;
use gl_event::{Event, Limits, ThreadId};

/// Whether each event of the thread's list may come next after those before it. It takes a step for
/// each event, and no memory.
pub fn is_lawful(limits: &Limits, thread: ThreadId, list: &[Event]) -> bool
    requires { thread < limits.now.threads }
    ensures { IsTrue result ↔ IsLawful limits.now thread list.now }
{
    let mut taker = Taker::new(thread, limits);
    for event in list {
        if taker.take(*event).is_err() {
            return false;
        }
    }
    true
}

/// Whether there are no more lists than there may be threads, and each is lawful for the thread
/// whose number is its position. It takes a step for each event, and no memory.
pub fn are_lawful(limits: &Limits, lists: &[Vec<Event>]) -> bool
    ensures { IsTrue result ↔ AreLawful limits.now (lists_of lists.now) }
{
    if lists.len() > limits.threads() as usize {
        return false;
    }
    for (number, list) in lists.iter().enumerate() {
        if !is_lawful(limits, ThreadId::new(number as u32), list.as_slice()) {
            return false;
        }
    }
    true
}
