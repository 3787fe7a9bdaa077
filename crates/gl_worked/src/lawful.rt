//! Whether lists of events are lawful under the greatest limits, which their edges ask for.
ghost use Rattle.std.specs.Prelude.{IsTrue};
ghost use Rattle.gl_event.specs.Bounds.{greatest};
ghost use Rattle.gl_event.specs.Lawful.{AreLawful, IsLawful, lists_of};
ghost use Rattle.gl_event.specs.declared.events.Event.{Event};

use gl_event::{Event, Limits, MAX_THREADS, ThreadId};

/// Whether the list is lawful for the thread under the greatest limits. It takes a step for each event.
pub fn is_lawful(thread: ThreadId, list: &[Event]) -> bool
    ensures { IsTrue result → IsLawful greatest thread list.now }
{
    if thread.number() >= MAX_THREADS {
        return false;
    }
    gl_recorder::is_lawful(&Limits::greatest(), thread, list)
}

/// Whether the lists are lawful under the greatest limits, each for the thread whose number is its
/// position. It takes a step for each event.
pub fn are_lawful(lists: &[Vec<Event>]) -> bool
    ensures { IsTrue result → AreLawful greatest (lists_of lists.now) }
{
    gl_recorder::are_lawful(&Limits::greatest(), lists)
}
