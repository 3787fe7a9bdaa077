//! The laws of running calls, each the contract of a function that does nothing.
ghost use Rattle.gl_engine.specs.Collecting.{UnpulledIsUnchanged};
ghost use Rattle.gl_engine.specs.Steps.{RecordIsTake, CloseIsEnd, PullIsPull};

/// **What a running call does is a step of the core's machine.** An event is recorded as the machine's
/// thread takes a wish, a recorder closes as the thread ends, and a note is pulled as the machine pulls
/// it: the answers are the machine's, the notes pushed, the stream and the edges made too. In two
/// places a running call does less: where an event may not come next, no wish is used up, and where
/// the lane is full the caller tries again. While a lane has its recorder's notes in order, no pull breaks
/// it.
pub fn running_calls_are_steps()
    ensures record { RecordIsTake }
    ensures close { CloseIsEnd }
    ensures pull { PullIsPull }
{}

/// A pull that takes no note off the lane changes nothing, but that a refused note breaks the lane; and
/// a broken lane answers the same to every later pull.
pub fn unpulled_is_unchanged()
    ensures { UnpulledIsUnchanged }
{}
