//! Laws of the definitions, each the contract of a function that does nothing.
ghost use Rattle.gl_intake.specs.Stream.{IsNeverForMemory, IsRefusedUnlessNext};

/// A note has no refusal exactly where it is its thread's next one.
pub fn notes_are_refused_unless_next()
    ensures { IsRefusedUnlessNext }
{}

/// What may not come next is refused for another reason than want of memory.
pub fn refusals_are_never_for_memory()
    ensures { IsNeverForMemory }
{}
