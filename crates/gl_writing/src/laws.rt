//! What holds of what is written. Each of these functions does nothing: its contract is a law.
ghost use Rattle.gl_writing.specs.Written.{WrittenLinesSayEvents, WrittenTextsAreReadAgain, WrittenTextsSayTraces};

/// What is written of an event is one line, and read again that line says the same operation of the
/// same thread, operand and location, where a line can tell these names.
pub fn written_lines_say_events()
    ensures { WrittenLinesSayEvents }
{}

/// What is written of a trace that was read is lines that say, thread by thread, the events of its
/// lists: the same operations, in the same order, of the same threads, operands and locations.
pub fn written_texts_say_traces()
    ensures { WrittenTextsSayTraces }
{}

/// What is written of a trace that was read is read again under the same limits, with no line
/// skipped and no event a stray, and tells the same names and of each thread the same events. Only
/// numbers may differ: they go by first mention, and what is written goes thread by thread.
pub fn written_texts_are_read_again()
    ensures { WrittenTextsAreReadAgain }
{}
