//! What holds of all texts. Each of these functions does nothing: its contract is a law.
ghost use Rattle.gl_std.specs.Laws.{FaultsComeFirst, ReadingGoesOn, TracesGrow, TracesObeyLimits, TracesTellLines};
ghost use Rattle.gl_std.specs.Line.{LinesSayOneThing};
ghost use Rattle.gl_std.specs.Lines.{LinesAreUnique, LinesFollowLines};

/// A text has one list of lines.
pub fn lines_are_unique()
    ensures { LinesAreUnique }
{}

/// What follows an LF has lines of its own, whatever stands before it.
pub fn lines_follow_lines()
    ensures { LinesFollowLines }
{}

/// Each line, taken alone, says one thing.
pub fn lines_say_one_thing()
    ensures { LinesSayOneThing }
{}

/// A text's trace obeys the limits: its lists are lawful, and whatever they speak of has one name.
pub fn traces_obey_limits()
    ensures { TracesObeyLimits }
{}

/// A text is read piece by piece: what follows an LF goes on from the trace of what stands before it.
pub fn reading_goes_on()
    ensures { ReadingGoesOn }
{}

/// More text tells more, and changes nothing of what the text before it told: a name keeps its
/// number, and a thread's list goes on from where it was.
pub fn traces_grow()
    ensures { TracesGrow }
{}

/// The trace of a text tells the lines that are kept as events: names have numbers by first mention,
/// and each thread's events are those of its lines, in order.
pub fn traces_tell_lines()
    ensures { TracesTellLines }
{}

/// The fault of a text is that of its first line at fault: the lines before it have a trace. Of the
/// reasons that fit a line, those of the line alone come first, then those of the locks that its
/// thread holds, then the limits.
pub fn faults_come_first()
    ensures { FaultsComeFirst }
{}
