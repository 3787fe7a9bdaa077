//! Laws of the order of segments. Each is the contract of a function that does nothing.
ghost use Rattle.gl_segments.specs.Laws.{BeforeIsTransitive, BeforeIsBetweenSegments, EarlierIsBefore, TestsAgree, FrontsAreConsistent};

/// What is before a segment that is before another is before that one too.
pub fn before_is_transitive()
    ensures { BeforeIsTransitive }
{}

/// Only segments of the lists are before others, and only before segments of the lists.
pub fn before_is_between_segments()
    ensures { BeforeIsBetweenSegments }
{}

/// A thread's earlier segments are before its later ones.
pub fn earlier_is_before()
    ensures { EarlierIsBefore }
{}

/// Two tests that decide what is before what in the same lists agree.
pub fn tests_agree()
    ensures { TestsAgree }
{}

/// Where lists are consistent, so are the lists of each thread's first events.
pub fn fronts_are_consistent()
    ensures { FrontsAreConsistent }
{}
