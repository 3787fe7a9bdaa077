//! What holds of the definitions, for all lists of events. Each function here does nothing: its contract is a law.
ghost use Rattle.gl_renumbering.specs.Tales.{ListsByMentionTellTheSame, SameTalesSameLists};

/// Lists that tell the same, of the same threads, are the same by mention, and so are their names: whatever
/// numbers their locks and locations had.
pub fn same_tales_same_lists()
    ensures { SameTalesSameLists }
{}

/// The lists by mention tell what the lists tell, by the names by mention.
pub fn lists_by_mention_tell_the_same()
    ensures { ListsByMentionTellTheSame }
{}
