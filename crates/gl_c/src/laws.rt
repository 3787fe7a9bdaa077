//! What holds of what the calls say of themselves. The function here does nothing: its contract is a law.
ghost use Rattle.gl_c.specs.Mentioning.{SameTalesSameReport};

/// Sessions whose threads did the same give the same report by mention, printed by the same names: in whichever
/// order locks and places were told.
pub fn same_tales_same_report()
    ensures { SameTalesSameReport }
{}
