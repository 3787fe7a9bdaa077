//! Laws of what is answered. Each is the contract of a function that does nothing.
ghost use Rattle.gl_commands.specs.Answer.{AnswersAreUnique, PlainAnswersAreUnique};

/// A text has one answer to a query: one text to be printed, or one line that says why there is none.
pub fn answers_are_unique()
    ensures { AnswersAreUnique }
{}

/// And it has one answer where no order is asked for.
pub fn plain_answers_are_unique()
    ensures { PlainAnswersAreUnique }
{}
