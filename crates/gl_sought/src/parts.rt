//! Parts of a table, for several threads.
ghost use Rattle.std.specs.Prelude.{◌≡◌, ◌≤◌};

/// Each so many-th position of a table, from one on, and how much may be done for all parts. Nothing
/// relies on which positions these are.
#[derive(Clone, Copy, Debug)]
pub struct Part {
    /// Which of the parts it is, from 0.
    pub number: usize,
    /// How many parts there are: every so many-th position is in one.
    pub of: usize,
    /// How much may be done for all parts.
    pub effort: usize,
}

impl Part {
    /// All positions.
    pub fn whole() -> Part {
        Part::one(0, 1)
    }

    /// One of so many parts, by its number from 0.
    pub fn one(number: usize, of: usize) -> Part
        ensures number { result.number ≡ number }
        ensures of { result.of ≡ of }
    {
        Part {
            number,
            of,
            effort: usize::MAX,
        }
    }

    /// The same part, where no more than so much may be done for all parts.
    pub fn within(self, effort: usize) -> Part
        ensures { result ≡ record { number = self.number; of = self.of; effort = effort } }
    {
        Part { effort, ..self }
    }

    /// Whether a position is in this part.
    pub fn has(self, position: usize) -> bool {
        self.of == 0 || position % self.of == self.number
    }

    /// What this part has of something that is dealt out evenly, as far as it may be done.
    pub fn share_of(self, all: usize) -> usize
        ensures all { result ≤ all }
        ensures effort { result ≤ self.effort }
    {
        let some = all.min(self.effort);
        if self.of == 0 {
            return some;
        }
        some / self.of
    }
}
