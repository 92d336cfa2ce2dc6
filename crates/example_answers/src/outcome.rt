//! What becomes of an index.
ghost use Rattle.std.specs.Prelude.{◌≡◌, max};
ghost use Rattle.example_answers.specs.Status.{status_of};

/// What becomes of an index, or of a whole input, from the best to the worst. Its number is the status of a program or
/// of a call.
#[derive(Clone, Copy, Debug, PartialEq, Eq)]
pub enum Outcome {
    /// Versions are picked.
    Picked = 0,
    /// There is no solution.
    NoSolution = 1,
    /// The search gave up: it made too many steps, was refused memory or an id, or found no solution and couldn't
    /// certify that there is none.
    GaveUp = 2,
    /// A line isn't in the format.
    Unreadable = 3,
    /// The input can't be read, or there is no place for the answer.
    Failed = 4,
}

impl Outcome {
    /// Its number.
    pub fn status(self) -> u8
        ensures { result ≡ status_of self }
    {
        self as u8
    }

    /// The worse of two.
    pub fn worse(self, other: Outcome) -> Outcome
        ensures { status_of result ≡ max (status_of self) (status_of other) }
    {
        if self.status() < other.status() {
            other
        } else {
            self
        }
    }
}
