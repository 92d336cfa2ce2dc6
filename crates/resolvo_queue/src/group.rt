//! Which clauses a question goes through at a time.
ghost use Rattle.std.specs.Prelude.{◌≡◌};

use crate::tracked_clause::Position;

/// The clauses of one parent, or those of all. In the order of the scan a parent's clauses lie side by side.
#[derive(Clone, Copy)]
pub(crate) enum Group {
    /// Those of the parent whose first clause has this number.
    OfParent(u32),
    OfAllParents,
}

impl Group {
    ghost use Rattle.resolvo_queue.specs.Pick.Groups.{is_in, only_in, start_of};

    /// None of its positions is before this one.
    pub(crate) fn start(self) -> Position
        ensures { result ≡ start_of self }
    {
        match self {
            Group::OfParent(first) => Position {
                first_of_parent: first,
                number: 0,
            },
            Group::OfAllParents => Position {
                first_of_parent: 0,
                number: 0,
            },
        }
    }

    /// Whether the clause at the position is one of them.
    pub(crate) fn includes(self, position: Position) -> bool
        ensures { result ≡ is_in self position }
    {
        match self {
            Group::OfParent(first) => position.first_of_parent == first,
            Group::OfAllParents => true,
        }
    }

    /// A position that was found, if it is of the group.
    pub(crate) fn only(self, found: Option<Position>) -> Option<Position>
        ensures { result ≡ only_in self found }
    {
        match found {
            Some(position) if self.includes(position) => Some(position),
            _ => None,
        }
    }

    /// Of two positions that were found those that are of the group.
    pub(crate) fn only_both(
        self,
        found: (Option<Position>, Option<Position>),
    ) -> (Option<Position>, Option<Position>)
        ensures first { result.0 ≡ only_in self found.0 }
        ensures second { result.1 ≡ only_in self found.1 }
    {
        (self.only(found.0), self.only(found.1))
    }
}
