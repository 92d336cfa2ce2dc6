//! Positions of clauses: of several falsified clauses the one with the least position is first.

/// The position of a clause. Positions are ordered by the first number, and by the second if the first is the same: so
/// the clauses of one parent follow one another, and parents come in the order of their first clauses.
#[derive(Clone, Copy, Debug, PartialEq, Eq, PartialOrd, Ord)]
pub(crate) struct Position {
    /// The number of the first clause that has the same parent.
    pub(crate) first_of_parent: u32,
    /// The clause's own number.
    pub(crate) number: u32,
}
