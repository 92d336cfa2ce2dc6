//! Requires clauses, as the incremental queue keeps them.
ghost use Rattle.std.specs.Prelude.{◌≡◌};
ghost use Rattle.resolvo_queue.specs.Pick.Inspection.{clause_of};

use crate::requires_clause::RequiresClause;
use providers::Requirement;
use typed_ids::{ClauseId, DisjunctionId, VariableId};

/// The number of the first clause of a clause's parent, then the clause's own number. Both are numbers of
/// registration, so positions are stable, and their order is that of the scan: by the parents' first registrations,
/// then by the order within a parent.
#[derive(Clone, Copy, Debug, PartialEq, Eq, PartialOrd, Ord)]
pub struct Position {
    pub first_of_parent: u32,
    pub number: u32,
}

/// A registered clause.
#[derive(Clone, Copy, Debug, PartialEq, Eq)]
pub(crate) struct TrackedClause {
    pub(crate) parent: VariableId,
    pub(crate) requirement: Requirement,
    /// The place of the requirement's record.
    pub(crate) record: usize,
    pub(crate) condition: Option<DisjunctionId>,
    pub(crate) clause_id: ClauseId,
    /// One more than the number of the newest clause before it that has the same condition, 0 if there is none.
    pub(crate) earlier: u32,
    pub(crate) position: Position,
    /// Whether a name of the requirement was ever marked hot. A clause that isn't hot has the score 0.
    pub(crate) is_hot: bool,
}

impl TrackedClause {
    /// The clause as it was registered.
    pub(crate) fn clause(&self) -> RequiresClause
        ensures { result ≡ clause_of self.now }
    {
        RequiresClause {
            parent: self.parent,
            requirement: self.requirement,
            condition: self.condition,
            clause_id: self.clause_id,
        }
    }
}
