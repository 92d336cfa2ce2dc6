//! What to decide next.
use typed_ids::{ClauseId, SameClone, SameValue, VariableId};

/// A candidate to try, and the clause that asks for it.
#[derive(Clone, Copy, Debug, PartialEq, Eq)]
pub struct QueueDecision {
    /// The first undecided candidate of the clause.
    pub candidate: VariableId,
    /// The clause's parent.
    pub required_by: VariableId,
    pub clause_id: ClauseId,
    /// The score of the candidate's package.
    pub package_activity: u64,
    /// How many candidates of the same version set are undecided.
    pub candidate_count: usize,
}

impl SameValue for QueueDecision {
    ghost use Rattle.std.proofs.Common.{rules};

    ghost same = { λ a b h. Prim.search rules };
}

impl SameClone for QueueDecision {
    ghost use Rattle.std.proofs.Common.{rules};

    ghost clone_is_same = { λ a b h. Prim.search rules };
}
