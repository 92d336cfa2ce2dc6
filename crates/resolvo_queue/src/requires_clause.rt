//! Requires clauses, as a queue keeps them.
use providers::Requirement;
use typed_ids::{ClauseId, DisjunctionId, SameClone, SameValue, VariableId};

/// The clause that a parent, if it is true, has its requirement met, unless a literal of the condition's disjunction is
/// true.
#[derive(Clone, Copy, Debug, PartialEq, Eq)]
pub struct RequiresClause {
    pub parent: VariableId,
    pub requirement: Requirement,
    pub condition: Option<DisjunctionId>,
    pub clause_id: ClauseId,
}

impl SameValue for RequiresClause {
    ghost use Rattle.std.proofs.Common.{rules};

    ghost same = { λ a b h. Prim.search rules };
}

impl SameClone for RequiresClause {
    ghost use Rattle.std.proofs.Common.{rules};

    ghost clone_is_same = { λ a b h. Prim.search rules };
}
