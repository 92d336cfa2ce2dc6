//! The key of a group of literals: what they belong to.
use providers::Requirement;
use typed_ids::{DisjunctionId, VariableId};

/// What the literals of a group belong to. Clauses with the same key share the group.
#[derive(Clone, Copy, Debug, PartialEq, Eq)]
pub(crate) enum GroupKey {
    /// The negation of a parent.
    Parent(VariableId),
    /// The literals of a condition's disjunction.
    Condition(DisjunctionId),
    /// The variables of a requirement's rows, its candidates, list by list.
    Rows(Requirement),
}
