//! What a requires clause says.
use providers::Requirement;
use typed_ids::{DisjunctionId, VariableId};

/// If the parent is true, one of the rows of the requirement is, unless a literal of the condition's disjunction is
/// true.
#[derive(Clone, Copy, Debug, PartialEq, Eq)]
pub struct Demand {
    /// The variable of what asks.
    pub parent: VariableId,
    /// What is required.
    pub requirement: Requirement,
    /// The literals of which one is true if nothing is required.
    pub condition: Option<DisjunctionId>,
}
