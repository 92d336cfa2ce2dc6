//! Conditions: when a requirement counts.
use typed_ids::{ConditionId, OrderedByParts, SameClone, SameValue, VersionSetId};

/// What has to hold of what is picked: that a candidate of a version set is, or what two other conditions say together.
#[derive(Clone, Copy, Debug, PartialEq, Eq, PartialOrd, Ord, Hash)]
pub enum Condition {
    /// It is met as the operator says of two others.
    Binary(LogicalOperator, ConditionId, ConditionId),
    /// It is met where a candidate of this version set is picked.
    Requirement(VersionSetId),
}

/// How two conditions make one.
#[derive(Clone, Copy, Debug, PartialEq, Eq, PartialOrd, Ord, Hash)]
pub enum LogicalOperator {
    /// Both are met.
    And,
    /// One of them is met, or both are.
    Or,
}

impl SameValue for Condition {
    ghost use Rattle.std.proofs.Common.{rules};

    ghost same = { λ a b h. Prim.search rules };
}

impl SameClone for Condition {
    ghost use Rattle.std.proofs.Common.{rules};

    ghost clone_is_same = { λ a b h. Prim.search rules };
}

impl OrderedByParts for Condition {
    ghost use Rattle.providers.specs.Parts.{condition_parts};
    ghost use Rattle.std.proofs.Common.{rules};

    ghost parts = { condition_parts };

    ghost by_parts = { Prim.search rules };
}

impl SameValue for LogicalOperator {
    ghost use Rattle.std.proofs.Common.{rules};

    ghost same = { λ a b h. Prim.search rules };
}

impl SameClone for LogicalOperator {
    ghost use Rattle.std.proofs.Common.{rules};

    ghost clone_is_same = { λ a b h. Prim.search rules };
}

impl OrderedByParts for LogicalOperator {
    ghost use Rattle.providers.specs.Parts.{operator_parts};
    ghost use Rattle.std.proofs.Common.{rules};

    ghost parts = { operator_parts };

    ghost by_parts = { Prim.search rules };
}
