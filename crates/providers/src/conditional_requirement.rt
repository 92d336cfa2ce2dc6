//! Requirements that may count only under a condition.
ghost use Rattle.std.specs.Prelude.{◌≡◌, None};

use crate::requirement::Requirement;
use typed_ids::{
    ConditionId, OrderedByParts, SameClone, SameValue, VersionSetId, VersionSetUnionId,
};

/// A requirement, and the condition under which alone it counts; without one it always does.
#[derive(Clone, Copy, Debug, PartialEq, Eq, PartialOrd, Ord, Hash)]
pub struct ConditionalRequirement {
    /// When the requirement counts; always, if there is none.
    pub condition: Option<ConditionId>,
    /// What is required.
    pub requirement: Requirement,
}

/// The requirement, always.
impl From<Requirement> for ConditionalRequirement {
    ghost from_gives = { λ requirement made. (made.condition ≡ None) × (made.requirement ≡ requirement) };

    fn from(requirement: Requirement) -> Self {
        ConditionalRequirement {
            condition: None,
            requirement,
        }
    }
}

/// A candidate of the version set, always.
impl From<VersionSetId> for ConditionalRequirement {
    ghost use Rattle.providers.specs.declared.requirement.Requirement.TheVariants.{Single};

    ghost from_gives = { λ set made. (made.condition ≡ None) × (made.requirement ≡ Single set) };

    fn from(set: VersionSetId) -> Self {
        ConditionalRequirement::from(Requirement::Single(set))
    }
}

/// A candidate of a set of the union, always.
impl From<VersionSetUnionId> for ConditionalRequirement {
    ghost use Rattle.providers.specs.declared.requirement.Requirement.TheVariants.{Union};

    ghost from_gives = { λ union made. (made.condition ≡ None) × (made.requirement ≡ Union union) };

    fn from(union: VersionSetUnionId) -> Self {
        ConditionalRequirement::from(Requirement::Union(union))
    }
}

impl SameValue for ConditionalRequirement {
    ghost use Rattle.std.proofs.Common.{rules};

    ghost same = { λ a b h. Prim.search rules };
}

impl SameClone for ConditionalRequirement {
    ghost use Rattle.std.proofs.Common.{rules};

    ghost clone_is_same = { λ a b h. Prim.search rules };
}

impl OrderedByParts for ConditionalRequirement {
    ghost use Rattle.providers.specs.Parts.{conditional_parts};
    ghost use Rattle.std.proofs.Common.{rules};

    ghost parts = { conditional_parts };

    ghost by_parts = { Prim.search rules };
}
