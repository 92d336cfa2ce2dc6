//! Unions of version sets.
use crate::default_value::DefaultValue;
use crate::dense_index::DenseIndex;
use crate::ordered_by_parts::OrderedByParts;
use crate::same_clone::SameClone;
use crate::same_value::SameValue;

/// A union of version sets, perhaps of several packages.
#[derive(Clone, Copy, Debug, Default, PartialEq, Eq, PartialOrd, Ord, Hash)]
pub struct VersionSetUnionId(pub u32);

impl DenseIndex for VersionSetUnionId {
    ghost use Rattle.std.specs.Prelude.{◌^◌, ℕ, refl};
    ghost use Rattle.std.proofs.Common.{ap};

    ghost limit = { 2 ^ 32 };

    ghost index_of = { λ x. x.0 };

    ghost id_at = { λ n. record { 0 = n } };

    ghost round_trip = { λ x h. refl };

    ghost distinct = { λ a b h. ap (λ (n : ℕ). record { 0 = n }) h };

    fn in_range(index: usize) -> bool {
        index <= u32::MAX as usize
    }

    fn from_index(index: usize) -> VersionSetUnionId {
        VersionSetUnionId(index as u32)
    }

    fn to_index(self) -> usize {
        self.0 as usize
    }
}

impl SameClone for VersionSetUnionId {
    ghost use Rattle.std.proofs.Common.{rules};

    ghost clone_is_same = { λ a b h. Prim.search rules };
}

impl SameValue for VersionSetUnionId {
    ghost use Rattle.std.proofs.Common.{rules};

    ghost same = { λ a b h. Prim.search rules };
}

impl OrderedByParts for VersionSetUnionId {
    ghost use Rattle.std.specs.Prelude.{[], ◌∷◌};
    ghost use Rattle.std.proofs.Common.{rules};

    ghost parts = { λ x. x.0 ∷ [] };

    ghost by_parts = { λ a b. Prim.search rules };
}

/// The default is the id of index 0.
impl DefaultValue for VersionSetUnionId {
    ghost use Rattle.std.proofs.Common.{rules};

    ghost default_value = { record { 0 = 0 } };

    ghost default_is = { Prim.search rules };

    ghost only_default = { λ x h. Prim.search rules };
}
