//! Disjunctions. An id is kept as its index plus one, which its `Debug` text shows; a contract sees the index.
use crate::dense_index::DenseIndex;
use crate::ordered_by_parts::OrderedByParts;
use crate::same_clone::SameClone;
use crate::same_value::SameValue;
use std::marker::Model;

/// How many ids there are: 2^32 - 1.
const COUNT: usize = 4294967295;

/// The literals for one list of a condition's normal form, kept by a store.
#[derive(Clone, Copy, Debug, PartialEq, Eq, PartialOrd, Ord, Hash)]
pub struct DisjunctionId(u32);

impl Model for DisjunctionId {
    ghost use Rattle.std.specs.Prelude.{◌≡◌, ℕ, ◌-◌, ◌+◌, ◌<◌, ◌≤◌, ◌^◌};
    ghost use Rattle.std.proofs.Common.{arith, ap};

    ghost Value = { ℕ };

    ghost view = { λ a. a.0 - 1 };

    ghost invariant = { λ a. (1 ≤ a.0) × (a.0 < 2 ^ 32) };

    ghost inverse = { λ n. record { 0 = n + 1 } };

    ghost inverse_ok = { λ a h. let e : a.0 - 1 + 1 ≡ a.0 = Prim.omega arith in ap (λ (n : ℕ). record { 0 = n }) e };
}

impl DenseIndex for DisjunctionId {
    ghost use Rattle.std.specs.Prelude.{◌^◌, ◌-◌, refl};

    ghost limit = { 2 ^ 32 - 1 };

    ghost index_of = { λ x. x };

    ghost id_at = { λ x. x };

    ghost round_trip = { λ x h. refl };

    ghost distinct = { λ a b h. h };

    fn in_range(index: usize) -> bool {
        index < COUNT
    }

    fn from_index(index: usize) -> DisjunctionId {
        DisjunctionId(index as u32 + 1)
    }

    fn to_index(self) -> usize {
        (self.0 - 1) as usize
    }
}

impl SameClone for DisjunctionId {
    ghost use Rattle.std.proofs.Common.{rules};

    ghost clone_is_same = { λ a b h. Prim.search rules };
}

impl SameValue for DisjunctionId {
    ghost use Rattle.std.proofs.Common.{rules};

    ghost same = { λ a b h. Prim.search rules };
}

impl OrderedByParts for DisjunctionId {
    ghost use Rattle.std.specs.Prelude.{[], ◌∷◌};
    ghost use Rattle.std.proofs.Common.{rules};

    ghost parts = { λ x. x ∷ [] };

    ghost by_parts = { λ a b. Prim.search rules };
}
