//! Variables. An id is kept as its index plus one, which its `Debug` text shows; a contract sees the index.
ghost use Rattle.std.specs.Prelude.{◌≡◌, ◌↔◌, IsTrue};

use crate::dense_index::DenseIndex;
use crate::ordered_by_parts::OrderedByParts;
use crate::same_clone::SameClone;
use crate::same_value::SameValue;
use std::marker::Model;

/// How many ids there are: 2^31 - 1.
const COUNT: usize = 2147483647;

/// A variable: 0 is the root's. Indexes end at 2^31 - 2, so that each variable has two literals of 32 bits.
/// [`DenseIndex`] makes one of its index.
#[derive(Clone, Copy, Debug, PartialEq, Eq, PartialOrd, Ord, Hash)]
pub struct VariableId(u32);

impl Model for VariableId {
    ghost use Rattle.std.specs.Prelude.{◌≡◌, ℕ, ◌-◌, ◌+◌, ◌<◌, ◌≤◌, ◌^◌};
    ghost use Rattle.std.proofs.Common.{arith, ap};

    ghost Value = { ℕ };

    ghost view = { λ a. a.0 - 1 };

    ghost invariant = { λ a. (1 ≤ a.0) × (a.0 < 2 ^ 31) };

    ghost inverse = { λ n. record { 0 = n + 1 } };

    ghost inverse_ok = { λ a h. let e : a.0 - 1 + 1 ≡ a.0 = Prim.omega arith in ap (λ (n : ℕ). record { 0 = n }) e };
}

impl VariableId {
    /// The variable of the root.
    pub fn root() -> VariableId
        ensures { result ≡ 0 }
    {
        VariableId(1)
    }

    /// Whether it is the variable of the root.
    pub fn is_root(self) -> bool
        ensures { IsTrue result ↔ (self ≡ 0) }
    {
        self.0 == 1
    }
}

impl DenseIndex for VariableId {
    ghost use Rattle.std.specs.Prelude.{◌^◌, ◌-◌, refl};

    ghost limit = { 2 ^ 31 - 1 };

    ghost index_of = { λ x. x };

    ghost id_at = { λ x. x };

    ghost round_trip = { λ x h. refl };

    ghost distinct = { λ a b h. h };

    fn in_range(index: usize) -> bool {
        index < COUNT
    }

    fn from_index(index: usize) -> VariableId {
        VariableId(index as u32 + 1)
    }

    fn to_index(self) -> usize {
        (self.0 - 1) as usize
    }
}

impl SameClone for VariableId {
    ghost use Rattle.std.proofs.Common.{rules};

    ghost clone_is_same = { λ a b h. Prim.search rules };
}

impl SameValue for VariableId {
    ghost use Rattle.std.proofs.Common.{rules};

    ghost same = { λ a b h. Prim.search rules };
}

impl OrderedByParts for VariableId {
    ghost use Rattle.std.specs.Prelude.{[], ◌∷◌};
    ghost use Rattle.std.proofs.Common.{rules};

    ghost parts = { λ x. x ∷ [] };

    ghost by_parts = { λ a b. Prim.search rules };
}
