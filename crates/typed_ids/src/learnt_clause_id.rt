//! Learnt clauses.
use crate::dense_index::DenseIndex;
use crate::same_clone::SameClone;
use std::marker::Model;

/// The literals of a learnt clause, kept by a store.
#[derive(Clone, Copy, Debug)]
pub struct LearntClauseId(u32);

impl Model for LearntClauseId {
    ghost use Rattle.std.specs.Prelude.{ℕ};

    ghost Value = { ℕ };

    ghost view = { λ a. a.0 };

    ghost inverse = { λ n. record { 0 = n } };
}

impl DenseIndex for LearntClauseId {
    ghost use Rattle.std.specs.Prelude.{◌^◌, refl};

    ghost limit = { 2 ^ 32 };

    ghost index_of = { λ x. x };

    ghost id_at = { λ x. x };

    ghost round_trip = { λ x h. refl };

    ghost distinct = { λ a b h. h };

    fn in_range(index: usize) -> bool {
        index <= u32::MAX as usize
    }

    fn from_index(index: usize) -> LearntClauseId {
        LearntClauseId(index as u32)
    }

    fn to_index(self) -> usize {
        self.0 as usize
    }
}

impl SameClone for LearntClauseId {
    ghost use Rattle.std.proofs.Common.{rules};

    ghost clone_is_same = { λ a b h. Prim.search rules };
}
