//! Candidates of packages.
use crate::dense_index::DenseIndex;
use crate::same_clone::SameClone;
use crate::same_value::SameValue;
use std::marker::Model;

/// The candidates of one package, kept by a cache.
#[derive(Clone, Copy, Debug, PartialEq, Eq, Hash)]
pub struct CandidatesId(u32);

impl Model for CandidatesId {
    ghost use Rattle.std.specs.Prelude.{ℕ};

    ghost Value = { ℕ };

    ghost view = { λ a. a.0 };

    ghost inverse = { λ n. record { 0 = n } };
}

impl DenseIndex for CandidatesId {
    ghost use Rattle.std.specs.Prelude.{◌^◌, refl};

    ghost limit = { 2 ^ 32 };

    ghost index_of = { λ x. x };

    ghost id_at = { λ x. x };

    ghost round_trip = { λ x h. refl };

    ghost distinct = { λ a b h. h };

    fn in_range(index: usize) -> bool {
        index <= u32::MAX as usize
    }

    fn from_index(index: usize) -> CandidatesId {
        CandidatesId(index as u32)
    }

    fn to_index(self) -> usize {
        self.0 as usize
    }
}

impl SameClone for CandidatesId {
    ghost use Rattle.std.proofs.Common.{rules};

    ghost clone_is_same = { λ a b h. Prim.search rules };
}

impl SameValue for CandidatesId {
    ghost use Rattle.std.proofs.Common.{rules};

    ghost same = { λ a b h. Prim.search rules };
}
