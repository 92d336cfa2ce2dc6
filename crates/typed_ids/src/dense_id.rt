//! The ids of a pool's names and solvables.
ghost use Rattle.std.specs.Prelude.{◌≡◌};

use crate::dense_index::DenseIndex;
use crate::ordered_by_parts::OrderedByParts;
use crate::same_clone::SameClone;
use crate::same_value::SameValue;
use std::fmt;
use std::marker::{Model, PhantomData};

/// A dense id of the domain that `Tag` names, kept as a `Repr`. A contract sees the raw number.
#[derive_where(Clone, Copy, PartialEq, Eq, PartialOrd, Ord, Hash; Repr)]
pub struct DenseId<Tag, Repr = u32> {
    raw: Repr,
    #[derive_where(skip)]
    tag: PhantomData<Tag>,
}

impl<Tag, Repr> Model for DenseId<Tag, Repr> {
    ghost Value = { Repr };

    ghost view = { λ a. a.raw };

    ghost inverse = { λ r. record { raw = r; tag = record {} } };
}

impl<Tag, Repr: Copy> DenseId<Tag, Repr> {
    /// The id with this raw number.
    pub fn from_raw(raw: Repr) -> Self
        ensures { result ≡ raw }
    {
        DenseId {
            raw,
            tag: PhantomData,
        }
    }

    /// The raw number.
    pub fn into_raw(self) -> Repr
        ensures { result ≡ self }
    {
        self.raw
    }
}

/// Writes as the raw number does.
impl<Tag, Repr: fmt::Debug> fmt::Debug for DenseId<Tag, Repr> {
    ghost debug_output = { λ a. Repr.debug_output a };

    fn fmt<W: fmt::Write>(&self, f: &mut fmt::Formatter<W>) -> fmt::Result {
        self.raw.fmt(f)
    }
}

impl<Tag, Repr: DenseIndex> DenseIndex for DenseId<Tag, Repr> {
    ghost limit = { Repr.limit };

    ghost index_of = { λ x. Repr.index_of x };

    ghost id_at = { λ x. Repr.id_at x };

    ghost round_trip = { λ x h. Repr.round_trip x h };

    ghost distinct = { λ a b h. Repr.distinct a b h };

    fn in_range(index: usize) -> bool {
        Repr::in_range(index)
    }

    fn from_index(index: usize) -> Self {
        DenseId {
            raw: Repr::from_index(index),
            tag: PhantomData,
        }
    }

    fn to_index(self) -> usize {
        self.raw.to_index()
    }
}

impl<Tag, Repr: SameClone> SameClone for DenseId<Tag, Repr> {
    ghost use Rattle.std.proofs.Common.{rules};

    ghost clone_is_same = { λ a b h. Prim.search rules };
}

impl<Tag, Repr: SameValue> SameValue for DenseId<Tag, Repr> {
    ghost use Rattle.std.proofs.Common.{rules};

    ghost same = { λ a b h. Repr.same a b (Prim.search rules) };
}

/// The order is that of the raw numbers.
impl<Tag, Repr: OrderedByParts> OrderedByParts for DenseId<Tag, Repr> {
    ghost use Rattle.std.proofs.Common.{rules};

    ghost parts = { λ x. Repr.parts x };

    ghost by_parts = { λ a b. Prim.search rules };
}

/// The domain of names.
pub struct NameTag;

/// The domain of solvables.
pub struct SolvableTag;

/// The name of a package.
pub type NameId = DenseId<NameTag>;

/// A package in one version.
pub type SolvableId = DenseId<SolvableTag>;
