//! Ids with gaps between their numbers.
ghost use Rattle.std.specs.Prelude.{◌≡◌};

use crate::same_clone::SameClone;
use crate::same_value::SameValue;
use std::fmt;
use std::hash::{BuildHasherDefault, DefaultHasher};
use std::marker::{Model, PhantomData};

/// A sparse id of the domain that `Tag` names, stored as a `Repr`. Hash tables with such keys use the hasher `H`. In a
/// contract the id is its raw number.
#[derive_where(Clone, Copy, PartialEq, Eq, Hash; Repr)]
pub struct SparseId<Tag, Repr = u32, H = BuildHasherDefault<DefaultHasher>> {
    raw: Repr,
    #[derive_where(skip)]
    tag: PhantomData<(Tag, H)>,
}

impl<Tag, Repr, H> Model for SparseId<Tag, Repr, H> {
    ghost Value = { Repr };

    ghost view = { λ a. a.raw };

    ghost inverse = { λ r. record { raw = r; tag = record {} } };
}

impl<Tag, Repr: Copy, H> SparseId<Tag, Repr, H> {
    /// The id with this raw number.
    pub fn from_raw(raw: Repr) -> Self
        ensures { result ≡ raw }
    {
        SparseId {
            raw,
            tag: PhantomData,
        }
    }

    /// The raw number.
    pub fn into_raw(self) -> Repr
        ensures { result ≡ self }
    {
        self.raw
    }
}

/// Writes the raw number.
impl<Tag, Repr: fmt::Debug, H> fmt::Debug for SparseId<Tag, Repr, H> {
    ghost debug_output = { λ a. Repr.debug_output a };

    fn fmt<W: fmt::Write>(&self, f: &mut fmt::Formatter<W>) -> fmt::Result {
        self.raw.fmt(f)
    }
}

impl<Tag, Repr: SameClone, H> SameClone for SparseId<Tag, Repr, H> {
    ghost use Rattle.std.proofs.Common.{rules};

    ghost clone_is_same = { λ a b h. Prim.search rules };
}

impl<Tag, Repr: SameValue, H> SameValue for SparseId<Tag, Repr, H> {
    ghost use Rattle.std.proofs.Common.{rules};

    ghost same = { λ a b h. Repr.same a b (Prim.search rules) };
}
