//! Ids that choose how the maps and sets kept by them are stored.
ghost use Rattle.std.specs.Prelude.{◌≡◌, ◌≤◌, ◌<◌, ◌^◌, Bool, true, false, List, length, nat_lt, ⊤};
ghost use Rattle.std.specs.List.{All, IsDistinct};
ghost use Rattle.std.proofs.Common.{refl, true≢false};
ghost use Rattle.id_maps.specs.FewIds.{few_ids};

use crate::id_map::IdMap;
use crate::id_set::IdSet;
use crate::indexed_set::IndexedSet;
use crate::slot::Slot;
use indexmap::IndexMap;
use std::alloc::Allocator;
use std::collections::HashSet;
use std::hash::BuildHasher;
use typed_ids::{DenseId, DenseIndex, SameId, SparseId};

/// An id of a provider, with the total maps and the sets that are kept by it.
pub trait SolverId<A: Allocator + Copy>: SameId {
    /// A map to optional indexes.
    type Slots: IdMap<Self, Slot, A>;

    /// A map to scores.
    type Scores: IdMap<Self, u64, A>;

    /// A set of these ids.
    type Set: IdSet<Self, A>;

    /// The value is an id, and not a number out of range.
    ghost is_id: { Self → Type 0 };

    /// There may be more than 2^32 of these ids.
    ghost are_many: { Bool };

    /// Tells a proof that the value is an id. Does nothing.
    fn attest(self)
        ensures { is_id self };

    /// Where there can't be more than 2^32 ids, no more than that differ from one another.
    ghost few: { are_many ≡ false → (ids : List Self) → All is_id ids → IsDistinct Self.eq ids → length ids ≤ 2 ^ 32 };

    /// An id that one of the three can't hold, none of them can.
    ghost hold_alike: { (id : Self) → (Self.Scores.is_too_large id ≡ Self.Slots.is_too_large id) ×
        (Self.Set.is_too_large id ≡ Self.Slots.is_too_large id) };
}

impl<Tag, Repr: DenseIndex + SameId, A: Allocator + Copy> SolverId<A> for DenseId<Tag, Repr> {
    type Slots = Vec<Slot, A>;

    type Scores = Vec<u64, A>;

    type Set = IndexedSet<Self, A>;

    ghost is_id = { λ id. Repr.index_of id < Repr.limit };

    ghost are_many = { nat_lt (2 ^ 32) Repr.limit };

    ghost few = { few_ids Repr.eq Repr.Eq.laws.refl Repr.index_of Repr.distinct Repr.limit };

    ghost hold_alike = { λ id. (refl, refl) };

    fn attest(self) {
        let _index = self.to_index();
    }
}

impl<Tag, Repr: DenseIndex + SameId, H: BuildHasher + Default + Drop, A: Allocator + Copy> SolverId<
    A,
> for SparseId<Tag, Repr, H> {
    type Slots = IndexMap<Self, Slot, H, A>;

    type Scores = IndexMap<Self, u64, H, A>;

    type Set = HashSet<Self, H, A>;

    ghost is_id = { λ id. Repr.index_of id < Repr.limit };

    ghost are_many = { nat_lt (2 ^ 32) Repr.limit };

    ghost few = { few_ids Repr.eq Repr.Eq.laws.refl Repr.index_of Repr.distinct Repr.limit };

    ghost hold_alike = { λ id. (refl, refl) };

    fn attest(self) {
        let _number = self.into_raw().to_index();
    }
}
