//! The total maps of dense ids: vectors.
ghost use Rattle.std.specs.Prelude.{◌≡◌, ◌<◌, ◌^◌, ◌↔◌, ℕ, IsTrue, min, vec_len, slice_index_or};
ghost use Rattle.std.proofs.Common.{arith};
ghost use Rattle.std.proofs.lemmas.Bool.Decides.{nat_tests};
ghost use Rattle.typed_ids.specs.Refusals.{is_too_dense};
ghost use Rattle.typed_ids.specs.TotalMaps.{kept, kept_within, not_default};

use crate::id_map::IdMap;
use std::alloc::Allocator;
use typed_ids::{DENSE_LIMIT, DefaultValue, DenseIndex, StoreError};

/// The map of dense ids: the value at index i is at place i. Indexes from 2^40 on are refused. When it grows, its
/// capacity at least doubles, so that writing at ascending indexes takes a time linear in their number.
impl<K: DenseIndex, V: DefaultValue, A: Allocator + Copy> IdMap<K, V, A> for Vec<V, A> {
    ghost value_at = { λ v k. slice_index_or (kept K.limit v.items) (K.index_of k) V.default_value };

    ghost has_room = { λ v k. (K.index_of k < vec_len v) × (K.index_of k < 2 ^ 40) };

    ghost is_too_large = { λ k. is_too_dense (K.index_of k) };

    ghost written = { λ m k h. kept_within K.limit m.items V.default_value (K.index_of k) (vec_len m) m.ok.0
        (not_default V.is_default V.default_is h) };

    ghost room_fits = { λ m k h. Prim.grind (arith, nat_tests, h.1) };

    fn new(alloc: A) -> Self {
        Vec::new(alloc)
    }

    fn get(&self, key: K) -> V {
        let index = key.to_index();
        if index < self.len() && index < DENSE_LIMIT {
            self[index]
        } else {
            V::default()
        }
    }

    fn set(&mut self, key: K, value: V) -> Result<(), StoreError> {
        <Self as IdMap<K, V, A>>::make_room(self, key)?;
        <Self as IdMap<K, V, A>>::put(self, key, value);
        Ok(())
    }

    fn make_room(&mut self, key: K) -> Result<(), StoreError> {
        let index = key.to_index();
        if index >= DENSE_LIMIT {
            return Err(StoreError::IdSpace);
        }
        if index >= self.len() {
            self.resize(index + 1, V::default())?;
        }
        Ok(())
    }

    fn put(&mut self, key: K, value: V) {
        let index = key.to_index();
        self[index] = value;
    }

    fn update_all<F: Fn(V) -> V>(&mut self, f: F) {
        for value in self.iter_mut() {
            *value = f(*value);
        }
    }

    fn largest(&self) -> V
    where
        V: Ord,
    {
        let mut largest = V::default();
        for (index, value) in self.iter().enumerate() {
            if has_place::<K>(index) {
                largest = largest.max(*value);
            }
        }
        largest
    }
}

/// Whether a key has this index, and dense storage has this place.
fn has_place<K: DenseIndex>(index: usize) -> bool
    ensures { IsTrue result ↔ (index < min K.limit (2 ^ 40)) }
{
    index < DENSE_LIMIT && K::in_range(index)
}
