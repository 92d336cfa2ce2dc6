//! The total maps of sparse ids: hashed tables.
ghost use Rattle.std.specs.Prelude.{◌≡◌, true, false, is_some, refl};
ghost use Rattle.std.specs.Option.{unwrap_or};
ghost use Rattle.indexmap.specs.IndexMap.{get};
ghost use Rattle.typed_ids.specs.TotalMaps.{some_is_stored, not_default};

use crate::id_map::IdMap;
use indexmap::IndexMap;
use std::alloc::Allocator;
use std::hash::BuildHasher;
use typed_ids::{DefaultValue, SameId, StoreError};

/// The map of sparse ids: room for a key is an entry, which holds the default value until another is written. No key is
/// too large.
impl<K: SameId, V: DefaultValue, S: BuildHasher + Default + Drop, A: Allocator + Copy> IdMap<
    K,
    V,
    A,
> for IndexMap<K, V, S, A> {
    ghost value_at = { λ m k. unwrap_or (get K.eq m k) V.default_value };

    ghost has_room = { λ m k. is_some (get K.eq m k) ≡ true };

    ghost is_too_large = { λ k. false };

    ghost written = { λ m k h. some_is_stored (get K.eq m k) V.default_value
        (not_default V.is_default V.default_is h) };

    ghost room_fits = { λ m k h. refl };

    fn new(alloc: A) -> Self {
        IndexMap::with_hasher(alloc, S::default())
    }

    fn get(&self, key: K) -> V {
        match IndexMap::get(self, &key) {
            Some(value) => *value,
            None => V::default(),
        }
    }

    fn set(&mut self, key: K, value: V) -> Result<(), StoreError> {
        self.insert(key, value)?;
        Ok(())
    }

    fn make_room(&mut self, key: K) -> Result<(), StoreError> {
        if !self.contains_key(&key) {
            self.insert(key, V::default())?;
        }
        Ok(())
    }

    fn put(&mut self, key: K, value: V) {
        if let Some(kept) = self.get_mut(&key) {
            *kept = value;
        }
    }

    fn update_all<F: Fn(V) -> V>(&mut self, f: F) {
        for index in 0..self.len() {
            if let Some(value) = self.get_index_mut(index) {
                *value = f(*value);
            }
        }
    }

    fn largest(&self) -> V
    where
        V: Ord,
    {
        let mut largest = V::default();
        for (_, value) in self.iter() {
            largest = largest.max(*value);
        }
        largest
    }
}
