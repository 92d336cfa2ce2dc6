//! Lists that are kept by keys.
ghost use Rattle.std.specs.Prelude.{◌≡◌, [], ◌∷◌, ◌++◌, map, length, is_some, unwrap_or};
ghost use Rattle.std.specs.Prelude.{slice_get, None, IfSome, IfOk, OnOk, OnErr, IfErr};
ghost use Rattle.std.specs.Map.{lookup};
ghost use Rattle.typed_ids.specs.declared.error.StoreError.TheVariants.{OutOfMemory};

use indexmap::IndexMap;
use std::alloc::Allocator;
use std::hash::{BuildHasherDefault, FoldHasher};
use std::marker::Model;
use typed_ids::{SameId, StoreError};

/// Lists by keys, each in a place of its own. A contract sees the keys with their lists, the first one first.
#[derive(Drop)]
pub(crate) struct StoredLists<K: SameId, S, A: Allocator> {
    lists: IndexMap<K, Vec<S, A>, BuildHasherDefault<FoldHasher>, A>,
}

impl<K: SameId, S, A: Allocator> Model for StoredLists<K, S, A> {
    ghost use Rattle.std.specs.Prelude.{List, map};

    ghost Value = { List (K × List S) };

    ghost view = { λ kept. map (λ e. (e.0, e.1.items)) kept.lists.entries };
}

impl<K: SameId, S: Drop, A: Allocator + Copy> StoredLists<K, S, A> {
    /// No lists. Takes no memory.
    pub(crate) fn new(alloc: A) -> Self
        ensures { result ≡ [] }
    {
        StoredLists {
            lists: IndexMap::new(alloc),
        }
    }

    /// The place of the key's list, if one is kept.
    pub(crate) fn find(&self, key: K) -> Option<usize>
        ensures found { is_some result ≡ is_some (lookup (K.eq key) self.now) }
        ensures list { IfSome result (λ place. slice_get (map (λ e. e.1) self.now) place ≡ lookup (K.eq key) self.now) }
    {
        self.lists.get_index_of(&key)
    }

    /// The list at a place; an empty one where none is kept.
    pub(crate) fn at(&self, place: usize) -> &[S]
        ensures { result.now ≡ unwrap_or (slice_get (map (λ e. e.1) self.now) place) [] }
    {
        if place >= self.lists.len() {
            return &[];
        }
        &self.lists[place]
    }

    /// Keeps a list for a key that has none, and answers its place.
    pub(crate) fn insert(&mut self, key: K, list: Vec<S, A>) -> Result<usize, StoreError>
        requires { lookup (K.eq key) self.old ≡ None }
        ensures place { IfOk result (λ place. place ≡ length self.old) }
        ensures ok { OnOk result (self.new ≡ self.old ++ (key, list.items) ∷ []) }
        ensures err { OnErr result (self.new ≡ self.old) }
        ensures memory { IfErr result (λ e. e ≡ OutOfMemory) }
    {
        let (place, _) = self.lists.insert_full(key, list)?;
        Ok(place)
    }
}
