//! Maps whose values are handed out as copies alone.
ghost use Rattle.std.specs.Prelude.{◌≡◌, [], OnOk, OnErr, IfOk, IfErr, IsSome, IsOk};
ghost use Rattle.std.specs.Map.{lookup};
ghost use Rattle.indexmap.specs.IndexMap.{insert_entry};
ghost use Rattle.typed_ids.specs.declared.error.StoreError.TheVariants.{OutOfMemory};

use indexmap::IndexMap;
use std::alloc::{Allocator, Global};
use std::hash::{BuildHasherDefault, DefaultHasher, Hash};
use std::marker::Model;
use typed_ids::StoreError;

/// A map from which no entry is taken away, and of whose values only copies are handed out. A contract sees its entries
/// in the order of insertion.
#[derive(Drop)]
pub struct FrozenCopyMap<K: Eq + Hash, V: Copy, A: Allocator = Global> {
    entries: IndexMap<K, V, BuildHasherDefault<DefaultHasher>, A>,
}

impl<K: Eq + Hash, V: Copy, A: Allocator> Model for FrozenCopyMap<K, V, A> {
    ghost use Rattle.std.specs.Prelude.{List};

    ghost Value = { List (K × V) };

    ghost view = { λ map. map.entries.entries };
}

impl<K: Eq + Hash + Drop, V: Copy, A: Allocator + Copy> FrozenCopyMap<K, V, A> {
    /// The empty map. Takes no memory.
    pub fn new(alloc: A) -> Self
        ensures { result ≡ [] }
    {
        FrozenCopyMap {
            entries: IndexMap::with_hasher(alloc, BuildHasherDefault::new()),
        }
    }

    /// Gives the key a value, and answers the earlier one. A key that has a value already takes no memory; its entry
    /// keeps its place and its key.
    pub fn insert_copy(&mut self, key: K, value: V) -> Result<Option<V>, StoreError>
        ensures earlier { IfOk result (λ earlier. earlier ≡ lookup (K.eq key) self.old) }
        ensures ok { OnOk result (self.new ≡ insert_entry K.eq self.old key value) }
        ensures err { OnErr result (self.new ≡ self.old) }
        ensures memory { IfErr result (λ e. e ≡ OutOfMemory) }
        ensures known { IsSome (lookup (K.eq key) self.old) → IsOk result }
    {
        Ok(self.entries.insert(key, value)?)
    }

    /// A copy of the key's value.
    pub fn get_copy(&self, key: &K) -> Option<V>
        ensures { result ≡ lookup (K.eq key.now) self.now }
    {
        self.entries.get(key).copied()
    }
}
