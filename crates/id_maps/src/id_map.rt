//! Total maps that are kept by ids.
ghost use Rattle.std.specs.Prelude.{◌≡◌, Bool, false, IsTrue, IsOk, OnOk, OnErr, IfErr};
ghost use Rattle.typed_ids.specs.declared.error.StoreError.TheVariants.{IdSpace};
ghost use Rattle.typed_ids.specs.Refusals.{IsGrowthRefusal};
ghost use Rattle.typed_ids.specs.TotalMaps.{IsUpdate, SameValues, IsLargest};

use std::alloc::Allocator;
use typed_ids::StoreError;

/// A total map: a key that was never written has the default.
///
/// A change that must not be refused half way takes its room first, by [`IdMap::make_room`], and writes by
/// [`IdMap::put`]. Room lasts: no call takes it away again.
pub trait IdMap<K, V: Copy + Default, A: Allocator + Copy>: Drop {
    /// The value at a key.
    ghost value_at: { Self → K → V };

    /// Writing at the key takes no memory.
    ghost has_room: { Self → K → Type 0 };

    /// The map can't hold the key: what would write there is refused `IdSpace`.
    ghost is_too_large: { K → Bool };

    /// The map that has the default at each key. Takes no memory.
    fn new(alloc: A) -> Self
        ensures { (k : K) → V.is_default (value_at result k) };

    /// The value at the key.
    fn get(&self, key: K) -> V
        ensures { result ≡ value_at self.now key };

    /// Writes the value at the key.
    fn set(&mut self, key: K, value: V) -> Result<(), StoreError>
        ensures ok { OnOk result (IsUpdate (value_at self.old) key value (value_at self.new)) }
        ensures err { OnErr result (SameValues (value_at self.old) (value_at self.new)) }
        ensures refused { IfErr result (IsGrowthRefusal (is_too_large key)) }
        ensures too_large { IsTrue (is_too_large key) → result ≡ Err IdSpace }
        ensures room { OnOk result (has_room self.new key) }
        ensures succeeds { has_room self.old key → IsOk result }
        ensures keeps { (k : K) → has_room self.old k → has_room self.new k };

    /// Takes the memory that writing at the key needs.
    fn make_room(&mut self, key: K) -> Result<(), StoreError>
        ensures room { OnOk result (has_room self.new key) }
        ensures succeeds { has_room self.old key → IsOk result }
        ensures same { SameValues (value_at self.old) (value_at self.new) }
        ensures refused { IfErr result (IsGrowthRefusal (is_too_large key)) }
        ensures too_large { IsTrue (is_too_large key) → result ≡ Err IdSpace }
        ensures keeps { (k : K) → has_room self.old k → has_room self.new k };

    /// Writes the value at a key for which there is room. Takes no memory.
    fn put(&mut self, key: K, value: V)
        requires { has_room self.old key }
        ensures put { IsUpdate (value_at self.old) key value (value_at self.new) }
        ensures keeps { (k : K) → has_room self.old k → has_room self.new k };

    /// Changes the value at each key by a function that keeps the default. It is called once for each value that is
    /// stored. Takes no memory.
    fn update_all<F: Fn(V) -> V>(&mut self, f: F)
        requires callable { F.IsAlwaysCallable f }
        requires keeps_default { (default : V) → V.is_default default → F.post f default default }
        ensures changed { (k : K) → F.post f (value_at self.old k) (value_at self.new k) }
        ensures keeps { (k : K) → has_room self.old k → has_room self.new k };

    /// The largest value of a key, or the default where that is larger. Goes through what is stored. Takes no memory.
    fn largest(&self) -> V
    where
        V: Ord,
        ensures { (default : V) → V.is_default default → IsLargest V.cmp default (value_at self.now) result };

    /// There is room at each key whose value isn't a default.
    ghost written: { (m : Self) (k : K) → (V.is_default (value_at m k) → ⊥) → has_room m k };

    /// A key for which there is room isn't too large.
    ghost room_fits: { (m : Self) (k : K) → has_room m k → is_too_large k ≡ false };
}
