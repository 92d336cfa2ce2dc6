//! Sets of ids.
ghost use Rattle.std.specs.Prelude.{◌≡◌, Bool, true, false, not, IsTrue, OnOk, OnErr, IfOk, IfErr};
ghost use Rattle.typed_ids.specs.declared.error.StoreError.TheVariants.{IdSpace};
ghost use Rattle.typed_ids.specs.Refusals.{IsGrowthRefusal};
ghost use Rattle.typed_ids.specs.TotalMaps.{IsUpdate, SameValues};

use std::alloc::Allocator;
use std::collections::HashSet;
use std::hash::BuildHasher;
use typed_ids::{SameId, StoreError};

/// A set of ids that only grows.
pub trait IdSet<K, A: Allocator + Copy>: Drop {
    /// Whether the set has the key.
    ghost has: { Self → K → Bool };

    /// The set can't hold the key: to insert it is refused `IdSpace`.
    ghost is_too_large: { K → Bool };

    /// The empty set. Takes no memory.
    fn new(alloc: A) -> Self
        ensures { (k : K) → has result k ≡ false };

    /// Whether the set has the key.
    fn contains(&self, key: K) -> bool
        ensures { result ≡ has self.now key };

    /// Puts the key in. The answer is whether it is new; one that isn't takes no memory.
    fn insert(&mut self, key: K) -> Result<bool, StoreError>
        ensures added { IfOk result (λ added. added ≡ not (has self.old key)) }
        ensures ok { OnOk result (IsUpdate (has self.old) key true (has self.new)) }
        ensures err { OnErr result (SameValues (has self.old) (has self.new)) }
        ensures known { IsTrue (has self.old key) → result ≡ Ok false }
        ensures refused { IfErr result (IsGrowthRefusal (is_too_large key)) }
        ensures too_large { IsTrue (is_too_large key) → result ≡ Err IdSpace };
}

/// The set of sparse ids. It refuses for want of memory alone.
impl<K: SameId, S: BuildHasher + Default + Drop, A: Allocator + Copy> IdSet<K, A>
    for HashSet<K, S, A> {
    ghost use Rattle.std.specs.HashSet.{contains};

    ghost has = { λ set k. contains K.eq set k };

    ghost is_too_large = { λ k. false };

    fn new(alloc: A) -> Self {
        HashSet::with_hasher(alloc, S::default())
    }

    fn contains(&self, key: K) -> bool {
        HashSet::contains(self, &key)
    }

    fn insert(&mut self, key: K) -> Result<bool, StoreError> {
        Ok(HashSet::insert(self, key)?)
    }
}
