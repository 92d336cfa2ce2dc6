//! Sets of dense ids.
ghost use Rattle.std.specs.Prelude.{◌≡◌, ℕ, ◌<◌, ◌≤◌, ◌+◌, ◌/◌, ◌^◌, max, length, vec_len};
ghost use Rattle.std.specs.Prelude.{true, false, not, IsTrue, OnOk, OnErr, IfOk, IfErr};
ghost use Rattle.typed_ids.specs.declared.error.StoreError.TheVariants.{IdSpace};
ghost use Rattle.id_maps.specs.IndexedSet.{has_bit};
ghost use Rattle.typed_ids.specs.Refusals.{IsGrowthRefusal, is_too_dense};
ghost use Rattle.typed_ids.specs.TotalMaps.{IsUpdate};

use crate::id_set::IdSet;
use std::alloc::{Allocator, Global};
use std::marker::{Model, PhantomData};
use typed_ids::{DENSE_LIMIT, DenseIndex, StoreError};

/// The number of bits in a word.
const WORD_BITS: usize = 64;

/// A set of dense ids with one bit for each index up to the largest that was inserted. A contract sees the words.
#[derive(Drop)]
pub struct IndexedSet<Id, A: Allocator = Global> {
    words: Vec<u64, A>,
    ids: PhantomData<Id>,
}

impl<Id, A: Allocator> Model for IndexedSet<Id, A> {
    ghost use Rattle.std.specs.Prelude.{ℕ, ◌≤◌, ◌^◌, List, length};

    ghost Value = { List ℕ };

    ghost view = { λ set. set.words.items };

    ghost invariant = { λ set. length set.words.items ≤ 2 ^ 34 };
}

impl<Id: DenseIndex, A: Allocator + Copy> IndexedSet<Id, A> {
    /// The empty set. Takes no memory.
    pub fn new(alloc: A) -> Self
        ensures { (index : ℕ) → has_bit result index ≡ false }
    {
        IndexedSet {
            words: Vec::new(alloc),
            ids: PhantomData,
        }
    }

    /// Whether the set has the id.
    pub fn contains(&self, id: Id) -> bool
        ensures { result ≡ has_bit self.now (Id.index_of id) }
    {
        let index = id.to_index();
        match self.words.get(index / WORD_BITS) {
            Some(word) => (*word >> (index % WORD_BITS)) & 1 == 1,
            None => false,
        }
    }

    /// Puts the id in. The answer is whether it is new. Takes memory only past the last word, and then twice as much as
    /// before or more, so that n insertions in ascending order cost O(n) in all.
    pub fn insert(&mut self, id: Id) -> Result<bool, StoreError>
        ensures added { IfOk result (λ added. added ≡ not (has_bit self.old (Id.index_of id))) }
        ensures ok { OnOk result (IsUpdate (has_bit self.old) (Id.index_of id) true (has_bit self.new)) }
        ensures words { OnOk result (length self.new ≡ max (length self.old) (Id.index_of id / 64 + 1)) }
        ensures err { OnErr result (self.new ≡ self.old) }
        ensures known { IsTrue (has_bit self.old (Id.index_of id)) → result ≡ Ok false }
        ensures refused { IfErr result (IsGrowthRefusal (is_too_dense (Id.index_of id))) }
        ensures too_large { IsTrue (is_too_dense (Id.index_of id)) → result ≡ Err IdSpace }
    {
        let index = id.to_index();
        if index / WORD_BITS >= self.words.len() {
            reach(&mut self.words, index)?;
        }
        Ok(set_bit(&mut self.words, index))
    }
}

/// Appends words without bits until one holds the index.
fn reach<A: Allocator>(words: &mut Vec<u64, A>, index: usize) -> Result<(), StoreError>
    requires past { vec_len words.old ≤ index / 64 }
    requires within { vec_len words.old ≤ 2 ^ 34 }
    ensures reached { OnOk result (vec_len words.new ≡ index / 64 + 1) }
    ensures same { (i : ℕ) → has_bit words.new.items i ≡ has_bit words.old.items i }
    ensures err { OnErr result (words.new.items ≡ words.old.items) }
    ensures bounded { vec_len words.new ≤ 2 ^ 34 }
    ensures refused { IfErr result (IsGrowthRefusal (is_too_dense index)) }
    ensures too_large { IsTrue (is_too_dense index) → result ≡ Err IdSpace }
{
    if index >= DENSE_LIMIT {
        return Err(StoreError::IdSpace);
    }
    words.resize(index / WORD_BITS + 1, 0)?;
    Ok(())
}

/// Sets the bit at the index, and answers whether it wasn't set before.
fn set_bit(words: &mut [u64], index: usize) -> bool
    requires { index / 64 < length words.old }
    ensures new { result ≡ not (has_bit words.old index) }
    ensures set { IsUpdate (has_bit words.old) index true (has_bit words.new) }
    ensures words { length words.new ≡ length words.old }
{
    let word = words[index / WORD_BITS];
    let bit = 1u64 << (index % WORD_BITS);
    words[index / WORD_BITS] = word | bit;
    word & bit == 0
}

impl<Id: DenseIndex, A: Allocator + Copy> IdSet<Id, A> for IndexedSet<Id, A> {
    ghost has = { λ words id. has_bit words (Id.index_of id) };

    ghost is_too_large = { λ id. is_too_dense (Id.index_of id) };

    fn new(alloc: A) -> Self {
        IndexedSet::new(alloc)
    }

    fn contains(&self, id: Id) -> bool {
        IndexedSet::contains(self, id)
    }

    fn insert(&mut self, id: Id) -> Result<bool, StoreError> {
        IndexedSet::insert(self, id)
    }
}
