//! Values that are named by ids.
ghost use Rattle.std.specs.Prelude.{◌≡◌, ◌<◌, ◌≤◌, ◌^◌, ◌↔◌, [], ◌∷◌, ◌++◌, length, min, nat_lt, slice_get, Some};
ghost use Rattle.std.specs.Prelude.{IsTrue, OnOk, OnErr, IfOk, IfErr, IsErrAnd};
ghost use Rattle.std.specs.Borrow.{sem};
ghost use Rattle.typed_ids.specs.declared.error.StoreError.TheVariants.{IdSpace};
ghost use Rattle.typed_ids.specs.Refusals.{IsGrowthRefusal, are_ids_out};

use crate::arena_iter::ArenaIter;
use std::alloc::{Allocator, Global};
use std::marker::{Model, PhantomData};
use std::ops::{Index, IndexMut};
use typed_ids::{DENSE_LIMIT, DenseIndex, InsertError, StoreError};

/// A list of values, each named by the id that stands for its place.
///
/// Values are added at the end, at most 2^40 of them, and are taken out only all together.
#[derive(Drop)]
pub struct Arena<TId: DenseIndex, V, A: Allocator = Global> {
    values: Vec<V, A>,
    ids: PhantomData<TId>,
}

/// The values, in the order of their ids.
impl<TId: DenseIndex, V, A: Allocator> Model for Arena<TId, V, A> {
    ghost use Rattle.std.specs.Prelude.{List, ◌≤◌, ◌^◌, length, min};

    ghost Value = { List V };

    ghost view = { λ a. a.values.items };

    ghost invariant = { λ a. length a.values.items ≤ min TId.limit (2 ^ 40) };
}

impl<TId: DenseIndex, V, A: Allocator> Arena<TId, V, A> {
    ghost use Rattle.id_storage.specs.Arena.{pairs_from};

    /// The arena without values. Takes no memory.
    pub fn new(alloc: A) -> Self
        ensures { result ≡ [] }
    {
        Arena {
            values: Vec::new(alloc),
            ids: PhantomData,
        }
    }

    /// An arena without values, with room for `capacity` values.
    pub fn with_capacity(alloc: A, capacity: usize) -> Result<Self, StoreError>
        ensures ok { IfOk result (λ arena. arena ≡ []) }
        ensures refused { IfErr result (IsGrowthRefusal (nat_lt (2 ^ 40) capacity)) }
        ensures too_large { 2 ^ 40 < capacity → result ≡ Err IdSpace }
    {
        if capacity > DENSE_LIMIT {
            return Err(StoreError::IdSpace);
        }
        Ok(Arena {
            values: Vec::with_capacity(alloc, capacity)?,
            ids: PhantomData,
        })
    }

    /// Takes all values out. Takes no memory, and time with the number of values.
    pub fn clear(&mut self)
    where
        V: Drop,
        ensures { self.new ≡ [] }
    {
        self.values.clear();
    }

    /// How many values there are. [`DenseIndex::from_index`] may be asked for the id of each place below.
    pub fn len(&self) -> usize
        ensures value { result ≡ length self.now }
        ensures in_range { result ≤ min TId.limit (2 ^ 40) }
    {
        self.values.len()
    }

    /// Whether there is no value.
    pub fn is_empty(&self) -> bool
        ensures { IsTrue result ↔ (self.now ≡ []) }
    {
        self.values.is_empty()
    }

    /// Adds a value at the end, and answers its id. Takes memory where there is no room left.
    pub fn alloc(&mut self, value: V) -> Result<TId, InsertError<V>>
        ensures id { IfOk result (λ id. id ≡ TId.id_at (length self.old)) }
        ensures ok { OnOk result (self.new ≡ self.old ++ value ∷ []) }
        ensures err { OnErr result (self.new ≡ self.old) }
        ensures value_returned { IfErr result (λ refusal. refusal.value ≡ value) }
        ensures refused { IfErr result (λ refusal.
            IsGrowthRefusal (are_ids_out TId.limit (length self.old)) refusal.error) }
        ensures ids_out { IsTrue (are_ids_out TId.limit (length self.old)) →
            IsErrAnd result (λ refusal. refusal.error ≡ IdSpace) }
    {
        let index = self.values.len();
        if index >= DENSE_LIMIT || !TId::in_range(index) {
            return Err(InsertError {
                error: StoreError::IdSpace,
                value,
            });
        }
        match self.values.push(value) {
            Ok(()) => Ok(TId::from_index(index)),
            Err(failed) => Err(InsertError {
                error: StoreError::OutOfMemory,
                value: failed.value,
            }),
        }
    }

    /// The ids with their values, in the order of the ids. Takes no memory.
    #[tactic(auto, using(crate::proofs::ArenaLemmas::count_of_pairs))]
    pub fn iter(&self) -> ArenaIter<'_, TId, V>
        ensures pairs { result ≡ pairs_from TId.id_at 0 self.now }
        ensures len { length result ≡ length self.now }
        ensures fits { length result ≤ 2 ^ 40 }
    {
        ArenaIter::new(self.values.as_slice())
    }
}

/// The value of an id in use.
impl<TId: DenseIndex, V, A: Allocator> Index<TId> for Arena<TId, V, A> {
    type Output = V;

    ghost can_index = { λ arena id. TId.index_of id < length arena };

    ghost index_gives = { λ arena id value. slice_get arena (TId.index_of id) ≡ Some value };

    fn index(&self, id: TId) -> &V {
        &self.values[id.to_index()]
    }
}

/// The value of an id in use, to be changed: no other value is.
impl<TId: DenseIndex, V, A: Allocator> IndexMut<TId> for Arena<TId, V, A> {
    ghost use Rattle.id_storage.specs.Arena.{lends_value};

    fn index_mut(&mut self, id: TId) -> &mut V
        requires { TId.index_of id < length self.old }
        ensures* writes_back { sem 𝓛
            (lends_value TId.row V.row A.row TId.DenseIndex A.Allocator self.entry (TId.index_of id) result) }
        ensures value { slice_get self.old (TId.index_of id) ≡ Some result.now }
    {
        &mut self.values[id.to_index()]
    }
}
