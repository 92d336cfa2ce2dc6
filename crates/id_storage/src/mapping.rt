//! Maps from ids to values, in chunks of slots.
//!
//! An id stands for an index ([`DenseIndex`]), and the value of index i is in slot i. So a value is found by one access
//! to a vector, with no hash and no search. In return the map has a slot, filled or empty, for each index up to the
//! largest that was written: it suits ids that are handed out one after another.
//!
//! Slots come in chunks of 128: index i is in chunk i / 128, at place i % 128 there ([`Mapping::chunk_and_offset`]).
//! The chunks lie one after another in one vector. A map has one chunk from the start, grows by whole chunks, and gives
//! none back. So room lasts: where an id once had a slot it has one from then on, also after its value was taken out. A
//! change that must not be refused half way takes its room first, by [`Mapping::make_room`]; the [`Mapping::insert`]
//! that follows then succeeds.
//!
//! A contract sees the list of slots, and speaks of it by few words of `specs/Mapping`: `value_at` is what an index
//! has, `value_count` the number of values, `slots_for` the number of slots up to the end of an index's chunk, and
//! `pairs` the ids with their values. `IsMapping` is what every map keeps to.
//!
//! A call for one id takes constant time where it makes no slots. To make slots, the vector grows to twice its room or
//! more, so that n insertions in ascending order cost O(n) in all. A walk takes time with the slots, filled or not.
ghost use Rattle.std.specs.Prelude.{◌≡◌, ℕ, ◌+◌, ◌-◌, ◌*◌, ◌/◌, ◌%◌, ◌<◌, ◌≤◌, ◌==◌, ◌++◌, if◌then◌else◌};
ghost use Rattle.std.specs.Prelude.{length, max, replicate, Some, None, is_some, IsSome, IsTrue, All, IsOk};
ghost use Rattle.std.specs.Prelude.{OnOk, OnErr, IfOk, IfErr, Err, option_copied, vec_len, vec_capacity};
ghost use Rattle.typed_ids.specs.declared.error.StoreError.TheVariants.{OutOfMemory, IdSpace};
ghost use Rattle.id_storage.specs.Mapping.{slots_for, with_slots, value_at, value_count, pairs, AreEmpty, AreBelow};
ghost use Rattle.typed_ids.specs.Refusals.{IsGrowthRefusal, is_too_dense};
ghost use Rattle.typed_ids.specs.TotalMaps.{IsUpdate, SameValues};

use crate::mapping_iter::MappingIter;
use std::alloc::{Allocator, Global};
use std::marker::{Model, PhantomData};
use typed_ids::{DENSE_LIMIT, DenseIndex, InsertError, StoreError};

/// How many slots a chunk has.
const SLOTS_PER_CHUNK: usize = 128;

/// A map from ids to values, for ids that have few gaps between them: the value of index i is in slot i.
///
/// Slots come in whole chunks of 128. There is one chunk from the start, and none is ever given back. A contract sees
/// the slots. Indexes from 2^40 on are refused.
#[derive(Drop)]
pub struct Mapping<TId: DenseIndex, V, A: Allocator = Global> {
    slots: Vec<Option<V>, A>,
    /// How many slots hold a value.
    len: usize,
    ids: PhantomData<TId>,
}

impl<TId: DenseIndex, V, A: Allocator> Model for Mapping<TId, V, A> {
    ghost use Rattle.std.specs.Prelude.{List, Option};

    ghost Value = { List (Option V) };

    ghost use Rattle.id_storage.specs.Mapping.{IsMapping};

    ghost view = { λ m. m.slots.items };

    ghost invariant = { λ m. IsMapping TId.limit m.slots.items m.len };
}

/// Adds empty slots, for which there is room.
fn add_empty<V, A: Allocator>(slots: &mut Vec<Option<V>, A>, count: usize)
    requires { vec_len slots.old + count ≤ vec_capacity slots.old }
    ensures { slots.new.items ≡ slots.old.items ++ replicate count None }
{
    for _ in 0..count {
        slots.push_reserved(None);
    }
}

impl<TId: DenseIndex, V, A: Allocator> Mapping<TId, V, A> {
    ghost use Rattle.std.specs.Borrow.{sem};
    ghost use Rattle.std.specs.Option.{option_copied_mut, MatchOption, ForNone};
    ghost use Rattle.std.specs.Prelude.{IsErrAnd};
    ghost use Rattle.id_storage.specs.MappingLends.{lends_get, lends_inserted};

    /// The map without values, of one chunk.
    pub fn new(alloc: A) -> Result<Self, StoreError>
        ensures slots { IfOk result (λ m. length m ≡ 128) }
        ensures empty { IfOk result AreEmpty }
        ensures count { IfOk result (λ m. value_count m ≡ 0) }
        ensures refused { IfErr result (λ e. e ≡ OutOfMemory) }
    {
        Self::with_capacity(alloc, 1)
    }

    /// The map without values that has whole chunks for the indexes below `n`, one at least.
    #[tactic(auto, using(crate::proofs::MappingLemmas::no_value_in_empty))]
    pub fn with_capacity(alloc: A, n: usize) -> Result<Self, StoreError>
        ensures slots { IfOk result (λ m. length m ≡ slots_for (n - 1)) }
        ensures empty { IfOk result AreEmpty }
        ensures count { IfOk result (λ m. value_count m ≡ 0) }
        ensures refused { IfErr result (IsGrowthRefusal (is_too_dense (n - 1))) }
        ensures too_many { IsTrue (is_too_dense (n - 1)) → result ≡ Err IdSpace }
    {
        let last = n.saturating_sub(1);
        if last >= DENSE_LIMIT {
            return Err(StoreError::IdSpace);
        }
        let (chunk, _) = Self::chunk_and_offset(last);
        let count = (chunk + 1) * SLOTS_PER_CHUNK;
        let mut slots = Vec::with_capacity(alloc, count)?;
        add_empty(&mut slots, count);
        Ok(Mapping {
            slots,
            len: 0,
            ids: PhantomData,
        })
    }

    /// The number of slots. Values at indexes below it take no memory.
    pub fn capacity(&self) -> usize
        ensures { result ≡ length self.now }
    {
        self.slots.len()
    }

    /// The number of slots, filled or not: whole chunks, and one at least.
    pub fn slots(&self) -> usize
        ensures value { result ≡ length self.now }
        ensures chunks { (128 ≤ result) × (result % 128 ≡ 0) }
    {
        self.slots.len()
    }

    /// The number of values.
    pub fn len(&self) -> usize
        ensures { result ≡ value_count self.now }
    {
        self.len
    }

    /// Whether there is no value.
    pub fn is_empty(&self) -> bool
        ensures { result ≡ (value_count self.now == 0) }
    {
        self.len == 0
    }

    /// The chunk in which an index has its slot, and the slot's place in it.
    pub fn chunk_and_offset(index: usize) -> (usize, usize)
        ensures { result ≡ (index / 128, index % 128) }
    {
        (index / SLOTS_PER_CHUNK, index % SLOTS_PER_CHUNK)
    }

    /// The id's value. Takes no memory.
    pub fn get(&self, id: TId) -> Option<&V>
        ensures { option_copied result ≡ value_at self.now (TId.index_of id) }
    {
        match self.slots.get(id.to_index()) {
            Some(Some(value)) => Some(value),
            _ => None,
        }
    }

    /// Makes the slots of each chunk up to the id's. From then on an `insert` at this id takes no memory, also after
    /// an `unset`.
    #[inline(always)]
    pub fn make_room(&mut self, id: TId) -> Result<(), StoreError>
        ensures ok { OnOk result (self.new ≡ with_slots self.old (slots_for (TId.index_of id))) }
        ensures same { SameValues (value_at self.old) (value_at self.new) }
        ensures count { value_count self.new ≡ value_count self.old }
        ensures slots { OnOk result (length self.new ≡ max (length self.old) (slots_for (TId.index_of id))) }
        ensures err { OnErr result (self.new ≡ self.old) }
        ensures room { TId.index_of id < length self.old → IsOk result × (self.new ≡ self.old) }
        ensures refused { IfErr result (IsGrowthRefusal (is_too_dense (TId.index_of id))) }
        ensures too_dense { IsTrue (is_too_dense (TId.index_of id)) → result ≡ Err IdSpace }
    {
        let index = id.to_index();
        if index < self.slots.len() {
            return Ok(());
        }
        self.add_chunks(index)
    }

    /// Makes the slots of each chunk up to that of an index that has none. It is a call of its own, so that the check
    /// for room costs none.
    #[inline(never)]
    fn add_chunks(&mut self, index: usize) -> Result<(), StoreError>
        requires { length self.old ≤ index }
        ensures ok { OnOk result (self.new ≡ with_slots self.old (slots_for index)) }
        ensures same { SameValues (value_at self.old) (value_at self.new) }
        ensures count { value_count self.new ≡ value_count self.old }
        ensures slots { OnOk result (length self.new ≡ slots_for index) }
        ensures err { OnErr result (self.new ≡ self.old) }
        ensures refused { IfErr result (IsGrowthRefusal (is_too_dense index)) }
        ensures too_dense { IsTrue (is_too_dense index) → result ≡ Err IdSpace }
    {
        if index >= DENSE_LIMIT {
            return Err(StoreError::IdSpace);
        }
        let (chunk, _) = Self::chunk_and_offset(index);
        let missing = (chunk + 1) * SLOTS_PER_CHUNK - self.slots.len();
        self.slots.reserve(missing)?;
        add_empty(&mut self.slots, missing);
        Ok(())
    }

    /// Gives the id a value, and answers the earlier one. A refusal hands the new one back.
    pub fn insert(&mut self, id: TId, value: V) -> Result<Option<V>, InsertError<V>>
        ensures earlier { IfOk result (λ earlier. earlier ≡ value_at self.old (TId.index_of id)) }
        ensures ok { OnOk result (IsUpdate (value_at self.old) (TId.index_of id) (Some value) (value_at self.new)) }
        ensures count { IfOk result (λ earlier. value_count self.new + (if is_some earlier then 1 else 0) ≡
            value_count self.old + 1) }
        ensures slots { OnOk result (length self.new ≡ max (length self.old) (slots_for (TId.index_of id))) }
        ensures err { IfErr result (λ refused. (refused.value ≡ value) × (self.new ≡ self.old)) }
        ensures room { TId.index_of id < length self.old → IsOk result × (length self.new ≡ length self.old) }
        ensures refused { IfErr result (λ refused. IsGrowthRefusal (is_too_dense (TId.index_of id)) refused.error) }
        ensures too_dense { IsTrue (is_too_dense (TId.index_of id)) →
            result ≡ Err (record { error = IdSpace; value = value }) }
    {
        if let Err(error) = self.make_room(id) {
            return Err(InsertError { error, value });
        }
        let earlier = self.slots[id.to_index()].replace(value);
        if earlier.is_none() {
            self.len += 1;
        }
        Ok(earlier)
    }

    /// Takes the id's value out, and answers it. Its slot stays. Takes no memory.
    pub fn unset(&mut self, id: TId) -> Option<V>
        ensures earlier { result ≡ value_at self.old (TId.index_of id) }
        ensures unset { IsUpdate (value_at self.old) (TId.index_of id) None (value_at self.new) }
        ensures count { value_count self.new + (if is_some result then 1 else 0) ≡ value_count self.old }
        ensures slots { length self.new ≡ length self.old }
    {
        let index = id.to_index();
        if index >= self.slots.len() {
            return None;
        }
        let earlier = self.slots[index].take();
        if earlier.is_some() {
            self.len -= 1;
        }
        earlier
    }

    /// All ids and values, in the order of the ids' indexes. Takes no memory.
    #[tactic(auto, using(crate::proofs::MappingLemmas::length_of_pairs))]
    pub fn iter(&self) -> MappingIter<'_, TId, V>
        ensures pairs { result ≡ pairs TId.id_at self.now }
        ensures count { length result ≡ value_count self.now }
        ensures values { All (λ pair. value_at self.now (TId.index_of pair.0) ≡ Some pair.1) result }
        ensures below { AreBelow TId.limit self.now }
    {
        MappingIter::new(self.slots.as_slice())
    }

    /// The id's value, to be changed. Takes no memory.
    pub fn get_mut(&mut self, id: TId) -> Option<&mut V>
        ensures* writes_back { sem 𝓛
            (lends_get TId.row V.row A.row TId.DenseIndex A.Allocator self.entry (TId.index_of id) result) }
        ensures value { option_copied_mut result ≡ value_at self.old (TId.index_of id) }
    {
        if self.get(id).is_none() {
            return None;
        }
        self.slots[id.to_index()].as_mut()
    }

    /// The id's value, to be changed. An id without one is first given what `default` answers, which isn't called
    /// otherwise, nor by a refusal.
    pub fn get_or_insert_with<F: FnOnce() -> V>(
        &mut self,
        id: TId,
        default: F,
    ) -> Result<&mut V, StoreError>
    where
        V: Drop,
        requires { ForNone (value_at self.old (TId.index_of id)) (F.pre default) }
        ensures* writes_back { sem 𝓛
            (lends_inserted TId.row V.row A.row TId.DenseIndex A.Allocator self.entry (TId.index_of id) result) }
        ensures value { IfOk result (λ r. MatchOption (value_at self.old (TId.index_of id))
            (F.post default r.now) (λ value. r.now ≡ value)) }
        ensures room { TId.index_of id < length self.old → IsOk result }
        ensures refused { IfErr result (IsGrowthRefusal (is_too_dense (TId.index_of id))) }
        ensures too_dense { IsTrue (is_too_dense (TId.index_of id)) → IsErrAnd result (λ e. e ≡ IdSpace) }
    {
        self.make_room(id)?;
        let index = id.to_index();
        if self.slots[index].is_none() {
            self.len += 1;
        }
        Ok(self.slots[index].get_or_insert_with(default))
    }
}
