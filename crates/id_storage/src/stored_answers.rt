//! Answers, each found by the id that its question is about.
ghost use Rattle.std.specs.Prelude.{◌≡◌, ◌<◌, ◌^◌, false, [], ◌∷◌, ◌++◌, true, map, length, is_some};
ghost use Rattle.std.specs.Prelude.{slice_get, Some, None, IfSome, IsTrue, IfOk, OnOk, OnErr, IfErr};
ghost use Rattle.std.specs.List.{IsDistinct};
ghost use Rattle.std.specs.Map.{lookup, keys_of, set_value};
ghost use Rattle.typed_ids.specs.Refusals.{IsGrowthRefusal};
ghost use Rattle.typed_ids.specs.declared.error.StoreError.TheVariants.{IdSpace};

use crate::arena::Arena;
use id_maps::{IdMap, Slot, SolverId};
use std::alloc::Allocator;
use std::marker::Model;
use std::mem;
use std::ops::Index;
use typed_ids::{DenseIndex, StoreError};

/// The answers to questions about ids `K`, each kept under an id `I` of its own. A contract sees the questions with
/// their answers, the first one first.
///
/// An answer stays where it is: none is taken out.
#[derive(Drop)]
pub struct StoredAnswers<I: DenseIndex, K: SolverId<A>, V, A: Allocator + Copy> {
    answers: Arena<I, (K, V), A>,
    /// The place of each question's answer.
    slots: K::Slots,
}

impl<I: DenseIndex, K: SolverId<A>, V, A: Allocator + Copy> Model for StoredAnswers<I, K, V, A> {
    ghost use Rattle.std.specs.Prelude.{List};
    ghost use Rattle.id_storage.specs.StoredAnswers.{AreStored};

    ghost Value = { List (K × V) };

    ghost view = { λ kept. kept.answers };

    ghost invariant = { λ kept. AreStored K.eq K.is_id I.limit (K.Slots.value_at kept.slots) kept.answers };
}

impl<I: DenseIndex, K: SolverId<A>, V, A: Allocator + Copy> StoredAnswers<I, K, V, A> {
    ghost use Rattle.id_storage.specs.StoredAnswers.{lacks_answer};

    /// No answers. Takes no memory.
    pub fn new(alloc: A) -> Self
        ensures { result ≡ [] }
    {
        StoredAnswers {
            answers: Arena::new(alloc),
            slots: <K::Slots as IdMap<K, Slot, A>>::new(alloc),
        }
    }

    /// Where the question's answer is kept, if it has one: one look-up.
    pub fn find(&self, key: K) -> Option<I>
        ensures found { is_some result ≡ is_some (lookup (K.eq key) self.now) }
        ensures within { IfSome result (λ id. I.index_of id < length self.now) }
        ensures answer { IfSome result (λ id. slice_get (map (λ e. e.1) self.now) (I.index_of id) ≡
            lookup (K.eq key) self.now) }
        ensures distinct { IsDistinct K.eq (keys_of self.now) }
        ensures fits { IfSome result (λ id. K.Slots.is_too_large key ≡ false) }
    {
        match self.slots.get(key).number() {
            Some(index) => Some(I::from_index(index as usize)),
            None => None,
        }
    }

    /// Keeps the answer to a question that has none. A refused answer is dropped. Takes memory where the question has
    /// no slot yet, or the answers no room.
    pub fn insert(&mut self, key: K, value: V) -> Result<I, StoreError>
    where
        V: Drop,
        requires { lookup (K.eq key) self.old ≡ None }
        ensures place { IfOk result (λ id. I.index_of id ≡ length self.old) }
        ensures ok { OnOk result (self.new ≡ self.old ++ (key, value) ∷ []) }
        ensures err { OnErr result (self.new ≡ self.old) }
        ensures fits { OnOk result (lacks_answer I.limit K.Slots.is_too_large (length self.old) key ≡ false) }
        ensures ids_out { IsTrue (lacks_answer I.limit K.Slots.is_too_large (length self.old) key) →
            result ≡ Err IdSpace }
        ensures refused { IfErr result
            (IsGrowthRefusal (lacks_answer I.limit K.Slots.is_too_large (length self.old) key)) }
        ensures few { K.are_many ≡ false → length self.old < 2 ^ 32 }
    {
        key.attest();
        let index = self.answers.len();
        if index > u32::MAX as usize || !I::in_range(index) {
            return Err(StoreError::IdSpace);
        }
        self.slots.make_room(key)?;
        let id = self.answers.alloc((key, value))?;
        self.slots.put(key, Slot::new(Some(index as u32)));
        Ok(id)
    }

    /// Puts a value in the place of the answer to a question that has one, and hands out the earlier one: one look-up.
    /// Takes no memory.
    pub fn replace(&mut self, key: K, value: V) -> V
        requires { is_some (lookup (K.eq key) self.old) ≡ true }
        ensures earlier { lookup (K.eq key) self.old ≡ Some result }
        ensures replaced { self.new ≡ set_value (K.eq key) self.old value }
    {
        match self.slots.get(key).number() {
            Some(index) => {
                let id = I::from_index(index as usize);
                mem::replace(&mut self.answers[id].1, value)
            }
            None => unreachable!(),
        }
    }
}

/// The answer that is kept under an id.
impl<I: DenseIndex, K: SolverId<A>, V, A: Allocator + Copy> Index<I> for StoredAnswers<I, K, V, A> {
    type Output = V;

    ghost can_index = { λ kept id. I.index_of id < length kept };

    ghost index_gives = { λ kept id value. slice_get (map (λ e. e.1) kept) (I.index_of id) ≡ Some value };

    fn index(&self, id: I) -> &V {
        &self.answers[id].1
    }
}
