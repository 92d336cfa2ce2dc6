//! Tables in which equal values stand once, in the order in which they came. A value's place is its id.
ghost use Rattle.std.specs.Prelude.{◌≡◌, ◌≤◌, ◌<◌, ◌^◌, true, false, length, min};
ghost use Rattle.std.specs.Prelude.{IsTrue, IsOk, IfOk, OnOk, IfErr, OnErr, IsErrAnd};
ghost use Rattle.indexmap.specs.IndexSet.{index_set_len};
ghost use Rattle.typed_ids.specs.declared.error.StoreError.TheVariants.{IdSpace};
ghost use Rattle.typed_ids.specs.Refusals.{IsGrowthRefusal, are_ids_out};
ghost use Rattle.package_pool.specs.Interned.{has_same, interned, interned_place};

use indexmap::IndexSet;
use std::alloc::Allocator;
use std::hash::{BuildHasherDefault, FoldHasher, Hash};
use typed_ids::{DENSE_LIMIT, DenseIndex, InsertError, StoreError};

/// Adds a value, unless an equal one is there, and answers the id of the one that is. Takes memory where there is no
/// room left for a new value. Hashes the value once.
pub(crate) fn intern<Id: DenseIndex, T: Eq + Hash + Drop, A: Allocator + Copy>(
    table: &mut IndexSet<T, BuildHasherDefault<FoldHasher>, A>,
    value: T,
) -> Result<Id, InsertError<T>>
    requires { index_set_len table.old ≤ min Id.limit (2 ^ 40) }
    ensures id { IfOk result (λ id. id ≡ Id.id_at (interned_place T.eq table.old.keys value)) }
    ensures ok { OnOk result (table.new.keys ≡ interned T.eq table.old.keys value) }
    ensures within { OnOk result (interned_place T.eq table.old.keys value < length table.new.keys) }
    ensures err { OnErr result (table.new.keys ≡ table.old.keys) }
    ensures fits { index_set_len table.new ≤ min Id.limit (2 ^ 40) }
    ensures value_returned { IfErr result (λ refusal. refusal.value ≡ value) }
    ensures refused { IfErr result (λ refusal.
        IsGrowthRefusal (are_ids_out Id.limit (length table.old.keys)) refusal.error) }
    ensures known { IsTrue (has_same T.eq table.old.keys value) → IsOk result }
    ensures ids_out { IsTrue (are_ids_out Id.limit (length table.old.keys)) →
        has_same T.eq table.old.keys value ≡ false → IsErrAnd result (λ refusal. refusal.error ≡ IdSpace) }
{
    let count = table.len();
    if count >= DENSE_LIMIT || !Id::in_range(count) {
        return known_or_out(table, value);
    }
    match table.insert_full(value) {
        Ok((index, _)) => Ok(Id::from_index(index)),
        Err(failed) => Err(InsertError {
            error: StoreError::OutOfMemory,
            value: failed.value,
        }),
    }
}

/// The id of an equal value, where no new one can be added: no id is left.
fn known_or_out<Id: DenseIndex, T: Eq + Hash + Drop, A: Allocator + Copy>(
    table: &IndexSet<T, BuildHasherDefault<FoldHasher>, A>,
    value: T,
) -> Result<Id, InsertError<T>>
    requires { index_set_len table.now ≤ min Id.limit (2 ^ 40) }
    ensures id { IfOk result (λ id. id ≡ Id.id_at (interned_place T.eq table.now.keys value)) }
    ensures found { IfOk result (λ _. has_same T.eq table.now.keys value ≡ true) }
    ensures within { OnOk result (interned_place T.eq table.now.keys value < length table.now.keys) }
    ensures absent { OnErr result (has_same T.eq table.now.keys value ≡ false) }
    ensures refusal { IfErr result (λ refusal. refusal ≡ record { error = IdSpace; value = value }) }
{
    match table.get_index_of(&value) {
        Some(index) => Ok(Id::from_index(index)),
        None => Err(InsertError {
            error: StoreError::IdSpace,
            value,
        }),
    }
}
