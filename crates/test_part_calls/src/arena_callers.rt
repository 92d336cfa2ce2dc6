//! Callers of arenas, generic in the ids: what they are told is enough.
ghost use Rattle.std.specs.Prelude.{◌≡◌, ◌<◌, length, slice_set, sum, IfOk, IfSome};
ghost use Rattle.id_storage.specs.Arena.{pairs_from};

use id_storage::Arena;
use std::alloc::{AllocError, Allocator};
use typed_ids::DenseIndex;

/// The pairs that going over an arena gives.
pub fn pairs<TId: DenseIndex, V: Copy, A: Allocator>(
    alloc: A,
    arena: &Arena<TId, V, A>,
) -> Result<Vec<(TId, V), A>, AllocError>
    ensures { IfOk result (λ list. list.items ≡ pairs_from TId.id_at 0 arena.now) }
{
    let mut list = Vec::new(alloc);
    for (id, value) in arena.iter() {
        list.push((id, *value))?;
    }
    Ok(list)
}

/// The sum of an arena's values.
pub fn total<TId: DenseIndex, A: Allocator>(arena: &Arena<TId, u16, A>) -> u64
    ensures { result ≡ sum arena.now }
{
    let mut total: u64 = 0;
    for (_, value) in arena.iter() {
        total += u64::from(*value);
    }
    total
}

/// How many pairs going over an arena gives: one for each value.
pub fn count<TId: DenseIndex, V, A: Allocator>(arena: &Arena<TId, V, A>) -> usize
    ensures { result ≡ length arena.now }
{
    arena.iter().count()
}

/// Writes a value over another one.
pub fn replace<TId: DenseIndex, V: Drop, A: Allocator>(
    arena: &mut Arena<TId, V, A>,
    id: TId,
    value: V,
)
    requires { TId.index_of id < length arena.old }
    ensures { arena.new ≡ slice_set arena.old (TId.index_of id) value }
{
    arena[id] = value;
}

/// Adds a value, and reads it by the id that the addition answered.
pub fn added<TId: DenseIndex, V: Copy + Drop, A: Allocator>(
    arena: &mut Arena<TId, V, A>,
    value: V,
) -> Option<V>
    ensures { IfSome result (λ read. read ≡ value) }
{
    match arena.alloc(value) {
        Ok(id) => Some(arena[id]),
        Err(_) => None,
    }
}
