//! Callers of `Mapping`. They know only that ids are dense, and the contracts of the map.
ghost use Rattle.std.specs.Prelude.{◌≡◌, ◌≢◌, ◌+◌, ◌<◌, ◌≤◌, ◌^◌, ◌-◌, ℕ, length, min, is_some};
ghost use Rattle.std.specs.Prelude.{option_map, unwrap_or, Some, IfSome, IfNone, OnOk, OnErr, IsSomeAnd};
ghost use Rattle.std.specs.Option.{ForSome};
ghost use Rattle.id_storage.specs.Mapping.{value_at};
ghost use Rattle.typed_ids.specs.TotalMaps.{IsUpdate};

use id_storage::Mapping;
use typed_ids::{DenseIndex, StoreError};

/// An id whose value is at least `least`, if there is one.
pub fn find_at_least<TId: DenseIndex>(mapping: &Mapping<TId, u32>, least: u32) -> Option<TId>
    ensures found { IfSome result (λ id. IsSomeAnd (value_at mapping.now (TId.index_of id)) (λ value. least ≤ value)) }
    ensures absent { IfNone result ((index : ℕ) → ForSome (value_at mapping.now index) (λ value. value < least)) }
{
    for (id, value) in mapping.iter() {
        if *value >= least {
            return Some(id);
        }
    }
    None
}

/// Sets an id's value to zero, if it has one.
pub fn clear<TId: DenseIndex>(mapping: &mut Mapping<TId, u32>, id: TId)
    ensures { IsUpdate (value_at mapping.old) (TId.index_of id)
        (option_map (λ _. 0) (value_at mapping.old (TId.index_of id))) (value_at mapping.new) }
{
    if let Some(value) = mapping.get_mut(id) {
        *value = 0;
    }
}

/// Adds one to an id's count, which begins at 0 and stays at 2^32 - 1.
pub fn count_up<TId: DenseIndex>(mapping: &mut Mapping<TId, u32>, id: TId) -> Result<(), StoreError>
    ensures ok { OnOk result (value_at mapping.new (TId.index_of id) ≡
        Some (min (unwrap_or (value_at mapping.old (TId.index_of id)) 0 + 1) (2 ^ 32 - 1))) }
    ensures err { OnErr result (mapping.new ≡ mapping.old) }
{
    let times = mapping.get_or_insert_with(
        id,
        || -> u32
            ensures { result ≡ 0 }
        { 0 },
    )?;
    *times = times.saturating_add(1);
    Ok(())
}

/// Replaces an id's value, and answers the earlier one. It takes no memory.
pub fn exchange<TId: DenseIndex>(
    mapping: &mut Mapping<TId, u32>,
    id: TId,
    value: u32,
) -> Option<u32>
    requires { TId.index_of id < length mapping.old }
    ensures slots { length mapping.new ≡ length mapping.old }
    ensures earlier { result ≡ value_at mapping.old (TId.index_of id) }
    ensures put { IsUpdate (value_at mapping.old) (TId.index_of id) (Some value) (value_at mapping.new) }
{
    let earlier = mapping.unset(id);
    let _ = mapping.insert(id, value);
    earlier
}
