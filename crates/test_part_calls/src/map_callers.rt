//! Callers of maps of requirements that know nothing of them but their contracts.
ghost use Rattle.std.specs.Prelude.{◌≡◌, ◌+◌, ◌-◌, ◌^◌, min, unwrap_or, None, IsSome, OnOk, OnErr};
ghost use Rattle.std.specs.Map.{lookup, set_value};
ghost use Rattle.providers.specs.Requirement.{same_requirement};
ghost use Rattle.providers.specs.RequirementMap.{with_entry};

use providers::{Requirement, RequirementMap};
use std::alloc::Allocator;
use typed_ids::StoreError;

/// Puts zero in the place of a requirement's value, if it has one.
pub fn clear_requirement<A: Allocator + Copy>(
    map: &mut RequirementMap<u32, A>,
    requirement: Requirement,
)
    ensures known { IsSome (lookup (same_requirement requirement) map.old) →
        map.new ≡ set_value (same_requirement requirement) map.old 0 }
    ensures absent { lookup (same_requirement requirement) map.old ≡ None → map.new ≡ map.old }
{
    if let Some(value) = map.get_mut(requirement) {
        *value = 0;
    }
}

/// Counts a requirement once more, from 0 on.
pub fn count_requirement<A: Allocator + Copy>(
    map: &mut RequirementMap<u32, A>,
    requirement: Requirement,
) -> Result<(), StoreError>
    ensures ok { OnOk result (map.new ≡ with_entry map.old requirement
        (min (unwrap_or (lookup (same_requirement requirement) map.old) 0 + 1) (2 ^ 32 - 1))) }
    ensures err { OnErr result (map.new ≡ map.old) }
{
    let times = map.get_or_insert_with(
        requirement,
        || -> u32
            ensures { result ≡ 0 }
        { 0 },
    )?;
    *times = times.saturating_add(1);
    Ok(())
}
