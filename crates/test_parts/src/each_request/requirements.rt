//! Maps by requirements, and conversions of conditions. New candidates, dependencies and hints take no memory.
use crate::each_request::{takes_none, with_default};
use crate::texts::OnePackage;
use providers::{
    Candidates, HintDependenciesAvailable, KnownDependencies, Requirement, RequirementMap,
    convert_conditions_to_dnf,
};
use std::alloc::Allocator;
use std::cell::Cell;
use test_support::Refusing;
use typed_ids::{ConditionId, SolvableId, StoreError, VersionSetId};

pub(super) fn call_map<B: Allocator>(heap: &Refusing<B>) -> Result<(), StoreError> {
    let mut map: RequirementMap<u32, &Refusing<B>> = RequirementMap::new(heap);
    let answer = fill_map(heap, &mut map);
    drop(map);
    answer?;
    let candidates: Candidates<SolvableId, &Refusing<B>> = Candidates::new(heap);
    let dependencies = KnownDependencies::new(heap);
    let hint: HintDependenciesAvailable<SolvableId, &Refusing<B>> =
        HintDependenciesAvailable::new();
    drop(candidates);
    drop(dependencies);
    drop(hint);
    takes_none(heap)
}

fn fill_map<A: Allocator + Copy, B: Allocator>(
    heap: &Refusing<B>,
    map: &mut RequirementMap<u32, A>,
) -> Result<(), StoreError> {
    map.insert(required(0), 5)?;
    for number in 1..40u32 {
        take_default(map, required(number))?;
    }
    heap.arm(1);
    map.insert(required(0), 6)?;
    take_default(map, required(0))?;
    let _read = map.get(required(50)).copied();
    if let Some(value) = map.get_mut(required(0)) {
        *value = 7;
    }
    takes_none(heap)
}

fn take_default<A: Allocator + Copy>(
    map: &mut RequirementMap<u32, A>,
    requirement: Requirement,
) -> Result<(), StoreError> {
    let is_called = Cell::new(false);
    let lent = map.get_or_insert_with(requirement, || {
        is_called.set(true);
        4
    });
    with_default(lent.err(), is_called.get())
}

fn required(set: u32) -> Requirement {
    Requirement::Single(VersionSetId(set))
}

/// A condition that joins another with itself is brought into normal form.
pub(super) fn call_conversion<B: Allocator>(heap: &Refusing<B>) -> Result<(), StoreError> {
    let lists = convert_conditions_to_dnf(heap, ConditionId::new(1), &OnePackage)?;
    drop(lists);
    Ok(())
}
