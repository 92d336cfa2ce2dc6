//! Arenas, mappings and frozen maps.
use crate::each_request::{takes_none, with_default};
use id_storage::{Arena, FrozenCopyMap, Mapping};
use std::alloc::Allocator;
use std::cell::Cell;
use test_support::Refusing;
use typed_ids::{SolvableId, StoreError};

pub(super) fn call_arenas<B: Allocator>(heap: &Refusing<B>) -> Result<(), StoreError> {
    let mut roomy: Arena<SolvableId, u16, &Refusing<B>> = Arena::with_capacity(heap, 3)?;
    let mut grown = Arena::new(heap);
    let answer = fill_arenas(heap, &mut roomy, &mut grown);
    drop(roomy);
    drop(grown);
    answer
}

/// The one arena was made with room for its values, the other wasn't.
fn fill_arenas<A: Allocator, B: Allocator>(
    heap: &Refusing<B>,
    roomy: &mut Arena<SolvableId, u16, A>,
    grown: &mut Arena<SolvableId, u16, A>,
) -> Result<(), StoreError> {
    fill_arena(grown)?;
    heap.arm(1);
    fill_arena(roomy)?;
    roomy.clear();
    let _seen = (roomy.is_empty(), grown.len(), grown.iter().count());
    takes_none(heap)
}

fn fill_arena<A: Allocator>(arena: &mut Arena<SolvableId, u16, A>) -> Result<(), StoreError> {
    for value in [9, 8, 7] {
        arena.alloc(value)?;
    }
    Ok(())
}

pub(super) fn call_mapping<B: Allocator>(heap: &Refusing<B>) -> Result<(), StoreError> {
    let new: Mapping<SolvableId, u32, &Refusing<B>> = Mapping::new(heap)?;
    drop(new);
    let mut mapping = Mapping::with_capacity(heap, 129)?;
    let answer = fill_mapping(heap, &mut mapping);
    drop(mapping);
    answer
}

fn fill_mapping<A: Allocator, B: Allocator>(
    heap: &Refusing<B>,
    mapping: &mut Mapping<SolvableId, u32, A>,
) -> Result<(), StoreError> {
    mapping.insert(SolvableId::from_raw(300), 5)?;
    mapping.make_room(SolvableId::from_raw(900))?;
    for number in [1300, 3000, 9000] {
        take_default(mapping, SolvableId::from_raw(number))?;
    }
    heap.arm(1);
    mapping.insert(SolvableId::from_raw(900), 6)?;
    take_default(mapping, SolvableId::from_raw(900))?;
    read_mapping(mapping, SolvableId::from_raw(900));
    takes_none(heap)
}

fn take_default<A: Allocator>(
    mapping: &mut Mapping<SolvableId, u32, A>,
    id: SolvableId,
) -> Result<(), StoreError> {
    let is_called = Cell::new(false);
    let lent = mapping.get_or_insert_with(id, || {
        is_called.set(true);
        4
    });
    with_default(lent.err(), is_called.get())
}

fn read_mapping<A: Allocator>(mapping: &mut Mapping<SolvableId, u32, A>, id: SolvableId) {
    let _seen = (
        mapping.get(id).copied(),
        mapping.len(),
        mapping.iter().count(),
    );
    if let Some(value) = mapping.get_mut(id) {
        *value = 7;
    }
    let _unset = mapping.unset(id);
}

pub(super) fn call_frozen_map<B: Allocator>(heap: &Refusing<B>) -> Result<(), StoreError> {
    let mut map: FrozenCopyMap<u32, u64, &Refusing<B>> = FrozenCopyMap::new(heap);
    let answer = fill_frozen_map(heap, &mut map);
    drop(map);
    answer
}

fn fill_frozen_map<A: Allocator + Copy, B: Allocator>(
    heap: &Refusing<B>,
    map: &mut FrozenCopyMap<u32, u64, A>,
) -> Result<(), StoreError> {
    for key in 0..20u32 {
        map.insert_copy(key, 10)?;
    }
    heap.arm(1);
    map.insert_copy(3, 30)?;
    let _kept = (map.get_copy(&3), map.get_copy(&50));
    takes_none(heap)
}
