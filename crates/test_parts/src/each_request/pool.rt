//! The pool: one of each kind comes in, and is looked up.
use crate::each_request::takes_none;
use package_pool::{NameText, Pool};
use providers::Condition;
use script_packages::VersionRange;
use std::alloc::Allocator;
use test_support::Refusing;
use typed_ids::{NameId, StoreError};

pub(super) fn call_pool<B: Allocator>(heap: &Refusing<B>) -> Result<(), StoreError> {
    let mut pool: Pool<VersionRange, u32, &Refusing<B>> = Pool::new(heap);
    let answer = fill_pool(heap, heap, &mut pool);
    drop(pool);
    answer
}

fn fill_pool<A: Allocator + Copy, B: Allocator>(
    heap: &Refusing<B>,
    alloc: A,
    pool: &mut Pool<VersionRange, u32, A>,
) -> Result<(), StoreError> {
    let string = pool.intern_string(String::from_str(alloc, "old")?)?;
    let name = pool.intern_package_name(7)?;
    fill_kinds(pool, name)?;
    write_name(alloc, pool, name)?;
    heap.arm(1);
    let _known = (pool.knows_string(string), pool.lookup_package_name(&7));
    takes_none(heap)
}

/// A solvable, a version set, a union of it and its condition.
fn fill_kinds<A: Allocator + Copy>(
    pool: &mut Pool<VersionRange, u32, A>,
    name: NameId,
) -> Result<(), StoreError> {
    if !pool.knows_name(name) {
        return Err(StoreError::UnknownId);
    }
    let set = pool.intern_version_set(name, VersionRange { low: 1, high: 3 })?;
    if !pool.knows_version_set(set) || !pool.knows_name(name) {
        return Err(StoreError::UnknownId);
    }
    pool.intern_solvable(name, 1)?;
    if !pool.knows_version_set(set) {
        return Err(StoreError::UnknownId);
    }
    pool.intern_version_set_union(set, &[set, set, set, set])?;
    if !pool.knows_version_set(set) {
        return Err(StoreError::UnknownId);
    }
    pool.intern_condition(Condition::Requirement(set))?;
    Ok(())
}

fn write_name<A: Allocator + Copy>(
    alloc: A,
    pool: &Pool<VersionRange, u32, A>,
    name: NameId,
) -> Result<(), StoreError> {
    if !pool.knows_name(name) {
        return Err(StoreError::UnknownId);
    }
    let mut text = String::new(alloc);
    let answer = name.display(pool, &mut text);
    let is_written = text.as_str() == "7";
    drop(text);
    answer?;
    if is_written {
        Ok(())
    } else {
        Err(StoreError::Cancelled)
    }
}
