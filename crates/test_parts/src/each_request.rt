//! Each request for memory that the parts make is refused in turn, and then the call that made it is. Where no request
//! is refused, no call is. Calls that take no memory ask for none.
mod by_ids;
mod clause_literals;
mod counted;
mod decided;
mod pool;
mod requirements;
mod rows;
mod storage;
mod watches;

use crate::each_request::by_ids::Kept;
use std::alloc::{Allocator, Global};
use std::test::Fail;
use test_support::{Refusing, is_same};
use typed_ids::StoreError;

/// How many parts there are.
const PARTS: usize = 20;

#[test]
fn each_request_is_refused_in_turn(rt: HostRuntime) -> Result<(), Fail> {
    let mut are_as_wanted = [false; PARTS];
    for part in 0..PARTS {
        are_as_wanted[part] = is_refused_in_turn(rt.alloc(), part);
    }
    is_same(are_as_wanted, [true; PARTS])
}

/// Whether the calls of a part make requests, and each of these is refused in turn, and so is its call.
fn is_refused_in_turn(alloc: Global, part: usize) -> bool {
    for number in 1..1000u64 {
        let heap = Refusing::new(alloc);
        heap.arm(number);
        let answer = call(&heap, part);
        let is_refused = !heap.is_armed();
        drop(heap);
        if !is_refused {
            return number > 1 && answer.is_ok();
        }
        if answer != Err(StoreError::OutOfMemory) {
            return false;
        }
    }
    false
}

/// Makes the calls of a part, up to the first that is refused.
fn call<B: Allocator>(heap: &Refusing<B>, part: usize) -> Result<(), StoreError> {
    match part {
        0 => storage::call_arenas(heap),
        1 => storage::call_mapping(heap),
        2 => storage::call_frozen_map(heap),
        3 => by_ids::call_dense(heap, Kept::Scores),
        4 => by_ids::call_dense(heap, Kept::Set),
        5 => by_ids::call_dense(heap, Kept::Answers),
        6 => by_ids::call_sparse(heap, Kept::Scores),
        7 => by_ids::call_sparse(heap, Kept::Set),
        8 => by_ids::call_sparse(heap, Kept::Answers),
        9 => requirements::call_map(heap),
        10 => requirements::call_conversion(heap),
        11 => pool::call_pool(heap),
        12 => decided::call_trail(heap),
        13 => decided::call_values(heap),
        14 => decided::call_variables(heap),
        15 => clause_literals::call_shelf(heap),
        16 => watches::call_lists(heap),
        17 => counted::call_tracker(heap),
        18 => counted::call_counters(heap),
        _ => rows::call_rows(heap),
    }
}

/// Fails where a request came since the next one is to be refused.
fn takes_none<B: Allocator>(heap: &Refusing<B>) -> Result<(), StoreError> {
    if heap.is_armed() {
        Ok(())
    } else {
        Err(StoreError::Cancelled)
    }
}

/// What came of a call that may ask for a default. One that is refused doesn't ask for it.
fn with_default(refusal: Option<StoreError>, is_called: bool) -> Result<(), StoreError> {
    match refusal {
        None => Ok(()),
        Some(_) if is_called => Err(StoreError::Cancelled),
        Some(error) => Err(error),
    }
}
