//! The allocator that refuses one request.
use std::alloc::{AllocError, Allocator};
use std::test::Fail;
use test_support::{Refusing, is_same};

#[test]
fn refuses_the_second_request_alone(rt: HostRuntime) -> Result<(), Fail> {
    let heap = Refusing::new(rt.alloc());
    let seen = requests(&heap);
    drop(heap);
    is_same(seen, ([false, true, false], [true, false, true]))
}

/// Whether a request is to be refused: at first, and once one and two requests of three were made, of which the second
/// is to be refused; and which of the three were granted.
fn requests<B: Allocator>(heap: &Refusing<B>) -> ([bool; 3], [bool; 3]) {
    let at_first = heap.is_armed();
    heap.arm(2);
    let first = (is_granted(heap), heap.is_armed());
    let second = (is_granted(heap), heap.is_armed());
    let third = is_granted(heap);
    ([at_first, first.1, second.1], [first.0, second.0, third])
}

/// Whether a list gets its memory, which is one request.
fn is_granted<B: Allocator>(heap: &Refusing<B>) -> bool {
    let list: Result<Vec<u64, &Refusing<B>>, AllocError> = Vec::with_capacity(heap, 1);
    list.is_ok()
}
