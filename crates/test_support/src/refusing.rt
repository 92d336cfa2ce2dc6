//! An allocator that refuses one request, for tests of what a refusal leaves.
//!
//! What is proved is that it keeps the contract of `Allocator`: a block that it answers is whole and nobody else's, and
//! is freed only by the right that came with it, at its own size. Which request it refuses is only tested, since no
//! contract can say what a `Cell` holds: `test_parts` has the test.

use std::alloc::{AllocError, Allocator};
use std::cell::Cell;

/// Passes each request on to another allocator, but for one that it refuses.
///
/// A test lends it as `&Refusing<Global>`, so that every collection of the test counts into the same number.
/// A request is a call of `allocate`. The trait's `grow` and `shrink` make one each, for the new block.
pub struct Refusing<B: Allocator> {
    inner: B,
    /// The number of the request to refuse, where the next one is number 1; 0 where none is.
    left: Cell<u64>,
}

impl<B: Allocator> Refusing<B> {
    /// An allocator that refuses nothing yet.
    pub fn new(inner: B) -> Refusing<B> {
        Refusing {
            inner,
            left: Cell::new(0),
        }
    }

    /// From now on the request of this number is refused, where the next one is number 1, and no other. With 0 none is.
    pub fn arm(&self, number: u64) {
        self.left.set(number);
    }

    /// Whether the request that is to be refused has not come yet.
    pub fn is_armed(&self) -> bool {
        self.left.get() > 0
    }
}

impl<B: Allocator> Drop for Refusing<B> {
    fn drop(self) {
        let Self { inner: _, left: _ } = self;
    }
}

/// Counts a request, and says whether it is the one to refuse.
fn refuses(left: &Cell<u64>) -> bool {
    let number = left.get();
    left.set(number.saturating_sub(1));
    number == 1
}

unsafe impl<B: Allocator> Allocator for Refusing<B> {
    // The right to free a block is the other allocator's: nothing is added to it or kept of it.
    ghost dealloc_token = { λ heap ty ptr. B.dealloc_token heap.inner ty ptr };

    fn allocate(&self, size: usize, align: usize) -> Result<*mut u8, AllocError> {
        if refuses(&self.left) {
            return Err(AllocError);
        }
        self.inner.allocate(size, align)
    }

    unsafe fn deallocate(&self, ptr: *mut u8, size: usize, align: usize) {
        self.inner.deallocate(ptr, size, align);
    }
}
