//! The allocator that refuses, as every allocator is called.

use crate::refusing::RefusingAlloc;
use std::alloc::{AllocError, Allocator};

unsafe impl<A: Allocator> Allocator for RefusingAlloc<A> {
    ghost dealloc_token = { λ it. A.dealloc_token it };

    fn allocate(&self, size: usize, align: usize) -> Result<*mut u8, AllocError> {
        if self.grants() {
            self.behind().allocate(size, align)
        } else {
            Err(AllocError)
        }
    }

    unsafe fn deallocate(&self, ptr: *mut u8, size: usize, align: usize) {
        unsafe { self.behind().deallocate(ptr, size, align) }
    }
}
