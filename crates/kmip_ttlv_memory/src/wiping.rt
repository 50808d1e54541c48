//! An allocator that overwrites each block before it gives it back.

ghost use Rattle.std.specs.Borrow.{sem, u8};
ghost use Rattle.std.specs.Ptr.{room_at};
ghost use denote.Array.{Array};
ghost use Rattle.kmip_ttlv_memory.specs.Zeros.{zeros_at};

use std::alloc::{AllocError, Allocator};

/// Passes each call on to another allocator, and overwrites each block with zeros before that gets it back: also the
/// old block of a vector or a text that grows. Pass it as `&allocator`, which is an allocator itself.
///
/// It clears what was in its blocks, and nothing else. A value that is moved leaves its old place as it was, on the
/// stack or in registers; the system may have written memory to a disk; and what another allocator gave isn't cleared.
///
/// ```
/// let memory = Wiping::new(rt.alloc());
/// let message: Response<_> = from_slice(&memory, bytes)?; // its texts and keys are cleared when it is dropped
/// ```
#[derive(Drop)]
pub struct Wiping<A: Allocator> {
    inner: A,
}

impl<A: Allocator> Wiping<A> {
    /// An allocator that takes its memory from `inner`, and wipes what it gives back to it. Doesn't allocate.
    pub fn new(inner: A) -> Wiping<A> {
        Wiping { inner }
    }
}

// Overwrites memory of this size, in bytes, with zeros.
unsafe fn wipe(ptr: *mut u8, size: usize)
    requires* room { sem 𝓛 (room_at (Array u8 size) ptr) }
    ensures* zeros { sem 𝓛 (zeros_at size ptr) }
{
    let mut at = 0;
    while at < size {
        let place = ptr.add(at);
        *place = 0;
        at += 1;
    }
}

unsafe impl<A: Allocator> Allocator for Wiping<A> {
    ghost dealloc_token = { λ heap ty ptr. A.dealloc_token heap.inner ty ptr };

    fn allocate(&self, size: usize, align: usize) -> Result<*mut u8, AllocError> {
        self.inner.allocate(size, align)
    }

    unsafe fn deallocate(&self, ptr: *mut u8, size: usize, align: usize) {
        wipe(ptr, size);
        self.inner.deallocate(ptr, size, align);
    }
}
