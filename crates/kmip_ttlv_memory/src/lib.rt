//! An allocator with limits: on all memory in use, on each block, and, for tests, on one growth; and one that
//! overwrites what it gives back.
//!
//! That they are allocators is proved. When the first fails is only tested: the counts are in cells, and no
//! contract says what a cell holds, or when an allocator fails.
#![tactic(auto)]

mod wiping;

use std::alloc::{AllocError, Allocator};
use std::cell::Cell;
pub use wiping::Wiping;

/// Passes each call on to another allocator, but fails beyond its limits. Pass it as `&allocator`, which is an
/// allocator itself. A call that uses it returns out of memory when a limit is reached, and the values that
/// it made so far free their memory.
///
/// ```
/// let memory = BoundedAllocator::new(rt.alloc(), 1_048_576);
/// let message: Request<_> = from_slice(&memory, bytes)?;
/// ```
pub struct BoundedAllocator<B: Allocator> {
    inner: B,
    limits: Limits,
}

// What is left, and what happened so far.
struct Limits {
    // The bytes of the budget that are left.
    left: Cell<usize>,
    // The size of the largest block, in bytes.
    largest: usize,
    // How many growths come before the one that fails; it wraps around below zero.
    before: Cell<u64>,
    // Whether a request failed.
    has_failed: Cell<bool>,
    // How many bytes the requests within the limits have asked for.
    asked: Cell<usize>,
}

impl<B: Allocator> BoundedAllocator<B> {
    /// Allocates from `inner`, at most `budget` bytes at a time. What is freed can be allocated again, and what
    /// `inner` refuses isn't counted. A vector that grows has its old block and its new one for a moment.
    ///
    /// ```
    /// let memory = BoundedAllocator::new(rt.alloc(), 64);
    /// let text = String::from_str(&memory, "Operation")?;
    /// assert!(rt; memory.left() == 64 - text.capacity());
    /// ```
    pub fn new(inner: B, budget: usize) -> BoundedAllocator<B> {
        BoundedAllocator::with(inner, budget, usize::MAX, u64::MAX)
    }

    /// Allocates from `inner`, in blocks of at most `largest` bytes each.
    ///
    /// ```
    /// let memory = BoundedAllocator::in_blocks(rt.alloc(), 8);
    /// assert!(rt; String::from_str(&memory, "Operation").is_err() && memory.has_failed());
    /// ```
    pub fn in_blocks(inner: B, largest: usize) -> BoundedAllocator<B> {
        BoundedAllocator::with(inner, usize::MAX, largest, u64::MAX)
    }

    /// For tests: allocates from `inner`, and fails once, at the growth after the first `before`. Every request
    /// for a block is a growth: the first one of a vector, and each larger one. A test counts `before` up from 0
    /// and stops when nothing has failed: then its call has failed at each of its growths in turn.
    ///
    /// ```
    /// let memory = BoundedAllocator::failing_after(rt.alloc(), 0);
    /// assert!(rt; String::from_str(&memory, "Operation").is_err() && memory.has_failed());
    /// ```
    pub fn failing_after(inner: B, before: u64) -> BoundedAllocator<B> {
        BoundedAllocator::with(inner, usize::MAX, usize::MAX, before)
    }

    fn with(inner: B, budget: usize, largest: usize, before: u64) -> BoundedAllocator<B> {
        let limits = Limits {
            left: Cell::new(budget),
            largest,
            before: Cell::new(before),
            has_failed: Cell::new(false),
            asked: Cell::new(0),
        };
        BoundedAllocator { inner, limits }
    }

    /// Whether any request has failed at a limit so far.
    pub fn has_failed(&self) -> bool {
        self.limits.has_failed.get()
    }

    /// How many bytes of the budget are left.
    pub fn left(&self) -> usize {
        self.limits.left.get()
    }

    /// How many bytes were asked for so far, whether or not they were freed. A vector that grows asks for its
    /// whole new block.
    ///
    /// ```
    /// let memory = BoundedAllocator::in_blocks(rt.alloc(), 8);
    /// drop(String::from_str(&memory, "Key")?);
    /// drop(String::from_str(&memory, "Keys")?);
    /// assert!(rt; memory.asked() == 7);
    /// ```
    pub fn asked(&self) -> usize {
        self.limits.asked.get()
    }
}

impl<B: Allocator> Drop for BoundedAllocator<B> {
    fn drop(self) {
        let Self {
            inner: _,
            limits: _,
        } = self;
    }
}

impl Drop for Limits {
    fn drop(self) {
        let Self {
            left: _,
            largest: _,
            before: _,
            has_failed: _,
            asked: _,
        } = self;
    }
}

// Whether a block of this size is beyond a limit. If not, it is counted.
fn is_beyond(limits: &Limits, size: usize) -> bool {
    let before = limits.before.get();
    limits.before.set(before.wrapping_sub(1));
    let left = limits.left.get();
    if before == 0 || size > limits.largest || size > left {
        limits.has_failed.set(true);
        return true;
    }
    limits.left.set(left - size);
    limits.asked.set(limits.asked.get().saturating_add(size));
    false
}

// Counts a block that is freed.
fn give_back(limits: &Limits, size: usize) {
    limits.left.set(limits.left.get().saturating_add(size));
}

unsafe impl<B: Allocator> Allocator for BoundedAllocator<B> {
    ghost dealloc_token = { λ heap ty ptr. B.dealloc_token heap.inner ty ptr };

    fn allocate(&self, size: usize, align: usize) -> Result<*mut u8, AllocError> {
        if is_beyond(&self.limits, size) {
            return Err(AllocError);
        }
        match self.inner.allocate(size, align) {
            Ok(block) => Ok(block),
            Err(error) => {
                give_back(&self.limits, size);
                Err(error)
            }
        }
    }

    unsafe fn deallocate(&self, ptr: *mut u8, size: usize, align: usize) {
        give_back(&self.limits, size);
        self.inner.deallocate(ptr, size, align);
    }
}
