//! Where a run takes its memory from.

use std::alloc::Allocator;

/// Where a run takes its memory from. Where blocks of `rest` are bounded, no input takes more memory than its own bytes,
/// or those of the largest raw message or line of diagnostics, and a constant: one that is nested too deep for it fails
/// as when out of memory.
#[derive(Clone, Copy)]
pub struct Memory<A: Allocator + Copy, B: Allocator + Copy> {
    /// The bytes of the input that are buffered come from here, and for a line of JSON its texts and its message.
    pub input: A,
    /// All else comes from here: the names, the ends of the structures that are open at once, and the line on
    /// standard error.
    pub rest: B,
}
