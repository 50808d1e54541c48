//! The structure that is being read.

use kmip_ttlv_base::types::TtlvTag;
use std::alloc::{Allocator, Global};

/// A structure whose items are being read, and where they are read from.
#[derive(Drop)]
pub struct Scope<'b, A: Allocator = Global> {
    /// Where memory is taken from.
    pub alloc: A,
    /// The whole message, and what follows it.
    pub bytes: &'b [u8],
    /// The tag of the innermost struct around.
    pub owner: TtlvTag,
    /// Where the structure ends, in bytes from the first byte.
    pub end: usize,
}
