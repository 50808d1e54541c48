//! Types of Rust whose values leaves are, where no type of the language says it.

use std::alloc::{Allocator, Global};

/// A Date-Time, in seconds since 1970.
#[derive(Clone, Copy, Debug, PartialEq, Eq)]
pub struct DateTime(pub i64);

/// An Interval, in seconds.
#[derive(Clone, Copy, Debug, PartialEq, Eq)]
pub struct Interval(pub u32);

/// A Big Integer: its bytes, the highest first. Encoding extends its sign to a multiple of eight bytes.
#[derive(Drop)]
#[derive_where(Debug, PartialEq)]
pub struct BigNumber<A: Allocator = Global> {
    /// The bytes of the number, in two's complement.
    pub bytes: Vec<u8, A>,
}
