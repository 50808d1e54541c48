//! The parts of the TTLV encoding: tags, types and lengths of items, the values of leaves, and the
//! order of an item's fields. They can be used on their own, with any reader and any writer.
//!
//! The wire format is that of OASIS KMIP 1.0, section 9.1. specs/ has the definitions that all layers above
//! use: the types of items, which content is valid for a leaf, items and the bytes that encode them, trees
//! with their canonical bytes, names of tags, and what reading and writing do to a stream. `stream` has what
//! bytes are read from and written to, `laws` the laws that a proof over these calls can use.
#![tactic(auto)]

mod digits;
mod error;
mod field;
mod fixed;
pub mod laws;
mod length;
mod machine;
mod names;
pub mod numbers;
pub mod places;
mod primitive;
pub mod stream;
mod strings;
mod tag;
mod typ;

pub use error::Error;
pub use field::{ByteOffset, FieldType};
pub use fixed::{
    TtlvBoolean, TtlvDateTime, TtlvEnumeration, TtlvInteger, TtlvInterval, TtlvLongInteger,
};
pub use length::TtlvLength;
pub use machine::{TtlvStateMachine, TtlvStateMachineMode};
pub use names::number;
pub use primitive::{HasTtlvType, SerializableTtlvType};
use std::alloc::{Allocator, Global};
pub use strings::{TtlvBigInteger, TtlvByteString, TtlvTextString};
pub use tag::TtlvTag;
pub use typ::TtlvType;

/// The result of a low-level call.
pub type Result<T, A = Global> = std::result::Result<T, Error<A>>;
