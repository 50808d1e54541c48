//! Encodes items, given as a flat list, as canonical TTLV bytes (KMIP 1.0, section 9.1).
//!
//! Each item has a depth, a tag, a type, and the offset of its content in the caller's bytes, as `walk_items` of
//! kmip_ttlv_items returns them. `write_items` returns the bytes; `write_into` fills the caller's buffer and never
//! allocates. Lengths of structures are computed, and padding is zero. If an item can't be written, the error says
//! which, and why. Trees and their canonical bytes are those of kmip_ttlv_types.
#![tactic(auto)]

mod emit;
mod given;
mod judge;
pub mod laws;
mod measure;
mod write;

pub use given::{BadItem, BadKind, GiveItem, GivenItem, WriteError};
pub use write::{write_into, write_items};
