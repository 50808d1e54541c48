//! Lists the items of any bytes without a shape, and checks whether the bytes are one whole message.
//!
//! `walk_items` is a single pass over its input. It lists the items that it meets, and returns the first
//! fault if the bytes are no well-formed message (KMIP 1.0, section 9.1). Nesting costs memory but no
//! stack. specs/ defines a message's items and its faults; items, trees and offsets are those of
//! kmip_ttlv_types.
#![tactic(auto)]

mod ends;
mod found;
mod head;
mod item_walk;
pub mod laws;
mod walk;

pub use found::{Fault, FaultKind, FoundItem, FromFoundItem, Step, WalkEnd};
pub use item_walk::ItemWalk;
pub use walk::{find_fault, walk_items};
