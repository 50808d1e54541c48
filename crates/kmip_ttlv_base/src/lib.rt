//! What encoding, decoding and printing share: the low-level `types`, the errors in `error`, and in `shape`
//! how a user's type describes itself.
#![tactic(auto)]

mod build;
pub mod error;
mod location;
pub mod parts;
mod send;
pub mod shape;
pub mod visit;

pub use kmip_ttlv_types as types;
