//! What is true of encoding and decoding together, and three types that parts of messages are made of.
//!
//! `laws` has the laws, and which values of a type are sound; a large part is `Boxed`, an Enumeration of any number is `Enumeration`,
//! and a structure that is kept with any items in it is `Kept`.
//! A crate of parts of messages names what it stands on by this crate, as users do by `kmip_ttlv`, which adds whole messages.
#![tactic(auto)]

mod boxed;
mod enumeration;
mod kept;
pub mod laws;
mod sound;
mod visited;

pub use crate::boxed::Boxed;
pub use crate::enumeration::Enumeration;
pub use crate::kept::Kept;
pub use kmip_ttlv_base::{error, parts, shape, types, visit};
pub use kmip_ttlv_reader::reader;
