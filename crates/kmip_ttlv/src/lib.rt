//! KMIP's TTLV encoding (OASIS KMIP 1.0, section 9.1): encodes values, decodes them, and prints messages.
//!
//! This is the crate that users name. It reexports the crates below it: `types`,
//! `error`, the traits of a user's type in `shape`, `visit` and `parts`; encoding in `ser`, decoding in `de`
//! and, for types that read themselves, in `reader`; printing in `util` and `names`; flat items in `items` and
//! `writing`; the parts of message types in `messages`; an allocator with limits in `memory`; and in `laws` what
//! is true of encoding and decoding together. A large part of a message is `Boxed`, an Enumeration of any number
//! `Enumeration`, a structure that holds anything `Kept`. Its only code is `reread`.
//!
//! The lemmas for the proofs of a user's `from_data`, `shape` and `visit` are in proofs/Views, proofs/Shapes
//! and proofs/Visiting of `kmip_ttlv_base`.
#![tactic(auto)]

pub mod de;
pub mod laws;
mod message;
pub mod shape;

pub use kmip_ttlv_base::{error, parts, types, visit};
pub use kmip_ttlv_de::{
    ByShape, Config, Decode, Deserialize, from_reader, from_slice, from_slice_by_shape,
};
pub use kmip_ttlv_items as items;
pub use kmip_ttlv_memory as memory;
pub use kmip_ttlv_names as names;
pub use kmip_ttlv_parts::{Boxed, Enumeration, Kept};
pub use kmip_ttlv_reader::reader;
pub use kmip_ttlv_ser as ser;
pub use kmip_ttlv_ser::{to_vec, to_writer};
pub use kmip_ttlv_util as util;
pub use kmip_ttlv_util::PrettyPrinter;
pub use kmip_ttlv_write as writing;
