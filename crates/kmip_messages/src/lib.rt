//! KMIP's messages: requests and responses of the operations that clients and servers use most, in batches of any mix, for the
//! protocol's versions 1.0 to 2.0 (KMIP 1.0, sections 4, 6 and 7).
//!
//! This is the crate that a program lists: it has all types of a message, and those of the crates below it under the names of
//! their modules. `request` and `response` are the messages, `envelope` the same with payloads that are kept as they are,
//! `header` what they begin with, `request_payload` and `response_payload` what an item asks for and what became of it,
//! `template` what objects are made with, `object` what a server keeps, `key` what a key is, `attribute`, `structures` and
//! `values` what is known of one.
//!
//! `codegen/codegen` writes `request`, `response` and `envelope` of `types.table`; by hand are `batch` and `laws`. What is decoded
//! is encoded as the same canonical bytes, save that a Big Integer is extended to a multiple of eight bytes. The payload of any
//! other operation, a Vendor Extension and other structures that may hold anything are kept with all that is in them (`Kept`);
//! any other item that the tables don't name is an error.
#![tactic(auto)]

pub mod batch;
pub mod envelope;
pub mod laws;
pub mod request;
pub mod response;

pub use kmip_attributes::{attribute, structures, values};
pub use kmip_headers::header;
pub use kmip_objects::{key, object, template};
pub use kmip_requests::request_payload;
pub use kmip_responses::response_payload;
