//! Types of messages as a user writes them for the crate `kmip_ttlv`: how `Serialize` and `Deserialize` are implemented, and their laws
//! proved. What they are encoded as, and decoded from, is tested in writing_vectors.
//!
//! `message` has a part of every kind, `leaves` the leaves, `chosen` choices, `query` sequences that may be empty and Enumerations, and
//! `parcel` structures on the heap: these are what `codegen/codegen` writes of `types.table`. `lists` has such types by hand, `choice` and
//! `samples` types with a shape, `request` and `get_attributes` types that are only written, and `data` what data is made of by hand.
#![tactic(auto)]

pub mod choice;
pub mod chosen;
pub mod data;
pub mod get_attributes;
pub mod leaves;
pub mod lists;
pub mod message;
pub mod parcel;
pub mod query;
pub mod request;
pub mod samples;
