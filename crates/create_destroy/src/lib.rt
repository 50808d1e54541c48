//! The messages that create and destroy a symmetric key (KMIP 1.0, sections 4.1 and 4.20), as a layer that users
//! can copy: its types, whether a message is consistent, and the four calls. What messages contain is written by
//! `codegen/codegen` from `types.table`; the two `messages`, whose headers' fields are their own, and all else are by hand.
//!
//! Left out: results other than success, object types other than a symmetric key, algorithms other than AES,
//! and each field that is not named here.
#![tactic(auto)]

pub mod attribute;
pub mod calls;
pub mod header;
pub mod messages;
pub mod operation;
pub mod request;
pub mod response;
