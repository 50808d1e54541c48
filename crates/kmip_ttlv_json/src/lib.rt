//! TTLV messages as JSON, by the JSON encoding of OASIS "KMIP Additional Message Encodings".
//!
//! `print` prints a message as a line of JSON, item by item, over the walk of kmip_ttlv_items, `plain` a value in it, and `quoted` a text;
//! with the standard's names, `worded` prints a value's words, and `masks` those of a mask. The JSON of a message is defined over trees in
//! specs/Jsons, in both styles, in the words of the toolchain's `serde_json`.
//!
//! `read` reads a message back from JSON as `serde_json` parses it, into canonical bytes, with no tree between: `tokens` counts the tokens
//! that are taken, `seen` has what a value is seen as, `number` which numbers there are, and which are whole, `members` what the members of
//! an item stand for, `adding` the bytes of items, `nesting` whether it nests too deep, `places` where a token begins, and `failure` why a
//! text is no message. The words in it are those of `kmip_words`.
//! `values` has what the XML of values has in common with their JSON.
//! The tree that JSON is, is defined in specs/JsonTrees, and where it is none in specs/Spots.
#![tactic(auto)]

mod adding;
mod failure;
pub mod laws;
mod masks;
mod members;
mod nesting;
mod number;
mod places;
mod plain;
mod print;
mod quoted;
mod read;
mod seen;
mod tokens;
pub mod values;
mod worded;

pub use failure::{BadMember, JsonError};
pub use print::{Hiding, push_json, push_named_json};
pub use read::from_json;
