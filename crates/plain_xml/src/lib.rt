//! A small subset of XML 1.0, read: elements with attributes, and elements in them.
//!
//! [`read`] returns the elements of a text in document order, each with its depth, so nothing recurses and nesting costs nothing but memory.
//! A declaration `<?xml ..?>`, comments, processing instructions and white space are passed. There are no DOCTYPE, no CDATA sections, no
//! entities but the five predefined ones, and no text in elements but white space: each is an error with its offset.
//!
//! `characters` says which characters stand where, `words` reads white space and names, `value` attribute values, `tag` tags, `skipped` what
//! is passed, `mark` any of these, `document` all of a text, `reading` a text of bytes, and `place` where an element begins. `write` escapes a value. `failure`
//! has what may be wrong, and `laws` a law of canonical texts. The grammar is defined in specs/Forms, and canonical texts in specs/Writings.
#![tactic(auto)]

mod characters;
mod document;
mod element;
mod failure;
pub mod laws;
mod mark;
mod place;
mod reading;
mod skipped;
mod tag;
mod value;
mod words;
mod write;

pub use element::{Attribute, Element};
pub use failure::{Flaw, XmlError};
pub use place::element_offset;
pub use reading::read;
pub use tag::MAX_ATTRIBUTES;
pub use write::{push_escaped, wrong_offset};
