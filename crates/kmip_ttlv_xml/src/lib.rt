//! TTLV messages as XML, by the XML encoding of OASIS "KMIP Additional Message Encodings", in which OASIS's test cases are written.
//!
//! `read` reads messages from XML as `plain_xml` reads it, element by element, and `kmip_ttlv_write` makes their canonical bytes. `given` has
//! the items that were read, `element` reads one, `attribute` its attributes, `value` its value, and `decimal` whole numbers; `failure` says why
//! a text is no message. The words are those of `kmip_words`.
//!
//! `write` writes a message, by `text`, and reads what it wrote back before it adds it; `held` finds the characters that XML can't hold, and
//! `document` writes several messages as one text.
//! The item that an element is, is defined in specs/XmlItems, and what reading a text comes to in specs/XmlReadings.
#![tactic(auto)]

mod attribute;
mod decimal;
mod document;
mod element;
mod failure;
mod given;
mod held;
mod read;
mod text;
mod value;
mod write;

pub use document::Document;
pub use failure::{BadElement, WriteError, XmlError};
pub use read::{from_xml, from_xml_by};
pub use write::{push_xml, push_xml_by};
