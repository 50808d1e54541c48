//! Prints TTLV messages (OASIS KMIP 1.0, section 9.1): as readable text, as redacted diagnostics, and
//! diagnostics as readable text again.
//!
//! A diagnostic shows the tags, types, nesting and enumeration values of a well-formed message, and nothing
//! else; malformed bytes have one too. Items, trees and names are defined in kmip_ttlv_types, the texts in
//! specs/: outlines and their diagnostics, the trace of any bytes, and what is read back.
#![tactic(auto)]

mod buffer;
mod checked;
mod diagnostic;
mod digits;
mod indentation;
mod item;
pub mod laws;
mod lines;
mod named;
mod pieces;
mod pretty;
mod printer;
mod sink;
mod undiag;
mod walk;

pub use checked::CheckedError;
pub use indentation::{Indentation, push_beginning};
pub use lines::{LentTagMap, TagMap, push_data_part, push_tag, push_tag_part};
pub use named::{push_diag, push_read_back, read_back_counted, read_back_named, text_named};
pub use pieces::Pieces;
pub use pretty::push_value;
pub use printer::PrettyPrinter;
pub use sink::TextSink;
pub use undiag::{DiagnosticEnd, DiagnosticLines};
