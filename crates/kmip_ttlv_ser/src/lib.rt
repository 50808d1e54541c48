//! Encoding: values as canonical TTLV bytes.
//!
//! A value that fits into 1,024 bytes, as most messages do, calls one visitor (`single`), which writes into room of that
//! size, and each structure's length at its end. Any other calls two more. The first (`measurer`) finds the first error
//! and its offset, or the length of each structure, in document order. The second (`emitter`) writes the bytes in order
//! to an output: memory with room, or a writer after a buffer. specs/WrittenItems defines what a value is encoded as,
//! specs/Faults its first error, specs/Singles, specs/Measures and specs/Emits what the passes do at each event, and
//! specs/EncodeResults what the calls return.
#![tactic(auto)]

mod buffer;
mod emitter;
mod encode_error;
mod gathered;
pub mod laws;
mod measurer;
mod names;
mod output;
mod pending;
mod room;
mod serializer;
mod single;

pub use serializer::{TtlvSerializer, to_vec, to_writer};
