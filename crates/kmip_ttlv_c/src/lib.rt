//! The printers, the walk over items, the check of a whole message, the writing of items, JSON and KMIP's names, for C and every
//! language that calls C. `include/kmip_ttlv.h` documents each call.
//!
//! A slice is passed as a pointer and a length, and a text is written into a buffer of the caller's.
//! A call returns a status, keeps none of its arguments, and frees all memory that it allocates
//! before it returns; there is no other state. Each call has the contract of the call that it
//! wraps, defined in specs/: `Buffers`, `Calls`, `LentItems`, `LentWrites`, `JsonTexts` and `NameTexts`.
#![tactic(auto)]

mod buffer;
pub mod calls;
pub mod items;
pub mod json_text;
pub mod names;
pub mod status;
pub mod writing;
