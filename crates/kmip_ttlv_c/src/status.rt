//! The statuses that calls return.

/// The call did what it was asked for.
pub const OK: u32 = 0;

/// An allocation failed, or the call's limit on memory was reached.
pub const OUT_OF_MEMORY: u32 = 1;

/// A text that was passed is not UTF-8.
pub const NOT_UTF8: u32 = 2;

/// The caller's buffer or list is too small; the call sets the size that it needs.
pub const NO_ROOM: u32 = 3;

/// The bytes are not one whole message, nor is a text the JSON of one; or an item can't be written.
pub const MALFORMED: u32 = 4;

/// A line of a table of names can't be parsed; the call sets its number.
pub const BAD_NAMES: u32 = 5;

/// A number stands for none of what it can ask for; or a pointer or a length is none, which `front.c` says.
pub const BAD_ARGUMENT: u32 = 6;

/// KMIP's tables have no name for it.
pub const NO_NAME: u32 = 7;
