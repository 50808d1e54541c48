//! The ways in which the bytes of a message may be written in a text.

/// How the bytes of a message are written.
#[derive(Clone, Copy, Debug, PartialEq, Eq)]
pub enum Notation {
    /// As they are.
    Raw,
    /// Two hexadecimal digits for each: `42007801`, `42 00 78 01`, `42:00:78:01`.
    Hexadecimal,
    /// A number for each, as lists of Go, Python and Rust have them: `66, 0, 120, 1`, `66 0 120 1`, `0x42, 0x00, 0x78, 0x01`.
    Numbers,
    /// As in literals of C, Go, Python and Rust: `B\x00x\x01`.
    Escaped,
}
