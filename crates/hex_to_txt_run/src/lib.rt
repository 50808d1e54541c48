//! The program `hex_to_txt`, over any reader and any writers: it reads a TTLV message in hexadecimal,
//! or a diagnostic, and prints a text of it.
//!
//! `run` is the entry point. `task` parses the arguments, `input` reads the input, `texts` makes the
//! text, and `failure` has the errors for status 1. `pair` is the type that `flat` decodes and
//! encodes, an example of a user's type.
#![tactic(auto)]

mod failure;
mod input;
pub mod pair;
pub mod run;
mod task;
mod texts;
