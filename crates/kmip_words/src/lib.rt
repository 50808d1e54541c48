//! The words of KMIP's JSON and XML (OASIS "KMIP Additional Message Encodings"): normalized names of tags, of enumerations'
//! values and of masks' bits, and dates, each both ways.
//!
//! `table` is the table of the standard's names, normalized, of which `row` reads a line; `words` looks words up, in the maps that `maps` makes, and `late`
//! when the first is needed.
//! `dates` reads and writes Date-Times, `calendar` has their days. What is written is read back: a number's word is a word only if it stands for
//! that number, and a date's text only if it is read as that date. specs/ defines both ways.
#![tactic(auto)]

mod calendar;
mod dates;
mod late;
mod maps;
mod row;
mod table;
mod words;

pub use dates::{date_of, date_text};
pub use late::LateWords;
pub use words::{Words, standard_words};
