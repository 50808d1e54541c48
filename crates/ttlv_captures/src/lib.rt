//! Finds messages within anything else: in logs, in literals of programming languages, in HTTP, behind bytes that are none.
//!
//! `notation` has the ways in which the bytes of a message may be written, `token` reads the first byte that a text writes, `reading`
//! several, `attempt` tries whether a text begins with a message, `reach` finds the next offset where one does, and `search` goes from
//! message to message. specs/ says what a token is in each notation, and what a search returns. Whether bytes are a message is decided by
//! kmip_ttlv_items.
#![tactic(auto)]

mod attempt;
mod notation;
mod reach;
mod reading;
mod search;
mod token;

pub use attempt::Written;
pub use notation::Notation;
pub use search::{Capture, Search, Sought};
