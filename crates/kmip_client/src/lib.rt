//! The client's half of a conversation: a request goes to a writer, and what a reader gives next answers it, or is an error.
//!
//! `client` asks for one thing at a time, `calls` has a call for each operation that most clients use, and `negotiation` the choice of a
//! version; `keys` and the crate `kmip_attribute_set` make what they take. `exchange` is what a client asks over, `connection` such a
//! thing over a reader and a writer, `turn` sends a message and takes the next one, `answers` decides what a response is to a request,
//! and `failure` says why there is no answer.
#![tactic(auto)]

pub mod answers;
pub mod calls;
pub mod client;
pub mod connection;
pub mod exchange;
pub mod failure;
pub mod keys;
pub mod negotiation;
mod only;
mod payloads;
#[cfg(test)]
mod tests;
pub mod turn;
