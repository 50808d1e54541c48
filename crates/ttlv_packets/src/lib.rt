//! The bytes that TCP carries in packet captures, and the messages in them.
//!
//! `numbers` reads numbers, `network` finds the network packet of a frame, `internet` the transport of a network packet, `segment` what TCP
//! carries there; `file` says what stands at a place of a capture, `walk` goes over it, `listing` reads what tcpdump prints of one; `place` gives each segment
//! its place in a stream, `stream` puts the streams together, `message` splits them into messages, and `packets` is the whole of it. specs/ says which bytes
//! each stream has.
#![tactic(auto)]

mod file;
mod flow;
mod internet;
mod listing;
mod message;
mod network;
mod numbers;
mod packets;
mod place;
mod segment;
mod stream;
#[cfg(test)]
mod tests;
mod walk;

pub use flow::{Address, Endpoint, Flow, Time};
pub use message::Message;
pub use packets::{Packets, read_packets};
pub use walk::is_capture;
