//! A server of KMIP over any reader and writer: batches, versions, limits, refusals and the log are its own. Its author writes a
//! `Handler`, which does one item.
//!
//! `serve` is the call, `respond` and `reply_bytes` its parts for callers with a loop of their own. `items` is one item and its answer,
//! `batch` the items of a request, `terms` and `messages` a whole request, `reply` the bytes of a response, `log` the lines of the log.
//! `codec` is all that the crate knows of the types of messages, and the rest is generic in it. It needs `kmip_messages`.
//!
//! ```
//! let limits = Limits { request: 65_536, response: 65_536 };
//! let budget = BoundedAllocator::new(Wiping::new(rt.alloc()), 1_048_576); // of each message, one after the other
//! let end = serve::<Kmip, _, _, _, _, _>(&mut handler, &budget, limits, &mut reader, &mut writer, &mut log);
//! ```
//!
//! If memory runs out, the items of a request are done up to one of them: in their order, each at most once, none behind one that ends the
//! batch, and none at all of a request that is refused. That is so whether the client learns it from a General Failure or gets no response.
//!
//! What is not promised: that a request is handled once if its client sends it again; that the time is right. The items of a request whose
//! response is larger than allowed are done, though the response is a refusal.
#![tactic(auto)]

pub mod abilities;
pub mod batch;
pub mod codec;
pub mod handler;
pub mod items;
pub mod log;
pub mod messages;
pub mod refusal;
pub mod reply;
pub mod serve;
pub mod terms;
#[cfg(test)]
mod tests;
