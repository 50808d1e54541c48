//! Items of requests in few words, whether a message says how many items it has, and whether its parts agree.

ghost use Rattle.std.specs.Prelude.{◌≡◌, ◌↔◌, IsTrue, None, length, pos};

use crate::request::{Request, RequestItem};
use crate::response::Response;
use kmip_headers::header::Operation;
use kmip_requests::request_payload::RequestPayload;
use kmip_ttlv_kinds::{Structure, is_structure_whole};
use std::alloc::Allocator;

impl<A: Allocator> RequestItem<A> {
    /// One thing that is asked for, without an identifier and an extension (KMIP 1.0, section 7.2).
    pub fn new(operation: Operation, payload: RequestPayload<A>) -> RequestItem<A>
        ensures operation { result.operation ≡ operation }
        ensures payload { result.payload ≡ payload }
        ensures identifier { result.unique_batch_item_id ≡ None }
        ensures ephemeral { result.ephemeral ≡ None }
        ensures extension { result.message_extension ≡ None }
    {
        RequestItem {
            operation,
            ephemeral: None,
            unique_batch_item_id: None,
            payload,
            message_extension: None,
        }
    }
}

// Whether a Batch Count is the number of items.
fn is_count(count: i32, items: usize) -> bool
    ensures { IsTrue result ↔ (count ≡ pos items) }
{
    match usize::try_from(count) {
        Ok(count) => count == items,
        Err(_) => false,
    }
}

/// A message of items, whose header says how many they are.
pub trait Batch<A: Allocator + Copy>: Structure<A> {
    // The Batch Count is the number of items.
    ghost IsCounted: { Self → Type 0 };

    /// Whether the Batch Count is the number of items (KMIP 1.0, section 6.14).
    fn is_counted(&self) -> bool
        ensures { IsTrue result ↔ IsCounted self.now };

    /// Whether the message is sound, so each item has the payload of its operation (in a response, if it has one), and its Batch Count
    /// is the number of its items.
    #[tactic(auto, unfolding(kmip_ttlv_kinds::specs::Parts::IsWithinSound))]
    fn is_consistent(&self) -> bool
        ensures { IsTrue result ↔ (Self.Structure.rules.IsSound self.now × IsCounted self.now) }
    {
        is_structure_whole(self) && self.is_counted()
    }
}

impl<A: Allocator + Copy> Batch<A> for Request<A> {
    ghost IsCounted = { λ x. x.header.batch_count ≡ pos (length x.items.items) };

    fn is_counted(&self) -> bool {
        is_count(self.header.batch_count, self.items.len())
    }
}

impl<A: Allocator + Copy> Batch<A> for Response<A> {
    ghost IsCounted = { λ x. x.header.batch_count ≡ pos (length x.items.items) };

    fn is_counted(&self) -> bool {
        is_count(self.header.batch_count, self.items.len())
    }
}
