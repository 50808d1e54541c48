//! What a server does, apart from messages: the trait that an author of a server implements.

ghost use Rattle.std.specs.Prelude.{◌≡◌};
ghost use Rattle.kmip_server.specs.Abilities.{declaration_of};

use crate::abilities::Abilities;
use crate::refusal::Refusal;
use kmip_messages::header::{Operation, RequestHeader};
use kmip_messages::request_payload::RequestPayload;
use kmip_messages::response_payload::ResponsePayload;
use kmip_ttlv::reader::DateTime;
use std::alloc::Allocator;

/// What a server can do, and what it does of one item.
///
/// What it may do is a relation of its own choice, `Does`: what is proved of the server says which items it is asked for, in which
/// order, and that each answer is what it gave. An impl that wants no more leaves both relations as they are.
pub trait Handler<A: Allocator + Copy> {
    ghost use Rattle.std.specs.Prelude.{Bool, Result};
    ghost use Rattle.kmip_ttlv_parts.specs.declared.enumeration.Enumeration.{Enumeration};
    ghost use Rattle.kmip_headers.specs.declared.header.RequestHeader.{RequestHeader};
    ghost use Rattle.kmip_requests.specs.declared.request_payload.RequestPayload.{RequestPayload};
    ghost use Rattle.kmip_responses.specs.declared.response_payload.ResponsePayload.{ResponsePayload};
    ghost use Rattle.kmip_server.specs.Abilities.{Declaration};
    ghost use Rattle.kmip_server.specs.declared.refusal.Refusal.{Refusal};

    // What it declares.
    ghost declaration: { Self → Declaration };

    // From old, a request with this header may be admitted or not, and lead to new.
    ghost Admits: { Self → RequestHeader A → Bool → Self → Type 0 } = { λ _ _ _ _. Unit {0} };

    // From old, what is asked by this operation may be answered so, and lead to new.
    ghost Does: { Self → Enumeration 0x42005C → RequestPayload A → Result (ResponsePayload A) Refusal → Self → Type 0 } = { λ _ _ _ _ _. Unit {0} };

    /// What it can do: what Query and Discover Versions are answered from. `handle` is called for no other operation.
    fn abilities(&self) -> Abilities
        ensures { declaration_of result ≡ declaration self.now };

    /// The time, in seconds since 1970: the Time Stamp of a response (KMIP 1.0, section 6.5).
    fn now(&self) -> DateTime;

    /// Whether a request with this header is admitted: whether whoever sent it is who its credentials say (KMIP 1.0, section 6.6).
    /// It is called once for each request whose header is good, before any of its items is done.
    fn admits(&mut self, header: &RequestHeader<A>) -> bool
        ensures { Admits self.old header.now result self.new };

    /// Does what one item asks for. A `Refusal` is answered as the item's failure.
    fn handle(
        &mut self,
        alloc: A,
        operation: Operation,
        asked: &RequestPayload<A>,
    ) -> Result<ResponsePayload<A>, Refusal>
        ensures { Does self.old operation asked.now result self.new };
}
