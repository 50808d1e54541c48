//! A client that asks for one thing at a time.

ghost use Rattle.std.specs.Prelude.{◌≡◌, IfOk};
ghost use Rattle.kmip_responses.specs.Choices.{ChoosesResponsePayload};
ghost use Rattle.kmip_ttlv_parts.specs.Returns.{text_of_number};
ghost use Rattle.kmip_client.specs.Asking.{Asks, AsksOne, Says};

use crate::exchange::Exchange;
use crate::failure::{Failure, Refusal};
use crate::only::the_only;
use kmip_messages::header::{Operation, ProtocolVersion, RequestHeader};
use kmip_messages::request::{Request, RequestItem};
use kmip_messages::request_payload::RequestPayload;
use kmip_messages::response::{ResponseItem, result_status};
use kmip_messages::response_payload::ResponsePayload;
use std::alloc::{AllocError, Allocator, Global};

/// A client: what it asks over, and in which version.
#[derive(Drop)]
pub struct Client<C, A: Allocator = Global> {
    /// Where the memory of requests comes from.
    pub alloc: A,
    /// The version of its requests.
    pub version: ProtocolVersion,
    /// What it asks over. Use this for a batch of several items, or for a request with more in its header.
    pub connection: C,
}

impl<C: Exchange<A>, A: Allocator + Copy> Client<C, A> {
    /// A client that speaks this version.
    pub fn new(alloc: A, version: ProtocolVersion, connection: C) -> Client<C, A>
        ensures version { result.version ≡ version }
        ensures connection { result.connection ≡ connection }
    {
        Client {
            alloc,
            version,
            connection,
        }
    }

    /// Asks for one thing, and returns what was done: a payload of the operation that was asked for.
    pub fn ask(
        &mut self,
        operation: Operation,
        payload: RequestPayload<A>,
    ) -> Result<ResponsePayload<A>, Failure<A>>
        ensures asks { Asks (C.Exchanges self.old.connection self.new.connection) (self.new.connection ≡ self.old.connection)
            (AsksOne self.old.version operation.number payload) result }
        ensures chosen { IfOk result (λ done. ChoosesResponsePayload (text_of_number operation.number) done) }
        ensures version { self.new.version ≡ self.old.version }
    {
        let request = one_item(self.alloc, self.version, operation, payload)?;
        match self.connection.exchange(&request) {
            Ok(response) => done(the_only(response.items)),
            Err(failure) => Err(failure),
        }
    }
}

// What an item says was done, or that it wasn't.
fn done<A: Allocator>(item: ResponseItem<A>) -> Result<ResponsePayload<A>, Failure<A>>
    ensures { Says item result }
{
    let ResponseItem {
        result_status,
        result_reason,
        result_message,
        payload,
        ..
    } = item;
    if result_status != result_status::SUCCESS {
        return Err(Failure::Refused(Refusal {
            status: result_status,
            reason: result_reason,
            message: result_message,
        }));
    }
    match payload {
        Some(payload) => Ok(payload),
        None => Err(Failure::OtherPayload(None)),
    }
}

// A request of one item.
fn one_item<A: Allocator + Copy>(
    alloc: A,
    version: ProtocolVersion,
    operation: Operation,
    payload: RequestPayload<A>,
) -> Result<Request<A>, AllocError>
    ensures { IfOk result (λ request. AsksOne version operation.number payload request) }
{
    let header = RequestHeader::new(alloc, version, 1);
    let item = RequestItem::new(operation, payload);
    let mut items = Vec::new(alloc);
    items.push(item)?;
    Ok(Request { header, items })
}
