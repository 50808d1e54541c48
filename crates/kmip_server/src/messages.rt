//! A whole request, and its response.

ghost use Rattle.std.specs.Prelude.{◌≡◌, ◌≤◌, ◌<◌, ◌^◌, IfOk, Result, pos};
ghost use Rattle.kmip_headers.specs.declared.header.RequestHeader.{RequestHeader};
ghost use Rattle.kmip_server.specs.declared.refusal.Refusal.{Refusal};
ghost use Rattle.kmip_server.specs.Items.{IsDone};
ghost use Rattle.kmip_server.specs.Messages.{HeaderIs, IsResponse, Refuses, Replies, RepliesTo, Responds, best, limit_for};
ghost use Rattle.kmip_server.specs.Refusals.{reason_of};

use crate::abilities::speaks;
use crate::batch::answer_items;
use crate::codec::Codec;
use crate::handler::Handler;
use crate::items::refused;
use crate::refusal::Refusal;
use crate::terms::{read_header, terms};
use kmip_messages::envelope::{RequestEnvelope, RequestEnvelopeItem};
use kmip_messages::header::{ProtocolVersion, RequestHeader, ResponseHeader};
use kmip_messages::response::{Response, ResponseItem, result_reason};
use kmip_ttlv::reader::DateTime;
use std::alloc::{AllocError, Allocator, Global};

/// A response, and the most bytes that it may have.
#[derive(Drop)]
pub struct Reply<A: Allocator = Global> {
    /// The response.
    pub response: Response<A>,
    /// How many bytes the client and the server allow.
    pub limit: u32,
}

// A Batch Count: the number of items, which is never more than a request has.
fn count(items: usize) -> i32
    ensures { items < 2 ^ 31 → result ≡ pos items }
{
    if items <= i32::MAX as usize {
        items as i32
    } else {
        i32::MAX
    }
}

// A response of these items, made at this time.
fn response<A: Allocator + Copy>(
    alloc: A,
    version: ProtocolVersion,
    time: DateTime,
    items: Vec<ResponseItem<A>, A>,
) -> Response<A>
    ensures is { IsResponse version result }
    ensures items { result.items ≡ items }
{
    let mut header = ResponseHeader::new(alloc, version, time, 0);
    header.batch_count = count(items.len());
    Response { header, items }
}

/// The response that refuses a request as a whole: one item, which is of no operation and says why (KMIP 1.0, section 11.1). The only
/// error is out of memory.
pub fn refuse<A: Allocator + Copy>(
    alloc: A,
    version: ProtocolVersion,
    time: DateTime,
    refusal: Refusal,
) -> Result<Response<A>, AllocError>
    ensures { IfOk result (Refuses version (reason_of refusal)) }
{
    let mut items = Vec::new(alloc);
    items.push(refused(alloc, None, None, refusal)?)?;
    let header = ResponseHeader::new(alloc, version, time, 1);
    Ok(Response { header, items })
}

/// The best of these versions, in which a message is answered that is of none of them: 1.0 if there are none.
pub fn best(versions: &[ProtocolVersion]) -> ProtocolVersion
    ensures { result ≡ best versions.now }
{
    match versions {
        [best, ..] => *best,
        [] => ProtocolVersion { major: 1, minor: 0 },
    }
}

// The most bytes of a response: the server's limit, or the client's if that is less.
fn limit_for(limit: u32, size: Option<i32>) -> u32
    ensures value { result ≡ limit_for limit size }
    ensures within { result ≤ limit }
{
    match size {
        None => limit,
        Some(size) => match u32::try_from(size) {
            Ok(size) => size.min(limit),
            Err(_) => 0,
        },
    }
}

// The response to a request whose header was decoded.
fn respond_by<D: Codec<A>, H: Handler<A>, A: Allocator + Copy>(
    handler: &mut H,
    alloc: A,
    version: ProtocolVersion,
    header: &RequestHeader<A>,
    items: Vec<RequestEnvelopeItem<A>, A>,
) -> Result<Response<A>, AllocError>
    ensures { Responds H.Admits (IsDone H.Does H.declaration D.ReadsItem) D.IsSound version header.now handler.old items.items handler.new result }
{
    let stops = match terms(header, items.len()) {
        Ok(stops) => stops,
        Err(refusal) => return refuse(alloc, version, handler.now(), refusal),
    };
    if !handler.admits(header) {
        let refusal = Refusal::new(
            result_reason::AUTHENTICATION_NOT_SUCCESSFUL,
            "the credentials are not accepted",
        );
        return refuse(alloc, version, handler.now(), refusal);
    }
    let answers = answer_items::<D, H, A>(handler, alloc, stops, items)?;
    Ok(response(alloc, version, handler.now(), answers))
}

// The reply to a request of a version that the server speaks.
fn reply_to<D: Codec<A>, H: Handler<A>, A: Allocator + Copy>(
    handler: &mut H,
    alloc: A,
    request: RequestEnvelope<A>,
    limit: u32,
) -> Result<Reply<A>, AllocError>
    ensures within { IfOk result (λ reply. reply.limit ≤ limit) }
    ensures replies { (header : Result (RequestHeader A) Refusal) × HeaderIs (D.ReadsHeader request.header) header
        × RepliesTo H.Admits (IsDone H.Does H.declaration D.ReadsItem) D.IsSound request.header.version limit header
        handler.old request.items.items result handler.new }
{
    let RequestEnvelope { header, items } = request;
    let version = header.version;
    match read_header::<D, A>(alloc, header) {
        Ok(header) => {
            let response = respond_by::<D, H, A>(handler, alloc, version, &header, items)?;
            let limit = limit_for(limit, header.maximum_response_size);
            Ok(Reply { response, limit })
        }
        Err(refusal) => {
            let response = refuse(alloc, version, handler.now(), refusal)?;
            Ok(Reply { response, limit })
        }
    }
}

/// The response to a request, and the most bytes that it may have: this limit, or the client's Maximum Response Size if that is less.
///
/// A request is refused as a whole, and none of its items is done, if it is of a version that the server doesn't speak (Invalid
/// Message, in the server's best version), if its header can't be decoded or its Batch Count isn't the number of its items (Invalid
/// Message), if its Batch Error Continuation Option is Undo or none of the standard's (Feature Not Supported), or if the handler
/// doesn't admit it (Authentication Not Successful). Otherwise its items are answered as `answer_items` does.
///
/// The only error is out of memory. What is said of a refusal is true then, too: none of the items is done. Of a request that is not refused
/// some may be, as `answer_items` says.
pub fn respond<D: Codec<A>, H: Handler<A>, A: Allocator + Copy>(
    handler: &mut H,
    alloc: A,
    request: RequestEnvelope<A>,
    limit: u32,
) -> Result<Reply<A>, AllocError>
    ensures within { IfOk result (λ reply. reply.limit ≤ limit) }
    ensures replies { Replies H.Admits (IsDone H.Does H.declaration D.ReadsItem) D.IsSound D.ReadsHeader H.declaration limit
        handler.old request result handler.new }
{
    if speaks(handler.abilities().versions, request.header.version) {
        return reply_to::<D, H, A>(handler, alloc, request, limit);
    }
    let refusal = Refusal::new(
        result_reason::INVALID_MESSAGE,
        "the server does not speak this version of the protocol",
    );
    let own = best(handler.abilities().versions);
    let response = refuse(alloc, own, handler.now(), refusal)?;
    Ok(Reply { response, limit })
}
