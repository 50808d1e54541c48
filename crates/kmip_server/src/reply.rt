//! The bytes of a reply, which are never more than client and server allow.

ghost use Rattle.std.specs.Prelude.{◌≤◌, IfOk, length};
ghost use Rattle.kmip_server.specs.Items.{IsDone};
ghost use Rattle.kmip_server.specs.Messages.{Replies};
ghost use Rattle.kmip_server.specs.Refusals.{reason_of};
ghost use Rattle.kmip_server.specs.Replies.{Fits, IsSent, RepliesToRead, Sends, SendsRefusal};

use crate::codec::Codec;
use crate::handler::Handler;
use crate::items::unreadable;
use crate::messages::{Reply, best, refuse, respond};
use crate::refusal::Refusal;
use kmip_messages::envelope::{EnvelopeHeader, RequestEnvelope};
use kmip_messages::header::{ProtocolVersion, RequestHeader};
use kmip_messages::response::{Response, result_reason};
use kmip_ttlv::error::Error;
use kmip_ttlv::reader::DateTime;
use std::alloc::{AllocError, Allocator, Global};

/// Why there is no reply to send.
#[derive(Drop)]
pub enum NoReply<A: Allocator = Global> {
    /// The response, or the refusal in its place, can't be encoded: memory ran out, or it has more than 2^32 - 1 bytes.
    Encoding(Error<A>),
    /// The limit has no room for the refusal that stands in the place of a response.
    NoRoom,
}

/// Memory ran out.
impl<A: Allocator> From<AllocError> for NoReply<A> {
    ghost use Rattle.kmip_server.specs.Replies.{IsForMemory};

    ghost from_gives = { λ _ why. IsForMemory why };

    fn from(error: AllocError) -> NoReply<A> {
        NoReply::Encoding(Error::from(error))
    }
}

/// A response can't be encoded.
impl<A: Allocator> From<Error<A>> for NoReply<A> {
    ghost use Rattle.std.specs.Prelude.{◌≡◌};
    ghost use Rattle.kmip_server.specs.declared.reply.NoReply.TheVariants.{Encoding};

    ghost from_gives = { λ e why. why ≡ Encoding e };

    fn from(error: Error<A>) -> NoReply<A> {
        NoReply::Encoding(error)
    }
}

// The bytes of a response, if there are no more than the limit.
fn fitted<D: Codec<A>, A: Allocator + Copy>(
    alloc: A,
    response: &Response<A>,
    limit: u32,
) -> Result<Option<Vec<u8, A>>, Error<A>>
    ensures { Fits (D.stated response.now) limit result }
{
    let bytes = D::encode(alloc, response)?;
    if bytes.len() <= limit as usize {
        Ok(Some(bytes))
    } else {
        Ok(None)
    }
}

// The bytes of a refusal.
fn refusal_bytes<D: Codec<A>, A: Allocator + Copy>(
    alloc: A,
    version: ProtocolVersion,
    time: DateTime,
    refusal: Refusal,
    limit: u32,
) -> Result<Vec<u8, A>, NoReply<A>>
    ensures within { IfOk result (λ bytes. length bytes.items ≤ limit) }
    ensures refusal { SendsRefusal D.stated version (reason_of refusal) limit result }
{
    let response = refuse(alloc, version, time, refusal)?;
    let bytes = fitted::<D, A>(alloc, &response, limit)?;
    match bytes {
        Some(bytes) => Ok(bytes),
        None => Err(NoReply::NoRoom),
    }
}

// The bytes of a reply: those of its response, or, if these are more than its limit, a refusal that says so.
fn sent<D: Codec<A>, A: Allocator + Copy>(
    alloc: A,
    reply: &Reply<A>,
) -> Result<Vec<u8, A>, NoReply<A>>
    ensures within { IfOk result (λ bytes. length bytes.items ≤ reply.now.limit) }
    ensures sent { IsSent D.stated reply.now result }
{
    let bytes = fitted::<D, A>(alloc, &reply.response, reply.limit)?;
    match bytes {
        Some(bytes) => Ok(bytes),
        None => {
            let refusal = Refusal::new(
                result_reason::RESPONSE_TOO_LARGE,
                "the response is larger than the limit",
            );
            let header = &reply.response.header;
            refusal_bytes::<D, A>(
                alloc,
                header.version,
                header.time_stamp,
                refusal,
                reply.limit,
            )
        }
    }
}

// The reply to what was read.
fn reply<D: Codec<A>, H: Handler<A>, A: Allocator + Copy>(
    handler: &mut H,
    alloc: A,
    read: Result<RequestEnvelope<A>, Error<A>>,
    limit: u32,
) -> Result<Reply<A>, AllocError>
    ensures within { IfOk result (λ reply. reply.limit ≤ limit) }
    ensures replies { RepliesToRead (Replies H.Admits (IsDone H.Does H.declaration D.ReadsItem) D.IsSound D.ReadsHeader H.declaration limit)
        H.declaration limit handler.old read result handler.new }
{
    match read {
        Ok(request) => respond::<D, H, A>(handler, alloc, request, limit),
        Err(error) => {
            let version = best(handler.abilities().versions);
            let response = refuse(alloc, version, handler.now(), unreadable(&error))?;
            Ok(Reply { response, limit })
        }
    }
}

/// The bytes to send for what was read: those of the response to a request (`respond`), or of a refusal, if it is none (Invalid
/// Message) or the response would be larger than allowed (Response Too Large, KMIP 1.0, section 11.1; its items are done all the same).
/// They are never more than the limit, and where the request's header can be decoded never more than its Maximum Response Size.
///
/// If memory runs out before there is a response, they are a General Failure, and of the request a part may be done, as `respond` says. An
/// error says why nothing can be sent: either such a part is done, or all that belongs to the response.
pub fn reply_bytes<D: Codec<A>, H: Handler<A>, A: Allocator + Copy>(
    handler: &mut H,
    alloc: A,
    read: Result<RequestEnvelope<A>, Error<A>>,
    limit: u32,
) -> Result<Vec<u8, A>, NoReply<A>>
    ensures within { IfOk result (λ bytes. length bytes.items ≤ limit) }
    ensures sends { Sends D.stated (Replies H.Admits (IsDone H.Does H.declaration D.ReadsItem) D.IsSound D.ReadsHeader H.declaration limit)
        H.declaration limit handler.old read result handler.new }
{
    match reply::<D, H, A>(handler, alloc, read, limit) {
        Ok(reply) => sent::<D, A>(alloc, &reply),
        Err(error) => {
            let version = best(handler.abilities().versions);
            refusal_bytes::<D, A>(alloc, version, handler.now(), Refusal::from(error), limit)
        }
    }
}
