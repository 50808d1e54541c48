//! Why there is no answer.

ghost use Rattle.kmip_client.specs.Refusals.{refusal_of};
ghost use Rattle.std.specs.Prelude.{◌≡◌};

use kmip_messages::response::{Response, ResponseItem, ResultReason, ResultStatus};
use kmip_messages::response_payload::ResponsePayload;
use kmip_ttlv_base::error::Error;
use std::alloc::{AllocError, Allocator, Global};

/// What a server says of an operation that isn't done (KMIP 1.0, section 7.2), or of a whole request that it refuses (section 11.1).
#[derive(Drop)]
pub struct Refusal<A: Allocator = Global> {
    /// What became of it: it failed, goes on, or was undone.
    pub status: ResultStatus,
    /// Why, if the server says so.
    pub reason: Option<ResultReason>,
    /// More about it, for a person. A server may put anything here.
    pub message: Option<String<A>>,
}

impl<A: Allocator> Refusal<A> {
    /// What an item says of its operation.
    pub fn of(item: ResponseItem<A>) -> Refusal<A>
        ensures { result ≡ refusal_of item }
    {
        Refusal {
            status: item.result_status,
            reason: item.result_reason,
            message: item.result_message,
        }
    }
}

/// Why there is no answer.
#[derive(Drop)]
pub enum Failure<A: Allocator = Global> {
    /// The request can't be encoded, and nothing was written; or the writer failed, and a beginning of the request may have been. Nothing
    /// was read.
    Sending(Error<A>),
    /// The request was sent, and no response came: the reader failed or ended, or what came is no response.
    Receiving(Error<A>),
    /// The server says that the operation isn't done; or, by an item of no operation, that it refuses the request as a whole.
    Refused(Refusal<A>),
    /// What came is a response whose Batch Count is not the number of its items (KMIP 1.0, section 6.14).
    Miscounted(Response<A>),
    /// What came is a response of another version than the request's, and doesn't only say that all has failed (KMIP 1.0, section 6.1).
    OtherVersion(Response<A>),
    /// What came is a response to something else.
    Unasked(Response<A>),
    /// The server says that the operation is done, and what it gives is no payload of that operation's type: none, or this one.
    OtherPayload(Option<ResponsePayload<A>>),
    /// The server gave attributes by their tags, and they aren't what their tags say (`kmip_attribute_set`), or memory ran out over them.
    BadAttributes(Error<A>),
    /// The server has none of the client's versions.
    NoCommonVersion,
}

impl<A: Allocator> From<AllocError> for Failure<A> {
    ghost use Rattle.kmip_client.specs.Refusals.{IsOutOfMemory};

    ghost from_gives = { λ _ f. IsOutOfMemory f };

    fn from(error: AllocError) -> Failure<A> {
        Failure::Sending(Error::from(error))
    }
}
