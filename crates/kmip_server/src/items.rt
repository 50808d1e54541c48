//! One item of a batch: whether its operation is there, what it asks for, and its answer.

ghost use Rattle.std.specs.Prelude.{◌≡◌, IfOk, Ok, OnErr, option_map, string_bytes, vec_items, None, Some};
ghost use Rattle.kmip_server.specs.Abilities.{AnswersQuery, AnswersVersions, declaration_of};
ghost use Rattle.kmip_server.specs.Refusals.{reason_of};
ghost use Rattle.kmip_server.specs.Items.{Answers, IsAnswerTo, IsDone, IsUnanswered, Performs, SaysDone, SaysRefused, Follows, is_critical, identifier_of, reason_for};

use crate::abilities::{Abilities, common_versions, is_among, list_abilities};
use crate::codec::Codec;
use crate::handler::Handler;
use crate::refusal::Refusal;
use kmip_messages::envelope::RequestEnvelopeItem;
use kmip_messages::header::{MessageExtension, Operation};
use kmip_messages::request::RequestItem;
use kmip_messages::request_payload::{DiscoverVersionsRequest, QueryRequest, RequestPayload};
use kmip_messages::response::{ResponseItem, result_reason, result_status};
use kmip_messages::response_payload::ResponsePayload;
use kmip_ttlv::Boxed;
use kmip_ttlv::error::{Error, ErrorKind};
use std::alloc::{AllocError, Allocator};

/// Why what can't be decoded is refused: a General Failure if memory ran out, otherwise an Invalid Message.
pub fn unreadable<A: Allocator>(error: &Error<A>) -> Refusal
    ensures { reason_of result ≡ reason_for error.now }
{
    match error.kind() {
        ErrorKind::OutOfMemory => Refusal::new(result_reason::GENERAL_FAILURE, "out of memory"),
        _ => Refusal::new(result_reason::INVALID_MESSAGE, "it cannot be decoded"),
    }
}

// Whether an extension is there that has to be understood.
fn is_critical<A: Allocator>(extension: &Option<Boxed<MessageExtension<A>, A>>) -> bool
    ensures { result ≡ is_critical extension.now }
{
    match extension {
        Some(extension) => extension.inner.as_ref().criticality_indicator,
        None => false,
    }
}

// The answer to a Query.
fn answer_query<A: Allocator + Copy>(
    alloc: A,
    own: Abilities,
    query: &QueryRequest<A>,
) -> Result<ResponsePayload<A>, Refusal>
    ensures { AnswersQuery (declaration_of own) query.now result }
{
    let found = list_abilities(alloc, own, query)?;
    Ok(ResponsePayload::Query(Boxed::new(alloc, found)?))
}

// The answer to Discover Versions.
fn answer_versions<A: Allocator + Copy>(
    alloc: A,
    own: Abilities,
    known: &DiscoverVersionsRequest<A>,
) -> Result<ResponsePayload<A>, Refusal>
    ensures { AnswersVersions (declaration_of own) known.now result }
{
    let found = common_versions(alloc, own.versions, known)?;
    Ok(ResponsePayload::DiscoverVersions(found))
}

// Does what a payload asks for. What the handler declares is answered here.
#[tactic(auto, using(crate::proofs::Performing::performs_other))]
fn perform<H: Handler<A>, A: Allocator + Copy>(
    handler: &mut H,
    alloc: A,
    operation: Operation,
    asked: &RequestPayload<A>,
) -> Result<ResponsePayload<A>, Refusal>
    ensures { Performs H.Does H.declaration handler.old operation asked.now result handler.new }
{
    match asked {
        RequestPayload::Query(query) => answer_query(alloc, handler.abilities(), query),
        RequestPayload::DiscoverVersions(known) => answer_versions(
            alloc,
            handler.abilities(),
            known,
        ),
        _ => handler.handle(alloc, operation, asked),
    }
}

// Does an item as it was decoded, if it was.
fn follow<H: Handler<A>, A: Allocator + Copy>(
    handler: &mut H,
    alloc: A,
    read: Result<RequestItem<A>, Error<A>>,
) -> Result<ResponsePayload<A>, Refusal>
    ensures { Follows H.Does H.declaration handler.old read result handler.new }
{
    match read {
        Ok(item) => {
            if is_critical(&item.message_extension) {
                return Err(Refusal::new(
                    result_reason::FEATURE_NOT_SUPPORTED,
                    "the message extension is not known",
                ));
            }
            perform(handler, alloc, item.operation, &item.payload)
        }
        Err(error) => Err(unreadable(&error)),
    }
}

// Does one item.
fn done<D: Codec<A>, H: Handler<A>, A: Allocator + Copy>(
    handler: &mut H,
    alloc: A,
    item: RequestEnvelopeItem<A>,
) -> Result<ResponsePayload<A>, Refusal>
    ensures { IsDone H.Does H.declaration D.ReadsItem
        handler.old item result handler.new }
{
    if !is_among(item.operation, handler.abilities().operations) {
        return Err(Refusal::new(
            result_reason::OPERATION_NOT_SUPPORTED,
            "the server does not have this operation",
        ));
    }
    let mut item = item;
    let read = D::read_item(alloc, &mut item);
    follow(handler, alloc, read)
}

/// The answer that refuses an item, or a request as a whole.
pub fn refused<A: Allocator + Copy>(
    alloc: A,
    operation: Option<Operation>,
    unique_batch_item_id: Option<Vec<u8, A>>,
    refusal: Refusal,
) -> Result<ResponseItem<A>, AllocError>
    ensures operation { IfOk result (λ answer. answer.operation ≡ operation) }
    ensures identifier { IfOk result (λ answer. answer.unique_batch_item_id ≡ unique_batch_item_id) }
    ensures says { IfOk result (SaysRefused refusal) }
{
    let message = refusal.message.to_string(alloc)?;
    Ok(ResponseItem {
        operation,
        unique_batch_item_id,
        result_status: result_status::OPERATION_FAILED,
        result_reason: Some(refusal.reason),
        result_message: Some(message),
        asynchronous_correlation_value: None,
        payload: None,
        message_extension: None,
    })
}

// The answer of an item that is done, under its operation and its identifier.
fn succeeded<A: Allocator>(
    operation: Operation,
    unique_batch_item_id: Option<Vec<u8, A>>,
    payload: ResponsePayload<A>,
) -> ResponseItem<A>
    ensures operation { result.operation ≡ Some operation }
    ensures identifier { result.unique_batch_item_id ≡ unique_batch_item_id }
    ensures says { SaysDone payload result }
{
    ResponseItem {
        operation: Some(operation),
        unique_batch_item_id,
        result_status: result_status::SUCCESS,
        result_reason: None,
        result_message: None,
        asynchronous_correlation_value: None,
        payload: Some(payload),
        message_extension: None,
    }
}

// The same bytes, if there are any.
fn copied<A: Allocator + Copy>(
    alloc: A,
    bytes: &Option<Vec<u8, A>>,
) -> Result<Option<Vec<u8, A>>, AllocError>
    ensures { IfOk result (λ copy. option_map vec_items copy ≡ option_map vec_items bytes.now) }
{
    match bytes {
        Some(bytes) => Ok(Some(bytes.as_slice().to_vec(alloc)?)),
        None => Ok(None),
    }
}

// The answer to an item whose payload is this. One that isn't sound is never sent.
fn fitting<D: Codec<A>, A: Allocator + Copy>(
    alloc: A,
    operation: Operation,
    id: Option<Vec<u8, A>>,
    payload: ResponsePayload<A>,
) -> Result<ResponseItem<A>, AllocError>
    ensures { IfOk result (IsAnswerTo D.IsSound operation (option_map vec_items id) (Ok payload)) }
{
    let answer = succeeded(operation, id, payload);
    if D::is_sound(&answer) {
        return Ok(answer);
    }
    let refusal = Refusal::new(
        result_reason::GENERAL_FAILURE,
        "the server has no answer to this operation",
    );
    refused(alloc, Some(operation), answer.unique_batch_item_id, refusal)
}

/// The answer to an item of which this was done.
pub fn answer_of<D: Codec<A>, A: Allocator + Copy>(
    alloc: A,
    operation: Operation,
    id: Option<Vec<u8, A>>,
    done: Result<ResponsePayload<A>, Refusal>,
) -> Result<ResponseItem<A>, AllocError>
    ensures { IfOk result (IsAnswerTo D.IsSound operation (option_map vec_items id) done) }
{
    match done {
        Ok(payload) => fitting::<D, A>(alloc, operation, id, payload),
        Err(refusal) => refused(alloc, Some(operation), id, refusal),
    }
}

/// Does one item, and answers it under its operation and its identifier.
///
/// An operation that the handler doesn't declare is refused with Operation Not Supported, an item that can't be decoded with Invalid
/// Message, and one with a critical extension with Feature Not Supported (KMIP 1.0, section 11.1): the handler sees none of them. A
/// payload that isn't sound, as one of another operation, is a General Failure. The only error is out of memory: then nothing is done of
/// the item, or it is done, and only its answer couldn't be made.
pub fn answer<D: Codec<A>, H: Handler<A>, A: Allocator + Copy>(
    handler: &mut H,
    alloc: A,
    item: RequestEnvelopeItem<A>,
) -> Result<ResponseItem<A>, AllocError>
    ensures answered { IfOk result (λ answer. Answers (IsDone H.Does H.declaration D.ReadsItem) D.IsSound handler.old item answer handler.new) }
    ensures unanswered { OnErr result (IsUnanswered (IsDone H.Does H.declaration D.ReadsItem) handler.old item handler.new) }
{
    let operation = item.operation;
    let id = copied(alloc, &item.unique_batch_item_id)?;
    let done = done::<D, H, A>(handler, alloc, item);
    answer_of::<D, A>(alloc, operation, id, done)
}
