//! Whether a response answers a request: item by item, by operation and identifier.

ghost use Rattle.std.specs.Prelude.{◌≡◌, ◌↔◌, IsTrue};
ghost use Rattle.kmip_client.specs.Answers.{AllFailed, AnswersAfter, AreAnswers, IsAnswer, IsCounted, IsOfVersion, IsVerdict};
ghost use Rattle.kmip_client.specs.Answers.{RefusesWhole, has_failed, is_payload_of, name_of};

use kmip_messages::header::{Operation, ProtocolVersion};
use kmip_messages::request::{Request, RequestItem};
use kmip_messages::response::{Response, ResponseItem, result_status};
use kmip_messages::response_payload::ResponsePayload;
use std::alloc::Allocator;

/// What a response is to a request.
#[derive(Clone, Copy, PartialEq, Eq, Debug)]
pub enum Verdict {
    /// It answers it (`are_answers`).
    Answers,
    /// It refuses it as a whole: its one item has no operation, and says that it failed (KMIP 1.0, section 11.1).
    Refuses,
    /// Its Batch Count is not the number of its items (section 6.14).
    Miscounted,
    /// It is of another version, and doesn't only say that all has failed (section 6.1).
    OtherVersion,
    /// It answers something else.
    Unasked,
}

// Whether two items have the same identifier, or neither has one.
fn is_same_name<A: Allocator>(one: &Option<Vec<u8, A>>, other: &Option<Vec<u8, A>>) -> bool
    ensures { IsTrue result ↔ (name_of one.now ≡ name_of other.now) }
{
    match (one, other) {
        (Some(one), Some(other)) => one.as_slice() == other.as_slice(),
        (None, None) => true,
        _ => false,
    }
}

// Whether a payload, if there is one, belongs to an operation.
fn is_of<A: Allocator>(operation: Operation, payload: &Option<ResponsePayload<A>>) -> bool
    ensures { IsTrue result ↔ is_payload_of operation payload.now }
{
    match payload {
        Some(payload) => payload.is_chosen_by(operation.number_text().as_str()),
        None => true,
    }
}

/// Whether an item of a response answers this item of a request: it has its operation and its identifier, and the payload of that
/// operation, if it has one (KMIP 1.0, section 7.2).
pub fn is_answer<A: Allocator>(asked: &RequestItem<A>, item: &ResponseItem<A>) -> bool
    ensures { IsTrue result ↔ IsAnswer asked.now item.now }
{
    item.operation == Some(asked.operation)
        && is_same_name(&asked.unique_batch_item_id, &item.unique_batch_item_id)
        && is_of(asked.operation, &item.payload)
}

// Whether an operation failed.
fn is_failed<A: Allocator>(item: &ResponseItem<A>) -> bool
    ensures { result ≡ has_failed item.now }
{
    item.result_status == result_status::OPERATION_FAILED
}

/// Whether these items of a response answer those of a request: each in its order, and all of them, but that behind one that failed
/// the others may be missing, as a server stops there unless it was told to go on (KMIP 1.0, section 6.13).
pub fn are_answers<A: Allocator>(asked: &[RequestItem<A>], items: &[ResponseItem<A>]) -> bool
    ensures { IsTrue result ↔ AreAnswers asked.now items.now }
{
    let mut asked = asked;
    let mut items = items;
    let mut failed = false;
    while let Some((first, later)) = asked.split_first() {
        let Some((item, rest)) = items.split_first() else {
            return failed;
        };
        if !is_answer(first, item) {
            return false;
        }
        failed = is_failed(item);
        asked = later;
        items = rest;
    }
    items.is_empty()
}

// Whether each item says that its operation failed.
fn all_failed<A: Allocator>(items: &[ResponseItem<A>]) -> bool
    ensures { IsTrue result ↔ AllFailed items.now }
{
    let mut left = items;
    while let Some((item, rest)) = left.split_first() {
        if !is_failed(item) {
            return false;
        }
        left = rest;
    }
    true
}

// Whether two versions are the same.
pub(crate) fn is_same_version(one: ProtocolVersion, other: ProtocolVersion) -> bool
    ensures { IsTrue result ↔ (one ≡ other) }
{
    one == other
}

// Whether a response is of this version, or says only that all has failed.
fn is_of_version<A: Allocator>(version: ProtocolVersion, response: &Response<A>) -> bool
    ensures { IsTrue result ↔ IsOfVersion version response.now }
{
    is_same_version(response.header.version, version) || all_failed(response.items.as_slice())
}

// Whether items refuse a request as a whole.
fn is_refused_whole<A: Allocator>(items: &[ResponseItem<A>]) -> bool
    ensures { IsTrue result ↔ RefusesWhole items.now }
{
    let Some((item, rest)) = items.split_first() else {
        return false;
    };
    if !rest.is_empty() {
        return false;
    }
    item.operation.is_none() && is_failed(item)
}

// Whether the Batch Count is the number of items.
fn is_counted<A: Allocator>(response: &Response<A>) -> bool
    ensures { IsTrue result ↔ IsCounted response.now }
{
    match usize::try_from(response.header.batch_count) {
        Ok(count) => count == response.items.len(),
        Err(_) => false,
    }
}

/// What a response is to a request. A server that doesn't speak the request's version answers in its own best one, that it failed: so a
/// response of another version is taken if it says nothing else.
pub fn judge<A: Allocator>(request: &Request<A>, response: &Response<A>) -> Verdict
    ensures { IsVerdict request.now response.now result }
{
    if !is_counted(response) {
        Verdict::Miscounted
    } else if is_refused_whole(response.items.as_slice()) {
        Verdict::Refuses
    } else if !is_of_version(request.header.version, response) {
        Verdict::OtherVersion
    } else if are_answers(request.items.as_slice(), response.items.as_slice()) {
        Verdict::Answers
    } else {
        Verdict::Unasked
    }
}
