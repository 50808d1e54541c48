//! Whether a message is consistent, and the four calls.

ghost use Rattle.std.specs.Prelude.{◌≡◌, ◌↔◌, IfOk, IfErr, IsTrue};
ghost use Rattle.kmip_ttlv.specs.EncodeResults.{Encodes};
ghost use Rattle.kmip_ttlv.specs.Reads.{Begins};
ghost use Rattle.kmip_ttlv.specs.Outcomes.{root_outcome};
ghost use Rattle.kmip_ttlv.specs.Values.{Value};
ghost use Rattle.kmip_ttlv.specs.ReadResults.{IsReadAs, ErrorStands, early_end, sort_of};
ghost use Rattle.kmip_ttlv.specs.Wholes.{BeginsWhole};
ghost use Rattle.create_destroy.specs.Consistent.{IsConsistentAttribute, IsConsistentItem, IsConsistentAnswer, IsConsistentRequest, IsConsistentResponse};

use crate::attribute::{Attribute, AttributeValue};
use crate::messages::{Request, Response};
use crate::operation::Operation;
use crate::request::{RequestItem, RequestPayload};
use crate::response::{ResponseItem, ResponsePayload};
use kmip_ttlv::error::Result;
use kmip_ttlv::{from_slice, to_vec};
use kmip_ttlv_kinds::{Element, Of};
use std::alloc::Allocator;

/// The canonical bytes of a request, consistent or not.
///
/// `OutOfMemory` if memory ran out, and `LengthOverflow` where a length doesn't fit its four bytes.
pub fn write_request<A: Allocator + Copy, B: Allocator + Copy>(
    alloc: A,
    request: &Request<B>,
) -> Result<Vec<u8, A>, A>
    ensures { Encodes (⟦<Of<Request<B>, 0x420078> as Element<B>>⟧.rules.written request.now) result }
{
    to_vec(alloc, request)
}

/// The request that bytes begin with, of which `is_consistent` says whether its parts agree. What stands behind it is not
/// read.
///
/// It fails as `kmip_ttlv::from_slice` does, with the place of what it can't read; beside out of memory and an early end,
/// these are errors of bytes that no request begins with.
pub fn read_request<A: Allocator + Copy>(alloc: A, bytes: &[u8]) -> Result<Request<A>, A>
    // Which request comes, or which error and where: unless memory runs out, what the form reads the bytes as.
    ensures equals { IsReadAs (λ v x. v ≡ ⟦<Of<Request<A>, 0x420078> as Element<A>>⟧.value x) (root_outcome ⟦<Of<Request<A>, 0x420078> as Element<A>>⟧.form bytes.now) result }
    // The request is the one with which the bytes begin.
    ensures found { IfOk result (λ x. (v : Value) × Begins ⟦<Of<Request<A>, 0x420078> as Element<A>>⟧.form bytes.now v × (v ≡ ⟦<Of<Request<A>, 0x420078> as Element<A>>⟧.value x)) }
    // Bytes with an error begin with none; but for an early end, whatever bytes follow.
    ensures refused { IfErr result (λ e. ErrorStands ⟦<Of<Request<A>, 0x420078> as Element<A>>⟧.form bytes.now e) }
    // A whole message never ends too early.
    ensures whole { IfErr result (λ e. BeginsWhole bytes.now → sort_of e ≡ early_end → ⊥) }
{
    from_slice(alloc, bytes)
}

/// The canonical bytes of a response, consistent or not.
///
/// `OutOfMemory` if memory ran out, and `LengthOverflow` where a length doesn't fit its four bytes.
pub fn write_response<A: Allocator + Copy, B: Allocator + Copy>(
    alloc: A,
    response: &Response<B>,
) -> Result<Vec<u8, A>, A>
    ensures { Encodes (⟦<Of<Response<B>, 0x42007B> as Element<B>>⟧.rules.written response.now) result }
{
    to_vec(alloc, response)
}

/// The response that bytes begin with, of which `is_consistent` says whether its parts agree. What stands behind it is not
/// read.
///
/// It fails as `kmip_ttlv::from_slice` does, with the place of what it can't read; beside out of memory and an early end,
/// these are errors of bytes that no response begins with.
pub fn read_response<A: Allocator + Copy>(alloc: A, bytes: &[u8]) -> Result<Response<A>, A>
    // Which response comes, or which error and where: unless memory runs out, what the form reads the bytes as.
    ensures equals { IsReadAs (λ v x. v ≡ ⟦<Of<Response<A>, 0x42007B> as Element<A>>⟧.value x) (root_outcome ⟦<Of<Response<A>, 0x42007B> as Element<A>>⟧.form bytes.now) result }
    // The response is the one with which the bytes begin.
    ensures found { IfOk result (λ x. (v : Value) × Begins ⟦<Of<Response<A>, 0x42007B> as Element<A>>⟧.form bytes.now v × (v ≡ ⟦<Of<Response<A>, 0x42007B> as Element<A>>⟧.value x)) }
    // Bytes with an error begin with none; but for an early end, whatever bytes follow.
    ensures refused { IfErr result (λ e. ErrorStands ⟦<Of<Response<A>, 0x42007B> as Element<A>>⟧.form bytes.now e) }
    // A whole message never ends too early.
    ensures whole { IfErr result (λ e. BeginsWhole bytes.now → sort_of e ≡ early_end → ⊥) }
{
    from_slice(alloc, bytes)
}

// An attribute's name chooses its kind of value.
fn is_consistent_attribute<A: Allocator>(attribute: &Attribute<A>) -> bool
    ensures { IsTrue result ↔ IsConsistentAttribute attribute.now }
{
    let name = attribute.name.as_str();
    match attribute.value {
        AttributeValue::Aes => name == "Cryptographic Algorithm",
        AttributeValue::Integer(_) => {
            name == "Cryptographic Length" || name == "Cryptographic Usage Mask"
        }
    }
}

// The operation agrees with the payload, which has an attribute where it is one that creates.
fn is_consistent_item<A: Allocator>(item: &RequestItem<A>) -> bool
    ensures { IsTrue result ↔ IsConsistentItem item.now }
{
    match (item.operation, &item.payload) {
        (Operation::Create, RequestPayload::Create(attributes)) => {
            !attributes.is_empty() && attributes.iter().all(|a| is_consistent_attribute(a))
        }
        (Operation::Destroy, RequestPayload::Destroy(_)) => true,
        _ => false,
    }
}

// The operation agrees with what was done.
fn is_consistent_answer<A: Allocator>(item: &ResponseItem<A>) -> bool
    ensures { IsTrue result ↔ IsConsistentAnswer item.now }
{
    matches!(
        (item.operation, &item.payload),
        (Operation::Create, ResponsePayload::Create(_))
            | (Operation::Destroy, ResponsePayload::Destroy(_))
    )
}

impl<A: Allocator> Request<A> {
    /// Whether there is an item, each operation agrees with its payload, each item that creates has an
    /// attribute, and each attribute's name chooses its kind of value.
    pub fn is_consistent(&self) -> bool
        ensures { IsTrue result ↔ IsConsistentRequest self.now }
    {
        !self.items.is_empty() && self.items.iter().all(|item| is_consistent_item(item))
    }
}

impl<A: Allocator> Response<A> {
    /// Whether there is an item, and each operation agrees with its payload.
    pub fn is_consistent(&self) -> bool
        ensures { IsTrue result ↔ IsConsistentResponse self.now }
    {
        !self.items.is_empty() && self.items.iter().all(|item| is_consistent_answer(item))
    }
}
