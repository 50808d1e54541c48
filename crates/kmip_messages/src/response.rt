// Written by codegen from types.table: change that, and run codegen/codegen.
//! A response: what became of each item (KMIP 1.0, section 7).

ghost use Rattle.std.specs.Prelude.{◌≡◌, IfSome, refl, true};
ghost use Rattle.std.specs.Option.{IsSomeAnd};
ghost use Rattle.kmip_ttlv_parts.specs.Returns.{text_of_number};
ghost use Rattle.kmip_ttlv_kinds.specs.Parts.{structure, structure_where};
ghost use Rattle.kmip_ttlv_kinds.specs.Choices.{texted_where};
ghost use Rattle.kmip_responses.specs.Choices.{ChoosesResponsePayload};

use kmip_attributes::values::State;
use kmip_headers::header::{MessageExtension, Operation, ResponseHeader};
use kmip_responses::response_payload::ResponsePayload;
use kmip_ttlv::error::Error;
use kmip_ttlv::laws::{Message, Sound};
use kmip_ttlv::shape::{Decode, Serialize};
use kmip_ttlv_kinds::{
    Decided, Element, Four, FromParts, Holds, InBox, Maybe, MaybeLeaf, MaybeOneOf, Of, One,
    PartList, Several, Structure, Walk, decode_structure, is_structure_whole, read_structure,
    structures_come_back, visit_structure,
};
use kmip_ttlv_parts::reader::{Cursor, Scope, Step};
use kmip_ttlv_parts::visit::Visitor;
use kmip_ttlv_parts::{Boxed, Enumeration};
use std::alloc::{AllocError, Allocator, Global};

/// What became of an operation (section 9.1.3.2.27).
pub type ResultStatus = Enumeration<0x42007F>;

/// The numbers of `ResultStatus` that have a name.
pub mod result_status {
    use super::ResultStatus;

    /// It is done.
    pub const SUCCESS: ResultStatus = ResultStatus { number: 0x00000000 };
    /// It failed.
    pub const OPERATION_FAILED: ResultStatus = ResultStatus { number: 0x00000001 };
    /// It goes on.
    pub const OPERATION_PENDING: ResultStatus = ResultStatus { number: 0x00000002 };
    /// It was undone.
    pub const OPERATION_UNDONE: ResultStatus = ResultStatus { number: 0x00000003 };
}

/// Why an operation failed (section 9.1.3.2.28).
pub type ResultReason = Enumeration<0x42007E>;

/// The numbers of `ResultReason` that have a name.
pub mod result_reason {
    use super::ResultReason;

    /// There is no such object.
    pub const ITEM_NOT_FOUND: ResultReason = ResultReason { number: 0x00000001 };
    /// The response would be too long.
    pub const RESPONSE_TOO_LARGE: ResultReason = ResultReason { number: 0x00000002 };
    /// The client isn't known.
    pub const AUTHENTICATION_NOT_SUCCESSFUL: ResultReason = ResultReason { number: 0x00000003 };
    /// The request isn't one.
    pub const INVALID_MESSAGE: ResultReason = ResultReason { number: 0x00000004 };
    /// The server doesn't have the operation.
    pub const OPERATION_NOT_SUPPORTED: ResultReason = ResultReason { number: 0x00000005 };
    /// Something is missing in the request.
    pub const MISSING_DATA: ResultReason = ResultReason { number: 0x00000006 };
    /// Something in the request is not as it has to be.
    pub const INVALID_FIELD: ResultReason = ResultReason { number: 0x00000007 };
    /// The server doesn't have a feature.
    pub const FEATURE_NOT_SUPPORTED: ResultReason = ResultReason { number: 0x00000008 };
    /// The client gave it up.
    pub const OPERATION_CANCELED_BY_REQUESTER: ResultReason = ResultReason { number: 0x00000009 };
    /// A cryptographic operation failed.
    pub const CRYPTOGRAPHIC_FAILURE: ResultReason = ResultReason { number: 0x0000000A };
    /// The client asked for what it may not.
    pub const ILLEGAL_OPERATION: ResultReason = ResultReason { number: 0x0000000B };
    /// The client may not do that.
    pub const PERMISSION_DENIED: ResultReason = ResultReason { number: 0x0000000C };
    /// The object was put away.
    pub const OBJECT_ARCHIVED: ResultReason = ResultReason { number: 0x0000000D };
    /// There is no attribute of this index.
    pub const INDEX_OUT_OF_BOUNDS: ResultReason = ResultReason { number: 0x0000000E };
    /// The server doesn't know the namespace.
    pub const APPLICATION_NAMESPACE_NOT_SUPPORTED: ResultReason = ResultReason {
        number: 0x0000000F,
    };
    /// The server doesn't have this format of a key.
    pub const KEY_FORMAT_TYPE_NOT_SUPPORTED: ResultReason = ResultReason { number: 0x00000010 };
    /// The server doesn't have this compression.
    pub const KEY_COMPRESSION_TYPE_NOT_SUPPORTED: ResultReason = ResultReason {
        number: 0x00000011,
    };
    /// Anything that has no other reason.
    pub const GENERAL_FAILURE: ResultReason = ResultReason { number: 0x00000100 };
}

/// What became of one thing that was asked for (section 7.2).
#[derive(Drop)]
#[derive_where(PartialEq)]
pub struct ResponseItem<A: Allocator = Global> {
    /// What was asked for.
    pub operation: Option<Operation>,
    /// What names the item, in a batch of several.
    pub unique_batch_item_id: Option<Vec<u8, A>>,
    /// What became of it.
    pub result_status: ResultStatus,
    /// Why it failed, if it did.
    pub result_reason: Option<ResultReason>,
    /// More about it, for a person.
    pub result_message: Option<String<A>>,
    /// What names an operation that goes on.
    pub asynchronous_correlation_value: Option<Vec<u8, A>>,
    /// What was done, if it was.
    pub payload: Option<ResponsePayload<A>>,
    /// What a vendor adds.
    pub message_extension: Option<Boxed<MessageExtension<A>, A>>,
}

impl<A: Allocator> Decided for ResponseItem<A> {
    ghost IsDecided = { λ x. IfSome x.payload (λ y. IsSomeAnd x.operation (λ z. ChoosesResponsePayload (text_of_number z.number) y)) };

    fn is_decided(&self) -> bool {
        match (&self.operation, &self.payload) {
            (Some(said), Some(inner)) => inner.is_chosen_by(said.number_text().as_str()),
            (None, Some(_)) => false,
            (_, None) => true,
        }
    }
}

type ResponseItemFirst<A> = (
    Maybe<Operation, 0x42005C>,
    MaybeLeaf<Vec<u8, A>, 0x420093>,
    One<ResultStatus>,
    Maybe<ResultReason, 0x42007E>,
);

type ResponseItemSecond<A> = (
    MaybeLeaf<String<A>, 0x42007D>,
    MaybeLeaf<Vec<u8, A>, 0x420006>,
    MaybeOneOf<ResponsePayload<A>, 0x42007C>,
    Maybe<InBox<Of<MessageExtension<A>, 0x420051>>, 0x420051>,
);

type ResponseItemParts<A> = Four<ResponseItemFirst<A>, ResponseItemSecond<A>>;

impl<A: Allocator + Copy> FromParts<A, ResponseItemParts<A>> for ResponseItem<A> {
    ghost parts = { λ x. (x.operation, x.unique_batch_item_id, x.result_status, x.result_reason, (x.result_message, x.asynchronous_correlation_value, x.payload, x.message_extension)) };

    fn from_parts(
        (
            operation,
            unique_batch_item_id,
            result_status,
            result_reason,
            (result_message, asynchronous_correlation_value, payload, message_extension),
        ): Holds<ResponseItemParts<A>, A>,
    ) -> Self {
        ResponseItem {
            operation,
            unique_batch_item_id,
            result_status,
            result_reason,
            result_message,
            asynchronous_correlation_value,
            payload,
            message_extension,
        }
    }
}

impl<A: Allocator + Copy> Structure<A> for ResponseItem<A> {
    ghost rules = { structure_where true ⟦<ResponseItemParts<A> as PartList<A>>⟧.rules ⟦<ResponseItem<A> as FromParts<A, ResponseItemParts<A>>>⟧.parts refl
        (λ x. IfSome x.payload (λ y. IsSomeAnd x.operation (λ z. ChoosesResponsePayload (text_of_number z.number) y))) (λ x d. (tt, (tt, (tt, (tt, (tt, (tt, (texted_where ChoosesResponsePayload x.operation x.payload d, (tt))))))))) ⟦<ResponseItem<A> as PartialEq>⟧.eq (λ x y e. e) };

    fn read<'b>(scope: &Scope<'b, A>, tag: u32, cursor: &mut Cursor<'b, A>) -> Step<Self, A> {
        read_structure::<ResponseItemParts<A>, Self, A>(scope, tag, true, cursor)
    }

    fn tell_parts<W: Walk<A>>(&self, state: &mut W::State) -> Result<(), AllocError> {
        W::four::<
            Maybe<Operation, 0x42005C>,
            MaybeLeaf<Vec<u8, A>, 0x420093>,
            One<ResultStatus>,
            Maybe<ResultReason, 0x42007E>,
        >(
            state,
            &self.operation,
            &self.unique_batch_item_id,
            &self.result_status,
            &self.result_reason,
        )?;
        W::four::<
            MaybeLeaf<String<A>, 0x42007D>,
            MaybeLeaf<Vec<u8, A>, 0x420006>,
            MaybeOneOf<ResponsePayload<A>, 0x42007C>,
            Maybe<InBox<Of<MessageExtension<A>, 0x420051>>, 0x420051>,
        >(
            state,
            &self.result_message,
            &self.asynchronous_correlation_value,
            &self.payload,
            &self.message_extension,
        )?;
        W::check(state, self);
        Ok(())
    }
}

/// A response (section 7.1).
#[derive(Drop)]
#[derive_where(PartialEq)]
pub struct Response<A: Allocator = Global> {
    /// What it begins with.
    pub header: ResponseHeader<A>,
    /// One or more.
    pub items: Vec<ResponseItem<A>, A>,
}

type ResponseParts<A> = (
    One<Of<ResponseHeader<A>, 0x42007A>>,
    Several<Of<ResponseItem<A>, 0x42000F>, 0x42000F>,
);

impl<A: Allocator + Copy> FromParts<A, ResponseParts<A>> for Response<A> {
    ghost parts = { λ x. (x.header, x.items) };

    fn from_parts((header, items): Holds<ResponseParts<A>, A>) -> Self {
        Response { header, items }
    }
}

impl<A: Allocator + Copy> Structure<A> for Response<A> {
    ghost rules = { structure true ⟦<ResponseParts<A> as PartList<A>>⟧.rules ⟦<Response<A> as FromParts<A, ResponseParts<A>>>⟧.parts refl ⟦<Response<A> as PartialEq>⟧.eq (λ x y e. e) };

    fn read<'b>(scope: &Scope<'b, A>, tag: u32, cursor: &mut Cursor<'b, A>) -> Step<Self, A> {
        read_structure::<ResponseParts<A>, Self, A>(scope, tag, true, cursor)
    }

    fn tell_parts<W: Walk<A>>(&self, state: &mut W::State) -> Result<(), AllocError> {
        W::two::<
            One<Of<ResponseHeader<A>, 0x42007A>>,
            Several<Of<ResponseItem<A>, 0x42000F>, 0x42000F>,
        >(state, &self.header, &self.items)
    }
}

impl<A: Allocator + Copy> Serialize for Response<A> {
    ghost stated = { ⟦<Of<Response<A>, 0x42007B> as Element<A>>⟧.rules.written };

    fn visit<V: Visitor>(&self, visitor: &mut V) -> Result<(), AllocError> {
        visit_structure(self, 0x42007B, visitor)
    }
}

impl<A: Allocator + Copy> Decode<A> for Response<A> {
    ghost form = { ⟦<Of<Response<A>, 0x42007B> as Element<A>>⟧.form };

    ghost is_value = { λ v x. v ≡ ⟦<Of<Response<A>, 0x42007B> as Element<A>>⟧.value x };

    fn decode(alloc: A, bytes: &[u8]) -> Result<Self, Error<A>> {
        decode_structure::<ResponseParts<A>, Self, A>(alloc, 0x42007B, true, bytes)
    }
}

impl<A: Allocator + Copy> Sound for Response<A> {
    ghost IsSound = { ⟦<Of<Response<A>, 0x42007B> as Element<A>>⟧.rules.IsSound };

    fn is_sound(&self) -> bool {
        is_structure_whole(self)
    }
}

impl<A: Allocator + Copy> Message<A> for Response<A> {
    fn comes_back() {
        structures_come_back::<Response<A>, 0x42007B, A>();
    }
}
