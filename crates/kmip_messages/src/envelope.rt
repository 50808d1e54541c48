// Written by codegen from types.table: change that, and run codegen/codegen.
//! Requests and responses whose payloads are kept as they stand, so that one that can't be decoded costs no other (KMIP 1.0, section 7).

ghost use Rattle.std.specs.Prelude.{◌≡◌, refl, true};
ghost use Rattle.kmip_ttlv_kinds.specs.Parts.{IsApart, keeping_structure, structure};

use crate::response::{ResultReason, ResultStatus};
use kmip_attributes::values::State;
use kmip_headers::header::{Operation, ProtocolVersion};
use kmip_ttlv::error::Error;
use kmip_ttlv::laws::{Message, Sound};
use kmip_ttlv::shape::{Decode, Serialize};
use kmip_ttlv_kinds::{
    Before, Decided, Element, Four, FromParts, Holds, Maybe, MaybeLeaf, Of, One, PartList, Rest,
    Several, Structure, Walk, decode_structure, is_apart, is_structure_whole, read_structure,
    structures_come_back, visit_structure,
};
use kmip_ttlv_parts::Kept;
use kmip_ttlv_parts::reader::{Cursor, Scope, Step};
use kmip_ttlv_parts::visit::Visitor;
use std::alloc::{AllocError, Allocator, Global};

/// The header of a message, of which only the version is decoded (section 7.2).
#[derive(Drop)]
#[derive_where(PartialEq)]
pub struct EnvelopeHeader<A: Allocator = Global> {
    /// The version of the message.
    pub version: ProtocolVersion,
    /// What stands behind these, whatever it is.
    pub other_items: Kept<A>,
}

impl<A: Allocator + Copy> Decided for EnvelopeHeader<A> {
    ghost IsDecided = { λ x. IsApart ⟦<EnvelopeHeaderParts as PartList<A>>⟧.rules ⟦<EnvelopeHeader<A> as FromParts<A, EnvelopeHeaderParts>>⟧.parts x };

    fn is_decided(&self) -> bool {
        is_apart::<EnvelopeHeaderParts, A>(&self.other_items)
    }
}

type EnvelopeHeaderParts = Before<One<Of<ProtocolVersion, 0x420069>>, Rest>;

impl<A: Allocator + Copy> FromParts<A, EnvelopeHeaderParts> for EnvelopeHeader<A> {
    ghost parts = { λ x. (x.version, x.other_items) };

    fn from_parts((version, other_items): Holds<EnvelopeHeaderParts, A>) -> Self {
        EnvelopeHeader {
            version,
            other_items,
        }
    }
}

impl<A: Allocator + Copy> Structure<A> for EnvelopeHeader<A> {
    ghost rules = { keeping_structure ⟦<EnvelopeHeaderParts as PartList<A>>⟧.rules ⟦<EnvelopeHeader<A> as FromParts<A, EnvelopeHeaderParts>>⟧.parts refl ⟦<EnvelopeHeader<A> as PartialEq>⟧.eq (λ x y e. e) };

    fn read<'b>(scope: &Scope<'b, A>, tag: u32, cursor: &mut Cursor<'b, A>) -> Step<Self, A> {
        read_structure::<EnvelopeHeaderParts, Self, A>(scope, tag, true, cursor)
    }

    fn tell_parts<W: Walk<A>>(&self, state: &mut W::State) -> Result<(), AllocError> {
        W::one::<One<Of<ProtocolVersion, 0x420069>>>(state, &self.version)?;
        W::kept(state, &self.other_items)?;
        W::check(state, self);
        Ok(())
    }
}

/// One thing that is asked for, of any operation (section 7.2).
#[derive(Drop)]
#[derive_where(PartialEq)]
pub struct RequestEnvelopeItem<A: Allocator = Global> {
    /// What is asked for.
    pub operation: Operation,
    /// What KMIP 2.0 calls Ephemeral.
    pub ephemeral: Option<bool>,
    /// What names the item, in a batch of several.
    pub unique_batch_item_id: Option<Vec<u8, A>>,
    /// What it needs.
    pub payload: Kept<A>,
    /// What stands behind these, whatever it is.
    pub other_items: Kept<A>,
}

impl<A: Allocator + Copy> Decided for RequestEnvelopeItem<A> {
    ghost IsDecided = { λ x. IsApart ⟦<RequestEnvelopeItemParts<A> as PartList<A>>⟧.rules ⟦<RequestEnvelopeItem<A> as FromParts<A, RequestEnvelopeItemParts<A>>>⟧.parts x };

    fn is_decided(&self) -> bool {
        is_apart::<RequestEnvelopeItemParts<A>, A>(&self.other_items)
    }
}

type RequestEnvelopeItemFirst<A> = (
    One<Operation>,
    MaybeLeaf<bool, 0x420154>,
    MaybeLeaf<Vec<u8, A>, 0x420093>,
    One<Of<Kept<A>, 0x420079>>,
);

type RequestEnvelopeItemParts<A> = Four<RequestEnvelopeItemFirst<A>, Rest>;

impl<A: Allocator + Copy> FromParts<A, RequestEnvelopeItemParts<A>> for RequestEnvelopeItem<A> {
    ghost parts = { λ x. (x.operation, x.ephemeral, x.unique_batch_item_id, x.payload, x.other_items) };

    fn from_parts(
        (operation, ephemeral, unique_batch_item_id, payload, other_items): Holds<
            RequestEnvelopeItemParts<A>,
            A,
        >,
    ) -> Self {
        RequestEnvelopeItem {
            operation,
            ephemeral,
            unique_batch_item_id,
            payload,
            other_items,
        }
    }
}

impl<A: Allocator + Copy> Structure<A> for RequestEnvelopeItem<A> {
    ghost rules = { keeping_structure ⟦<RequestEnvelopeItemParts<A> as PartList<A>>⟧.rules ⟦<RequestEnvelopeItem<A> as FromParts<A, RequestEnvelopeItemParts<A>>>⟧.parts refl ⟦<RequestEnvelopeItem<A> as PartialEq>⟧.eq (λ x y e. e) };

    fn read<'b>(scope: &Scope<'b, A>, tag: u32, cursor: &mut Cursor<'b, A>) -> Step<Self, A> {
        read_structure::<RequestEnvelopeItemParts<A>, Self, A>(scope, tag, true, cursor)
    }

    fn tell_parts<W: Walk<A>>(&self, state: &mut W::State) -> Result<(), AllocError> {
        W::four::<
            One<Operation>,
            MaybeLeaf<bool, 0x420154>,
            MaybeLeaf<Vec<u8, A>, 0x420093>,
            One<Of<Kept<A>, 0x420079>>,
        >(
            state,
            &self.operation,
            &self.ephemeral,
            &self.unique_batch_item_id,
            &self.payload,
        )?;
        W::kept(state, &self.other_items)?;
        W::check(state, self);
        Ok(())
    }
}

/// A request of any operations (section 7.1).
#[derive(Drop)]
#[derive_where(PartialEq)]
pub struct RequestEnvelope<A: Allocator = Global> {
    /// What it begins with.
    pub header: EnvelopeHeader<A>,
    /// One or more.
    pub items: Vec<RequestEnvelopeItem<A>, A>,
}

type RequestEnvelopeParts<A> = (
    One<Of<EnvelopeHeader<A>, 0x420077>>,
    Several<Of<RequestEnvelopeItem<A>, 0x42000F>, 0x42000F>,
);

impl<A: Allocator + Copy> FromParts<A, RequestEnvelopeParts<A>> for RequestEnvelope<A> {
    ghost parts = { λ x. (x.header, x.items) };

    fn from_parts((header, items): Holds<RequestEnvelopeParts<A>, A>) -> Self {
        RequestEnvelope { header, items }
    }
}

impl<A: Allocator + Copy> Structure<A> for RequestEnvelope<A> {
    ghost rules = { structure true ⟦<RequestEnvelopeParts<A> as PartList<A>>⟧.rules ⟦<RequestEnvelope<A> as FromParts<A, RequestEnvelopeParts<A>>>⟧.parts refl ⟦<RequestEnvelope<A> as PartialEq>⟧.eq (λ x y e. e) };

    fn read<'b>(scope: &Scope<'b, A>, tag: u32, cursor: &mut Cursor<'b, A>) -> Step<Self, A> {
        read_structure::<RequestEnvelopeParts<A>, Self, A>(scope, tag, true, cursor)
    }

    fn tell_parts<W: Walk<A>>(&self, state: &mut W::State) -> Result<(), AllocError> {
        W::two::<
            One<Of<EnvelopeHeader<A>, 0x420077>>,
            Several<Of<RequestEnvelopeItem<A>, 0x42000F>, 0x42000F>,
        >(state, &self.header, &self.items)
    }
}

impl<A: Allocator + Copy> Serialize for RequestEnvelope<A> {
    ghost stated = { ⟦<Of<RequestEnvelope<A>, 0x420078> as Element<A>>⟧.rules.written };

    fn visit<V: Visitor>(&self, visitor: &mut V) -> Result<(), AllocError> {
        visit_structure(self, 0x420078, visitor)
    }
}

impl<A: Allocator + Copy> Decode<A> for RequestEnvelope<A> {
    ghost form = { ⟦<Of<RequestEnvelope<A>, 0x420078> as Element<A>>⟧.form };

    ghost is_value = { λ v x. v ≡ ⟦<Of<RequestEnvelope<A>, 0x420078> as Element<A>>⟧.value x };

    fn decode(alloc: A, bytes: &[u8]) -> Result<Self, Error<A>> {
        decode_structure::<RequestEnvelopeParts<A>, Self, A>(alloc, 0x420078, true, bytes)
    }
}

impl<A: Allocator + Copy> Sound for RequestEnvelope<A> {
    ghost IsSound = { ⟦<Of<RequestEnvelope<A>, 0x420078> as Element<A>>⟧.rules.IsSound };

    fn is_sound(&self) -> bool {
        is_structure_whole(self)
    }
}

impl<A: Allocator + Copy> Message<A> for RequestEnvelope<A> {
    fn comes_back() {
        structures_come_back::<RequestEnvelope<A>, 0x420078, A>();
    }
}

/// What became of one thing that was asked for, of any operation (section 7.2).
#[derive(Drop)]
#[derive_where(PartialEq)]
pub struct ResponseEnvelopeItem<A: Allocator = Global> {
    /// What was asked for.
    pub operation: Option<Operation>,
    /// What names the item, in a batch of several.
    pub unique_batch_item_id: Option<Vec<u8, A>>,
    /// What became of it.
    pub result_status: ResultStatus,
    /// Why it failed, if it did.
    pub result_reason: Option<ResultReason>,
    /// More about it, for a person.
    pub result_message: Option<String<A>>,
    /// What names an operation that goes on.
    pub asynchronous_correlation_value: Option<Vec<u8, A>>,
    /// What was done, if it was.
    pub payload: Option<Kept<A>>,
    /// What stands behind these, whatever it is.
    pub other_items: Kept<A>,
}

impl<A: Allocator + Copy> Decided for ResponseEnvelopeItem<A> {
    ghost IsDecided = { λ x. IsApart ⟦<ResponseEnvelopeItemParts<A> as PartList<A>>⟧.rules ⟦<ResponseEnvelopeItem<A> as FromParts<A, ResponseEnvelopeItemParts<A>>>⟧.parts x };

    fn is_decided(&self) -> bool {
        is_apart::<ResponseEnvelopeItemParts<A>, A>(&self.other_items)
    }
}

type ResponseEnvelopeItemFirst<A> = (
    Maybe<Operation, 0x42005C>,
    MaybeLeaf<Vec<u8, A>, 0x420093>,
    One<ResultStatus>,
    Maybe<ResultReason, 0x42007E>,
);

type ResponseEnvelopeItemSecond<A> = Before<
    MaybeLeaf<String<A>, 0x42007D>,
    Before<MaybeLeaf<Vec<u8, A>, 0x420006>, Before<Maybe<Of<Kept<A>, 0x42007C>, 0x42007C>, Rest>>,
>;

type ResponseEnvelopeItemParts<A> = Four<
    ResponseEnvelopeItemFirst<A>,
    ResponseEnvelopeItemSecond<A>,
>;

impl<A: Allocator + Copy> FromParts<A, ResponseEnvelopeItemParts<A>> for ResponseEnvelopeItem<A> {
    ghost parts = { λ x. (x.operation, x.unique_batch_item_id, x.result_status, x.result_reason, (x.result_message, (x.asynchronous_correlation_value, (x.payload, x.other_items)))) };

    fn from_parts(
        (
            operation,
            unique_batch_item_id,
            result_status,
            result_reason,
            (result_message, (asynchronous_correlation_value, (payload, other_items))),
        ): Holds<ResponseEnvelopeItemParts<A>, A>,
    ) -> Self {
        ResponseEnvelopeItem {
            operation,
            unique_batch_item_id,
            result_status,
            result_reason,
            result_message,
            asynchronous_correlation_value,
            payload,
            other_items,
        }
    }
}

impl<A: Allocator + Copy> Structure<A> for ResponseEnvelopeItem<A> {
    ghost rules = { keeping_structure ⟦<ResponseEnvelopeItemParts<A> as PartList<A>>⟧.rules ⟦<ResponseEnvelopeItem<A> as FromParts<A, ResponseEnvelopeItemParts<A>>>⟧.parts refl ⟦<ResponseEnvelopeItem<A> as PartialEq>⟧.eq (λ x y e. e) };

    fn read<'b>(scope: &Scope<'b, A>, tag: u32, cursor: &mut Cursor<'b, A>) -> Step<Self, A> {
        read_structure::<ResponseEnvelopeItemParts<A>, Self, A>(scope, tag, true, cursor)
    }

    fn tell_parts<W: Walk<A>>(&self, state: &mut W::State) -> Result<(), AllocError> {
        W::four::<
            Maybe<Operation, 0x42005C>,
            MaybeLeaf<Vec<u8, A>, 0x420093>,
            One<ResultStatus>,
            Maybe<ResultReason, 0x42007E>,
        >(
            state,
            &self.operation,
            &self.unique_batch_item_id,
            &self.result_status,
            &self.result_reason,
        )?;
        W::one::<MaybeLeaf<String<A>, 0x42007D>>(state, &self.result_message)?;
        W::one::<MaybeLeaf<Vec<u8, A>, 0x420006>>(state, &self.asynchronous_correlation_value)?;
        W::one::<Maybe<Of<Kept<A>, 0x42007C>, 0x42007C>>(state, &self.payload)?;
        W::kept(state, &self.other_items)?;
        W::check(state, self);
        Ok(())
    }
}

/// A response to operations of any kind (section 7.1).
#[derive(Drop)]
#[derive_where(PartialEq)]
pub struct ResponseEnvelope<A: Allocator = Global> {
    /// What it begins with.
    pub header: EnvelopeHeader<A>,
    /// One or more.
    pub items: Vec<ResponseEnvelopeItem<A>, A>,
}

type ResponseEnvelopeParts<A> = (
    One<Of<EnvelopeHeader<A>, 0x42007A>>,
    Several<Of<ResponseEnvelopeItem<A>, 0x42000F>, 0x42000F>,
);

impl<A: Allocator + Copy> FromParts<A, ResponseEnvelopeParts<A>> for ResponseEnvelope<A> {
    ghost parts = { λ x. (x.header, x.items) };

    fn from_parts((header, items): Holds<ResponseEnvelopeParts<A>, A>) -> Self {
        ResponseEnvelope { header, items }
    }
}

impl<A: Allocator + Copy> Structure<A> for ResponseEnvelope<A> {
    ghost rules = { structure true ⟦<ResponseEnvelopeParts<A> as PartList<A>>⟧.rules ⟦<ResponseEnvelope<A> as FromParts<A, ResponseEnvelopeParts<A>>>⟧.parts refl ⟦<ResponseEnvelope<A> as PartialEq>⟧.eq (λ x y e. e) };

    fn read<'b>(scope: &Scope<'b, A>, tag: u32, cursor: &mut Cursor<'b, A>) -> Step<Self, A> {
        read_structure::<ResponseEnvelopeParts<A>, Self, A>(scope, tag, true, cursor)
    }

    fn tell_parts<W: Walk<A>>(&self, state: &mut W::State) -> Result<(), AllocError> {
        W::two::<
            One<Of<EnvelopeHeader<A>, 0x42007A>>,
            Several<Of<ResponseEnvelopeItem<A>, 0x42000F>, 0x42000F>,
        >(state, &self.header, &self.items)
    }
}

impl<A: Allocator + Copy> Serialize for ResponseEnvelope<A> {
    ghost stated = { ⟦<Of<ResponseEnvelope<A>, 0x42007B> as Element<A>>⟧.rules.written };

    fn visit<V: Visitor>(&self, visitor: &mut V) -> Result<(), AllocError> {
        visit_structure(self, 0x42007B, visitor)
    }
}

impl<A: Allocator + Copy> Decode<A> for ResponseEnvelope<A> {
    ghost form = { ⟦<Of<ResponseEnvelope<A>, 0x42007B> as Element<A>>⟧.form };

    ghost is_value = { λ v x. v ≡ ⟦<Of<ResponseEnvelope<A>, 0x42007B> as Element<A>>⟧.value x };

    fn decode(alloc: A, bytes: &[u8]) -> Result<Self, Error<A>> {
        decode_structure::<ResponseEnvelopeParts<A>, Self, A>(alloc, 0x42007B, true, bytes)
    }
}

impl<A: Allocator + Copy> Sound for ResponseEnvelope<A> {
    ghost IsSound = { ⟦<Of<ResponseEnvelope<A>, 0x42007B> as Element<A>>⟧.rules.IsSound };

    fn is_sound(&self) -> bool {
        is_structure_whole(self)
    }
}

impl<A: Allocator + Copy> Message<A> for ResponseEnvelope<A> {
    fn comes_back() {
        structures_come_back::<ResponseEnvelope<A>, 0x42007B, A>();
    }
}
