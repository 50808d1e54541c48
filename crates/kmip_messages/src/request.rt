// Written by codegen from types.table: change that, and run codegen/codegen.
//! A request: what its items ask for (KMIP 1.0, section 7).

ghost use Rattle.std.specs.Prelude.{◌≡◌, refl, true};
ghost use Rattle.kmip_ttlv_parts.specs.Returns.{text_of_number};
ghost use Rattle.kmip_ttlv_kinds.specs.Parts.{structure, structure_where};
ghost use Rattle.kmip_requests.specs.Choices.{ChoosesRequestPayload};

use kmip_attributes::values::State;
use kmip_headers::header::{MessageExtension, Operation, RequestHeader};
use kmip_requests::request_payload::RequestPayload;
use kmip_ttlv::error::Error;
use kmip_ttlv::laws::{Message, Sound};
use kmip_ttlv::shape::{Decode, Serialize};
use kmip_ttlv_kinds::{
    Alone, Decided, Element, Four, FromParts, Holds, InBox, Maybe, MaybeLeaf, Of, One, OneOf,
    PartList, Several, Structure, Walk, decode_structure, is_structure_whole, read_structure,
    structures_come_back, visit_structure,
};
use kmip_ttlv_parts::Boxed;
use kmip_ttlv_parts::reader::{Cursor, Scope, Step};
use kmip_ttlv_parts::visit::Visitor;
use std::alloc::{AllocError, Allocator, Global};

/// One thing that is asked for (section 7.2).
#[derive(Drop)]
#[derive_where(PartialEq)]
pub struct RequestItem<A: Allocator = Global> {
    /// What is asked for.
    pub operation: Operation,
    /// What KMIP 2.0 calls Ephemeral.
    pub ephemeral: Option<bool>,
    /// What names the item, in a batch of several.
    pub unique_batch_item_id: Option<Vec<u8, A>>,
    /// What it needs.
    pub payload: RequestPayload<A>,
    /// What a vendor adds.
    pub message_extension: Option<Boxed<MessageExtension<A>, A>>,
}

impl<A: Allocator> Decided for RequestItem<A> {
    ghost IsDecided = { λ x. (ChoosesRequestPayload (text_of_number x.operation.number) x.payload) };

    fn is_decided(&self) -> bool {
        self.payload
            .is_chosen_by(self.operation.number_text().as_str())
    }
}

type RequestItemFirst<A> = (
    One<Operation>,
    MaybeLeaf<bool, 0x420154>,
    MaybeLeaf<Vec<u8, A>, 0x420093>,
    OneOf<RequestPayload<A>, 0x420079>,
);

type RequestItemSecond<A> = Alone<Maybe<InBox<Of<MessageExtension<A>, 0x420051>>, 0x420051>>;

type RequestItemParts<A> = Four<RequestItemFirst<A>, RequestItemSecond<A>>;

impl<A: Allocator + Copy> FromParts<A, RequestItemParts<A>> for RequestItem<A> {
    ghost parts = { λ x. (x.operation, x.ephemeral, x.unique_batch_item_id, x.payload, x.message_extension) };

    fn from_parts(
        (operation, ephemeral, unique_batch_item_id, payload, message_extension): Holds<
            RequestItemParts<A>,
            A,
        >,
    ) -> Self {
        RequestItem {
            operation,
            ephemeral,
            unique_batch_item_id,
            payload,
            message_extension,
        }
    }
}

impl<A: Allocator + Copy> Structure<A> for RequestItem<A> {
    ghost rules = { structure_where true ⟦<RequestItemParts<A> as PartList<A>>⟧.rules ⟦<RequestItem<A> as FromParts<A, RequestItemParts<A>>>⟧.parts refl
        (λ x. (ChoosesRequestPayload (text_of_number x.operation.number) x.payload)) (λ x d. (tt, (tt, (tt, (d, (tt)))))) ⟦<RequestItem<A> as PartialEq>⟧.eq (λ x y e. e) };

    fn read<'b>(scope: &Scope<'b, A>, tag: u32, cursor: &mut Cursor<'b, A>) -> Step<Self, A> {
        read_structure::<RequestItemParts<A>, Self, A>(scope, tag, true, cursor)
    }

    fn tell_parts<W: Walk<A>>(&self, state: &mut W::State) -> Result<(), AllocError> {
        W::four::<
            One<Operation>,
            MaybeLeaf<bool, 0x420154>,
            MaybeLeaf<Vec<u8, A>, 0x420093>,
            OneOf<RequestPayload<A>, 0x420079>,
        >(
            state,
            &self.operation,
            &self.ephemeral,
            &self.unique_batch_item_id,
            &self.payload,
        )?;
        W::one::<Maybe<InBox<Of<MessageExtension<A>, 0x420051>>, 0x420051>>(
            state,
            &self.message_extension,
        )?;
        W::check(state, self);
        Ok(())
    }
}

/// A request (section 7.1).
#[derive(Drop)]
#[derive_where(PartialEq)]
pub struct Request<A: Allocator = Global> {
    /// What it begins with.
    pub header: RequestHeader<A>,
    /// One or more.
    pub items: Vec<RequestItem<A>, A>,
}

type RequestParts<A> = (
    One<Of<RequestHeader<A>, 0x420077>>,
    Several<Of<RequestItem<A>, 0x42000F>, 0x42000F>,
);

impl<A: Allocator + Copy> FromParts<A, RequestParts<A>> for Request<A> {
    ghost parts = { λ x. (x.header, x.items) };

    fn from_parts((header, items): Holds<RequestParts<A>, A>) -> Self {
        Request { header, items }
    }
}

impl<A: Allocator + Copy> Structure<A> for Request<A> {
    ghost rules = { structure true ⟦<RequestParts<A> as PartList<A>>⟧.rules ⟦<Request<A> as FromParts<A, RequestParts<A>>>⟧.parts refl ⟦<Request<A> as PartialEq>⟧.eq (λ x y e. e) };

    fn read<'b>(scope: &Scope<'b, A>, tag: u32, cursor: &mut Cursor<'b, A>) -> Step<Self, A> {
        read_structure::<RequestParts<A>, Self, A>(scope, tag, true, cursor)
    }

    fn tell_parts<W: Walk<A>>(&self, state: &mut W::State) -> Result<(), AllocError> {
        W::two::<
            One<Of<RequestHeader<A>, 0x420077>>,
            Several<Of<RequestItem<A>, 0x42000F>, 0x42000F>,
        >(state, &self.header, &self.items)
    }
}

impl<A: Allocator + Copy> Serialize for Request<A> {
    ghost stated = { ⟦<Of<Request<A>, 0x420078> as Element<A>>⟧.rules.written };

    fn visit<V: Visitor>(&self, visitor: &mut V) -> Result<(), AllocError> {
        visit_structure(self, 0x420078, visitor)
    }
}

impl<A: Allocator + Copy> Decode<A> for Request<A> {
    ghost form = { ⟦<Of<Request<A>, 0x420078> as Element<A>>⟧.form };

    ghost is_value = { λ v x. v ≡ ⟦<Of<Request<A>, 0x420078> as Element<A>>⟧.value x };

    fn decode(alloc: A, bytes: &[u8]) -> Result<Self, Error<A>> {
        decode_structure::<RequestParts<A>, Self, A>(alloc, 0x420078, true, bytes)
    }
}

impl<A: Allocator + Copy> Sound for Request<A> {
    ghost IsSound = { ⟦<Of<Request<A>, 0x420078> as Element<A>>⟧.rules.IsSound };

    fn is_sound(&self) -> bool {
        is_structure_whole(self)
    }
}

impl<A: Allocator + Copy> Message<A> for Request<A> {
    fn comes_back() {
        structures_come_back::<Request<A>, 0x420078, A>();
    }
}
