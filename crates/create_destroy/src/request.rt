// Written by codegen from types.table: change that, and run codegen/codegen.
//! Requests to create and destroy symmetric keys.

ghost use Rattle.std.specs.Prelude.{◌↔◌, ◌+◌, IsTrue, false, refl, true};
ghost use Rattle.kmip_ttlv_kinds.specs.Parts.{structure, structure_where};
ghost use Rattle.kmip_ttlv_kinds.specs.Choices.{held};
ghost use Rattle.create_destroy.specs.Choices.{request_payload_choice, ChoosesRequestPayload};
ghost use Rattle.create_destroy.specs.Listed.{operation_number};
ghost use Rattle.create_destroy.specs.Listed.{create_payload_object_type_is_unit, create_payload_object_type_number, create_payload_object_type_variants};
ghost use Rattle.create_destroy.specs.declared.request.CreatePayloadObjectType.TheVariants as create_payload_object_type;

use crate::attribute::{Attribute, Template};
use crate::operation::Operation;
use kmip_ttlv_kinds::{
    Alone, Choice, Decided, Element, FromParts, Holds, Inside, Leaf, Listed, ListedItem, One,
    OneOf, PartList, Structure, Walk, Wrapper, read_structure,
};
use kmip_ttlv_parts::reader::{Cursor, RuleParts, Scope, Step};
use std::alloc::{AllocError, Allocator, Global};

/// The payload that asks for a key.
#[derive(Drop)]
#[derive_where(PartialEq)]
pub struct CreatePayload<A: Allocator = Global> {
    /// What the key is to be.
    pub attributes: Vec<Attribute<A>, A>,
}

/// What `object_type` of a `CreatePayload` always is.
#[derive(Clone, Copy, PartialEq, Eq)]
pub enum CreatePayloadObjectType {
    /// The number.
    Only,
}

// Each number, and what it stands for.
const CREATE_PAYLOAD_OBJECT_TYPE: [(&str, CreatePayloadObjectType); 1] = [(
    "0x00000002",
    CreatePayloadObjectType::Only,
)];

impl Listed for CreatePayloadObjectType {
    ghost tag = { 0x420057 };

    ghost variants = { create_payload_object_type_variants };

    ghost rules = { record {
      number = create_payload_object_type_number;
      units = create_payload_object_type_is_unit;
      eq = λ x y. true;
      same = λ x y e. refl;
    } };

    fn table() -> &'static [(&'static str, Self)] {
        &CREATE_PAYLOAD_OBJECT_TYPE
    }

    fn tag() -> u32 {
        0x420057
    }

    #[tactic(auto, unfolding(kmip_ttlv_types::specs::Digits::six_digits))]
    fn name() -> &'static str {
        "0x420057"
    }

    fn number_text(self) -> &'static str {
        match self {
            CreatePayloadObjectType::Only => "0x00000002",
        }
    }
}

type CreatePayloadParts<A> = (
    One<ListedItem<CreatePayloadObjectType>>,
    One<Inside<Template<A>, Vec<Attribute<A>, A>, 0x420091>>,
);

impl<A: Allocator + Copy> FromParts<A, CreatePayloadParts<A>> for CreatePayload<A> {
    ghost parts = { λ x. (create_payload_object_type.Only, x.attributes) };

    fn from_parts((_, attributes): Holds<CreatePayloadParts<A>, A>) -> Self {
        CreatePayload { attributes }
    }
}

impl<A: Allocator + Copy> Structure<A> for CreatePayload<A> {
    ghost rules = { structure false ⟦<CreatePayloadParts<A> as PartList<A>>⟧.rules ⟦<CreatePayload<A> as FromParts<A, CreatePayloadParts<A>>>⟧.parts refl ⟦<CreatePayload<A> as PartialEq>⟧.eq (λ x y e. e) };

    fn read<'b>(scope: &Scope<'b, A>, tag: u32, cursor: &mut Cursor<'b, A>) -> Step<Self, A> {
        read_structure::<CreatePayloadParts<A>, Self, A>(scope, tag, false, cursor)
    }

    fn tell_parts<W: Walk<A>>(&self, state: &mut W::State) -> Result<(), AllocError> {
        Self::tell_inner::<W>(&self.attributes, state)
    }
}

impl<A: Allocator + Copy> Wrapper<Vec<Attribute<A>, A>, A> for CreatePayload<A> {
    ghost wrap = { λ x. record { attributes = x } };

    fn into_inner(self) -> Vec<Attribute<A>, A> {
        self.attributes
    }

    fn tell_inner<W: Walk<A>>(
        inner: &Vec<Attribute<A>, A>,
        state: &mut W::State,
    ) -> Result<(), AllocError> {
        W::two::<
            One<ListedItem<CreatePayloadObjectType>>,
            One<Inside<Template<A>, Vec<Attribute<A>, A>, 0x420091>>,
        >(state, &CreatePayloadObjectType::Only, inner)
    }
}

/// The payload that destroys a key.
#[derive(Drop)]
#[derive_where(PartialEq)]
pub struct DestroyPayload<A: Allocator = Global> {
    /// The identifier of the key.
    pub unique_identifier: String<A>,
}

type DestroyPayloadParts<A> = Alone<Leaf<String<A>, 0x420094>>;

impl<A: Allocator + Copy> FromParts<A, DestroyPayloadParts<A>> for DestroyPayload<A> {
    ghost parts = { λ x. x.unique_identifier };

    fn from_parts(unique_identifier: Holds<DestroyPayloadParts<A>, A>) -> Self {
        DestroyPayload { unique_identifier }
    }
}

impl<A: Allocator + Copy> Structure<A> for DestroyPayload<A> {
    ghost rules = { structure false ⟦<DestroyPayloadParts<A> as PartList<A>>⟧.rules ⟦<DestroyPayload<A> as FromParts<A, DestroyPayloadParts<A>>>⟧.parts refl ⟦<DestroyPayload<A> as PartialEq>⟧.eq (λ x y e. e) };

    fn read<'b>(scope: &Scope<'b, A>, tag: u32, cursor: &mut Cursor<'b, A>) -> Step<Self, A> {
        read_structure::<DestroyPayloadParts<A>, Self, A>(scope, tag, false, cursor)
    }

    fn tell_parts<W: Walk<A>>(&self, state: &mut W::State) -> Result<(), AllocError> {
        Self::tell_inner::<W>(&self.unique_identifier, state)
    }
}

impl<A: Allocator + Copy> Wrapper<String<A>, A> for DestroyPayload<A> {
    ghost wrap = { λ x. record { unique_identifier = x } };

    fn into_inner(self) -> String<A> {
        self.unique_identifier
    }

    fn tell_inner<W: Walk<A>>(inner: &String<A>, state: &mut W::State) -> Result<(), AllocError> {
        W::one::<Leaf<String<A>, 0x420094>>(state, inner)
    }
}

/// What an operation needs.
#[derive(Drop)]
#[derive_where(PartialEq)]
pub enum RequestPayload<A: Allocator = Global> {
    /// A key with these attributes is to be made.
    Create(Vec<Attribute<A>, A>),
    /// The key of this identifier is to be destroyed.
    Destroy(String<A>),
}

impl<A: Allocator> RequestPayload<A> {
    /// Whether this text, if it is that of 0x42005C, chooses it.
    pub fn is_chosen_by(&self, text: &str) -> bool
        ensures { IsTrue result ↔ ChoosesRequestPayload text.now self.now }
    {
        match self {
            RequestPayload::Create(_) => text == "0x00000001",
            RequestPayload::Destroy(_) => text == "0x00000014",
        }
    }
}

// The rules of the variants, in their order.
const REQUEST_PAYLOAD_RULES: [RuleParts; 2] = [
    RuleParts::Texts {
        tag: 0x42005C,
        texts: &["0x00000001"],
    },
    RuleParts::Texts {
        tag: 0x42005C,
        texts: &["0x00000014"],
    },
];

impl<A: Allocator + Copy> Choice<A> for RequestPayload<A> {
    ghost chosen = { request_payload_choice ⟦<RequestPayload<A> as PartialEq>⟧.eq record {
      create = held ⟦<Inside<CreatePayload<A>, Vec<Attribute<A>, A>, 0x420079> as Element<A>>⟧.rules refl refl (λ x y e. e);
      destroy = held ⟦<Inside<DestroyPayload<A>, String<A>, 0x420079> as Element<A>>⟧.rules refl refl (λ x y e. e);
    } };

    #[tactic(auto, unfolding(kmip_ttlv_reader::specs::RuleParts::parts_of, kmip_ttlv_reader::specs::RuleParts::equal_sides))]
    fn variant_rules() -> &'static [RuleParts] {
        &REQUEST_PAYLOAD_RULES
    }

    fn read_held<'b>(
        scope: &Scope<'b, A>,
        cursor: &mut Cursor<'b, A>,
        place: usize,
    ) -> Step<Self, A> {
        match place {
            0 => Ok(RequestPayload::Create(<Inside<
                CreatePayload<A>,
                Vec<Attribute<A>, A>,
                0x420079,
            > as Element<A>>::read_one(scope, cursor)?)),
            1 => Ok(RequestPayload::Destroy(<Inside<
                DestroyPayload<A>,
                String<A>,
                0x420079,
            > as Element<A>>::read_one(scope, cursor)?)),
            _ => unreachable!(),
        }
    }

    fn tell_held<W: Walk<A>>(&self, state: &mut W::State) -> Result<(), AllocError> {
        match self {
            RequestPayload::Create(inner) => W::item::<
                Inside<CreatePayload<A>, Vec<Attribute<A>, A>, 0x420079>,
            >(state, inner),
            RequestPayload::Destroy(inner) => W::item::<
                Inside<DestroyPayload<A>, String<A>, 0x420079>,
            >(state, inner),
        }
    }
}

/// One thing that is asked for.
#[derive(Drop)]
#[derive_where(PartialEq)]
pub struct RequestItem<A: Allocator = Global> {
    /// What is asked for.
    pub operation: Operation,
    /// What it needs.
    pub payload: RequestPayload<A>,
}

impl<A: Allocator> Decided for RequestItem<A> {
    ghost IsDecided = { λ x. (ChoosesRequestPayload (operation_number x.operation) x.payload) };

    fn is_decided(&self) -> bool {
        self.payload.is_chosen_by(self.operation.number_text())
    }
}

type RequestItemParts<A> = (
    One<ListedItem<Operation>>,
    OneOf<RequestPayload<A>, 0x420079>,
);

impl<A: Allocator + Copy> FromParts<A, RequestItemParts<A>> for RequestItem<A> {
    ghost parts = { λ x. (x.operation, x.payload) };

    fn from_parts((operation, payload): Holds<RequestItemParts<A>, A>) -> Self {
        RequestItem { operation, payload }
    }
}

impl<A: Allocator + Copy> Structure<A> for RequestItem<A> {
    ghost rules = { structure_where false ⟦<RequestItemParts<A> as PartList<A>>⟧.rules ⟦<RequestItem<A> as FromParts<A, RequestItemParts<A>>>⟧.parts refl
        (λ x. (ChoosesRequestPayload (operation_number x.operation) x.payload)) (λ x d. (tt, (d))) ⟦<RequestItem<A> as PartialEq>⟧.eq (λ x y e. e) };

    fn read<'b>(scope: &Scope<'b, A>, tag: u32, cursor: &mut Cursor<'b, A>) -> Step<Self, A> {
        read_structure::<RequestItemParts<A>, Self, A>(scope, tag, false, cursor)
    }

    fn tell_parts<W: Walk<A>>(&self, state: &mut W::State) -> Result<(), AllocError> {
        W::two::<One<ListedItem<Operation>>, OneOf<RequestPayload<A>, 0x420079>>(
            state,
            &self.operation,
            &self.payload,
        )?;
        W::check(state, self);
        Ok(())
    }
}
