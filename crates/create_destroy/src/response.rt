// Written by codegen from types.table: change that, and run codegen/codegen.
//! Responses on symmetric keys that were created or destroyed.

ghost use Rattle.std.specs.Prelude.{◌↔◌, ◌+◌, IsTrue, false, refl, true};
ghost use Rattle.kmip_ttlv_kinds.specs.Parts.{structure, structure_where};
ghost use Rattle.kmip_ttlv_kinds.specs.Choices.{held};
ghost use Rattle.create_destroy.specs.Choices.{response_payload_choice, ChoosesResponsePayload};
ghost use Rattle.create_destroy.specs.Listed.{operation_number};
ghost use Rattle.create_destroy.specs.Listed.{created_object_type_is_unit, created_object_type_number, created_object_type_variants};
ghost use Rattle.create_destroy.specs.declared.response.CreatedObjectType.TheVariants as created_object_type;
ghost use Rattle.create_destroy.specs.Listed.{response_item_result_status_is_unit, response_item_result_status_number, response_item_result_status_variants};
ghost use Rattle.create_destroy.specs.declared.response.ResponseItemResultStatus.TheVariants as response_item_result_status;

use crate::operation::Operation;
use kmip_ttlv_kinds::{
    Alone, Choice, Decided, Element, FromParts, Holds, Inside, Leaf, Listed, ListedItem, One,
    OneOf, PartList, Structure, Walk, Wrapper, read_structure,
};
use kmip_ttlv_parts::reader::{Cursor, RuleParts, Scope, Step};
use std::alloc::{AllocError, Allocator, Global};

/// The payload on a key that was made.
#[derive(Drop)]
#[derive_where(PartialEq)]
pub struct Created<A: Allocator = Global> {
    /// The identifier of the key.
    pub unique_identifier: String<A>,
}

/// What `object_type` of a `Created` always is.
#[derive(Clone, Copy, PartialEq, Eq)]
pub enum CreatedObjectType {
    /// The number.
    Only,
}

// Each number, and what it stands for.
const CREATED_OBJECT_TYPE: [(&str, CreatedObjectType); 1] = [(
    "0x00000002",
    CreatedObjectType::Only,
)];

impl Listed for CreatedObjectType {
    ghost tag = { 0x420057 };

    ghost variants = { created_object_type_variants };

    ghost rules = { record {
      number = created_object_type_number;
      units = created_object_type_is_unit;
      eq = λ x y. true;
      same = λ x y e. refl;
    } };

    fn table() -> &'static [(&'static str, Self)] {
        &CREATED_OBJECT_TYPE
    }

    fn tag() -> u32 {
        0x420057
    }

    #[tactic(auto, unfolding(kmip_ttlv_types::specs::Digits::six_digits))]
    fn name() -> &'static str {
        "0x420057"
    }

    fn number_text(self) -> &'static str {
        match self {
            CreatedObjectType::Only => "0x00000002",
        }
    }
}

type CreatedParts<A> = (
    One<ListedItem<CreatedObjectType>>,
    Leaf<String<A>, 0x420094>,
);

impl<A: Allocator + Copy> FromParts<A, CreatedParts<A>> for Created<A> {
    ghost parts = { λ x. (created_object_type.Only, x.unique_identifier) };

    fn from_parts((_, unique_identifier): Holds<CreatedParts<A>, A>) -> Self {
        Created { unique_identifier }
    }
}

impl<A: Allocator + Copy> Structure<A> for Created<A> {
    ghost rules = { structure false ⟦<CreatedParts<A> as PartList<A>>⟧.rules ⟦<Created<A> as FromParts<A, CreatedParts<A>>>⟧.parts refl ⟦<Created<A> as PartialEq>⟧.eq (λ x y e. e) };

    fn read<'b>(scope: &Scope<'b, A>, tag: u32, cursor: &mut Cursor<'b, A>) -> Step<Self, A> {
        read_structure::<CreatedParts<A>, Self, A>(scope, tag, false, cursor)
    }

    fn tell_parts<W: Walk<A>>(&self, state: &mut W::State) -> Result<(), AllocError> {
        Self::tell_inner::<W>(&self.unique_identifier, state)
    }
}

impl<A: Allocator + Copy> Wrapper<String<A>, A> for Created<A> {
    ghost wrap = { λ x. record { unique_identifier = x } };

    fn into_inner(self) -> String<A> {
        self.unique_identifier
    }

    fn tell_inner<W: Walk<A>>(inner: &String<A>, state: &mut W::State) -> Result<(), AllocError> {
        W::two::<One<ListedItem<CreatedObjectType>>, Leaf<String<A>, 0x420094>>(
            state,
            &CreatedObjectType::Only,
            inner,
        )
    }
}

/// The payload on a key that was destroyed.
#[derive(Drop)]
#[derive_where(PartialEq)]
pub struct Destroyed<A: Allocator = Global> {
    /// The identifier of the key.
    pub unique_identifier: String<A>,
}

type DestroyedParts<A> = Alone<Leaf<String<A>, 0x420094>>;

impl<A: Allocator + Copy> FromParts<A, DestroyedParts<A>> for Destroyed<A> {
    ghost parts = { λ x. x.unique_identifier };

    fn from_parts(unique_identifier: Holds<DestroyedParts<A>, A>) -> Self {
        Destroyed { unique_identifier }
    }
}

impl<A: Allocator + Copy> Structure<A> for Destroyed<A> {
    ghost rules = { structure false ⟦<DestroyedParts<A> as PartList<A>>⟧.rules ⟦<Destroyed<A> as FromParts<A, DestroyedParts<A>>>⟧.parts refl ⟦<Destroyed<A> as PartialEq>⟧.eq (λ x y e. e) };

    fn read<'b>(scope: &Scope<'b, A>, tag: u32, cursor: &mut Cursor<'b, A>) -> Step<Self, A> {
        read_structure::<DestroyedParts<A>, Self, A>(scope, tag, false, cursor)
    }

    fn tell_parts<W: Walk<A>>(&self, state: &mut W::State) -> Result<(), AllocError> {
        Self::tell_inner::<W>(&self.unique_identifier, state)
    }
}

impl<A: Allocator + Copy> Wrapper<String<A>, A> for Destroyed<A> {
    ghost wrap = { λ x. record { unique_identifier = x } };

    fn into_inner(self) -> String<A> {
        self.unique_identifier
    }

    fn tell_inner<W: Walk<A>>(inner: &String<A>, state: &mut W::State) -> Result<(), AllocError> {
        W::one::<Leaf<String<A>, 0x420094>>(state, inner)
    }
}

/// What was done.
#[derive(Drop)]
#[derive_where(PartialEq)]
pub enum ResponsePayload<A: Allocator = Global> {
    /// The key of this identifier was made.
    Create(String<A>),
    /// The key of this identifier was destroyed.
    Destroy(String<A>),
}

impl<A: Allocator> ResponsePayload<A> {
    /// Whether this text, if it is that of 0x42005C, chooses it.
    pub fn is_chosen_by(&self, text: &str) -> bool
        ensures { IsTrue result ↔ ChoosesResponsePayload text.now self.now }
    {
        match self {
            ResponsePayload::Create(_) => text == "0x00000001",
            ResponsePayload::Destroy(_) => text == "0x00000014",
        }
    }
}

// The rules of the variants, in their order.
const RESPONSE_PAYLOAD_RULES: [RuleParts; 2] = [
    RuleParts::Texts {
        tag: 0x42005C,
        texts: &["0x00000001"],
    },
    RuleParts::Texts {
        tag: 0x42005C,
        texts: &["0x00000014"],
    },
];

impl<A: Allocator + Copy> Choice<A> for ResponsePayload<A> {
    ghost chosen = { response_payload_choice ⟦<ResponsePayload<A> as PartialEq>⟧.eq record {
      create = held ⟦<Inside<Created<A>, String<A>, 0x42007C> as Element<A>>⟧.rules refl refl (λ x y e. e);
      destroy = held ⟦<Inside<Destroyed<A>, String<A>, 0x42007C> as Element<A>>⟧.rules refl refl (λ x y e. e);
    } };

    #[tactic(auto, unfolding(kmip_ttlv_reader::specs::RuleParts::parts_of, kmip_ttlv_reader::specs::RuleParts::equal_sides))]
    fn variant_rules() -> &'static [RuleParts] {
        &RESPONSE_PAYLOAD_RULES
    }

    fn read_held<'b>(
        scope: &Scope<'b, A>,
        cursor: &mut Cursor<'b, A>,
        place: usize,
    ) -> Step<Self, A> {
        match place {
            0 => Ok(ResponsePayload::Create(<Inside<Created<A>, String<A>, 0x42007C> as Element<
                A,
            >>::read_one(scope, cursor)?)),
            1 => Ok(ResponsePayload::Destroy(<Inside<Destroyed<A>, String<A>, 0x42007C> as Element<
                A,
            >>::read_one(scope, cursor)?)),
            _ => unreachable!(),
        }
    }

    fn tell_held<W: Walk<A>>(&self, state: &mut W::State) -> Result<(), AllocError> {
        match self {
            ResponsePayload::Create(inner) => W::item::<Inside<Created<A>, String<A>, 0x42007C>>(
                state, inner,
            ),
            ResponsePayload::Destroy(inner) => W::item::<Inside<Destroyed<A>, String<A>, 0x42007C>>(
                state, inner,
            ),
        }
    }
}

/// One thing that was done.
#[derive(Drop)]
#[derive_where(PartialEq)]
pub struct ResponseItem<A: Allocator = Global> {
    /// What was asked for.
    pub operation: Operation,
    /// What was done.
    pub payload: ResponsePayload<A>,
}

/// What `result_status` of a `ResponseItem` always is.
#[derive(Clone, Copy, PartialEq, Eq)]
pub enum ResponseItemResultStatus {
    /// The number.
    Only,
}

// Each number, and what it stands for.
const RESPONSE_ITEM_RESULT_STATUS: [(&str, ResponseItemResultStatus); 1] = [(
    "0x00000000",
    ResponseItemResultStatus::Only,
)];

impl Listed for ResponseItemResultStatus {
    ghost tag = { 0x42007F };

    ghost variants = { response_item_result_status_variants };

    ghost rules = { record {
      number = response_item_result_status_number;
      units = response_item_result_status_is_unit;
      eq = λ x y. true;
      same = λ x y e. refl;
    } };

    fn table() -> &'static [(&'static str, Self)] {
        &RESPONSE_ITEM_RESULT_STATUS
    }

    fn tag() -> u32 {
        0x42007F
    }

    #[tactic(auto, unfolding(kmip_ttlv_types::specs::Digits::six_digits))]
    fn name() -> &'static str {
        "0x42007F"
    }

    fn number_text(self) -> &'static str {
        match self {
            ResponseItemResultStatus::Only => "0x00000000",
        }
    }
}

impl<A: Allocator> Decided for ResponseItem<A> {
    ghost IsDecided = { λ x. (ChoosesResponsePayload (operation_number x.operation) x.payload) };

    fn is_decided(&self) -> bool {
        self.payload.is_chosen_by(self.operation.number_text())
    }
}

type ResponseItemParts<A> = (
    One<ListedItem<Operation>>,
    One<ListedItem<ResponseItemResultStatus>>,
    OneOf<ResponsePayload<A>, 0x42007C>,
);

impl<A: Allocator + Copy> FromParts<A, ResponseItemParts<A>> for ResponseItem<A> {
    ghost parts = { λ x. (x.operation, response_item_result_status.Only, x.payload) };

    fn from_parts((operation, _, payload): Holds<ResponseItemParts<A>, A>) -> Self {
        ResponseItem { operation, payload }
    }
}

impl<A: Allocator + Copy> Structure<A> for ResponseItem<A> {
    ghost rules = { structure_where false ⟦<ResponseItemParts<A> as PartList<A>>⟧.rules ⟦<ResponseItem<A> as FromParts<A, ResponseItemParts<A>>>⟧.parts refl
        (λ x. (ChoosesResponsePayload (operation_number x.operation) x.payload)) (λ x d. (tt, (tt, (d)))) ⟦<ResponseItem<A> as PartialEq>⟧.eq (λ x y e. e) };

    fn read<'b>(scope: &Scope<'b, A>, tag: u32, cursor: &mut Cursor<'b, A>) -> Step<Self, A> {
        read_structure::<ResponseItemParts<A>, Self, A>(scope, tag, false, cursor)
    }

    fn tell_parts<W: Walk<A>>(&self, state: &mut W::State) -> Result<(), AllocError> {
        W::three::<
            One<ListedItem<Operation>>,
            One<ListedItem<ResponseItemResultStatus>>,
            OneOf<ResponsePayload<A>, 0x42007C>,
        >(
            state,
            &self.operation,
            &ResponseItemResultStatus::Only,
            &self.payload,
        )?;
        W::check(state, self);
        Ok(())
    }
}
