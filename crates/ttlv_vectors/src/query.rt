// Written by codegen from types.table: change that, and run codegen/codegen.
//! A search for objects, what a server can do, and what failed (KMIP 1.0, sections 4.8, 4.24 and 7).

ghost use Rattle.std.specs.Prelude.{◌≡◌, false, refl};
ghost use denote.Enum.Bare.{true_same};
ghost use Rattle.kmip_ttlv_kinds.specs.Parts.{structure};
ghost use Rattle.ttlv_vectors.specs.Listed.{object_type_is_unit, object_type_number, object_type_same, object_type_variants};
ghost use Rattle.ttlv_vectors.specs.contracts.query.ObjectType as object_type_contract;
ghost use Rattle.ttlv_vectors.specs.Listed.{result_status_is_unit, result_status_number, result_status_same, result_status_variants};
ghost use Rattle.ttlv_vectors.specs.contracts.query.ResultStatus as result_status_contract;

use kmip_ttlv::error::Error;
use kmip_ttlv::laws::{Message, Sound};
use kmip_ttlv::shape::{Decode, Serialize};
use kmip_ttlv_kinds::{
    Any, Element, FromParts, Holds, Leaf, LeafItem, Listed, ListedItem, Maybe, MaybeLeaf, Of, One,
    PartList, Structure, Walk, decode_structure, is_structure_whole, read_structure,
    structures_come_back, visit_structure,
};
use kmip_ttlv_parts::Enumeration;
use kmip_ttlv_parts::reader::{Cursor, Scope, Step};
use kmip_ttlv_parts::visit::Visitor;
use std::alloc::{AllocError, Allocator, Global};

/// An attribute whose value is a text.
#[derive(Drop)]
#[derive_where(PartialEq)]
pub struct TextAttribute<A: Allocator = Global> {
    /// Its name.
    pub name: String<A>,
    /// What it says.
    pub value: String<A>,
}

type TextAttributeParts<A> = (Leaf<String<A>, 0x42000A>, Leaf<String<A>, 0x42000B>);

impl<A: Allocator + Copy> FromParts<A, TextAttributeParts<A>> for TextAttribute<A> {
    ghost parts = { λ x. (x.name, x.value) };

    fn from_parts((name, value): Holds<TextAttributeParts<A>, A>) -> Self {
        TextAttribute { name, value }
    }
}

impl<A: Allocator + Copy> Structure<A> for TextAttribute<A> {
    ghost rules = { structure false ⟦<TextAttributeParts<A> as PartList<A>>⟧.rules ⟦<TextAttribute<A> as FromParts<A, TextAttributeParts<A>>>⟧.parts refl ⟦<TextAttribute<A> as PartialEq>⟧.eq (λ x y e. e) };

    fn read<'b>(scope: &Scope<'b, A>, tag: u32, cursor: &mut Cursor<'b, A>) -> Step<Self, A> {
        read_structure::<TextAttributeParts<A>, Self, A>(scope, tag, false, cursor)
    }

    fn tell_parts<W: Walk<A>>(&self, state: &mut W::State) -> Result<(), AllocError> {
        W::two::<Leaf<String<A>, 0x42000A>, Leaf<String<A>, 0x42000B>>(
            state,
            &self.name,
            &self.value,
        )
    }
}

/// Which objects are sought.
#[derive(Drop)]
#[derive_where(PartialEq)]
pub struct LocateRequestPayload<A: Allocator = Global> {
    /// How many at most.
    pub maximum_items: Option<i32>,
    /// What each of them has; without any, all objects are sought.
    pub attributes: Vec<TextAttribute<A>, A>,
}

type LocateRequestPayloadParts<A> = (
    MaybeLeaf<i32, 0x42004F>,
    Any<Of<TextAttribute<A>, 0x420008>, 0x420008>,
);

impl<A: Allocator + Copy> FromParts<A, LocateRequestPayloadParts<A>> for LocateRequestPayload<A> {
    ghost parts = { λ x. (x.maximum_items, x.attributes) };

    fn from_parts((maximum_items, attributes): Holds<LocateRequestPayloadParts<A>, A>) -> Self {
        LocateRequestPayload {
            maximum_items,
            attributes,
        }
    }
}

impl<A: Allocator + Copy> Structure<A> for LocateRequestPayload<A> {
    ghost rules = { structure false ⟦<LocateRequestPayloadParts<A> as PartList<A>>⟧.rules ⟦<LocateRequestPayload<A> as FromParts<A, LocateRequestPayloadParts<A>>>⟧.parts refl ⟦<LocateRequestPayload<A> as PartialEq>⟧.eq (λ x y e. e) };

    fn read<'b>(scope: &Scope<'b, A>, tag: u32, cursor: &mut Cursor<'b, A>) -> Step<Self, A> {
        read_structure::<LocateRequestPayloadParts<A>, Self, A>(scope, tag, false, cursor)
    }

    fn tell_parts<W: Walk<A>>(&self, state: &mut W::State) -> Result<(), AllocError> {
        W::two::<MaybeLeaf<i32, 0x42004F>, Any<Of<TextAttribute<A>, 0x420008>, 0x420008>>(
            state,
            &self.maximum_items,
            &self.attributes,
        )
    }
}

impl<A: Allocator + Copy> Serialize for LocateRequestPayload<A> {
    ghost stated = { ⟦<Of<LocateRequestPayload<A>, 0x420079> as Element<A>>⟧.rules.written };

    fn visit<V: Visitor>(&self, visitor: &mut V) -> Result<(), AllocError> {
        visit_structure(self, 0x420079, visitor)
    }
}

impl<A: Allocator + Copy> Decode<A> for LocateRequestPayload<A> {
    ghost form = { ⟦<Of<LocateRequestPayload<A>, 0x420079> as Element<A>>⟧.form };

    ghost is_value = { λ v x. v ≡ ⟦<Of<LocateRequestPayload<A>, 0x420079> as Element<A>>⟧.value x };

    fn decode(alloc: A, bytes: &[u8]) -> Result<Self, Error<A>> {
        decode_structure::<LocateRequestPayloadParts<A>, Self, A>(alloc, 0x420079, false, bytes)
    }
}

impl<A: Allocator + Copy> Sound for LocateRequestPayload<A> {
    ghost IsSound = { ⟦<Of<LocateRequestPayload<A>, 0x420079> as Element<A>>⟧.rules.IsSound };

    fn is_sound(&self) -> bool {
        is_structure_whole(self)
    }
}

impl<A: Allocator + Copy> Message<A> for LocateRequestPayload<A> {
    fn comes_back() {
        structures_come_back::<LocateRequestPayload<A>, 0x420079, A>();
    }
}

/// What a request asks for (KMIP 1.0, section 9.1.3.2.26).
pub type Operation = Enumeration<0x42005C>;

/// The numbers of `Operation` that have a name.
pub mod operation {
    use super::Operation;

    /// Objects are sought.
    pub const LOCATE: Operation = Operation { number: 0x00000008 };
    /// An object is to be got.
    pub const GET: Operation = Operation { number: 0x0000000A };
    /// The server is to say what it can do.
    pub const QUERY: Operation = Operation { number: 0x00000018 };
}

/// What an object is (KMIP 1.0, section 9.1.3.2).
#[derive(Clone, Copy, Debug, PartialEq, Eq)]
pub enum ObjectType {
    /// A certificate.
    Certificate,
    /// A symmetric key.
    SymmetricKey,
}

// Each number, and what it stands for.
const OBJECT_TYPE: [(&str, ObjectType); 2] = [
    ("0x00000001", ObjectType::Certificate),
    ("0x00000002", ObjectType::SymmetricKey),
];

impl Listed for ObjectType {
    ghost tag = { 0x420057 };

    ghost variants = { object_type_variants };

    ghost rules = { record {
      number = object_type_number;
      units = object_type_is_unit;
      eq = ⟦<ObjectType as PartialEq>⟧.eq;
      same = λ x y e. true_same object_type_contract.the_type x y (object_type_same x y e);
    } };

    fn table() -> &'static [(&'static str, Self)] {
        &OBJECT_TYPE
    }

    fn tag() -> u32 {
        0x420057
    }

    #[tactic(auto, unfolding(kmip_ttlv_types::specs::Digits::six_digits))]
    fn name() -> &'static str {
        "0x420057"
    }

    fn number_text(self) -> &'static str {
        match self {
            ObjectType::Certificate => "0x00000001",
            ObjectType::SymmetricKey => "0x00000002",
        }
    }
}

/// What a server can do: of each only what the request asked for.
#[derive(Drop)]
#[derive_where(PartialEq)]
pub struct QueryResponsePayload<A: Allocator = Global> {
    /// The operations that it has.
    pub operations: Vec<Operation, A>,
    /// The kinds of objects that it keeps.
    pub object_types: Vec<ObjectType, A>,
    /// Who made it.
    pub vendor: Option<String<A>>,
    /// The namespaces that it knows.
    pub application_namespaces: Vec<String<A>, A>,
}

type QueryResponsePayloadParts<A> = (
    Any<Operation, 0x42005C>,
    Any<ListedItem<ObjectType>, 0x420057>,
    MaybeLeaf<String<A>, 0x42009D>,
    Any<LeafItem<String<A>, 0x420003>, 0x420003>,
);

impl<A: Allocator + Copy> FromParts<A, QueryResponsePayloadParts<A>> for QueryResponsePayload<A> {
    ghost parts = { λ x. (x.operations, x.object_types, x.vendor, x.application_namespaces) };

    fn from_parts(
        (operations, object_types, vendor, application_namespaces): Holds<
            QueryResponsePayloadParts<A>,
            A,
        >,
    ) -> Self {
        QueryResponsePayload {
            operations,
            object_types,
            vendor,
            application_namespaces,
        }
    }
}

impl<A: Allocator + Copy> Structure<A> for QueryResponsePayload<A> {
    ghost rules = { structure false ⟦<QueryResponsePayloadParts<A> as PartList<A>>⟧.rules ⟦<QueryResponsePayload<A> as FromParts<A, QueryResponsePayloadParts<A>>>⟧.parts refl ⟦<QueryResponsePayload<A> as PartialEq>⟧.eq (λ x y e. e) };

    fn read<'b>(scope: &Scope<'b, A>, tag: u32, cursor: &mut Cursor<'b, A>) -> Step<Self, A> {
        read_structure::<QueryResponsePayloadParts<A>, Self, A>(scope, tag, false, cursor)
    }

    fn tell_parts<W: Walk<A>>(&self, state: &mut W::State) -> Result<(), AllocError> {
        W::four::<
            Any<Operation, 0x42005C>,
            Any<ListedItem<ObjectType>, 0x420057>,
            MaybeLeaf<String<A>, 0x42009D>,
            Any<LeafItem<String<A>, 0x420003>, 0x420003>,
        >(
            state,
            &self.operations,
            &self.object_types,
            &self.vendor,
            &self.application_namespaces,
        )
    }
}

impl<A: Allocator + Copy> Serialize for QueryResponsePayload<A> {
    ghost stated = { ⟦<Of<QueryResponsePayload<A>, 0x42007C> as Element<A>>⟧.rules.written };

    fn visit<V: Visitor>(&self, visitor: &mut V) -> Result<(), AllocError> {
        visit_structure(self, 0x42007C, visitor)
    }
}

impl<A: Allocator + Copy> Decode<A> for QueryResponsePayload<A> {
    ghost form = { ⟦<Of<QueryResponsePayload<A>, 0x42007C> as Element<A>>⟧.form };

    ghost is_value = { λ v x. v ≡ ⟦<Of<QueryResponsePayload<A>, 0x42007C> as Element<A>>⟧.value x };

    fn decode(alloc: A, bytes: &[u8]) -> Result<Self, Error<A>> {
        decode_structure::<QueryResponsePayloadParts<A>, Self, A>(alloc, 0x42007C, false, bytes)
    }
}

impl<A: Allocator + Copy> Sound for QueryResponsePayload<A> {
    ghost IsSound = { ⟦<Of<QueryResponsePayload<A>, 0x42007C> as Element<A>>⟧.rules.IsSound };

    fn is_sound(&self) -> bool {
        is_structure_whole(self)
    }
}

impl<A: Allocator + Copy> Message<A> for QueryResponsePayload<A> {
    fn comes_back() {
        structures_come_back::<QueryResponsePayload<A>, 0x42007C, A>();
    }
}

/// Why an operation failed (KMIP 1.0, section 9.1.3.2).
pub type ResultReason = Enumeration<0x42007E>;

/// The numbers of `ResultReason` that have a name.
pub mod result_reason {
    use super::ResultReason;

    /// There is no such object.
    pub const ITEM_NOT_FOUND: ResultReason = ResultReason { number: 0x00000001 };
    /// The server doesn't have the operation.
    pub const OPERATION_NOT_SUPPORTED: ResultReason = ResultReason { number: 0x00000005 };
    /// Anything that has no other reason.
    pub const GENERAL_FAILURE: ResultReason = ResultReason { number: 0x00000100 };
}

/// What became of an operation that didn't succeed (KMIP 1.0, section 9.1.3.2).
#[derive(Clone, Copy, Debug, PartialEq, Eq)]
pub enum ResultStatus {
    /// It failed.
    Failed,
    /// It goes on.
    Pending,
    /// It was undone.
    Undone,
}

// Each number, and what it stands for.
const RESULT_STATUS: [(&str, ResultStatus); 3] = [
    ("0x00000001", ResultStatus::Failed),
    ("0x00000002", ResultStatus::Pending),
    ("0x00000003", ResultStatus::Undone),
];

impl Listed for ResultStatus {
    ghost tag = { 0x42007F };

    ghost variants = { result_status_variants };

    ghost rules = { record {
      number = result_status_number;
      units = result_status_is_unit;
      eq = ⟦<ResultStatus as PartialEq>⟧.eq;
      same = λ x y e. true_same result_status_contract.the_type x y (result_status_same x y e);
    } };

    fn table() -> &'static [(&'static str, Self)] {
        &RESULT_STATUS
    }

    fn tag() -> u32 {
        0x42007F
    }

    #[tactic(auto, unfolding(kmip_ttlv_types::specs::Digits::six_digits))]
    fn name() -> &'static str {
        "0x42007F"
    }

    fn number_text(self) -> &'static str {
        match self {
            ResultStatus::Failed => "0x00000001",
            ResultStatus::Pending => "0x00000002",
            ResultStatus::Undone => "0x00000003",
        }
    }
}

/// An item of a response, whose operation didn't succeed (KMIP 1.0, section 7).
#[derive(Drop)]
#[derive_where(PartialEq)]
pub struct FailedItem<A: Allocator = Global> {
    /// What was asked for.
    pub operation: Operation,
    /// What became of it.
    pub status: ResultStatus,
    /// Why.
    pub reason: Option<ResultReason>,
    /// What a person is told.
    pub message: Option<String<A>>,
}

type FailedItemParts<A> = (
    One<Operation>,
    One<ListedItem<ResultStatus>>,
    Maybe<ResultReason, 0x42007E>,
    MaybeLeaf<String<A>, 0x42007D>,
);

impl<A: Allocator + Copy> FromParts<A, FailedItemParts<A>> for FailedItem<A> {
    ghost parts = { λ x. (x.operation, x.status, x.reason, x.message) };

    fn from_parts((operation, status, reason, message): Holds<FailedItemParts<A>, A>) -> Self {
        FailedItem {
            operation,
            status,
            reason,
            message,
        }
    }
}

impl<A: Allocator + Copy> Structure<A> for FailedItem<A> {
    ghost rules = { structure false ⟦<FailedItemParts<A> as PartList<A>>⟧.rules ⟦<FailedItem<A> as FromParts<A, FailedItemParts<A>>>⟧.parts refl ⟦<FailedItem<A> as PartialEq>⟧.eq (λ x y e. e) };

    fn read<'b>(scope: &Scope<'b, A>, tag: u32, cursor: &mut Cursor<'b, A>) -> Step<Self, A> {
        read_structure::<FailedItemParts<A>, Self, A>(scope, tag, false, cursor)
    }

    fn tell_parts<W: Walk<A>>(&self, state: &mut W::State) -> Result<(), AllocError> {
        W::four::<
            One<Operation>,
            One<ListedItem<ResultStatus>>,
            Maybe<ResultReason, 0x42007E>,
            MaybeLeaf<String<A>, 0x42007D>,
        >(
            state,
            &self.operation,
            &self.status,
            &self.reason,
            &self.message,
        )
    }
}

impl<A: Allocator + Copy> Serialize for FailedItem<A> {
    ghost stated = { ⟦<Of<FailedItem<A>, 0x42000F> as Element<A>>⟧.rules.written };

    fn visit<V: Visitor>(&self, visitor: &mut V) -> Result<(), AllocError> {
        visit_structure(self, 0x42000F, visitor)
    }
}

impl<A: Allocator + Copy> Decode<A> for FailedItem<A> {
    ghost form = { ⟦<Of<FailedItem<A>, 0x42000F> as Element<A>>⟧.form };

    ghost is_value = { λ v x. v ≡ ⟦<Of<FailedItem<A>, 0x42000F> as Element<A>>⟧.value x };

    fn decode(alloc: A, bytes: &[u8]) -> Result<Self, Error<A>> {
        decode_structure::<FailedItemParts<A>, Self, A>(alloc, 0x42000F, false, bytes)
    }
}

impl<A: Allocator + Copy> Sound for FailedItem<A> {
    ghost IsSound = { ⟦<Of<FailedItem<A>, 0x42000F> as Element<A>>⟧.rules.IsSound };

    fn is_sound(&self) -> bool {
        is_structure_whole(self)
    }
}

impl<A: Allocator + Copy> Message<A> for FailedItem<A> {
    fn comes_back() {
        structures_come_back::<FailedItem<A>, 0x42000F, A>();
    }
}
