// Written by codegen from types.table: change that, and run codegen/codegen.
//! Types that read themselves, with each kind of part, and what is read of them.

ghost use Rattle.std.specs.Prelude.{◌≡◌, ◌↔◌, ◌+◌, IsTrue, false, refl, true};
ghost use denote.Enum.Bare.{true_same};
ghost use Rattle.kmip_ttlv_parts.specs.Returns.{IsNoneOf};
ghost use Rattle.kmip_ttlv_kinds.specs.Parts.{structure, structure_where};
ghost use Rattle.kmip_ttlv_kinds.specs.Choices.{held};
ghost use Rattle.reading_vectors.specs.Choices.{detail_choice, ChoosesDetail, detail_names};
ghost use Rattle.reading_vectors.specs.Listed.{order_is_unit, order_number, order_same, order_variants};
ghost use Rattle.reading_vectors.specs.contracts.selves.Order as order_contract;

use kmip_ttlv::error::Error;
use kmip_ttlv::laws::{Message, Sound, is_none_of};
use kmip_ttlv::shape::{Decode, Serialize};
use kmip_ttlv_kinds::{
    Alone, Any, Choice, Decided, Element, Four, FromParts, Holds, Leaf, LeafItem, Listed,
    ListedItem, Maybe, MaybeLeaf, Of, One, OneOf, PartList, Several, Structure, Walk,
    decode_structure, is_structure_whole, read_structure, structures_come_back, visit_structure,
};
use kmip_ttlv_parts::reader::{BigNumber, Cursor, Interval, RuleParts, Scope, Step};
use kmip_ttlv_parts::types::TtlvType;
use kmip_ttlv_parts::visit::Visitor;
use std::alloc::{AllocError, Allocator, Global};

/// A structure of a number.
#[derive(Clone, Copy, PartialEq, Eq)]
pub struct Point {
    /// Its number.
    pub number: i32,
}

type PointParts = Alone<Leaf<i32, 0xBBBBBB>>;

impl<A: Allocator + Copy> FromParts<A, PointParts> for Point {
    ghost parts = { λ x. x.number };

    fn from_parts(number: Holds<PointParts, A>) -> Self {
        Point { number }
    }
}

impl<A: Allocator + Copy> Structure<A> for Point {
    ghost rules = { structure false ⟦<PointParts as PartList<A>>⟧.rules ⟦<Point as FromParts<A, PointParts>>⟧.parts refl ⟦<Point as PartialEq>⟧.eq (λ x y e. e) };

    fn read<'b>(scope: &Scope<'b, A>, tag: u32, cursor: &mut Cursor<'b, A>) -> Step<Self, A> {
        read_structure::<PointParts, Self, A>(scope, tag, false, cursor)
    }

    fn tell_parts<W: Walk<A>>(&self, state: &mut W::State) -> Result<(), AllocError> {
        W::one::<Leaf<i32, 0xBBBBBB>>(state, &self.number)
    }
}

/// A structure of a Long Integer or a Date-Time.
#[derive(Clone, Copy, PartialEq, Eq)]
pub struct Moment {
    /// Seconds, as either of them.
    pub seconds: i64,
}

type MomentParts = Alone<Leaf<i64, 0xBBBBBB>>;

impl<A: Allocator + Copy> FromParts<A, MomentParts> for Moment {
    ghost parts = { λ x. x.seconds };

    fn from_parts(seconds: Holds<MomentParts, A>) -> Self {
        Moment { seconds }
    }
}

impl<A: Allocator + Copy> Structure<A> for Moment {
    ghost rules = { structure false ⟦<MomentParts as PartList<A>>⟧.rules ⟦<Moment as FromParts<A, MomentParts>>⟧.parts refl ⟦<Moment as PartialEq>⟧.eq (λ x y e. e) };

    fn read<'b>(scope: &Scope<'b, A>, tag: u32, cursor: &mut Cursor<'b, A>) -> Step<Self, A> {
        read_structure::<MomentParts, Self, A>(scope, tag, false, cursor)
    }

    fn tell_parts<W: Walk<A>>(&self, state: &mut W::State) -> Result<(), AllocError> {
        W::one::<Leaf<i64, 0xBBBBBB>>(state, &self.seconds)
    }
}

/// A structure that is always there.
#[derive(Clone, Copy, PartialEq, Eq)]
pub struct Last {
    /// Its number.
    pub number: i32,
}

type LastParts = Alone<Leaf<i32, 0xBBBBBB>>;

impl<A: Allocator + Copy> FromParts<A, LastParts> for Last {
    ghost parts = { λ x. x.number };

    fn from_parts(number: Holds<LastParts, A>) -> Self {
        Last { number }
    }
}

impl<A: Allocator + Copy> Structure<A> for Last {
    ghost rules = { structure false ⟦<LastParts as PartList<A>>⟧.rules ⟦<Last as FromParts<A, LastParts>>⟧.parts refl ⟦<Last as PartialEq>⟧.eq (λ x y e. e) };

    fn read<'b>(scope: &Scope<'b, A>, tag: u32, cursor: &mut Cursor<'b, A>) -> Step<Self, A> {
        read_structure::<LastParts, Self, A>(scope, tag, false, cursor)
    }

    fn tell_parts<W: Walk<A>>(&self, state: &mut W::State) -> Result<(), AllocError> {
        W::one::<Leaf<i32, 0xBBBBBB>>(state, &self.number)
    }
}

/// A structure of a number, and of nothing else.
#[derive(Clone, Copy, PartialEq, Eq)]
pub struct Closed {
    /// Its number.
    pub number: i32,
}

type ClosedParts = Alone<Leaf<i32, 0xBBBBBB>>;

impl<A: Allocator + Copy> FromParts<A, ClosedParts> for Closed {
    ghost parts = { λ x. x.number };

    fn from_parts(number: Holds<ClosedParts, A>) -> Self {
        Closed { number }
    }
}

impl<A: Allocator + Copy> Structure<A> for Closed {
    ghost rules = { structure true ⟦<ClosedParts as PartList<A>>⟧.rules ⟦<Closed as FromParts<A, ClosedParts>>⟧.parts refl ⟦<Closed as PartialEq>⟧.eq (λ x y e. e) };

    fn read<'b>(scope: &Scope<'b, A>, tag: u32, cursor: &mut Cursor<'b, A>) -> Step<Self, A> {
        read_structure::<ClosedParts, Self, A>(scope, tag, true, cursor)
    }

    fn tell_parts<W: Walk<A>>(&self, state: &mut W::State) -> Result<(), AllocError> {
        W::one::<Leaf<i32, 0xBBBBBB>>(state, &self.number)
    }
}

impl Serialize for Closed {
    ghost stated = { ⟦<Of<Closed, 0xAAAAAA> as Element<Global>>⟧.rules.written };

    fn visit<V: Visitor>(&self, visitor: &mut V) -> Result<(), AllocError> {
        visit_structure::<Closed, V, Global>(self, 0xAAAAAA, visitor)
    }
}

impl<A: Allocator + Copy> Decode<A> for Closed {
    ghost form = { ⟦<Of<Closed, 0xAAAAAA> as Element<A>>⟧.form };

    ghost is_value = { λ v x. v ≡ ⟦<Of<Closed, 0xAAAAAA> as Element<A>>⟧.value x };

    fn decode(alloc: A, bytes: &[u8]) -> Result<Self, Error<A>> {
        decode_structure::<ClosedParts, Self, A>(alloc, 0xAAAAAA, true, bytes)
    }
}

impl Sound for Closed {
    ghost IsSound = { ⟦<Of<Closed, 0xAAAAAA> as Element<Global>>⟧.rules.IsSound };

    fn is_sound(&self) -> bool {
        is_structure_whole::<Closed, Global>(self)
    }
}

impl<A: Allocator + Copy> Message<A> for Closed {
    fn comes_back() {
        structures_come_back::<Closed, 0xAAAAAA, A>();
    }
}

/// A structure with each count of parts but any number.
#[derive(Drop)]
#[derive_where(PartialEq)]
pub struct Whole<A: Allocator = Global> {
    /// A number.
    pub number: i32,
    /// A text.
    pub text: Option<String<A>>,
    /// A structure.
    pub first: Option<Point>,
    /// Structures, once or more.
    pub moments: Vec<Moment, A>,
    /// A structure.
    pub last: Last,
}

type WholeFirst<A> = (
    Leaf<i32, 0xBBBBBB>,
    MaybeLeaf<String<A>, 0xCCCCCC>,
    Maybe<Of<Point, 0xDDDDDD>, 0xDDDDDD>,
    Several<Of<Moment, 0xEEEEEE>, 0xEEEEEE>,
);

type WholeSecond = Alone<One<Of<Last, 0xAAAAAA>>>;

type WholeParts<A> = Four<WholeFirst<A>, WholeSecond>;

impl<A: Allocator + Copy> FromParts<A, WholeParts<A>> for Whole<A> {
    ghost parts = { λ x. (x.number, x.text, x.first, x.moments, x.last) };

    fn from_parts((number, text, first, moments, last): Holds<WholeParts<A>, A>) -> Self {
        Whole {
            number,
            text,
            first,
            moments,
            last,
        }
    }
}

impl<A: Allocator + Copy> Structure<A> for Whole<A> {
    ghost rules = { structure false ⟦<WholeParts<A> as PartList<A>>⟧.rules ⟦<Whole<A> as FromParts<A, WholeParts<A>>>⟧.parts refl ⟦<Whole<A> as PartialEq>⟧.eq (λ x y e. e) };

    fn read<'b>(scope: &Scope<'b, A>, tag: u32, cursor: &mut Cursor<'b, A>) -> Step<Self, A> {
        read_structure::<WholeParts<A>, Self, A>(scope, tag, false, cursor)
    }

    fn tell_parts<W: Walk<A>>(&self, state: &mut W::State) -> Result<(), AllocError> {
        W::four::<
            Leaf<i32, 0xBBBBBB>,
            MaybeLeaf<String<A>, 0xCCCCCC>,
            Maybe<Of<Point, 0xDDDDDD>, 0xDDDDDD>,
            Several<Of<Moment, 0xEEEEEE>, 0xEEEEEE>,
        >(state, &self.number, &self.text, &self.first, &self.moments)?;
        W::one::<One<Of<Last, 0xAAAAAA>>>(state, &self.last)?;
        Ok(())
    }
}

impl<A: Allocator + Copy> Serialize for Whole<A> {
    ghost stated = { ⟦<Of<Whole<A>, 0xAAAAAA> as Element<A>>⟧.rules.written };

    fn visit<V: Visitor>(&self, visitor: &mut V) -> Result<(), AllocError> {
        visit_structure(self, 0xAAAAAA, visitor)
    }
}

impl<A: Allocator + Copy> Decode<A> for Whole<A> {
    ghost form = { ⟦<Of<Whole<A>, 0xAAAAAA> as Element<A>>⟧.form };

    ghost is_value = { λ v x. v ≡ ⟦<Of<Whole<A>, 0xAAAAAA> as Element<A>>⟧.value x };

    fn decode(alloc: A, bytes: &[u8]) -> Result<Self, Error<A>> {
        decode_structure::<WholeParts<A>, Self, A>(alloc, 0xAAAAAA, false, bytes)
    }
}

impl<A: Allocator + Copy> Sound for Whole<A> {
    ghost IsSound = { ⟦<Of<Whole<A>, 0xAAAAAA> as Element<A>>⟧.rules.IsSound };

    fn is_sound(&self) -> bool {
        is_structure_whole(self)
    }
}

impl<A: Allocator + Copy> Message<A> for Whole<A> {
    fn comes_back() {
        structures_come_back::<Whole<A>, 0xAAAAAA, A>();
    }
}

/// A structure with leaves of the other kinds.
#[derive(Drop)]
#[derive_where(PartialEq)]
pub struct Sorts<A: Allocator = Global> {
    /// Truth.
    pub truth: bool,
    /// A time, in seconds.
    pub span: Interval,
    /// Any number.
    pub reason: Option<u32>,
    /// Bytes.
    pub bytes: Vec<u8, A>,
    /// A large number.
    pub big: Option<BigNumber<A>>,
}

type SortsFirst<A> = (
    Leaf<bool, 0xBBBBBB>,
    Leaf<Interval, 0xCCCCCC>,
    MaybeLeaf<u32, 0xDDDDDD>,
    Leaf<Vec<u8, A>, 0xEEEEEE>,
);

type SortsSecond<A> = Alone<MaybeLeaf<BigNumber<A>, 0xAAAAAA>>;

type SortsParts<A> = Four<SortsFirst<A>, SortsSecond<A>>;

impl<A: Allocator + Copy> FromParts<A, SortsParts<A>> for Sorts<A> {
    ghost parts = { λ x. (x.truth, x.span, x.reason, x.bytes, x.big) };

    fn from_parts((truth, span, reason, bytes, big): Holds<SortsParts<A>, A>) -> Self {
        Sorts {
            truth,
            span,
            reason,
            bytes,
            big,
        }
    }
}

impl<A: Allocator + Copy> Structure<A> for Sorts<A> {
    ghost rules = { structure false ⟦<SortsParts<A> as PartList<A>>⟧.rules ⟦<Sorts<A> as FromParts<A, SortsParts<A>>>⟧.parts refl ⟦<Sorts<A> as PartialEq>⟧.eq (λ x y e. e) };

    fn read<'b>(scope: &Scope<'b, A>, tag: u32, cursor: &mut Cursor<'b, A>) -> Step<Self, A> {
        read_structure::<SortsParts<A>, Self, A>(scope, tag, false, cursor)
    }

    fn tell_parts<W: Walk<A>>(&self, state: &mut W::State) -> Result<(), AllocError> {
        W::four::<
            Leaf<bool, 0xBBBBBB>,
            Leaf<Interval, 0xCCCCCC>,
            MaybeLeaf<u32, 0xDDDDDD>,
            Leaf<Vec<u8, A>, 0xEEEEEE>,
        >(state, &self.truth, &self.span, &self.reason, &self.bytes)?;
        W::one::<MaybeLeaf<BigNumber<A>, 0xAAAAAA>>(state, &self.big)?;
        Ok(())
    }
}

impl<A: Allocator + Copy> Serialize for Sorts<A> {
    ghost stated = { ⟦<Of<Sorts<A>, 0xAAAAAA> as Element<A>>⟧.rules.written };

    fn visit<V: Visitor>(&self, visitor: &mut V) -> Result<(), AllocError> {
        visit_structure(self, 0xAAAAAA, visitor)
    }
}

impl<A: Allocator + Copy> Decode<A> for Sorts<A> {
    ghost form = { ⟦<Of<Sorts<A>, 0xAAAAAA> as Element<A>>⟧.form };

    ghost is_value = { λ v x. v ≡ ⟦<Of<Sorts<A>, 0xAAAAAA> as Element<A>>⟧.value x };

    fn decode(alloc: A, bytes: &[u8]) -> Result<Self, Error<A>> {
        decode_structure::<SortsParts<A>, Self, A>(alloc, 0xAAAAAA, false, bytes)
    }
}

impl<A: Allocator + Copy> Sound for Sorts<A> {
    ghost IsSound = { ⟦<Of<Sorts<A>, 0xAAAAAA> as Element<A>>⟧.rules.IsSound };

    fn is_sound(&self) -> bool {
        is_structure_whole(self)
    }
}

impl<A: Allocator + Copy> Message<A> for Sorts<A> {
    fn comes_back() {
        structures_come_back::<Sorts<A>, 0xAAAAAA, A>();
    }
}

/// A structure with leaves and sequences of them.
#[derive(Drop)]
#[derive_where(PartialEq)]
pub struct Lists<A: Allocator = Global> {
    /// A number.
    pub mark: i32,
    /// A number.
    pub other: Option<i32>,
    /// Numbers, once or more.
    pub marks: Vec<i32, A>,
    /// Texts, once or more.
    pub texts: Vec<String<A>, A>,
}

type ListsParts<A> = (
    Leaf<i32, 0xBBBBBB>,
    MaybeLeaf<i32, 0xCCCCCC>,
    Several<LeafItem<i32, 0xDDDDDD>, 0xDDDDDD>,
    Several<LeafItem<String<A>, 0xEEEEEE>, 0xEEEEEE>,
);

impl<A: Allocator + Copy> FromParts<A, ListsParts<A>> for Lists<A> {
    ghost parts = { λ x. (x.mark, x.other, x.marks, x.texts) };

    fn from_parts((mark, other, marks, texts): Holds<ListsParts<A>, A>) -> Self {
        Lists {
            mark,
            other,
            marks,
            texts,
        }
    }
}

impl<A: Allocator + Copy> Structure<A> for Lists<A> {
    ghost rules = { structure false ⟦<ListsParts<A> as PartList<A>>⟧.rules ⟦<Lists<A> as FromParts<A, ListsParts<A>>>⟧.parts refl ⟦<Lists<A> as PartialEq>⟧.eq (λ x y e. e) };

    fn read<'b>(scope: &Scope<'b, A>, tag: u32, cursor: &mut Cursor<'b, A>) -> Step<Self, A> {
        read_structure::<ListsParts<A>, Self, A>(scope, tag, false, cursor)
    }

    fn tell_parts<W: Walk<A>>(&self, state: &mut W::State) -> Result<(), AllocError> {
        W::four::<
            Leaf<i32, 0xBBBBBB>,
            MaybeLeaf<i32, 0xCCCCCC>,
            Several<LeafItem<i32, 0xDDDDDD>, 0xDDDDDD>,
            Several<LeafItem<String<A>, 0xEEEEEE>, 0xEEEEEE>,
        >(state, &self.mark, &self.other, &self.marks, &self.texts)
    }
}

impl<A: Allocator + Copy> Serialize for Lists<A> {
    ghost stated = { ⟦<Of<Lists<A>, 0xAAAAAA> as Element<A>>⟧.rules.written };

    fn visit<V: Visitor>(&self, visitor: &mut V) -> Result<(), AllocError> {
        visit_structure(self, 0xAAAAAA, visitor)
    }
}

impl<A: Allocator + Copy> Decode<A> for Lists<A> {
    ghost form = { ⟦<Of<Lists<A>, 0xAAAAAA> as Element<A>>⟧.form };

    ghost is_value = { λ v x. v ≡ ⟦<Of<Lists<A>, 0xAAAAAA> as Element<A>>⟧.value x };

    fn decode(alloc: A, bytes: &[u8]) -> Result<Self, Error<A>> {
        decode_structure::<ListsParts<A>, Self, A>(alloc, 0xAAAAAA, false, bytes)
    }
}

impl<A: Allocator + Copy> Sound for Lists<A> {
    ghost IsSound = { ⟦<Of<Lists<A>, 0xAAAAAA> as Element<A>>⟧.rules.IsSound };

    fn is_sound(&self) -> bool {
        is_structure_whole(self)
    }
}

impl<A: Allocator + Copy> Message<A> for Lists<A> {
    fn comes_back() {
        structures_come_back::<Lists<A>, 0xAAAAAA, A>();
    }
}

/// A structure with sequences that may be empty.
#[derive(Drop)]
#[derive_where(PartialEq)]
pub struct Maybes<A: Allocator = Global> {
    /// Numbers.
    pub marks: Vec<i32, A>,
    /// Texts.
    pub texts: Vec<String<A>, A>,
    /// Structures.
    pub points: Vec<Point, A>,
}

type MaybesParts<A> = (
    Any<LeafItem<i32, 0xBBBBBB>, 0xBBBBBB>,
    Any<LeafItem<String<A>, 0xCCCCCC>, 0xCCCCCC>,
    Any<Of<Point, 0xDDDDDD>, 0xDDDDDD>,
);

impl<A: Allocator + Copy> FromParts<A, MaybesParts<A>> for Maybes<A> {
    ghost parts = { λ x. (x.marks, x.texts, x.points) };

    fn from_parts((marks, texts, points): Holds<MaybesParts<A>, A>) -> Self {
        Maybes {
            marks,
            texts,
            points,
        }
    }
}

impl<A: Allocator + Copy> Structure<A> for Maybes<A> {
    ghost rules = { structure false ⟦<MaybesParts<A> as PartList<A>>⟧.rules ⟦<Maybes<A> as FromParts<A, MaybesParts<A>>>⟧.parts refl ⟦<Maybes<A> as PartialEq>⟧.eq (λ x y e. e) };

    fn read<'b>(scope: &Scope<'b, A>, tag: u32, cursor: &mut Cursor<'b, A>) -> Step<Self, A> {
        read_structure::<MaybesParts<A>, Self, A>(scope, tag, false, cursor)
    }

    fn tell_parts<W: Walk<A>>(&self, state: &mut W::State) -> Result<(), AllocError> {
        W::three::<
            Any<LeafItem<i32, 0xBBBBBB>, 0xBBBBBB>,
            Any<LeafItem<String<A>, 0xCCCCCC>, 0xCCCCCC>,
            Any<Of<Point, 0xDDDDDD>, 0xDDDDDD>,
        >(state, &self.marks, &self.texts, &self.points)
    }
}

impl<A: Allocator + Copy> Serialize for Maybes<A> {
    ghost stated = { ⟦<Of<Maybes<A>, 0xAAAAAA> as Element<A>>⟧.rules.written };

    fn visit<V: Visitor>(&self, visitor: &mut V) -> Result<(), AllocError> {
        visit_structure(self, 0xAAAAAA, visitor)
    }
}

impl<A: Allocator + Copy> Decode<A> for Maybes<A> {
    ghost form = { ⟦<Of<Maybes<A>, 0xAAAAAA> as Element<A>>⟧.form };

    ghost is_value = { λ v x. v ≡ ⟦<Of<Maybes<A>, 0xAAAAAA> as Element<A>>⟧.value x };

    fn decode(alloc: A, bytes: &[u8]) -> Result<Self, Error<A>> {
        decode_structure::<MaybesParts<A>, Self, A>(alloc, 0xAAAAAA, false, bytes)
    }
}

impl<A: Allocator + Copy> Sound for Maybes<A> {
    ghost IsSound = { ⟦<Of<Maybes<A>, 0xAAAAAA> as Element<A>>⟧.rules.IsSound };

    fn is_sound(&self) -> bool {
        is_structure_whole(self)
    }
}

impl<A: Allocator + Copy> Message<A> for Maybes<A> {
    fn comes_back() {
        structures_come_back::<Maybes<A>, 0xAAAAAA, A>();
    }
}

/// An Enumeration of two numbers.
#[derive(Clone, Copy, Debug, PartialEq, Eq)]
pub enum Order {
    /// The first.
    One,
    /// The second.
    Seven,
}

// Each number, and what it stands for.
const ORDER: [(&str, Order); 2] = [("0x00000001", Order::One), ("0x00000007", Order::Seven)];

impl Listed for Order {
    ghost tag = { 0xBBBBBB };

    ghost variants = { order_variants };

    ghost rules = { record {
      number = order_number;
      units = order_is_unit;
      eq = ⟦<Order as PartialEq>⟧.eq;
      same = λ x y e. true_same order_contract.the_type x y (order_same x y e);
    } };

    fn table() -> &'static [(&'static str, Self)] {
        &ORDER
    }

    fn tag() -> u32 {
        0xBBBBBB
    }

    #[tactic(auto, unfolding(kmip_ttlv_types::specs::Digits::six_digits))]
    fn name() -> &'static str {
        "0xBBBBBB"
    }

    fn number_text(self) -> &'static str {
        match self {
            Order::One => "0x00000001",
            Order::Seven => "0x00000007",
        }
    }
}

/// What an order chooses, or else its own type.
#[derive(Drop)]
#[derive_where(PartialEq)]
pub enum Detail<A: Allocator = Global> {
    /// A structure.
    Point(Point),
    /// A text.
    Text(String<A>),
    /// A number.
    Mark(i32),
}

// The texts that choose a variant, whatever the type of its item is.
const DETAIL_NAMES: [&str; 1] = ["0x00000001"];

// Whether a text is none of these.
fn is_no_detail(text: &str) -> bool
    ensures { IsTrue result ↔ IsNoneOf text.now detail_names }
{
    is_none_of(text, &DETAIL_NAMES)
}

impl<A: Allocator> Detail<A> {
    /// Whether this text, if it is that of 0xBBBBBB, chooses it.
    pub fn is_chosen_by(&self, text: &str) -> bool
        ensures { IsTrue result ↔ ChoosesDetail text.now self.now }
    {
        match self {
            Detail::Point(_) => text == "0x00000001",
            Detail::Text(_) => is_no_detail(text),
            Detail::Mark(_) => is_no_detail(text),
        }
    }
}

// The rules of the variants, in their order.
const DETAIL_RULES: [RuleParts; 3] = [
    RuleParts::Texts {
        tag: 0xBBBBBB,
        texts: &["0x00000001"],
    },
    RuleParts::Type(TtlvType::TextString),
    RuleParts::Type(TtlvType::Integer),
];

impl<A: Allocator + Copy> Choice<A> for Detail<A> {
    ghost chosen = { detail_choice ⟦<Detail<A> as PartialEq>⟧.eq record {
      point = held ⟦<Of<Point, 0xDDDDDD> as Element<A>>⟧.rules refl refl (λ x y e. e);
      text = held ⟦<LeafItem<String<A>, 0xDDDDDD> as Element<A>>⟧.rules refl refl (λ x y e. e);
      mark = held ⟦<LeafItem<i32, 0xDDDDDD> as Element<A>>⟧.rules refl refl (λ x y e. e);
    } };

    #[tactic(auto, unfolding(kmip_ttlv_reader::specs::RuleParts::parts_of, kmip_ttlv_reader::specs::RuleParts::equal_sides))]
    fn variant_rules() -> &'static [RuleParts] {
        &DETAIL_RULES
    }

    fn read_held<'b>(
        scope: &Scope<'b, A>,
        cursor: &mut Cursor<'b, A>,
        place: usize,
    ) -> Step<Self, A> {
        match place {
            0 => Ok(Detail::Point(<Of<Point, 0xDDDDDD> as Element<A>>::read_one(scope, cursor)?)),
            1 => Ok(Detail::Text(<LeafItem<String<A>, 0xDDDDDD> as Element<A>>::read_one(
                scope, cursor,
            )?)),
            2 => Ok(Detail::Mark(<LeafItem<i32, 0xDDDDDD> as Element<A>>::read_one(
                scope, cursor,
            )?)),
            _ => unreachable!(),
        }
    }

    fn tell_held<W: Walk<A>>(&self, state: &mut W::State) -> Result<(), AllocError> {
        match self {
            Detail::Point(inner) => W::item::<Of<Point, 0xDDDDDD>>(state, inner),
            Detail::Text(inner) => W::item::<LeafItem<String<A>, 0xDDDDDD>>(state, inner),
            Detail::Mark(inner) => W::item::<LeafItem<i32, 0xDDDDDD>>(state, inner),
        }
    }
}

/// A structure with an Enumeration and a choice.
#[derive(Drop)]
#[derive_where(PartialEq)]
pub struct Task<A: Allocator = Global> {
    /// What is to be done.
    pub order: Order,
    /// A text.
    pub text: Option<String<A>>,
    /// More of it.
    pub detail: Detail<A>,
}

impl<A: Allocator> Decided for Task<A> {
    ghost IsDecided = { λ x. (ChoosesDetail (order_number x.order) x.detail) };

    fn is_decided(&self) -> bool {
        self.detail.is_chosen_by(self.order.number_text())
    }
}

type TaskParts<A> = (
    One<ListedItem<Order>>,
    MaybeLeaf<String<A>, 0xCCCCCC>,
    OneOf<Detail<A>, 0xDDDDDD>,
);

impl<A: Allocator + Copy> FromParts<A, TaskParts<A>> for Task<A> {
    ghost parts = { λ x. (x.order, x.text, x.detail) };

    fn from_parts((order, text, detail): Holds<TaskParts<A>, A>) -> Self {
        Task {
            order,
            text,
            detail,
        }
    }
}

impl<A: Allocator + Copy> Structure<A> for Task<A> {
    ghost rules = { structure_where false ⟦<TaskParts<A> as PartList<A>>⟧.rules ⟦<Task<A> as FromParts<A, TaskParts<A>>>⟧.parts refl
        (λ x. (ChoosesDetail (order_number x.order) x.detail)) (λ x d. (tt, (tt, (d)))) ⟦<Task<A> as PartialEq>⟧.eq (λ x y e. e) };

    fn read<'b>(scope: &Scope<'b, A>, tag: u32, cursor: &mut Cursor<'b, A>) -> Step<Self, A> {
        read_structure::<TaskParts<A>, Self, A>(scope, tag, false, cursor)
    }

    fn tell_parts<W: Walk<A>>(&self, state: &mut W::State) -> Result<(), AllocError> {
        W::three::<
            One<ListedItem<Order>>,
            MaybeLeaf<String<A>, 0xCCCCCC>,
            OneOf<Detail<A>, 0xDDDDDD>,
        >(state, &self.order, &self.text, &self.detail)?;
        W::check(state, self);
        Ok(())
    }
}

impl<A: Allocator + Copy> Serialize for Task<A> {
    ghost stated = { ⟦<Of<Task<A>, 0xAAAAAA> as Element<A>>⟧.rules.written };

    fn visit<V: Visitor>(&self, visitor: &mut V) -> Result<(), AllocError> {
        visit_structure(self, 0xAAAAAA, visitor)
    }
}

impl<A: Allocator + Copy> Decode<A> for Task<A> {
    ghost form = { ⟦<Of<Task<A>, 0xAAAAAA> as Element<A>>⟧.form };

    ghost is_value = { λ v x. v ≡ ⟦<Of<Task<A>, 0xAAAAAA> as Element<A>>⟧.value x };

    fn decode(alloc: A, bytes: &[u8]) -> Result<Self, Error<A>> {
        decode_structure::<TaskParts<A>, Self, A>(alloc, 0xAAAAAA, false, bytes)
    }
}

impl<A: Allocator + Copy> Sound for Task<A> {
    ghost IsSound = { ⟦<Of<Task<A>, 0xAAAAAA> as Element<A>>⟧.rules.IsSound };

    fn is_sound(&self) -> bool {
        is_structure_whole(self)
    }
}

impl<A: Allocator + Copy> Message<A> for Task<A> {
    fn comes_back() {
        structures_come_back::<Task<A>, 0xAAAAAA, A>();
    }
}
