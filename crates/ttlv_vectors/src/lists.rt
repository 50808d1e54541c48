//! Types that are lists of parts, by hand: a structure of three leaves, one of more parts than a tuple has, and a message with parts of
//! every count and element.

ghost use Rattle.std.specs.Prelude.{◌≡◌, false, refl, true};
ghost use Rattle.kmip_ttlv_kinds.specs.Parts.{structure};

use kmip_ttlv::error::Error;
use kmip_ttlv::laws::{Message, Sound};
use kmip_ttlv::reader::{BigNumber, Cursor, DateTime, Interval, Scope, Step};
use kmip_ttlv::shape::{Decode, Serialize};
use kmip_ttlv::visit::Visitor;
use kmip_ttlv::{Boxed, Enumeration};
use kmip_ttlv_kinds::{
    Any, Element, Four, FromParts, Holds, InBox, Leaf, LeafItem, Maybe, MaybeLeaf, Of, One,
    PartList, Several, Structure, Walk, decode_structure, is_structure_whole, read_structure,
    structures_come_back, visit_structure,
};
use std::alloc::{AllocError, Allocator, Global};

/// A text and numbers with a sign.
#[derive(Drop)]
#[derive_where(Debug, PartialEq)]
pub struct Named<A: Allocator = Global> {
    /// A text, which owns memory.
    pub name: String<A>,
    /// A number with a sign, in 32 bits.
    pub count: i32,
    /// A date, in seconds since 1970.
    pub date: DateTime,
}

type NamedParts<A> = (
    Leaf<String<A>, 0x540042>,
    Leaf<i32, 0x540002>,
    Leaf<DateTime, 0x540004>,
);

impl<A: Allocator + Copy> FromParts<A, NamedParts<A>> for Named<A> {
    ghost parts = { λ x. (x.name, x.count, x.date) };

    fn from_parts((name, count, date): Holds<NamedParts<A>, A>) -> Self {
        Named { name, count, date }
    }
}

impl<A: Allocator + Copy> Structure<A> for Named<A> {
    ghost rules = { structure false ⟦<NamedParts<A> as PartList<A>>⟧.rules ⟦<Named<A> as FromParts<A, NamedParts<A>>>⟧.parts refl ⟦<Named<A> as PartialEq>⟧.eq (λ x y e. e) };

    fn read<'b>(scope: &Scope<'b, A>, tag: u32, cursor: &mut Cursor<'b, A>) -> Step<Self, A> {
        read_structure::<NamedParts<A>, Self, A>(scope, tag, false, cursor)
    }

    fn tell_parts<W: Walk<A>>(&self, state: &mut W::State) -> Result<(), AllocError> {
        W::three::<Leaf<String<A>, 0x540042>, Leaf<i32, 0x540002>, Leaf<DateTime, 0x540004>>(
            state,
            &self.name,
            &self.count,
            &self.date,
        )
    }
}

impl<A: Allocator + Copy> Serialize for Named<A> {
    ghost stated = { ⟦<Of<Named<A>, 0x540070> as Element<A>>⟧.rules.written };

    fn visit<V: Visitor>(&self, visitor: &mut V) -> Result<(), AllocError> {
        visit_structure::<Named<A>, V, A>(self, 0x540070, visitor)
    }
}

impl<A: Allocator + Copy> Decode<A> for Named<A> {
    ghost form = { ⟦<Of<Named<A>, 0x540070> as Element<A>>⟧.form };

    ghost is_value = { λ v x. v ≡ ⟦<Of<Named<A>, 0x540070> as Element<A>>⟧.value x };

    fn decode(alloc: A, bytes: &[u8]) -> Result<Self, Error<A>> {
        decode_structure::<NamedParts<A>, Self, A>(alloc, 0x540070, false, bytes)
    }
}

impl<A: Allocator + Copy> Sound for Named<A> {
    ghost IsSound = { ⟦<Of<Named<A>, 0x540070> as Element<A>>⟧.rules.IsSound };

    fn is_sound(&self) -> bool {
        is_structure_whole(self)
    }
}

impl<A: Allocator + Copy> Message<A> for Named<A> {
    fn comes_back() {
        structures_come_back::<Named<A>, 0x540070, A>();
    }
}

/// More parts than a tuple has: four, and others behind them.
#[derive(Clone, Copy, Debug, PartialEq, Eq)]
pub struct Many {
    /// A number with a sign, in 32 bits.
    pub count: i32,
    /// A second number with a sign, in 32 bits.
    pub other: i32,
    /// A number with a sign, in 64 bits.
    pub long: i64,
    /// A date, in seconds since 1970.
    pub date: DateTime,
    /// A truth value, in eight bytes.
    pub truth: bool,
    /// A time, in seconds.
    pub seconds: Interval,
}

type ManyFirst = (
    Leaf<i32, 0x540002>,
    Leaf<i32, 0x540081>,
    Leaf<i64, 0x540003>,
    Leaf<DateTime, 0x540004>,
);

type ManySecond = (Leaf<bool, 0x540005>, Leaf<Interval, 0x540006>);

type ManyParts = Four<ManyFirst, ManySecond>;

impl<A: Allocator + Copy> FromParts<A, ManyParts> for Many {
    ghost parts = { λ x. (x.count, x.other, x.long, x.date, (x.truth, x.seconds)) };

    fn from_parts((count, other, long, date, (truth, seconds)): Holds<ManyParts, A>) -> Self {
        Many {
            count,
            other,
            long,
            date,
            truth,
            seconds,
        }
    }
}

impl<A: Allocator + Copy> Structure<A> for Many {
    ghost rules = { structure false ⟦<ManyParts as PartList<A>>⟧.rules ⟦<Many as FromParts<A, ManyParts>>⟧.parts refl ⟦<Many as PartialEq>⟧.eq (λ x y e. e) };

    fn read<'b>(scope: &Scope<'b, A>, tag: u32, cursor: &mut Cursor<'b, A>) -> Step<Self, A> {
        read_structure::<ManyParts, Self, A>(scope, tag, false, cursor)
    }

    fn tell_parts<W: Walk<A>>(&self, state: &mut W::State) -> Result<(), AllocError> {
        W::four::<
            Leaf<i32, 0x540002>,
            Leaf<i32, 0x540081>,
            Leaf<i64, 0x540003>,
            Leaf<DateTime, 0x540004>,
        >(state, &self.count, &self.other, &self.long, &self.date)?;
        W::two::<Leaf<bool, 0x540005>, Leaf<Interval, 0x540006>>(
            state,
            &self.truth,
            &self.seconds,
        )?;
        Ok(())
    }
}

impl Serialize for Many {
    ghost stated = { ⟦<Of<Many, 0x540080> as Element<Global>>⟧.rules.written };

    fn visit<V: Visitor>(&self, visitor: &mut V) -> Result<(), AllocError> {
        visit_structure::<Many, V, Global>(self, 0x540080, visitor)
    }
}

impl<A: Allocator + Copy> Decode<A> for Many {
    ghost form = { ⟦<Of<Many, 0x540080> as Element<A>>⟧.form };

    ghost is_value = { λ v x. v ≡ ⟦<Of<Many, 0x540080> as Element<A>>⟧.value x };

    fn decode(alloc: A, bytes: &[u8]) -> Result<Self, Error<A>> {
        decode_structure::<ManyParts, Self, A>(alloc, 0x540080, false, bytes)
    }
}

/// Why something was remarked: a number, and constants for those that have a name.
pub type Reason = Enumeration<0x540007>;

/// A remark.
#[derive(Drop)]
#[derive_where(Debug, PartialEq)]
pub struct Remark<A: Allocator = Global> {
    /// What it says.
    pub text: String<A>,
    /// Why.
    pub reason: Reason,
}

type RemarkParts<A> = (Leaf<String<A>, 0x540082>, One<Reason>);

impl<A: Allocator + Copy> FromParts<A, RemarkParts<A>> for Remark<A> {
    ghost parts = { λ x. (x.text, x.reason) };

    fn from_parts((text, reason): Holds<RemarkParts<A>, A>) -> Self {
        Remark { text, reason }
    }
}

impl<A: Allocator + Copy> Structure<A> for Remark<A> {
    ghost rules = { structure true ⟦<RemarkParts<A> as PartList<A>>⟧.rules ⟦<Remark<A> as FromParts<A, RemarkParts<A>>>⟧.parts refl ⟦<Remark<A> as PartialEq>⟧.eq (λ x y e. e) };

    fn read<'b>(scope: &Scope<'b, A>, tag: u32, cursor: &mut Cursor<'b, A>) -> Step<Self, A> {
        read_structure::<RemarkParts<A>, Self, A>(scope, tag, true, cursor)
    }

    fn tell_parts<W: Walk<A>>(&self, state: &mut W::State) -> Result<(), AllocError> {
        W::two::<Leaf<String<A>, 0x540082>, One<Reason>>(state, &self.text, &self.reason)
    }
}

/// A message with parts of every count, and of every element.
#[derive(Drop)]
#[derive_where(PartialEq)]
pub struct Binder<A: Allocator = Global> {
    /// A label, if it has one.
    pub label: Option<String<A>>,
    /// The first remark.
    pub first: Remark<A>,
    /// What is named, if anything is.
    pub named: Option<Boxed<Named<A>, A>>,
    /// Numbers, one at least.
    pub numbers: Vec<i64, A>,
    /// Contents, any number.
    pub contents: Vec<Vec<u8, A>, A>,
    /// A large number.
    pub big: BigNumber<A>,
    /// Structures of many parts, any number.
    pub many: Vec<Many, A>,
}

type BinderFirst<A> = (
    MaybeLeaf<String<A>, 0x540091>,
    One<Of<Remark<A>, 0x540081>>,
    Maybe<InBox<Of<Named<A>, 0x540070>>, 0x540070>,
    Several<LeafItem<i64, 0x540003>, 0x540003>,
);

type BinderSecond<A> = (
    Any<LeafItem<Vec<u8, A>, 0x540022>, 0x540022>,
    Leaf<BigNumber<A>, 0x540023>,
    Any<Of<Many, 0x540080>, 0x540080>,
);

type BinderParts<A> = Four<BinderFirst<A>, BinderSecond<A>>;

impl<A: Allocator + Copy> FromParts<A, BinderParts<A>> for Binder<A> {
    ghost parts = { λ x. (x.label, x.first, x.named, x.numbers, (x.contents, x.big, x.many)) };

    fn from_parts(
        (label, first, named, numbers, (contents, big, many)): Holds<BinderParts<A>, A>,
    ) -> Self {
        Binder {
            label,
            first,
            named,
            numbers,
            contents,
            big,
            many,
        }
    }
}

impl<A: Allocator + Copy> Structure<A> for Binder<A> {
    ghost rules = { structure false ⟦<BinderParts<A> as PartList<A>>⟧.rules ⟦<Binder<A> as FromParts<A, BinderParts<A>>>⟧.parts refl ⟦<Binder<A> as PartialEq>⟧.eq (λ x y e. e) };

    fn read<'b>(scope: &Scope<'b, A>, tag: u32, cursor: &mut Cursor<'b, A>) -> Step<Self, A> {
        read_structure::<BinderParts<A>, Self, A>(scope, tag, false, cursor)
    }

    fn tell_parts<W: Walk<A>>(&self, state: &mut W::State) -> Result<(), AllocError> {
        W::four::<
            MaybeLeaf<String<A>, 0x540091>,
            One<Of<Remark<A>, 0x540081>>,
            Maybe<InBox<Of<Named<A>, 0x540070>>, 0x540070>,
            Several<LeafItem<i64, 0x540003>, 0x540003>,
        >(state, &self.label, &self.first, &self.named, &self.numbers)?;
        W::three::<
            Any<LeafItem<Vec<u8, A>, 0x540022>, 0x540022>,
            Leaf<BigNumber<A>, 0x540023>,
            Any<Of<Many, 0x540080>, 0x540080>,
        >(state, &self.contents, &self.big, &self.many)?;
        Ok(())
    }
}

impl<A: Allocator + Copy> Serialize for Binder<A> {
    ghost stated = { ⟦<Of<Binder<A>, 0x540090> as Element<A>>⟧.rules.written };

    fn visit<V: Visitor>(&self, visitor: &mut V) -> Result<(), AllocError> {
        visit_structure::<Binder<A>, V, A>(self, 0x540090, visitor)
    }
}

impl<A: Allocator + Copy> Decode<A> for Binder<A> {
    ghost form = { ⟦<Of<Binder<A>, 0x540090> as Element<A>>⟧.form };

    ghost is_value = { λ v x. v ≡ ⟦<Of<Binder<A>, 0x540090> as Element<A>>⟧.value x };

    fn decode(alloc: A, bytes: &[u8]) -> Result<Self, Error<A>> {
        decode_structure::<BinderParts<A>, Self, A>(alloc, 0x540090, false, bytes)
    }
}

impl<A: Allocator + Copy> Sound for Binder<A> {
    ghost IsSound = { ⟦<Of<Binder<A>, 0x540090> as Element<A>>⟧.rules.IsSound };

    fn is_sound(&self) -> bool {
        is_structure_whole(self)
    }
}

impl<A: Allocator + Copy> Message<A> for Binder<A> {
    fn comes_back() {
        structures_come_back::<Binder<A>, 0x540090, A>();
    }
}
