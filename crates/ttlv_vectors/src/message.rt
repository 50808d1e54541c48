// Written by codegen from types.table: change that, and run codegen/codegen.
//! A message with a part of every kind.

ghost use Rattle.std.specs.Prelude.{◌≡◌, false, refl, true};
ghost use Rattle.kmip_ttlv_kinds.specs.Parts.{structure};
ghost use Rattle.ttlv_vectors.specs.Listed.{every_constant_is_unit, every_constant_number, every_constant_variants};
ghost use Rattle.ttlv_vectors.specs.declared.message.EveryConstant.TheVariants as every_constant;

use crate::leaves::{Contents, Kind, Moments, Numbers, OptionalContents, OptionalNumbers, Reasons};
use kmip_ttlv::error::Error;
use kmip_ttlv::laws::{Message, Sound};
use kmip_ttlv::shape::{Decode, Serialize};
use kmip_ttlv_kinds::{
    Element, Four, FromParts, Holds, Listed, ListedItem, Maybe, Of, One, PartList, Several,
    Structure, Walk, decode_structure, is_structure_whole, read_structure, structures_come_back,
    visit_structure,
};
use kmip_ttlv_parts::reader::{Cursor, Scope, Step};
use kmip_ttlv_parts::visit::Visitor;
use std::alloc::{AllocError, Allocator, Global};

/// A message with every kind of part.
#[derive(Drop)]
#[derive_where(PartialEq)]
pub struct Every<A: Allocator = Global> {
    /// One of two.
    pub kind: Kind,
    /// Numbers.
    pub numbers: Numbers,
    /// Times, and truth.
    pub moments: Moments,
    /// Numbers that may be absent, as they may all together.
    pub optional_numbers: Option<OptionalNumbers>,
    /// Texts and bytes that may be absent, as they may all together.
    pub optional_contents: Option<OptionalContents<A>>,
    /// Enumerations of any number.
    pub reasons: Reasons,
    /// Texts and bytes, once or more.
    pub contents: Vec<Contents<A>, A>,
}

/// What `constant` of a `Every` always is.
#[derive(Clone, Copy, PartialEq, Eq)]
pub enum EveryConstant {
    /// The number.
    Only,
}

// Each number, and what it stands for.
const EVERY_CONSTANT: [(&str, EveryConstant); 1] = [("0x00000001", EveryConstant::Only)];

impl Listed for EveryConstant {
    ghost tag = { 0x540061 };

    ghost variants = { every_constant_variants };

    ghost rules = { record {
      number = every_constant_number;
      units = every_constant_is_unit;
      eq = λ x y. true;
      same = λ x y e. refl;
    } };

    fn table() -> &'static [(&'static str, Self)] {
        &EVERY_CONSTANT
    }

    fn tag() -> u32 {
        0x540061
    }

    #[tactic(auto, unfolding(kmip_ttlv_types::specs::Digits::six_digits))]
    fn name() -> &'static str {
        "0x540061"
    }

    fn number_text(self) -> &'static str {
        match self {
            EveryConstant::Only => "0x00000001",
        }
    }
}

type EveryFirst = (
    One<ListedItem<EveryConstant>>,
    One<ListedItem<Kind>>,
    One<Of<Numbers, 0x540001>>,
    One<Of<Moments, 0x540009>>,
);

type EverySecond<A> = (
    Maybe<Of<OptionalNumbers, 0x540010>, 0x540010>,
    Maybe<Of<OptionalContents<A>, 0x540030>, 0x540030>,
    One<Of<Reasons, 0x540015>>,
    Several<Of<Contents<A>, 0x540020>, 0x540020>,
);

type EveryParts<A> = Four<EveryFirst, EverySecond<A>>;

impl<A: Allocator + Copy> FromParts<A, EveryParts<A>> for Every<A> {
    ghost parts = { λ x. (every_constant.Only, x.kind, x.numbers, x.moments, (x.optional_numbers, x.optional_contents, x.reasons, x.contents)) };

    fn from_parts(
        (
            _,
            kind,
            numbers,
            moments,
            (optional_numbers, optional_contents, reasons, contents),
        ): Holds<EveryParts<A>, A>,
    ) -> Self {
        Every {
            kind,
            numbers,
            moments,
            optional_numbers,
            optional_contents,
            reasons,
            contents,
        }
    }
}

impl<A: Allocator + Copy> Structure<A> for Every<A> {
    ghost rules = { structure false ⟦<EveryParts<A> as PartList<A>>⟧.rules ⟦<Every<A> as FromParts<A, EveryParts<A>>>⟧.parts refl ⟦<Every<A> as PartialEq>⟧.eq (λ x y e. e) };

    fn read<'b>(scope: &Scope<'b, A>, tag: u32, cursor: &mut Cursor<'b, A>) -> Step<Self, A> {
        read_structure::<EveryParts<A>, Self, A>(scope, tag, false, cursor)
    }

    fn tell_parts<W: Walk<A>>(&self, state: &mut W::State) -> Result<(), AllocError> {
        W::four::<
            One<ListedItem<EveryConstant>>,
            One<ListedItem<Kind>>,
            One<Of<Numbers, 0x540001>>,
            One<Of<Moments, 0x540009>>,
        >(
            state,
            &EveryConstant::Only,
            &self.kind,
            &self.numbers,
            &self.moments,
        )?;
        W::four::<
            Maybe<Of<OptionalNumbers, 0x540010>, 0x540010>,
            Maybe<Of<OptionalContents<A>, 0x540030>, 0x540030>,
            One<Of<Reasons, 0x540015>>,
            Several<Of<Contents<A>, 0x540020>, 0x540020>,
        >(
            state,
            &self.optional_numbers,
            &self.optional_contents,
            &self.reasons,
            &self.contents,
        )?;
        Ok(())
    }
}

impl<A: Allocator + Copy> Serialize for Every<A> {
    ghost stated = { ⟦<Of<Every<A>, 0x540060> as Element<A>>⟧.rules.written };

    fn visit<V: Visitor>(&self, visitor: &mut V) -> Result<(), AllocError> {
        visit_structure(self, 0x540060, visitor)
    }
}

impl<A: Allocator + Copy> Decode<A> for Every<A> {
    ghost form = { ⟦<Of<Every<A>, 0x540060> as Element<A>>⟧.form };

    ghost is_value = { λ v x. v ≡ ⟦<Of<Every<A>, 0x540060> as Element<A>>⟧.value x };

    fn decode(alloc: A, bytes: &[u8]) -> Result<Self, Error<A>> {
        decode_structure::<EveryParts<A>, Self, A>(alloc, 0x540060, false, bytes)
    }
}

impl<A: Allocator + Copy> Sound for Every<A> {
    ghost IsSound = { ⟦<Of<Every<A>, 0x540060> as Element<A>>⟧.rules.IsSound };

    fn is_sound(&self) -> bool {
        is_structure_whole(self)
    }
}

impl<A: Allocator + Copy> Message<A> for Every<A> {
    fn comes_back() {
        structures_come_back::<Every<A>, 0x540060, A>();
    }
}
