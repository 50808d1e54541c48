// Written by codegen from types.table: change that, and run codegen/codegen.
//! Leaves of every kind.

ghost use Rattle.std.specs.Prelude.{false, refl};
ghost use denote.Enum.Bare.{true_same};
ghost use Rattle.kmip_ttlv_kinds.specs.Parts.{structure};
ghost use Rattle.ttlv_vectors.specs.Listed.{kind_is_unit, kind_number, kind_same, kind_variants};
ghost use Rattle.ttlv_vectors.specs.contracts.leaves.Kind as kind_contract;

use kmip_ttlv_kinds::{
    Alone, Four, FromParts, Holds, Leaf, Listed, MaybeLeaf, PartList, Structure, Walk,
    read_structure,
};
use kmip_ttlv_parts::reader::{BigNumber, Cursor, DateTime, Interval, Scope, Step};
use std::alloc::{AllocError, Allocator, Global};

/// Numbers with a sign.
#[derive(Clone, Copy, PartialEq, Eq)]
pub struct Numbers {
    /// A number with a sign, in 32 bits.
    pub count: i32,
    /// A number with a sign, in 64 bits.
    pub long: i64,
}

type NumbersParts = (Leaf<i32, 0x540002>, Leaf<i64, 0x540003>);

impl<A: Allocator + Copy> FromParts<A, NumbersParts> for Numbers {
    ghost parts = { λ x. (x.count, x.long) };

    fn from_parts((count, long): Holds<NumbersParts, A>) -> Self {
        Numbers { count, long }
    }
}

impl<A: Allocator + Copy> Structure<A> for Numbers {
    ghost rules = { structure false ⟦<NumbersParts as PartList<A>>⟧.rules ⟦<Numbers as FromParts<A, NumbersParts>>⟧.parts refl ⟦<Numbers as PartialEq>⟧.eq (λ x y e. e) };

    fn read<'b>(scope: &Scope<'b, A>, tag: u32, cursor: &mut Cursor<'b, A>) -> Step<Self, A> {
        read_structure::<NumbersParts, Self, A>(scope, tag, false, cursor)
    }

    fn tell_parts<W: Walk<A>>(&self, state: &mut W::State) -> Result<(), AllocError> {
        W::two::<Leaf<i32, 0x540002>, Leaf<i64, 0x540003>>(state, &self.count, &self.long)
    }
}

/// Times, and truth.
#[derive(Clone, Copy, PartialEq, Eq)]
pub struct Moments {
    /// A date, in seconds since 1970.
    pub date: DateTime,
    /// Truth.
    pub truth: bool,
    /// A time, in seconds.
    pub seconds: Interval,
}

type MomentsParts = (
    Leaf<DateTime, 0x540004>,
    Leaf<bool, 0x540005>,
    Leaf<Interval, 0x540006>,
);

impl<A: Allocator + Copy> FromParts<A, MomentsParts> for Moments {
    ghost parts = { λ x. (x.date, x.truth, x.seconds) };

    fn from_parts((date, truth, seconds): Holds<MomentsParts, A>) -> Self {
        Moments {
            date,
            truth,
            seconds,
        }
    }
}

impl<A: Allocator + Copy> Structure<A> for Moments {
    ghost rules = { structure false ⟦<MomentsParts as PartList<A>>⟧.rules ⟦<Moments as FromParts<A, MomentsParts>>⟧.parts refl ⟦<Moments as PartialEq>⟧.eq (λ x y e. e) };

    fn read<'b>(scope: &Scope<'b, A>, tag: u32, cursor: &mut Cursor<'b, A>) -> Step<Self, A> {
        read_structure::<MomentsParts, Self, A>(scope, tag, false, cursor)
    }

    fn tell_parts<W: Walk<A>>(&self, state: &mut W::State) -> Result<(), AllocError> {
        W::three::<Leaf<DateTime, 0x540004>, Leaf<bool, 0x540005>, Leaf<Interval, 0x540006>>(
            state,
            &self.date,
            &self.truth,
            &self.seconds,
        )
    }
}

/// Texts and bytes of every kind.
#[derive(Drop)]
#[derive_where(PartialEq)]
pub struct Contents<A: Allocator = Global> {
    /// A text.
    pub text: String<A>,
    /// Bytes.
    pub bytes: Vec<u8, A>,
    /// A large number, its highest byte first.
    pub big: BigNumber<A>,
}

type ContentsParts<A> = (
    Leaf<String<A>, 0x540021>,
    Leaf<Vec<u8, A>, 0x540022>,
    Leaf<BigNumber<A>, 0x540023>,
);

impl<A: Allocator + Copy> FromParts<A, ContentsParts<A>> for Contents<A> {
    ghost parts = { λ x. (x.text, x.bytes, x.big) };

    fn from_parts((text, bytes, big): Holds<ContentsParts<A>, A>) -> Self {
        Contents { text, bytes, big }
    }
}

impl<A: Allocator + Copy> Structure<A> for Contents<A> {
    ghost rules = { structure false ⟦<ContentsParts<A> as PartList<A>>⟧.rules ⟦<Contents<A> as FromParts<A, ContentsParts<A>>>⟧.parts refl ⟦<Contents<A> as PartialEq>⟧.eq (λ x y e. e) };

    fn read<'b>(scope: &Scope<'b, A>, tag: u32, cursor: &mut Cursor<'b, A>) -> Step<Self, A> {
        read_structure::<ContentsParts<A>, Self, A>(scope, tag, false, cursor)
    }

    fn tell_parts<W: Walk<A>>(&self, state: &mut W::State) -> Result<(), AllocError> {
        W::three::<
            Leaf<String<A>, 0x540021>,
            Leaf<Vec<u8, A>, 0x540022>,
            Leaf<BigNumber<A>, 0x540023>,
        >(state, &self.text, &self.bytes, &self.big)
    }
}

/// Parts, each of which may be absent.
#[derive(Drop)]
#[derive_where(PartialEq)]
pub struct OptionalContents<A: Allocator = Global> {
    /// Truth.
    pub truth: Option<bool>,
    /// A time, in seconds.
    pub seconds: Option<Interval>,
    /// A text.
    pub text: Option<String<A>>,
    /// Bytes.
    pub bytes: Option<Vec<u8, A>>,
    /// A large number, its highest byte first.
    pub big: Option<BigNumber<A>>,
}

type OptionalContentsFirst<A> = (
    MaybeLeaf<bool, 0x540005>,
    MaybeLeaf<Interval, 0x540006>,
    MaybeLeaf<String<A>, 0x540021>,
    MaybeLeaf<Vec<u8, A>, 0x540022>,
);

type OptionalContentsSecond<A> = Alone<MaybeLeaf<BigNumber<A>, 0x540023>>;

type OptionalContentsParts<A> = Four<OptionalContentsFirst<A>, OptionalContentsSecond<A>>;

impl<A: Allocator + Copy> FromParts<A, OptionalContentsParts<A>> for OptionalContents<A> {
    ghost parts = { λ x. (x.truth, x.seconds, x.text, x.bytes, x.big) };

    fn from_parts((truth, seconds, text, bytes, big): Holds<OptionalContentsParts<A>, A>) -> Self {
        OptionalContents {
            truth,
            seconds,
            text,
            bytes,
            big,
        }
    }
}

impl<A: Allocator + Copy> Structure<A> for OptionalContents<A> {
    ghost rules = { structure false ⟦<OptionalContentsParts<A> as PartList<A>>⟧.rules ⟦<OptionalContents<A> as FromParts<A, OptionalContentsParts<A>>>⟧.parts refl ⟦<OptionalContents<A> as PartialEq>⟧.eq (λ x y e. e) };

    fn read<'b>(scope: &Scope<'b, A>, tag: u32, cursor: &mut Cursor<'b, A>) -> Step<Self, A> {
        read_structure::<OptionalContentsParts<A>, Self, A>(scope, tag, false, cursor)
    }

    fn tell_parts<W: Walk<A>>(&self, state: &mut W::State) -> Result<(), AllocError> {
        W::four::<
            MaybeLeaf<bool, 0x540005>,
            MaybeLeaf<Interval, 0x540006>,
            MaybeLeaf<String<A>, 0x540021>,
            MaybeLeaf<Vec<u8, A>, 0x540022>,
        >(state, &self.truth, &self.seconds, &self.text, &self.bytes)?;
        W::one::<MaybeLeaf<BigNumber<A>, 0x540023>>(state, &self.big)?;
        Ok(())
    }
}

/// One of two.
#[derive(Clone, Copy, Debug, PartialEq, Eq)]
pub enum Kind {
    /// The first.
    First,
    /// The second.
    Second,
}

// Each number, and what it stands for.
const KIND: [(&str, Kind); 2] = [("0x00000001", Kind::First), ("0x00000002", Kind::Second)];

impl Listed for Kind {
    ghost tag = { 0x540040 };

    ghost variants = { kind_variants };

    ghost rules = { record {
      number = kind_number;
      units = kind_is_unit;
      eq = ⟦<Kind as PartialEq>⟧.eq;
      same = λ x y e. true_same kind_contract.the_type x y (kind_same x y e);
    } };

    fn table() -> &'static [(&'static str, Self)] {
        &KIND
    }

    fn tag() -> u32 {
        0x540040
    }

    #[tactic(auto, unfolding(kmip_ttlv_types::specs::Digits::six_digits))]
    fn name() -> &'static str {
        "0x540040"
    }

    fn number_text(self) -> &'static str {
        match self {
            Kind::First => "0x00000001",
            Kind::Second => "0x00000002",
        }
    }
}

/// Numbers, each of which may be absent.
#[derive(Clone, Copy, PartialEq, Eq)]
pub struct OptionalNumbers {
    /// A number with a sign, in 32 bits.
    pub count: Option<i32>,
    /// A number with a sign, in 64 bits.
    pub long: Option<i64>,
    /// A date, in seconds since 1970.
    pub date: Option<DateTime>,
}

type OptionalNumbersParts = (
    MaybeLeaf<i32, 0x540002>,
    MaybeLeaf<i64, 0x540003>,
    MaybeLeaf<DateTime, 0x540004>,
);

impl<A: Allocator + Copy> FromParts<A, OptionalNumbersParts> for OptionalNumbers {
    ghost parts = { λ x. (x.count, x.long, x.date) };

    fn from_parts((count, long, date): Holds<OptionalNumbersParts, A>) -> Self {
        OptionalNumbers { count, long, date }
    }
}

impl<A: Allocator + Copy> Structure<A> for OptionalNumbers {
    ghost rules = { structure false ⟦<OptionalNumbersParts as PartList<A>>⟧.rules ⟦<OptionalNumbers as FromParts<A, OptionalNumbersParts>>⟧.parts refl ⟦<OptionalNumbers as PartialEq>⟧.eq (λ x y e. e) };

    fn read<'b>(scope: &Scope<'b, A>, tag: u32, cursor: &mut Cursor<'b, A>) -> Step<Self, A> {
        read_structure::<OptionalNumbersParts, Self, A>(scope, tag, false, cursor)
    }

    fn tell_parts<W: Walk<A>>(&self, state: &mut W::State) -> Result<(), AllocError> {
        W::three::<
            MaybeLeaf<i32, 0x540002>,
            MaybeLeaf<i64, 0x540003>,
            MaybeLeaf<DateTime, 0x540004>,
        >(state, &self.count, &self.long, &self.date)
    }
}

/// Enumerations of any number, a vendor's among them.
#[derive(Clone, Copy, PartialEq, Eq)]
pub struct Reasons {
    /// A reason's number, which has to be there.
    pub first: u32,
    /// A second reason's number, which may be absent.
    pub second: Option<u32>,
}

type ReasonsParts = (Leaf<u32, 0x540007>, MaybeLeaf<u32, 0x540008>);

impl<A: Allocator + Copy> FromParts<A, ReasonsParts> for Reasons {
    ghost parts = { λ x. (x.first, x.second) };

    fn from_parts((first, second): Holds<ReasonsParts, A>) -> Self {
        Reasons { first, second }
    }
}

impl<A: Allocator + Copy> Structure<A> for Reasons {
    ghost rules = { structure false ⟦<ReasonsParts as PartList<A>>⟧.rules ⟦<Reasons as FromParts<A, ReasonsParts>>⟧.parts refl ⟦<Reasons as PartialEq>⟧.eq (λ x y e. e) };

    fn read<'b>(scope: &Scope<'b, A>, tag: u32, cursor: &mut Cursor<'b, A>) -> Step<Self, A> {
        read_structure::<ReasonsParts, Self, A>(scope, tag, false, cursor)
    }

    fn tell_parts<W: Walk<A>>(&self, state: &mut W::State) -> Result<(), AllocError> {
        W::two::<Leaf<u32, 0x540007>, MaybeLeaf<u32, 0x540008>>(state, &self.first, &self.second)
    }
}
