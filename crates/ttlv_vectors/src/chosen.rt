// Written by codegen from types.table: change that, and run codegen/codegen.
//! Choices, by the type of an item or by a word before them.

ghost use Rattle.std.specs.Prelude.{◌≡◌, ◌↔◌, ◌+◌, None, IfSome, IsTrue, Some, false, refl, string_bytes, true};
ghost use Rattle.kmip_ttlv_kinds.specs.Parts.{all_enough, structure_where};
ghost use Rattle.kmip_ttlv_kinds.specs.Choices.{held};
ghost use Rattle.ttlv_vectors.specs.Choices.{said_choice, more_choice, named_choice, ChoosesNamed};

use kmip_ttlv::error::Error;
use kmip_ttlv::laws::{Message, Sound};
use kmip_ttlv::shape::{Decode, Serialize};
use kmip_ttlv_kinds::{
    Choice, Decided, Element, FromParts, Holds, Leaf, LeafItem, MaybeOneOf, Of, OneOf, PartList,
    Structure, Walk, decode_structure, is_structure_whole, read_structure, structures_come_back,
    visit_structure,
};
use kmip_ttlv_parts::reader::{Cursor, RuleParts, Scope, Step};
use kmip_ttlv_parts::types::TtlvType;
use kmip_ttlv_parts::visit::Visitor;
use std::alloc::{AllocError, Allocator, Global};

/// A text or a number, by its type.
#[derive(Drop)]
#[derive_where(PartialEq)]
pub enum Said<A: Allocator = Global> {
    /// A text.
    Line(String<A>),
    /// A number.
    Count(i32),
}

// The rules of the variants, in their order.
const SAID_RULES: [RuleParts; 2] = [
    RuleParts::Type(TtlvType::TextString),
    RuleParts::Type(TtlvType::Integer),
];

impl<A: Allocator + Copy> Choice<A> for Said<A> {
    ghost chosen = { said_choice ⟦<Said<A> as PartialEq>⟧.eq record {
      line = held ⟦<LeafItem<String<A>, 0x540071> as Element<A>>⟧.rules refl refl (λ x y e. e);
      count = held ⟦<LeafItem<i32, 0x540071> as Element<A>>⟧.rules refl refl (λ x y e. e);
    } };

    #[tactic(auto, unfolding(kmip_ttlv_reader::specs::RuleParts::parts_of, kmip_ttlv_reader::specs::RuleParts::equal_sides))]
    fn variant_rules() -> &'static [RuleParts] {
        &SAID_RULES
    }

    fn read_held<'b>(
        scope: &Scope<'b, A>,
        cursor: &mut Cursor<'b, A>,
        place: usize,
    ) -> Step<Self, A> {
        match place {
            0 => Ok(Said::Line(<LeafItem<String<A>, 0x540071> as Element<A>>::read_one(
                scope, cursor,
            )?)),
            1 => Ok(Said::Count(<LeafItem<i32, 0x540071> as Element<A>>::read_one(scope, cursor)?)),
            _ => unreachable!(),
        }
    }

    fn tell_held<W: Walk<A>>(&self, state: &mut W::State) -> Result<(), AllocError> {
        match self {
            Said::Line(inner) => W::item::<LeafItem<String<A>, 0x540071>>(state, inner),
            Said::Count(inner) => W::item::<LeafItem<i32, 0x540071>>(state, inner),
        }
    }
}

/// The same of what is more.
#[derive(Drop)]
#[derive_where(PartialEq)]
pub enum More<A: Allocator = Global> {
    /// A text.
    Line(String<A>),
    /// A number.
    Count(i32),
}

// The rules of the variants, in their order.
const MORE_RULES: [RuleParts; 2] = [
    RuleParts::Type(TtlvType::TextString),
    RuleParts::Type(TtlvType::Integer),
];

impl<A: Allocator + Copy> Choice<A> for More<A> {
    ghost chosen = { more_choice ⟦<More<A> as PartialEq>⟧.eq record {
      line = held ⟦<LeafItem<String<A>, 0x540073> as Element<A>>⟧.rules refl refl (λ x y e. e);
      count = held ⟦<LeafItem<i32, 0x540073> as Element<A>>⟧.rules refl refl (λ x y e. e);
    } };

    #[tactic(auto, unfolding(kmip_ttlv_reader::specs::RuleParts::parts_of, kmip_ttlv_reader::specs::RuleParts::equal_sides))]
    fn variant_rules() -> &'static [RuleParts] {
        &MORE_RULES
    }

    fn read_held<'b>(
        scope: &Scope<'b, A>,
        cursor: &mut Cursor<'b, A>,
        place: usize,
    ) -> Step<Self, A> {
        match place {
            0 => Ok(More::Line(<LeafItem<String<A>, 0x540073> as Element<A>>::read_one(
                scope, cursor,
            )?)),
            1 => Ok(More::Count(<LeafItem<i32, 0x540073> as Element<A>>::read_one(scope, cursor)?)),
            _ => unreachable!(),
        }
    }

    fn tell_held<W: Walk<A>>(&self, state: &mut W::State) -> Result<(), AllocError> {
        match self {
            More::Line(inner) => W::item::<LeafItem<String<A>, 0x540073>>(state, inner),
            More::Count(inner) => W::item::<LeafItem<i32, 0x540073>>(state, inner),
        }
    }
}

/// A text or a number, by a word.
#[derive(Drop)]
#[derive_where(PartialEq)]
pub enum Named<A: Allocator = Global> {
    /// A text.
    Line(String<A>),
    /// A number.
    Count(i32),
}

impl<A: Allocator> Named<A> {
    /// Whether this text, if it is that of 0x540070, chooses it.
    pub fn is_chosen_by(&self, text: &str) -> bool
        ensures { IsTrue result ↔ ChoosesNamed text.now self.now }
    {
        match self {
            Named::Line(_) => text == "Label" || text == "Address",
            Named::Count(_) => text == "Number",
        }
    }
}

// The rules of the variants, in their order.
const NAMED_RULES: [RuleParts; 2] = [
    RuleParts::Texts {
        tag: 0x540070,
        texts: &["Label", "Address"],
    },
    RuleParts::Texts {
        tag: 0x540070,
        texts: &["Number"],
    },
];

impl<A: Allocator + Copy> Choice<A> for Named<A> {
    ghost chosen = { named_choice ⟦<Named<A> as PartialEq>⟧.eq record {
      line = held ⟦<LeafItem<String<A>, 0x540072> as Element<A>>⟧.rules refl refl (λ x y e. e);
      count = held ⟦<LeafItem<i32, 0x540072> as Element<A>>⟧.rules refl refl (λ x y e. e);
    } };

    #[tactic(auto, unfolding(kmip_ttlv_reader::specs::RuleParts::parts_of, kmip_ttlv_reader::specs::RuleParts::equal_sides))]
    fn variant_rules() -> &'static [RuleParts] {
        &NAMED_RULES
    }

    fn read_held<'b>(
        scope: &Scope<'b, A>,
        cursor: &mut Cursor<'b, A>,
        place: usize,
    ) -> Step<Self, A> {
        match place {
            0 => Ok(Named::Line(<LeafItem<String<A>, 0x540072> as Element<A>>::read_one(
                scope, cursor,
            )?)),
            1 => Ok(Named::Count(<LeafItem<i32, 0x540072> as Element<A>>::read_one(
                scope, cursor,
            )?)),
            _ => unreachable!(),
        }
    }

    fn tell_held<W: Walk<A>>(&self, state: &mut W::State) -> Result<(), AllocError> {
        match self {
            Named::Line(inner) => W::item::<LeafItem<String<A>, 0x540072>>(state, inner),
            Named::Count(inner) => W::item::<LeafItem<i32, 0x540072>>(state, inner),
        }
    }
}

/// A word, and what it chooses, behind another choice.
#[derive(Drop)]
#[derive_where(PartialEq)]
pub struct Chosen<A: Allocator = Global> {
    /// What chooses.
    pub word: String<A>,
    /// A text or a number.
    pub said: Said<A>,
    /// What the word chooses.
    pub named: Option<Named<A>>,
    /// A text or a number more.
    pub more: Option<More<A>>,
}

impl<A: Allocator> Decided for Chosen<A> {
    ghost IsDecided = { λ x. IfSome x.named (λ y. ChoosesNamed (string_bytes x.word) y) };

    fn is_decided(&self) -> bool {
        match &self.named {
            Some(inner) => inner.is_chosen_by(self.word.as_str()),
            None => true,
        }
    }
}

type ChosenParts<A> = (
    Leaf<String<A>, 0x540070>,
    OneOf<Said<A>, 0x540071>,
    MaybeOneOf<Named<A>, 0x540072>,
    MaybeOneOf<More<A>, 0x540073>,
);

impl<A: Allocator + Copy> FromParts<A, ChosenParts<A>> for Chosen<A> {
    ghost parts = { λ x. (x.word, x.said, x.named, x.more) };

    fn from_parts((word, said, named, more): Holds<ChosenParts<A>, A>) -> Self {
        Chosen {
            word,
            said,
            named,
            more,
        }
    }
}

impl<A: Allocator + Copy> Structure<A> for Chosen<A> {
    ghost rules = { structure_where false ⟦<ChosenParts<A> as PartList<A>>⟧.rules ⟦<Chosen<A> as FromParts<A, ChosenParts<A>>>⟧.parts refl
        (λ x. IfSome x.named (λ y. ChoosesNamed (string_bytes x.word) y)) (λ x d. (tt, (tt, (d, (all_enough x.more (λ y. tt)))))) ⟦<Chosen<A> as PartialEq>⟧.eq (λ x y e. e) };

    fn read<'b>(scope: &Scope<'b, A>, tag: u32, cursor: &mut Cursor<'b, A>) -> Step<Self, A> {
        read_structure::<ChosenParts<A>, Self, A>(scope, tag, false, cursor)
    }

    fn tell_parts<W: Walk<A>>(&self, state: &mut W::State) -> Result<(), AllocError> {
        W::four::<
            Leaf<String<A>, 0x540070>,
            OneOf<Said<A>, 0x540071>,
            MaybeOneOf<Named<A>, 0x540072>,
            MaybeOneOf<More<A>, 0x540073>,
        >(state, &self.word, &self.said, &self.named, &self.more)?;
        W::check(state, self);
        Ok(())
    }
}

impl<A: Allocator + Copy> Serialize for Chosen<A> {
    ghost stated = { ⟦<Of<Chosen<A>, 0x540074> as Element<A>>⟧.rules.written };

    fn visit<V: Visitor>(&self, visitor: &mut V) -> Result<(), AllocError> {
        visit_structure(self, 0x540074, visitor)
    }
}

impl<A: Allocator + Copy> Decode<A> for Chosen<A> {
    ghost form = { ⟦<Of<Chosen<A>, 0x540074> as Element<A>>⟧.form };

    ghost is_value = { λ v x. v ≡ ⟦<Of<Chosen<A>, 0x540074> as Element<A>>⟧.value x };

    fn decode(alloc: A, bytes: &[u8]) -> Result<Self, Error<A>> {
        decode_structure::<ChosenParts<A>, Self, A>(alloc, 0x540074, false, bytes)
    }
}

impl<A: Allocator + Copy> Sound for Chosen<A> {
    ghost IsSound = { ⟦<Of<Chosen<A>, 0x540074> as Element<A>>⟧.rules.IsSound };

    fn is_sound(&self) -> bool {
        is_structure_whole(self)
    }
}

impl<A: Allocator + Copy> Message<A> for Chosen<A> {
    fn comes_back() {
        structures_come_back::<Chosen<A>, 0x540074, A>();
    }
}
