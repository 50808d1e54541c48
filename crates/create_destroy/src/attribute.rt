// Written by codegen from types.table: change that, and run codegen/codegen.
//! Attributes of a key, and the template that has them (KMIP 1.0, sections 2.1.1 and 2.1.8).

ghost use Rattle.std.specs.Prelude.{◌↔◌, ◌+◌, IsTrue, false, refl, string_bytes, true};
ghost use Rattle.kmip_ttlv_kinds.specs.Parts.{structure, structure_where};
ghost use Rattle.kmip_ttlv_kinds.specs.Choices.{held};
ghost use Rattle.create_destroy.specs.Choices.{attribute_value_choice, ChoosesAttributeValue};
ghost use Rattle.create_destroy.specs.Listed.{attribute_value_aes_is_unit, attribute_value_aes_number, attribute_value_aes_variants};
ghost use Rattle.create_destroy.specs.declared.attribute.AttributeValueAes.TheVariants as attribute_value_aes;

use kmip_ttlv_kinds::{
    Alone, Choice, Decided, Element, FromParts, Holds, Leaf, LeafItem, Listed, ListedItem, Of,
    OneOf, PartList, Several, Structure, Walk, Wrapper, read_structure,
};
use kmip_ttlv_parts::reader::{Cursor, RuleParts, Scope, Step};
use std::alloc::{AllocError, Allocator, Global};

/// What an attribute says.
#[derive(Clone, Copy, PartialEq, Eq)]
pub enum AttributeValue {
    /// The algorithm AES.
    Aes,
    /// A number: of bits, or the sum of flags.
    Integer(i32),
}

/// What `AttributeValue::Aes` is encoded as.
#[derive(Clone, Copy, PartialEq, Eq)]
pub enum AttributeValueAes {
    /// The number.
    Only,
}

// Each number, and what it stands for.
const ATTRIBUTE_VALUE_AES: [(&str, AttributeValueAes); 1] = [(
    "0x00000003",
    AttributeValueAes::Only,
)];

impl Listed for AttributeValueAes {
    ghost tag = { 0x42000B };

    ghost variants = { attribute_value_aes_variants };

    ghost rules = { record {
      number = attribute_value_aes_number;
      units = attribute_value_aes_is_unit;
      eq = λ x y. true;
      same = λ x y e. refl;
    } };

    fn table() -> &'static [(&'static str, Self)] {
        &ATTRIBUTE_VALUE_AES
    }

    fn tag() -> u32 {
        0x42000B
    }

    #[tactic(auto, unfolding(kmip_ttlv_types::specs::Digits::six_digits))]
    fn name() -> &'static str {
        "0x42000B"
    }

    fn number_text(self) -> &'static str {
        match self {
            AttributeValueAes::Only => "0x00000003",
        }
    }
}

impl AttributeValue {
    /// Whether this text, if it is that of 0x42000A, chooses it.
    pub fn is_chosen_by(&self, text: &str) -> bool
        ensures { IsTrue result ↔ ChoosesAttributeValue text.now self.now }
    {
        match self {
            AttributeValue::Aes => text == "Cryptographic Algorithm",
            AttributeValue::Integer(_) => text == "Cryptographic Length"
                || text == "Cryptographic Usage Mask",
        }
    }
}

// The rules of the variants, in their order.
const ATTRIBUTE_VALUE_RULES: [RuleParts; 2] = [
    RuleParts::Texts {
        tag: 0x42000A,
        texts: &["Cryptographic Algorithm"],
    },
    RuleParts::Texts {
        tag: 0x42000A,
        texts: &["Cryptographic Length", "Cryptographic Usage Mask"],
    },
];

impl<A: Allocator + Copy> Choice<A> for AttributeValue {
    ghost chosen = { attribute_value_choice ⟦<AttributeValue as PartialEq>⟧.eq record {
      aes = held ⟦<ListedItem<AttributeValueAes> as Element<A>>⟧.rules refl refl (λ x y e. refl);
      integer = held ⟦<LeafItem<i32, 0x42000B> as Element<A>>⟧.rules refl refl (λ x y e. e);
    } };

    #[tactic(auto, unfolding(kmip_ttlv_reader::specs::RuleParts::parts_of, kmip_ttlv_reader::specs::RuleParts::equal_sides))]
    fn variant_rules() -> &'static [RuleParts] {
        &ATTRIBUTE_VALUE_RULES
    }

    fn read_held<'b>(
        scope: &Scope<'b, A>,
        cursor: &mut Cursor<'b, A>,
        place: usize,
    ) -> Step<Self, A> {
        match place {
            0 => Ok(
                match <ListedItem<AttributeValueAes> as Element<A>>::read_one(scope, cursor)? {
                    AttributeValueAes::Only => AttributeValue::Aes
                },
            ),
            1 => Ok(AttributeValue::Integer(<LeafItem<i32, 0x42000B> as Element<A>>::read_one(
                scope, cursor,
            )?)),
            _ => unreachable!(),
        }
    }

    fn tell_held<W: Walk<A>>(&self, state: &mut W::State) -> Result<(), AllocError> {
        match self {
            AttributeValue::Aes => W::item::<ListedItem<AttributeValueAes>>(
                state,
                &AttributeValueAes::Only,
            ),
            AttributeValue::Integer(inner) => W::item::<LeafItem<i32, 0x42000B>>(state, inner),
        }
    }
}

/// What is known of a key, by its name.
#[derive(Drop)]
#[derive_where(PartialEq)]
pub struct Attribute<A: Allocator = Global> {
    /// The name of the attribute.
    pub name: String<A>,
    /// What it says.
    pub value: AttributeValue,
}

impl<A: Allocator> Decided for Attribute<A> {
    ghost IsDecided = { λ x. (ChoosesAttributeValue (string_bytes x.name) x.value) };

    fn is_decided(&self) -> bool {
        self.value.is_chosen_by(self.name.as_str())
    }
}

type AttributeParts<A> = (Leaf<String<A>, 0x42000A>, OneOf<AttributeValue, 0x42000B>);

impl<A: Allocator + Copy> FromParts<A, AttributeParts<A>> for Attribute<A> {
    ghost parts = { λ x. (x.name, x.value) };

    fn from_parts((name, value): Holds<AttributeParts<A>, A>) -> Self {
        Attribute { name, value }
    }
}

impl<A: Allocator + Copy> Structure<A> for Attribute<A> {
    ghost rules = { structure_where false ⟦<AttributeParts<A> as PartList<A>>⟧.rules ⟦<Attribute<A> as FromParts<A, AttributeParts<A>>>⟧.parts refl
        (λ x. (ChoosesAttributeValue (string_bytes x.name) x.value)) (λ x d. (tt, (d))) ⟦<Attribute<A> as PartialEq>⟧.eq (λ x y e. e) };

    fn read<'b>(scope: &Scope<'b, A>, tag: u32, cursor: &mut Cursor<'b, A>) -> Step<Self, A> {
        read_structure::<AttributeParts<A>, Self, A>(scope, tag, false, cursor)
    }

    fn tell_parts<W: Walk<A>>(&self, state: &mut W::State) -> Result<(), AllocError> {
        W::two::<Leaf<String<A>, 0x42000A>, OneOf<AttributeValue, 0x42000B>>(
            state,
            &self.name,
            &self.value,
        )?;
        W::check(state, self);
        Ok(())
    }
}

/// The attributes of a key that is to be made.
#[derive(Drop)]
#[derive_where(PartialEq)]
pub struct Template<A: Allocator = Global> {
    /// One or more.
    pub attributes: Vec<Attribute<A>, A>,
}

type TemplateParts<A> = Alone<Several<Of<Attribute<A>, 0x420008>, 0x420008>>;

impl<A: Allocator + Copy> FromParts<A, TemplateParts<A>> for Template<A> {
    ghost parts = { λ x. x.attributes };

    fn from_parts(attributes: Holds<TemplateParts<A>, A>) -> Self {
        Template { attributes }
    }
}

impl<A: Allocator + Copy> Structure<A> for Template<A> {
    ghost rules = { structure false ⟦<TemplateParts<A> as PartList<A>>⟧.rules ⟦<Template<A> as FromParts<A, TemplateParts<A>>>⟧.parts refl ⟦<Template<A> as PartialEq>⟧.eq (λ x y e. e) };

    fn read<'b>(scope: &Scope<'b, A>, tag: u32, cursor: &mut Cursor<'b, A>) -> Step<Self, A> {
        read_structure::<TemplateParts<A>, Self, A>(scope, tag, false, cursor)
    }

    fn tell_parts<W: Walk<A>>(&self, state: &mut W::State) -> Result<(), AllocError> {
        Self::tell_inner::<W>(&self.attributes, state)
    }
}

impl<A: Allocator + Copy> Wrapper<Vec<Attribute<A>, A>, A> for Template<A> {
    ghost wrap = { λ x. record { attributes = x } };

    fn into_inner(self) -> Vec<Attribute<A>, A> {
        self.attributes
    }

    fn tell_inner<W: Walk<A>>(
        inner: &Vec<Attribute<A>, A>,
        state: &mut W::State,
    ) -> Result<(), AllocError> {
        W::one::<Several<Of<Attribute<A>, 0x420008>, 0x420008>>(state, inner)
    }
}
