// Written by codegen from types.table: change that, and run codegen/codegen.
//! An attribute: its name, its index and what it says (KMIP 1.0, section 2.1.1).

ghost use Rattle.std.specs.Prelude.{◌↔◌, ◌+◌, IsTrue, refl, string_bytes, true};
ghost use Rattle.kmip_ttlv_parts.specs.Returns.{IsNoneOf};
ghost use Rattle.kmip_ttlv_kinds.specs.Parts.{structure, structure_where};
ghost use Rattle.kmip_ttlv_kinds.specs.Choices.{held, held_choice};
ghost use Rattle.kmip_attributes.specs.Choices.{attribute_structure_choice, ChoosesAttributeStructure, attribute_structure_names, attribute_value_choice, ChoosesAttributeValue, attribute_value_names};

use crate::structures::{
    ApplicationSpecificInformation, CertificateIdentifier, CertificateIssuer, CertificateSubject,
    CryptographicDomainParameters, CryptographicParameters, Digest, Link, Name, RevocationReason,
    UsageLimits,
};
use crate::values::{CertificateType, CryptographicAlgorithm, ObjectType, State};
use kmip_ttlv_kinds::{
    Choice, Decided, Element, FromParts, Holds, InBox, Leaf, LeafItem, MaybeLeaf, Of, OneOf,
    PartList, Structure, Under, Walk, read_choice, read_structure,
};
use kmip_ttlv_parts::laws::is_none_of;
use kmip_ttlv_parts::reader::{BigNumber, Cursor, DateTime, Interval, RuleParts, Scope, Step};
use kmip_ttlv_parts::types::TtlvType;
use kmip_ttlv_parts::{Boxed, Enumeration, Kept};
use std::alloc::{AllocError, Allocator, Global};

/// What an attribute that is a structure says, by its name.
#[derive(Drop)]
#[derive_where(PartialEq)]
pub enum AttributeStructure<A: Allocator = Global> {
    /// What users call an object.
    Name(Name<A>),
    /// How a key is used.
    CryptographicParameters(Boxed<CryptographicParameters, A>),
    /// What a key pair is made over.
    CryptographicDomainParameters(CryptographicDomainParameters),
    /// Who issued a certificate, and as which.
    CertificateIdentifier(CertificateIdentifier<A>),
    /// Whom a certificate is for.
    CertificateSubject(CertificateSubject<A>),
    /// Who issued a certificate.
    CertificateIssuer(CertificateIssuer<A>),
    /// A hash of an object.
    Digest(Digest<A>),
    /// How much may be done with an object.
    UsageLimits(UsageLimits),
    /// Why an object was revoked.
    RevocationReason(RevocationReason<A>),
    /// An object that belongs to this one.
    Link(Link<A>),
    /// What an application keeps with an object.
    ApplicationSpecificInformation(ApplicationSpecificInformation<A>),
    /// What an attribute of any other name says.
    Other(Kept<A>),
}

// The texts that choose a variant, whatever the type of its item is.
const ATTRIBUTE_STRUCTURE_NAMES: [&str; 11] = [
    "Name",
    "Cryptographic Parameters",
    "Cryptographic Domain Parameters",
    "Certificate Identifier",
    "Certificate Subject",
    "Certificate Issuer",
    "Digest",
    "Usage Limits",
    "Revocation Reason",
    "Link",
    "Application Specific Information",
];

// Whether a text is none of these.
fn is_no_attribute_structure(text: &str) -> bool
    ensures { IsTrue result ↔ IsNoneOf text.now attribute_structure_names }
{
    is_none_of(text, &ATTRIBUTE_STRUCTURE_NAMES)
}

impl<A: Allocator> AttributeStructure<A> {
    /// Whether this text, if it is that of 0x42000A, chooses it.
    pub fn is_chosen_by(&self, text: &str) -> bool
        ensures { IsTrue result ↔ ChoosesAttributeStructure text.now self.now }
    {
        match self {
            AttributeStructure::Name(_) => text == "Name",
            AttributeStructure::CryptographicParameters(_) => text == "Cryptographic Parameters",
            AttributeStructure::CryptographicDomainParameters(_) => text
                == "Cryptographic Domain Parameters",
            AttributeStructure::CertificateIdentifier(_) => text == "Certificate Identifier",
            AttributeStructure::CertificateSubject(_) => text == "Certificate Subject",
            AttributeStructure::CertificateIssuer(_) => text == "Certificate Issuer",
            AttributeStructure::Digest(_) => text == "Digest",
            AttributeStructure::UsageLimits(_) => text == "Usage Limits",
            AttributeStructure::RevocationReason(_) => text == "Revocation Reason",
            AttributeStructure::Link(_) => text == "Link",
            AttributeStructure::ApplicationSpecificInformation(_) => text
                == "Application Specific Information",
            AttributeStructure::Other(_) => is_no_attribute_structure(text),
        }
    }
}

// The rules of the variants, in their order.
const ATTRIBUTE_STRUCTURE_RULES: [RuleParts; 12] = [
    RuleParts::Texts {
        tag: 0x42000A,
        texts: &["Name"],
    },
    RuleParts::Texts {
        tag: 0x42000A,
        texts: &["Cryptographic Parameters"],
    },
    RuleParts::Texts {
        tag: 0x42000A,
        texts: &["Cryptographic Domain Parameters"],
    },
    RuleParts::Texts {
        tag: 0x42000A,
        texts: &["Certificate Identifier"],
    },
    RuleParts::Texts {
        tag: 0x42000A,
        texts: &["Certificate Subject"],
    },
    RuleParts::Texts {
        tag: 0x42000A,
        texts: &["Certificate Issuer"],
    },
    RuleParts::Texts {
        tag: 0x42000A,
        texts: &["Digest"],
    },
    RuleParts::Texts {
        tag: 0x42000A,
        texts: &["Usage Limits"],
    },
    RuleParts::Texts {
        tag: 0x42000A,
        texts: &["Revocation Reason"],
    },
    RuleParts::Texts {
        tag: 0x42000A,
        texts: &["Link"],
    },
    RuleParts::Texts {
        tag: 0x42000A,
        texts: &["Application Specific Information"],
    },
    RuleParts::Type(TtlvType::Structure),
];

impl<A: Allocator + Copy> Choice<A> for AttributeStructure<A> {
    ghost chosen = { attribute_structure_choice ⟦<AttributeStructure<A> as PartialEq>⟧.eq record {
      name = held ⟦<Of<Name<A>, 0x42000B> as Element<A>>⟧.rules refl refl (λ x y e. e);
      cryptographic_parameters = held ⟦<InBox<Of<CryptographicParameters, 0x42000B>> as Element<A>>⟧.rules refl refl (λ x y e. e);
      cryptographic_domain_parameters = held ⟦<Of<CryptographicDomainParameters, 0x42000B> as Element<A>>⟧.rules refl refl (λ x y e. e);
      certificate_identifier = held ⟦<Of<CertificateIdentifier<A>, 0x42000B> as Element<A>>⟧.rules refl refl (λ x y e. e);
      certificate_subject = held ⟦<Of<CertificateSubject<A>, 0x42000B> as Element<A>>⟧.rules refl refl (λ x y e. e);
      certificate_issuer = held ⟦<Of<CertificateIssuer<A>, 0x42000B> as Element<A>>⟧.rules refl refl (λ x y e. e);
      digest = held ⟦<Of<Digest<A>, 0x42000B> as Element<A>>⟧.rules refl refl (λ x y e. e);
      usage_limits = held ⟦<Of<UsageLimits, 0x42000B> as Element<A>>⟧.rules refl refl (λ x y e. e);
      revocation_reason = held ⟦<Of<RevocationReason<A>, 0x42000B> as Element<A>>⟧.rules refl refl (λ x y e. e);
      link = held ⟦<Of<Link<A>, 0x42000B> as Element<A>>⟧.rules refl refl (λ x y e. e);
      application_specific_information = held ⟦<Of<ApplicationSpecificInformation<A>, 0x42000B> as Element<A>>⟧.rules refl refl (λ x y e. e);
      other = held ⟦<Of<Kept<A>, 0x42000B> as Element<A>>⟧.rules refl refl (λ x y e. e);
    } };

    #[tactic(auto, unfolding(kmip_ttlv_reader::specs::RuleParts::parts_of, kmip_ttlv_reader::specs::RuleParts::equal_sides))]
    fn variant_rules() -> &'static [RuleParts] {
        &ATTRIBUTE_STRUCTURE_RULES
    }

    fn read_held<'b>(
        scope: &Scope<'b, A>,
        cursor: &mut Cursor<'b, A>,
        place: usize,
    ) -> Step<Self, A> {
        match place {
            0 => Ok(AttributeStructure::Name(<Of<Name<A>, 0x42000B> as Element<A>>::read_one(
                scope, cursor,
            )?)),
            1 => Ok(AttributeStructure::CryptographicParameters(<InBox<
                Of<CryptographicParameters, 0x42000B>,
            > as Element<A>>::read_one(scope, cursor)?)),
            2 => Ok(AttributeStructure::CryptographicDomainParameters(<Of<
                CryptographicDomainParameters,
                0x42000B,
            > as Element<A>>::read_one(scope, cursor)?)),
            3 => Ok(AttributeStructure::CertificateIdentifier(<Of<
                CertificateIdentifier<A>,
                0x42000B,
            > as Element<A>>::read_one(scope, cursor)?)),
            4 => Ok(AttributeStructure::CertificateSubject(<Of<
                CertificateSubject<A>,
                0x42000B,
            > as Element<A>>::read_one(scope, cursor)?)),
            5 => Ok(AttributeStructure::CertificateIssuer(<Of<
                CertificateIssuer<A>,
                0x42000B,
            > as Element<A>>::read_one(scope, cursor)?)),
            6 => Ok(AttributeStructure::Digest(<Of<Digest<A>, 0x42000B> as Element<A>>::read_one(
                scope, cursor,
            )?)),
            7 => Ok(AttributeStructure::UsageLimits(<Of<UsageLimits, 0x42000B> as Element<
                A,
            >>::read_one(scope, cursor)?)),
            8 => Ok(AttributeStructure::RevocationReason(<Of<
                RevocationReason<A>,
                0x42000B,
            > as Element<A>>::read_one(scope, cursor)?)),
            9 => Ok(AttributeStructure::Link(<Of<Link<A>, 0x42000B> as Element<A>>::read_one(
                scope, cursor,
            )?)),
            10 => Ok(AttributeStructure::ApplicationSpecificInformation(<Of<
                ApplicationSpecificInformation<A>,
                0x42000B,
            > as Element<A>>::read_one(scope, cursor)?)),
            11 => Ok(AttributeStructure::Other(<Of<Kept<A>, 0x42000B> as Element<A>>::read_one(
                scope, cursor,
            )?)),
            _ => unreachable!(),
        }
    }

    fn tell_held<W: Walk<A>>(&self, state: &mut W::State) -> Result<(), AllocError> {
        match self {
            AttributeStructure::Name(inner) => W::item::<Of<Name<A>, 0x42000B>>(state, inner),
            AttributeStructure::CryptographicParameters(inner) => W::item::<
                InBox<Of<CryptographicParameters, 0x42000B>>,
            >(state, inner),
            AttributeStructure::CryptographicDomainParameters(inner) => W::item::<
                Of<CryptographicDomainParameters, 0x42000B>,
            >(state, inner),
            AttributeStructure::CertificateIdentifier(inner) => W::item::<
                Of<CertificateIdentifier<A>, 0x42000B>,
            >(state, inner),
            AttributeStructure::CertificateSubject(inner) => W::item::<
                Of<CertificateSubject<A>, 0x42000B>,
            >(state, inner),
            AttributeStructure::CertificateIssuer(inner) => W::item::<
                Of<CertificateIssuer<A>, 0x42000B>,
            >(state, inner),
            AttributeStructure::Digest(inner) => W::item::<Of<Digest<A>, 0x42000B>>(state, inner),
            AttributeStructure::UsageLimits(inner) => W::item::<Of<UsageLimits, 0x42000B>>(
                state, inner,
            ),
            AttributeStructure::RevocationReason(inner) => W::item::<
                Of<RevocationReason<A>, 0x42000B>,
            >(state, inner),
            AttributeStructure::Link(inner) => W::item::<Of<Link<A>, 0x42000B>>(state, inner),
            AttributeStructure::ApplicationSpecificInformation(inner) => W::item::<
                Of<ApplicationSpecificInformation<A>, 0x42000B>,
            >(state, inner),
            AttributeStructure::Other(inner) => W::item::<Of<Kept<A>, 0x42000B>>(state, inner),
        }
    }
}

/// What an attribute says: by its name, or else by the type of its item.
#[derive(Drop)]
#[derive_where(PartialEq)]
pub enum AttributeValue<A: Allocator = Global> {
    /// What an object is.
    ObjectType(ObjectType),
    /// What a key is for.
    CryptographicAlgorithm(CryptographicAlgorithm),
    /// What a certificate is.
    CertificateType(CertificateType),
    /// Where an object is in its life.
    State(State),
    /// A number.
    Integer(i32),
    /// A long number.
    LongInteger(i64),
    /// A number of any length.
    BigInteger(BigNumber<A>),
    /// A vendor's Enumeration.
    Enumeration(u32),
    /// A truth value.
    Boolean(bool),
    /// A text.
    TextString(String<A>),
    /// Bytes.
    ByteString(Vec<u8, A>),
    /// A date.
    DateTime(DateTime),
    /// A time in seconds.
    Interval(Interval),
    /// A structure.
    Structure(AttributeStructure<A>),
}

// The texts that choose a variant, whatever the type of its item is.
const ATTRIBUTE_VALUE_NAMES: [&str; 4] = [
    "Object Type",
    "Cryptographic Algorithm",
    "Certificate Type",
    "State",
];

// Whether a text is none of these.
fn is_no_attribute_value(text: &str) -> bool
    ensures { IsTrue result ↔ IsNoneOf text.now attribute_value_names }
{
    is_none_of(text, &ATTRIBUTE_VALUE_NAMES)
}

impl<A: Allocator> AttributeValue<A> {
    /// Whether this text, if it is that of 0x42000A, chooses it.
    pub fn is_chosen_by(&self, text: &str) -> bool
        ensures { IsTrue result ↔ ChoosesAttributeValue text.now self.now }
    {
        match self {
            AttributeValue::ObjectType(_) => text == "Object Type",
            AttributeValue::CryptographicAlgorithm(_) => text == "Cryptographic Algorithm",
            AttributeValue::CertificateType(_) => text == "Certificate Type",
            AttributeValue::State(_) => text == "State",
            AttributeValue::Integer(_) => is_no_attribute_value(text),
            AttributeValue::LongInteger(_) => is_no_attribute_value(text),
            AttributeValue::BigInteger(_) => is_no_attribute_value(text),
            AttributeValue::Enumeration(_) => is_no_attribute_value(text),
            AttributeValue::Boolean(_) => is_no_attribute_value(text),
            AttributeValue::TextString(_) => is_no_attribute_value(text),
            AttributeValue::ByteString(_) => is_no_attribute_value(text),
            AttributeValue::DateTime(_) => is_no_attribute_value(text),
            AttributeValue::Interval(_) => is_no_attribute_value(text),
            AttributeValue::Structure(inner) => (is_no_attribute_value(text))
                && inner.is_chosen_by(text),
        }
    }
}

// The rules of the variants, in their order.
const ATTRIBUTE_VALUE_RULES: [RuleParts; 14] = [
    RuleParts::Texts {
        tag: 0x42000A,
        texts: &["Object Type"],
    },
    RuleParts::Texts {
        tag: 0x42000A,
        texts: &["Cryptographic Algorithm"],
    },
    RuleParts::Texts {
        tag: 0x42000A,
        texts: &["Certificate Type"],
    },
    RuleParts::Texts {
        tag: 0x42000A,
        texts: &["State"],
    },
    RuleParts::Type(TtlvType::Integer),
    RuleParts::Type(TtlvType::LongInteger),
    RuleParts::Type(TtlvType::BigInteger),
    RuleParts::Type(TtlvType::Enumeration),
    RuleParts::Type(TtlvType::Boolean),
    RuleParts::Type(TtlvType::TextString),
    RuleParts::Type(TtlvType::ByteString),
    RuleParts::Type(TtlvType::DateTime),
    RuleParts::Type(TtlvType::Interval),
    RuleParts::Type(TtlvType::Structure),
];

impl<A: Allocator + Copy> Choice<A> for AttributeValue<A> {
    ghost chosen = { attribute_value_choice ⟦<AttributeValue<A> as PartialEq>⟧.eq record {
      object_type = held ⟦<Under<ObjectType, 0x42000B> as Element<A>>⟧.rules refl refl (λ x y e. e);
      cryptographic_algorithm = held ⟦<Under<CryptographicAlgorithm, 0x42000B> as Element<A>>⟧.rules refl refl (λ x y e. e);
      certificate_type = held ⟦<Under<CertificateType, 0x42000B> as Element<A>>⟧.rules refl refl (λ x y e. e);
      state = held ⟦<Under<State, 0x42000B> as Element<A>>⟧.rules refl refl (λ x y e. e);
      integer = held ⟦<LeafItem<i32, 0x42000B> as Element<A>>⟧.rules refl refl (λ x y e. e);
      long_integer = held ⟦<LeafItem<i64, 0x42000B> as Element<A>>⟧.rules refl refl (λ x y e. e);
      big_integer = held ⟦<LeafItem<BigNumber<A>, 0x42000B> as Element<A>>⟧.rules refl refl (λ x y e. e);
      enumeration = held ⟦<LeafItem<u32, 0x42000B> as Element<A>>⟧.rules refl refl (λ x y e. e);
      boolean = held ⟦<LeafItem<bool, 0x42000B> as Element<A>>⟧.rules refl refl (λ x y e. e);
      text_string = held ⟦<LeafItem<String<A>, 0x42000B> as Element<A>>⟧.rules refl refl (λ x y e. e);
      byte_string = held ⟦<LeafItem<Vec<u8, A>, 0x42000B> as Element<A>>⟧.rules refl refl (λ x y e. e);
      date_time = held ⟦<LeafItem<DateTime, 0x42000B> as Element<A>>⟧.rules refl refl (λ x y e. e);
      interval = held ⟦<LeafItem<Interval, 0x42000B> as Element<A>>⟧.rules refl refl (λ x y e. e);
      structure = held_choice ⟦<AttributeStructure<A> as Choice<A>>⟧.chosen refl (λ x. refl) (λ x said c. c) (λ x y e. e);
    } };

    #[tactic(auto, unfolding(kmip_ttlv_reader::specs::RuleParts::parts_of, kmip_ttlv_reader::specs::RuleParts::equal_sides))]
    fn variant_rules() -> &'static [RuleParts] {
        &ATTRIBUTE_VALUE_RULES
    }

    fn read_held<'b>(
        scope: &Scope<'b, A>,
        cursor: &mut Cursor<'b, A>,
        place: usize,
    ) -> Step<Self, A> {
        match place {
            0 => Ok(AttributeValue::ObjectType(<Under<ObjectType, 0x42000B> as Element<
                A,
            >>::read_one(scope, cursor)?)),
            1 => Ok(AttributeValue::CryptographicAlgorithm(<Under<
                CryptographicAlgorithm,
                0x42000B,
            > as Element<A>>::read_one(scope, cursor)?)),
            2 => Ok(AttributeValue::CertificateType(<Under<CertificateType, 0x42000B> as Element<
                A,
            >>::read_one(scope, cursor)?)),
            3 => Ok(AttributeValue::State(<Under<State, 0x42000B> as Element<A>>::read_one(
                scope, cursor,
            )?)),
            4 => Ok(AttributeValue::Integer(<LeafItem<i32, 0x42000B> as Element<A>>::read_one(
                scope, cursor,
            )?)),
            5 => Ok(AttributeValue::LongInteger(<LeafItem<i64, 0x42000B> as Element<A>>::read_one(
                scope, cursor,
            )?)),
            6 => Ok(AttributeValue::BigInteger(<LeafItem<BigNumber<A>, 0x42000B> as Element<
                A,
            >>::read_one(scope, cursor)?)),
            7 => Ok(AttributeValue::Enumeration(<LeafItem<u32, 0x42000B> as Element<A>>::read_one(
                scope, cursor,
            )?)),
            8 => Ok(AttributeValue::Boolean(<LeafItem<bool, 0x42000B> as Element<A>>::read_one(
                scope, cursor,
            )?)),
            9 => Ok(AttributeValue::TextString(<LeafItem<String<A>, 0x42000B> as Element<
                A,
            >>::read_one(scope, cursor)?)),
            10 => Ok(AttributeValue::ByteString(<LeafItem<Vec<u8, A>, 0x42000B> as Element<
                A,
            >>::read_one(scope, cursor)?)),
            11 => Ok(AttributeValue::DateTime(<LeafItem<DateTime, 0x42000B> as Element<
                A,
            >>::read_one(scope, cursor)?)),
            12 => Ok(AttributeValue::Interval(<LeafItem<Interval, 0x42000B> as Element<
                A,
            >>::read_one(scope, cursor)?)),
            13 => Ok(AttributeValue::Structure(read_choice(scope, cursor)?)),
            _ => unreachable!(),
        }
    }

    fn tell_held<W: Walk<A>>(&self, state: &mut W::State) -> Result<(), AllocError> {
        match self {
            AttributeValue::ObjectType(inner) => W::item::<Under<ObjectType, 0x42000B>>(
                state, inner,
            ),
            AttributeValue::CryptographicAlgorithm(inner) => W::item::<
                Under<CryptographicAlgorithm, 0x42000B>,
            >(state, inner),
            AttributeValue::CertificateType(inner) => W::item::<Under<CertificateType, 0x42000B>>(
                state, inner,
            ),
            AttributeValue::State(inner) => W::item::<Under<State, 0x42000B>>(state, inner),
            AttributeValue::Integer(inner) => W::item::<LeafItem<i32, 0x42000B>>(state, inner),
            AttributeValue::LongInteger(inner) => W::item::<LeafItem<i64, 0x42000B>>(state, inner),
            AttributeValue::BigInteger(inner) => W::item::<LeafItem<BigNumber<A>, 0x42000B>>(
                state, inner,
            ),
            AttributeValue::Enumeration(inner) => W::item::<LeafItem<u32, 0x42000B>>(state, inner),
            AttributeValue::Boolean(inner) => W::item::<LeafItem<bool, 0x42000B>>(state, inner),
            AttributeValue::TextString(inner) => W::item::<LeafItem<String<A>, 0x42000B>>(
                state, inner,
            ),
            AttributeValue::ByteString(inner) => W::item::<LeafItem<Vec<u8, A>, 0x42000B>>(
                state, inner,
            ),
            AttributeValue::DateTime(inner) => W::item::<LeafItem<DateTime, 0x42000B>>(
                state, inner,
            ),
            AttributeValue::Interval(inner) => W::item::<LeafItem<Interval, 0x42000B>>(
                state, inner,
            ),
            AttributeValue::Structure(inner) => inner.tell_held::<W>(state),
        }
    }
}

/// What is known of an object.
#[derive(Drop)]
#[derive_where(PartialEq)]
pub struct Attribute<A: Allocator = Global> {
    /// Its name.
    pub name: String<A>,
    /// Which of this name; the first, if it is absent.
    pub index: Option<i32>,
    /// What it says.
    pub value: AttributeValue<A>,
}

impl<A: Allocator> Decided for Attribute<A> {
    ghost IsDecided = { λ x. (ChoosesAttributeValue (string_bytes x.name) x.value) };

    fn is_decided(&self) -> bool {
        self.value.is_chosen_by(self.name.as_str())
    }
}

type AttributeParts<A> = (
    Leaf<String<A>, 0x42000A>,
    MaybeLeaf<i32, 0x420009>,
    OneOf<AttributeValue<A>, 0x42000B>,
);

impl<A: Allocator + Copy> FromParts<A, AttributeParts<A>> for Attribute<A> {
    ghost parts = { λ x. (x.name, x.index, x.value) };

    fn from_parts((name, index, value): Holds<AttributeParts<A>, A>) -> Self {
        Attribute { name, index, value }
    }
}

impl<A: Allocator + Copy> Structure<A> for Attribute<A> {
    ghost rules = { structure_where true ⟦<AttributeParts<A> as PartList<A>>⟧.rules ⟦<Attribute<A> as FromParts<A, AttributeParts<A>>>⟧.parts refl
        (λ x. (ChoosesAttributeValue (string_bytes x.name) x.value)) (λ x d. (tt, (tt, (d)))) ⟦<Attribute<A> as PartialEq>⟧.eq (λ x y e. e) };

    fn read<'b>(scope: &Scope<'b, A>, tag: u32, cursor: &mut Cursor<'b, A>) -> Step<Self, A> {
        read_structure::<AttributeParts<A>, Self, A>(scope, tag, true, cursor)
    }

    fn tell_parts<W: Walk<A>>(&self, state: &mut W::State) -> Result<(), AllocError> {
        W::three::<
            Leaf<String<A>, 0x42000A>,
            MaybeLeaf<i32, 0x420009>,
            OneOf<AttributeValue<A>, 0x42000B>,
        >(state, &self.name, &self.index, &self.value)?;
        W::check(state, self);
        Ok(())
    }
}
