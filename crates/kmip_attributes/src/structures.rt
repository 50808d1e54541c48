// Written by codegen from types.table: change that, and run codegen/codegen.
//! What attributes that are structures say (KMIP 1.0, section 3), under the tag of an Attribute Value.

ghost use Rattle.std.specs.Prelude.{refl, true};
ghost use Rattle.kmip_ttlv_kinds.specs.Parts.{structure};

use crate::values::{
    BlockCipherMode, CryptographicAlgorithm, HashingAlgorithm, KeyFormatType, KeyRoleType,
    LinkType, NameType, PaddingMethod, RecommendedCurve, RevocationReasonCode, State,
    UsageLimitsUnit,
};
use kmip_ttlv_kinds::{
    Alone, Any, Four, FromParts, Holds, Leaf, LeafItem, Maybe, MaybeLeaf, One, PartList, Structure,
    Walk, read_structure,
};
use kmip_ttlv_parts::reader::{Cursor, Scope, Step};
use std::alloc::{AllocError, Allocator, Global};

/// What users call an object (KMIP 1.0, section 3.2).
#[derive(Drop)]
#[derive_where(PartialEq)]
pub struct Name<A: Allocator = Global> {
    /// The name.
    pub value: String<A>,
    /// How it is to be read.
    pub name_type: NameType,
}

type NameParts<A> = (Leaf<String<A>, 0x420055>, One<NameType>);

impl<A: Allocator + Copy> FromParts<A, NameParts<A>> for Name<A> {
    ghost parts = { λ x. (x.value, x.name_type) };

    fn from_parts((value, name_type): Holds<NameParts<A>, A>) -> Self {
        Name { value, name_type }
    }
}

impl<A: Allocator + Copy> Structure<A> for Name<A> {
    ghost rules = { structure true ⟦<NameParts<A> as PartList<A>>⟧.rules ⟦<Name<A> as FromParts<A, NameParts<A>>>⟧.parts refl ⟦<Name<A> as PartialEq>⟧.eq (λ x y e. e) };

    fn read<'b>(scope: &Scope<'b, A>, tag: u32, cursor: &mut Cursor<'b, A>) -> Step<Self, A> {
        read_structure::<NameParts<A>, Self, A>(scope, tag, true, cursor)
    }

    fn tell_parts<W: Walk<A>>(&self, state: &mut W::State) -> Result<(), AllocError> {
        W::two::<Leaf<String<A>, 0x420055>, One<NameType>>(state, &self.value, &self.name_type)
    }
}

/// How a key is used (KMIP 1.0, section 3.6).
#[derive(Clone, Copy, PartialEq, Eq)]
pub struct CryptographicParameters {
    /// The mode of its block cipher.
    pub block_cipher_mode: Option<BlockCipherMode>,
    /// How content is filled up.
    pub padding_method: Option<PaddingMethod>,
    /// What makes a hash of it.
    pub hashing_algorithm: Option<HashingAlgorithm>,
    /// What the key is for.
    pub key_role_type: Option<KeyRoleType>,
    /// What signs with it (KMIP 1.2).
    pub digital_signature_algorithm: Option<u32>,
    /// What it is for (KMIP 1.2).
    pub cryptographic_algorithm: Option<CryptographicAlgorithm>,
    /// Whether the server makes the initialization vector (KMIP 1.2).
    pub random_iv: Option<bool>,
    /// How long that is, in bits (KMIP 1.2).
    pub iv_length: Option<i32>,
    /// How long the authentication tag is, in bytes (KMIP 1.2).
    pub tag_length: Option<i32>,
    /// How long the fixed field of a counter is, in bits (KMIP 1.2).
    pub fixed_field_length: Option<i32>,
    /// How long its invocation field is, in bits (KMIP 1.2).
    pub invocation_field_length: Option<i32>,
    /// How long the counter is, in bits (KMIP 1.2).
    pub counter_length: Option<i32>,
    /// What the counter begins with (KMIP 1.2).
    pub initial_counter_value: Option<i32>,
}

type CryptographicParametersFirst = (
    Maybe<BlockCipherMode, 0x420011>,
    Maybe<PaddingMethod, 0x42005F>,
    Maybe<HashingAlgorithm, 0x420038>,
    Maybe<KeyRoleType, 0x420083>,
);

type CryptographicParametersSecond = (
    MaybeLeaf<u32, 0x4200AE>,
    Maybe<CryptographicAlgorithm, 0x420028>,
    MaybeLeaf<bool, 0x4200C5>,
    MaybeLeaf<i32, 0x4200CD>,
);

type CryptographicParametersThird = (
    MaybeLeaf<i32, 0x4200CE>,
    MaybeLeaf<i32, 0x4200CF>,
    MaybeLeaf<i32, 0x4200D2>,
    MaybeLeaf<i32, 0x4200D0>,
);

type CryptographicParametersFourth = Alone<MaybeLeaf<i32, 0x4200D1>>;

type CryptographicParametersParts = Four<
    CryptographicParametersFirst,
    Four<
        CryptographicParametersSecond,
        Four<CryptographicParametersThird, CryptographicParametersFourth>,
    >,
>;

impl<A: Allocator + Copy> FromParts<A, CryptographicParametersParts> for CryptographicParameters {
    ghost parts = { λ x. (x.block_cipher_mode, x.padding_method, x.hashing_algorithm, x.key_role_type, (x.digital_signature_algorithm, x.cryptographic_algorithm, x.random_iv, x.iv_length, (x.tag_length, x.fixed_field_length, x.invocation_field_length, x.counter_length, x.initial_counter_value))) };

    fn from_parts(
        (
            block_cipher_mode,
            padding_method,
            hashing_algorithm,
            key_role_type,
            (
                digital_signature_algorithm,
                cryptographic_algorithm,
                random_iv,
                iv_length,
                (
                    tag_length,
                    fixed_field_length,
                    invocation_field_length,
                    counter_length,
                    initial_counter_value,
                ),
            ),
        ): Holds<CryptographicParametersParts, A>,
    ) -> Self {
        CryptographicParameters {
            block_cipher_mode,
            padding_method,
            hashing_algorithm,
            key_role_type,
            digital_signature_algorithm,
            cryptographic_algorithm,
            random_iv,
            iv_length,
            tag_length,
            fixed_field_length,
            invocation_field_length,
            counter_length,
            initial_counter_value,
        }
    }
}

impl<A: Allocator + Copy> Structure<A> for CryptographicParameters {
    ghost rules = { structure true ⟦<CryptographicParametersParts as PartList<A>>⟧.rules ⟦<CryptographicParameters as FromParts<A, CryptographicParametersParts>>⟧.parts refl ⟦<CryptographicParameters as PartialEq>⟧.eq (λ x y e. e) };

    fn read<'b>(scope: &Scope<'b, A>, tag: u32, cursor: &mut Cursor<'b, A>) -> Step<Self, A> {
        read_structure::<CryptographicParametersParts, Self, A>(scope, tag, true, cursor)
    }

    fn tell_parts<W: Walk<A>>(&self, state: &mut W::State) -> Result<(), AllocError> {
        W::four::<
            Maybe<BlockCipherMode, 0x420011>,
            Maybe<PaddingMethod, 0x42005F>,
            Maybe<HashingAlgorithm, 0x420038>,
            Maybe<KeyRoleType, 0x420083>,
        >(
            state,
            &self.block_cipher_mode,
            &self.padding_method,
            &self.hashing_algorithm,
            &self.key_role_type,
        )?;
        W::four::<
            MaybeLeaf<u32, 0x4200AE>,
            Maybe<CryptographicAlgorithm, 0x420028>,
            MaybeLeaf<bool, 0x4200C5>,
            MaybeLeaf<i32, 0x4200CD>,
        >(
            state,
            &self.digital_signature_algorithm,
            &self.cryptographic_algorithm,
            &self.random_iv,
            &self.iv_length,
        )?;
        W::four::<
            MaybeLeaf<i32, 0x4200CE>,
            MaybeLeaf<i32, 0x4200CF>,
            MaybeLeaf<i32, 0x4200D2>,
            MaybeLeaf<i32, 0x4200D0>,
        >(
            state,
            &self.tag_length,
            &self.fixed_field_length,
            &self.invocation_field_length,
            &self.counter_length,
        )?;
        W::one::<MaybeLeaf<i32, 0x4200D1>>(state, &self.initial_counter_value)?;
        Ok(())
    }
}

/// What a key pair is made over (KMIP 1.0, section 3.7).
#[derive(Clone, Copy, PartialEq, Eq)]
pub struct CryptographicDomainParameters {
    /// The length of the order.
    pub qlength: Option<i32>,
    /// The elliptic curve.
    pub recommended_curve: Option<RecommendedCurve>,
}

type CryptographicDomainParametersParts = (
    MaybeLeaf<i32, 0x420073>,
    Maybe<RecommendedCurve, 0x420075>,
);

impl<A: Allocator + Copy> FromParts<A, CryptographicDomainParametersParts>
    for CryptographicDomainParameters {
    ghost parts = { λ x. (x.qlength, x.recommended_curve) };

    fn from_parts(
        (qlength, recommended_curve): Holds<CryptographicDomainParametersParts, A>,
    ) -> Self {
        CryptographicDomainParameters {
            qlength,
            recommended_curve,
        }
    }
}

impl<A: Allocator + Copy> Structure<A> for CryptographicDomainParameters {
    ghost rules = { structure true ⟦<CryptographicDomainParametersParts as PartList<A>>⟧.rules ⟦<CryptographicDomainParameters as FromParts<A, CryptographicDomainParametersParts>>⟧.parts refl ⟦<CryptographicDomainParameters as PartialEq>⟧.eq (λ x y e. e) };

    fn read<'b>(scope: &Scope<'b, A>, tag: u32, cursor: &mut Cursor<'b, A>) -> Step<Self, A> {
        read_structure::<CryptographicDomainParametersParts, Self, A>(scope, tag, true, cursor)
    }

    fn tell_parts<W: Walk<A>>(&self, state: &mut W::State) -> Result<(), AllocError> {
        W::two::<MaybeLeaf<i32, 0x420073>, Maybe<RecommendedCurve, 0x420075>>(
            state,
            &self.qlength,
            &self.recommended_curve,
        )
    }
}

/// Who issued a certificate, and as which (KMIP 1.0, section 3.9).
#[derive(Drop)]
#[derive_where(PartialEq)]
pub struct CertificateIdentifier<A: Allocator = Global> {
    /// The name of the issuer.
    pub issuer: String<A>,
    /// The certificate's number, which the issuer gave it.
    pub serial_number: Option<String<A>>,
}

type CertificateIdentifierParts<A> = (Leaf<String<A>, 0x42003B>, MaybeLeaf<String<A>, 0x420087>);

impl<A: Allocator + Copy> FromParts<A, CertificateIdentifierParts<A>> for CertificateIdentifier<A> {
    ghost parts = { λ x. (x.issuer, x.serial_number) };

    fn from_parts((issuer, serial_number): Holds<CertificateIdentifierParts<A>, A>) -> Self {
        CertificateIdentifier {
            issuer,
            serial_number,
        }
    }
}

impl<A: Allocator + Copy> Structure<A> for CertificateIdentifier<A> {
    ghost rules = { structure true ⟦<CertificateIdentifierParts<A> as PartList<A>>⟧.rules ⟦<CertificateIdentifier<A> as FromParts<A, CertificateIdentifierParts<A>>>⟧.parts refl ⟦<CertificateIdentifier<A> as PartialEq>⟧.eq (λ x y e. e) };

    fn read<'b>(scope: &Scope<'b, A>, tag: u32, cursor: &mut Cursor<'b, A>) -> Step<Self, A> {
        read_structure::<CertificateIdentifierParts<A>, Self, A>(scope, tag, true, cursor)
    }

    fn tell_parts<W: Walk<A>>(&self, state: &mut W::State) -> Result<(), AllocError> {
        W::two::<Leaf<String<A>, 0x42003B>, MaybeLeaf<String<A>, 0x420087>>(
            state,
            &self.issuer,
            &self.serial_number,
        )
    }
}

/// Whom a certificate is for (KMIP 1.0, section 3.10).
#[derive(Drop)]
#[derive_where(PartialEq)]
pub struct CertificateSubject<A: Allocator = Global> {
    /// The name.
    pub distinguished_name: String<A>,
    /// Others.
    pub alternative_names: Vec<String<A>, A>,
}

type CertificateSubjectParts<A> = (
    Leaf<String<A>, 0x42001C>,
    Any<LeafItem<String<A>, 0x42001B>, 0x42001B>,
);

impl<A: Allocator + Copy> FromParts<A, CertificateSubjectParts<A>> for CertificateSubject<A> {
    ghost parts = { λ x. (x.distinguished_name, x.alternative_names) };

    fn from_parts(
        (distinguished_name, alternative_names): Holds<CertificateSubjectParts<A>, A>,
    ) -> Self {
        CertificateSubject {
            distinguished_name,
            alternative_names,
        }
    }
}

impl<A: Allocator + Copy> Structure<A> for CertificateSubject<A> {
    ghost rules = { structure true ⟦<CertificateSubjectParts<A> as PartList<A>>⟧.rules ⟦<CertificateSubject<A> as FromParts<A, CertificateSubjectParts<A>>>⟧.parts refl ⟦<CertificateSubject<A> as PartialEq>⟧.eq (λ x y e. e) };

    fn read<'b>(scope: &Scope<'b, A>, tag: u32, cursor: &mut Cursor<'b, A>) -> Step<Self, A> {
        read_structure::<CertificateSubjectParts<A>, Self, A>(scope, tag, true, cursor)
    }

    fn tell_parts<W: Walk<A>>(&self, state: &mut W::State) -> Result<(), AllocError> {
        W::two::<Leaf<String<A>, 0x42001C>, Any<LeafItem<String<A>, 0x42001B>, 0x42001B>>(
            state,
            &self.distinguished_name,
            &self.alternative_names,
        )
    }
}

/// Who issued a certificate (KMIP 1.0, section 3.11).
#[derive(Drop)]
#[derive_where(PartialEq)]
pub struct CertificateIssuer<A: Allocator = Global> {
    /// The name.
    pub distinguished_name: String<A>,
    /// Others.
    pub alternative_names: Vec<String<A>, A>,
}

type CertificateIssuerParts<A> = (
    Leaf<String<A>, 0x420017>,
    Any<LeafItem<String<A>, 0x420016>, 0x420016>,
);

impl<A: Allocator + Copy> FromParts<A, CertificateIssuerParts<A>> for CertificateIssuer<A> {
    ghost parts = { λ x. (x.distinguished_name, x.alternative_names) };

    fn from_parts(
        (distinguished_name, alternative_names): Holds<CertificateIssuerParts<A>, A>,
    ) -> Self {
        CertificateIssuer {
            distinguished_name,
            alternative_names,
        }
    }
}

impl<A: Allocator + Copy> Structure<A> for CertificateIssuer<A> {
    ghost rules = { structure true ⟦<CertificateIssuerParts<A> as PartList<A>>⟧.rules ⟦<CertificateIssuer<A> as FromParts<A, CertificateIssuerParts<A>>>⟧.parts refl ⟦<CertificateIssuer<A> as PartialEq>⟧.eq (λ x y e. e) };

    fn read<'b>(scope: &Scope<'b, A>, tag: u32, cursor: &mut Cursor<'b, A>) -> Step<Self, A> {
        read_structure::<CertificateIssuerParts<A>, Self, A>(scope, tag, true, cursor)
    }

    fn tell_parts<W: Walk<A>>(&self, state: &mut W::State) -> Result<(), AllocError> {
        W::two::<Leaf<String<A>, 0x420017>, Any<LeafItem<String<A>, 0x420016>, 0x420016>>(
            state,
            &self.distinguished_name,
            &self.alternative_names,
        )
    }
}

/// A hash of an object (KMIP 1.0, section 3.12).
#[derive(Drop)]
#[derive_where(PartialEq)]
pub struct Digest<A: Allocator = Global> {
    /// What made it.
    pub hashing_algorithm: HashingAlgorithm,
    /// The hash.
    pub digest_value: Option<Vec<u8, A>>,
    /// How the bytes that it is of are to be read (KMIP 1.1).
    pub key_format_type: Option<KeyFormatType>,
}

type DigestParts<A> = (
    One<HashingAlgorithm>,
    MaybeLeaf<Vec<u8, A>, 0x420035>,
    Maybe<KeyFormatType, 0x420042>,
);

impl<A: Allocator + Copy> FromParts<A, DigestParts<A>> for Digest<A> {
    ghost parts = { λ x. (x.hashing_algorithm, x.digest_value, x.key_format_type) };

    fn from_parts(
        (hashing_algorithm, digest_value, key_format_type): Holds<DigestParts<A>, A>,
    ) -> Self {
        Digest {
            hashing_algorithm,
            digest_value,
            key_format_type,
        }
    }
}

impl<A: Allocator + Copy> Structure<A> for Digest<A> {
    ghost rules = { structure true ⟦<DigestParts<A> as PartList<A>>⟧.rules ⟦<Digest<A> as FromParts<A, DigestParts<A>>>⟧.parts refl ⟦<Digest<A> as PartialEq>⟧.eq (λ x y e. e) };

    fn read<'b>(scope: &Scope<'b, A>, tag: u32, cursor: &mut Cursor<'b, A>) -> Step<Self, A> {
        read_structure::<DigestParts<A>, Self, A>(scope, tag, true, cursor)
    }

    fn tell_parts<W: Walk<A>>(&self, state: &mut W::State) -> Result<(), AllocError> {
        W::three::<
            One<HashingAlgorithm>,
            MaybeLeaf<Vec<u8, A>, 0x420035>,
            Maybe<KeyFormatType, 0x420042>,
        >(
            state,
            &self.hashing_algorithm,
            &self.digest_value,
            &self.key_format_type,
        )
    }
}

/// How much may be done with an object (KMIP 1.0, section 3.16).
#[derive(Clone, Copy, PartialEq, Eq)]
pub struct UsageLimits {
    /// The whole allowance.
    pub total: i64,
    /// What is left of it.
    pub count: Option<i64>,
    /// What is counted.
    pub unit: UsageLimitsUnit,
}

type UsageLimitsParts = (
    Leaf<i64, 0x420097>,
    MaybeLeaf<i64, 0x420096>,
    One<UsageLimitsUnit>,
);

impl<A: Allocator + Copy> FromParts<A, UsageLimitsParts> for UsageLimits {
    ghost parts = { λ x. (x.total, x.count, x.unit) };

    fn from_parts((total, count, unit): Holds<UsageLimitsParts, A>) -> Self {
        UsageLimits { total, count, unit }
    }
}

impl<A: Allocator + Copy> Structure<A> for UsageLimits {
    ghost rules = { structure true ⟦<UsageLimitsParts as PartList<A>>⟧.rules ⟦<UsageLimits as FromParts<A, UsageLimitsParts>>⟧.parts refl ⟦<UsageLimits as PartialEq>⟧.eq (λ x y e. e) };

    fn read<'b>(scope: &Scope<'b, A>, tag: u32, cursor: &mut Cursor<'b, A>) -> Step<Self, A> {
        read_structure::<UsageLimitsParts, Self, A>(scope, tag, true, cursor)
    }

    fn tell_parts<W: Walk<A>>(&self, state: &mut W::State) -> Result<(), AllocError> {
        W::three::<Leaf<i64, 0x420097>, MaybeLeaf<i64, 0x420096>, One<UsageLimitsUnit>>(
            state,
            &self.total,
            &self.count,
            &self.unit,
        )
    }
}

/// Why an object was revoked (KMIP 1.0, section 3.26).
#[derive(Drop)]
#[derive_where(PartialEq)]
pub struct RevocationReason<A: Allocator = Global> {
    /// The reason.
    pub code: RevocationReasonCode,
    /// More about it, for a person.
    pub message: Option<String<A>>,
}

type RevocationReasonParts<A> = (One<RevocationReasonCode>, MaybeLeaf<String<A>, 0x420080>);

impl<A: Allocator + Copy> FromParts<A, RevocationReasonParts<A>> for RevocationReason<A> {
    ghost parts = { λ x. (x.code, x.message) };

    fn from_parts((code, message): Holds<RevocationReasonParts<A>, A>) -> Self {
        RevocationReason { code, message }
    }
}

impl<A: Allocator + Copy> Structure<A> for RevocationReason<A> {
    ghost rules = { structure true ⟦<RevocationReasonParts<A> as PartList<A>>⟧.rules ⟦<RevocationReason<A> as FromParts<A, RevocationReasonParts<A>>>⟧.parts refl ⟦<RevocationReason<A> as PartialEq>⟧.eq (λ x y e. e) };

    fn read<'b>(scope: &Scope<'b, A>, tag: u32, cursor: &mut Cursor<'b, A>) -> Step<Self, A> {
        read_structure::<RevocationReasonParts<A>, Self, A>(scope, tag, true, cursor)
    }

    fn tell_parts<W: Walk<A>>(&self, state: &mut W::State) -> Result<(), AllocError> {
        W::two::<One<RevocationReasonCode>, MaybeLeaf<String<A>, 0x420080>>(
            state,
            &self.code,
            &self.message,
        )
    }
}

/// An object that belongs to this one (KMIP 1.0, section 3.29).
#[derive(Drop)]
#[derive_where(PartialEq)]
pub struct Link<A: Allocator = Global> {
    /// How it does.
    pub link_type: LinkType,
    /// Its Unique Identifier.
    pub linked_object_identifier: String<A>,
}

type LinkParts<A> = (One<LinkType>, Leaf<String<A>, 0x42004C>);

impl<A: Allocator + Copy> FromParts<A, LinkParts<A>> for Link<A> {
    ghost parts = { λ x. (x.link_type, x.linked_object_identifier) };

    fn from_parts((link_type, linked_object_identifier): Holds<LinkParts<A>, A>) -> Self {
        Link {
            link_type,
            linked_object_identifier,
        }
    }
}

impl<A: Allocator + Copy> Structure<A> for Link<A> {
    ghost rules = { structure true ⟦<LinkParts<A> as PartList<A>>⟧.rules ⟦<Link<A> as FromParts<A, LinkParts<A>>>⟧.parts refl ⟦<Link<A> as PartialEq>⟧.eq (λ x y e. e) };

    fn read<'b>(scope: &Scope<'b, A>, tag: u32, cursor: &mut Cursor<'b, A>) -> Step<Self, A> {
        read_structure::<LinkParts<A>, Self, A>(scope, tag, true, cursor)
    }

    fn tell_parts<W: Walk<A>>(&self, state: &mut W::State) -> Result<(), AllocError> {
        W::two::<One<LinkType>, Leaf<String<A>, 0x42004C>>(
            state,
            &self.link_type,
            &self.linked_object_identifier,
        )
    }
}

/// What an application keeps with an object (KMIP 1.0, section 3.30).
#[derive(Drop)]
#[derive_where(PartialEq)]
pub struct ApplicationSpecificInformation<A: Allocator = Global> {
    /// Whose it is.
    pub namespace: String<A>,
    /// What it says.
    pub data: String<A>,
}

type ApplicationSpecificInformationParts<A> = (
    Leaf<String<A>, 0x420003>,
    Leaf<String<A>, 0x420002>,
);

impl<A: Allocator + Copy> FromParts<A, ApplicationSpecificInformationParts<A>>
    for ApplicationSpecificInformation<A> {
    ghost parts = { λ x. (x.namespace, x.data) };

    fn from_parts((namespace, data): Holds<ApplicationSpecificInformationParts<A>, A>) -> Self {
        ApplicationSpecificInformation { namespace, data }
    }
}

impl<A: Allocator + Copy> Structure<A> for ApplicationSpecificInformation<A> {
    ghost rules = { structure true ⟦<ApplicationSpecificInformationParts<A> as PartList<A>>⟧.rules ⟦<ApplicationSpecificInformation<A> as FromParts<A, ApplicationSpecificInformationParts<A>>>⟧.parts refl ⟦<ApplicationSpecificInformation<A> as PartialEq>⟧.eq (λ x y e. e) };

    fn read<'b>(scope: &Scope<'b, A>, tag: u32, cursor: &mut Cursor<'b, A>) -> Step<Self, A> {
        read_structure::<ApplicationSpecificInformationParts<A>, Self, A>(scope, tag, true, cursor)
    }

    fn tell_parts<W: Walk<A>>(&self, state: &mut W::State) -> Result<(), AllocError> {
        W::two::<Leaf<String<A>, 0x420003>, Leaf<String<A>, 0x420002>>(
            state,
            &self.namespace,
            &self.data,
        )
    }
}
