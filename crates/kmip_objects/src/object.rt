// Written by codegen from types.table: change that, and run codegen/codegen.
//! What a server keeps (KMIP 1.0, section 2.2).

ghost use Rattle.std.specs.Prelude.{refl, true};
ghost use Rattle.kmip_ttlv_kinds.specs.Parts.{structure};

use crate::key::KeyBlock;
use kmip_attributes::attribute::Attribute;
use kmip_attributes::values::{CertificateType, State};
use kmip_ttlv_kinds::{
    Alone, Four, FromParts, Holds, Leaf, MaybeLeaf, Of, One, PartList, Several, Structure, Walk,
    read_structure,
};
use kmip_ttlv_parts::Enumeration;
use kmip_ttlv_parts::reader::{BigNumber, Cursor, Scope, Step};
use std::alloc::{AllocError, Allocator, Global};

/// A certificate.
#[derive(Drop)]
#[derive_where(PartialEq)]
pub struct Certificate<A: Allocator = Global> {
    /// What it is.
    pub certificate_type: CertificateType,
    /// Its bytes.
    pub certificate_value: Vec<u8, A>,
}

type CertificateParts<A> = (One<CertificateType>, Leaf<Vec<u8, A>, 0x42001E>);

impl<A: Allocator + Copy> FromParts<A, CertificateParts<A>> for Certificate<A> {
    ghost parts = { λ x. (x.certificate_type, x.certificate_value) };

    fn from_parts((certificate_type, certificate_value): Holds<CertificateParts<A>, A>) -> Self {
        Certificate {
            certificate_type,
            certificate_value,
        }
    }
}

impl<A: Allocator + Copy> Structure<A> for Certificate<A> {
    ghost rules = { structure true ⟦<CertificateParts<A> as PartList<A>>⟧.rules ⟦<Certificate<A> as FromParts<A, CertificateParts<A>>>⟧.parts refl ⟦<Certificate<A> as PartialEq>⟧.eq (λ x y e. e) };

    fn read<'b>(scope: &Scope<'b, A>, tag: u32, cursor: &mut Cursor<'b, A>) -> Step<Self, A> {
        read_structure::<CertificateParts<A>, Self, A>(scope, tag, true, cursor)
    }

    fn tell_parts<W: Walk<A>>(&self, state: &mut W::State) -> Result<(), AllocError> {
        W::two::<One<CertificateType>, Leaf<Vec<u8, A>, 0x42001E>>(
            state,
            &self.certificate_type,
            &self.certificate_value,
        )
    }
}

/// A symmetric key.
#[derive(Drop)]
#[derive_where(PartialEq)]
pub struct SymmetricKey<A: Allocator = Global> {
    /// The key.
    pub key_block: KeyBlock<A>,
}

type SymmetricKeyParts<A> = Alone<One<Of<KeyBlock<A>, 0x420040>>>;

impl<A: Allocator + Copy> FromParts<A, SymmetricKeyParts<A>> for SymmetricKey<A> {
    ghost parts = { λ x. x.key_block };

    fn from_parts(key_block: Holds<SymmetricKeyParts<A>, A>) -> Self {
        SymmetricKey { key_block }
    }
}

impl<A: Allocator + Copy> Structure<A> for SymmetricKey<A> {
    ghost rules = { structure true ⟦<SymmetricKeyParts<A> as PartList<A>>⟧.rules ⟦<SymmetricKey<A> as FromParts<A, SymmetricKeyParts<A>>>⟧.parts refl ⟦<SymmetricKey<A> as PartialEq>⟧.eq (λ x y e. e) };

    fn read<'b>(scope: &Scope<'b, A>, tag: u32, cursor: &mut Cursor<'b, A>) -> Step<Self, A> {
        read_structure::<SymmetricKeyParts<A>, Self, A>(scope, tag, true, cursor)
    }

    fn tell_parts<W: Walk<A>>(&self, state: &mut W::State) -> Result<(), AllocError> {
        W::one::<One<Of<KeyBlock<A>, 0x420040>>>(state, &self.key_block)
    }
}

/// A public key.
#[derive(Drop)]
#[derive_where(PartialEq)]
pub struct PublicKey<A: Allocator = Global> {
    /// The key.
    pub key_block: KeyBlock<A>,
}

type PublicKeyParts<A> = Alone<One<Of<KeyBlock<A>, 0x420040>>>;

impl<A: Allocator + Copy> FromParts<A, PublicKeyParts<A>> for PublicKey<A> {
    ghost parts = { λ x. x.key_block };

    fn from_parts(key_block: Holds<PublicKeyParts<A>, A>) -> Self {
        PublicKey { key_block }
    }
}

impl<A: Allocator + Copy> Structure<A> for PublicKey<A> {
    ghost rules = { structure true ⟦<PublicKeyParts<A> as PartList<A>>⟧.rules ⟦<PublicKey<A> as FromParts<A, PublicKeyParts<A>>>⟧.parts refl ⟦<PublicKey<A> as PartialEq>⟧.eq (λ x y e. e) };

    fn read<'b>(scope: &Scope<'b, A>, tag: u32, cursor: &mut Cursor<'b, A>) -> Step<Self, A> {
        read_structure::<PublicKeyParts<A>, Self, A>(scope, tag, true, cursor)
    }

    fn tell_parts<W: Walk<A>>(&self, state: &mut W::State) -> Result<(), AllocError> {
        W::one::<One<Of<KeyBlock<A>, 0x420040>>>(state, &self.key_block)
    }
}

/// A private key.
#[derive(Drop)]
#[derive_where(PartialEq)]
pub struct PrivateKey<A: Allocator = Global> {
    /// The key.
    pub key_block: KeyBlock<A>,
}

type PrivateKeyParts<A> = Alone<One<Of<KeyBlock<A>, 0x420040>>>;

impl<A: Allocator + Copy> FromParts<A, PrivateKeyParts<A>> for PrivateKey<A> {
    ghost parts = { λ x. x.key_block };

    fn from_parts(key_block: Holds<PrivateKeyParts<A>, A>) -> Self {
        PrivateKey { key_block }
    }
}

impl<A: Allocator + Copy> Structure<A> for PrivateKey<A> {
    ghost rules = { structure true ⟦<PrivateKeyParts<A> as PartList<A>>⟧.rules ⟦<PrivateKey<A> as FromParts<A, PrivateKeyParts<A>>>⟧.parts refl ⟦<PrivateKey<A> as PartialEq>⟧.eq (λ x y e. e) };

    fn read<'b>(scope: &Scope<'b, A>, tag: u32, cursor: &mut Cursor<'b, A>) -> Step<Self, A> {
        read_structure::<PrivateKeyParts<A>, Self, A>(scope, tag, true, cursor)
    }

    fn tell_parts<W: Walk<A>>(&self, state: &mut W::State) -> Result<(), AllocError> {
        W::one::<One<Of<KeyBlock<A>, 0x420040>>>(state, &self.key_block)
    }
}

/// How a key was split (KMIP 1.0, section 9.1.3.2.7).
pub type SplitKeyMethod = Enumeration<0x42008A>;

/// The numbers of `SplitKeyMethod` that have a name.
pub mod split_key_method {
    use super::SplitKeyMethod;

    /// The parts make it by XOR.
    pub const XOR: SplitKeyMethod = SplitKeyMethod { number: 0x00000001 };
    /// By a polynomial over GF(2^16).
    pub const POLYNOMIAL_SHARING_GF216: SplitKeyMethod = SplitKeyMethod { number: 0x00000002 };
    /// By a polynomial over a prime field.
    pub const POLYNOMIAL_SHARING_PRIME_FIELD: SplitKeyMethod = SplitKeyMethod {
        number: 0x00000003,
    };
}

/// One of the parts that a key was split into.
#[derive(Drop)]
#[derive_where(PartialEq)]
pub struct SplitKey<A: Allocator = Global> {
    /// How many parts there are.
    pub split_key_parts: i32,
    /// Which of them it is.
    pub key_part_identifier: i32,
    /// How many of them make the key.
    pub split_key_threshold: i32,
    /// How the key was split.
    pub split_key_method: SplitKeyMethod,
    /// The prime, if it was by a prime field.
    pub prime_field_size: Option<BigNumber<A>>,
    /// The part.
    pub key_block: KeyBlock<A>,
}

type SplitKeyFirst = (
    Leaf<i32, 0x42008B>,
    Leaf<i32, 0x420044>,
    Leaf<i32, 0x42008C>,
    One<SplitKeyMethod>,
);

type SplitKeySecond<A> = (
    MaybeLeaf<BigNumber<A>, 0x420062>,
    One<Of<KeyBlock<A>, 0x420040>>,
);

type SplitKeyParts<A> = Four<SplitKeyFirst, SplitKeySecond<A>>;

impl<A: Allocator + Copy> FromParts<A, SplitKeyParts<A>> for SplitKey<A> {
    ghost parts = { λ x. (x.split_key_parts, x.key_part_identifier, x.split_key_threshold, x.split_key_method, (x.prime_field_size, x.key_block)) };

    fn from_parts(
        (
            split_key_parts,
            key_part_identifier,
            split_key_threshold,
            split_key_method,
            (prime_field_size, key_block),
        ): Holds<SplitKeyParts<A>, A>,
    ) -> Self {
        SplitKey {
            split_key_parts,
            key_part_identifier,
            split_key_threshold,
            split_key_method,
            prime_field_size,
            key_block,
        }
    }
}

impl<A: Allocator + Copy> Structure<A> for SplitKey<A> {
    ghost rules = { structure true ⟦<SplitKeyParts<A> as PartList<A>>⟧.rules ⟦<SplitKey<A> as FromParts<A, SplitKeyParts<A>>>⟧.parts refl ⟦<SplitKey<A> as PartialEq>⟧.eq (λ x y e. e) };

    fn read<'b>(scope: &Scope<'b, A>, tag: u32, cursor: &mut Cursor<'b, A>) -> Step<Self, A> {
        read_structure::<SplitKeyParts<A>, Self, A>(scope, tag, true, cursor)
    }

    fn tell_parts<W: Walk<A>>(&self, state: &mut W::State) -> Result<(), AllocError> {
        W::four::<
            Leaf<i32, 0x42008B>,
            Leaf<i32, 0x420044>,
            Leaf<i32, 0x42008C>,
            One<SplitKeyMethod>,
        >(
            state,
            &self.split_key_parts,
            &self.key_part_identifier,
            &self.split_key_threshold,
            &self.split_key_method,
        )?;
        W::two::<MaybeLeaf<BigNumber<A>, 0x420062>, One<Of<KeyBlock<A>, 0x420040>>>(
            state,
            &self.prime_field_size,
            &self.key_block,
        )?;
        Ok(())
    }
}

/// Attributes that other objects are made with.
#[derive(Drop)]
#[derive_where(PartialEq)]
pub struct Template<A: Allocator = Global> {
    /// One or more.
    pub attributes: Vec<Attribute<A>, A>,
}

type TemplateParts<A> = Alone<Several<Of<Attribute<A>, 0x420008>, 0x420008>>;

impl<A: Allocator + Copy> FromParts<A, TemplateParts<A>> for Template<A> {
    ghost parts = { λ x. x.attributes };

    fn from_parts(attributes: Holds<TemplateParts<A>, A>) -> Self {
        Template { attributes }
    }
}

impl<A: Allocator + Copy> Structure<A> for Template<A> {
    ghost rules = { structure true ⟦<TemplateParts<A> as PartList<A>>⟧.rules ⟦<Template<A> as FromParts<A, TemplateParts<A>>>⟧.parts refl ⟦<Template<A> as PartialEq>⟧.eq (λ x y e. e) };

    fn read<'b>(scope: &Scope<'b, A>, tag: u32, cursor: &mut Cursor<'b, A>) -> Step<Self, A> {
        read_structure::<TemplateParts<A>, Self, A>(scope, tag, true, cursor)
    }

    fn tell_parts<W: Walk<A>>(&self, state: &mut W::State) -> Result<(), AllocError> {
        W::one::<Several<Of<Attribute<A>, 0x420008>, 0x420008>>(state, &self.attributes)
    }
}

/// What a secret is (KMIP 1.0, section 9.1.3.2.8).
pub type SecretDataType = Enumeration<0x420086>;

/// The numbers of `SecretDataType` that have a name.
pub mod secret_data_type {
    use super::SecretDataType;

    /// A password.
    pub const PASSWORD: SecretDataType = SecretDataType { number: 0x00000001 };
    /// What keys are made of.
    pub const SEED: SecretDataType = SecretDataType { number: 0x00000002 };
}

/// A secret that is no key.
#[derive(Drop)]
#[derive_where(PartialEq)]
pub struct SecretData<A: Allocator = Global> {
    /// What it is.
    pub secret_data_type: SecretDataType,
    /// The secret.
    pub key_block: KeyBlock<A>,
}

type SecretDataParts<A> = (One<SecretDataType>, One<Of<KeyBlock<A>, 0x420040>>);

impl<A: Allocator + Copy> FromParts<A, SecretDataParts<A>> for SecretData<A> {
    ghost parts = { λ x. (x.secret_data_type, x.key_block) };

    fn from_parts((secret_data_type, key_block): Holds<SecretDataParts<A>, A>) -> Self {
        SecretData {
            secret_data_type,
            key_block,
        }
    }
}

impl<A: Allocator + Copy> Structure<A> for SecretData<A> {
    ghost rules = { structure true ⟦<SecretDataParts<A> as PartList<A>>⟧.rules ⟦<SecretData<A> as FromParts<A, SecretDataParts<A>>>⟧.parts refl ⟦<SecretData<A> as PartialEq>⟧.eq (λ x y e. e) };

    fn read<'b>(scope: &Scope<'b, A>, tag: u32, cursor: &mut Cursor<'b, A>) -> Step<Self, A> {
        read_structure::<SecretDataParts<A>, Self, A>(scope, tag, true, cursor)
    }

    fn tell_parts<W: Walk<A>>(&self, state: &mut W::State) -> Result<(), AllocError> {
        W::two::<One<SecretDataType>, One<Of<KeyBlock<A>, 0x420040>>>(
            state,
            &self.secret_data_type,
            &self.key_block,
        )
    }
}

/// What bytes are that the server doesn't interpret: the standard names nothing.
pub type OpaqueDataType = Enumeration<0x420059>;

/// The numbers of `OpaqueDataType` that have a name.
pub mod opaque_data_type {
    use super::OpaqueDataType;

    /// The first of the numbers that it leaves to others.
    pub const EXTENSION: OpaqueDataType = OpaqueDataType { number: 0x80000000 };
}

/// Bytes that the server doesn't interpret.
#[derive(Drop)]
#[derive_where(PartialEq)]
pub struct OpaqueObject<A: Allocator = Global> {
    /// What they are.
    pub opaque_data_type: OpaqueDataType,
    /// They.
    pub opaque_data_value: Vec<u8, A>,
}

type OpaqueObjectParts<A> = (One<OpaqueDataType>, Leaf<Vec<u8, A>, 0x42005A>);

impl<A: Allocator + Copy> FromParts<A, OpaqueObjectParts<A>> for OpaqueObject<A> {
    ghost parts = { λ x. (x.opaque_data_type, x.opaque_data_value) };

    fn from_parts((opaque_data_type, opaque_data_value): Holds<OpaqueObjectParts<A>, A>) -> Self {
        OpaqueObject {
            opaque_data_type,
            opaque_data_value,
        }
    }
}

impl<A: Allocator + Copy> Structure<A> for OpaqueObject<A> {
    ghost rules = { structure true ⟦<OpaqueObjectParts<A> as PartList<A>>⟧.rules ⟦<OpaqueObject<A> as FromParts<A, OpaqueObjectParts<A>>>⟧.parts refl ⟦<OpaqueObject<A> as PartialEq>⟧.eq (λ x y e. e) };

    fn read<'b>(scope: &Scope<'b, A>, tag: u32, cursor: &mut Cursor<'b, A>) -> Step<Self, A> {
        read_structure::<OpaqueObjectParts<A>, Self, A>(scope, tag, true, cursor)
    }

    fn tell_parts<W: Walk<A>>(&self, state: &mut W::State) -> Result<(), AllocError> {
        W::two::<One<OpaqueDataType>, Leaf<Vec<u8, A>, 0x42005A>>(
            state,
            &self.opaque_data_type,
            &self.opaque_data_value,
        )
    }
}

/// What a server keeps.
#[derive(Drop)]
pub enum ManagedObject<'a, A: Allocator = Global> {
    /// A certificate.
    Certificate(&'a Certificate<A>),
    /// A symmetric key.
    SymmetricKey(&'a SymmetricKey<A>),
    /// A public key.
    PublicKey(&'a PublicKey<A>),
    /// A private key.
    PrivateKey(&'a PrivateKey<A>),
    /// One of the parts that a key was split into.
    SplitKey(&'a SplitKey<A>),
    /// Attributes that other objects are made with.
    Template(&'a Template<A>),
    /// A secret that is no key.
    SecretData(&'a SecretData<A>),
    /// Bytes that the server doesn't interpret.
    OpaqueObject(&'a OpaqueObject<A>),
}
