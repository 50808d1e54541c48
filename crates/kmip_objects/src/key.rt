// Written by codegen from types.table: change that, and run codegen/codegen.
//! A key: its bytes, and how they are wrapped (KMIP 1.0, sections 2.1.3 to 2.1.5).

ghost use Rattle.std.specs.Prelude.{refl, true};
ghost use Rattle.kmip_ttlv_kinds.specs.Parts.{structure};
ghost use Rattle.kmip_ttlv_kinds.specs.Choices.{held};
ghost use Rattle.kmip_objects.specs.Choices.{key_material_choice, key_value_choice};

use kmip_attributes::attribute::Attribute;
use kmip_attributes::values::{
    BlockCipherMode, CryptographicAlgorithm, HashingAlgorithm, KeyFormatType, KeyRoleType,
    PaddingMethod, State,
};
use kmip_ttlv_kinds::{
    Alone, Any, Choice, Element, Four, FromParts, Holds, InBox, Leaf, LeafItem, Maybe, MaybeLeaf,
    Of, One, OneOf, PartList, Structure, Walk, read_structure,
};
use kmip_ttlv_parts::reader::{Cursor, RuleParts, Scope, Step};
use kmip_ttlv_parts::types::TtlvType;
use kmip_ttlv_parts::{Boxed, Enumeration, Kept};
use std::alloc::{AllocError, Allocator, Global};

/// How the point of an elliptic curve is written (KMIP 1.0, section 9.1.3.2.2).
pub type KeyCompressionType = Enumeration<0x420041>;

/// The numbers of `KeyCompressionType` that have a name.
pub mod key_compression_type {
    use super::KeyCompressionType;

    /// With both coordinates.
    pub const EC_PUBLIC_KEY_TYPE_UNCOMPRESSED: KeyCompressionType = KeyCompressionType {
        number: 0x00000001,
    };
    /// Compressed, over a prime field.
    pub const EC_PUBLIC_KEY_TYPE_X962_COMPRESSED_PRIME: KeyCompressionType = KeyCompressionType {
        number: 0x00000002,
    };
    /// Compressed, over a field of characteristic 2.
    pub const EC_PUBLIC_KEY_TYPE_X962_COMPRESSED_CHAR2: KeyCompressionType = KeyCompressionType {
        number: 0x00000003,
    };
    /// Both ways.
    pub const EC_PUBLIC_KEY_TYPE_X962_HYBRID: KeyCompressionType = KeyCompressionType {
        number: 0x00000004,
    };
}

/// What was done to wrap a key (KMIP 1.0, section 9.1.3.2.4).
pub type WrappingMethod = Enumeration<0x42009E>;

/// The numbers of `WrappingMethod` that have a name.
pub mod wrapping_method {
    use super::WrappingMethod;

    /// It was encrypted.
    pub const ENCRYPT: WrappingMethod = WrappingMethod { number: 0x00000001 };
    /// A MAC or a signature was made of it.
    pub const MAC_SIGN: WrappingMethod = WrappingMethod { number: 0x00000002 };
    /// It was encrypted, and a MAC or a signature was made of what came out.
    pub const ENCRYPT_THEN_MAC_SIGN: WrappingMethod = WrappingMethod { number: 0x00000003 };
    /// A MAC or a signature was made of it, and both were encrypted.
    pub const MAC_SIGN_THEN_ENCRYPT: WrappingMethod = WrappingMethod { number: 0x00000004 };
    /// It was wrapped as TR-31 says.
    pub const TR31: WrappingMethod = WrappingMethod { number: 0x00000005 };
}

/// What was encrypted of a key (KMIP 1.1, section 9.1.3.2.32).
pub type EncodingOption = Enumeration<0x4200A3>;

/// The numbers of `EncodingOption` that have a name.
pub mod encoding_option {
    use super::EncodingOption;

    /// Its bytes alone.
    pub const NO_ENCODING: EncodingOption = EncodingOption { number: 0x00000001 };
    /// The Key Value as it is encoded.
    pub const TTLV_ENCODING: EncodingOption = EncodingOption { number: 0x00000002 };
}

/// How the key that wraps is used (KMIP 1.0, section 3.6).
#[derive(Clone, Copy, PartialEq, Eq)]
pub struct WrappingParameters {
    /// The mode of its block cipher.
    pub block_cipher_mode: Option<BlockCipherMode>,
    /// How content is filled up.
    pub padding_method: Option<PaddingMethod>,
    /// What makes a hash of it.
    pub hashing_algorithm: Option<HashingAlgorithm>,
    /// What the key is for.
    pub key_role_type: Option<KeyRoleType>,
}

type WrappingParametersParts = (
    Maybe<BlockCipherMode, 0x420011>,
    Maybe<PaddingMethod, 0x42005F>,
    Maybe<HashingAlgorithm, 0x420038>,
    Maybe<KeyRoleType, 0x420083>,
);

impl<A: Allocator + Copy> FromParts<A, WrappingParametersParts> for WrappingParameters {
    ghost parts = { λ x. (x.block_cipher_mode, x.padding_method, x.hashing_algorithm, x.key_role_type) };

    fn from_parts(
        (block_cipher_mode, padding_method, hashing_algorithm, key_role_type): Holds<
            WrappingParametersParts,
            A,
        >,
    ) -> Self {
        WrappingParameters {
            block_cipher_mode,
            padding_method,
            hashing_algorithm,
            key_role_type,
        }
    }
}

impl<A: Allocator + Copy> Structure<A> for WrappingParameters {
    ghost rules = { structure true ⟦<WrappingParametersParts as PartList<A>>⟧.rules ⟦<WrappingParameters as FromParts<A, WrappingParametersParts>>⟧.parts refl ⟦<WrappingParameters as PartialEq>⟧.eq (λ x y e. e) };

    fn read<'b>(scope: &Scope<'b, A>, tag: u32, cursor: &mut Cursor<'b, A>) -> Step<Self, A> {
        read_structure::<WrappingParametersParts, Self, A>(scope, tag, true, cursor)
    }

    fn tell_parts<W: Walk<A>>(&self, state: &mut W::State) -> Result<(), AllocError> {
        W::four::<
            Maybe<BlockCipherMode, 0x420011>,
            Maybe<PaddingMethod, 0x42005F>,
            Maybe<HashingAlgorithm, 0x420038>,
            Maybe<KeyRoleType, 0x420083>,
        >(
            state,
            &self.block_cipher_mode,
            &self.padding_method,
            &self.hashing_algorithm,
            &self.key_role_type,
        )
    }
}

/// The key that encrypts.
#[derive(Drop)]
#[derive_where(PartialEq)]
pub struct EncryptionKeyInformation<A: Allocator = Global> {
    /// The identifier of that key.
    pub unique_identifier: String<A>,
    /// How that key is used.
    pub cryptographic_parameters: Option<WrappingParameters>,
}

type EncryptionKeyInformationParts<A> = (
    Leaf<String<A>, 0x420094>,
    Maybe<Of<WrappingParameters, 0x42002B>, 0x42002B>,
);

impl<A: Allocator + Copy> FromParts<A, EncryptionKeyInformationParts<A>>
    for EncryptionKeyInformation<A> {
    ghost parts = { λ x. (x.unique_identifier, x.cryptographic_parameters) };

    fn from_parts(
        (unique_identifier, cryptographic_parameters): Holds<EncryptionKeyInformationParts<A>, A>,
    ) -> Self {
        EncryptionKeyInformation {
            unique_identifier,
            cryptographic_parameters,
        }
    }
}

impl<A: Allocator + Copy> Structure<A> for EncryptionKeyInformation<A> {
    ghost rules = { structure true ⟦<EncryptionKeyInformationParts<A> as PartList<A>>⟧.rules ⟦<EncryptionKeyInformation<A> as FromParts<A, EncryptionKeyInformationParts<A>>>⟧.parts refl ⟦<EncryptionKeyInformation<A> as PartialEq>⟧.eq (λ x y e. e) };

    fn read<'b>(scope: &Scope<'b, A>, tag: u32, cursor: &mut Cursor<'b, A>) -> Step<Self, A> {
        read_structure::<EncryptionKeyInformationParts<A>, Self, A>(scope, tag, true, cursor)
    }

    fn tell_parts<W: Walk<A>>(&self, state: &mut W::State) -> Result<(), AllocError> {
        W::two::<Leaf<String<A>, 0x420094>, Maybe<Of<WrappingParameters, 0x42002B>, 0x42002B>>(
            state,
            &self.unique_identifier,
            &self.cryptographic_parameters,
        )
    }
}

/// The key that makes a MAC or a signature.
#[derive(Drop)]
#[derive_where(PartialEq)]
pub struct MacSignatureKeyInformation<A: Allocator = Global> {
    /// The identifier of that key.
    pub unique_identifier: String<A>,
    /// How that key is used.
    pub cryptographic_parameters: Option<WrappingParameters>,
}

type MacSignatureKeyInformationParts<A> = (
    Leaf<String<A>, 0x420094>,
    Maybe<Of<WrappingParameters, 0x42002B>, 0x42002B>,
);

impl<A: Allocator + Copy> FromParts<A, MacSignatureKeyInformationParts<A>>
    for MacSignatureKeyInformation<A> {
    ghost parts = { λ x. (x.unique_identifier, x.cryptographic_parameters) };

    fn from_parts(
        (unique_identifier, cryptographic_parameters): Holds<MacSignatureKeyInformationParts<A>, A>,
    ) -> Self {
        MacSignatureKeyInformation {
            unique_identifier,
            cryptographic_parameters,
        }
    }
}

impl<A: Allocator + Copy> Structure<A> for MacSignatureKeyInformation<A> {
    ghost rules = { structure true ⟦<MacSignatureKeyInformationParts<A> as PartList<A>>⟧.rules ⟦<MacSignatureKeyInformation<A> as FromParts<A, MacSignatureKeyInformationParts<A>>>⟧.parts refl ⟦<MacSignatureKeyInformation<A> as PartialEq>⟧.eq (λ x y e. e) };

    fn read<'b>(scope: &Scope<'b, A>, tag: u32, cursor: &mut Cursor<'b, A>) -> Step<Self, A> {
        read_structure::<MacSignatureKeyInformationParts<A>, Self, A>(scope, tag, true, cursor)
    }

    fn tell_parts<W: Walk<A>>(&self, state: &mut W::State) -> Result<(), AllocError> {
        W::two::<Leaf<String<A>, 0x420094>, Maybe<Of<WrappingParameters, 0x42002B>, 0x42002B>>(
            state,
            &self.unique_identifier,
            &self.cryptographic_parameters,
        )
    }
}

/// How a key is wrapped (KMIP 1.0, section 2.1.5).
#[derive(Drop)]
#[derive_where(PartialEq)]
pub struct KeyWrappingData<A: Allocator = Global> {
    /// What was done.
    pub wrapping_method: WrappingMethod,
    /// What it was encrypted by, if it was.
    pub encryption_key_information: Option<EncryptionKeyInformation<A>>,
    /// What made the MAC or the signature, if there is one.
    pub mac_signature_key_information: Option<MacSignatureKeyInformation<A>>,
    /// The MAC, or the signature.
    pub mac_signature: Option<Vec<u8, A>>,
    /// What the encryption began with, if its mode needs one.
    pub iv_counter_nonce: Option<Vec<u8, A>>,
    /// What was encrypted; the Key Value as it is encoded, if it is absent.
    pub encoding_option: Option<EncodingOption>,
}

type KeyWrappingDataFirst<A> = (
    One<WrappingMethod>,
    Maybe<Of<EncryptionKeyInformation<A>, 0x420036>, 0x420036>,
    Maybe<Of<MacSignatureKeyInformation<A>, 0x42004E>, 0x42004E>,
    MaybeLeaf<Vec<u8, A>, 0x42004D>,
);

type KeyWrappingDataSecond<A> = (
    MaybeLeaf<Vec<u8, A>, 0x42003D>,
    Maybe<EncodingOption, 0x4200A3>,
);

type KeyWrappingDataParts<A> = Four<KeyWrappingDataFirst<A>, KeyWrappingDataSecond<A>>;

impl<A: Allocator + Copy> FromParts<A, KeyWrappingDataParts<A>> for KeyWrappingData<A> {
    ghost parts = { λ x. (x.wrapping_method, x.encryption_key_information, x.mac_signature_key_information, x.mac_signature, (x.iv_counter_nonce, x.encoding_option)) };

    fn from_parts(
        (
            wrapping_method,
            encryption_key_information,
            mac_signature_key_information,
            mac_signature,
            (iv_counter_nonce, encoding_option),
        ): Holds<KeyWrappingDataParts<A>, A>,
    ) -> Self {
        KeyWrappingData {
            wrapping_method,
            encryption_key_information,
            mac_signature_key_information,
            mac_signature,
            iv_counter_nonce,
            encoding_option,
        }
    }
}

impl<A: Allocator + Copy> Structure<A> for KeyWrappingData<A> {
    ghost rules = { structure true ⟦<KeyWrappingDataParts<A> as PartList<A>>⟧.rules ⟦<KeyWrappingData<A> as FromParts<A, KeyWrappingDataParts<A>>>⟧.parts refl ⟦<KeyWrappingData<A> as PartialEq>⟧.eq (λ x y e. e) };

    fn read<'b>(scope: &Scope<'b, A>, tag: u32, cursor: &mut Cursor<'b, A>) -> Step<Self, A> {
        read_structure::<KeyWrappingDataParts<A>, Self, A>(scope, tag, true, cursor)
    }

    fn tell_parts<W: Walk<A>>(&self, state: &mut W::State) -> Result<(), AllocError> {
        W::four::<
            One<WrappingMethod>,
            Maybe<Of<EncryptionKeyInformation<A>, 0x420036>, 0x420036>,
            Maybe<Of<MacSignatureKeyInformation<A>, 0x42004E>, 0x42004E>,
            MaybeLeaf<Vec<u8, A>, 0x42004D>,
        >(
            state,
            &self.wrapping_method,
            &self.encryption_key_information,
            &self.mac_signature_key_information,
            &self.mac_signature,
        )?;
        W::two::<MaybeLeaf<Vec<u8, A>, 0x42003D>, Maybe<EncodingOption, 0x4200A3>>(
            state,
            &self.iv_counter_nonce,
            &self.encoding_option,
        )?;
        Ok(())
    }
}

/// A symmetric key as a structure (KMIP 1.0, section 2.1.7.1).
#[derive(Drop)]
#[derive_where(PartialEq)]
pub struct TransparentSymmetricKey<A: Allocator = Global> {
    /// Its bytes.
    pub key: Vec<u8, A>,
}

type TransparentSymmetricKeyParts<A> = Alone<Leaf<Vec<u8, A>, 0x42003F>>;

impl<A: Allocator + Copy> FromParts<A, TransparentSymmetricKeyParts<A>>
    for TransparentSymmetricKey<A> {
    ghost parts = { λ x. x.key };

    fn from_parts(key: Holds<TransparentSymmetricKeyParts<A>, A>) -> Self {
        TransparentSymmetricKey { key }
    }
}

impl<A: Allocator + Copy> Structure<A> for TransparentSymmetricKey<A> {
    ghost rules = { structure true ⟦<TransparentSymmetricKeyParts<A> as PartList<A>>⟧.rules ⟦<TransparentSymmetricKey<A> as FromParts<A, TransparentSymmetricKeyParts<A>>>⟧.parts refl ⟦<TransparentSymmetricKey<A> as PartialEq>⟧.eq (λ x y e. e) };

    fn read<'b>(scope: &Scope<'b, A>, tag: u32, cursor: &mut Cursor<'b, A>) -> Step<Self, A> {
        read_structure::<TransparentSymmetricKeyParts<A>, Self, A>(scope, tag, true, cursor)
    }

    fn tell_parts<W: Walk<A>>(&self, state: &mut W::State) -> Result<(), AllocError> {
        W::one::<Leaf<Vec<u8, A>, 0x42003F>>(state, &self.key)
    }
}

/// The key itself: its bytes, or a structure.
#[derive(Drop)]
#[derive_where(PartialEq)]
pub enum KeyMaterial<A: Allocator = Global> {
    /// Its bytes.
    Bytes(Vec<u8, A>),
    /// One in a transparent form: a `TransparentSymmetricKey`, or any other.
    Structure(Kept<A>),
}

// The rules of the variants, in their order.
const KEY_MATERIAL_RULES: [RuleParts; 2] = [
    RuleParts::Type(TtlvType::ByteString),
    RuleParts::Type(TtlvType::Structure),
];

impl<A: Allocator + Copy> Choice<A> for KeyMaterial<A> {
    ghost chosen = { key_material_choice ⟦<KeyMaterial<A> as PartialEq>⟧.eq record {
      bytes = held ⟦<LeafItem<Vec<u8, A>, 0x420043> as Element<A>>⟧.rules refl refl (λ x y e. e);
      structure = held ⟦<Of<Kept<A>, 0x420043> as Element<A>>⟧.rules refl refl (λ x y e. e);
    } };

    #[tactic(auto, unfolding(kmip_ttlv_reader::specs::RuleParts::parts_of, kmip_ttlv_reader::specs::RuleParts::equal_sides))]
    fn variant_rules() -> &'static [RuleParts] {
        &KEY_MATERIAL_RULES
    }

    fn read_held<'b>(
        scope: &Scope<'b, A>,
        cursor: &mut Cursor<'b, A>,
        place: usize,
    ) -> Step<Self, A> {
        match place {
            0 => Ok(KeyMaterial::Bytes(<LeafItem<Vec<u8, A>, 0x420043> as Element<A>>::read_one(
                scope, cursor,
            )?)),
            1 => Ok(KeyMaterial::Structure(<Of<Kept<A>, 0x420043> as Element<A>>::read_one(
                scope, cursor,
            )?)),
            _ => unreachable!(),
        }
    }

    fn tell_held<W: Walk<A>>(&self, state: &mut W::State) -> Result<(), AllocError> {
        match self {
            KeyMaterial::Bytes(inner) => W::item::<LeafItem<Vec<u8, A>, 0x420043>>(state, inner),
            KeyMaterial::Structure(inner) => W::item::<Of<Kept<A>, 0x420043>>(state, inner),
        }
    }
}

/// A key that isn't wrapped, or of which only the bytes are (KMIP 1.0, section 2.1.4).
#[derive(Drop)]
#[derive_where(PartialEq)]
pub struct PlainKeyValue<A: Allocator = Global> {
    /// The key itself.
    pub key_material: KeyMaterial<A>,
    /// What is known of it.
    pub attributes: Vec<Attribute<A>, A>,
}

type PlainKeyValueParts<A> = (
    OneOf<KeyMaterial<A>, 0x420043>,
    Any<Of<Attribute<A>, 0x420008>, 0x420008>,
);

impl<A: Allocator + Copy> FromParts<A, PlainKeyValueParts<A>> for PlainKeyValue<A> {
    ghost parts = { λ x. (x.key_material, x.attributes) };

    fn from_parts((key_material, attributes): Holds<PlainKeyValueParts<A>, A>) -> Self {
        PlainKeyValue {
            key_material,
            attributes,
        }
    }
}

impl<A: Allocator + Copy> Structure<A> for PlainKeyValue<A> {
    ghost rules = { structure true ⟦<PlainKeyValueParts<A> as PartList<A>>⟧.rules ⟦<PlainKeyValue<A> as FromParts<A, PlainKeyValueParts<A>>>⟧.parts refl ⟦<PlainKeyValue<A> as PartialEq>⟧.eq (λ x y e. e) };

    fn read<'b>(scope: &Scope<'b, A>, tag: u32, cursor: &mut Cursor<'b, A>) -> Step<Self, A> {
        read_structure::<PlainKeyValueParts<A>, Self, A>(scope, tag, true, cursor)
    }

    fn tell_parts<W: Walk<A>>(&self, state: &mut W::State) -> Result<(), AllocError> {
        W::two::<OneOf<KeyMaterial<A>, 0x420043>, Any<Of<Attribute<A>, 0x420008>, 0x420008>>(
            state,
            &self.key_material,
            &self.attributes,
        )
    }
}

/// The value of a key: plain, or wrapped as a whole.
#[derive(Drop)]
#[derive_where(PartialEq)]
pub enum KeyValue<A: Allocator = Global> {
    /// One that isn't wrapped, or of which only the bytes are.
    Plain(PlainKeyValue<A>),
    /// One that is wrapped as a whole.
    Wrapped(Vec<u8, A>),
}

// The rules of the variants, in their order.
const KEY_VALUE_RULES: [RuleParts; 2] = [
    RuleParts::Type(TtlvType::Structure),
    RuleParts::Type(TtlvType::ByteString),
];

impl<A: Allocator + Copy> Choice<A> for KeyValue<A> {
    ghost chosen = { key_value_choice ⟦<KeyValue<A> as PartialEq>⟧.eq record {
      plain = held ⟦<Of<PlainKeyValue<A>, 0x420045> as Element<A>>⟧.rules refl refl (λ x y e. e);
      wrapped = held ⟦<LeafItem<Vec<u8, A>, 0x420045> as Element<A>>⟧.rules refl refl (λ x y e. e);
    } };

    #[tactic(auto, unfolding(kmip_ttlv_reader::specs::RuleParts::parts_of, kmip_ttlv_reader::specs::RuleParts::equal_sides))]
    fn variant_rules() -> &'static [RuleParts] {
        &KEY_VALUE_RULES
    }

    fn read_held<'b>(
        scope: &Scope<'b, A>,
        cursor: &mut Cursor<'b, A>,
        place: usize,
    ) -> Step<Self, A> {
        match place {
            0 => Ok(KeyValue::Plain(<Of<PlainKeyValue<A>, 0x420045> as Element<A>>::read_one(
                scope, cursor,
            )?)),
            1 => Ok(KeyValue::Wrapped(<LeafItem<Vec<u8, A>, 0x420045> as Element<A>>::read_one(
                scope, cursor,
            )?)),
            _ => unreachable!(),
        }
    }

    fn tell_held<W: Walk<A>>(&self, state: &mut W::State) -> Result<(), AllocError> {
        match self {
            KeyValue::Plain(inner) => W::item::<Of<PlainKeyValue<A>, 0x420045>>(state, inner),
            KeyValue::Wrapped(inner) => W::item::<LeafItem<Vec<u8, A>, 0x420045>>(state, inner),
        }
    }
}

/// A key, and what is known of its value (KMIP 1.0, section 2.1.3).
#[derive(Drop)]
#[derive_where(PartialEq)]
pub struct KeyBlock<A: Allocator = Global> {
    /// How its bytes are to be read.
    pub key_format_type: KeyFormatType,
    /// How the point of an elliptic curve is written.
    pub key_compression_type: Option<KeyCompressionType>,
    /// Its value.
    pub key_value: KeyValue<A>,
    /// What it is for.
    pub cryptographic_algorithm: Option<CryptographicAlgorithm>,
    /// How long it is.
    pub cryptographic_length: Option<i32>,
    /// How it is wrapped, if it is.
    pub key_wrapping_data: Option<Boxed<KeyWrappingData<A>, A>>,
}

type KeyBlockFirst<A> = (
    One<KeyFormatType>,
    Maybe<KeyCompressionType, 0x420041>,
    OneOf<KeyValue<A>, 0x420045>,
    Maybe<CryptographicAlgorithm, 0x420028>,
);

type KeyBlockSecond<A> = (
    MaybeLeaf<i32, 0x42002A>,
    Maybe<InBox<Of<KeyWrappingData<A>, 0x420046>>, 0x420046>,
);

type KeyBlockParts<A> = Four<KeyBlockFirst<A>, KeyBlockSecond<A>>;

impl<A: Allocator + Copy> FromParts<A, KeyBlockParts<A>> for KeyBlock<A> {
    ghost parts = { λ x. (x.key_format_type, x.key_compression_type, x.key_value, x.cryptographic_algorithm, (x.cryptographic_length, x.key_wrapping_data)) };

    fn from_parts(
        (
            key_format_type,
            key_compression_type,
            key_value,
            cryptographic_algorithm,
            (cryptographic_length, key_wrapping_data),
        ): Holds<KeyBlockParts<A>, A>,
    ) -> Self {
        KeyBlock {
            key_format_type,
            key_compression_type,
            key_value,
            cryptographic_algorithm,
            cryptographic_length,
            key_wrapping_data,
        }
    }
}

impl<A: Allocator + Copy> Structure<A> for KeyBlock<A> {
    ghost rules = { structure true ⟦<KeyBlockParts<A> as PartList<A>>⟧.rules ⟦<KeyBlock<A> as FromParts<A, KeyBlockParts<A>>>⟧.parts refl ⟦<KeyBlock<A> as PartialEq>⟧.eq (λ x y e. e) };

    fn read<'b>(scope: &Scope<'b, A>, tag: u32, cursor: &mut Cursor<'b, A>) -> Step<Self, A> {
        read_structure::<KeyBlockParts<A>, Self, A>(scope, tag, true, cursor)
    }

    fn tell_parts<W: Walk<A>>(&self, state: &mut W::State) -> Result<(), AllocError> {
        W::four::<
            One<KeyFormatType>,
            Maybe<KeyCompressionType, 0x420041>,
            OneOf<KeyValue<A>, 0x420045>,
            Maybe<CryptographicAlgorithm, 0x420028>,
        >(
            state,
            &self.key_format_type,
            &self.key_compression_type,
            &self.key_value,
            &self.cryptographic_algorithm,
        )?;
        W::two::<
            MaybeLeaf<i32, 0x42002A>,
            Maybe<InBox<Of<KeyWrappingData<A>, 0x420046>>, 0x420046>,
        >(state, &self.cryptographic_length, &self.key_wrapping_data)?;
        Ok(())
    }
}
