// Written by codegen from types.table: change that, and run codegen/codegen.
//! What is asked for (KMIP 1.0, section 4).

ghost use Rattle.std.specs.Prelude.{◌≡◌, ◌↔◌, ◌+◌, None, IsTrue, Some, refl, true};
ghost use Rattle.kmip_ttlv_parts.specs.Returns.{IsNoneOf};
ghost use Rattle.kmip_ttlv_kinds.specs.Parts.{IsApart, keeping_structure, structure, structure_where};
ghost use Rattle.kmip_ttlv_kinds.specs.Choices.{held};
ghost use Rattle.kmip_ttlv_parts.specs.MessageParts.{there};
ghost use Rattle.kmip_requests.specs.Choices.{IsRegisterRequestObject, attribute_reference_choice, IsImportRequestObject, request_payload_choice, ChoosesRequestPayload, request_payload_names};

use kmip_attributes::attribute::Attribute;
use kmip_attributes::structures::CryptographicParameters;
use kmip_attributes::values::{KeyFormatType, ObjectType, RevocationReasonCode, State};
use kmip_headers::header::{ProtocolVersion, Ticket};
use kmip_objects::key::{
    EncodingOption, EncryptionKeyInformation, KeyCompressionType, MacSignatureKeyInformation,
    WrappingMethod,
};
use kmip_objects::object::{
    Certificate, ManagedObject, OpaqueObject, PrivateKey, PublicKey, SecretData, SplitKey,
    SymmetricKey, Template,
};
use kmip_objects::template::{
    CommonTemplateAttribute, PrivateKeyTemplateAttribute, PublicKeyTemplateAttribute,
    TemplateAttribute,
};
use kmip_ttlv_kinds::{
    Alone, Any, Before, Choice, Decided, Element, Four, FromParts, Holds, InBox, Leaf, LeafItem,
    Maybe, MaybeLeaf, MaybeOneOf, Of, One, PartList, Rest, Several, Structure, Walk, is_apart,
    read_structure,
};
use kmip_ttlv_parts::laws::is_none_of;
use kmip_ttlv_parts::reader::{Cursor, DateTime, Interval, RuleParts, Scope, Step};
use kmip_ttlv_parts::types::TtlvType;
use kmip_ttlv_parts::{Boxed, Enumeration, Kept};
use std::alloc::{AllocError, Allocator, Global};

/// A symmetric key is to be made (section 4.1).
#[derive(Drop)]
#[derive_where(PartialEq)]
pub struct CreateRequest<A: Allocator = Global> {
    /// What it is.
    pub object_type: ObjectType,
    /// What it is made with, up to KMIP 1.4.
    pub template_attribute: Option<TemplateAttribute<A>>,
    /// What it is made with, by tags (KMIP 2.0).
    pub attributes_by_tag: Option<Kept<A>>,
    /// Where it may be stored (KMIP 2.0).
    pub protection_storage_masks: Option<Kept<A>>,
}

type CreateRequestParts<A> = (
    One<ObjectType>,
    Maybe<Of<TemplateAttribute<A>, 0x420091>, 0x420091>,
    Maybe<Of<Kept<A>, 0x420125>, 0x420125>,
    Maybe<Of<Kept<A>, 0x42015F>, 0x42015F>,
);

impl<A: Allocator + Copy> FromParts<A, CreateRequestParts<A>> for CreateRequest<A> {
    ghost parts = { λ x. (x.object_type, x.template_attribute, x.attributes_by_tag, x.protection_storage_masks) };

    fn from_parts(
        (object_type, template_attribute, attributes_by_tag, protection_storage_masks): Holds<
            CreateRequestParts<A>,
            A,
        >,
    ) -> Self {
        CreateRequest {
            object_type,
            template_attribute,
            attributes_by_tag,
            protection_storage_masks,
        }
    }
}

impl<A: Allocator + Copy> Structure<A> for CreateRequest<A> {
    ghost rules = { structure true ⟦<CreateRequestParts<A> as PartList<A>>⟧.rules ⟦<CreateRequest<A> as FromParts<A, CreateRequestParts<A>>>⟧.parts refl ⟦<CreateRequest<A> as PartialEq>⟧.eq (λ x y e. e) };

    fn read<'b>(scope: &Scope<'b, A>, tag: u32, cursor: &mut Cursor<'b, A>) -> Step<Self, A> {
        read_structure::<CreateRequestParts<A>, Self, A>(scope, tag, true, cursor)
    }

    fn tell_parts<W: Walk<A>>(&self, state: &mut W::State) -> Result<(), AllocError> {
        W::four::<
            One<ObjectType>,
            Maybe<Of<TemplateAttribute<A>, 0x420091>, 0x420091>,
            Maybe<Of<Kept<A>, 0x420125>, 0x420125>,
            Maybe<Of<Kept<A>, 0x42015F>, 0x42015F>,
        >(
            state,
            &self.object_type,
            &self.template_attribute,
            &self.attributes_by_tag,
            &self.protection_storage_masks,
        )
    }
}

/// A public and a private key are to be made (section 4.2).
#[derive(Drop)]
#[derive_where(PartialEq)]
pub struct CreateKeyPairRequest<A: Allocator = Global> {
    /// What both are made with.
    pub common: Option<CommonTemplateAttribute<A>>,
    /// What the private key is made with.
    pub private_key: Option<PrivateKeyTemplateAttribute<A>>,
    /// What the public key is made with.
    pub public_key: Option<PublicKeyTemplateAttribute<A>>,
    /// What both are made with, by tags (KMIP 2.0).
    pub common_attributes: Option<Kept<A>>,
    /// What the private key is made with, by tags (KMIP 2.0).
    pub private_key_attributes: Option<Kept<A>>,
    /// What the public key is made with, by tags (KMIP 2.0).
    pub public_key_attributes: Option<Kept<A>>,
    /// Where both may be stored (KMIP 2.0).
    pub common_protection_storage_masks: Option<Kept<A>>,
    /// Where the private key may be (KMIP 2.0).
    pub private_protection_storage_masks: Option<Kept<A>>,
    /// Where the public key may be (KMIP 2.0).
    pub public_protection_storage_masks: Option<Kept<A>>,
}

type CreateKeyPairRequestFirst<A> = (
    Maybe<Of<CommonTemplateAttribute<A>, 0x42001F>, 0x42001F>,
    Maybe<Of<PrivateKeyTemplateAttribute<A>, 0x420065>, 0x420065>,
    Maybe<Of<PublicKeyTemplateAttribute<A>, 0x42006E>, 0x42006E>,
    Maybe<Of<Kept<A>, 0x420126>, 0x420126>,
);

type CreateKeyPairRequestSecond<A> = (
    Maybe<Of<Kept<A>, 0x420127>, 0x420127>,
    Maybe<Of<Kept<A>, 0x420128>, 0x420128>,
    Maybe<Of<Kept<A>, 0x420163>, 0x420163>,
    Maybe<Of<Kept<A>, 0x420164>, 0x420164>,
);

type CreateKeyPairRequestThird<A> = Alone<Maybe<Of<Kept<A>, 0x420165>, 0x420165>>;

type CreateKeyPairRequestParts<A> = Four<
    CreateKeyPairRequestFirst<A>,
    Four<CreateKeyPairRequestSecond<A>, CreateKeyPairRequestThird<A>>,
>;

impl<A: Allocator + Copy> FromParts<A, CreateKeyPairRequestParts<A>> for CreateKeyPairRequest<A> {
    ghost parts = { λ x. (x.common, x.private_key, x.public_key, x.common_attributes, (x.private_key_attributes, x.public_key_attributes, x.common_protection_storage_masks, x.private_protection_storage_masks, x.public_protection_storage_masks)) };

    fn from_parts(
        (
            common,
            private_key,
            public_key,
            common_attributes,
            (
                private_key_attributes,
                public_key_attributes,
                common_protection_storage_masks,
                private_protection_storage_masks,
                public_protection_storage_masks,
            ),
        ): Holds<CreateKeyPairRequestParts<A>, A>,
    ) -> Self {
        CreateKeyPairRequest {
            common,
            private_key,
            public_key,
            common_attributes,
            private_key_attributes,
            public_key_attributes,
            common_protection_storage_masks,
            private_protection_storage_masks,
            public_protection_storage_masks,
        }
    }
}

impl<A: Allocator + Copy> Structure<A> for CreateKeyPairRequest<A> {
    ghost rules = { structure true ⟦<CreateKeyPairRequestParts<A> as PartList<A>>⟧.rules ⟦<CreateKeyPairRequest<A> as FromParts<A, CreateKeyPairRequestParts<A>>>⟧.parts refl ⟦<CreateKeyPairRequest<A> as PartialEq>⟧.eq (λ x y e. e) };

    fn read<'b>(scope: &Scope<'b, A>, tag: u32, cursor: &mut Cursor<'b, A>) -> Step<Self, A> {
        read_structure::<CreateKeyPairRequestParts<A>, Self, A>(scope, tag, true, cursor)
    }

    fn tell_parts<W: Walk<A>>(&self, state: &mut W::State) -> Result<(), AllocError> {
        W::four::<
            Maybe<Of<CommonTemplateAttribute<A>, 0x42001F>, 0x42001F>,
            Maybe<Of<PrivateKeyTemplateAttribute<A>, 0x420065>, 0x420065>,
            Maybe<Of<PublicKeyTemplateAttribute<A>, 0x42006E>, 0x42006E>,
            Maybe<Of<Kept<A>, 0x420126>, 0x420126>,
        >(
            state,
            &self.common,
            &self.private_key,
            &self.public_key,
            &self.common_attributes,
        )?;
        W::four::<
            Maybe<Of<Kept<A>, 0x420127>, 0x420127>,
            Maybe<Of<Kept<A>, 0x420128>, 0x420128>,
            Maybe<Of<Kept<A>, 0x420163>, 0x420163>,
            Maybe<Of<Kept<A>, 0x420164>, 0x420164>,
        >(
            state,
            &self.private_key_attributes,
            &self.public_key_attributes,
            &self.common_protection_storage_masks,
            &self.private_protection_storage_masks,
        )?;
        W::one::<Maybe<Of<Kept<A>, 0x420165>, 0x420165>>(
            state,
            &self.public_protection_storage_masks,
        )?;
        Ok(())
    }
}

/// An object is to be kept (section 4.3).
#[derive(Drop)]
#[derive_where(PartialEq)]
pub struct RegisterRequest<A: Allocator = Global> {
    /// What it is.
    pub object_type: ObjectType,
    /// What is to be known of it, up to KMIP 1.4.
    pub template_attribute: Option<TemplateAttribute<A>>,
    /// What is to be known of it, by tags (KMIP 2.0).
    pub attributes_by_tag: Option<Kept<A>>,
    /// A certificate.
    pub certificate: Option<Certificate<A>>,
    /// A symmetric key.
    pub symmetric_key: Option<Boxed<SymmetricKey<A>, A>>,
    /// A public key.
    pub public_key: Option<Boxed<PublicKey<A>, A>>,
    /// A private key.
    pub private_key: Option<Boxed<PrivateKey<A>, A>>,
    /// One of the parts that a key was split into.
    pub split_key: Option<Boxed<SplitKey<A>, A>>,
    /// Attributes that other objects are made with.
    pub template: Option<Template<A>>,
    /// A secret that is no key.
    pub secret_data: Option<Boxed<SecretData<A>, A>>,
    /// Bytes that the server doesn't interpret.
    pub opaque_object: Option<OpaqueObject<A>>,
    /// Where it may be stored (KMIP 2.0).
    pub protection_storage_masks: Option<Kept<A>>,
}

impl<A: Allocator> RegisterRequest<A> {
    /// The object. None if none is there, or more than one.
    pub fn object(&self) -> Option<ManagedObject<'_, A>>
        ensures { IsRegisterRequestObject self.now result }
    {
        match (
            &self.certificate,
            &self.symmetric_key,
            &self.public_key,
            &self.private_key,
            &self.split_key,
            &self.template,
            &self.secret_data,
            &self.opaque_object,
        ) {
            (Some(inner), None, None, None, None, None, None, None) => Some(
                ManagedObject::Certificate(inner),
            ),
            (None, Some(inner), None, None, None, None, None, None) => Some(
                ManagedObject::SymmetricKey(inner.inner.as_ref()),
            ),
            (None, None, Some(inner), None, None, None, None, None) => Some(
                ManagedObject::PublicKey(inner.inner.as_ref()),
            ),
            (None, None, None, Some(inner), None, None, None, None) => Some(
                ManagedObject::PrivateKey(inner.inner.as_ref()),
            ),
            (None, None, None, None, Some(inner), None, None, None) => Some(ManagedObject::SplitKey(
                inner.inner.as_ref(),
            )),
            (None, None, None, None, None, Some(inner), None, None) => Some(ManagedObject::Template(
                inner,
            )),
            (None, None, None, None, None, None, Some(inner), None) => Some(
                ManagedObject::SecretData(inner.inner.as_ref()),
            ),
            (None, None, None, None, None, None, None, Some(inner)) => Some(
                ManagedObject::OpaqueObject(inner),
            ),
            _ => None,
        }
    }
}

impl<A: Allocator> Decided for RegisterRequest<A> {
    ghost IsDecided = { λ x. (there x.certificate + (there x.symmetric_key + (there x.public_key + (there x.private_key + (there x.split_key + (there x.template + (there x.secret_data + there x.opaque_object)))))) ≡ 1) };

    fn is_decided(&self) -> bool {
        self.object().is_some()
    }
}

type RegisterRequestFirst<A> = (
    One<ObjectType>,
    Maybe<Of<TemplateAttribute<A>, 0x420091>, 0x420091>,
    Maybe<Of<Kept<A>, 0x420125>, 0x420125>,
    Maybe<Of<Certificate<A>, 0x420013>, 0x420013>,
);

type RegisterRequestSecond<A> = (
    Maybe<InBox<Of<SymmetricKey<A>, 0x42008F>>, 0x42008F>,
    Maybe<InBox<Of<PublicKey<A>, 0x42006D>>, 0x42006D>,
    Maybe<InBox<Of<PrivateKey<A>, 0x420064>>, 0x420064>,
    Maybe<InBox<Of<SplitKey<A>, 0x420089>>, 0x420089>,
);

type RegisterRequestThird<A> = (
    Maybe<Of<Template<A>, 0x420090>, 0x420090>,
    Maybe<InBox<Of<SecretData<A>, 0x420085>>, 0x420085>,
    Maybe<Of<OpaqueObject<A>, 0x42005B>, 0x42005B>,
    Maybe<Of<Kept<A>, 0x42015F>, 0x42015F>,
);

type RegisterRequestParts<A> = Four<
    RegisterRequestFirst<A>,
    Four<RegisterRequestSecond<A>, RegisterRequestThird<A>>,
>;

impl<A: Allocator + Copy> FromParts<A, RegisterRequestParts<A>> for RegisterRequest<A> {
    ghost parts = { λ x. (x.object_type, x.template_attribute, x.attributes_by_tag, x.certificate, (x.symmetric_key, x.public_key, x.private_key, x.split_key, (x.template, x.secret_data, x.opaque_object, x.protection_storage_masks))) };

    fn from_parts(
        (
            object_type,
            template_attribute,
            attributes_by_tag,
            certificate,
            (
                symmetric_key,
                public_key,
                private_key,
                split_key,
                (template, secret_data, opaque_object, protection_storage_masks),
            ),
        ): Holds<RegisterRequestParts<A>, A>,
    ) -> Self {
        RegisterRequest {
            object_type,
            template_attribute,
            attributes_by_tag,
            certificate,
            symmetric_key,
            public_key,
            private_key,
            split_key,
            template,
            secret_data,
            opaque_object,
            protection_storage_masks,
        }
    }
}

impl<A: Allocator + Copy> Structure<A> for RegisterRequest<A> {
    ghost rules = { structure_where true ⟦<RegisterRequestParts<A> as PartList<A>>⟧.rules ⟦<RegisterRequest<A> as FromParts<A, RegisterRequestParts<A>>>⟧.parts refl
        (λ x. (there x.certificate + (there x.symmetric_key + (there x.public_key + (there x.private_key + (there x.split_key + (there x.template + (there x.secret_data + there x.opaque_object)))))) ≡ 1)) (λ x d. (tt, (tt, (tt, (tt, (tt, (tt, (tt, (tt, (tt, (tt, (tt, (tt))))))))))))) ⟦<RegisterRequest<A> as PartialEq>⟧.eq (λ x y e. e) };

    fn read<'b>(scope: &Scope<'b, A>, tag: u32, cursor: &mut Cursor<'b, A>) -> Step<Self, A> {
        read_structure::<RegisterRequestParts<A>, Self, A>(scope, tag, true, cursor)
    }

    fn tell_parts<W: Walk<A>>(&self, state: &mut W::State) -> Result<(), AllocError> {
        W::four::<
            One<ObjectType>,
            Maybe<Of<TemplateAttribute<A>, 0x420091>, 0x420091>,
            Maybe<Of<Kept<A>, 0x420125>, 0x420125>,
            Maybe<Of<Certificate<A>, 0x420013>, 0x420013>,
        >(
            state,
            &self.object_type,
            &self.template_attribute,
            &self.attributes_by_tag,
            &self.certificate,
        )?;
        W::four::<
            Maybe<InBox<Of<SymmetricKey<A>, 0x42008F>>, 0x42008F>,
            Maybe<InBox<Of<PublicKey<A>, 0x42006D>>, 0x42006D>,
            Maybe<InBox<Of<PrivateKey<A>, 0x420064>>, 0x420064>,
            Maybe<InBox<Of<SplitKey<A>, 0x420089>>, 0x420089>,
        >(
            state,
            &self.symmetric_key,
            &self.public_key,
            &self.private_key,
            &self.split_key,
        )?;
        W::four::<
            Maybe<Of<Template<A>, 0x420090>, 0x420090>,
            Maybe<InBox<Of<SecretData<A>, 0x420085>>, 0x420085>,
            Maybe<Of<OpaqueObject<A>, 0x42005B>, 0x42005B>,
            Maybe<Of<Kept<A>, 0x42015F>, 0x42015F>,
        >(
            state,
            &self.template,
            &self.secret_data,
            &self.opaque_object,
            &self.protection_storage_masks,
        )?;
        W::check(state, self);
        Ok(())
    }
}

/// A key is to be made in place of another (section 4.4).
#[derive(Drop)]
#[derive_where(PartialEq)]
pub struct ReKeyRequest<A: Allocator = Global> {
    /// The key that is to be replaced: the last one, if it is absent.
    pub unique_identifier: Option<String<A>>,
    /// How long after its making the new one is to be in use, in seconds.
    pub offset: Option<Interval>,
    /// What is to be other than of the first, up to KMIP 1.4.
    pub template_attribute: Option<TemplateAttribute<A>>,
    /// What is to be other than of the first, by tags (KMIP 2.0).
    pub attributes_by_tag: Option<Kept<A>>,
    /// What stands behind these, whatever it is.
    pub other_items: Kept<A>,
}

impl<A: Allocator + Copy> Decided for ReKeyRequest<A> {
    ghost IsDecided = { λ x. IsApart ⟦<ReKeyRequestParts<A> as PartList<A>>⟧.rules ⟦<ReKeyRequest<A> as FromParts<A, ReKeyRequestParts<A>>>⟧.parts x };

    fn is_decided(&self) -> bool {
        is_apart::<ReKeyRequestParts<A>, A>(&self.other_items)
    }
}

type ReKeyRequestFirst<A> = (
    MaybeLeaf<String<A>, 0x420094>,
    MaybeLeaf<Interval, 0x420058>,
    Maybe<Of<TemplateAttribute<A>, 0x420091>, 0x420091>,
    Maybe<Of<Kept<A>, 0x420125>, 0x420125>,
);

type ReKeyRequestParts<A> = Four<ReKeyRequestFirst<A>, Rest>;

impl<A: Allocator + Copy> FromParts<A, ReKeyRequestParts<A>> for ReKeyRequest<A> {
    ghost parts = { λ x. (x.unique_identifier, x.offset, x.template_attribute, x.attributes_by_tag, x.other_items) };

    fn from_parts(
        (unique_identifier, offset, template_attribute, attributes_by_tag, other_items): Holds<
            ReKeyRequestParts<A>,
            A,
        >,
    ) -> Self {
        ReKeyRequest {
            unique_identifier,
            offset,
            template_attribute,
            attributes_by_tag,
            other_items,
        }
    }
}

impl<A: Allocator + Copy> Structure<A> for ReKeyRequest<A> {
    ghost rules = { keeping_structure ⟦<ReKeyRequestParts<A> as PartList<A>>⟧.rules ⟦<ReKeyRequest<A> as FromParts<A, ReKeyRequestParts<A>>>⟧.parts refl ⟦<ReKeyRequest<A> as PartialEq>⟧.eq (λ x y e. e) };

    fn read<'b>(scope: &Scope<'b, A>, tag: u32, cursor: &mut Cursor<'b, A>) -> Step<Self, A> {
        read_structure::<ReKeyRequestParts<A>, Self, A>(scope, tag, true, cursor)
    }

    fn tell_parts<W: Walk<A>>(&self, state: &mut W::State) -> Result<(), AllocError> {
        W::four::<
            MaybeLeaf<String<A>, 0x420094>,
            MaybeLeaf<Interval, 0x420058>,
            Maybe<Of<TemplateAttribute<A>, 0x420091>, 0x420091>,
            Maybe<Of<Kept<A>, 0x420125>, 0x420125>,
        >(
            state,
            &self.unique_identifier,
            &self.offset,
            &self.template_attribute,
            &self.attributes_by_tag,
        )?;
        W::kept(state, &self.other_items)?;
        W::check(state, self);
        Ok(())
    }
}

/// A public and a private key are to be made in place of others (KMIP 1.1, section 4.5).
#[derive(Drop)]
#[derive_where(PartialEq)]
pub struct ReKeyKeyPairRequest<A: Allocator = Global> {
    /// The private key that is to be replaced: the last one, if it is absent.
    pub private_key_unique_identifier: Option<String<A>>,
    /// How long after their making the new ones are to be in use, in seconds.
    pub offset: Option<Interval>,
    /// What both are made with.
    pub common: Option<CommonTemplateAttribute<A>>,
    /// What the private key is made with.
    pub private_key: Option<PrivateKeyTemplateAttribute<A>>,
    /// What the public key is made with.
    pub public_key: Option<PublicKeyTemplateAttribute<A>>,
    /// What stands behind these, whatever it is.
    pub other_items: Kept<A>,
}

impl<A: Allocator + Copy> Decided for ReKeyKeyPairRequest<A> {
    ghost IsDecided = { λ x. IsApart ⟦<ReKeyKeyPairRequestParts<A> as PartList<A>>⟧.rules ⟦<ReKeyKeyPairRequest<A> as FromParts<A, ReKeyKeyPairRequestParts<A>>>⟧.parts x };

    fn is_decided(&self) -> bool {
        is_apart::<ReKeyKeyPairRequestParts<A>, A>(&self.other_items)
    }
}

type ReKeyKeyPairRequestFirst<A> = (
    MaybeLeaf<String<A>, 0x420066>,
    MaybeLeaf<Interval, 0x420058>,
    Maybe<Of<CommonTemplateAttribute<A>, 0x42001F>, 0x42001F>,
    Maybe<Of<PrivateKeyTemplateAttribute<A>, 0x420065>, 0x420065>,
);

type ReKeyKeyPairRequestSecond<A> = Before<
    Maybe<Of<PublicKeyTemplateAttribute<A>, 0x42006E>, 0x42006E>,
    Rest,
>;

type ReKeyKeyPairRequestParts<A> = Four<ReKeyKeyPairRequestFirst<A>, ReKeyKeyPairRequestSecond<A>>;

impl<A: Allocator + Copy> FromParts<A, ReKeyKeyPairRequestParts<A>> for ReKeyKeyPairRequest<A> {
    ghost parts = { λ x. (x.private_key_unique_identifier, x.offset, x.common, x.private_key, (x.public_key, x.other_items)) };

    fn from_parts(
        (
            private_key_unique_identifier,
            offset,
            common,
            private_key,
            (public_key, other_items),
        ): Holds<ReKeyKeyPairRequestParts<A>, A>,
    ) -> Self {
        ReKeyKeyPairRequest {
            private_key_unique_identifier,
            offset,
            common,
            private_key,
            public_key,
            other_items,
        }
    }
}

impl<A: Allocator + Copy> Structure<A> for ReKeyKeyPairRequest<A> {
    ghost rules = { keeping_structure ⟦<ReKeyKeyPairRequestParts<A> as PartList<A>>⟧.rules ⟦<ReKeyKeyPairRequest<A> as FromParts<A, ReKeyKeyPairRequestParts<A>>>⟧.parts refl ⟦<ReKeyKeyPairRequest<A> as PartialEq>⟧.eq (λ x y e. e) };

    fn read<'b>(scope: &Scope<'b, A>, tag: u32, cursor: &mut Cursor<'b, A>) -> Step<Self, A> {
        read_structure::<ReKeyKeyPairRequestParts<A>, Self, A>(scope, tag, true, cursor)
    }

    fn tell_parts<W: Walk<A>>(&self, state: &mut W::State) -> Result<(), AllocError> {
        W::four::<
            MaybeLeaf<String<A>, 0x420066>,
            MaybeLeaf<Interval, 0x420058>,
            Maybe<Of<CommonTemplateAttribute<A>, 0x42001F>, 0x42001F>,
            Maybe<Of<PrivateKeyTemplateAttribute<A>, 0x420065>, 0x420065>,
        >(
            state,
            &self.private_key_unique_identifier,
            &self.offset,
            &self.common,
            &self.private_key,
        )?;
        W::one::<Maybe<Of<PublicKeyTemplateAttribute<A>, 0x42006E>, 0x42006E>>(
            state,
            &self.public_key,
        )?;
        W::kept(state, &self.other_items)?;
        W::check(state, self);
        Ok(())
    }
}

/// How a key is made of others (section 9.1.3.2.20).
pub type DerivationMethod = Enumeration<0x420031>;

/// The numbers of `DerivationMethod` that have a name.
pub mod derivation_method {
    use super::DerivationMethod;

    /// Of a password, by PBKDF2.
    pub const PBKDF2: DerivationMethod = DerivationMethod { number: 0x00000001 };
    /// A hash of the key.
    pub const HASH: DerivationMethod = DerivationMethod { number: 0x00000002 };
    /// An HMAC with the key.
    pub const HMAC: DerivationMethod = DerivationMethod { number: 0x00000003 };
    /// An encryption with the key.
    pub const ENCRYPT: DerivationMethod = DerivationMethod { number: 0x00000004 };
    /// By NIST SP 800-108 with a counter.
    pub const NIST800108_C: DerivationMethod = DerivationMethod { number: 0x00000005 };
    /// By NIST SP 800-108 with feedback.
    pub const NIST800108_F: DerivationMethod = DerivationMethod { number: 0x00000006 };
    /// By NIST SP 800-108 in a double pipeline.
    pub const NIST800108_DPI: DerivationMethod = DerivationMethod { number: 0x00000007 };
    /// Agreed on by two key pairs (KMIP 1.4).
    pub const ASYMMETRIC_KEY: DerivationMethod = DerivationMethod { number: 0x00000008 };
}

/// How a key is made of others (section 4.5).
#[derive(Drop)]
#[derive_where(PartialEq)]
pub struct DerivationParameters<A: Allocator = Global> {
    /// What is computed.
    pub cryptographic_parameters: Option<Boxed<CryptographicParameters, A>>,
    /// What an encryption begins with.
    pub initialization_vector: Option<Vec<u8, A>>,
    /// What is encrypted, or hashed with the key.
    pub derivation_data: Option<Vec<u8, A>>,
    /// What makes the keys of one password differ.
    pub salt: Option<Vec<u8, A>>,
    /// How often it is hashed.
    pub iteration_count: Option<i32>,
    /// What stands behind these, whatever it is.
    pub other_items: Kept<A>,
}

impl<A: Allocator + Copy> Decided for DerivationParameters<A> {
    ghost IsDecided = { λ x. IsApart ⟦<DerivationParametersParts<A> as PartList<A>>⟧.rules ⟦<DerivationParameters<A> as FromParts<A, DerivationParametersParts<A>>>⟧.parts x };

    fn is_decided(&self) -> bool {
        is_apart::<DerivationParametersParts<A>, A>(&self.other_items)
    }
}

type DerivationParametersFirst<A> = (
    Maybe<InBox<Of<CryptographicParameters, 0x42002B>>, 0x42002B>,
    MaybeLeaf<Vec<u8, A>, 0x42003A>,
    MaybeLeaf<Vec<u8, A>, 0x420030>,
    MaybeLeaf<Vec<u8, A>, 0x420084>,
);

type DerivationParametersSecond = Before<MaybeLeaf<i32, 0x42003C>, Rest>;

type DerivationParametersParts<A> = Four<DerivationParametersFirst<A>, DerivationParametersSecond>;

impl<A: Allocator + Copy> FromParts<A, DerivationParametersParts<A>> for DerivationParameters<A> {
    ghost parts = { λ x. (x.cryptographic_parameters, x.initialization_vector, x.derivation_data, x.salt, (x.iteration_count, x.other_items)) };

    fn from_parts(
        (
            cryptographic_parameters,
            initialization_vector,
            derivation_data,
            salt,
            (iteration_count, other_items),
        ): Holds<DerivationParametersParts<A>, A>,
    ) -> Self {
        DerivationParameters {
            cryptographic_parameters,
            initialization_vector,
            derivation_data,
            salt,
            iteration_count,
            other_items,
        }
    }
}

impl<A: Allocator + Copy> Structure<A> for DerivationParameters<A> {
    ghost rules = { keeping_structure ⟦<DerivationParametersParts<A> as PartList<A>>⟧.rules ⟦<DerivationParameters<A> as FromParts<A, DerivationParametersParts<A>>>⟧.parts refl ⟦<DerivationParameters<A> as PartialEq>⟧.eq (λ x y e. e) };

    fn read<'b>(scope: &Scope<'b, A>, tag: u32, cursor: &mut Cursor<'b, A>) -> Step<Self, A> {
        read_structure::<DerivationParametersParts<A>, Self, A>(scope, tag, true, cursor)
    }

    fn tell_parts<W: Walk<A>>(&self, state: &mut W::State) -> Result<(), AllocError> {
        W::four::<
            Maybe<InBox<Of<CryptographicParameters, 0x42002B>>, 0x42002B>,
            MaybeLeaf<Vec<u8, A>, 0x42003A>,
            MaybeLeaf<Vec<u8, A>, 0x420030>,
            MaybeLeaf<Vec<u8, A>, 0x420084>,
        >(
            state,
            &self.cryptographic_parameters,
            &self.initialization_vector,
            &self.derivation_data,
            &self.salt,
        )?;
        W::one::<MaybeLeaf<i32, 0x42003C>>(state, &self.iteration_count)?;
        W::kept(state, &self.other_items)?;
        W::check(state, self);
        Ok(())
    }
}

/// A key is to be made of others (section 4.5).
#[derive(Drop)]
#[derive_where(PartialEq)]
pub struct DeriveKeyRequest<A: Allocator = Global> {
    /// What it is.
    pub object_type: ObjectType,
    /// Of which objects it is made.
    pub unique_identifiers: Vec<String<A>, A>,
    /// How.
    pub derivation_method: DerivationMethod,
    /// By what.
    pub derivation_parameters: DerivationParameters<A>,
    /// What it is made with, up to KMIP 1.4.
    pub template_attribute: Option<TemplateAttribute<A>>,
    /// What it is made with, by tags (KMIP 2.0).
    pub attributes_by_tag: Option<Kept<A>>,
    /// What stands behind these, whatever it is.
    pub other_items: Kept<A>,
}

impl<A: Allocator + Copy> Decided for DeriveKeyRequest<A> {
    ghost IsDecided = { λ x. IsApart ⟦<DeriveKeyRequestParts<A> as PartList<A>>⟧.rules ⟦<DeriveKeyRequest<A> as FromParts<A, DeriveKeyRequestParts<A>>>⟧.parts x };

    fn is_decided(&self) -> bool {
        is_apart::<DeriveKeyRequestParts<A>, A>(&self.other_items)
    }
}

type DeriveKeyRequestFirst<A> = (
    One<ObjectType>,
    Several<LeafItem<String<A>, 0x420094>, 0x420094>,
    One<DerivationMethod>,
    One<Of<DerivationParameters<A>, 0x420032>>,
);

type DeriveKeyRequestSecond<A> = Before<
    Maybe<Of<TemplateAttribute<A>, 0x420091>, 0x420091>,
    Before<Maybe<Of<Kept<A>, 0x420125>, 0x420125>, Rest>,
>;

type DeriveKeyRequestParts<A> = Four<DeriveKeyRequestFirst<A>, DeriveKeyRequestSecond<A>>;

impl<A: Allocator + Copy> FromParts<A, DeriveKeyRequestParts<A>> for DeriveKeyRequest<A> {
    ghost parts = { λ x. (x.object_type, x.unique_identifiers, x.derivation_method, x.derivation_parameters, (x.template_attribute, (x.attributes_by_tag, x.other_items))) };

    fn from_parts(
        (
            object_type,
            unique_identifiers,
            derivation_method,
            derivation_parameters,
            (template_attribute, (attributes_by_tag, other_items)),
        ): Holds<DeriveKeyRequestParts<A>, A>,
    ) -> Self {
        DeriveKeyRequest {
            object_type,
            unique_identifiers,
            derivation_method,
            derivation_parameters,
            template_attribute,
            attributes_by_tag,
            other_items,
        }
    }
}

impl<A: Allocator + Copy> Structure<A> for DeriveKeyRequest<A> {
    ghost rules = { keeping_structure ⟦<DeriveKeyRequestParts<A> as PartList<A>>⟧.rules ⟦<DeriveKeyRequest<A> as FromParts<A, DeriveKeyRequestParts<A>>>⟧.parts refl ⟦<DeriveKeyRequest<A> as PartialEq>⟧.eq (λ x y e. e) };

    fn read<'b>(scope: &Scope<'b, A>, tag: u32, cursor: &mut Cursor<'b, A>) -> Step<Self, A> {
        read_structure::<DeriveKeyRequestParts<A>, Self, A>(scope, tag, true, cursor)
    }

    fn tell_parts<W: Walk<A>>(&self, state: &mut W::State) -> Result<(), AllocError> {
        W::four::<
            One<ObjectType>,
            Several<LeafItem<String<A>, 0x420094>, 0x420094>,
            One<DerivationMethod>,
            One<Of<DerivationParameters<A>, 0x420032>>,
        >(
            state,
            &self.object_type,
            &self.unique_identifiers,
            &self.derivation_method,
            &self.derivation_parameters,
        )?;
        W::one::<Maybe<Of<TemplateAttribute<A>, 0x420091>, 0x420091>>(
            state,
            &self.template_attribute,
        )?;
        W::one::<Maybe<Of<Kept<A>, 0x420125>, 0x420125>>(state, &self.attributes_by_tag)?;
        W::kept(state, &self.other_items)?;
        W::check(state, self);
        Ok(())
    }
}

/// Which objects are sought (section 4.8).
#[derive(Drop)]
#[derive_where(PartialEq)]
pub struct LocateRequest<A: Allocator = Global> {
    /// How many at most.
    pub maximum_items: Option<i32>,
    /// How many are left out before the first (KMIP 1.3).
    pub offset_items: Option<i32>,
    /// Where they are kept.
    pub storage_status_mask: Option<i32>,
    /// Which of a group (KMIP 1.1).
    pub object_group_member: Option<u32>,
    /// What each of them has, up to KMIP 1.4; without any, all objects are sought.
    pub attributes: Vec<Attribute<A>, A>,
    /// What each of them has, by tags (KMIP 2.0).
    pub attributes_by_tag: Option<Kept<A>>,
    /// What stands behind these, whatever it is.
    pub other_items: Kept<A>,
}

impl<A: Allocator + Copy> Decided for LocateRequest<A> {
    ghost IsDecided = { λ x. IsApart ⟦<LocateRequestParts<A> as PartList<A>>⟧.rules ⟦<LocateRequest<A> as FromParts<A, LocateRequestParts<A>>>⟧.parts x };

    fn is_decided(&self) -> bool {
        is_apart::<LocateRequestParts<A>, A>(&self.other_items)
    }
}

type LocateRequestFirst = (
    MaybeLeaf<i32, 0x42004F>,
    MaybeLeaf<i32, 0x4200D4>,
    MaybeLeaf<i32, 0x42008E>,
    MaybeLeaf<u32, 0x4200AC>,
);

type LocateRequestSecond<A> = Before<
    Any<Of<Attribute<A>, 0x420008>, 0x420008>,
    Before<Maybe<Of<Kept<A>, 0x420125>, 0x420125>, Rest>,
>;

type LocateRequestParts<A> = Four<LocateRequestFirst, LocateRequestSecond<A>>;

impl<A: Allocator + Copy> FromParts<A, LocateRequestParts<A>> for LocateRequest<A> {
    ghost parts = { λ x. (x.maximum_items, x.offset_items, x.storage_status_mask, x.object_group_member, (x.attributes, (x.attributes_by_tag, x.other_items))) };

    fn from_parts(
        (
            maximum_items,
            offset_items,
            storage_status_mask,
            object_group_member,
            (attributes, (attributes_by_tag, other_items)),
        ): Holds<LocateRequestParts<A>, A>,
    ) -> Self {
        LocateRequest {
            maximum_items,
            offset_items,
            storage_status_mask,
            object_group_member,
            attributes,
            attributes_by_tag,
            other_items,
        }
    }
}

impl<A: Allocator + Copy> Structure<A> for LocateRequest<A> {
    ghost rules = { keeping_structure ⟦<LocateRequestParts<A> as PartList<A>>⟧.rules ⟦<LocateRequest<A> as FromParts<A, LocateRequestParts<A>>>⟧.parts refl ⟦<LocateRequest<A> as PartialEq>⟧.eq (λ x y e. e) };

    fn read<'b>(scope: &Scope<'b, A>, tag: u32, cursor: &mut Cursor<'b, A>) -> Step<Self, A> {
        read_structure::<LocateRequestParts<A>, Self, A>(scope, tag, true, cursor)
    }

    fn tell_parts<W: Walk<A>>(&self, state: &mut W::State) -> Result<(), AllocError> {
        W::four::<
            MaybeLeaf<i32, 0x42004F>,
            MaybeLeaf<i32, 0x4200D4>,
            MaybeLeaf<i32, 0x42008E>,
            MaybeLeaf<u32, 0x4200AC>,
        >(
            state,
            &self.maximum_items,
            &self.offset_items,
            &self.storage_status_mask,
            &self.object_group_member,
        )?;
        W::one::<Any<Of<Attribute<A>, 0x420008>, 0x420008>>(state, &self.attributes)?;
        W::one::<Maybe<Of<Kept<A>, 0x420125>, 0x420125>>(state, &self.attributes_by_tag)?;
        W::kept(state, &self.other_items)?;
        W::check(state, self);
        Ok(())
    }
}

/// Whether an object may be used so (section 4.9).
#[derive(Drop)]
#[derive_where(PartialEq)]
pub struct CheckRequest<A: Allocator = Global> {
    /// Which one: the last one, if it is absent.
    pub unique_identifier: Option<String<A>>,
    /// So often, or for so many bytes.
    pub usage_limits_count: Option<i64>,
    /// For this.
    pub cryptographic_usage_mask: Option<i32>,
    /// For so long, in seconds.
    pub lease_time: Option<Interval>,
    /// What stands behind these, whatever it is.
    pub other_items: Kept<A>,
}

impl<A: Allocator + Copy> Decided for CheckRequest<A> {
    ghost IsDecided = { λ x. IsApart ⟦<CheckRequestParts<A> as PartList<A>>⟧.rules ⟦<CheckRequest<A> as FromParts<A, CheckRequestParts<A>>>⟧.parts x };

    fn is_decided(&self) -> bool {
        is_apart::<CheckRequestParts<A>, A>(&self.other_items)
    }
}

type CheckRequestFirst<A> = (
    MaybeLeaf<String<A>, 0x420094>,
    MaybeLeaf<i64, 0x420096>,
    MaybeLeaf<i32, 0x42002C>,
    MaybeLeaf<Interval, 0x420049>,
);

type CheckRequestParts<A> = Four<CheckRequestFirst<A>, Rest>;

impl<A: Allocator + Copy> FromParts<A, CheckRequestParts<A>> for CheckRequest<A> {
    ghost parts = { λ x. (x.unique_identifier, x.usage_limits_count, x.cryptographic_usage_mask, x.lease_time, x.other_items) };

    fn from_parts(
        (
            unique_identifier,
            usage_limits_count,
            cryptographic_usage_mask,
            lease_time,
            other_items,
        ): Holds<CheckRequestParts<A>, A>,
    ) -> Self {
        CheckRequest {
            unique_identifier,
            usage_limits_count,
            cryptographic_usage_mask,
            lease_time,
            other_items,
        }
    }
}

impl<A: Allocator + Copy> Structure<A> for CheckRequest<A> {
    ghost rules = { keeping_structure ⟦<CheckRequestParts<A> as PartList<A>>⟧.rules ⟦<CheckRequest<A> as FromParts<A, CheckRequestParts<A>>>⟧.parts refl ⟦<CheckRequest<A> as PartialEq>⟧.eq (λ x y e. e) };

    fn read<'b>(scope: &Scope<'b, A>, tag: u32, cursor: &mut Cursor<'b, A>) -> Step<Self, A> {
        read_structure::<CheckRequestParts<A>, Self, A>(scope, tag, true, cursor)
    }

    fn tell_parts<W: Walk<A>>(&self, state: &mut W::State) -> Result<(), AllocError> {
        W::four::<
            MaybeLeaf<String<A>, 0x420094>,
            MaybeLeaf<i64, 0x420096>,
            MaybeLeaf<i32, 0x42002C>,
            MaybeLeaf<Interval, 0x420049>,
        >(
            state,
            &self.unique_identifier,
            &self.usage_limits_count,
            &self.cryptographic_usage_mask,
            &self.lease_time,
        )?;
        W::kept(state, &self.other_items)?;
        W::check(state, self);
        Ok(())
    }
}

/// How a key is to be wrapped (section 2.1.6).
#[derive(Drop)]
#[derive_where(PartialEq)]
pub struct KeyWrappingSpecification<A: Allocator = Global> {
    /// What is to be done.
    pub wrapping_method: WrappingMethod,
    /// What it is to be encrypted by.
    pub encryption_key_information: Option<EncryptionKeyInformation<A>>,
    /// What is to make the MAC or the signature.
    pub mac_signature_key_information: Option<MacSignatureKeyInformation<A>>,
    /// Which attributes are wrapped with it.
    pub attribute_names: Vec<String<A>, A>,
    /// What is encrypted (KMIP 1.1).
    pub encoding_option: Option<EncodingOption>,
}

type KeyWrappingSpecificationFirst<A> = (
    One<WrappingMethod>,
    Maybe<Of<EncryptionKeyInformation<A>, 0x420036>, 0x420036>,
    Maybe<Of<MacSignatureKeyInformation<A>, 0x42004E>, 0x42004E>,
    Any<LeafItem<String<A>, 0x42000A>, 0x42000A>,
);

type KeyWrappingSpecificationSecond = Alone<Maybe<EncodingOption, 0x4200A3>>;

type KeyWrappingSpecificationParts<A> = Four<
    KeyWrappingSpecificationFirst<A>,
    KeyWrappingSpecificationSecond,
>;

impl<A: Allocator + Copy> FromParts<A, KeyWrappingSpecificationParts<A>>
    for KeyWrappingSpecification<A> {
    ghost parts = { λ x. (x.wrapping_method, x.encryption_key_information, x.mac_signature_key_information, x.attribute_names, x.encoding_option) };

    fn from_parts(
        (
            wrapping_method,
            encryption_key_information,
            mac_signature_key_information,
            attribute_names,
            encoding_option,
        ): Holds<KeyWrappingSpecificationParts<A>, A>,
    ) -> Self {
        KeyWrappingSpecification {
            wrapping_method,
            encryption_key_information,
            mac_signature_key_information,
            attribute_names,
            encoding_option,
        }
    }
}

impl<A: Allocator + Copy> Structure<A> for KeyWrappingSpecification<A> {
    ghost rules = { structure true ⟦<KeyWrappingSpecificationParts<A> as PartList<A>>⟧.rules ⟦<KeyWrappingSpecification<A> as FromParts<A, KeyWrappingSpecificationParts<A>>>⟧.parts refl ⟦<KeyWrappingSpecification<A> as PartialEq>⟧.eq (λ x y e. e) };

    fn read<'b>(scope: &Scope<'b, A>, tag: u32, cursor: &mut Cursor<'b, A>) -> Step<Self, A> {
        read_structure::<KeyWrappingSpecificationParts<A>, Self, A>(scope, tag, true, cursor)
    }

    fn tell_parts<W: Walk<A>>(&self, state: &mut W::State) -> Result<(), AllocError> {
        W::four::<
            One<WrappingMethod>,
            Maybe<Of<EncryptionKeyInformation<A>, 0x420036>, 0x420036>,
            Maybe<Of<MacSignatureKeyInformation<A>, 0x42004E>, 0x42004E>,
            Any<LeafItem<String<A>, 0x42000A>, 0x42000A>,
        >(
            state,
            &self.wrapping_method,
            &self.encryption_key_information,
            &self.mac_signature_key_information,
            &self.attribute_names,
        )?;
        W::one::<Maybe<EncodingOption, 0x4200A3>>(state, &self.encoding_option)?;
        Ok(())
    }
}

/// Which object is asked for (section 4.10).
#[derive(Drop)]
#[derive_where(PartialEq)]
pub struct GetRequest<A: Allocator = Global> {
    /// Its identifier; that of the last object, if it is absent.
    pub unique_identifier: Option<String<A>>,
    /// How a key's bytes are to be written.
    pub key_format_type: Option<KeyFormatType>,
    /// Whether a key that is kept wrapped is to come so (KMIP 1.4).
    pub key_wrap_type: Option<u32>,
    /// How the point of an elliptic curve is to be written.
    pub key_compression_type: Option<KeyCompressionType>,
    /// How a key is to be wrapped.
    pub key_wrapping_specification: Option<Boxed<KeyWrappingSpecification<A>, A>>,
}

type GetRequestFirst<A> = (
    MaybeLeaf<String<A>, 0x420094>,
    Maybe<KeyFormatType, 0x420042>,
    MaybeLeaf<u32, 0x4200F8>,
    Maybe<KeyCompressionType, 0x420041>,
);

type GetRequestSecond<A> = Alone<Maybe<InBox<Of<KeyWrappingSpecification<A>, 0x420047>>, 0x420047>>;

type GetRequestParts<A> = Four<GetRequestFirst<A>, GetRequestSecond<A>>;

impl<A: Allocator + Copy> FromParts<A, GetRequestParts<A>> for GetRequest<A> {
    ghost parts = { λ x. (x.unique_identifier, x.key_format_type, x.key_wrap_type, x.key_compression_type, x.key_wrapping_specification) };

    fn from_parts(
        (
            unique_identifier,
            key_format_type,
            key_wrap_type,
            key_compression_type,
            key_wrapping_specification,
        ): Holds<GetRequestParts<A>, A>,
    ) -> Self {
        GetRequest {
            unique_identifier,
            key_format_type,
            key_wrap_type,
            key_compression_type,
            key_wrapping_specification,
        }
    }
}

impl<A: Allocator + Copy> Structure<A> for GetRequest<A> {
    ghost rules = { structure true ⟦<GetRequestParts<A> as PartList<A>>⟧.rules ⟦<GetRequest<A> as FromParts<A, GetRequestParts<A>>>⟧.parts refl ⟦<GetRequest<A> as PartialEq>⟧.eq (λ x y e. e) };

    fn read<'b>(scope: &Scope<'b, A>, tag: u32, cursor: &mut Cursor<'b, A>) -> Step<Self, A> {
        read_structure::<GetRequestParts<A>, Self, A>(scope, tag, true, cursor)
    }

    fn tell_parts<W: Walk<A>>(&self, state: &mut W::State) -> Result<(), AllocError> {
        W::four::<
            MaybeLeaf<String<A>, 0x420094>,
            Maybe<KeyFormatType, 0x420042>,
            MaybeLeaf<u32, 0x4200F8>,
            Maybe<KeyCompressionType, 0x420041>,
        >(
            state,
            &self.unique_identifier,
            &self.key_format_type,
            &self.key_wrap_type,
            &self.key_compression_type,
        )?;
        W::one::<Maybe<InBox<Of<KeyWrappingSpecification<A>, 0x420047>>, 0x420047>>(
            state,
            &self.key_wrapping_specification,
        )?;
        Ok(())
    }
}

/// Which attributes are asked for (section 4.11). Of KMIP 2.0 the Attribute References are among the other items.
#[derive(Drop)]
#[derive_where(PartialEq)]
pub struct GetAttributesRequest<A: Allocator = Global> {
    /// Of which object: the last one, if it is absent.
    pub unique_identifier: Option<String<A>>,
    /// Which, up to KMIP 1.4; all of them, if none is named.
    pub attribute_names: Vec<String<A>, A>,
    /// What stands behind these, whatever it is.
    pub other_items: Kept<A>,
}

impl<A: Allocator + Copy> Decided for GetAttributesRequest<A> {
    ghost IsDecided = { λ x. IsApart ⟦<GetAttributesRequestParts<A> as PartList<A>>⟧.rules ⟦<GetAttributesRequest<A> as FromParts<A, GetAttributesRequestParts<A>>>⟧.parts x };

    fn is_decided(&self) -> bool {
        is_apart::<GetAttributesRequestParts<A>, A>(&self.other_items)
    }
}

type GetAttributesRequestParts<A> = Before<
    MaybeLeaf<String<A>, 0x420094>,
    Before<Any<LeafItem<String<A>, 0x42000A>, 0x42000A>, Rest>,
>;

impl<A: Allocator + Copy> FromParts<A, GetAttributesRequestParts<A>> for GetAttributesRequest<A> {
    ghost parts = { λ x. (x.unique_identifier, (x.attribute_names, x.other_items)) };

    fn from_parts(
        (unique_identifier, (attribute_names, other_items)): Holds<GetAttributesRequestParts<A>, A>,
    ) -> Self {
        GetAttributesRequest {
            unique_identifier,
            attribute_names,
            other_items,
        }
    }
}

impl<A: Allocator + Copy> Structure<A> for GetAttributesRequest<A> {
    ghost rules = { keeping_structure ⟦<GetAttributesRequestParts<A> as PartList<A>>⟧.rules ⟦<GetAttributesRequest<A> as FromParts<A, GetAttributesRequestParts<A>>>⟧.parts refl ⟦<GetAttributesRequest<A> as PartialEq>⟧.eq (λ x y e. e) };

    fn read<'b>(scope: &Scope<'b, A>, tag: u32, cursor: &mut Cursor<'b, A>) -> Step<Self, A> {
        read_structure::<GetAttributesRequestParts<A>, Self, A>(scope, tag, true, cursor)
    }

    fn tell_parts<W: Walk<A>>(&self, state: &mut W::State) -> Result<(), AllocError> {
        W::one::<MaybeLeaf<String<A>, 0x420094>>(state, &self.unique_identifier)?;
        W::one::<Any<LeafItem<String<A>, 0x42000A>, 0x42000A>>(state, &self.attribute_names)?;
        W::kept(state, &self.other_items)?;
        W::check(state, self);
        Ok(())
    }
}

/// An attribute is to be added or changed (sections 4.13 and 4.14).
#[derive(Drop)]
#[derive_where(PartialEq)]
pub struct AttributeRequest<A: Allocator = Global> {
    /// Of which object: the last one, if it is absent.
    pub unique_identifier: Option<String<A>>,
    /// The attribute, up to KMIP 1.4.
    pub attribute: Option<Attribute<A>>,
    /// The attribute, by its tag (KMIP 2.0).
    pub new_attribute: Option<Kept<A>>,
}

type AttributeRequestParts<A> = (
    MaybeLeaf<String<A>, 0x420094>,
    Maybe<Of<Attribute<A>, 0x420008>, 0x420008>,
    Maybe<Of<Kept<A>, 0x42013D>, 0x42013D>,
);

impl<A: Allocator + Copy> FromParts<A, AttributeRequestParts<A>> for AttributeRequest<A> {
    ghost parts = { λ x. (x.unique_identifier, x.attribute, x.new_attribute) };

    fn from_parts(
        (unique_identifier, attribute, new_attribute): Holds<AttributeRequestParts<A>, A>,
    ) -> Self {
        AttributeRequest {
            unique_identifier,
            attribute,
            new_attribute,
        }
    }
}

impl<A: Allocator + Copy> Structure<A> for AttributeRequest<A> {
    ghost rules = { structure true ⟦<AttributeRequestParts<A> as PartList<A>>⟧.rules ⟦<AttributeRequest<A> as FromParts<A, AttributeRequestParts<A>>>⟧.parts refl ⟦<AttributeRequest<A> as PartialEq>⟧.eq (λ x y e. e) };

    fn read<'b>(scope: &Scope<'b, A>, tag: u32, cursor: &mut Cursor<'b, A>) -> Step<Self, A> {
        read_structure::<AttributeRequestParts<A>, Self, A>(scope, tag, true, cursor)
    }

    fn tell_parts<W: Walk<A>>(&self, state: &mut W::State) -> Result<(), AllocError> {
        W::three::<
            MaybeLeaf<String<A>, 0x420094>,
            Maybe<Of<Attribute<A>, 0x420008>, 0x420008>,
            Maybe<Of<Kept<A>, 0x42013D>, 0x42013D>,
        >(
            state,
            &self.unique_identifier,
            &self.attribute,
            &self.new_attribute,
        )
    }
}

/// Which attribute is meant (KMIP 2.0).
#[derive(Drop)]
#[derive_where(PartialEq)]
pub enum AttributeReference<A: Allocator = Global> {
    /// The one of this tag.
    Tag(u32),
    /// A vendor's: the vendor's identification, and the attribute's name.
    Named(Kept<A>),
}

// The rules of the variants, in their order.
const ATTRIBUTE_REFERENCE_RULES: [RuleParts; 2] = [
    RuleParts::Type(TtlvType::Enumeration),
    RuleParts::Type(TtlvType::Structure),
];

impl<A: Allocator + Copy> Choice<A> for AttributeReference<A> {
    ghost chosen = { attribute_reference_choice ⟦<AttributeReference<A> as PartialEq>⟧.eq record {
      tag = held ⟦<LeafItem<u32, 0x42013B> as Element<A>>⟧.rules refl refl (λ x y e. e);
      named = held ⟦<Of<Kept<A>, 0x42013B> as Element<A>>⟧.rules refl refl (λ x y e. e);
    } };

    #[tactic(auto, unfolding(kmip_ttlv_reader::specs::RuleParts::parts_of, kmip_ttlv_reader::specs::RuleParts::equal_sides))]
    fn variant_rules() -> &'static [RuleParts] {
        &ATTRIBUTE_REFERENCE_RULES
    }

    fn read_held<'b>(
        scope: &Scope<'b, A>,
        cursor: &mut Cursor<'b, A>,
        place: usize,
    ) -> Step<Self, A> {
        match place {
            0 => Ok(AttributeReference::Tag(<LeafItem<u32, 0x42013B> as Element<A>>::read_one(
                scope, cursor,
            )?)),
            1 => Ok(AttributeReference::Named(<Of<Kept<A>, 0x42013B> as Element<A>>::read_one(
                scope, cursor,
            )?)),
            _ => unreachable!(),
        }
    }

    fn tell_held<W: Walk<A>>(&self, state: &mut W::State) -> Result<(), AllocError> {
        match self {
            AttributeReference::Tag(inner) => W::item::<LeafItem<u32, 0x42013B>>(state, inner),
            AttributeReference::Named(inner) => W::item::<Of<Kept<A>, 0x42013B>>(state, inner),
        }
    }
}

/// An attribute is to be deleted (section 4.15).
#[derive(Drop)]
#[derive_where(PartialEq)]
pub struct DeleteAttributeRequest<A: Allocator = Global> {
    /// Of which object: the last one, if it is absent.
    pub unique_identifier: Option<String<A>>,
    /// The attribute's name, up to KMIP 1.4.
    pub attribute_name: Option<String<A>>,
    /// Which of this name; the first, if it is absent.
    pub attribute_index: Option<i32>,
    /// The attribute, by its tag and value (KMIP 2.0).
    pub current_attribute: Option<Kept<A>>,
    /// The attribute, by its tag (KMIP 2.0).
    pub attribute_reference: Option<AttributeReference<A>>,
}

type DeleteAttributeRequestFirst<A> = (
    MaybeLeaf<String<A>, 0x420094>,
    MaybeLeaf<String<A>, 0x42000A>,
    MaybeLeaf<i32, 0x420009>,
    Maybe<Of<Kept<A>, 0x42013C>, 0x42013C>,
);

type DeleteAttributeRequestSecond<A> = Alone<MaybeOneOf<AttributeReference<A>, 0x42013B>>;

type DeleteAttributeRequestParts<A> = Four<
    DeleteAttributeRequestFirst<A>,
    DeleteAttributeRequestSecond<A>,
>;

impl<A: Allocator + Copy> FromParts<A, DeleteAttributeRequestParts<A>>
    for DeleteAttributeRequest<A> {
    ghost parts = { λ x. (x.unique_identifier, x.attribute_name, x.attribute_index, x.current_attribute, x.attribute_reference) };

    fn from_parts(
        (
            unique_identifier,
            attribute_name,
            attribute_index,
            current_attribute,
            attribute_reference,
        ): Holds<DeleteAttributeRequestParts<A>, A>,
    ) -> Self {
        DeleteAttributeRequest {
            unique_identifier,
            attribute_name,
            attribute_index,
            current_attribute,
            attribute_reference,
        }
    }
}

impl<A: Allocator + Copy> Structure<A> for DeleteAttributeRequest<A> {
    ghost rules = { structure true ⟦<DeleteAttributeRequestParts<A> as PartList<A>>⟧.rules ⟦<DeleteAttributeRequest<A> as FromParts<A, DeleteAttributeRequestParts<A>>>⟧.parts refl ⟦<DeleteAttributeRequest<A> as PartialEq>⟧.eq (λ x y e. e) };

    fn read<'b>(scope: &Scope<'b, A>, tag: u32, cursor: &mut Cursor<'b, A>) -> Step<Self, A> {
        read_structure::<DeleteAttributeRequestParts<A>, Self, A>(scope, tag, true, cursor)
    }

    fn tell_parts<W: Walk<A>>(&self, state: &mut W::State) -> Result<(), AllocError> {
        W::four::<
            MaybeLeaf<String<A>, 0x420094>,
            MaybeLeaf<String<A>, 0x42000A>,
            MaybeLeaf<i32, 0x420009>,
            Maybe<Of<Kept<A>, 0x42013C>, 0x42013C>,
        >(
            state,
            &self.unique_identifier,
            &self.attribute_name,
            &self.attribute_index,
            &self.current_attribute,
        )?;
        W::one::<MaybeOneOf<AttributeReference<A>, 0x42013B>>(state, &self.attribute_reference)?;
        Ok(())
    }
}

/// Which object is meant: to get the names of its attributes, to use it for a time, to activate, destroy, archive or recover it.
#[derive(Drop)]
#[derive_where(PartialEq)]
pub struct ObjectRequest<A: Allocator = Global> {
    /// Its identifier; that of the last object, if it is absent.
    pub unique_identifier: Option<String<A>>,
}

type ObjectRequestParts<A> = Alone<MaybeLeaf<String<A>, 0x420094>>;

impl<A: Allocator + Copy> FromParts<A, ObjectRequestParts<A>> for ObjectRequest<A> {
    ghost parts = { λ x. x.unique_identifier };

    fn from_parts(unique_identifier: Holds<ObjectRequestParts<A>, A>) -> Self {
        ObjectRequest { unique_identifier }
    }
}

impl<A: Allocator + Copy> Structure<A> for ObjectRequest<A> {
    ghost rules = { structure true ⟦<ObjectRequestParts<A> as PartList<A>>⟧.rules ⟦<ObjectRequest<A> as FromParts<A, ObjectRequestParts<A>>>⟧.parts refl ⟦<ObjectRequest<A> as PartialEq>⟧.eq (λ x y e. e) };

    fn read<'b>(scope: &Scope<'b, A>, tag: u32, cursor: &mut Cursor<'b, A>) -> Step<Self, A> {
        read_structure::<ObjectRequestParts<A>, Self, A>(scope, tag, true, cursor)
    }

    fn tell_parts<W: Walk<A>>(&self, state: &mut W::State) -> Result<(), AllocError> {
        W::one::<MaybeLeaf<String<A>, 0x420094>>(state, &self.unique_identifier)
    }
}

/// An object is to be used so much (section 4.17).
#[derive(Drop)]
#[derive_where(PartialEq)]
pub struct UsageAllocationRequest<A: Allocator = Global> {
    /// Which one: the last one, if it is absent.
    pub unique_identifier: Option<String<A>>,
    /// How often, or for how many bytes.
    pub usage_limits_count: i64,
    /// What stands behind these, whatever it is.
    pub other_items: Kept<A>,
}

impl<A: Allocator + Copy> Decided for UsageAllocationRequest<A> {
    ghost IsDecided = { λ x. IsApart ⟦<UsageAllocationRequestParts<A> as PartList<A>>⟧.rules ⟦<UsageAllocationRequest<A> as FromParts<A, UsageAllocationRequestParts<A>>>⟧.parts x };

    fn is_decided(&self) -> bool {
        is_apart::<UsageAllocationRequestParts<A>, A>(&self.other_items)
    }
}

type UsageAllocationRequestParts<A> = Before<
    MaybeLeaf<String<A>, 0x420094>,
    Before<Leaf<i64, 0x420096>, Rest>,
>;

impl<A: Allocator + Copy> FromParts<A, UsageAllocationRequestParts<A>>
    for UsageAllocationRequest<A> {
    ghost parts = { λ x. (x.unique_identifier, (x.usage_limits_count, x.other_items)) };

    fn from_parts(
        (unique_identifier, (usage_limits_count, other_items)): Holds<
            UsageAllocationRequestParts<A>,
            A,
        >,
    ) -> Self {
        UsageAllocationRequest {
            unique_identifier,
            usage_limits_count,
            other_items,
        }
    }
}

impl<A: Allocator + Copy> Structure<A> for UsageAllocationRequest<A> {
    ghost rules = { keeping_structure ⟦<UsageAllocationRequestParts<A> as PartList<A>>⟧.rules ⟦<UsageAllocationRequest<A> as FromParts<A, UsageAllocationRequestParts<A>>>⟧.parts refl ⟦<UsageAllocationRequest<A> as PartialEq>⟧.eq (λ x y e. e) };

    fn read<'b>(scope: &Scope<'b, A>, tag: u32, cursor: &mut Cursor<'b, A>) -> Step<Self, A> {
        read_structure::<UsageAllocationRequestParts<A>, Self, A>(scope, tag, true, cursor)
    }

    fn tell_parts<W: Walk<A>>(&self, state: &mut W::State) -> Result<(), AllocError> {
        W::one::<MaybeLeaf<String<A>, 0x420094>>(state, &self.unique_identifier)?;
        W::one::<Leaf<i64, 0x420096>>(state, &self.usage_limits_count)?;
        W::kept(state, &self.other_items)?;
        W::check(state, self);
        Ok(())
    }
}

/// Why an object is revoked (section 3.26).
#[derive(Drop)]
#[derive_where(PartialEq)]
pub struct RevocationReasonGiven<A: Allocator = Global> {
    /// The reason.
    pub code: RevocationReasonCode,
    /// More about it, for a person.
    pub message: Option<String<A>>,
}

type RevocationReasonGivenParts<A> = (One<RevocationReasonCode>, MaybeLeaf<String<A>, 0x420080>);

impl<A: Allocator + Copy> FromParts<A, RevocationReasonGivenParts<A>> for RevocationReasonGiven<A> {
    ghost parts = { λ x. (x.code, x.message) };

    fn from_parts((code, message): Holds<RevocationReasonGivenParts<A>, A>) -> Self {
        RevocationReasonGiven { code, message }
    }
}

impl<A: Allocator + Copy> Structure<A> for RevocationReasonGiven<A> {
    ghost rules = { structure true ⟦<RevocationReasonGivenParts<A> as PartList<A>>⟧.rules ⟦<RevocationReasonGiven<A> as FromParts<A, RevocationReasonGivenParts<A>>>⟧.parts refl ⟦<RevocationReasonGiven<A> as PartialEq>⟧.eq (λ x y e. e) };

    fn read<'b>(scope: &Scope<'b, A>, tag: u32, cursor: &mut Cursor<'b, A>) -> Step<Self, A> {
        read_structure::<RevocationReasonGivenParts<A>, Self, A>(scope, tag, true, cursor)
    }

    fn tell_parts<W: Walk<A>>(&self, state: &mut W::State) -> Result<(), AllocError> {
        W::two::<One<RevocationReasonCode>, MaybeLeaf<String<A>, 0x420080>>(
            state,
            &self.code,
            &self.message,
        )
    }
}

/// An object is no longer to be used (section 4.19).
#[derive(Drop)]
#[derive_where(PartialEq)]
pub struct RevokeRequest<A: Allocator = Global> {
    /// Its identifier; that of the last object, if it is absent.
    pub unique_identifier: Option<String<A>>,
    /// Why.
    pub revocation_reason: RevocationReasonGiven<A>,
    /// When others may first have known it.
    pub compromise_occurrence_date: Option<DateTime>,
}

type RevokeRequestParts<A> = (
    MaybeLeaf<String<A>, 0x420094>,
    One<Of<RevocationReasonGiven<A>, 0x420081>>,
    MaybeLeaf<DateTime, 0x420021>,
);

impl<A: Allocator + Copy> FromParts<A, RevokeRequestParts<A>> for RevokeRequest<A> {
    ghost parts = { λ x. (x.unique_identifier, x.revocation_reason, x.compromise_occurrence_date) };

    fn from_parts(
        (unique_identifier, revocation_reason, compromise_occurrence_date): Holds<
            RevokeRequestParts<A>,
            A,
        >,
    ) -> Self {
        RevokeRequest {
            unique_identifier,
            revocation_reason,
            compromise_occurrence_date,
        }
    }
}

impl<A: Allocator + Copy> Structure<A> for RevokeRequest<A> {
    ghost rules = { structure true ⟦<RevokeRequestParts<A> as PartList<A>>⟧.rules ⟦<RevokeRequest<A> as FromParts<A, RevokeRequestParts<A>>>⟧.parts refl ⟦<RevokeRequest<A> as PartialEq>⟧.eq (λ x y e. e) };

    fn read<'b>(scope: &Scope<'b, A>, tag: u32, cursor: &mut Cursor<'b, A>) -> Step<Self, A> {
        read_structure::<RevokeRequestParts<A>, Self, A>(scope, tag, true, cursor)
    }

    fn tell_parts<W: Walk<A>>(&self, state: &mut W::State) -> Result<(), AllocError> {
        W::three::<
            MaybeLeaf<String<A>, 0x420094>,
            One<Of<RevocationReasonGiven<A>, 0x420081>>,
            MaybeLeaf<DateTime, 0x420021>,
        >(
            state,
            &self.unique_identifier,
            &self.revocation_reason,
            &self.compromise_occurrence_date,
        )
    }
}

/// What is asked about a server (section 9.1.3.2.23).
pub type QueryFunction = Enumeration<0x420074>;

/// The numbers of `QueryFunction` that have a name.
pub mod query_function {
    use super::QueryFunction;

    /// Its operations.
    pub const QUERY_OPERATIONS: QueryFunction = QueryFunction { number: 0x00000001 };
    /// The kinds of objects that it keeps.
    pub const QUERY_OBJECTS: QueryFunction = QueryFunction { number: 0x00000002 };
    /// What it is.
    pub const QUERY_SERVER_INFORMATION: QueryFunction = QueryFunction { number: 0x00000003 };
    /// The namespaces that it knows.
    pub const QUERY_APPLICATION_NAMESPACES: QueryFunction = QueryFunction { number: 0x00000004 };
}

/// What is asked about a server (section 4.24).
#[derive(Drop)]
#[derive_where(PartialEq)]
pub struct QueryRequest<A: Allocator = Global> {
    /// One or more.
    pub functions: Vec<QueryFunction, A>,
}

type QueryRequestParts = Alone<Several<QueryFunction, 0x420074>>;

impl<A: Allocator + Copy> FromParts<A, QueryRequestParts> for QueryRequest<A> {
    ghost parts = { λ x. x.functions };

    fn from_parts(functions: Holds<QueryRequestParts, A>) -> Self {
        QueryRequest { functions }
    }
}

impl<A: Allocator + Copy> Structure<A> for QueryRequest<A> {
    ghost rules = { structure true ⟦<QueryRequestParts as PartList<A>>⟧.rules ⟦<QueryRequest<A> as FromParts<A, QueryRequestParts>>⟧.parts refl ⟦<QueryRequest<A> as PartialEq>⟧.eq (λ x y e. e) };

    fn read<'b>(scope: &Scope<'b, A>, tag: u32, cursor: &mut Cursor<'b, A>) -> Step<Self, A> {
        read_structure::<QueryRequestParts, Self, A>(scope, tag, true, cursor)
    }

    fn tell_parts<W: Walk<A>>(&self, state: &mut W::State) -> Result<(), AllocError> {
        W::one::<Several<QueryFunction, 0x420074>>(state, &self.functions)
    }
}

/// Which versions a client has (KMIP 1.1, section 4.26).
#[derive(Drop)]
#[derive_where(PartialEq)]
pub struct DiscoverVersionsRequest<A: Allocator = Global> {
    /// The versions, the best first; all are asked for, if there are none.
    pub versions: Vec<ProtocolVersion, A>,
}

type DiscoverVersionsRequestParts = Alone<Any<Of<ProtocolVersion, 0x420069>, 0x420069>>;

impl<A: Allocator + Copy> FromParts<A, DiscoverVersionsRequestParts>
    for DiscoverVersionsRequest<A> {
    ghost parts = { λ x. x.versions };

    fn from_parts(versions: Holds<DiscoverVersionsRequestParts, A>) -> Self {
        DiscoverVersionsRequest { versions }
    }
}

impl<A: Allocator + Copy> Structure<A> for DiscoverVersionsRequest<A> {
    ghost rules = { structure true ⟦<DiscoverVersionsRequestParts as PartList<A>>⟧.rules ⟦<DiscoverVersionsRequest<A> as FromParts<A, DiscoverVersionsRequestParts>>⟧.parts refl ⟦<DiscoverVersionsRequest<A> as PartialEq>⟧.eq (λ x y e. e) };

    fn read<'b>(scope: &Scope<'b, A>, tag: u32, cursor: &mut Cursor<'b, A>) -> Step<Self, A> {
        read_structure::<DiscoverVersionsRequestParts, Self, A>(scope, tag, true, cursor)
    }

    fn tell_parts<W: Walk<A>>(&self, state: &mut W::State) -> Result<(), AllocError> {
        W::one::<Any<Of<ProtocolVersion, 0x420069>, 0x420069>>(state, &self.versions)
    }
}

/// An operation that goes on is asked after, or is to be given up (sections 4.25 and 4.26).
#[derive(Drop)]
#[derive_where(PartialEq)]
pub struct AsynchronousRequest<A: Allocator = Global> {
    /// What names it.
    pub asynchronous_correlation_value: Vec<u8, A>,
    /// What stands behind these, whatever it is.
    pub other_items: Kept<A>,
}

impl<A: Allocator + Copy> Decided for AsynchronousRequest<A> {
    ghost IsDecided = { λ x. IsApart ⟦<AsynchronousRequestParts<A> as PartList<A>>⟧.rules ⟦<AsynchronousRequest<A> as FromParts<A, AsynchronousRequestParts<A>>>⟧.parts x };

    fn is_decided(&self) -> bool {
        is_apart::<AsynchronousRequestParts<A>, A>(&self.other_items)
    }
}

type AsynchronousRequestParts<A> = Before<Leaf<Vec<u8, A>, 0x420006>, Rest>;

impl<A: Allocator + Copy> FromParts<A, AsynchronousRequestParts<A>> for AsynchronousRequest<A> {
    ghost parts = { λ x. (x.asynchronous_correlation_value, x.other_items) };

    fn from_parts(
        (asynchronous_correlation_value, other_items): Holds<AsynchronousRequestParts<A>, A>,
    ) -> Self {
        AsynchronousRequest {
            asynchronous_correlation_value,
            other_items,
        }
    }
}

impl<A: Allocator + Copy> Structure<A> for AsynchronousRequest<A> {
    ghost rules = { keeping_structure ⟦<AsynchronousRequestParts<A> as PartList<A>>⟧.rules ⟦<AsynchronousRequest<A> as FromParts<A, AsynchronousRequestParts<A>>>⟧.parts refl ⟦<AsynchronousRequest<A> as PartialEq>⟧.eq (λ x y e. e) };

    fn read<'b>(scope: &Scope<'b, A>, tag: u32, cursor: &mut Cursor<'b, A>) -> Step<Self, A> {
        read_structure::<AsynchronousRequestParts<A>, Self, A>(scope, tag, true, cursor)
    }

    fn tell_parts<W: Walk<A>>(&self, state: &mut W::State) -> Result<(), AllocError> {
        W::one::<Leaf<Vec<u8, A>, 0x420006>>(state, &self.asynchronous_correlation_value)?;
        W::kept(state, &self.other_items)?;
        W::check(state, self);
        Ok(())
    }
}

/// Data is to be encrypted, decrypted, signed or hashed, or a signature or a MAC of it to be checked (KMIP 1.2, sections 4.29 to 4.37). Each operation has some of these.
#[derive(Drop)]
#[derive_where(PartialEq)]
pub struct CryptographicRequest<A: Allocator = Global> {
    /// The key: the last one, if it is absent.
    pub unique_identifier: Option<String<A>>,
    /// How; as the key's attributes say, if it is absent.
    pub cryptographic_parameters: Option<Boxed<CryptographicParameters, A>>,
    /// The data.
    pub data: Option<Vec<u8, A>>,
    /// A hash of it in its place (KMIP 1.4).
    pub digested_data: Option<Vec<u8, A>>,
    /// The signature that is checked.
    pub signature_data: Option<Vec<u8, A>>,
    /// The MAC that is checked.
    pub mac_data: Option<Vec<u8, A>>,
    /// What encryption begins with.
    pub iv_counter_nonce: Option<Vec<u8, A>>,
    /// What names the parts before this (KMIP 1.3).
    pub correlation_value: Option<Vec<u8, A>>,
    /// Whether this is the first part (KMIP 1.3).
    pub init_indicator: Option<bool>,
    /// Whether it is the last (KMIP 1.3).
    pub final_indicator: Option<bool>,
    /// What is authenticated and not encrypted (KMIP 1.4).
    pub authenticated_encryption_additional_data: Option<Vec<u8, A>>,
    /// What authenticates what is decrypted (KMIP 1.4).
    pub authenticated_encryption_tag: Option<Vec<u8, A>>,
    /// What stands behind these, whatever it is.
    pub other_items: Kept<A>,
}

impl<A: Allocator + Copy> Decided for CryptographicRequest<A> {
    ghost IsDecided = { λ x. IsApart ⟦<CryptographicRequestParts<A> as PartList<A>>⟧.rules ⟦<CryptographicRequest<A> as FromParts<A, CryptographicRequestParts<A>>>⟧.parts x };

    fn is_decided(&self) -> bool {
        is_apart::<CryptographicRequestParts<A>, A>(&self.other_items)
    }
}

type CryptographicRequestFirst<A> = (
    MaybeLeaf<String<A>, 0x420094>,
    Maybe<InBox<Of<CryptographicParameters, 0x42002B>>, 0x42002B>,
    MaybeLeaf<Vec<u8, A>, 0x4200C2>,
    MaybeLeaf<Vec<u8, A>, 0x420107>,
);

type CryptographicRequestSecond<A> = (
    MaybeLeaf<Vec<u8, A>, 0x4200C3>,
    MaybeLeaf<Vec<u8, A>, 0x4200C6>,
    MaybeLeaf<Vec<u8, A>, 0x42003D>,
    MaybeLeaf<Vec<u8, A>, 0x4200D6>,
);

type CryptographicRequestThird<A> = (
    MaybeLeaf<bool, 0x4200D7>,
    MaybeLeaf<bool, 0x4200D8>,
    MaybeLeaf<Vec<u8, A>, 0x4200FE>,
    MaybeLeaf<Vec<u8, A>, 0x4200FF>,
);

type CryptographicRequestParts<A> = Four<
    CryptographicRequestFirst<A>,
    Four<CryptographicRequestSecond<A>, Four<CryptographicRequestThird<A>, Rest>>,
>;

impl<A: Allocator + Copy> FromParts<A, CryptographicRequestParts<A>> for CryptographicRequest<A> {
    ghost parts = { λ x. (x.unique_identifier, x.cryptographic_parameters, x.data, x.digested_data, (x.signature_data, x.mac_data, x.iv_counter_nonce, x.correlation_value, (x.init_indicator, x.final_indicator, x.authenticated_encryption_additional_data, x.authenticated_encryption_tag, x.other_items))) };

    fn from_parts(
        (
            unique_identifier,
            cryptographic_parameters,
            data,
            digested_data,
            (
                signature_data,
                mac_data,
                iv_counter_nonce,
                correlation_value,
                (
                    init_indicator,
                    final_indicator,
                    authenticated_encryption_additional_data,
                    authenticated_encryption_tag,
                    other_items,
                ),
            ),
        ): Holds<CryptographicRequestParts<A>, A>,
    ) -> Self {
        CryptographicRequest {
            unique_identifier,
            cryptographic_parameters,
            data,
            digested_data,
            signature_data,
            mac_data,
            iv_counter_nonce,
            correlation_value,
            init_indicator,
            final_indicator,
            authenticated_encryption_additional_data,
            authenticated_encryption_tag,
            other_items,
        }
    }
}

impl<A: Allocator + Copy> Structure<A> for CryptographicRequest<A> {
    ghost rules = { keeping_structure ⟦<CryptographicRequestParts<A> as PartList<A>>⟧.rules ⟦<CryptographicRequest<A> as FromParts<A, CryptographicRequestParts<A>>>⟧.parts refl ⟦<CryptographicRequest<A> as PartialEq>⟧.eq (λ x y e. e) };

    fn read<'b>(scope: &Scope<'b, A>, tag: u32, cursor: &mut Cursor<'b, A>) -> Step<Self, A> {
        read_structure::<CryptographicRequestParts<A>, Self, A>(scope, tag, true, cursor)
    }

    fn tell_parts<W: Walk<A>>(&self, state: &mut W::State) -> Result<(), AllocError> {
        W::four::<
            MaybeLeaf<String<A>, 0x420094>,
            Maybe<InBox<Of<CryptographicParameters, 0x42002B>>, 0x42002B>,
            MaybeLeaf<Vec<u8, A>, 0x4200C2>,
            MaybeLeaf<Vec<u8, A>, 0x420107>,
        >(
            state,
            &self.unique_identifier,
            &self.cryptographic_parameters,
            &self.data,
            &self.digested_data,
        )?;
        W::four::<
            MaybeLeaf<Vec<u8, A>, 0x4200C3>,
            MaybeLeaf<Vec<u8, A>, 0x4200C6>,
            MaybeLeaf<Vec<u8, A>, 0x42003D>,
            MaybeLeaf<Vec<u8, A>, 0x4200D6>,
        >(
            state,
            &self.signature_data,
            &self.mac_data,
            &self.iv_counter_nonce,
            &self.correlation_value,
        )?;
        W::four::<
            MaybeLeaf<bool, 0x4200D7>,
            MaybeLeaf<bool, 0x4200D8>,
            MaybeLeaf<Vec<u8, A>, 0x4200FE>,
            MaybeLeaf<Vec<u8, A>, 0x4200FF>,
        >(
            state,
            &self.init_indicator,
            &self.final_indicator,
            &self.authenticated_encryption_additional_data,
            &self.authenticated_encryption_tag,
        )?;
        W::kept(state, &self.other_items)?;
        W::check(state, self);
        Ok(())
    }
}

/// An object is to be kept as another server had it (KMIP 1.4).
#[derive(Drop)]
#[derive_where(PartialEq)]
pub struct ImportRequest<A: Allocator = Global> {
    /// Its identifier.
    pub unique_identifier: String<A>,
    /// What it is.
    pub object_type: ObjectType,
    /// Whether an object of this identifier is to be replaced.
    pub replace_existing: Option<bool>,
    /// Whether a wrapped key is to be kept so.
    pub key_wrap_type: Option<u32>,
    /// What is known of it, in KMIP 1.4.
    pub attributes: Vec<Attribute<A>, A>,
    /// What is known of it, by tags (KMIP 2.0).
    pub attributes_by_tag: Option<Kept<A>>,
    /// A certificate.
    pub certificate: Option<Certificate<A>>,
    /// A symmetric key.
    pub symmetric_key: Option<Boxed<SymmetricKey<A>, A>>,
    /// A public key.
    pub public_key: Option<Boxed<PublicKey<A>, A>>,
    /// A private key.
    pub private_key: Option<Boxed<PrivateKey<A>, A>>,
    /// One of the parts that a key was split into.
    pub split_key: Option<Boxed<SplitKey<A>, A>>,
    /// Attributes that other objects are made with.
    pub template: Option<Template<A>>,
    /// A secret that is no key.
    pub secret_data: Option<Boxed<SecretData<A>, A>>,
    /// Bytes that the server doesn't interpret.
    pub opaque_object: Option<OpaqueObject<A>>,
}

impl<A: Allocator> ImportRequest<A> {
    /// The object. None if none is there, or more than one.
    pub fn object(&self) -> Option<ManagedObject<'_, A>>
        ensures { IsImportRequestObject self.now result }
    {
        match (
            &self.certificate,
            &self.symmetric_key,
            &self.public_key,
            &self.private_key,
            &self.split_key,
            &self.template,
            &self.secret_data,
            &self.opaque_object,
        ) {
            (Some(inner), None, None, None, None, None, None, None) => Some(
                ManagedObject::Certificate(inner),
            ),
            (None, Some(inner), None, None, None, None, None, None) => Some(
                ManagedObject::SymmetricKey(inner.inner.as_ref()),
            ),
            (None, None, Some(inner), None, None, None, None, None) => Some(
                ManagedObject::PublicKey(inner.inner.as_ref()),
            ),
            (None, None, None, Some(inner), None, None, None, None) => Some(
                ManagedObject::PrivateKey(inner.inner.as_ref()),
            ),
            (None, None, None, None, Some(inner), None, None, None) => Some(ManagedObject::SplitKey(
                inner.inner.as_ref(),
            )),
            (None, None, None, None, None, Some(inner), None, None) => Some(ManagedObject::Template(
                inner,
            )),
            (None, None, None, None, None, None, Some(inner), None) => Some(
                ManagedObject::SecretData(inner.inner.as_ref()),
            ),
            (None, None, None, None, None, None, None, Some(inner)) => Some(
                ManagedObject::OpaqueObject(inner),
            ),
            _ => None,
        }
    }
}

impl<A: Allocator> Decided for ImportRequest<A> {
    ghost IsDecided = { λ x. (there x.certificate + (there x.symmetric_key + (there x.public_key + (there x.private_key + (there x.split_key + (there x.template + (there x.secret_data + there x.opaque_object)))))) ≡ 1) };

    fn is_decided(&self) -> bool {
        self.object().is_some()
    }
}

type ImportRequestFirst<A> = (
    Leaf<String<A>, 0x420094>,
    One<ObjectType>,
    MaybeLeaf<bool, 0x420124>,
    MaybeLeaf<u32, 0x4200F8>,
);

type ImportRequestSecond<A> = (
    Any<Of<Attribute<A>, 0x420008>, 0x420008>,
    Maybe<Of<Kept<A>, 0x420125>, 0x420125>,
    Maybe<Of<Certificate<A>, 0x420013>, 0x420013>,
    Maybe<InBox<Of<SymmetricKey<A>, 0x42008F>>, 0x42008F>,
);

type ImportRequestThird<A> = (
    Maybe<InBox<Of<PublicKey<A>, 0x42006D>>, 0x42006D>,
    Maybe<InBox<Of<PrivateKey<A>, 0x420064>>, 0x420064>,
    Maybe<InBox<Of<SplitKey<A>, 0x420089>>, 0x420089>,
    Maybe<Of<Template<A>, 0x420090>, 0x420090>,
);

type ImportRequestFourth<A> = (
    Maybe<InBox<Of<SecretData<A>, 0x420085>>, 0x420085>,
    Maybe<Of<OpaqueObject<A>, 0x42005B>, 0x42005B>,
);

type ImportRequestParts<A> = Four<
    ImportRequestFirst<A>,
    Four<ImportRequestSecond<A>, Four<ImportRequestThird<A>, ImportRequestFourth<A>>>,
>;

impl<A: Allocator + Copy> FromParts<A, ImportRequestParts<A>> for ImportRequest<A> {
    ghost parts = { λ x. (x.unique_identifier, x.object_type, x.replace_existing, x.key_wrap_type, (x.attributes, x.attributes_by_tag, x.certificate, x.symmetric_key, (x.public_key, x.private_key, x.split_key, x.template, (x.secret_data, x.opaque_object)))) };

    fn from_parts(
        (
            unique_identifier,
            object_type,
            replace_existing,
            key_wrap_type,
            (
                attributes,
                attributes_by_tag,
                certificate,
                symmetric_key,
                (public_key, private_key, split_key, template, (secret_data, opaque_object)),
            ),
        ): Holds<ImportRequestParts<A>, A>,
    ) -> Self {
        ImportRequest {
            unique_identifier,
            object_type,
            replace_existing,
            key_wrap_type,
            attributes,
            attributes_by_tag,
            certificate,
            symmetric_key,
            public_key,
            private_key,
            split_key,
            template,
            secret_data,
            opaque_object,
        }
    }
}

impl<A: Allocator + Copy> Structure<A> for ImportRequest<A> {
    ghost rules = { structure_where true ⟦<ImportRequestParts<A> as PartList<A>>⟧.rules ⟦<ImportRequest<A> as FromParts<A, ImportRequestParts<A>>>⟧.parts refl
        (λ x. (there x.certificate + (there x.symmetric_key + (there x.public_key + (there x.private_key + (there x.split_key + (there x.template + (there x.secret_data + there x.opaque_object)))))) ≡ 1)) (λ x d. (tt, (tt, (tt, (tt, (tt, (tt, (tt, (tt, (tt, (tt, (tt, (tt, (tt, (tt))))))))))))))) ⟦<ImportRequest<A> as PartialEq>⟧.eq (λ x y e. e) };

    fn read<'b>(scope: &Scope<'b, A>, tag: u32, cursor: &mut Cursor<'b, A>) -> Step<Self, A> {
        read_structure::<ImportRequestParts<A>, Self, A>(scope, tag, true, cursor)
    }

    fn tell_parts<W: Walk<A>>(&self, state: &mut W::State) -> Result<(), AllocError> {
        W::four::<
            Leaf<String<A>, 0x420094>,
            One<ObjectType>,
            MaybeLeaf<bool, 0x420124>,
            MaybeLeaf<u32, 0x4200F8>,
        >(
            state,
            &self.unique_identifier,
            &self.object_type,
            &self.replace_existing,
            &self.key_wrap_type,
        )?;
        W::four::<
            Any<Of<Attribute<A>, 0x420008>, 0x420008>,
            Maybe<Of<Kept<A>, 0x420125>, 0x420125>,
            Maybe<Of<Certificate<A>, 0x420013>, 0x420013>,
            Maybe<InBox<Of<SymmetricKey<A>, 0x42008F>>, 0x42008F>,
        >(
            state,
            &self.attributes,
            &self.attributes_by_tag,
            &self.certificate,
            &self.symmetric_key,
        )?;
        W::four::<
            Maybe<InBox<Of<PublicKey<A>, 0x42006D>>, 0x42006D>,
            Maybe<InBox<Of<PrivateKey<A>, 0x420064>>, 0x420064>,
            Maybe<InBox<Of<SplitKey<A>, 0x420089>>, 0x420089>,
            Maybe<Of<Template<A>, 0x420090>, 0x420090>,
        >(
            state,
            &self.public_key,
            &self.private_key,
            &self.split_key,
            &self.template,
        )?;
        W::two::<
            Maybe<InBox<Of<SecretData<A>, 0x420085>>, 0x420085>,
            Maybe<Of<OpaqueObject<A>, 0x42005B>, 0x42005B>,
        >(state, &self.secret_data, &self.opaque_object)?;
        W::check(state, self);
        Ok(())
    }
}

/// An object is to be got as another server is to have it (KMIP 1.4).
#[derive(Drop)]
#[derive_where(PartialEq)]
pub struct ExportRequest<A: Allocator = Global> {
    /// Its identifier; that of the last object, if it is absent.
    pub unique_identifier: Option<String<A>>,
    /// How a key's bytes are to be written.
    pub key_format_type: Option<KeyFormatType>,
    /// Whether a key that is kept wrapped is to come so.
    pub key_wrap_type: Option<u32>,
    /// How the point of an elliptic curve is to be written.
    pub key_compression_type: Option<KeyCompressionType>,
    /// How a key is to be wrapped.
    pub key_wrapping_specification: Option<Boxed<KeyWrappingSpecification<A>, A>>,
    /// What stands behind these, whatever it is.
    pub other_items: Kept<A>,
}

impl<A: Allocator + Copy> Decided for ExportRequest<A> {
    ghost IsDecided = { λ x. IsApart ⟦<ExportRequestParts<A> as PartList<A>>⟧.rules ⟦<ExportRequest<A> as FromParts<A, ExportRequestParts<A>>>⟧.parts x };

    fn is_decided(&self) -> bool {
        is_apart::<ExportRequestParts<A>, A>(&self.other_items)
    }
}

type ExportRequestFirst<A> = (
    MaybeLeaf<String<A>, 0x420094>,
    Maybe<KeyFormatType, 0x420042>,
    MaybeLeaf<u32, 0x4200F8>,
    Maybe<KeyCompressionType, 0x420041>,
);

type ExportRequestSecond<A> = Before<
    Maybe<InBox<Of<KeyWrappingSpecification<A>, 0x420047>>, 0x420047>,
    Rest,
>;

type ExportRequestParts<A> = Four<ExportRequestFirst<A>, ExportRequestSecond<A>>;

impl<A: Allocator + Copy> FromParts<A, ExportRequestParts<A>> for ExportRequest<A> {
    ghost parts = { λ x. (x.unique_identifier, x.key_format_type, x.key_wrap_type, x.key_compression_type, (x.key_wrapping_specification, x.other_items)) };

    fn from_parts(
        (
            unique_identifier,
            key_format_type,
            key_wrap_type,
            key_compression_type,
            (key_wrapping_specification, other_items),
        ): Holds<ExportRequestParts<A>, A>,
    ) -> Self {
        ExportRequest {
            unique_identifier,
            key_format_type,
            key_wrap_type,
            key_compression_type,
            key_wrapping_specification,
            other_items,
        }
    }
}

impl<A: Allocator + Copy> Structure<A> for ExportRequest<A> {
    ghost rules = { keeping_structure ⟦<ExportRequestParts<A> as PartList<A>>⟧.rules ⟦<ExportRequest<A> as FromParts<A, ExportRequestParts<A>>>⟧.parts refl ⟦<ExportRequest<A> as PartialEq>⟧.eq (λ x y e. e) };

    fn read<'b>(scope: &Scope<'b, A>, tag: u32, cursor: &mut Cursor<'b, A>) -> Step<Self, A> {
        read_structure::<ExportRequestParts<A>, Self, A>(scope, tag, true, cursor)
    }

    fn tell_parts<W: Walk<A>>(&self, state: &mut W::State) -> Result<(), AllocError> {
        W::four::<
            MaybeLeaf<String<A>, 0x420094>,
            Maybe<KeyFormatType, 0x420042>,
            MaybeLeaf<u32, 0x4200F8>,
            Maybe<KeyCompressionType, 0x420041>,
        >(
            state,
            &self.unique_identifier,
            &self.key_format_type,
            &self.key_wrap_type,
            &self.key_compression_type,
        )?;
        W::one::<Maybe<InBox<Of<KeyWrappingSpecification<A>, 0x420047>>, 0x420047>>(
            state,
            &self.key_wrapping_specification,
        )?;
        W::kept(state, &self.other_items)?;
        W::check(state, self);
        Ok(())
    }
}

/// A client asks for a ticket, by which its later requests go (KMIP 2.0).
#[derive(Drop)]
#[derive_where(PartialEq)]
pub struct LoginRequest<A: Allocator = Global> {
    /// For how long, in seconds.
    pub lease_time: Option<Interval>,
    /// What stands behind these, whatever it is.
    pub other_items: Kept<A>,
}

impl<A: Allocator + Copy> Decided for LoginRequest<A> {
    ghost IsDecided = { λ x. IsApart ⟦<LoginRequestParts as PartList<A>>⟧.rules ⟦<LoginRequest<A> as FromParts<A, LoginRequestParts>>⟧.parts x };

    fn is_decided(&self) -> bool {
        is_apart::<LoginRequestParts, A>(&self.other_items)
    }
}

type LoginRequestParts = Before<MaybeLeaf<Interval, 0x420049>, Rest>;

impl<A: Allocator + Copy> FromParts<A, LoginRequestParts> for LoginRequest<A> {
    ghost parts = { λ x. (x.lease_time, x.other_items) };

    fn from_parts((lease_time, other_items): Holds<LoginRequestParts, A>) -> Self {
        LoginRequest {
            lease_time,
            other_items,
        }
    }
}

impl<A: Allocator + Copy> Structure<A> for LoginRequest<A> {
    ghost rules = { keeping_structure ⟦<LoginRequestParts as PartList<A>>⟧.rules ⟦<LoginRequest<A> as FromParts<A, LoginRequestParts>>⟧.parts refl ⟦<LoginRequest<A> as PartialEq>⟧.eq (λ x y e. e) };

    fn read<'b>(scope: &Scope<'b, A>, tag: u32, cursor: &mut Cursor<'b, A>) -> Step<Self, A> {
        read_structure::<LoginRequestParts, Self, A>(scope, tag, true, cursor)
    }

    fn tell_parts<W: Walk<A>>(&self, state: &mut W::State) -> Result<(), AllocError> {
        W::one::<MaybeLeaf<Interval, 0x420049>>(state, &self.lease_time)?;
        W::kept(state, &self.other_items)?;
        W::check(state, self);
        Ok(())
    }
}

/// A ticket is to be no longer good (KMIP 2.0).
#[derive(Drop)]
#[derive_where(PartialEq)]
pub struct TicketRequest<A: Allocator = Global> {
    /// The ticket.
    pub ticket: Ticket<A>,
    /// What stands behind these, whatever it is.
    pub other_items: Kept<A>,
}

impl<A: Allocator + Copy> Decided for TicketRequest<A> {
    ghost IsDecided = { λ x. IsApart ⟦<TicketRequestParts<A> as PartList<A>>⟧.rules ⟦<TicketRequest<A> as FromParts<A, TicketRequestParts<A>>>⟧.parts x };

    fn is_decided(&self) -> bool {
        is_apart::<TicketRequestParts<A>, A>(&self.other_items)
    }
}

type TicketRequestParts<A> = Before<One<Of<Ticket<A>, 0x420149>>, Rest>;

impl<A: Allocator + Copy> FromParts<A, TicketRequestParts<A>> for TicketRequest<A> {
    ghost parts = { λ x. (x.ticket, x.other_items) };

    fn from_parts((ticket, other_items): Holds<TicketRequestParts<A>, A>) -> Self {
        TicketRequest {
            ticket,
            other_items,
        }
    }
}

impl<A: Allocator + Copy> Structure<A> for TicketRequest<A> {
    ghost rules = { keeping_structure ⟦<TicketRequestParts<A> as PartList<A>>⟧.rules ⟦<TicketRequest<A> as FromParts<A, TicketRequestParts<A>>>⟧.parts refl ⟦<TicketRequest<A> as PartialEq>⟧.eq (λ x y e. e) };

    fn read<'b>(scope: &Scope<'b, A>, tag: u32, cursor: &mut Cursor<'b, A>) -> Step<Self, A> {
        read_structure::<TicketRequestParts<A>, Self, A>(scope, tag, true, cursor)
    }

    fn tell_parts<W: Walk<A>>(&self, state: &mut W::State) -> Result<(), AllocError> {
        W::one::<One<Of<Ticket<A>, 0x420149>>>(state, &self.ticket)?;
        W::kept(state, &self.other_items)?;
        W::check(state, self);
        Ok(())
    }
}

/// What an operation needs.
#[derive(Drop)]
#[derive_where(PartialEq)]
pub enum RequestPayload<A: Allocator = Global> {
    /// A symmetric key is to be made.
    Create(CreateRequest<A>),
    /// A public and a private key are to be made.
    CreateKeyPair(Boxed<CreateKeyPairRequest<A>, A>),
    /// An object is to be kept.
    Register(Boxed<RegisterRequest<A>, A>),
    /// A key is to be made in place of another.
    ReKey(Boxed<ReKeyRequest<A>, A>),
    /// A key is to be made of others.
    DeriveKey(Boxed<DeriveKeyRequest<A>, A>),
    /// Objects are sought.
    Locate(LocateRequest<A>),
    /// Whether an object may be used so.
    Check(CheckRequest<A>),
    /// An object is asked for.
    Get(GetRequest<A>),
    /// What is known of an object is asked for.
    GetAttributes(GetAttributesRequest<A>),
    /// The names of what is known are asked for.
    GetAttributeList(ObjectRequest<A>),
    /// An attribute is to be added.
    AddAttribute(Boxed<AttributeRequest<A>, A>),
    /// An attribute is to be changed.
    ModifyAttribute(Boxed<AttributeRequest<A>, A>),
    /// An attribute is to be deleted.
    DeleteAttribute(Boxed<DeleteAttributeRequest<A>, A>),
    /// An object is to be used for a time.
    ObtainLease(ObjectRequest<A>),
    /// It is to be used so much.
    GetUsageAllocation(UsageAllocationRequest<A>),
    /// An object is to be in use.
    Activate(ObjectRequest<A>),
    /// An object is no longer to be used.
    Revoke(RevokeRequest<A>),
    /// An object is to be destroyed.
    Destroy(ObjectRequest<A>),
    /// An object is to be put away.
    Archive(ObjectRequest<A>),
    /// It is to be brought back.
    Recover(ObjectRequest<A>),
    /// What the server can do.
    Query(QueryRequest<A>),
    /// An operation is to be given up.
    Cancel(AsynchronousRequest<A>),
    /// What became of one.
    Poll(AsynchronousRequest<A>),
    /// A public and a private key are to be made in place of others.
    ReKeyKeyPair(Boxed<ReKeyKeyPairRequest<A>, A>),
    /// Which versions the server has.
    DiscoverVersions(DiscoverVersionsRequest<A>),
    /// Data is to be encrypted.
    Encrypt(Boxed<CryptographicRequest<A>, A>),
    /// Data is to be decrypted.
    Decrypt(Boxed<CryptographicRequest<A>, A>),
    /// Data is to be signed.
    Sign(Boxed<CryptographicRequest<A>, A>),
    /// Whether a signature is valid.
    SignatureVerify(Boxed<CryptographicRequest<A>, A>),
    /// A MAC is to be made of data.
    Mac(Boxed<CryptographicRequest<A>, A>),
    /// Whether a MAC is valid.
    MacVerify(Boxed<CryptographicRequest<A>, A>),
    /// A hash is to be made of data.
    Hash(Boxed<CryptographicRequest<A>, A>),
    /// An object is to be kept as another server had it.
    Import(Boxed<ImportRequest<A>, A>),
    /// An object is to be got as another server is to have it.
    Export(Boxed<ExportRequest<A>, A>),
    /// A ticket is asked for.
    Login(LoginRequest<A>),
    /// A ticket is to be no longer good.
    Logout(TicketRequest<A>),
    /// What any other operation needs.
    Other(Kept<A>),
}

// The texts that choose a variant, whatever the type of its item is.
const REQUEST_PAYLOAD_NAMES: [&str; 36] = [
    "0x00000001",
    "0x00000002",
    "0x00000003",
    "0x00000004",
    "0x00000005",
    "0x00000008",
    "0x00000009",
    "0x0000000A",
    "0x0000000B",
    "0x0000000C",
    "0x0000000D",
    "0x0000000E",
    "0x0000000F",
    "0x00000010",
    "0x00000011",
    "0x00000012",
    "0x00000013",
    "0x00000014",
    "0x00000015",
    "0x00000016",
    "0x00000018",
    "0x00000019",
    "0x0000001A",
    "0x0000001D",
    "0x0000001E",
    "0x0000001F",
    "0x00000020",
    "0x00000021",
    "0x00000022",
    "0x00000023",
    "0x00000024",
    "0x00000027",
    "0x0000002A",
    "0x0000002B",
    "0x0000002D",
    "0x0000002E",
];

// Whether a text is none of these.
fn is_no_request_payload(text: &str) -> bool
    ensures { IsTrue result ↔ IsNoneOf text.now request_payload_names }
{
    is_none_of(text, &REQUEST_PAYLOAD_NAMES)
}

impl<A: Allocator> RequestPayload<A> {
    /// Whether this text, if it is that of 0x42005C, chooses it.
    pub fn is_chosen_by(&self, text: &str) -> bool
        ensures { IsTrue result ↔ ChoosesRequestPayload text.now self.now }
    {
        match self {
            RequestPayload::Create(_) => text == "0x00000001",
            RequestPayload::CreateKeyPair(_) => text == "0x00000002",
            RequestPayload::Register(_) => text == "0x00000003",
            RequestPayload::ReKey(_) => text == "0x00000004",
            RequestPayload::DeriveKey(_) => text == "0x00000005",
            RequestPayload::Locate(_) => text == "0x00000008",
            RequestPayload::Check(_) => text == "0x00000009",
            RequestPayload::Get(_) => text == "0x0000000A",
            RequestPayload::GetAttributes(_) => text == "0x0000000B",
            RequestPayload::GetAttributeList(_) => text == "0x0000000C",
            RequestPayload::AddAttribute(_) => text == "0x0000000D",
            RequestPayload::ModifyAttribute(_) => text == "0x0000000E",
            RequestPayload::DeleteAttribute(_) => text == "0x0000000F",
            RequestPayload::ObtainLease(_) => text == "0x00000010",
            RequestPayload::GetUsageAllocation(_) => text == "0x00000011",
            RequestPayload::Activate(_) => text == "0x00000012",
            RequestPayload::Revoke(_) => text == "0x00000013",
            RequestPayload::Destroy(_) => text == "0x00000014",
            RequestPayload::Archive(_) => text == "0x00000015",
            RequestPayload::Recover(_) => text == "0x00000016",
            RequestPayload::Query(_) => text == "0x00000018",
            RequestPayload::Cancel(_) => text == "0x00000019",
            RequestPayload::Poll(_) => text == "0x0000001A",
            RequestPayload::ReKeyKeyPair(_) => text == "0x0000001D",
            RequestPayload::DiscoverVersions(_) => text == "0x0000001E",
            RequestPayload::Encrypt(_) => text == "0x0000001F",
            RequestPayload::Decrypt(_) => text == "0x00000020",
            RequestPayload::Sign(_) => text == "0x00000021",
            RequestPayload::SignatureVerify(_) => text == "0x00000022",
            RequestPayload::Mac(_) => text == "0x00000023",
            RequestPayload::MacVerify(_) => text == "0x00000024",
            RequestPayload::Hash(_) => text == "0x00000027",
            RequestPayload::Import(_) => text == "0x0000002A",
            RequestPayload::Export(_) => text == "0x0000002B",
            RequestPayload::Login(_) => text == "0x0000002D",
            RequestPayload::Logout(_) => text == "0x0000002E",
            RequestPayload::Other(_) => is_no_request_payload(text),
        }
    }
}

// The rules of the variants, in their order.
const REQUEST_PAYLOAD_RULES: [RuleParts; 37] = [
    RuleParts::Texts {
        tag: 0x42005C,
        texts: &["0x00000001"],
    },
    RuleParts::Texts {
        tag: 0x42005C,
        texts: &["0x00000002"],
    },
    RuleParts::Texts {
        tag: 0x42005C,
        texts: &["0x00000003"],
    },
    RuleParts::Texts {
        tag: 0x42005C,
        texts: &["0x00000004"],
    },
    RuleParts::Texts {
        tag: 0x42005C,
        texts: &["0x00000005"],
    },
    RuleParts::Texts {
        tag: 0x42005C,
        texts: &["0x00000008"],
    },
    RuleParts::Texts {
        tag: 0x42005C,
        texts: &["0x00000009"],
    },
    RuleParts::Texts {
        tag: 0x42005C,
        texts: &["0x0000000A"],
    },
    RuleParts::Texts {
        tag: 0x42005C,
        texts: &["0x0000000B"],
    },
    RuleParts::Texts {
        tag: 0x42005C,
        texts: &["0x0000000C"],
    },
    RuleParts::Texts {
        tag: 0x42005C,
        texts: &["0x0000000D"],
    },
    RuleParts::Texts {
        tag: 0x42005C,
        texts: &["0x0000000E"],
    },
    RuleParts::Texts {
        tag: 0x42005C,
        texts: &["0x0000000F"],
    },
    RuleParts::Texts {
        tag: 0x42005C,
        texts: &["0x00000010"],
    },
    RuleParts::Texts {
        tag: 0x42005C,
        texts: &["0x00000011"],
    },
    RuleParts::Texts {
        tag: 0x42005C,
        texts: &["0x00000012"],
    },
    RuleParts::Texts {
        tag: 0x42005C,
        texts: &["0x00000013"],
    },
    RuleParts::Texts {
        tag: 0x42005C,
        texts: &["0x00000014"],
    },
    RuleParts::Texts {
        tag: 0x42005C,
        texts: &["0x00000015"],
    },
    RuleParts::Texts {
        tag: 0x42005C,
        texts: &["0x00000016"],
    },
    RuleParts::Texts {
        tag: 0x42005C,
        texts: &["0x00000018"],
    },
    RuleParts::Texts {
        tag: 0x42005C,
        texts: &["0x00000019"],
    },
    RuleParts::Texts {
        tag: 0x42005C,
        texts: &["0x0000001A"],
    },
    RuleParts::Texts {
        tag: 0x42005C,
        texts: &["0x0000001D"],
    },
    RuleParts::Texts {
        tag: 0x42005C,
        texts: &["0x0000001E"],
    },
    RuleParts::Texts {
        tag: 0x42005C,
        texts: &["0x0000001F"],
    },
    RuleParts::Texts {
        tag: 0x42005C,
        texts: &["0x00000020"],
    },
    RuleParts::Texts {
        tag: 0x42005C,
        texts: &["0x00000021"],
    },
    RuleParts::Texts {
        tag: 0x42005C,
        texts: &["0x00000022"],
    },
    RuleParts::Texts {
        tag: 0x42005C,
        texts: &["0x00000023"],
    },
    RuleParts::Texts {
        tag: 0x42005C,
        texts: &["0x00000024"],
    },
    RuleParts::Texts {
        tag: 0x42005C,
        texts: &["0x00000027"],
    },
    RuleParts::Texts {
        tag: 0x42005C,
        texts: &["0x0000002A"],
    },
    RuleParts::Texts {
        tag: 0x42005C,
        texts: &["0x0000002B"],
    },
    RuleParts::Texts {
        tag: 0x42005C,
        texts: &["0x0000002D"],
    },
    RuleParts::Texts {
        tag: 0x42005C,
        texts: &["0x0000002E"],
    },
    RuleParts::Type(TtlvType::Structure),
];

impl<A: Allocator + Copy> Choice<A> for RequestPayload<A> {
    ghost chosen = { request_payload_choice ⟦<RequestPayload<A> as PartialEq>⟧.eq record {
      create = held ⟦<Of<CreateRequest<A>, 0x420079> as Element<A>>⟧.rules refl refl (λ x y e. e);
      create_key_pair = held ⟦<InBox<Of<CreateKeyPairRequest<A>, 0x420079>> as Element<A>>⟧.rules refl refl (λ x y e. e);
      register = held ⟦<InBox<Of<RegisterRequest<A>, 0x420079>> as Element<A>>⟧.rules refl refl (λ x y e. e);
      re_key = held ⟦<InBox<Of<ReKeyRequest<A>, 0x420079>> as Element<A>>⟧.rules refl refl (λ x y e. e);
      derive_key = held ⟦<InBox<Of<DeriveKeyRequest<A>, 0x420079>> as Element<A>>⟧.rules refl refl (λ x y e. e);
      locate = held ⟦<Of<LocateRequest<A>, 0x420079> as Element<A>>⟧.rules refl refl (λ x y e. e);
      check = held ⟦<Of<CheckRequest<A>, 0x420079> as Element<A>>⟧.rules refl refl (λ x y e. e);
      get = held ⟦<Of<GetRequest<A>, 0x420079> as Element<A>>⟧.rules refl refl (λ x y e. e);
      get_attributes = held ⟦<Of<GetAttributesRequest<A>, 0x420079> as Element<A>>⟧.rules refl refl (λ x y e. e);
      get_attribute_list = held ⟦<Of<ObjectRequest<A>, 0x420079> as Element<A>>⟧.rules refl refl (λ x y e. e);
      add_attribute = held ⟦<InBox<Of<AttributeRequest<A>, 0x420079>> as Element<A>>⟧.rules refl refl (λ x y e. e);
      modify_attribute = held ⟦<InBox<Of<AttributeRequest<A>, 0x420079>> as Element<A>>⟧.rules refl refl (λ x y e. e);
      delete_attribute = held ⟦<InBox<Of<DeleteAttributeRequest<A>, 0x420079>> as Element<A>>⟧.rules refl refl (λ x y e. e);
      obtain_lease = held ⟦<Of<ObjectRequest<A>, 0x420079> as Element<A>>⟧.rules refl refl (λ x y e. e);
      get_usage_allocation = held ⟦<Of<UsageAllocationRequest<A>, 0x420079> as Element<A>>⟧.rules refl refl (λ x y e. e);
      activate = held ⟦<Of<ObjectRequest<A>, 0x420079> as Element<A>>⟧.rules refl refl (λ x y e. e);
      revoke = held ⟦<Of<RevokeRequest<A>, 0x420079> as Element<A>>⟧.rules refl refl (λ x y e. e);
      destroy = held ⟦<Of<ObjectRequest<A>, 0x420079> as Element<A>>⟧.rules refl refl (λ x y e. e);
      archive = held ⟦<Of<ObjectRequest<A>, 0x420079> as Element<A>>⟧.rules refl refl (λ x y e. e);
      recover = held ⟦<Of<ObjectRequest<A>, 0x420079> as Element<A>>⟧.rules refl refl (λ x y e. e);
      query = held ⟦<Of<QueryRequest<A>, 0x420079> as Element<A>>⟧.rules refl refl (λ x y e. e);
      cancel = held ⟦<Of<AsynchronousRequest<A>, 0x420079> as Element<A>>⟧.rules refl refl (λ x y e. e);
      poll = held ⟦<Of<AsynchronousRequest<A>, 0x420079> as Element<A>>⟧.rules refl refl (λ x y e. e);
      re_key_key_pair = held ⟦<InBox<Of<ReKeyKeyPairRequest<A>, 0x420079>> as Element<A>>⟧.rules refl refl (λ x y e. e);
      discover_versions = held ⟦<Of<DiscoverVersionsRequest<A>, 0x420079> as Element<A>>⟧.rules refl refl (λ x y e. e);
      encrypt = held ⟦<InBox<Of<CryptographicRequest<A>, 0x420079>> as Element<A>>⟧.rules refl refl (λ x y e. e);
      decrypt = held ⟦<InBox<Of<CryptographicRequest<A>, 0x420079>> as Element<A>>⟧.rules refl refl (λ x y e. e);
      sign = held ⟦<InBox<Of<CryptographicRequest<A>, 0x420079>> as Element<A>>⟧.rules refl refl (λ x y e. e);
      signature_verify = held ⟦<InBox<Of<CryptographicRequest<A>, 0x420079>> as Element<A>>⟧.rules refl refl (λ x y e. e);
      mac = held ⟦<InBox<Of<CryptographicRequest<A>, 0x420079>> as Element<A>>⟧.rules refl refl (λ x y e. e);
      mac_verify = held ⟦<InBox<Of<CryptographicRequest<A>, 0x420079>> as Element<A>>⟧.rules refl refl (λ x y e. e);
      hash = held ⟦<InBox<Of<CryptographicRequest<A>, 0x420079>> as Element<A>>⟧.rules refl refl (λ x y e. e);
      import = held ⟦<InBox<Of<ImportRequest<A>, 0x420079>> as Element<A>>⟧.rules refl refl (λ x y e. e);
      export = held ⟦<InBox<Of<ExportRequest<A>, 0x420079>> as Element<A>>⟧.rules refl refl (λ x y e. e);
      login = held ⟦<Of<LoginRequest<A>, 0x420079> as Element<A>>⟧.rules refl refl (λ x y e. e);
      logout = held ⟦<Of<TicketRequest<A>, 0x420079> as Element<A>>⟧.rules refl refl (λ x y e. e);
      other = held ⟦<Of<Kept<A>, 0x420079> as Element<A>>⟧.rules refl refl (λ x y e. e);
    } };

    #[tactic(auto, unfolding(kmip_ttlv_reader::specs::RuleParts::parts_of, kmip_ttlv_reader::specs::RuleParts::equal_sides))]
    fn variant_rules() -> &'static [RuleParts] {
        &REQUEST_PAYLOAD_RULES
    }

    fn read_held<'b>(
        scope: &Scope<'b, A>,
        cursor: &mut Cursor<'b, A>,
        place: usize,
    ) -> Step<Self, A> {
        match place {
            0 => Ok(RequestPayload::Create(<Of<CreateRequest<A>, 0x420079> as Element<A>>::read_one(
                scope, cursor,
            )?)),
            1 => Ok(RequestPayload::CreateKeyPair(<InBox<
                Of<CreateKeyPairRequest<A>, 0x420079>,
            > as Element<A>>::read_one(scope, cursor)?)),
            2 => Ok(RequestPayload::Register(<InBox<Of<RegisterRequest<A>, 0x420079>> as Element<
                A,
            >>::read_one(scope, cursor)?)),
            3 => Ok(RequestPayload::ReKey(<InBox<Of<ReKeyRequest<A>, 0x420079>> as Element<
                A,
            >>::read_one(scope, cursor)?)),
            4 => Ok(RequestPayload::DeriveKey(<InBox<Of<DeriveKeyRequest<A>, 0x420079>> as Element<
                A,
            >>::read_one(scope, cursor)?)),
            5 => Ok(RequestPayload::Locate(<Of<LocateRequest<A>, 0x420079> as Element<A>>::read_one(
                scope, cursor,
            )?)),
            6 => Ok(RequestPayload::Check(<Of<CheckRequest<A>, 0x420079> as Element<A>>::read_one(
                scope, cursor,
            )?)),
            7 => Ok(RequestPayload::Get(<Of<GetRequest<A>, 0x420079> as Element<A>>::read_one(
                scope, cursor,
            )?)),
            8 => Ok(RequestPayload::GetAttributes(<Of<GetAttributesRequest<A>, 0x420079> as Element<
                A,
            >>::read_one(scope, cursor)?)),
            9 => Ok(RequestPayload::GetAttributeList(<Of<ObjectRequest<A>, 0x420079> as Element<
                A,
            >>::read_one(scope, cursor)?)),
            10 => Ok(RequestPayload::AddAttribute(<InBox<
                Of<AttributeRequest<A>, 0x420079>,
            > as Element<A>>::read_one(scope, cursor)?)),
            11 => Ok(RequestPayload::ModifyAttribute(<InBox<
                Of<AttributeRequest<A>, 0x420079>,
            > as Element<A>>::read_one(scope, cursor)?)),
            12 => Ok(RequestPayload::DeleteAttribute(<InBox<
                Of<DeleteAttributeRequest<A>, 0x420079>,
            > as Element<A>>::read_one(scope, cursor)?)),
            13 => Ok(RequestPayload::ObtainLease(<Of<ObjectRequest<A>, 0x420079> as Element<
                A,
            >>::read_one(scope, cursor)?)),
            14 => Ok(RequestPayload::GetUsageAllocation(<Of<
                UsageAllocationRequest<A>,
                0x420079,
            > as Element<A>>::read_one(scope, cursor)?)),
            15 => Ok(RequestPayload::Activate(<Of<ObjectRequest<A>, 0x420079> as Element<
                A,
            >>::read_one(scope, cursor)?)),
            16 => Ok(RequestPayload::Revoke(<Of<RevokeRequest<A>, 0x420079> as Element<
                A,
            >>::read_one(scope, cursor)?)),
            17 => Ok(RequestPayload::Destroy(<Of<ObjectRequest<A>, 0x420079> as Element<
                A,
            >>::read_one(scope, cursor)?)),
            18 => Ok(RequestPayload::Archive(<Of<ObjectRequest<A>, 0x420079> as Element<
                A,
            >>::read_one(scope, cursor)?)),
            19 => Ok(RequestPayload::Recover(<Of<ObjectRequest<A>, 0x420079> as Element<
                A,
            >>::read_one(scope, cursor)?)),
            20 => Ok(RequestPayload::Query(<Of<QueryRequest<A>, 0x420079> as Element<A>>::read_one(
                scope, cursor,
            )?)),
            21 => Ok(RequestPayload::Cancel(<Of<AsynchronousRequest<A>, 0x420079> as Element<
                A,
            >>::read_one(scope, cursor)?)),
            22 => Ok(RequestPayload::Poll(<Of<AsynchronousRequest<A>, 0x420079> as Element<
                A,
            >>::read_one(scope, cursor)?)),
            23 => Ok(RequestPayload::ReKeyKeyPair(<InBox<
                Of<ReKeyKeyPairRequest<A>, 0x420079>,
            > as Element<A>>::read_one(scope, cursor)?)),
            24 => Ok(RequestPayload::DiscoverVersions(<Of<
                DiscoverVersionsRequest<A>,
                0x420079,
            > as Element<A>>::read_one(scope, cursor)?)),
            25 => Ok(RequestPayload::Encrypt(<InBox<
                Of<CryptographicRequest<A>, 0x420079>,
            > as Element<A>>::read_one(scope, cursor)?)),
            26 => Ok(RequestPayload::Decrypt(<InBox<
                Of<CryptographicRequest<A>, 0x420079>,
            > as Element<A>>::read_one(scope, cursor)?)),
            27 => Ok(RequestPayload::Sign(<InBox<Of<CryptographicRequest<A>, 0x420079>> as Element<
                A,
            >>::read_one(scope, cursor)?)),
            28 => Ok(RequestPayload::SignatureVerify(<InBox<
                Of<CryptographicRequest<A>, 0x420079>,
            > as Element<A>>::read_one(scope, cursor)?)),
            29 => Ok(RequestPayload::Mac(<InBox<Of<CryptographicRequest<A>, 0x420079>> as Element<
                A,
            >>::read_one(scope, cursor)?)),
            30 => Ok(RequestPayload::MacVerify(<InBox<
                Of<CryptographicRequest<A>, 0x420079>,
            > as Element<A>>::read_one(scope, cursor)?)),
            31 => Ok(RequestPayload::Hash(<InBox<Of<CryptographicRequest<A>, 0x420079>> as Element<
                A,
            >>::read_one(scope, cursor)?)),
            32 => Ok(RequestPayload::Import(<InBox<Of<ImportRequest<A>, 0x420079>> as Element<
                A,
            >>::read_one(scope, cursor)?)),
            33 => Ok(RequestPayload::Export(<InBox<Of<ExportRequest<A>, 0x420079>> as Element<
                A,
            >>::read_one(scope, cursor)?)),
            34 => Ok(RequestPayload::Login(<Of<LoginRequest<A>, 0x420079> as Element<A>>::read_one(
                scope, cursor,
            )?)),
            35 => Ok(RequestPayload::Logout(<Of<TicketRequest<A>, 0x420079> as Element<
                A,
            >>::read_one(scope, cursor)?)),
            36 => Ok(RequestPayload::Other(<Of<Kept<A>, 0x420079> as Element<A>>::read_one(
                scope, cursor,
            )?)),
            _ => unreachable!(),
        }
    }

    fn tell_held<W: Walk<A>>(&self, state: &mut W::State) -> Result<(), AllocError> {
        match self {
            RequestPayload::Create(inner) => W::item::<Of<CreateRequest<A>, 0x420079>>(
                state, inner,
            ),
            RequestPayload::CreateKeyPair(inner) => W::item::<
                InBox<Of<CreateKeyPairRequest<A>, 0x420079>>,
            >(state, inner),
            RequestPayload::Register(inner) => W::item::<InBox<Of<RegisterRequest<A>, 0x420079>>>(
                state, inner,
            ),
            RequestPayload::ReKey(inner) => W::item::<InBox<Of<ReKeyRequest<A>, 0x420079>>>(
                state, inner,
            ),
            RequestPayload::DeriveKey(inner) => W::item::<InBox<Of<DeriveKeyRequest<A>, 0x420079>>>(
                state, inner,
            ),
            RequestPayload::Locate(inner) => W::item::<Of<LocateRequest<A>, 0x420079>>(
                state, inner,
            ),
            RequestPayload::Check(inner) => W::item::<Of<CheckRequest<A>, 0x420079>>(state, inner),
            RequestPayload::Get(inner) => W::item::<Of<GetRequest<A>, 0x420079>>(state, inner),
            RequestPayload::GetAttributes(inner) => W::item::<
                Of<GetAttributesRequest<A>, 0x420079>,
            >(state, inner),
            RequestPayload::GetAttributeList(inner) => W::item::<Of<ObjectRequest<A>, 0x420079>>(
                state, inner,
            ),
            RequestPayload::AddAttribute(inner) => W::item::<
                InBox<Of<AttributeRequest<A>, 0x420079>>,
            >(state, inner),
            RequestPayload::ModifyAttribute(inner) => W::item::<
                InBox<Of<AttributeRequest<A>, 0x420079>>,
            >(state, inner),
            RequestPayload::DeleteAttribute(inner) => W::item::<
                InBox<Of<DeleteAttributeRequest<A>, 0x420079>>,
            >(state, inner),
            RequestPayload::ObtainLease(inner) => W::item::<Of<ObjectRequest<A>, 0x420079>>(
                state, inner,
            ),
            RequestPayload::GetUsageAllocation(inner) => W::item::<
                Of<UsageAllocationRequest<A>, 0x420079>,
            >(state, inner),
            RequestPayload::Activate(inner) => W::item::<Of<ObjectRequest<A>, 0x420079>>(
                state, inner,
            ),
            RequestPayload::Revoke(inner) => W::item::<Of<RevokeRequest<A>, 0x420079>>(
                state, inner,
            ),
            RequestPayload::Destroy(inner) => W::item::<Of<ObjectRequest<A>, 0x420079>>(
                state, inner,
            ),
            RequestPayload::Archive(inner) => W::item::<Of<ObjectRequest<A>, 0x420079>>(
                state, inner,
            ),
            RequestPayload::Recover(inner) => W::item::<Of<ObjectRequest<A>, 0x420079>>(
                state, inner,
            ),
            RequestPayload::Query(inner) => W::item::<Of<QueryRequest<A>, 0x420079>>(state, inner),
            RequestPayload::Cancel(inner) => W::item::<Of<AsynchronousRequest<A>, 0x420079>>(
                state, inner,
            ),
            RequestPayload::Poll(inner) => W::item::<Of<AsynchronousRequest<A>, 0x420079>>(
                state, inner,
            ),
            RequestPayload::ReKeyKeyPair(inner) => W::item::<
                InBox<Of<ReKeyKeyPairRequest<A>, 0x420079>>,
            >(state, inner),
            RequestPayload::DiscoverVersions(inner) => W::item::<
                Of<DiscoverVersionsRequest<A>, 0x420079>,
            >(state, inner),
            RequestPayload::Encrypt(inner) => W::item::<
                InBox<Of<CryptographicRequest<A>, 0x420079>>,
            >(state, inner),
            RequestPayload::Decrypt(inner) => W::item::<
                InBox<Of<CryptographicRequest<A>, 0x420079>>,
            >(state, inner),
            RequestPayload::Sign(inner) => W::item::<InBox<Of<CryptographicRequest<A>, 0x420079>>>(
                state, inner,
            ),
            RequestPayload::SignatureVerify(inner) => W::item::<
                InBox<Of<CryptographicRequest<A>, 0x420079>>,
            >(state, inner),
            RequestPayload::Mac(inner) => W::item::<InBox<Of<CryptographicRequest<A>, 0x420079>>>(
                state, inner,
            ),
            RequestPayload::MacVerify(inner) => W::item::<
                InBox<Of<CryptographicRequest<A>, 0x420079>>,
            >(state, inner),
            RequestPayload::Hash(inner) => W::item::<InBox<Of<CryptographicRequest<A>, 0x420079>>>(
                state, inner,
            ),
            RequestPayload::Import(inner) => W::item::<InBox<Of<ImportRequest<A>, 0x420079>>>(
                state, inner,
            ),
            RequestPayload::Export(inner) => W::item::<InBox<Of<ExportRequest<A>, 0x420079>>>(
                state, inner,
            ),
            RequestPayload::Login(inner) => W::item::<Of<LoginRequest<A>, 0x420079>>(state, inner),
            RequestPayload::Logout(inner) => W::item::<Of<TicketRequest<A>, 0x420079>>(
                state, inner,
            ),
            RequestPayload::Other(inner) => W::item::<Of<Kept<A>, 0x420079>>(state, inner),
        }
    }
}
