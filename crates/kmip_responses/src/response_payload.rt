// Written by codegen from types.table: change that, and run codegen/codegen.
//! What was done (KMIP 1.0, section 4).

ghost use Rattle.std.specs.Prelude.{◌≡◌, ◌↔◌, ◌+◌, None, IsTrue, Some, refl, true};
ghost use Rattle.kmip_ttlv_parts.specs.Returns.{IsNoneOf};
ghost use Rattle.kmip_ttlv_kinds.specs.Parts.{IsApart, keeping_structure, structure, structure_where};
ghost use Rattle.kmip_ttlv_kinds.specs.Choices.{held};
ghost use Rattle.kmip_ttlv_parts.specs.MessageParts.{there};
ghost use Rattle.kmip_responses.specs.Choices.{IsGetResponseObject, IsExportResponseObject, response_payload_choice, ChoosesResponsePayload, response_payload_names};

use kmip_attributes::attribute::Attribute;
use kmip_attributes::values::{ObjectType, State};
use kmip_headers::header::{Operation, ProtocolVersion, Ticket};
use kmip_objects::object::{
    Certificate, ManagedObject, OpaqueObject, PrivateKey, PublicKey, SecretData, SplitKey,
    SymmetricKey, Template,
};
use kmip_objects::template::{
    PrivateKeyTemplateAttribute, PublicKeyTemplateAttribute, TemplateAttribute,
};
use kmip_ttlv_kinds::{
    Alone, Any, Before, Choice, Decided, Element, Four, FromParts, Holds, InBox, Leaf, LeafItem,
    Maybe, MaybeLeaf, Of, One, PartList, Rest, Structure, Walk, is_apart, read_structure,
};
use kmip_ttlv_parts::laws::is_none_of;
use kmip_ttlv_parts::reader::{Cursor, DateTime, Interval, RuleParts, Scope, Step};
use kmip_ttlv_parts::types::TtlvType;
use kmip_ttlv_parts::{Boxed, Enumeration, Kept};
use std::alloc::{AllocError, Allocator, Global};

/// A symmetric key was made (section 4.1).
#[derive(Drop)]
#[derive_where(PartialEq)]
pub struct CreateResponse<A: Allocator = Global> {
    /// What it is.
    pub object_type: ObjectType,
    /// Its identifier.
    pub unique_identifier: String<A>,
    /// What the server has set.
    pub template_attribute: Option<TemplateAttribute<A>>,
}

type CreateResponseParts<A> = (
    One<ObjectType>,
    Leaf<String<A>, 0x420094>,
    Maybe<Of<TemplateAttribute<A>, 0x420091>, 0x420091>,
);

impl<A: Allocator + Copy> FromParts<A, CreateResponseParts<A>> for CreateResponse<A> {
    ghost parts = { λ x. (x.object_type, x.unique_identifier, x.template_attribute) };

    fn from_parts(
        (object_type, unique_identifier, template_attribute): Holds<CreateResponseParts<A>, A>,
    ) -> Self {
        CreateResponse {
            object_type,
            unique_identifier,
            template_attribute,
        }
    }
}

impl<A: Allocator + Copy> Structure<A> for CreateResponse<A> {
    ghost rules = { structure true ⟦<CreateResponseParts<A> as PartList<A>>⟧.rules ⟦<CreateResponse<A> as FromParts<A, CreateResponseParts<A>>>⟧.parts refl ⟦<CreateResponse<A> as PartialEq>⟧.eq (λ x y e. e) };

    fn read<'b>(scope: &Scope<'b, A>, tag: u32, cursor: &mut Cursor<'b, A>) -> Step<Self, A> {
        read_structure::<CreateResponseParts<A>, Self, A>(scope, tag, true, cursor)
    }

    fn tell_parts<W: Walk<A>>(&self, state: &mut W::State) -> Result<(), AllocError> {
        W::three::<
            One<ObjectType>,
            Leaf<String<A>, 0x420094>,
            Maybe<Of<TemplateAttribute<A>, 0x420091>, 0x420091>,
        >(
            state,
            &self.object_type,
            &self.unique_identifier,
            &self.template_attribute,
        )
    }
}

/// A public and a private key were made (section 4.2).
#[derive(Drop)]
#[derive_where(PartialEq)]
pub struct CreateKeyPairResponse<A: Allocator = Global> {
    /// The private key's identifier.
    pub private_key_unique_identifier: String<A>,
    /// The public key's identifier.
    pub public_key_unique_identifier: String<A>,
    /// What the server has set of the private key.
    pub private_key: Option<PrivateKeyTemplateAttribute<A>>,
    /// What the server has set of the public key.
    pub public_key: Option<PublicKeyTemplateAttribute<A>>,
}

type CreateKeyPairResponseParts<A> = (
    Leaf<String<A>, 0x420066>,
    Leaf<String<A>, 0x42006F>,
    Maybe<Of<PrivateKeyTemplateAttribute<A>, 0x420065>, 0x420065>,
    Maybe<Of<PublicKeyTemplateAttribute<A>, 0x42006E>, 0x42006E>,
);

impl<A: Allocator + Copy> FromParts<A, CreateKeyPairResponseParts<A>> for CreateKeyPairResponse<A> {
    ghost parts = { λ x. (x.private_key_unique_identifier, x.public_key_unique_identifier, x.private_key, x.public_key) };

    fn from_parts(
        (
            private_key_unique_identifier,
            public_key_unique_identifier,
            private_key,
            public_key,
        ): Holds<CreateKeyPairResponseParts<A>, A>,
    ) -> Self {
        CreateKeyPairResponse {
            private_key_unique_identifier,
            public_key_unique_identifier,
            private_key,
            public_key,
        }
    }
}

impl<A: Allocator + Copy> Structure<A> for CreateKeyPairResponse<A> {
    ghost rules = { structure true ⟦<CreateKeyPairResponseParts<A> as PartList<A>>⟧.rules ⟦<CreateKeyPairResponse<A> as FromParts<A, CreateKeyPairResponseParts<A>>>⟧.parts refl ⟦<CreateKeyPairResponse<A> as PartialEq>⟧.eq (λ x y e. e) };

    fn read<'b>(scope: &Scope<'b, A>, tag: u32, cursor: &mut Cursor<'b, A>) -> Step<Self, A> {
        read_structure::<CreateKeyPairResponseParts<A>, Self, A>(scope, tag, true, cursor)
    }

    fn tell_parts<W: Walk<A>>(&self, state: &mut W::State) -> Result<(), AllocError> {
        W::four::<
            Leaf<String<A>, 0x420066>,
            Leaf<String<A>, 0x42006F>,
            Maybe<Of<PrivateKeyTemplateAttribute<A>, 0x420065>, 0x420065>,
            Maybe<Of<PublicKeyTemplateAttribute<A>, 0x42006E>, 0x42006E>,
        >(
            state,
            &self.private_key_unique_identifier,
            &self.public_key_unique_identifier,
            &self.private_key,
            &self.public_key,
        )
    }
}

/// An object is kept (section 4.3).
#[derive(Drop)]
#[derive_where(PartialEq)]
pub struct RegisterResponse<A: Allocator = Global> {
    /// Its identifier.
    pub unique_identifier: String<A>,
    /// What the server has set.
    pub template_attribute: Option<TemplateAttribute<A>>,
}

type RegisterResponseParts<A> = (
    Leaf<String<A>, 0x420094>,
    Maybe<Of<TemplateAttribute<A>, 0x420091>, 0x420091>,
);

impl<A: Allocator + Copy> FromParts<A, RegisterResponseParts<A>> for RegisterResponse<A> {
    ghost parts = { λ x. (x.unique_identifier, x.template_attribute) };

    fn from_parts(
        (unique_identifier, template_attribute): Holds<RegisterResponseParts<A>, A>,
    ) -> Self {
        RegisterResponse {
            unique_identifier,
            template_attribute,
        }
    }
}

impl<A: Allocator + Copy> Structure<A> for RegisterResponse<A> {
    ghost rules = { structure true ⟦<RegisterResponseParts<A> as PartList<A>>⟧.rules ⟦<RegisterResponse<A> as FromParts<A, RegisterResponseParts<A>>>⟧.parts refl ⟦<RegisterResponse<A> as PartialEq>⟧.eq (λ x y e. e) };

    fn read<'b>(scope: &Scope<'b, A>, tag: u32, cursor: &mut Cursor<'b, A>) -> Step<Self, A> {
        read_structure::<RegisterResponseParts<A>, Self, A>(scope, tag, true, cursor)
    }

    fn tell_parts<W: Walk<A>>(&self, state: &mut W::State) -> Result<(), AllocError> {
        W::two::<Leaf<String<A>, 0x420094>, Maybe<Of<TemplateAttribute<A>, 0x420091>, 0x420091>>(
            state,
            &self.unique_identifier,
            &self.template_attribute,
        )
    }
}

/// Which objects were found (section 4.8).
#[derive(Drop)]
#[derive_where(PartialEq)]
pub struct LocateResponse<A: Allocator = Global> {
    /// How many there are in all (KMIP 1.3).
    pub located_items: Option<i32>,
    /// Their identifiers.
    pub unique_identifiers: Vec<String<A>, A>,
    /// What stands behind these, whatever it is.
    pub other_items: Kept<A>,
}

impl<A: Allocator + Copy> Decided for LocateResponse<A> {
    ghost IsDecided = { λ x. IsApart ⟦<LocateResponseParts<A> as PartList<A>>⟧.rules ⟦<LocateResponse<A> as FromParts<A, LocateResponseParts<A>>>⟧.parts x };

    fn is_decided(&self) -> bool {
        is_apart::<LocateResponseParts<A>, A>(&self.other_items)
    }
}

type LocateResponseParts<A> = Before<
    MaybeLeaf<i32, 0x4200D5>,
    Before<Any<LeafItem<String<A>, 0x420094>, 0x420094>, Rest>,
>;

impl<A: Allocator + Copy> FromParts<A, LocateResponseParts<A>> for LocateResponse<A> {
    ghost parts = { λ x. (x.located_items, (x.unique_identifiers, x.other_items)) };

    fn from_parts(
        (located_items, (unique_identifiers, other_items)): Holds<LocateResponseParts<A>, A>,
    ) -> Self {
        LocateResponse {
            located_items,
            unique_identifiers,
            other_items,
        }
    }
}

impl<A: Allocator + Copy> Structure<A> for LocateResponse<A> {
    ghost rules = { keeping_structure ⟦<LocateResponseParts<A> as PartList<A>>⟧.rules ⟦<LocateResponse<A> as FromParts<A, LocateResponseParts<A>>>⟧.parts refl ⟦<LocateResponse<A> as PartialEq>⟧.eq (λ x y e. e) };

    fn read<'b>(scope: &Scope<'b, A>, tag: u32, cursor: &mut Cursor<'b, A>) -> Step<Self, A> {
        read_structure::<LocateResponseParts<A>, Self, A>(scope, tag, true, cursor)
    }

    fn tell_parts<W: Walk<A>>(&self, state: &mut W::State) -> Result<(), AllocError> {
        W::one::<MaybeLeaf<i32, 0x4200D5>>(state, &self.located_items)?;
        W::one::<Any<LeafItem<String<A>, 0x420094>, 0x420094>>(state, &self.unique_identifiers)?;
        W::kept(state, &self.other_items)?;
        W::check(state, self);
        Ok(())
    }
}

/// An object (section 4.10).
#[derive(Drop)]
#[derive_where(PartialEq)]
pub struct GetResponse<A: Allocator = Global> {
    /// What it is.
    pub object_type: ObjectType,
    /// Its identifier.
    pub unique_identifier: String<A>,
    /// A certificate.
    pub certificate: Option<Certificate<A>>,
    /// A symmetric key.
    pub symmetric_key: Option<Boxed<SymmetricKey<A>, A>>,
    /// A public key.
    pub public_key: Option<Boxed<PublicKey<A>, A>>,
    /// A private key.
    pub private_key: Option<Boxed<PrivateKey<A>, A>>,
    /// One of the parts that a key was split into.
    pub split_key: Option<Boxed<SplitKey<A>, A>>,
    /// Attributes that other objects are made with.
    pub template: Option<Template<A>>,
    /// A secret that is no key.
    pub secret_data: Option<Boxed<SecretData<A>, A>>,
    /// Bytes that the server doesn't interpret.
    pub opaque_object: Option<OpaqueObject<A>>,
}

impl<A: Allocator> GetResponse<A> {
    /// The object. None if none is there, or more than one.
    pub fn object(&self) -> Option<ManagedObject<'_, A>>
        ensures { IsGetResponseObject self.now result }
    {
        match (
            &self.certificate,
            &self.symmetric_key,
            &self.public_key,
            &self.private_key,
            &self.split_key,
            &self.template,
            &self.secret_data,
            &self.opaque_object,
        ) {
            (Some(inner), None, None, None, None, None, None, None) => Some(
                ManagedObject::Certificate(inner),
            ),
            (None, Some(inner), None, None, None, None, None, None) => Some(
                ManagedObject::SymmetricKey(inner.inner.as_ref()),
            ),
            (None, None, Some(inner), None, None, None, None, None) => Some(
                ManagedObject::PublicKey(inner.inner.as_ref()),
            ),
            (None, None, None, Some(inner), None, None, None, None) => Some(
                ManagedObject::PrivateKey(inner.inner.as_ref()),
            ),
            (None, None, None, None, Some(inner), None, None, None) => Some(ManagedObject::SplitKey(
                inner.inner.as_ref(),
            )),
            (None, None, None, None, None, Some(inner), None, None) => Some(ManagedObject::Template(
                inner,
            )),
            (None, None, None, None, None, None, Some(inner), None) => Some(
                ManagedObject::SecretData(inner.inner.as_ref()),
            ),
            (None, None, None, None, None, None, None, Some(inner)) => Some(
                ManagedObject::OpaqueObject(inner),
            ),
            _ => None,
        }
    }
}

impl<A: Allocator> Decided for GetResponse<A> {
    ghost IsDecided = { λ x. (there x.certificate + (there x.symmetric_key + (there x.public_key + (there x.private_key + (there x.split_key + (there x.template + (there x.secret_data + there x.opaque_object)))))) ≡ 1) };

    fn is_decided(&self) -> bool {
        self.object().is_some()
    }
}

type GetResponseFirst<A> = (
    One<ObjectType>,
    Leaf<String<A>, 0x420094>,
    Maybe<Of<Certificate<A>, 0x420013>, 0x420013>,
    Maybe<InBox<Of<SymmetricKey<A>, 0x42008F>>, 0x42008F>,
);

type GetResponseSecond<A> = (
    Maybe<InBox<Of<PublicKey<A>, 0x42006D>>, 0x42006D>,
    Maybe<InBox<Of<PrivateKey<A>, 0x420064>>, 0x420064>,
    Maybe<InBox<Of<SplitKey<A>, 0x420089>>, 0x420089>,
    Maybe<Of<Template<A>, 0x420090>, 0x420090>,
);

type GetResponseThird<A> = (
    Maybe<InBox<Of<SecretData<A>, 0x420085>>, 0x420085>,
    Maybe<Of<OpaqueObject<A>, 0x42005B>, 0x42005B>,
);

type GetResponseParts<A> = Four<
    GetResponseFirst<A>,
    Four<GetResponseSecond<A>, GetResponseThird<A>>,
>;

impl<A: Allocator + Copy> FromParts<A, GetResponseParts<A>> for GetResponse<A> {
    ghost parts = { λ x. (x.object_type, x.unique_identifier, x.certificate, x.symmetric_key, (x.public_key, x.private_key, x.split_key, x.template, (x.secret_data, x.opaque_object))) };

    fn from_parts(
        (
            object_type,
            unique_identifier,
            certificate,
            symmetric_key,
            (public_key, private_key, split_key, template, (secret_data, opaque_object)),
        ): Holds<GetResponseParts<A>, A>,
    ) -> Self {
        GetResponse {
            object_type,
            unique_identifier,
            certificate,
            symmetric_key,
            public_key,
            private_key,
            split_key,
            template,
            secret_data,
            opaque_object,
        }
    }
}

impl<A: Allocator + Copy> Structure<A> for GetResponse<A> {
    ghost rules = { structure_where true ⟦<GetResponseParts<A> as PartList<A>>⟧.rules ⟦<GetResponse<A> as FromParts<A, GetResponseParts<A>>>⟧.parts refl
        (λ x. (there x.certificate + (there x.symmetric_key + (there x.public_key + (there x.private_key + (there x.split_key + (there x.template + (there x.secret_data + there x.opaque_object)))))) ≡ 1)) (λ x d. (tt, (tt, (tt, (tt, (tt, (tt, (tt, (tt, (tt, (tt))))))))))) ⟦<GetResponse<A> as PartialEq>⟧.eq (λ x y e. e) };

    fn read<'b>(scope: &Scope<'b, A>, tag: u32, cursor: &mut Cursor<'b, A>) -> Step<Self, A> {
        read_structure::<GetResponseParts<A>, Self, A>(scope, tag, true, cursor)
    }

    fn tell_parts<W: Walk<A>>(&self, state: &mut W::State) -> Result<(), AllocError> {
        W::four::<
            One<ObjectType>,
            Leaf<String<A>, 0x420094>,
            Maybe<Of<Certificate<A>, 0x420013>, 0x420013>,
            Maybe<InBox<Of<SymmetricKey<A>, 0x42008F>>, 0x42008F>,
        >(
            state,
            &self.object_type,
            &self.unique_identifier,
            &self.certificate,
            &self.symmetric_key,
        )?;
        W::four::<
            Maybe<InBox<Of<PublicKey<A>, 0x42006D>>, 0x42006D>,
            Maybe<InBox<Of<PrivateKey<A>, 0x420064>>, 0x420064>,
            Maybe<InBox<Of<SplitKey<A>, 0x420089>>, 0x420089>,
            Maybe<Of<Template<A>, 0x420090>, 0x420090>,
        >(
            state,
            &self.public_key,
            &self.private_key,
            &self.split_key,
            &self.template,
        )?;
        W::two::<
            Maybe<InBox<Of<SecretData<A>, 0x420085>>, 0x420085>,
            Maybe<Of<OpaqueObject<A>, 0x42005B>, 0x42005B>,
        >(state, &self.secret_data, &self.opaque_object)?;
        W::check(state, self);
        Ok(())
    }
}

/// What is known of an object (section 4.11).
#[derive(Drop)]
#[derive_where(PartialEq)]
pub struct GetAttributesResponse<A: Allocator = Global> {
    /// Its identifier.
    pub unique_identifier: String<A>,
    /// What is known, up to KMIP 1.4.
    pub attributes: Vec<Attribute<A>, A>,
    /// What is known, by tags (KMIP 2.0).
    pub attributes_by_tag: Option<Kept<A>>,
}

type GetAttributesResponseParts<A> = (
    Leaf<String<A>, 0x420094>,
    Any<Of<Attribute<A>, 0x420008>, 0x420008>,
    Maybe<Of<Kept<A>, 0x420125>, 0x420125>,
);

impl<A: Allocator + Copy> FromParts<A, GetAttributesResponseParts<A>> for GetAttributesResponse<A> {
    ghost parts = { λ x. (x.unique_identifier, x.attributes, x.attributes_by_tag) };

    fn from_parts(
        (unique_identifier, attributes, attributes_by_tag): Holds<GetAttributesResponseParts<A>, A>,
    ) -> Self {
        GetAttributesResponse {
            unique_identifier,
            attributes,
            attributes_by_tag,
        }
    }
}

impl<A: Allocator + Copy> Structure<A> for GetAttributesResponse<A> {
    ghost rules = { structure true ⟦<GetAttributesResponseParts<A> as PartList<A>>⟧.rules ⟦<GetAttributesResponse<A> as FromParts<A, GetAttributesResponseParts<A>>>⟧.parts refl ⟦<GetAttributesResponse<A> as PartialEq>⟧.eq (λ x y e. e) };

    fn read<'b>(scope: &Scope<'b, A>, tag: u32, cursor: &mut Cursor<'b, A>) -> Step<Self, A> {
        read_structure::<GetAttributesResponseParts<A>, Self, A>(scope, tag, true, cursor)
    }

    fn tell_parts<W: Walk<A>>(&self, state: &mut W::State) -> Result<(), AllocError> {
        W::three::<
            Leaf<String<A>, 0x420094>,
            Any<Of<Attribute<A>, 0x420008>, 0x420008>,
            Maybe<Of<Kept<A>, 0x420125>, 0x420125>,
        >(
            state,
            &self.unique_identifier,
            &self.attributes,
            &self.attributes_by_tag,
        )
    }
}

/// The names of what is known of an object (section 4.12). Of KMIP 2.0 the Attribute References are among the other items.
#[derive(Drop)]
#[derive_where(PartialEq)]
pub struct GetAttributeListResponse<A: Allocator = Global> {
    /// Its identifier.
    pub unique_identifier: String<A>,
    /// The names, up to KMIP 1.4.
    pub attribute_names: Vec<String<A>, A>,
    /// What stands behind these, whatever it is.
    pub other_items: Kept<A>,
}

impl<A: Allocator + Copy> Decided for GetAttributeListResponse<A> {
    ghost IsDecided = { λ x. IsApart ⟦<GetAttributeListResponseParts<A> as PartList<A>>⟧.rules ⟦<GetAttributeListResponse<A> as FromParts<A, GetAttributeListResponseParts<A>>>⟧.parts x };

    fn is_decided(&self) -> bool {
        is_apart::<GetAttributeListResponseParts<A>, A>(&self.other_items)
    }
}

type GetAttributeListResponseParts<A> = Before<
    Leaf<String<A>, 0x420094>,
    Before<Any<LeafItem<String<A>, 0x42000A>, 0x42000A>, Rest>,
>;

impl<A: Allocator + Copy> FromParts<A, GetAttributeListResponseParts<A>>
    for GetAttributeListResponse<A> {
    ghost parts = { λ x. (x.unique_identifier, (x.attribute_names, x.other_items)) };

    fn from_parts(
        (unique_identifier, (attribute_names, other_items)): Holds<
            GetAttributeListResponseParts<A>,
            A,
        >,
    ) -> Self {
        GetAttributeListResponse {
            unique_identifier,
            attribute_names,
            other_items,
        }
    }
}

impl<A: Allocator + Copy> Structure<A> for GetAttributeListResponse<A> {
    ghost rules = { keeping_structure ⟦<GetAttributeListResponseParts<A> as PartList<A>>⟧.rules ⟦<GetAttributeListResponse<A> as FromParts<A, GetAttributeListResponseParts<A>>>⟧.parts refl ⟦<GetAttributeListResponse<A> as PartialEq>⟧.eq (λ x y e. e) };

    fn read<'b>(scope: &Scope<'b, A>, tag: u32, cursor: &mut Cursor<'b, A>) -> Step<Self, A> {
        read_structure::<GetAttributeListResponseParts<A>, Self, A>(scope, tag, true, cursor)
    }

    fn tell_parts<W: Walk<A>>(&self, state: &mut W::State) -> Result<(), AllocError> {
        W::one::<Leaf<String<A>, 0x420094>>(state, &self.unique_identifier)?;
        W::one::<Any<LeafItem<String<A>, 0x42000A>, 0x42000A>>(state, &self.attribute_names)?;
        W::kept(state, &self.other_items)?;
        W::check(state, self);
        Ok(())
    }
}

/// An attribute that was added, changed or deleted (sections 4.13 to 4.15).
#[derive(Drop)]
#[derive_where(PartialEq)]
pub struct AttributeResponse<A: Allocator = Global> {
    /// The identifier of its object.
    pub unique_identifier: String<A>,
    /// The attribute, up to KMIP 1.4.
    pub attribute: Option<Attribute<A>>,
}

type AttributeResponseParts<A> = (
    Leaf<String<A>, 0x420094>,
    Maybe<Of<Attribute<A>, 0x420008>, 0x420008>,
);

impl<A: Allocator + Copy> FromParts<A, AttributeResponseParts<A>> for AttributeResponse<A> {
    ghost parts = { λ x. (x.unique_identifier, x.attribute) };

    fn from_parts((unique_identifier, attribute): Holds<AttributeResponseParts<A>, A>) -> Self {
        AttributeResponse {
            unique_identifier,
            attribute,
        }
    }
}

impl<A: Allocator + Copy> Structure<A> for AttributeResponse<A> {
    ghost rules = { structure true ⟦<AttributeResponseParts<A> as PartList<A>>⟧.rules ⟦<AttributeResponse<A> as FromParts<A, AttributeResponseParts<A>>>⟧.parts refl ⟦<AttributeResponse<A> as PartialEq>⟧.eq (λ x y e. e) };

    fn read<'b>(scope: &Scope<'b, A>, tag: u32, cursor: &mut Cursor<'b, A>) -> Step<Self, A> {
        read_structure::<AttributeResponseParts<A>, Self, A>(scope, tag, true, cursor)
    }

    fn tell_parts<W: Walk<A>>(&self, state: &mut W::State) -> Result<(), AllocError> {
        W::two::<Leaf<String<A>, 0x420094>, Maybe<Of<Attribute<A>, 0x420008>, 0x420008>>(
            state,
            &self.unique_identifier,
            &self.attribute,
        )
    }
}

/// Which object was activated, revoked, destroyed, archived, recovered, or may be used (sections 4.17 to 4.22).
#[derive(Drop)]
#[derive_where(PartialEq)]
pub struct ObjectResponse<A: Allocator = Global> {
    /// Its identifier.
    pub unique_identifier: String<A>,
}

type ObjectResponseParts<A> = Alone<Leaf<String<A>, 0x420094>>;

impl<A: Allocator + Copy> FromParts<A, ObjectResponseParts<A>> for ObjectResponse<A> {
    ghost parts = { λ x. x.unique_identifier };

    fn from_parts(unique_identifier: Holds<ObjectResponseParts<A>, A>) -> Self {
        ObjectResponse { unique_identifier }
    }
}

impl<A: Allocator + Copy> Structure<A> for ObjectResponse<A> {
    ghost rules = { structure true ⟦<ObjectResponseParts<A> as PartList<A>>⟧.rules ⟦<ObjectResponse<A> as FromParts<A, ObjectResponseParts<A>>>⟧.parts refl ⟦<ObjectResponse<A> as PartialEq>⟧.eq (λ x y e. e) };

    fn read<'b>(scope: &Scope<'b, A>, tag: u32, cursor: &mut Cursor<'b, A>) -> Step<Self, A> {
        read_structure::<ObjectResponseParts<A>, Self, A>(scope, tag, true, cursor)
    }

    fn tell_parts<W: Walk<A>>(&self, state: &mut W::State) -> Result<(), AllocError> {
        W::one::<Leaf<String<A>, 0x420094>>(state, &self.unique_identifier)
    }
}

/// What a server can do: of each only what was asked for (section 4.24).
#[derive(Drop)]
#[derive_where(PartialEq)]
pub struct QueryResponse<A: Allocator = Global> {
    /// Its operations.
    pub operations: Vec<Operation, A>,
    /// The kinds of objects that it keeps.
    pub object_types: Vec<ObjectType, A>,
    /// Who made it.
    pub vendor_identification: Option<String<A>>,
    /// What it says of itself: any items.
    pub server_information: Option<Kept<A>>,
    /// The namespaces that it knows.
    pub application_namespaces: Vec<String<A>, A>,
    /// The tags that it has beside the standard's (KMIP 1.1).
    pub extensions: Vec<Kept<A>, A>,
    /// How a client may prove what it runs (KMIP 1.2).
    pub attestation_types: Vec<u32, A>,
    /// Where its random numbers come from (KMIP 1.3).
    pub rng_parameters: Vec<Kept<A>, A>,
    /// Which profiles of KMIP it has (KMIP 1.3).
    pub profiles: Vec<Kept<A>, A>,
    /// What it was validated as (KMIP 1.3).
    pub validations: Vec<Kept<A>, A>,
    /// What it is capable of (KMIP 1.3).
    pub capabilities: Vec<Kept<A>, A>,
    /// How clients are made known to it (KMIP 1.3).
    pub client_registration_methods: Vec<u32, A>,
    /// What stands behind these, whatever it is.
    pub other_items: Kept<A>,
}

impl<A: Allocator + Copy> Decided for QueryResponse<A> {
    ghost IsDecided = { λ x. IsApart ⟦<QueryResponseParts<A> as PartList<A>>⟧.rules ⟦<QueryResponse<A> as FromParts<A, QueryResponseParts<A>>>⟧.parts x };

    fn is_decided(&self) -> bool {
        is_apart::<QueryResponseParts<A>, A>(&self.other_items)
    }
}

type QueryResponseFirst<A> = (
    Any<Operation, 0x42005C>,
    Any<ObjectType, 0x420057>,
    MaybeLeaf<String<A>, 0x42009D>,
    Maybe<Of<Kept<A>, 0x420088>, 0x420088>,
);

type QueryResponseSecond<A> = (
    Any<LeafItem<String<A>, 0x420003>, 0x420003>,
    Any<Of<Kept<A>, 0x4200A4>, 0x4200A4>,
    Any<LeafItem<u32, 0x4200C7>, 0x4200C7>,
    Any<Of<Kept<A>, 0x4200D9>, 0x4200D9>,
);

type QueryResponseThird<A> = (
    Any<Of<Kept<A>, 0x4200EB>, 0x4200EB>,
    Any<Of<Kept<A>, 0x4200DF>, 0x4200DF>,
    Any<Of<Kept<A>, 0x4200F7>, 0x4200F7>,
    Any<LeafItem<u32, 0x4200F6>, 0x4200F6>,
);

type QueryResponseParts<A> = Four<
    QueryResponseFirst<A>,
    Four<QueryResponseSecond<A>, Four<QueryResponseThird<A>, Rest>>,
>;

impl<A: Allocator + Copy> FromParts<A, QueryResponseParts<A>> for QueryResponse<A> {
    ghost parts = { λ x. (x.operations, x.object_types, x.vendor_identification, x.server_information, (x.application_namespaces, x.extensions, x.attestation_types, x.rng_parameters, (x.profiles, x.validations, x.capabilities, x.client_registration_methods, x.other_items))) };

    fn from_parts(
        (
            operations,
            object_types,
            vendor_identification,
            server_information,
            (
                application_namespaces,
                extensions,
                attestation_types,
                rng_parameters,
                (profiles, validations, capabilities, client_registration_methods, other_items),
            ),
        ): Holds<QueryResponseParts<A>, A>,
    ) -> Self {
        QueryResponse {
            operations,
            object_types,
            vendor_identification,
            server_information,
            application_namespaces,
            extensions,
            attestation_types,
            rng_parameters,
            profiles,
            validations,
            capabilities,
            client_registration_methods,
            other_items,
        }
    }
}

impl<A: Allocator + Copy> Structure<A> for QueryResponse<A> {
    ghost rules = { keeping_structure ⟦<QueryResponseParts<A> as PartList<A>>⟧.rules ⟦<QueryResponse<A> as FromParts<A, QueryResponseParts<A>>>⟧.parts refl ⟦<QueryResponse<A> as PartialEq>⟧.eq (λ x y e. e) };

    fn read<'b>(scope: &Scope<'b, A>, tag: u32, cursor: &mut Cursor<'b, A>) -> Step<Self, A> {
        read_structure::<QueryResponseParts<A>, Self, A>(scope, tag, true, cursor)
    }

    fn tell_parts<W: Walk<A>>(&self, state: &mut W::State) -> Result<(), AllocError> {
        W::four::<
            Any<Operation, 0x42005C>,
            Any<ObjectType, 0x420057>,
            MaybeLeaf<String<A>, 0x42009D>,
            Maybe<Of<Kept<A>, 0x420088>, 0x420088>,
        >(
            state,
            &self.operations,
            &self.object_types,
            &self.vendor_identification,
            &self.server_information,
        )?;
        W::four::<
            Any<LeafItem<String<A>, 0x420003>, 0x420003>,
            Any<Of<Kept<A>, 0x4200A4>, 0x4200A4>,
            Any<LeafItem<u32, 0x4200C7>, 0x4200C7>,
            Any<Of<Kept<A>, 0x4200D9>, 0x4200D9>,
        >(
            state,
            &self.application_namespaces,
            &self.extensions,
            &self.attestation_types,
            &self.rng_parameters,
        )?;
        W::four::<
            Any<Of<Kept<A>, 0x4200EB>, 0x4200EB>,
            Any<Of<Kept<A>, 0x4200DF>, 0x4200DF>,
            Any<Of<Kept<A>, 0x4200F7>, 0x4200F7>,
            Any<LeafItem<u32, 0x4200F6>, 0x4200F6>,
        >(
            state,
            &self.profiles,
            &self.validations,
            &self.capabilities,
            &self.client_registration_methods,
        )?;
        W::kept(state, &self.other_items)?;
        W::check(state, self);
        Ok(())
    }
}

/// Which versions a server has (KMIP 1.1, section 4.26).
#[derive(Drop)]
#[derive_where(PartialEq)]
pub struct DiscoverVersionsResponse<A: Allocator = Global> {
    /// The versions, the best first.
    pub versions: Vec<ProtocolVersion, A>,
}

type DiscoverVersionsResponseParts = Alone<Any<Of<ProtocolVersion, 0x420069>, 0x420069>>;

impl<A: Allocator + Copy> FromParts<A, DiscoverVersionsResponseParts>
    for DiscoverVersionsResponse<A> {
    ghost parts = { λ x. x.versions };

    fn from_parts(versions: Holds<DiscoverVersionsResponseParts, A>) -> Self {
        DiscoverVersionsResponse { versions }
    }
}

impl<A: Allocator + Copy> Structure<A> for DiscoverVersionsResponse<A> {
    ghost rules = { structure true ⟦<DiscoverVersionsResponseParts as PartList<A>>⟧.rules ⟦<DiscoverVersionsResponse<A> as FromParts<A, DiscoverVersionsResponseParts>>⟧.parts refl ⟦<DiscoverVersionsResponse<A> as PartialEq>⟧.eq (λ x y e. e) };

    fn read<'b>(scope: &Scope<'b, A>, tag: u32, cursor: &mut Cursor<'b, A>) -> Step<Self, A> {
        read_structure::<DiscoverVersionsResponseParts, Self, A>(scope, tag, true, cursor)
    }

    fn tell_parts<W: Walk<A>>(&self, state: &mut W::State) -> Result<(), AllocError> {
        W::one::<Any<Of<ProtocolVersion, 0x420069>, 0x420069>>(state, &self.versions)
    }
}

/// An object may be used so, but for what is here (section 4.9).
#[derive(Drop)]
#[derive_where(PartialEq)]
pub struct CheckResponse<A: Allocator = Global> {
    /// Its identifier.
    pub unique_identifier: String<A>,
    /// It may not be used so often, or for so many bytes.
    pub usage_limits_count: Option<i64>,
    /// It may not be used for this.
    pub cryptographic_usage_mask: Option<i32>,
    /// It may not be used for so long, in seconds.
    pub lease_time: Option<Interval>,
    /// What stands behind these, whatever it is.
    pub other_items: Kept<A>,
}

impl<A: Allocator + Copy> Decided for CheckResponse<A> {
    ghost IsDecided = { λ x. IsApart ⟦<CheckResponseParts<A> as PartList<A>>⟧.rules ⟦<CheckResponse<A> as FromParts<A, CheckResponseParts<A>>>⟧.parts x };

    fn is_decided(&self) -> bool {
        is_apart::<CheckResponseParts<A>, A>(&self.other_items)
    }
}

type CheckResponseFirst<A> = (
    Leaf<String<A>, 0x420094>,
    MaybeLeaf<i64, 0x420096>,
    MaybeLeaf<i32, 0x42002C>,
    MaybeLeaf<Interval, 0x420049>,
);

type CheckResponseParts<A> = Four<CheckResponseFirst<A>, Rest>;

impl<A: Allocator + Copy> FromParts<A, CheckResponseParts<A>> for CheckResponse<A> {
    ghost parts = { λ x. (x.unique_identifier, x.usage_limits_count, x.cryptographic_usage_mask, x.lease_time, x.other_items) };

    fn from_parts(
        (
            unique_identifier,
            usage_limits_count,
            cryptographic_usage_mask,
            lease_time,
            other_items,
        ): Holds<CheckResponseParts<A>, A>,
    ) -> Self {
        CheckResponse {
            unique_identifier,
            usage_limits_count,
            cryptographic_usage_mask,
            lease_time,
            other_items,
        }
    }
}

impl<A: Allocator + Copy> Structure<A> for CheckResponse<A> {
    ghost rules = { keeping_structure ⟦<CheckResponseParts<A> as PartList<A>>⟧.rules ⟦<CheckResponse<A> as FromParts<A, CheckResponseParts<A>>>⟧.parts refl ⟦<CheckResponse<A> as PartialEq>⟧.eq (λ x y e. e) };

    fn read<'b>(scope: &Scope<'b, A>, tag: u32, cursor: &mut Cursor<'b, A>) -> Step<Self, A> {
        read_structure::<CheckResponseParts<A>, Self, A>(scope, tag, true, cursor)
    }

    fn tell_parts<W: Walk<A>>(&self, state: &mut W::State) -> Result<(), AllocError> {
        W::four::<
            Leaf<String<A>, 0x420094>,
            MaybeLeaf<i64, 0x420096>,
            MaybeLeaf<i32, 0x42002C>,
            MaybeLeaf<Interval, 0x420049>,
        >(
            state,
            &self.unique_identifier,
            &self.usage_limits_count,
            &self.cryptographic_usage_mask,
            &self.lease_time,
        )?;
        W::kept(state, &self.other_items)?;
        W::check(state, self);
        Ok(())
    }
}

/// How long an object may be used (section 4.16).
#[derive(Drop)]
#[derive_where(PartialEq)]
pub struct ObtainLeaseResponse<A: Allocator = Global> {
    /// Its identifier.
    pub unique_identifier: String<A>,
    /// For so long, in seconds.
    pub lease_time: Interval,
    /// When its attributes were changed last.
    pub last_change_date: DateTime,
    /// What stands behind these, whatever it is.
    pub other_items: Kept<A>,
}

impl<A: Allocator + Copy> Decided for ObtainLeaseResponse<A> {
    ghost IsDecided = { λ x. IsApart ⟦<ObtainLeaseResponseParts<A> as PartList<A>>⟧.rules ⟦<ObtainLeaseResponse<A> as FromParts<A, ObtainLeaseResponseParts<A>>>⟧.parts x };

    fn is_decided(&self) -> bool {
        is_apart::<ObtainLeaseResponseParts<A>, A>(&self.other_items)
    }
}

type ObtainLeaseResponseParts<A> = Before<
    Leaf<String<A>, 0x420094>,
    Before<Leaf<Interval, 0x420049>, Before<Leaf<DateTime, 0x420048>, Rest>>,
>;

impl<A: Allocator + Copy> FromParts<A, ObtainLeaseResponseParts<A>> for ObtainLeaseResponse<A> {
    ghost parts = { λ x. (x.unique_identifier, (x.lease_time, (x.last_change_date, x.other_items))) };

    fn from_parts(
        (unique_identifier, (lease_time, (last_change_date, other_items))): Holds<
            ObtainLeaseResponseParts<A>,
            A,
        >,
    ) -> Self {
        ObtainLeaseResponse {
            unique_identifier,
            lease_time,
            last_change_date,
            other_items,
        }
    }
}

impl<A: Allocator + Copy> Structure<A> for ObtainLeaseResponse<A> {
    ghost rules = { keeping_structure ⟦<ObtainLeaseResponseParts<A> as PartList<A>>⟧.rules ⟦<ObtainLeaseResponse<A> as FromParts<A, ObtainLeaseResponseParts<A>>>⟧.parts refl ⟦<ObtainLeaseResponse<A> as PartialEq>⟧.eq (λ x y e. e) };

    fn read<'b>(scope: &Scope<'b, A>, tag: u32, cursor: &mut Cursor<'b, A>) -> Step<Self, A> {
        read_structure::<ObtainLeaseResponseParts<A>, Self, A>(scope, tag, true, cursor)
    }

    fn tell_parts<W: Walk<A>>(&self, state: &mut W::State) -> Result<(), AllocError> {
        W::one::<Leaf<String<A>, 0x420094>>(state, &self.unique_identifier)?;
        W::one::<Leaf<Interval, 0x420049>>(state, &self.lease_time)?;
        W::one::<Leaf<DateTime, 0x420048>>(state, &self.last_change_date)?;
        W::kept(state, &self.other_items)?;
        W::check(state, self);
        Ok(())
    }
}

/// What became of an operation that was to be given up (section 9.1.3.2.24).
pub type CancellationResult = Enumeration<0x420012>;

/// The numbers of `CancellationResult` that have a name.
pub mod cancellation_result {
    use super::CancellationResult;

    /// It was given up.
    pub const CANCELED: CancellationResult = CancellationResult { number: 0x00000001 };
    /// It goes on.
    pub const UNABLE_TO_CANCEL: CancellationResult = CancellationResult { number: 0x00000002 };
    /// It was done.
    pub const COMPLETED: CancellationResult = CancellationResult { number: 0x00000003 };
    /// It had failed.
    pub const FAILED: CancellationResult = CancellationResult { number: 0x00000004 };
    /// It isn't known.
    pub const UNAVAILABLE: CancellationResult = CancellationResult { number: 0x00000005 };
}

/// What became of an operation that was to be given up (section 4.25).
#[derive(Drop)]
#[derive_where(PartialEq)]
pub struct CancelResponse<A: Allocator = Global> {
    /// What names it.
    pub asynchronous_correlation_value: Vec<u8, A>,
    /// What became of it.
    pub cancellation_result: CancellationResult,
    /// What stands behind these, whatever it is.
    pub other_items: Kept<A>,
}

impl<A: Allocator + Copy> Decided for CancelResponse<A> {
    ghost IsDecided = { λ x. IsApart ⟦<CancelResponseParts<A> as PartList<A>>⟧.rules ⟦<CancelResponse<A> as FromParts<A, CancelResponseParts<A>>>⟧.parts x };

    fn is_decided(&self) -> bool {
        is_apart::<CancelResponseParts<A>, A>(&self.other_items)
    }
}

type CancelResponseParts<A> = Before<
    Leaf<Vec<u8, A>, 0x420006>,
    Before<One<CancellationResult>, Rest>,
>;

impl<A: Allocator + Copy> FromParts<A, CancelResponseParts<A>> for CancelResponse<A> {
    ghost parts = { λ x. (x.asynchronous_correlation_value, (x.cancellation_result, x.other_items)) };

    fn from_parts(
        (asynchronous_correlation_value, (cancellation_result, other_items)): Holds<
            CancelResponseParts<A>,
            A,
        >,
    ) -> Self {
        CancelResponse {
            asynchronous_correlation_value,
            cancellation_result,
            other_items,
        }
    }
}

impl<A: Allocator + Copy> Structure<A> for CancelResponse<A> {
    ghost rules = { keeping_structure ⟦<CancelResponseParts<A> as PartList<A>>⟧.rules ⟦<CancelResponse<A> as FromParts<A, CancelResponseParts<A>>>⟧.parts refl ⟦<CancelResponse<A> as PartialEq>⟧.eq (λ x y e. e) };

    fn read<'b>(scope: &Scope<'b, A>, tag: u32, cursor: &mut Cursor<'b, A>) -> Step<Self, A> {
        read_structure::<CancelResponseParts<A>, Self, A>(scope, tag, true, cursor)
    }

    fn tell_parts<W: Walk<A>>(&self, state: &mut W::State) -> Result<(), AllocError> {
        W::one::<Leaf<Vec<u8, A>, 0x420006>>(state, &self.asynchronous_correlation_value)?;
        W::one::<One<CancellationResult>>(state, &self.cancellation_result)?;
        W::kept(state, &self.other_items)?;
        W::check(state, self);
        Ok(())
    }
}

/// Whether a signature, a MAC or a certificate is valid (section 9.1.3.2.22).
pub type ValidityIndicator = Enumeration<0x42009B>;

/// The numbers of `ValidityIndicator` that have a name.
pub mod validity_indicator {
    use super::ValidityIndicator;

    /// It is.
    pub const VALID: ValidityIndicator = ValidityIndicator { number: 0x00000001 };
    /// It isn't.
    pub const INVALID: ValidityIndicator = ValidityIndicator { number: 0x00000002 };
    /// That can't be said.
    pub const UNKNOWN: ValidityIndicator = ValidityIndicator { number: 0x00000003 };
}

/// Data was encrypted, decrypted, signed or hashed, or a signature or a MAC of it checked (KMIP 1.2, sections 4.29 to 4.37). Each operation has some of these.
#[derive(Drop)]
#[derive_where(PartialEq)]
pub struct CryptographicResponse<A: Allocator = Global> {
    /// The key; absent for a hash.
    pub unique_identifier: Option<String<A>>,
    /// Whether the signature or the MAC is valid.
    pub validity_indicator: Option<ValidityIndicator>,
    /// The data.
    pub data: Option<Vec<u8, A>>,
    /// The signature.
    pub signature_data: Option<Vec<u8, A>>,
    /// The MAC.
    pub mac_data: Option<Vec<u8, A>>,
    /// What encryption began with.
    pub iv_counter_nonce: Option<Vec<u8, A>>,
    /// What names the parts before this (KMIP 1.3).
    pub correlation_value: Option<Vec<u8, A>>,
    /// What authenticates what was encrypted (KMIP 1.4).
    pub authenticated_encryption_tag: Option<Vec<u8, A>>,
    /// What stands behind these, whatever it is.
    pub other_items: Kept<A>,
}

impl<A: Allocator + Copy> Decided for CryptographicResponse<A> {
    ghost IsDecided = { λ x. IsApart ⟦<CryptographicResponseParts<A> as PartList<A>>⟧.rules ⟦<CryptographicResponse<A> as FromParts<A, CryptographicResponseParts<A>>>⟧.parts x };

    fn is_decided(&self) -> bool {
        is_apart::<CryptographicResponseParts<A>, A>(&self.other_items)
    }
}

type CryptographicResponseFirst<A> = (
    MaybeLeaf<String<A>, 0x420094>,
    Maybe<ValidityIndicator, 0x42009B>,
    MaybeLeaf<Vec<u8, A>, 0x4200C2>,
    MaybeLeaf<Vec<u8, A>, 0x4200C3>,
);

type CryptographicResponseSecond<A> = (
    MaybeLeaf<Vec<u8, A>, 0x4200C6>,
    MaybeLeaf<Vec<u8, A>, 0x42003D>,
    MaybeLeaf<Vec<u8, A>, 0x4200D6>,
    MaybeLeaf<Vec<u8, A>, 0x4200FF>,
);

type CryptographicResponseParts<A> = Four<
    CryptographicResponseFirst<A>,
    Four<CryptographicResponseSecond<A>, Rest>,
>;

impl<A: Allocator + Copy> FromParts<A, CryptographicResponseParts<A>> for CryptographicResponse<A> {
    ghost parts = { λ x. (x.unique_identifier, x.validity_indicator, x.data, x.signature_data, (x.mac_data, x.iv_counter_nonce, x.correlation_value, x.authenticated_encryption_tag, x.other_items)) };

    fn from_parts(
        (
            unique_identifier,
            validity_indicator,
            data,
            signature_data,
            (
                mac_data,
                iv_counter_nonce,
                correlation_value,
                authenticated_encryption_tag,
                other_items,
            ),
        ): Holds<CryptographicResponseParts<A>, A>,
    ) -> Self {
        CryptographicResponse {
            unique_identifier,
            validity_indicator,
            data,
            signature_data,
            mac_data,
            iv_counter_nonce,
            correlation_value,
            authenticated_encryption_tag,
            other_items,
        }
    }
}

impl<A: Allocator + Copy> Structure<A> for CryptographicResponse<A> {
    ghost rules = { keeping_structure ⟦<CryptographicResponseParts<A> as PartList<A>>⟧.rules ⟦<CryptographicResponse<A> as FromParts<A, CryptographicResponseParts<A>>>⟧.parts refl ⟦<CryptographicResponse<A> as PartialEq>⟧.eq (λ x y e. e) };

    fn read<'b>(scope: &Scope<'b, A>, tag: u32, cursor: &mut Cursor<'b, A>) -> Step<Self, A> {
        read_structure::<CryptographicResponseParts<A>, Self, A>(scope, tag, true, cursor)
    }

    fn tell_parts<W: Walk<A>>(&self, state: &mut W::State) -> Result<(), AllocError> {
        W::four::<
            MaybeLeaf<String<A>, 0x420094>,
            Maybe<ValidityIndicator, 0x42009B>,
            MaybeLeaf<Vec<u8, A>, 0x4200C2>,
            MaybeLeaf<Vec<u8, A>, 0x4200C3>,
        >(
            state,
            &self.unique_identifier,
            &self.validity_indicator,
            &self.data,
            &self.signature_data,
        )?;
        W::four::<
            MaybeLeaf<Vec<u8, A>, 0x4200C6>,
            MaybeLeaf<Vec<u8, A>, 0x42003D>,
            MaybeLeaf<Vec<u8, A>, 0x4200D6>,
            MaybeLeaf<Vec<u8, A>, 0x4200FF>,
        >(
            state,
            &self.mac_data,
            &self.iv_counter_nonce,
            &self.correlation_value,
            &self.authenticated_encryption_tag,
        )?;
        W::kept(state, &self.other_items)?;
        W::check(state, self);
        Ok(())
    }
}

/// An object, as another server is to have it (KMIP 1.4).
#[derive(Drop)]
#[derive_where(PartialEq)]
pub struct ExportResponse<A: Allocator = Global> {
    /// What it is.
    pub object_type: ObjectType,
    /// Its identifier.
    pub unique_identifier: String<A>,
    /// What is known of it, in KMIP 1.4.
    pub attributes: Vec<Attribute<A>, A>,
    /// What is known of it, by tags (KMIP 2.0).
    pub attributes_by_tag: Option<Kept<A>>,
    /// A certificate.
    pub certificate: Option<Certificate<A>>,
    /// A symmetric key.
    pub symmetric_key: Option<Boxed<SymmetricKey<A>, A>>,
    /// A public key.
    pub public_key: Option<Boxed<PublicKey<A>, A>>,
    /// A private key.
    pub private_key: Option<Boxed<PrivateKey<A>, A>>,
    /// One of the parts that a key was split into.
    pub split_key: Option<Boxed<SplitKey<A>, A>>,
    /// Attributes that other objects are made with.
    pub template: Option<Template<A>>,
    /// A secret that is no key.
    pub secret_data: Option<Boxed<SecretData<A>, A>>,
    /// Bytes that the server doesn't interpret.
    pub opaque_object: Option<OpaqueObject<A>>,
}

impl<A: Allocator> ExportResponse<A> {
    /// The object. None if none is there, or more than one.
    pub fn object(&self) -> Option<ManagedObject<'_, A>>
        ensures { IsExportResponseObject self.now result }
    {
        match (
            &self.certificate,
            &self.symmetric_key,
            &self.public_key,
            &self.private_key,
            &self.split_key,
            &self.template,
            &self.secret_data,
            &self.opaque_object,
        ) {
            (Some(inner), None, None, None, None, None, None, None) => Some(
                ManagedObject::Certificate(inner),
            ),
            (None, Some(inner), None, None, None, None, None, None) => Some(
                ManagedObject::SymmetricKey(inner.inner.as_ref()),
            ),
            (None, None, Some(inner), None, None, None, None, None) => Some(
                ManagedObject::PublicKey(inner.inner.as_ref()),
            ),
            (None, None, None, Some(inner), None, None, None, None) => Some(
                ManagedObject::PrivateKey(inner.inner.as_ref()),
            ),
            (None, None, None, None, Some(inner), None, None, None) => Some(ManagedObject::SplitKey(
                inner.inner.as_ref(),
            )),
            (None, None, None, None, None, Some(inner), None, None) => Some(ManagedObject::Template(
                inner,
            )),
            (None, None, None, None, None, None, Some(inner), None) => Some(
                ManagedObject::SecretData(inner.inner.as_ref()),
            ),
            (None, None, None, None, None, None, None, Some(inner)) => Some(
                ManagedObject::OpaqueObject(inner),
            ),
            _ => None,
        }
    }
}

impl<A: Allocator> Decided for ExportResponse<A> {
    ghost IsDecided = { λ x. (there x.certificate + (there x.symmetric_key + (there x.public_key + (there x.private_key + (there x.split_key + (there x.template + (there x.secret_data + there x.opaque_object)))))) ≡ 1) };

    fn is_decided(&self) -> bool {
        self.object().is_some()
    }
}

type ExportResponseFirst<A> = (
    One<ObjectType>,
    Leaf<String<A>, 0x420094>,
    Any<Of<Attribute<A>, 0x420008>, 0x420008>,
    Maybe<Of<Kept<A>, 0x420125>, 0x420125>,
);

type ExportResponseSecond<A> = (
    Maybe<Of<Certificate<A>, 0x420013>, 0x420013>,
    Maybe<InBox<Of<SymmetricKey<A>, 0x42008F>>, 0x42008F>,
    Maybe<InBox<Of<PublicKey<A>, 0x42006D>>, 0x42006D>,
    Maybe<InBox<Of<PrivateKey<A>, 0x420064>>, 0x420064>,
);

type ExportResponseThird<A> = (
    Maybe<InBox<Of<SplitKey<A>, 0x420089>>, 0x420089>,
    Maybe<Of<Template<A>, 0x420090>, 0x420090>,
    Maybe<InBox<Of<SecretData<A>, 0x420085>>, 0x420085>,
    Maybe<Of<OpaqueObject<A>, 0x42005B>, 0x42005B>,
);

type ExportResponseParts<A> = Four<
    ExportResponseFirst<A>,
    Four<ExportResponseSecond<A>, ExportResponseThird<A>>,
>;

impl<A: Allocator + Copy> FromParts<A, ExportResponseParts<A>> for ExportResponse<A> {
    ghost parts = { λ x. (x.object_type, x.unique_identifier, x.attributes, x.attributes_by_tag, (x.certificate, x.symmetric_key, x.public_key, x.private_key, (x.split_key, x.template, x.secret_data, x.opaque_object))) };

    fn from_parts(
        (
            object_type,
            unique_identifier,
            attributes,
            attributes_by_tag,
            (
                certificate,
                symmetric_key,
                public_key,
                private_key,
                (split_key, template, secret_data, opaque_object),
            ),
        ): Holds<ExportResponseParts<A>, A>,
    ) -> Self {
        ExportResponse {
            object_type,
            unique_identifier,
            attributes,
            attributes_by_tag,
            certificate,
            symmetric_key,
            public_key,
            private_key,
            split_key,
            template,
            secret_data,
            opaque_object,
        }
    }
}

impl<A: Allocator + Copy> Structure<A> for ExportResponse<A> {
    ghost rules = { structure_where true ⟦<ExportResponseParts<A> as PartList<A>>⟧.rules ⟦<ExportResponse<A> as FromParts<A, ExportResponseParts<A>>>⟧.parts refl
        (λ x. (there x.certificate + (there x.symmetric_key + (there x.public_key + (there x.private_key + (there x.split_key + (there x.template + (there x.secret_data + there x.opaque_object)))))) ≡ 1)) (λ x d. (tt, (tt, (tt, (tt, (tt, (tt, (tt, (tt, (tt, (tt, (tt, (tt))))))))))))) ⟦<ExportResponse<A> as PartialEq>⟧.eq (λ x y e. e) };

    fn read<'b>(scope: &Scope<'b, A>, tag: u32, cursor: &mut Cursor<'b, A>) -> Step<Self, A> {
        read_structure::<ExportResponseParts<A>, Self, A>(scope, tag, true, cursor)
    }

    fn tell_parts<W: Walk<A>>(&self, state: &mut W::State) -> Result<(), AllocError> {
        W::four::<
            One<ObjectType>,
            Leaf<String<A>, 0x420094>,
            Any<Of<Attribute<A>, 0x420008>, 0x420008>,
            Maybe<Of<Kept<A>, 0x420125>, 0x420125>,
        >(
            state,
            &self.object_type,
            &self.unique_identifier,
            &self.attributes,
            &self.attributes_by_tag,
        )?;
        W::four::<
            Maybe<Of<Certificate<A>, 0x420013>, 0x420013>,
            Maybe<InBox<Of<SymmetricKey<A>, 0x42008F>>, 0x42008F>,
            Maybe<InBox<Of<PublicKey<A>, 0x42006D>>, 0x42006D>,
            Maybe<InBox<Of<PrivateKey<A>, 0x420064>>, 0x420064>,
        >(
            state,
            &self.certificate,
            &self.symmetric_key,
            &self.public_key,
            &self.private_key,
        )?;
        W::four::<
            Maybe<InBox<Of<SplitKey<A>, 0x420089>>, 0x420089>,
            Maybe<Of<Template<A>, 0x420090>, 0x420090>,
            Maybe<InBox<Of<SecretData<A>, 0x420085>>, 0x420085>,
            Maybe<Of<OpaqueObject<A>, 0x42005B>, 0x42005B>,
        >(
            state,
            &self.split_key,
            &self.template,
            &self.secret_data,
            &self.opaque_object,
        )?;
        W::check(state, self);
        Ok(())
    }
}

/// A ticket, by which a client's later requests go (KMIP 2.0).
#[derive(Drop)]
#[derive_where(PartialEq)]
pub struct LoginResponse<A: Allocator = Global> {
    /// The ticket.
    pub ticket: Ticket<A>,
    /// What stands behind these, whatever it is.
    pub other_items: Kept<A>,
}

impl<A: Allocator + Copy> Decided for LoginResponse<A> {
    ghost IsDecided = { λ x. IsApart ⟦<LoginResponseParts<A> as PartList<A>>⟧.rules ⟦<LoginResponse<A> as FromParts<A, LoginResponseParts<A>>>⟧.parts x };

    fn is_decided(&self) -> bool {
        is_apart::<LoginResponseParts<A>, A>(&self.other_items)
    }
}

type LoginResponseParts<A> = Before<One<Of<Ticket<A>, 0x420149>>, Rest>;

impl<A: Allocator + Copy> FromParts<A, LoginResponseParts<A>> for LoginResponse<A> {
    ghost parts = { λ x. (x.ticket, x.other_items) };

    fn from_parts((ticket, other_items): Holds<LoginResponseParts<A>, A>) -> Self {
        LoginResponse {
            ticket,
            other_items,
        }
    }
}

impl<A: Allocator + Copy> Structure<A> for LoginResponse<A> {
    ghost rules = { keeping_structure ⟦<LoginResponseParts<A> as PartList<A>>⟧.rules ⟦<LoginResponse<A> as FromParts<A, LoginResponseParts<A>>>⟧.parts refl ⟦<LoginResponse<A> as PartialEq>⟧.eq (λ x y e. e) };

    fn read<'b>(scope: &Scope<'b, A>, tag: u32, cursor: &mut Cursor<'b, A>) -> Step<Self, A> {
        read_structure::<LoginResponseParts<A>, Self, A>(scope, tag, true, cursor)
    }

    fn tell_parts<W: Walk<A>>(&self, state: &mut W::State) -> Result<(), AllocError> {
        W::one::<One<Of<Ticket<A>, 0x420149>>>(state, &self.ticket)?;
        W::kept(state, &self.other_items)?;
        W::check(state, self);
        Ok(())
    }
}

/// What was done.
#[derive(Drop)]
#[derive_where(PartialEq)]
pub enum ResponsePayload<A: Allocator = Global> {
    /// A symmetric key was made.
    Create(CreateResponse<A>),
    /// A public and a private key were made.
    CreateKeyPair(Boxed<CreateKeyPairResponse<A>, A>),
    /// An object is kept.
    Register(RegisterResponse<A>),
    /// A key was made in place of another.
    ReKey(RegisterResponse<A>),
    /// A key was made of others.
    DeriveKey(RegisterResponse<A>),
    /// Which objects were found.
    Locate(LocateResponse<A>),
    /// How an object may not be used.
    Check(CheckResponse<A>),
    /// An object.
    Get(Boxed<GetResponse<A>, A>),
    /// What is known of an object.
    GetAttributes(GetAttributesResponse<A>),
    /// The names of what is known.
    GetAttributeList(GetAttributeListResponse<A>),
    /// An attribute was added.
    AddAttribute(Boxed<AttributeResponse<A>, A>),
    /// An attribute was changed.
    ModifyAttribute(Boxed<AttributeResponse<A>, A>),
    /// An attribute was deleted.
    DeleteAttribute(Boxed<AttributeResponse<A>, A>),
    /// How long an object may be used.
    ObtainLease(ObtainLeaseResponse<A>),
    /// It may be used so much.
    GetUsageAllocation(ObjectResponse<A>),
    /// An object is in use.
    Activate(ObjectResponse<A>),
    /// An object is no longer used.
    Revoke(ObjectResponse<A>),
    /// An object is destroyed.
    Destroy(ObjectResponse<A>),
    /// An object was put away.
    Archive(ObjectResponse<A>),
    /// It was brought back.
    Recover(ObjectResponse<A>),
    /// What the server can do.
    Query(Boxed<QueryResponse<A>, A>),
    /// What became of an operation.
    Cancel(CancelResponse<A>),
    /// A public and a private key were made in place of others.
    ReKeyKeyPair(Boxed<CreateKeyPairResponse<A>, A>),
    /// Which versions the server has.
    DiscoverVersions(DiscoverVersionsResponse<A>),
    /// Data was encrypted.
    Encrypt(Boxed<CryptographicResponse<A>, A>),
    /// Data was decrypted.
    Decrypt(Boxed<CryptographicResponse<A>, A>),
    /// Data was signed.
    Sign(Boxed<CryptographicResponse<A>, A>),
    /// Whether a signature is valid.
    SignatureVerify(Boxed<CryptographicResponse<A>, A>),
    /// A MAC was made of data.
    Mac(Boxed<CryptographicResponse<A>, A>),
    /// Whether a MAC is valid.
    MacVerify(Boxed<CryptographicResponse<A>, A>),
    /// A hash was made of data.
    Hash(Boxed<CryptographicResponse<A>, A>),
    /// An object is kept as another server had it.
    Import(ObjectResponse<A>),
    /// An object, as another server is to have it.
    Export(Boxed<ExportResponse<A>, A>),
    /// A ticket.
    Login(LoginResponse<A>),
    /// What any other operation did.
    Other(Kept<A>),
}

// The texts that choose a variant, whatever the type of its item is.
const RESPONSE_PAYLOAD_NAMES: [&str; 34] = [
    "0x00000001",
    "0x00000002",
    "0x00000003",
    "0x00000004",
    "0x00000005",
    "0x00000008",
    "0x00000009",
    "0x0000000A",
    "0x0000000B",
    "0x0000000C",
    "0x0000000D",
    "0x0000000E",
    "0x0000000F",
    "0x00000010",
    "0x00000011",
    "0x00000012",
    "0x00000013",
    "0x00000014",
    "0x00000015",
    "0x00000016",
    "0x00000018",
    "0x00000019",
    "0x0000001D",
    "0x0000001E",
    "0x0000001F",
    "0x00000020",
    "0x00000021",
    "0x00000022",
    "0x00000023",
    "0x00000024",
    "0x00000027",
    "0x0000002A",
    "0x0000002B",
    "0x0000002D",
];

// Whether a text is none of these.
fn is_no_response_payload(text: &str) -> bool
    ensures { IsTrue result ↔ IsNoneOf text.now response_payload_names }
{
    is_none_of(text, &RESPONSE_PAYLOAD_NAMES)
}

impl<A: Allocator> ResponsePayload<A> {
    /// Whether this text, if it is that of 0x42005C, chooses it.
    pub fn is_chosen_by(&self, text: &str) -> bool
        ensures { IsTrue result ↔ ChoosesResponsePayload text.now self.now }
    {
        match self {
            ResponsePayload::Create(_) => text == "0x00000001",
            ResponsePayload::CreateKeyPair(_) => text == "0x00000002",
            ResponsePayload::Register(_) => text == "0x00000003",
            ResponsePayload::ReKey(_) => text == "0x00000004",
            ResponsePayload::DeriveKey(_) => text == "0x00000005",
            ResponsePayload::Locate(_) => text == "0x00000008",
            ResponsePayload::Check(_) => text == "0x00000009",
            ResponsePayload::Get(_) => text == "0x0000000A",
            ResponsePayload::GetAttributes(_) => text == "0x0000000B",
            ResponsePayload::GetAttributeList(_) => text == "0x0000000C",
            ResponsePayload::AddAttribute(_) => text == "0x0000000D",
            ResponsePayload::ModifyAttribute(_) => text == "0x0000000E",
            ResponsePayload::DeleteAttribute(_) => text == "0x0000000F",
            ResponsePayload::ObtainLease(_) => text == "0x00000010",
            ResponsePayload::GetUsageAllocation(_) => text == "0x00000011",
            ResponsePayload::Activate(_) => text == "0x00000012",
            ResponsePayload::Revoke(_) => text == "0x00000013",
            ResponsePayload::Destroy(_) => text == "0x00000014",
            ResponsePayload::Archive(_) => text == "0x00000015",
            ResponsePayload::Recover(_) => text == "0x00000016",
            ResponsePayload::Query(_) => text == "0x00000018",
            ResponsePayload::Cancel(_) => text == "0x00000019",
            ResponsePayload::ReKeyKeyPair(_) => text == "0x0000001D",
            ResponsePayload::DiscoverVersions(_) => text == "0x0000001E",
            ResponsePayload::Encrypt(_) => text == "0x0000001F",
            ResponsePayload::Decrypt(_) => text == "0x00000020",
            ResponsePayload::Sign(_) => text == "0x00000021",
            ResponsePayload::SignatureVerify(_) => text == "0x00000022",
            ResponsePayload::Mac(_) => text == "0x00000023",
            ResponsePayload::MacVerify(_) => text == "0x00000024",
            ResponsePayload::Hash(_) => text == "0x00000027",
            ResponsePayload::Import(_) => text == "0x0000002A",
            ResponsePayload::Export(_) => text == "0x0000002B",
            ResponsePayload::Login(_) => text == "0x0000002D",
            ResponsePayload::Other(_) => is_no_response_payload(text),
        }
    }
}

// The rules of the variants, in their order.
const RESPONSE_PAYLOAD_RULES: [RuleParts; 35] = [
    RuleParts::Texts {
        tag: 0x42005C,
        texts: &["0x00000001"],
    },
    RuleParts::Texts {
        tag: 0x42005C,
        texts: &["0x00000002"],
    },
    RuleParts::Texts {
        tag: 0x42005C,
        texts: &["0x00000003"],
    },
    RuleParts::Texts {
        tag: 0x42005C,
        texts: &["0x00000004"],
    },
    RuleParts::Texts {
        tag: 0x42005C,
        texts: &["0x00000005"],
    },
    RuleParts::Texts {
        tag: 0x42005C,
        texts: &["0x00000008"],
    },
    RuleParts::Texts {
        tag: 0x42005C,
        texts: &["0x00000009"],
    },
    RuleParts::Texts {
        tag: 0x42005C,
        texts: &["0x0000000A"],
    },
    RuleParts::Texts {
        tag: 0x42005C,
        texts: &["0x0000000B"],
    },
    RuleParts::Texts {
        tag: 0x42005C,
        texts: &["0x0000000C"],
    },
    RuleParts::Texts {
        tag: 0x42005C,
        texts: &["0x0000000D"],
    },
    RuleParts::Texts {
        tag: 0x42005C,
        texts: &["0x0000000E"],
    },
    RuleParts::Texts {
        tag: 0x42005C,
        texts: &["0x0000000F"],
    },
    RuleParts::Texts {
        tag: 0x42005C,
        texts: &["0x00000010"],
    },
    RuleParts::Texts {
        tag: 0x42005C,
        texts: &["0x00000011"],
    },
    RuleParts::Texts {
        tag: 0x42005C,
        texts: &["0x00000012"],
    },
    RuleParts::Texts {
        tag: 0x42005C,
        texts: &["0x00000013"],
    },
    RuleParts::Texts {
        tag: 0x42005C,
        texts: &["0x00000014"],
    },
    RuleParts::Texts {
        tag: 0x42005C,
        texts: &["0x00000015"],
    },
    RuleParts::Texts {
        tag: 0x42005C,
        texts: &["0x00000016"],
    },
    RuleParts::Texts {
        tag: 0x42005C,
        texts: &["0x00000018"],
    },
    RuleParts::Texts {
        tag: 0x42005C,
        texts: &["0x00000019"],
    },
    RuleParts::Texts {
        tag: 0x42005C,
        texts: &["0x0000001D"],
    },
    RuleParts::Texts {
        tag: 0x42005C,
        texts: &["0x0000001E"],
    },
    RuleParts::Texts {
        tag: 0x42005C,
        texts: &["0x0000001F"],
    },
    RuleParts::Texts {
        tag: 0x42005C,
        texts: &["0x00000020"],
    },
    RuleParts::Texts {
        tag: 0x42005C,
        texts: &["0x00000021"],
    },
    RuleParts::Texts {
        tag: 0x42005C,
        texts: &["0x00000022"],
    },
    RuleParts::Texts {
        tag: 0x42005C,
        texts: &["0x00000023"],
    },
    RuleParts::Texts {
        tag: 0x42005C,
        texts: &["0x00000024"],
    },
    RuleParts::Texts {
        tag: 0x42005C,
        texts: &["0x00000027"],
    },
    RuleParts::Texts {
        tag: 0x42005C,
        texts: &["0x0000002A"],
    },
    RuleParts::Texts {
        tag: 0x42005C,
        texts: &["0x0000002B"],
    },
    RuleParts::Texts {
        tag: 0x42005C,
        texts: &["0x0000002D"],
    },
    RuleParts::Type(TtlvType::Structure),
];

impl<A: Allocator + Copy> Choice<A> for ResponsePayload<A> {
    ghost chosen = { response_payload_choice ⟦<ResponsePayload<A> as PartialEq>⟧.eq record {
      create = held ⟦<Of<CreateResponse<A>, 0x42007C> as Element<A>>⟧.rules refl refl (λ x y e. e);
      create_key_pair = held ⟦<InBox<Of<CreateKeyPairResponse<A>, 0x42007C>> as Element<A>>⟧.rules refl refl (λ x y e. e);
      register = held ⟦<Of<RegisterResponse<A>, 0x42007C> as Element<A>>⟧.rules refl refl (λ x y e. e);
      re_key = held ⟦<Of<RegisterResponse<A>, 0x42007C> as Element<A>>⟧.rules refl refl (λ x y e. e);
      derive_key = held ⟦<Of<RegisterResponse<A>, 0x42007C> as Element<A>>⟧.rules refl refl (λ x y e. e);
      locate = held ⟦<Of<LocateResponse<A>, 0x42007C> as Element<A>>⟧.rules refl refl (λ x y e. e);
      check = held ⟦<Of<CheckResponse<A>, 0x42007C> as Element<A>>⟧.rules refl refl (λ x y e. e);
      get = held ⟦<InBox<Of<GetResponse<A>, 0x42007C>> as Element<A>>⟧.rules refl refl (λ x y e. e);
      get_attributes = held ⟦<Of<GetAttributesResponse<A>, 0x42007C> as Element<A>>⟧.rules refl refl (λ x y e. e);
      get_attribute_list = held ⟦<Of<GetAttributeListResponse<A>, 0x42007C> as Element<A>>⟧.rules refl refl (λ x y e. e);
      add_attribute = held ⟦<InBox<Of<AttributeResponse<A>, 0x42007C>> as Element<A>>⟧.rules refl refl (λ x y e. e);
      modify_attribute = held ⟦<InBox<Of<AttributeResponse<A>, 0x42007C>> as Element<A>>⟧.rules refl refl (λ x y e. e);
      delete_attribute = held ⟦<InBox<Of<AttributeResponse<A>, 0x42007C>> as Element<A>>⟧.rules refl refl (λ x y e. e);
      obtain_lease = held ⟦<Of<ObtainLeaseResponse<A>, 0x42007C> as Element<A>>⟧.rules refl refl (λ x y e. e);
      get_usage_allocation = held ⟦<Of<ObjectResponse<A>, 0x42007C> as Element<A>>⟧.rules refl refl (λ x y e. e);
      activate = held ⟦<Of<ObjectResponse<A>, 0x42007C> as Element<A>>⟧.rules refl refl (λ x y e. e);
      revoke = held ⟦<Of<ObjectResponse<A>, 0x42007C> as Element<A>>⟧.rules refl refl (λ x y e. e);
      destroy = held ⟦<Of<ObjectResponse<A>, 0x42007C> as Element<A>>⟧.rules refl refl (λ x y e. e);
      archive = held ⟦<Of<ObjectResponse<A>, 0x42007C> as Element<A>>⟧.rules refl refl (λ x y e. e);
      recover = held ⟦<Of<ObjectResponse<A>, 0x42007C> as Element<A>>⟧.rules refl refl (λ x y e. e);
      query = held ⟦<InBox<Of<QueryResponse<A>, 0x42007C>> as Element<A>>⟧.rules refl refl (λ x y e. e);
      cancel = held ⟦<Of<CancelResponse<A>, 0x42007C> as Element<A>>⟧.rules refl refl (λ x y e. e);
      re_key_key_pair = held ⟦<InBox<Of<CreateKeyPairResponse<A>, 0x42007C>> as Element<A>>⟧.rules refl refl (λ x y e. e);
      discover_versions = held ⟦<Of<DiscoverVersionsResponse<A>, 0x42007C> as Element<A>>⟧.rules refl refl (λ x y e. e);
      encrypt = held ⟦<InBox<Of<CryptographicResponse<A>, 0x42007C>> as Element<A>>⟧.rules refl refl (λ x y e. e);
      decrypt = held ⟦<InBox<Of<CryptographicResponse<A>, 0x42007C>> as Element<A>>⟧.rules refl refl (λ x y e. e);
      sign = held ⟦<InBox<Of<CryptographicResponse<A>, 0x42007C>> as Element<A>>⟧.rules refl refl (λ x y e. e);
      signature_verify = held ⟦<InBox<Of<CryptographicResponse<A>, 0x42007C>> as Element<A>>⟧.rules refl refl (λ x y e. e);
      mac = held ⟦<InBox<Of<CryptographicResponse<A>, 0x42007C>> as Element<A>>⟧.rules refl refl (λ x y e. e);
      mac_verify = held ⟦<InBox<Of<CryptographicResponse<A>, 0x42007C>> as Element<A>>⟧.rules refl refl (λ x y e. e);
      hash = held ⟦<InBox<Of<CryptographicResponse<A>, 0x42007C>> as Element<A>>⟧.rules refl refl (λ x y e. e);
      import = held ⟦<Of<ObjectResponse<A>, 0x42007C> as Element<A>>⟧.rules refl refl (λ x y e. e);
      export = held ⟦<InBox<Of<ExportResponse<A>, 0x42007C>> as Element<A>>⟧.rules refl refl (λ x y e. e);
      login = held ⟦<Of<LoginResponse<A>, 0x42007C> as Element<A>>⟧.rules refl refl (λ x y e. e);
      other = held ⟦<Of<Kept<A>, 0x42007C> as Element<A>>⟧.rules refl refl (λ x y e. e);
    } };

    #[tactic(auto, unfolding(kmip_ttlv_reader::specs::RuleParts::parts_of, kmip_ttlv_reader::specs::RuleParts::equal_sides))]
    fn variant_rules() -> &'static [RuleParts] {
        &RESPONSE_PAYLOAD_RULES
    }

    fn read_held<'b>(
        scope: &Scope<'b, A>,
        cursor: &mut Cursor<'b, A>,
        place: usize,
    ) -> Step<Self, A> {
        match place {
            0 => Ok(ResponsePayload::Create(<Of<CreateResponse<A>, 0x42007C> as Element<
                A,
            >>::read_one(scope, cursor)?)),
            1 => Ok(ResponsePayload::CreateKeyPair(<InBox<
                Of<CreateKeyPairResponse<A>, 0x42007C>,
            > as Element<A>>::read_one(scope, cursor)?)),
            2 => Ok(ResponsePayload::Register(<Of<RegisterResponse<A>, 0x42007C> as Element<
                A,
            >>::read_one(scope, cursor)?)),
            3 => Ok(ResponsePayload::ReKey(<Of<RegisterResponse<A>, 0x42007C> as Element<
                A,
            >>::read_one(scope, cursor)?)),
            4 => Ok(ResponsePayload::DeriveKey(<Of<RegisterResponse<A>, 0x42007C> as Element<
                A,
            >>::read_one(scope, cursor)?)),
            5 => Ok(ResponsePayload::Locate(<Of<LocateResponse<A>, 0x42007C> as Element<
                A,
            >>::read_one(scope, cursor)?)),
            6 => Ok(ResponsePayload::Check(<Of<CheckResponse<A>, 0x42007C> as Element<A>>::read_one(
                scope, cursor,
            )?)),
            7 => Ok(ResponsePayload::Get(<InBox<Of<GetResponse<A>, 0x42007C>> as Element<
                A,
            >>::read_one(scope, cursor)?)),
            8 => Ok(ResponsePayload::GetAttributes(<Of<
                GetAttributesResponse<A>,
                0x42007C,
            > as Element<A>>::read_one(scope, cursor)?)),
            9 => Ok(ResponsePayload::GetAttributeList(<Of<
                GetAttributeListResponse<A>,
                0x42007C,
            > as Element<A>>::read_one(scope, cursor)?)),
            10 => Ok(ResponsePayload::AddAttribute(<InBox<
                Of<AttributeResponse<A>, 0x42007C>,
            > as Element<A>>::read_one(scope, cursor)?)),
            11 => Ok(ResponsePayload::ModifyAttribute(<InBox<
                Of<AttributeResponse<A>, 0x42007C>,
            > as Element<A>>::read_one(scope, cursor)?)),
            12 => Ok(ResponsePayload::DeleteAttribute(<InBox<
                Of<AttributeResponse<A>, 0x42007C>,
            > as Element<A>>::read_one(scope, cursor)?)),
            13 => Ok(ResponsePayload::ObtainLease(<Of<ObtainLeaseResponse<A>, 0x42007C> as Element<
                A,
            >>::read_one(scope, cursor)?)),
            14 => Ok(ResponsePayload::GetUsageAllocation(<Of<
                ObjectResponse<A>,
                0x42007C,
            > as Element<A>>::read_one(scope, cursor)?)),
            15 => Ok(ResponsePayload::Activate(<Of<ObjectResponse<A>, 0x42007C> as Element<
                A,
            >>::read_one(scope, cursor)?)),
            16 => Ok(ResponsePayload::Revoke(<Of<ObjectResponse<A>, 0x42007C> as Element<
                A,
            >>::read_one(scope, cursor)?)),
            17 => Ok(ResponsePayload::Destroy(<Of<ObjectResponse<A>, 0x42007C> as Element<
                A,
            >>::read_one(scope, cursor)?)),
            18 => Ok(ResponsePayload::Archive(<Of<ObjectResponse<A>, 0x42007C> as Element<
                A,
            >>::read_one(scope, cursor)?)),
            19 => Ok(ResponsePayload::Recover(<Of<ObjectResponse<A>, 0x42007C> as Element<
                A,
            >>::read_one(scope, cursor)?)),
            20 => Ok(ResponsePayload::Query(<InBox<Of<QueryResponse<A>, 0x42007C>> as Element<
                A,
            >>::read_one(scope, cursor)?)),
            21 => Ok(ResponsePayload::Cancel(<Of<CancelResponse<A>, 0x42007C> as Element<
                A,
            >>::read_one(scope, cursor)?)),
            22 => Ok(ResponsePayload::ReKeyKeyPair(<InBox<
                Of<CreateKeyPairResponse<A>, 0x42007C>,
            > as Element<A>>::read_one(scope, cursor)?)),
            23 => Ok(ResponsePayload::DiscoverVersions(<Of<
                DiscoverVersionsResponse<A>,
                0x42007C,
            > as Element<A>>::read_one(scope, cursor)?)),
            24 => Ok(ResponsePayload::Encrypt(<InBox<
                Of<CryptographicResponse<A>, 0x42007C>,
            > as Element<A>>::read_one(scope, cursor)?)),
            25 => Ok(ResponsePayload::Decrypt(<InBox<
                Of<CryptographicResponse<A>, 0x42007C>,
            > as Element<A>>::read_one(scope, cursor)?)),
            26 => Ok(ResponsePayload::Sign(<InBox<
                Of<CryptographicResponse<A>, 0x42007C>,
            > as Element<A>>::read_one(scope, cursor)?)),
            27 => Ok(ResponsePayload::SignatureVerify(<InBox<
                Of<CryptographicResponse<A>, 0x42007C>,
            > as Element<A>>::read_one(scope, cursor)?)),
            28 => Ok(ResponsePayload::Mac(<InBox<Of<CryptographicResponse<A>, 0x42007C>> as Element<
                A,
            >>::read_one(scope, cursor)?)),
            29 => Ok(ResponsePayload::MacVerify(<InBox<
                Of<CryptographicResponse<A>, 0x42007C>,
            > as Element<A>>::read_one(scope, cursor)?)),
            30 => Ok(ResponsePayload::Hash(<InBox<
                Of<CryptographicResponse<A>, 0x42007C>,
            > as Element<A>>::read_one(scope, cursor)?)),
            31 => Ok(ResponsePayload::Import(<Of<ObjectResponse<A>, 0x42007C> as Element<
                A,
            >>::read_one(scope, cursor)?)),
            32 => Ok(ResponsePayload::Export(<InBox<Of<ExportResponse<A>, 0x42007C>> as Element<
                A,
            >>::read_one(scope, cursor)?)),
            33 => Ok(ResponsePayload::Login(<Of<LoginResponse<A>, 0x42007C> as Element<
                A,
            >>::read_one(scope, cursor)?)),
            34 => Ok(ResponsePayload::Other(<Of<Kept<A>, 0x42007C> as Element<A>>::read_one(
                scope, cursor,
            )?)),
            _ => unreachable!(),
        }
    }

    fn tell_held<W: Walk<A>>(&self, state: &mut W::State) -> Result<(), AllocError> {
        match self {
            ResponsePayload::Create(inner) => W::item::<Of<CreateResponse<A>, 0x42007C>>(
                state, inner,
            ),
            ResponsePayload::CreateKeyPair(inner) => W::item::<
                InBox<Of<CreateKeyPairResponse<A>, 0x42007C>>,
            >(state, inner),
            ResponsePayload::Register(inner) => W::item::<Of<RegisterResponse<A>, 0x42007C>>(
                state, inner,
            ),
            ResponsePayload::ReKey(inner) => W::item::<Of<RegisterResponse<A>, 0x42007C>>(
                state, inner,
            ),
            ResponsePayload::DeriveKey(inner) => W::item::<Of<RegisterResponse<A>, 0x42007C>>(
                state, inner,
            ),
            ResponsePayload::Locate(inner) => W::item::<Of<LocateResponse<A>, 0x42007C>>(
                state, inner,
            ),
            ResponsePayload::Check(inner) => W::item::<Of<CheckResponse<A>, 0x42007C>>(
                state, inner,
            ),
            ResponsePayload::Get(inner) => W::item::<InBox<Of<GetResponse<A>, 0x42007C>>>(
                state, inner,
            ),
            ResponsePayload::GetAttributes(inner) => W::item::<
                Of<GetAttributesResponse<A>, 0x42007C>,
            >(state, inner),
            ResponsePayload::GetAttributeList(inner) => W::item::<
                Of<GetAttributeListResponse<A>, 0x42007C>,
            >(state, inner),
            ResponsePayload::AddAttribute(inner) => W::item::<
                InBox<Of<AttributeResponse<A>, 0x42007C>>,
            >(state, inner),
            ResponsePayload::ModifyAttribute(inner) => W::item::<
                InBox<Of<AttributeResponse<A>, 0x42007C>>,
            >(state, inner),
            ResponsePayload::DeleteAttribute(inner) => W::item::<
                InBox<Of<AttributeResponse<A>, 0x42007C>>,
            >(state, inner),
            ResponsePayload::ObtainLease(inner) => W::item::<Of<ObtainLeaseResponse<A>, 0x42007C>>(
                state, inner,
            ),
            ResponsePayload::GetUsageAllocation(inner) => W::item::<
                Of<ObjectResponse<A>, 0x42007C>,
            >(state, inner),
            ResponsePayload::Activate(inner) => W::item::<Of<ObjectResponse<A>, 0x42007C>>(
                state, inner,
            ),
            ResponsePayload::Revoke(inner) => W::item::<Of<ObjectResponse<A>, 0x42007C>>(
                state, inner,
            ),
            ResponsePayload::Destroy(inner) => W::item::<Of<ObjectResponse<A>, 0x42007C>>(
                state, inner,
            ),
            ResponsePayload::Archive(inner) => W::item::<Of<ObjectResponse<A>, 0x42007C>>(
                state, inner,
            ),
            ResponsePayload::Recover(inner) => W::item::<Of<ObjectResponse<A>, 0x42007C>>(
                state, inner,
            ),
            ResponsePayload::Query(inner) => W::item::<InBox<Of<QueryResponse<A>, 0x42007C>>>(
                state, inner,
            ),
            ResponsePayload::Cancel(inner) => W::item::<Of<CancelResponse<A>, 0x42007C>>(
                state, inner,
            ),
            ResponsePayload::ReKeyKeyPair(inner) => W::item::<
                InBox<Of<CreateKeyPairResponse<A>, 0x42007C>>,
            >(state, inner),
            ResponsePayload::DiscoverVersions(inner) => W::item::<
                Of<DiscoverVersionsResponse<A>, 0x42007C>,
            >(state, inner),
            ResponsePayload::Encrypt(inner) => W::item::<
                InBox<Of<CryptographicResponse<A>, 0x42007C>>,
            >(state, inner),
            ResponsePayload::Decrypt(inner) => W::item::<
                InBox<Of<CryptographicResponse<A>, 0x42007C>>,
            >(state, inner),
            ResponsePayload::Sign(inner) => W::item::<
                InBox<Of<CryptographicResponse<A>, 0x42007C>>,
            >(state, inner),
            ResponsePayload::SignatureVerify(inner) => W::item::<
                InBox<Of<CryptographicResponse<A>, 0x42007C>>,
            >(state, inner),
            ResponsePayload::Mac(inner) => W::item::<InBox<Of<CryptographicResponse<A>, 0x42007C>>>(
                state, inner,
            ),
            ResponsePayload::MacVerify(inner) => W::item::<
                InBox<Of<CryptographicResponse<A>, 0x42007C>>,
            >(state, inner),
            ResponsePayload::Hash(inner) => W::item::<
                InBox<Of<CryptographicResponse<A>, 0x42007C>>,
            >(state, inner),
            ResponsePayload::Import(inner) => W::item::<Of<ObjectResponse<A>, 0x42007C>>(
                state, inner,
            ),
            ResponsePayload::Export(inner) => W::item::<InBox<Of<ExportResponse<A>, 0x42007C>>>(
                state, inner,
            ),
            ResponsePayload::Login(inner) => W::item::<Of<LoginResponse<A>, 0x42007C>>(
                state, inner,
            ),
            ResponsePayload::Other(inner) => W::item::<Of<Kept<A>, 0x42007C>>(state, inner),
        }
    }
}
