//! Get, Get Attributes and Get Attribute List (KMIP 1.0, sections 4.10 to 4.12).

ghost use Rattle.std.specs.Prelude.{◌≡◌, [], ◌∷◌, ◌++◌, Some, IfOk, OnOk, map, string_bytes};
ghost use Rattle.kmip_operations.specs.Answers.{IsEmpty, bytes_of_block, bytes_of_response};
ghost use Rattle.kmip_operations.specs.Effects.{Gets};
ghost use Rattle.kmip_operations.specs.Listing.{saying_of};
ghost use Rattle.kmip_operations.specs.Showing.{GivesAttributes, GivesNames, is_first, names_of};

use crate::about::About;
use crate::attributes::{all_attributes, attributes};
use crate::objects::{Objects, identifier};
use crate::tagging::{referred, referring, tagged};
use kmip_attribute_set::attributes::Attributes;
use kmip_attribute_set::tags::Tagged;
use kmip_messages::attribute::Attribute;
use kmip_messages::key::{KeyBlock, KeyMaterial, KeyValue, PlainKeyValue};
use kmip_messages::object::{
    Certificate, PrivateKey, PublicKey, SecretData, SecretDataType, SymmetricKey,
};
use kmip_messages::request_payload::{GetAttributesRequest, GetRequest, ObjectRequest};
use kmip_messages::response::result_reason;
use kmip_messages::response_payload::{
    GetAttributeListResponse, GetAttributesResponse, GetResponse, ResponsePayload,
};
use kmip_messages::values::{CertificateType, ObjectType, object_type};
use kmip_server::refusal::Refusal;
use kmip_ttlv::{Boxed, Kept};
use std::alloc::{AllocError, Allocator};

// Why an object can't be given as it is asked for, if it can't.
fn check<K: Allocator, A: Allocator>(
    about: &About<K>,
    asked: &GetRequest<A>,
) -> Result<(), Refusal> {
    if asked.key_wrapping_specification.is_some() {
        return Err(Refusal::new(
            result_reason::FEATURE_NOT_SUPPORTED,
            "the server wraps no keys",
        ));
    }
    if asked.key_compression_type.is_some() {
        return Err(Refusal::new(
            result_reason::KEY_COMPRESSION_TYPE_NOT_SUPPORTED,
            "the server compresses no keys",
        ));
    }
    match asked.key_format_type {
        Some(format) if format != about.format => Err(Refusal::new(
            result_reason::KEY_FORMAT_TYPE_NOT_SUPPORTED,
            "the server keeps the key in another format",
        )),
        _ => Ok(()),
    }
}

// A key as it was registered.
fn block<K: Allocator, A: Allocator + Copy>(
    alloc: A,
    about: &About<K>,
    material: &[u8],
) -> Result<KeyBlock<A>, AllocError>
    ensures { IfOk result (λ block. bytes_of_block block ≡ Some material.now) }
{
    let key_material = KeyMaterial::Bytes(material.to_vec(alloc)?);
    Ok(KeyBlock {
        key_format_type: about.format,
        key_compression_type: None,
        key_value: KeyValue::Plain(PlainKeyValue {
            key_material,
            attributes: Vec::new(alloc),
        }),
        cryptographic_algorithm: about.algorithm,
        cryptographic_length: about.length,
        key_wrapping_data: None,
    })
}

// A response that has no object yet.
fn empty<A: Allocator>(object_type: ObjectType, unique_identifier: String<A>) -> GetResponse<A>
    ensures empty { IsEmpty result }
    ensures name { result.unique_identifier ≡ unique_identifier }
{
    GetResponse {
        object_type,
        unique_identifier,
        certificate: None,
        symmetric_key: None,
        public_key: None,
        private_key: None,
        split_key: None,
        template: None,
        secret_data: None,
        opaque_object: None,
    }
}

// Puts an object into its response.
fn put<K: Allocator, A: Allocator + Copy>(
    alloc: A,
    response: &mut GetResponse<A>,
    about: &About<K>,
    material: &[u8],
) -> Result<(), AllocError>
    requires { IsEmpty response.old }
    ensures bytes { OnOk result (bytes_of_response response.new ≡ Some material.now) }
    ensures name { OnOk result (response.new.unique_identifier ≡ response.old.unique_identifier) }
{
    if about.object_type == object_type::CERTIFICATE {
        response.certificate = Some(Certificate {
            certificate_type: CertificateType {
                number: about.subtype,
            },
            certificate_value: material.to_vec(alloc)?,
        });
        return Ok(());
    }
    let key_block = block(alloc, about, material)?;
    match about.object_type {
        object_type::PUBLIC_KEY => {
            response.public_key = Some(Boxed::new(alloc, PublicKey { key_block })?);
        }
        object_type::PRIVATE_KEY => {
            response.private_key = Some(Boxed::new(alloc, PrivateKey { key_block })?);
        }
        object_type::SECRET_DATA => {
            let secret_data_type = SecretDataType {
                number: about.subtype,
            };
            let secret = SecretData {
                secret_data_type,
                key_block,
            };
            response.secret_data = Some(Boxed::new(alloc, secret)?);
        }
        _ => response.symmetric_key = Some(Boxed::new(alloc, SymmetricKey { key_block })?),
    }
    Ok(())
}

// Whether an attribute is the first of its name.
fn is_first<A: Allocator>(attribute: &Attribute<A>) -> bool
    ensures { result ≡ is_first (saying_of attribute.now) }
{
    match attribute.index {
        None => true,
        Some(index) => index == 0,
    }
}

// Adds the name of an attribute, if it is the first of it.
fn push_first<A: Allocator + Copy>(
    alloc: A,
    names: &mut Vec<String<A>, A>,
    attribute: &Attribute<A>,
) -> Result<(), AllocError>
    ensures { OnOk result (map string_bytes names.new.items ≡ map string_bytes names.old.items ++ names_of (saying_of attribute.now ∷ [])) }
{
    if !is_first(attribute) {
        return Ok(());
    }
    names.push(attribute.name.as_str().to_string(alloc)?)?;
    Ok(())
}

// The names of attributes, each once: an index above 0 repeats one.
fn first_names<A: Allocator + Copy>(
    alloc: A,
    attributes: &[Attribute<A>],
) -> Result<Vec<String<A>, A>, AllocError>
    ensures { IfOk result (λ names. map string_bytes names.items ≡ names_of (map saying_of attributes.now)) }
{
    let mut names = Vec::new(alloc);
    for attribute in attributes {
        push_first(alloc, &mut names, attribute)?;
    }
    Ok(names)
}

impl<K: Allocator + Copy> Objects<K> {
    /// An object, as it was registered or made. Refused with Item Not Found if there is none, or its material was destroyed (KMIP 1.0,
    /// section 11.11).
    pub fn get<A: Allocator + Copy>(
        &self,
        alloc: A,
        asked: &GetRequest<A>,
    ) -> Result<ResponsePayload<A>, Refusal>
        ensures { Gets self.now asked.now.unique_identifier result }
    {
        let (id, object) = self.find(&asked.unique_identifier)?;
        check(&object.about, asked)?;
        let Some(material) = &object.material else {
            return Err(Refusal::new(result_reason::ITEM_NOT_FOUND, "the object was destroyed"));
        };
        let unique_identifier = identifier(alloc, id)?;
        let mut response = empty(object.about.object_type, unique_identifier);
        put(alloc, &mut response, &object.about, material.as_slice())?;
        Ok(ResponsePayload::Get(Boxed::new(alloc, response)?))
    }

    /// The attributes of an object that are asked for: by names up to KMIP 1.4, and by tags from KMIP 2.0 on. Refused with Item Not Found if
    /// there is no such object (KMIP 1.0, section 11.12), and as `referred`.
    pub fn get_attributes<A: Allocator + Copy>(
        &self,
        alloc: A,
        asked: &GetAttributesRequest<A>,
    ) -> Result<ResponsePayload<A>, Refusal>
        ensures { IfOk result (λ payload. GivesAttributes ⟦<Attributes<A> as Tagged<A>>⟧.IsTagged self.now asked.now payload) }
    {
        let (id, object) = self.find(&asked.unique_identifier)?;
        let unique_identifier = identifier(alloc, id)?;
        if !self.by_tags {
            let attributes = attributes(alloc, id, object, asked.attribute_names.as_slice())?;
            return Ok(ResponsePayload::GetAttributes(GetAttributesResponse {
                unique_identifier,
                attributes,
                attributes_by_tag: None,
            }));
        }
        let names = referred(alloc, asked)?;
        let list = attributes(alloc, id, object, names.as_slice())?;
        let attributes = Attributes { list };
        let items = tagged(alloc, &attributes)?;
        Ok(ResponsePayload::GetAttributes(GetAttributesResponse {
            unique_identifier,
            attributes: Vec::new(alloc),
            attributes_by_tag: Some(items),
        }))
    }

    /// The names of all attributes of an object, as texts up to KMIP 1.4, and as references to tags from KMIP 2.0 on. Refused with Item Not
    /// Found if there is no such object (KMIP 1.0, section 11.13).
    pub fn get_attribute_list<A: Allocator + Copy>(
        &self,
        alloc: A,
        asked: &ObjectRequest<A>,
    ) -> Result<ResponsePayload<A>, Refusal>
        ensures { IfOk result (λ payload. GivesNames ⟦<Attributes<A> as Tagged<A>>⟧.IsTagged self.now asked.now payload) }
    {
        let (id, object) = self.find(&asked.unique_identifier)?;
        let unique_identifier = identifier(alloc, id)?;
        let attributes = all_attributes(alloc, id, object)?;
        let attribute_names = first_names(alloc, attributes.as_slice())?;
        if !self.by_tags {
            return Ok(ResponsePayload::GetAttributeList(GetAttributeListResponse {
                unique_identifier,
                attribute_names,
                other_items: Kept::none(alloc),
            }));
        }
        let other_items = referring(alloc, attribute_names.as_slice())?;
        Ok(ResponsePayload::GetAttributeList(GetAttributeListResponse {
            unique_identifier,
            attribute_names: Vec::new(alloc),
            other_items,
        }))
    }
}
