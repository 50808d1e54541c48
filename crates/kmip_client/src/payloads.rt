//! What requests ask for, in few words.

ghost use Rattle.std.specs.Prelude.{◌≡◌, IfOk, MatchResult, map, string_bytes};
ghost use Rattle.kmip_client.specs.Payloads.{AreTagged, CantKeep, CantRefer, CantTag, HasTemplate, IsCreate, IsDiscover, IsGet, IsGetAttributes};
ghost use Rattle.kmip_client.specs.Payloads.{IsLocateBy, IsObject, IsQuery, IsRegisterBoxed, IsRevoke, IsText, is_by_tags, named};

use kmip_attribute_set::attributes::Attributes;
use kmip_attribute_set::references::references;
use kmip_attribute_set::tags::Tagged;
use kmip_messages::attribute::Attribute;
use kmip_messages::header::ProtocolVersion;
use kmip_messages::key::KeyBlock;
use kmip_messages::object::SymmetricKey;
use kmip_messages::request_payload::{
    CreateRequest, DiscoverVersionsRequest, GetAttributesRequest, GetRequest, LocateRequest,
    ObjectRequest, QueryFunction, QueryRequest, RegisterRequest, RevocationReasonGiven,
    RevokeRequest,
};
use kmip_messages::template::TemplateAttribute;
use kmip_messages::values::{RevocationReasonCode, object_type};
use kmip_ttlv_base::error::Error;
use kmip_ttlv_parts::{Boxed, Kept};
use std::alloc::{AllocError, Allocator};

// A text that is there.
fn text_of<A: Allocator + Copy>(alloc: A, text: &str) -> Result<Option<String<A>>, AllocError>
    ensures { IfOk result (IsText text.now) }
{
    let text = text.to_string(alloc)?;
    Ok(Some(text))
}

/// The object of this identifier.
pub fn object<A: Allocator + Copy>(
    alloc: A,
    identifier: &str,
) -> Result<ObjectRequest<A>, AllocError>
    ensures { IfOk result (IsObject identifier.now) }
{
    let unique_identifier = text_of(alloc, identifier)?;
    Ok(ObjectRequest { unique_identifier })
}

/// To get the object of this identifier as it is.
pub fn get<A: Allocator + Copy>(alloc: A, identifier: &str) -> Result<GetRequest<A>, AllocError>
    ensures { IfOk result (IsGet identifier.now) }
{
    let unique_identifier = text_of(alloc, identifier)?;
    Ok(GetRequest {
        unique_identifier,
        key_format_type: None,
        key_wrap_type: None,
        key_compression_type: None,
        key_wrapping_specification: None,
    })
}

// The same texts, each on its own.
fn texts_of<A: Allocator + Copy>(alloc: A, texts: &[&str]) -> Result<Vec<String<A>, A>, AllocError>
    ensures { IfOk result (λ v. map (λ s. string_bytes s) v.items ≡ map (λ t. t.now) texts.now) }
{
    let mut all = Vec::new(alloc);
    for text in texts {
        let copy = text.to_string(alloc)?;
        all.push(copy)?;
    }
    Ok(all)
}

// Whether messages of a version have attributes by their tags: from 2.0 on.
fn is_by_tags(version: ProtocolVersion) -> bool
    ensures { result ≡ is_by_tags version }
{
    1 < version.major
}

/// To get these attributes of the object of this identifier: by their names, or from KMIP 2.0 on by references to their tags.
pub fn get_attributes<A: Allocator + Copy>(
    alloc: A,
    version: ProtocolVersion,
    identifier: &str,
    names: &[&str],
) -> Result<GetAttributesRequest<A>, Error<A>>
    ensures { MatchResult result
        (IsGetAttributes ⟦<Attributes<A> as Tagged<A>>⟧.IsTagged version identifier.now (map (λ t. t.now) names.now)) (CantRefer version) }
{
    let unique_identifier = text_of(alloc, identifier)?;
    if is_by_tags(version) {
        let other_items = references(alloc, names)?;
        return Ok(GetAttributesRequest {
            unique_identifier,
            attribute_names: Vec::new(alloc),
            other_items,
        });
    }
    let attribute_names = texts_of(alloc, names)?;
    Ok(GetAttributesRequest {
        unique_identifier,
        attribute_names,
        other_items: Kept::none(alloc),
    })
}

/// To revoke the object of this identifier, for this reason.
pub fn revoke<A: Allocator + Copy>(
    alloc: A,
    identifier: &str,
    code: RevocationReasonCode,
) -> Result<RevokeRequest<A>, AllocError>
    ensures { IfOk result (IsRevoke identifier.now code.number) }
{
    let unique_identifier = text_of(alloc, identifier)?;
    let message = None;
    Ok(RevokeRequest {
        unique_identifier,
        revocation_reason: RevocationReasonGiven { code, message },
        compromise_occurrence_date: None,
    })
}

/// To say this of the server.
pub fn query<A: Allocator + Copy>(
    alloc: A,
    functions: &[QueryFunction],
) -> Result<QueryRequest<A>, AllocError>
    ensures { IfOk result (IsQuery functions.now) }
{
    let functions = functions.to_vec(alloc)?;
    Ok(QueryRequest { functions })
}

/// To say which of these versions the server has.
pub fn discover<A: Allocator + Copy>(
    alloc: A,
    versions: &[ProtocolVersion],
) -> Result<DiscoverVersionsRequest<A>, AllocError>
    ensures { IfOk result (IsDiscover versions.now) }
{
    let versions = versions.to_vec(alloc)?;
    Ok(DiscoverVersionsRequest { versions })
}

// These attributes as items under their tags, from KMIP 2.0 on.
fn tagged<A: Allocator + Copy>(
    alloc: A,
    version: ProtocolVersion,
    given: &Attributes<A>,
) -> Result<Option<Kept<A>>, Error<A>>
    ensures { MatchResult result (AreTagged ⟦<Attributes<A> as Tagged<A>>⟧.IsTagged version given.now)
        (CantTag ⟦<Attributes<A> as Tagged<A>>⟧.IsTagged version given.now) }
{
    if !is_by_tags(version) {
        return Ok(None);
    }
    match given.to_tags(alloc) {
        Ok(items) => Ok(Some(items)),
        Err(error) => Err(error),
    }
}

// These attributes by their names, up to KMIP 1.4.
fn named<A: Allocator + Copy>(
    alloc: A,
    version: ProtocolVersion,
    given: Attributes<A>,
) -> Vec<Attribute<A>, A>
    ensures { result.items ≡ named version given }
{
    if is_by_tags(version) {
        Vec::new(alloc)
    } else {
        given.list
    }
}

// These attributes in a template, up to KMIP 1.4.
fn template<A: Allocator + Copy>(
    alloc: A,
    version: ProtocolVersion,
    given: Attributes<A>,
) -> Option<TemplateAttribute<A>>
    ensures { HasTemplate version given result }
{
    if is_by_tags(version) {
        None
    } else {
        Some(TemplateAttribute {
            names: Vec::new(alloc),
            attributes: given.list,
        })
    }
}

/// To find the objects that have all these attributes.
pub fn locate_by<A: Allocator + Copy>(
    alloc: A,
    version: ProtocolVersion,
    given: Attributes<A>,
) -> Result<LocateRequest<A>, Error<A>>
    ensures { MatchResult result (IsLocateBy ⟦<Attributes<A> as Tagged<A>>⟧.IsTagged version given)
        (CantTag ⟦<Attributes<A> as Tagged<A>>⟧.IsTagged version given) }
{
    let attributes_by_tag = tagged(alloc, version, &given)?;
    Ok(LocateRequest {
        maximum_items: None,
        offset_items: None,
        storage_status_mask: None,
        object_group_member: None,
        attributes: named(alloc, version, given),
        attributes_by_tag,
        other_items: Kept::none(alloc),
    })
}

/// To make a symmetric key with these attributes.
pub fn create<A: Allocator + Copy>(
    alloc: A,
    version: ProtocolVersion,
    attributes: Attributes<A>,
) -> Result<CreateRequest<A>, Error<A>>
    ensures { MatchResult result (IsCreate ⟦<Attributes<A> as Tagged<A>>⟧.IsTagged version attributes)
        (CantTag ⟦<Attributes<A> as Tagged<A>>⟧.IsTagged version attributes) }
{
    let attributes_by_tag = tagged(alloc, version, &attributes)?;
    Ok(CreateRequest {
        object_type: object_type::SYMMETRIC_KEY,
        template_attribute: template(alloc, version, attributes),
        attributes_by_tag,
        protection_storage_masks: None,
    })
}

/// To keep this symmetric key, with these attributes.
pub fn register<A: Allocator + Copy>(
    alloc: A,
    version: ProtocolVersion,
    key_block: KeyBlock<A>,
    attributes: Attributes<A>,
) -> Result<Boxed<RegisterRequest<A>, A>, Error<A>>
    ensures { MatchResult result (IsRegisterBoxed ⟦<Attributes<A> as Tagged<A>>⟧.IsTagged version key_block attributes)
        (CantKeep ⟦<Attributes<A> as Tagged<A>>⟧.IsTagged version attributes) }
{
    let attributes_by_tag = tagged(alloc, version, &attributes)?;
    let symmetric_key = Boxed::new(alloc, SymmetricKey { key_block })?;
    let request = RegisterRequest {
        object_type: object_type::SYMMETRIC_KEY,
        template_attribute: template(alloc, version, attributes),
        attributes_by_tag,
        certificate: None,
        symmetric_key: Some(symmetric_key),
        public_key: None,
        private_key: None,
        split_key: None,
        template: None,
        secret_data: None,
        opaque_object: None,
        protection_storage_masks: None,
    };
    let request = Boxed::new(alloc, request)?;
    Ok(request)
}
