//! Operations in both forms of attributes, and growths that fail.

use crate::objects::Objects;
use crate::tagging::refusal_of;
use kmip_attribute_set::attributes::Attributes;
use kmip_attribute_set::building::of_key;
use kmip_attribute_set::references::names_of;
use kmip_attribute_set::tags::Tagged;
use kmip_messages::header::{ProtocolVersion, RequestHeader};
use kmip_messages::request_payload::{
    CreateRequest, GetAttributesRequest, LocateRequest, ObjectRequest,
};
use kmip_messages::response::result_reason;
use kmip_messages::response_payload::ResponsePayload;
use kmip_messages::template::TemplateAttribute;
use kmip_messages::values::{cryptographic_algorithm, object_type, state};
use kmip_server::refusal::Refusal;
use kmip_ttlv::Kept;
use kmip_ttlv::error::Error;
use kmip_ttlv::memory::BoundedAllocator;
use std::alloc::{Allocator, Global};
use std::test::Fail;

// The versions of both forms.
const VERSIONS: [ProtocolVersion; 2] = [
    ProtocolVersion { major: 1, minor: 4 },
    ProtocolVersion { major: 2, minor: 0 },
];

// What was made of attributes by tags, or by their tags.
fn taken<T: Drop, A: Allocator>(made: Result<T, Error<A>>) -> Result<T, Refusal> {
    match made {
        Ok(made) => Ok(made),
        Err(error) => Err(refusal_of(&error)),
    }
}

// A key that is made, by what a client says of it in the form of its version. None if it isn't answered so.
fn make<A: Allocator + Copy>(
    alloc: A,
    objects: &mut Objects<A>,
    key: Attributes<A>,
) -> Result<Option<String<A>>, Refusal> {
    let mut asked = CreateRequest {
        object_type: object_type::SYMMETRIC_KEY,
        template_attribute: None,
        attributes_by_tag: None,
        protection_storage_masks: None,
    };
    if objects.by_tags {
        asked.attributes_by_tag = Some(taken(key.to_tags(alloc))?);
    } else {
        asked.template_attribute = Some(TemplateAttribute {
            names: Vec::new(alloc),
            attributes: key.list,
        });
    }
    let about = objects.wanted(alloc, &asked)?;
    let material = b"0123456789abcdef".to_vec(alloc)?;
    match objects.create(alloc, about, material, 10)? {
        ResponsePayload::Create(made) => Ok(Some(made.unique_identifier)),
        _ => Ok(None),
    }
}

// The attributes of the object at hand, in either form.
fn shown<A: Allocator + Copy>(alloc: A, objects: &Objects<A>) -> Result<Attributes<A>, Refusal> {
    let asked = GetAttributesRequest {
        unique_identifier: None,
        attribute_names: Vec::new(alloc),
        other_items: Kept::none(alloc),
    };
    match objects.get_attributes(alloc, &asked)? {
        ResponsePayload::GetAttributes(shown) => match &shown.attributes_by_tag {
            Some(items) => taken(Attributes::from_tags(alloc, items)),
            None => Ok(Attributes {
                list: shown.attributes,
            }),
        },
        _ => Ok(Attributes::new(alloc)),
    }
}

// How many objects have these attributes.
fn located<A: Allocator + Copy>(
    alloc: A,
    objects: &mut Objects<A>,
    sought: Attributes<A>,
) -> Result<usize, Refusal> {
    let mut asked = LocateRequest {
        maximum_items: None,
        offset_items: None,
        storage_status_mask: None,
        object_group_member: None,
        attributes: Vec::new(alloc),
        attributes_by_tag: None,
        other_items: Kept::none(alloc),
    };
    if objects.by_tags {
        asked.attributes_by_tag = Some(taken(sought.to_tags(alloc))?);
    } else {
        asked.attributes = sought.list;
    }
    match objects.locate(alloc, &asked)? {
        ResponsePayload::Locate(found) => Ok(found.unique_identifiers.len()),
        _ => Ok(0),
    }
}

// How many names of attributes the object at hand has, in either form.
fn listed<A: Allocator + Copy>(alloc: A, objects: &Objects<A>) -> Result<usize, Refusal> {
    let asked = ObjectRequest {
        unique_identifier: None,
    };
    match objects.get_attribute_list(alloc, &asked)? {
        ResponsePayload::GetAttributeList(list) if objects.by_tags => {
            Ok(taken(names_of(alloc, &list.other_items))?.len())
        }
        ResponsePayload::GetAttributeList(list) => Ok(list.attribute_names.len()),
        _ => Ok(0),
    }
}

// Whether a key is made, found and shown as it was asked for.
fn conversation<A: Allocator + Copy>(alloc: A, version: ProtocolVersion) -> Result<bool, Refusal> {
    let mut objects = Objects::new(alloc);
    objects.begin(&RequestHeader::new(alloc, version, 1));
    let key = of_key(alloc, cryptographic_algorithm::AES, 128, 12, "disk")?;
    let made = make(alloc, &mut objects, key)?;
    let own = shown(alloc, &objects)?;
    let are_own = (own.unique_identifier(), own.first_name()) == (Some("1"), Some("disk"))
        && own.cryptographic_length() == Some(128)
        && own.state() == Some(state::PRE_ACTIVE);
    let here = located(
        alloc,
        &mut objects,
        Attributes::new(alloc).with_name("disk")?,
    )?;
    let is_listed = listed(alloc, &objects)? == 9;
    let there = located(
        alloc,
        &mut objects,
        Attributes::new(alloc).with_name("tape")?,
    )?;
    objects.begin(&RequestHeader::new(alloc, version, 1));
    Ok(made.is_some() && are_own && is_listed && (here, there) == (1, 0) && objects.last.is_none())
}

#[test]
fn keys_go_in_both_forms(rt: HostRuntime) -> Result<(), Fail> {
    for version in VERSIONS {
        assert!(rt; matches!(conversation(rt.alloc(), version), Ok(true)));
    }
    Ok(())
}

// After how many growths a conversation is whole, if each that fails before is a General Failure.
fn growths(alloc: Global, version: ProtocolVersion) -> Option<u64> {
    for before in 0..1_000u64 {
        let memory = BoundedAllocator::failing_after(alloc, before);
        match conversation(&memory, version) {
            Ok(is_whole) => return if is_whole { Some(before) } else { None },
            Err(refusal) if refusal.reason == result_reason::GENERAL_FAILURE => {}
            Err(_) => return None,
        }
    }
    None
}

#[test]
fn each_growth_may_fail(rt: HostRuntime) -> Result<(), Fail> {
    for version in VERSIONS {
        assert!(rt; matches!(growths(rt.alloc(), version), Some(before) if before > 30));
    }
    Ok(())
}
