//! What a server gave, as lines.

use crate::done::{Done, bytes_of};
use crate::escape::push_escaped;
use crate::failing::push_version;
use crate::values::{Item, push_between, push_hex, push_named, push_tag, push_value, split_item};
use kmip_messages::attribute::{Attribute, AttributeStructure, AttributeValue};
use kmip_messages::header::ProtocolVersion;
use kmip_messages::response_payload::{
    CreateResponse, GetResponse, QueryResponse, RegisterResponse,
};
use kmip_messages::template::TemplateAttribute;
use kmip_messages::values::name_type;
use kmip_ttlv_base::error::{Error, ErrorKind};
use kmip_ttlv_kinds::convert;
use kmip_ttlv_names::{STANDARD_TAGS, tag_named};
use kmip_ttlv_parts::Kept;
use kmip_ttlv_types::TtlvType;
use std::alloc::{AllocError, Allocator};

// Tags.
const ATTRIBUTE: u32 = 0x42_0008;

const ATTRIBUTE_VALUE: u32 = 0x42_000B;

const OBJECT_TYPE: u32 = 0x42_0057;

const OPERATION: u32 = 0x42_005C;

// Adds a line with a text of the server.
fn push_text<A: Allocator>(out: &mut String<A>, text: &str) -> Result<(), AllocError> {
    push_escaped(out, text)?;
    out.push_str("\n")
}

// Adds the values of items that aren't structures, with the names of their tags, in the order in which they stand.
fn push_items<A: Allocator>(out: &mut String<A>, bytes: &[u8]) -> Result<(), AllocError> {
    let mut left = bytes;
    let mut is_first = true;
    for _ in 0..bytes.len() {
        let Some((item, rest)) = split_item(left) else {
            break;
        };
        if item.typ != TtlvType::Structure {
            push_between(out, is_first)?;
            push_tag(out, item.tag)?;
            out.push_str(" ")?;
            push_value(out, item.tag, &item)?;
            is_first = false;
        }
        left = rest;
    }
    Ok(())
}

// The value of an attribute, and what is behind it: of a structure the items in it.
fn value_of(bytes: &[u8]) -> Option<(Item<'_>, &[u8])> {
    let mut left = bytes;
    for _ in 0..bytes.len() {
        let (item, rest) = split_item(left)?;
        if item.tag == ATTRIBUTE_VALUE {
            return Some((item, rest));
        }
        left = rest;
    }
    None
}

// Adds the value of an attribute of this name, by the items in the attribute. It is named as the standard's tag of the name is.
fn push_attribute_value<A: Allocator>(
    out: &mut String<A>,
    name: &str,
    bytes: &[u8],
) -> Result<(), AllocError> {
    let Some((item, rest)) = value_of(bytes) else {
        return Ok(());
    };
    if item.typ == TtlvType::Structure {
        return push_items(out, rest);
    }
    let tag = match tag_named(STANDARD_TAGS, name) {
        Some(tag) => *tag,
        None => item.tag,
    };
    push_value(out, tag, &item)
}

// The same, of an attribute as it is decoded.
fn push_by_items<A: Allocator + Copy>(
    alloc: A,
    out: &mut String<A>,
    name: &str,
    attribute: Attribute<A>,
) -> Result<(), AllocError> {
    let converted: Result<Kept<A>, Error<A>> = convert(alloc, attribute, ATTRIBUTE);
    match converted {
        Ok(items) => push_attribute_value(out, name, items.as_bytes()),
        Err(error) => match error.kind() {
            ErrorKind::OutOfMemory => Err(AllocError),
            _ => out.push_str("too deep"),
        },
    }
}

// Adds a line with an attribute: its name, its index if it isn't the first, and its value.
fn push_attribute<A: Allocator + Copy>(
    alloc: A,
    out: &mut String<A>,
    attribute: Attribute<A>,
) -> Result<(), AllocError> {
    push_escaped(out, attribute.name.as_str())?;
    if let Some(index) = attribute.index
        && index != 0
    {
        write!(out, "[{index}]")?;
    }
    out.push_str(": ")?;
    if let AttributeValue::Structure(AttributeStructure::Name(name)) = &attribute.value
        && name.name_type == name_type::UNINTERPRETED_TEXT_STRING
    {
        return push_text(out, name.value.as_str());
    }
    let name = attribute.name.as_str().to_string(alloc)?;
    push_by_items(alloc, out, name.as_str(), attribute)?;
    out.push_str("\n")
}

// Adds attributes, a line each.
fn push_attributes<A: Allocator + Copy>(
    alloc: A,
    out: &mut String<A>,
    attributes: Vec<Attribute<A>, A>,
) -> Result<(), AllocError> {
    for attribute in attributes {
        push_attribute(alloc, out, attribute)?;
    }
    Ok(())
}

// Adds the identifier of a new object, and what the server has set of it.
fn push_new<A: Allocator + Copy>(
    alloc: A,
    out: &mut String<A>,
    identifier: String<A>,
    set: Option<TemplateAttribute<A>>,
) -> Result<(), AllocError> {
    push_text(out, identifier.as_str())?;
    match set {
        Some(set) => push_attributes(alloc, out, set.attributes),
        None => Ok(()),
    }
}

// Adds a line with a name and a value of an Enumeration.
fn push_value_line<A: Allocator>(
    out: &mut String<A>,
    tag: u32,
    value: u32,
) -> Result<(), AllocError> {
    push_tag(out, tag)?;
    out.push_str(": ")?;
    push_named(out, tag, value)?;
    out.push_str("\n")
}

// Adds what a server can do, and what it says of itself.
fn push_abilities<A: Allocator + Copy>(
    out: &mut String<A>,
    able: &QueryResponse<A>,
) -> Result<(), AllocError> {
    for operation in &able.operations {
        push_value_line(out, OPERATION, operation.number)?;
    }
    'types: for object_type in &able.object_types {
        push_value_line(out, OBJECT_TYPE, object_type.number)?;
    }
    if let Some(vendor) = &able.vendor_identification {
        out.push_str("Vendor Identification: ")?;
        push_text(out, vendor.as_str())?;
    }
    if let Some(information) = &able.server_information {
        out.push_str("Server Information: ")?;
        push_items(out, information.as_bytes())?;
        out.push_str("\n")?;
    }
    Ok(())
}

// Adds versions, a line each.
fn push_versions<A: Allocator>(
    out: &mut String<A>,
    versions: &[ProtocolVersion],
) -> Result<(), AllocError> {
    for version in versions {
        push_version(out, version.major, version.minor)?;
        out.push_str("\n")?;
    }
    Ok(())
}

// Adds identifiers, a line each.
fn push_identifiers<A: Allocator>(
    out: &mut String<A>,
    identifiers: &[String<A>],
) -> Result<(), AllocError> {
    for identifier in identifiers {
        push_text(out, identifier.as_str())?;
    }
    Ok(())
}

// Adds a line with the bytes of an object, if it has bytes of its own.
fn push_object<A: Allocator>(
    out: &mut String<A>,
    found: &GetResponse<A>,
) -> Result<(), AllocError> {
    match bytes_of(found) {
        Some(bytes) => {
            push_hex(out, bytes)?;
            out.push_str("\n")
        }
        None => Ok(()),
    }
}

/// Adds what a server gave, as lines. Of an object without bytes of its own nothing is added.
pub fn push_done<A: Allocator + Copy>(
    alloc: A,
    out: &mut String<A>,
    done: Done<A>,
) -> Result<(), AllocError> {
    match done {
        Done::Query(able) => push_abilities(out, &able),
        Done::Versions(found) => push_versions(out, found.versions.as_slice()),
        Done::Create(
            CreateResponse {
                unique_identifier,
                template_attribute,
                object_type: _,
            },
        ) => push_new(alloc, out, unique_identifier, template_attribute),
        Done::Register(
            RegisterResponse {
                unique_identifier,
                template_attribute,
            },
        ) => push_new(alloc, out, unique_identifier, template_attribute),
        Done::Locate(found) => push_identifiers(out, found.unique_identifiers.as_slice()),
        Done::Get(found) => push_object(out, &found),
        Done::Attributes(known) => push_attributes(alloc, out, known.list),
        Done::Activate(done) | Done::Revoke(done) | Done::Destroy(done) => push_text(
            out,
            done.unique_identifier.as_str(),
        ),
    }
}
