//! Attributes by their names, as KMIP 1.x has them (KMIP 1.0, section 3), and by their tags, as KMIP 2.0 has them.

ghost use Rattle.std.specs.Prelude.{◌≡◌, IfOk, map, option_map, string_bytes};
ghost use Rattle.kmip_ttlv_types.specs.Digits.{tag_text};
ghost use Rattle.kmip_attribute_set.specs.Names.{attribute_name, attribute_names, attribute_tag, name_among, row_of, tag_among};

use kmip_ttlv_types::TtlvTag;
use std::alloc::{AllocError, Allocator};
use std::str;

// A tag, and the name of its attribute.
#[derive(Clone, Copy)]
struct Row(u32, &'static str);

// Each attribute's tag and its name, as data/kmip_tags.tsv has them, in the order of the tags.
const NAMES: [Row; 59] = [
    Row(0x420001, "Activation Date"),
    Row(0x420004, "Application Specific Information"),
    Row(0x420005, "Archive Date"),
    Row(0x420014, "Certificate Identifier"),
    Row(0x420015, "Certificate Issuer"),
    Row(0x42001A, "Certificate Subject"),
    Row(0x42001D, "Certificate Type"),
    Row(0x420020, "Compromise Date"),
    Row(0x420021, "Compromise Occurrence Date"),
    Row(0x420022, "Contact Information"),
    Row(0x420028, "Cryptographic Algorithm"),
    Row(0x420029, "Cryptographic Domain Parameters"),
    Row(0x42002A, "Cryptographic Length"),
    Row(0x42002B, "Cryptographic Parameters"),
    Row(0x42002C, "Cryptographic Usage Mask"),
    Row(0x42002F, "Deactivation Date"),
    Row(0x420033, "Destroy Date"),
    Row(0x420034, "Digest"),
    Row(0x420039, "Initial Date"),
    Row(0x420042, "Key Format Type"),
    Row(0x420048, "Last Change Date"),
    Row(0x420049, "Lease Time"),
    Row(0x42004A, "Link"),
    Row(0x420053, "Name"),
    Row(0x420056, "Object Group"),
    Row(0x420057, "Object Type"),
    Row(0x420059, "Opaque Data Type"),
    Row(0x42005D, "Operation Policy Name"),
    Row(0x420067, "Process Start Date"),
    Row(0x420068, "Protect Stop Date"),
    Row(0x420081, "Revocation Reason"),
    Row(0x42008D, "State"),
    Row(0x420094, "Unique Identifier"),
    Row(0x420095, "Usage Limits"),
    Row(0x4200A8, "Fresh"),
    Row(0x4200AC, "Object Group Member"),
    Row(0x4200AD, "Certificate Length"),
    Row(0x4200AE, "Digital Signature Algorithm"),
    Row(0x4200B5, "X.509 Certificate Identifier"),
    Row(0x4200B6, "X.509 Certificate Issuer"),
    Row(0x4200B7, "X.509 Certificate Subject"),
    Row(0x4200B8, "Key Value Location"),
    Row(0x4200BB, "Key Value Present"),
    Row(0x4200BC, "Original Creation Date"),
    Row(0x4200BF, "Alternative Name"),
    Row(0x4200DE, "Random Number Generator"),
    Row(0x4200FB, "PKCS#12 Friendly Name"),
    Row(0x4200FC, "Description"),
    Row(0x4200FD, "Comment"),
    Row(0x420120, "Sensitive"),
    Row(0x420121, "Always Sensitive"),
    Row(0x420122, "Extractable"),
    Row(0x420123, "Never Extractable"),
    Row(0x420136, "Short Unique Identifier"),
    Row(0x42013A, "NIST Key Type"),
    Row(0x420145, "Protection Level"),
    Row(0x420146, "Protection Period"),
    Row(0x420147, "Quantum Safe"),
    Row(0x42015E, "Protection Storage Mask"),
];

// The tag in the first of these rows that has this name.
fn tag_among(rows: &[Row], name: &str) -> Option<u32>
    ensures { result ≡ tag_among (map row_of rows.now) name.now }
{
    for row in rows {
        if row.1 == name {
            return Some(row.0);
        }
    }
    None
}

// The name in the first of these rows that has this tag.
fn name_among(rows: &[Row], tag: u32) -> Option<&'static str>
    ensures { option_map (λ name. name.now) result ≡ name_among (map row_of rows.now) tag }
{
    for row in rows {
        if row.0 == tag {
            return Some(row.1);
        }
    }
    None
}

/// The tag of the attribute of this name: that of a name of the standard, such as `State`; or of any other attribute, if its name is the
/// digits of a tag, as `0x4201FF`.
#[tactic(auto, unfolding(crate::specs::Names::attribute_tag))]
pub fn attribute_tag(name: &str) -> Option<u32>
    ensures { result ≡ attribute_tag name.now }
{
    match tag_among(&NAMES, name) {
        Some(tag) => Some(tag),
        None => match TtlvTag::from_name(name) {
            Some(tag) => Some(*tag),
            None => None,
        },
    }
}

// The name that the standard gives the attribute of this tag.
#[tactic(auto, unfolding(crate::specs::Names::attribute_names))]
fn standard_name(tag: u32) -> Option<&'static str>
    ensures { option_map (λ name. name.now) result ≡ name_among attribute_names tag }
{
    name_among(&NAMES, tag)
}

// The digits of a tag, behind `0x`.
fn digits_of<A: Allocator + Copy>(alloc: A, tag: TtlvTag) -> Result<String<A>, AllocError>
    ensures { IfOk result (λ text. string_bytes text ≡ tag_text tag) }
{
    let digits = tag.digits();
    let mut text = "0x".to_string(alloc)?;
    text.push_str(unsafe { str::from_utf8_unchecked(&digits) })?;
    Ok(text)
}

/// The name of the attribute of this tag: that of the standard, or the tag's digits, as `0x4201FF`. Fails if memory runs out.
#[tactic(auto, unfolding(crate::specs::Names::attribute_name))]
pub fn attribute_name<A: Allocator + Copy>(alloc: A, tag: TtlvTag) -> Result<String<A>, AllocError>
    ensures { IfOk result (λ name. string_bytes name ≡ attribute_name tag) }
{
    match standard_name(*tag) {
        Some(name) => name.to_string(alloc),
        None => digits_of(alloc, tag),
    }
}
