//! The calls that name tags, values and the bits of masks, by the tables of the KMIP specifications.

ghost use Rattle.std.specs.Prelude.{◌≡◌, ◌-◌, ◌<◌, ◌^◌, option_map, OnOk, IfOk, string_bytes};
ghost use Rattle.kmip_ttlv_util.specs.TagNames.{name_in};
ghost use Rattle.kmip_ttlv_names.specs.ValueNames.{name_of_value};
ghost use Rattle.kmip_ttlv_c.specs.Buffers.{AnswersText};
ghost use Rattle.kmip_ttlv_c.specs.NameTexts.{name_by, value_in, joined, set_name, bits_joined, mask_text, tag_name, value_name, mask_names, IsName, NameFails};

use crate::buffer::offer;
use crate::status::{NO_NAME, OUT_OF_MEMORY};
use kmip_ttlv_names::{standard_masks, standard_names, standard_values, value_name};
use kmip_ttlv_types::TtlvTag;
use kmip_ttlv_util::LentTagMap;
use std::alloc::{AllocError, Allocator, Global};

/// What a table has for a number, if that is a tag.
fn name_by<'n, A: Allocator>(names: &LentTagMap<'n, A>, number: u32) -> Option<&'n str>
    ensures { option_map (λ s. s.now) result ≡ name_by (name_in names.now) number }
{
    match TtlvTag::from_number(number) {
        Some(tag) => names.get(&tag).copied(),
        None => None,
    }
}

/// Writes a name, if there is one.
fn offer_name(name: Option<&str>, out: &mut [u8], length: &mut usize) -> u32
    ensures { AnswersText (IsName (option_map (λ s. s.now) name.entry)) (NameFails (option_map (λ s. s.now) name.entry)) result length.new out.old out.new }
{
    match name {
        Some(name) => offer(name.as_bytes(), out, length),
        None => {
            *length = 0;
            NO_NAME
        }
    }
}

/// Writes the name of a tag in the KMIP specifications.
#[unsafe(no_mangle)]
pub extern "C" fn kmip_ttlv_tag_name(
    alloc: Global,
    tag: u32,
    out: &mut [u8],
    length: &mut usize,
) -> u32
    ensures { AnswersText (IsName (tag_name tag)) (NameFails (tag_name tag)) result length.new out.old out.new }
{
    *length = 0;
    let Ok(names) = standard_names(alloc) else {
        return OUT_OF_MEMORY;
    };
    offer_name(name_by(&names, tag), out, length)
}

/// The name of a value in a list, if there is one.
fn value_in(list: Option<&str>, value: u32) -> Option<&str>
    ensures { option_map (λ s. s.now) result ≡ value_in (option_map (λ s. s.now) list.entry) value }
{
    match list {
        Some(list) => value_name(list, value),
        None => None,
    }
}

/// Writes the name of a value of an Enumeration in the KMIP specifications.
#[unsafe(no_mangle)]
pub extern "C" fn kmip_ttlv_value_name(
    alloc: Global,
    tag: u32,
    value: u32,
    out: &mut [u8],
    length: &mut usize,
) -> u32
    ensures { AnswersText (IsName (value_name tag value)) (NameFails (value_name tag value)) result length.new out.old out.new }
{
    *length = 0;
    let Ok(lists) = standard_values(alloc) else {
        return OUT_OF_MEMORY;
    };
    offer_name(value_in(name_by(&lists, tag), value), out, length)
}

/// Adds a name to others, if there is one.
fn join_name<A: Allocator>(text: &mut String<A>, name: Option<&str>) -> Result<(), AllocError>
    ensures { OnOk result (string_bytes text.new ≡ joined (string_bytes text.old) (option_map (λ s. s.now) name.entry)) }
{
    let Some(name) = name else {
        return Ok(());
    };
    if !text.is_empty() {
        text.push_str(" | ")?;
    }
    text.push_str(name)
}

/// The name of a bit in a list, if it is set and has one.
fn set_name(list: &str, place: u32, is_set: bool) -> Option<&str>
    requires { place < 32 }
    ensures { option_map (λ s. s.now) result ≡ set_name (λ bit. name_of_value bit list.now) (2 ^ place) is_set }
{
    if is_set {
        value_name(list, 1 << place)
    } else {
        None
    }
}

/// The names of the bits of a mask that are set, from the lowest on.
fn names_of_bits(alloc: Global, list: &str, mask: u32) -> Result<String, AllocError>
    ensures { IfOk result (λ r. string_bytes r ≡ mask_text (λ bit. name_of_value bit list.now) mask) }
{
    let mut text = String::new(alloc);
    let mut rest = mask;
    for place in 0..32 {
        join_name(&mut text, set_name(list, place, rest % 2 == 1))?;
        rest /= 2;
    }
    Ok(text)
}

/// Writes the names of the bits that are set in a mask of the KMIP specifications.
#[unsafe(no_mangle)]
pub extern "C" fn kmip_ttlv_mask_names(
    alloc: Global,
    tag: u32,
    mask: u32,
    out: &mut [u8],
    length: &mut usize,
) -> u32
    ensures { AnswersText (IsName (mask_names tag mask)) (NameFails (mask_names tag mask)) result length.new out.old out.new }
{
    *length = 0;
    let Ok(lists) = standard_masks(alloc) else {
        return OUT_OF_MEMORY;
    };
    let Some(list) = name_by(&lists, tag) else {
        return NO_NAME;
    };
    let Ok(text) = names_of_bits(alloc, list, mask) else {
        return OUT_OF_MEMORY;
    };
    offer(text.as_bytes(), out, length)
}
