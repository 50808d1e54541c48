//! Canonical bytes of items, added to those of others.

ghost use Rattle.std.specs.Prelude.{◌≡◌, ◌+◌, ◌-◌, ◌≤◌, ◌++◌, Some, length, take, drop, option_map, OnOk, IfOk};
ghost use Rattle.std.specs.Int.{w32, w64, to_be_bytes};
ghost use Rattle.kmip_ttlv_types.specs.declared.typ.TtlvType.TheVariants.{Structure as AStructure};
ghost use Rattle.kmip_ttlv_types.specs.Items.{header};
ghost use Rattle.kmip_ttlv_types.specs.Trees.{leaf_bytes};
ghost use Rattle.kmip_ttlv_json.specs.JsonTrees.{leaf_of, content_of, bytes_of, word_content, text_content, truth_content, number_content, integer_of, long_of, interval_of};
ghost use Rattle.kmip_ttlv_json.specs.Events.{text_in, truth_in, whole_in, AddsItem};

use crate::failure::BadMember;
use crate::members::{behind_0x, bytes_of};
use crate::seen::{Seen, Whole};
use kmip_ttlv_types::places::is_valid;
use kmip_ttlv_types::{TtlvTag, TtlvType};
use kmip_words::{LateWords, date_of};
use std::alloc::{AllocError, Allocator};

// The four bytes of a length field, of a length that may be too long.
fn length_bytes(len: usize) -> [u8; 4]
    ensures { result ≡ to_be_bytes w32 len }
{
    let [_, _, _, _, a, b, c, d] = (len as u64).to_be_bytes();
    [a, b, c, d]
}

// The eight bytes of a header.
fn header_bytes(tag: TtlvTag, typ: TtlvType, len: usize) -> [u8; 8]
    ensures { result ≡ header tag typ len }
{
    let [a, b, c]: [u8; 3] = tag.into();
    let [d, e, f, g] = length_bytes(len);
    [a, b, c, typ.code(), d, e, f, g]
}

// Adds a leaf.
fn push_leaf<A: Allocator>(
    out: &mut Vec<u8, A>,
    tag: TtlvTag,
    typ: TtlvType,
    content: &[u8],
) -> Result<(), AllocError>
    ensures { OnOk result (out.new.items ≡ out.old.items ++ leaf_bytes tag typ content.now) }
{
    let padding = (8 - content.len() % 8) % 8;
    out.extend_from_slice(&header_bytes(tag, typ, content.len()))?;
    out.extend_from_slice(content)?;
    out.extend_from_slice(&[0; 8][..padding])?;
    Ok(())
}

/// Puts the header of a structure in front of what follows this offset and room for it.
pub fn set_header(out: &mut [u8], top: usize, tag: TtlvTag)
    requires { top + 8 ≤ length out.old }
    ensures { out.new ≡ take top out.old ++ (header tag AStructure (length out.old - (top + 8)) ++ drop (top + 8) out.old) }
{
    let len = out.len() - (top + 8);
    out[top..top + 8].copy_from_slice(&header_bytes(tag, TtlvType::Structure, len));
}

// Adds the leaf that has this content, if it is valid.
fn push_valid<A: Allocator>(
    out: &mut Vec<u8, A>,
    tag: TtlvTag,
    typ: TtlvType,
    content: &[u8],
) -> Result<Result<bool, BadMember>, AllocError>
    ensures { IfOk result (AddsItem (leaf_of tag typ (Some content.now)) out.old.items out.new.items) }
{
    if !is_valid(typ, content) {
        return Ok(Err(BadMember::Value));
    }
    push_leaf(out, tag, typ, content)?;
    Ok(Ok(false))
}

// Adds the leaf whose content has these digits.
fn push_digits<A: Allocator + Copy>(
    alloc: A,
    out: &mut Vec<u8, A>,
    tag: TtlvTag,
    typ: TtlvType,
    digits: &[u8],
) -> Result<Result<bool, BadMember>, AllocError>
    ensures { IfOk result (AddsItem (leaf_of tag typ (bytes_of digits.now)) out.old.items out.new.items) }
{
    match bytes_of(alloc, digits)? {
        Some(content) => push_valid(out, tag, typ, content.as_slice()),
        None => Ok(Err(BadMember::Value)),
    }
}

// Adds the leaf whose content is a number of 32 bits, if there is one.
fn push_short<A: Allocator>(
    out: &mut Vec<u8, A>,
    tag: TtlvTag,
    typ: TtlvType,
    number: Option<u32>,
) -> Result<Result<bool, BadMember>, AllocError>
    ensures { IfOk result (AddsItem (leaf_of tag typ (option_map (to_be_bytes w32) number)) out.old.items out.new.items) }
{
    match number {
        Some(number) => push_valid(out, tag, typ, &number.to_be_bytes()),
        None => Ok(Err(BadMember::Value)),
    }
}

// The same of 64 bits.
fn push_long<A: Allocator>(
    out: &mut Vec<u8, A>,
    tag: TtlvTag,
    typ: TtlvType,
    number: Option<u64>,
) -> Result<Result<bool, BadMember>, AllocError>
    ensures { IfOk result (AddsItem (leaf_of tag typ (option_map (to_be_bytes w64) number)) out.old.items out.new.items) }
{
    match number {
        Some(number) => push_valid(out, tag, typ, &number.to_be_bytes()),
        None => Ok(Err(BadMember::Value)),
    }
}

// Adds the leaf whose value has this word: of a mask, of an enumeration, or the text of a date.
fn push_word<A: Allocator + Copy>(
    alloc: A,
    words: &mut LateWords<A>,
    out: &mut Vec<u8, A>,
    tag: TtlvTag,
    typ: TtlvType,
    text: &str,
) -> Result<Result<bool, BadMember>, AllocError>
    ensures { IfOk result (AddsItem (leaf_of tag typ (word_content tag typ text.now)) out.old.items out.new.items) }
{
    match typ {
        TtlvType::Integer => push_short(out, tag, typ, words.mask_of(alloc, tag, '|', text)?),
        TtlvType::Enumeration => push_short(out, tag, typ, words.value_of(alloc, tag, text)?),
        TtlvType::DateTime => push_long(out, tag, typ, date_of(text)),
        _ => Ok(Err(BadMember::Value)),
    }
}

// Adds the leaf that has this text.
fn push_text<A: Allocator + Copy>(
    alloc: A,
    words: &mut LateWords<A>,
    out: &mut Vec<u8, A>,
    tag: TtlvTag,
    typ: TtlvType,
    text: &str,
) -> Result<Result<bool, BadMember>, AllocError>
    ensures { IfOk result (AddsItem (leaf_of tag typ (text_content tag typ text.now)) out.old.items out.new.items) }
{
    match typ {
        TtlvType::TextString => push_valid(out, tag, typ, text.as_bytes()),
        TtlvType::ByteString => push_digits(alloc, out, tag, typ, text.as_bytes()),
        _ => match behind_0x(text) {
            Some(digits) => push_digits(alloc, out, tag, typ, digits),
            None => push_word(alloc, words, out, tag, typ, text),
        },
    }
}

// Adds the leaf that is `true` or `false`.
fn push_truth<A: Allocator>(
    out: &mut Vec<u8, A>,
    tag: TtlvTag,
    typ: TtlvType,
    truth: bool,
) -> Result<Result<bool, BadMember>, AllocError>
    ensures { IfOk result (AddsItem (leaf_of tag typ (truth_content typ truth)) out.old.items out.new.items) }
{
    match typ {
        TtlvType::Boolean => push_valid(out, tag, typ, &u64::from(truth).to_be_bytes()),
        _ => Ok(Err(BadMember::Value)),
    }
}

/// The number that 32 bits are for a whole number, if it is an Integer.
pub fn integer_of(whole: Whole) -> Option<u32>
    ensures { result ≡ integer_of whole.minus whole.size }
{
    if whole.minus {
        if 0 < whole.size && whole.size <= 1 << 31 {
            Some(((1 << 32) - whole.size) as u32)
        } else {
            None
        }
    } else if whole.size < 1 << 31 {
        Some(whole.size as u32)
    } else {
        None
    }
}

// The number that 64 bits are for a whole number that JSON may have as one: of 2^52 at most.
fn long_of(whole: Whole) -> Option<u64>
    ensures { result ≡ long_of whole.minus whole.size }
{
    if whole.size > 1 << 52 {
        return None;
    }
    if whole.minus {
        Some(0u64.wrapping_sub(whole.size))
    } else {
        Some(whole.size)
    }
}

/// The number of an Interval.
pub fn interval_of(whole: Whole) -> Option<u32>
    ensures { result ≡ interval_of whole.minus whole.size }
{
    if whole.minus || whole.size >= 1 << 32 {
        None
    } else {
        Some(whole.size as u32)
    }
}

// Adds the leaf of this number.
fn push_number<A: Allocator>(
    out: &mut Vec<u8, A>,
    tag: TtlvTag,
    typ: TtlvType,
    whole: Whole,
) -> Result<Result<bool, BadMember>, AllocError>
    ensures { IfOk result (AddsItem (leaf_of tag typ (number_content typ whole.minus whole.size)) out.old.items out.new.items) }
{
    match typ {
        TtlvType::Integer => push_short(out, tag, typ, integer_of(whole)),
        TtlvType::LongInteger | TtlvType::BigInteger => push_long(out, tag, typ, long_of(whole)),
        TtlvType::Interval => push_short(out, tag, typ, interval_of(whole)),
        _ => Ok(Err(BadMember::Value)),
    }
}

/// Adds the leaf that has this value, or gives what is wrong with it.
pub fn push_value<A: Allocator + Copy>(
    alloc: A,
    words: &mut LateWords<A>,
    out: &mut Vec<u8, A>,
    tag: TtlvTag,
    typ: TtlvType,
    value: Seen<'_>,
) -> Result<Result<bool, BadMember>, AllocError>
    ensures { IfOk result (AddsItem (leaf_of tag typ (content_of tag typ (text_in value.entry) (truth_in value.entry) (whole_in value.entry)))
        out.old.items out.new.items) }
{
    match value {
        Seen::Text(text) => push_text(alloc, words, out, tag, typ, text),
        Seen::Truth(truth) => push_truth(out, tag, typ, truth),
        Seen::Number(Some(whole)) => push_number(out, tag, typ, whole),
        _ => Ok(Err(BadMember::Value)),
    }
}
