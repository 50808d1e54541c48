//! The bytes that the text of a value stands for.

ghost use Rattle.std.specs.Prelude.{◌≡◌, IfOk, option_map};
ghost use Rattle.std.specs.Int.{w32, w64, to_be_bytes};
ghost use Rattle.kmip_ttlv_xml.specs.XmlItems.{integer_of_text, long_in, interval_in, truth_of, plain_content, digits_or_plain, text_content};
ghost use Rattle.kmip_ttlv_xml.specs.Decimals.{whole_of as a_whole_of};

use crate::decimal::{long_of, whole_of};
use kmip_ttlv_json::values::{behind_0x, bytes_of, integer_of, interval_of};
use kmip_ttlv_types::{TtlvTag, TtlvType};
use kmip_words::{LateWords, date_of};
use std::alloc::{AllocError, Allocator};

// The four bytes of a number.
fn short<A: Allocator>(alloc: A, number: Option<u32>) -> Result<Option<Vec<u8, A>>, AllocError>
    ensures { IfOk result (λ o. option_map (λ v. v.items) o ≡ option_map (to_be_bytes w32) number) }
{
    match number {
        Some(number) => Ok(Some(Vec::from_slice(alloc, &number.to_be_bytes())?)),
        None => Ok(None),
    }
}

// The eight bytes of a number.
fn long<A: Allocator>(alloc: A, number: Option<u64>) -> Result<Option<Vec<u8, A>>, AllocError>
    ensures { IfOk result (λ o. option_map (λ v. v.items) o ≡ option_map (to_be_bytes w64) number) }
{
    match number {
        Some(number) => Ok(Some(Vec::from_slice(alloc, &number.to_be_bytes())?)),
        None => Ok(None),
    }
}

// The number of an Integer: a whole number, or the words of a mask.
fn integer_of_text<A: Allocator + Copy>(
    alloc: A,
    words: &mut LateWords<A>,
    tag: TtlvTag,
    text: &str,
) -> Result<Option<u32>, AllocError>
    ensures { IfOk result (λ o. o ≡ integer_of_text tag text.now) }
{
    if let Some(whole) = whole_of(text) {
        if let Some(number) = integer_of(whole) {
            return Ok(Some(number));
        }
    }
    words.mask_of(alloc, tag, ' ', text)
}

// The number of a Long Integer.
fn long_in(text: &str) -> Option<u64>
    ensures { result ≡ long_in (a_whole_of text.now) }
{
    long_of(whole_of(text)?)
}

// The number of an Interval.
fn interval_in(text: &str) -> Option<u32>
    ensures { result ≡ interval_in (a_whole_of text.now) }
{
    interval_of(whole_of(text)?)
}

// The number of a Boolean.
fn truth_of(text: &str) -> Option<u64>
    ensures { result ≡ truth_of text.now }
{
    match text {
        "true" => Some(1),
        "false" => Some(0),
        _ => None,
    }
}

// The content of a text without `0x`.
fn plain_content<A: Allocator + Copy>(
    alloc: A,
    words: &mut LateWords<A>,
    tag: TtlvTag,
    typ: TtlvType,
    text: &str,
) -> Result<Option<Vec<u8, A>>, AllocError>
    ensures { IfOk result (λ o. option_map (λ v. v.items) o ≡ plain_content tag typ text.now) }
{
    match typ {
        TtlvType::Integer => short(alloc, integer_of_text(alloc, words, tag, text)?),
        TtlvType::LongInteger => long(alloc, long_in(text)),
        TtlvType::BigInteger => bytes_of(alloc, text.as_bytes()),
        TtlvType::Enumeration => short(alloc, words.value_of(alloc, tag, text)?),
        TtlvType::Boolean => long(alloc, truth_of(text)),
        TtlvType::DateTime => long(alloc, date_of(text)),
        TtlvType::Interval => short(alloc, interval_in(text)),
        _ => Ok(None),
    }
}

/// The content that a text stands for as the value of a leaf.
pub fn content_of<A: Allocator + Copy>(
    alloc: A,
    words: &mut LateWords<A>,
    tag: TtlvTag,
    typ: TtlvType,
    text: &str,
) -> Result<Option<Vec<u8, A>>, AllocError>
    ensures { IfOk result (λ o. option_map (λ v. v.items) o ≡ text_content tag typ text.now) }
{
    match typ {
        TtlvType::TextString => Ok(Some(Vec::from_slice(alloc, text.as_bytes())?)),
        TtlvType::ByteString => bytes_of(alloc, text.as_bytes()),
        _ => match behind_0x(text) {
            Some(digits) => bytes_of(alloc, digits),
            None => plain_content(alloc, words, tag, typ, text),
        },
    }
}
