//! The words of masks.

ghost use Rattle.std.specs.Prelude.{◌≡◌, ◌<◌, [], IfOk, OnOk, option_map, string_bytes};
ghost use Rattle.kmip_ttlv_json.specs.declared.masks.TheConstants.{BITS as the_bits};
ghost use Rattle.kmip_words.specs.Words.{is_number, mask_of};
ghost use Rattle.kmip_ttlv_json.specs.Masks.{has_bit, behind, words_behind, mask_text};

use kmip_ttlv_types::TtlvTag;
use kmip_words::Words;
use std::alloc::{AllocError, Allocator};

// The bits that a mask may have, from the lowest on.
const BITS: [u32; 32] = [
    0x1,
    0x2,
    0x4,
    0x8,
    0x10,
    0x20,
    0x40,
    0x80,
    0x100,
    0x200,
    0x400,
    0x800,
    0x1000,
    0x2000,
    0x4000,
    0x8000,
    0x1_0000,
    0x2_0000,
    0x4_0000,
    0x8_0000,
    0x10_0000,
    0x20_0000,
    0x40_0000,
    0x80_0000,
    0x100_0000,
    0x200_0000,
    0x400_0000,
    0x800_0000,
    0x1000_0000,
    0x2000_0000,
    0x4000_0000,
    0x8000_0000,
];

// Whether a mask has a bit.
fn has_bit(mask: u32, bit: u32) -> bool
    ensures { result ≡ has_bit mask bit }
{
    mask & bit > 0
}

// Adds a word behind others, with a separator between them.
fn push_behind<A: Allocator>(
    text: &mut String<A>,
    separator: char,
    word: &str,
) -> Result<(), AllocError>
    requires { separator < 128 }
    ensures { OnOk result (string_bytes text.new ≡ behind separator (string_bytes text.old) word.now) }
{
    if !text.is_empty() {
        text.push(separator)?;
    }
    text.push_str(word)
}

// The words of a mask's bits, if each has one.
fn words_behind<A: Allocator>(
    alloc: A,
    words: &Words<A>,
    tag: TtlvTag,
    separator: char,
    mask: u32,
) -> Result<Option<String<A>>, AllocError>
    requires { separator < 128 }
    ensures { IfOk result (λ text. option_map (λ s. string_bytes s) text ≡ words_behind tag separator mask [] the_bits) }
{
    let mut text = String::new(alloc);
    let mut rest: &[u32] = &BITS;
    'bits: while let [bit, more @ ..] = rest {
        if has_bit(mask, *bit) {
            match words.value_word(tag, *bit) {
                Some(word) => push_behind(&mut text, separator, word)?,
                None => return Ok(None),
            }
        }
        rest = more;
    }
    Ok(Some(text))
}

// Whether a text is read as a mask.
fn is_read<A: Allocator>(
    words: &Words<A>,
    tag: TtlvTag,
    separator: char,
    mask: u32,
    text: &str,
) -> bool
    requires { separator < 128 }
    ensures { result ≡ is_number mask (mask_of tag separator text.now) }
{
    match words.mask_of(tag, separator, text) {
        Some(read) => read == mask,
        None => false,
    }
}

/// The words of a mask's bits with this byte between them, from the lowest bit on, if each has one, and the words are read as the mask.
/// JSON has `|` between them, XML a space.
///
/// The only error is out of memory.
pub fn mask_text<A: Allocator>(
    alloc: A,
    words: &Words<A>,
    tag: TtlvTag,
    separator: char,
    mask: u32,
) -> Result<Option<String<A>>, AllocError>
    requires { separator < 128 }
    ensures { IfOk result (λ text. option_map (λ s. string_bytes s) text ≡ mask_text tag separator mask) }
{
    let Some(text) = words_behind(alloc, words, tag, separator, mask)? else {
        return Ok(None);
    };
    if is_read(words, tag, separator, mask, text.as_str()) {
        Ok(Some(text))
    } else {
        Ok(None)
    }
}
