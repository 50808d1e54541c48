//! Attributes written, and the characters that can't be.

ghost use Rattle.std.specs.Prelude.{◌≡◌, ◌≤◌, ◌++◌, length, IfOk, OnOk, option_map, position, not, string_bytes, encode_utf8_all};
ghost use Rattle.std.specs.Str.{chars};
ghost use Rattle.plain_xml.specs.Characters.{is_character};
ghost use Rattle.plain_xml.specs.Forms.{spelled};
ghost use Rattle.plain_xml.specs.Writings.{spelling_of, escaped};
ghost use Rattle.plain_xml.specs.Places.{bytes_before};

use crate::reading::{byte_len, characters_of, wrong_character};
use std::alloc::{AllocError, Allocator};

// The offset of the first character that XML can't hold, in a text of so many bytes at most.
#[tactic(auto, using(crate::proofs::Offsets::length_encodes_take))]
fn wrong_in(size: usize, text: &[char]) -> Option<usize>
    requires small { length (encode_utf8_all text.now) ≤ size }
    ensures { result ≡ option_map (bytes_before text.now) (position (λ c. not (is_character c)) text.now) }
{
    match wrong_character(text) {
        Some(at) => Some(byte_len(&text[..at])),
        None => None,
    }
}

/// Returns the offset in bytes of a text's first character that XML can't hold (2.2): a control character but tab, line feed and carriage
/// return, U+FFFE or U+FFFF. The only error is out of memory.
pub fn wrong_offset<A: Allocator + Copy>(alloc: A, text: &str) -> Result<Option<usize>, AllocError>
    ensures { IfOk result (λ o. o ≡ option_map (bytes_before (chars text.now)) (position (λ c. not (is_character c)) (chars text.now))) }
{
    let characters = characters_of(alloc, text)?;
    Ok(wrong_in(text.len(), characters.as_slice()))
}

// Adds a character of an attribute's value.
#[tactic(auto, unfolding(crate::specs::Writings::spelling_of))]
fn push_character<A: Allocator>(out: &mut String<A>, c: char) -> Result<(), AllocError>
    ensures { OnOk result (string_bytes out.new ≡ string_bytes out.old ++ encode_utf8_all (spelled (spelling_of c))) }
{
    match c {
        '&' => out.push_str("&amp;"),
        '<' => out.push_str("&lt;"),
        '"' => out.push_str("&quot;"),
        '\t' => out.push_str("&#9;"),
        '\n' => out.push_str("&#10;"),
        '\r' => out.push_str("&#13;"),
        _ => out.push(c),
    }
}

/// Adds the text of an attribute's value between double quotes, in its canonical form. The only error is out of memory.
pub fn push_escaped<A: Allocator>(out: &mut String<A>, value: &str) -> Result<(), AllocError>
    ensures { OnOk result (string_bytes out.new ≡ string_bytes out.old ++ encode_utf8_all (escaped (chars value.now))) }
{
    for c in value.chars() {
        push_character(out, c)?;
    }
    Ok(())
}
