//! The parts of names: what follows a prefix, the one variant that is a wrapper, and the numbers that
//! names are.
//!
//! All of it is inlined and, except in rare cases, calls nothing. So the compiler evaluates it for constant
//! names, where it inlines what they are passed to.

ghost use Rattle.std.specs.Prelude.{◌≡◌, ◌<◌, ◌≤◌, eqb, option_map, IfSome};
ghost use Rattle.std.specs.Str.Parse.{AllDigits};
ghost use Rattle.std.specs.List.{starts_with};
ghost use Rattle.std.specs.Char.{digit_value};
ghost use Rattle.kmip_ttlv_types.specs.Names.{transparent_name, override_name, numeral, number, tag_of};
ghost use Rattle.kmip_ttlv_ser.specs.NameTexts.{text_of};
ghost use Rattle.kmip_ttlv_ser.specs.WrittenItems.{without_override, is_wrapper};

use kmip_ttlv_types::{TtlvTag, number};

/// A name that a tag is taken from.
#[derive(Clone, Copy)]
pub enum Name {
    /// A text, which is a tag if it is a number below 2^24.
    Text(&'static str),
    /// The text of the tag of this number, of which the last 24 bits count.
    Number(u32),
}

/// Whether the bytes begin with the prefix.
#[inline(always)]
fn begins(bytes: &[u8], prefix: &[u8]) -> bool
    ensures { result ≡ starts_with eqb bytes.now prefix.now }
{
    if bytes.len() < prefix.len() {
        return false;
    }
    let mut at = 0;
    while at < prefix.len() {
        if bytes[at] != prefix[at] {
            return false;
        }
        at += 1;
    }
    true
}

/// What follows `Transparent:`, if a name begins with it.
#[inline(always)]
pub(crate) fn transparent_name(name: &'static str) -> Option<&'static str>
    ensures { option_map (λ s. s.now) result ≡ transparent_name name.now }
{
    if !begins(name.as_bytes(), b"Transparent:") {
        return None;
    }
    if name.is_char_boundary(12) {
        return Some(&name[12..]);
    }
    name.strip_prefix("Transparent:")
}

/// What follows `Override:`, if a name begins with it.
#[inline(always)]
pub(crate) fn override_name(name: &'static str) -> Option<&'static str>
    ensures { option_map (λ s. s.now) result ≡ override_name name.now }
{
    if !begins(name.as_bytes(), b"Override:") {
        return None;
    }
    if name.is_char_boundary(9) {
        return Some(&name[9..]);
    }
    name.strip_prefix("Override:")
}

/// A name without one leading `Override:`.
#[inline(always)]
pub(crate) fn without_override(name: &'static str) -> &'static str
    ensures { result.now ≡ without_override name.now }
{
    match override_name(name) {
        Some(rest) => rest,
        None => name,
    }
}

/// Whether a newtype variant of this name is a wrapper.
#[tactic(auto, unfolding(crate::specs::WrittenItems::is_wrapper))]
#[inline(always)]
pub(crate) fn is_wrapper(variant: &str) -> bool
    ensures { result ≡ is_wrapper variant.now }
{
    if variant.len() != 11 {
        return false;
    }
    begins(variant.as_bytes(), b"Transparent")
}

/// The value of a hexadecimal digit of either case; 16 for any other byte.
#[inline(always)]
fn value_of(byte: u8) -> u32
    ensures digit { result < 16 → result ≡ digit_value byte }
    ensures other { 16 ≤ result → 16 ≤ digit_value byte }
{
    match byte {
        b'0'..=b'9' => byte as u32 - 48,
        b'A'..=b'F' => byte as u32 - 55,
        b'a'..=b'f' => byte as u32 - 87,
        _ => 16,
    }
}

/// The number that these hexadecimal digits of either case are: at least one digit, and below 2^32.
#[inline(always)]
fn numeral(digits: &[u8]) -> Option<u32>
    ensures value { result ≡ numeral digits.now }
    ensures digits { IfSome result (λ _. AllDigits 16 digits.now) }
{
    let mut value: u32 = 0;
    let mut at = 0;
    while at < digits.len() {
        let digit = value_of(digits[at]);
        if digit >= 16 || value >= 0x1000_0000 {
            return None;
        }
        value = value * 16 + digit;
        at += 1;
    }
    if at == 0 { None } else { Some(value) }
}

/// The number that a text is. Texts with a second `0x`, or with a `+`, are left to the general function.
#[inline(always)]
pub(crate) fn number_of(text: &str) -> Option<u32>
    ensures { result ≡ number text.now }
{
    let bytes = text.as_bytes();
    let digits = if begins(bytes, b"0x") {
        &bytes[2..]
    } else {
        bytes
    };
    match numeral(digits) {
        Some(n) => Some(n),
        None => number(text),
    }
}

/// The tag that a name is, if it is one. That of a number is computed without its text.
#[tactic(auto, unfolding(kmip_ttlv_types::specs::Names::tag_of), using(kmip_ttlv_base::proofs::TagNames::tag_of_number))]
#[inline(always)]
pub(crate) fn tag_of(name: Name) -> Option<TtlvTag>
    ensures { result ≡ tag_of (text_of name) }
{
    match name {
        Name::Text(text) => TtlvTag::from_number(number_of(text)?),
        Name::Number(number) => TtlvTag::from_number(number % 0x0100_0000),
    }
}
