//! Texts and bytes as JSON strings.

ghost use Rattle.std.specs.Prelude.{◌≡◌, ◌<◌, ◌++◌, ◌∷◌, [], OnOk, OnErr, true, codes, encode_utf8};
ghost use Rattle.std.specs.Char.{digit_char};
ghost use Rattle.hex.specs.Hex.{encode_upper};
ghost use Rattle.json.specs.Print.{escape_byte};
ghost use Rattle.kmip_ttlv_types.specs.declared.typ.TtlvType.TheVariants.{TextString};
ghost use Rattle.kmip_ttlv_types.specs.Leaves.{is_valid};
ghost use Rattle.kmip_ttlv_json.specs.Spellings.{by_number, is_late_control, char_text, chars_text, spelled};
ghost use Rattle.kmip_ttlv_json.specs.Parts.{digits_text};

use kmip_ttlv_types::TtlvType;
use kmip_ttlv_util::{TextSink, push_value};
use std::str;

// Adds a character as it is.
fn push_plain<S: TextSink>(out: &mut S, c: char) -> Result<(), S::Error>
    ensures ok { OnOk result (S.adds out.old (encode_utf8 c) out.new) }
    ensures err { OnErr result (S.breaks out.old (encode_utf8 c) out.new) }
{
    let mut room = [0; 4];
    out.push_str(c.encode_utf8(&mut room))
}

// A hexadecimal digit, in lowercase.
fn digit(value: u32) -> u8
    requires { value < 16 }
    ensures is { result ≡ digit_char value }
    ensures ascii { result < 128 }
{
    let value = value as u8;
    if value < 10 {
        b'0' + value
    } else {
        b'a' - 10 + value
    }
}

// Adds a control character by its number.
fn push_by_number<S: TextSink>(out: &mut S, c: u8) -> Result<(), S::Error>
    ensures ok { OnOk result (S.adds out.old (by_number c) out.new) }
    ensures err { OnErr result (S.breaks out.old (by_number c) out.new) }
{
    let (high, low) = (digit(c as u32 / 16), digit(c as u32 % 16));
    let text = [b'\\', b'u', b'0', b'0', high, low];
    out.push_str(unsafe { str::from_utf8_unchecked(&text) })
}

// Adds an ASCII character as it is.
fn push_byte<S: TextSink>(out: &mut S, c: u8) -> Result<(), S::Error>
    requires { c < 128 }
    ensures ok { OnOk result (S.adds out.old (c ∷ []) out.new) }
    ensures err { OnErr result (S.breaks out.old (c ∷ []) out.new) }
{
    let text = [c];
    out.push_str(unsafe { str::from_utf8_unchecked(&text) })
}

// Adds an ASCII character of a JSON string.
#[tactic(auto, unfolding(json::specs::Print::escape_byte))]
fn push_ascii<S: TextSink>(out: &mut S, c: u8) -> Result<(), S::Error>
    requires { c < 128 }
    ensures ok { OnOk result (S.adds out.old (escape_byte c) out.new) }
    ensures err { OnErr result (S.breaks out.old (escape_byte c) out.new) }
{
    match c {
        b'"' => out.push_str("\\\""),
        b'\\' => out.push_str("\\\\"),
        8 => out.push_str("\\b"),
        12 => out.push_str("\\f"),
        b'\n' => out.push_str("\\n"),
        b'\r' => out.push_str("\\r"),
        b'\t' => out.push_str("\\t"),
        0..=31 => push_by_number(out, c),
        _ => push_byte(out, c),
    }
}

// Whether a character is a control character from U+007F on.
fn is_late_control(number: u32) -> bool
    ensures { result ≡ is_late_control number }
{
    126 < number && number < 160
}

// Adds a character of a JSON string.
#[tactic(auto, unfolding(crate::specs::Spellings::char_text))]
fn push_char<S: TextSink>(out: &mut S, c: char) -> Result<(), S::Error>
    ensures ok { OnOk result (S.adds out.old (char_text c) out.new) }
    ensures err { OnErr result (S.breaks out.old (char_text c) out.new) }
{
    let number = c as u32;
    if is_late_control(number) {
        return push_by_number(out, number as u8);
    }
    if number < 128 {
        return push_ascii(out, number as u8);
    }
    push_plain(out, c)
}

// Adds the characters of a JSON string.
fn push_escaped<S: TextSink>(out: &mut S, text: &[u8]) -> Result<(), S::Error>
    requires { is_valid TextString text.now ≡ true }
    ensures ok { OnOk result (S.adds out.old (chars_text text.now) out.new) }
    ensures err { OnErr result (S.breaks out.old (chars_text text.now) out.new) }
{
    let text = unsafe { str::from_utf8_unchecked(text) };
    for c in text.chars() {
        push_char(out, c)?;
    }
    Ok(())
}

// Adds the characters of a JSON string, and its end.
fn push_rest<S: TextSink>(out: &mut S, text: &[u8]) -> Result<(), S::Error>
    requires { is_valid TextString text.now ≡ true }
    ensures ok { OnOk result (S.adds out.old (chars_text text.now ++ codes "\"") out.new) }
    ensures err { OnErr result (S.breaks out.old (chars_text text.now ++ codes "\"") out.new) }
{
    push_escaped(out, text)?;
    out.push_str("\"")
}

/// Adds a text as a JSON string.
pub fn push_quoted<S: TextSink>(out: &mut S, text: &[u8]) -> Result<(), S::Error>
    requires { is_valid TextString text.now ≡ true }
    ensures ok { OnOk result (S.adds out.old (spelled text.now) out.new) }
    ensures err { OnErr result (S.breaks out.old (spelled text.now) out.new) }
{
    out.push_str("\"")?;
    push_rest(out, text)
}

/// Adds the hexadecimal digits of bytes, in uppercase.
pub fn push_hex<S: TextSink>(out: &mut S, bytes: &[u8]) -> Result<(), S::Error>
    ensures ok { OnOk result (S.adds out.old (encode_upper bytes.now) out.new) }
    ensures err { OnErr result (S.breaks out.old (encode_upper bytes.now) out.new) }
{
    push_value(out, TtlvType::ByteString, bytes)
}

// Adds digits, and the end of their JSON string.
fn push_last_digits<S: TextSink>(out: &mut S, content: &[u8]) -> Result<(), S::Error>
    ensures ok { OnOk result (S.adds out.old (encode_upper content.now ++ codes "\"") out.new) }
    ensures err { OnErr result (S.breaks out.old (encode_upper content.now ++ codes "\"") out.new) }
{
    push_hex(out, content)?;
    out.push_str("\"")
}

/// Adds bytes as a JSON string of digits behind what stands in front of them.
pub fn push_digits_text<S: TextSink>(
    out: &mut S,
    front: &str,
    content: &[u8],
) -> Result<(), S::Error>
    ensures ok { OnOk result (S.adds out.old (digits_text front.now content.now) out.new) }
    ensures err { OnErr result (S.breaks out.old (digits_text front.now content.now) out.new) }
{
    out.push_str(front)?;
    push_last_digits(out, content)
}
