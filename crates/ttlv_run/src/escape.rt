//! Texts as they stand in a line: control characters, those that can't be seen, and backslashes are escaped.

ghost use Rattle.std.specs.Prelude.{◌≡◌, ◌<◌, ◌≤◌, ◌/◌, ◌%◌, ◌^◌, ◌++◌, ◌∷◌, ℕ, List, [], length, take, true, false, OnOk, OnErr, codes, encode_utf8};
ghost use Rattle.std.specs.List.{list_all};
ghost use Rattle.std.specs.Fmt.{digit_glyph};
ghost use Rattle.kmip_ttlv_types.specs.declared.typ.TtlvType.TheVariants.{TextString};
ghost use Rattle.kmip_ttlv_types.specs.Leaves.{is_valid};
ghost use Rattle.kmip_ttlv_util.specs.Pieces.{Moves, Stops, buffered};
ghost use Rattle.kmip_ttlv_util.specs.Sinks.{moves_none, moves_both, stops_first, stops_second};
ghost use Rattle.ttlv_run.specs.Columns.{in_range};
ghost use Rattle.ttlv_run.specs.Escapes.{byte_hex, short_hex, word_hex, number_hex, is_unseen_low, is_unseen_middle, is_unseen_high, is_unseen, is_hidden, is_bare_ascii, escaped_char, escape};

use kmip_ttlv_types::stream::Sink;
use kmip_ttlv_util::{Pieces, TextSink};
use std::io::{self, Error};
use std::str;

/// A sink that escaped texts are appended to: any [`TextSink`], or a [`NameSink`].
///
/// Nothing but the sink can make appending fail, where a text sink may be told that memory ran out.
pub trait PlainSink {
    /// Why a part can't be appended.
    type Error;

    // The second is the first with a text appended.
    ghost adds: { Self → List ℕ → Self → Type 0 };

    // The second is the first after appending a text failed: a beginning of the text was appended.
    ghost breaks: { Self → List ℕ → Self → Type 0 };

    /// Appends a text. On error a beginning of it may have been appended.
    fn append(&mut self, text: &str) -> Result<(), Self::Error>
        ensures ok { OnOk result (adds self.old text.now self.new) }
        ensures err { OnErr result (breaks self.old text.now self.new) };

    // Appending the empty text changes nothing.
    ghost adds_none: { (a : Self) → adds a [] a };

    // Appending two texts appends both of them, one after the other.
    ghost adds_both: { (a b c : Self) (s t : List ℕ) → adds a s b → adds b t c → adds a (s ++ t) c };

    // If appending the first of two texts failed, so did appending both.
    ghost breaks_first: { (a b : Self) (s t : List ℕ) → breaks a s b → breaks a (s ++ t) b };

    // If appending the second of two texts failed, so did appending both.
    ghost breaks_second: { (a b c : Self) (s t : List ℕ) → adds a s b → breaks b t c → breaks a (s ++ t) c };
}

impl<S: TextSink> PlainSink for S {
    type Error = S::Error;

    ghost adds = { λ a text b. S.adds a text b };

    ghost breaks = { λ a text b. S.breaks a text b };

    ghost adds_none = { λ a. S.adds_none a };

    ghost adds_both = { λ a b c s t. S.adds_both a b c s t };

    ghost breaks_first = { λ a b s t. S.breaks_first a b s t };

    ghost breaks_second = { λ a b c s t. S.breaks_second a b c s t };

    #[inline(always)]
    fn append(&mut self, text: &str) -> Result<(), S::Error> {
        self.push_str(text)
    }
}

/// Pieces before a sink that take no memory, so that only the sink fails.
#[derive(Drop)]
pub struct NameSink<'e, E: Sink>(pub Pieces<'e, E>);

impl<E: Sink> PlainSink for NameSink<'_, E> {
    type Error = Error;

    ghost adds = { λ a text b. Moves (buffered E.emitted E.room a.0) text (buffered E.emitted E.room b.0) };

    ghost breaks = { λ a text b. Stops (buffered E.emitted E.room a.0) text (buffered E.emitted E.room b.0) };

    ghost adds_none = { λ a. moves_none (buffered E.emitted E.room a.0) };

    ghost adds_both = { λ a b c s t. moves_both (buffered E.emitted E.room a.0) (buffered E.emitted E.room b.0)
        (buffered E.emitted E.room c.0) s t };

    ghost breaks_first = { λ a b s t. stops_first (buffered E.emitted E.room a.0) (buffered E.emitted E.room b.0) s t };

    ghost breaks_second = { λ a b c s t. stops_second (buffered E.emitted E.room a.0) (buffered E.emitted E.room b.0)
        (buffered E.emitted E.room c.0) s t };

    fn append(&mut self, text: &str) -> io::Result<()> {
        self.0.push(text.as_bytes())
    }
}

// A hexadecimal digit, in lowercase.
fn digit(value: u32) -> u8
    requires { value < 16 }
    ensures is { result ≡ digit_glyph false value }
    ensures ascii { result < 128 }
{
    let value = value as u8;
    if value < 10 {
        b'0' + value
    } else {
        b'a' - 10 + value
    }
}

/// Adds a hexadecimal digit, in lowercase.
pub fn push_digit<S: PlainSink>(out: &mut S, value: u32) -> Result<(), S::Error>
    requires { value < 16 }
    ensures ok { OnOk result (S.adds out.old (digit_glyph false value ∷ []) out.new) }
    ensures err { OnErr result (S.breaks out.old (digit_glyph false value ∷ []) out.new) }
{
    let text = [digit(value)];
    out.append(unsafe { str::from_utf8_unchecked(&text) })
}

// Adds the two hexadecimal digits of a number.
fn push_byte_hex<S: PlainSink>(out: &mut S, value: u32) -> Result<(), S::Error>
    requires { value < 256 }
    ensures ok { OnOk result (S.adds out.old (byte_hex value) out.new) }
    ensures err { OnErr result (S.breaks out.old (byte_hex value) out.new) }
{
    let text = [digit(value / 16), digit(value % 16)];
    out.append(unsafe { str::from_utf8_unchecked(&text) })
}

// Adds the hexadecimal digits of a number, without a zero in front.
fn push_short_hex<S: PlainSink>(out: &mut S, value: u32) -> Result<(), S::Error>
    requires { value < 256 }
    ensures ok { OnOk result (S.adds out.old (short_hex value) out.new) }
    ensures err { OnErr result (S.breaks out.old (short_hex value) out.new) }
{
    if value >= 16 {
        push_digit(out, value / 16)?;
        return push_digit(out, value % 16);
    }
    push_digit(out, value)
}

/// The same, of two bytes.
pub fn push_word_hex<S: PlainSink>(out: &mut S, value: u32) -> Result<(), S::Error>
    requires { value < 65536 }
    ensures ok { OnOk result (S.adds out.old (word_hex value) out.new) }
    ensures err { OnErr result (S.breaks out.old (word_hex value) out.new) }
{
    if value >= 256 {
        push_short_hex(out, value / 256)?;
        return push_byte_hex(out, value % 256);
    }
    push_short_hex(out, value)
}

// Adds the four hexadecimal digits of a number.
fn push_two_bytes<S: PlainSink>(out: &mut S, value: u32) -> Result<(), S::Error>
    requires { value < 2 ^ 24 }
    ensures ok { OnOk result (S.adds out.old (byte_hex (value / 256 % 256) ++ byte_hex (value % 256)) out.new) }
    ensures err { OnErr result (S.breaks out.old (byte_hex (value / 256 % 256) ++ byte_hex (value % 256)) out.new) }
{
    push_byte_hex(out, value / 256 % 256)?;
    push_byte_hex(out, value % 256)
}

// The hexadecimal digits of a number of three bytes, without a zero in front.
#[tactic(auto, unfolding(crate::specs::Escapes::number_hex))]
fn push_number_hex<S: PlainSink>(out: &mut S, value: u32) -> Result<(), S::Error>
    requires { value < 2 ^ 24 }
    ensures ok { OnOk result (S.adds out.old (number_hex value) out.new) }
    ensures err { OnErr result (S.breaks out.old (number_hex value) out.new) }
{
    if value >= 65536 {
        push_short_hex(out, value / 65536)?;
        return push_two_bytes(out, value);
    }
    push_word_hex(out, value)
}

// Adds a character by its number.
fn push_by_number<S: PlainSink>(out: &mut S, c: char) -> Result<(), S::Error>
    ensures ok { OnOk result (S.adds out.old (codes "\\u{" ++ (number_hex c ++ codes "}")) out.new) }
    ensures err { OnErr result (S.breaks out.old (codes "\\u{" ++ (number_hex c ++ codes "}")) out.new) }
{
    out.append("\\u{")?;
    push_number_hex(out, c as u32)?;
    out.append("}")
}

// Whether a number is in a range.
fn is_in(least: u32, most: u32, c: u32) -> bool
    ensures { result ≡ in_range least most c }
{
    least <= c && c <= most
}

fn is_unseen_low(c: u32) -> bool
    ensures { result ≡ is_unseen_low c }
{
    c == 0xAD
        || c == 0x34F
        || c == 0x61C
        || is_in(0x115F, 0x1160, c)
        || is_in(0x17B4, 0x17B5, c)
        || is_in(0x180B, 0x180F, c)
}

fn is_unseen_middle(c: u32) -> bool
    ensures { result ≡ is_unseen_middle c }
{
    is_in(0x200B, 0x200F, c) || is_in(0x2028, 0x202E, c) || is_in(0x2060, 0x206F, c) || c == 0x3164
}

fn is_unseen_high(c: u32) -> bool
    ensures { result ≡ is_unseen_high c }
{
    is_in(0xFE00, 0xFE0F, c)
        || c == 0xFEFF
        || c == 0xFFA0
        || is_in(0xFFF0, 0xFFFB, c)
        || is_in(0x1BCA0, 0x1BCA3, c)
        || is_in(0x1D173, 0x1D17A, c)
        || is_in(0xE0000, 0xE0FFF, c)
}

// Whether a character can't be seen.
#[tactic(auto, unfolding(crate::specs::Escapes::is_unseen))]
fn is_unseen(c: char) -> bool
    ensures { result ≡ is_unseen c }
{
    let c = c as u32;
    is_unseen_low(c) || is_unseen_middle(c) || is_unseen_high(c)
}

/// Whether a line doesn't show a character as itself: it is a control character, or can't be seen.
pub fn is_hidden(c: char) -> bool
    ensures { result ≡ is_hidden c }
{
    c.is_control() || is_unseen(c)
}

// Adds a character as it is.
fn push_plain<S: PlainSink>(out: &mut S, c: char) -> Result<(), S::Error>
    ensures ok { OnOk result (S.adds out.old (encode_utf8 c) out.new) }
    ensures err { OnErr result (S.breaks out.old (encode_utf8 c) out.new) }
{
    let mut room = [0; 4];
    out.append(c.encode_utf8(&mut room))
}

// Adds a character; a control character, one that can't be seen or a backslash escaped.
#[tactic(auto, unfolding(crate::specs::Escapes::escaped_char))]
fn push_char<S: PlainSink>(out: &mut S, c: char) -> Result<(), S::Error>
    ensures ok { OnOk result (S.adds out.old (escaped_char c) out.new) }
    ensures err { OnErr result (S.breaks out.old (escaped_char c) out.new) }
{
    match c {
        '\0' => out.append("\\0"),
        '\t' => out.append("\\t"),
        '\n' => out.append("\\n"),
        '\r' => out.append("\\r"),
        '\\' => out.append("\\\\"),
        _ if is_hidden(c) => push_by_number(out, c),
        _ => push_plain(out, c),
    }
}

// Adds the characters of a text, one by one.
fn push_chars<S: PlainSink>(out: &mut S, text: &str) -> Result<(), S::Error>
    ensures ok { OnOk result (S.adds out.old (escape text.now) out.new) }
    ensures err { OnErr result (S.breaks out.old (escape text.now) out.new) }
{
    for c in text.chars() {
        push_char(out, c)?;
    }
    Ok(())
}

// Whether a byte is a character that stands in a line as it is: ASCII that is neither a control character nor a backslash.
fn is_bare_ascii(b: u8) -> bool
    ensures { result ≡ is_bare_ascii b }
{
    31 < b && b < 127 && b != 92
}

// How many bytes in front of some stand in a line as they are.
fn shown_front(bytes: &[u8]) -> usize
    ensures within { result ≤ length bytes.now }
    ensures all { list_all is_bare_ascii (take result bytes.now) ≡ true }
{
    let mut count = 0;
    'bytes: while count < bytes.len() && is_bare_ascii(bytes[count]) {
        count += 1;
    }
    count
}

/// Adds a text with its control characters, those that can't be seen, and its backslashes escaped.
///
/// It fails where the sink fails.
pub fn push_text<S: PlainSink>(out: &mut S, text: &str) -> Result<(), S::Error>
    ensures ok { OnOk result (S.adds out.old (escape text.now) out.new) }
    ensures err { OnErr result (S.breaks out.old (escape text.now) out.new) }
{
    let (front, rest) = text.split_at(shown_front(text.as_bytes()));
    out.append(front)?;
    push_chars(out, rest)
}

/// The same, of the bytes of a text.
pub fn push_escaped<S: PlainSink>(out: &mut S, text: &[u8]) -> Result<(), S::Error>
    requires { is_valid TextString text.now ≡ true }
    ensures ok { OnOk result (S.adds out.old (escape text.now) out.new) }
    ensures err { OnErr result (S.breaks out.old (escape text.now) out.new) }
{
    push_text(out, unsafe { str::from_utf8_unchecked(text) })
}
