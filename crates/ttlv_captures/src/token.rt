//! The first token of a text, which writes a byte.

ghost use Rattle.std.specs.Prelude.{◌≡◌, ◌<◌, ◌≤◌, ◌+◌, ◌-◌, ◌*◌, length, drop, slice_index, IfSome};
ghost use Rattle.ttlv_captures.specs.Notations.{is_in, decimal_digit, hex_digit, two_digits, has_prefix, hex_number, three_digits, decimal_number, number, escape, literal, plain, bare_token, is_space, is_gap, gap, first_token};

use crate::notation::Notation;

/// A byte that is written in a text.
#[derive(Clone, Copy, Debug, PartialEq, Eq)]
pub struct Token {
    /// The byte.
    pub byte: u8,
    /// How many characters it takes, with those behind it that separate it from the next.
    pub width: usize,
}

/// What stands behind a place.
pub fn behind(text: &[u8], at: usize) -> &[u8]
    requires { at ≤ length text.now }
    ensures is { result.now ≡ drop at text.now }
    ensures length { length result.now ≡ length text.now - at }
{
    &text[at..]
}

// The character at a place; 0 behind the end.
fn byte_at(text: &[u8], at: usize) -> u8
    ensures is { result ≡ slice_index text.now at }
    ensures inside { 0 < result → at < length text.now }
{
    if at < text.len() {
        return text[at];
    }
    0
}

fn is_in(first: u8, last: u8, c: u8) -> bool
    ensures { result ≡ is_in first last c }
{
    c <= last && first <= c
}

// What a decimal digit counts.
fn decimal_digit(c: u8) -> Option<u8>
    ensures is { result ≡ decimal_digit c }
    ensures small { IfSome result (λ d. d < 10) }
    ensures some { IfSome result (λ d. 0 < c) }
{
    if is_in(b'0', b'9', c) {
        return Some(c - b'0');
    }
    None
}

// What a hexadecimal digit counts.
fn hex_digit(c: u8) -> Option<u8>
    ensures is { result ≡ hex_digit c }
    ensures small { IfSome result (λ d. d < 16) }
    ensures some { IfSome result (λ d. 0 < c) }
{
    if is_in(b'0', b'9', c) {
        return Some(c - b'0');
    }
    if is_in(b'A', b'F', c) {
        return Some(c - 55);
    }
    if is_in(b'a', b'f', c) {
        return Some(c - 87);
    }
    None
}

// What the hexadecimal digit at a place counts.
fn hex_digit_at(text: &[u8], at: usize) -> Option<u8>
    ensures is { result ≡ hex_digit (slice_index text.now at) }
    ensures small { IfSome result (λ d. d < 16) }
    ensures inside { IfSome result (λ d. at < length text.now) }
{
    hex_digit(byte_at(text, at))
}

// What the decimal digit at a place counts.
fn decimal_digit_at(text: &[u8], at: usize) -> Option<u8>
    ensures is { result ≡ decimal_digit (slice_index text.now at) }
    ensures small { IfSome result (λ d. d < 10) }
    ensures inside { IfSome result (λ d. at < length text.now) }
{
    decimal_digit(byte_at(text, at))
}

// A byte of two hexadecimal digits, which takes so many characters.
fn two_digits(high: Option<u8>, low: Option<u8>, width: usize) -> Option<Token>
    requires high { IfSome high (λ d. d < 16) }
    requires low { IfSome low (λ d. d < 16) }
    ensures is { result ≡ two_digits high low width }
{
    match (high, low) {
        (Some(high), Some(low)) => Some(Token {
            byte: 16 * high + low,
            width,
        }),
        _ => None,
    }
}

// Whether a text begins with `0x`.
fn has_prefix(text: &[u8]) -> bool
    ensures { result ≡ has_prefix text.now }
{
    byte_at(text, 0) == b'0' && (byte_at(text, 1) == b'x' || byte_at(text, 1) == b'X')
}

// A byte of one or two hexadecimal digits and no third, behind `0x`.
fn hex_number(text: &[u8]) -> Option<Token>
    ensures is { result ≡ hex_number (hex_digit (slice_index text.now 2)) (hex_digit (slice_index text.now 3)) (hex_digit (slice_index text.now 4)) }
    ensures fits { IfSome result (λ t. (0 < t.width) × (t.width ≤ length text.now)) }
{
    let first = hex_digit_at(text, 2)?;
    let Some(second) = hex_digit_at(text, 3) else {
        return Some(Token {
            byte: first,
            width: 3,
        });
    };
    match hex_digit_at(text, 4) {
        Some(_) => None,
        None => Some(Token {
            byte: 16 * first + second,
            width: 4,
        }),
    }
}

// A byte of three decimal digits.
fn three_digits(first: u8, second: u8, third: u8) -> Option<Token>
    requires first { first < 10 }
    requires second { second < 10 }
    requires third { third < 10 }
    ensures { result ≡ three_digits (100 * first + 10 * second + third) }
{
    let number = 100 * first as u16 + 10 * second as u16 + third as u16;
    if 255 < number {
        return None;
    }
    Some(Token {
        byte: number as u8,
        width: 3,
    })
}

// A byte of one to three decimal digits and no fourth.
fn decimal_number(text: &[u8]) -> Option<Token>
    ensures is { result ≡ decimal_number (decimal_digit (slice_index text.now 0)) (decimal_digit (slice_index text.now 1))
        (decimal_digit (slice_index text.now 2)) (decimal_digit (slice_index text.now 3)) }
    ensures fits { IfSome result (λ t. (0 < t.width) × (t.width ≤ length text.now)) }
{
    let first = decimal_digit_at(text, 0)?;
    let Some(second) = decimal_digit_at(text, 1) else {
        return Some(Token {
            byte: first,
            width: 1,
        });
    };
    let Some(third) = decimal_digit_at(text, 2) else {
        return Some(Token {
            byte: 10 * first + second,
            width: 2,
        });
    };
    match decimal_digit_at(text, 3) {
        Some(_) => None,
        None => three_digits(first, second, third),
    }
}

// A number of a list.
fn number(text: &[u8]) -> Option<Token>
    ensures is { result ≡ number text.now }
    ensures fits { IfSome result (λ t. (0 < t.width) × (t.width ≤ length text.now)) }
{
    if has_prefix(text) {
        return hex_number(text);
    }
    decimal_number(text)
}

// The byte that a backslash and a letter write.
fn escape(letter: u8) -> Option<Token>
    ensures is { result ≡ escape letter }
    ensures some { IfSome result (λ t. (t.width ≡ 2) × (0 < letter)) }
{
    let byte = match letter {
        b'n' => b'\n',
        b'r' => b'\r',
        b't' => b'\t',
        b'0' => 0,
        b'\\' | b'\'' | b'"' => letter,
        _ => return None,
    };
    Some(Token { byte, width: 2 })
}

// A byte of a literal.
fn literal(text: &[u8]) -> Option<Token>
    ensures is { result ≡ literal text.now }
    ensures fits { IfSome result (λ t. (0 < t.width) × (t.width ≤ length text.now)) }
{
    let first = byte_at(text, 0);
    if first != b'\\' {
        if is_in(32, 126, first) {
            return Some(Token {
                byte: first,
                width: 1,
            });
        }
        return None;
    }
    let second = byte_at(text, 1);
    if second == b'x' {
        return two_digits(hex_digit_at(text, 2), hex_digit_at(text, 3), 4);
    }
    escape(second)
}

// A byte as it is.
fn plain(text: &[u8]) -> Option<Token>
    ensures is { result ≡ plain text.now }
    ensures fits { IfSome result (λ t. (0 < t.width) × (t.width ≤ length text.now)) }
{
    if text.is_empty() {
        return None;
    }
    Some(Token {
        byte: text[0],
        width: 1,
    })
}

// The first token of a text, without what follows it.
fn bare_token(notation: Notation, text: &[u8]) -> Option<Token>
    ensures is { result ≡ bare_token notation text.now }
    ensures fits { IfSome result (λ t. (0 < t.width) × (t.width ≤ length text.now)) }
{
    match notation {
        Notation::Raw => plain(text),
        Notation::Hexadecimal => two_digits(hex_digit_at(text, 0), hex_digit_at(text, 1), 2),
        Notation::Numbers => number(text),
        Notation::Escaped => literal(text),
    }
}

fn is_space(c: u8) -> bool
    ensures { result ≡ is_space c }
{
    c == b' ' || is_in(9, 13, c)
}

// Whether a character may stand between two tokens.
fn is_gap(notation: Notation, c: u8) -> bool
    ensures { result ≡ is_gap notation c }
{
    match notation {
        Notation::Raw | Notation::Escaped => false,
        Notation::Hexadecimal => is_space(c) || c == b':' || c == b'-',
        Notation::Numbers => is_space(c) || c == b',',
    }
}

// How many such characters a text begins with.
fn gap(notation: Notation, text: &[u8]) -> usize
    ensures is { result ≡ gap notation text.now }
    ensures within { result ≤ length text.now }
{
    let mut count = 0;
    for c in text {
        if !is_gap(notation, *c) {
            return count;
        }
        count += 1;
    }
    count
}

/// The first token of a text: the byte, and how many characters it takes, with what may stand between it and the next.
pub fn first_token(notation: Notation, text: &[u8]) -> Option<Token>
    ensures is { result ≡ first_token notation text.now }
    ensures fits { IfSome result (λ t. (0 < t.width) × (t.width ≤ length text.now)) }
{
    let token = bare_token(notation, text)?;
    let between = gap(notation, behind(text, token.width));
    Some(Token {
        byte: token.byte,
        width: token.width + between,
    })
}
