//! What an input is taken as, where its encoding isn't named: raw messages, a packet capture, or one of the texts that stand for some.

ghost use Rattle.std.specs.Prelude.{◌≡◌, ◌<◌, ◌≤◌, ◌+◌, true, length, slice_index, take};
ghost use Rattle.ttlv_run.specs.Columns.{mark_length, body};
ghost use Rattle.ttlv_run.specs.Guesses.{is_control, has_control, are_four, is_capture, is_raw, looks_raw, first_byte, zeros, ends_offset, starts_dump};
ghost use Rattle.ttlv_run.specs.Guesses.{starts_packet, is_blank, unspaced_at, starts_message, has_message, has_packet, has_url_digit, by_first_byte, is_in_hexadecimal, is_hexadecimal, starts_digit, front_found, text_found, front_of, raw_found, encoding_found};

use crate::form::{is_between, is_hex_digit};
use crate::job::Encoding;

/// How many bytes of a text are its front, which shows hexadecimal digits and dumps.
pub const FRONT: usize = 64;

/// The TCP port of KMIP.
pub const KMIP_PORT: usize = 5696;

/// How many decide the encoding of any other text.
pub const LONG_FRONT: usize = 1024;

fn is_control(b: u8) -> bool
    ensures { result ≡ is_control b }
{
    b < 9 || (13 < b && b < 32)
}

fn has_control(bytes: &[u8]) -> bool
    ensures { result ≡ has_control bytes.now }
{
    for b in bytes {
        if is_control(*b) {
            return true;
        }
    }
    false
}

// Whether bytes are these four.
fn are_four(bytes: &[u8], a: u8, b: u8, c: u8, d: u8) -> bool
    ensures { result ≡ are_four bytes.now a b c d }
{
    byte_at(bytes, 0) == a
        && byte_at(bytes, 1) == b
        && byte_at(bytes, 2) == c
        && byte_at(bytes, 3) == d
}

// Whether a packet capture begins with bytes.
fn is_capture(bytes: &[u8]) -> bool
    ensures { result ≡ is_capture bytes.now }
{
    are_four(bytes, 0xA1, 0xB2, 0xC3, 0xD4)
        || are_four(bytes, 0xD4, 0xC3, 0xB2, 0xA1)
        || are_four(bytes, 0xA1, 0xB2, 0x3C, 0x4D)
        || are_four(bytes, 0x4D, 0x3C, 0xB2, 0xA1)
        || are_four(bytes, 0x0A, 0x0D, 0x0D, 0x0A)
}

// Whether no text begins with bytes.
fn is_raw(bytes: &[u8]) -> bool
    ensures { result ≡ is_raw bytes.now }
{
    has_control(bytes) || is_capture(bytes)
}

/// Whether an input is raw: its first four bytes hold one that stands in no text, or begin a packet capture.
pub fn looks_raw(input: &[u8]) -> bool
    ensures { result ≡ looks_raw input.now }
{
    is_raw(&input[..input.len().min(4)])
}

// The first byte that doesn't stand between digits.
fn first_byte(text: &[u8]) -> Option<u8>
    ensures { result ≡ first_byte text.now }
{
    for b in text {
        if !is_between(*b) {
            return Some(*b);
        }
    }
    None
}

// How many zeros a text begins with.
fn zeros(text: &[u8]) -> usize
    ensures is { result ≡ zeros text.now }
    ensures within { result ≤ length text.now }
{
    let mut count = 0;
    for b in text {
        if *b != 48 {
            return count;
        }
        count += 1;
    }
    count
}

fn ends_offset(b: u8) -> bool
    ensures { result ≡ ends_offset b }
{
    b == 58 || b == 32 || b == 9
}

/// The byte of a text at a place; 0 behind its end.
pub fn byte_at(text: &[u8], at: usize) -> u8
    ensures is { result ≡ slice_index text.now at }
    ensures inside { 0 < result → at < length text.now }
{
    if at < text.len() {
        return text[at];
    }
    0
}

// Whether a text begins with the offset of a dump: zeros.
fn starts_dump(text: &[u8]) -> bool
    ensures { result ≡ starts_dump text.now }
{
    let count = zeros(text);
    5 < count && ends_offset(byte_at(text, count))
}

// Whether a text begins with the first offset of a packet, as tcpdump prints it: `0x0000:`.
fn starts_packet(text: &[u8]) -> bool
    ensures is { result ≡ starts_packet text.now }
    ensures inside { result ≡ true → 7 ≤ length text.now }
{
    byte_at(text, 0) == 48
        && byte_at(text, 1) == 120
        && byte_at(text, 2) == 48
        && byte_at(text, 3) == 48
        && byte_at(text, 4) == 48
        && byte_at(text, 5) == 48
        && byte_at(text, 6) == 58
}

fn is_blank(b: u8) -> bool
    ensures { result ≡ is_blank b }
{
    b == 32 || b == 9
}

// The byte at a place of a text without its blanks; 0 behind its end.
fn unspaced_at(text: &[u8], place: usize) -> u8
    ensures { result ≡ unspaced_at place text.now }
{
    let mut left = place;
    for b in text {
        if !is_blank(*b) {
            if left == 0 {
                return *b;
            }
            left -= 1;
        }
    }
    0
}

// Whether a text begins with the first offset of a packet and a message of KMIP behind it: `0x0000:  4200 7801`.
fn starts_message(text: &[u8]) -> bool
    ensures { result ≡ starts_message text.now }
{
    if !starts_packet(text) {
        return false;
    }
    let digits = &text[7..];
    unspaced_at(digits, 0) == 52
        && unspaced_at(digits, 1) == 50
        && unspaced_at(digits, 6) == 48
        && unspaced_at(digits, 7) == 49
}

// Whether that stands anywhere in a text.
fn has_message(text: &[u8]) -> bool
    ensures { result ≡ has_message text.now }
{
    for i in 0..text.len() {
        if starts_message(&text[i..]) {
            return true;
        }
    }
    false
}

// Whether the first offset of a packet stands anywhere in a text.
fn has_packet(text: &[u8]) -> bool
    ensures { result ≡ has_packet text.now }
{
    for i in 0..text.len() {
        if starts_packet(&text[i..]) {
            return true;
        }
    }
    false
}

// Whether a digit of base64url that base64 doesn't have stands in a text.
fn has_url_digit(text: &[u8]) -> bool
    ensures { result ≡ has_url_digit text.now }
{
    for b in text {
        if *b == 45 || *b == 95 {
            return true;
        }
    }
    false
}

// What a text is that is no dump, by its first byte.
fn by_first_byte(text: &[u8], first: u8) -> Encoding
    ensures { result ≡ by_first_byte text.now first }
{
    if is_hex_digit(first) || first == 92 {
        return Encoding::Hexadecimal;
    }
    if first == 45 {
        return Encoding::Armoured;
    }
    if has_url_digit(text) {
        return Encoding::Base64Url;
    }
    Encoding::Base64
}

fn is_in_hexadecimal(b: u8) -> bool
    ensures { result ≡ is_in_hexadecimal b }
{
    is_hex_digit(b) || is_between(b) || b == 45 || b == 92 || b == 120 || b == 88
}

// Whether each byte of a text stands in texts of hexadecimal digits.
fn is_hexadecimal(text: &[u8]) -> bool
    ensures { result ≡ is_hexadecimal text.now }
{
    for b in text {
        if !is_in_hexadecimal(*b) {
            return false;
        }
    }
    true
}

// Whether a text begins with a hexadecimal digit or a backslash.
fn starts_digit(first: Option<u8>) -> bool
    ensures { result ≡ starts_digit first }
{
    match first {
        Some(b) => is_hex_digit(b) || b == 92,
        None => false,
    }
}

// What the front of a text shows.
fn front_found(text: &[u8]) -> Option<Encoding>
    ensures { result ≡ front_found text.now }
{
    if has_message(text) {
        return Some(Encoding::Packets);
    }
    if has_packet(text) {
        return None;
    }
    if starts_dump(text) {
        return Some(Encoding::Dump);
    }
    if starts_digit(first_byte(text)) && is_hexadecimal(text) {
        return Some(Encoding::Hexadecimal);
    }
    None
}

// What a text looks like: what its front shows, or else what a longer one does.
fn text_found(front: Option<Encoding>, text: &[u8]) -> Encoding
    ensures { result ≡ text_found front text.now }
{
    if let Some(encoding) = front {
        return encoding;
    }
    if has_message(text) {
        return Encoding::Packets;
    }
    if has_packet(text) {
        return Encoding::Capture { port: KMIP_PORT };
    }
    match first_byte(text) {
        Some(first) => by_first_byte(text, first),
        None => Encoding::Hexadecimal,
    }
}

/// How long the mark is that a text of UTF-8 may begin with.
pub fn mark_length(input: &[u8]) -> usize
    ensures is { result ≡ mark_length input.now }
    ensures within { result ≤ length input.now }
{
    if byte_at(input, 0) == 239 && byte_at(input, 1) == 187 && byte_at(input, 2) == 191 {
        return 3;
    }
    0
}

/// A text without the mark that it may begin with.
pub fn unmarked(text: &str) -> &str
    ensures is { result.now ≡ body text.now }
    ensures length { length result.now + mark_length text.now ≡ length text.now }
{
    match text.strip_prefix("\u{feff}") {
        Some(rest) => rest,
        None => text,
    }
}

// The first bytes of an input.
fn first(input: &[u8], count: usize) -> &[u8]
    ensures { result.now ≡ take count input.now }
{
    if input.len() < count {
        return input;
    }
    &input[..count]
}

// The first bytes of a text behind its mark.
fn first_text(input: &[u8], count: usize) -> &[u8]
    ensures { result.now ≡ body (take count input.now) }
{
    let text = first(input, count);
    &text[mark_length(text)..]
}

/// What the front of an input that isn't raw shows: hexadecimal digits, or a dump.
pub fn front_of(input: &[u8]) -> Option<Encoding>
    ensures { result ≡ front_of input.now }
{
    front_found(first_text(input, FRONT))
}

// What an input that is raw looks like, by its first four bytes.
fn raw_found(four: &[u8]) -> Encoding
    ensures { result ≡ raw_found four.now }
{
    if is_capture(four) {
        return Encoding::Capture { port: KMIP_PORT };
    }
    Encoding::Raw
}

/// What an input looks like.
pub fn encoding_found(input: &[u8]) -> Encoding
    ensures { result ≡ encoding_found input.now }
{
    if looks_raw(input) {
        return raw_found(first(input, 4));
    }
    text_found(front_of(input), first_text(input, LONG_FRONT))
}
