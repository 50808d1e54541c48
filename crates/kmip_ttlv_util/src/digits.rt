//! Hexadecimal digits of numbers: written, from a table with the two digits of each byte, and read.

ghost use Rattle.std.specs.Prelude.{◌≡◌, ℕ, ◌<◌, ◌≤◌, ◌^◌, ◌++◌, true, length, take, OnOk, OnErr};
ghost use Rattle.std.specs.Fmt.{digit_glyph};
ghost use Rattle.std.specs.List.{prefix_len};
ghost use Rattle.kmip_ttlv_util.specs.Letters.{is_hex};
ghost use Rattle.kmip_ttlv_util.specs.Lines.{at_least, hex_padded};
ghost use Rattle.kmip_ttlv_util.specs.Outlines.{hex_upper};
ghost use Rattle.kmip_ttlv_util.specs.Pretty.{two_digits};
ghost use Rattle.kmip_ttlv_util.specs.LastDigits.{last_digits};

use crate::sink::TextSink;
use std::str;

/// The two digits of each byte, beginning with those of zero.
static PAIRS: [u8; 512] =
    *b"000102030405060708090A0B0C0D0E0F101112131415161718191A1B1C1D1E1F202122232425262728292A2B2C2D2E2F303132333435363738393A3B3C3D3E3F404142434445464748494A4B4C4D4E4F505152535455565758595A5B5C5D5E5F606162636465666768696A6B6C6D6E6F707172737475767778797A7B7C7D7E7F808182838485868788898A8B8C8D8E8F909192939495969798999A9B9C9D9E9FA0A1A2A3A4A5A6A7A8A9AAABACADAEAFB0B1B2B3B4B5B6B7B8B9BABBBCBDBEBFC0C1C2C3C4C5C6C7C8C9CACBCCCDCECFD0D1D2D3D4D5D6D7D8D9DADBDCDDDEDFE0E1E2E3E4E5E6E7E8E9EAEBECEDEEEFF0F1F2F3F4F5F6F7F8F9FAFBFCFDFEFF";

/// The eight digits of a number.
#[inline(always)]
pub fn eight(n: u32) -> [u8; 8]
    ensures { result ≡ last_digits 8 n }
{
    let n = n as usize;
    let (a, b) = (n / 0x100_0000 * 2, n / 0x1_0000 % 256 * 2);
    let (c, d) = (n / 256 % 256 * 2, n % 256 * 2);
    [
        PAIRS[a],
        PAIRS[a + 1],
        PAIRS[b],
        PAIRS[b + 1],
        PAIRS[c],
        PAIRS[c + 1],
        PAIRS[d],
        PAIRS[d + 1],
    ]
}

/// The two digits of a byte.
#[inline(always)]
fn two(byte: u8) -> [u8; 2]
    ensures { result ≡ two_digits byte }
{
    let n = byte as usize * 2;
    [PAIRS[n], PAIRS[n + 1]]
}

/// A byte in hexadecimal.
#[inline(always)]
pub fn push_two<S: TextSink>(out: &mut S, byte: u8) -> Result<(), S::Error>
    ensures ok { OnOk result (S.adds out.old (two_digits byte) out.new) }
    ensures err { OnErr result (S.breaks out.old (two_digits byte) out.new) }
{
    let digits = two(byte);
    out.push_str(unsafe { str::from_utf8_unchecked(&digits) })
}

/// How many digits a number has, without leading zeros.
#[inline(always)]
fn count_of(n: u32) -> usize
    ensures count { result ≡ length (hex_upper n) }
    ensures few { result ≤ 8 }
{
    if n < 0x1_0000 {
        if n < 0x10 {
            1
        } else if n < 0x100 {
            2
        } else if n < 0x1000 {
            3
        } else {
            4
        }
    } else if n < 0x10_0000 {
        5
    } else if n < 0x100_0000 {
        6
    } else if n < 0x1000_0000 {
        7
    } else {
        8
    }
}

/// The last `count` of a number's eight digits.
#[inline(always)]
fn push_last<S: TextSink>(out: &mut S, count: usize, n: u32) -> Result<(), S::Error>
    requires { count ≤ 8 }
    ensures ok { OnOk result (S.adds out.old (last_digits count n) out.new) }
    ensures err { OnErr result (S.breaks out.old (last_digits count n) out.new) }
{
    let digits = eight(n);
    if count == 6 {
        return out.push_str(unsafe { str::from_utf8_unchecked(&digits[2..]) });
    }
    out.push_str(unsafe { str::from_utf8_unchecked(&digits[8 - count..]) })
}

/// How many digits of a number are shown: at least `least`, with leading zeros.
#[inline(always)]
pub fn shown(least: usize, n: u32) -> usize
    requires { least ≤ 8 }
    ensures digits { last_digits result n ≡ at_least least (hex_upper n) }
    ensures few { result ≤ 8 }
{
    let count = count_of(n);
    if count < least { least } else { count }
}

/// The digits of a number, with leading zeros up to `least` digits, which is at most eight.
#[inline(always)]
pub fn push_digits<S: TextSink>(out: &mut S, least: usize, n: u32) -> Result<(), S::Error>
    requires { least ≤ 8 }
    ensures ok { OnOk result (S.adds out.old (at_least least (hex_upper n)) out.new) }
    ensures err { OnErr result (S.breaks out.old (at_least least (hex_upper n)) out.new) }
{
    push_last(out, shown(least, n), n)
}

/// `0x` and the digits of a number, if these aren't six; leading zeros up to `least` digits, at most eight.
#[cold]
fn push_other<S: TextSink>(out: &mut S, least: usize, n: u32) -> Result<(), S::Error>
    requires { least ≤ 8 }
    ensures ok { OnOk result (S.adds out.old (hex_padded least n) out.new) }
    ensures err { OnErr result (S.breaks out.old (hex_padded least n) out.new) }
{
    out.push_str("0x")?;
    push_digits(out, least, n)
}

/// `0x` and the digits of a number, with leading zeros up to `least` digits, at most eight. Six digits are
/// written together with what precedes them.
#[inline(always)]
pub fn push_prefixed<S: TextSink>(out: &mut S, least: usize, n: u32) -> Result<(), S::Error>
    requires { least ≤ 8 }
    ensures ok { OnOk result (S.adds out.old (hex_padded least n) out.new) }
    ensures err { OnErr result (S.breaks out.old (hex_padded least n) out.new) }
{
    if shown(least, n) != 6 {
        return push_other(out, least, n);
    }
    let d = eight(n);
    let text = [b'0', b'x', d[2], d[3], d[4], d[5], d[6], d[7]];
    out.push_str(unsafe { str::from_utf8_unchecked(&text) })
}

/// The digits of an eight-byte number, with leading zeros up to six digits.
#[inline(always)]
pub fn push_wide<S: TextSink>(out: &mut S, n: u64) -> Result<(), S::Error>
    ensures ok { OnOk result (S.adds out.old (at_least 6 (hex_upper n)) out.new) }
    ensures err { OnErr result (S.breaks out.old (at_least 6 (hex_upper n)) out.new) }
{
    if n < 0x1_0000_0000 {
        return push_digits(out, 6, n as u32);
    }
    push_digits(out, 1, (n / 0x1_0000_0000) as u32)?;
    push_last(out, 8, (n % 0x1_0000_0000) as u32)
}

fn is_hex(b: u8) -> bool
    ensures { result ≡ is_hex b }
{
    (48 <= b && b <= 57) || (65 <= b && b <= 70)
}

/// The value of a digit.
fn value_of(b: u8) -> u32
    requires { is_hex b ≡ true }
    ensures small { result < 16 }
    ensures digit { digit_glyph true result ≡ b }
{
    if b < 58 { b as u32 - 48 } else { b as u32 - 55 }
}

/// How many digits a text begins with, and their number if they are at most eight.
#[inline(always)]
pub fn digits_in_front(s: &str) -> (usize, u32)
    ensures count { result.0 ≡ prefix_len is_hex s.now }
    ensures number { result.0 ≤ 8 → take result.0 s.now ≡ last_digits result.0 result.1 }
    ensures small { result.0 ≤ 8 → result.1 < 16 ^ result.0 }
{
    let bytes = s.as_bytes();
    let mut n = 0;
    let mut number: u32 = 0;
    while n < bytes.len() && is_hex(bytes[n]) {
        number = number.wrapping_mul(16).wrapping_add(value_of(bytes[n]));
        n += 1;
    }
    (n, number)
}
