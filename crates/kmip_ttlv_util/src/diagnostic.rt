//! The diagnostic of any bytes: its parts, and the loop that writes them.

ghost use Rattle.std.specs.Prelude.{◌≡◌, ℕ, ◌+◌, ◌/◌, ◌<◌, ◌≤◌, ◌^◌, ◌++◌, ◌∷◌, List, [], length, IfOk, OnOk, OnErr, Some, drop};
ghost use Rattle.std.specs.Prelude.{string_bytes};
ghost use Rattle.kmip_ttlv_types.specs.Digits.{six_digits};
ghost use Rattle.kmip_ttlv_types.specs.Held.{held};
ghost use Rattle.kmip_ttlv_util.specs.Outlines.{stripped, value_text, mark};
ghost use Rattle.kmip_ttlv_util.specs.Letters.{letter};
ghost use Rattle.kmip_ttlv_util.specs.Traces.{trace};
ghost use Rattle.kmip_ttlv_util.specs.Diagnostics.{hostile};
ghost use Rattle.kmip_ttlv_util.specs.Pieces.{WritesText};
ghost use Rattle.kmip_ttlv_util.specs.Prefixes.{IsNumber};

use crate::digits::{digits_in_front, eight, push_digits};
use crate::item::item_at;
use crate::pieces::Pieces;
use crate::sink::TextSink;
use crate::walk::{Next, Walk};
use kmip_ttlv_types::stream::Sink;
use kmip_ttlv_types::{TtlvTag, TtlvType};
use std::alloc::{AllocError, Allocator};
use std::{io, str};

/// What is written if a structure's content exceeds its length.
pub const EXCEEDED: &str = "\nERROR: TTLV structure content exceeds the structure length.";

/// A prefix of tags; if it is at most six digits, also as their number.
#[derive(Clone, Copy)]
pub struct Prefix<'p> {
    /// What is left out of tags that begin with it, as it was given.
    pub text: &'p str,
    /// How many digits it has; seven if it has more, or isn't digits.
    pub count: usize,
    /// The number of these digits.
    pub number: u32,
    /// How many bits of a tag remain after these digits.
    pub shift: u32,
}

/// The prefix with its number.
pub fn prefix_of(text: &str) -> Prefix<'_>
    ensures text { result.text.now ≡ text.now }
    ensures number { IsNumber result }
{
    let (count, number) = digits_in_front(text);
    if count < text.len() || 6 < count {
        return Prefix {
            text,
            count: 7,
            number,
            shift: 0,
        };
    }
    Prefix {
        text,
        count,
        number,
        shift: 24 - 4 * count as u32,
    }
}

/// The text without the prefix, if it begins with it.
fn strip<'t>(prefix: &str, text: &'t str) -> &'t str
    ensures { result.now ≡ stripped prefix.now text.now }
{
    match text.strip_prefix(prefix) {
        Some(rest) => rest,
        None => text,
    }
}

/// How many digits of a tag a prefix with a number omits.
#[inline(always)]
fn left_out(prefix: &Prefix<'_>, tag: TtlvTag) -> usize
    requires number { IsNumber prefix.now }
    requires few { prefix.now.count ≤ 6 }
    ensures stripped { drop result (six_digits tag) ≡ stripped prefix.now.text.now (six_digits tag) }
    ensures bounded { result ≤ 6 }
{
    if *tag >> prefix.shift == prefix.number {
        prefix.count
    } else {
        0
    }
}

/// The digits of a tag that the prefix doesn't omit.
#[inline(always)]
fn push_tag<S: TextSink>(out: &mut S, prefix: &Prefix<'_>, tag: TtlvTag) -> Result<(), S::Error>
    requires { IsNumber prefix.now }
    ensures ok { OnOk result (S.adds out.old (stripped prefix.now.text.now (six_digits tag)) out.new) }
    ensures err { OnErr result (S.breaks out.old (stripped prefix.now.text.now (six_digits tag)) out.new) }
{
    let digits = eight(*tag);
    if 6 < prefix.count {
        let text = unsafe { str::from_utf8_unchecked(&digits[2..]) };
        return out.push_str(strip(prefix.text, text));
    }
    let from = left_out(prefix, tag);
    out.push_str(unsafe { str::from_utf8_unchecked(&digits[from + 2..]) })
}

#[inline(always)]
fn letter(typ: TtlvType) -> u8
    ensures letter { result ≡ letter typ }
    ensures ascii { result < 128 }
{
    match typ {
        TtlvType::Structure => b'[',
        TtlvType::Integer => b'i',
        TtlvType::LongInteger => b'l',
        TtlvType::BigInteger => b'I',
        TtlvType::Enumeration => b'e',
        TtlvType::Boolean => b'b',
        TtlvType::TextString => b't',
        TtlvType::ByteString => b'o',
        TtlvType::DateTime => b'd',
        TtlvType::Interval => b'n',
    }
}

/// The value of an enumeration, and `:`.
#[inline(always)]
fn push_number<S: TextSink>(out: &mut S, n: u32) -> Result<(), S::Error>
    ensures ok { OnOk result (S.adds out.old (value_text (Some n)) out.new) }
    ensures err { OnErr result (S.breaks out.old (value_text (Some n)) out.new) }
{
    push_digits(out, 1, n)?;
    out.push_str(":")
}

#[inline(always)]
fn push_value<S: TextSink>(out: &mut S, value: Option<u32>) -> Result<(), S::Error>
    ensures ok { OnOk result (S.adds out.old (value_text value) out.new) }
    ensures err { OnErr result (S.breaks out.old (value_text value) out.new) }
{
    match value {
        Some(n) => push_number(out, n),
        None => Ok(()),
    }
}

/// A leaf, or the opening of a structure.
#[inline(always)]
fn push_mark<S: TextSink>(
    out: &mut S,
    prefix: &Prefix<'_>,
    tag: TtlvTag,
    typ: TtlvType,
    value: Option<u32>,
) -> Result<(), S::Error>
    requires { IsNumber prefix.now }
    ensures ok { OnOk result (S.adds out.old (mark prefix.now.text.now tag typ value) out.new) }
    ensures err { OnErr result (S.breaks out.old (mark prefix.now.text.now tag typ value) out.new) }
{
    if prefix.count == 4 && left_out(prefix, tag) == 4 {
        // The standard's tags begin with four digits that are often omitted: the other two are copied at once.
        let digits = eight(*tag);
        let text = [digits[6], digits[7], letter(typ)];
        out.push_str(unsafe { str::from_utf8_unchecked(&text) })?;
        return push_value(out, value);
    }
    push_tag(out, prefix, tag)?;
    let letter = [letter(typ)];
    out.push_str(unsafe { str::from_utf8_unchecked(&letter) })?;
    push_value(out, value)
}

/// The closing bracket of a structure.
fn push_close<S: TextSink>(out: &mut S) -> Result<(), S::Error>
    ensures ok { OnOk result (S.adds out.old (93 ∷ []) out.new) }
    ensures err { OnErr result (S.breaks out.old (93 ∷ []) out.new) }
{
    out.push_str("]")
}

/// An estimate of a diagnostic's length: 16 bytes and a quarter of the input's, at most 4,112.
fn room_for(bytes: &[u8]) -> usize {
    let quarter = bytes.len() / 4;
    16 + if quarter < 4096 { quarter } else { 4096 }
}

/// Appends the diagnostic of any bytes, and returns how many items it tried to read.
pub fn diagnose_to<S: TextSink, A: Allocator + Copy>(
    out: &mut S,
    alloc: A,
    prefix: &str,
    closed: bool,
    bytes: &[u8],
) -> Result<usize, S::Error>
    ensures ok { OnOk result (S.adds out.old (hostile prefix.now closed (length bytes.now) (trace closed bytes.now))
        out.new) }
    ensures err { OnErr result (S.breaks out.old (hostile prefix.now closed (length bytes.now) (trace closed bytes.now))
        out.new) }
    ensures count { IfOk result (λ n. n ≡ length (trace closed bytes.now)) }
    ensures bounded { IfOk result (λ n. n ≤ length bytes.now / 8 + 1) }
{
    let numbered = prefix_of(prefix);
    let mut count = 0;
    let mut walk = Walk::new(alloc);
    'walk: loop {
        match walk.next() {
            Next::Closes => {
                push_close(out)?;
            }
            Next::Over => {
                push_close(out)?;
                return Ok(count);
            }
            Next::Past => {
                out.push_str(EXCEEDED)?;
                return Ok(count);
            }
            Next::Reads => {
                count += 1;
                let Some(item) = item_at(bytes, walk.pos) else {
                    out.push_str("ERR")?;
                    return Ok(count);
                };
                push_mark(out, &numbered, item.tag, item.typ, item.value)?;
                walk.step(closed, item.typ, item.length, item.next)?;
            }
        }
    }
}

/// The diagnostic of any bytes, and how many items it tried to read.
pub fn diagnose<A: Allocator + Copy>(
    alloc: A,
    prefix: &str,
    closed: bool,
    bytes: &[u8],
) -> Result<(String<A>, usize), AllocError>
    ensures text { IfOk result (λ r. string_bytes r.0
        ≡ hostile prefix.now closed (length bytes.now) (trace closed bytes.now)) }
    ensures count { IfOk result (λ r. r.1 ≡ length (trace closed bytes.now)) }
    ensures bounded { IfOk result (λ r. r.1 ≤ length bytes.now / 8 + 1) }
{
    let mut out = String::with_capacity(alloc, room_for(bytes))?;
    let count = diagnose_to(&mut out, alloc, prefix, closed, bytes)?;
    Ok((out, count))
}

/// Writes the diagnostic of any bytes, in pieces.
pub fn write_diagnostic<A: Allocator + Copy, S: Sink>(
    writer: &mut S,
    alloc: A,
    prefix: &str,
    closed: bool,
    bytes: &[u8],
) -> io::Result<()>
    ensures { WritesText (λ t. t ≡ hostile prefix.now closed (length bytes.now) (trace closed bytes.now))
        (held S.emitted S.room writer.old) (held S.emitted S.room writer.new) result }
{
    let mut pieces = Pieces::new(writer);
    let printed = diagnose_to(&mut pieces, alloc, prefix, closed, bytes);
    pieces.close(printed)?;
    Ok(())
}
