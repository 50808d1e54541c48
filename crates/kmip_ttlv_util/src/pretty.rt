//! Readable text of any bytes: its values and lines, and the loop that writes them. Values are
//! written straight from the bytes; no string or vector of a value is built.

ghost use Rattle.std.specs.Prelude.{◌≡◌, ◌≢◌, ℕ, ◌<◌, ◌++◌, List, length, true, IfOk, OnOk, OnErr, codes, string_bytes};
ghost use Rattle.std.specs.Int.{w32, w64, from_be_bytes, cast_signed};
ghost use Rattle.std.specs.Fmt.{decimal, signed_decimal};
ghost use Rattle.std.specs.Str.{IsUtf8};
ghost use Rattle.kmip_ttlv_types.specs.declared.typ.TtlvType.TheVariants.{Structure as TheStructure};
ghost use Rattle.kmip_ttlv_types.specs.Leaves.{is_valid};
ghost use Rattle.kmip_ttlv_types.specs.Held.{held};
ghost use Rattle.kmip_ttlv_util.specs.Lines.{hex_padded};
ghost use Rattle.kmip_ttlv_util.specs.TagNames.{name_in};
ghost use Rattle.kmip_ttlv_util.specs.Pieces.{SomeText, WritesText, unreadable};
ghost use Rattle.kmip_ttlv_util.specs.Pretty.{bracketed, hex_bytes, value_shown, pretty_line, warning, IsPrinted};

use crate::diagnostic::EXCEEDED;
use crate::digits::push_two;
use crate::item::{Item, item_at};
use crate::lines::{LentTagMap, push_data_part, push_six, push_tag_part};
use crate::pieces::Pieces;
use crate::sink::TextSink;
use crate::walk::{Next, Walk};
use itoa::Buffer;
use kmip_ttlv_types::TtlvType;
use kmip_ttlv_types::stream::Sink;
use std::alloc::{AllocError, Allocator};
use std::{io, str};

/// The number in four bytes.
#[inline(always)]
fn four_bytes(content: &[u8]) -> u32
    requires { length content.now ≡ 4 }
    ensures { result ≡ from_be_bytes w32 content.now }
{
    u32::from_be_bytes([content[0], content[1], content[2], content[3]])
}

/// The number in eight bytes.
#[inline(always)]
fn eight_bytes(content: &[u8]) -> u64
    requires { length content.now ≡ 8 }
    ensures { result ≡ from_be_bytes w64 content.now }
{
    u64::from_be_bytes([
        content[0], content[1], content[2], content[3], content[4], content[5], content[6],
        content[7],
    ])
}

/// A space, and a text in brackets.
#[inline(always)]
fn push_bracketed<S: TextSink>(out: &mut S, text: &str) -> Result<(), S::Error>
    ensures ok { OnOk result (S.adds out.old (bracketed text.now) out.new) }
    ensures err { OnErr result (S.breaks out.old (bracketed text.now) out.new) }
{
    out.push_str(" (")?;
    out.push_str(text)?;
    out.push_str(")")
}

/// A signed four-byte number.
fn push_integer<S: TextSink>(out: &mut S, n: u32) -> Result<(), S::Error>
    ensures ok { OnOk result (S.adds out.old (hex_padded 6 n ++ bracketed (signed_decimal (cast_signed w32 n))) out.new) }
    ensures err { OnErr result (S.breaks out.old (hex_padded 6 n ++ bracketed (signed_decimal (cast_signed w32 n))) out.new) }
{
    push_six(out, n as u64)?;
    push_bracketed(out, Buffer::new().format(n.cast_signed()))
}

/// A signed eight-byte number.
fn push_long_integer<S: TextSink>(out: &mut S, n: u64) -> Result<(), S::Error>
    ensures ok { OnOk result (S.adds out.old (hex_padded 6 n ++ bracketed (signed_decimal (cast_signed w64 n))) out.new) }
    ensures err { OnErr result (S.breaks out.old (hex_padded 6 n ++ bracketed (signed_decimal (cast_signed w64 n))) out.new) }
{
    push_six(out, n)?;
    push_bracketed(out, Buffer::new().format(n.cast_signed()))
}

/// An unsigned four-byte number.
fn push_unsigned<S: TextSink>(out: &mut S, n: u32) -> Result<(), S::Error>
    ensures ok { OnOk result (S.adds out.old (hex_padded 6 n ++ bracketed (decimal n)) out.new) }
    ensures err { OnErr result (S.breaks out.old (hex_padded 6 n ++ bracketed (decimal n)) out.new) }
{
    push_six(out, n as u64)?;
    push_bracketed(out, Buffer::new().format(n))
}

/// Bytes in hexadecimal, two digits each.
fn push_bytes<S: TextSink>(out: &mut S, content: &[u8]) -> Result<(), S::Error>
    ensures ok { OnOk result (S.adds out.old (hex_bytes content.now) out.new) }
    ensures err { OnErr result (S.breaks out.old (hex_bytes content.now) out.new) }
{
    for byte in content {
        push_two(out, *byte)?;
    }
    Ok(())
}

/// Appends a leaf's value as readable texts show it: numbers as `0x` and at least six digits, then in decimal (a
/// Date-Time without); `true` or `false`; a text as it is; bytes in hexadecimal.
///
/// `content` must be valid for `typ`, which is no Structure (9.1.1.4). Fails only if the sink does.
///
/// ```
/// let mut text = String::new(alloc);
/// push_value(&mut text, TtlvType::Integer, &[0xFF, 0xFF, 0xFF, 0xFF])?;
/// assert!(rt; text.as_str() == "0xFFFFFFFF (-1)");
/// ```
#[tactic(auto, unfolding(crate::specs::Pretty::value_shown))]
#[inline(always)]
pub fn push_value<S: TextSink>(out: &mut S, typ: TtlvType, content: &[u8]) -> Result<(), S::Error>
    requires { is_valid typ content.now ≡ true }
    ensures ok { OnOk result (S.adds out.old (value_shown typ content.now) out.new) }
    ensures err { OnErr result (S.breaks out.old (value_shown typ content.now) out.new) }
{
    match typ {
        TtlvType::Structure => Ok(()),
        TtlvType::Integer => push_integer(out, four_bytes(content)),
        TtlvType::LongInteger => push_long_integer(out, eight_bytes(content)),
        TtlvType::Enumeration | TtlvType::Interval => push_unsigned(out, four_bytes(content)),
        TtlvType::Boolean => out.push_str(if eight_bytes(content) == 0 {
            "false"
        } else {
            "true"
        }),
        TtlvType::DateTime => push_six(out, eight_bytes(content)),
        TtlvType::TextString => out.push_str(unsafe { str::from_utf8_unchecked(content) }),
        TtlvType::BigInteger | TtlvType::ByteString => push_bytes(out, content),
    }
}

/// The line of an item at this depth.
#[inline(always)]
fn push_line<S: TextSink, A: Allocator>(
    out: &mut S,
    names: &LentTagMap<'_, A>,
    depth: usize,
    item: &Item<'_>,
) -> Result<(), S::Error>
    requires { item.now.typ ≢ TheStructure → is_valid item.now.typ item.now.content.now ≡ true }
    ensures ok { OnOk result (S.adds out.old (pretty_line (name_in names.now) depth item.now.tag item.now.typ item.now.content.now) out.new) }
    ensures err { OnErr result (S.breaks out.old (pretty_line (name_in names.now) depth item.now.tag item.now.typ item.now.content.now) out.new) }
{
    push_tag_part(out, names, depth, item.tag)?;
    if item.typ == TtlvType::Structure {
        return out.push_str(", Type: Structure (0x01), Data:\n");
    }
    push_data_part(out, item.typ)?;
    push_value(out, item.typ, item.content)?;
    out.push_str("\n")
}

/// The line after an empty structure that stays open.
#[tactic(auto, unfolding(crate::specs::Pretty::warning))]
#[inline(always)]
fn push_warning<S: TextSink>(
    out: &mut S,
    closed: bool,
    typ: TtlvType,
    len: u32,
) -> Result<(), S::Error>
    ensures ok { OnOk result (S.adds out.old (warning closed typ len) out.new) }
    ensures err { OnErr result (S.breaks out.old (warning closed typ len) out.new) }
{
    if typ == TtlvType::Structure && len == 0 && !closed {
        return out.push_str("WARNING: TTLV structure length is zero\n");
    }
    Ok(())
}

/// The line of an item at this depth, and what follows it.
#[inline(always)]
fn push_item<S: TextSink, A: Allocator>(
    out: &mut S,
    names: &LentTagMap<'_, A>,
    closed: bool,
    depth: usize,
    item: &Item<'_>,
) -> Result<(), S::Error>
    requires { item.now.typ ≢ TheStructure → is_valid item.now.typ item.now.content.now ≡ true }
    ensures ok { OnOk result (S.adds out.old (pretty_line (name_in names.now) depth item.now.tag item.now.typ
        item.now.content.now ++ warning closed item.now.typ item.now.length) out.new) }
    ensures err { OnErr result (S.breaks out.old (pretty_line (name_in names.now) depth item.now.tag item.now.typ
        item.now.content.now ++ warning closed item.now.typ item.now.length) out.new) }
{
    push_line(out, names, depth, item)?;
    push_warning(out, closed, item.typ, item.length)
}

/// What is written at an item that can't be read.
#[cold]
fn push_unreadable<S: TextSink>(out: &mut S, place: usize) -> Result<(), S::Error>
    ensures ok { OnOk result (S.adds out.old (codes "ERROR: " ++ unreadable place) out.new) }
    ensures err { OnErr result (S.breaks out.old (codes "ERROR: " ++ unreadable place) out.new) }
{
    out.push_str("ERROR: cannot read the item at byte ")?;
    out.push_str(Buffer::new().format(place))
}

/// An estimate of a readable text's length: six times the input, and at most about 24 KiB.
fn room_for(bytes: &[u8]) -> usize {
    let count = bytes.len();
    64 + 6 * if count < 4096 { count } else { 4096 }
}

/// Appends the readable text of any bytes.
pub fn print_to<S: TextSink, A: Allocator + Copy>(
    out: &mut S,
    alloc: A,
    names: &LentTagMap<'_, A>,
    closed: bool,
    bytes: &[u8],
) -> Result<(), S::Error>
    ensures ok { OnOk result (SomeText (IsPrinted (name_in names.now) closed bytes.now) (λ t. S.adds out.old t out.new)) }
    ensures err { OnErr result (SomeText (IsPrinted (name_in names.now) closed bytes.now)
        (λ t. S.breaks out.old t out.new)) }
{
    let mut walk = Walk::new(alloc);
    'walk: loop {
        match walk.next() {
            Next::Closes => {}
            Next::Over => return Ok(()),
            Next::Past => return out.push_str(EXCEEDED),
            Next::Reads => {
                let place = walk.pos;
                let Some(item) = item_at(bytes, place) else {
                    return push_unreadable(out, place);
                };
                push_item(out, names, closed, walk.depth(), &item)?;
                walk.step(closed, item.typ, item.length, item.next)?;
            }
        }
    }
}

/// The readable text of any bytes.
pub fn print<A: Allocator + Copy>(
    alloc: A,
    names: &LentTagMap<'_, A>,
    closed: bool,
    bytes: &[u8],
) -> Result<String<A>, AllocError>
    ensures { IfOk result (λ r. IsPrinted (name_in names.now) closed bytes.now (string_bytes r)) }
{
    let mut out = String::with_capacity(alloc, room_for(bytes))?;
    print_to(&mut out, alloc, names, closed, bytes)?;
    Ok(out)
}

/// Writes the readable text of any bytes, in pieces.
pub fn write_printed<A: Allocator + Copy, S: Sink>(
    writer: &mut S,
    alloc: A,
    names: &LentTagMap<'_, A>,
    closed: bool,
    bytes: &[u8],
) -> io::Result<()>
    ensures { WritesText (IsPrinted (name_in names.now) closed bytes.now)
        (held S.emitted S.room writer.old) (held S.emitted S.room writer.new) result }
{
    let mut pieces = Pieces::new(writer);
    let printed = print_to(&mut pieces, alloc, names, closed, bytes);
    pieces.close(printed)
}
