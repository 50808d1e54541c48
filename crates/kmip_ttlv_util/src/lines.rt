//! Parts of readable lines: the indent, the tag with its name, and the type.

ghost use Rattle.std.specs.Prelude.{◌≡◌, ◌≤◌, ℕ, ◌++◌, OnOk, OnErr, IfSome, Some, codes, option_map};
ghost use Rattle.std.specs.Str.{IsUtf8};
ghost use Rattle.kmip_ttlv_types.specs.TypeTexts.{type_text};
ghost use Rattle.kmip_ttlv_util.specs.Lines.{indent, hex_padded, tag_named, part_of, tag_part, typ_part, data_part};
ghost use Rattle.kmip_ttlv_util.specs.TagNames.{name_in, named};

use crate::digits::{eight, push_prefixed, push_wide, shown};
use crate::sink::TextSink;
use kmip_ttlv_types::{TtlvTag, TtlvType};
use std::alloc::{Allocator, Global};
use std::collections::HashMap;
use std::hash::{BuildHasherDefault, FoldHasher};
use std::str;

/// Names of tags, borrowed for `'n`: for one call, as by [`crate::text_named`].
pub type LentTagMap<'n, A = Global> = HashMap<TtlvTag, &'n str, BuildHasherDefault<FoldHasher>, A>;

/// Names of tags that a printer owns, for [`crate::PrettyPrinter::with_tag_map`].
pub type TagMap<A = Global> = LentTagMap<'static, A>;

/// The indent of level sixteen.
static SPACES: [u8; 32] = *b"                                ";

/// Two spaces for each level.
#[inline(always)]
fn push_indent<S: TextSink>(out: &mut S, depth: usize) -> Result<(), S::Error>
    ensures ok { OnOk result (S.adds out.old (indent depth) out.new) }
    ensures err { OnErr result (S.breaks out.old (indent depth) out.new) }
{
    if depth <= 16 {
        return out.push_str(unsafe { str::from_utf8_unchecked(&SPACES[..2 * depth]) });
    }
    for _ in 0..depth {
        out.push_str("  ")?;
    }
    Ok(())
}

/// `0x` and the digits of a number that has more than six.
fn push_long<S: TextSink>(out: &mut S, n: u64) -> Result<(), S::Error>
    ensures ok { OnOk result (S.adds out.old (hex_padded 6 n) out.new) }
    ensures err { OnErr result (S.breaks out.old (hex_padded 6 n) out.new) }
{
    out.push_str("0x")?;
    push_wide(out, n)
}

/// `0x` and at least six digits.
#[inline(always)]
pub fn push_six<S: TextSink>(out: &mut S, n: u64) -> Result<(), S::Error>
    ensures ok { OnOk result (S.adds out.old (hex_padded 6 n) out.new) }
    ensures err { OnErr result (S.breaks out.old (hex_padded 6 n) out.new) }
{
    if n < 0x100_0000 {
        return push_prefixed(out, 6, n as u32);
    }
    push_long(out, n)
}

/// A name, then a tag in brackets, with at least so many digits.
#[inline(always)]
fn push_named<S: TextSink>(out: &mut S, least: usize, name: &str, n: u32) -> Result<(), S::Error>
    requires { least ≤ 8 }
    ensures ok { OnOk result (S.adds out.old (tag_named least (Some name.now) n) out.new) }
    ensures err { OnErr result (S.breaks out.old (tag_named least (Some name.now) n) out.new) }
{
    out.push_str(name)?;
    out.push_str(" (")?;
    push_prefixed(out, least, n)?;
    out.push_str(")")
}

/// The text itself. Its contract says that it is UTF-8.
#[inline(always)]
fn text_of(text: &str) -> &str
    ensures same { result.now ≡ text.now }
    ensures text { IsUtf8 text.now }
{
    text
}

/// The name of a tag, if it has one.
#[inline(always)]
pub fn name_of<'n, A: Allocator>(names: &LentTagMap<'n, A>, tag: TtlvTag) -> Option<&'n str>
    ensures name { option_map (λ s. s.now) result ≡ name_in names.now tag }
    ensures text { IfSome result (λ s. IsUtf8 s.now) }
{
    if names.is_empty() {
        return None;
    }
    match names.get(&tag).copied() {
        Some(name) => Some(text_of(name)),
        None => None,
    }
}

/// Appends a tag as `0x` and its six digits; if it has a name, the name and the tag in brackets. Fails only if the sink does.
///
/// ```
/// let mut text = String::new(alloc);
/// push_tag(&mut text, &names, TtlvTag::from([0x42, 0, 0x69]))?; // names: 420069 is "Protocol Version"
/// assert!(rt; text.as_str() == "Protocol Version (0x420069)");
/// ```
#[inline(always)]
pub fn push_tag<S: TextSink, A: Allocator>(
    out: &mut S,
    names: &LentTagMap<'_, A>,
    tag: TtlvTag,
) -> Result<(), S::Error>
    ensures ok { OnOk result (S.adds out.old (tag_named 6 (name_in names.now tag) tag) out.new) }
    ensures err { OnErr result (S.breaks out.old (tag_named 6 (name_in names.now tag) tag) out.new) }
{
    match name_of(names, tag) {
        Some(name) => push_named(out, 6, name, *tag),
        None => push_prefixed(out, 6, *tag),
    }
}

/// `Tag: ` and a tag that doesn't have six digits.
#[cold]
fn push_rare<S: TextSink>(out: &mut S, least: usize, n: u32) -> Result<(), S::Error>
    requires { least ≤ 8 }
    ensures ok { OnOk result (S.adds out.old (codes "Tag: " ++ hex_padded least n) out.new) }
    ensures err { OnErr result (S.breaks out.old (codes "Tag: " ++ hex_padded least n) out.new) }
{
    out.push_str("Tag: ")?;
    push_prefixed(out, least, n)
}

/// `Tag: ` and a tag without a name. Six digits are written together with what precedes them.
#[inline(always)]
fn push_bare<S: TextSink>(out: &mut S, least: usize, n: u32) -> Result<(), S::Error>
    requires { least ≤ 8 }
    ensures ok { OnOk result (S.adds out.old (codes "Tag: " ++ hex_padded least n) out.new) }
    ensures err { OnErr result (S.breaks out.old (codes "Tag: " ++ hex_padded least n) out.new) }
{
    if shown(least, n) != 6 {
        return push_rare(out, least, n);
    }
    let d = eight(n);
    let text = [
        b'T', b'a', b'g', b':', b' ', b'0', b'x', d[2], d[3], d[4], d[5], d[6], d[7],
    ];
    out.push_str(unsafe { str::from_utf8_unchecked(&text) })
}

/// The beginning of a line, up to the tag with at least so many digits, and with its name if it has one.
#[inline(always)]
pub fn push_named_part<S: TextSink>(
    out: &mut S,
    least: usize,
    name: Option<&str>,
    depth: usize,
    tag: TtlvTag,
) -> Result<(), S::Error>
    requires { least ≤ 8 }
    ensures ok { OnOk result (S.adds out.old (part_of least (named name.entry) depth tag) out.new) }
    ensures err { OnErr result (S.breaks out.old (part_of least (named name.entry) depth tag) out.new) }
{
    push_indent(out, depth)?;
    let Some(name) = name else {
        return push_bare(out, least, *tag);
    };
    out.push_str("Tag: ")?;
    push_named(out, least, name, *tag)
}

/// Appends the beginning of a line: its indent, `Tag: ` and the tag as [`push_tag`] does, but with at least four digits in place of
/// six. Fails only if the sink does.
///
/// ```
/// let mut text = String::new(alloc);
/// let none: LentTagMap = HashMap::new(alloc);
/// push_tag_part(&mut text, &none, 1, TtlvTag::from([0x42, 0x00, 0x6A]))?;
/// assert!(rt; text.as_str() == "  Tag: 0x42006A");
/// ```
#[inline(always)]
pub fn push_tag_part<S: TextSink, A: Allocator>(
    out: &mut S,
    names: &LentTagMap<'_, A>,
    depth: usize,
    tag: TtlvTag,
) -> Result<(), S::Error>
    ensures ok { OnOk result (S.adds out.old (tag_part (name_in names.now) depth tag) out.new) }
    ensures err { OnErr result (S.breaks out.old (tag_part (name_in names.now) depth tag) out.new) }
{
    push_named_part(out, 4, name_of(names, tag), depth, tag)
}

/// What follows the tag, up to the type.
#[inline(always)]
pub fn push_type_part<S: TextSink>(out: &mut S, typ: TtlvType) -> Result<(), S::Error>
    ensures ok { OnOk result (S.adds out.old (codes ", Type: " ++ type_text typ) out.new) }
    ensures err { OnErr result (S.breaks out.old (codes ", Type: " ++ type_text typ) out.new) }
{
    match typ {
        TtlvType::Structure => out.push_str(", Type: Structure (0x01)"),
        TtlvType::Integer => out.push_str(", Type: Integer (0x02)"),
        TtlvType::LongInteger => out.push_str(", Type: LongInteger (0x03)"),
        TtlvType::BigInteger => out.push_str(", Type: BigInteger (0x04)"),
        TtlvType::Enumeration => out.push_str(", Type: Enumeration (0x05)"),
        TtlvType::Boolean => out.push_str(", Type: Boolean (0x06)"),
        TtlvType::TextString => out.push_str(", Type: TextString (0x07)"),
        TtlvType::ByteString => out.push_str(", Type: ByteString (0x08)"),
        TtlvType::DateTime => out.push_str(", Type: DateTime (0x09)"),
        TtlvType::Interval => out.push_str(", Type: Interval (0x0A)"),
    }
}

/// Appends what follows the tag, up to the value: a leaf has a space after `Data:`, a structure none. Fails only
/// if the sink does.
///
/// ```
/// let mut text = String::new(alloc);
/// push_data_part(&mut text, TtlvType::Integer)?;
/// assert!(rt; text.as_str() == ", Type: Integer (0x02), Data: ");
/// ```
#[inline(always)]
pub fn push_data_part<S: TextSink>(out: &mut S, typ: TtlvType) -> Result<(), S::Error>
    ensures ok { OnOk result (S.adds out.old (data_part typ) out.new) }
    ensures err { OnErr result (S.breaks out.old (data_part typ) out.new) }
{
    match typ {
        TtlvType::Structure => out.push_str(", Type: Structure (0x01), Data:"),
        TtlvType::Integer => out.push_str(", Type: Integer (0x02), Data: "),
        TtlvType::LongInteger => out.push_str(", Type: LongInteger (0x03), Data: "),
        TtlvType::BigInteger => out.push_str(", Type: BigInteger (0x04), Data: "),
        TtlvType::Enumeration => out.push_str(", Type: Enumeration (0x05), Data: "),
        TtlvType::Boolean => out.push_str(", Type: Boolean (0x06), Data: "),
        TtlvType::TextString => out.push_str(", Type: TextString (0x07), Data: "),
        TtlvType::ByteString => out.push_str(", Type: ByteString (0x08), Data: "),
        TtlvType::DateTime => out.push_str(", Type: DateTime (0x09), Data: "),
        TtlvType::Interval => out.push_str(", Type: Interval (0x0A), Data: "),
    }
}
