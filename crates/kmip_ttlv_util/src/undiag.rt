//! Diagnostics read back: a loop reads a text from its beginning, one part at a time.

ghost use Rattle.std.specs.Prelude.{◌≡◌, ℕ, ◌+◌, ◌-◌, ◌++◌, ◌∷◌, ◌<◌, ◌≤◌, ◌^◌, List, length, take, drop, None, Some, IfOk, OnOk, OnErr};
ghost use Rattle.std.specs.Prelude.{IfSome, IfNone, string_bytes};
ghost use Rattle.std.specs.List.{prefix_len};
ghost use Rattle.std.specs.Str.{IsUtf8, trim_end};
ghost use Rattle.kmip_ttlv_types.specs.Names.{tag_of};
ghost use Rattle.kmip_ttlv_util.specs.Lines.{indented, line, tag_part, typ_part};
ghost use Rattle.kmip_ttlv_util.specs.TagNames.{name_in, named};
ghost use Rattle.kmip_ttlv_util.specs.LastDigits.{last_digits};
ghost use Rattle.kmip_ttlv_util.specs.Letters.{is_hex, type_of_letter};
ghost use Rattle.kmip_ttlv_util.specs.Prefixes.{IsNumber};
ghost use Rattle.kmip_ttlv_util.specs.Undiag.{front_type, front_value, reads_on, stops_with, data_step};
ghost use Rattle.kmip_ttlv_util.specs.Undiag.{undiag, undiag_lines};
ghost use Rattle.kmip_ttlv_util.specs.Pending.{pending_text, last_text};
ghost use Rattle.kmip_ttlv_util.specs.ReadBack.{EndsAt, tag_in_front};

use crate::diagnostic::{Prefix, prefix_of};
use crate::digits::digits_in_front;
use crate::indentation::{Indentation, push_named_beginning};
use crate::lines::{LentTagMap, name_of, push_type_part};
use crate::sink::TextSink;
use kmip_ttlv_types::{TtlvTag, TtlvType};
use std::alloc::{AllocError, Allocator};

/// The tag that the leading digits give after `0x` and the prefix, if prefix and digits are the tag's six digits.
#[inline(always)]
fn six_digits_tag(prefix: &Prefix<'_>, count: usize, number: u32) -> Option<TtlvTag>
    requires prefix { IsNumber prefix.now }
    requires small { count ≤ 8 → number < 16 ^ count }
    ensures tag { IfSome result (λ t. tag_of (48 ∷ 120 ∷ (prefix.now.text.now ++ last_digits count number)) ≡ Some t) }
    ensures few { IfSome result (λ _. count ≤ 6) }
{
    if 6 < prefix.count || 6 < count || prefix.count + count != 6 {
        return None;
    }
    TtlvTag::from_number((prefix.number << (4 * count as u32)) + number)
}

/// The tag that the leading digits give after `0x` and the prefix.
#[inline(always)]
fn tag_of<A: Allocator>(
    alloc: A,
    prefix: &Prefix<'_>,
    digits: &str,
    number: u32,
) -> Result<Option<TtlvTag>, AllocError>
    requires prefix { IsNumber prefix.now }
    requires number { length digits.now ≤ 8 → digits.now ≡ last_digits (length digits.now) number }
    requires small { length digits.now ≤ 8 → number < 16 ^ length digits.now }
    ensures { IfOk result (λ r. r ≡ tag_of (48 ∷ 120 ∷ (prefix.now.text.now ++ digits.now))) }
{
    if let Some(tag) = six_digits_tag(prefix, digits.len(), number) {
        return Ok(Some(tag));
    }
    tag_named(alloc, prefix.text, digits)
}

/// The same, found by name: `0x`, the prefix and the digits.
fn tag_named<A: Allocator>(
    alloc: A,
    prefix: &str,
    digits: &str,
) -> Result<Option<TtlvTag>, AllocError>
    ensures { IfOk result (λ r. r ≡ tag_of (48 ∷ 120 ∷ (prefix.now ++ digits.now))) }
{
    let name = format!(in alloc; "0x{prefix}{digits}")?;
    Ok(TtlvTag::from_name(name.as_str()))
}

#[inline(always)]
fn type_of_letter(b: u8) -> Option<TtlvType>
    ensures { result ≡ type_of_letter b }
{
    match b {
        b'[' => Some(TtlvType::Structure),
        b'i' => Some(TtlvType::Integer),
        b'l' => Some(TtlvType::LongInteger),
        b'I' => Some(TtlvType::BigInteger),
        b'e' => Some(TtlvType::Enumeration),
        b'b' => Some(TtlvType::Boolean),
        b't' => Some(TtlvType::TextString),
        b'o' => Some(TtlvType::ByteString),
        b'd' => Some(TtlvType::DateTime),
        b'n' => Some(TtlvType::Interval),
        _ => None,
    }
}

/// The type of a leading letter, and what follows.
#[inline(always)]
fn split_letter(s: &str) -> Option<(TtlvType, &str)>
    ensures some { IfSome result (λ r. front_type s.now ≡ Some (r.0, r.1.now)) }
    ensures none { IfNone result (front_type s.now ≡ None) }
{
    let Some(first) = s.as_bytes().first().copied() else {
        return None;
    };
    let Some(typ) = type_of_letter(first) else {
        return None;
    };
    Some((typ, &s[1..]))
}

/// A nonempty value before a colon, and what follows the colon.
#[inline(always)]
fn split_value(s: &str) -> Option<(&str, &str)>
    ensures some { IfSome result (λ r. front_value s.now ≡ Some (r.0.now, r.1.now)) }
    ensures none { IfNone result (front_value s.now ≡ None) }
{
    let Some((value, rest)) = s.split_once(':') else {
        return None;
    };
    if value.is_empty() {
        return None;
    }
    Some((value, rest))
}

/// What follows a leading `]`, if a structure is open.
#[inline(always)]
fn split_close(depth: usize, s: &str) -> Option<&str>
    ensures some { IfSome result (λ rest. (0 < depth) × (s.now ≡ 93 ∷ rest.now)) }
    ensures none { IfNone result ((rest : List ℕ) → s.now ≡ 93 ∷ rest → depth ≡ 0) }
{
    if depth == 0 {
        return None;
    }
    s.strip_prefix(']')
}

/// The leading digits of a text, their number if they are at most eight, and what follows them.
#[inline(always)]
fn split_digits(s: &str) -> (&str, u32, &str)
    ensures digits { result.0.now ≡ take (prefix_len is_hex s.now) s.now }
    ensures number { length result.0.now ≤ 8 → result.0.now ≡ last_digits (length result.0.now) result.1 }
    ensures small { length result.0.now ≤ 8 → result.1 < 16 ^ length result.0.now }
    ensures behind { result.2.now ≡ drop (prefix_len is_hex s.now) s.now }
{
    let (count, number) = digits_in_front(s);
    let (digits, behind) = s.split_at(count);
    (digits, number, behind)
}

/// The tag that a text begins with, given its leading digits.
#[inline(always)]
fn tag_in_front<A: Allocator>(
    alloc: A,
    prefix: &Prefix<'_>,
    s: &str,
    digits: &str,
    number: u32,
) -> Result<Option<TtlvTag>, AllocError>
    requires prefix { IsNumber prefix.now }
    requires digits { digits.now ≡ take (prefix_len is_hex s.now) s.now }
    requires number { length digits.now ≤ 8 → digits.now ≡ last_digits (length digits.now) number }
    requires small { length digits.now ≤ 8 → number < 16 ^ length digits.now }
    ensures { IfOk result (λ tag. tag ≡ tag_in_front prefix.now.text.now s.now) }
{
    if s.is_empty() || s.starts_with(']') {
        return Ok(None);
    }
    tag_of(alloc, prefix, digits, number)
}

/// If the item is whole, what follows its type: the new depth, the rest of the text, and what the
/// line shows.
#[inline(always)]
fn split_data(depth: usize, typ: TtlvType, s: &str) -> Option<(usize, &str, &str)>
    requires room { depth + 1 < 2 ^ 64 }
    ensures some { (beginning : ℕ → ℕ → List ℕ) (tag : ℕ) → IfSome result (λ r.
        data_step beginning depth tag typ s.now ≡ reads_on (line beginning depth tag typ r.2.now) r.0 r.1.now) }
    ensures none { (beginning : ℕ → ℕ → List ℕ) (tag : ℕ) → IfNone result (
        data_step beginning depth tag typ s.now ≡ stops_with (typ_part beginning depth tag typ)) }
{
    if s.is_empty() {
        return None;
    }
    match typ {
        TtlvType::Structure => Some((depth + 1, s, "")),
        TtlvType::Enumeration => {
            let Some((value, rest)) = split_value(s) else {
                return None;
            };
            Some((depth, rest, value))
        }
        _ => Some((depth, s, "<redacted>")),
    }
}

/// The pending end of the last line, all that follows its type, if a line is open.
fn push_pending<S: TextSink>(out: &mut S, pending: bool, shown: &str) -> Result<(), S::Error>
    ensures ok { OnOk result (S.adds out.old (pending_text pending shown.now) out.new) }
    ensures err { OnErr result (S.breaks out.old (pending_text pending shown.now) out.new) }
{
    if !pending {
        return Ok(());
    }
    out.push_str(", Data: ")?;
    out.push_str(shown)?;
    out.push_str("\n")
}

/// The same if no other line follows: without white space at its end.
fn push_last<S: TextSink>(out: &mut S, pending: bool, shown: &str) -> Result<(), S::Error>
    ensures ok { OnOk result (S.adds out.old (last_text pending (trim_end shown.now)) out.new) }
    ensures err { OnErr result (S.breaks out.old (last_text pending (trim_end shown.now)) out.new) }
{
    if !pending {
        return Ok(());
    }
    let shown = shown.trim_end();
    if shown.is_empty() {
        return out.push_str(", Data:");
    }
    out.push_str(", Data: ")?;
    out.push_str(shown)
}

/// The beginning of a line, up to its type.
#[inline(always)]
fn push_typed<S: TextSink>(
    out: &mut S,
    name: Option<&str>,
    indentation: Indentation,
    depth: usize,
    tag: TtlvTag,
    typ: TtlvType,
) -> Result<(), S::Error>
    ensures ok { OnOk result (S.adds out.old (typ_part (indented indentation (named name.entry)) depth tag typ) out.new) }
    ensures err { OnErr result (S.breaks out.old (typ_part (indented indentation (named name.entry)) depth tag typ) out.new) }
{
    push_named_beginning(out, name, indentation, depth, tag)?;
    push_type_part(out, typ)
}

/// An estimate of the length of a diagnostic's lines: sixteen times its own, at most 64 KiB.
fn room_for(s: &str) -> usize {
    let count = s.len();
    16 * if count < 4096 { count } else { 4096 }
}

/// What a diagnostic was read back as, and where reading ended.
#[derive(Drop)]
pub struct DiagnosticLines<A: Allocator> {
    /// The lines, without white space at the end.
    pub text: String<A>,
    /// How many bytes, from the first, are whole parts of a diagnostic.
    pub used: usize,
    /// How many structures are open after these.
    pub depth: usize,
}

/// Where reading a diagnostic ended.
#[derive(Clone, Copy, Debug, PartialEq, Eq)]
pub struct DiagnosticEnd {
    /// How many bytes, from the first, are whole parts of a diagnostic.
    pub used: usize,
    /// How many structures are open after these.
    pub depth: usize,
}

/// The end of reading a text, given what is left of it.
fn end_at(s: &str, rest: &str, depth: usize) -> DiagnosticEnd
    requires { length rest.now ≤ length s.now }
    ensures used { result.used ≡ length s.now - length rest.now }
    ensures depth { result.depth ≡ depth }
{
    let used = s.len() - rest.len();
    DiagnosticEnd { used, depth }
}

/// Appends the lines of a diagnostic, without white space at the end, and returns where reading ended.
///
/// What follows the type of a line is written once another line begins, or none does: till then it is a slice of
/// the text that is read, and nothing else is kept.
pub fn read_back_to<S: TextSink, A: Allocator + Copy>(
    alloc: A,
    out: &mut S,
    prefix: &str,
    names: &LentTagMap<'_, A>,
    indentation: Indentation,
    s: &str,
) -> Result<DiagnosticEnd, S::Error>
    ensures text { OnOk result (S.adds out.old
        (trim_end (undiag_lines (indented indentation (name_in names.now)) prefix.now s.now)) out.new) }
    ensures broken { OnErr result (S.breaks out.old
        (trim_end (undiag_lines (indented indentation (name_in names.now)) prefix.now s.now)) out.new) }
    ensures utf8 { IfOk result (λ _. IsUtf8 (undiag_lines (indented indentation (name_in names.now)) prefix.now s.now)) }
    ensures ends { IfOk result (λ r. EndsAt (indented indentation (name_in names.now)) prefix.now s.now
        (undiag_lines (indented indentation (name_in names.now)) prefix.now s.now) r.used r.depth) }
{
    let numbered = prefix_of(prefix);
    let mut rest = s;
    let mut depth = 0;
    let mut pending = false;
    let mut shown = "";
    'parts: loop {
        if let Some(left) = split_close(depth, rest) {
            depth -= 1;
            rest = left;
            continue;
        }
        let (digits, number, behind) = split_digits(rest);
        let Some(tag) = tag_in_front(alloc, &numbered, rest, digits, number)? else {
            push_last(out, pending, shown)?;
            return Ok(end_at(s, rest, depth));
        };
        let name = name_of(names, tag);
        push_pending(out, pending, shown)?;
        let Some((typ, behind)) = split_letter(behind) else {
            push_named_beginning(out, name, indentation, depth, tag)?;
            return Ok(end_at(s, rest, depth));
        };
        push_typed(out, name, indentation, depth, tag, typ)?;
        let Some((deep, left, shows)) = split_data(depth, typ, behind) else {
            return Ok(end_at(s, rest, depth));
        };
        depth = deep;
        rest = left;
        pending = true;
        shown = shows;
    }
}

/// The lines of a diagnostic, and where reading ended.
pub fn read_counted<A: Allocator + Copy>(
    alloc: A,
    prefix: &str,
    names: &LentTagMap<'_, A>,
    indentation: Indentation,
    s: &str,
) -> Result<DiagnosticLines<A>, AllocError>
    ensures text { IfOk result (λ r. string_bytes r.text
        ≡ trim_end (undiag_lines (indented indentation (name_in names.now)) prefix.now s.now)) }
    ensures utf8 { IfOk result (λ _. IsUtf8 (undiag_lines (indented indentation (name_in names.now)) prefix.now s.now)) }
    ensures ends { IfOk result (λ r. EndsAt (indented indentation (name_in names.now)) prefix.now s.now
        (undiag_lines (indented indentation (name_in names.now)) prefix.now s.now) r.used r.depth) }
{
    let mut text = String::with_capacity(alloc, room_for(s))?;
    let end = read_back_to(alloc, &mut text, prefix, names, indentation, s)?;
    Ok(DiagnosticLines {
        text,
        used: end.used,
        depth: end.depth,
    })
}

/// The lines of a diagnostic, indented by two spaces for each structure around.
pub fn read_back<A: Allocator + Copy>(
    alloc: A,
    prefix: &str,
    names: &LentTagMap<'_, A>,
    s: &str,
) -> Result<String<A>, AllocError>
    ensures undiag { IfOk result (λ r. string_bytes r ≡ undiag (name_in names.now) prefix.now s.now) }
    ensures utf8 { IfOk result (λ _. IsUtf8 (undiag_lines (tag_part (name_in names.now)) prefix.now s.now)) }
{
    let lines = read_counted(alloc, prefix, names, Indentation::Full, s)?;
    Ok(lines.text)
}
