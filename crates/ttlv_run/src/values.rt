//! The value of a leaf in a readable line.

ghost use Rattle.std.specs.Prelude.{◌≡◌, ◌≢◌, ◌++◌, true, Option, OnOk, OnErr, option_map};
ghost use Rattle.std.specs.Fmt.{decimal};
ghost use Rattle.std.specs.Int.{w32, w64, from_be_bytes};
ghost use Rattle.kmip_ttlv_types.specs.declared.typ.TtlvType.TheVariants.{Structure as TheStructure};
ghost use Rattle.kmip_ttlv_types.specs.declared.typ.TtlvType.TheVariants.{Enumeration as TheEnumeration};
ghost use Rattle.kmip_ttlv_types.specs.declared.typ.TtlvType.TheVariants.{Integer as AnInteger};
ghost use Rattle.kmip_ttlv_types.specs.declared.typ.TtlvType.TheVariants.{DateTime as ADateTime};
ghost use Rattle.kmip_ttlv_types.specs.Leaves.{is_valid};
ghost use Rattle.kmip_ttlv_util.specs.Pretty.{value_shown};
ghost use Rattle.ttlv_run.specs.Attributes.{enumeration_name};
ghost use Rattle.ttlv_run.specs.Dates.{date_shown};
ghost use Rattle.ttlv_run.specs.Texts.{names_of, behind_space, count_shown, bytes_shown, passes, lasting_text, value_text};

use crate::attributes::enumeration_name;
use crate::dates::push_date;
use crate::escape::push_escaped;
use crate::job::{Names, Values};
use crate::lines::is_secret;
use crate::masks::push_mask;
use itoa::Buffer;
use kmip_ttlv_types::{TtlvTag, TtlvType};
use kmip_ttlv_util::{TextSink, push_value};
use std::alloc::Allocator;

// Adds a name behind a space, where there is one.
fn push_name<S: TextSink>(out: &mut S, name: Option<&str>) -> Result<(), S::Error>
    ensures ok { OnOk result (S.adds out.old (behind_space (option_map (λ s. s.now) name.entry)) out.new) }
    ensures err { OnErr result (S.breaks out.old (behind_space (option_map (λ s. s.now) name.entry)) out.new) }
{
    match name {
        Some(name) => {
            out.push_str(" ")?;
            out.push_str(name)
        }
        None => Ok(()),
    }
}

// Adds the value of an enumeration, with its name where it has one.
fn push_enumeration<S: TextSink, A: Allocator>(
    out: &mut S,
    names: &Names<'_, A>,
    tag: TtlvTag,
    content: &[u8],
) -> Result<(), S::Error>
    requires { is_valid TheEnumeration content.now ≡ true }
    ensures ok { OnOk result (S.adds out.old (value_shown TheEnumeration content.now
        ++ behind_space (enumeration_name (names_of names.now).values (names_of names.now).tags tag
        (from_be_bytes w32 content.now))) out.new) }
    ensures err { OnErr result (S.breaks out.old (value_shown TheEnumeration content.now
        ++ behind_space (enumeration_name (names_of names.now).values (names_of names.now).tags tag
        (from_be_bytes w32 content.now))) out.new) }
{
    push_value(out, TtlvType::Enumeration, content)?;
    let value = u32::from_be_bytes([content[0], content[1], content[2], content[3]]);
    push_name(out, enumeration_name(names, tag, value))
}

// Adds the names of an integer's bits, where the tag is that of a mask or the user names them.
fn push_bits<S: TextSink, A: Allocator>(
    out: &mut S,
    names: &Names<'_, A>,
    tag: TtlvTag,
    mask: u32,
) -> Result<(), S::Error>
    ensures ok { OnOk result (S.adds out.old ((names_of names.now).masks tag mask) out.new) }
    ensures err { OnErr result (S.breaks out.old ((names_of names.now).masks tag mask) out.new) }
{
    push_mask(out, names, names.masks.get(&tag).copied(), tag, mask)
}

// Adds the value of an integer, with the names of its bits where it is a mask.
fn push_integer<S: TextSink, A: Allocator>(
    out: &mut S,
    names: &Names<'_, A>,
    tag: TtlvTag,
    content: &[u8],
) -> Result<(), S::Error>
    requires { is_valid AnInteger content.now ≡ true }
    ensures ok { OnOk result (S.adds out.old (value_shown AnInteger content.now
        ++ (names_of names.now).masks tag (from_be_bytes w32 content.now)) out.new) }
    ensures err { OnErr result (S.breaks out.old (value_shown AnInteger content.now
        ++ (names_of names.now).masks tag (from_be_bytes w32 content.now)) out.new) }
{
    push_value(out, TtlvType::Integer, content)?;
    let mask = u32::from_be_bytes([content[0], content[1], content[2], content[3]]);
    push_bits(out, names, tag, mask)
}

/// The number of eight bytes.
pub fn number_of(content: &[u8]) -> u64
    requires { is_valid ADateTime content.now ≡ true }
    ensures { result ≡ from_be_bytes w64 content.now }
{
    u64::from_be_bytes([
        content[0], content[1], content[2], content[3], content[4], content[5], content[6],
        content[7],
    ])
}

// Adds the value of a date, and the date.
fn push_date_time<S: TextSink>(out: &mut S, content: &[u8]) -> Result<(), S::Error>
    requires { is_valid ADateTime content.now ≡ true }
    ensures ok { OnOk result (S.adds out.old
        (value_shown ADateTime content.now ++ date_shown (from_be_bytes w64 content.now)) out.new) }
    ensures err { OnErr result (S.breaks out.old
        (value_shown ADateTime content.now ++ date_shown (from_be_bytes w64 content.now)) out.new) }
{
    push_value(out, TtlvType::DateTime, content)?;
    push_date(out, number_of(content))
}

// Adds a number.
fn push_decimal<S: TextSink>(out: &mut S, number: usize) -> Result<(), S::Error>
    ensures ok { OnOk result (S.adds out.old (decimal number) out.new) }
    ensures err { OnErr result (S.breaks out.old (decimal number) out.new) }
{
    out.push_str(Buffer::new().format(number))
}

// Adds how many bytes a string has of which a part was printed.
fn push_count<S: TextSink>(out: &mut S, count: usize) -> Result<(), S::Error>
    ensures ok { OnOk result (S.adds out.old (count_shown count) out.new) }
    ensures err { OnErr result (S.breaks out.old (count_shown count) out.new) }
{
    out.push_str(".. (")?;
    push_decimal(out, count)?;
    out.push_str(" bytes)")
}

/// Adds a string of bytes, as many as may be printed.
pub fn push_bytes<S: TextSink>(
    out: &mut S,
    width: Option<usize>,
    content: &[u8],
) -> Result<(), S::Error>
    ensures ok { OnOk result (S.adds out.old (bytes_shown width content.now) out.new) }
    ensures err { OnErr result (S.breaks out.old (bytes_shown width content.now) out.new) }
{
    let Some(width) = width else {
        return push_value(out, TtlvType::ByteString, content);
    };
    if content.len() <= width {
        return push_value(out, TtlvType::ByteString, content);
    }
    push_value(out, TtlvType::ByteString, &content[..width])?;
    push_count(out, content.len())
}

// Whether a value differs in each run: that of a date, and what has a tag of identifiers.
fn passes<A: Allocator>(names: &Names<'_, A>, tag: TtlvTag, typ: TtlvType) -> bool
    ensures { result ≡ passes (names_of names.now) tag typ }
{
    match typ {
        TtlvType::DateTime => true,
        _ => is_secret(names, tag),
    }
}

/// Adds the value of a leaf that is no enumeration, as in a readable line, unless it differs in each run: `<left out>` then.
///
/// It fails where the sink fails.
#[tactic(auto, unfolding(crate::specs::Texts::lasting_text))]
pub fn push_lasting<S: TextSink, A: Allocator>(
    out: &mut S,
    names: &Names<'_, A>,
    width: Option<usize>,
    tag: TtlvTag,
    typ: TtlvType,
    content: &[u8],
) -> Result<(), S::Error>
    requires leaf { typ ≢ TheStructure }
    requires valid { is_valid typ content.now ≡ true }
    ensures ok { OnOk result (S.adds out.old (lasting_text (names_of names.now) width tag typ content.now) out.new) }
    ensures err { OnErr result (S.breaks out.old (lasting_text (names_of names.now) width tag typ content.now) out.new) }
{
    if passes(names, tag, typ) {
        return out.push_str("<left out>");
    }
    match typ {
        TtlvType::TextString => push_escaped(out, content),
        TtlvType::Integer => push_integer(out, names, tag, content),
        TtlvType::ByteString => push_bytes(out, width, content),
        _ => push_value(out, typ, content),
    }
}

/// Adds the value of a leaf, if it isn't hidden, named as those of this tag are; a text escaped, if it isn't to be raw, and a
/// string of bytes as far as `width` allows.
///
/// It fails where the sink fails.
#[tactic(auto, unfolding(crate::specs::Texts::value_text))]
pub fn push_shown<S: TextSink, A: Allocator>(
    out: &mut S,
    names: &Names<'_, A>,
    values: Values,
    width: Option<usize>,
    tag: TtlvTag,
    typ: TtlvType,
    content: &[u8],
) -> Result<(), S::Error>
    requires { typ ≢ TheStructure → is_valid typ content.now ≡ true }
    ensures ok { OnOk result (S.adds out.old (value_text (names_of names.now) values width tag typ content.now) out.new) }
    ensures err { OnErr result (S.breaks out.old (value_text (names_of names.now) values width tag typ content.now) out.new) }
{
    match typ {
        TtlvType::Structure => Ok(()),
        _ if values == Values::Secret => out.push_str("<redacted>"),
        TtlvType::Enumeration => push_enumeration(out, names, tag, content),
        _ if values == Values::Hidden => out.push_str("<redacted>"),
        _ if values == Values::Lasting => push_lasting(out, names, width, tag, typ, content),
        TtlvType::TextString if values == Values::Escaped => push_escaped(out, content),
        TtlvType::Integer => push_integer(out, names, tag, content),
        TtlvType::DateTime => push_date_time(out, content),
        TtlvType::ByteString => push_bytes(out, width, content),
        _ => push_value(out, typ, content),
    }
}
