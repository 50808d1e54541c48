//! The value of a leaf alone, for scripts: without the digits and dates that stand beside it in a readable line.

ghost use Rattle.std.specs.Prelude.{◌≡◌, ◌≢◌, ◌++◌, true, OnOk, OnErr, codes, option_map};
ghost use Rattle.std.specs.Fmt.{decimal, signed_decimal};
ghost use Rattle.std.specs.Int.{w32, w64, from_be_bytes, cast_signed};
ghost use Rattle.kmip_ttlv_types.specs.declared.typ.TtlvType.TheVariants.{Structure as TheStructure};
ghost use Rattle.kmip_ttlv_types.specs.declared.typ.TtlvType.TheVariants.{Enumeration as TheEnumeration};
ghost use Rattle.kmip_ttlv_types.specs.declared.typ.TtlvType.TheVariants.{Integer as AnInteger, Interval as AnInterval};
ghost use Rattle.kmip_ttlv_types.specs.declared.typ.TtlvType.TheVariants.{DateTime as ADateTime};
ghost use Rattle.kmip_ttlv_types.specs.declared.typ.TtlvType.TheVariants.{ByteString as AByteString};
ghost use Rattle.kmip_ttlv_types.specs.Leaves.{is_valid};
ghost use Rattle.kmip_ttlv_util.specs.Pretty.{value_shown};
ghost use Rattle.ttlv_run.specs.Attributes.{enumeration_name};
ghost use Rattle.ttlv_run.specs.Texts.{names_of, name_alone, bare_text};

use crate::attributes::enumeration_name;
use crate::escape::push_escaped;
use crate::job::{Names, Values};
use crate::values::{number_of, push_bytes, push_lasting};
use itoa::Buffer;
use kmip_ttlv_types::{TtlvTag, TtlvType};
use kmip_ttlv_util::{TextSink, push_value};
use std::alloc::Allocator;

// Adds `0x` and the digits of bytes.
fn push_digits<S: TextSink>(out: &mut S, content: &[u8]) -> Result<(), S::Error>
    ensures ok { OnOk result (S.adds out.old (codes "0x" ++ value_shown AByteString content.now) out.new) }
    ensures err { OnErr result (S.breaks out.old (codes "0x" ++ value_shown AByteString content.now) out.new) }
{
    out.push_str("0x")?;
    push_value(out, TtlvType::ByteString, content)
}

// Adds a name, or the digits of bytes if there is none.
fn push_name_alone<S: TextSink>(
    out: &mut S,
    name: Option<&str>,
    content: &[u8],
) -> Result<(), S::Error>
    ensures ok { OnOk result (S.adds out.old (name_alone (option_map (λ s. s.now) name.entry) content.now) out.new) }
    ensures err { OnErr result (S.breaks out.old (name_alone (option_map (λ s. s.now) name.entry) content.now) out.new) }
{
    match name {
        Some(name) => out.push_str(name),
        None => push_digits(out, content),
    }
}

// Adds the name of an enumeration's value, or `0x` and its eight digits if it has none.
fn push_enumeration<S: TextSink, A: Allocator>(
    out: &mut S,
    names: &Names<'_, A>,
    tag: TtlvTag,
    content: &[u8],
) -> Result<(), S::Error>
    requires { is_valid TheEnumeration content.now ≡ true }
    ensures ok { OnOk result (S.adds out.old (name_alone (enumeration_name (names_of names.now).values (names_of names.now).tags tag
        (from_be_bytes w32 content.now)) content.now) out.new) }
    ensures err { OnErr result (S.breaks out.old (name_alone (enumeration_name (names_of names.now).values (names_of names.now).tags tag
        (from_be_bytes w32 content.now)) content.now) out.new) }
{
    let value = u32::from_be_bytes([content[0], content[1], content[2], content[3]]);
    push_name_alone(out, enumeration_name(names, tag, value), content)
}

// Adds a number of four bytes with a sign.
fn push_integer<S: TextSink>(out: &mut S, content: &[u8]) -> Result<(), S::Error>
    requires { is_valid AnInteger content.now ≡ true }
    ensures ok { OnOk result (S.adds out.old (signed_decimal (cast_signed w32 (from_be_bytes w32 content.now))) out.new) }
    ensures err { OnErr result (S.breaks out.old (signed_decimal (cast_signed w32 (from_be_bytes w32 content.now))) out.new) }
{
    let number = u32::from_be_bytes([content[0], content[1], content[2], content[3]]);
    out.push_str(Buffer::new().format(number.cast_signed()))
}

// Adds one of eight bytes with a sign.
fn push_long<S: TextSink>(out: &mut S, content: &[u8]) -> Result<(), S::Error>
    requires { is_valid ADateTime content.now ≡ true }
    ensures ok { OnOk result (S.adds out.old (signed_decimal (cast_signed w64 (from_be_bytes w64 content.now))) out.new) }
    ensures err { OnErr result (S.breaks out.old (signed_decimal (cast_signed w64 (from_be_bytes w64 content.now))) out.new) }
{
    out.push_str(Buffer::new().format(number_of(content).cast_signed()))
}

// Adds one of four bytes without a sign.
fn push_interval<S: TextSink>(out: &mut S, content: &[u8]) -> Result<(), S::Error>
    requires { is_valid AnInterval content.now ≡ true }
    ensures ok { OnOk result (S.adds out.old (decimal (from_be_bytes w32 content.now)) out.new) }
    ensures err { OnErr result (S.breaks out.old (decimal (from_be_bytes w32 content.now)) out.new) }
{
    let number = u32::from_be_bytes([content[0], content[1], content[2], content[3]]);
    out.push_str(Buffer::new().format(number))
}

/// Adds the value of a leaf alone, if it isn't hidden: that of an enumeration by its name, as those of this tag are named, or else
/// `0x` and eight digits; Integers, Intervals and Date-Times in decimal; the rest as in a readable line.
///
/// It fails where the sink fails.
#[tactic(auto, unfolding(crate::specs::Texts::bare_text))]
pub fn push_bare<S: TextSink, A: Allocator>(
    out: &mut S,
    names: &Names<'_, A>,
    values: Values,
    width: Option<usize>,
    tag: TtlvTag,
    typ: TtlvType,
    content: &[u8],
) -> Result<(), S::Error>
    requires { typ ≢ TheStructure → is_valid typ content.now ≡ true }
    ensures ok { OnOk result (S.adds out.old (bare_text (names_of names.now) values width tag typ content.now) out.new) }
    ensures err { OnErr result (S.breaks out.old (bare_text (names_of names.now) values width tag typ content.now) out.new) }
{
    match typ {
        TtlvType::Structure => Ok(()),
        _ if values == Values::Secret => out.push_str("<redacted>"),
        TtlvType::Enumeration => push_enumeration(out, names, tag, content),
        _ if values == Values::Hidden => out.push_str("<redacted>"),
        _ if values == Values::Lasting => push_lasting(out, names, width, tag, typ, content),
        TtlvType::TextString if values == Values::Escaped => push_escaped(out, content),
        TtlvType::Integer => push_integer(out, content),
        TtlvType::LongInteger | TtlvType::DateTime => push_long(out, content),
        TtlvType::Interval => push_interval(out, content),
        TtlvType::ByteString => push_bytes(out, width, content),
        _ => push_value(out, typ, content),
    }
}
