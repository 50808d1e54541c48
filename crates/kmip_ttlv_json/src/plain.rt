//! Values as they are, without words.

ghost use Rattle.std.specs.Prelude.{◌≡◌, true, length, OnOk, OnErr};
ghost use Rattle.std.specs.Int.{w32, w64, from_be_bytes};
ghost use Rattle.kmip_ttlv_types.specs.declared.typ.TtlvType.TheVariants.{Boolean as ABoolean};
ghost use Rattle.kmip_ttlv_types.specs.Leaves.{is_valid};
ghost use Rattle.kmip_ttlv_json.specs.Jsons.{is_true};
ghost use Rattle.kmip_ttlv_json.specs.Parts.{plain_text};

use crate::quoted::{push_digits_text, push_quoted};
use kmip_ttlv_types::TtlvType;
use kmip_ttlv_util::TextSink;

/// The number in four bytes.
pub fn four_bytes(content: &[u8]) -> u32
    requires { length content.now ≡ 4 }
    ensures { result ≡ from_be_bytes w32 content.now }
{
    u32::from_be_bytes([content[0], content[1], content[2], content[3]])
}

/// The number in eight bytes.
pub fn eight_bytes(content: &[u8]) -> u64
    requires { length content.now ≡ 8 }
    ensures { result ≡ from_be_bytes w64 content.now }
{
    u64::from_be_bytes([
        content[0], content[1], content[2], content[3], content[4], content[5], content[6],
        content[7],
    ])
}

// The value of a Boolean.
fn is_true(content: &[u8]) -> bool
    requires { is_valid ABoolean content.now ≡ true }
    ensures { result ≡ is_true content.now }
{
    eight_bytes(content) > 0
}

/// Adds the value of a leaf.
pub fn push_plain<S: TextSink>(out: &mut S, typ: TtlvType, content: &[u8]) -> Result<(), S::Error>
    requires { is_valid typ content.now ≡ true }
    ensures ok { OnOk result (S.adds out.old (plain_text typ content.now) out.new) }
    ensures err { OnErr result (S.breaks out.old (plain_text typ content.now) out.new) }
{
    match typ {
        TtlvType::Boolean => out.push_str(if is_true(content) { "true" } else { "false" }),
        TtlvType::TextString => push_quoted(out, content),
        TtlvType::ByteString => push_digits_text(out, "\"", content),
        _ => push_digits_text(out, "\"0x", content),
    }
}
