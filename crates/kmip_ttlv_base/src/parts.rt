//! The parts of a user's `visit`: leaves and groups, with their names, or the numbers of their tags, as parameters.
//!
//! With these a `visit` needs no proof of its own if it makes five calls or so, and ends in
//! `?; Ok(())`. Split a larger message into several functions, each with a definition of the value that it
//! visits, which is `unfoldable` and unfolded in that function alone. If a field may be absent (`option`) or
//! come often (`each`), define the value with `joined`, and let the function name the lemma
//! `visited_joined` of proofs/Visiting.
//!
//! ```
//! fn visit<V: Visitor>(&self, visitor: &mut V) -> Result<(), AllocError> {
//!     begin_struct(visitor, "0xAAAAAA")?;
//!     integer(visitor, "Transparent:0xBBBBBB", self.number)?;
//!     end_struct(visitor, "0xAAAAAA")?;
//!     Ok(())
//! }
//! ```

ghost use Rattle.std.specs.Prelude.{OnOk, OnErr, map, option_map};
ghost use Rattle.kmip_ttlv_base.specs.Values.{newtype_value, newtype_variant_value, unit_variant_value, seq_value};
ghost use Rattle.kmip_ttlv_base.specs.Values.{boolean_value, i32_value, u32_value, i64_value, u64_value};
ghost use Rattle.kmip_ttlv_base.specs.Values.{interval_value, text_value, bytes_value, big_integer_value, values_of};
ghost use Rattle.kmip_ttlv_base.specs.Visits.{begun, ended, a_struct, a_newtype, a_newtype_variant, a_tuple_variant};
ghost use Rattle.kmip_ttlv_base.specs.Visits.{a_seq, Receives, ReceivesEach, ReceivesEvent, optional_field, leaf_value};
ghost use Rattle.kmip_ttlv_base.specs.Tags.{wrapper_name};
ghost use Rattle.kmip_ttlv_types.specs.Digits.{tag_text};

use crate::shape::Serialize;
use crate::visit::{Group, Leaf, Visitor};
use std::alloc::AllocError;

/// An Integer in a newtype of this name.
///
/// ```
/// integer(visitor, "Transparent:0x420020", 8)?; // 42002002 00000004 00000008 00000000
/// ```
#[inline(always)]
pub fn integer<V: Visitor>(
    visitor: &mut V,
    name: &'static str,
    number: i32,
) -> Result<(), AllocError>
    ensures received { OnOk result
        (Receives V.knows V.step (newtype_value name.now (i32_value number)) visitor.old visitor.new) }
    ensures stopped { OnErr result (V.stopped visitor.new) }
{
    visitor.begin(Group::Newtype { name })?;
    visitor.leaf(Leaf::I32(number))?;
    visitor.end(Group::Newtype { name })
}

/// A Long Integer in a newtype of this name.
///
/// ```
/// long_integer(visitor, "Transparent:0x420020", 123_456_789_000_000_000)?; // 42002003 00000008 01B69B4B A5749200
/// ```
#[inline(always)]
pub fn long_integer<V: Visitor>(
    visitor: &mut V,
    name: &'static str,
    number: i64,
) -> Result<(), AllocError>
    ensures received { OnOk result
        (Receives V.knows V.step (newtype_value name.now (i64_value number)) visitor.old visitor.new) }
    ensures stopped { OnErr result (V.stopped visitor.new) }
{
    visitor.begin(Group::Newtype { name })?;
    visitor.leaf(Leaf::I64(number))?;
    visitor.end(Group::Newtype { name })
}

/// A Big Integer in a newtype of this name: two's complement, the highest byte first.
///
/// ```
/// big_integer(visitor, "Transparent:0xAABBCC", b"\x80")?; // AABBCC04 00000008 FFFFFFFF FFFFFF80
/// ```
#[inline(always)]
pub fn big_integer<V: Visitor>(
    visitor: &mut V,
    name: &'static str,
    bytes: &[u8],
) -> Result<(), AllocError>
    ensures received { OnOk result
        (Receives V.knows V.step (newtype_value name.now (big_integer_value bytes.now)) visitor.old visitor.new) }
    ensures stopped { OnErr result (V.stopped visitor.new) }
{
    visitor.begin(Group::Newtype { name })?;
    visitor.leaf(Leaf::BigInteger(bytes))?;
    visitor.end(Group::Newtype { name })
}

/// An Enumeration in a newtype of this name.
///
/// ```
/// enumeration(visitor, "Transparent:0x420020", 255)?; // 42002005 00000004 000000FF 00000000
/// ```
#[inline(always)]
pub fn enumeration<V: Visitor>(
    visitor: &mut V,
    name: &'static str,
    number: u32,
) -> Result<(), AllocError>
    ensures received { OnOk result
        (Receives V.knows V.step (newtype_value name.now (u32_value number)) visitor.old visitor.new) }
    ensures stopped { OnErr result (V.stopped visitor.new) }
{
    visitor.begin(Group::Newtype { name })?;
    visitor.leaf(Leaf::U32(number))?;
    visitor.end(Group::Newtype { name })
}

/// A Boolean in a newtype of this name.
///
/// ```
/// boolean(visitor, "Transparent:0x420020", true)?; // 42002006 00000008 00000000 00000001
/// ```
#[inline(always)]
pub fn boolean<V: Visitor>(
    visitor: &mut V,
    name: &'static str,
    truth: bool,
) -> Result<(), AllocError>
    ensures received { OnOk result
        (Receives V.knows V.step (newtype_value name.now (boolean_value truth)) visitor.old visitor.new) }
    ensures stopped { OnErr result (V.stopped visitor.new) }
{
    visitor.begin(Group::Newtype { name })?;
    visitor.leaf(Leaf::Bool(truth))?;
    visitor.end(Group::Newtype { name })
}

/// A Text String in a newtype of this name.
///
/// ```
/// text_string(visitor, "Transparent:0x420020", "Hello World")?;
/// // 42002007 0000000B 48656C6C 6F20576F 726C6400 00000000
/// ```
#[inline(always)]
pub fn text_string<V: Visitor>(
    visitor: &mut V,
    name: &'static str,
    text: &str,
) -> Result<(), AllocError>
    ensures received { OnOk result
        (Receives V.knows V.step (newtype_value name.now (text_value text.now)) visitor.old visitor.new) }
    ensures stopped { OnErr result (V.stopped visitor.new) }
{
    visitor.begin(Group::Newtype { name })?;
    visitor.leaf(Leaf::Text(text))?;
    visitor.end(Group::Newtype { name })
}

/// A Byte String in a newtype of this name.
///
/// ```
/// byte_string(visitor, "Transparent:0x420020", &[1, 2, 3])?; // 42002008 00000003 01020300 00000000
/// ```
#[inline(always)]
pub fn byte_string<V: Visitor>(
    visitor: &mut V,
    name: &'static str,
    bytes: &[u8],
) -> Result<(), AllocError>
    ensures received { OnOk result
        (Receives V.knows V.step (newtype_value name.now (bytes_value bytes.now)) visitor.old visitor.new) }
    ensures stopped { OnErr result (V.stopped visitor.new) }
{
    visitor.begin(Group::Newtype { name })?;
    visitor.leaf(Leaf::Bytes(bytes))?;
    visitor.end(Group::Newtype { name })
}

/// A Date-Time, in seconds since the start of 1970, in a newtype of this name.
///
/// ```
/// date_time(visitor, "Transparent:0x420020", 0x47DA_67F8)?; // 42002009 00000008 00000000 47DA67F8
/// ```
#[inline(always)]
pub fn date_time<V: Visitor>(
    visitor: &mut V,
    name: &'static str,
    seconds: u64,
) -> Result<(), AllocError>
    ensures received { OnOk result
        (Receives V.knows V.step (newtype_value name.now (u64_value seconds)) visitor.old visitor.new) }
    ensures stopped { OnErr result (V.stopped visitor.new) }
{
    visitor.begin(Group::Newtype { name })?;
    visitor.leaf(Leaf::U64(seconds))?;
    visitor.end(Group::Newtype { name })
}

/// An Interval, in seconds, in a newtype of this name.
///
/// ```
/// interval(visitor, "Transparent:0x420020", 864_000)?; // 4200200A 00000004 000D2F00 00000000
/// ```
#[inline(always)]
pub fn interval<V: Visitor>(
    visitor: &mut V,
    name: &'static str,
    seconds: u32,
) -> Result<(), AllocError>
    ensures received { OnOk result
        (Receives V.knows V.step (newtype_value name.now (interval_value seconds)) visitor.old visitor.new) }
    ensures stopped { OnErr result (V.stopped visitor.new) }
{
    visitor.begin(Group::Newtype { name })?;
    visitor.leaf(Leaf::Interval(seconds))?;
    visitor.end(Group::Newtype { name })
}

/// An Enumeration under the tag that the name is, of the number that the variant's name is.
///
/// ```
/// unit_variant(visitor, "420028", "0x2")?; // 42002805 00000004 00000002 00000000
/// ```
#[inline(always)]
pub fn unit_variant<V: Visitor>(
    visitor: &mut V,
    name: &'static str,
    variant: &'static str,
) -> Result<(), AllocError>
    ensures received { OnOk result
        (Receives V.knows V.step (unit_variant_value name.now variant.now) visitor.old visitor.new) }
    ensures stopped { OnErr result (V.stopped visitor.new) }
{
    visitor.leaf(Leaf::UnitVariant { name, variant })
}

/// A leaf under the tag of this number: what a newtype named `Transparent:` and the tag's six digits is, but no name
/// is looked at when it is encoded, and the tag may be a parameter of a type. Of a number above 2^24 - 1 the last 24
/// bits count.
///
/// ```
/// tagged(visitor, 0x420020, Leaf::I32(8))?; // 42002002 00000004 00000008 00000000
/// ```
#[tactic(auto, using(crate::proofs::Visiting::visited_leaf))]
#[inline(always)]
pub fn tagged<V: Visitor>(visitor: &mut V, tag: u32, leaf: Leaf<'_>) -> Result<(), AllocError>
    ensures received { OnOk result
        (Receives V.knows V.step (newtype_value (wrapper_name tag) (leaf_value leaf.entry)) visitor.old visitor.new) }
    ensures stopped { OnErr result (V.stopped visitor.new) }
{
    visitor.begin(Group::Tagged { tag })?;
    visitor.leaf(leaf)?;
    visitor.end(Group::Tagged { tag })
}

/// A value in a newtype of this name.
///
/// ```
/// newtype(visitor, "Transparent:0x420020", &Leaf::I32(8))?; // 42002002 00000004 00000008 00000000
/// ```
#[inline(always)]
pub fn newtype<V: Visitor, T: Serialize>(
    visitor: &mut V,
    name: &'static str,
    inner: &T,
) -> Result<(), AllocError>
    ensures received { OnOk result
        (Receives V.knows V.step (newtype_value name.now (T.stated inner.now)) visitor.old visitor.new) }
    ensures stopped { OnErr result (V.stopped visitor.new) }
{
    visitor.begin(Group::Newtype { name })?;
    inner.visit(visitor)?;
    visitor.end(Group::Newtype { name })
}

/// A value in a variant of these names.
///
/// ```
/// let aes = Leaf::UnitVariant { name: "420028", variant: "0x00000003" };
/// newtype_variant(visitor, "Override:0x42000B", "Transparent", &aes)?; // 42000B05 00000004 00000003 00000000
/// ```
#[inline(always)]
pub fn newtype_variant<V: Visitor, T: Serialize>(
    visitor: &mut V,
    name: &'static str,
    variant: &'static str,
    inner: &T,
) -> Result<(), AllocError>
    ensures received { OnOk result
        (Receives V.knows V.step (newtype_variant_value name.now variant.now (T.stated inner.now)) visitor.old visitor.new) }
    ensures stopped { OnErr result (V.stopped visitor.new) }
{
    visitor.begin(Group::NewtypeVariant { name, variant })?;
    inner.visit(visitor)?;
    visitor.end(Group::NewtypeVariant { name, variant })
}

/// Values one after the other, as the fields of a structure.
#[inline(always)]
pub fn each<V: Visitor, T: Serialize>(visitor: &mut V, values: &[T]) -> Result<(), AllocError>
    ensures received { OnOk result
        (ReceivesEach V.knows V.step (values_of (map T.stated values.now)) visitor.old visitor.new) }
    ensures stopped { OnErr result (V.stopped visitor.new) }
{
    for value in values {
        value.visit(visitor)?;
    }
    Ok(())
}

/// Values one after the other, together one value.
#[inline(always)]
pub fn seq<V: Visitor, T: Serialize>(visitor: &mut V, values: &[T]) -> Result<(), AllocError>
    ensures received { OnOk result
        (Receives V.knows V.step (seq_value (values_of (map T.stated values.now))) visitor.old visitor.new) }
    ensures stopped { OnErr result (V.stopped visitor.new) }
{
    visitor.begin(Group::Seq)?;
    each(visitor, values)?;
    visitor.end(Group::Seq)
}

/// A field that may be absent. If it is, the visitor isn't called.
///
/// ```
/// begin_struct(visitor, "0x420079")?;
/// option(visitor, &self.unique_identifier)?;
/// each(visitor, self.attribute_names)?;
/// end_struct(visitor, "0x420079")?;
/// ```
#[inline(always)]
pub fn option<V: Visitor, T: Serialize>(
    visitor: &mut V,
    value: &Option<T>,
) -> Result<(), AllocError>
    ensures received { OnOk result
        (ReceivesEach V.knows V.step (optional_field (option_map T.stated value.now)) visitor.old visitor.new) }
    ensures stopped { OnErr result (V.stopped visitor.new) }
{
    match value {
        Some(value) => value.visit(visitor),
        None => Ok(()),
    }
}

/// The start of values one after the other, which are together one value.
///
/// ```
/// begin_newtype_variant(visitor, "Override:0x42000B", "Transparent")?;
/// begin_seq(visitor)?;
/// unit_variant(visitor, "420028", "0x1")?; // 42000B05 00000004 00000001 00000000
/// unit_variant(visitor, "420028", "0x2")?; // 42002805 00000004 00000002 00000000
/// end_seq(visitor)?;
/// end_newtype_variant(visitor, "Override:0x42000B", "Transparent")?;
/// ```
#[inline(always)]
pub fn begin_seq<V: Visitor>(visitor: &mut V) -> Result<(), AllocError>
    ensures received { OnOk result
        (ReceivesEvent V.knows V.step (begun a_seq) visitor.old visitor.new) }
    ensures stopped { OnErr result (V.stopped visitor.new) }
{
    visitor.begin(Group::Seq)
}

/// The end of values that are together one value.
#[inline(always)]
pub fn end_seq<V: Visitor>(visitor: &mut V) -> Result<(), AllocError>
    ensures received { OnOk result
        (ReceivesEvent V.knows V.step (ended a_seq) visitor.old visitor.new) }
    ensures stopped { OnErr result (V.stopped visitor.new) }
{
    visitor.end(Group::Seq)
}

/// The start of a structure of this name: what follows, up to its end, is in it.
#[inline(always)]
pub fn begin_struct<V: Visitor>(visitor: &mut V, name: &'static str) -> Result<(), AllocError>
    ensures received { OnOk result
        (ReceivesEvent V.knows V.step (begun (a_struct name.now)) visitor.old visitor.new) }
    ensures stopped { OnErr result (V.stopped visitor.new) }
{
    visitor.begin(Group::Struct { name })
}

/// The end of a structure of this name.
#[inline(always)]
pub fn end_struct<V: Visitor>(visitor: &mut V, name: &'static str) -> Result<(), AllocError>
    ensures received { OnOk result
        (ReceivesEvent V.knows V.step (ended (a_struct name.now)) visitor.old visitor.new) }
    ensures stopped { OnErr result (V.stopped visitor.new) }
{
    visitor.end(Group::Struct { name })
}

/// The start of a structure under the tag of this number: what follows, up to its end, is in it. It is what a struct
/// named by the tag is. Of a number above 2^24 - 1 the last 24 bits count.
///
/// ```
/// begin_structure(visitor, 0xAABBCC)?; // AABBCC01 00000010
/// tagged(visitor, 0xBBBBBB, Leaf::I32(3))?; // BBBBBB02 00000004 00000003 00000000
/// end_structure(visitor, 0xAABBCC)?;
/// ```
#[inline(always)]
pub fn begin_structure<V: Visitor>(visitor: &mut V, tag: u32) -> Result<(), AllocError>
    ensures received { OnOk result
        (ReceivesEvent V.knows V.step (begun (a_struct (tag_text tag))) visitor.old visitor.new) }
    ensures stopped { OnErr result (V.stopped visitor.new) }
{
    visitor.begin(Group::Structure { tag })
}

/// The end of a structure under the tag of this number.
#[inline(always)]
pub fn end_structure<V: Visitor>(visitor: &mut V, tag: u32) -> Result<(), AllocError>
    ensures received { OnOk result
        (ReceivesEvent V.knows V.step (ended (a_struct (tag_text tag))) visitor.old visitor.new) }
    ensures stopped { OnErr result (V.stopped visitor.new) }
{
    visitor.end(Group::Structure { tag })
}

/// The start of a newtype of this name: what follows, up to its end, is in it.
///
/// ```
/// begin_newtype(visitor, "Transparent:0xAABBCC")?;
/// Leaf::I32(3).visit(visitor)?; // AABBCC02 00000004 00000003 00000000
/// end_newtype(visitor, "Transparent:0xAABBCC")?;
/// ```
#[inline(always)]
pub fn begin_newtype<V: Visitor>(visitor: &mut V, name: &'static str) -> Result<(), AllocError>
    ensures received { OnOk result
        (ReceivesEvent V.knows V.step (begun (a_newtype name.now)) visitor.old visitor.new) }
    ensures stopped { OnErr result (V.stopped visitor.new) }
{
    visitor.begin(Group::Newtype { name })
}

/// The end of a newtype of this name.
#[inline(always)]
pub fn end_newtype<V: Visitor>(visitor: &mut V, name: &'static str) -> Result<(), AllocError>
    ensures received { OnOk result
        (ReceivesEvent V.knows V.step (ended (a_newtype name.now)) visitor.old visitor.new) }
    ensures stopped { OnErr result (V.stopped visitor.new) }
{
    visitor.end(Group::Newtype { name })
}

/// The start of a variant of these names, of one value: what follows, up to its end, is in it.
#[inline(always)]
pub fn begin_newtype_variant<V: Visitor>(
    visitor: &mut V,
    name: &'static str,
    variant: &'static str,
) -> Result<(), AllocError>
    ensures received { OnOk result
        (ReceivesEvent V.knows V.step (begun (a_newtype_variant name.now variant.now)) visitor.old visitor.new) }
    ensures stopped { OnErr result (V.stopped visitor.new) }
{
    visitor.begin(Group::NewtypeVariant { name, variant })
}

/// The end of a variant of these names, of one value.
#[inline(always)]
pub fn end_newtype_variant<V: Visitor>(
    visitor: &mut V,
    name: &'static str,
    variant: &'static str,
) -> Result<(), AllocError>
    ensures received { OnOk result
        (ReceivesEvent V.knows V.step (ended (a_newtype_variant name.now variant.now)) visitor.old visitor.new) }
    ensures stopped { OnErr result (V.stopped visitor.new) }
{
    visitor.end(Group::NewtypeVariant { name, variant })
}

/// The start of a variant of these names, of fields: what follows, up to its end, are its fields.
///
/// ```
/// begin_tuple_variant(visitor, "Override:0xAABBCC", "Items")?; // AABBCC01 00000010
/// integer(visitor, "Transparent:0xBBBBBB", 3)?; // BBBBBB02 00000004 00000003 00000000
/// end_tuple_variant(visitor, "Override:0xAABBCC", "Items")?;
/// ```
#[inline(always)]
pub fn begin_tuple_variant<V: Visitor>(
    visitor: &mut V,
    name: &'static str,
    variant: &'static str,
) -> Result<(), AllocError>
    ensures received { OnOk result
        (ReceivesEvent V.knows V.step (begun (a_tuple_variant name.now variant.now)) visitor.old visitor.new) }
    ensures stopped { OnErr result (V.stopped visitor.new) }
{
    visitor.begin(Group::TupleVariant { name, variant })
}

/// The end of a variant of these names, of fields.
#[inline(always)]
pub fn end_tuple_variant<V: Visitor>(
    visitor: &mut V,
    name: &'static str,
    variant: &'static str,
) -> Result<(), AllocError>
    ensures received { OnOk result
        (ReceivesEvent V.knows V.step (ended (a_tuple_variant name.now variant.now)) visitor.old visitor.new) }
    ensures stopped { OnErr result (V.stopped visitor.new) }
{
    visitor.end(Group::TupleVariant { name, variant })
}
