//! Leaves: their content, and the values that are read from it.

ghost use Rattle.std.specs.Prelude.{◌≡◌, ◌+◌, ◌≤◌, length, true, IfOk};
ghost use Rattle.kmip_ttlv_types.specs.Leaves.{is_valid};
ghost use Rattle.kmip_ttlv_base.specs.Values.{Value, view};
ghost use Rattle.kmip_ttlv_reader.specs.Reads.{takes, decoded_leaf, stored_after_leaf};
ghost use Rattle.kmip_ttlv_reader.specs.Outcomes.{leaf_outcome, first_type};
ghost use Rattle.kmip_ttlv_reader.specs.Results.{IsRead};
ghost use Rattle.kmip_ttlv_reader.specs.LeafForms.{form_of_leaf};

use crate::failure::Step;
use crate::head::{content_there, inside, tag_at, type_there, type_wanted};
use crate::scope::Scope;
use crate::store::TagValueStore;
use kmip_ttlv_base::shape::Data;
use kmip_ttlv_base::types::numbers::{number_of_eight, number_of_four};
use kmip_ttlv_base::types::{TtlvTag, TtlvType};
use std::alloc::{AllocError, Allocator};
use std::str;

/// The shapes of leaves.
#[derive(Clone, Copy)]
pub enum Leaf {
    I32,
    I64,
    Bool,
    Text,
    Bytes,
    DateTime,
    Interval,
    BigInteger,
    U32,
}

impl Leaf {
    // Whether an item of this type is read.
    #[inline(always)]
    fn takes(self, typ: TtlvType) -> bool
        ensures { result ≡ takes (form_of_leaf self) typ }
    {
        match self {
            Leaf::I32 => typ == TtlvType::Integer,
            Leaf::I64 => typ == TtlvType::LongInteger || typ == TtlvType::DateTime,
            Leaf::Bool => typ == TtlvType::Boolean,
            Leaf::Text => typ == TtlvType::TextString,
            Leaf::Bytes => typ == TtlvType::ByteString || typ == TtlvType::BigInteger,
            Leaf::DateTime => typ == TtlvType::DateTime,
            Leaf::Interval => typ == TtlvType::Interval,
            Leaf::BigInteger => typ == TtlvType::BigInteger,
            Leaf::U32 => typ == TtlvType::Enumeration,
        }
    }

    // The type that an error names as the expected one.
    fn first_type(self) -> TtlvType
        ensures { result ≡ first_type (form_of_leaf self) }
    {
        match self {
            Leaf::I32 => TtlvType::Integer,
            Leaf::I64 => TtlvType::LongInteger,
            Leaf::Bool => TtlvType::Boolean,
            Leaf::Text => TtlvType::TextString,
            Leaf::Bytes => TtlvType::ByteString,
            Leaf::DateTime => TtlvType::DateTime,
            Leaf::Interval => TtlvType::Interval,
            Leaf::BigInteger => TtlvType::BigInteger,
            Leaf::U32 => TtlvType::Enumeration,
        }
    }
}

// The text that valid content is.
#[inline(always)]
pub fn text_of<'b>(content: &'b [u8]) -> &'b str
    requires { is_valid TtlvType.TextString content.now ≡ true }
    ensures { result.now ≡ content.now }
{
    unsafe { str::from_utf8_unchecked(content) }
}

// The value that a leaf's content is.
#[inline(always)]
fn leaf_data<A: Allocator + Copy>(
    alloc: A,
    leaf: Leaf,
    typ: TtlvType,
    content: &[u8],
) -> Result<Data<A>, AllocError>
    requires takes { takes (form_of_leaf leaf) typ ≡ true }
    requires valid { is_valid typ content.now ≡ true }
    ensures { IfOk result (λ d. view d ≡ decoded_leaf (form_of_leaf leaf) content.now) }
{
    Ok(match leaf {
        Leaf::I32 => Data::I32(number_of_four(content).cast_signed()),
        Leaf::I64 => Data::I64(number_of_eight(content).cast_signed()),
        Leaf::Bool => Data::Bool(number_of_eight(content) == 1),
        Leaf::Text => Data::Text(String::from_str(alloc, text_of(content))?),
        Leaf::Bytes => Data::Bytes(Vec::from_slice(alloc, content)?),
        Leaf::DateTime => Data::DateTime(number_of_eight(content).cast_signed()),
        Leaf::Interval => Data::Interval(number_of_four(content)),
        Leaf::BigInteger => Data::BigInteger(Vec::from_slice(alloc, content)?),
        Leaf::U32 => Data::U32(number_of_four(content)),
    })
}

// A text is stored under its item's tag, and so is the text of an Enumeration's number; no other leaf is.
#[inline(always)]
fn store_leaf<'b, A: Allocator + Copy>(
    leaf: Leaf,
    tag: TtlvTag,
    typ: TtlvType,
    content: &'b [u8],
    stored: &mut TagValueStore<'b, A>,
) -> Result<(), AllocError>
    requires takes { takes (form_of_leaf leaf) typ ≡ true }
    requires valid { is_valid typ content.now ≡ true }
    ensures ok { IfOk result (λ _. stored.new ≡ stored_after_leaf (form_of_leaf leaf)
        record { tag = tag; typ = typ; content = content.now } stored.old) }
{
    match leaf {
        Leaf::Text => stored.store(tag, text_of(content))?,
        Leaf::U32 => stored.store_number(tag, content)?,
        Leaf::I32 | Leaf::I64 | Leaf::Bool | Leaf::Bytes => {}
        Leaf::DateTime | Leaf::Interval | Leaf::BigInteger => {}
    }
    Ok(())
}

/// A leaf's type and its content, which is valid for it.
#[derive(Clone, Copy)]
pub struct LeafContent<'b> {
    /// The type of the item.
    pub typ: TtlvType,
    /// Its content, as it stands in the message, without padding.
    pub bytes: &'b [u8],
}

/// A leaf of this shape: its type, its content, and where the next item is. Its text, if it has one, is stored.
#[tactic(auto, unfolding(crate::specs::Outcomes::leaf_outcome), using(crate::proofs::Steps::failure_then))]
#[inline(always)]
pub fn leaf_there<'b, A: Allocator + Copy>(
    scope: &Scope<'b, A>,
    leaf: Leaf,
    pos: usize,
    stored: &mut TagValueStore<'b, A>,
) -> Step<(LeafContent<'b>, usize), A>
    requires inside { pos ≤ length scope.now.bytes.now }
    ensures read { IsRead (λ c. decoded_leaf (form_of_leaf leaf) c.bytes.now) stored.new
        (leaf_outcome (form_of_leaf leaf) scope.now.bytes.now scope.now.owner stored.old pos scope.now.end) result }
    ensures taken { IfOk result (λ r. takes (form_of_leaf leaf) r.0.typ ≡ true) }
    ensures valid { IfOk result (λ r. is_valid r.0.typ r.0.bytes.now ≡ true) }
    ensures further { IfOk result (λ r. (pos + 8 ≤ r.1) × (r.1 ≤ scope.now.end) × (r.1 ≤ length scope.now.bytes.now)) }
{
    let typ = type_there(scope.alloc, scope.bytes, pos)?;
    type_wanted(
        scope.alloc,
        leaf.takes(typ),
        leaf.first_type(),
        scope.bytes,
        pos,
        typ,
    )?;
    let (bytes, next) = content_there(scope.alloc, scope.bytes, pos, typ)?;
    inside(scope.alloc, scope.bytes, pos, scope.end, typ, next)?;
    store_leaf(leaf, tag_at(scope.bytes, pos), typ, bytes, stored)?;
    Ok((LeafContent { typ, bytes }, next))
}

/// A leaf of this shape, as data.
#[inline(always)]
pub fn read_leaf<'b, A: Allocator + Copy>(
    scope: &Scope<'b, A>,
    leaf: Leaf,
    pos: usize,
    stored: &mut TagValueStore<'b, A>,
) -> Step<(Data<A>, usize), A>
    requires inside { pos ≤ length scope.now.bytes.now }
    ensures read { IsRead view stored.new
        (leaf_outcome (form_of_leaf leaf) scope.now.bytes.now scope.now.owner stored.old pos scope.now.end) result }
    ensures further { IfOk result (λ r. (pos + 8 ≤ r.1) × (r.1 ≤ scope.now.end) × (r.1 ≤ length scope.now.bytes.now)) }
{
    match leaf_there(scope, leaf, pos, stored) {
        Ok((content, next)) => Ok((
            leaf_data(scope.alloc, leaf, content.typ, content.bytes)?,
            next,
        )),
        Err(failure) => Err(failure),
    }
}
