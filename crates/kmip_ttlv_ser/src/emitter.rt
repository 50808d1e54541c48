//! The second pass: writes a value's bytes to an output, in order, with the lengths of the structures.

ghost use Rattle.std.specs.Prelude.{◌≡◌, ℕ, List, [], ◌<◌, replicate, Some as SpecSome};
ghost use Rattle.kmip_ttlv_types.specs.declared.typ.TtlvType.TheVariants.{BigInteger as SpecBigInteger};
ghost use Rattle.std.specs.Int.{w32, w64, to_be_bytes};
ghost use Rattle.kmip_ttlv_types.specs.Items.{header};
ghost use Rattle.kmip_ttlv_types.specs.Names.{transparent_name};
ghost use Rattle.kmip_ttlv_types.specs.Primitives.{sign_extended};
ghost use Rattle.kmip_ttlv_types.specs.Trees.{Tree, leaf_bytes, bytes_all};
ghost use Rattle.kmip_ttlv_base.specs.Values.{unit_variant_value};
ghost use Rattle.kmip_ttlv_base.specs.Visits.{Knows};
ghost use Rattle.kmip_ttlv_ser.specs.NameTexts.{text_of};
ghost use Rattle.kmip_ttlv_ser.specs.WrittenItems.{take_tag, one_leaf, items, is_wrapper};
ghost use Rattle.kmip_ttlv_ser.specs.Sizes.{sizes_all};
ghost use Rattle.kmip_ttlv_ser.specs.Outputs.{Given};
ghost use Rattle.kmip_ttlv_ser.specs.declared.pending.PendingTag.TheVariants.{Plain as SpecPlain};
ghost use Rattle.kmip_ttlv_ser.specs.declared.pending.PendingTag.TheVariants.{Nothing as SpecNothing};
ghost use Rattle.kmip_ttlv_ser.specs.Emits.{Written, HasWritten, wrote, began, waits, began_newtype};
ghost use Rattle.kmip_ttlv_ser.specs.Emits.{began_variant, emit_step};

use crate::measurer::padding;
use crate::names::{Name, is_wrapper, number_of, transparent_name, without_override};
use crate::output::Output;
use crate::pending::PendingTag;
use kmip_ttlv_base::shape::Serialize;
use kmip_ttlv_base::visit::{Group, Leaf, Visitor};
use kmip_ttlv_types::numbers::sign_of;
use kmip_ttlv_types::{TtlvTag, TtlvType};
use std::alloc::AllocError;

/// Writes the bytes of a value. The plan has the lengths of the structures that are still to come.
#[derive(Drop)]
pub struct Emitter<'a, O: Output> {
    out: O,
    plan: &'a [u32],
    pending: PendingTag,
}

/// An item's header: its tag, its type and its length (KMIP 1.0, section 9.1.1).
#[inline(always)]
pub(crate) fn header(tag: TtlvTag, typ: TtlvType, len: u64) -> [u8; 8]
    ensures { result ≡ header tag typ len }
{
    let [a, b, c] = <[u8; 3]>::from(tag);
    let [_, _, _, _, d, e, f, g] = len.to_be_bytes();
    [a, b, c, typ.code(), d, e, f, g]
}

/// A leaf of a number of four bytes: header, content and four bytes of padding.
#[inline(always)]
#[tactic(auto, unfolding(kmip_ttlv_types::specs::Trees::leaf_bytes))]
pub(crate) fn word_item(tag: TtlvTag, typ: TtlvType, number: u32) -> [u8; 16]
    ensures { result ≡ leaf_bytes tag typ (to_be_bytes w32 number) }
{
    let [a, b, c] = <[u8; 3]>::from(tag);
    let [d, e, f, g] = number.to_be_bytes();
    [a, b, c, typ.code(), 0, 0, 0, 4, d, e, f, g, 0, 0, 0, 0]
}

/// A leaf of a number of eight bytes: header and content.
#[inline(always)]
#[tactic(auto, unfolding(kmip_ttlv_types::specs::Trees::leaf_bytes))]
pub(crate) fn long_item(tag: TtlvTag, typ: TtlvType, number: u64) -> [u8; 16]
    ensures { result ≡ leaf_bytes tag typ (to_be_bytes w64 number) }
{
    let [a, b, c] = <[u8; 3]>::from(tag);
    let [d, e, f, g, h, i, j, k] = number.to_be_bytes();
    [a, b, c, typ.code(), 0, 0, 0, 8, d, e, f, g, h, i, j, k]
}

/// Writes an item's header.
#[inline(always)]
fn put_header<O: Output>(out: &mut O, tag: TtlvTag, typ: TtlvType, len: u64)
    ensures { Given O.given (header tag typ len) out.old out.new }
{
    out.give(&header(tag, typ, len));
}

/// Writes a leaf of a number of four bytes, in one piece.
#[inline(always)]
fn put_word<O: Output>(out: &mut O, tag: TtlvTag, typ: TtlvType, number: u32)
    ensures { Given O.given (leaf_bytes tag typ (to_be_bytes w32 number)) out.old out.new }
{
    out.give(&word_item(tag, typ, number));
}

/// Writes a leaf of a number of eight bytes, in one piece.
#[inline(always)]
fn put_long<O: Output>(out: &mut O, tag: TtlvTag, typ: TtlvType, number: u64)
    ensures { Given O.given (leaf_bytes tag typ (to_be_bytes w64 number)) out.old out.new }
{
    out.give(&long_item(tag, typ, number));
}

/// Writes fewer than eight bytes, all of this value.
#[inline(always)]
fn put_filling<O: Output>(out: &mut O, byte: u8, count: usize)
    requires { count < 8 }
    ensures { Given O.given (replicate count byte) out.old out.new }
{
    out.give(&[byte; 8][..count]);
}

impl<'a, O: Output> Emitter<'a, O> {
    /// A leaf under the pending tag.
    #[inline(always)]
    fn put_leaf(&mut self, typ: TtlvType, content: &[u8])
        ensures { Knows (HasWritten O.given)
            (λ s. wrote (one_leaf s.pending typ content.now) s) self.old self.new }
    {
        let Some(tag) = self.pending.tag() else {
            return;
        };
        let len = content.len() as u64;
        put_header(&mut self.out, tag, typ, len);
        self.out.give(content);
        put_filling(&mut self.out, 0, padding(len) as usize);
        self.pending = PendingTag::Nothing;
    }

    /// A leaf of a number of four bytes, under the pending tag.
    #[inline(always)]
    fn put_four(&mut self, typ: TtlvType, number: u32)
        ensures { Knows (HasWritten O.given)
            (λ s. wrote (one_leaf s.pending typ (to_be_bytes w32 number)) s) self.old self.new }
    {
        let Some(tag) = self.pending.tag() else {
            return;
        };
        put_word(&mut self.out, tag, typ, number);
        self.pending = PendingTag::Nothing;
    }

    /// A leaf of a number of eight bytes, under the pending tag.
    #[inline(always)]
    fn put_eight(&mut self, typ: TtlvType, number: u64)
        ensures { Knows (HasWritten O.given)
            (λ s. wrote (one_leaf s.pending typ (to_be_bytes w64 number)) s) self.old self.new }
    {
        let Some(tag) = self.pending.tag() else {
            return;
        };
        put_long(&mut self.out, tag, typ, number);
        self.pending = PendingTag::Nothing;
    }

    /// A Big Integer under the pending tag, extended by sign bytes to a multiple of eight.
    #[inline(always)]
    fn put_big_integer(&mut self, bytes: &[u8])
        ensures { Knows (HasWritten O.given)
            (λ s. wrote (one_leaf s.pending SpecBigInteger (sign_extended bytes.now)) s) self.old self.new }
    {
        let Some(tag) = self.pending.tag() else {
            return;
        };
        let len = bytes.len() as u64;
        let extending = padding(len);
        put_header(&mut self.out, tag, TtlvType::BigInteger, extending + len);
        put_filling(&mut self.out, sign_of(bytes), extending as usize);
        self.out.give(bytes);
        self.pending = PendingTag::Nothing;
    }

    /// A unit variant: the leaf of its number, under its enum's tag.
    #[inline(always)]
    fn put_unit_variant(&mut self, name: &'static str, variant: &'static str)
        ensures { Knows (HasWritten O.given)
            (λ s. wrote (items (unit_variant_value name.now variant.now) s.pending) s) self.old self.new }
    {
        let Some(tag) = self.pending.take(Name::Text(name)) else {
            return;
        };
        let Some(value) = number_of(variant) else {
            return;
        };
        self.pending = PendingTag::Plain(tag);
        self.put_four(TtlvType::Enumeration, value);
    }

    /// A structure's header. Its length is the next of the plan.
    #[inline(always)]
    fn put_structure(&mut self, name: Name)
        ensures { Knows (HasWritten O.given) (λ s. began (take_tag s.pending (text_of name)) s) self.old self.new }
    {
        let Some(tag) = self.pending.take(name) else {
            return;
        };
        let Some((len, rest)) = self.plan.split_first() else {
            return;
        };
        put_header(&mut self.out, tag, TtlvType::Structure, u64::from(*len));
        self.plan = rest;
        self.pending = PendingTag::Nothing;
    }

    /// The start of a wrapper: its tag is pending.
    #[inline(always)]
    fn wait(&mut self, name: Name)
        ensures { Knows (HasWritten O.given)
            (λ s. waits (take_tag s.pending (text_of name)) SpecPlain s) self.old self.new }
    {
        if let Some(tag) = self.pending.take(name) {
            self.pending = PendingTag::Plain(tag);
        }
    }

    /// The start of a newtype: a wrapper if its name begins with `Transparent:`, else a structure.
    #[inline(always)]
    fn begin_newtype(&mut self, name: &'static str)
        ensures { Knows (HasWritten O.given)
            (λ s. began_newtype (transparent_name name.now) name.now s) self.old self.new }
    {
        match transparent_name(name) {
            None => self.put_structure(Name::Text(name)),
            Some(rest) => self.wait(Name::Text(rest)),
        }
    }

    /// The start of a newtype variant: a wrapper if it is named `Transparent`, else a structure.
    #[inline(always)]
    fn begin_variant(&mut self, name: &'static str, variant: &'static str)
        ensures { Knows (HasWritten O.given)
            (λ s. began_variant (is_wrapper variant.now) name.now s) self.old self.new }
    {
        let rest = without_override(name);
        if !is_wrapper(variant) {
            return self.put_structure(Name::Text(without_override(rest)));
        }
        if let Some(tag) = self.pending.take(Name::Text(rest)) {
            self.pending = self.pending.over(name, tag);
        }
    }
}

impl<'a, O: Output> Visitor for Emitter<'a, O> {
    ghost State = { Written O.Start };

    ghost knows = { λ e s. HasWritten O.given e s };

    ghost step = { emit_step };

    // It never returns an error: an output keeps its failure.
    ghost stopped = { λ _. ⊥ };

    #[inline(always)]
    fn leaf(&mut self, leaf: Leaf<'_>) -> Result<(), AllocError> {
        match leaf {
            Leaf::Bool(b) => self.put_eight(TtlvType::Boolean, u64::from(b)),
            Leaf::I8(n) => self.put_four(TtlvType::Integer, i32::from(n).cast_unsigned()),
            Leaf::I16(n) => self.put_four(TtlvType::Integer, i32::from(n).cast_unsigned()),
            Leaf::I32(n) => self.put_four(TtlvType::Integer, n.cast_unsigned()),
            Leaf::U32(n) => self.put_four(TtlvType::Enumeration, n),
            Leaf::I64(n) => self.put_eight(TtlvType::LongInteger, n.cast_unsigned()),
            Leaf::U64(n) => self.put_eight(TtlvType::DateTime, n),
            Leaf::DateTime(n) => self.put_eight(TtlvType::DateTime, n.cast_unsigned()),
            Leaf::Interval(n) => self.put_four(TtlvType::Interval, n),
            Leaf::Text(text) => self.put_leaf(TtlvType::TextString, text.as_bytes()),
            Leaf::Bytes(bytes) => self.put_leaf(TtlvType::ByteString, bytes),
            Leaf::BigInteger(bytes) => self.put_big_integer(bytes),
            Leaf::UnitVariant { name, variant } => self.put_unit_variant(name, variant),
            Leaf::Unsupported(_) => {}
            Leaf::None => {}
        }
        Ok(())
    }

    #[tactic(auto, using(kmip_ttlv_base::proofs::TagNames::transparent_wrapper))]
    #[inline(always)]
    fn begin(&mut self, group: Group) -> Result<(), AllocError> {
        match group {
            Group::Some => {}
            Group::Seq => {}
            Group::Struct { name } => self.put_structure(Name::Text(name)),
            Group::Newtype { name } => self.begin_newtype(name),
            Group::Tagged { tag } => self.wait(Name::Number(tag)),
            Group::Structure { tag } => self.put_structure(Name::Number(tag)),
            Group::NewtypeVariant { name, variant } => self.begin_variant(name, variant),
            Group::TupleVariant { name, variant: _ } => {
                self.put_structure(Name::Text(without_override(name)))
            }
        }
        Ok(())
    }

    #[inline(always)]
    fn end(&mut self, _group: Group) -> Result<(), AllocError> {
        Ok(())
    }
}

/// Writes a value's bytes to an output, with the lengths of its structures.
#[inline(always)]
pub fn emit<T: Serialize, O: Output>(value: &T, plan: &[u32], out: O) -> O
    ensures { (ts : List Tree) (start : O.Start) → items (T.stated value.now) SpecNothing ≡ SpecSome ts
        → plan.now ≡ sizes_all ts → O.given start [] out → O.given start (bytes_all ts) result }
{
    let mut emitter = Emitter {
        out,
        plan,
        pending: PendingTag::Nothing,
    };
    let Ok(()) = value.visit(&mut emitter) else {
        unreachable!();
    };
    emitter.out
}
