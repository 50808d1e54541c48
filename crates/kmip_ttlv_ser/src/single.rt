//! One pass over a value that writes its bytes into room of a fixed size, each structure's length at the structure's end.
//! Until then the length's four bytes hold where the content of the structure around it begins. Any error is left to the
//! two passes, and so is a value for which there is too little room.

ghost use Rattle.std.specs.Prelude.{◌≡◌, OnOk, IfSome, Some as SpecSome, Option as SpecOption};
ghost use Rattle.std.specs.Int.{w32, w64, to_be_bytes};
ghost use Rattle.kmip_ttlv_types.specs.declared.typ.TtlvType.TheVariants.{BigInteger as SpecBigInteger};
ghost use Rattle.kmip_ttlv_types.specs.Names.{transparent_name};
ghost use Rattle.kmip_ttlv_types.specs.Primitives.{sign_extended};
ghost use Rattle.kmip_ttlv_base.specs.Values.{unit_variant_value};
ghost use Rattle.kmip_ttlv_ser.specs.NameTexts.{text_of};
ghost use Rattle.kmip_ttlv_ser.specs.WrittenItems.{take_tag, one_leaf, items, is_wrapper, pending_after};
ghost use Rattle.kmip_ttlv_ser.specs.EncodeResults.{IsWrittenAs};
ghost use Rattle.kmip_ttlv_ser.specs.Waiting.{filled};
ghost use Rattle.kmip_ttlv_ser.specs.declared.pending.PendingTag.TheVariants.{Plain as SpecPlain};
ghost use Rattle.kmip_ttlv_ser.specs.Singles.{Writing, writing, put, entered, waits, left, unwrapped};
ghost use Rattle.kmip_ttlv_ser.specs.Singles.{entered_newtype, entered_variant, left_newtype, left_variant, single_step};

use crate::emitter::{header, long_item, word_item};
use crate::measurer::padding;
use crate::names::{Name, is_wrapper, number_of, transparent_name, without_override};
use crate::pending::PendingTag;
use crate::room::Room;
use kmip_ttlv_base::shape::Serialize;
use kmip_ttlv_base::visit::{Group, Leaf, Visitor};
use kmip_ttlv_types::numbers::sign_of;
use kmip_ttlv_types::{TtlvTag, TtlvType};
use std::alloc::AllocError;

/// What is written, the pending tag, and where the content of the innermost open structure begins, 0 if none is open.
#[derive(Drop)]
pub struct Single<'a> {
    room: Room<'a>,
    pending: PendingTag,
    start: usize,
}

impl<'a> Single<'a> {
    /// A leaf of a number of four bytes, under the pending tag.
    #[inline(always)]
    fn put_four(&mut self, typ: TtlvType, number: u32) -> Result<(), AllocError>
        ensures { OnOk result (put (one_leaf self.old.pending typ (to_be_bytes w32 number)) (writing self.old)
            ≡ SpecSome (writing self.new)) }
    {
        let Some(tag) = self.pending.tag() else {
            return Err(AllocError);
        };
        self.room.has_room(16)?;
        self.room.push(&word_item(tag, typ, number));
        self.pending = PendingTag::Nothing;
        Ok(())
    }

    /// A leaf of a number of eight bytes, under the pending tag.
    #[inline(always)]
    fn put_eight(&mut self, typ: TtlvType, number: u64) -> Result<(), AllocError>
        ensures { OnOk result (put (one_leaf self.old.pending typ (to_be_bytes w64 number)) (writing self.old)
            ≡ SpecSome (writing self.new)) }
    {
        let Some(tag) = self.pending.tag() else {
            return Err(AllocError);
        };
        self.room.has_room(16)?;
        self.room.push(&long_item(tag, typ, number));
        self.pending = PendingTag::Nothing;
        Ok(())
    }

    /// A leaf under the pending tag.
    #[inline(always)]
    fn put_leaf(&mut self, typ: TtlvType, content: &[u8]) -> Result<(), AllocError>
        ensures { OnOk result (put (one_leaf self.old.pending typ content.now) (writing self.old)
            ≡ SpecSome (writing self.new)) }
    {
        let Some(tag) = self.pending.tag() else {
            return Err(AllocError);
        };
        let len = content.len();
        self.room.has_room(16 + len)?;
        self.room.push(&header(tag, typ, len as u64));
        self.room.push(content);
        self.room.fill(0, padding(len as u64) as usize);
        self.pending = PendingTag::Nothing;
        Ok(())
    }

    /// A Big Integer under the pending tag, extended by sign bytes to a multiple of eight.
    #[inline(always)]
    fn put_big_integer(&mut self, bytes: &[u8]) -> Result<(), AllocError>
        ensures { OnOk result (put (one_leaf self.old.pending SpecBigInteger (sign_extended bytes.now)) (writing self.old)
            ≡ SpecSome (writing self.new)) }
    {
        let Some(tag) = self.pending.tag() else {
            return Err(AllocError);
        };
        let len = bytes.len();
        let extending = padding(len as u64) as usize;
        self.room.has_room(16 + len)?;
        self.room.push(&header(tag, TtlvType::BigInteger, (extending + len) as u64));
        self.room.fill(sign_of(bytes), extending);
        self.room.push(bytes);
        self.pending = PendingTag::Nothing;
        Ok(())
    }

    /// A unit variant: the leaf of its number, under its enum's tag.
    #[inline(always)]
    fn put_unit_variant(
        &mut self,
        name: &'static str,
        variant: &'static str,
    ) -> Result<(), AllocError>
        ensures { OnOk result (put (items (unit_variant_value name.now variant.now) self.old.pending) (writing self.old)
            ≡ SpecSome (writing self.new)) }
    {
        let Some(tag) = self.pending.take(Name::Text(name)) else {
            return Err(AllocError);
        };
        let Some(value) = number_of(variant) else {
            return Err(AllocError);
        };
        self.pending = PendingTag::Plain(tag);
        self.put_four(TtlvType::Enumeration, value)
    }

    /// Enters a structure.
    #[inline(always)]
    fn enter(&mut self, name: Name) -> Result<(), AllocError>
        ensures { OnOk result (entered (take_tag self.old.pending (text_of name)) (writing self.old) ≡ SpecSome (writing self.new)) }
    {
        let Some(tag) = self.pending.take(name) else {
            return Err(AllocError);
        };
        self.room.has_room(8)?;
        if self.start as u64 > 0xFFFF_FFFF {
            return Err(AllocError);
        }
        self.room
            .push(&header(tag, TtlvType::Structure, self.start as u64));
        self.start = self.room.len();
        self.pending = PendingTag::Nothing;
        Ok(())
    }

    /// Leaves a structure, and writes its length.
    #[inline(always)]
    fn leave(&mut self) -> Result<(), AllocError>
        ensures { OnOk result (left (writing self.old) ≡ SpecSome (writing self.new)) }
    {
        if self.start < 4 || self.room.len() < self.start {
            return Err(AllocError);
        }
        let [_, _, _, _, d, e, f, g] = ((self.room.len() - self.start) as u64).to_be_bytes();
        let around = self.room.replace(self.start, [d, e, f, g]);
        self.start = u32::from_be_bytes(around) as usize;
        self.pending = PendingTag::Nothing;
        Ok(())
    }

    /// Enters a wrapper: its tag is pending.
    #[inline(always)]
    fn wrap(&mut self, name: Name) -> Result<(), AllocError>
        ensures { OnOk result (waits (take_tag self.old.pending (text_of name)) SpecPlain (writing self.old)
            ≡ SpecSome (writing self.new)) }
    {
        let Some(tag) = self.pending.take(name) else {
            return Err(AllocError);
        };
        self.pending = PendingTag::Plain(tag);
        Ok(())
    }

    /// Leaves a wrapper, whose tag has to be used.
    #[inline(always)]
    fn unwrap(&self) -> Result<(), AllocError>
        ensures { OnOk result (unwrapped self.now.pending (writing self.now) ≡ SpecSome (writing self.now)) }
    {
        match self.pending {
            PendingTag::Nothing => Ok(()),
            _ => Err(AllocError),
        }
    }

    /// Enters a newtype: a wrapper if its name begins with `Transparent:`, else a structure.
    #[inline(always)]
    fn enter_newtype(&mut self, name: &'static str) -> Result<(), AllocError>
        ensures { OnOk result (entered_newtype (transparent_name name.now) name.now (writing self.old)
            ≡ SpecSome (writing self.new)) }
    {
        match transparent_name(name) {
            None => self.enter(Name::Text(name)),
            Some(rest) => self.wrap(Name::Text(rest)),
        }
    }

    /// Enters a newtype variant: a wrapper if it is named `Transparent`, else a structure.
    #[inline(always)]
    fn enter_variant(&mut self, name: &'static str, variant: &'static str) -> Result<(), AllocError>
        ensures { OnOk result (entered_variant (is_wrapper variant.now) name.now (writing self.old)
            ≡ SpecSome (writing self.new)) }
    {
        let rest = without_override(name);
        if !is_wrapper(variant) {
            return self.enter(Name::Text(without_override(rest)));
        }
        let Some(tag) = self.pending.take(Name::Text(rest)) else {
            return Err(AllocError);
        };
        self.pending = self.pending.over(name, tag);
        Ok(())
    }

    /// Leaves a newtype, which is a structure, or a wrapper if its name begins with `Transparent:`.
    #[inline(always)]
    fn leave_newtype(&mut self, name: &'static str) -> Result<(), AllocError>
        ensures { OnOk result (left_newtype (transparent_name name.now) (writing self.old) ≡ SpecSome (writing self.new)) }
    {
        match transparent_name(name) {
            None => self.leave(),
            Some(_) => self.unwrap(),
        }
    }

    /// Leaves a newtype variant.
    #[inline(always)]
    fn leave_variant(&mut self, variant: &'static str) -> Result<(), AllocError>
        ensures { OnOk result (left_variant (is_wrapper variant.now) (writing self.old) ≡ SpecSome (writing self.new)) }
    {
        if is_wrapper(variant) {
            self.unwrap()
        } else {
            self.leave()
        }
    }
}

impl Visitor for Single<'_> {
    ghost State = { SpecOption Writing };

    ghost knows = { λ m s. s ≡ SpecSome (writing m) };

    ghost step = { single_step };

    ghost stopped = { λ _. Unit {0} };

    #[inline(always)]
    fn leaf(&mut self, leaf: Leaf<'_>) -> Result<(), AllocError> {
        match leaf {
            Leaf::Bool(b) => self.put_eight(TtlvType::Boolean, u64::from(b)),
            Leaf::I8(n) => self.put_four(TtlvType::Integer, i32::from(n).cast_unsigned()),
            Leaf::I16(n) => self.put_four(TtlvType::Integer, i32::from(n).cast_unsigned()),
            Leaf::I32(n) => self.put_four(TtlvType::Integer, n.cast_unsigned()),
            Leaf::U32(n) => self.put_four(TtlvType::Enumeration, n),
            Leaf::I64(n) => self.put_eight(TtlvType::LongInteger, n.cast_unsigned()),
            Leaf::U64(n) => self.put_eight(TtlvType::DateTime, n),
            Leaf::DateTime(n) => self.put_eight(TtlvType::DateTime, n.cast_unsigned()),
            Leaf::Interval(n) => self.put_four(TtlvType::Interval, n),
            Leaf::Text(text) => self.put_leaf(TtlvType::TextString, text.as_bytes()),
            Leaf::Bytes(bytes) => self.put_leaf(TtlvType::ByteString, bytes),
            Leaf::BigInteger(bytes) => self.put_big_integer(bytes),
            Leaf::UnitVariant { name, variant } => self.put_unit_variant(name, variant),
            Leaf::Unsupported(_) => Err(AllocError),
            Leaf::None => Err(AllocError),
        }
    }

    #[tactic(auto, using(kmip_ttlv_base::proofs::TagNames::transparent_wrapper))]
    #[inline(always)]
    fn begin(&mut self, group: Group) -> Result<(), AllocError> {
        match group {
            Group::Some => Ok(()),
            Group::Seq => Ok(()),
            Group::Struct { name } => self.enter(Name::Text(name)),
            Group::Newtype { name } => self.enter_newtype(name),
            Group::Tagged { tag } => self.wrap(Name::Number(tag)),
            Group::Structure { tag } => self.enter(Name::Number(tag)),
            Group::NewtypeVariant { name, variant } => self.enter_variant(name, variant),
            Group::TupleVariant { name, variant: _ } => {
                self.enter(Name::Text(without_override(name)))
            }
        }
    }

    #[inline(always)]
    fn end(&mut self, group: Group) -> Result<(), AllocError> {
        match group {
            Group::Some => Ok(()),
            Group::Seq => Ok(()),
            Group::Struct { .. } => self.leave(),
            Group::Newtype { name } => self.leave_newtype(name),
            Group::Tagged { .. } => self.unwrap(),
            Group::Structure { .. } => self.leave(),
            Group::NewtypeVariant { name: _, variant } => self.leave_variant(variant),
            Group::TupleVariant { .. } => self.leave(),
        }
    }
}

/// Writes a value's bytes into lent room, if one pass can and they fit.
#[inline(always)]
pub fn in_one_pass<'a, T: Serialize>(value: &T, room: &'a mut [u8]) -> Option<Room<'a>>
    ensures { IfSome result (λ r. IsWrittenAs (T.stated value.now) 0 (filled r)) }
{
    let mut single = Single {
        room: Room::new(room),
        pending: PendingTag::Nothing,
        start: 0,
    };
    let Ok(()) = value.visit(&mut single) else {
        return None;
    };
    if single.room.len() as u64 > 0xFFFF_FFFF {
        return None;
    }
    Some(single.room)
}
