//! The first pass: finds the first error, or the length of each structure.

ghost use Rattle.std.specs.Prelude.{◌≡◌, ◌+◌, ◌<◌, OnOk, reverse, None as SpecNone, Result as SpecResult};
ghost use Rattle.kmip_ttlv_types.specs.ItemTypes.{pad_len};
ghost use Rattle.kmip_ttlv_types.specs.Names.{tag_of, transparent_name};
ghost use Rattle.kmip_ttlv_base.specs.Values.{unit_variant_value};
ghost use Rattle.kmip_ttlv_ser.specs.NameTexts.{text_of};
ghost use Rattle.kmip_ttlv_ser.specs.Faults.{name_kind};
ghost use Rattle.kmip_ttlv_ser.specs.WrittenItems.{take_tag, pending_tag, pending_after, is_wrapper};
ghost use Rattle.kmip_ttlv_ser.specs.Passes.{kind_of_cause};
ghost use Rattle.kmip_ttlv_ser.specs.declared.pending.PendingTag.TheVariants.{Plain as SpecPlain};
ghost use Rattle.kmip_ttlv_ser.specs.Measures.{Going, Halt, going, known, halt_before, halt_at, after_leaf};
ghost use Rattle.kmip_ttlv_ser.specs.Measures.{after_unit, into, wrapped, into_newtype, into_variant, out_of};
ghost use Rattle.kmip_ttlv_ser.specs.Measures.{unwrapped, out_of_newtype, out_of_variant, measure_step};
ghost use Rattle.kmip_ttlv_ser.specs.Measures.{Plans};

use crate::encode_error::{Cause, EncodeError};
use crate::names::{Name, is_wrapper, number_of, transparent_name, without_override};
use crate::pending::{PendingTag, Place};
use kmip_ttlv_base::error::Result as Answer;
use kmip_ttlv_base::shape::Serialize;
use kmip_ttlv_base::visit::{Group, Leaf, Visitor};
use kmip_ttlv_types::TtlvTag;
use std::alloc::{AllocError, Allocator};

/// How many bytes of padding follow a leaf's content of this length.
#[inline(always)]
pub(crate) fn padding(len: u64) -> u64
    ensures value { result ≡ pad_len len }
    ensures low { result < 8 }
{
    (8 - len % 8) % 8
}

/// An open structure: its index among the lengths, and the offset at which its content begins.
#[derive(Clone, Copy)]
pub struct Open {
    at: usize,
    start: u64,
}

/// Finds the first error: it has the place reached, the pending tag, the lengths so far, the open structures, and
/// the error, after which nothing is counted.
#[derive(Drop)]
pub struct Measurer<A: Allocator> {
    place: Place,
    pending: PendingTag,
    sizes: Vec<u32, A>,
    nest: Vec<Open, A>,
    encode_error: Option<EncodeError>,
}

impl<A: Allocator> Measurer<A> {
    /// An error at the field that is `more` bytes after the place reached.
    fn fail(&mut self, cause: Cause, more: u64)
        requires { self.old.encode_error ≡ SpecNone }
        ensures { known self.new ≡ halt_before (kind_of_cause cause) (self.old.place.offset + more) }
    {
        self.encode_error = match self.place.offset.checked_add(more) {
            Some(offset) => Some(EncodeError::Invalid { cause, offset }),
            None => Some(EncodeError::LengthOverflow),
        };
    }

    /// A leaf with content of this length.
    #[inline(always)]
    fn item(&mut self, len: usize)
        requires { self.old.encode_error ≡ SpecNone }
        ensures { known self.new ≡ after_leaf (pending_tag self.old.pending) len (going self.old) }
    {
        if self.pending.tag().is_none() {
            let waits = self.pending.len();
            return self.fail(Cause::NoTag(self.place.opened), waits);
        }
        if len as u64 > 0xFFFF_FFFF {
            self.encode_error = Some(EncodeError::LengthOverflow);
            return;
        }
        match self
            .place
            .offset
            .checked_add(8 + len as u64 + padding(len as u64))
        {
            Some(offset) => {
                self.place = Place {
                    offset,
                    opened: false,
                };
                self.pending = PendingTag::Nothing;
            }
            None => self.encode_error = Some(EncodeError::LengthOverflow),
        }
    }

    /// A name that can't be taken: it is no tag, or a plain tag is pending.
    #[tactic(auto, using(kmip_ttlv_base::proofs::TagNames::tag_of_number))]
    fn fail_name(&mut self, name: Name)
        requires { self.old.encode_error ≡ SpecNone }
        ensures { known self.new
            ≡ halt_at (name_kind (tag_of (text_of name)) (text_of name)) self.old.pending (going self.old) }
    {
        let waits = self.pending.len();
        match name {
            Name::Number(_) => self.fail(Cause::TagUnused, waits),
            Name::Text(text) => {
                if TtlvTag::from_name(text).is_none() {
                    return self.fail(Cause::InvalidTag(text), waits);
                }
                self.fail(Cause::TagUnused, waits)
            }
        }
    }

    /// A unit variant: the leaf of its number, under its enum's tag.
    #[inline(always)]
    fn unit_variant(&mut self, name: &'static str, variant: &'static str)
        requires { self.old.encode_error ≡ SpecNone }
        ensures { known self.new
            ≡ after_unit (take_tag self.old.pending name.now) name.now variant.now (going self.old) }
    {
        let name = Name::Text(name);
        let Some(tag) = self.pending.take(name) else {
            return self.fail_name(name);
        };
        self.pending = PendingTag::Plain(tag);
        if number_of(variant).is_none() {
            return self.fail(Cause::InvalidVariant(variant), 3);
        }
        self.item(4)
    }

    /// Enters a structure. The first one reserves room for several, so that most values allocate once.
    #[inline(always)]
    fn enter(&mut self, name: Name) -> Result<(), AllocError>
        requires { self.old.encode_error ≡ SpecNone }
        ensures { OnOk result (known self.new
            ≡ into (take_tag self.old.pending (text_of name)) (text_of name) (going self.old)) }
    {
        if self.pending.take(name).is_none() {
            self.fail_name(name);
            return Ok(());
        }
        let Some(start) = self.place.offset.checked_add(8) else {
            self.encode_error = Some(EncodeError::LengthOverflow);
            return Ok(());
        };
        let at = self.sizes.len();
        if at == 0 {
            self.sizes.reserve(16)?;
            self.nest.reserve(8)?;
        }
        self.sizes.push(0)?;
        self.nest.push(Open { at, start })?;
        self.place = Place {
            offset: start,
            opened: true,
        };
        self.pending = PendingTag::Nothing;
        Ok(())
    }

    /// Enters a wrapper: its tag is pending.
    #[inline(always)]
    fn wrap(&mut self, name: Name)
        requires { self.old.encode_error ≡ SpecNone }
        ensures { known self.new
            ≡ wrapped (take_tag self.old.pending (text_of name)) (text_of name) SpecPlain (going self.old) }
    {
        match self.pending.take(name) {
            Some(tag) => self.pending = PendingTag::Plain(tag),
            None => self.fail_name(name),
        }
    }

    /// Enters a newtype: a wrapper if its name begins with `Transparent:`, else a structure.
    #[inline(always)]
    fn enter_newtype(&mut self, name: &'static str) -> Result<(), AllocError>
        requires { self.old.encode_error ≡ SpecNone }
        ensures { OnOk result (known self.new
            ≡ into_newtype (transparent_name name.now) name.now (going self.old)) }
    {
        match transparent_name(name) {
            None => self.enter(Name::Text(name)),
            Some(rest) => {
                self.wrap(Name::Text(rest));
                Ok(())
            }
        }
    }

    /// Enters a newtype variant: a wrapper if it is named `Transparent`, else a structure.
    #[inline(always)]
    fn enter_variant(&mut self, name: &'static str, variant: &'static str) -> Result<(), AllocError>
        requires { self.old.encode_error ≡ SpecNone }
        ensures { OnOk result (known self.new
            ≡ into_variant (is_wrapper variant.now) name.now (going self.old)) }
    {
        let rest = without_override(name);
        if !is_wrapper(variant) {
            return self.enter(Name::Text(without_override(rest)));
        }
        match self.pending.take(Name::Text(rest)) {
            Some(tag) => self.pending = self.pending.over(name, tag),
            None => self.fail_name(Name::Text(rest)),
        }
        Ok(())
    }

    /// Leaves a wrapper, whose tag has to be used.
    #[inline(always)]
    fn unwrap(&mut self)
        requires { self.old.encode_error ≡ SpecNone }
        ensures { known self.new ≡ unwrapped self.old.pending (going self.old) }
    {
        match self.pending {
            PendingTag::Nothing => {}
            PendingTag::Plain(_) => self.fail(Cause::TagUnused, 3),
            PendingTag::Overriding(_) => self.fail(Cause::TagUnused, 3),
        }
    }

    /// Leaves a structure, and notes its length.
    #[inline(always)]
    fn leave(&mut self)
        requires { self.old.encode_error ≡ SpecNone }
        ensures { known self.new ≡ out_of (reverse self.old.nest.items) (going self.old) }
    {
        let Some(Open { at, start }) = self.nest.pop() else {
            return;
        };
        match u32::try_from(self.place.offset.saturating_sub(start)) {
            Ok(len) => {
                if at < self.sizes.len() {
                    self.sizes[at] = len;
                }
                self.pending = PendingTag::Nothing;
            }
            Err(_) => self.encode_error = Some(EncodeError::LengthOverflow),
        }
    }

    /// Leaves a newtype, which is a structure, or a wrapper if its name begins with `Transparent:`.
    #[inline(always)]
    fn leave_newtype(&mut self, name: &'static str)
        requires { self.old.encode_error ≡ SpecNone }
        ensures { known self.new ≡ out_of_newtype (transparent_name name.now) (going self.old) }
    {
        match transparent_name(name) {
            None => self.leave(),
            Some(_) => self.unwrap(),
        }
    }

    /// Leaves a newtype variant.
    #[inline(always)]
    fn leave_variant(&mut self, variant: &'static str)
        requires { self.old.encode_error ≡ SpecNone }
        ensures { known self.new ≡ out_of_variant (is_wrapper variant.now) (going self.old) }
    {
        if is_wrapper(variant) {
            self.unwrap();
        } else {
            self.leave();
        }
    }
}

impl<A: Allocator> Visitor for Measurer<A> {
    ghost State = { SpecResult Going Halt };

    ghost knows = { λ m s. s ≡ known m };

    ghost step = { measure_step };

    ghost stopped = { λ _. Unit {0} };

    #[inline(always)]
    fn leaf(&mut self, leaf: Leaf<'_>) -> Result<(), AllocError> {
        if self.encode_error.is_some() {
            return Ok(());
        }
        let waits = self.pending.len();
        match leaf {
            Leaf::Bool(_) => self.item(8),
            Leaf::I8(_) => self.item(4),
            Leaf::I16(_) => self.item(4),
            Leaf::I32(_) => self.item(4),
            Leaf::U32(_) => self.item(4),
            Leaf::I64(_) => self.item(8),
            Leaf::U64(_) => self.item(8),
            Leaf::DateTime(_) => self.item(8),
            Leaf::Interval(_) => self.item(4),
            Leaf::Text(text) => self.item(text.len()),
            Leaf::Bytes(bytes) => self.item(bytes.len()),
            Leaf::BigInteger(bytes) => {
                let sign = padding(bytes.len() as u64) as usize;
                self.item(sign + bytes.len())
            }
            Leaf::UnitVariant { name, variant } => self.unit_variant(name, variant),
            Leaf::Unsupported(name) => self.fail(Cause::UnsupportedType(name), waits),
            Leaf::None => self.fail(Cause::UnsupportedType("None"), waits),
        }
        Ok(())
    }

    #[tactic(auto, using(kmip_ttlv_base::proofs::TagNames::transparent_wrapper))]
    #[inline(always)]
    fn begin(&mut self, group: Group) -> Result<(), AllocError> {
        if self.encode_error.is_some() {
            return Ok(());
        }
        match group {
            Group::Some => Ok(()),
            Group::Seq => Ok(()),
            Group::Struct { name } => self.enter(Name::Text(name)),
            Group::Newtype { name } => self.enter_newtype(name),
            Group::Tagged { tag } => {
                self.wrap(Name::Number(tag));
                Ok(())
            }
            Group::Structure { tag } => self.enter(Name::Number(tag)),
            Group::NewtypeVariant { name, variant } => self.enter_variant(name, variant),
            Group::TupleVariant { name, variant: _ } => {
                self.enter(Name::Text(without_override(name)))
            }
        }
    }

    #[inline(always)]
    fn end(&mut self, group: Group) -> Result<(), AllocError> {
        if self.encode_error.is_some() {
            return Ok(());
        }
        match group {
            Group::Some => {}
            Group::Seq => {}
            Group::Struct { .. } => self.leave(),
            Group::Newtype { name } => self.leave_newtype(name),
            Group::Tagged { .. } => self.unwrap(),
            Group::Structure { .. } => self.leave(),
            Group::NewtypeVariant { name: _, variant } => self.leave_variant(variant),
            Group::TupleVariant { .. } => self.leave(),
        }
        Ok(())
    }
}

/// What the first pass finds of a value without an error: the lengths of its structures in document order, and
/// the place after its last byte.
#[derive(Drop)]
pub struct Plan<A: Allocator> {
    pub sizes: Vec<u32, A>,
    pub end: Place,
}

/// Measures a value that is to be encoded at this place.
pub fn measure<A: Allocator + Copy, T: Serialize>(
    alloc: A,
    value: &T,
    place: Place,
) -> Answer<Plan<A>, A>
    ensures { Plans (T.stated value.now) place result }
{
    let mut measurer = Measurer {
        place,
        pending: PendingTag::Nothing,
        sizes: Vec::new(alloc),
        nest: Vec::new(alloc),
        encode_error: None,
    };
    value.visit(&mut measurer)?;
    if let Some(encode_error) = measurer.encode_error {
        return Err(encode_error.into_error(alloc));
    }
    Ok(Plan {
        sizes: measurer.sizes,
        end: measurer.place,
    })
}
