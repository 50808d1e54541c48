//! The types of Rust whose values leaves are, both ways.

ghost use Rattle.std.specs.Prelude.{◌≡◌, ◌↔◌, ◌+◌, ◌<◌, ◌≤◌, ◌^◌, ◌%◌, true, refl, None, Some, length, FitsSigned, IfOk, IsTrue, string_bytes};
ghost use Rattle.std.specs.Int.{w32, w64};
ghost use Rattle.kmip_ttlv_types.specs.declared.typ.TtlvType.TheVariants as types;
ghost use Rattle.kmip_ttlv_types.specs.Leaves.{is_valid};
ghost use Rattle.kmip_ttlv_base.specs.Values.{Value, newtype_value, i32_value, i64_value, boolean_value, u32_value, interval_value, date_time_value, text_value, bytes_value, big_integer_value};
ghost use Rattle.kmip_ttlv_base.specs.Visits.{leaf_value};
ghost use Rattle.kmip_ttlv_reader.specs.declared.leaf.Leaf.{Leaf};
ghost use Rattle.kmip_ttlv_reader.specs.declared.leaf.Leaf.TheVariants as leaves;
ghost use Rattle.kmip_ttlv_reader.specs.LeafForms.{form_of_leaf};
ghost use Rattle.kmip_ttlv_reader.specs.Reads.{takes, decoded_leaf};
ghost use Rattle.kmip_ttlv_types.specs.Digits.{tag_text};
ghost use Rattle.kmip_ttlv_base.specs.Tags.{wrapper_name};
ghost use Rattle.kmip_ttlv_reader.specs.Outcomes.{field_outcome, outcome};
ghost use Rattle.kmip_ttlv_reader.specs.Spots.{IsReadTo, IsWithin, at, by_bits, wrapped_leaf};
ghost use Rattle.kmip_ttlv_parts.specs.Returns.{as_boolean, as_interval, as_number, as_octets, as_text, text_of_number};
ghost use Rattle.kmip_ttlv_parts.proofs.MessageParts.{as_date_time_by_bits, as_int32_by_bits, as_int64_by_bits, as_whole, text_is_utf8};
ghost use Rattle.kmip_ttlv_parts.proofs.MessageRules.{number_stored, text_stored};
ghost use Rattle.kmip_ttlv_parts.proofs.Equal.{big_integers_equal, booleans_equal, bytes_equal, date_times_equal, integers_equal, intervals_equal, long_integers_equal, numbers_equal, texts_equal};
ghost use Rattle.kmip_ttlv_kinds.specs.Leaves.{LeafRules};

use kmip_ttlv_base::types::TtlvType;
use kmip_ttlv_base::types::numbers::{number_of_eight, number_of_four};
use kmip_ttlv_base::visit;
use kmip_ttlv_parts::laws::{Sound, is_whole};
use kmip_ttlv_reader::leaf::{Leaf, text_of};
use kmip_ttlv_reader::reader::{BigNumber, Cursor, DateTime, Interval, Scope, Step};
use std::alloc::{AllocError, Allocator};

/// A type of Rust whose values are encoded as leaves of one type, and decoded from them.
pub trait LeafKind<A: Allocator>: Sized + Drop {
    // The shape of such a leaf.
    ghost leaf: { Leaf };

    // The value that it is read as.
    ghost value: { Self → Value };

    // What is written of it, which are sound, and that these come back.
    ghost rules: { LeafRules Self leaf value };

    /// The shape of such a leaf.
    fn shape() -> Leaf
        ensures { result ≡ leaf };

    /// The value of valid content. An AllocError when out of memory.
    fn decode(alloc: A, typ: TtlvType, content: &[u8]) -> Result<Self, AllocError>
        requires takes { takes (form_of_leaf leaf) typ ≡ true }
        requires valid { is_valid typ content.now ≡ true }
        ensures { IfOk result (λ x. value x ≡ decoded_leaf (form_of_leaf leaf) content.now) };

    /// The leaf that it is encoded as.
    fn as_leaf(&self) -> visit::Leaf<'_>
        ensures { leaf_value result ≡ rules.written self.now };

    /// Whether it is sound: what is encoded of it is decoded again.
    fn is_sound_leaf(&self) -> bool
        ensures { IsTrue result ↔ rules.IsSound self.now };
}

/// An Integer.
impl<A: Allocator> LeafKind<A> for i32 {
    ghost leaf = { leaves.I32 };

    ghost value = { i32_value };

    ghost rules = { record {
      typ = types.Integer;
      written = λ x. i32_value (by_bits w32 x);
      IsSound = FitsSigned w32;
      eq = ⟦<i32 as PartialEq>⟧.eq;
      single = λ x. refl;
      typed = λ x. refl;
      comes_back = as_int32_by_bits;
      says = None;
      keeps = λ n is. tt;
      same = integers_equal;
    } };

    #[inline(always)]
    fn shape() -> Leaf {
        Leaf::I32
    }

    #[inline(always)]
    fn decode(_alloc: A, _typ: TtlvType, content: &[u8]) -> Result<i32, AllocError> {
        Ok(number_of_four(content).cast_signed())
    }

    #[inline(always)]
    fn as_leaf(&self) -> visit::Leaf<'_> {
        visit::Leaf::I32(*self)
    }

    #[inline(always)]
    fn is_sound_leaf(&self) -> bool {
        self.is_sound()
    }
}

/// A Long Integer, or a Date-Time in seconds since 1970. It is encoded as a Long Integer.
impl<A: Allocator> LeafKind<A> for i64 {
    ghost leaf = { leaves.I64 };

    ghost value = { i64_value };

    ghost rules = { record {
      typ = types.LongInteger;
      written = λ x. i64_value (by_bits w64 x);
      IsSound = FitsSigned w64;
      eq = ⟦<i64 as PartialEq>⟧.eq;
      single = λ x. refl;
      typed = λ x. refl;
      comes_back = as_int64_by_bits;
      says = None;
      keeps = λ n is. tt;
      same = long_integers_equal;
    } };

    #[inline(always)]
    fn shape() -> Leaf {
        Leaf::I64
    }

    #[inline(always)]
    fn decode(_alloc: A, _typ: TtlvType, content: &[u8]) -> Result<i64, AllocError> {
        Ok(number_of_eight(content).cast_signed())
    }

    #[inline(always)]
    fn as_leaf(&self) -> visit::Leaf<'_> {
        visit::Leaf::I64(*self)
    }

    #[inline(always)]
    fn is_sound_leaf(&self) -> bool {
        self.is_sound()
    }
}

/// A Boolean.
impl<A: Allocator> LeafKind<A> for bool {
    ghost leaf = { leaves.Bool };

    ghost value = { boolean_value };

    ghost rules = { record {
      typ = types.Boolean;
      written = boolean_value;
      IsSound = λ x. Unit {0};
      eq = ⟦<bool as PartialEq>⟧.eq;
      single = λ x. refl;
      typed = λ x. refl;
      comes_back = λ x sound. as_boolean;
      says = None;
      keeps = λ n is. tt;
      same = booleans_equal;
    } };

    #[inline(always)]
    fn shape() -> Leaf {
        Leaf::Bool
    }

    #[inline(always)]
    fn decode(_alloc: A, _typ: TtlvType, content: &[u8]) -> Result<bool, AllocError> {
        Ok(number_of_eight(content) == 1)
    }

    #[inline(always)]
    fn as_leaf(&self) -> visit::Leaf<'_> {
        visit::Leaf::Bool(*self)
    }

    #[inline(always)]
    fn is_sound_leaf(&self) -> bool {
        true
    }
}

/// An Enumeration of any number.
impl<A: Allocator> LeafKind<A> for u32 {
    ghost leaf = { leaves.U32 };

    ghost value = { u32_value };

    ghost rules = { record {
      typ = types.Enumeration;
      written = u32_value;
      IsSound = λ n. n < 2 ^ 32;
      eq = ⟦<u32 as PartialEq>⟧.eq;
      single = λ x. refl;
      typed = λ x. refl;
      comes_back = λ x fits. as_number fits;
      says = Some text_of_number;
      keeps = λ n is x fits. number_stored n is fits;
      same = numbers_equal;
    } };

    #[inline(always)]
    fn shape() -> Leaf {
        Leaf::U32
    }

    #[inline(always)]
    fn decode(_alloc: A, _typ: TtlvType, content: &[u8]) -> Result<u32, AllocError> {
        Ok(number_of_four(content))
    }

    #[inline(always)]
    fn as_leaf(&self) -> visit::Leaf<'_> {
        visit::Leaf::U32(*self)
    }

    #[inline(always)]
    fn is_sound_leaf(&self) -> bool {
        self.is_sound()
    }
}

/// A Text String.
impl<A: Allocator> LeafKind<A> for String<A> {
    ghost leaf = { leaves.Text };

    ghost value = { λ x. text_value (string_bytes x) };

    ghost rules = { record {
      typ = types.TextString;
      written = λ x. text_value (string_bytes x);
      IsSound = λ x. Unit {0};
      eq = ⟦<String<A> as PartialEq>⟧.eq;
      single = λ x. refl;
      typed = λ x. refl;
      comes_back = λ x sound. as_text (text_is_utf8 x);
      says = Some string_bytes;
      keeps = λ n is x sound. text_stored n is (text_is_utf8 x);
      same = texts_equal;
    } };

    #[inline(always)]
    fn shape() -> Leaf {
        Leaf::Text
    }

    #[inline(always)]
    fn decode(alloc: A, _typ: TtlvType, content: &[u8]) -> Result<String<A>, AllocError> {
        String::from_str(alloc, text_of(content))
    }

    #[inline(always)]
    fn as_leaf(&self) -> visit::Leaf<'_> {
        visit::Leaf::Text(self.as_str())
    }

    #[inline(always)]
    fn is_sound_leaf(&self) -> bool {
        true
    }
}

/// A Byte String. A Big Integer is decoded as its bytes too.
impl<A: Allocator> LeafKind<A> for Vec<u8, A> {
    ghost leaf = { leaves.Bytes };

    ghost value = { λ x. bytes_value x.items };

    ghost rules = { record {
      typ = types.ByteString;
      written = λ x. bytes_value x.items;
      IsSound = λ x. Unit {0};
      eq = ⟦<Vec<u8, A> as PartialEq>⟧.eq;
      single = λ x. refl;
      typed = λ x. refl;
      comes_back = λ x sound. as_octets;
      says = None;
      keeps = λ n is. tt;
      same = λ x y e. bytes_equal x.items y.items e;
    } };

    #[inline(always)]
    fn shape() -> Leaf {
        Leaf::Bytes
    }

    #[inline(always)]
    fn decode(alloc: A, _typ: TtlvType, content: &[u8]) -> Result<Vec<u8, A>, AllocError> {
        Ok(Vec::from_slice(alloc, content)?)
    }

    #[inline(always)]
    fn as_leaf(&self) -> visit::Leaf<'_> {
        visit::Leaf::Bytes(self.as_slice())
    }

    #[inline(always)]
    fn is_sound_leaf(&self) -> bool {
        true
    }
}

/// A Date-Time, in seconds since 1970.
impl<A: Allocator> LeafKind<A> for DateTime {
    ghost leaf = { leaves.DateTime };

    ghost value = { λ x. date_time_value x.0 };

    ghost rules = { record {
      typ = types.DateTime;
      written = λ x. date_time_value (by_bits w64 x.0);
      IsSound = λ x. FitsSigned w64 x.0;
      eq = ⟦<DateTime as PartialEq>⟧.eq;
      single = λ x. refl;
      typed = λ x. refl;
      comes_back = λ x fits. as_date_time_by_bits x.0 fits;
      says = None;
      keeps = λ n is. tt;
      same = λ x y e. date_times_equal x.0 y.0 e;
    } };

    #[inline(always)]
    fn shape() -> Leaf {
        Leaf::DateTime
    }

    #[inline(always)]
    fn decode(_alloc: A, _typ: TtlvType, content: &[u8]) -> Result<DateTime, AllocError> {
        Ok(DateTime(number_of_eight(content).cast_signed()))
    }

    #[inline(always)]
    fn as_leaf(&self) -> visit::Leaf<'_> {
        visit::Leaf::DateTime(self.0)
    }

    #[inline(always)]
    fn is_sound_leaf(&self) -> bool {
        self.0.is_sound()
    }
}

/// An Interval, in seconds.
impl<A: Allocator> LeafKind<A> for Interval {
    ghost leaf = { leaves.Interval };

    ghost value = { λ x. interval_value x.0 };

    ghost rules = { record {
      typ = types.Interval;
      written = λ x. interval_value x.0;
      IsSound = λ x. x.0 < 2 ^ 32;
      eq = ⟦<Interval as PartialEq>⟧.eq;
      single = λ x. refl;
      typed = λ x. refl;
      comes_back = λ x fits. as_interval fits;
      says = None;
      keeps = λ n is. tt;
      same = λ x y e. intervals_equal x.0 y.0 e;
    } };

    #[inline(always)]
    fn shape() -> Leaf {
        Leaf::Interval
    }

    #[inline(always)]
    fn decode(_alloc: A, _typ: TtlvType, content: &[u8]) -> Result<Interval, AllocError> {
        Ok(Interval(number_of_four(content)))
    }

    #[inline(always)]
    fn as_leaf(&self) -> visit::Leaf<'_> {
        visit::Leaf::Interval(self.0)
    }

    #[inline(always)]
    fn is_sound_leaf(&self) -> bool {
        self.0.is_sound()
    }
}

/// A Big Integer. Encoding extends its sign to a multiple of eight bytes, so one is sound that has such a number of them.
impl<A: Allocator> LeafKind<A> for BigNumber<A> {
    ghost leaf = { leaves.BigInteger };

    ghost value = { λ x. big_integer_value x.bytes.items };

    ghost rules = { record {
      typ = types.BigInteger;
      written = λ x. big_integer_value x.bytes.items;
      IsSound = λ x. length x.bytes.items % 8 ≡ 0;
      eq = ⟦<BigNumber<A> as PartialEq>⟧.eq;
      single = λ x. refl;
      typed = λ x. refl;
      comes_back = λ x whole. as_whole x.bytes.items whole;
      says = None;
      keeps = λ n is. tt;
      same = λ x y e. big_integers_equal x.bytes.items y.bytes.items e;
    } };

    #[inline(always)]
    fn shape() -> Leaf {
        Leaf::BigInteger
    }

    #[inline(always)]
    fn decode(alloc: A, _typ: TtlvType, content: &[u8]) -> Result<BigNumber<A>, AllocError> {
        let bytes = Vec::from_slice(alloc, content)?;
        Ok(BigNumber { bytes })
    }

    #[inline(always)]
    fn as_leaf(&self) -> visit::Leaf<'_> {
        visit::Leaf::BigInteger(self.bytes.as_slice())
    }

    #[inline(always)]
    fn is_sound_leaf(&self) -> bool {
        is_whole(self.bytes.as_slice())
    }
}

/// The next item, a leaf under the wrapper of this tag, whatever the item's own tag.
#[inline(always)]
pub fn read_wrapped<'b, K: LeafKind<A>, A: Allocator + Copy>(
    scope: &Scope<'b, A>,
    tag: u32,
    cursor: &mut Cursor<'b, A>,
) -> Step<K, A>
    requires within { IsWithin scope.now cursor.old }
    ensures read { IsReadTo (λ x. newtype_value (wrapper_name tag) (K.value x)) cursor.new
        (at (outcome (wrapped_leaf tag (form_of_leaf K.leaf))) scope.now cursor.old) result }
    ensures within { IfOk result (λ _. IsWithin scope.now cursor.new) }
    ensures further { IfOk result (λ _. cursor.old.pos + 8 ≤ cursor.new.pos) }
{
    match cursor.wrapped_leaf(scope, tag, K::shape()) {
        Ok(content) => Ok(K::decode(scope.alloc, content.typ, content.bytes)?),
        Err(failure) => Err(failure),
    }
}

/// The next field, a leaf of this tag.
#[inline(always)]
pub fn read_leaf_field<'b, K: LeafKind<A>, A: Allocator + Copy>(
    scope: &Scope<'b, A>,
    tag: u32,
    cursor: &mut Cursor<'b, A>,
) -> Step<K, A>
    requires within { IsWithin scope.now cursor.old }
    ensures read { IsReadTo (λ x. newtype_value (wrapper_name tag) (K.value x)) cursor.new
        (at (field_outcome (tag_text tag) (wrapped_leaf tag (form_of_leaf K.leaf)) (outcome (wrapped_leaf tag (form_of_leaf K.leaf))))
        scope.now cursor.old) result }
    ensures within { IfOk result (λ _. IsWithin scope.now cursor.new) }
{
    match cursor.leaf(scope, tag, K::shape()) {
        Ok(content) => Ok(K::decode(scope.alloc, content.typ, content.bytes)?),
        Err(failure) => Err(failure),
    }
}
