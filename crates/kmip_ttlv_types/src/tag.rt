//! The tag of an item.

ghost use Rattle.std.specs.Prelude.{◌≡◌, true, ℕ, ◌≤◌, ◌^◌, ◌++◌, IfNone, IfSome, IfOk, IfErr, Some, None};
ghost use Rattle.std.specs.Prelude.{string_bytes, [], ◌∷◌};
ghost use Rattle.std.specs.Int.{bytes_high_first, from_be_bytes, w32};
ghost use Rattle.std.specs.Str.{IsAscii};
ghost use Rattle.std.specs.Fmt.{WritesOnOk, digits};
ghost use Rattle.kmip_ttlv_types.specs.Names.{tag_of, IsNamed};
ghost use Rattle.kmip_ttlv_types.specs.Digits.{tag_text, six_digits, number_text};
ghost use Rattle.kmip_ttlv_types.specs.Headers.{ReadsNumber, Writes};

use crate::digits::{six_of, write_digits};
use crate::error::Error;
use crate::names::number;
use crate::numbers::triple_of;
use crate::stream::{Sink, Source, fill_all};
use std::alloc::Allocator;
use std::fmt;
use std::marker::Model;
use std::ops::Deref;

/// The tag of an item: a number of three bytes (KMIP 1.0, section 9.1.1.1).
///
/// ```
/// let tag = TtlvTag::from([0x42, 0x00, 0x20]);
/// assert_eq!(rt; *tag, 0x42_0020);
/// ```
#[derive(Clone, Copy, PartialEq, Eq, Hash)]
pub struct TtlvTag(u32);

impl Model for TtlvTag {
    ghost use Rattle.std.specs.Prelude.{ℕ, ◌<◌, ◌^◌, refl};

    ghost Value = { ℕ };

    ghost view = { λ t. t.0 };

    ghost invariant = { λ t. t.0 < 2 ^ 24 };

    ghost inverse = { λ n. record { 0 = n } };
}

impl TtlvTag {
    /// The tag with this number, if it is below 2^24.
    ///
    /// ```
    /// assert!(rt; TtlvTag::from_number(0xFF_FFFF).is_some());
    /// assert!(rt; TtlvTag::from_number(0x100_0000).is_none());
    /// ```
    pub fn from_number(n: u32) -> Option<TtlvTag>
        ensures some { IfSome result (λ t. t ≡ n) }
        ensures none { IfNone result (2 ^ 24 ≤ n) }
    {
        if n < 0x100_0000 {
            Some(TtlvTag(n))
        } else {
            None
        }
    }

    // The tag of three bytes, the highest first: as `From`, but without an array of them.
    #[inline(always)]
    pub(crate) fn of_bytes(a: u8, b: u8, c: u8) -> TtlvTag
        ensures { result ≡ from_be_bytes w32 (0 ∷ a ∷ b ∷ c ∷ []) }
    {
        TtlvTag(u32::from_be_bytes([0, a, b, c]))
    }

    /// The tag that a text is: its number, as `number` reads it, if that is below 2^24. Doesn't allocate.
    ///
    /// ```
    /// let tag = TtlvTag::from([0x42, 0x00, 0xAA]);
    /// assert!(rt; TtlvTag::from_name("0x4200AA") == Some(tag));
    /// assert!(rt; TtlvTag::from_name("XYZ").is_none());
    /// ```
    #[tactic(auto, unfolding(crate::specs::Names::tag_of))]
    pub fn from_name(name: &str) -> Option<TtlvTag>
        ensures { result ≡ tag_of name.now }
    {
        TtlvTag::from_number(number(name)?)
    }

    /// The tag that a text is: its number, as `number` reads it, below 2^24.
    ///
    /// Fails with `InvalidTtlvTag` and the whole text if it is none, or with `OutOfMemory` if there is no memory
    /// for that text.
    ///
    /// ```
    /// let tag = TtlvTag::from_str(alloc, "0x4200AA")?;
    /// assert!(rt; TtlvTag::from_str(alloc, "0x1000000").is_err());
    /// ```
    pub fn from_str<A: Allocator>(alloc: A, text: &str) -> Result<TtlvTag, Error<A>>
        ensures { IsNamed text.now result }
    {
        match TtlvTag::from_name(text) {
            Some(tag) => Ok(tag),
            None => Err(Error::InvalidTtlvTag(String::from_str(alloc, text)?)),
        }
    }

    /// The six uppercase hexadecimal digits of the tag, in ASCII.
    ///
    /// ```
    /// assert!(rt; TtlvTag::from([0xAB, 0xCD, 0xEF]).digits() == *b"ABCDEF");
    /// ```
    pub fn digits(self) -> [u8; 6]
        ensures digits { result ≡ six_digits self }
        ensures ascii { IsAscii result }
    {
        six_of(self.0)
    }

    /// Reads the three bytes of a tag.
    ///
    /// Fails with `IoError` if they can't be read: of kind `UnexpectedEof` if the input ends too early.
    ///
    /// ```
    /// let mut source = MemorySource(b"\x42\0\x20\x02\0\0\0\x04");
    /// assert!(rt; TtlvTag::read(&mut source)? == TtlvTag::from([0x42, 0x00, 0x20]));
    /// ```
    pub fn read<S: Source>(src: &mut S) -> Result<TtlvTag, Error>
        ensures { ReadsNumber (bytes_high_first 3) 3 S.can_fail (S.left src.old) (S.left src.new) result }
    {
        let mut bytes = [0u8; 3];
        fill_all(src, &mut bytes)?;
        Ok(TtlvTag(triple_of(&bytes)))
    }

    /// Writes the three bytes of the tag.
    ///
    /// Fails with `IoError` if the sink does; a beginning may have been written.
    ///
    /// ```
    /// let mut out = Vec::new(alloc);
    /// TtlvTag::from([0x42, 0x00, 0x20]).write(&mut out)?;
    /// assert!(rt; out.as_slice() == b"\x42\0\x20".as_slice());
    /// ```
    pub fn write<S: Sink>(&self, dst: &mut S) -> Result<(), Error>
        ensures { Writes (bytes_high_first 3 self.now)
            (S.emitted dst.old) (S.emitted dst.new) (S.room dst.old) (S.room dst.new) result }
    {
        let bytes: [u8; 3] = self.into();
        dst.send(&bytes)?;
        Ok(())
    }
}

/// The tag's number, below 2^24.
impl Deref for TtlvTag {
    type Target = u32;

    ghost deref_gives = { λ t n. n ≡ t };

    fn deref(&self) -> &u32 {
        &self.0
    }
}

/// The tag of three bytes, the highest first.
impl From<[u8; 3]> for TtlvTag {
    ghost use Rattle.std.specs.Prelude.{[], ◌∷◌};
    ghost use Rattle.std.specs.Int.{w32, from_be_bytes};

    ghost from_gives = { λ bytes t. t ≡ from_be_bytes w32 (0 ∷ bytes) };

    fn from(bytes: [u8; 3]) -> TtlvTag {
        let [a, b, c] = bytes;
        TtlvTag(u32::from_be_bytes([0, a, b, c]))
    }
}

/// The tag of three bytes, the highest first.
impl From<&[u8; 3]> for TtlvTag {
    ghost use Rattle.std.specs.Prelude.{[], ◌∷◌};
    ghost use Rattle.std.specs.Int.{w32, from_be_bytes};

    ghost from_gives = { λ bytes t. t ≡ from_be_bytes w32 (0 ∷ bytes.now) };

    fn from(bytes: &[u8; 3]) -> TtlvTag {
        let [a, b, c] = *bytes;
        TtlvTag(u32::from_be_bytes([0, a, b, c]))
    }
}

/// The three bytes of the tag, the highest first.
impl From<TtlvTag> for [u8; 3] {
    ghost from_gives = { λ t bytes. bytes ≡ bytes_high_first 3 t };

    fn from(tag: TtlvTag) -> [u8; 3] {
        let [_, a, b, c] = tag.0.to_be_bytes();
        [a, b, c]
    }
}

/// The three bytes of the tag, the highest first.
impl From<&TtlvTag> for [u8; 3] {
    ghost from_gives = { λ t bytes. bytes ≡ bytes_high_first 3 t.now };

    fn from(tag: &TtlvTag) -> [u8; 3] {
        let [_, a, b, c] = tag.0.to_be_bytes();
        [a, b, c]
    }
}

/// `0x` and six uppercase digits.
impl fmt::Display for TtlvTag {
    ghost output = { λ t. Some (tag_text t) };

    fn fmt<W: fmt::Write>(&self, f: &mut fmt::Formatter<W>) -> fmt::Result {
        write_digits(f, &self.digits())
    }
}

/// `0x` and uppercase digits without leading zeros.
impl fmt::Debug for TtlvTag {
    ghost debug_output = { λ t. Some (number_text t) };

    fn fmt<W: fmt::Write>(&self, f: &mut fmt::Formatter<W>) -> fmt::Result {
        let number = self.0;
        write!(f, "0x{number:X}")
    }
}

/// Uppercase digits without leading zeros; a width and a fill by zeros are as for numbers.
impl fmt::UpperHex for TtlvTag {
    fn fmt<W: fmt::Write>(&self, f: &mut fmt::Formatter<W>) -> fmt::Result
        ensures { WritesOnOk W.write_str_gives f.old result (digits 16 true self.now) f.new }
    {
        fmt::UpperHex::fmt(&self.0, f)
    }
}

/// The number that `{:X}` and its kin print of a tag.
impl fmt::HasDigits for TtlvTag {
    ghost word = { λ n. Some n };

    fn bits(self) -> (u64, u64) {
        (0, u64::from(self.0))
    }
}
