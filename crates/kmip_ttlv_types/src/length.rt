//! The length of an item's value.

ghost use Rattle.std.specs.Prelude.{◌≡◌, true, ℕ, Some};
ghost use Rattle.std.specs.Fmt.{WritesOnOk, digits};
ghost use Rattle.std.specs.Int.{w32, to_be_bytes};
ghost use Rattle.kmip_ttlv_types.specs.Digits.{length_text, number_text};
ghost use Rattle.kmip_ttlv_types.specs.Headers.{ReadsNumber, Writes};

use crate::digits::{eight_of, write_digits};
use crate::error::Error;
use crate::numbers::word_of;
use crate::stream::{Sink, Source, fill_all};
use std::fmt;
use std::marker::Model;
use std::ops::Deref;

/// The length of an item's value in bytes, without padding (KMIP 1.0, section 9.1.1.3).
#[derive(Clone, Copy, PartialEq, Eq, Hash)]
pub struct TtlvLength(u32);

impl Model for TtlvLength {
    ghost use Rattle.std.specs.Prelude.{ℕ, ◌<◌, ◌^◌};

    ghost Value = { ℕ };

    ghost view = { λ l. l.0 };

    ghost invariant = { λ l. l.0 < 2 ^ 32 };

    ghost inverse = { λ n. record { 0 = n } };
}

impl TtlvLength {
    /// The length of a value of `n` bytes.
    pub fn new(n: u32) -> TtlvLength
        ensures { result ≡ n }
    {
        TtlvLength(n)
    }

    /// Reads the four bytes of a length.
    ///
    /// Fails with `IoError` if they can't be read: of kind `UnexpectedEof` if the input ends too early.
    ///
    /// ```
    /// let mut source = MemorySource(b"\0\0\0\x04\0\0\0\x08");
    /// assert!(rt; TtlvLength::read(&mut source)? == TtlvLength::new(4));
    /// ```
    pub fn read<S: Source>(src: &mut S) -> Result<TtlvLength, Error>
        ensures { ReadsNumber (to_be_bytes w32) 4 S.can_fail (S.left src.old) (S.left src.new) result }
    {
        let mut bytes = [0u8; 4];
        fill_all(src, &mut bytes)?;
        Ok(TtlvLength(word_of(&bytes)))
    }

    /// Writes the four bytes of the length.
    ///
    /// Fails with `IoError` if the sink does; a beginning may have been written.
    ///
    /// ```
    /// let mut out = Vec::new(alloc);
    /// TtlvLength::new(4).write(&mut out)?;
    /// assert!(rt; out.as_slice() == b"\0\0\0\x04".as_slice());
    /// ```
    pub fn write<S: Sink>(&self, dst: &mut S) -> Result<(), Error>
        ensures { Writes (to_be_bytes w32 self.now)
            (S.emitted dst.old) (S.emitted dst.new) (S.room dst.old) (S.room dst.new) result }
    {
        dst.send(&self.0.to_be_bytes())?;
        Ok(())
    }
}

/// The number of bytes.
impl Deref for TtlvLength {
    type Target = u32;

    ghost deref_gives = { λ l n. n ≡ l };

    fn deref(&self) -> &u32 {
        &self.0
    }
}

/// `0x` and eight uppercase digits.
impl fmt::Display for TtlvLength {
    ghost output = { λ l. Some (length_text l) };

    fn fmt<W: fmt::Write>(&self, f: &mut fmt::Formatter<W>) -> fmt::Result {
        write_digits(f, &eight_of(self.0))
    }
}

/// `0x` and uppercase digits without leading zeros.
impl fmt::Debug for TtlvLength {
    ghost debug_output = { λ l. Some (number_text l) };

    fn fmt<W: fmt::Write>(&self, f: &mut fmt::Formatter<W>) -> fmt::Result {
        let number = self.0;
        write!(f, "0x{number:X}")
    }
}

/// Uppercase digits without leading zeros; a width and a fill by zeros are as for numbers.
impl fmt::UpperHex for TtlvLength {
    fn fmt<W: fmt::Write>(&self, f: &mut fmt::Formatter<W>) -> fmt::Result
        ensures { WritesOnOk W.write_str_gives f.old result (digits 16 true self.now) f.new }
    {
        fmt::UpperHex::fmt(&self.0, f)
    }
}

/// The number that `{:X}` and its kin print of a length.
impl fmt::HasDigits for TtlvLength {
    ghost word = { λ n. Some n };

    fn bits(self) -> (u64, u64) {
        (0, u64::from(self.0))
    }
}
