//! Which values of a type are sound: numbers that fit, and whatever else the type asks. What is sound, and encoded, is decoded
//! again, so the laws of message types have it as a premise.

ghost use Rattle.std.specs.Prelude.{◌≡◌, ◌<◌, ◌^◌, ◌%◌, ◌↔◌, FitsSigned, All, IfSome, IsTrue, false, length};
ghost use Rattle.std.specs.Int.{w32, w64};
ghost use Rattle.std.specs.List.{list_any};
ghost use Rattle.std.specs.Str.{bytes_eq};

use kmip_ttlv_reader::rules::is_among;
use std::alloc::Allocator;

/// A type that says which of its values are sound. Every number that a program holds is, so of numbers it only proves their
/// range.
pub trait Sound {
    // Which values are sound.
    ghost IsSound: { Self → Type 0 };

    /// Whether the value is sound.
    fn is_sound(&self) -> bool
        ensures { IsTrue result ↔ IsSound self.now };
}

impl Sound for i32 {
    ghost IsSound = { FitsSigned w32 };

    fn is_sound(&self) -> bool {
        let _number = *self;
        true
    }
}

impl Sound for i64 {
    ghost IsSound = { FitsSigned w64 };

    fn is_sound(&self) -> bool {
        let _number = *self;
        true
    }
}

impl Sound for u32 {
    ghost IsSound = { λ n. n < 2 ^ 32 };

    fn is_sound(&self) -> bool {
        let _number = *self;
        true
    }
}

impl<T: Sound> Sound for Option<T> {
    ghost IsSound = { λ x. IfSome x T.IsSound };

    fn is_sound(&self) -> bool {
        match self {
            Some(value) => value.is_sound(),
            None => true,
        }
    }
}

impl<T: Sound, A: Allocator> Sound for Vec<T, A> {
    ghost IsSound = { λ xs. All T.IsSound xs.items };

    fn is_sound(&self) -> bool {
        self.iter().all(|value| value.is_sound())
    }
}

/// Whether bytes are those of a Big Integer as it is encoded: encoding extends its sign to a multiple of eight bytes.
pub fn is_whole(bytes: &[u8]) -> bool
    ensures { IsTrue result ↔ (length bytes.now % 8 ≡ 0) }
{
    bytes.len() % 8 == 0
}

/// The same of one that may be absent.
pub fn is_absent_or_whole<A: Allocator>(bytes: &Option<Vec<u8, A>>) -> bool
    ensures { IsTrue result ↔ IfSome bytes.now (λ xs. length xs.items % 8 ≡ 0) }
{
    match bytes {
        Some(bytes) => is_whole(bytes.as_slice()),
        None => true,
    }
}

/// Whether a text is none of these. A choice goes by the text, or by the type of the item if the text names no variant.
pub fn is_none_of(text: &str, others: &[&str]) -> bool
    ensures { IsTrue result ↔ (list_any (λ other. bytes_eq text.now other.now) others.now ≡ false) }
{
    !is_among(text, others)
}
