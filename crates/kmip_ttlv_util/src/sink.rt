//! Where texts are written to: a string, or a writer that gets them in pieces.

ghost use Rattle.std.specs.Prelude.{◌≡◌, ℕ, List, [], ◌++◌, OnOk, OnErr, Some, string_bytes};
ghost use Rattle.kmip_ttlv_types.specs.Streams.{AppendsFront};
ghost use Rattle.kmip_ttlv_util.specs.Sinks.{string_both, string_first, string_second, string_after, string_none};

use std::alloc::{AllocError, Allocator};

/// A sink that texts are appended to, one part at a time: [`String`] or [`crate::Pieces`].
///
/// ```
/// let mut text = String::new(alloc);
/// push_value(&mut text, TtlvType::ByteString, &[1, 2, 3])?;
/// assert!(rt; text.as_str() == "010203");
/// ```
pub trait TextSink {
    /// Why a part can't be appended: the sink's own error, or out of memory.
    type Error: From<AllocError>;

    // The second is the first with a text appended.
    ghost adds: { Self → List ℕ → Self → Type 0 };

    // The second is the first after appending a text failed: a beginning of the text was appended.
    ghost breaks: { Self → List ℕ → Self → Type 0 };

    /// Appends a text. On error a beginning of it may have been appended.
    fn push_str(&mut self, text: &str) -> Result<(), Self::Error>
        ensures ok { OnOk result (adds self.old text.now self.new) }
        ensures err { OnErr result (breaks self.old text.now self.new) };

    // Appending the empty text changes nothing.
    ghost adds_none: { (a : Self) → adds a [] a };

    // Appending two texts appends both of them, one after the other.
    ghost adds_both: { (a b c : Self) (s t : List ℕ) → adds a s b → adds b t c → adds a (s ++ t) c };

    // If appending the first of two texts failed, so did appending both.
    ghost breaks_first: { (a b : Self) (s t : List ℕ) → breaks a s b → breaks a (s ++ t) b };

    // If appending the second of two texts failed, so did appending both.
    ghost breaks_second: { (a b c : Self) (s t : List ℕ) → adds a s b → breaks b t c → breaks a (s ++ t) c };

    // Appending a whole text also counts as appending a beginning of it.
    ghost breaks_after: { (a b : Self) (s : List ℕ) → adds a s b → breaks a s b };
}

impl<A: Allocator> TextSink for String<A> {
    type Error = AllocError;

    ghost adds = { λ a text b. string_bytes b ≡ string_bytes a ++ text };

    ghost breaks = { λ a text b. AppendsFront (Some (string_bytes a)) (Some (string_bytes b)) text };

    ghost adds_none = { λ a. string_none (string_bytes a) };

    ghost adds_both = { λ a b c s t p q. string_both (string_bytes a) (string_bytes b) (string_bytes c) s t p q };

    ghost breaks_first = { λ a b s t p. string_first (string_bytes a) (string_bytes b) s t p };

    ghost breaks_second = { λ a b c s t p q. string_second (string_bytes a) (string_bytes b) (string_bytes c) s t p q };

    ghost breaks_after = { λ a b s p. string_after (string_bytes a) (string_bytes b) s p };

    #[inline(always)]
    fn push_str(&mut self, text: &str) -> Result<(), AllocError> {
        self.push_str(text)
    }
}
