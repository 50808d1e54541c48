//! The text that a number is stored as.

ghost use Rattle.std.specs.Prelude.{◌≡◌, ◌<◌, length, true};
ghost use Rattle.std.specs.Str.{IsAscii};
ghost use Rattle.std.specs.Fmt.{digit_glyph};
ghost use Rattle.kmip_ttlv_reader.specs.Reads.{number_text};

use std::str;

// A hexadecimal digit in upper case.
#[inline(always)]
fn digit(n: u8) -> u8
    requires { n < 16 }
    ensures value { result ≡ digit_glyph true n }
    ensures ascii { result < 128 }
{
    if n < 10 { 48 + n } else { 55 + n }
}

/// `0x` and the upper case digits of these four bytes.
#[inline(always)]
pub fn number_text(content: &[u8]) -> [u8; 10]
    requires { length content.now ≡ 4 }
    ensures text { result ≡ number_text content.now }
    ensures ascii { IsAscii result }
{
    [
        48,
        120,
        digit(content[0] / 16),
        digit(content[0] % 16),
        digit(content[1] / 16),
        digit(content[1] % 16),
        digit(content[2] / 16),
        digit(content[2] % 16),
        digit(content[3] / 16),
        digit(content[3] % 16),
    ]
}

/// The text of a number: `0x` and eight uppercase digits.
#[derive(Clone, Copy, Drop)]
pub struct NumberText {
    digits: [u8; 10],
    ghost ascii: { IsAscii digits },
}

impl NumberText {
    /// That of the number of these four bytes.
    #[inline(always)]
    pub fn new(content: &[u8]) -> NumberText
        requires { length content.now ≡ 4 }
        ensures { result.digits ≡ number_text content.now }
    {
        NumberText {
            digits: number_text(content),
        }
    }

    /// The ten characters of the text, all of them ASCII.
    #[inline(always)]
    pub fn as_str(&self) -> &str
        ensures { result.now ≡ self.now.digits }
    {
        unsafe { str::from_utf8_unchecked(&self.digits) }
    }
}
