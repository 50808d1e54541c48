//! Numbers as a fixed count of hexadecimal digits.

ghost use Rattle.std.specs.Prelude.{◌≡◌, ◌<◌, ◌++◌, Some, codes};
ghost use Rattle.std.specs.Fmt.{DisplaysOnOk};
ghost use Rattle.std.specs.Str.{IsAscii};
ghost use Rattle.kmip_ttlv_types.specs.Digits.{digit, six_digits, eight_digits};

use std::{fmt, str};

fn digit_of(n: u32) -> u8
    requires { n < 16 }
    ensures { result ≡ digit n }
{
    if n < 10 { 48 + n as u8 } else { 55 + n as u8 }
}

// The last six digits.
#[tactic(auto, unfolding(crate::specs::Digits::six_digits))]
pub fn six_of(n: u32) -> [u8; 6]
    ensures digits { result ≡ six_digits n }
    ensures ascii { IsAscii result }
{
    [
        digit_of(n / 1_048_576 % 16),
        digit_of(n / 65_536 % 16),
        digit_of(n / 4_096 % 16),
        digit_of(n / 256 % 16),
        digit_of(n / 16 % 16),
        digit_of(n % 16),
    ]
}

// The eight digits.
#[tactic(auto, unfolding(crate::specs::Digits::eight_digits))]
pub fn eight_of(n: u32) -> [u8; 8]
    ensures digits { result ≡ eight_digits n }
    ensures ascii { IsAscii result }
{
    [
        digit_of(n / 268_435_456 % 16),
        digit_of(n / 16_777_216 % 16),
        digit_of(n / 1_048_576 % 16),
        digit_of(n / 65_536 % 16),
        digit_of(n / 4_096 % 16),
        digit_of(n / 256 % 16),
        digit_of(n / 16 % 16),
        digit_of(n % 16),
    ]
}

// `0x` and the digits.
pub fn write_digits<W: fmt::Write>(f: &mut fmt::Formatter<W>, digits: &[u8]) -> fmt::Result
    requires { IsAscii digits.now }
    ensures { DisplaysOnOk W.write_str_gives f.old result (Some (codes "0x" ++ digits.now)) f.new }
{
    let Ok(text) = str::from_utf8(digits) else {
        unreachable!();
    };
    f.write_str("0x")?;
    f.write_str(text)
}
