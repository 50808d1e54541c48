//! Text that stands for a number.

ghost use Rattle.std.specs.Prelude.{◌≡◌, ◌<◌, ◌≤◌};
ghost use Rattle.std.specs.Char.{digit_value};
ghost use Rattle.std.specs.Str.Parse.{without_leading_plus};
ghost use Rattle.kmip_ttlv_types.specs.Names.{number, numeral, without_0x};

fn without_prefixes(text: &str) -> &str
    ensures { result.now ≡ without_0x text.now }
{
    let mut rest = text;
    while let Some(shorter) = rest.strip_prefix("0x") {
        rest = shorter;
    }
    rest
}

/// The text without a leading `+`.
fn without_plus(text: &str) -> &str
    ensures { result.now ≡ without_leading_plus text.now }
{
    match text.strip_prefix("+") {
        Some(rest) => rest,
        None => text,
    }
}

/// The value of a hexadecimal digit of either case; 16 for any other byte.
fn value_of(byte: u8) -> u32
    ensures digit { result < 16 → result ≡ digit_value byte }
    ensures other { 16 ≤ result → 16 ≤ digit_value byte }
{
    match byte {
        b'0'..=b'9' => byte as u32 - 48,
        b'A'..=b'F' => byte as u32 - 55,
        b'a'..=b'f' => byte as u32 - 87,
        _ => 16,
    }
}

/// The number that these hexadecimal digits of either case are: at least one digit, and below 2^32.
fn numeral(digits: &[u8]) -> Option<u32>
    ensures { result ≡ numeral digits.now }
{
    let mut value: u32 = 0;
    let mut at = 0;
    while at < digits.len() {
        let digit = value_of(digits[at]);
        if digit >= 16 || value >= 0x1000_0000 {
            return None;
        }
        value = value * 16 + digit;
        at += 1;
    }
    if at == 0 { None } else { Some(value) }
}

/// The number that a text is: any count of leading `0x`, then a `+` or none, then at least one hexadecimal
/// digit of either case. `None` for any other text, and from 2^32 on. Doesn't allocate.
///
/// ```
/// assert_eq!(rt; number("0xFFFFFFFF"), Some(u32::MAX));
/// assert_eq!(rt; number("100000000"), None);
/// ```
#[tactic(auto, unfolding(crate::specs::Names::number))]
pub fn number(text: &str) -> Option<u32>
    ensures { result ≡ number text.now }
{
    numeral(without_plus(without_prefixes(text)).as_bytes())
}
