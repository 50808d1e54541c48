//! Whole numbers in decimal digits.

ghost use Rattle.std.specs.Prelude.{◌≡◌};
ghost use Rattle.kmip_ttlv_xml.specs.Decimals.{size_of, signed, whole_of, long_of};

use kmip_ttlv_json::values::Whole;

// The number of one digit or more, if it has 64 bits.
fn size_of(digits: &str) -> Option<u64>
    ensures { result ≡ size_of digits.now }
{
    if digits.starts_with('+') {
        return None;
    }
    digits.parse().ok()
}

// A whole number with a sign or none.
fn signed(minus: bool, size: Option<u64>) -> Option<Whole>
    ensures { result ≡ signed minus size }
{
    match size {
        Some(size) => Some(Whole { minus, size }),
        None => None,
    }
}

/// The whole number of digits, which may stand behind a minus sign, if it has 64 bits without that.
pub fn whole_of(text: &str) -> Option<Whole>
    ensures { result ≡ whole_of text.now }
{
    match text.strip_prefix('-') {
        Some(digits) => signed(true, size_of(digits)),
        None => signed(false, size_of(text)),
    }
}

/// The number that 64 bits are for a whole number, if it is a Long Integer.
pub fn long_of(whole: Whole) -> Option<u64>
    ensures { result ≡ long_of whole.minus whole.size }
{
    if whole.minus {
        if 0 < whole.size && whole.size <= 1 << 63 {
            Some(0u64.wrapping_sub(whole.size))
        } else {
            None
        }
    } else if whole.size < 1 << 63 {
        Some(whole.size)
    } else {
        None
    }
}
