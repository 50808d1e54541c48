//! Numbers: whether `serde_json` takes one, and which whole number it is.

ghost use Rattle.std.specs.Prelude.{◌≡◌, ◌<◌, ◌==◌, true, false, length, slice_index, is_some, option_and_then, IsTrue};
ghost use Rattle.serde_json.specs.Read.{number_of, number_from, float_of};
ghost use Rattle.kmip_ttlv_json.specs.JsonTrees.{whole_num};

use crate::seen::Whole;
use fast_float::Numeral;

// Whether the number of a numeral is finite as a float.
fn is_finite(numeral: &Numeral<'_>, negative: bool) -> bool
    ensures { result ≡ is_some (float_of negative numeral.now) }
{
    let nearest: f64 = numeral.to_float(negative);
    nearest.is_finite()
}

// Whether a numeral without a sign is in range.
fn fits(numeral: &Numeral<'_>) -> bool
    ensures { result ≡ is_some (number_from false numeral.now) }
{
    numeral.to_u64().is_some() || is_finite(numeral, false)
}

// Whether one behind a minus sign is.
fn fits_below(numeral: &Numeral<'_>) -> bool
    ensures { result ≡ is_some (number_from true numeral.now) }
{
    if let Some(n) = numeral.to_i64(true) {
        if n < 0 {
            return true;
        }
    }
    is_finite(numeral, true)
}

// Whether a minus sign stands in front.
fn has_minus(bytes: &[u8]) -> bool
    ensures value { result ≡ (slice_index bytes.now 0 == 45) }
    ensures len { IsTrue result → 0 < length bytes.now }
{
    !bytes.is_empty() && bytes[0] == b'-'
}

/// Whether the text of a number of JSON stands for one that isn't too large.
pub fn is_in_range(text: &str) -> bool
    ensures { result ≡ is_some (number_of text.now) }
{
    let bytes = text.as_bytes();
    if has_minus(bytes) {
        fits_below(&Numeral::scan(&bytes[1..]))
    } else {
        fits(&Numeral::scan(bytes))
    }
}

// The whole number of a numeral without a sign, and of one behind a minus sign.
fn whole(numeral: &Numeral<'_>) -> Option<Whole>
    ensures { result ≡ option_and_then whole_num (number_from false numeral.now) }
{
    let size = numeral.to_u64()?;
    Some(Whole { minus: false, size })
}

fn whole_below(numeral: &Numeral<'_>) -> Option<Whole>
    ensures { result ≡ option_and_then whole_num (number_from true numeral.now) }
{
    let size = numeral.to_u64()?;
    if size == 0 || (1 << 63) < size {
        return None;
    }
    Some(Whole { minus: true, size })
}

/// The whole number that the text of a number of JSON stands for, if it is one and has 64 bits at most.
pub fn whole_of(text: &str) -> Option<Whole>
    ensures { result ≡ option_and_then whole_num (number_of text.now) }
{
    let bytes = text.as_bytes();
    if has_minus(bytes) {
        whole_below(&Numeral::scan(&bytes[1..]))
    } else {
        whole(&Numeral::scan(bytes))
    }
}
