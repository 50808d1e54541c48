//! The dates of Date-Times: ISO 8601's text of a point in time, both ways, for the years 1 to 9999.

ghost use Rattle.std.specs.Prelude.{◌≡◌, ◌+◌, ◌<◌, ◌≤◌, ◌^◌, ◌==◌, Some, length, IfSome, option_map};
ghost use Rattle.std.specs.Str.{IsAscii};
ghost use Rattle.kmip_words.specs.Dates.{is_no_digit, two_at, has_marks, day_at, second_at, local_at, without_zeros, without_fraction, moved, offset_at, utc_of, date_at, date_of, digit_at, written_at, date_text};

use crate::calendar::{day_number, is_day, is_leap, month_of, month_start, year_of, year_start};

// The seconds from the beginning of the year 1 to that of 1970, and to the end of the year 9999.
const EPOCH: u64 = 62_135_596_800;

const END: u64 = 315_537_897_600;

// Whether a byte is no digit.
fn is_no_digit(c: u8) -> bool
    ensures { result ≡ is_no_digit c }
{
    c < 48 || 57 < c
}

// The number that two digits are.
#[tactic(auto, unfolding(crate::specs::Dates::two_at))]
fn two_at(bytes: &[u8], at: usize) -> Option<u64>
    requires { at + 1 < length bytes.now }
    ensures is { result ≡ two_at bytes.now at }
    ensures small { IfSome result (λ n. n < 100) }
{
    let (high, low) = (bytes[at], bytes[at + 1]);
    if is_no_digit(high) || is_no_digit(low) {
        return None;
    }
    Some(u64::from(high - 48) * 10 + u64::from(low - 48))
}

// Whether the marks of a date and a time are where they stand.
#[tactic(auto, unfolding(crate::specs::Dates::has_marks))]
fn has_marks(bytes: &[u8]) -> bool
    requires { 19 ≤ length bytes.now }
    ensures { result ≡ has_marks bytes.now }
{
    bytes[4] == b'-'
        && bytes[7] == b'-'
        && bytes[10] == b'T'
        && bytes[13] == b':'
        && bytes[16] == b':'
}

// The number of the day of a date.
#[tactic(auto, unfolding(crate::specs::Dates::day_at))]
fn day_at(bytes: &[u8]) -> Option<u64>
    requires { 19 ≤ length bytes.now }
    ensures is { result ≡ day_at bytes.now }
    ensures small { IfSome result (λ n. n < 2 ^ 42) }
{
    let century = two_at(bytes, 0)?;
    let year = century * 100 + two_at(bytes, 2)?;
    let month = two_at(bytes, 5)?;
    let day = two_at(bytes, 8)?;
    if is_day(year, month, day) {
        Some(day_number(year, month, day))
    } else {
        None
    }
}

// The second of the day of a time.
#[tactic(auto, unfolding(crate::specs::Dates::second_at))]
fn second_at(bytes: &[u8]) -> Option<u64>
    requires { 19 ≤ length bytes.now }
    ensures is { result ≡ second_at bytes.now }
    ensures small { IfSome result (λ n. n < 86400) }
{
    let hour = two_at(bytes, 11)?;
    let minute = two_at(bytes, 14)?;
    let second = two_at(bytes, 17)?;
    if hour < 24 && minute < 60 && second < 60 {
        Some(hour * 3600 + minute * 60 + second)
    } else {
        None
    }
}

// The seconds from the beginning of the year 1 to a date and time, whose offset counts not yet.
#[tactic(auto, unfolding(crate::specs::Dates::local_at))]
fn local_at(bytes: &[u8]) -> Option<u64>
    requires { 19 ≤ length bytes.now }
    ensures is { result ≡ local_at bytes.now }
    ensures small { IfSome result (λ n. n < 2 ^ 60) }
{
    if !has_marks(bytes) {
        return None;
    }
    let day = day_at(bytes)?;
    Some(day * 86_400 + second_at(bytes)?)
}

// What follows zeros.
fn without_zeros(bytes: &[u8]) -> &[u8]
    ensures { result.now ≡ without_zeros bytes.now }
{
    let mut rest = bytes;
    'zeros: while let [b'0', more @ ..] = rest {
        rest = more;
    }
    rest
}

// What follows a fraction of a second, which may be zero.
fn without_fraction(bytes: &[u8]) -> Option<&[u8]>
    ensures { option_map (λ s. s.now) result ≡ without_fraction bytes.now }
{
    match bytes {
        [b'.', b'0', more @ ..] => Some(without_zeros(more)),
        [b'.', ..] => None,
        _ => Some(bytes),
    }
}

// The seconds in Coordinated Universal Time where the time is ahead of it or behind it by so many.
fn moved(sign: u8, local: u64, offset: u64) -> Option<u64>
    requires near { local < 2 ^ 60 }
    requires small { offset < 2 ^ 60 }
    ensures { result ≡ moved sign local offset }
{
    match sign {
        b'+' => local.checked_sub(offset),
        b'-' => Some(local + offset),
        _ => None,
    }
}

// The seconds of an offset's hours and minutes.
#[tactic(auto, unfolding(crate::specs::Dates::offset_at))]
fn offset_at(zone: &[u8]) -> Option<u64>
    requires { 6 ≤ length zone.now }
    ensures is { result ≡ offset_at zone.now }
    ensures small { IfSome result (λ n. n < 86400) }
{
    let hour = two_at(zone, 1)?;
    let minute = two_at(zone, 4)?;
    if hour < 24 && minute < 60 {
        Some(hour * 3600 + minute * 60)
    } else {
        None
    }
}

// The same, by the text of the offset.
#[tactic(auto, unfolding(crate::specs::Dates::utc_of))]
fn utc_of(local: u64, zone: &[u8]) -> Option<u64>
    requires { local < 2 ^ 60 }
    ensures { result ≡ utc_of local zone.now }
{
    if zone.len() == 1 && zone[0] == b'Z' {
        return Some(local);
    }
    if zone.len() != 6 || zone[3] != b':' {
        return None;
    }
    moved(zone[0], local, offset_at(zone)?)
}

// The seconds since 1970 of the text of a date.
#[tactic(auto, unfolding(crate::specs::Dates::date_at))]
fn date_at(bytes: &[u8]) -> Option<u64>
    ensures { result ≡ date_at bytes.now }
{
    if bytes.len() < 20 {
        return None;
    }
    let local = local_at(bytes)?;
    let zone = without_fraction(&bytes[19..])?;
    Some(utc_of(local, zone)?.wrapping_sub(EPOCH))
}

/// The seconds since 1970 of a date of ISO 8601, as `2009-11-12T10:47:30+00:00`: of a Date-Time, as the number that its
/// eight bytes are, where a date before 1970 is a negative number's two's complement.
///
/// Its offset is hours and minutes, or `Z`, and behind the seconds may stand a fraction of zero. There is none for any other text.
pub fn date_of(text: &str) -> Option<u64>
    ensures { result ≡ date_of text.now }
{
    date_at(text.as_bytes())
}

// The digit of a number that stands for so many.
fn digit_at(value: u64, unit: u64) -> u8
    requires { 0 < unit }
    ensures is { result ≡ digit_at value unit }
    ensures digit { result < 58 }
{
    b'0' + (value / unit % 10) as u8
}

// The text of the date so many seconds behind the beginning of the year 1.
#[tactic(auto, unfolding(crate::specs::Dates::written_at))]
fn written_at(since: u64) -> [u8; 25]
    requires { since < 2 ^ 50 }
    ensures is { result ≡ written_at since }
    ensures ascii { IsAscii result }
{
    let number = since / 86_400;
    let year = year_of(number);
    let before = number.saturating_sub(year_start(year)).min(365);
    let month = month_of(is_leap(year), before);
    let day = before.saturating_sub(month_start(is_leap(year), month)) + 1;
    let second = since % 86_400;
    [
        digit_at(year, 1000),
        digit_at(year, 100),
        digit_at(year, 10),
        digit_at(year, 1),
        b'-',
        digit_at(month, 10),
        digit_at(month, 1),
        b'-',
        digit_at(day, 10),
        digit_at(day, 1),
        b'T',
        digit_at(second, 36_000),
        digit_at(second / 3600, 1),
        b':',
        digit_at(second / 60 % 60, 10),
        digit_at(second / 60 % 60, 1),
        b':',
        digit_at(second % 60, 10),
        digit_at(second % 60, 1),
        b'+',
        b'0',
        b'0',
        b':',
        b'0',
        b'0',
    ]
}

/// The text of the date so many seconds since 1970, as [`date_of`] reads it; of a year before 1 or behind 9999 none.
#[tactic(auto, unfolding(crate::specs::Dates::date_text))]
pub fn date_text(seconds: u64) -> Option<[u8; 25]>
    ensures is { result ≡ date_text seconds }
    ensures ascii { IfSome result IsAscii }
    ensures back { IfSome result (λ text. date_of text ≡ Some seconds) }
{
    let since = seconds.wrapping_add(EPOCH);
    if since >= END {
        return None;
    }
    let text = written_at(since);
    let is_back = date_at(&text) == Some(seconds);
    if is_back { Some(text) } else { None }
}
