//! The dates of Date-Times, as ISO 8601 writes them in Coordinated Universal Time.

ghost use Rattle.std.specs.Prelude.{◌≡◌, ◌<◌, ◌≤◌, ◌^◌, ◌+◌, OnOk, OnErr};
ghost use Rattle.ttlv_run.specs.Dates.{is_leap, days_in_year, days_in_month, in_year, in_month, digit_at, calendar_text, day_text, clock_text, time_text, date_shown};

use kmip_ttlv_util::TextSink;
use std::str;

/// The seconds from the beginning of 1970 to the end of the year 9999.
const LAST: u64 = 253_402_300_800;

/// The days of 400 years, in which the calendar repeats.
const CYCLE: u64 = 146_097;

// Whether a year has a 29 February.
fn is_leap(year: u64) -> bool
    ensures { result ≡ is_leap year }
{
    year % 4 == 0 && (year % 100 != 0 || year % 400 == 0)
}

// The days of a year.
fn days_in_year(year: u64) -> u64
    ensures { result ≡ days_in_year year }
{
    if is_leap(year) { 366 } else { 365 }
}

// The days of a month.
fn days_in_month(year: u64, month: u64) -> u64
    ensures { result ≡ days_in_month year month }
{
    if month == 2 {
        return if is_leap(year) { 29 } else { 28 };
    }
    if month == 4 || month == 6 || month == 9 || month == 11 {
        30
    } else {
        31
    }
}

// The year in which the day lies that comes so many days behind 1 January of a year, and how many come before it
// there.
fn in_year(first: u64, days: u64) -> (u64, u64)
    requires { first + days < 2 ^ 64 }
    ensures is { result ≡ in_year days first days }
    ensures few { result.1 ≤ days }
{
    let mut year = first;
    let mut rest = days;
    'years: while rest >= days_in_year(year) {
        rest -= days_in_year(year);
        year += 1;
    }
    (year, rest)
}

// The same of months, from January of a year.
fn in_month(year: u64, days: u64) -> (u64, u64)
    requires { days + 1 < 2 ^ 64 }
    ensures is { result ≡ in_month year days 1 days }
    ensures few { result.1 ≤ days }
{
    let mut month = 1;
    let mut rest = days;
    'months: while rest >= days_in_month(year, month) {
        rest -= days_in_month(year, month);
        month += 1;
    }
    (month, rest)
}

// The digit of a number that stands for so many.
fn digit_at(value: u64, unit: u64) -> u8
    requires { 0 < unit }
    ensures { result ≡ digit_at value unit }
{
    b'0' + (value / unit % 10) as u8
}

// A space and a date, as `2009-11-12`.
fn calendar_text(year: u64, month: u64, day: u64) -> [u8; 11]
    ensures { result ≡ calendar_text year month day }
{
    [
        b' ',
        digit_at(year, 1000),
        digit_at(year, 100),
        digit_at(year, 10),
        digit_at(year, 1),
        b'-',
        digit_at(month, 10),
        digit_at(month, 1),
        b'-',
        digit_at(day, 10),
        digit_at(day, 1),
    ]
}

// A space and the date of a day, counted from 1970.
fn day_text(days: u64) -> [u8; 11]
    requires { days < 2 ^ 63 }
    ensures { result ≡ day_text days }
{
    let (year, rest) = in_year(1970 + 400 * (days / CYCLE), days % CYCLE);
    let (month, before) = in_month(year, rest);
    calendar_text(year, month, before + 1)
}

// The time of so many hours, minutes and seconds, as `T10:47:30Z`.
fn clock_text(hour: u64, minute: u64, second: u64) -> [u8; 10]
    ensures { result ≡ clock_text hour minute second }
{
    [
        b'T',
        digit_at(hour, 10),
        digit_at(hour, 1),
        b':',
        digit_at(minute, 10),
        digit_at(minute, 1),
        b':',
        digit_at(second, 10),
        digit_at(second, 1),
        b'Z',
    ]
}

// The time of a second of a day.
fn time_text(seconds: u64) -> [u8; 10]
    ensures { result ≡ time_text seconds }
{
    clock_text(seconds / 3600, seconds / 60 % 60, seconds % 60)
}

/// Adds a space and the date that is so many seconds behind the beginning of 1970, where that lies before the year
/// 10000; else nothing.
///
/// It fails where the sink fails.
#[tactic(auto, unfolding(crate::specs::Dates::date_shown))]
pub fn push_date<S: TextSink>(out: &mut S, seconds: u64) -> Result<(), S::Error>
    ensures ok { OnOk result (S.adds out.old (date_shown seconds) out.new) }
    ensures err { OnErr result (S.breaks out.old (date_shown seconds) out.new) }
{
    if seconds >= LAST {
        return Ok(());
    }
    let day = day_text(seconds / 86_400);
    let time = time_text(seconds % 86_400);
    out.push_str(unsafe { str::from_utf8_unchecked(&day) })?;
    out.push_str(unsafe { str::from_utf8_unchecked(&time) })
}
