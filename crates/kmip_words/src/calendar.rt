//! The days of the Gregorian calendar, counted from 1 January of the year 1, which is day 0.

ghost use Rattle.std.specs.Prelude.{◌≡◌, ◌<◌, ◌≤◌, ◌^◌};
ghost use Rattle.kmip_words.specs.Calendar.{is_leap, month_start, days_in_month, is_day, year_start, day_number, year_of, month_of};

// The days before each month of a year without a 29 February, and the days of each.
const STARTS: [u64; 12] = [0, 31, 59, 90, 120, 151, 181, 212, 243, 273, 304, 334];

const LENGTHS: [u64; 12] = [31, 28, 31, 30, 31, 30, 31, 31, 30, 31, 30, 31];

/// Whether a year has a 29 February.
pub fn is_leap(year: u64) -> bool
    ensures { result ≡ is_leap year }
{
    year % 4 == 0 && (year % 100 != 0 || year % 400 == 0)
}

/// The days of a year before a month.
pub fn month_start(leap: bool, month: u64) -> u64
    requires from_one { 1 ≤ month }
    requires to_twelve { month ≤ 12 }
    ensures is { result ≡ month_start leap month }
    ensures few { result < 366 }
{
    let start = STARTS[(month - 1) as usize];
    if leap && month > 2 { start + 1 } else { start }
}

// The days of a month.
fn days_in_month(leap: bool, month: u64) -> u64
    requires from_one { 1 ≤ month }
    requires to_twelve { month ≤ 12 }
    ensures { result ≡ days_in_month leap month }
{
    let days = LENGTHS[(month - 1) as usize];
    if leap && month == 2 { days + 1 } else { days }
}

/// Whether these are a day.
pub fn is_day(year: u64, month: u64, day: u64) -> bool
    ensures { result ≡ is_day year month day }
{
    if year == 0 || month == 0 || month > 12 {
        return false;
    }
    0 < day && day <= days_in_month(is_leap(year), month)
}

/// The number of a year's first day.
pub fn year_start(year: u64) -> u64
    requires from_one { 1 ≤ year }
    requires small { year < 2 ^ 32 }
    ensures is { result ≡ year_start year }
    ensures small { result < 2 ^ 41 }
{
    let before = year - 1;
    365 * before + before / 4 + before / 400 - before / 100
}

/// The number of a day.
pub fn day_number(year: u64, month: u64, day: u64) -> u64
    requires year_from_one { 1 ≤ year }
    requires small { year < 2 ^ 32 }
    requires from_one { 1 ≤ month }
    requires to_twelve { month ≤ 12 }
    requires day_from_one { 1 ≤ day }
    requires small_day { day < 100 }
    ensures is { result ≡ day_number year month day }
    ensures small { result < 2 ^ 42 }
{
    year_start(year) + month_start(is_leap(year), month) + (day - 1)
}

/// The year of a day.
pub fn year_of(day: u64) -> u64
    requires { day < 2 ^ 40 }
    ensures is { result ≡ year_of day }
    ensures from_one { 1 ≤ result }
    ensures small { result < 2 ^ 32 }
{
    let near = day * 400 / 146_097 + 1;
    if day < year_start(near) && near > 1 {
        return near - 1;
    }
    if year_start(near + 1) <= day {
        near + 1
    } else {
        near
    }
}

/// The month of a day of a year, where so many come before it there.
pub fn month_of(leap: bool, before: u64) -> u64
    requires { before < 366 }
    ensures is { result ≡ month_of leap before }
    ensures from_one { 1 ≤ result }
    ensures to_twelve { result ≤ 12 }
{
    let near = before / 31 + 1;
    if near < 12 && month_start(leap, near + 1) <= before {
        near + 1
    } else {
        near
    }
}
