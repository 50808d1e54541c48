//! Dates, as ISO 8601 writes them in Coordinated Universal Time.

use std::alloc::{AllocError, Allocator};

/// The seconds from the beginning of 1970 to the end of the year 9999.
const LAST: u64 = 253_402_300_800;

/// The seconds of a day.
const DAY: u64 = 86_400;

/// The days of 400 years, in which the calendar repeats.
const CYCLE: u64 = 146_097;

/// The days from 1 March of the year 0 to 1 January 1970.
const BEFORE: u64 = 719_468;

// The year, the month and the day that come so many days behind 1 January 1970. Years are counted from March on, so that a leap day is
// the last of its year, and months have 153 days in five.
fn calendar(days: u64) -> (u64, u64, u64) {
    let all = days.saturating_add(BEFORE);
    let (cycles, rest) = (all / CYCLE, all % CYCLE);
    let leap_days = (rest / 1_460 + rest / 146_096).saturating_sub(rest / 36_524);
    let year = rest.saturating_sub(leap_days) / 365;
    let gone = (year * 365 + year / 4).saturating_sub(year / 100);
    let day_of_year = rest.saturating_sub(gone);
    let place = (day_of_year * 5 + 2) / 153;
    let day = (day_of_year + 1).saturating_sub((place * 153 + 2) / 5);
    let turned = place >= 10;
    let month = if turned { place - 9 } else { place + 3 };
    let year = cycles * 400 + year;
    (if turned { year + 1 } else { year }, month, day)
}

/// Adds the date and the time that come so many seconds behind the beginning of 1970; the number itself before 1970 and behind the year 9999.
pub fn push_date<A: Allocator>(out: &mut String<A>, seconds: i64) -> Result<(), AllocError> {
    match u64::try_from(seconds) {
        Ok(passed) if passed < LAST => {
            let (year, month, day) = calendar(passed / DAY);
            let time = passed % DAY;
            let (hour, minute, second) = (time / 3_600, time / 60 % 60, time % 60);
            write!(
                out,
                "{year:04}-{month:02}-{day:02}T{hour:02}:{minute:02}:{second:02}Z"
            )
        }
        _ => write!(out, "{seconds}"),
    }
}
