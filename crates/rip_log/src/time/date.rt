//! Dates of the calendar by their days since 1970-01-01.

ghost use Rattle.std.specs.Prelude.{◌≡◌, ◌≤◌, MatchOption};
ghost use Rattle.rip_log.specs.Calendar as calendar;

use jiff_core::civil::{Date, days_in_month};

/// The days from 1970-01-01 to 9999-12-31.
pub const MOST_DAYS: u32 = 2_932_896;

/// The days from -9999-01-01, from which `jiff_core` counts, to 1970-01-01.
const EARLIER_DAYS: u32 = 4_371_587;

/// The year, the month and the day of the date so many days after 1970-01-01.
pub fn date_after(days: u32) -> (u16, u8, u8)
    requires { days ≤ MOST_DAYS }
    ensures date { calendar.IsDate result.0 result.1 result.2 }
    ensures days { calendar.days_before result.0 result.1 result.2 ≡ days }
{
    let date = Date::from_days_since_min(days + EARLIER_DAYS);
    (date.year as u16, date.month, date.day)
}

/// How many days after 1970-01-01 a date comes, if the calendar has it.
pub fn days_before(year: u16, month: u8, day: u8) -> Option<u32>
    ensures { MatchOption result (¬ (calendar.IsDate year month day))
        (λ days. calendar.IsDate year month day × (days ≤ MOST_DAYS)
        × (days ≡ calendar.days_before year month day)) }
{
    if year < 1970 || year > 9999 || month < 1 || month > 12 {
        return None;
    }
    let year = year as i16;
    if day < 1 || day > days_in_month(year, month) {
        return None;
    }
    Some(Date { year, month, day }.days_since_min() - EARLIER_DAYS)
}
