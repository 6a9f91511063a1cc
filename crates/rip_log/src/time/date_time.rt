//! A date and a time of day, by its numbers.

ghost use Rattle.std.specs.Prelude.{◌≡◌, ◌<◌, ◌≤◌, ◌+◌, ◌*◌, ◌/◌, ◌%◌, length, MatchOption};
ghost use Rattle.rip_log.specs.Times as times;

use super::date::{date_after, days_before};
use crate::limits::MOST_MICROS;

/// The numbers of a date and a time of day in UTC, whatever they are.
#[derive(Clone, Copy)]
pub struct DateTime {
    pub year: u16,
    pub month: u8,
    pub day: u8,
    pub hour: u8,
    pub minute: u8,
    pub second: u8,
    pub micro: u32,
}

/// The two digits of a number below 100.
fn two_digits(number: u8) -> [u8; 2]
    requires { number < 100 }
    ensures { result ≡ times.two_digits number }
{
    [b'0' + number / 10, b'0' + number % 10]
}

/// The millionths of a second: `.394151`.
fn fraction_text(micro: u32) -> [u8; 7]
    requires { micro < 1_000_000 }
    ensures { result ≡ times.fraction_text micro }
{
    let first = two_digits((micro / 10_000) as u8);
    let middle = two_digits((micro / 100 % 100) as u8);
    let last = two_digits((micro % 100) as u8);
    [
        b'.', first[0], first[1], middle[0], middle[1], last[0], last[1],
    ]
}

/// The number that two digits spell; of other bytes it is any number.
fn number_of(tens: u8, ones: u8) -> u8
    ensures value { result ≡ tens % 16 * 10 + ones % 16 }
    ensures bound { result < 166 }
{
    tens % 16 * 10 + ones % 16
}

impl DateTime {
    ghost use Rattle.rip_log.specs.Times.{IsDateTime, micros_of, second_text, time_text};

    /// The time so many micros after 1970-01-01T00:00:00Z.
    pub fn after(micros: u64) -> DateTime
        requires { micros ≤ MOST_MICROS }
        ensures exists { IsDateTime result }
        ensures counted { micros_of result ≡ micros }
    {
        let seconds = micros / 1_000_000;
        let (year, month, day) = date_after((seconds / 86_400) as u32);
        let of_day = (seconds % 86_400) as u32;
        DateTime {
            year,
            month,
            day,
            hour: (of_day / 3600) as u8,
            minute: (of_day / 60 % 60) as u8,
            second: (of_day % 60) as u8,
            micro: (micros % 1_000_000) as u32,
        }
    }

    /// How many micros after 1970-01-01T00:00:00Z it comes, if the calendar has the date and the clock
    /// the time of day.
    pub fn micros(self) -> Option<u64>
        ensures { MatchOption result (¬ (IsDateTime self))
            (λ micros. IsDateTime self × (micros ≤ MOST_MICROS) × (micros ≡ micros_of self)) }
    {
        if self.hour > 23 || self.minute > 59 || self.second > 59 || self.micro > 999_999 {
            return None;
        }
        let days = days_before(self.year, self.month, self.day)? as u64;
        let of_day = self.hour as u64 * 3600 + self.minute as u64 * 60 + self.second as u64;
        Some((days * 86_400 + of_day) * 1_000_000 + self.micro as u64)
    }

    /// Its text without the fraction: `2026-11-27T01:16:20Z`.
    pub fn second_text(self) -> [u8; 20]
        requires { IsDateTime self }
        ensures { result ≡ second_text self }
    {
        let century = two_digits((self.year / 100) as u8);
        let year = two_digits((self.year % 100) as u8);
        let month = two_digits(self.month);
        let day = two_digits(self.day);
        let hour = two_digits(self.hour);
        let minute = two_digits(self.minute);
        let second = two_digits(self.second);
        [
            century[0], century[1], year[0], year[1], b'-', month[0], month[1], b'-', day[0],
            day[1], b'T', hour[0], hour[1], b':', minute[0], minute[1], b':', second[0], second[1],
            b'Z',
        ]
    }

    /// Its text: `2026-11-27T01:16:20.394151Z`.
    pub fn time_text(self) -> [u8; 27]
        requires { IsDateTime self }
        ensures { result ≡ time_text self }
    {
        let mut text = [b'Z'; 27];
        text[..20].copy_from_slice(&self.second_text());
        // The fraction comes before the Z.
        text[19..26].copy_from_slice(&fraction_text(self.micro));
        text
    }

    /// The numbers at the places of a text where digits would stand: those of its time, if it is the
    /// text of one.
    pub fn shown_in(text: &[u8]) -> DateTime
        requires { length text.now ≡ 27 }
        ensures { (t : DateTime) → IsDateTime t → time_text t ≡ text.now → result ≡ t }
    {
        let century = number_of(text[0], text[1]) as u16;
        let first = number_of(text[20], text[21]) as u32;
        let middle = number_of(text[22], text[23]) as u32;
        DateTime {
            year: century * 100 + number_of(text[2], text[3]) as u16,
            month: number_of(text[5], text[6]),
            day: number_of(text[8], text[9]),
            hour: number_of(text[11], text[12]),
            minute: number_of(text[14], text[15]),
            second: number_of(text[17], text[18]),
            micro: first * 10_000 + middle * 100 + number_of(text[24], text[25]) as u32,
        }
    }
}
