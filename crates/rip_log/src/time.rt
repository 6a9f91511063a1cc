//! Times in text, as ISO 8601 writes them in UTC: `2026-11-27T01:16:20.394151Z`.

mod date;
mod date_time;

ghost use Rattle.std.specs.Prelude.{◌≡◌, ◌↔◌, ◌≤◌, ℕ, Some, IfSome};
ghost use Rattle.rip_log.specs.Times.{IsSecondText, IsTimeText};

use crate::limits::{MOST_MICROS, MOST_SECONDS};
use date_time::DateTime;

/// The text of the time so many micros, millionths of a second, after 1970-01-01T00:00:00Z, where
/// each day has 86,400 seconds. The year has four digits, 1970 to 9999, and the fraction six.
pub fn write_time(micros: u64) -> [u8; 27]
    requires { micros ≤ MOST_MICROS }
    ensures { IsTimeText micros result }
{
    DateTime::after(micros).time_text()
}

/// The text of the second so many seconds after 1970-01-01T00:00:00Z, without a fraction:
/// `2026-11-27T01:16:20Z`.
pub fn write_second(second: u64) -> [u8; 20]
    requires { second ≤ MOST_SECONDS }
    ensures { IsSecondText second result }
{
    DateTime::after(second * 1_000_000).second_text()
}

/// The micros of the time whose text this is, byte for byte as `write_time` writes it. None for
/// every other text: of a date that the calendar does not have, of an hour 24, a minute 60 or a
/// second 60, with more or fewer digits, with `t`, `z` or another offset than `Z`.
pub fn read_time(text: &[u8]) -> Option<u64>
    ensures exact { (micros : ℕ) → (result ≡ Some micros) ↔ IsTimeText micros text.now }
    ensures bound { IfSome result (λ micros. micros ≤ MOST_MICROS) }
{
    if text.len() != 27 {
        return None;
    }
    let shown = DateTime::shown_in(text);
    let micros = shown.micros()?;
    if text != shown.time_text().as_slice() {
        return None;
    }
    Some(micros)
}
