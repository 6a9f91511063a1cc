//! The time of a captured packet, as its file has it.

ghost use Rattle.std.specs.Prelude.{◌≡◌, ◌<◌, ◌^◌, ◌↔◌, ℕ, Some, IfSome};
ghost use Rattle.rip_capture.specs.Clocks.{IsAt, IsMicros, coarse, unit_of};

use rip_log::MOST_MICROS;

/// The digits of the finest decimal unit that is reckoned with: no time of 64 bits has a millionth
/// of a second in it.
const MOST_DIGITS: u8 = 38;

/// A point in time in the units of a capture file: ticks since 1970-01-01T00:00:00Z, and whole
/// seconds that are added to them.
#[derive(Clone, Copy, Debug, PartialEq, Eq)]
pub struct Time {
    /// How many units of time.
    pub ticks: u64,
    /// The unit, a part of a second: 10 to the minus this, where it is below 128; else 2 to the
    /// minus what it is above 128 (draft-ietf-opsawg-pcapng, section 4.2, if_tsresol).
    pub resolution: u8,
    /// The seconds that are added, a number with a sign in two's complement (if_tsoffset).
    pub offset: u64,
}

/// How many units a second has; or 10^38, where it has more.
fn units_in_second(resolution: u8) -> u128
    ensures { result ≡ unit_of (coarse resolution) }
{
    if resolution < 128 {
        10_u128.pow(u32::from(resolution.min(MOST_DIGITS)))
    } else {
        2_u128.pow(u32::from(resolution - 128))
    }
}

impl Time {
    /// The seconds since 1970 behind so many whole ones, by the offset; None before 1970.
    fn second(self, whole: u128) -> Option<u128>
        requires { whole < 2 ^ 64 }
        ensures exact { (second : ℕ) → (result ≡ Some second) ↔ IsAt self whole second }
        ensures bound { IfSome result (λ second. second < 2 ^ 65) }
    {
        if self.offset < 0x8000_0000_0000_0000 {
            Some(whole + u128::from(self.offset))
        } else {
            whole.checked_sub(0x1_0000_0000_0000_0000 - u128::from(self.offset))
        }
    }

    /// The micros, millionths of a second, since 1970-01-01T00:00:00Z: more digits are cut off. None
    /// before 1970, and behind the year 9999.
    pub fn micros(self) -> Option<u64>
        ensures { (micros : ℕ) → (result ≡ Some micros) ↔ IsMicros self micros }
    {
        let unit = units_in_second(self.resolution);
        let ticks = u128::from(self.ticks);
        let Some(second) = self.second(ticks / unit) else {
            return None;
        };
        let micros = second * 1_000_000 + ticks % unit * 1_000_000 / unit;
        if micros > u128::from(MOST_MICROS) {
            return None;
        }
        Some(micros as u64)
    }
}
