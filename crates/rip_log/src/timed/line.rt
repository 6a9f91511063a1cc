//! What one line with a time says.

ghost use Rattle.std.specs.Prelude.{◌≤◌, length};
ghost use Rattle.rip_log.specs.TimedParts.{AreTimedParts, IsEarlyJudged, timed_said};
ghost use Rattle.rip_log.specs.TimedText.{IsTimedLine};

use crate::error::LineFault;
use crate::limits::MOST_LINE_BYTES;
use crate::line::{Parts, judge_fields, without_return};
use crate::timed::fields::{TimedFields, split_timed};
use rip_wire::{MOST_BYTES, laws};

/// What was found of a line: its time in micros, and the parts of its record, or why it is bad.
#[derive(Clone, Copy)]
pub enum Judged {
    /// It says nothing.
    Skipped,
    /// It is bad by its fields, and has no time.
    Untimed,
    Record(u64, Parts),
    Bad(u64, LineFault),
}

/// Judges a line of at most 2,048 bytes, and writes its datagram to the room.
pub fn judge_timed(line: &[u8], room: &mut [u8; MOST_BYTES]) -> Judged
    requires { length line.now ≤ MOST_LINE_BYTES }
    ensures says { IsTimedLine line.now (timed_said line.now room.new result) }
    ensures parts { AreTimedParts line.now room.new result }
    ensures early { IsEarlyJudged result }
{
    laws::names();
    laws::address_texts();
    laws::first_faults();
    let bare = without_return(line);
    match split_timed(bare) {
        TimedFields::Nothing => Judged::Skipped,
        TimedFields::Others => Judged::Untimed,
        TimedFields::Four(micros, link, sender, digits) => {
            match judge_fields(bare, link, sender, digits, room) {
                Ok(parts) => Judged::Record(micros, parts),
                Err(fault) => Judged::Bad(micros, fault.why),
            }
        }
    }
}
