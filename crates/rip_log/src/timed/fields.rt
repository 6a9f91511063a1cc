//! The fields of a line with a time.

ghost use Rattle.rip_log.specs.TimedParts.{IsEarlySplit, IsSplitTimed};

use crate::fields::{is_field, skip_blanks, skip_field, three_from};
use crate::span::Span;
use crate::time::read_time;

/// The fields of a line with a time: the time in micros, and where the others lie.
#[derive(Clone, Copy)]
pub enum TimedFields {
    /// Blanks alone, or a comment.
    Nothing,
    /// Others than a time and three more.
    Others,
    Four(u64, Span, Span, Span),
}

/// The fields of a line.
pub fn split_timed(line: &[u8]) -> TimedFields
    ensures splits { IsSplitTimed line.now result }
    ensures early { IsEarlySplit result }
{
    let from = skip_blanks(line, 0);
    if from == line.len() || line[from] == b'#' {
        return TimedFields::Nothing;
    }
    let to = skip_field(line, from);
    let Some(micros) = read_time(&line[from..to]) else {
        return TimedFields::Others;
    };
    let Some((link, sender, digits)) = three_from(line, to) else {
        return TimedFields::Others;
    };
    if is_field(&line[digits.from..digits.to]) {
        TimedFields::Four(micros, link, sender, digits)
    } else {
        TimedFields::Others
    }
}
