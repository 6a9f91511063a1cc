//! How the reading of a capture file ends.

use crate::captures::tally::Tally;
use rip_capture::CaptureCode;

/// Why a file is refused, in the numbering that is printed.
#[derive(Clone, Copy)]
pub(crate) enum RefusalCode {
    /// A fault of the file.
    Capture(CaptureCode),
    /// The log would have too many lines.
    TooManyLines,
    /// A packet that has a line has no time that can be written.
    Time,
}

/// How the reading of a file ends.
#[derive(Clone, Copy)]
pub(crate) enum Ending {
    /// At its end; this is what its packets came to.
    Whole(Tally),
    /// At a place from which on it is refused.
    Refused { code: RefusalCode, at: u64 },
    /// The source has failed.
    Unread,
    /// The sink has failed.
    Unwritten,
}
