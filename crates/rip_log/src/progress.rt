//! How far the lines of a text were read.

ghost use Rattle.std.specs.Prelude.{◌≡◌, ◌+◌, ◌≤◌, true, false};
ghost use Rattle.rip_log.specs.declared.limits.TheConstants.{MOST_LINES};

use crate::error::{LogCode, LogError};
use crate::limits::MOST_LINES;

/// How many lines are behind, and whether an error was answered.
#[derive(Clone, Copy)]
pub struct Progress {
    pub lines: u32,
    pub is_stopped: bool,
    ghost few: { lines ≤ MOST_LINES },
}

impl Progress {
    /// The front of a text.
    pub fn front() -> Progress
        ensures { (result.lines ≡ 0) × (result.is_stopped ≡ false) }
    {
        Progress {
            lines: 0,
            is_stopped: false,
        }
    }

    /// The error at the line that is being read. From now on there are no more lines.
    pub fn stop(&mut self, code: LogCode) -> LogError
        ensures lines { self.new.lines ≡ self.old.lines }
        ensures stopped { self.new.is_stopped ≡ true }
        ensures error { result ≡ record { code = code; line = self.old.lines + 1 } }
    {
        self.is_stopped = true;
        LogError {
            code,
            line: self.lines + 1,
        }
    }
}
