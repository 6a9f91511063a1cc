//! What was written so far of a log of capture files.

ghost use Rattle.std.specs.Prelude.{◌≡◌, ◌≤◌, [], Ok};
ghost use Rattle.rip_log.specs.declared.limits.TheConstants.{MOST_LINES};

use crate::captures::manner::Manner;
use crate::status::Status;
use rip_log::laws::log_texts;

/// A log of capture files, as far as it was written: how it is written, how many files and lines it
/// has, and its status, Unclear where a datagram is not there whole, or is mixed in.
#[derive(Clone, Copy, Debug)]
pub struct CaptureLog {
    pub(super) manner: Manner,
    pub(super) files: u32,
    pub(super) lines: u32,
    pub(super) status: Status,
    ghost few: { lines ≤ MOST_LINES },
    ghost one_each: { files ≤ lines },
}

impl CaptureLog {
    ghost use Rattle.rip_report.specs.CaptureLogs.{IsLogOf, SaysFiles, manner_of, status_of};

    /// A log of no file.
    pub fn new(manner: Manner) -> CaptureLog
        ensures empty { IsLogOf result [] [] }
        ensures says { SaysFiles manner [] [] (Ok (status_of result)) }
        ensures manner { manner_of result ≡ manner }
    {
        log_texts();
        CaptureLog {
            manner,
            files: 0,
            lines: 0,
            status: Status::Done,
        }
    }

    /// Done where each datagram in the files is there whole and none is mixed in, else Unclear.
    pub fn status(&self) -> Status
        ensures { result ≡ status_of self.now }
    {
        self.status
    }
}
