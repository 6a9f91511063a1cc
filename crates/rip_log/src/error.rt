//! What is wrong with a log.

ghost use Rattle.std.specs.Prelude.{◌≡◌};

use rip_wire::WireError;

/// Why there is no next record, in the numbering that is printed, from 1 on.
#[derive(Clone, Copy, Debug, PartialEq, Eq)]
pub enum LogCode {
    /// The line has more than 2,048 bytes.
    LongLine,
    /// The line does not have three fields.
    Fields,
    /// The first field does not have the form of a name.
    LinkName,
    /// The second field is no address.
    Sender,
    /// The third field has an odd number of digits, or a byte that is no digit.
    Hex,
    /// The third field has more than 1,008 digits.
    LongDatagram,
    /// The bytes are no datagram.
    Wire(WireError),
    /// The line comes after 1,000,000 others.
    TooManyLines,
    /// The source failed while the line was read.
    Read,
    /// An error was answered before.
    Ended,
    /// Memory for the reader was refused.
    Memory,
}

/// Why a line is bad that is not too long.
#[derive(Clone, Copy)]
pub enum LineFault {
    Fields,
    LinkName,
    Sender,
    Hex,
    LongDatagram,
    Wire(WireError),
}

impl LineFault {
    ghost use Rattle.rip_log.specs.Codes.{code_of};

    /// Its code.
    pub fn code(self) -> LogCode
        ensures { result ≡ code_of self }
    {
        match self {
            LineFault::Fields => LogCode::Fields,
            LineFault::LinkName => LogCode::LinkName,
            LineFault::Sender => LogCode::Sender,
            LineFault::Hex => LogCode::Hex,
            LineFault::LongDatagram => LogCode::LongDatagram,
            LineFault::Wire(error) => LogCode::Wire(error),
        }
    }
}

/// Why there is no next record, and the number of the line concerned, or 0 where none is.
#[derive(Clone, Copy, Debug, PartialEq, Eq)]
pub struct LogError {
    /// What is wrong.
    pub code: LogCode,
    /// The number of the line, from 1 on.
    pub line: u32,
}
