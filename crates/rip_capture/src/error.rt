//! What is wrong with a capture file.

/// Why there is no next packet, in the numbering that is printed, from 1 on.
#[derive(Clone, Copy, Debug, PartialEq, Eq)]
pub enum CaptureCode {
    /// The first four bytes are those of no capture file.
    Magic,
    /// The file ends within one of its parts.
    Cut,
    /// The version is none that is read.
    Version,
    /// The link type is none that is read.
    LinkType,
    /// A length cannot be, or is greater than is read.
    Length,
    /// The interface of a packet was not described.
    Interface,
    /// The packet stands in a form that is out of use.
    OldPacket,
    /// The source failed.
    Read,
}

/// Why there is no next packet, and where in the file the part begins that is wrong.
#[derive(Clone, Copy, Debug, PartialEq, Eq)]
pub struct CaptureError {
    /// What is wrong.
    pub code: CaptureCode,
    /// The offset, in bytes.
    pub at: u64,
}
