//! Why bytes are no datagram.

/// What is wrong with the bytes, in the numbering that is printed.
#[derive(Clone, Copy, Debug, PartialEq, Eq)]
pub enum WireCode {
    /// Fewer than four bytes; told with their number.
    Short = 1,
    /// The command is neither 1 nor 2; told at 0.
    Command,
    /// The version is not 2; told at 1.
    Version,
    /// The two bytes after the version are not both zero; told at 2.
    Zero,
    /// The length after the header is no multiple of 20; told with the number of bytes.
    Ragged,
    /// A response without entries; told at 4.
    Empty,
    /// More than 504 bytes; told at 504.
    TooMany,
    /// Address family 0xFFFF, which marks authentication (RFC 2453, section 4.1); told at the
    /// family.
    Authentication,
    /// An address family other than 2; told at the family.
    Family,
    /// The mask's ones are not contiguous from the top; told at the mask.
    Mask,
    /// A mask of zero with an address that is not zero; told at the mask.
    NoMask,
    /// The address has a bit outside the mask; told at the address.
    HostBits,
    /// A metric below 1 or above 16; told at the metric.
    Metric,
}

/// The first fault of a datagram, and the offset of the byte where it stands.
#[derive(Clone, Copy, Debug, PartialEq, Eq)]
pub struct WireError {
    /// What is wrong.
    pub code: WireCode,
    /// Where it stands.
    pub at: usize,
}
