//! The sizes of a datagram (RFC 2453, section 3.6).

/// The bytes of the header: the command, the version and two zero bytes.
pub const HEADER_LEN: usize = 4;

/// The bytes of an entry.
pub const ENTRY_LEN: usize = 20;

/// The most entries of a datagram.
pub const MOST_ENTRIES: usize = 25;

/// The most bytes of a datagram: a header, and the most entries.
pub const MOST_BYTES: usize = HEADER_LEN + ENTRY_LEN * MOST_ENTRIES;
