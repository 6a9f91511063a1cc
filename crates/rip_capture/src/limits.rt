//! The numbers of RIP over IPv4, the sizes of headers, and the limits of what is read.

/// The number of 224.0.0.9, to which routers send (RFC 2453, section 4.5).
pub const GROUP: u32 = 0xE000_0009;

/// The UDP port of RIP (RFC 2453, section 3.9).
pub const PORT: u16 = 520;

/// IPv4's number of UDP (RFC 768).
pub(crate) const UDP: u8 = 17;

/// The bytes of an IPv4 header without options (RFC 791, section 3.1).
pub(crate) const IP_HEADER: usize = 20;

/// The bytes of a UDP header (RFC 768).
pub(crate) const UDP_HEADER: usize = 8;

/// The most bytes of a datagram: their digits have room in a line of a log.
pub const MOST_PAYLOAD: usize = 999;

/// The bytes that tell what kind of file it is.
pub(crate) const MAGIC_LEN: usize = 4;

/// The bytes in front of the records of a pcap file (draft-ietf-opsawg-pcap, section 4).
pub(crate) const FILE_HEADER: usize = 24;

/// The bytes in front of a packet in its record: the time and two lengths (draft-ietf-opsawg-pcap,
/// section 5).
pub(crate) const RECORD_HEADER: usize = 16;

/// The most bytes of a packet that a file may have.
pub const MOST_CAPTURED: usize = 262_144;

/// The most VLANs of a packet: each has a tag of four bytes.
pub(crate) const MOST_VLANS: usize = MOST_CAPTURED / 4;

/// The number in front of a block that begins a section, the same in either byte order
/// (draft-ietf-opsawg-pcapng, section 4.1).
pub(crate) const SECTION: u32 = 0x0A0D_0D0A;

/// The bytes of a block that tell its kind and its length.
pub(crate) const BLOCK_FRONT: usize = 8;

/// The bytes of a section's block that tell its length, and the byte order.
pub(crate) const SECTION_FRONT: usize = 12;

/// The most bytes of a block that is read.
pub(crate) const MOST_BLOCK: usize = 524_288;

/// The most bytes of the name of an interface: one that is longer is none.
pub const MOST_NAME: usize = 64;

/// The unit of times of an interface that says none: a millionth of a second.
pub(crate) const MILLIONTHS: u8 = 6;

/// The unit of times of a pcap file whose magic says so: a billionth of a second.
pub(crate) const BILLIONTHS: u8 = 9;

/// The most interfaces of a section.
pub(crate) const MOST_INTERFACES: usize = 256;
