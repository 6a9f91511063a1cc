//! What a frame holds behind its link's header.

ghost use Rattle.std.specs.Prelude.{◌≡◌, ◌+◌, ◌≤◌, length};
ghost use Rattle.rip_capture.specs.Frames.{BeginsWithin, Holds, HoldsLoop, HoldsTyped, header_of, is_tag};

use crate::link::LinkType;
use crate::numbers::{Order, number_in, u16_at};

/// What stands in front of a frame's packet.
#[derive(Clone, Copy)]
pub enum LinkHeader {
    /// A type at an offset, where what it names begins at the other one.
    Typed(usize, usize),
    /// The number of a loopback.
    Loop,
    /// Nothing, in front of IPv4.
    Nothing,
}

/// What a frame holds.
#[derive(Clone, Copy)]
pub enum Network {
    /// An IPv4 packet, from an offset on, where there may be nothing.
    Ip(usize),
    /// A header or a tag that is not there whole.
    Short,
    /// Something else.
    Other,
}

/// Ethernet's type of IPv4.
pub(crate) const IPV4: u16 = 0x0800;

/// The number of IPv4 in front of a loopback's packets.
pub(crate) const LOOP_IPV4: u32 = 2;

/// The bytes of a loopback's header.
pub(crate) const LOOP_HEADER: usize = 4;

/// The bytes of a tag and of the type behind it.
pub(crate) const TAG: usize = 4;

/// Whether the type is that of a tag.
pub(crate) fn is_tag(kind: u16) -> bool
    ensures { result ≡ is_tag kind }
{
    kind == 0x8100 || kind == 0x88A8 || kind == 0x9100
}

/// What a frame holds whose header has so many bytes, and its type at a place.
fn read_typed(frame: &[u8], place: usize, header: usize) -> Network
    requires { place + 2 ≤ header }
    ensures holds { HoldsTyped frame.now place header result }
    ensures within { BeginsWithin (length frame.now) result }
{
    if frame.len() < header {
        return Network::Short;
    }
    let mut at = place;
    let mut from = header;
    'tags: while is_tag(u16_at(frame, at)) {
        if frame.len() - from < TAG {
            return Network::Short;
        }
        at = from + 2;
        from += TAG;
    }
    if u16_at(frame, at) == IPV4 {
        Network::Ip(from)
    } else {
        Network::Other
    }
}

/// What a frame of a loopback holds.
fn read_loop(frame: &[u8]) -> Network
    ensures holds { HoldsLoop frame.now result }
    ensures within { BeginsWithin (length frame.now) result }
{
    if frame.len() < LOOP_HEADER {
        return Network::Short;
    }
    let big = number_in(Order::Big, frame, 0);
    let little = number_in(Order::Little, frame, 0);
    if big == LOOP_IPV4 || little == LOOP_IPV4 {
        Network::Ip(LOOP_HEADER)
    } else {
        Network::Other
    }
}

/// What stands in front of the packet in frames of a link type.
pub(crate) fn header_of(link_type: LinkType) -> LinkHeader
    ensures { result ≡ header_of link_type }
{
    match link_type {
        LinkType::Ethernet => LinkHeader::Typed(12, 14),
        LinkType::LinuxSll => LinkHeader::Typed(14, 16),
        LinkType::LinuxSll2 => LinkHeader::Typed(0, 20),
        LinkType::Null | LinkType::Loop => LinkHeader::Loop,
        LinkType::Raw | LinkType::Ipv4 => LinkHeader::Nothing,
    }
}

/// What a frame of a link type holds.
pub(crate) fn network_of(link_type: LinkType, frame: &[u8]) -> Network
    ensures holds { Holds link_type frame.now result }
    ensures within { BeginsWithin (length frame.now) result }
{
    match header_of(link_type) {
        LinkHeader::Typed(place, header) => read_typed(frame, place, header),
        LinkHeader::Loop => read_loop(frame),
        LinkHeader::Nothing => Network::Ip(0),
    }
}
