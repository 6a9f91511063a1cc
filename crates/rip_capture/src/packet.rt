//! What a captured packet carries.

ghost use Rattle.std.specs.Prelude.{◌+◌, ◌≤◌, length};
ghost use Rattle.rip_capture.specs.Carries.{Carries, LiesWithin};
ghost use Rattle.rip_capture.specs.Packets.{IpCarries, IsToGroup};

use crate::frame::{Network, network_of};
use crate::limits::{GROUP, IP_HEADER, MOST_PAYLOAD, PORT, UDP, UDP_HEADER};
use crate::link::LinkType;
use crate::numbers::{u16_at, u32_at};
use rip_log::Span;
use rip_wire::Address;

/// What a captured packet is to a log: a RIP datagram to 224.0.0.9, of which the sender is told,
/// whole or why not; or nothing of the kind.
#[derive(Clone, Copy, Debug, PartialEq, Eq)]
pub enum Carried {
    /// The datagram of a sender, and where it lies in the frame.
    Datagram(Address, Span),
    /// A datagram of which the capture lacks the end.
    Cut(Address),
    /// A fragment of an IPv4 packet (RFC 791, section 3.2).
    Fragment(Address),
    /// A datagram whose lengths do not fit each other.
    Malformed(Address),
    /// A datagram of more than 999 bytes.
    Long(Address),
    /// The capture lacks the headers that would tell.
    Unknown,
    /// A datagram to another address, or from another port than 520: routers pass over such a
    /// response (RFC 2453, section 3.9.2).
    Elsewhere,
    /// Anything else.
    Others,
}

/// What an IPv4 packet of UDP to the group carries, which begins at a place in its frame.
fn read_to_group(packet: &[u8], place: usize) -> Carried
    requires room { place + length packet.now ≤ usize.MAX }
    requires to_group { IsToGroup packet.now }
    ensures carries { IpCarries place packet.now result }
    ensures lies { LiesWithin (place + length packet.now) result }
{
    let udp = 4 * usize::from(packet[0] % 16);
    let fragment = u16_at(packet, 6);
    let sender = Address::new(u32_at(packet, 12));
    if fragment % 8192 != 0 {
        return Carried::Fragment(sender);
    }
    if packet.len() < udp + UDP_HEADER {
        return Carried::Cut(sender);
    }
    if u16_at(packet, udp + 2) != PORT {
        return Carried::Others;
    }
    if u16_at(packet, udp) != PORT {
        return Carried::Elsewhere;
    }
    if fragment / 8192 % 2 == 1 {
        return Carried::Fragment(sender);
    }
    let size = usize::from(u16_at(packet, udp + 4));
    if size < UDP_HEADER || udp + size > usize::from(u16_at(packet, 2)) {
        return Carried::Malformed(sender);
    }
    if udp + size > packet.len() {
        return Carried::Cut(sender);
    }
    if size > UDP_HEADER + MOST_PAYLOAD {
        return Carried::Long(sender);
    }
    let span = Span {
        from: place + udp + UDP_HEADER,
        to: place + udp + size,
    };
    Carried::Datagram(sender, span)
}

/// What the network's bytes of a frame carry, which begin at a place in it.
fn read_packet(packet: &[u8], place: usize) -> Carried
    requires { place + length packet.now ≤ usize.MAX }
    ensures carries { IpCarries place packet.now result }
    ensures lies { LiesWithin (place + length packet.now) result }
{
    if packet.is_empty() {
        return Carried::Unknown;
    }
    if packet[0] / 16 != 4 || packet[0] % 16 < 5 {
        return Carried::Others;
    }
    if packet.len() < IP_HEADER {
        return Carried::Unknown;
    }
    if packet[9] != UDP {
        return Carried::Others;
    }
    if u32_at(packet, 16) == GROUP {
        return read_to_group(packet, place);
    }
    let udp = 4 * usize::from(packet[0] % 16);
    let first = u16_at(packet, 6) % 8192 == 0;
    if first && udp + 4 <= packet.len() && u16_at(packet, udp + 2) == PORT {
        Carried::Elsewhere
    } else {
        Carried::Others
    }
}

/// What a frame of a link type carries. Lengths are those of the IPv4 and UDP headers (RFC 791, RFC
/// 768), so padding behind them is left out; checksums and the TTL are not looked at.
pub fn read_frame(link_type: LinkType, frame: &[u8]) -> Carried
    ensures carries { Carries link_type frame.now result }
    // A datagram lies in the frame, and has at most 999 bytes.
    ensures lies { LiesWithin (length frame.now) result }
{
    match network_of(link_type, frame) {
        Network::Ip(from) => read_packet(&frame[from..], from),
        Network::Short => Carried::Unknown,
        Network::Other => Carried::Others,
    }
}
