//! The VLANs of a frame (IEEE 802.1Q).

ghost use Rattle.std.specs.Prelude.{◌≡◌, ◌+◌, ◌*◌, ◌%◌, ◌≤◌, Decides, IfSome, length, take};
ghost use Rattle.rip_wire.specs.Fields.{number_at};
ghost use Rattle.rip_capture.specs.Frames.{header_of};
ghost use Rattle.rip_capture.specs.Vlans.{HasVlans, HasVlansAt, type_place};

use crate::frame::{LinkHeader, TAG, header_of, is_tag};
use crate::link::LinkType;
use crate::numbers::u16_at;

/// Where the type of a frame stands, and what it names begins, where its header is there whole and
/// has a type.
fn type_place(link_type: LinkType, frame: &[u8]) -> Option<(usize, usize)>
    ensures place { result ≡ type_place (header_of link_type) frame.now }
    ensures behind { IfSome result (λ at. at.0 + 2 ≤ at.1) }
{
    match header_of(link_type) {
        LinkHeader::Typed(place, header) if header <= frame.len() => Some((place, header)),
        _ => None,
    }
}

/// The number of the VLAN in a tag, behind its priority.
fn vlan_at(frame: &[u8], at: usize) -> u16
    requires { at + 2 ≤ length frame.now }
    ensures { result ≡ number_at 2 at frame.now % 4096 }
{
    u16_at(frame, at) % 4096
}

/// Whether the VLANs of the tags that begin where a type stands are these.
fn are_vlans_at(frame: &[u8], place: usize, header: usize, vlans: &[u16]) -> bool
    requires place { place + 2 ≤ header }
    requires header { header ≤ length frame.now }
    ensures { Decides result (HasVlansAt frame.now place header vlans.now) }
{
    let mut at = place;
    let mut from = header;
    let mut seen = 0;
    'tags: while is_tag(u16_at(frame, at)) {
        if frame.len() - from < TAG {
            return seen == vlans.len();
        }
        let vlan = vlan_at(frame, from);
        if vlan != 0 {
            if seen == vlans.len() || vlans[seen] != vlan {
                return false;
            }
            seen += 1;
        }
        at = from + 2;
        from += TAG;
    }
    seen == vlans.len()
}

/// Whether the VLANs of a frame's tags are these, outermost first. A tag of VLAN 0 has a priority
/// alone, and is none.
pub fn are_vlans(link_type: LinkType, frame: &[u8], vlans: &[u16]) -> bool
    ensures { Decides result (HasVlans link_type frame.now vlans.now) }
{
    match type_place(link_type, frame) {
        Some((place, header)) => are_vlans_at(frame, place, header, vlans),
        None => vlans.is_empty(),
    }
}

/// Writes the VLANs of the tags that begin where a type stands to the front of a slice, and tells
/// how many they are.
fn write_vlans_at(frame: &[u8], place: usize, header: usize, vlans: &mut [u16]) -> usize
    requires place { place + 2 ≤ header }
    requires header { header ≤ length frame.now }
    requires room { length frame.now ≤ 4 * length vlans.old }
    ensures few { result ≤ length vlans.new }
    ensures len { length vlans.new ≡ length vlans.old }
    ensures vlans { HasVlansAt frame.now place header (take result vlans.new) }
{
    let mut at = place;
    let mut from = header;
    let mut count = 0;
    'tags: while is_tag(u16_at(frame, at)) {
        if frame.len() - from < TAG {
            return count;
        }
        let number = vlan_at(frame, from);
        if number != 0 {
            vlans[count] = number;
            count += 1;
        }
        at = from + 2;
        from += TAG;
    }
    count
}

/// Writes the VLANs of a frame's tags, outermost first, to the front of a slice that has room for
/// one in each four bytes of the frame, and tells how many they are.
pub(crate) fn write_vlans(link_type: LinkType, frame: &[u8], vlans: &mut [u16]) -> usize
    requires { length frame.now ≤ 4 * length vlans.old }
    ensures few { result ≤ length vlans.new }
    ensures len { length vlans.new ≡ length vlans.old }
    ensures vlans { HasVlans link_type frame.now (take result vlans.new) }
{
    match type_place(link_type, frame) {
        Some((place, header)) => write_vlans_at(frame, place, header, vlans),
        None => 0,
    }
}
