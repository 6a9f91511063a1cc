//! Where captured packets come from.

ghost use Rattle.std.specs.Prelude.{◌≡◌, ◌≤◌, None, IfOk, length, true};
ghost use Rattle.rip_capture.specs.NextCall.{frame_of};
ghost use Rattle.rip_capture.specs.Origins.{Admits, header_number, origin_in};
ghost use Rattle.rip_capture.specs.declared.limits.TheConstants.{MOST_CAPTURED};

pub use crate::first::FirstOrigin;
use crate::interface::KeptInterface;
use crate::limits::MOST_VLANS;
use crate::link::LinkType;
use crate::numbers::u32_at;
use crate::reader::Packet;
use crate::vlans::{are_vlans, write_vlans};
use std::alloc::{AllocError, Global};

/// The number of the interface that the header of a frame names, where its link type has one.
fn header_number(link_type: LinkType, frame: &[u8]) -> Option<u32>
    ensures { result ≡ header_number link_type frame.now }
{
    match link_type {
        LinkType::LinuxSll2 => {
            if 8 <= frame.len() {
                Some(u32_at(frame, 4))
            } else {
                None
            }
        }
        _ => None,
    }
}

impl FirstOrigin {
    /// Nothing is known yet. It allocates room for the VLANs of a packet of any length.
    pub fn new(alloc: Global) -> Result<FirstOrigin, AllocError>
        ensures { IfOk result (λ first. origin_in first ≡ None) }
    {
        let vlans = vec![in alloc; 0u16; MOST_VLANS]?;
        Ok(FirstOrigin {
            known: false,
            interface: KeptInterface::Only,
            number: None,
            vlans,
            count: 0,
        })
    }

    /// Keeps where a packet comes from.
    fn keep(&mut self, packet: &Packet<'_>)
        requires { length packet.now.bytes.now ≤ MOST_CAPTURED }
        ensures { Admits (frame_of packet.now) None (origin_in self.new) true }
    {
        self.count = write_vlans(packet.link_type, packet.bytes, self.vlans.as_mut_slice());
        self.interface = KeptInterface::of(&packet.interface);
        self.number = header_number(packet.link_type, packet.bytes);
        self.known = true;
    }

    /// Whether a packet comes from where the first one came from that was asked of. The first one
    /// does.
    pub fn admits(&mut self, packet: &Packet<'_>) -> bool
        requires { length packet.now.bytes.now ≤ MOST_CAPTURED }
        ensures { Admits (frame_of packet.now) (origin_in self.old) (origin_in self.new) result }
    {
        if !self.known {
            self.keep(packet);
            return true;
        }
        self.interface.is(&packet.interface)
            && self.number == header_number(packet.link_type, packet.bytes)
            && are_vlans(packet.link_type, packet.bytes, &self.vlans[..self.count])
    }
}
