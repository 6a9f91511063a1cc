//! Which packets of a capture file are its link's.

ghost use Rattle.std.specs.Prelude.{◌≡◌, ◌≤◌, ℕ, Decides, Option, length};
ghost use Rattle.rip_capture.specs.Carries.{LiesWithin};
ghost use Rattle.rip_capture.specs.NextCall.{frame_of};
ghost use Rattle.rip_capture.specs.Origins.{origin_in};
ghost use Rattle.rip_capture.specs.Pcap.{Frame};
ghost use Rattle.rip_capture.specs.declared.limits.TheConstants.{MOST_CAPTURED};
ghost use Rattle.rip_report.specs.CapturePackets.{KeepsFirst};
ghost use Rattle.rip_report.specs.CaptureText.{LogLiesWithin};
ghost use Rattle.rip_report.specs.Selections.{ComesFrom, IsLogged, OfInterface, OfVlans, Passes, first_with, selection_of, sender_of};

use crate::captures::logged::Logged;
use crate::captures::part::Selection;
use rip_capture::laws::one_origin;
use rip_capture::{Carried, FirstOrigin, Packet, are_vlans};
use rip_wire::Address;

/// The sender of a datagram to 224.0.0.9.
fn sender_of(carried: &Carried) -> Option<Address>
    ensures { result ≡ sender_of carried.now }
{
    match carried {
        Carried::Datagram(sender, _)
        | Carried::Cut(sender)
        | Carried::Fragment(sender)
        | Carried::Malformed(sender)
        | Carried::Long(sender) => Some(*sender),
        Carried::Unknown | Carried::Elsewhere | Carried::Others => None,
    }
}

/// Whether a packet came by the interface of this name, where one is given.
fn is_of_interface(packet: &Packet<'_>, name: &[u8]) -> bool
    ensures { Decides result (OfInterface name.now (frame_of packet.now)) }
{
    name.is_empty() || packet.interface.has_name(name)
}

/// Whether a packet has just these VLANs, where there are any.
fn is_of_vlans(packet: &Packet<'_>, vlans: &[u16]) -> bool
    ensures { Decides result (OfVlans vlans.now (frame_of packet.now)) }
{
    vlans.is_empty() || are_vlans(packet.link_type, packet.bytes, vlans)
}

/// Whether a packet passes a selection. If it is cut before its sender, its tags
/// may not be there.
fn passes(selection: &Selection<'_>, packet: &Packet<'_>, carried: &Carried) -> bool
    ensures { Decides result
        (Passes (selection_of selection.now) (frame_of packet.now) carried.now) }
{
    is_of_interface(packet, selection.interface)
        && (matches!(carried, Carried::Unknown) || is_of_vlans(packet, selection.vlans))
}

/// Whether a packet comes from where the first one came, if its sender is known.
fn comes_from(first: &mut FirstOrigin, packet: &Packet<'_>, carried: &Carried) -> bool
    requires { length packet.now.bytes.now ≤ MOST_CAPTURED }
    ensures { (seen : Option Frame) → KeepsFirst seen (origin_in first.old) →
        Decides result (ComesFrom seen (frame_of packet.now) carried.now)
        × KeepsFirst (first_with seen (frame_of packet.now) (Logged.As carried.now))
        (origin_in first.new) }
{
    one_origin();
    sender_of(carried).is_none() || first.admits(packet)
}

/// What a log has of a packet, after the first one that passed the selection and whose sender is
/// known.
pub(crate) fn logged(
    selection: &Selection<'_>,
    first: &mut FirstOrigin,
    packet: &Packet<'_>,
    carried: Carried,
) -> Logged
    requires { length packet.now.bytes.now ≤ MOST_CAPTURED }
    ensures logged { (seen : Option Frame) → KeepsFirst seen (origin_in first.old) →
        IsLogged (selection_of selection.now) seen (frame_of packet.now) carried result
        × KeepsFirst (first_with seen (frame_of packet.now) result) (origin_in first.new) }
    ensures lies { (size : ℕ) → LiesWithin size carried → LogLiesWithin size result }
{
    if !passes(selection, packet, &carried) {
        return Logged::As(Carried::Others);
    }
    if comes_from(first, packet, &carried) {
        return Logged::As(carried);
    }
    match sender_of(&carried) {
        Some(sender) => Logged::Mixed(sender),
        None => Logged::As(carried),
    }
}
