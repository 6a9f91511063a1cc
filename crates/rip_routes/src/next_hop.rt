//! Where a route sends a packet.

use rip_wire::Address;

/// Where a route sends a packet: to which neighbours.
#[derive(Clone, Copy, Debug, PartialEq, Eq, Hash)]
pub enum NextHop {
    /// To a neighbour on this link, by its number.
    Over(usize),
    /// To the neighbour that has this address.
    Via(Address),
}
