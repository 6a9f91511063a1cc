//! The parts of a plan.

ghost use Rattle.std.specs.Prelude.{◌≡◌};
ghost use Rattle.rip_plan.specs.Seats as spec;

use rip_wire::{Address, Prefix};

/// A router's port on a link. Routers and links are numbered from 0 in the order of the plan.
#[derive(Clone, Copy, Debug, PartialEq, Eq)]
pub struct Interface {
    /// The number of its router.
    pub router: usize,
    /// The number of its link.
    pub link: usize,
    /// The interface's address on the link.
    pub address: Address,
    /// The cost of the link for the router, 1 to 15.
    pub cost: u8,
    /// The metric at which the router has the prefixes of the link, 1 to the cost.
    pub direct: u8,
    /// Whether the router shows 16 on the link for what it has over it (RFC 2453, section 3.4.3:
    /// split horizon with poisoned reverse); else it may leave that out there.
    pub poison: bool,
}

/// What the plan says of a router's own prefix.
#[derive(Clone, Copy, Debug, PartialEq, Eq)]
pub struct OwnPrefix {
    /// The number of the router.
    pub router: usize,
    /// The cost at which the router has the prefix, 1 to 15.
    pub cost: u8,
    /// Whether the plan says that the router never gives the prefix up for an offer.
    pub kept: bool,
    /// The link of the router to which the prefix is attached: a connected network of the interface
    /// there, beside the link's prefixes. The router keeps it, and does not tell of it on that
    /// link.
    pub link: Option<usize>,
    /// A gateway outside of the plan that the router may tell as next hop of the prefix.
    pub via: Option<Address>,
}

/// Where a prefix stands: on a link, or with a router as its own.
#[derive(Clone, Copy, Debug, PartialEq, Eq)]
pub enum Seat {
    /// On the link of this number.
    Link(usize),
    /// With a router, as its own.
    Own(OwnPrefix),
}

impl Seat {
    /// Whether the prefix is a router's own, which the router never gives up for an offer.
    pub(crate) fn is_kept(self) -> bool
        ensures { result ≡ spec.is_kept self }
    {
        match self {
            Seat::Link(_) => false,
            Seat::Own(own) => own.kept || own.link.is_some(),
        }
    }

    /// The link to which the prefix is attached, if it is.
    pub(crate) fn attached_link(self) -> Option<usize>
        ensures { result ≡ spec.link_of self }
    {
        match self {
            Seat::Link(_) => None,
            Seat::Own(own) => own.link,
        }
    }

    /// The gateway that the router may tell as next hop, if there is one.
    pub(crate) fn gateway(self) -> Option<Address>
        ensures { result ≡ spec.gateway_of self }
    {
        match self {
            Seat::Link(_) => None,
            Seat::Own(own) => own.via,
        }
    }
}

/// A prefix in the list of a link. Over a link that has a list its routers exchange the prefixes of
/// the list and the link's own, and no others.
#[derive(Clone, Copy, Debug, PartialEq, Eq)]
pub struct Listed {
    /// The number of the link.
    pub link: usize,
    /// The prefix.
    pub prefix: Prefix,
}

/// A place of a prefix. Prefixes are numbered from 0 in the order of their first place.
#[derive(Clone, Copy, Debug, PartialEq, Eq)]
pub struct Place {
    /// The number of the prefix.
    pub prefix: usize,
    /// Where it stands.
    pub seat: Seat,
}
