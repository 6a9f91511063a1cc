//! Verdicts on the routers' own tables.

use rip_wire::{Address, Metric};

/// What is wrong with a route that a router tells. Routers and links are told by their numbers.
#[derive(Clone, Copy, Debug, PartialEq, Eq)]
pub enum Wrong {
    /// The metric is not this, the equation: the least of 16, of the router's direct cost and of
    /// what its neighbours offer; the direct cost where the router keeps the prefix.
    Metric(Metric),
    /// The metric is the equation, but not the router's direct cost, and its own way is told.
    Here,
    /// The metric is the equation, but no neighbour over this link offers it.
    Over(usize),
    /// The metric is the equation, but no neighbour that has the address of a next hop offers it.
    Neighbour {
        /// The first neighbour that has the address.
        router: usize,
        /// The link on which it has it.
        link: usize,
    },
    /// The metric is the equation, but no neighbour has this address of a next hop.
    Nobody(Address),
}

/// A place of the routers' own tables that does not hold: a router and a prefix, by their numbers.
#[derive(Clone, Copy, Debug, PartialEq, Eq)]
pub struct OwnPlace {
    pub router: usize,
    pub prefix: usize,
    /// The metric of the router's route.
    pub metric: Metric,
    /// What is wrong with the route.
    pub wrong: Wrong,
}

/// What an audit of the routers' own tables says.
#[derive(Clone, Copy, Debug, PartialEq, Eq)]
pub enum OwnVerdict {
    /// The tables are right.
    Settled,
    /// This is the first place that does not hold.
    Unsettled(OwnPlace),
    /// This is the first router of whose table nothing is told.
    NoRoutes(usize),
}
