//! What a line tells.

use crate::next_hop::NextHop;
use rip_wire::{Metric, Prefix};

/// A way of a route.
#[derive(Clone, Copy, Debug)]
pub(crate) enum Way {
    /// The route is the router's own.
    Here,
    /// It sends packets to this next hop.
    To(NextHop),
}

/// What a line tells of a place: the metric, and a way. One of 16 has no way.
#[derive(Clone, Copy, Debug)]
pub(crate) struct Told {
    pub router: usize,
    pub prefix: Prefix,
    pub metric: Metric,
    pub way: Option<Way>,
}
