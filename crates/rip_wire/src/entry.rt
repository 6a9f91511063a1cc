//! Entries.

use crate::{Address, Metric, Prefix};

/// An entry of a response: a prefix and the metric of its route (RFC 2453, section 4).
#[derive(Clone, Copy, Debug, PartialEq, Eq)]
pub struct Entry {
    /// The route tag, which takes no part in the metric.
    pub tag: u16,
    /// The destination, by its address and subnet mask.
    pub prefix: Prefix,
    /// The next hop; 0.0.0.0 stands for the sender.
    pub next_hop: Address,
    /// How far the destination is: 1 to 15, or 16 if it is unreachable.
    pub metric: Metric,
}

impl Entry {
    /// What room for entries may hold before it is filled. Which entry it is has no meaning.
    pub const FILLER: Entry = Entry {
        tag: 0,
        prefix: Prefix::ALL,
        next_hop: Address::UNSPECIFIED,
        metric: Metric::INFINITY,
    };
}
