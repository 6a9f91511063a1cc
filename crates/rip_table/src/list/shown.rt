//! What an interface showed of a prefix.

use rip_wire::{Metric, Prefix};

/// The metric that an interface showed for a prefix.
#[derive(Clone, Copy, Debug, PartialEq, Eq)]
pub struct Shown {
    pub interface: usize,
    pub prefix: Prefix,
    pub metric: Metric,
}
