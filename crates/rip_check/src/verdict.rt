//! Verdicts.

use crate::way::Way;
use rip_wire::Metric;

/// A router's route for a prefix.
#[derive(Clone, Copy, Debug, PartialEq, Eq)]
pub struct Route {
    /// The metric, 16 where the router cannot reach the prefix.
    pub metric: Metric,
    /// Which way the router sends.
    pub way: Way,
    /// Whether the route is that of a leaf, which cannot show it.
    pub hidden: bool,
}

/// Why a log shows no tables. Routers, links and prefixes are told by their numbers.
#[derive(Clone, Copy, Debug, PartialEq, Eq)]
pub enum Unclear {
    /// An interface was not heard.
    NotHeard {
        /// The interface's router.
        router: usize,
        /// The interface's link.
        link: usize,
    },
    /// A router shows two metrics below 16 for a prefix.
    TwoMetrics {
        router: usize,
        prefix: usize,
    },
    /// A router shows nothing of a prefix on a link where it poisons, and no route of it can be
    /// read.
    Missing {
        router: usize,
        prefix: usize,
        /// The first link on which it poisons and shows nothing.
        link: usize,
    },
    /// A router shows a metric below 16 for a prefix on each of its links, also on the one to which
    /// the plan says that the prefix is attached, and no route of it can be read.
    ShownOn {
        router: usize,
        prefix: usize,
        /// The link to which the prefix is attached.
        link: usize,
    },
    /// A router shows 16, or nothing where it does not poison, for a prefix on two links and a
    /// metric below 16 on another, as if it had two ways.
    TwoWays {
        router: usize,
        prefix: usize,
    },
}

/// A place that does not hold: a router and a prefix, by their numbers, with what was compared
/// there.
#[derive(Clone, Copy, Debug, PartialEq, Eq)]
pub struct Place2 {
    pub router: usize,
    pub prefix: usize,
    /// The metric of the router's route.
    pub metric: Metric,
    /// The least of 16, of the router's direct cost and of what its neighbours offer; the direct
    /// cost where the router keeps the prefix.
    pub equation: Metric,
    /// The way of the router's route.
    pub way: Way,
    /// Whether the route is that of a leaf, which cannot show it.
    pub hidden: bool,
}

/// What an audit says.
#[derive(Clone, Copy, Debug, PartialEq, Eq)]
pub enum Verdict {
    /// The log shows tables, and they are right.
    Settled,
    /// The log shows tables, and this is the first place that does not hold.
    Unsettled(Place2),
    /// The log shows no tables, and this is the first reason.
    Unclear(Unclear),
}
