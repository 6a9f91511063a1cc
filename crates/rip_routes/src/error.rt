//! What is wrong with what routers tell.

ghost use Rattle.std.specs.Prelude.{◌≡◌};

use rip_wire::{Metric, Prefix};
use std::alloc::AllocError;

/// Why a line is refused, in the numbering that is printed, from 1 on; or why it could not be read.
#[derive(Clone, Copy, Debug, PartialEq, Eq)]
pub enum RoutesCause {
    /// The line has more than 2,048 bytes.
    LongLine,
    /// The line has fewer than three fields, or more than five.
    Fields,
    /// The first field is no router's name.
    Router,
    /// The second field is no prefix.
    Prefix,
    /// Of four or five fields, the third is no metric.
    Metric,
    /// What is left is no way, or one over a link on which the router is not, or none of a metric
    /// below 16.
    Way,
    /// An earlier line gives the place another metric.
    Changed {
        /// The prefix of the place.
        prefix: Prefix,
        /// The metric of the earlier line.
        old: Metric,
        /// The metric of this line.
        new: Metric,
    },
    /// The line comes after 1,000,000 others.
    TooManyLines,
    /// The prefix is new, and with those of the plan there are 2,048.
    TooManyPrefixes,
    /// The source failed while the line was read.
    Read,
    /// A growth was refused.
    Memory,
}

impl From<AllocError> for RoutesCause {
    ghost use Rattle.rip_routes.specs.declared.error.RoutesCause.TheVariants.{Memory};

    ghost from_gives = { λ _ error. error ≡ Memory };

    fn from(_refused: AllocError) -> RoutesCause {
        RoutesCause::Memory
    }
}

/// Why the routers' tables were not made, and the number of the line concerned, or 0 where none is.
#[derive(Clone, Copy, Debug, PartialEq, Eq)]
pub struct RoutesError {
    /// The number of the line, from 1 on.
    pub line: u32,
    /// What is wrong.
    pub cause: RoutesCause,
}
