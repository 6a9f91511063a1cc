//! The plan of a RIP-2 network: routers, links, interfaces with their costs, and where prefixes
//! stand.
#![tactic(auto)]

mod addresses;
mod draft;
mod error;
mod fields;
mod index;
pub mod laws;
mod limits;
mod numbers;
mod parts;
mod passes;
mod plan;
mod reading;

pub use error::{At, PlanCode, PlanError};
pub use limits::{
    DEFAULT_COST, DEFAULT_KEPT, DEFAULT_POISON, MOST_ALSO, MOST_COST, MOST_INTERFACES, MOST_LINKS,
    MOST_LISTED, MOST_PLACES, MOST_PLAN_BYTES, MOST_ROUTERS,
};
pub use parts::{Interface, Listed, OwnPrefix, Place, Seat};
pub use plan::Plan;
