//! The routers' own tables, as they tell them.
#![tactic(auto)]

mod cell;
mod collecting;
mod error;
mod grid;
pub mod laws;
mod line;
mod next_hop;
mod route_tables;
mod rows;
mod told;
mod ways;
mod words;

pub use collecting::collect_routes;
pub use error::{RoutesCause, RoutesError};
pub use grid::GridRoutes;
pub use next_hop::NextHop;
pub use route_tables::RouteTables;
