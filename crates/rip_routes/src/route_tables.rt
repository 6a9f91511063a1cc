//! What is told of the tables of routers.

ghost use Rattle.std.specs.Prelude.{◌≡◌, ℕ, ◌<◌, Some, length, slice_get};
ghost use Rattle.rip_routes.specs.OwnTables.{AreOwnTables, OwnTables, route_at};

use crate::next_hop::NextHop;
use rip_wire::{Metric, Prefix};

/// The routers' own tables, as they tell them: for each router and prefix a route. Prefixes are
/// those of the plan, and then others in the order in which they came.
pub trait RouteTables {
    // What they mean.
    ghost tables: { Self → OwnTables };

    // Prefixes differ, there are at most `MOST_PREFIXES`, and routes are as `IsOwnRoute` says.
    ghost are_tables: { (t : Self) → AreOwnTables (tables t) };

    /// How many prefixes there are.
    fn prefix_count(&self) -> usize
        ensures { result ≡ length (tables self.now).prefixes };

    /// A prefix, by its number.
    fn prefix(&self, k: usize) -> Prefix
        requires { k < length (tables self.now).prefixes }
        ensures { slice_get (tables self.now).prefixes k ≡ Some result };

    /// Whether anything is told of a router's table. The router is one of the plan.
    fn is_listed(&self, router: usize) -> bool
        ensures { result ≡ (tables self.now).listed router };

    /// The metric of a router's route for the prefix of a number: 16 where the router cannot reach
    /// it, or nothing is told.
    fn metric(&self, router: usize, k: usize) -> Metric
        requires { k < length (tables self.now).prefixes }
        ensures { result ≡ (route_at (tables self.now) router k).metric };

    /// Whether that route is the router's own.
    fn is_here(&self, router: usize, k: usize) -> bool
        requires { k < length (tables self.now).prefixes }
        ensures { result ≡ (route_at (tables self.now) router k).here };

    /// The next hops of that route, each once, in the order in which they were told.
    fn next_hops(&self, router: usize, k: usize) -> &[NextHop]
        requires { k < length (tables self.now).prefixes }
        ensures { result.now ≡ (route_at (tables self.now) router k).hops };
}
