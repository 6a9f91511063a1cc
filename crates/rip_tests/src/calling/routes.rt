//! The caller of `rip_routes`.

use crate::examples::TRIANGLE;
use crate::fixtures::plan_of;
use rip_log::{FromRead, TextReader};
use rip_plan::Plan;
use rip_routes::{GridRoutes, RouteTables, RoutesCause, RoutesError, collect_routes};
use std::alloc::Global;
use std::hash::{BuildHasherDefault, FoldHasher};

/// A hasher for tests: a program hands in one that is seeded at random.
type Hasher = BuildHasherDefault<FoldHasher>;

/// The tables that a text of routes tells, or why it is refused.
fn tables_of(alloc: Global, plan: &Plan, text: &[u8]) -> Result<GridRoutes<Hasher>, RoutesError> {
    let Ok(mut reader) = TextReader::new(alloc, FromRead::new(text)) else {
        return Err(RoutesError {
            line: 0,
            cause: RoutesCause::Memory,
        });
    };
    collect_routes(alloc, plan, &mut reader, Hasher::new(), Hasher::new())
}

#[test]
fn tables_are_read(rt: HostRuntime) {
    let plan = plan_of(&rt, rt.alloc(), TRIANGLE);
    let Ok(tables) = tables_of(rt.alloc(), &plan, b"r1 10.1.0.0/16 1 here\n") else {
        panic!(rt; "no tables");
    };
    assert!(rt; tables.is_listed(0) && !tables.is_listed(1));
}
