//! The calls for one place, which the program does not make. Then judging, and finding the right routes, where an allocation fails:
//! `tests/growths` runs these tests with each allocation refused in turn, and expects the lines that they print.

ghost use Rattle.rip_table.specs.State.{Fits};

use crate::examples::{PHANTOM, SETTLED, TRIANGLE};
use crate::fixtures::{fill, list_of, new_grid, plan_of};
use rip_check::laws::plans_without_lists;
use rip_check::{
    Expected, Place2, Route, Verdict, Way, equation, judge, next_unsettled, offer, route,
};
use rip_plan::Plan;
use rip_table::{ListTable, Table};
use rip_wire::Metric;
use std::alloc::Global;
use std::process::Abort;
use std::test::Fail;

/// The metric with this number.
fn metric(rt: &impl Abort, number: u32) -> Metric {
    Metric::new(number).expect(rt, "a metric")
}

/// Expects the route of a router for the prefix that nobody has, and what its equation gives.
fn expect_route<T: Table>(rt: &impl Abort, plan: &Plan, table: &T, router: usize)
    requires { Fits plan.now (T.state table.now) }
{
    assert!(rt; router < plan.routers() && 3 < table.prefix_count());
    let due = Route {
        metric: metric(rt, 2),
        way: Way::Over(router),
        hidden: false,
    };
    assert!(rt; route(plan, table, router, 3) == Ok(due));
    assert!(rt; equation(plan, table, router, 3) == metric(rt, 3));
}

/// Expects the next place after the one of a router for that prefix.
fn expect_next<T: Table>(
    rt: &impl Abort,
    plan: &Plan,
    table: &T,
    router: usize,
    next: Option<usize>,
)
    requires { Fits plan.now (T.state table.now) }
{
    let place = next.map(|router| Place2 {
        router,
        prefix: 3,
        metric: metric(rt, 2),
        equation: metric(rt, 3),
        way: Way::Over(router),
        hidden: false,
    });
    assert!(rt; table.prefix_count() == 4);
    assert!(rt; next_unsettled(plan, table, Some((router, 3))) == place);
}

/// An interface, one of another router on the same link, a prefix, and what the other one offers there.
type Offered = (usize, usize, usize, u32);

fn expect_offer<T: Table>(rt: &impl Abort, plan: &Plan, table: &T, offered: Offered)
    requires { Fits plan.now (T.state table.now) }
{
    plan.lawful();
    plans_without_lists();
    let (number, across, prefix, value) = offered;
    if plan.has_lists() {
        rt.abort();
    }
    assert!(rt; number < plan.interfaces() && across < plan.interfaces());
    assert!(rt; prefix < table.prefix_count());
    let own = plan.interface(number);
    let other = plan.interface(across);
    assert!(rt; other.link == own.link && other.router != own.router);
    assert!(rt; offer(plan, table, own, across, prefix).get() == value);
}

/// Each router has the prefix that nobody has from the next one.
#[test]
fn one_place_after_the_other(rt: HostRuntime) {
    let plan = plan_of(&rt, rt.alloc(), TRIANGLE);
    let table = list_of(&rt, rt.alloc(), &plan, PHANTOM);
    for router in 0..3 {
        expect_route(&rt, &plan, &table, router);
    }
    expect_next(&rt, &plan, &table, 0, Some(1));
    expect_next(&rt, &plan, &table, 2, None);
    for offered in [(0, 2, 3, 3), (1, 5, 3, 16), (0, 2, 1, 2)] {
        expect_offer(&rt, &plan, &table, offered);
    }
}

/// Judges two tables of the settled log. Returns whether an allocation fails before that.
fn judge_both<T: Table, U: Table>(
    rt: &impl Abort,
    alloc: Global,
    plan: &Plan,
    one: &T,
    other: &U,
) -> bool
    requires one { Fits plan.now (T.state one.now) }
    requires other { Fits plan.now (U.state other.now) }
{
    let more = String::from_str(alloc, TRIANGLE);
    assert!(rt; judge(plan, one) == Verdict::Settled);
    assert!(rt; judge(plan, other) == Verdict::Settled);
    more.is_err()
}

/// Fills both tables, if there is memory, and judges them when none is left.
fn judge_full(rt: &impl Abort, alloc: Global, plan: &Plan) -> bool {
    let log = SETTLED.as_bytes();
    match (ListTable::new(alloc, plan), new_grid(alloc, plan)) {
        (Ok(mut list), Ok(mut grid)) => {
            fill(rt, alloc, plan, log, &mut list).is_ok()
                && fill(rt, alloc, plan, log, &mut grid).is_ok()
                && judge_both(rt, alloc, plan, &list, &grid)
        }
        _ => false,
    }
}

#[test]
fn judge_allocates_nothing(rt: HostRuntime) -> Result<(), Fail> {
    let Ok(plan) = Plan::read(rt.alloc(), TRIANGLE.as_bytes()) else {
        return Ok(());
    };
    if judge_full(&rt, rt.alloc(), &plan) {
        println!(rt; "settled without memory")?;
    }
    Ok(())
}

/// Finds the right routes if there is memory for a byte for each router and prefix, and otherwise says so.
#[test]
fn refused_memory_finds_no_routes(rt: HostRuntime) -> Result<(), Fail> {
    let Ok(plan) = Plan::read(rt.alloc(), TRIANGLE.as_bytes()) else {
        return Ok(());
    };
    let Ok(expected) = Expected::find(rt.alloc(), &plan) else {
        println!(rt; "no memory for routes")?;
        return Ok(());
    };
    assert!(rt; 1 < plan.routers() && 2 < plan.prefixes());
    assert!(rt; expected.metric(&plan, 1, 2).get() == 2);
    Ok(())
}
