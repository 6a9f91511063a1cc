//! The command `expect`: the right routes of a plan.

ghost use Rattle.std.specs.Prelude.{◌<◌, length};
ghost use Rattle.rip_check.specs.Expected.{AreExpected};
ghost use Rattle.rip_check.specs.declared.way.Way.TheVariants.{Over};
ghost use Rattle.rip_report.specs.ExpectText.{ExpectedRoutes, OverLines, PairLines, RouterLines, WayLine, expect_line, route_line, unreachable_part};
ghost use Rattle.rip_report.specs.Listings.{TextsBelow};
ghost use Rattle.rip_report.specs.Names.{IsKnownWay};
ghost use Rattle.rip_report.specs.Outs.{Adds, AddsOne};
ghost use Rattle.rip_report.specs.Runs.{RunsOnPlan};

use crate::loops::{NumberText, add_below};
use crate::names::{push_counts, push_router, push_way};
use crate::output::Out;
use crate::report::{PlanReport, run_plan_report};
use crate::status::{RunError, Status};
use rip_check::{Expected, Way};
use rip_log::Sink;
use rip_plan::Plan;
use rip_wire::Metric;
use std::alloc::{AllocError, Global};

/// Adds how many pairs of a router and a prefix are unreachable, where some are.
fn push_unreachable<K: Sink>(out: &mut Out<K>, pairs: usize)
    ensures { Adds out.old out.new (unreachable_part pairs) }
{
    if pairs > 0 {
        out.push(", ");
        out.push_number(pairs as u64);
        out.push(" unreachable");
    }
}

/// Adds the line of the counts.
#[tactic(auto, unfolding(crate::specs::ExpectText::expect_line))]
fn push_counts_line<K: Sink>(out: &mut Out<K>, plan: &Plan, pairs: usize)
    ensures { Adds out.old out.new (expect_line plan.now pairs) }
{
    out.push("expect: ");
    push_counts(out, plan.routers(), plan.prefixes());
    push_unreachable(out, pairs);
    out.end();
}

/// Adds the line of a route.
#[tactic(auto, unfolding(crate::specs::ExpectText::route_line))]
fn push_route_line<K: Sink>(
    out: &mut Out<K>,
    plan: &Plan,
    router: usize,
    prefix: usize,
    metric: Metric,
    way: Way,
)
    requires router { router < length plan.now.routers }
    requires prefix { prefix < length plan.now.prefixes }
    requires way { IsKnownWay plan.now way }
    ensures { Adds out.old out.new (route_line plan.now router prefix metric way) }
{
    push_router(out, plan, router);
    out.push(" ");
    out.push_prefix(plan.prefix(prefix));
    out.push(" ");
    out.push_metric(metric);
    out.push(" ");
    push_way(out, plan, way);
    out.end();
}

/// Adds the line of a way, where it is right.
fn add_way<K: Sink>(
    out: &mut Out<K>,
    plan: &Plan,
    expected: &Expected,
    router: usize,
    prefix: usize,
    way: Way,
)
    requires expected { AreExpected plan.now expected.now }
    requires router { router < length plan.now.routers }
    requires prefix { prefix < length plan.now.prefixes }
    requires way { IsKnownWay plan.now way }
    ensures { AddsOne out.old out.new (WayLine plan.now router prefix way) }
{
    if expected.is_right(plan, router, prefix, way) {
        let metric = expected.metric(plan, router, prefix);
        push_route_line(out, plan, router, prefix, metric, way);
    }
}

/// Adds the lines of the ways over the links of a router, where they are right.
fn add_over<K: Sink>(
    out: &mut Out<K>,
    plan: &Plan,
    expected: &Expected,
    router: usize,
    prefix: usize,
)
    requires expected { AreExpected plan.now expected.now }
    requires router { router < length plan.now.routers }
    requires prefix { prefix < length plan.now.prefixes }
    ensures { AddsOne out.old out.new (OverLines plan.now router prefix) }
{
    plan.lawful();
    let numbers = plan.of_router(router);
    for i in numbers {
        let link = plan.interface(*i).link;
        add_way(out, plan, expected, router, prefix, Way::Over(link));
    }
}

/// Adds the lines of a router and a prefix.
fn add_pair<K: Sink>(
    out: &mut Out<K>,
    plan: &Plan,
    expected: &Expected,
    router: usize,
    prefix: usize,
)
    requires expected { AreExpected plan.now expected.now }
    requires router { router < length plan.now.routers }
    requires prefix { prefix < length plan.now.prefixes }
    ensures { AddsOne out.old out.new (PairLines plan.now router prefix) }
{
    add_way(out, plan, expected, router, prefix, Way::Here);
    add_over(out, plan, expected, router, prefix);
    add_way(out, plan, expected, router, prefix, Way::Unreachable);
}

/// The right routes of a router, by prefix.
#[derive(Clone, Copy)]
struct OfRouter<'a> {
    plan: &'a Plan,
    expected: &'a Expected,
    router: usize,
}

impl NumberText for OfRouter<'_> {
    ghost is_for = { λ of p. AreExpected of.plan.now of.expected.now
        × (of.router < length of.plan.now.routers) × (p < length of.plan.now.prefixes) };

    ghost is_text = { λ of p. PairLines of.plan.now of.router p };

    fn add<K: Sink>(&self, out: &mut Out<K>, prefix: usize) {
        add_pair(out, self.plan, self.expected, self.router, prefix);
    }
}

/// The right routes, by router.
#[derive(Clone, Copy)]
struct OfRouters<'a> {
    plan: &'a Plan,
    expected: &'a Expected,
}

impl NumberText for OfRouters<'_> {
    ghost is_for = { λ of r. AreExpected of.plan.now of.expected.now
        × (r < length of.plan.now.routers) };

    ghost is_text = { λ of r. RouterLines of.plan.now r };

    fn add<K: Sink>(&self, out: &mut Out<K>, router: usize) {
        let (plan, expected) = (self.plan, self.expected);
        add_below(
            out,
            &OfRouter {
                plan,
                expected,
                router,
            },
            plan.prefixes(),
        );
    }
}

/// The command `expect`.
#[derive(Clone, Copy)]
struct Expect;

impl PlanReport for Expect {
    ghost is_text = { λ _. ExpectedRoutes };

    fn add<K: Sink>(
        &self,
        alloc: Global,
        out: &mut Out<K>,
        plan: &Plan,
    ) -> Result<Status, AllocError> {
        let expected = &Expected::find(alloc, plan)?;
        push_counts_line(out, plan, expected.unreachable(plan));
        add_below(out, &OfRouters { plan, expected }, plan.routers());
        Ok(Status::Done)
    }
}

/// Prints the right routes of the plan in a TOML document, or the document's first fault: what the
/// tables are once the network has settled. The sink comes back. It allocates a byte for each
/// router and prefix, beside the plan.
pub fn run_expect<K: Sink>(alloc: Global, plan: &[u8], out: K) -> (K, Result<Status, RunError>)
    ensures runs { RunsOnPlan K.Sink ExpectedRoutes plan.now out result }
{
    run_plan_report(alloc, &Expect, plan, out)
}
