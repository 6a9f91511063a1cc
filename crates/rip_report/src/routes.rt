//! The command `routes`: the routes that a log shows, beside the least metrics of the plan.

ghost use Rattle.std.specs.Prelude.{◌+◌, ◌<◌, ◌==◌, IfNone, IfOk, IfSome, List, ℕ, length};
ghost use Rattle.rip_plan.specs.Network.{Network};
ghost use Rattle.rip_check.specs.Cases.{network_of, plan_of, state_of};
ghost use Rattle.rip_report.specs.AnywayText.{AnywayRoutes};
ghost use Rattle.rip_report.specs.Finished.{AddsWritten};
ghost use Rattle.rip_report.specs.Given.{IsGiven};
ghost use Rattle.rip_report.specs.Hearings.{RoutesAnyway};
ghost use Rattle.rip_table.specs.State.{Fits, State};
ghost use Rattle.rip_check.specs.Expected.{AreExpected};
ghost use Rattle.rip_check.specs.Firsts.{AreHeardOf, IsFirstUnheardOf};
ghost use Rattle.rip_report.specs.Lines.{IsKnownReason};
ghost use Rattle.rip_report.specs.Names.{IsKnownWay};
ghost use Rattle.rip_report.specs.Outs.{Adds, AddsOne};
ghost use Rattle.rip_report.specs.ReportText.{IsAccepted};
ghost use Rattle.rip_report.specs.RoutesText.{IsRead, IsSilentRoute, RouteLine, RoutesLines, RoutesText, UnheardLine, least_part, pair_part, read_line, route_of, routes_line, unread_line};
ghost use Rattle.rip_report.specs.Runs.{RunsOnLog, RunsToEnd};
ghost use Rattle.rip_report.specs.Sent.{WentOut};

use crate::events::{EventReport, run_counted};
use crate::left_out::{anyway_status, push_left_out_line};
use crate::lines::verdicts::push_reason;
use crate::lines::{push_route, push_unheard_line};
use crate::loops::{NumberText, PairText, add_below, add_pairs};
use crate::names::{push_counts, push_router};
use crate::output::Out;
use crate::report::{Report, run_report};
use crate::status::{RunError, Status};
use rip_check::{Case, Expected, Route, Unclear, Way};
use rip_log::{Sink, Source};
use rip_plan::Plan;
use rip_table::{Counts, Table};
use rip_wire::Metric;
use std::alloc::{AllocError, Global};
use std::hash::BuildHasher;

/// Adds the line of the counts.
#[tactic(auto, unfolding(crate::specs::RoutesText::routes_line))]
fn push_counts_line<T: Table, K: Sink>(out: &mut Out<K>, plan: &Plan, table: &T)
    ensures { Adds out.old out.new (routes_line plan.now (T.state table.now)) }
{
    out.push("routes: ");
    push_counts(out, plan.routers(), table.prefix_count());
    out.end();
}

/// Adds a router and the prefix of a case, as `R P `.
fn push_pair<T: Table, K: Sink>(out: &mut Out<K>, case: &Case<'_, T>, router: usize)
    requires { router < length (plan_of case.now).routers }
    ensures { Adds out.old out.new
        (pair_part (plan_of case.now) (state_of case.now) router case.now.prefix) }
{
    push_router(out, case.plan, router);
    out.push(" ");
    out.push_prefix(case.table.prefix(case.prefix));
    out.push(" ");
}

/// Adds the least metric, where the metric is another.
fn push_least<K: Sink>(out: &mut Out<K>, metric: Metric, least: Metric)
    ensures { Adds out.old out.new (least_part metric least) }
{
    if metric != least {
        out.push(", least ");
        out.push_metric(least);
    }
}

/// Adds the line of a route.
#[tactic(auto, unfolding(crate::specs::RoutesText::read_line))]
fn push_read_line<T: Table, K: Sink>(
    out: &mut Out<K>,
    case: &Case<'_, T>,
    router: usize,
    route: &Route,
    least: Metric,
)
    requires router { router < length (plan_of case.now).routers }
    requires way { IsKnownWay (plan_of case.now) route.now.way }
    ensures { Adds out.old out.new
        (read_line (plan_of case.now) (state_of case.now) router case.now.prefix
        (route_of route.now) route.now.hidden least) }
{
    push_pair(out, case, router);
    push_route(out, case.plan, route);
    push_least(out, route.metric, least);
    out.end();
}

/// Adds the line of a router and a prefix of which no route can be read.
#[tactic(auto, unfolding(crate::specs::RoutesText::unread_line))]
fn push_unread_line<T: Table, K: Sink>(
    out: &mut Out<K>,
    case: &Case<'_, T>,
    router: usize,
    trouble: &Unclear,
)
    requires router { router < length (plan_of case.now).routers }
    requires known { IsKnownReason (plan_of case.now) trouble.now }
    ensures { Adds out.old out.new
        (unread_line (plan_of case.now) (state_of case.now) router case.now.prefix
        trouble.now) }
{
    push_pair(out, case, router);
    out.push("unclear: ");
    push_reason(out, case.plan, trouble);
    out.end();
}

/// The link on which the router might show more than this route: it need not show such a route, and
/// its interface there was not heard.
fn unheard_behind<T: Table>(case: &Case<'_, T>, router: usize, found: &Route) -> Option<usize>
    requires { router < length (plan_of case.now).routers }
    ensures some { IfSome result (λ l. IsSilentRoute (route_of found.now) found.now.hidden
        × IsFirstUnheardOf (network_of case.now) (state_of case.now) router l) }
    ensures none { IfNone result (IsSilentRoute (route_of found.now) found.now.hidden →
        AreHeardOf (network_of case.now) (state_of case.now) router) }
{
    if found.hidden || found.way == Way::Unreachable {
        case.unheard_link(router)
    } else {
        None
    }
}

/// Adds the line of a router and a prefix whose route was read.
fn add_found<T: Table, K: Sink>(
    out: &mut Out<K>,
    case: &Case<'_, T>,
    expected: &Expected,
    router: usize,
    found: &Route,
)
    requires expected { AreExpected (plan_of case.now) expected.now }
    requires router { router < length (plan_of case.now).routers }
    requires read { IsRead (plan_of case.now) (state_of case.now) router case.now.prefix
        (route_of found.now) found.now.hidden }
    ensures { AddsOne out.old out.new
        (RouteLine (plan_of case.now) (state_of case.now) router case.now.prefix) }
{
    case.plan.lawful();
    let prefix = case.prefix;
    match unheard_behind(case, router, found) {
        Some(link) => {
            let missing = Unclear::Missing {
                router,
                prefix,
                link,
            };
            push_unread_line(out, case, router, &missing)
        }
        None => {
            let least = expected.least(case.plan, router, prefix);
            push_read_line(out, case, router, found, least)
        }
    }
}

/// Each interface of a table, where it was not heard.
#[derive(Drop)]
struct Unheard<'a, T: Table> {
    plan: &'a Plan,
    table: &'a T,
}

impl<T: Table> NumberText for Unheard<'_, T> {
    ghost is_for = { λ texts i. Fits texts.plan.now (T.state texts.table.now)
        × (i < length texts.plan.now.interfaces) };

    ghost is_text = { λ texts i. UnheardLine texts.plan.now (T.state texts.table.now) i };

    fn add<K: Sink>(&self, out: &mut Out<K>, number: usize) {
        self.plan.lawful();
        if !self.table.heard(number) {
            push_unheard_line(out, self.plan, self.plan.interface(number));
        }
    }
}

/// The route of a router for a prefix, beside the least metric of the plan.
#[derive(Drop)]
struct RouteAndLeast {
    expected: Expected,
}

impl PairText for RouteAndLeast {
    ghost fits = { λ texts n _. AreExpected n texts.expected };

    ghost is_text = { λ _ n s r p. RouteLine n s r p };

    fn add<T: Table, K: Sink>(&self, out: &mut Out<K>, case: &Case<'_, T>, router: usize) {
        case.plan.lawful();
        match case.route(router) {
            Ok(found) => add_found(out, case, &self.expected, router, &found),
            Err(trouble) => push_unread_line(out, case, router, &trouble),
        }
    }
}

/// Adds the interfaces that were not heard, and a line for each router and prefix.
fn add_lines<T: Table, K: Sink>(out: &mut Out<K>, plan: &Plan, expected: Expected, table: &T)
    requires fits { Fits plan.now (T.state table.now) }
    requires expected { AreExpected plan.now expected }
    ensures { AddsOne out.old out.new (RoutesLines plan.now (T.state table.now)) }
{
    add_below(out, &Unheard { plan, table }, plan.interfaces());
    add_pairs(out, &RouteAndLeast { expected }, plan, table);
}

/// Adds the routes of a table, with how much is left out of it after the counts.
fn add_routes<T: Table, K: Sink>(
    alloc: Global,
    out: &mut Out<K>,
    plan: &Plan,
    table: &T,
    left_out: Counts,
) -> Result<Status, AllocError>
    requires { Fits plan.now (T.state table.now) }
    ensures { AddsWritten out.old out.new result
        (AnywayRoutes plan.now (T.state table.now) left_out) }
{
    let expected = Expected::find(alloc, plan)?;
    push_counts_line(out, plan, table);
    push_left_out_line(out, left_out);
    add_lines(out, plan, expected, table);
    Ok(anyway_status(left_out, Status::Done))
}

/// The command `routes`.
#[derive(Clone, Copy)]
struct Routes;

impl Report for Routes {
    ghost is_text = { λ _. RoutesText };

    fn add<T: Table, K: Sink>(
        &self,
        alloc: Global,
        out: &mut Out<K>,
        plan: &Plan,
        table: &T,
    ) -> Result<Status, AllocError> {
        add_routes(alloc, out, plan, table, Counts::new())
    }
}

impl EventReport<Counts> for Routes {
    ghost is_text = { λ _. RoutesAnyway };

    fn add<T: Table, K: Sink>(
        &self,
        alloc: Global,
        out: &mut Out<K>,
        plan: &Plan,
        table: &T,
        left_out: &Counts,
    ) -> Result<Status, AllocError> {
        add_routes(alloc, out, plan, table, *left_out)
    }
}

/// Prints the routes that a log shows, by the plan in a TOML document, or why the plan or the log
/// is refused. The source and the sink come back. The log chooses the prefixes, so the hasher
/// should be seeded at random. It allocates a byte for each router and planned prefix, beside what
/// `table` allocates.
pub fn run_routes<R: Source, K: Sink, S: BuildHasher + Drop>(
    alloc: Global,
    plan: &[u8],
    log: R,
    out: K,
    hasher: S,
) -> (R, K, Result<Status, RunError>)
    ensures runs { RunsOnLog R.Source K.Sink RoutesText plan.now log out result }
{
    run_report(alloc, &Routes, plan, log, out, hasher)
}

/// Prints the routes of what is not refused in a log, good or bad, with how much is left out, by
/// the plan in a TOML document; or why the plan is refused. The log is read to its end, whatever
/// its lines say, up to line 1,000,001. The source and the sink come back. The log chooses the
/// prefixes, so the hasher should be seeded at random. `Done` where nothing is left out, and else
/// `Refused`.
pub fn run_routes_anyway<R: Source, K: Sink, S: BuildHasher + Drop>(
    alloc: Global,
    plan: &[u8],
    log: R,
    out: K,
    hasher: S,
) -> (R, K, Result<Status, RunError>)
    ensures runs { RunsToEnd R.Source K.Sink RoutesAnyway plan.now log out result }
    // Of a log that is accepted it is what `routes` prints.
    ensures accepted { (text : List ℕ) → IsGiven R.given R.at_end log result.0 text →
        (n : Network) (s : State) → IsAccepted plan.now text n s →
        IfOk result.2 (WentOut (RoutesText n s) (K.taken out) (K.taken result.1)) }
{
    run_counted(alloc, &Routes, plan, log, out, hasher)
}
