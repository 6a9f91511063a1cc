//! The lines of verdicts on the routers' own tables, and of what refuses them.

ghost use Rattle.std.specs.Prelude.{◌≡◌, ◌≢◌, ◌<◌, Contains, Err, IfOk, ℕ, length};
ghost use Rattle.std.specs.List.{flat_map};
ghost use Rattle.rip_routes.specs.OwnTables.{route_at};
ghost use Rattle.rip_routes.specs.declared.next_hop.NextHop.TheVariants.{Over as IsOver};
ghost use Rattle.rip_report.specs.Outs.{Adds};
ghost use Rattle.rip_report.specs.OwnText.{IsKnownOwn, IsKnownWrong, has_line, has_lines, hop_text, own_settled_line, own_unsettled_line, refused_routes, routes_cause_text, unlisted_line, wrong_part};
ghost use Rattle.rip_report.specs.Sent.{Prints};

use crate::lines::verdicts::push_place;
use crate::names::{push_counts, push_link, push_router};
use crate::output::Out;
use crate::refusal::{push_change, push_line, push_prefix_part};
use crate::status::{RunError, Status};
use rip_check::{OwnPlace, Wrong};
use rip_log::Sink;
use rip_plan::Plan;
use rip_routes::{NextHop, RouteTables, RoutesCause, RoutesError};
use rip_table::Table;
use rip_wire::Metric;

/// Adds the line of a network that has settled.
#[tactic(auto, unfolding(crate::specs::OwnText::own_settled_line))]
pub(crate) fn push_own_settled_line<T: Table, K: Sink>(out: &mut Out<K>, plan: &Plan, table: &T)
    ensures { Adds out.old out.new (own_settled_line plan.now (T.state table.now)) }
{
    out.push("settled: ");
    push_counts(out, plan.routers(), table.prefix_count());
    out.end();
}

/// Adds the line of a router of which nothing is told.
#[tactic(auto, unfolding(crate::specs::OwnText::unlisted_line))]
pub(crate) fn push_unlisted_line<K: Sink>(out: &mut Out<K>, plan: &Plan, router: usize)
    requires { router < length plan.now.routers }
    ensures { Adds out.old out.new (unlisted_line plan.now router) }
{
    out.push("unclear: router ");
    push_router(out, plan, router);
    out.push(": no routes");
    out.end();
}

/// Adds what is wrong with a route.
fn push_wrong<K: Sink>(out: &mut Out<K>, plan: &Plan, wrong: Wrong)
    requires { IsKnownWrong plan.now wrong }
    ensures { Adds out.old out.new (wrong_part plan.now wrong) }
{
    match wrong {
        Wrong::Metric(equation) => {
            out.push(", equation ");
            out.push_metric(equation);
        }
        Wrong::Here => out.push(", no planned place gives it"),
        Wrong::Over(link) => {
            out.push(", link ");
            push_link(out, plan, link);
            out.push(" does not give it");
        }
        Wrong::Neighbour { router, link } => {
            out.push(", router ");
            push_router(out, plan, router);
            out.push(" on link ");
            push_link(out, plan, link);
            out.push(" does not give it");
        }
        Wrong::Nobody(address) => {
            out.push(", no neighbour has ");
            out.push_address(address);
        }
    }
}

/// Adds the line of a place that does not hold.
#[tactic(auto, unfolding(crate::specs::OwnText::own_unsettled_line))]
pub(crate) fn push_own_unsettled_line<T: Table, K: Sink>(
    out: &mut Out<K>,
    plan: &Plan,
    table: &T,
    place: &OwnPlace,
)
    requires { IsKnownOwn plan.now (T.state table.now) place.now }
    ensures { Adds out.old out.new (own_unsettled_line plan.now (T.state table.now) place.now) }
{
    out.push("unsettled: ");
    push_place(out, plan, table, place.router, place.prefix);
    out.push("metric ");
    out.push_metric(place.metric);
    push_wrong(out, plan, place.wrong);
    out.end();
}

/// Adds a next hop.
fn push_hop<K: Sink>(out: &mut Out<K>, plan: &Plan, hop: &NextHop)
    requires { (l : ℕ) → hop.now ≡ IsOver l → l < length plan.now.links }
    ensures { Adds out.old out.new (hop_text plan.now hop.now) }
{
    match hop {
        NextHop::Over(link) => {
            out.push("over ");
            push_link(out, plan, *link);
        }
        NextHop::Via(address) => {
            out.push("via ");
            out.push_address(*address);
        }
    }
}

/// Adds the line of a way that a route has by a next hop.
#[tactic(auto, unfolding(crate::specs::OwnText::has_line))]
fn push_hop_line<K: Sink>(out: &mut Out<K>, plan: &Plan, metric: Metric, hop: &NextHop)
    requires { (l : ℕ) → hop.now ≡ IsOver l → l < length plan.now.links }
    ensures { Adds out.old out.new (has_line metric (hop_text plan.now hop.now)) }
{
    out.push("  has: ");
    out.push_metric(metric);
    out.push(" ");
    push_hop(out, plan, hop);
    out.end();
}

/// Adds the line of a way that a route has by one word.
#[tactic(auto, unfolding(crate::specs::OwnText::has_line))]
fn push_word_line<K: Sink>(out: &mut Out<K>, metric: Metric, word: &str)
    ensures { Adds out.old out.new (has_line metric word.now) }
{
    out.push("  has: ");
    out.push_metric(metric);
    out.push(" ");
    out.push(word);
    out.end();
}

/// Adds the lines of next hops.
fn push_hop_lines<K: Sink>(out: &mut Out<K>, plan: &Plan, metric: Metric, hops: &[NextHop])
    requires { (l : ℕ) → Contains hops.now (IsOver l) → l < length plan.now.links }
    ensures { Adds out.old out.new
        (flat_map (λ h. has_line metric (hop_text plan.now h)) hops.now) }
{
    for hop in hops {
        push_hop_line(out, plan, metric, hop);
    }
}

/// Adds a line for each way of a router's route.
pub(crate) fn push_has_lines<G: RouteTables, K: Sink>(
    out: &mut Out<K>,
    plan: &Plan,
    tables: &G,
    router: usize,
    prefix: usize,
)
    requires prefix { prefix < length (G.tables tables.now).prefixes }
    requires links { (l : ℕ) →
        Contains (route_at (G.tables tables.now) router prefix).hops (IsOver l) →
        l < length plan.now.links }
    ensures { Adds out.old out.new
        (has_lines plan.now (route_at (G.tables tables.now) router prefix)) }
{
    let metric = tables.metric(router, prefix);
    if metric.get() == 16 {
        push_word_line(out, metric, "unreachable");
        return;
    }
    if tables.is_here(router, prefix) {
        push_word_line(out, metric, "here");
    }
    push_hop_lines(out, plan, metric, tables.next_hops(router, prefix));
}

/// Adds the number and the word of what refuses a line.
#[tactic(auto, unfolding(crate::specs::OwnText::routes_cause_text))]
fn push_routes_cause<K: Sink>(out: &mut Out<K>, cause: RoutesCause)
    ensures { Adds out.old out.new (routes_cause_text cause) }
{
    match cause {
        RoutesCause::LongLine => out.push("1 LongLine"),
        RoutesCause::Fields => out.push("2 Fields"),
        RoutesCause::Router => out.push("3 Router"),
        RoutesCause::Prefix => out.push("4 Prefix"),
        RoutesCause::Metric => out.push("5 Metric"),
        RoutesCause::Way => out.push("6 Way"),
        RoutesCause::Changed { prefix, old, new } => {
            out.push("7 Changed");
            push_prefix_part(out, prefix);
            push_change(out, old, new);
        }
        RoutesCause::TooManyLines => out.push("8 TooManyLines"),
        RoutesCause::TooManyPrefixes => out.push("9 TooManyPrefixes"),
        RoutesCause::Read => out.push("10 Read"),
        RoutesCause::Memory => out.push("11 Memory"),
    }
}

/// Ends a run whose text of routes is refused.
pub(crate) fn refuse_routes<K: Sink>(error: RoutesError, out: K) -> (K, Result<Status, RunError>)
    ensures prints { Prints K.taken K.broken out result.0 result.1 (λ w. w ≡ refused_routes error) }
    ensures status { IfOk result.1 (λ status. status ≡ Status.Refused) }
    ensures read { result.1 ≢ Err RunError.Read }
{
    let mut text = Out::new(out);
    text.push("refused: ");
    push_line(&mut text, "routes line ", u64::from(error.line));
    push_routes_cause(&mut text, error.cause);
    text.end();
    text.finish_with(Ok(Status::Refused))
}
