//! The lines under a verdict.

ghost use Rattle.std.specs.Prelude.{◌+◌, ◌<◌, length};
ghost use Rattle.rip_check.specs.Cases.{plan_of, state_of};
ghost use Rattle.rip_report.specs.ExplainText.{direct_line, heard_line, least_line, none_heard_line, offer_line, read_route_line, shown_line, shown_word, sum_part, unplanned_part, unreachable_line};
ghost use Rattle.rip_report.specs.Names.{IsKnownWay};
ghost use Rattle.rip_report.specs.Outs.{Adds};

use crate::lines::push_route;
use crate::names::{push_link, push_router};
use crate::output::Out;
use rip_check::{Case, Place2, Route};
use rip_log::Sink;
use rip_plan::{Interface, Plan};
use rip_table::Table;
use rip_wire::Metric;

/// Adds the metric that is shown, or `nothing`.
fn push_shown<K: Sink>(out: &mut Out<K>, shown: Option<Metric>)
    ensures { Adds out.old out.new (shown_word shown) }
{
    match shown {
        Some(metric) => out.push_metric(metric),
        None => out.push("nothing"),
    }
}

/// Adds the line of what is shown on a link.
#[tactic(auto, unfolding(crate::specs::ExplainText::shown_line))]
pub(crate) fn push_shown_line<K: Sink>(
    out: &mut Out<K>,
    plan: &Plan,
    link: usize,
    shown: Option<Metric>,
)
    requires { link < length plan.now.links }
    ensures { Adds out.old out.new (shown_line plan.now link shown) }
{
    out.push("  shown on ");
    push_link(out, plan, link);
    out.push(": ");
    push_shown(out, shown);
    out.end();
}

/// Adds the line of the route that was read at a place.
#[tactic(auto, unfolding(crate::specs::ExplainText::read_route_line))]
pub(crate) fn push_read_route_line<K: Sink>(out: &mut Out<K>, plan: &Plan, place: &Place2)
    requires { IsKnownWay plan.now place.now.way }
    ensures { Adds out.old out.new (read_route_line plan.now
        (record { metric = place.now.metric; way = place.now.way }) place.now.hidden) }
{
    let route = Route {
        metric: place.metric,
        way: place.way,
        hidden: place.hidden,
    };
    out.push("  read: ");
    push_route(out, plan, &route);
    out.end();
}

/// Adds the line of a direct cost, which is kept or not.
#[tactic(auto, unfolding(crate::specs::ExplainText::direct_line))]
pub(crate) fn push_direct_line<K: Sink>(out: &mut Out<K>, cost: u8, is_kept: bool)
    ensures { Adds out.old out.new (direct_line cost is_kept) }
{
    out.push("  direct: ");
    out.push_number(u64::from(cost));
    if is_kept {
        out.push(", kept");
    }
    out.end();
}

/// Adds the sum that a router offers, or `nothing`.
fn push_sum<K: Sink>(out: &mut Out<K>, cost: u8, shown: Option<Metric>, value: Metric)
    ensures { Adds out.old out.new (sum_part cost shown value) }
{
    match shown {
        Some(metric) => {
            out.push_number(u64::from(cost));
            out.push(" + ");
            out.push_metric(metric);
            out.push(" = ");
            out.push_metric(value);
        }
        None => out.push("nothing"),
    }
}

/// Adds the line of an offer over the link of an interface, by a router.
#[tactic(auto, unfolding(crate::specs::ExplainText::offer_line))]
pub(crate) fn push_offer_line<K: Sink>(
    out: &mut Out<K>,
    plan: &Plan,
    own: &Interface,
    router: usize,
    shown: Option<Metric>,
    value: Metric,
)
    requires link { own.now.link < length plan.now.links }
    requires router { router < length plan.now.routers }
    ensures { Adds out.old out.new (offer_line plan.now own.now router shown value) }
{
    out.push("  offer over ");
    push_link(out, plan, own.link);
    out.push(" from ");
    push_router(out, plan, router);
    out.push(": ");
    push_sum(out, own.cost, shown, value);
    out.end();
}

/// Adds that a prefix is not planned, where it is not.
fn push_unplanned<K: Sink>(out: &mut Out<K>, plan: &Plan, prefix: usize)
    ensures { Adds out.old out.new (unplanned_part plan.now prefix) }
{
    if prefix >= plan.prefixes() {
        out.push(", not in the plan");
    }
}

/// Adds the line of the least metric of the plan.
#[tactic(auto, unfolding(crate::specs::ExplainText::least_line))]
pub(crate) fn push_least_line<K: Sink>(out: &mut Out<K>, plan: &Plan, prefix: usize, least: Metric)
    ensures { Adds out.old out.new (least_line plan.now prefix least) }
{
    out.push("  least: ");
    out.push_metric(least);
    push_unplanned(out, plan, prefix);
    out.end();
}

/// Adds the line of an interface that was heard.
#[tactic(auto, unfolding(crate::specs::ExplainText::heard_line))]
pub(crate) fn push_heard_line<K: Sink>(out: &mut Out<K>, plan: &Plan, interface: Interface)
    requires router { interface.router < length plan.now.routers }
    requires link { interface.link < length plan.now.links }
    ensures { Adds out.old out.new (heard_line plan.now interface) }
{
    out.push("  heard on ");
    push_link(out, plan, interface.link);
    out.push(": ");
    push_router(out, plan, interface.router);
    out.end();
}

/// Adds the line of a link on which no interface was heard.
#[tactic(auto, unfolding(crate::specs::ExplainText::none_heard_line))]
pub(crate) fn push_none_heard_line<K: Sink>(out: &mut Out<K>, plan: &Plan, link: usize)
    requires { link < length plan.now.links }
    ensures { Adds out.old out.new (none_heard_line plan.now link) }
{
    out.push("  heard on ");
    push_link(out, plan, link);
    out.push(": none");
    out.end();
}

/// Adds the line of a router and a prefix of the table that it cannot reach.
#[tactic(auto, unfolding(crate::specs::ExplainText::unreachable_line))]
pub(crate) fn push_unreachable_line<T: Table, K: Sink>(
    out: &mut Out<K>,
    case: &Case<'_, T>,
    router: usize,
)
    requires { router < length (plan_of case.now).routers }
    ensures { Adds out.old out.new
        (unreachable_line (plan_of case.now) (state_of case.now) router case.now.prefix) }
{
    out.push("  unreachable: router ");
    push_router(out, case.plan, router);
    out.push(" prefix ");
    out.push_prefix(case.table.prefix(case.prefix));
    out.end();
}
