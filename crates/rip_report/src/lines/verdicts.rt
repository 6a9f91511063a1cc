//! The lines of verdicts.

ghost use Rattle.std.specs.Prelude.{◌≡◌, ◌+◌, ◌<◌, length};
ghost use Rattle.rip_report.specs.AuditText.{AreKnown, IsKnownTrouble, interface_part, leaf_part, leaves_of, metric_part, place_part, settled_line, subject_part, unclear_line, unsettled_line, unsettled_part, wrong_way_part};
ghost use Rattle.rip_report.specs.Lines.{IsKnownReason, reason_part};
ghost use Rattle.rip_report.specs.Names.{IsKnownWay};
ghost use Rattle.rip_report.specs.Outs.{Adds};

use crate::names::{push_counts, push_link, push_router};
use crate::output::Out;
use rip_check::{Place2, Unclear, Way};
use rip_log::Sink;
use rip_plan::Plan;
use rip_table::Table;
use rip_wire::Metric;

/// How many routers are leaves.
fn leaves(plan: &Plan) -> usize
    ensures { result ≡ leaves_of plan.now }
{
    plan.lawful();
    let mut leaves = 0;
    for router in 0..plan.routers() {
        if plan.leaf(router) {
            leaves += 1;
        }
    }
    leaves
}

/// Adds how many routers are leaves, where some are.
fn push_leaves<K: Sink>(out: &mut Out<K>, leaves: usize)
    ensures { Adds out.old out.new (leaf_part leaves) }
{
    if leaves > 0 {
        out.push(", ");
        out.push_number(leaves as u64);
        out.push(" leaf");
    }
}

/// Adds the line of a network that has settled.
#[tactic(auto, unfolding(crate::specs::AuditText::settled_line))]
pub(crate) fn push_settled_line<T: Table, K: Sink>(out: &mut Out<K>, plan: &Plan, table: &T)
    ensures { Adds out.old out.new (settled_line plan.now (T.state table.now)) }
{
    out.push("settled: ");
    push_counts(out, plan.routers(), table.prefix_count());
    push_leaves(out, leaves(plan));
    out.end();
}

/// Adds a place, of which the numbers are given, as `router R prefix P: `.
pub(crate) fn push_place<T: Table, K: Sink>(
    out: &mut Out<K>,
    plan: &Plan,
    table: &T,
    router: usize,
    prefix: usize,
)
    requires router { router < length plan.now.routers }
    requires prefix { prefix < length (T.state table.now).prefixes }
    ensures { Adds out.old out.new (place_part plan.now (T.state table.now) router prefix) }
{
    out.push("router ");
    push_router(out, plan, router);
    out.push(" prefix ");
    out.push_prefix(table.prefix(prefix));
    out.push(": ");
}

/// Adds a metric and what the equation gives.
fn push_metrics<K: Sink>(out: &mut Out<K>, hidden: bool, metric: Metric, equation: Metric)
    ensures { Adds out.old out.new (metric_part hidden metric equation) }
{
    if hidden {
        out.push("leaf ");
    }
    out.push("metric ");
    out.push_metric(metric);
    out.push(", equation ");
    out.push_metric(equation);
}

/// Adds the way that does not give a metric.
fn push_wrong_way<K: Sink>(out: &mut Out<K>, plan: &Plan, way: Way)
    requires way { IsKnownWay plan.now way }
    ensures { Adds out.old out.new (wrong_way_part plan.now way) }
{
    match way {
        Way::Over(link) => {
            out.push(", link ");
            push_link(out, plan, link);
            out.push(" does not give it");
        }
        Way::Here => out.push(", no planned place gives it"),
        Way::Unreachable => out.push(", no planned place gives it"),
    }
}

/// Adds what fails at a place.
fn push_unsettled<K: Sink>(out: &mut Out<K>, plan: &Plan, place: &Place2)
    requires way { IsKnownWay plan.now place.now.way }
    ensures { Adds out.old out.new (unsettled_part plan.now place.now) }
{
    if place.metric == place.equation {
        out.push("metric ");
        out.push_metric(place.metric);
        push_wrong_way(out, plan, place.way);
    } else {
        push_metrics(out, place.hidden, place.metric, place.equation);
    }
}

/// Adds the line of a place that does not hold.
#[tactic(auto, unfolding(crate::specs::AuditText::unsettled_line))]
pub(crate) fn push_unsettled_line<T: Table, K: Sink>(
    out: &mut Out<K>,
    plan: &Plan,
    table: &T,
    place: &Place2,
)
    requires { AreKnown plan.now (T.state table.now) place.now }
    ensures { Adds out.old out.new (unsettled_line plan.now (T.state table.now) place.now) }
{
    out.push("unsettled: ");
    push_place(out, plan, table, place.router, place.prefix);
    push_unsettled(out, plan, place);
    out.end();
}

/// Adds an interface as `router R link L: `.
fn push_interface<K: Sink>(out: &mut Out<K>, plan: &Plan, router: usize, link: usize)
    requires router { router < length plan.now.routers }
    requires link { link < length plan.now.links }
    ensures { Adds out.old out.new (interface_part plan.now router link) }
{
    out.push("router ");
    push_router(out, plan, router);
    out.push(" link ");
    push_link(out, plan, link);
    out.push(": ");
}

/// Adds what a trouble is about: an interface, or a router and a prefix.
fn push_subject<T: Table, K: Sink>(out: &mut Out<K>, plan: &Plan, table: &T, trouble: &Unclear)
    requires known { IsKnownTrouble plan.now (T.state table.now) trouble.now }
    ensures { Adds out.old out.new (subject_part plan.now (T.state table.now) trouble.now) }
{
    match *trouble {
        Unclear::NotHeard { router, link } => push_interface(out, plan, router, link),
        Unclear::TwoMetrics { router, prefix }
        | Unclear::Missing { router, prefix, .. }
        | Unclear::ShownOn { router, prefix, .. }
        | Unclear::TwoWays { router, prefix } => push_place(out, plan, table, router, prefix),
    }
}

/// Adds why no route can be read.
pub(crate) fn push_reason<K: Sink>(out: &mut Out<K>, plan: &Plan, trouble: &Unclear)
    requires known { IsKnownReason plan.now trouble.now }
    ensures { Adds out.old out.new (reason_part plan.now trouble.now) }
{
    match *trouble {
        Unclear::NotHeard { .. } => out.push("not heard"),
        Unclear::TwoMetrics { .. } => out.push("two metrics"),
        Unclear::Missing { link, .. } => {
            out.push("missing on ");
            push_link(out, plan, link);
        }
        Unclear::ShownOn { link, .. } => {
            out.push("shown on ");
            push_link(out, plan, link);
        }
        Unclear::TwoWays { .. } => out.push("two ways"),
    }
}

/// Adds the line of a log that shows no tables.
#[tactic(auto, unfolding(crate::specs::AuditText::unclear_line))]
pub(crate) fn push_unclear_line<T: Table, K: Sink>(
    out: &mut Out<K>,
    plan: &Plan,
    table: &T,
    trouble: &Unclear,
)
    requires { IsKnownTrouble plan.now (T.state table.now) trouble.now }
    ensures { Adds out.old out.new (unclear_line plan.now (T.state table.now) trouble.now) }
{
    out.push("unclear: ");
    push_subject(out, plan, table, trouble);
    push_reason(out, plan, trouble);
    out.end();
}
