//! Lines, and parts of lines, that several commands print.

pub(crate) mod verdicts;

ghost use Rattle.std.specs.Prelude.{◌<◌, length};
ghost use Rattle.rip_report.specs.Lines.{interface_name, read_part, unheard_line};
ghost use Rattle.rip_report.specs.Names.{IsKnownWay};
ghost use Rattle.rip_report.specs.Outs.{Adds};

use crate::names::{push_link, push_router, push_way};
use crate::output::Out;
use rip_check::Route;
use rip_log::Sink;
use rip_plan::{Interface, Plan};

/// Adds an interface as `R L`, by the names of its router and its link.
pub(crate) fn push_interface<K: Sink>(out: &mut Out<K>, plan: &Plan, interface: Interface)
    requires router { interface.router < length plan.now.routers }
    requires link { interface.link < length plan.now.links }
    ensures { Adds out.old out.new (interface_name plan.now interface) }
{
    push_router(out, plan, interface.router);
    out.push(" ");
    push_link(out, plan, interface.link);
}

/// Adds the line of an interface that was not heard.
#[tactic(auto, unfolding(crate::specs::Lines::unheard_line))]
pub(crate) fn push_unheard_line<K: Sink>(out: &mut Out<K>, plan: &Plan, interface: Interface)
    requires router { interface.router < length plan.now.routers }
    requires link { interface.link < length plan.now.links }
    ensures { Adds out.old out.new (unheard_line plan.now interface) }
{
    push_interface(out, plan, interface);
    out.push(" not heard");
    out.end();
}

/// Adds a route.
pub(crate) fn push_route<K: Sink>(out: &mut Out<K>, plan: &Plan, route: &Route)
    requires way { IsKnownWay plan.now route.now.way }
    ensures { Adds out.old out.new (read_part plan.now
        (record { metric = route.now.metric; way = route.now.way }) route.now.hidden) }
{
    out.push_metric(route.metric);
    out.push(" ");
    push_way(out, plan, route.way);
    if route.hidden {
        out.push(", leaf");
    }
}
