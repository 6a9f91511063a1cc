//! The names of a plan's routers and links, and ways, in a line.

ghost use Rattle.std.specs.Prelude.{◌<◌, length};
ghost use Rattle.rip_report.specs.Names.{IsKnownWay, counts_part, name_of, way_text};
ghost use Rattle.rip_report.specs.Outs.{Adds};

use crate::output::Out;
use rip_check::Way;
use rip_log::Sink;
use rip_plan::Plan;

/// Adds how many routers and prefixes there are.
pub(crate) fn push_counts<K: Sink>(out: &mut Out<K>, routers: usize, prefixes: usize)
    ensures { Adds out.old out.new (counts_part routers prefixes) }
{
    out.push_number(routers as u64);
    out.push(" routers, ");
    out.push_number(prefixes as u64);
    out.push(" prefixes");
}

/// Adds the name of a router.
pub(crate) fn push_router<K: Sink>(out: &mut Out<K>, plan: &Plan, router: usize)
    requires known { router < length plan.now.routers }
    ensures { Adds out.old out.new (name_of plan.now.routers router) }
{
    plan.lawful();
    out.push(plan.router_name(router));
}

/// Adds the name of a link.
pub(crate) fn push_link<K: Sink>(out: &mut Out<K>, plan: &Plan, link: usize)
    requires known { link < length plan.now.links }
    ensures { Adds out.old out.new (name_of plan.now.links link) }
{
    plan.lawful();
    out.push(plan.link_name(link));
}

/// Adds a way.
pub(crate) fn push_way<K: Sink>(out: &mut Out<K>, plan: &Plan, way: Way)
    requires way { IsKnownWay plan.now way }
    ensures { Adds out.old out.new (way_text plan.now way) }
{
    match way {
        Way::Unreachable => out.push("unreachable"),
        Way::Here => out.push("here"),
        Way::Over(link) => {
            out.push("over ");
            push_link(out, plan, link);
        }
    }
}
