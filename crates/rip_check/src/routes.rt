//! From what a router shows of a prefix to its route.

ghost use Rattle.std.specs.Prelude.{◌≡◌, ◌≢◌, ℕ, ◌<◌, ◌≤◌, ◌⊎◌, IfNone, IfSome, None, Some, length};
ghost use Rattle.rip_plan.specs.Relations.{HasTwoInterfaces, IsLeaf};
ghost use Rattle.rip_check.specs.Cases.{At, network_of, plan_of, told_in};
ghost use Rattle.rip_check.specs.Firsts.{CanBeRead, IsCause, IsFirstGap, IsReadable, IsReason, ShowsEach};
ghost use Rattle.rip_check.specs.Metrics.{metric_at};
ghost use Rattle.rip_check.specs.Tables.{IsOff, IsQuiet, IsSilent};
ghost use Rattle.rip_check.specs.Verdicts.{IsRead};

use crate::case::Case;
use crate::lookup::{may_hold_back, told_at};
use crate::offers::{best_over, direct_or_16};
use crate::surveys::{reach_of, survey_of};
use crate::verdict::Unclear;
use crate::way::Way;
use rip_plan::Interface;
use rip_table::Table;

/// A router's route for a prefix, as it is read from what is shown.
#[derive(Clone, Copy)]
pub(crate) struct ReadRoute {
    pub metric: u32,
    pub way: Way,
    pub hidden: bool,
}

/// Of a router that cannot reach the prefix, and shows so.
const UNREACHABLE: ReadRoute = ReadRoute {
    metric: 16,
    way: Way::Unreachable,
    hidden: false,
};

/// The one metric and way that can be behind what a router with two interfaces shows, if there is
/// one.
#[inline(always)]
fn read_route<T: Table>(case: &Case<'_, T>, router: usize) -> Option<ReadRoute>
    requires router { router < length (network_of case.now).routers }
    requires two { HasTwoInterfaces (network_of case.now) router }
    ensures some { IfSome result (At case.now IsRead router) }
    ensures none { IfNone result (At case.now IsReadable router → ⊥) }
{
    case.lawful();
    let found = survey_of(case, router);
    if found.another {
        return None;
    }
    if found.metric == 16 {
        return Some(UNREACHABLE);
    }
    let way = match found.silent {
        None => {
            if found.not_here {
                return None;
            }
            Way::Here
        }
        Some(link) => {
            if found.blocked {
                return None;
            }
            Way::Over(link)
        }
    };
    Some(ReadRoute {
        metric: found.metric,
        way,
        hidden: false,
    })
}

/// The link of a router's first interface that tells nothing where the prefix is exchanged.
fn first_gap<T: Table>(case: &Case<'_, T>, router: usize) -> Option<usize>
    requires { router < length (network_of case.now).routers }
    ensures some { IfSome result (At case.now IsFirstGap router) }
    ensures none { IfNone result (At case.now ShowsEach router) }
{
    case.lawful();
    let numbers = case.plan.of_router(router);
    for i in numbers {
        let own = case.plan.interface(*i);
        if case.exchanges(own.link) && told_at(case, *i).is_none() {
            return Some(own.link);
        }
    }
    None
}

/// Why no route can be read of what a router tells where the prefix is exchanged.
fn reason_there<T: Table>(case: &Case<'_, T>, router: usize) -> Unclear
    requires { router < length (network_of case.now).routers }
    ensures { At case.now IsReason router result }
{
    case.lawful();
    let prefix = case.prefix;
    let found = survey_of(case, router);
    if found.another {
        return Unclear::TwoMetrics { router, prefix };
    }
    if let Some(link) = first_gap(case, router) {
        return Unclear::Missing {
            router,
            prefix,
            link,
        };
    }
    match case.attached_link(router) {
        Some(link) if found.not_here && found.silent.is_none() => Unclear::ShownOn {
            router,
            prefix,
            link,
        },
        _ => Unclear::TwoWays { router, prefix },
    }
}

/// Why no route of a router can be read: it tells the prefix where that is not exchanged, or what
/// it tells elsewhere does not say which.
pub(crate) fn reason<T: Table>(case: &Case<'_, T>, router: usize) -> Unclear
    requires { router < length (network_of case.now).routers }
    ensures { IsCause (plan_of case.now) (told_in case.now) router case.now.prefix result }
{
    match reach_of(case, router).loud {
        Some(link) => Unclear::ShownOn {
            router,
            prefix: case.prefix,
            link,
        },
        None => reason_there(case, router),
    }
}

/// The route of a router with one interface that tells nothing or 16 there. It may not be shown.
fn silent_leaf<T: Table>(case: &Case<'_, T>, own: Interface, told: Option<u32>) -> ReadRoute
    requires router { own.router < length (network_of case.now).routers }
    requires leaf { (i : ℕ) × IsLeaf (network_of case.now) own.router i own.link own.cost
        × (told ≡ metric_at (told_in case.now) i case.now.prefix) }
    requires silent { IsSilent told }
    ensures { At case.now IsRead own.router result }
{
    case.lawful();
    let attached = case.attached_link(own.router);
    if may_hold_back(case, attached, own.link) {
        return ReadRoute {
            metric: direct_or_16(case.plan, own.router, case.prefix),
            way: Way::Here,
            hidden: true,
        };
    }
    match told {
        None => UNREACHABLE,
        Some(_) => {
            let least = best_over(case, own, 16);
            ReadRoute {
                metric: least,
                way: if least < 16 {
                    Way::Over(own.link)
                } else {
                    Way::Unreachable
                },
                hidden: true,
            }
        }
    }
}

/// The route of a router with one interface, which has this number, if one can be read: there is none
/// where it shows a metric below 16 on the link to which the prefix is attached.
fn leaf_route<T: Table>(case: &Case<'_, T>, router: usize, only: usize) -> Option<ReadRoute>
    requires router { router < length (network_of case.now).routers }
    requires leaf { (l c : ℕ) × IsLeaf (network_of case.now) router only l c }
    ensures some { IfSome result (At case.now IsRead router) }
    ensures none { IfNone result (At case.now IsReadable router → ⊥) }
{
    case.lawful();
    let own = case.plan.interface(only);
    let told = told_at(case, only);
    match told {
        Some(metric) if metric < 16 => {
            if case.attached_link(router) == Some(own.link) {
                return None;
            }
            Some(ReadRoute {
                metric,
                way: Way::Here,
                hidden: false,
            })
        }
        _ => Some(silent_leaf(case, own, told)),
    }
}

/// The route of a router that is on no link that exchanges the prefix: its own, or none.
fn lone_route<T: Table>(case: &Case<'_, T>, router: usize) -> ReadRoute
    requires router { router < length (network_of case.now).routers }
    requires off { IsOff (network_of case.now) router }
    ensures { At case.now IsRead router result }
{
    case.lawful();
    match case.plan.direct_cost(router, case.prefix) {
        Some(cost) => ReadRoute {
            metric: u32::from(cost),
            way: Way::Here,
            hidden: true,
        },
        None => ReadRoute {
            metric: 16,
            way: Way::Unreachable,
            hidden: true,
        },
    }
}

/// The route of a router, if one can be read, in a plan in which some link may have a list: there is
/// none where it shows the prefix on a link that does not exchange it.
fn read_by_lists<T: Table>(case: &Case<'_, T>, router: usize) -> Option<ReadRoute>
    requires { router < length (network_of case.now).routers }
    ensures some { IfSome result (At case.now IsRead router) }
    ensures quiet { IfSome result (λ _.
        IsQuiet (plan_of case.now) (told_in case.now) router case.now.prefix) }
    ensures none { IfNone result
        (CanBeRead (plan_of case.now) (told_in case.now) router case.now.prefix → ⊥) }
{
    case.lawful();
    let reach = reach_of(case, router);
    if reach.loud.is_some() {
        return None;
    }
    match reach.first {
        None => Some(lone_route(case, router)),
        Some(only) => {
            if reach.more {
                read_route(case, router)
            } else {
                leaf_route(case, router, only)
            }
        }
    }
}

/// The route of a router, if one can be read.
pub(crate) fn read<T: Table>(case: &Case<'_, T>, router: usize) -> Option<ReadRoute>
    requires { router < length (network_of case.now).routers }
    ensures some { IfSome result (At case.now IsRead router) }
    ensures quiet { IfSome result (λ _.
        IsQuiet (plan_of case.now) (told_in case.now) router case.now.prefix) }
    ensures none { IfNone result
        (CanBeRead (plan_of case.now) (told_in case.now) router case.now.prefix → ⊥) }
{
    case.lawful();
    if case.plan.has_lists() {
        return read_by_lists(case, router);
    }
    if case.plan.leaf(router) {
        let only = case.plan.of_router(router)[0];
        return leaf_route(case, router, only);
    }
    read_route(case, router)
}
