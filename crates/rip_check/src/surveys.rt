//! What a router tells of a prefix, found by walks over its interfaces.

ghost use Rattle.std.specs.Prelude.{◌≡◌, ◌↔◌, ℕ, ◌+◌, ◌<◌, ◌≤◌, Decides, IfSome, None, Some, false, length, not};
ghost use Rattle.rip_plan.specs.Network.{Network};
ghost use Rattle.rip_plan.specs.Relations.{HasList, IsAttached, IsInterface};
ghost use Rattle.rip_table.specs.State.{State};
ghost use Rattle.rip_check.specs.Cases.{network_of, plan_of, told_in};
ghost use Rattle.rip_check.specs.Metrics.{metric_at};
ghost use Rattle.rip_check.specs.Surveys.{IsLoudness, IsReach, IsSurvey};
ghost use Rattle.rip_check.specs.Tables.{IsSilent};

use crate::case::Case;
use crate::lookup::{may_hold_back, told_at};
use rip_table::Table;

/// What a router tells of a prefix.
#[derive(Clone, Copy)]
pub(crate) struct Survey {
    /// The first metric below 16 that is told, or 16.
    pub metric: u32,
    /// Whether another metric below 16 is told.
    pub another: bool,
    /// The link of the first silent interface (nothing or 16) on a link that does not carry the
    /// prefix and to which it is not attached. Where there is none the route may be the router's
    /// own, which may be held back on those links.
    pub silent: Option<usize>,
    /// Whether this cannot come from a route over one link, which is poisoned there and told
    /// everywhere else: two interfaces are silent, or one on a link that carries the prefix or to
    /// which it is attached, or the interface on the link of `silent` tells nothing, and not 16.
    pub blocked: bool,
    /// Whether a metric below 16 is told on the link to which the prefix is attached, so that the
    /// route is not the router's own.
    pub not_here: bool,
}

/// Which interfaces of a router are on links that exchange a prefix, and what the others tell.
#[derive(Clone, Copy)]
pub(crate) struct Reach {
    /// The first interface on a link that exchanges the prefix.
    pub first: Option<usize>,
    /// Whether there is another such interface.
    pub more: bool,
    /// The link of the first interface that tells a metric below 16 where the prefix is not
    /// exchanged.
    pub loud: Option<usize>,
}

/// Adds an interface that tells this metric below 16, on the link to which the prefix is attached
/// or on another.
fn add_speech(found: &mut Survey, on_attached: bool, metric: u32)
    requires low { 1 ≤ metric }
    requires high { metric < 16 }
    ensures { (n : Network) (t : State) (r i l c p : ℕ) → IsSurvey n t r p i found.old →
        IsInterface n i r l c → metric_at t i p ≡ Some metric →
        Decides on_attached (IsAttached n r p l) → IsSurvey n t r p (i + 1) found.new }
{
    found.not_here = found.not_here || on_attached;
    if found.metric == 16 {
        found.metric = metric;
    } else if metric != found.metric {
        found.another = true;
    }
}

/// Adds an interface that is on this link and tells nothing or 16, by the link to which the prefix
/// is attached.
fn add_silence<T: Table>(
    case: &Case<'_, T>,
    found: &mut Survey,
    attached: Option<usize>,
    link: usize,
    shown: Option<u32>,
)
    requires { IsSilent shown }
    ensures { (r i c : ℕ) →
        IsSurvey (network_of case.now) (told_in case.now) r case.now.prefix i found.old →
        IsInterface (network_of case.now) i r link c →
        metric_at (told_in case.now) i case.now.prefix ≡ shown →
        ((l : ℕ) → (attached ≡ Some l) ↔ IsAttached (network_of case.now) r case.now.prefix l) →
        IsSurvey (network_of case.now) (told_in case.now) r case.now.prefix (i + 1) found.new }
{
    case.lawful();
    if found.silent.is_some() || may_hold_back(case, attached, link) {
        found.blocked = true;
    } else {
        found.silent = Some(link);
        found.blocked = found.blocked || shown.is_none();
    }
}

/// Adds an interface that is on this link and tells this, by the link to which the prefix is
/// attached.
fn add_shown<T: Table>(
    case: &Case<'_, T>,
    found: &mut Survey,
    attached: Option<usize>,
    link: usize,
    shown: Option<u32>,
)
    requires { IfSome shown (λ m. (1 ≤ m) × (m ≤ 16)) }
    ensures { (r i c : ℕ) →
        IsSurvey (network_of case.now) (told_in case.now) r case.now.prefix i found.old →
        IsInterface (network_of case.now) i r link c →
        metric_at (told_in case.now) i case.now.prefix ≡ shown →
        ((l : ℕ) → (attached ≡ Some l) ↔ IsAttached (network_of case.now) r case.now.prefix l) →
        IsSurvey (network_of case.now) (told_in case.now) r case.now.prefix (i + 1) found.new }
{
    match shown {
        Some(metric) if metric < 16 => add_speech(found, attached == Some(link), metric),
        _ => add_silence(case, found, attached, link, shown),
    }
}

/// What a router tells of a prefix, in a plan in which no link has a list, or in one in which some
/// link may have one. Every place is read by it, so it stands in the loop over them.
#[inline(always)]
fn survey_where<T: Table, const LISTS: bool>(case: &Case<'_, T>, router: usize) -> Survey
    requires router { router < length (network_of case.now).routers }
    requires free { LISTS ≡ false → (l : ℕ) → HasList (plan_of case.now) l → ⊥ }
    ensures { IsSurvey (network_of case.now) (told_in case.now) router case.now.prefix
        (length (network_of case.now).interfaces) result }
{
    let mut found = Survey {
        metric: 16,
        another: false,
        silent: None,
        blocked: false,
        not_here: false,
    };
    case.lawful();
    let attached = case.attached_link(router);
    let numbers = case.plan.of_router(router);
    for i in numbers {
        let own = case.plan.interface(*i);
        if case.exchanges_where::<LISTS>(own.link) {
            let told = told_at(case, *i);
            add_shown(case, &mut found, attached, own.link, told);
        }
    }
    found
}

/// What a router tells of a prefix.
#[inline(always)]
pub(crate) fn survey_of<T: Table>(case: &Case<'_, T>, router: usize) -> Survey
    requires { router < length (network_of case.now).routers }
    ensures { IsSurvey (network_of case.now) (told_in case.now) router case.now.prefix
        (length (network_of case.now).interfaces) result }
{
    if case.plan.has_lists() {
        survey_where::<T, true>(case, router)
    } else {
        survey_where::<T, false>(case, router)
    }
}

/// Whether an interface tells a metric below 16.
fn is_loud<T: Table>(case: &Case<'_, T>, interface: usize) -> bool
    requires { interface < length (plan_of case.now).interfaces }
    ensures { Decides (not result)
        (IsSilent (metric_at (told_in case.now) interface case.now.prefix)) }
{
    match told_at(case, interface) {
        Some(metric) => metric < 16,
        None => false,
    }
}

/// Which interfaces of a router are on links that exchange the prefix, and what the others tell.
pub(crate) fn reach_of<T: Table>(case: &Case<'_, T>, router: usize) -> Reach
    requires { router < length (network_of case.now).routers }
    ensures reach { IsReach (network_of case.now) router (length (network_of case.now).interfaces)
        result.first result.more }
    ensures loud { IsLoudness (plan_of case.now) (told_in case.now) router case.now.prefix
        (length (plan_of case.now).interfaces) result.loud }
{
    case.lawful();
    let mut found = Reach {
        first: None,
        more: false,
        loud: None,
    };
    let numbers = case.plan.of_router(router);
    for i in numbers {
        let own = case.plan.interface(*i);
        if case.exchanges(own.link) {
            match found.first {
                Some(_) => found.more = true,
                None => found.first = Some(*i),
            }
        } else if found.loud.is_none() && is_loud(case, *i) {
            found.loud = Some(own.link);
        }
    }
    found
}
