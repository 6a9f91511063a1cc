//! Failures of a link or a router, and what is left after one.

ghost use Rattle.std.specs.Prelude.{◌≡◌, ℕ, ◌<◌, ◌≤◌, ◌⊎◌, Decides, false, length, true};
ghost use Rattle.rip_plan.specs.Relations.{Carries, IsAttached, IsDirect, IsKept, IsOn};
ghost use Rattle.rip_check.specs.Failures.{is_any_up, is_link_up, is_router_up, network_left};

use crate::offers::direct_or_16;
use rip_plan::Plan;

/// A failure of one part of a network, by its number.
#[derive(Clone, Copy)]
pub enum Failure {
    /// Of a link.
    Link(usize),
    /// Of a router.
    Router(usize),
}

/// Whether a link has not failed.
pub(crate) fn is_link_up(failure: Option<Failure>, link: usize) -> bool
    ensures { result ≡ is_link_up failure link }
{
    match failure {
        Some(Failure::Link(failed)) => link != failed,
        _ => true,
    }
}

/// Whether a router has not failed.
pub(crate) fn is_router_up(failure: Option<Failure>, router: usize) -> bool
    ensures { result ≡ is_router_up failure router }
{
    match failure {
        Some(Failure::Router(failed)) => router != failed,
        _ => true,
    }
}

/// Whether the interface of a router on a link is alive.
pub(crate) fn is_alive(failure: Option<Failure>, router: usize, link: usize) -> bool
    ensures { Decides result
        ((is_router_up failure router ≡ true) × (is_link_up failure link ≡ true)) }
{
    is_router_up(failure, router) && is_link_up(failure, link)
}

/// Whether a router's direct route to a prefix, if it has one, does not depend on the failed link.
fn has_beside(plan: &Plan, failed: usize, router: usize, prefix: usize) -> bool
    requires { router < length plan.now.routers }
    ensures attached { result ≡ true → IsAttached plan.now router prefix failed → ⊥ }
    ensures carried { result ≡ true → Carries plan.now failed prefix →
        IsOn plan.now router failed → ⊥ }
    ensures lost { result ≡ false → IsAttached plan.now router prefix failed
        ⊎ (Carries plan.now failed prefix × IsOn plan.now router failed) }
{
    if plan.attached_link(router, prefix) == Some(failed) {
        return false;
    }
    !(plan.is_place(failed, prefix) && plan.is_on(router, failed))
}

/// Whether the link to which a prefix is attached, if it is, has not failed.
fn is_any_up(failure: Option<Failure>, link: Option<usize>) -> bool
    ensures { result ≡ is_any_up failure link }
{
    match link {
        Some(link) => is_link_up(failure, link),
        None => true,
    }
}

/// Whether a router that has not failed still keeps a prefix.
fn keeps(plan: &Plan, failure: Option<Failure>, router: usize, prefix: usize) -> bool
    requires { is_router_up failure router ≡ true }
    ensures { Decides result (IsKept (network_left plan.now failure) router prefix) }
{
    plan.lawful();
    plan.keeps(router, prefix) && is_any_up(failure, plan.attached_link(router, prefix))
}

/// Whether a router takes what is told of a prefix after a failure: it has not failed, and does not
/// keep the prefix.
pub(crate) fn takes(plan: &Plan, failure: Option<Failure>, router: usize, prefix: usize) -> bool
    ensures { Decides result ((is_router_up failure router ≡ true)
        × (IsKept (network_left plan.now failure) router prefix → ⊥)) }
{
    is_router_up(failure, router) && !keeps(plan, failure, router, prefix)
}

/// Whether a router's direct route to a prefix, if it has one, survives a failure.
fn has_left(plan: &Plan, failure: Option<Failure>, router: usize, prefix: usize) -> bool
    requires { router < length plan.now.routers }
    ensures left { result ≡ true → (c : ℕ) → IsDirect plan.now router prefix c →
        IsDirect (network_left plan.now failure) router prefix c }
    ensures lost { result ≡ false → (c : ℕ) →
        IsDirect (network_left plan.now failure) router prefix c → ⊥ }
{
    plan.lawful();
    match failure {
        None => true,
        Some(Failure::Link(failed)) => has_beside(plan, failed, router, prefix),
        Some(Failure::Router(failed)) => router != failed,
    }
}

/// The metric at which a router has a prefix itself after a failure, or 16.
pub(crate) fn direct_left(
    plan: &Plan,
    failure: Option<Failure>,
    router: usize,
    prefix: usize,
) -> u32
    requires { router < length plan.now.routers }
    ensures most { result ≤ 16 }
    ensures chosen { (result ≡ 16)
        ⊎ IsDirect (network_left plan.now failure) router prefix result }
    ensures least { (c : ℕ) →
        IsDirect (network_left plan.now failure) router prefix c → result ≤ c }
{
    if has_left(plan, failure, router, prefix) {
        direct_or_16(plan, router, prefix)
    } else {
        16
    }
}
