//! What the neighbours of a router offer, and the least that it can choose from.

ghost use Rattle.std.specs.Prelude.{◌≡◌, ◌≢◌, ℕ, ◌+◌, ◌<◌, ◌≤◌, ◌⊎◌, Decides, length};
ghost use Rattle.rip_plan.specs.Network.{Network};
ghost use Rattle.rip_plan.specs.Relations.{HasCost, IsDirect, IsInterface, IsKept};
ghost use Rattle.rip_table.specs.State.{Fits};
ghost use Rattle.rip_check.specs.Cases.{At, network_of, plan_of, told_in};
ghost use Rattle.rip_check.specs.Networks.{network_at};
ghost use Rattle.rip_check.specs.Settled.{IsChoice};
ghost use Rattle.rip_check.specs.Tables.{Offers};
ghost use Rattle.rip_check.specs.TwoLeasts.{IsSeen, IsTwoLeast};

use crate::case::Case;
use crate::links::{TwoLeast, seen_at};
use crate::lookup::metric_of;
use rip_plan::{Interface, Plan};
use rip_table::Table;
use rip_wire::Metric;

/// The least of `best` and of what the neighbours over a link offer a router, whose interface there
/// has this cost, by asking each. Over a link that does not exchange the prefix nothing is offered.
fn least_asked<T: Table>(case: &Case<'_, T>, router: usize, link: usize, cost: u8, best: u32) -> u32
    requires own { HasCost (plan_of case.now) router link cost }
    requires best { best ≤ 16 }
    ensures at_most { result ≤ best }
    ensures least { (s v : ℕ) → Offers (network_of case.now) (told_in case.now)
        router link s case.now.prefix v → result ≤ v }
    ensures chosen { (result ≡ best) ⊎ ((s : ℕ) × Offers (network_of case.now)
        (told_in case.now) router link s case.now.prefix result) }
{
    case.lawful();
    let mut least = best;
    if !case.exchanges(link) {
        return least;
    }
    let numbers = case.plan.on_link(link);
    for j in numbers {
        let across = case.plan.interface(*j);
        if across.router != router {
            least = (u32::from(cost) + seen_at(case, *j)).min(least);
        }
    }
    least
}

/// The least of `best` and of what the neighbours over a link give, by the two least metrics there:
/// the cost of the interface and a neighbour's metric.
pub(crate) fn least_told(own: Interface, two: TwoLeast, best: u32) -> u32
    requires most { best ≤ 16 }
    requires least { two.least ≤ 16 }
    requires next { two.next ≤ 16 }
    ensures at_most { result ≤ best }
    ensures nothing { two.least ≡ 16 → two.next ≡ 16 → result ≡ best }
    ensures least { (n : Network) (seen : ℕ → ℕ → ℕ → ℕ) (j s v : ℕ) →
        IsTwoLeast n seen own.link (length n.interfaces) two → IsSeen n seen own.link j s v →
        s ≢ own.router → result ≤ own.cost + v }
    ensures chosen { (n : Network) (seen : ℕ → ℕ → ℕ → ℕ) →
        IsTwoLeast n seen own.link (length n.interfaces) two → (result ≡ best)
        ⊎ ((j s v : ℕ) × IsSeen n seen own.link j s v × (s ≢ own.router)
        × (result ≡ own.cost + v)) }
{
    let shown = if own.router == usize::from(two.by) {
        two.next
    } else {
        two.least
    };
    (u32::from(own.cost) + u32::from(shown)).min(best)
}

/// The least of `best` and of what the neighbours over the link of an interface offer: by the two
/// least metrics that are told on each link, where they are known, or else by asking each
/// neighbour.
#[inline(always)]
pub(crate) fn best_over<T: Table>(case: &Case<'_, T>, own: Interface, best: u32) -> u32
    requires own { HasCost (plan_of case.now) own.router own.link own.cost }
    requires best { best ≤ 16 }
    ensures at_most { result ≤ best }
    ensures least { (s v : ℕ) → Offers (network_of case.now) (told_in case.now)
        own.router own.link s case.now.prefix v → result ≤ v }
    ensures chosen { (result ≡ best) ⊎ ((s : ℕ) × Offers (network_of case.now)
        (told_in case.now) own.router own.link s case.now.prefix result) }
{
    case.lawful();
    match case.links {
        Some(links) => {
            let two = links[own.link];
            least_told(own, two, best)
        }
        None => least_asked(case, own.router, own.link, own.cost, best),
    }
}

/// The metric at which a router has a prefix itself, or 16.
pub(crate) fn direct_or_16(plan: &Plan, router: usize, prefix: usize) -> u32
    ensures most { result ≤ 16 }
    ensures chosen { (result ≡ 16) ⊎ IsDirect plan.now router prefix result }
    ensures least { (c : ℕ) → IsDirect plan.now router prefix c → result ≤ c }
{
    plan.lawful();
    match plan.direct_cost(router, prefix) {
        Some(cost) => u32::from(cost),
        None => 16,
    }
}

/// The least of 16, the direct cost and all offers; the direct cost where the router keeps the
/// prefix.
pub(crate) fn least_choice<T: Table>(case: &Case<'_, T>, router: usize, keeps: bool) -> u32
    requires router { router < length (network_of case.now).routers }
    requires keeps { Decides keeps (IsKept (network_of case.now) router case.now.prefix) }
    ensures most { result ≤ 16 }
    ensures chosen { At case.now IsChoice router result }
    ensures least { (v : ℕ) → At case.now IsChoice router v → result ≤ v }
{
    case.lawful();
    let mut best = direct_or_16(case.plan, router, case.prefix);
    if keeps {
        return best;
    }
    let numbers = case.plan.of_router(router);
    for i in numbers {
        let own = case.plan.interface(*i);
        best = best_over(case, own, best);
    }
    best
}

impl<T: Table> Case<'_, T> {
    /// What a neighbour offers a router: the sum of what the neighbour's interface `across` shows,
    /// or of 16 where it shows nothing, and of the cost of the router's own interface on the same
    /// link; 16 where that is more (RFC 2453, section 3.9.2).
    pub fn offer(&self, own: Interface, across: usize) -> Metric
        requires own { HasCost (network_of self.now) own.router own.link own.cost }
        requires across { (s c : ℕ) × IsInterface (network_of self.now) across s own.link c
            × (s ≢ own.router) }
        ensures { (s c : ℕ) → IsInterface (network_of self.now) across s own.link c →
            Offers (network_of self.now) (T.state self.now.table.now) own.router own.link s
            self.now.prefix result }
    {
        match self.table.metric(across, self.prefix) {
            Some(metric) => metric.plus(own.cost),
            None => metric_of(16),
        }
    }
}

/// What a neighbour offers a router: the sum of what the neighbour's interface `across` shows of a
/// prefix, or of 16 where it shows nothing, and of the cost of the router's own interface on the
/// same link; 16 where that is more (RFC 2453, section 3.9.2).
pub fn offer<T: Table>(
    plan: &Plan,
    table: &T,
    own: Interface,
    across: usize,
    prefix: usize,
) -> Metric
    requires fits { Fits plan.now (T.state table.now) }
    requires prefix { prefix < length (T.state table.now).prefixes }
    requires own { HasCost (network_at plan.now (T.state table.now).prefixes prefix)
        own.router own.link own.cost }
    requires across { (s c : ℕ)
        × IsInterface (network_at plan.now (T.state table.now).prefixes prefix) across s own.link c
        × (s ≢ own.router) }
    ensures { (s c : ℕ) →
        IsInterface (network_at plan.now (T.state table.now).prefixes prefix) across s own.link c →
        Offers (network_at plan.now (T.state table.now).prefixes prefix) (T.state table.now)
        own.router own.link s prefix result }
{
    Case::new(plan, table, prefix).offer(own, across)
}
