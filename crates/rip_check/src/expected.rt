//! The right routes of a plan: those of the tables that an audit would call settled.

ghost use Rattle.std.specs.Prelude.{◌≡◌, ◌≢◌, ℕ, ◌+◌, ◌*◌, ◌<◌, ◌≤◌, Decides, IfOk, length, slice_index};
ghost use Rattle.rip_plan.specs.Relations.{HasCost, IsKept};
ghost use Rattle.rip_check.specs.Expected.{AreExpected, AreUnreachable, IsCount, IsExpected};
ghost use Rattle.rip_check.specs.Networks.{network_at};
ghost use Rattle.rip_check.specs.Paths.{HasPathOver, IsLeast};

use crate::least::find_least;
use crate::lookup::metric_of;
use crate::places::is_direct;
use crate::way::Way;
use rip_plan::{Interface, MOST_ROUTERS, Plan};
use rip_wire::Metric;
use std::alloc::{AllocError, Global};

/// The right routes of a plan: the least metrics of its routers, and the ways that go with them.
#[derive(Drop)]
pub struct Expected {
    // Router by router a byte for each prefix: its least metric.
    metrics: Vec<u8>,
}

/// Keeps a prefix's metrics, which the row has router by router, among those of all prefixes.
pub(crate) fn keep(row: &[u8], prefix: usize, count: usize, metrics: &mut [u8])
    requires prefix { prefix < count }
    requires size { length metrics.old ≡ length row.now * count }
    ensures kept { (r : ℕ) → r < length row.now →
        slice_index metrics.new (r * count + prefix) ≡ slice_index row.now r }
    ensures others { (r q : ℕ) → q < count → q ≢ prefix →
        slice_index metrics.new (r * count + q) ≡ slice_index metrics.old (r * count + q) }
{
    for router in 0..row.len() {
        metrics[router * count + prefix] = row[router];
    }
}

impl Expected {
    /// Finds the right routes, in at most a pass over the interfaces for each hop of a path that
    /// costs less than 16. It fails where there is no memory for a byte for each router and prefix.
    pub fn find(alloc: Global, plan: &Plan) -> Result<Expected, AllocError>
        ensures { IfOk result (λ expected. AreExpected plan.now expected) }
    {
        plan.lawful();
        let count = plan.prefixes();
        let mut metrics = vec![in alloc; 0u8; plan.routers() * count]?;
        let mut room = [0u8; MOST_ROUTERS];
        let row = &mut room[..plan.routers()];
        for prefix in 0..count {
            find_least(plan, None, prefix, row);
            keep(row, prefix, count, metrics.as_mut_slice());
        }
        Ok(Expected { metrics })
    }

    /// The least metric, as a number.
    pub(crate) fn number(&self, plan: &Plan, router: usize, prefix: usize) -> u32
        requires expected { AreExpected plan.now self.now }
        requires router { router < length plan.now.routers }
        requires prefix { prefix < length plan.now.prefixes }
        ensures { IsLeast (network_at plan.now plan.now.prefixes prefix) prefix router result }
    {
        plan.lawful();
        u32::from(self.metrics[router * plan.prefixes() + prefix])
    }

    /// The least metric of a router for a prefix, both by their numbers: the cost of the cheapest
    /// path, or 16 where none costs less (RFC 2453, section 3.6).
    pub fn metric(&self, plan: &Plan, router: usize, prefix: usize) -> Metric
        requires expected { AreExpected plan.now self.now }
        requires router { router < length plan.now.routers }
        requires prefix { prefix < length plan.now.prefixes }
        ensures { IsLeast (network_at plan.now plan.now.prefixes prefix) prefix router result }
    {
        plan.lawful();
        metric_of(self.number(plan, router, prefix))
    }

    /// The least metric of a router for a prefix of any number: 16 where the plan does not have the
    /// prefix.
    pub fn least(&self, plan: &Plan, router: usize, prefix: usize) -> Metric
        requires expected { AreExpected plan.now self.now }
        requires router { router < length plan.now.routers }
        ensures { IsLeast (network_at plan.now plan.now.prefixes prefix) prefix router result }
    {
        plan.lawful();
        if prefix < plan.prefixes() {
            return self.metric(plan, router, prefix);
        }
        metric_of(16)
    }

    /// How many prefixes of the plan a router cannot reach.
    fn unreachable_of(&self, plan: &Plan, router: usize) -> usize
        requires expected { AreExpected plan.now self.now }
        requires router { router < length plan.now.routers }
        ensures count { IsCount (λ p. IsLeast (network_at plan.now plan.now.prefixes p) p router 16)
            (length plan.now.prefixes) result }
        ensures most { result ≤ length plan.now.prefixes }
    {
        let mut count = 0;
        for prefix in 0..plan.prefixes() {
            if self.number(plan, router, prefix) == 16 {
                count += 1;
            }
        }
        count
    }

    /// How many pairs of a router and a prefix of the plan have no path that costs less than 16.
    pub fn unreachable(&self, plan: &Plan) -> usize
        requires { AreExpected plan.now self.now }
        ensures { AreUnreachable plan.now result }
    {
        plan.lawful();
        let mut total = 0;
        for router in 0..plan.routers() {
            total += self.unreachable_of(plan, router);
        }
        total
    }

    /// Whether a neighbour over the link of an interface tells the metric of the router, less the
    /// cost of the interface: the first that does is enough. The router does not keep the prefix.
    fn is_over(&self, plan: &Plan, own: Interface, prefix: usize, metric: u32) -> bool
        requires expected { AreExpected plan.now self.now }
        requires prefix { prefix < length plan.now.prefixes }
        requires router { own.router < length plan.now.routers }
        requires own { HasCost (network_at plan.now plan.now.prefixes prefix) own.router own.link
            own.cost }
        requires takes { IsKept (network_at plan.now plan.now.prefixes prefix) own.router prefix
            → ⊥ }
        requires small { metric < 16 }
        requires least { IsLeast (network_at plan.now plan.now.prefixes prefix) prefix own.router
            metric }
        ensures { Decides result (HasPathOver (network_at plan.now plan.now.prefixes prefix) prefix
            own.router own.link metric) }
    {
        plan.lawful();
        let numbers = plan.on_link(own.link);
        for j in numbers {
            let across = plan.interface(*j);
            if across.router != own.router
                && u32::from(own.cost) + self.number(plan, across.router, prefix) == metric
                && plan.attached_link(across.router, prefix) != Some(own.link)
            {
                return true;
            }
        }
        false
    }

    /// Whether a least path of a router begins over a link.
    fn begins_over(
        &self,
        plan: &Plan,
        router: usize,
        prefix: usize,
        metric: u32,
        link: usize,
    ) -> bool
        requires expected { AreExpected plan.now self.now }
        requires router { router < length plan.now.routers }
        requires prefix { prefix < length plan.now.prefixes }
        requires small { metric < 16 }
        requires least { IsLeast (network_at plan.now plan.now.prefixes prefix) prefix router
            metric }
        ensures { Decides result (HasPathOver (network_at plan.now plan.now.prefixes prefix) prefix
            router link metric) }
    {
        plan.lawful();
        if plan.keeps(router, prefix) {
            return false;
        }
        match plan.interface_on(router, link) {
            Some(own) => {
                plan.exchanges(link, plan.prefix(prefix)) && self.is_over(plan, own, prefix, metric)
            }
            None => false,
        }
    }

    /// Whether a way is right for a router and a prefix: the route of the least metric that goes
    /// this way is one of the right ones. There may be several, and there is none over a link that
    /// carries the prefix or does not exchange it, or that the router is not on, nor over any link
    /// where the router keeps the prefix.
    pub fn is_right(&self, plan: &Plan, router: usize, prefix: usize, way: Way) -> bool
        requires expected { AreExpected plan.now self.now }
        requires router { router < length plan.now.routers }
        requires prefix { prefix < length plan.now.prefixes }
        ensures { (m : ℕ) → IsLeast (network_at plan.now plan.now.prefixes prefix) prefix router m →
            Decides result (IsExpected (network_at plan.now plan.now.prefixes prefix) router prefix
            (record { metric = m; way = way })) }
    {
        plan.lawful();
        let metric = self.number(plan, router, prefix);
        match way {
            Way::Unreachable => metric == 16,
            Way::Here => metric < 16 && is_direct(plan, router, prefix, metric),
            Way::Over(link) => {
                metric < 16 && self.begins_over(plan, router, prefix, metric, link)
            }
        }
    }
}
