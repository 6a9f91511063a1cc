//! Whether a failure may change a least metric of a prefix: where each router keeps a way, the
//! metrics of before stay.

ghost use Rattle.std.specs.Prelude.{◌≡◌, ◌≢◌, ◌+◌, ℕ, ◌<◌, ◌⊎◌, Decides, Some, false, length, slice_index, true};
ghost use Rattle.rip_plan.specs.Relations.{Exchanges, HasCost, IsAttached, IsKept, IsOn};
ghost use Rattle.rip_check.specs.Failures.{is_router_up, left_to};
ghost use Rattle.rip_check.specs.Networks.{block_at};
ghost use Rattle.rip_check.specs.Paths.{IsLeast};
ghost use Rattle.rip_check.specs.Scenarios.{IsScenario, network_before};
ghost use Rattle.rip_check.specs.Untouched.{HasWayLeft, IsStep, IsStepUp, IsUntouched, KeepsWay};

use crate::expected::Expected;
use crate::failures::{Failure, direct_left, is_link_up, is_router_up, takes};
use rip_plan::{Interface, Plan};

/// A failure in a plan, for a prefix, with the right routes before it.
#[derive(Clone, Copy)]
pub(crate) struct Scenario<'a> {
    pub plan: &'a Plan,
    pub before: &'a Expected,
    pub failure: Failure,
    pub prefix: usize,
}

impl Scenario<'_> {
    /// The least metric of a router before the failure.
    #[inline(always)]
    fn metric(&self, router: usize) -> u32
        requires scenario { IsScenario self.now }
        requires router { router < length self.now.plan.now.routers }
        ensures { IsLeast (network_before self.now) self.now.prefix router result }
    {
        self.before.number(self.plan, router, self.prefix)
    }

    /// Whether routers exchange the prefix over a link.
    fn exchanges(&self, link: usize) -> bool
        requires scenario { IsScenario self.now }
        requires link { link < length self.now.plan.now.links }
        ensures { Decides result (Exchanges self.now.plan.now link
            (block_at self.now.plan.now.prefixes self.now.prefix)) }
    {
        self.plan.exchanges(link, self.plan.prefix(self.prefix))
    }

    /// Whether a least path of a router, which has this metric, may begin over its interface, to
    /// another router: the cost and the least metric there come to the router's.
    #[inline(always)]
    fn is_step(&self, own: &Interface, metric: u32, next: usize) -> bool
        requires scenario { IsScenario self.now }
        requires metric { IsLeast (network_before self.now) self.now.prefix own.now.router metric }
        requires next { next < length self.now.plan.now.routers }
        ensures { result ≡ false →
            IsStep (network_before self.now) self.now.prefix own.now.router own.now.cost next → ⊥ }
    {
        u32::from(own.cost) + self.metric(next) == metric && metric < 16
    }

    /// Whether a neighbour that has not failed gives a router this metric over its interface, by
    /// the least metrics of before.
    fn is_given_over(&self, own: &Interface, metric: u32) -> bool
        requires scenario { IsScenario self.now }
        requires router { own.now.router < length self.now.plan.now.routers }
        requires own { HasCost (network_before self.now) own.now.router own.now.link own.now.cost }
        ensures { result ≡ true → (s w : ℕ) × (s ≢ own.now.router)
            × IsOn (network_before self.now) s own.now.link
            × (is_router_up (Some self.now.failure) s ≡ true)
            × (IsAttached (network_before self.now) s self.now.prefix own.now.link → ⊥)
            × IsLeast (network_before self.now) self.now.prefix s w × (metric ≡ own.now.cost + w) }
    {
        self.plan.lawful();
        let numbers = self.plan.on_link(own.link);
        for j in numbers {
            let across = self.plan.interface(*j).router;
            if across != own.router
                && u32::from(own.cost) + self.metric(across) == metric
                && is_router_up(Some(self.failure), across)
                && self.plan.attached_link(across, self.prefix) != Some(own.link)
            {
                return true;
            }
        }
        false
    }

    /// Whether a router that takes offers is given this metric over any link that exchanges the
    /// prefix and has not failed.
    fn is_given(&self, router: usize, metric: u32) -> bool
        requires scenario { IsScenario self.now }
        requires router { router < length self.now.plan.now.routers }
        requires up { is_router_up (Some self.now.failure) router ≡ true }
        requires takes { IsKept (left_to self.now.plan.now (Some self.now.failure) self.now.prefix)
            router self.now.prefix → ⊥ }
        ensures { result ≡ true →
            HasWayLeft self.now.plan.now self.now.failure self.now.prefix router metric }
    {
        self.plan.lawful();
        let numbers = self.plan.of_router(router);
        for i in numbers {
            let own = self.plan.interface(*i);
            if is_link_up(Some(self.failure), own.link)
                && self.exchanges(own.link)
                && self.is_given_over(&own, metric)
            {
                return true;
            }
        }
        false
    }

    /// Whether a router keeps a way after the failure, or has none below 16 before.
    fn keeps_way(&self, router: usize) -> bool
        requires scenario { IsScenario self.now }
        requires router { router < length self.now.plan.now.routers }
        ensures { result ≡ true →
            KeepsWay self.now.plan.now self.now.failure self.now.prefix router }
    {
        self.plan.lawful();
        let failure = Some(self.failure);
        let metric = self.metric(router);
        if metric == 16 || direct_left(self.plan, failure, router, self.prefix) == metric {
            return true;
        }
        takes(self.plan, failure, router, self.prefix) && self.is_given(router, metric)
    }

    /// Whether a least path of a router may begin over its interface.
    fn leads_over(&self, own: &Interface) -> bool
        requires scenario { IsScenario self.now }
        requires router { own.now.router < length self.now.plan.now.routers }
        requires own { HasCost (network_before self.now) own.now.router own.now.link own.now.cost }
        ensures { result ≡ false → (s : ℕ) → IsOn (network_before self.now) s own.now.link →
            IsStep (network_before self.now) self.now.prefix own.now.router own.now.cost s → ⊥ }
    {
        self.plan.lawful();
        let metric = self.metric(own.router);
        let numbers = self.plan.on_link(own.link);
        for j in numbers {
            let across = self.plan.interface(*j);
            if self.is_step(own, metric, across.router) {
                return true;
            }
        }
        false
    }

    /// Whether a least path of a router may begin over its interface, on the failed link or to the
    /// failed router.
    #[inline(always)]
    fn leads_down(&self, own: &Interface) -> bool
        requires scenario { IsScenario self.now }
        requires router { own.now.router < length self.now.plan.now.routers }
        requires own { HasCost (network_before self.now) own.now.router own.now.link own.now.cost }
        ensures { result ≡ false → (s : ℕ) → IsOn (network_before self.now) s own.now.link →
            IsStep (network_before self.now) self.now.prefix own.now.router own.now.cost s →
            IsStepUp self.now.failure own.now.link s }
    {
        match self.failure {
            Failure::Link(_) => self.leads_over(own),
            Failure::Router(failed) => self.is_step(own, self.metric(own.router), failed),
        }
    }

    /// Whether the failure may cut off the router of an interface there: a least path may begin so,
    /// and the router keeps no other way.
    #[inline(always)]
    fn is_cut(&self, own: &Interface) -> bool
        requires scenario { IsScenario self.now }
        requires router { own.now.router < length self.now.plan.now.routers }
        requires own { HasCost (network_before self.now) own.now.router own.now.link own.now.cost }
        ensures { result ≡ false → (s : ℕ) → IsOn (network_before self.now) s own.now.link →
            IsStep (network_before self.now) self.now.prefix own.now.router own.now.cost s →
            IsStepUp self.now.failure own.now.link s
            ⊎ KeepsWay self.now.plan.now self.now.failure self.now.prefix own.now.router }
    {
        self.leads_down(own) && !self.keeps_way(own.router)
    }

    /// Whether the failure may cut off any router over a link.
    #[inline(always)]
    fn is_cut_on(&self, link: usize) -> bool
        requires scenario { IsScenario self.now }
        requires link { link < length self.now.plan.now.links }
        ensures { result ≡ false → (r c s : ℕ) → r < length self.now.plan.now.routers →
            HasCost (network_before self.now) r link c → IsOn (network_before self.now) s link →
            IsStep (network_before self.now) self.now.prefix r c s →
            IsStepUp self.now.failure link s
            ⊎ KeepsWay self.now.plan.now self.now.failure self.now.prefix r }
    {
        self.plan.lawful();
        if !self.exchanges(link) {
            return false;
        }
        let numbers = self.plan.on_link(link);
        for j in numbers {
            let own = self.plan.interface(*j);
            if self.is_cut(&own) {
                return true;
            }
        }
        false
    }

    /// Whether the failure may cut off any router over a link of a router.
    fn is_cut_around(&self, router: usize) -> bool
        requires scenario { IsScenario self.now }
        requires router { router < length self.now.plan.now.routers }
        ensures { result ≡ false → (l r c s : ℕ) → r < length self.now.plan.now.routers →
            IsOn (network_before self.now) router l → HasCost (network_before self.now) r l c →
            IsOn (network_before self.now) s l →
            IsStep (network_before self.now) self.now.prefix r c s → IsStepUp self.now.failure l s
            ⊎ KeepsWay self.now.plan.now self.now.failure self.now.prefix r }
    {
        self.plan.lawful();
        let numbers = self.plan.of_router(router);
        for i in numbers {
            if self.is_cut_on(self.plan.interface(*i).link) {
                return true;
            }
        }
        false
    }

    /// Whether any router has the prefix attached to a link.
    fn is_attached_to(&self, link: usize) -> bool
        requires { link < length self.now.plan.now.links }
        ensures { result ≡ false → (r : ℕ) →
            IsAttached self.now.plan.now r self.now.prefix link → ⊥ }
    {
        self.plan.lawful();
        let numbers = self.plan.on_link(link);
        for j in numbers {
            let own = self.plan.interface(*j);
            if self.plan.attached_link(own.router, self.prefix) == Some(link) {
                return true;
            }
        }
        false
    }

    /// Whether the failure may change a least metric.
    pub(crate) fn touches(&self) -> bool
        requires { IsScenario self.now }
        ensures { result ≡ false →
            IsUntouched self.now.plan.now self.now.failure self.now.prefix }
    {
        match self.failure {
            Failure::Link(link) => {
                self.plan.is_place(link, self.prefix)
                    || self.is_attached_to(link)
                    || self.is_cut_on(link)
            }
            Failure::Router(router) => self.is_cut_around(router),
        }
    }

    /// Writes the least metric of each router where the failure changes none: that of before, or 16
    /// of a router that has failed.
    pub(crate) fn fill_before(&self, row: &mut [u8])
        requires scenario { IsScenario self.now }
        requires size { length row.old ≡ length self.now.plan.now.routers }
        ensures up { (r : ℕ) → r < length self.now.plan.now.routers →
            is_router_up (Some self.now.failure) r ≡ true →
            IsLeast (network_before self.now) self.now.prefix r (slice_index row.new r) }
        ensures failed { (r : ℕ) → r < length self.now.plan.now.routers →
            is_router_up (Some self.now.failure) r ≡ false → slice_index row.new r ≡ 16 }
    {
        for router in 0..row.len() {
            row[router] = if is_router_up(Some(self.failure), router) {
                self.metric(router) as u8
            } else {
                16
            };
        }
    }
}
