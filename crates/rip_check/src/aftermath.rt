//! What a failure leaves of the right routes of a plan, and what it costs.

ghost use Rattle.std.specs.Prelude.{◌≡◌, ℕ, ◌<◌, ◌≤◌, Decides, IfOk, Some, length, nat_lt, slice_index};
ghost use Rattle.rip_plan.specs.Relations.{IsDirect};
ghost use Rattle.rip_check.specs.Expected.{AreExpected, IsCount};
ghost use Rattle.rip_check.specs.Failures.{IsKnown, left_to, network_left};
ghost use Rattle.rip_check.specs.Impacts.{AreLeft, HasRoom, IsChange, IsImpact, IsPart};
ghost use Rattle.rip_check.specs.Losses.{IsGone, IsLost, Loses};
ghost use Rattle.rip_check.specs.Paths.{IsLeast};
ghost use Rattle.rip_check.specs.Scenarios.{AreLosses, IsScenario};

use crate::expected::{Expected, keep};
use crate::failures::{Failure, direct_left, is_router_up};
use crate::least::find_least;
use crate::untouched::Scenario;
use rip_plan::{MOST_ROUTERS, Plan};
use std::alloc::{AllocError, Global};

/// The right routes that a failure leaves: the least metrics of all routers, and the prefixes that
/// are gone.
#[derive(Drop)]
pub struct Aftermath {
    // Router by router a byte for each prefix: its least metric.
    metrics: Vec<u8>,
    // Which prefixes no router has any more.
    gone: Vec<bool>,
}

/// What a failure costs: how many pairs of a router and a prefix are lost, how many prefixes are
/// gone, and how many pairs go a longer way.
#[derive(Clone, Copy)]
pub struct Impact {
    /// The pairs that are lost.
    pub lost: usize,
    /// The prefixes that are gone.
    pub gone: usize,
    /// The pairs whose metric is greater.
    pub longer: usize,
    /// The greatest metric of these, 0 where there is none.
    pub farthest: u8,
    /// The first router that loses most.
    pub hardest_hit: usize,
    /// How many prefixes it loses.
    pub most_lost: usize,
}

/// What a failure costs one router.
#[derive(Clone, Copy)]
struct Part {
    lost: usize,
    longer: usize,
    farthest: u8,
}

/// What becomes of a router's metric for a prefix.
#[derive(Clone, Copy)]
enum Change {
    /// None of what is counted.
    Other,
    /// It is lost.
    Lost,
    /// It is this one, and greater.
    Longer(u8),
}

/// Whether any router has a prefix itself after a failure.
fn is_anywhere(plan: &Plan, failure: Option<Failure>, prefix: usize) -> bool
    ensures { Decides result
        ((r c : ℕ) × IsDirect (network_left plan.now failure) r prefix c) }
{
    plan.lawful();
    for router in 0..plan.routers() {
        if direct_left(plan, failure, router, prefix) < 16 {
            return true;
        }
    }
    false
}

/// Whether a prefix is gone after a failure.
fn is_gone(plan: &Plan, failure: Failure, prefix: usize) -> bool
    ensures { Decides result (IsGone plan.now failure prefix) }
{
    !is_anywhere(plan, Some(failure), prefix) && is_anywhere(plan, None, prefix)
}

/// Writes the least metric of each router for a prefix after a failure.
fn find_after(scenario: &Scenario<'_>, row: &mut [u8])
    requires scenario { IsScenario scenario.now }
    requires size { length row.old ≡ length scenario.now.plan.now.routers }
    ensures { (r : ℕ) → r < length scenario.now.plan.now.routers →
        IsLeast (left_to scenario.now.plan.now (Some scenario.now.failure) scenario.now.prefix)
        scenario.now.prefix r (slice_index row.new r) }
{
    scenario.plan.lawful();
    if scenario.touches() {
        find_least(scenario.plan, Some(scenario.failure), scenario.prefix, row);
    } else {
        scenario.fill_before(row);
    }
}

impl Aftermath {
    /// Room for what failures leave of a plan's routes. It fails where there is no memory for a
    /// byte for each router and prefix, and one for each prefix.
    pub fn new(alloc: Global, plan: &Plan) -> Result<Aftermath, AllocError>
        ensures { IfOk result (λ aftermath. HasRoom plan.now aftermath) }
    {
        plan.lawful();
        let metrics = vec![in alloc; 0u8; plan.routers() * plan.prefixes()]?;
        let gone = vec![in alloc; false; plan.prefixes()]?;
        Ok(Aftermath { metrics, gone })
    }

    /// Finds what a failure leaves.
    pub fn find(&mut self, plan: &Plan, before: &Expected, failure: Failure)
        requires room { HasRoom plan.now self.old }
        requires before { AreExpected plan.now before.now }
        requires known { IsKnown plan.now failure }
        ensures { AreLeft plan.now failure self.new }
    {
        plan.lawful();
        let count = plan.prefixes();
        let mut room = [0u8; MOST_ROUTERS];
        let row = &mut room[..plan.routers()];
        for prefix in 0..count {
            let scenario = Scenario {
                plan,
                before,
                failure,
                prefix,
            };
            find_after(&scenario, row);
            keep(row, prefix, count, self.metrics.as_mut_slice());
            self.gone[prefix] = is_gone(plan, failure, prefix);
        }
    }

    /// The least metric after the failure, as a number.
    fn number(&self, plan: &Plan, failure: Failure, router: usize, prefix: usize) -> u32
        requires left { AreLeft plan.now failure self.now }
        requires router { router < length plan.now.routers }
        requires prefix { prefix < length plan.now.prefixes }
        ensures { IsLeast (left_to plan.now (Some failure) prefix) prefix router result }
    {
        plan.lawful();
        u32::from(self.metrics[router * plan.prefixes() + prefix])
    }
}

/// A failure in a plan, with the right routes before it, and what it leaves of them: what the costs
/// of the failure are asked of.
#[derive(Clone, Copy)]
pub struct Losses<'a> {
    pub plan: &'a Plan,
    pub before: &'a Expected,
    pub failure: Failure,
    pub after: &'a Aftermath,
}

impl Losses<'_> {
    /// Whether a prefix is gone: a router had it itself before the failure, and none has after it.
    pub fn is_gone(&self, prefix: usize) -> bool
        requires left { AreLeft self.now.plan.now self.now.failure self.now.after.now }
        requires prefix { prefix < length self.now.plan.now.prefixes }
        ensures { Decides result (IsGone self.now.plan.now self.now.failure prefix) }
    {
        self.after.gone[prefix]
    }

    /// What becomes of a router's metric for a prefix.
    fn change(&self, router: usize, prefix: usize) -> Change
        requires losses { AreLosses self.now }
        requires router { router < length self.now.plan.now.routers }
        requires prefix { prefix < length self.now.plan.now.prefixes }
        ensures { IsChange self.now.plan.now self.now.failure router prefix result }
    {
        let old = self.before.number(self.plan, router, prefix);
        let new = self.after.number(self.plan, self.failure, router, prefix);
        if new <= old || !is_router_up(Some(self.failure), router) {
            return Change::Other;
        }
        if new < 16 {
            return Change::Longer(new as u8);
        }
        if !self.is_gone(prefix) {
            return Change::Lost;
        }
        Change::Other
    }

    /// Whether a router loses a prefix.
    pub fn is_lost(&self, router: usize, prefix: usize) -> bool
        requires losses { AreLosses self.now }
        requires router { router < length self.now.plan.now.routers }
        requires prefix { prefix < length self.now.plan.now.prefixes }
        ensures { Decides result (IsLost self.now.plan.now self.now.failure router prefix) }
    {
        match self.change(router, prefix) {
            Change::Lost => true,
            _ => false,
        }
    }

    /// What the failure costs a router.
    fn part_of(&self, router: usize) -> Part
        requires losses { AreLosses self.now }
        requires router { router < length self.now.plan.now.routers }
        ensures { IsPart self.now.plan.now self.now.failure router result }
    {
        self.plan.lawful();
        let mut part = Part {
            lost: 0,
            longer: 0,
            farthest: 0,
        };
        for prefix in 0..self.plan.prefixes() {
            match self.change(router, prefix) {
                Change::Other => {}
                Change::Lost => part.lost += 1,
                Change::Longer(metric) => {
                    part.longer += 1;
                    part.farthest = part.farthest.max(metric);
                }
            }
        }
        part
    }

    /// How many prefixes are gone.
    fn count_gone(&self) -> usize
        requires { AreLosses self.now }
        ensures { IsCount (IsGone self.now.plan.now self.now.failure)
            (length self.now.plan.now.prefixes) result }
    {
        self.plan.lawful();
        let mut count = 0;
        for prefix in 0..self.plan.prefixes() {
            if self.is_gone(prefix) {
                count += 1;
            }
        }
        count
    }

    /// What the failure costs.
    pub fn impact(&self) -> Impact
        requires { AreLosses self.now }
        ensures impact { IsImpact self.now.plan.now self.now.failure result }
        ensures losing { Decides (nat_lt 0 result.lost)
            (Loses self.now.plan.now self.now.failure) }
    {
        self.plan.lawful();
        let mut impact = Impact {
            lost: 0,
            gone: self.count_gone(),
            longer: 0,
            farthest: 0,
            hardest_hit: 0,
            most_lost: 0,
        };
        for router in 0..self.plan.routers() {
            let part = self.part_of(router);
            impact.lost += part.lost;
            impact.longer += part.longer;
            impact.farthest = impact.farthest.max(part.farthest);
            if part.lost > impact.most_lost {
                impact.most_lost = part.lost;
                impact.hardest_hit = router;
            }
        }
        impact
    }
}
