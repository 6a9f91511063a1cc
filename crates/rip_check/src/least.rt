//! The least metrics of all routers for a prefix, from the plan alone, or after a failure.

ghost use Rattle.std.specs.Prelude.{◌≡◌, ℕ, ◌<◌, ◌≤◌, ◌⊎◌, Some, false, length, slice_get, slice_index, true};
ghost use Rattle.rip_plan.specs.Relations.{Exchanges, IsAttached, IsDirect, IsOn};
ghost use Rattle.rip_check.specs.Failures.{is_link_up, left_to};
ghost use Rattle.rip_check.specs.Networks.{block_at, network_at};
ghost use Rattle.rip_check.specs.Paths.{IsLeast};
ghost use Rattle.rip_check.specs.Tellings.{AreTold, HasTold, IsTelling, IsTold};

use crate::failures::{Failure, direct_left, is_alive, takes};
use crate::lookup::metric_of;
use rip_plan::{MOST_LINKS, MOST_ROUTERS, Plan};
use rip_wire::Metric;

/// Writes the metric at which each router has a prefix itself after a failure, or 16.
fn fill_direct(plan: &Plan, failure: Option<Failure>, prefix: usize, metrics: &mut [u8])
    requires { length metrics.old ≡ length plan.now.routers }
    ensures most { (r : ℕ) → slice_index metrics.new r ≤ 16 }
    ensures chosen { (r : ℕ) → r < length metrics.new → (slice_index metrics.new r ≡ 16)
        ⊎ IsDirect (left_to plan.now failure prefix) r prefix (slice_index metrics.new r) }
    ensures least { (r c : ℕ) → IsDirect (left_to plan.now failure prefix) r prefix c →
        slice_index metrics.new r ≤ c }
{
    plan.lawful();
    for router in 0..metrics.len() {
        metrics[router] = direct_left(plan, failure, router, prefix) as u8;
    }
}

/// Tells a metric on a link: each router there that takes offers has no more than it and the cost
/// of its interface from then on (RFC 2453, section 3.9.2).
fn tell(
    plan: &Plan,
    failure: Option<Failure>,
    prefix: usize,
    link: usize,
    metric: u32,
    metrics: &mut [u8],
)
    requires link { link < length plan.now.links }
    requires up { is_link_up failure link ≡ true }
    requires exchanged { Exchanges plan.now link (block_at plan.now.prefixes prefix) }
    requires size { length plan.now.routers ≤ length metrics.old }
    requires metric { metric < 16 }
    requires teller { (s : ℕ) × (slice_index metrics.old s ≡ metric)
        × IsOn (left_to plan.now failure prefix) s link
        × (IsAttached (left_to plan.now failure prefix) s prefix link → ⊥) }
    ensures telling { IsTelling (left_to plan.now failure prefix) prefix metric
        metrics.old metrics.new }
    ensures told { IsTold (left_to plan.now failure prefix) prefix metric metrics.new link }
{
    plan.lawful();
    let numbers = plan.on_link(link);
    for j in numbers {
        let own = plan.interface(*j);
        let given = u32::from(own.cost) + metric;
        if given < u32::from(metrics[own.router]) && takes(plan, failure, own.router, prefix) {
            metrics[own.router] = given as u8;
        }
    }
}

/// A router tells its metric on each of its links that exchanges the prefix and where none was told
/// before, but where it has the prefix attached.
fn tell_on_all(
    plan: &Plan,
    failure: Option<Failure>,
    prefix: usize,
    router: usize,
    metrics: &mut [u8],
    marks: &mut [bool],
)
    requires router { router < length plan.now.routers }
    requires prefix { prefix < length plan.now.prefixes }
    requires size { length plan.now.routers ≤ length metrics.old }
    requires marks { length plan.now.links ≤ length marks.old }
    requires metric { slice_index metrics.old router < 16 }
    ensures telling { IsTelling (left_to plan.now failure prefix) prefix
        (slice_index metrics.old router) metrics.old metrics.new }
    ensures told { AreTold (left_to plan.now failure prefix) prefix
        (slice_index metrics.old router) metrics.old marks.old →
        AreTold (left_to plan.now failure prefix) prefix
        (slice_index metrics.old router) metrics.new marks.new }
    ensures all { HasTold (left_to plan.now failure prefix) prefix marks.new router }
    ensures kept { (l : ℕ) → slice_get marks.old l ≡ Some true → slice_get marks.new l ≡ Some true }
{
    plan.lawful();
    let metric = u32::from(metrics[router]);
    let attached = plan.attached_link(router, prefix);
    let block = plan.prefix(prefix);
    let numbers = plan.of_router(router);
    for i in numbers {
        let link = plan.interface(*i).link;
        if !marks[link]
            && is_alive(failure, router, link)
            && attached != Some(link)
            && plan.exchanges(link, block)
        {
            tell(plan, failure, prefix, link, metric, metrics);
            marks[link] = true;
        }
    }
}

/// Each router that has a metric tells it.
fn tell_metric(
    plan: &Plan,
    failure: Option<Failure>,
    prefix: usize,
    metric: u32,
    metrics: &mut [u8],
    marks: &mut [bool],
)
    requires prefix { prefix < length plan.now.prefixes }
    requires size { length plan.now.routers ≡ length metrics.old }
    requires marks { length plan.now.links ≤ length marks.old }
    requires metric { metric < 16 }
    ensures telling { IsTelling (left_to plan.now failure prefix) prefix metric
        metrics.old metrics.new }
    ensures told { AreTold (left_to plan.now failure prefix) prefix metric metrics.old marks.old →
        AreTold (left_to plan.now failure prefix) prefix metric metrics.new marks.new }
    ensures all { (r : ℕ) → r < length plan.now.routers → slice_index metrics.new r ≡ metric →
        HasTold (left_to plan.now failure prefix) prefix marks.new r }
{
    plan.lawful();
    for router in 0..metrics.len() {
        if u32::from(metrics[router]) == metric {
            tell_on_all(plan, failure, prefix, router, metrics, marks);
        }
    }
}

/// Whether a router has a metric above this one and below 16.
fn has_more(metrics: &[u8], metric: u32) -> bool
    ensures { result ≡ false → (r : ℕ) → r < length metrics.now →
        metric < slice_index metrics.now r → 16 ≤ slice_index metrics.now r }
{
    for router in 0..metrics.len() {
        let own = u32::from(metrics[router]);
        if own > metric && own < 16 {
            return true;
        }
    }
    false
}

/// Writes the least metric of each router for a prefix, after a failure where there is one. It
/// begins with the metrics at which routers have the prefix themselves. Routers tell their metrics
/// in ascending order, so that the first that is told on a link is the least one there.
pub(crate) fn find_least(plan: &Plan, failure: Option<Failure>, prefix: usize, metrics: &mut [u8])
    requires prefix { prefix < length plan.now.prefixes }
    requires size { length metrics.old ≡ length plan.now.routers }
    ensures { (r : ℕ) → r < length plan.now.routers →
        IsLeast (left_to plan.now failure prefix) prefix r (slice_index metrics.new r) }
{
    plan.lawful();
    fill_direct(plan, failure, prefix, metrics);
    let mut marks = [false; MOST_LINKS];
    for metric in 1..16 {
        tell_metric(plan, failure, prefix, metric, metrics, &mut marks);
        if !has_more(metrics, metric) {
            break;
        }
    }
}

/// The least metric of a router for a prefix, both by their numbers: the cost of the cheapest path,
/// or 16 where none costs less (RFC 2453, section 3.6) or the plan does not have the prefix. It
/// allocates nothing; [`Expected`](crate::Expected) has the least metrics of all.
pub fn least_metric(plan: &Plan, router: usize, prefix: usize) -> Metric
    requires { router < length plan.now.routers }
    ensures { IsLeast (network_at plan.now plan.now.prefixes prefix) prefix router result }
{
    plan.lawful();
    if prefix >= plan.prefixes() {
        return metric_of(16);
    }
    let mut room = [0u8; MOST_ROUTERS];
    let row = &mut room[..plan.routers()];
    find_least(plan, None, prefix, row);
    metric_of(u32::from(row[router]))
}
